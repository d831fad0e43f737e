//! Lists and bodies, rewritten in place.
ghost use Rattle.std.specs.Prelude.{◌≡◌, ◌-◌, ◌<◌, ◌≤◌, ⊤, List, ℕ, length, take, true, false, Some, IfSome, IsNone, Ok, Err, IfOk, IfErr, OnOk};
ghost use Rattle.std.specs.List.{flat_map};
ghost use Rattle.wasm_codec.specs.formats.Grammar.{TakesBytes, Joined};
ghost use Rattle.wasm_codec.specs.Outcomes.{IfMalformed, IfInItem, LiesIn, NamesItem, as_read, IfRefused, NeedsNoMemory, IsLongestPrefix, IsNormalForm, EncodesSome};
ghost use Rattle.wasm_codec.specs.Lawful.{IsLawful, IsLawfulBody};
ghost use Rattle.wasm_codec.specs.Lists.{BreaksAtItem, BreaksInBody, CountsItems, EncodesList, items_bytes, IsListPrefix};
ghost use Rattle.wasm_codec.specs.formats.Combinators.{Format, items, u32 as u32_format};
ghost use Rattle.wasm_codec.specs.formats.Bodies.{sized, to_end};
ghost use Rattle.wasm_codec.specs.Scanning.{BeginsShort, Scans, SkipsMinimal};
ghost use Rattle.wasm_codec.specs.declared.rewriter.scan.Scanned.TheVariants.{Minimal};
ghost use Rattle.wasm_codec.specs.Rewriter.{rewriting_after, CountsPassed, IsNew, Rewrites, RewritesAll, RewritesList, StopsInItem};

mod numbers;

use crate::rewriting::numbers::number_run;
use wasm_codec::reader::DecodeError;
use wasm_codec::reader::cursor::Fault;
use wasm_codec::reader::malformed::Stop;
use wasm_codec::rewriter::{Finished, Part, Rewriter, Scanned, are_bytes, scan_u32};

/// An item of a list that can be rewritten in place.
pub trait Rewritable {
    /// The decoded item, in contracts.
    ghost Value: { Type 0 };

    /// The bytes that encode each item.
    ghost format: { Format Value };

    /// What the bytes are if a fault names the item with this index. By default nothing is known.
    ghost Breaks: { List ℕ → ℕ → Type 0 } = { λ bytes index. ⊤ };

    /// Tells the proof that the format is lawful, and that each encoding of an item has at least one byte. The call
    /// does nothing.
    fn is_lawful()
        ensures lawful { IsLawful format }
        ensures some { TakesBytes format.Encodes };

    /// Replaces the next item by its minimal encoding. Fails with `Malformed` if no item can be decoded.
    fn rewrite(rewriter: &mut Rewriter) -> Result<(), Fault>
        ensures rewrites { Rewrites format rewriter.old rewriter.new result }
        ensures names { IfInItem result (Breaks rewriter.old.place.left) };

    /// Skips items that are minimally encoded, at most `most`. Returns how many. By default it skips none.
    fn skip_minimal(rewriter: &mut Rewriter, most: u32) -> u32
        ensures { SkipsMinimal format most rewriter.old rewriter.new result }
    {
        0
    }
}

/// An item of which any number can be rewritten one after another, up to the end of the bytes.
pub trait Joinable: Rewritable {
    /// Whether no item can be scanned. By default this isn't known.
    ghost NeverScans: { Type 0 } = { ⊥ };

    /// Scans the item that the bytes begin with. Returns `None` if it isn't one of those that can be scanned.
    fn scan(bytes: &[u8]) -> Option<Scanned>
        ensures scans { Scans Self.format bytes.now result }
        ensures never { NeverScans → IsNone result };

    /// Returns the length of the item that the bytes begin with, if it is of a frequent kind and minimally encoded. By
    /// default no kind is frequent.
    fn scan_frequent(bytes: &[u8]) -> Option<usize>
        ensures scans { IfSome result (λ count. Scans Self.format bytes.now (Some (Minimal count))) }
        ensures never { NeverScans → IsNone result }
    {
        None
    }

    /// Returns the length of the item that the bytes begin with, if it is minimally encoded and of a kind that `scan`
    /// doesn't take. By default there is no such kind.
    fn scan_rare(bytes: &[u8]) -> Option<usize>
        ensures scans { IfSome result (λ count. Scans Self.format bytes.now (Some (Minimal count))) }
        ensures never { NeverScans → IsNone result }
    {
        None
    }
}

impl Rewritable for u32 {
    ghost Value = { ℕ };

    ghost format = { u32_format };

    #[inline(always)]
    fn is_lawful() {}

    #[inline(always)]
    fn rewrite(rewriter: &mut Rewriter) -> Result<(), Fault> {
        rewriter.are_bytes();
        if let Some(scanned) = scan_u32(rewriter.left()) {
            rewriter.rewrite_scanned(scanned);
            return Ok(());
        }
        rewriter.u32()?;
        Ok(())
    }

    #[inline(always)]
    fn skip_minimal(rewriter: &mut Rewriter, most: u32) -> u32 {
        if most < 2 {
            // A run of one isn't worth the call.
            return 0;
        }
        rewriter.are_bytes();
        let run = number_run(rewriter.left(), most);
        rewriter.skip(run.size);
        run.items
    }
}

/// Rewrites a list: a count, and then the items (Core 3.0, Lists).
pub fn rewrite_list<T: Rewritable>(rewriter: &mut Rewriter) -> Result<(), Fault>
    ensures rewrites { Rewrites (items T.format) rewriter.old rewriter.new result }
    // If a fault names an item, the list breaks off there.
    ensures names { IfInItem result (BreaksAtItem u32_format T.format rewriter.old.place.left) }
{
    T::is_lawful();
    rewriter.are_bytes();
    let start = rewriter.start();
    let count = match rewriter.u32() {
        Ok(count) => count,
        Err(Fault::Malformed(in_count)) => {
            return Err(Fault::Malformed(in_count.outside_items()));
        }
        Err(Fault::Memory) => return Err(Fault::Memory),
    };
    rewriter.end_part(&start, Part::Number);
    let mut index = 0;
    while index < count {
        index += T::skip_minimal(rewriter, count - index);
        if index < count {
            rewrite_item::<T>(rewriter, index)?;
            index += 1;
        }
    }
    Ok(())
}

/// Rewrites the item with this index.
#[inline(always)]
fn rewrite_item<T: Rewritable>(rewriter: &mut Rewriter, index: u32) -> Result<(), Fault>
    ensures lawful { IsLawful T.format }
    ensures some { TakesBytes T.format.Encodes }
    ensures rewrites { Rewrites T.format rewriter.old rewriter.new result }
    ensures item { NamesItem (Some index) result }
{
    T::is_lawful();
    let start = rewriter.start();
    match T::rewrite(rewriter) {
        Ok(()) => {
            rewriter.end_part(&start, Part::Item(index));
            Ok(())
        }
        Err(Fault::Malformed(malformed)) => Err(Fault::Malformed(malformed.in_item(index))),
        Err(Fault::Memory) => Err(Fault::Memory),
    }
}

/// A body that is rewritten up to its end.
pub trait RewritableBody {
    /// The decoded body, in contracts.
    ghost Value: { Type 0 };

    /// The bytes that encode each body.
    ghost format: { Format Value };

    /// What the body is if a fault names the item with this index. By default nothing is known.
    ghost Breaks: { List ℕ → ℕ → Type 0 } = { λ body index. ⊤ };

    /// Tells the proof that the format is lawful if nothing follows. The call does nothing.
    fn is_lawful()
        ensures { IsLawfulBody format };

    /// Replaces the body by its minimal encoding. Trailing bytes are left over. Fails with `Malformed` if no body can
    /// be decoded.
    fn rewrite(rewriter: &mut Rewriter) -> Result<(), Fault>
        ensures rewrites { Rewrites format rewriter.old rewriter.new result }
        ensures names { IfInItem result (Breaks rewriter.old.place.left) };
}

/// Rewrites a size and the body after it. Fails with `Malformed` if the body is malformed or has trailing bytes.
pub fn rewrite_sized<T: RewritableBody>(rewriter: &mut Rewriter) -> Result<(), Fault>
    ensures rewrites { Rewrites (sized T.format) rewriter.old rewriter.new result }
    ensures names { IfInItem result (BreaksInBody T.Breaks rewriter.old.place.left) }
{
    T::is_lawful();
    rewriter.are_bytes();
    let start = rewriter.start();
    let body = match rewriter.open_body() {
        Ok(body) => body,
        Err(Fault::Malformed(in_size)) => {
            return Err(Fault::Malformed(in_size.outside_items()));
        }
        Err(Fault::Memory) => return Err(Fault::Memory),
    };
    rewriter.end_part(&start, Part::Number);
    T::rewrite(rewriter)?;
    if rewriter.len() > 0 {
        return Err(Fault::Malformed(rewriter.trailing()));
    }
    rewriter.close_body(body);
    Ok(())
}

/// Rewrites items one after another, up to the end.
pub fn rewrite_to_end<T: Joinable>(rewriter: &mut Rewriter) -> Result<(), Fault>
    ensures rewrites { Rewrites (to_end T.format) rewriter.old rewriter.new result }
{
    match rewrite_joined::<T>(rewriter) {
        Ok(()) => Ok(()),
        Err(stop) => Err(stop.fault),
    }
}

/// Rewrites items one after another, up to the end. Fails with the first malformed item.
pub fn rewrite_joined<T: Joinable>(rewriter: &mut Rewriter) -> Result<(), Stop>
    ensures rewrites { RewritesAll T.format rewriter.old rewriter.new result }
    ensures passed { T.NeverScans → IfErr result (CountsPassed T.format rewriter.old.place.left) }
    ensures names { IfErr result (StopsInItem T.Breaks rewriter.old.place.left) }
{
    T::is_lawful();
    rewriter.are_bytes();
    let _most = rewriter.len();
    let mut passed = 0usize;
    while rewriter.len() > 0 {
        let run = short_run::<T>(rewriter.left());
        rewriter.skip(run);
        let left = rewriter.len();
        if left != 0 {
            // Items that are scanned aren't counted, as those of a run aren't.
            if rewrite_scanned_item::<T>(rewriter) {
                continue;
            }
            let rare = rare_run::<T>(rewriter.left());
            if rare > 0 {
                rewriter.skip(rare);
                continue;
            }
            if let Err(fault) = T::rewrite(rewriter) {
                return Err(Stop::new(fault, left, passed));
            }
            passed += 1;
        }
    }
    Ok(())
}

/// Rewrites the next item and returns `true`, if 16 bytes are left and the item is scanned. Otherwise leaves the rewriter
/// as it is.
#[inline(always)]
#[tactic(auto, using(wasm_codec::proofs::Shortening::scanned_rewritten))]
fn rewrite_scanned_item<T: Joinable>(rewriter: &mut Rewriter) -> bool
    ensures rewrites { result ≡ true → rewriting_after T.format rewriter.old ≡ Some rewriter.new }
    ensures none { result ≡ false → rewriter.new ≡ rewriter.old }
    ensures never { T.NeverScans → result ≡ false }
{
    T::is_lawful();
    rewriter.are_bytes();
    // With 16 bytes left, the compiler drops the later length checks.
    if rewriter.len() < 16 {
        return false;
    }
    let Some(scanned) = T::scan(rewriter.left()) else {
        return false;
    };
    rewriter.rewrite_scanned(scanned);
    true
}

/// Returns the length of the run of rare, minimally encoded items that the bytes begin with.
#[inline(never)]
fn rare_run<T: Joinable>(bytes: &[u8]) -> usize
    ensures begins { BeginsShort T.format bytes.now result }
    ensures never { T.NeverScans → result ≡ 0 }
{
    T::is_lawful();
    are_bytes(bytes);
    let mut run = 0;
    while run < bytes.len() {
        let Some(count) = T::scan_rare(&bytes[run..bytes.len()]) else {
            break;
        };
        run += count;
    }
    run
}

/// Returns the length of the run of scanned, minimally encoded items that the bytes begin with.
fn short_run<T: Joinable>(bytes: &[u8]) -> usize
    ensures begins { BeginsShort T.format bytes.now result }
    ensures never { T.NeverScans → result ≡ 0 }
{
    // With 16 bytes ahead, the compiler drops most length checks.
    let left = left_after_run::<T, 16>(bytes, 0);
    let run = bytes.len() - left;
    if left < 16 {
        bytes.len() - left_after_run::<T, 1>(bytes, run)
    } else {
        run
    }
}

/// Checks whether the first `count` bytes are a run of scanned, minimally encoded items. Returns `false` if fewer than 16
/// bytes follow the start of an item.
#[inline(never)]
pub fn begins_run<T: Joinable>(bytes: &[u8], count: usize) -> bool
    ensures { result ≡ true → BeginsShort T.format bytes.now count }
{
    T::is_lawful();
    are_bytes(bytes);
    let mut run = 0;
    while run < count && run + 16 <= bytes.len() {
        let Some(count) = scan_short::<T>(&bytes[run..run + 16]) else {
            return false;
        };
        run += count;
    }
    run == count
}

/// Returns the length of the item that the bytes begin with. Returns `None` unless it is scanned and minimally encoded.
#[inline(always)]
fn scan_short<T: Joinable>(bytes: &[u8]) -> Option<usize>
    ensures scans { IfSome result (λ count. Scans T.format bytes.now (Some (Minimal count))) }
    ensures never { T.NeverScans → IsNone result }
{
    // Tests for the frequent kinds alone are predicted better than a jump to one of all kinds.
    if let Some(count) = T::scan_frequent(bytes) {
        return Some(count);
    }
    match T::scan(bytes)? {
        Scanned::Minimal(count) => Some(count),
        Scanned::Padded { .. } => None,
    }
}

/// Extends a run that has `begun` bytes, while at least `AHEAD` bytes follow. Returns the number of bytes after the run:
/// with its length, the loop would copy a register in each turn.
#[inline(never)]
fn left_after_run<T: Joinable, const AHEAD: usize>(bytes: &[u8], begun: usize) -> usize
    requires { BeginsShort T.format bytes.now begun }
    ensures within { result ≤ length bytes.now }
    ensures begins { BeginsShort T.format bytes.now (length bytes.now - result) }
    ensures never { T.NeverScans → length bytes.now - result ≡ begun }
{
    T::is_lawful();
    are_bytes(bytes);
    let mut run = begun;
    if bytes.len() < AHEAD {
        return bytes.len() - run;
    }
    let last = bytes.len() - AHEAD;
    while run <= last {
        let end = if AHEAD > 1 { run + AHEAD } else { bytes.len() };
        let Some(count) = scan_short::<T>(&bytes[run..end]) else {
            break;
        };
        run += count;
    }
    bytes.len() - run
}

/// A slice that was rewritten, and what came of it.
#[derive(Drop)]
pub struct Rewritten<'a> {
    /// The slice.
    pub bytes: &'a mut [u8],
    /// Length in bytes of the minimal encoding, which begins the slice; or why the bytes are malformed.
    pub len: Result<usize, DecodeError>,
}

impl<'a> Rewritten<'a> {
    /// Returns the slice of a rewriter, and this outcome of its work.
    pub fn new(rewriter: Rewriter<'a>, outcome: Result<(), DecodeError>) -> Rewritten<'a>
        ensures same_reference { result.bytes.ghost_name ≡ rewriter.entry.rest.name }
        ensures ok { OnOk outcome (result.len ≡ Ok (length rewriter.entry.done)) }
        ensures err { IfErr outcome (λ e. result.len ≡ Err e) }
        ensures within { length rewriter.entry.done ≤ length result.bytes.now }
        ensures done { take (length rewriter.entry.done) result.bytes.now ≡ rewriter.entry.done }
    {
        let Finished { bytes, len } = rewriter.finish();
        let len = match outcome {
            Ok(()) => Ok(len),
            Err(error) => Err(error),
        };
        Rewritten { bytes, len }
    }
}

/// Replaces the items that the bytes encode one after another, without a count, by their minimal encodings in place.
/// Returns the length of these, which begin the slice.
///
/// Allocates nothing, and never fails with `Memory`. Fails with `Malformed` at the offset of the first malformed item;
/// the bytes are then unspecified.
pub fn rewrite_items_to_end<T: Joinable>(bytes: &mut [u8]) -> Result<usize, DecodeError>
    ensures len { IfOk result (λ len. len ≤ length bytes.new) }
    ensures given { IfOk (as_read result) (λ len. IsNormalForm (Joined T.format.Encodes) (flat_map T.format.bytes) bytes.old (take len bytes.new)) }
    ensures prefix { IfRefused (as_read result) (IsLongestPrefix (EncodesSome (Joined T.format.Encodes)) bytes.old) }
    ensures within { IfRefused (as_read result) (λ at. at < length bytes.old) }
    ensures memory { NeedsNoMemory (as_read result) }
    ensures place { IfErr result (LiesIn (length bytes.old)) }
{
    let Rewritten { bytes: _bytes, len } = rewritten_items::<T>(bytes);
    len
}

/// Rewrites the items, and returns the same slice.
fn rewritten_items<'a, T: Joinable>(bytes: &'a mut [u8]) -> Rewritten<'a>
    ensures same_reference { IfOk result.len (λ _. result.bytes.ghost_name ≡ bytes.entry.ghost_name) }
    ensures len { IfOk result.len (λ len. len ≤ length result.bytes.now) }
    ensures given { IfOk (as_read result.len) (λ len. IsNormalForm (Joined T.format.Encodes) (flat_map T.format.bytes) bytes.old (take len result.bytes.now)) }
    ensures prefix { IfRefused (as_read result.len) (IsLongestPrefix (EncodesSome (Joined T.format.Encodes)) bytes.old) }
    ensures within { IfRefused (as_read result.len) (λ at. at < length bytes.old) }
    ensures memory { NeedsNoMemory (as_read result.len) }
    ensures place { IfErr result.len (LiesIn (length bytes.old)) }
{
    T::is_lawful();
    let all = bytes.len();
    let mut rewriter = Rewriter::new(bytes);
    rewriter.are_bytes();
    match rewrite_joined::<T>(&mut rewriter) {
        Ok(()) => Rewritten::new(rewriter, Ok(())),
        Err(stop) => Rewritten::new(rewriter, Err(DecodeError::stopped(stop, all))),
    }
}

/// Replaces the list that the bytes encode by its minimal encoding in place. Returns the length of it, which begins the
/// slice.
///
/// Allocates nothing, and never fails with `Memory`. Fails with `Malformed` at the length of the longest well-formed
/// prefix; the bytes are then unspecified.
pub fn rewrite_list_to_end<T: Rewritable>(bytes: &mut [u8]) -> Result<usize, DecodeError>
    ensures len { IfOk result (λ len. len ≤ length bytes.new) }
    ensures given { IfOk (as_read result) (λ len. IsNormalForm (EncodesList T.format.Encodes) (items_bytes T.format.bytes) bytes.old (take len bytes.new)) }
    ensures prefix { IfRefused (as_read result) (IsLongestPrefix (IsListPrefix T.format.Encodes) bytes.old) }
    ensures unencoded { IfRefused (as_read result) (λ _. (items : List T.Value) → EncodesList T.format.Encodes bytes.old items → ⊥) }
    ensures memory { NeedsNoMemory (as_read result) }
    ensures place { IfErr result (LiesIn (length bytes.old)) }
    // The item that a refusal names counts the items before it.
    ensures counts { IfMalformed result (CountsItems false T.format bytes.old) }
{
    let Rewritten { bytes: _bytes, len } = rewritten_list::<T>(bytes);
    len
}

/// Rewrites the list that the bytes encode, and returns the same slice.
fn rewritten_list<'a, T: Rewritable>(bytes: &'a mut [u8]) -> Rewritten<'a>
    ensures same_reference { IfOk result.len (λ _. result.bytes.ghost_name ≡ bytes.entry.ghost_name) }
    ensures len { IfOk result.len (λ len. len ≤ length result.bytes.now) }
    ensures rewrites { RewritesList T.format bytes.old (λ len. take len result.bytes.now) (as_read result.len) }
    ensures place { IfErr result.len (LiesIn (length bytes.old)) }
    ensures counts { IfMalformed result.len (CountsItems false T.format bytes.old) }
{
    let mut rewriter = Rewriter::new(bytes);
    match rewrite_whole_list::<T>(&mut rewriter) {
        Ok(()) => Rewritten::new(rewriter, Ok(())),
        Err(error) => Rewritten::new(rewriter, Err(error)),
    }
}

/// Rewrites the list that the bytes left encode. Fails with the length of the longest well-formed prefix.
fn rewrite_whole_list<T: Rewritable>(rewriter: &mut Rewriter) -> Result<(), DecodeError>
    requires { IsNew rewriter.old }
    ensures rest { IfOk result (λ _. rewriter.new.rest ≡ rewriter.old.rest) }
    ensures rewrites { RewritesList T.format rewriter.old.place.left (λ _. rewriter.new.done) (as_read result) }
    ensures place { IfErr result (LiesIn (length rewriter.old.place.left)) }
    ensures counts { IfMalformed result (CountsItems false T.format rewriter.old.place.left) }
{
    T::is_lawful();
    rewriter.are_bytes();
    let len = rewriter.len();
    let count = match rewriter.u32() {
        Ok(count) => count,
        Err(fault) => return Err(DecodeError::new(fault, 0, len).outside_items()),
    };
    for index in 0..count {
        let left = rewriter.len();
        if let Err(fault) = T::rewrite(rewriter) {
            return Err(DecodeError::new(fault, len - left, len).in_item(index));
        }
    }
    let left = rewriter.len();
    if left > 0 {
        return Err(DecodeError::refused(&rewriter.trailing(), len - left, len));
    }
    Ok(())
}
