//! Modules rewritten section by section, with counts of the items that weren't minimally encoded.
ghost use Rattle.std.specs.Prelude.{◌≡◌, ◌≤◌, ⊤, ℕ, List, [], Option, OnOk, IfOk, IfErr, length};
ghost use Rattle.wasm_codec.specs.Decoding.{RewritesInPlace};
ghost use Rattle.wasm_codec.specs.Lawful.{IsLawful};
ghost use Rattle.wasm_codec.specs.Outcomes.{FailsMalformed, LiesIn, NeedsNoMemory, as_read};
ghost use Rattle.wasm_codec.specs.Rewriter.{Rewrites, RewritesAll as RewritesToEnd};
ghost use Rattle.wasm_codec.specs.formats.Bodies.{sized};
ghost use Rattle.wasm_codec.specs.formats.Combinators.{items};
ghost use Rattle.wasm_code.specs.Modules.{IsModulePrefixOf};
ghost use Rattle.wasm_sections.specs.formats.ModuleSections.{module_section, whole_module};
ghost use Rattle.wasm_modules.specs.Counting.{as_done, TellsLonger, CountsBefore, CountsSized, CountsList, CountsNone, CountsSection, Shows, ShowsModule};
ghost use Rattle.wasm_modules.specs.declared.counting.ItemCounts.{ItemCounts};

use wasm_code::normaliser::framing::rewrite_module_of;
use wasm_code::raw::after_header;
use wasm_code::section::HEADER;
use wasm_codec::reader::DecodeError;
use wasm_codec::reader::cursor::Fault;
use wasm_codec::reader::malformed::{Construct, Malformed, Reason, Stop};
use wasm_codec::rewriter::Rewriter;
use wasm_lists::rewriting::{Rewritable, RewritableBody, Rewritten, rewrite_sized};
use wasm_sections::module_sections::{AnySection, SectionKind, SectionVisitor, visit_section};

/// The number of items in a list, and how many aren't minimally encoded.
#[derive(Clone, Copy, Debug, PartialEq, Eq)]
pub struct ItemCounts {
    /// Number of items.
    pub count: u32,
    /// Number of items that are longer than their minimal encoding.
    pub longer: u32,
}

/// What is done with each section of a module that is rewritten.
pub trait SectionWatcher {
    /// How the watcher changes when it sees these bytes, in contracts. By default nothing is known.
    ghost Sees: { List ℕ → Self → Self → Type 0 } = { λ left old new. ⊤ };

    /// How it changes when it takes this length and these counts, in contracts. By default nothing is known.
    ghost Takes: { ℕ → Option ItemCounts → Self → Self → Type 0 } = { λ len counts old new. ⊤ };

    /// Looks at the bytes from the next section on, before it is rewritten.
    fn before(&mut self, left: &[u8])
        ensures sees { Sees left.now self.old self.new };

    /// Takes the length of the section's minimal encoding in bytes, and the counts of its items. `None` means that it isn't
    /// a list.
    fn after(&mut self, len: usize, counts: Option<ItemCounts>)
        ensures takes { Takes len counts self.old self.new };
}

/// Replaces a module by its minimal encoding in place (Core 3.0, Modules), and shows each section to the watcher. Returns
/// the length of the minimal encoding, which begins the slice.
///
/// Fails with `Malformed` as `rewrite::<WholeModule>` does, after the sections before the malformed one were shown; the
/// bytes are then unspecified. Allocates nothing.
pub fn rewrite_watched<W: SectionWatcher>(
    bytes: &mut [u8],
    watcher: &mut W,
) -> Result<usize, DecodeError>
    ensures len { IfOk result (λ len. len ≤ length bytes.new) }
    ensures rewrites { RewritesInPlace whole_module (IsModulePrefixOf module_section) bytes.old bytes.new (as_read result) }
    ensures memory { NeedsNoMemory (as_read result) }
    ensures place { IfErr result (LiesIn (length bytes.old)) }
    // The watcher is shown each section of a module.
    ensures shows { OnOk result (ShowsModule W.Sees W.Takes bytes.old watcher.old watcher.new) }
{
    let Rewritten { bytes: _bytes, len } = watched::<W>(bytes, watcher);
    len
}

/// Rewrites a module and shows its sections, and returns the same slice.
fn watched<'a, W: SectionWatcher>(bytes: &'a mut [u8], watcher: &mut W) -> Rewritten<'a>
    ensures same_reference { IfOk result.len (λ _. result.bytes.ghost_name ≡ bytes.entry.ghost_name) }
    ensures len { IfOk result.len (λ len. len ≤ length result.bytes.now) }
    ensures rewrites { RewritesInPlace whole_module (IsModulePrefixOf module_section) bytes.old result.bytes.now (as_read result.len) }
    ensures memory { NeedsNoMemory (as_read result.len) }
    ensures place { IfErr result.len (LiesIn (length bytes.old)) }
    ensures shows { OnOk result.len (ShowsModule W.Sees W.Takes bytes.old watcher.old watcher.new) }
{
    let all = bytes.len();
    let Some(_sections) = after_header(bytes) else {
        // Without the header it has no sections to show.
        return Rewritten {
            len: rewrite_module_of::<AnySection>(bytes),
            bytes,
        };
    };
    let mut counting = CountingRewriter {
        rewriter: Rewriter::new(bytes),
    };
    counting.rewriter.skip(HEADER.len());
    counting.rewriter.are_bytes();
    match rewrite_sections(&mut counting, watcher) {
        Ok(()) => Rewritten::new(counting.rewriter, Ok(())),
        Err(stop) => Rewritten::new(
            counting.rewriter,
            Err(DecodeError::stopped(stop, all).numbered(stop.passed)),
        ),
    }
}

/// Rewrites sections one after another, up to the end, and shows each to the watcher. Fails with the first malformed one.
fn rewrite_sections<W: SectionWatcher>(
    counting: &mut CountingRewriter<'_>,
    watcher: &mut W,
) -> Result<(), Stop>
    ensures rewrites { RewritesToEnd module_section counting.old.rewriter counting.new.rewriter result }
    ensures shows { OnOk result (Shows W.Sees W.Takes counting.old.rewriter.place.left watcher.old [] watcher.new) }
{
    counting.rewriter.are_bytes();
    let mut passed = 0usize;
    while counting.rewriter.len() > 0 {
        counting.rewriter.are_bytes();
        watcher.before(counting.rewriter.left());
        let (left, mark) = (counting.rewriter.len(), counting.rewriter.written_len());
        match counting.rewrite_section() {
            Ok(counts) => {
                let len = counting.rewriter.written_len().saturating_sub(mark);
                watcher.after(len, counts);
            }
            Err(fault) => return Err(Stop::new(fault, left, passed)),
        }
        passed = passed.wrapping_add(1);
    }
    Ok(())
}

/// A rewriter of sections that counts their items.
#[derive(Drop)]
pub struct CountingRewriter<'a> {
    /// The rewriter of the module.
    pub rewriter: Rewriter<'a>,
}

impl<'a> CountingRewriter<'a> {
    /// Rewrites the next section to its minimal encoding, and counts its items. `None` means that it isn't a list.
    ///
    /// Fails with `Malformed` if no section can be decoded. The fault carries the section's id.
    pub fn rewrite_section(&mut self) -> Result<Option<ItemCounts>, Fault>
        // The section is rewritten to its minimal encoding.
        ensures rewrites { Rewrites module_section self.old.rewriter self.new.rewriter (as_done result) }
        // If it is a list, it has `count` items, of which `longer` are longer than their minimal encoding.
        ensures counts { IfOk result (CountsSection self.old.rewriter.place.left) }
    {
        self.rewriter.are_bytes();
        let id = self.rewriter.byte_of(Construct::SectionId)?;
        match visit_section(id, self) {
            Ok(counts) => Ok(counts),
            Err(Fault::Malformed(malformed)) => Err(Fault::Malformed(malformed.in_section(id))),
            Err(Fault::Memory) => Err(Fault::Memory),
        }
    }
}

impl<'a> SectionVisitor for CountingRewriter<'a> {
    type Output = Result<Option<ItemCounts>, Fault>;

    ghost visits_list = { λ V F C B old new result. CountsList F old.rewriter new.rewriter result };

    ghost visits_body = { λ V F C old new result. CountsNone F old.rewriter new.rewriter result };

    ghost visits_unknown = { λ old new result. FailsMalformed result };

    fn visit_list<T: Rewritable + SectionKind>(&mut self) -> Result<Option<ItemCounts>, Fault> {
        match rewrite_sized_list::<T>(&mut self.rewriter) {
            Ok(counts) => Ok(Some(counts)),
            Err(fault) => Err(fault),
        }
    }

    fn visit_body<B: RewritableBody, K: SectionKind>(
        &mut self,
    ) -> Result<Option<ItemCounts>, Fault> {
        match rewrite_sized::<B>(&mut self.rewriter) {
            Ok(()) => Ok(None),
            Err(fault) => Err(fault),
        }
    }

    fn visit_unknown(&mut self, id: u8) -> Result<Option<ItemCounts>, Fault> {
        let left = self.rewriter.to_end();
        Err(Fault::Malformed(Malformed::new(Reason::UnknownSection { id }, left.wrapping_add(1))))
    }
}

/// Rewrites a size and the list after it, and counts the items. Fails with `Malformed` if the list is malformed or has
/// trailing bytes.
fn rewrite_sized_list<T: Rewritable>(rewriter: &mut Rewriter) -> Result<ItemCounts, Fault>
    ensures rewrites { Rewrites (sized (items T.format)) rewriter.old rewriter.new (as_done result) }
    ensures counts { IfOk result (CountsSized T.format rewriter.old.place.left) }
{
    T::is_lawful();
    rewriter.are_bytes();
    let body = rewriter.open_body()?;
    let counts = rewrite_list::<T>(rewriter)?;
    if rewriter.len() > 0 {
        return Err(Fault::Malformed(rewriter.trailing()));
    }
    rewriter.close_body(body);
    Ok(counts)
}

/// Rewrites a list, and counts its items (Core 3.0, Lists).
fn rewrite_list<T: Rewritable>(rewriter: &mut Rewriter) -> Result<ItemCounts, Fault>
    ensures rewrites { Rewrites (items T.format) rewriter.old rewriter.new (as_done result) }
    ensures counts { IfOk result (CountsBefore T.format rewriter.old.place.left rewriter.new.place.left) }
{
    T::is_lawful();
    rewriter.are_bytes();
    let count = rewriter.u32()?;
    let mut index = 0;
    let mut longer = 0;
    while index < count {
        index += T::skip_minimal(rewriter, count - index);
        if index < count {
            if rewrite_item::<T>(rewriter, index)? {
                longer += 1;
            }
            index += 1;
        }
    }
    Ok(ItemCounts { count, longer })
}

/// Rewrites the item with this index. Returns whether it was longer than its minimal encoding.
fn rewrite_item<T: Rewritable>(rewriter: &mut Rewriter, index: u32) -> Result<bool, Fault>
    ensures lawful { IsLawful T.format }
    ensures rewrites { Rewrites T.format rewriter.old rewriter.new (as_done result) }
    ensures longer { IfOk result (TellsLonger rewriter.old rewriter.new) }
{
    T::is_lawful();
    rewriter.are_bytes();
    let (left, mark) = (rewriter.len(), rewriter.written_len());
    match T::rewrite(rewriter) {
        Ok(()) => Ok(rewriter.written_len() - mark < left - rewriter.len()),
        Err(Fault::Malformed(malformed)) => Err(Fault::Malformed(malformed.in_item(index))),
        Err(Fault::Memory) => Err(Fault::Memory),
    }
}
