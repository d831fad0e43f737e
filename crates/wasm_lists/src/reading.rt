//! Readers of lists: a count and then the items, or items up to the end of the bytes (Core 3.0, Lists).
//!
//! If `STRICT` is set, a loop accepts minimal encodings only, and stops at the first other one.
ghost use Rattle.std.specs.Prelude.{◌≡◌, ◌^◌, ◌<◌, ℕ, List, [], length, Some, None, IfOk, IfErr};
ghost use Rattle.wasm_codec.specs.Outcomes.{IfMalformed, IfInItem, LiesIn, IsMalformed, NamesItem};
ghost use Rattle.wasm_codec.specs.formats.Grammar.{IsBytes, TakesBytes, Joined};
ghost use Rattle.wasm_codec.specs.Reading.{ReadsPlain, FindsAt, map_ok};
ghost use Rattle.wasm_codec.specs.Places.{Reads, counted_at, WasMinimalIf};
ghost use Rattle.wasm_codec.specs.Lawful.{IsLawful, plain};
ghost use Rattle.wasm_codec.specs.formats.Combinators.{items, minimal_if, minimal_only, u32 as u32_format};
ghost use Rattle.wasm_codec.specs.formats.Bodies.{to_end};
ghost use Rattle.wasm_codec.specs.Outcomes.{as_read, IfRefused, IsLongestPrefix, IsAfterLongest, UnlessMemory, EncodesSome};
ghost use Rattle.wasm_lists.specs.declared.reading.Number.TheVariants.{Count, Item, Uncounted};
ghost use Rattle.wasm_codec.specs.Rewriter.{CountsPassed, StopsBehind, StopsInItem, faulted};
ghost use Rattle.wasm_codec.specs.Lists.{BreaksAtItem, CountsItems, CountsRead, EncodesList, list_at, IsListPrefix, ListMinimalIf, list_minimal_if_at, IsListPrefixMinimalIf};

use crate::list::Items;
use crate::readable::Readable;
use std::alloc::Global;
use wasm_codec::reader::DecodeError;
use wasm_codec::reader::cursor::{Cursor, Fault};
use wasm_codec::reader::malformed::{Malformed, Reason, Stop};

/// Reads a list: a count, and then the items (Core 3.0, Lists).
///
/// If the count or an item is missing or malformed, the cursor stays at its start.
pub fn read_list<'a, T: Readable<'a>>(
    alloc: Global,
    cursor: &mut Cursor<'a>,
) -> Result<Items<T>, Fault>
    ensures reads { Reads (items T.format).at cursor.old cursor.new (map_ok T.views result) }
    ensures left { ReadsPlain (list_at (plain T.format.at)) cursor.old.left cursor.new.left (map_ok T.views result) }
    // A list is read if and only if the bytes left begin with its encoding.
    ensures finds { UnlessMemory result (FindsAt (EncodesList T.format.Encodes) (list_at (plain T.format.at)) cursor.old.left) }
    // The cursor stays after the longest well-formed prefix.
    ensures prefix { UnlessMemory result (IsAfterLongest (IsListPrefix T.format.Encodes) cursor.old.left cursor.new.left) }
    // A u32 can count the items.
    ensures counted { IfOk result (λ items. length items < 2 ^ 32) }
    // If a fault names an item, the list breaks off there.
    ensures names { IfInItem result (BreaksAtItem u32_format T.format cursor.old.left) }
{
    read_list_minimal_if::<T, false>(alloc, cursor)
}

/// Reads a list, minimally encoded if `STRICT` is set.
fn read_list_minimal_if<'a, T: Readable<'a>, const STRICT: bool>(
    alloc: Global,
    cursor: &mut Cursor<'a>,
) -> Result<Items<T>, Fault>
    requires passed { WasMinimalIf STRICT cursor.old }
    ensures reads { Reads (counted_at (minimal_if STRICT u32_format).at (minimal_if STRICT T.format).at) cursor.old cursor.new (map_ok T.views result) }
    ensures left { ReadsPlain (list_minimal_if_at STRICT T.format) cursor.old.left cursor.new.left (map_ok T.views result) }
    ensures finds { UnlessMemory result (FindsAt (ListMinimalIf STRICT T.format) (list_minimal_if_at STRICT T.format) cursor.old.left) }
    ensures prefix { UnlessMemory result (IsAfterLongest (IsListPrefixMinimalIf STRICT T.format) cursor.old.left cursor.new.left) }
    ensures counted { IfOk result (λ items. length items < 2 ^ 32) }
    ensures numbers { CountsRead STRICT T.format cursor.old.left cursor.new.left result }
    ensures names { IfInItem result (BreaksAtItem (minimal_if STRICT u32_format) (minimal_if STRICT T.format) cursor.old.left) }
{
    let count: u32 = read_next_item::<u32, STRICT>(alloc, cursor, Number::Count)?;
    let mut items = Vec::new(alloc);
    for index in 0..count {
        let item = read_next_item::<T, STRICT>(alloc, cursor, Number::Item(index))?;
        items.push(item)?;
    }
    Ok(Items::from(items))
}

/// The number of what is read, which a fault in it carries on.
#[derive(Clone, Copy)]
pub enum Number {
    /// The count of a list.
    Count,
    /// An item of a list, with its index.
    Item(u32),
    /// An item without a count, such as a section. A fault keeps the number that it has.
    Uncounted,
}

impl Number {
    /// Adds the number to a fault.
    fn add_to(self, malformed: Malformed) -> Malformed
        ensures count { self ≡ Count → result.item ≡ None }
        ensures item { (index : ℕ) → self ≡ Item index → result.item ≡ Some index }
        ensures uncounted { self ≡ Uncounted → result ≡ malformed }
    {
        match self {
            Number::Count => malformed.outside_items(),
            Number::Item(index) => malformed.in_item(index),
            Number::Uncounted => malformed,
        }
    }
}

/// Reads the next item, minimally encoded if `STRICT` is set. If it fails, the cursor stays where it was.
#[tactic(auto, using(wasm_codec::proofs::PlaceLists::plain_code))]
pub fn read_next_item<'a, T: Readable<'a>, const STRICT: bool>(
    alloc: Global,
    cursor: &mut Cursor<'a>,
    number: Number,
) -> Result<T, Fault>
    requires passed { WasMinimalIf STRICT cursor.old }
    ensures reads { Reads (minimal_if STRICT T.format).at cursor.old cursor.new (map_ok T.view result) }
    ensures left { ReadsPlain (plain (minimal_if STRICT T.format).at) cursor.old.left cursor.new.left (map_ok T.view result) }
    ensures passed { WasMinimalIf STRICT cursor.new }
    ensures stays { IfErr result (λ _. cursor.new ≡ cursor.old) }
    ensures count { number ≡ Count → NamesItem None result }
    ensures item { (index : ℕ) → number ≡ Item index → NamesItem (Some index) result }
    ensures uncounted { number ≡ Uncounted → IfInItem result (T.Breaks cursor.old.left) }
    ensures bytes { IsBytes cursor.old.left }
    ensures lawful { IsLawful (minimal_if STRICT T.format) }
    ensures some { TakesBytes (minimal_if STRICT T.format).Encodes }
{
    let start = cursor.fork();
    match read_item::<T, STRICT>(alloc, cursor) {
        Ok(item) => Ok(item),
        Err(Fault::Malformed(malformed)) => {
            *cursor = start;
            Err(Fault::Malformed(number.add_to(malformed)))
        }
        Err(Fault::Memory) => {
            *cursor = start;
            Err(Fault::Memory)
        }
    }
}

/// Reads the next item, minimally encoded if `STRICT` is set.
fn read_item<'a, T: Readable<'a>, const STRICT: bool>(
    alloc: Global,
    cursor: &mut Cursor<'a>,
) -> Result<T, Fault>
    requires passed { WasMinimalIf STRICT cursor.old }
    ensures reads { Reads (minimal_if STRICT T.format).at cursor.old cursor.new (map_ok T.view result) }
    ensures passed { IfOk result (λ _. WasMinimalIf STRICT cursor.new) }
    ensures names { IfInItem result (T.Breaks cursor.old.left) }
    ensures lawful { IsLawful (minimal_if STRICT T.format) }
    ensures some { TakesBytes (minimal_if STRICT T.format).Encodes }
{
    T::is_lawful();
    let start = cursor.to_end();
    let item = T::read(alloc, cursor)?;
    if STRICT && !cursor.is_minimal() {
        return Err(Fault::Malformed(Malformed::new(Reason::LongForm, start)));
    }
    Ok(item)
}

/// Reads a list from all of the bytes: a count, and then the items, minimally encoded if `STRICT` is set (Core 3.0,
/// Lists).
///
/// Fails with `Malformed` if the bytes are malformed: `at` is the offset of the first malformed or missing item, or of
/// trailing bytes. It is 0 if the count is malformed. Fails with `Memory` if an allocation fails.
///
/// # Examples
///
/// ```
/// # use wasm_encoder::read_list_to_end;
/// let indexes = read_list_to_end::<u32, false>(rt.alloc(), b"\x02\x07\x80\x01")?;
/// assert_eq!(rt; indexes.as_slice(), [7, 128].as_slice());
/// let trailing = read_list_to_end::<u32, false>(rt.alloc(), b"\x01\x07\x00");
/// assert_eq!(rt; trailing.err().and_then(|error| error.at()), Some(2));
/// ```
pub fn read_list_to_end<'a, T: Readable<'a>, const STRICT: bool>(
    alloc: Global,
    bytes: &'a [u8],
) -> Result<Vec<T>, DecodeError>
    ensures given { IfOk (as_read result) (λ items. ListMinimalIf STRICT T.format bytes.now (T.views items.items)) }
    ensures prefix { IfRefused (as_read result) (IsLongestPrefix (IsListPrefixMinimalIf STRICT T.format) bytes.now) }
    ensures unencoded { IfRefused (as_read result) (λ _. (items : List T.Value) → ListMinimalIf STRICT T.format bytes.now items → ⊥) }
    ensures counted { IfOk result (λ items. length items.items < 2 ^ 32) }
    ensures place { IfErr result (LiesIn (length bytes.now)) }
    // The item that a refusal names counts the items before it.
    ensures counts { IfMalformed result (CountsItems STRICT T.format bytes.now) }
{
    let mut cursor = Cursor::new(bytes);
    match read_list_minimal_if::<T, STRICT>(alloc, &mut cursor) {
        Ok(items) => {
            if cursor.len() > 0 {
                let at = bytes.len() - cursor.len();
                return Err(DecodeError::refused(&cursor.trailing(), at, bytes.len()));
            }
            Ok(items.into_vec())
        }
        Err(Fault::Malformed(malformed)) => {
            let at = bytes.len() - cursor.len();
            Err(DecodeError::refused(&malformed, at, bytes.len()))
        }
        Err(Fault::Memory) => Err(DecodeError::Memory),
    }
}

/// Reads items one after another, without a count, from all of the bytes, minimally encoded if `STRICT` is set.
///
/// Fails with `Malformed` at the offset of the first malformed item, and with `Memory` if an allocation fails.
pub fn read_items_to_end<'a, T: Readable<'a>, const STRICT: bool>(
    alloc: Global,
    bytes: &'a [u8],
) -> Result<Vec<T>, DecodeError>
    ensures given { IfOk (as_read result) (λ items. Joined (minimal_if STRICT T.format).Encodes bytes.now (T.views items.items)) }
    ensures prefix { IfRefused (as_read result) (IsLongestPrefix (EncodesSome (Joined (minimal_if STRICT T.format).Encodes)) bytes.now) }
    ensures within { IfRefused (as_read result) (λ at. at < length bytes.now) }
    ensures place { IfErr result (LiesIn (length bytes.now)) }
{
    match read_joined::<T, STRICT>(alloc, bytes) {
        Ok(items) => Ok(items),
        Err(stop) => Err(DecodeError::stopped(stop, bytes.len())),
    }
}

/// Reads items one after another, without a count, from all of the bytes, minimally encoded if `STRICT` is set.
///
/// Fails with the first malformed item and the number of items before it, or if an allocation fails.
pub fn read_joined<'a, T: Readable<'a>, const STRICT: bool>(
    alloc: Global,
    bytes: &'a [u8],
) -> Result<Vec<T>, Stop>
    ensures given { IfOk result (λ items. Joined (minimal_if STRICT T.format).Encodes bytes.now (T.views items.items)) }
    ensures stops { IfErr result (StopsBehind (minimal_if STRICT T.format) bytes.now) }
    ensures passed { IfErr result (CountsPassed (minimal_if STRICT T.format) bytes.now) }
    ensures names { IfErr result (StopsInItem T.Breaks bytes.now) }
{
    let mut cursor = Cursor::new(bytes);
    match read_items_minimal_if::<T, STRICT>(alloc, &mut cursor) {
        Ok(items) => Ok(items.into_vec()),
        Err(stop) => Err(stop),
    }
}

/// Checks that the bytes are items one after another, without a count, minimally encoded. Keeps none of them.
///
/// Fails with the first item that is malformed or not minimal, and the number of items before it, or if an allocation
/// fails.
pub fn check_joined_items<'a, T: Readable<'a>>(alloc: Global, bytes: &'a [u8]) -> Result<(), Stop>
    ensures given { IfOk result (λ _. EncodesSome (Joined (minimal_only T.format).Encodes) bytes.now) }
    ensures stops { IfErr result (StopsBehind (minimal_only T.format) bytes.now) }
    ensures passed { IfErr result (CountsPassed (minimal_only T.format) bytes.now) }
    ensures names { IfErr result (StopsInItem T.Breaks bytes.now) }
{
    let mut cursor = Cursor::new(bytes);
    let mut passed = 0usize;
    while cursor.len() > 0 {
        match read_next_item::<T, true>(alloc, &mut cursor, Number::Uncounted) {
            Ok(_) => passed += 1,
            Err(fault) => return Err(Stop::new(fault, cursor.len(), passed)),
        }
    }
    Ok(())
}

/// Reads items up to the end of the cursor's bytes, minimally encoded if `STRICT` is set.
fn read_items_minimal_if<'a, T: Readable<'a>, const STRICT: bool>(
    alloc: Global,
    cursor: &mut Cursor<'a>,
) -> Result<Items<T>, Stop>
    requires passed { WasMinimalIf STRICT cursor.old }
    ensures reads { Reads (to_end (minimal_if STRICT T.format)).at cursor.old cursor.new (map_ok T.views (faulted result)) }
    ensures given { IfOk result (λ items. Joined (minimal_if STRICT T.format).Encodes cursor.old.left (T.views items)) }
    ensures ended { IfOk result (λ _. cursor.new.left ≡ []) }
    ensures prefix { UnlessMemory (faulted result) (IsAfterLongest (EncodesSome (Joined (minimal_if STRICT T.format).Encodes)) cursor.old.left cursor.new.left) }
    ensures stopped { IfErr result (λ stop. IsMalformed stop.fault → 0 < length cursor.new.left) }
    ensures stops { IfErr result (StopsBehind (minimal_if STRICT T.format) cursor.old.left) }
    ensures counts { IfErr result (CountsPassed (minimal_if STRICT T.format) cursor.old.left) }
    ensures names { IfErr result (StopsInItem T.Breaks cursor.old.left) }
{
    let mut items = Vec::new(alloc);
    while cursor.len() > 0 {
        let item = match read_next_item::<T, STRICT>(alloc, cursor, Number::Uncounted) {
            Ok(item) => item,
            Err(fault) => return Err(Stop::new(fault, cursor.len(), items.len())),
        };
        items.push(item)?;
    }
    Ok(Items::from(items))
}
