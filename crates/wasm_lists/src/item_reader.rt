//! `ItemReader`, an iterator that reads items one after another and keeps none of them (Core 3.0, Lists).
ghost use Rattle.std.specs.Prelude.{◌≡◌, ◌+◌, ◌<◌, ◌^◌, Some, IfErr, IfOk, length, ⊤, false, true};
ghost use Rattle.std.specs.Iterator.{MakesProgress, at_most};
ghost use Rattle.wasm_codec.specs.Lawful.{IsLawful};
ghost use Rattle.wasm_codec.specs.Outcomes.{HoldsAtRefusal, IsMalformed, NeedsNoMemory, as_read, read_error_of};
ghost use Rattle.wasm_codec.specs.Places.{Reads, WasMinimalIf};
ghost use Rattle.wasm_codec.specs.Reading.{map_ok};
ghost use Rattle.wasm_codec.specs.formats.Combinators.{minimal_if, u32 as u32_format};
ghost use Rattle.wasm_codec.specs.formats.Grammar.{IsBytes, TakesBytes};
ghost use Rattle.wasm_lists.specs.ItemReading.{EncodesNoList, GivesNext, GivesToEnd, GivesList, HasMore, most_left, shifted, starting};

use crate::readable::Readable;
use crate::reading::{Number, read_next_item};
use std::alloc::Global;
use std::marker::{Model, PhantomData};
use wasm_codec::reader::DecodeError;
use wasm_codec::reader::cursor::{Cursor, Fault};
use wasm_codec::reader::malformed::{Malformed, Reason};

/// Items one after another, each with its offset in bytes (Core 3.0, Lists).
///
/// It borrows from the bytes, and holds one item at a time. After an error it ends.
///
/// # Examples
///
/// ```
/// # use wasm_encoder::ItemReader;
/// let mut items = ItemReader::<u32>::to_end(rt.alloc(), b"\x07\x80\x01");
/// assert_eq!(rt; items.next(), Some(Ok((0, 7))));
/// assert_eq!(rt; items.next(), Some(Ok((1, 128))));
/// assert_eq!(rt; items.next(), None);
/// ```
#[derive(Drop)]
pub struct ItemReader<'a, T> {
    alloc: Global,
    cursor: Cursor<'a>,
    /// Offset of the bytes in the input.
    start: usize,
    /// Number of the bytes.
    len: usize,
    /// Number of items that the list has. `None` means up to the end of the bytes.
    count: Option<u32>,
    /// Number of items read, modulo 2^32.
    passed: u32,
    /// Whether only minimal encodings are read.
    is_strict: bool,
    /// Whether an error was given.
    ended: bool,
    items: PhantomData<T>,
}

impl<'a, T> Model for ItemReader<'a, T> {
    ghost use Rattle.std.specs.Prelude.{◌+◌, ◌-◌, ◌<◌, ◌≤◌, ◌^◌, length, option_map, IfSome};
    ghost use Rattle.wasm_codec.specs.Places.{WasMinimalIf};
    ghost use Rattle.wasm_lists.specs.ItemReading.{Reading};

    ghost Value = { Reading };

    ghost view = { λ r. record {
      offset = r.start + (r.len - length r.cursor.left);
      left = r.cursor.left;
      due = option_map (λ count. count - r.passed) r.count;
      strict = r.is_strict;
      ended = r.ended;
    } };

    ghost invariant = { λ r. WasMinimalIf r.is_strict r.cursor × (length r.cursor.left ≤ r.len) × (r.start + r.len < 2 ^ 64) × IfSome r.count (λ count. (r.passed ≤ count) × (count < 2 ^ 32)) };
}

impl<'a, T: Readable<'a>> ItemReader<'a, T> {
    /// Returns the items that go on to the end of the bytes, in any encoding.
    pub fn to_end(alloc: Global, bytes: &'a [u8]) -> ItemReader<'a, T>
        ensures start { result ≡ starting 0 bytes.now false }
        ensures gives { GivesToEnd T.view T.format bytes.now result }
    {
        ItemReader::to_end_at(alloc, bytes, 0, false)
    }

    /// Returns the items that go on to the end of the bytes, minimally encoded.
    pub fn to_end_strict(alloc: Global, bytes: &'a [u8]) -> ItemReader<'a, T>
        ensures start { result ≡ starting 0 bytes.now true }
        ensures gives { GivesToEnd T.view T.format bytes.now result }
    {
        ItemReader::to_end_at(alloc, bytes, 0, true)
    }

    /// Returns the items of a list, which goes on to the end of the bytes: a count, and then the items, in any encoding.
    ///
    /// Fails with `Malformed` at 0 if the count is malformed.
    pub fn list(alloc: Global, bytes: &'a [u8]) -> Result<ItemReader<'a, T>, DecodeError>
        ensures starts { IfOk result (λ reader. reader.strict ≡ false) }
        ensures gives { IfOk result (GivesList T.view T.format 0 bytes.now) }
        ensures refused { IfErr result (λ e. HoldsAtRefusal (read_error_of e) (EncodesNoList false T.format 0 bytes.now)) }
        ensures memory { NeedsNoMemory (as_read result) }
    {
        ItemReader::list_at(alloc, bytes, 0, false)
    }

    /// Returns the items of a list, which goes on to the end of the bytes: a count, and then the items, minimally encoded.
    ///
    /// Fails with `Malformed` at 0 if the count is malformed or not minimal.
    pub fn list_strict(alloc: Global, bytes: &'a [u8]) -> Result<ItemReader<'a, T>, DecodeError>
        ensures starts { IfOk result (λ reader. reader.strict ≡ true) }
        ensures gives { IfOk result (GivesList T.view T.format 0 bytes.now) }
        ensures refused { IfErr result (λ e. HoldsAtRefusal (read_error_of e) (EncodesNoList true T.format 0 bytes.now)) }
        ensures memory { NeedsNoMemory (as_read result) }
    {
        ItemReader::list_at(alloc, bytes, 0, true)
    }

    /// Returns the items that go on to the end of the bytes, which begin at offset `start` of an input, minimally encoded
    /// if `is_strict` is set.
    pub fn to_end_at(
        alloc: Global,
        bytes: &'a [u8],
        start: usize,
        is_strict: bool,
    ) -> ItemReader<'a, T>
        requires fits { start + length bytes.now < 2 ^ 64 }
        ensures start { result ≡ starting start bytes.now is_strict }
        ensures gives { GivesToEnd T.view T.format bytes.now result }
    {
        T::is_lawful();
        ItemReader {
            alloc,
            cursor: Cursor::new(bytes),
            start,
            len: bytes.len(),
            count: None,
            passed: 0,
            is_strict,
            ended: false,
            items: PhantomData,
        }
    }

    /// Returns the items of a list, which goes on to the end of the bytes. They begin at offset `start` of an input. The
    /// count and the items are minimally encoded if `is_strict` is set.
    ///
    /// Fails with `Malformed` at `start` if the count is malformed.
    pub fn list_at(
        alloc: Global,
        bytes: &'a [u8],
        start: usize,
        is_strict: bool,
    ) -> Result<ItemReader<'a, T>, DecodeError>
        requires fits { start + length bytes.now < 2 ^ 64 }
        ensures starts { IfOk result (λ reader. reader.strict ≡ is_strict) }
        ensures gives { IfOk result (GivesList T.view T.format start bytes.now) }
        ensures refused { IfErr result (λ e. HoldsAtRefusal (read_error_of e) (EncodesNoList is_strict T.format start bytes.now)) }
        ensures memory { NeedsNoMemory (as_read result) }
    {
        T::is_lawful();
        let mut cursor = Cursor::new(bytes);
        match read_count(is_strict, &mut cursor) {
            Ok(count) => Ok(ItemReader {
                alloc,
                cursor,
                start,
                len: bytes.len(),
                count: Some(count),
                passed: 0,
                is_strict,
                ended: false,
                items: PhantomData,
            }),
            Err(fault) => Err(behind(DecodeError::new(fault, 0, bytes.len()), start)),
        }
    }

    /// Returns the number of items left, if they are counted.
    pub fn due(&self) -> Option<u32>
        ensures { result ≡ self.now.due }
    {
        match self.count {
            Some(count) => Some(count - self.passed),
            None => None,
        }
    }

    /// Returns the offset of the next item.
    pub fn offset(&self) -> usize
        ensures { result ≡ self.now.offset }
    {
        self.start + (self.len - self.cursor.len())
    }

    /// Returns the end if no bytes are left, and else the error that bytes follow after the last item.
    fn after_last(&mut self) -> Option<Result<(usize, T), DecodeError>>
        requires due { self.old.due ≡ Some 0 }
        requires going { self.old.ended ≡ false }
        ensures gives { GivesNext T.view T.format self.old result self.new }
        ensures goes { MakesProgress (λ r. ⊤) (λ r. at_most (most_left r)) self.old result self.new }
    {
        if self.cursor.len() == 0 {
            return None;
        }
        let at = self.len - self.cursor.len();
        let error = DecodeError::refused(&self.cursor.trailing(), at, self.len);
        self.ended = true;
        Some(Err(behind(error, self.start)))
    }

    /// Reads an item, with the number that its error carries.
    ///
    /// The item is first read where it is given, so that the compiler makes it there. If that fails, it is read again
    /// for the error.
    #[inline(always)]
    fn read_next(&mut self, number: Number) -> Option<Result<(usize, T), DecodeError>>
        requires more { HasMore self.old.due self.old.left }
        requires going { self.old.ended ≡ false }
        ensures gives { GivesNext T.view T.format self.old result self.new }
        ensures goes { MakesProgress (λ r. ⊤) (λ r. at_most (most_left r)) self.old result self.new }
    {
        let at = self.len - self.cursor.len();
        T::is_lawful();
        let before = self.cursor.fork();
        match T::read(self.alloc, &mut self.cursor) {
            Ok(item) if was_minimal_if(self.is_strict, &self.cursor) => {
                self.passed = self.passed.wrapping_add(1);
                return Some(Ok((self.start + at, item)));
            }
            _ => {}
        }
        self.cursor = before;
        self.read_or_fail(number)
    }

    /// Reads an item, or returns the error that carries its number.
    #[cold]
    #[inline(never)]
    fn read_or_fail(&mut self, number: Number) -> Option<Result<(usize, T), DecodeError>>
        requires more { HasMore self.old.due self.old.left }
        requires going { self.old.ended ≡ false }
        ensures gives { GivesNext T.view T.format self.old result self.new }
        ensures goes { MakesProgress (λ r. ⊤) (λ r. at_most (most_left r)) self.old result self.new }
    {
        let at = self.len - self.cursor.len();
        match read_item_if(self.is_strict, self.alloc, &mut self.cursor, number) {
            Ok(item) => {
                self.passed = self.passed.wrapping_add(1);
                Some(Ok((self.start + at, item)))
            }
            Err(fault) => {
                self.ended = true;
                Some(Err(behind(DecodeError::new(fault, at, self.len), self.start)))
            }
        }
    }
}

/// Checks whether all that was read is minimally encoded, if `is_strict` is set.
#[inline(always)]
fn was_minimal_if(is_strict: bool, cursor: &Cursor<'_>) -> bool
    ensures { result ≡ true → WasMinimalIf is_strict cursor.now }
{
    !is_strict || cursor.is_minimal()
}

/// Reads the count of a list, minimally encoded if `is_strict` is set.
fn read_count(is_strict: bool, cursor: &mut Cursor<'_>) -> Result<u32, Fault>
    requires passed { WasMinimalIf is_strict cursor.old }
    ensures reads { Reads (minimal_if is_strict u32_format).at cursor.old cursor.new result }
    ensures passed { IfOk result (λ _. WasMinimalIf is_strict cursor.new) }
    ensures err { IfErr result IsMalformed }
    ensures bytes { IsBytes cursor.old.left }
{
    cursor.are_bytes();
    let start = cursor.to_end();
    match cursor.u32() {
        Ok(count) if !is_strict || cursor.is_minimal() => Ok(count),
        Ok(_) => {
            let long = Malformed::new(Reason::LongForm, start);
            Err(Fault::Malformed(long.outside_items()))
        }
        Err(Fault::Malformed(malformed)) => Err(Fault::Malformed(malformed.outside_items())),
        Err(Fault::Memory) => Err(Fault::Memory),
    }
}

/// Reads the next item, minimally encoded if `is_strict` is set. If it fails, the cursor stays where it was.
#[inline(always)]
fn read_item_if<'a, T: Readable<'a>>(
    is_strict: bool,
    alloc: Global,
    cursor: &mut Cursor<'a>,
    number: Number,
) -> Result<T, Fault>
    requires passed { WasMinimalIf is_strict cursor.old }
    ensures reads { Reads (minimal_if is_strict T.format).at cursor.old cursor.new (map_ok T.view result) }
    ensures passed { WasMinimalIf is_strict cursor.new }
    ensures stays { IfErr result (λ _. cursor.new ≡ cursor.old) }
    ensures bytes { IsBytes cursor.old.left }
    ensures lawful { IsLawful (minimal_if is_strict T.format) }
    ensures some { TakesBytes (minimal_if is_strict T.format).Encodes }
{
    if is_strict {
        read_next_item::<T, true>(alloc, cursor, number)
    } else {
        read_next_item::<T, false>(alloc, cursor, number)
    }
}

/// Returns the same error, with its offsets counted from `start` bytes further in front.
#[cold]
pub fn behind(error: DecodeError, start: usize) -> DecodeError
    requires fits { HoldsAtRefusal (read_error_of error) (λ at. at + start < 2 ^ 64) }
    ensures moved { read_error_of result ≡ shifted start (read_error_of error) }
{
    match error {
        DecodeError::Memory => DecodeError::Memory,
        DecodeError::Malformed(refusal) => {
            let at = refusal.at + start;
            DecodeError::Malformed(refusal.behind(at, start))
        }
    }
}

impl<'a, T: Readable<'a>> Iterator for ItemReader<'a, T> {
    type Item = Result<(usize, T), DecodeError>;

    ghost next_gives = { GivesNext T.view T.format };

    ghost remaining = { λ r. at_most (most_left r) };

    /// Reads the next item. Fails with `Malformed` if none can be decoded, and with `Memory` if an allocation fails.
    #[inline(always)]
    fn next(&mut self) -> Option<Result<(usize, T), DecodeError>> {
        if self.ended {
            return None;
        }
        match self.count {
            None if self.cursor.len() == 0 => None,
            None => self.read_next(Number::Uncounted),
            Some(count) if self.passed == count => self.after_last(),
            Some(_) => self.read_next(Number::Item(self.passed)),
        }
    }
}
