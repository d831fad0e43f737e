//! Encoded values, one after the other, with their number: sections that are lists are built in it (Core 3.0, Modules).
ghost use Rattle.std.specs.Prelude.{◌≡◌, ◌++◌, ◌∷◌, ◌+◌, ◌^◌, ◌≤◌, ◌⊎◌, [], OnOk, OnErr, IfOk, IfErr, IsErrOf, length, take};
ghost use Rattle.std.specs.Iterator.{IsFinite, size};
ghost use Rattle.std.specs.List.{All, flat_map};
ghost use Rattle.wasm_codec.specs.Encoding.{byte_list_bytes, CanEncodeList, IsCount, IsRefusal, OnlyTooLong};
ghost use Rattle.wasm_lists.specs.Iterators.{IsItemsRefusal};
ghost use Rattle.wasm_codec.specs.Lists.{items_bytes};
ghost use Rattle.wasm_codec.specs.declared.encode.EncodeError.TheVariants.{Memory, TooLong};
ghost use Rattle.wasm_lists.specs.EncodedLists.{EncodedItems, CountedSection, IsFull, IsMemoryOrTooLong, IsRefusalOfOne, IsRefusalOfEach, OfItems, body_bytes};

use crate::encode::{Encode, EncodeShort, append_each, append_items, append_short_items};
use std::alloc::{Allocator, Global};
use std::marker::Model;
use wasm_codec::encode::leb128::{put_u32, u32_len};
use wasm_codec::encode::{EncodeError, keep_or_undo};

/// The most items of a list that gets room for all of them at once. An iterator can tell more items than it yields.
const SHORT_LIST: usize = 255;

/// A list of encoded values.
///
/// In contracts it is their number and their bytes.
#[derive(Debug, Drop)]
pub struct EncodedList {
    bytes: Vec<u8>,
    count: u32,
}

impl Model for EncodedList {
    ghost use Rattle.wasm_lists.specs.EncodedLists.{EncodedItems};

    ghost Value = { EncodedItems };

    ghost view = { λ list. record { count = list.count; bytes = list.bytes.items } };
}

impl EncodedList {
    /// Returns an empty list. Allocates nothing.
    pub fn new(alloc: Global) -> EncodedList
        ensures count { result.count ≡ 0 }
        ensures bytes { result.bytes ≡ [] }
    {
        EncodedList {
            bytes: Vec::new(alloc),
            count: 0,
        }
    }

    /// Returns the number of values.
    pub fn len(&self) -> u32
        ensures { result ≡ self.now.count }
    {
        self.count
    }

    /// Returns the bytes of the values, without their number.
    pub fn as_slice(&self) -> &[u8]
        ensures { result.now ≡ self.now.bytes }
    {
        self.bytes.as_slice()
    }

    /// Returns the allocator of the list.
    pub fn allocator(&self) -> Global {
        *self.bytes.allocator()
    }

    /// Returns the number of values and their bytes, as one list of bytes. Fails with `Memory` if it can't allocate.
    pub fn to_bytes(&self) -> Result<Vec<u8>, EncodeError>
        ensures ok { IfOk result (λ bytes. bytes.items ≡ body_bytes self.now) }
        ensures few { IfOk result (λ _. IsCount self.now.count) }
        ensures err { IfErr result (λ e. e ≡ Memory) }
    {
        let mut bytes = Vec::new(self.allocator());
        Counted { list: self }.encode(&mut bytes)?;
        Ok(bytes)
    }

    /// Copies the list. Fails with `Memory` if it can't allocate.
    pub fn try_clone(&self) -> Result<EncodedList, EncodeError>
        ensures ok { IfOk result (λ list. list ≡ self.now) }
        ensures err { IfErr result (λ e. e ≡ Memory) }
    {
        let bytes = Vec::from_slice(self.allocator(), self.bytes.as_slice())?;
        Ok(EncodedList {
            bytes,
            count: self.count,
        })
    }

    /// Returns the number of values plus one. Fails with `TooLong` if that is over 4,294,967,295.
    fn next_count(&self) -> Result<u32, EncodeError>
        ensures ok { IfOk result (λ count. count ≡ self.now.count + 1) }
        ensures err { IfErr result (λ e. (e ≡ TooLong) × IsFull self.now) }
    {
        self.count.checked_add(1).ok_or(EncodeError::TooLong)
    }

    /// Adds a value. On error the list is unchanged.
    ///
    /// Fails with `TooLong` if the list already has 4,294,967,295 values, and with any error of the value.
    pub fn add<T: Encode>(&mut self, value: &T) -> Result<(), EncodeError>
        ensures count { OnOk result (self.new.count ≡ self.old.count + 1) }
        ensures bytes { OnOk result (self.new.bytes ≡ self.old.bytes ++ T.bytes value.now) }
        ensures can { OnOk result (T.CanEncode value.now) }
        ensures written { OnOk result (T.IsWritten value.now) }
        ensures err { OnErr result (self.new ≡ self.old) }
        ensures refused { IfErr result (IsRefusalOfOne T.CanEncode T.refuses self.old value.now) }
    {
        let count = self.next_count()?;
        value.encode(&mut self.bytes)?;
        self.count = count;
        Ok(())
    }

    /// Adds values, all of them or none.
    ///
    /// Fails with `TooLong` if the list would have more than 4,294,967,295 values, before it encodes any, and with any
    /// error of a value.
    pub fn add_all<T: Encode>(&mut self, values: &[T]) -> Result<(), EncodeError>
        ensures count { OnOk result (self.new.count ≡ self.old.count + length values.now) }
        ensures bytes { OnOk result (self.new.bytes ≡ self.old.bytes ++ flat_map T.bytes values.now) }
        ensures can { OnOk result (All T.CanEncode values.now) }
        ensures written { OnOk result (All T.IsWritten values.now) }
        ensures err { OnErr result (self.new ≡ self.old) }
        ensures refused { IfErr result (IsRefusalOfEach T.CanEncode T.refuses self.old values.now) }
        ensures too_many { 2 ^ 32 ≤ self.old.count + length values.now → IsErrOf result EncodeError.TooLong }
    {
        let count = self.count_after(values.len())?;
        let start = self.bytes.len();
        let appended = append_each(values, &mut self.bytes);
        self.commit(start, count, appended)
    }

    /// Returns the number of values plus `more`. Fails with `TooLong` if that is over 4,294,967,295.
    fn count_after(&self, more: usize) -> Result<u32, EncodeError>
        ensures ok { IfOk result (λ count. count ≡ self.now.count + more) }
        ensures err { IfErr result (λ e. (e ≡ TooLong) × (2 ^ 32 ≤ self.now.count + more)) }
    {
        let Ok(more) = u32::try_from(more) else {
            return Err(EncodeError::TooLong);
        };
        self.count.checked_add(more).ok_or(EncodeError::TooLong)
    }
}

/// Values made of the items of iterators.
impl EncodedList {
    /// Adds a value that is the byte `tag` and the list of the items that an iterator yields. On error the list is
    /// unchanged.
    ///
    /// Fails with `TooLong` if the list already has 4,294,967,295 values or the iterator's `len` is over 4,294,967,295,
    /// before it asks for an item, and with any error of an item.
    pub fn add_tagged<T: Encode + Drop, I: ExactSizeIterator<Item = T>>(
        &mut self,
        tag: u8,
        items: I,
    ) -> Result<(), EncodeError>
        requires { I.can_next items }
        ensures count { OnOk result (self.new.count ≡ self.old.count + 1) }
        ensures ok { OnOk result (OfItems I.next_gives items (λ xs.
            (self.new.bytes ≡ self.old.bytes ++ tag ∷ items_bytes T.bytes xs) × (CanEncodeList T.CanEncode xs × All T.IsWritten xs))) }
        ensures err { OnErr result (self.new ≡ self.old) }
        ensures refused { IfErr result (λ e. IsMemoryOrTooLong (IsFull self.old) e ⊎
            IsItemsRefusal T.CanEncode T.refuses I.next_gives I.remaining items e) }
    {
        let count = self.next_count()?;
        let start = self.bytes.len();
        let appended = append_tagged(tag, items, &mut self.bytes);
        self.commit(start, count, appended)
    }

    /// Adds a value that is the byte `tag` and the lists of the items that two iterators yield. On error the list is
    /// unchanged.
    ///
    /// Fails with `TooLong` if the list already has 4,294,967,295 values or a `len` is over 4,294,967,295, before it
    /// asks for an item of either, and with any error of an item.
    pub fn add_tagged_pair<
        T: EncodeShort + Drop,
        I: ExactSizeIterator<Item = T>,
        J: ExactSizeIterator<Item = T>,
    >(&mut self, tag: u8, first: I, second: J) -> Result<(), EncodeError>
        requires first { I.can_next first }
        requires second { J.can_next second }
        ensures count { OnOk result (self.new.count ≡ self.old.count + 1) }
        ensures ok { OnOk result (OfItems I.next_gives first (λ xs. OfItems J.next_gives second (λ ys.
            (self.new.bytes ≡ self.old.bytes ++ tag ∷ (items_bytes T.bytes xs ++ items_bytes T.bytes ys))
            × ((CanEncodeList T.CanEncode xs × All T.IsWritten xs) × (CanEncodeList T.CanEncode ys × All T.IsWritten ys))))) }
        ensures err { OnErr result (self.new ≡ self.old) }
        ensures refused { IfErr result (λ e. IsMemoryOrTooLong (IsFull self.old) e ⊎
            (IsItemsRefusal T.CanEncode T.refuses I.next_gives I.remaining first e ⊎
            IsItemsRefusal T.CanEncode T.refuses J.next_gives J.remaining second e)) }
    {
        let count = self.next_count()?;
        let start = self.bytes.len();
        let appended = append_tagged_pair(tag, first, second, &mut self.bytes);
        self.commit(start, count, appended)
    }

    /// Keeps the bytes from `start` on, and sets the number of values to `count`, if `appended` is `Ok`. Otherwise
    /// truncates the bytes back to `start`.
    fn commit(
        &mut self,
        start: usize,
        count: u32,
        appended: Result<(), EncodeError>,
    ) -> Result<(), EncodeError>
        ensures same { result ≡ appended }
        ensures ok { OnOk result ((self.new.count ≡ count) × (self.new.bytes ≡ self.old.bytes)) }
        ensures err { OnErr result ((self.new.count ≡ self.old.count) × (self.new.bytes ≡ take start self.old.bytes)) }
    {
        keep_or_undo(&mut self.bytes, start, appended)?;
        self.count = count;
        Ok(())
    }
}

/// Appends the byte `tag` and the list of the items that an iterator yields. On error a part of it may remain.
fn append_tagged<T: Encode + Drop, I: ExactSizeIterator<Item = T>>(
    tag: u8,
    items: I,
    bytes: &mut Vec<u8>,
) -> Result<(), EncodeError>
    requires { I.can_next items }
    ensures ok { OnOk result (OfItems I.next_gives items (λ xs.
        (bytes.new.items ≡ bytes.old.items ++ tag ∷ items_bytes T.bytes xs) × (CanEncodeList T.CanEncode xs × All T.IsWritten xs))) }
    ensures refused { IfErr result (IsItemsRefusal T.CanEncode T.refuses I.next_gives I.remaining items) }
    ensures kept { take (length bytes.old.items) bytes.new.items ≡ bytes.old.items }
{
    bytes.reserve(1)?;
    bytes.push_reserved(tag);
    append_items(items, bytes)
}

/// Appends the byte `tag` and the lists of the items that two iterators yield. On error a part of it may remain.
fn append_tagged_pair<
    T: EncodeShort + Drop,
    I: ExactSizeIterator<Item = T>,
    J: ExactSizeIterator<Item = T>,
>(tag: u8, first: I, second: J, bytes: &mut Vec<u8>) -> Result<(), EncodeError>
    requires first { I.can_next first }
    requires second { J.can_next second }
    ensures ok { OnOk result (OfItems I.next_gives first (λ xs. OfItems J.next_gives second (λ ys.
        (bytes.new.items ≡ bytes.old.items ++ tag ∷ (items_bytes T.bytes xs ++ items_bytes T.bytes ys))
        × ((CanEncodeList T.CanEncode xs × All T.IsWritten xs) × (CanEncodeList T.CanEncode ys × All T.IsWritten ys))))) }
    ensures refused { IfErr result (λ e.
        IsItemsRefusal T.CanEncode T.refuses I.next_gives I.remaining first e ⊎
        IsItemsRefusal T.CanEncode T.refuses J.next_gives J.remaining second e) }
    ensures kept { take (length bytes.old.items) bytes.new.items ≡ bytes.old.items }
{
    let (many, more) = (first.len(), second.len());
    if many <= SHORT_LIST && more <= SHORT_LIST {
        return append_short_pair(tag, first, many as u32, second, more as u32, bytes);
    }
    if u32::try_from(more).is_err() {
        return Err(EncodeError::TooLong);
    }
    append_tagged(tag, first, bytes)?;
    append_items(second, bytes)
}

/// Appends the byte `tag` and the lists of the items that two iterators yield, each with its `len`. Asks for room once.
/// On error a part of it may remain.
#[inline(always)]
fn append_short_pair<
    T: EncodeShort + Drop,
    I: ExactSizeIterator<Item = T>,
    J: ExactSizeIterator<Item = T>,
>(
    tag: u8,
    first: I,
    many: u32,
    second: J,
    more: u32,
    bytes: &mut Vec<u8>,
) -> Result<(), EncodeError>
    requires first { I.can_next first }
    requires second { J.can_next second }
    requires many { (many ≤ 255) × (IsFinite (I.remaining first) × (many ≡ size (I.remaining first))) }
    requires more { (more ≤ 255) × (IsFinite (J.remaining second) × (more ≡ size (J.remaining second))) }
    ensures ok { OnOk result (OfItems I.next_gives first (λ xs. OfItems J.next_gives second (λ ys.
        (bytes.new.items ≡ bytes.old.items ++ tag ∷ (items_bytes T.bytes xs ++ items_bytes T.bytes ys))
        × ((CanEncodeList T.CanEncode xs × All T.IsWritten xs) × (CanEncodeList T.CanEncode ys × All T.IsWritten ys))))) }
    ensures refused { IfErr result (λ e. e ≡ Memory) }
    ensures kept { take (length bytes.old.items) bytes.new.items ≡ bytes.old.items }
{
    let rest = 5 + 7 * more as usize;
    bytes.reserve(6 + 7 * many as usize + rest)?;
    bytes.push_reserved(tag);
    append_short_items(first, many, rest, bytes)?;
    append_short_items(second, more, 0, bytes)
}

/// The size of the body in bytes, the number of values, and the values (Core 3.0, Sections and Lists).
///
/// Fails with `TooLong` if the body is longer than 4,294,967,295 bytes.
impl Encode for EncodedList {
    ghost bytes = { λ list. byte_list_bytes (body_bytes list) };

    ghost CanEncode = { CountedSection };

    ghost refuses = { OnlyTooLong };

    fn encode<A: Allocator>(&self, sink: &mut Vec<u8, A>) -> Result<(), EncodeError>
        ensures ok { OnOk result (sink.new.items ≡ sink.old.items ++ byte_list_bytes (body_bytes self.now)) }
        ensures can { OnOk result (CountedSection self.now) }
        ensures refused { IfErr result (IsRefusal CountedSection OnlyTooLong self.now) }
        ensures err { OnErr result (sink.new.items ≡ sink.old.items) }
        // The number of values fits a u32.
        ensures few { IsCount self.now.count }
    {
        let size = u32_len(self.count) + self.bytes.len();
        let Ok(told) = u32::try_from(size) else {
            return Err(EncodeError::TooLong);
        };
        sink.reserve(10 + self.bytes.len())?;
        put_u32(sink, told);
        put_u32(sink, self.count);
        sink.extend_from_slice(self.bytes.as_slice())?;
        Ok(())
    }
}

/// A list of encoded values as a part of another value: no size precedes it.
#[derive(Clone, Copy)]
pub struct Counted<'a> {
    /// The list.
    pub list: &'a EncodedList,
}

/// The number of values, and the values (Core 3.0, Lists).
impl<'a> Encode for Counted<'a> {
    ghost bytes = { λ part. body_bytes part.list.now };

    ghost IsWritten = { λ part. IsCount part.list.now.count };

    fn encode<A: Allocator>(&self, sink: &mut Vec<u8, A>) -> Result<(), EncodeError> {
        let list = self.list;
        sink.reserve(5 + list.bytes.len())?;
        put_u32(sink, list.count);
        sink.extend_from_slice(list.bytes.as_slice())?;
        Ok(())
    }
}
