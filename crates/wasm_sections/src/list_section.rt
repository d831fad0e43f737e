//! The builder of a section that is a list, over any kind of item (Core 3.0, Lists).
ghost use Rattle.std.specs.Prelude.{◌≡◌, ◌↔◌, List, [], IsTrue, ⊤, true, false};
ghost use Rattle.wasm_codec.specs.Encoding.{byte_list_bytes, OnlyTooLong};
ghost use Rattle.wasm_codec.specs.formats.Combinators.{items};
ghost use Rattle.wasm_lists.specs.EncodedLists.{CountedSection, IsRefusalOfOne, IsRefusalOfEach, body_bytes};
ghost use Rattle.wasm_sections.specs.SectionKinds.{SectionOf};
ghost use Rattle.wasm_sections.specs.ListSections.{StandsForItems, AddsIf, AddsEachIf, EncodesItems, IsWrittenList, LawfulItem};
ghost use Rattle.wasm_externals.specs.Making.{Makes};
ghost use Rattle.wasm_codec.specs.Lists.{CountsItems, ListMinimalIf, IsListPrefix, IsListPrefixMinimalIf};

use std::alloc::{Allocator, Global};
use std::marker::{Model, PhantomData};
use wasm_code::decode::Decode;
use wasm_codec::encode::EncodeError;
use wasm_codec::reader::DecodeError;
use wasm_lists::checking::check_list_to_end;
use wasm_lists::encode::Encode;
use wasm_lists::encoded_list::EncodedList;
use wasm_lists::readable::{Item, Readable};
use wasm_lists::reading::read_list_to_end;
use wasm_lists::rewriting::rewrite_list_to_end;

/// An item of a section that is a list.
///
/// It names the section's id and the item's encoding. Every builder of a list, such as `ExportSection`, is a
/// [`ListSection`] of its items.
///
/// # Examples
///
/// ```
/// # use wasm_encoder::Encode;
/// # use wasm_encoder::ExportKind;
/// # use wasm_encoder::sections::{Export, ListSection};
/// let mut exports: ListSection<Export> = ListSection::new(rt.alloc());
/// exports.push(&Export { name: "f", kind: ExportKind::Func, index: 0 })?;
/// let mut bytes = Vec::new(rt.alloc());
/// exports.encode(&mut bytes)?;
/// assert_eq!(rt; bytes.as_slice(), b"\x05\x01\x01f\x00\x00".as_slice());
/// ```
pub trait SectionItem: Encode {
    /// The value that an item encodes. By default the item itself.
    ghost Value: { Type 0 } = { Self };

    /// The value that this item encodes.
    ghost view: { Self → Value };

    /// The section: its id, the format of its items, and the decoded section that holds them.
    ghost section: { SectionOf Value };

    /// What an item needs to have an encoding, besides having been written. By default nothing.
    ghost Fits: { Self → Type 0 } = { λ _. ⊤ };

    /// Returns the id of the section.
    fn section_id() -> u8
        ensures { result ≡ section.id };

    /// Proves that items are written in their minimal encoding and that a section of this id holds a list of items.
    /// Does nothing when it runs.
    fn is_lawful()
        ensures lawful { LawfulItem Self.bytes Self.IsWritten Fits view section };
}

/// A section that is a list: you add items, and it keeps them encoded.
///
/// Methods that add fail with `Memory` if the section can't grow. On error the section is unchanged. In contracts the
/// section is the number of its items and their bytes.
///
/// # Examples
///
/// ```
/// # use wasm_encoder::{Encode, FunctionSection};
/// let mut functions = FunctionSection::new(rt.alloc()); // a ListSection<u32>
/// functions.push(&0)?;
/// functions.entries(&[1, 1])?;
/// assert_eq!(rt; functions.len(), 3);
/// let mut bytes = Vec::new(rt.alloc());
/// functions.encode(&mut bytes)?;
/// assert_eq!(rt; bytes.as_slice(), b"\x04\x03\x00\x01\x01".as_slice());
/// ```
#[derive(Debug, Drop)]
pub struct ListSection<T: SectionItem> {
    pub(crate) items: EncodedList,
    _item: PhantomData<T>,
}

impl<T: SectionItem> Model for ListSection<T> {
    ghost use Rattle.wasm_lists.specs.EncodedLists.{EncodedItems};

    ghost Value = { EncodedItems };

    ghost view = { λ section. section.items };
}

impl<T: SectionItem> ListSection<T> {
    /// Returns a section without items. Allocates nothing.
    pub fn new(alloc: Global) -> ListSection<T>
        ensures { StandsForItems T.section.format result [] }
    {
        ListSection {
            items: EncodedList::new(alloc),
            _item: PhantomData,
        }
    }

    /// Returns the number of items.
    pub fn len(&self) -> u32
        ensures { result ≡ self.now.count }
    {
        self.items.len()
    }

    /// Returns whether the section has no items.
    pub fn is_empty(&self) -> bool
        ensures { IsTrue result ↔ (self.now.count ≡ 0) }
    {
        self.items.len() == 0
    }

    /// Returns the encoded items, without their number.
    ///
    /// # Examples
    ///
    /// ```
    /// # use wasm_encoder::FunctionSection;
    /// let mut functions = FunctionSection::new(rt.alloc());
    /// functions.entries(&[7, 130])?;
    /// assert_eq!(rt; functions.as_slice(), b"\x07\x82\x01".as_slice());
    /// ```
    pub fn as_slice(&self) -> &[u8]
        ensures { result.now ≡ self.now.bytes }
    {
        self.items.as_slice()
    }

    /// Copies the section. Fails with `Memory` if it can't allocate.
    pub fn try_clone(&self) -> Result<ListSection<T>, EncodeError>
        ensures makes { Makes self.now result }
    {
        let items = self.items.try_clone()?;
        Ok(ListSection {
            items,
            _item: PhantomData,
        })
    }

    /// Adds an item.
    ///
    /// Fails with `TooLong` if the section already has 4,294,967,295 items or a list, a name or bytes in the item are
    /// longer than 4,294,967,295.
    pub fn push(&mut self, item: &T) -> Result<(), EncodeError>
        ensures adds { AddsIf T.section.format (T.Fits item.now) self.old (T.view item.now) self.new
            (IsRefusalOfOne T.CanEncode T.refuses self.old item.now) result }
    {
        add(&mut self.items, item)
    }

    /// Adds items, all of them or none.
    ///
    /// Fails with `TooLong` if the section would have more than 4,294,967,295 items, before it encodes any, or if a
    /// list, a name or bytes in an item are longer than 4,294,967,295.
    pub fn entries(&mut self, items: &[T]) -> Result<(), EncodeError>
        ensures adds { AddsEachIf T.section.format T.view T.Fits self.old items.now self.new
            (IsRefusalOfEach T.CanEncode T.refuses self.old items.now) result }
    {
        T::is_lawful();
        self.items.add_all(items)
    }
}

/// The items, as `read::<ListSection<T>>` returns them: a count and the items, with nothing after them.
impl<'a, T: SectionItem + Readable<'a>> Decode<'a> for ListSection<T> {
    type Output = Vec<T>;

    ghost Value = { List T.Readable.Value };

    ghost view = { λ items. T.Readable.views items.items };

    ghost format = { items T.Readable.format };

    ghost Minimal = { ListMinimalIf true T.Readable.format };

    ghost IsPrefix = { IsListPrefix T.Readable.format.Encodes };

    ghost IsMinimalPrefix = { IsListPrefixMinimalIf true T.Readable.format };

    ghost Counts = { λ strict. CountsItems strict T.Readable.format };

    #[inline(always)]
    fn is_lawful() {
        <T as Readable>::is_lawful();
    }

    fn read_all(alloc: Global, bytes: &'a [u8]) -> Result<Vec<T>, DecodeError> {
        read_list_to_end::<T, false>(alloc, bytes)
    }

    fn read_all_strict(alloc: Global, bytes: &'a [u8]) -> Result<Vec<T>, DecodeError> {
        read_list_to_end::<T, true>(alloc, bytes)
    }

    fn check_all(alloc: Global, bytes: &[u8]) -> Result<(), DecodeError> {
        check_list_to_end::<Item<'a, T>>(alloc, bytes)
    }

    fn rewrite_all(bytes: &mut [u8]) -> Result<usize, DecodeError> {
        rewrite_list_to_end::<Item<'a, T>>(bytes)
    }
}

/// Adds an item to a list of encoded items. On error the list is unchanged.
#[tactic(auto, using(crate::proofs::ListSectionLaws::adds_one))]
pub(crate) fn add<T: SectionItem>(list: &mut EncodedList, item: &T) -> Result<(), EncodeError>
    ensures adds { AddsIf T.section.format (T.Fits item.now) list.old (T.view item.now) list.new
        (IsRefusalOfOne T.CanEncode T.refuses list.old item.now) result }
{
    T::is_lawful();
    list.add(item)
}

/// The size of the body in bytes, the number of items, and the items (Core 3.0, Sections and Lists).
///
/// Fails with `TooLong` if the body is longer than 4,294,967,295 bytes.
impl<T: SectionItem> Encode for ListSection<T> {
    ghost bytes = { λ section. byte_list_bytes (body_bytes section) };

    ghost IsWritten = { IsWrittenList T.section };

    ghost CanEncode = { CountedSection };

    ghost refuses = { OnlyTooLong };

    fn encode<A: Allocator>(&self, sink: &mut Vec<u8, A>) -> Result<(), EncodeError>
        ensures encodes { EncodesItems T.section self.now sink.old.items sink.new.items result }
    {
        T::is_lawful();
        self.items.encode(sink)
    }
}
