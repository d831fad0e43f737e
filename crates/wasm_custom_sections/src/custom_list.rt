//! Custom sections whose contents are one list (Core 3.0, Custom Section and Lists).
ghost use Rattle.std.specs.Prelude.{◌≡◌, ◌↔◌, ℕ, List, [], IsTrue, true, false, IfOk, IfErr};
ghost use Rattle.wasm_codec.specs.Encoding.{OnlyTooLong};
ghost use Rattle.wasm_codec.specs.Lawful.{IsLawful};
ghost use Rattle.wasm_codec.specs.Lists.{CountsItems, IsListPrefix, IsListPrefixMinimalIf, ListMinimalIf};
ghost use Rattle.wasm_codec.specs.declared.encode.EncodeError.TheVariants.{Memory};
ghost use Rattle.wasm_codec.specs.formats.Combinators.{Format, items};
ghost use Rattle.wasm_externals.specs.Making.{Makes};
ghost use Rattle.wasm_lists.specs.EncodedLists.{body_bytes};
ghost use Rattle.wasm_sections.specs.ListSections.{StandsForItems};
ghost use Rattle.wasm_custom_sections.specs.NamedSections.{CountedNamed, HoldsList, IsNamedSection, named_bytes};

use std::alloc::{Allocator, Global};
use std::marker::{Model, PhantomData};
use wasm_code::decode::Decode;
use wasm_codec::encode::EncodeError;
use wasm_codec::reader::DecodeError;
use wasm_lists::checking::check_list_to_end;
use wasm_lists::encode::Encode;
use wasm_lists::encoded_list::EncodedList;
use wasm_lists::readable::{Item, Readable};
use wasm_lists::reading::read_list_to_end;
use wasm_lists::rewriting::rewrite_list_to_end;
use wasm_sections::custom::CustomSection;

/// An item of a custom section that is a list. It tells the section's name and the item's encoding.
///
/// # Examples
///
/// ```
/// # use wasm_encoder::TargetFeature;
/// # use wasm_encoder::sections::CustomItem;
/// assert_eq!(rt; TargetFeature::section_name(), "target_features");
/// ```
pub trait CustomItem {
    /// The decoded item, in contracts.
    ghost Value: { Type 0 };

    /// The bytes that encode each item.
    ghost format: { Format Value };

    /// The name of the section.
    ghost named: { List ℕ };

    /// Returns the name of the section.
    fn section_name() -> &'static str
        ensures { result.now ≡ named };

    /// Tells the proof that the format is lawful. The call does nothing.
    fn is_lawful()
        ensures lawful { IsLawful format };
}

/// A custom section whose contents are one list: you add items, and it keeps them encoded.
///
/// Methods that add fail with `Memory` if the section can't grow. On error the section is unchanged. In contracts the
/// section is the number of its items and their bytes.
#[derive(Debug, Drop)]
pub struct CustomList<T> {
    pub(crate) items: EncodedList,
    _item: PhantomData<T>,
}

impl<T> Model for CustomList<T> {
    ghost use Rattle.wasm_lists.specs.EncodedLists.{EncodedItems};

    ghost Value = { EncodedItems };

    ghost view = { λ section. section.items };
}

impl<T: CustomItem> CustomList<T> {
    /// Returns a section without items. Allocates nothing.
    #[tactic(auto, using(crate::proofs::GainingLaws::stands_for_none))]
    pub fn new(alloc: Global) -> CustomList<T>
        ensures { StandsForItems T.format result [] }
    {
        CustomList {
            items: EncodedList::new(alloc),
            _item: PhantomData,
        }
    }

    /// Returns the number of items.
    pub fn len(&self) -> u32
        ensures { result ≡ self.now.count }
    {
        self.items.len()
    }

    /// Returns whether the section has no items.
    pub fn is_empty(&self) -> bool
        ensures { IsTrue result ↔ (self.now.count ≡ 0) }
    {
        self.items.len() == 0
    }

    /// Returns the contents of the section after its name. Fails with `Memory` if it can't allocate.
    pub fn contents(&self) -> Result<Vec<u8>, EncodeError>
        ensures ok { IfOk result (λ contents. contents.items ≡ body_bytes self.now) }
        ensures err { IfErr result (λ e. e ≡ Memory) }
    {
        self.items.to_bytes()
    }

    /// Copies the section. Fails with `Memory` if it can't allocate.
    pub fn try_clone(&self) -> Result<CustomList<T>, EncodeError>
        ensures makes { Makes self.now result }
    {
        let items = self.items.try_clone()?;
        Ok(CustomList {
            items,
            _item: PhantomData,
        })
    }
}

/// The size of the body in bytes, the name of the section, the number of items, and the items.
///
/// Fails with `TooLong` if the body is longer than 4,294,967,295 bytes.
impl<T: CustomItem> Encode for CustomList<T> {
    ghost bytes = { λ section. named_bytes T.named (body_bytes section) };

    ghost IsWritten = { λ section. HoldsList T.format section × IsNamedSection T.named (body_bytes section) };

    ghost CanEncode = { λ section. CountedNamed T.named (body_bytes section) };

    ghost refuses = { OnlyTooLong };

    fn encode<A: Allocator>(&self, sink: &mut Vec<u8, A>) -> Result<(), EncodeError> {
        T::is_lawful();
        let contents = self.items.to_bytes()?;
        let section = CustomSection {
            name: T::section_name(),
            bytes: contents.as_slice(),
        };
        section.encode(sink)
    }
}

/// The contents after the name, as `read::<CustomList<T>>` returns them: a count and the items, with nothing after them.
impl<'a, T: CustomItem + Readable<'a>> Decode<'a> for CustomList<T> {
    type Output = Vec<T>;

    ghost Value = { List T.Readable.Value };

    ghost view = { λ items. T.Readable.views items.items };

    ghost format = { items T.Readable.format };

    ghost Minimal = { ListMinimalIf true T.Readable.format };

    ghost IsPrefix = { IsListPrefix T.Readable.format.Encodes };

    ghost IsMinimalPrefix = { IsListPrefixMinimalIf true T.Readable.format };

    ghost Counts = { λ strict. CountsItems strict T.Readable.format };

    #[inline(always)]
    fn is_lawful() {
        <T as Readable>::is_lawful();
    }

    fn read_all(alloc: Global, bytes: &'a [u8]) -> Result<Vec<T>, DecodeError> {
        read_list_to_end::<T, false>(alloc, bytes)
    }

    fn read_all_strict(alloc: Global, bytes: &'a [u8]) -> Result<Vec<T>, DecodeError> {
        read_list_to_end::<T, true>(alloc, bytes)
    }

    fn check_all(alloc: Global, bytes: &[u8]) -> Result<(), DecodeError> {
        check_list_to_end::<Item<'a, T>>(alloc, bytes)
    }

    fn rewrite_all(bytes: &mut [u8]) -> Result<usize, DecodeError> {
        rewrite_list_to_end::<Item<'a, T>>(bytes)
    }
}
