//! The type section (Core 3.0, Type Section).
ghost use Rattle.std.specs.Prelude.{◌≡◌, List, ◌⊎◌, [], OnOk, IsTrue, ◌↔◌};
ghost use Rattle.std.specs.Iterator.{size};
ghost use Rattle.wasm_lists.specs.Iterators.{OfIterator};
ghost use Rattle.wasm_encoder.specs.EncodedLists.{AddsAll, EncodesSection, EncodedItems, CountedSection, GivesSome, IsUncounted, Makes};
ghost use Rattle.wasm_encoder.specs.TypeSections.{AddsEntry, AddsEntryOr, AddsFunction, AddsGiven, StandsFor, GainsAll, HoldsEntries, IsTypeSection, UncountedEntry, UncountedFunc, UncountedSub, type_section_bytes, final_entry, struct_entry, array_entry};
ghost use Rattle.wasm_codec.specs.Encoding.{OnlyTooLong};
ghost use Rattle.wasm_types.specs.formats.Types.{type_body};
ghost use Rattle.wasm_code.specs.formats.Sections.{typed_section_of, type_entries, type_section_id};
ghost use Rattle.wasm_code.specs.Modules.{IsTypedSection};
ghost use Rattle.wasm_sections.specs.formats.ModuleSectionParts.{types as holding_types};
ghost use Rattle.wasm_types.specs.declared.types.recursive.TypeEntry.{TypeEntry};
ghost use Rattle.wasm_types.specs.declared.types.composite.CompositeInnerType.TheVariants as inner;
ghost use Rattle.wasm_types.specs.declared.types.recursive.TypeEntry.TheVariants as entries;

use crate::encoded_section::EncodedSection;
use crate::wasm_core::{Section, SectionId};
use std::alloc::{Allocator, Global};
use std::marker::Model;
use wasm_codec::encode::EncodeError;
use wasm_lists::encode::Encode;
use wasm_lists::encoded_list::EncodedList;
use wasm_types::types::{
    ArrayType, ContType, FieldType, FuncType, StorageType, SubType, TypeEntry, ValType,
};

/// A type section: you add entries, and it keeps them encoded (Core 3.0, Type Section).
///
/// Methods that add fail with `Memory` if the section can't grow. On error the section is unchanged. In contracts the
/// section is the number of its entries and their bytes.
///
/// # Examples
///
/// ```
/// # use wasm_encoder::{Encode, TypeSection, ValType};
/// let mut types = TypeSection::new(rt.alloc());
/// types.ty().function([ValType::I32, ValType::I32], [ValType::I32])?;
/// let mut bytes = Vec::new(rt.alloc());
/// types.encode(&mut bytes)?;
/// assert_eq!(rt; bytes.as_slice(), b"\x07\x01\x60\x02\x7f\x7f\x01\x7f".as_slice());
/// ```
#[derive(Debug, Drop)]
pub struct TypeSection {
    entries: EncodedList,
}

impl Model for TypeSection {
    ghost use Rattle.wasm_encoder.specs.EncodedLists.{EncodedItems};

    ghost Value = { EncodedItems };

    ghost view = { λ section. section.entries };
}

/// An encoder of one entry, from [`TypeSection::ty`]. If you don't use it, the section is unchanged.
///
/// # Examples
///
/// ```
/// # use wasm_encoder::{Encode, FieldType, StorageType, TypeSection, ValType};
/// let mut types = TypeSection::new(rt.alloc());
/// types.ty().array(&StorageType::I8, true)?;
/// let field = FieldType { element_type: StorageType::Val(ValType::I64), mutable: false };
/// types.ty().struct_([field])?;
/// let mut bytes = Vec::new(rt.alloc());
/// types.encode(&mut bytes)?;
/// assert_eq!(rt; bytes.as_slice(), b"\x08\x02\x5e\x78\x01\x5f\x01\x7e\x00".as_slice());
/// ```
pub struct CoreTypeEncoder<'a> {
    section: &'a mut TypeSection,
}

impl Drop for CoreTypeEncoder<'_> {
    fn drop(self)
        // An unused encoder adds nothing.
        ensures { self.exit.0.now ≡ self.entry.section.now }
    {
        let CoreTypeEncoder { section: _ } = self;
    }
}

impl TypeSection {
    /// Returns a section without entries. Allocates nothing.
    #[tactic(auto, using(crate::proofs::TypeSectionLaws::stands_for_none))]
    pub fn new(alloc: Global) -> TypeSection
        ensures { StandsFor result [] }
    {
        TypeSection {
            entries: EncodedList::new(alloc),
        }
    }

    /// Returns the number of entries. A recursion group counts as one.
    pub fn len(&self) -> u32
        ensures { result ≡ self.now.count }
    {
        self.entries.len()
    }

    /// Returns whether the section has no entries.
    pub fn is_empty(&self) -> bool
        ensures { IsTrue result ↔ (self.now.count ≡ 0) }
    {
        self.entries.len() == 0
    }

    /// Returns an encoder of one entry.
    pub fn ty(&mut self) -> CoreTypeEncoder<'_>
        ensures same_reference { result.section.ghost_name ≡ self.entry.ghost_name }
        ensures value { result.section.now ≡ self.old }
    {
        CoreTypeEncoder { section: self }
    }

    /// Copies the section. Fails with `Memory` if it can't allocate.
    pub fn try_clone(&self) -> Result<TypeSection, EncodeError>
        ensures makes { Makes self.now result }
    {
        let entries = self.entries.try_clone()?;
        Ok(TypeSection { entries })
    }

    /// Adds entries, all of them or none.
    ///
    /// Fails with `TooLong` if the section would have more than 4,294,967,295 entries, before it encodes any, or if a
    /// list in an entry has more items than that.
    pub fn entries(&mut self, entries: &[TypeEntry]) -> Result<(), EncodeError>
        ensures adds { AddsAll GainsAll UncountedEntry self.old entries.now self.new result }
    {
        self.entries.add_all(entries)
    }
}

/// The size of the body in bytes, the number of entries, and the entries (Core 3.0, Sections and Type Section).
///
/// Fails with `TooLong` if the body is longer than 4,294,967,295 bytes.
#[tactic(auto, using(crate::proofs::TypeSectionLaws::one_encoding, crate::proofs::TypeSectionLaws::encodes_entries, crate::proofs::TypeSectionLaws::is_decoded))]
impl Encode for TypeSection {
    ghost bytes = { type_section_bytes };

    ghost IsWritten = { λ section. HoldsEntries section × IsTypeSection section };

    ghost CanEncode = { CountedSection };

    ghost refuses = { OnlyTooLong };

    fn encode<A: Allocator>(&self, sink: &mut Vec<u8, A>) -> Result<(), EncodeError>
        ensures encodes { EncodesSection type_body (StandsFor self.now) 1 holding_types self.now sink.old.items sink.new.items result }
        // Sections of equal entries have equal bytes.
        ensures one_encoding { (other : EncodedItems) (entries : List TypeEntry) →
            StandsFor self.now entries → StandsFor other entries → type_section_bytes other ≡ type_section_bytes self.now }
        // The section is in the range of decoded sections, so a reader returns it.
        ensures decoded { (entries : List TypeEntry) → StandsFor self.now entries →
            OnOk result (IsTypedSection (typed_section_of (type_section_id, type_entries entries))) }
    {
        self.entries.encode(sink)
    }
}

impl Section for TypeSection {
    ghost id = { λ _. 1 };

    fn id(&self) -> u8 {
        u8::from(SectionId::Types)
    }

    fn encoded(&self, alloc: Global) -> Result<EncodedSection<'_>, EncodeError> {
        EncodedSection::of_list(
            alloc,
            self.id(),
            self.entries.len(),
            self.entries.as_slice(),
        )
    }
}

#[tactic(auto, using(crate::proofs::TypeSectionLaws::adds_func, crate::proofs::TypeSectionLaws::adds_sub, crate::proofs::TypeSectionLaws::adds_array, crate::proofs::TypeSectionLaws::adds_cont))]
impl<'a> CoreTypeEncoder<'a> {
    /// Adds a function type that is final, without supertypes and not shared (Core 3.0, Composite Types).
    ///
    /// Fails with `TooLong` if the section already has 4,294,967,295 entries or `ty` has more parameters or results
    /// than that.
    pub fn func_type(self, ty: &FuncType) -> Result<(), EncodeError>
        ensures adds { AddsEntryOr (UncountedFunc ty.now) self.entry.section.now (final_entry (inner.Func ty.now)) self.exit.0.now result }
    {
        let CoreTypeEncoder { section } = self;
        section.entries.add(ty)
    }

    /// Adds an array type that is final, without supertypes and not shared (Core 3.0, Composite Types).
    ///
    /// Fails with `TooLong` if the section already has 4,294,967,295 entries.
    pub fn array(self, ty: &StorageType, mutable: bool) -> Result<(), EncodeError>
        ensures adds { AddsEntry self.entry.section.now (array_entry ty.now mutable) self.exit.0.now result }
    {
        let CoreTypeEncoder { section } = self;
        let field = FieldType {
            element_type: *ty,
            mutable,
        };
        section.entries.add(&ArrayType(field))
    }

    /// Adds a continuation type that is final, without supertypes and not shared (stack switching proposal).
    ///
    /// Fails with `TooLong` if the section already has 4,294,967,295 entries.
    pub fn cont(self, ty: &ContType) -> Result<(), EncodeError>
        ensures adds { AddsEntry self.entry.section.now (final_entry (inner.Cont ty.now)) self.exit.0.now result }
    {
        let CoreTypeEncoder { section } = self;
        section.entries.add(ty)
    }

    /// Adds a subtype (Core 3.0, Recursive Types).
    ///
    /// Fails with `TooLong` if the section already has 4,294,967,295 entries or a list in `ty` has more items than
    /// that.
    pub fn subtype(self, ty: &SubType) -> Result<(), EncodeError>
        ensures adds { AddsEntryOr (UncountedSub ty.now) self.entry.section.now (entries.Sub ty.now) self.exit.0.now result }
    {
        let CoreTypeEncoder { section } = self;
        section.entries.add(ty)
    }

    /// Adds a function type of these parameters and results: arrays, `vec.into_iter()` or `slice.iter().copied()`. It
    /// is final, without supertypes and not shared (Core 3.0, Composite Types). The counts are those of the types that
    /// the iterators yield, whatever `len` says.
    ///
    /// Fails with `TooLong` if the section already has 4,294,967,295 entries or a `len` is over 4,294,967,295, before
    /// it asks for a type.
    pub fn function<P: IntoIterator<Item = ValType>, R: IntoIterator<Item = ValType>>(
        self,
        params: P,
        results: R,
    ) -> Result<(), EncodeError>
    where
        P::IntoIter: ExactSizeIterator,
        R::IntoIter: ExactSizeIterator,
        requires params { (items : P.IntoIter) → P.into_iter_gives params items → P.IntoIter.can_next items }
        requires results { (items : R.IntoIter) → R.into_iter_gives results items → R.IntoIter.can_next items }
        ensures adds { OfIterator P.into_iter_gives params (λ ps. OfIterator R.into_iter_gives results (λ rs. AddsFunction P.IntoIter.next_gives R.IntoIter.next_gives ps rs
            (IsUncounted (size (P.IntoIter.remaining ps)) ⊎ IsUncounted (size (R.IntoIter.remaining rs))) self.entry.section.now self.exit.0.now result)) }
    {
        let CoreTypeEncoder { section } = self;
        let (params, results) = (params.into_iter(), results.into_iter());
        section.entries.add_tagged_pair(0x60, params, results)
    }

    /// Adds a struct type of these fields: an array, `vec.into_iter()` or `slice.iter().copied()`. It is final, without
    /// supertypes and not shared (Core 3.0, Composite Types). The count is that of the fields that the iterator yields,
    /// whatever `len` says.
    ///
    /// Fails with `TooLong` if the section already has 4,294,967,295 entries or `len` is over 4,294,967,295, before it
    /// asks for a field.
    pub fn struct_<F: IntoIterator<Item = FieldType>>(self, fields: F) -> Result<(), EncodeError>
    where
        F::IntoIter: ExactSizeIterator,
        requires { (items : F.IntoIter) → F.into_iter_gives fields items → F.IntoIter.can_next items }
        ensures adds { OfIterator F.into_iter_gives fields (λ items. AddsGiven F.IntoIter.next_gives items struct_entry (IsUncounted (size (F.IntoIter.remaining items))) self.entry.section.now self.exit.0.now result) }
    {
        let CoreTypeEncoder { section } = self;
        section.entries.add_tagged(0x5f, fields.into_iter())
    }

    /// Adds a recursion group of these types, as one entry (Core 3.0, Recursive Types): an array, or `vec.into_iter()`.
    /// The count is that of the types that the iterator yields, whatever `len` says.
    ///
    /// Fails with `TooLong` if the section already has 4,294,967,295 entries or `len` is over 4,294,967,295, before it
    /// asks for a type, or if a list in a type has more items than that.
    pub fn rec<S: IntoIterator<Item = SubType>>(self, types: S) -> Result<(), EncodeError>
    where
        S::IntoIter: ExactSizeIterator,
        requires { (items : S.IntoIter) → S.into_iter_gives types items → S.IntoIter.can_next items }
        ensures adds { OfIterator S.into_iter_gives types (λ items. AddsGiven S.IntoIter.next_gives items entries.Rec
            (IsUncounted (size (S.IntoIter.remaining items)) ⊎ GivesSome S.IntoIter.next_gives items UncountedSub) self.entry.section.now self.exit.0.now result) }
    {
        let CoreTypeEncoder { section } = self;
        section.entries.add_tagged(0x4e, types.into_iter())
    }
}
