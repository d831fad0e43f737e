//! The name section: names of a module, its items, locals, labels and fields (Core 3.0, Name Section, and the proposal
//! of extended name sections).
ghost use Rattle.std.specs.Prelude.{◌≡◌, ◌++◌, ◌∷◌, ◌+◌, ◌<◌, ◌≤◌, ◌⊎◌, [], refl, codes, List, OnOk, OnErr, IfErr, IsErrOf, length, ⊤, IfOk};
ghost use Rattle.std.proofs.lemmas.List.{map_push};
ghost use Rattle.wasm_codec.specs.Decoding.{ChecksAll, TakesMinimal, RewritesInPlace};
ghost use Rattle.wasm_codec.specs.Encoding.{byte_list_bytes, IsCount, IsRefusal, IsMinimal, IsTooLong, OnlyTooLong};
ghost use Rattle.wasm_codec.specs.Lawful.{IsLawful, IsLawfulBody};
ghost use Rattle.wasm_codec.specs.Outcomes.{IfMalformed, LiesIn, as_read, EncodesSome, NeedsNoMemory};
ghost use Rattle.wasm_codec.specs.Places.{Reads};
ghost use Rattle.wasm_codec.specs.Reading.{map_ok};
ghost use Rattle.wasm_codec.specs.Rewriter.{Rewrites};
ghost use Rattle.wasm_codec.specs.formats.Bodies.{sized};
ghost use Rattle.wasm_codec.specs.formats.Combinators.{items, minimal_only};
ghost use Rattle.wasm_codec.specs.formats.Grammar.{Joined, TakesBytes};
ghost use Rattle.wasm_externals.specs.Making.{Makes};
ghost use Rattle.wasm_externals.specs.formats.Names.{name as name_format};
ghost use Rattle.wasm_custom_sections.specs.NamedSections.{CountedNamed, IsNamedSection, named_bytes};
ghost use Rattle.wasm_custom_sections.specs.NameSections.{AddsName, AddsNames, HoldsNames, IsNameErrorOf, StandsForNames};
ghost use Rattle.wasm_custom_sections.specs.declared.names.NameError.TheVariants as errors;
ghost use Rattle.wasm_custom_sections.specs.formats.NameParts.{SubsectionParts, subsection_parts, all_subsection_parts, functions, locals, labels, types, tables, memories, globals, elements, data_segments, fields, tags};
ghost use Rattle.wasm_custom_sections.specs.formats.Names.{indirect_naming, name_data, name_subsection, naming};
ghost use Rattle.wasm_code.specs.DecodedPrefixes.{ArePrefixes};

mod indices;
mod writer;

use crate::name_maps::{AnyIndirectNaming, IndirectNameMap, IndirectNaming, NameMap, Naming};
use crate::sized::{NameBody, append_subsection, read_sized_bytes, read_sized_name};
use std::alloc::{Allocator, Global};
use std::marker::Model;
use thiserror::Error;
use wasm_code::decode::Decode;
use wasm_code::raw::RawBytes;
use wasm_codec::encode::{EncodeError, keep_or_undo};
use wasm_codec::reader::DecodeError;
use wasm_codec::reader::cursor::{Cursor, Fault};
use wasm_codec::reader::malformed::Construct;
use wasm_codec::rewriter::{Rewriter, Scanned};
use wasm_externals::names::append_name;
use wasm_lists::checking::check_items_to_end;
use wasm_lists::encode::Encode;
use wasm_lists::list::Items;
use wasm_lists::readable::{Item, Readable};
use wasm_lists::reading::read_items_to_end;
use wasm_lists::rewriting::{Joinable, Rewritable, rewrite_items_to_end, rewrite_sized};
use wasm_sections::bodies::{ListOf, read_sized_list};
use wasm_sections::custom::CustomSection;

/// A subsection of a name section (Core 3.0, Name Section).
///
/// Names inside an item, such as those of a function's locals, are an [`IndirectNaming`].
///
/// # Examples
///
/// What was read gets new indices, and is written back:
///
/// ```
/// # use wasm_encoder::{Encode, IndexSpace, InsertedItems, NameSection, map_all_indices, read};
/// let names = read::<NameSection>(rt.alloc(), b"\x01\x04\x01\x00\x01f")?; // the function 0 is f
/// let import = InsertedItems {
///     space: IndexSpace::Functions,
///     at: 0,
///     count: 1,
/// };
/// let mut contents = Vec::new(rt.alloc());
/// for subsection in &map_all_indices(rt.alloc(), &import, &names)? {
///     subsection.encode(&mut contents)?;
/// }
/// assert_eq!(rt; contents.as_slice(), b"\x01\x04\x01\x01\x01f".as_slice());
/// ```
#[derive(Debug, Drop)]
pub enum NameSubsection<'a> {
    /// Name of the module, 0.
    Module(&'a str),
    /// Names of functions, 1.
    Functions(Items<Naming<'a>>),
    /// Names of the locals of functions, 2.
    Locals(Items<IndirectNaming<'a>>),
    /// Names of the labels of functions, 3.
    Labels(Items<IndirectNaming<'a>>),
    /// Names of types, 4.
    Types(Items<Naming<'a>>),
    /// Names of tables, 5.
    Tables(Items<Naming<'a>>),
    /// Names of memories, 6.
    Memories(Items<Naming<'a>>),
    /// Names of globals, 7.
    Globals(Items<Naming<'a>>),
    /// Names of element segments, 8.
    Elements(Items<Naming<'a>>),
    /// Names of data segments, 9.
    Data(Items<Naming<'a>>),
    /// Names of the fields of types, 10.
    Fields(Items<IndirectNaming<'a>>),
    /// Names of tags, 11.
    Tags(Items<Naming<'a>>),
    /// A subsection with an unknown id, 12 or more.
    Unknown {
        /// Id of the subsection.
        id: u8,
        /// Contents after the size.
        bytes: &'a [u8],
    },
}

/// Reads a subsection.
fn read_subsection<'a>(alloc: Global, cursor: &mut Cursor<'a>) -> Result<NameSubsection<'a>, Fault>
    ensures reads { Reads name_subsection.at cursor.old cursor.new (map_ok subsection_parts result) }
{
    let id = cursor.byte_of(Construct::SubsectionId)?;
    match id {
        0 => read_sized_name(cursor).map(NameSubsection::Module),
        1 => read_sized_list(alloc, cursor).map(NameSubsection::Functions),
        2 => read_sized_list(alloc, cursor).map(NameSubsection::Locals),
        3 => read_sized_list(alloc, cursor).map(NameSubsection::Labels),
        4 => read_sized_list(alloc, cursor).map(NameSubsection::Types),
        5 => read_sized_list(alloc, cursor).map(NameSubsection::Tables),
        6 => read_sized_list(alloc, cursor).map(NameSubsection::Memories),
        7 => read_sized_list(alloc, cursor).map(NameSubsection::Globals),
        8 => read_sized_list(alloc, cursor).map(NameSubsection::Elements),
        9 => read_sized_list(alloc, cursor).map(NameSubsection::Data),
        10 => read_sized_list(alloc, cursor).map(NameSubsection::Fields),
        11 => read_sized_list(alloc, cursor).map(NameSubsection::Tags),
        12.. => {
            let bytes = read_sized_bytes(cursor)?;
            Ok(NameSubsection::Unknown { id, bytes })
        }
    }
}

/// Rewrites a subsection to its minimal encoding.
fn rewrite_subsection(rewriter: &mut Rewriter) -> Result<(), Fault>
    ensures rewrites { Rewrites name_subsection rewriter.old rewriter.new result }
{
    match rewriter.byte_of(Construct::SubsectionId)? {
        0 => rewrite_sized::<NameBody>(rewriter),
        1 => rewrite_names(rewriter),
        2 => rewrite_indirect_names(rewriter),
        3 => rewrite_indirect_names(rewriter),
        4 => rewrite_names(rewriter),
        5 => rewrite_names(rewriter),
        6 => rewrite_names(rewriter),
        7 => rewrite_names(rewriter),
        8 => rewrite_names(rewriter),
        9 => rewrite_names(rewriter),
        10 => rewrite_indirect_names(rewriter),
        11 => rewrite_names(rewriter),
        12.. => rewrite_sized::<RawBytes>(rewriter),
    }
}

/// Rewrites a size and a name map to their minimal encoding.
fn rewrite_names(rewriter: &mut Rewriter) -> Result<(), Fault>
    ensures rewrites { Rewrites (sized (items naming)) rewriter.old rewriter.new result }
{
    rewrite_sized::<ListOf<Item<'static, Naming<'static>>>>(rewriter)
}

/// Rewrites a size and an indirect name map to their minimal encoding.
fn rewrite_indirect_names(rewriter: &mut Rewriter) -> Result<(), Fault>
    ensures rewrites { Rewrites (sized (items indirect_naming)) rewriter.old rewriter.new result }
{
    rewrite_sized::<ListOf<AnyIndirectNaming>>(rewriter)
}

impl<'a> Readable<'a> for NameSubsection<'a> {
    ghost Value = { SubsectionParts };

    ghost view = { subsection_parts };

    ghost views = { all_subsection_parts };

    ghost views_each = { record { none = refl; more = λ subsections subsection. map_push subsection_parts subsections subsection } };

    ghost format = { name_subsection };

    #[inline(always)]
    #[tactic(auto, using(crate::proofs::SubsectionLaws::subsection_is_lawful, crate::proofs::SubsectionLaws::subsection_takes))]
    fn is_lawful()
        ensures lawful { IsLawful name_subsection }
        ensures some { TakesBytes name_subsection.Encodes }
    {}

    fn read(alloc: Global, cursor: &mut Cursor<'a>) -> Result<NameSubsection<'a>, Fault> {
        read_subsection(alloc, cursor)
    }

    fn rewrite(rewriter: &mut Rewriter) -> Result<(), Fault>
        ensures rewrites { Rewrites name_subsection rewriter.old rewriter.new result }
    {
        rewrite_subsection(rewriter)
    }
}

/// A subsection of any kind, to rewrite.
pub(crate) struct AnySubsection;

impl Rewritable for AnySubsection {
    ghost Value = { SubsectionParts };

    ghost format = { name_subsection };

    #[inline(always)]
    #[tactic(auto, using(crate::proofs::SubsectionLaws::subsection_is_lawful, crate::proofs::SubsectionLaws::subsection_takes))]
    fn is_lawful() {}

    fn rewrite(rewriter: &mut Rewriter) -> Result<(), Fault> {
        rewrite_subsection(rewriter)
    }
}

impl Joinable for AnySubsection {
    #[inline(always)]
    fn scan(_bytes: &[u8]) -> Option<Scanned> {
        None
    }
}

/// Error of a method that adds a subsection to a [`NameSection`].
#[derive(Debug, PartialEq, Eq, Drop, Error)]
pub enum NameError {
    /// The section has this subsection, or one with a higher id.
    #[error("names out of order")]
    OutOfOrder,
    /// Writing failed with this error.
    #[error("{0}")]
    Encode(EncodeError),
}

impl From<EncodeError> for NameError {
    ghost from_gives = { λ error e. e ≡ errors.Encode error };

    fn from(error: EncodeError) -> NameError {
        NameError::Encode(error)
    }
}

/// A name section: names for debuggers and stack traces (Core 3.0, Name Section).
///
/// Its methods append one subsection each. Call each at most once, in the order of this page, which is that of the ids:
/// otherwise they fail with [`OutOfOrder`](NameError::OutOfOrder). [`next_id`](NameSection::next_id) returns the least
/// id that may follow. They fail with [`Encode`](NameError::Encode) if the subsection is longer than 4,294,967,295 bytes
/// or the section can't grow. On error the section is unchanged.
///
/// # Examples
///
/// ```
/// # use wasm_encoder::{Encode, NameError, NameMap, NameSection};
/// let mut functions = NameMap::new(rt.alloc());
/// functions.append(0, "f")?;
/// let mut names = NameSection::new(rt.alloc());
/// names.module("m")?;
/// names.functions(&functions)?;
/// let mut bytes = Vec::new(rt.alloc());
/// names.encode(&mut bytes)?; // the size, the name "name", and two subsections
/// let expected = b"\x0f\x04name\x00\x02\x01m\x01\x04\x01\x00\x01f";
/// assert_eq!(rt; bytes.as_slice(), expected.as_slice());
/// assert_eq!(rt; names.module("n").err(), Some(NameError::OutOfOrder));
/// ```
///
/// Reading the contents of such a section, after its name, returns the subsections:
///
/// ```
/// # use wasm_encoder::{NameSection, NameSubsection, read};
/// let subsections = read::<NameSection>(rt.alloc(), b"\x00\x02\x01m")?;
/// assert!(rt; matches!(subsections[0], NameSubsection::Module("m")));
/// ```
#[derive(Debug, Drop)]
pub struct NameSection {
    bytes: Vec<u8>,
    next: u8,
}

impl Model for NameSection {
    ghost use Rattle.wasm_custom_sections.specs.NameSections.{BuiltNames};

    ghost Value = { BuiltNames };

    ghost view = { λ section. record { bytes = section.bytes.items; next = section.next } };
}

impl NameSection {
    /// Returns a section without names. Allocates nothing.
    #[tactic(auto, using(crate::proofs::NameSectionLaws::stands_for_none))]
    pub fn new(alloc: Global) -> NameSection
        ensures names { StandsForNames result [] }
        ensures next { result.next ≡ 0 }
    {
        NameSection {
            bytes: Vec::new(alloc),
            next: 0,
        }
    }

    /// Returns the least id that the next subsection may have.
    pub fn next_id(&self) -> u8
        ensures { result ≡ self.now.next }
    {
        self.next
    }

    /// Returns the encoded subsections, which are the contents of the section after its name.
    pub fn as_slice(&self) -> &[u8]
        ensures { result.now ≡ self.now.bytes }
    {
        self.bytes.as_slice()
    }

    /// Names the module.
    ///
    /// Fails with `OutOfOrder` if the section has a subsection.
    #[tactic(auto, using(crate::proofs::NameSectionLaws::adds_module))]
    pub fn module(&mut self, name: &str) -> Result<(), NameError>
        ensures adds { AddsName self.old name.now self.new result }
    {
        self.add(0, &ModuleName { name })
    }

    /// Names functions.
    ///
    /// Fails with `OutOfOrder` if the section has this subsection or a later one.
    #[tactic(auto, using(crate::proofs::NameSectionLaws::adds_functions))]
    pub fn functions(&mut self, names: &NameMap) -> Result<(), NameError>
        ensures adds { AddsNames naming functions 1 self.old names.now self.new result }
    {
        self.add(1, names)
    }

    /// Names the locals of functions.
    ///
    /// Fails with `OutOfOrder` if the section has this subsection or a later one.
    #[tactic(auto, using(crate::proofs::NameSectionLaws::adds_locals))]
    pub fn locals(&mut self, names: &IndirectNameMap) -> Result<(), NameError>
        ensures adds { AddsNames indirect_naming locals 2 self.old names.now self.new result }
    {
        self.add(2, names)
    }

    /// Names the labels of functions.
    ///
    /// Fails with `OutOfOrder` if the section has this subsection or a later one.
    #[tactic(auto, using(crate::proofs::NameSectionLaws::adds_labels))]
    pub fn labels(&mut self, names: &IndirectNameMap) -> Result<(), NameError>
        ensures adds { AddsNames indirect_naming labels 3 self.old names.now self.new result }
    {
        self.add(3, names)
    }

    /// Names types.
    ///
    /// Fails with `OutOfOrder` if the section has this subsection or a later one.
    #[tactic(auto, using(crate::proofs::NameSectionLaws::adds_types))]
    pub fn types(&mut self, names: &NameMap) -> Result<(), NameError>
        ensures adds { AddsNames naming types 4 self.old names.now self.new result }
    {
        self.add(4, names)
    }

    /// Names tables.
    ///
    /// Fails with `OutOfOrder` if the section has this subsection or a later one.
    #[tactic(auto, using(crate::proofs::NameSectionLaws::adds_tables))]
    pub fn tables(&mut self, names: &NameMap) -> Result<(), NameError>
        ensures adds { AddsNames naming tables 5 self.old names.now self.new result }
    {
        self.add(5, names)
    }

    /// Names memories.
    ///
    /// Fails with `OutOfOrder` if the section has this subsection or a later one.
    #[tactic(auto, using(crate::proofs::NameSectionLaws::adds_memories))]
    pub fn memories(&mut self, names: &NameMap) -> Result<(), NameError>
        ensures adds { AddsNames naming memories 6 self.old names.now self.new result }
    {
        self.add(6, names)
    }

    /// Names globals.
    ///
    /// Fails with `OutOfOrder` if the section has this subsection or a later one.
    #[tactic(auto, using(crate::proofs::NameSectionLaws::adds_globals))]
    pub fn globals(&mut self, names: &NameMap) -> Result<(), NameError>
        ensures adds { AddsNames naming globals 7 self.old names.now self.new result }
    {
        self.add(7, names)
    }

    /// Names element segments.
    ///
    /// Fails with `OutOfOrder` if the section has this subsection or a later one.
    #[tactic(auto, using(crate::proofs::NameSectionLaws::adds_elements))]
    pub fn elements(&mut self, names: &NameMap) -> Result<(), NameError>
        ensures adds { AddsNames naming elements 8 self.old names.now self.new result }
    {
        self.add(8, names)
    }

    /// Names data segments.
    ///
    /// Fails with `OutOfOrder` if the section has this subsection or a later one.
    #[tactic(auto, using(crate::proofs::NameSectionLaws::adds_data))]
    pub fn data(&mut self, names: &NameMap) -> Result<(), NameError>
        ensures adds { AddsNames naming data_segments 9 self.old names.now self.new result }
    {
        self.add(9, names)
    }

    /// Names the fields of types.
    ///
    /// Fails with `OutOfOrder` if the section has this subsection or a later one.
    #[tactic(auto, using(crate::proofs::NameSectionLaws::adds_fields))]
    pub fn fields(&mut self, names: &IndirectNameMap) -> Result<(), NameError>
        ensures adds { AddsNames indirect_naming fields 10 self.old names.now self.new result }
    {
        self.add(10, names)
    }

    /// Names tags.
    ///
    /// Fails with `OutOfOrder` if the section has this subsection or a later one.
    #[tactic(auto, using(crate::proofs::NameSectionLaws::adds_tags))]
    pub fn tags(&mut self, names: &NameMap) -> Result<(), NameError>
        ensures adds { AddsNames naming tags 11 self.old names.now self.new result }
    {
        self.add(11, names)
    }

    /// Appends a subsection. On error the section is unchanged.
    fn add<T: Encode>(&mut self, id: u8, content: &T) -> Result<(), NameError>
        requires small { id < 12 }
        ensures in_order { OnOk result (self.old.next ≤ id) }
        ensures out_of_order { id < self.old.next → IsErrOf result errors.OutOfOrder }
        ensures bytes { OnOk result (self.new.bytes ≡ self.old.bytes ++ id ∷ byte_list_bytes (T.bytes content.now)) }
        ensures next { OnOk result (self.new.next ≡ id + 1) }
        ensures counted { OnOk result (IsCount (length (T.bytes content.now))) }
        ensures written { OnOk result (T.IsWritten content.now) }
        ensures same { OnErr result (self.new ≡ self.old) }
        ensures refused { IfErr result (IsNameErrorOf id self.old.next (λ e. IsRefusal T.CanEncode T.refuses content.now e ⊎ IsTooLong (length (T.bytes content.now)) e)) }
    {
        if id < self.next {
            return Err(NameError::OutOfOrder);
        }
        let start = self.bytes.len();
        let result = append_subsection(id, content, &mut self.bytes);
        keep_or_undo(&mut self.bytes, start, result)?;
        self.next = id + 1;
        Ok(())
    }

    /// Copies the section. Fails with `Memory` if it can't allocate.
    pub fn try_clone(&self) -> Result<NameSection, EncodeError>
        ensures makes { Makes self.now result }
    {
        let bytes = Vec::from_slice(*self.bytes.allocator(), self.bytes.as_slice())?;
        Ok(NameSection {
            bytes,
            next: self.next,
        })
    }
}

/// The name of a module.
#[derive(Drop)]
pub(crate) struct ModuleName<'a> {
    pub name: &'a str,
}

impl<'a> Encode for ModuleName<'a> {
    ghost bytes = { λ item. name_format.bytes item.name.now };

    ghost IsWritten = { λ item. IsMinimal name_format.Encodes name_format.bytes item.name.now };

    ghost CanEncode = { λ item. IsCount (length item.name.now) };

    ghost refuses = { OnlyTooLong };

    fn encode<A: Allocator>(&self, sink: &mut Vec<u8, A>) -> Result<(), EncodeError> {
        let start = sink.len();
        let result = append_name(self.name, sink);
        keep_or_undo(sink, start, result)
    }
}

/// The size of the body in bytes, the name `name`, and the subsections (Core 3.0, Name Section).
///
/// Fails with `TooLong` if the body is longer than 4,294,967,295 bytes.
impl Encode for NameSection {
    ghost bytes = { λ section. named_bytes (codes "name") section.bytes };

    ghost IsWritten = { λ section. HoldsNames section × IsNamedSection (codes "name") section.bytes };

    ghost CanEncode = { λ section. CountedNamed (codes "name") section.bytes };

    ghost refuses = { OnlyTooLong };

    #[tactic(auto, using(crate::proofs::NameSectionLaws::holds_names))]
    fn encode<A: Allocator>(&self, sink: &mut Vec<u8, A>) -> Result<(), EncodeError> {
        let section = CustomSection {
            name: "name",
            bytes: self.bytes.as_slice(),
        };
        section.encode(sink)
    }
}

/// The contents after the name, as `read::<NameSection>` returns them: subsections in any order and number.
impl<'a> Decode<'a> for NameSection {
    type Output = Vec<NameSubsection<'a>>;

    ghost Value = { List SubsectionParts };

    ghost view = { λ subsections. all_subsection_parts subsections.items };

    ghost format = { name_data };

    ghost Minimal = { Joined (minimal_only name_subsection).Encodes };

    ghost IsPrefix = { EncodesSome (Joined name_subsection.Encodes) };

    ghost IsMinimalPrefix = { EncodesSome (Joined (minimal_only name_subsection).Encodes) };

    #[inline(always)]
    #[tactic(auto, using(crate::proofs::SubsectionLaws::name_data_is_lawful, crate::proofs::SubsectionLaws::name_data_is_minimal))]
    fn is_lawful()
        ensures lawful { IsLawfulBody name_data }
        ensures minimal { TakesMinimal name_data (Joined (minimal_only name_subsection).Encodes) }
        ensures prefixes { ArePrefixes name_data.Encodes (EncodesSome (Joined name_subsection.Encodes)) }
        ensures minimal_prefixes { ArePrefixes (Joined (minimal_only name_subsection).Encodes) (EncodesSome (Joined (minimal_only name_subsection).Encodes)) }
    {}

    #[tactic(auto, using(wasm_codec::proofs::ListReading::none_within))]
    fn read_all(alloc: Global, bytes: &'a [u8]) -> Result<Vec<NameSubsection<'a>>, DecodeError> {
        read_items_to_end::<NameSubsection<'a>, false>(alloc, bytes)
    }

    #[tactic(auto, using(wasm_codec::proofs::ListReading::none_within))]
    fn read_all_strict(
        alloc: Global,
        bytes: &'a [u8],
    ) -> Result<Vec<NameSubsection<'a>>, DecodeError> {
        read_items_to_end::<NameSubsection<'a>, true>(alloc, bytes)
    }

    #[tactic(auto, using(wasm_codec::proofs::ListReading::none_within))]
    fn check_all(alloc: Global, bytes: &[u8]) -> Result<(), DecodeError>
        ensures checks { ChecksAll (Joined (minimal_only name_subsection).Encodes) (EncodesSome (Joined (minimal_only name_subsection).Encodes)) bytes.now (as_read result) }
        ensures place { IfErr result (LiesIn (length bytes.now)) }
        ensures counts { IfMalformed result (λ _. ⊤) }
    {
        check_items_to_end::<AnySubsection>(alloc, bytes)
    }

    #[tactic(auto, using(wasm_codec::proofs::ListReading::none_within))]
    fn rewrite_all(bytes: &mut [u8]) -> Result<usize, DecodeError>
        ensures len { IfOk result (λ len. len ≤ length bytes.new) }
        ensures rewrites { RewritesInPlace name_data (EncodesSome (Joined name_subsection.Encodes)) bytes.old bytes.new (as_read result) }
        ensures memory { NeedsNoMemory (as_read result) }
        ensures place { IfErr result (LiesIn (length bytes.old)) }
        ensures counts { IfMalformed result (λ _. ⊤) }
    {
        rewrite_items_to_end::<AnySubsection>(bytes)
    }
}
