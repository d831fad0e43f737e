//! The section `linking`: what a linker needs to know of an object file (tool conventions, WebAssembly Object File
//! Linking).
ghost use Rattle.std.specs.Prelude.{◌≡◌, ◌∷◌, ◌++◌, ◌+◌, ◌-◌, ◌<◌, ◌≤◌, ◌⊎◌, ℕ, List, None, [], refl, codes, true, IfOk, IfErr, OnOk, length, ⊤};
ghost use Rattle.std.proofs.lemmas.List.{map_push};
ghost use Rattle.wasm_codec.specs.Decoding.{ChecksAll, TakesMinimal, ReadsAll, RewritesInPlace, RewritesTo};
ghost use Rattle.wasm_codec.specs.Encoding.{byte_list_bytes, OnlyTooLong};
ghost use Rattle.wasm_codec.specs.Lawful.{IsLawful, IsLawfulBody};
ghost use Rattle.wasm_codec.specs.Outcomes.{IfMalformed, LiesIn, as_read, read_error_of, IsMalformed, NeedsNoMemory};
ghost use Rattle.wasm_codec.specs.Places.{Reads, WasMinimalIf, place};
ghost use Rattle.wasm_codec.specs.Reading.{map_ok, BeginsWith};
ghost use Rattle.wasm_codec.specs.Rewriter.{IsNew, Rewrites};
ghost use Rattle.wasm_codec.specs.declared.encode.EncodeError.TheVariants.{Memory};
ghost use Rattle.wasm_codec.specs.declared.reader.ReadError.TheVariants.{Refused};
ghost use Rattle.wasm_codec.specs.formats.Combinators.{items, minimal_if};
ghost use Rattle.wasm_codec.specs.formats.Grammar.{TakesBytes};
ghost use Rattle.wasm_externals.specs.Making.{Makes};
ghost use Rattle.wasm_lists.specs.EncodedLists.{IsFull, IsMemoryOrTooLong, IsUncounted, body_bytes};
ghost use Rattle.wasm_sections.specs.ListSections.{Adds, StandsForItems};
ghost use Rattle.wasm_code.specs.DecodedPrefixes.{ArePrefixes, IsNothingOr};
ghost use Rattle.wasm_custom_sections.specs.Gaining.{GainsWith};
ghost use Rattle.wasm_custom_sections.specs.LinkingSections.{HoldsLinking};
ghost use Rattle.wasm_custom_sections.specs.NamedSections.{CountedNamed, IsNamedSection, named_bytes};
ghost use Rattle.wasm_custom_sections.specs.formats.Linking.{LinkingParts, all_linking_parts, linking_data, linking_if, linking_parts, linking_subsection, symbols, version, versioned};
ghost use Rattle.wasm_custom_sections.specs.formats.Symbols.{symbol};

use crate::sized::read_sized_bytes;
use crate::symbol_table::SymbolTable;
use crate::symbols::Symbol;
use std::alloc::{Allocator, Global};
use std::marker::Model;
use wasm_code::decode::Decode;
use wasm_code::raw::RawBytes;
use wasm_codec::encode::EncodeError;
use wasm_codec::reader::DecodeError;
use wasm_codec::reader::cursor::{Cursor, Fault};
use wasm_codec::reader::malformed::{Construct, Malformed, Reason};
use wasm_codec::reader::refusal::Refusal;
use wasm_codec::rewriter::{Rewriter, Scanned};
use wasm_lists::checking::check_items_to_end;
use wasm_lists::encode::Encode;
use wasm_lists::encoded_list::EncodedList;
use wasm_lists::list::Items;
use wasm_lists::readable::{Item, Readable};
use wasm_lists::reading::read_items_to_end;
use wasm_lists::rewriting::{Joinable, Rewritable, Rewritten, rewrite_joined, rewrite_sized};
use wasm_sections::bodies::{ListOf, read_sized_list};
use wasm_sections::custom::CustomSection;

/// The version of linking sections.
const VERSION: u32 = 2;

/// A subsection of a linking section.
#[derive(Debug, Drop)]
pub enum LinkingSubsection<'a> {
    /// Symbols, 8.
    SymbolTable(Items<Symbol<'a>>),
    /// A subsection of another kind, such as segments, 5, initialisers, 6, and COMDAT groups, 7.
    Other {
        /// Id of the subsection.
        id: u8,
        /// Contents after the size.
        bytes: &'a [u8],
    },
}

/// Reads a subsection.
#[tactic(auto, unfolding(crate::specs::formats::Linking::linking_subsection))]
fn read_subsection<'a>(
    alloc: Global,
    cursor: &mut Cursor<'a>,
) -> Result<LinkingSubsection<'a>, Fault>
    ensures reads { Reads linking_subsection.at cursor.old cursor.new (map_ok linking_parts result) }
{
    let id = cursor.byte_of(Construct::SubsectionId)?;
    if id == 8 {
        return Ok(LinkingSubsection::SymbolTable(read_sized_list(alloc, cursor)?));
    }
    let bytes = read_sized_bytes(cursor)?;
    Ok(LinkingSubsection::Other { id, bytes })
}

/// Rewrites a subsection to its minimal encoding.
#[tactic(auto, using(std::proofs::Common::append_assoc), unfolding(crate::specs::formats::Linking::linking_subsection))]
fn rewrite_subsection(rewriter: &mut Rewriter) -> Result<(), Fault>
    ensures rewrites { Rewrites linking_subsection rewriter.old rewriter.new result }
{
    if rewriter.byte_of(Construct::SubsectionId)? == 8 {
        return rewrite_sized::<ListOf<Item<'static, Symbol<'static>>>>(rewriter);
    }
    rewrite_sized::<RawBytes>(rewriter)
}

impl<'a> Readable<'a> for LinkingSubsection<'a> {
    ghost Value = { LinkingParts };

    ghost view = { linking_parts };

    ghost views = { all_linking_parts };

    ghost views_each = { record { none = refl; more = λ subsections subsection. map_push linking_parts subsections subsection } };

    ghost format = { linking_subsection };

    #[inline(always)]
    #[tactic(auto, using(crate::proofs::LinkingLaws::subsection_is_lawful, crate::proofs::LinkingLaws::subsection_takes))]
    fn is_lawful()
        ensures lawful { IsLawful linking_subsection }
        ensures some { TakesBytes linking_subsection.Encodes }
    {}

    fn read(alloc: Global, cursor: &mut Cursor<'a>) -> Result<LinkingSubsection<'a>, Fault> {
        read_subsection(alloc, cursor)
    }

    fn rewrite(rewriter: &mut Rewriter) -> Result<(), Fault>
        ensures rewrites { Rewrites linking_subsection rewriter.old rewriter.new result }
    {
        rewrite_subsection(rewriter)
    }
}

/// A subsection of any kind, to rewrite.
struct AnySubsection;

impl Rewritable for AnySubsection {
    ghost Value = { LinkingParts };

    ghost format = { linking_subsection };

    #[inline(always)]
    #[tactic(auto, using(crate::proofs::LinkingLaws::subsection_is_lawful, crate::proofs::LinkingLaws::subsection_takes))]
    fn is_lawful() {}

    fn rewrite(rewriter: &mut Rewriter) -> Result<(), Fault> {
        rewrite_subsection(rewriter)
    }
}

impl Joinable for AnySubsection {
    #[inline(always)]
    fn scan(_bytes: &[u8]) -> Option<Scanned> {
        None
    }
}

/// Reads the version, minimally encoded if `STRICT` is set.
#[tactic(auto, unfolding(crate::specs::formats::Linking::version))]
fn read_version<const STRICT: bool>(cursor: &mut Cursor<'_>) -> Result<u32, Fault>
    requires passed { WasMinimalIf STRICT cursor.old }
    ensures reads { Reads (minimal_if STRICT version).at cursor.old cursor.new result }
    ensures err { IfErr result IsMalformed }
{
    let start = cursor.to_end();
    let number = cursor.u32()?;
    if number != VERSION {
        let construct = Construct::LinkingVersion;
        let reason = Reason::InvalidNumber { construct, number };
        return Err(Fault::Malformed(Malformed::new(reason, start)));
    }
    if STRICT && !cursor.is_minimal() {
        return Err(Fault::Malformed(Malformed::new(Reason::LongForm, start)));
    }
    Ok(number)
}

/// Returns the bytes after the version, which must be minimally encoded if `STRICT` is set.
fn after_version<'a, const STRICT: bool>(bytes: &'a [u8]) -> Result<&'a [u8], Fault>
    ensures ok { IfOk result (λ rest. BeginsWith (minimal_if STRICT version).Encodes bytes.now 2 rest.now) }
    ensures err { IfErr result IsMalformed }
    ensures none { IfErr result (λ _. (minimal_if STRICT version).at (place true bytes.now) ≡ None) }
{
    let mut cursor = Cursor::new(bytes);
    cursor.are_bytes();
    read_version::<STRICT>(&mut cursor)?;
    let left = cursor.len();
    cursor.take(left, Construct::Body)
}

/// Returns the refusal of the subsections `rest` as that of all bytes.
fn behind_version(refusal: Refusal, bytes: &[u8], rest: &[u8]) -> DecodeError
    requires within { refusal.at < length rest.now }
    requires shorter { length rest.now ≤ length bytes.now }
    ensures error { read_error_of result ≡ Refused (length bytes.now - length rest.now + refusal.at) }
    ensures place { refusal.at ≤ refusal.offset → refusal.offset ≤ length rest.now → LiesIn (length bytes.now) result }
{
    let size = bytes.len() - rest.len();
    let at = size + refusal.at;
    DecodeError::Malformed(refusal.behind(at, size))
}

/// Reads the version and the subsections, minimally encoded if `STRICT` is set.
fn read_linking<'a, const STRICT: bool>(
    alloc: Global,
    bytes: &'a [u8],
) -> Result<Vec<LinkingSubsection<'a>>, DecodeError>
    ensures reads { ReadsAll (λ subsections. versioned (all_linking_parts subsections.items)) (linking_if STRICT).Encodes (IsNothingOr (linking_if STRICT)) bytes.now (as_read result) }
    ensures place { IfErr result (LiesIn (length bytes.now)) }
{
    let rest = match after_version::<STRICT>(bytes) {
        Ok(rest) => rest,
        Err(fault) => return Err(DecodeError::new(fault, 0, bytes.len())),
    };
    match read_items_to_end::<LinkingSubsection<'a>, STRICT>(alloc, rest) {
        Ok(subsections) => Ok(subsections),
        Err(DecodeError::Memory) => Err(DecodeError::Memory),
        Err(DecodeError::Malformed(refusal)) => Err(behind_version(refusal, bytes, rest)),
    }
}

/// Checks whether the version and the subsections are minimally encoded.
fn check_linking(alloc: Global, bytes: &[u8]) -> Result<(), DecodeError>
    ensures checks { ChecksAll (linking_if true).Encodes (IsNothingOr (linking_if true)) bytes.now (as_read result) }
    ensures place { IfErr result (LiesIn (length bytes.now)) }
{
    let rest = match after_version::<true>(bytes) {
        Ok(rest) => rest,
        Err(fault) => return Err(DecodeError::new(fault, 0, bytes.len())),
    };
    match check_items_to_end::<AnySubsection>(alloc, rest) {
        Ok(()) => Ok(()),
        Err(DecodeError::Memory) => Err(DecodeError::Memory),
        Err(DecodeError::Malformed(refusal)) => Err(behind_version(refusal, bytes, rest)),
    }
}

/// Rewrites the version to its minimal encoding.
#[tactic(auto, unfolding(crate::specs::formats::Linking::version))]
fn rewrite_version(rewriter: &mut Rewriter) -> Result<(), Fault>
    ensures rewrites { Rewrites version rewriter.old rewriter.new result }
{
    let start = rewriter.to_end();
    let number = rewriter.u32()?;
    if number != VERSION {
        let construct = Construct::LinkingVersion;
        let reason = Reason::InvalidNumber { construct, number };
        return Err(Fault::Malformed(Malformed::new(reason, start)));
    }
    Ok(())
}

/// Rewrites the version and the subsections to their minimal encodings in place. Returns the length of these, which begin
/// the slice. Allocates nothing.
fn rewrite_linking(bytes: &mut [u8]) -> Result<usize, DecodeError>
    ensures len { IfOk result (λ len. len ≤ length bytes.new) }
    ensures rewrites { RewritesInPlace linking_data (IsNothingOr linking_data) bytes.old bytes.new (as_read result) }
    ensures memory { NeedsNoMemory (as_read result) }
    ensures place { IfErr result (LiesIn (length bytes.old)) }
{
    let Rewritten { bytes: _bytes, len } = rewritten_linking(bytes);
    len
}

/// Rewrites the version and the subsections, and returns the same slice.
fn rewritten_linking<'a>(bytes: &'a mut [u8]) -> Rewritten<'a>
    ensures same_reference { IfOk result.len (λ _. result.bytes.ghost_name ≡ bytes.entry.ghost_name) }
    ensures len { IfOk result.len (λ len. len ≤ length result.bytes.now) }
    ensures rewrites { RewritesInPlace linking_data (IsNothingOr linking_data) bytes.old result.bytes.now (as_read result.len) }
    ensures memory { NeedsNoMemory (as_read result.len) }
    ensures place { IfErr result.len (LiesIn (length bytes.old)) }
{
    let mut rewriter = Rewriter::new(bytes);
    match rewrite_whole_linking(&mut rewriter) {
        Ok(()) => Rewritten::new(rewriter, Ok(())),
        Err(error) => Rewritten::new(rewriter, Err(error)),
    }
}

/// Rewrites the version and the subsections that all bytes left encode.
fn rewrite_whole_linking(rewriter: &mut Rewriter) -> Result<(), DecodeError>
    requires { IsNew rewriter.old }
    ensures rest { IfOk result (λ _. rewriter.new.rest ≡ rewriter.old.rest) }
    ensures rewrites { RewritesTo linking_data (IsNothingOr linking_data) rewriter.old.place.left (λ _. rewriter.new.done) (as_read result) }
    ensures memory { NeedsNoMemory (as_read result) }
    ensures place { IfErr result (LiesIn (length rewriter.old.place.left)) }
{
    let len = rewriter.len();
    rewriter.are_bytes();
    if let Err(fault) = rewrite_version(rewriter) {
        return Err(DecodeError::new(fault, 0, len));
    }
    rewriter.are_bytes();
    match rewrite_joined::<AnySubsection>(rewriter) {
        Ok(()) => Ok(()),
        Err(stop) => Err(DecodeError::stopped(stop, len)),
    }
}

/// A linking section, with which an object file tells the linker its symbols (tool conventions, WebAssembly Object File
/// Linking).
///
/// On error the section is unchanged. In contracts it is the number of its subsections and their bytes.
///
/// # Examples
///
/// ```
/// # use wasm_encoder::{Encode, LinkingSection, SymbolTable};
/// let mut symbols = SymbolTable::new(rt.alloc());
/// symbols.function(0, 0, Some("main"))?;
/// let mut linking = LinkingSection::new(rt.alloc());
/// linking.symbol_table(&symbols)?;
/// let mut bytes = Vec::new(rt.alloc());
/// linking.encode(&mut bytes)?; // the size, the name "linking", the version 2, and a subsection
/// let expected = b"\x14\x07linking\x02\x08\x09\x01\x00\x00\x00\x04main";
/// assert_eq!(rt; bytes.as_slice(), expected.as_slice());
/// ```
///
/// Reading the contents of such a section, after its name, returns the subsections:
///
/// ```
/// # use wasm_encoder::{LinkingSection, LinkingSubsection, Symbol, read};
/// for subsection in &read::<LinkingSection>(rt.alloc(), b"\x02\x08\x06\x01\x00\x00\x05\x01f")? {
///     let LinkingSubsection::SymbolTable(symbols) = subsection else {
///         continue;
///     };
///     assert!(rt; matches!(symbols.as_slice()[0], Symbol::Function(_)));
/// }
/// ```
#[derive(Debug, Drop)]
pub struct LinkingSection {
    subsections: EncodedList,
}

impl Model for LinkingSection {
    ghost use Rattle.wasm_lists.specs.EncodedLists.{EncodedItems};

    ghost Value = { EncodedItems };

    ghost view = { λ section. section.subsections };
}

impl LinkingSection {
    /// Returns a section without subsections. Allocates nothing.
    #[tactic(auto, using(crate::proofs::GainingLaws::stands_for_none))]
    pub fn new(alloc: Global) -> LinkingSection
        ensures { StandsForItems linking_subsection result [] }
    {
        LinkingSection {
            subsections: EncodedList::new(alloc),
        }
    }

    /// Adds a symbol table.
    ///
    /// Fails with `TooLong` if the section already has 4,294,967,295 subsections or the symbols are longer than
    /// 4,294,967,295 bytes, and with `Memory` if the section can't grow.
    pub fn symbol_table(&mut self, table: &SymbolTable) -> Result<(), EncodeError>
        ensures adds { Adds (GainsWith symbol linking_subsection symbols) self.old table.now self.new
            (IsMemoryOrTooLong (IsFull self.old ⊎ IsUncounted (length (body_bytes table.now)))) result }
        ensures bytes { OnOk result (self.new.bytes ≡ self.old.bytes ++ 8 ∷ byte_list_bytes (body_bytes table.now)) }
    {
        self.subsections.add(table)
    }

    /// Returns the contents of the section after its name. Fails with `Memory` if it can't allocate.
    pub fn contents(&self) -> Result<Vec<u8>, EncodeError>
        ensures ok { IfOk result (λ contents. contents.items ≡ 2 ∷ self.now.bytes) }
        ensures err { IfErr result (λ e. e ≡ Memory) }
    {
        let subsections = self.subsections.as_slice();
        let mut contents = Vec::new(self.subsections.allocator());
        contents.reserve(1 + subsections.len())?;
        contents.push_reserved(VERSION as u8);
        contents.extend_from_slice(subsections)?;
        Ok(contents)
    }

    /// Copies the section. Fails with `Memory` if it can't allocate.
    pub fn try_clone(&self) -> Result<LinkingSection, EncodeError>
        ensures makes { Makes self.now result }
    {
        let subsections = self.subsections.try_clone()?;
        Ok(LinkingSection { subsections })
    }
}

/// The size of the body in bytes, the name `linking`, the version 2, and the subsections.
///
/// Fails with `TooLong` if the body is longer than 4,294,967,295 bytes.
impl Encode for LinkingSection {
    ghost bytes = { λ section. named_bytes (codes "linking") (2 ∷ section.bytes) };

    ghost IsWritten = { λ section. HoldsLinking section × IsNamedSection (codes "linking") (2 ∷ section.bytes) };

    ghost CanEncode = { λ section. CountedNamed (codes "linking") (2 ∷ section.bytes) };

    ghost refuses = { OnlyTooLong };

    fn encode<A: Allocator>(&self, sink: &mut Vec<u8, A>) -> Result<(), EncodeError> {
        let contents = self.contents()?;
        let section = CustomSection {
            name: "linking",
            bytes: contents.as_slice(),
        };
        section.encode(sink)
    }
}

/// The contents after the name, as `read::<LinkingSection>` returns them: the version 2, and subsections in any order
/// and number.
impl<'a> Decode<'a> for LinkingSection {
    type Output = Vec<LinkingSubsection<'a>>;

    ghost Value = { ℕ × List LinkingParts };

    ghost view = { λ subsections. versioned (all_linking_parts subsections.items) };

    ghost format = { linking_data };

    ghost Minimal = { (linking_if true).Encodes };

    ghost IsPrefix = { IsNothingOr linking_data };

    ghost IsMinimalPrefix = { IsNothingOr (linking_if true) };

    #[inline(always)]
    #[tactic(auto, using(crate::proofs::LinkingLaws::data_is_lawful, crate::proofs::LinkingLaws::data_is_minimal))]
    fn is_lawful()
        ensures lawful { IsLawfulBody linking_data }
        ensures minimal { TakesMinimal linking_data (linking_if true).Encodes }
        ensures prefixes { ArePrefixes linking_data.Encodes (IsNothingOr linking_data) }
        ensures minimal_prefixes { ArePrefixes (linking_if true).Encodes (IsNothingOr (linking_if true)) }
    {}

    fn read_all(alloc: Global, bytes: &'a [u8]) -> Result<Vec<LinkingSubsection<'a>>, DecodeError> {
        read_linking::<false>(alloc, bytes)
    }

    fn read_all_strict(
        alloc: Global,
        bytes: &'a [u8],
    ) -> Result<Vec<LinkingSubsection<'a>>, DecodeError> {
        read_linking::<true>(alloc, bytes)
    }

    fn check_all(alloc: Global, bytes: &[u8]) -> Result<(), DecodeError>
        ensures checks { ChecksAll (linking_if true).Encodes (IsNothingOr (linking_if true)) bytes.now (as_read result) }
        ensures place { IfErr result (LiesIn (length bytes.now)) }
        ensures counts { IfMalformed result (λ _. ⊤) }
    {
        check_linking(alloc, bytes)
    }

    fn rewrite_all(bytes: &mut [u8]) -> Result<usize, DecodeError>
        ensures len { IfOk result (λ len. len ≤ length bytes.new) }
        ensures rewrites { RewritesInPlace linking_data (IsNothingOr linking_data) bytes.old bytes.new (as_read result) }
        ensures memory { NeedsNoMemory (as_read result) }
        ensures place { IfErr result (LiesIn (length bytes.old)) }
        ensures counts { IfMalformed result (λ _. ⊤) }
    {
        rewrite_linking(bytes)
    }
}
