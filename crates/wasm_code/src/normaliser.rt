//! The normaliser of modules (Core 3.0, Modules). In a typed module, type sections are lists of entries, code
//! sections are lists of code bodies, and other sections are bytes.
ghost use Rattle.std.specs.Prelude.{◌≡◌, IfErr, List, length};
ghost use Rattle.std.specs.List.{AllByRecursion};
ghost use Rattle.wasm_codec.specs.formats.Bodies.{bytes_to_end};
ghost use Rattle.wasm_codec.specs.formats.Combinators.{made, minimal_only};
ghost use Rattle.wasm_codec.specs.Rewriter.{Rewrites};
ghost use Rattle.wasm_types.specs.formats.Types.{type_body};
ghost use Rattle.wasm_code.specs.formats.Sections.{Content, TypedSection, type_entries, code_bodies, raw_bytes};
ghost use Rattle.wasm_code.specs.Modules.{IsTypedModulePrefix, IsTypedSection};
ghost use Rattle.wasm_code.specs.formats.CodeBodies.{code_section_body};
ghost use Rattle.wasm_code.specs.formats.Modules.{entries_part, bodies_part, bytes_part, typed_section, typed_module};
ghost use Rattle.wasm_codec.specs.Decoding.{Normalises, NormalisesInPlace, NormalisesSlice, RewritesAll};
ghost use Rattle.wasm_codec.specs.Outcomes.{LiesIn, as_decoded, as_read};

pub mod framing;

use crate::code::CodeBody;
use crate::normaliser::framing::{rewrite_module_of, rewrite_section_body};
use crate::section::{CODE_SECTION_ID, TYPE_SECTION_ID};
use std::alloc::Global;
use wasm_codec::reader::cursor::Fault;
use wasm_codec::reader::malformed::Construct;
use wasm_codec::reader::refusal::Refusal;
use wasm_codec::reader::{ReadError, without_memory, without_reason};
use wasm_codec::rewriter::Rewriter;
use wasm_lists::rewriting::{Rewritable, RewritableBody, rewrite_list};
use wasm_types::types::TypeEntry;

/// Returns the minimal encoding of a module, with its type and code sections decoded (Core 3.0, Modules).
///
/// The sizes of all sections and the bodies of type and code sections become minimal. Other bodies stay as they are.
///
/// Fails with `Refused` if the bytes are malformed: `at` is the offset of the first malformed section, or 0 if the
/// header is missing. A type or code section with a malformed body is malformed. Fails with `Memory` if the bytes can't
/// be copied.
///
/// # Examples
///
/// ```
/// # use wasm_encoder::normalise_module;
/// let minimal = normalise_module(rt.alloc(), b"\0asm\x01\0\0\0\x03\x82\x00\x01\x00")?; // a size in two bytes
/// assert_eq!(rt; minimal.as_slice(), b"\0asm\x01\0\0\0\x03\x02\x01\x00".as_slice());
/// ```
#[tactic(auto, using(crate::proofs::ModuleLaws::all_typed_encoded))]
pub fn normalise_module(alloc: Global, bytes: &[u8]) -> Result<Vec<u8>, ReadError>
    ensures normalises { Normalises typed_module (minimal_only typed_module).Encodes IsTypedModulePrefix bytes.now result }
    // The minimal encoding of decoded sections in range encodes them.
    ensures encodes { (sections : List TypedSection) → AllByRecursion IsTypedSection sections →
        bytes.now ≡ typed_module.bytes sections → typed_module.Encodes bytes.now sections }
{
    module_bytes_of(alloc, bytes)
}

/// Replaces a module by its minimal encoding in place, with its type and code sections decoded (Core 3.0, Modules).
///
/// It does what `normalise_module` does, without allocating: it never fails with `Memory`.
///
/// # Examples
///
/// ```
/// # use wasm_encoder::rewrite_module;
/// let long_form = b"\0asm\x01\0\0\0\x01\x06\x01\x4f\x00\x60\x00\x00"; // (sub final (func))
/// let minimal = rewrite_module(Vec::from_slice(rt.alloc(), long_form)?)?;
/// assert_eq!(rt; minimal.as_slice(), b"\0asm\x01\0\0\0\x01\x04\x01\x60\x00\x00".as_slice());
/// ```
pub fn rewrite_module(bytes: Vec<u8>) -> Result<Vec<u8>, ReadError>
    ensures normalises { NormalisesInPlace typed_module IsTypedModulePrefix bytes.items result }
{
    let mut bytes = bytes;
    match without_reason(rewrite_module_of::<Section>(bytes.as_mut_slice())) {
        Ok(len) => {
            bytes.truncate(len);
            Ok(bytes)
        }
        Err(error) => Err(error),
    }
}

/// Replaces a module by its minimal encoding in place, as [`rewrite_module`] does. Returns the length of it, which begins
/// the slice.
///
/// If it fails, the bytes are unspecified.
///
/// # Examples
///
/// ```
/// # use wasm_encoder::rewrite_module_in_place;
/// let mut bytes = *b"\0asm\x01\0\0\0\x01\x06\x01\x4f\x00\x60\x00\x00"; // (sub final (func))
/// let len = rewrite_module_in_place(&mut bytes)?;
/// assert_eq!(rt; &bytes[..len], b"\0asm\x01\0\0\0\x01\x04\x01\x60\x00\x00".as_slice());
/// ```
pub fn rewrite_module_in_place(bytes: &mut [u8]) -> Result<usize, Refusal>
    ensures normalises { NormalisesSlice typed_module IsTypedModulePrefix bytes.old bytes.new (as_read (as_decoded result)) }
    ensures place { IfErr (as_decoded result) (LiesIn (length bytes.old)) }
{
    without_memory(rewrite_module_of::<Section>(bytes))
}

/// Copies the bytes and rewrites the copy.
fn module_bytes_of(alloc: Global, bytes: &[u8]) -> Result<Vec<u8>, ReadError>
    ensures rewrites { RewritesAll typed_module IsTypedModulePrefix bytes.now result }
{
    rewrite_module(Vec::from_slice(alloc, bytes)?)
}

/// A section with decoded content.
struct Section;

impl Rewritable for Section {
    ghost Value = { TypedSection };

    ghost format = { typed_section };

    #[inline(always)]
    #[tactic(auto, using(crate::proofs::ModuleFormatLaws::section_laws))]
    fn is_lawful() {}

    #[inline(always)]
    fn rewrite(rewriter: &mut Rewriter) -> Result<(), Fault> {
        rewrite_section(rewriter)
    }
}

/// Rewrites a section and its content.
#[tactic(auto, using(std::proofs::Common::append_assoc), unfolding(crate::specs::formats::Modules::typed_section))]
fn rewrite_section(rewriter: &mut Rewriter) -> Result<(), Fault>
    ensures rewrites { Rewrites typed_section rewriter.old rewriter.new result }
{
    let id = rewriter.byte_of(Construct::SectionId)?;
    if id == TYPE_SECTION_ID {
        return rewrite_section_body::<TypeEntries>(rewriter, id);
    }
    if id == CODE_SECTION_ID {
        return rewrite_section_body::<CodeBodies>(rewriter, id);
    }
    rewrite_section_body::<RawContent>(rewriter, id)
}

/// The body of a type section.
struct TypeEntries;

impl RewritableBody for TypeEntries {
    ghost Value = { Content };

    ghost format = { made type_entries entries_part type_body };

    #[inline(always)]
    fn is_lawful() {}

    #[tactic(auto, unfolding(wasm_types::specs::formats::Types::type_body))]
    fn rewrite(rewriter: &mut Rewriter) -> Result<(), Fault> {
        rewrite_list::<TypeEntry>(rewriter)
    }
}

/// The body of a code section.
struct CodeBodies;

impl RewritableBody for CodeBodies {
    ghost Value = { Content };

    ghost format = { made code_bodies bodies_part code_section_body };

    #[inline(always)]
    fn is_lawful() {}

    #[tactic(auto, unfolding(crate::specs::formats::CodeBodies::code_section_body))]
    fn rewrite(rewriter: &mut Rewriter) -> Result<(), Fault> {
        rewrite_list::<CodeBody>(rewriter)
    }
}

/// The body of any other section.
struct RawContent;

impl RewritableBody for RawContent {
    ghost Value = { Content };

    ghost format = { made raw_bytes bytes_part bytes_to_end };

    #[inline(always)]
    fn is_lawful() {}

    fn rewrite(rewriter: &mut Rewriter) -> Result<(), Fault> {
        rewriter.rest();
        Ok(())
    }
}
