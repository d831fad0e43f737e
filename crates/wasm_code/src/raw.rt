//! Readers of the header and of sections of a module (Core 3.0, Modules).
ghost use Rattle.std.specs.Prelude.{◌≡◌, ◌++◌, ◌-◌, ◌≤◌, List, ℕ, None, drop, IfErr, IfOk, IfSome, IfNone, refl, length};
ghost use Rattle.wasm_codec.specs.Reading.{map_ok};
ghost use Rattle.wasm_codec.specs.Places.{Reads};
ghost use Rattle.wasm_codec.specs.formats.Bodies.{byte_list, bytes_to_end};
ghost use Rattle.wasm_code.specs.formats.Sections.{header, parts_of, SectionParts, all_parts_of};
ghost use Rattle.wasm_code.specs.formats.Modules.{raw_section, module_of, raw_module, MinimalModule};
ghost use Rattle.wasm_codec.specs.Outcomes.{HoldsOfRefusal, IfMalformed, IfRefusedInItem, IsNumbered, LiesIn, IsMalformed, error_of, item_of, item_of_fault, offsets_of, place_of_error, read_error_of};
ghost use Rattle.std.proofs.lemmas.List.{map_push};
ghost use Rattle.wasm_codec.specs.formats.Combinators.{minimal_if, minimal_only};
ghost use Rattle.wasm_codec.specs.declared.reader.ReadError.TheVariants.{Refused};
ghost use Rattle.wasm_code.specs.Modules.{CountsSections, IsModulePrefix, IsModulePrefixOf, IsMinimalModulePrefix};
ghost use Rattle.wasm_codec.specs.Decoding.{Decodes, DecodesMinimal, ReadsAll, Checks, ChecksAll, RewritesInPlace};
ghost use Rattle.wasm_code.specs.PrefixFree.{SectionsArePrefixFree};
ghost use Rattle.wasm_code.specs.Modules.{ReadsBack, ReadsBackTyped};
ghost use Rattle.wasm_codec.specs.Lawful.{IsLawful};
ghost use Rattle.wasm_codec.specs.formats.Grammar.{TakesBytes};
ghost use Rattle.wasm_codec.specs.Rewriter.{Rewrites};
ghost use Rattle.wasm_codec.specs.Outcomes.{NeedsNoMemory, as_read};

use crate::normaliser::framing::{rewrite_module_of, rewrite_section_body};
use crate::reasons::first_four;
use crate::section::{HEADER, RawSection};
use std::alloc::Global;
use wasm_codec::encode::leb128::u32_len;
use wasm_codec::reader::cursor::{Cursor, Fault};
use wasm_codec::reader::malformed::{Construct, Malformed, Reason, Stop};
use wasm_codec::reader::refusal::Refusal;
use wasm_codec::reader::{DecodeError, ReadError, without_reason};
use wasm_codec::rewriter::Rewriter;
use wasm_lists::checking::check_joined;
use wasm_lists::readable::Readable;
use wasm_lists::reading::{check_joined_items, read_joined};
use wasm_lists::rewriting::{Joinable, Rewritable, RewritableBody};

/// Returns the bytes after the header, or `None` if the header is missing.
#[tactic(auto, using(crate::proofs::ModuleFormatLaws::header_found, crate::proofs::ModuleFormatLaws::header_missing))]
pub fn after_header(bytes: &[u8]) -> Option<&[u8]>
    ensures found { IfSome result (λ rest. bytes.now ≡ header ++ rest.now) }
    ensures rest { IfSome result (λ rest. rest.now ≡ drop 8 bytes.now) }
    ensures missing { IfNone result ((rest : List ℕ) → bytes.now ≡ header ++ rest → ⊥) }
{
    bytes.strip_prefix(&HEADER)
}

/// Returns the error that the bytes don't begin with the header.
pub(crate) fn no_header(bytes: &[u8]) -> DecodeError
    ensures error { read_error_of result ≡ Refused 0 }
    ensures place { LiesIn (length bytes.now) result }
    ensures section { HoldsOfRefusal result (λ refusal. refusal.section ≡ None) }
    ensures item { item_of result ≡ None }
{
    DecodeError::Malformed(Refusal {
        section: None,
        ..Refusal::new(&not_a_module(bytes), 0, bytes.len())
    })
}

/// Returns why the bytes don't begin with the header.
fn not_a_module(bytes: &[u8]) -> Malformed
    ensures item { result.item ≡ None }
{
    let reason = match bytes {
        [0x00, 0x61, 0x73, 0x6d, first, second, third, fourth, ..] => Reason::UnsupportedVersion {
            version: u32::from_le_bytes([*first, *second, *third, *fourth]),
        },
        _ => Reason::NotAModule {
            first: first_four(bytes),
            len: bytes.len(),
        },
    };
    Malformed::new(reason, bytes.len())
}

/// Returns the error for a stop at a section of a module. It names the section.
fn in_module(stop: Stop, bytes: &[u8]) -> DecodeError
    ensures error { read_error_of result ≡ error_of stop.fault (length bytes.now - stop.left) }
    ensures place { LiesIn (length bytes.now) result }
    ensures number { IsNumbered stop.passed result }
    ensures item { item_of result ≡ item_of_fault stop.fault }
{
    let error = DecodeError::stopped(stop, bytes.len());
    match bytes.get(bytes.len().saturating_sub(stop.left)) {
        Some(id) => error.in_section(stop.passed, *id),
        None => error.numbered(stop.passed),
    }
}

/// Reads a size, and as many bytes.
pub fn read_sized_bytes<'a>(cursor: &mut Cursor<'a>) -> Result<&'a [u8], Fault>
    ensures reads { Reads byte_list.at cursor.old cursor.new (map_ok (λ body. body.now) result) }
    ensures err { IfErr result IsMalformed }
{
    let start = cursor.to_end();
    let size = cursor.u32()?;
    cursor.take_sized(size, start)
}

/// Reads a section, with its body as bytes (Core 3.0, Sections).
#[tactic(auto, unfolding(crate::specs::formats::Modules::raw_section))]
pub fn read_section<'a>(cursor: &mut Cursor<'a>) -> Result<RawSection<'a>, Fault>
    ensures reads { Reads raw_section.at cursor.old cursor.new (map_ok parts_of result) }
    ensures err { IfErr result IsMalformed }
{
    let id = cursor.byte_of(Construct::SectionId)?;
    let body = read_sized_bytes(cursor)?;
    Ok(RawSection { id, body })
}

/// Reads the sections of a module, with their bodies borrowed from the bytes (Core 3.0, Modules).
///
/// Section bodies aren't decoded. Fails with `Refused` if the bytes are malformed: `at` is the offset of the first
/// malformed section, or 0 if the header is missing. Fails with `Memory` if an allocation fails.
///
/// # Examples
///
/// ```
/// # use wasm_encoder::read_module;
/// let sections = read_module(rt.alloc(), b"\0asm\x01\0\0\0\x03\x82\x00\x01\x00")?; // a size in two bytes
/// assert_eq!(rt; sections.len(), 1);
/// assert_eq!(rt; sections[0].id, 3);
/// assert_eq!(rt; sections[0].body, b"\x01\x00".as_slice());
/// ```
pub fn read_module<'a>(alloc: Global, bytes: &'a [u8]) -> Result<Vec<RawSection<'a>>, ReadError>
    ensures decodes { Decodes (λ sections. all_parts_of sections.items) raw_module IsModulePrefix bytes.now result }
    ensures reads_back { ReadsBack (λ sections. all_parts_of sections.items) bytes.now result }
    ensures reads_back_typed { ReadsBackTyped (λ sections. all_parts_of sections.items) bytes.now result }
    ensures prefix_free { SectionsArePrefixFree }
{
    without_reason(read_module_of::<RawSection<'_>, false>(alloc, bytes))
}

/// Reads the sections of a module whose section sizes are minimally encoded (Core 3.0, Modules).
///
/// Section bodies aren't decoded. Fails with `Refused` if a section is malformed or its size isn't minimal: `at` is the
/// offset of the first such section. It is 0 if the header is missing. Fails with `Memory` if an allocation fails.
///
/// # Examples
///
/// ```
/// # use wasm_encoder::{ReadError, read_module_strict};
/// let sections = read_module_strict(rt.alloc(), b"\0asm\x01\0\0\0\x03\x02\x01\x00")?;
/// assert_eq!(rt; sections.len(), 1);
/// let padded = read_module_strict(rt.alloc(), b"\0asm\x01\0\0\0\x03\x82\x00\x01\x00"); // a size in two bytes
/// assert_eq!(rt; padded.err(), Some(ReadError::Refused { at: 8 }));
/// ```
pub fn read_module_strict<'a>(
    alloc: Global,
    bytes: &'a [u8],
) -> Result<Vec<RawSection<'a>>, ReadError>
    ensures decodes { DecodesMinimal (λ sections. all_parts_of sections.items) raw_module MinimalModule IsMinimalModulePrefix bytes.now result }
    ensures reads_back { ReadsBack (λ sections. all_parts_of sections.items) bytes.now result }
{
    without_reason(read_module_of::<RawSection<'_>, true>(alloc, bytes))
}

/// Reads the sections of a module as items of type `T`, minimally encoded if `STRICT` is set.
///
/// Fails with `Refused` at the offset of the first malformed section, or at 0 if the header is missing. Fails with
/// `Memory` if an allocation fails.
pub fn read_module_of<'a, T: Readable<'a>, const STRICT: bool>(
    alloc: Global,
    bytes: &'a [u8],
) -> Result<Vec<T>, DecodeError>
    ensures reads { ReadsAll (λ sections. T.views sections.items) (module_of (minimal_if STRICT T.format)).Encodes (IsModulePrefixOf (minimal_if STRICT T.format)) bytes.now (as_read result) }
    ensures place { IfErr result (LiesIn (length bytes.now)) }
    // The section that a refusal names counts the sections before it.
    ensures counts { IfMalformed result (CountsSections (minimal_if STRICT T.format) bytes.now) }
    ensures names { IfMalformed result (IfRefusedInItem T.Breaks bytes.now) }
{
    let Some(rest) = after_header(bytes) else {
        return Err(no_header(bytes));
    };
    match read_joined::<T, STRICT>(alloc, rest) {
        Ok(sections) => Ok(sections),
        Err(stop) => Err(in_module(stop, bytes)),
    }
}

impl<'a> Readable<'a> for RawSection<'a> {
    ghost Value = { SectionParts };

    ghost view = { parts_of };

    ghost views = { all_parts_of };

    ghost views_each = { record { none = refl; more = λ sections section. map_push parts_of sections section } };

    ghost format = { raw_section };

    fn read(_alloc: Global, cursor: &mut Cursor<'a>) -> Result<RawSection<'a>, Fault> {
        read_section(cursor)
    }

    #[inline(always)]
    #[tactic(auto, using(crate::proofs::ModuleFormatLaws::section_laws))]
    fn is_lawful()
        ensures lawful { IsLawful raw_section }
        ensures some { TakesBytes raw_section.Encodes }
    {}

    fn rewrite(rewriter: &mut Rewriter) -> Result<(), Fault>
        ensures rewrites { Rewrites raw_section rewriter.old rewriter.new result }
    {
        <Section as Rewritable>::rewrite(rewriter)
    }
}

/// Checks that the section sizes of a module are minimally encoded (Core 3.0, Modules).
///
/// Section bodies aren't decoded. Fails with `Refused` if a section is malformed or its size isn't minimal: `at` is the
/// offset of the first such section. It is 0 if the header is missing. Fails with `Memory` if an allocation fails.
///
/// # Examples
///
/// ```
/// # use wasm_encoder::{ReadError, check_module};
/// check_module(rt.alloc(), b"\0asm\x01\0\0\0\x03\x02\x01\x00")?;
/// let padded = check_module(rt.alloc(), b"\0asm\x01\0\0\0\x03\x82\x00\x01\x00"); // a size in two bytes
/// assert_eq!(rt; padded.err(), Some(ReadError::Refused { at: 8 }));
/// ```
pub fn check_module(alloc: Global, bytes: &[u8]) -> Result<(), ReadError>
    ensures checks { Checks raw_module MinimalModule IsMinimalModulePrefix bytes.now result }
{
    without_reason(check_raw_module(alloc, bytes))
}

/// Checks that the section sizes of a module are minimally encoded, and says why if they aren't. Copies nothing.
pub fn check_raw_module(alloc: Global, bytes: &[u8]) -> Result<(), DecodeError>
    ensures checks { ChecksAll (module_of (minimal_only raw_section)).Encodes (IsModulePrefixOf (minimal_only raw_section)) bytes.now (as_read result) }
    ensures place { IfErr result (LiesIn (length bytes.now)) }
    ensures counts { IfMalformed result (CountsSections (minimal_only raw_section) bytes.now) }
{
    match walk_sections(alloc, bytes) {
        Ok(()) => Ok(()),
        Err(error) => Err(with_lengths(error, bytes)),
    }
}

/// Checks that the section sizes of a module are minimally encoded.
fn walk_sections(alloc: Global, bytes: &[u8]) -> Result<(), DecodeError>
    ensures checks { ChecksAll (module_of (minimal_only raw_section)).Encodes (IsModulePrefixOf (minimal_only raw_section)) bytes.now (as_read result) }
    ensures place { IfErr result (LiesIn (length bytes.now)) }
    ensures counts { IfMalformed result (CountsSections (minimal_only raw_section) bytes.now) }
{
    let Some(rest) = after_header(bytes) else {
        return Err(no_header(bytes));
    };
    match check_joined_items::<RawSection<'_>>(alloc, rest) {
        Ok(()) => Ok(()),
        Err(stop) => Err(in_module(stop, bytes)),
    }
}

/// Returns the same error. If a section isn't minimal, its reason has the section's lengths.
#[cold]
fn with_lengths(error: DecodeError, bytes: &[u8]) -> DecodeError
    ensures error { read_error_of result ≡ read_error_of error }
    ensures place { offsets_of result ≡ offsets_of error }
    ensures counts { place_of_error result ≡ place_of_error error }
{
    let DecodeError::Malformed(refusal) = error else {
        return DecodeError::Memory;
    };
    let reason = match (refusal.reason, bytes.get(refusal.at..)) {
        (Reason::LongForm, Some(section)) => longer_section(section),
        (other, _) => other,
    };
    DecodeError::Malformed(Refusal { reason, ..refusal })
}

/// Returns why the section that the bytes begin with isn't minimally encoded.
fn longer_section(bytes: &[u8]) -> Reason {
    let mut cursor = Cursor::new(bytes);
    match read_section(&mut cursor) {
        Ok(section) => {
            let size = section.body.len();
            let digits = u32::try_from(size).unwrap_or(u32::MAX);
            Reason::NotMinimal {
                bytes: bytes.len().saturating_sub(cursor.len()),
                minimal: size.saturating_add(u32_len(digits) + 1),
            }
        }
        Err(_) => Reason::LongForm,
    }
}

/// Checks that a module with sections of type `T` is minimally encoded.
///
/// Fails with `Refused` at the offset of the first section that is malformed or not minimal, or at 0 if the header is
/// missing. Fails with `Memory` if an allocation fails.
pub fn check_module_of<T: Joinable>(alloc: Global, bytes: &[u8]) -> Result<(), DecodeError>
    ensures checks { ChecksAll (module_of (minimal_only T.format)).Encodes (IsModulePrefixOf (minimal_only T.format)) bytes.now (as_read result) }
    ensures place { IfErr result (LiesIn (length bytes.now)) }
    ensures counts { T.NeverScans → IfMalformed result (CountsSections (minimal_only T.format) bytes.now) }
    ensures names { IfMalformed result (IfRefusedInItem T.Breaks bytes.now) }
{
    let Some(rest) = after_header(bytes) else {
        return Err(no_header(bytes));
    };
    match check_joined::<T>(alloc, rest) {
        Ok(()) => Ok(()),
        Err(stop) => Err(in_module(stop, bytes)),
    }
}

/// Replaces a module by its minimal encoding in place. Returns the length of it, which begins the slice. Only the sizes of
/// sections can shrink: no body is decoded.
///
/// Fails with `Malformed` as `read_module` does; the bytes are then unspecified. Allocates nothing.
pub fn rewrite_raw_module(bytes: &mut [u8]) -> Result<usize, DecodeError>
    ensures len { IfOk result (λ len. len ≤ length bytes.new) }
    ensures rewrites { RewritesInPlace raw_module IsModulePrefix bytes.old bytes.new (as_read result) }
    ensures memory { NeedsNoMemory (as_read result) }
    ensures place { IfErr result (LiesIn (length bytes.old)) }
    ensures counts { IfMalformed result (CountsSections raw_section bytes.old) }
{
    rewrite_module_of::<Section>(bytes)
}

/// A section of any id, with its body as bytes.
pub(crate) struct Section;

impl Rewritable for Section {
    ghost Value = { SectionParts };

    ghost format = { raw_section };

    #[inline(always)]
    #[tactic(auto, using(crate::proofs::ModuleFormatLaws::section_laws))]
    fn is_lawful() {}

    #[inline(always)]
    fn rewrite(rewriter: &mut Rewriter) -> Result<(), Fault> {
        rewrite_raw_section(rewriter)
    }
}

/// Rewrites the size of a section. Its body stays as it is.
#[tactic(auto, using(std::proofs::Common::append_assoc), unfolding(crate::specs::formats::Modules::raw_section))]
pub fn rewrite_raw_section(rewriter: &mut Rewriter) -> Result<(), Fault>
    ensures rewrites { Rewrites raw_section rewriter.old rewriter.new result }
{
    let id = rewriter.byte_of(Construct::SectionId)?;
    rewrite_section_body::<RawBytes>(rewriter, id)
}

/// A body whose bytes stay as they are.
pub struct RawBytes;

impl RewritableBody for RawBytes {
    ghost Value = { List ℕ };

    ghost format = { bytes_to_end };

    #[inline(always)]
    fn is_lawful() {}

    fn rewrite(rewriter: &mut Rewriter) -> Result<(), Fault> {
        rewriter.rest();
        Ok(())
    }
}
