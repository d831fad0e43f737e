//! Bodies of type sections, read, checked and normalised (Core 3.0, Type Section).
ghost use Rattle.std.specs.Prelude.{◌<◌, true, IfErr, length};
ghost use Rattle.wasm_codec.specs.Outcomes.{LiesIn, as_decoded, as_read};
ghost use Rattle.wasm_codec.specs.Decoding.{Checks, Decodes, DecodesMinimal, Normalises, NormalisesInPlace, NormalisesSlice, RewritesAll};
ghost use Rattle.wasm_types.specs.PrefixFree.{TypesArePrefixFree};
ghost use Rattle.wasm_types.specs.declared.types.recursive.TypeEntry.{TypeEntry};
ghost use Rattle.wasm_types.specs.formats.Types.{IsMinimalTypeBodyPrefix, IsTypeBodyPrefix, MinimalTypeBody, type_body};

use crate::types::TypeEntry;
use std::alloc::Global;
use wasm_codec::reader::refusal::Refusal;
use wasm_codec::reader::{ReadError, without_memory, without_reason};
use wasm_lists::checking::check_list_to_end;
use wasm_lists::reading::read_list_to_end;
use wasm_lists::rewriting::rewrite_list_to_end;

/// Reads a type section body, in any encoding (Core 3.0, Type Section).
///
/// Fails with `Refused` if the body is malformed: `at` is the offset of the first malformed or missing entry, or of
/// trailing bytes. It is 0 if the count is malformed. Fails with `Memory` if an allocation fails.
///
/// # Examples
///
/// ```
/// # use wasm_encoder::{TypeEntry, read_type_section};
/// let entries = read_type_section(rt.alloc(), b"\x02\x60\x00\x00\x4e\x00")?; // (func); (rec)
/// assert_eq!(rt; entries.len(), 2);
/// assert!(rt; matches!(&entries[0], TypeEntry::Sub(ty) if ty.is_final));
/// assert!(rt; matches!(&entries[1], TypeEntry::Rec(types) if types.is_empty()));
/// ```
#[tactic(auto, unfolding(crate::specs::formats::Types::type_body))]
pub fn read_type_section(alloc: Global, body: &[u8]) -> Result<Vec<TypeEntry>, ReadError>
    ensures decodes { Decodes (λ entries. entries.items) type_body IsTypeBodyPrefix body.now result }
    ensures prefix_free { TypesArePrefixFree }
{
    without_reason(read_list_to_end::<TypeEntry, false>(alloc, body))
}

/// Reads a minimally encoded type section body (Core 3.0, Type Section).
///
/// Fails with `Refused` if the body is malformed or not minimally encoded: `at` is the offset of the first entry that
/// is malformed, missing or not minimal, or of trailing bytes. It is 0 if the count is malformed or not minimal. Fails
/// with `Memory` if an allocation fails.
///
/// # Examples
///
/// ```
/// # use wasm_encoder::{ReadError, read_type_section_strict};
/// let entries = read_type_section_strict(rt.alloc(), b"\x01\x60\x00\x00")?; // (func)
/// assert_eq!(rt; entries.len(), 1);
/// let long_form = read_type_section_strict(rt.alloc(), b"\x01\x4f\x00\x60\x00\x00"); // (sub final (func))
/// assert_eq!(rt; long_form.err(), Some(ReadError::Refused { at: 1 }));
/// ```
pub fn read_type_section_strict(alloc: Global, body: &[u8]) -> Result<Vec<TypeEntry>, ReadError>
    ensures decodes { DecodesMinimal (λ entries. entries.items) type_body MinimalTypeBody IsMinimalTypeBodyPrefix body.now result }
{
    without_reason(read_list_to_end::<TypeEntry, true>(alloc, body))
}

/// Checks that a type section body is minimally encoded (Core 3.0, Type Section).
///
/// Fails with `Refused` if it isn't: `at` is the offset of the first entry that is malformed, missing or not minimal,
/// or of trailing bytes. It is 0 if the count is malformed or not minimal. Fails with `Memory` if an allocation fails.
///
/// # Examples
///
/// ```
/// # use wasm_encoder::{ReadError, check_type_section};
/// check_type_section(rt.alloc(), b"\x01\x60\x00\x00")?; // (func)
/// let padded = check_type_section(rt.alloc(), b"\x81\x00\x60\x00\x00"); // a count in two bytes
/// assert_eq!(rt; padded.err(), Some(ReadError::Refused { at: 0 }));
/// ```
pub fn check_type_section(alloc: Global, body: &[u8]) -> Result<(), ReadError>
    ensures checks { Checks type_body MinimalTypeBody IsMinimalTypeBodyPrefix body.now result }
{
    without_reason(check_list_to_end::<TypeEntry>(alloc, body))
}

/// Returns the minimal encoding of the entries in a type section body (Core 3.0, Type Section).
///
/// Fails with `Refused` if the body is malformed: `at` is the offset of the first malformed or missing entry, or of
/// trailing bytes. It is 0 if the count is malformed. Fails with `Memory` if the body can't be copied.
///
/// # Examples
///
/// ```
/// # use wasm_encoder::normalise_type_section;
/// let minimal = normalise_type_section(rt.alloc(), b"\x01\x4f\x00\x60\x00\x00")?; // (sub final (func))
/// assert_eq!(rt; minimal.as_slice(), b"\x01\x60\x00\x00".as_slice());
/// ```
pub fn normalise_type_section(alloc: Global, body: &[u8]) -> Result<Vec<u8>, ReadError>
    ensures normalises { Normalises type_body MinimalTypeBody IsTypeBodyPrefix body.now result }
{
    body_bytes_of(alloc, body)
}

/// Replaces a type section body by its minimal encoding in place (Core 3.0, Type Section).
///
/// It does what `normalise_type_section` does, without allocating: it never fails with `Memory`.
///
/// # Examples
///
/// ```
/// # use wasm_encoder::rewrite_type_section;
/// let long_form = Vec::from_slice(rt.alloc(), b"\x01\x5e\x63\x70\x00")?; // (array (ref null func))
/// let minimal = rewrite_type_section(long_form)?;
/// assert_eq!(rt; minimal.as_slice(), b"\x01\x5e\x70\x00".as_slice()); // (array funcref)
/// ```
#[tactic(auto, unfolding(crate::specs::formats::Types::type_body))]
pub fn rewrite_type_section(body: Vec<u8>) -> Result<Vec<u8>, ReadError>
    ensures normalises { NormalisesInPlace type_body IsTypeBodyPrefix body.items result }
{
    let mut body = body;
    match without_reason(rewrite_list_to_end::<TypeEntry>(body.as_mut_slice())) {
        Ok(len) => {
            body.truncate(len);
            Ok(body)
        }
        Err(error) => Err(error),
    }
}

/// Replaces a type section body by its minimal encoding in place, as [`rewrite_type_section`] does (Core 3.0, Type Section). Returns the length of it, which begins
/// the slice.
///
/// If it fails, the bytes are unspecified.
///
/// # Examples
///
/// ```
/// # use wasm_encoder::rewrite_type_section_in_place;
/// let mut body = *b"\x01\x5e\x63\x70\x00"; // (array (ref null func))
/// let len = rewrite_type_section_in_place(&mut body)?;
/// assert_eq!(rt; &body[..len], b"\x01\x5e\x70\x00".as_slice()); // (array funcref)
/// ```
pub fn rewrite_type_section_in_place(body: &mut [u8]) -> Result<usize, Refusal>
    ensures normalises { NormalisesSlice type_body IsTypeBodyPrefix body.old body.new (as_read (as_decoded result)) }
    ensures place { IfErr (as_decoded result) (LiesIn (length body.old)) }
{
    without_memory(rewrite_list_to_end::<TypeEntry>(body))
}

/// Copies the body and rewrites the copy.
fn body_bytes_of(alloc: Global, body: &[u8]) -> Result<Vec<u8>, ReadError>
    ensures rewrites { RewritesAll type_body IsTypeBodyPrefix body.now result }
{
    rewrite_type_section(Vec::from_slice(alloc, body)?)
}
