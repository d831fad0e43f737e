//! Custom sections (Core 3.0, Custom Section).
ghost use Rattle.std.specs.Prelude.{⊤, length, ◌≡◌, ◌++◌, OnOk, IfOk, IfErr, take, ◌≤◌};
ghost use Rattle.wasm_codec.specs.formats.Combinators.{minimal_only};
ghost use Rattle.wasm_sections.specs.formats.EntryParts.{CustomParts, custom_parts};
ghost use Rattle.wasm_code.specs.DecodedPrefixes.{ArePrefixes, IsNothingOr};
ghost use Rattle.wasm_sections.specs.formats.Sections.{custom_body};
ghost use Rattle.wasm_codec.specs.Decoding.{ReadsAll, ChecksAll, RewritesInPlace, TakesMinimal, Decodes};
ghost use Rattle.wasm_codec.specs.Lawful.{IsLawfulBody};
ghost use Rattle.wasm_codec.specs.Outcomes.{IfMalformed, LiesIn, as_read, NeedsNoMemory};
ghost use Rattle.wasm_codec.specs.Appending.{Appends};
ghost use Rattle.wasm_codec.specs.Encoding.{byte_list_bytes, IsRefusal, IsMinimal, IsTooLong, OnlyTooLong};
ghost use Rattle.wasm_sections.specs.formats.ModuleSectionParts.{custom};
ghost use Rattle.wasm_sections.specs.SectionBytes.{CountedCustom, IsSectionAfter};

use crate::bodies::{WholeBody, rewrite_body};
use std::alloc::{Allocator, Global};
use wasm_code::decode::Decode;
use wasm_codec::encode::leb128::u32_len;
use wasm_codec::encode::{EncodeError, keep_or_undo};
use wasm_codec::reader::cursor::{Cursor, Fault};
use wasm_codec::reader::malformed::{Construct, Malformed, Reason};
use wasm_codec::reader::{DecodeError, ReadError, without_reason};
use wasm_codec::rewriter::{Rewriter, are_bytes};
use wasm_externals::names::{append_name, read_name, rewrite_name};
use wasm_lists::encode::Encode;
use wasm_lists::rewriting::RewritableBody;

/// A custom section, which `Module::section` accepts and `read_whole_module` returns (Core 3.0, Custom Section).
///
/// # Examples
///
/// ```
/// # use wasm_encoder::{CustomSection, Encode};
/// let section = CustomSection { name: "note", bytes: b"hi" };
/// let mut bytes = Vec::new(rt.alloc());
/// section.encode(&mut bytes)?; // the size, the length of the name, the name, the contents
/// assert_eq!(rt; bytes.as_slice(), b"\x07\x04notehi".as_slice());
/// ```
#[derive(Debug, Drop)]
pub struct CustomSection<'a> {
    /// Name of the section.
    pub name: &'a str,
    /// Contents after the name.
    pub bytes: &'a [u8],
}

/// Reads a custom section body as `read::<CustomSection>` does, and allocates nothing.
///
/// Fails with `Refused` at 0 if the name is malformed.
pub fn read_custom<'a>(body: &'a [u8]) -> Result<CustomSection<'a>, ReadError>
    ensures decodes { Decodes custom_parts custom_body (IsNothingOr custom_body) body.now result }
    ensures memory { NeedsNoMemory result }
{
    without_reason(read_name_and_bytes(body))
}

/// Reads a custom section body, in any encoding. Refuses at 0 if the name is malformed.
pub(crate) fn read_name_and_bytes<'a>(body: &'a [u8]) -> Result<CustomSection<'a>, DecodeError>
    ensures reads { ReadsAll custom_parts custom_body.Encodes (IsNothingOr custom_body) body.now (as_read result) }
    ensures memory { NeedsNoMemory (as_read result) }
    ensures place { IfErr result (LiesIn (length body.now)) }
{
    let mut cursor = Cursor::new(body);
    cursor.are_bytes();
    let name = match read_name(&mut cursor) {
        Ok(name) => name,
        Err(fault) => return Err(DecodeError::new(fault, 0, body.len())),
    };
    let left = cursor.len();
    let bytes = match cursor.take(left, Construct::Body) {
        Ok(bytes) => bytes,
        Err(fault) => return Err(DecodeError::new(fault, 0, body.len())),
    };
    Ok(CustomSection { name, bytes })
}

/// Reads a minimally encoded custom section body. Refuses at 0 if the name is malformed or its length not minimal.
pub(crate) fn read_name_and_bytes_strict<'a>(
    body: &'a [u8],
) -> Result<CustomSection<'a>, DecodeError>
    ensures reads { ReadsAll custom_parts (minimal_only custom_body).Encodes (IsNothingOr (minimal_only custom_body)) body.now (as_read result) }
    ensures memory { NeedsNoMemory (as_read result) }
    ensures place { IfErr result (LiesIn (length body.now)) }
{
    let mut cursor = Cursor::new(body);
    cursor.are_bytes();
    let name = match read_name(&mut cursor) {
        Ok(name) => name,
        Err(fault) => return Err(DecodeError::new(fault, 0, body.len())),
    };
    if !cursor.is_minimal() {
        let long = Malformed::new(Reason::LongForm, body.len());
        return Err(DecodeError::refused(&long, 0, body.len()));
    }
    let left = cursor.len();
    let bytes = match cursor.take(left, Construct::Body) {
        Ok(bytes) => bytes,
        Err(fault) => return Err(DecodeError::new(fault, 0, body.len())),
    };
    Ok(CustomSection { name, bytes })
}

/// A name followed by all remaining bytes.
pub(crate) struct Custom;

impl RewritableBody for Custom {
    ghost Value = { CustomParts };

    ghost format = { custom_body };

    #[inline(always)]
    #[tactic(auto, using(crate::proofs::CustomLaws::custom_is_lawful))]
    fn is_lawful() {}

    #[tactic(auto, using(crate::proofs::CustomLaws::custom_rewritten, crate::proofs::CustomLaws::custom_refused))]
    fn rewrite(rewriter: &mut Rewriter) -> Result<(), Fault> {
        rewrite_name(rewriter)?;
        rewriter.rest();
        Ok(())
    }
}

impl WholeBody for Custom {
    #[inline(always)]
    #[tactic(auto, using(crate::proofs::CustomLaws::custom_prefixes))]
    fn prefixes_are_lawful() {}
}

impl<'a> Decode<'a> for CustomSection<'a> {
    type Output = CustomSection<'a>;

    ghost Value = { CustomParts };

    ghost view = { custom_parts };

    ghost format = { custom_body };

    ghost Minimal = { (minimal_only custom_body).Encodes };

    ghost IsPrefix = { IsNothingOr custom_body };

    ghost IsMinimalPrefix = { IsNothingOr (minimal_only custom_body) };

    ghost ReadsInPlace = { ⊤ };

    #[inline(always)]
    #[tactic(auto, using(wasm_code::proofs::PrefixLaws::nothing_or, crate::proofs::CustomLaws::custom_is_lawful))]
    fn is_lawful()
        ensures lawful { IsLawfulBody custom_body }
        ensures minimal { TakesMinimal custom_body (minimal_only custom_body).Encodes }
        ensures prefixes { ArePrefixes custom_body.Encodes (IsNothingOr custom_body) }
        ensures minimal_prefixes { ArePrefixes (minimal_only custom_body).Encodes (IsNothingOr (minimal_only custom_body)) }
    {}

    fn read_all(_alloc: Global, bytes: &'a [u8]) -> Result<CustomSection<'a>, DecodeError> {
        read_name_and_bytes(bytes)
    }

    fn read_all_strict(_alloc: Global, bytes: &'a [u8]) -> Result<CustomSection<'a>, DecodeError> {
        read_name_and_bytes_strict(bytes)
    }

    fn check_all(_alloc: Global, bytes: &[u8]) -> Result<(), DecodeError>
        ensures checks { ChecksAll (minimal_only custom_body).Encodes (IsNothingOr (minimal_only custom_body)) bytes.now (as_read result) }
        ensures place { IfErr result (LiesIn (length bytes.now)) }
        ensures counts { IfMalformed result (λ _. ⊤) }
    {
        match read_name_and_bytes_strict(bytes) {
            Ok(_) => Ok(()),
            Err(error) => Err(error),
        }
    }

    fn rewrite_all(bytes: &mut [u8]) -> Result<usize, DecodeError>
        ensures len { IfOk result (λ len. len ≤ length bytes.new) }
        ensures rewrites { RewritesInPlace custom_body (IsNothingOr custom_body) bytes.old bytes.new (as_read result) }
        ensures memory { NeedsNoMemory (as_read result) }
        ensures place { IfErr result (LiesIn (length bytes.old)) }
        ensures counts { IfMalformed result (λ _. ⊤) }
    {
        rewrite_body::<Custom>(bytes)
    }
}

/// The size of the body in bytes, the name and the contents (Core 3.0, Custom Section).
///
/// Fails with `TooLong` if the body is longer than 4,294,967,295 bytes.
impl<'a> Encode for CustomSection<'a> {
    ghost bytes = { λ section. byte_list_bytes (custom_body.bytes (custom_parts section)) };

    ghost IsWritten = { λ section. IsMinimal custom_body.Encodes custom_body.bytes (custom_parts section) ×
        IsSectionAfter 0 (byte_list_bytes (custom_body.bytes (custom_parts section))) (custom (custom_parts section)) };

    ghost CanEncode = { CountedCustom };

    ghost refuses = { OnlyTooLong };

    fn encode<A: Allocator>(&self, sink: &mut Vec<u8, A>) -> Result<(), EncodeError> {
        let start = sink.len();
        let result = append_custom(self, sink);
        keep_or_undo(sink, start, result)
    }
}

/// Appends the size and the body of a custom section. On error a part of them may remain.
fn append_custom<A: Allocator>(
    section: &CustomSection<'_>,
    sink: &mut Vec<u8, A>,
) -> Result<(), EncodeError>
    ensures { Appends (byte_list_bytes (custom_body.bytes (custom_parts section.now))) (CountedCustom section.now)
        (IsMinimal custom_body.Encodes custom_body.bytes (custom_parts section.now) ×
        IsSectionAfter 0 (byte_list_bytes (custom_body.bytes (custom_parts section.now))) (custom (custom_parts section.now)))
        sink.old.items sink.new.items result }
{
    append_front(section, sink)?;
    sink.extend_from_slice(section.bytes)?;
    Ok(())
}

/// Appends what a custom section's encoding has in front of the contents: the size of the body, and the name.
///
/// On error a part of it may remain. Fails with `TooLong` if the body is longer than 4,294,967,295 bytes.
pub fn append_front<A: Allocator>(
    section: &CustomSection<'_>,
    sink: &mut Vec<u8, A>,
) -> Result<(), EncodeError>
    ensures ok { OnOk result (sink.new.items ++ section.now.bytes.now ≡ sink.old.items ++ byte_list_bytes (custom_body.bytes (custom_parts section.now))) }
    ensures can { OnOk result (CountedCustom section.now) }
    ensures minimal { OnOk result (IsMinimal custom_body.Encodes custom_body.bytes (custom_parts section.now)) }
    ensures whole { OnOk result (IsSectionAfter 0 (byte_list_bytes (custom_body.bytes (custom_parts section.now))) (custom (custom_parts section.now))) }
    ensures refused { IfErr result (IsRefusal CountedCustom OnlyTooLong section.now) }
    ensures kept { take (length sink.old.items) sink.new.items ≡ sink.old.items }
{
    are_bytes(section.bytes);
    let size = body_len(section)?;
    size.encode(sink)?;
    append_name(section.name, sink)
}

/// Returns the length of the body of a custom section, in bytes. Fails with `TooLong` if the name is longer than
/// 4,294,967,295 bytes.
fn body_len(section: &CustomSection<'_>) -> Result<usize, EncodeError>
    ensures ok { IfOk result (λ size. size ≡ length (custom_body.bytes (custom_parts section.now))) }
    ensures err { IfErr result (IsTooLong (length section.now.name.now)) }
{
    let Ok(name_len) = u32::try_from(section.name.len()) else {
        return Err(EncodeError::TooLong);
    };
    Ok(u32_len(name_len) + section.name.len() + section.bytes.len())
}
