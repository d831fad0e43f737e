//! The normaliser of code section bodies (Core 3.0, Code Section).
ghost use Rattle.std.specs.Prelude.{◌≡◌, ℕ, List, Some, IfErr, IfSome, length};
ghost use Rattle.wasm_codec.specs.Places.{Reads};
ghost use Rattle.wasm_codec.specs.Rewriter.{Rewrites};
ghost use Rattle.wasm_codec.specs.Scanning.{Scans};
ghost use Rattle.wasm_codec.specs.declared.rewriter.scan.Scanned.TheVariants.{Minimal};
ghost use Rattle.wasm_codec.specs.formats.Combinators.{items};
ghost use Rattle.wasm_codec.specs.Outcomes.{IsMalformed, LiesIn, as_decoded, as_read};
ghost use Rattle.wasm_types.specs.declared.types.value.ValType.{ValType};
ghost use Rattle.wasm_instructions.specs.formats.Instructions.{Instruction};
ghost use Rattle.wasm_code.specs.declared.code.CodeBody.{CodeBody};
ghost use Rattle.wasm_code.specs.formats.CodeBodies.{local_group, function_code, code_body, code_section_body, IsCodeSectionBodyPrefix, MinimalCodeSectionBody};
ghost use Rattle.wasm_codec.specs.Decoding.{Normalises, NormalisesInPlace, NormalisesSlice, RewritesAll};

use crate::code::CodeBody;
use std::alloc::Global;
use wasm_codec::reader::cursor::{Cursor, Fault};
use wasm_codec::reader::refusal::Refusal;
use wasm_codec::reader::{ReadError, without_memory, without_reason};
use wasm_codec::rewriter::{Part, Rewriter, Scanned, scan_u32};
use wasm_instructions::table::Call;
use wasm_lists::rewriting::{
    Rewritable, RewritableBody, begins_run, rewrite_list, rewrite_list_to_end, rewrite_sized,
    rewrite_to_end,
};
use wasm_types::types::{ValType, scan_val_type, take_val_type};

/// Returns the minimal encoding of the code bodies in a code section body (Core 3.0, Code Section).
///
/// Fails with `Refused` if the body is malformed: `at` is the offset of the first malformed or missing code body, or of
/// trailing bytes. It is 0 if the count is malformed. Fails with `Memory` if the body can't be copied.
///
/// # Examples
///
/// ```
/// # use wasm_encoder::normalise_code_section;
/// let minimal = normalise_code_section(rt.alloc(), b"\x01\x82\x00\x00\x0b")?; // a size in two bytes
/// assert_eq!(rt; minimal.as_slice(), b"\x01\x02\x00\x0b".as_slice());
/// ```
pub fn normalise_code_section(alloc: Global, body: &[u8]) -> Result<Vec<u8>, ReadError>
    ensures normalises { Normalises code_section_body MinimalCodeSectionBody IsCodeSectionBodyPrefix body.now result }
{
    bodies_bytes_of(alloc, body)
}

/// Replaces a code section body by its minimal encoding in place (Core 3.0, Code Section).
///
/// It does what `normalise_code_section` does, without allocating: it never fails with `Memory`.
///
/// # Examples
///
/// ```
/// # use wasm_encoder::rewrite_code_section;
/// let padded = Vec::from_slice(rt.alloc(), b"\x01\x04\x80\x80\x00\x0b")?; // a count of locals in three bytes
/// let minimal = rewrite_code_section(padded)?;
/// assert_eq!(rt; minimal.as_slice(), b"\x01\x02\x00\x0b".as_slice());
/// ```
#[tactic(auto, unfolding(crate::specs::formats::CodeBodies::code_section_body))]
pub fn rewrite_code_section(body: Vec<u8>) -> Result<Vec<u8>, ReadError>
    ensures normalises { NormalisesInPlace code_section_body IsCodeSectionBodyPrefix body.items result }
{
    let mut body = body;
    match without_reason(rewrite_list_to_end::<CodeBody>(body.as_mut_slice())) {
        Ok(len) => {
            body.truncate(len);
            Ok(body)
        }
        Err(error) => Err(error),
    }
}

/// Replaces a code section body by its minimal encoding in place, as [`rewrite_code_section`] does (Core 3.0, Code Section). Returns the length of it, which begins
/// the slice.
///
/// If it fails, the bytes are unspecified.
///
/// # Examples
///
/// ```
/// # use wasm_encoder::rewrite_code_section_in_place;
/// let mut body = *b"\x01\x04\x80\x80\x00\x0b"; // a count of locals in three bytes
/// let len = rewrite_code_section_in_place(&mut body)?;
/// assert_eq!(rt; &body[..len], b"\x01\x02\x00\x0b".as_slice());
/// ```
pub fn rewrite_code_section_in_place(body: &mut [u8]) -> Result<usize, Refusal>
    ensures normalises { NormalisesSlice code_section_body IsCodeSectionBodyPrefix body.old body.new (as_read (as_decoded result)) }
    ensures place { IfErr (as_decoded result) (LiesIn (length body.old)) }
{
    without_memory(rewrite_list_to_end::<CodeBody>(body))
}

/// Copies the body and rewrites the copy.
fn bodies_bytes_of(alloc: Global, body: &[u8]) -> Result<Vec<u8>, ReadError>
    ensures rewrites { RewritesAll code_section_body IsCodeSectionBodyPrefix body.now result }
{
    rewrite_code_section(Vec::from_slice(alloc, body)?)
}

impl Rewritable for CodeBody {
    ghost Value = { CodeBody };

    ghost format = { code_body };

    #[inline(always)]
    #[tactic(auto, using(crate::proofs::CodeBodyLaws::code_laws))]
    fn is_lawful() {}

    #[inline(always)]
    fn rewrite(rewriter: &mut Rewriter) -> Result<(), Fault> {
        rewriter.are_bytes();
        if let Some(scanned) = scan_short_body(rewriter.left()) {
            rewriter.rewrite_scanned(scanned);
            return Ok(());
        }
        rewrite_code_body(rewriter)
    }
}

/// The length in bytes of the longest code body that is scanned as a whole. Longer ones would be scanned twice, if a part
/// of them isn't minimal.
const SHORT_BODY: u8 = 127;

/// Scans a code body of at most 127 bytes that has no locals, if all of its instructions can be scanned and are minimally
/// encoded.
#[inline(always)]
fn scan_short_body(bytes: &[u8]) -> Option<Scanned>
    ensures { Scans code_body bytes.now result }
{
    if bytes.len() < 2 || bytes[0] == 0 || bytes[0] > SHORT_BODY || bytes[1] != 0 {
        return None;
    }
    let count = usize::from(bytes[0]) - 1;
    if begins_run::<Call>(&bytes[2..], count) {
        Some(Scanned::Minimal(2 + count))
    } else {
        None
    }
}

/// Rewrites a code body.
#[tactic(auto, unfolding(crate::specs::formats::CodeBodies::code_body))]
fn rewrite_code_body(rewriter: &mut Rewriter) -> Result<(), Fault>
    ensures rewrites { Rewrites code_body rewriter.old rewriter.new result }
{
    let start = rewriter.start();
    rewrite_sized::<FunctionCode>(rewriter)?;
    rewriter.end_part(&start, Part::Code);
    Ok(())
}

/// The locals and instructions of a code body, which take up all of its bytes.
struct FunctionCode;

impl RewritableBody for FunctionCode {
    ghost Value = { List (ℕ × ValType) × List Instruction };

    ghost format = { function_code };

    #[inline(always)]
    #[tactic(auto, using(crate::proofs::CodeBodyLaws::code_laws))]
    fn is_lawful() {}

    #[inline(always)]
    fn rewrite(rewriter: &mut Rewriter) -> Result<(), Fault> {
        rewrite_function_code(rewriter)
    }
}

/// Rewrites the locals and instructions of a code body.
#[tactic(auto, using(std::proofs::Common::append_assoc))]
fn rewrite_function_code(rewriter: &mut Rewriter) -> Result<(), Fault>
    ensures rewrites { Rewrites function_code rewriter.old rewriter.new result }
{
    rewrite_locals(rewriter)?;
    rewrite_to_end::<Call>(rewriter)
}

/// Rewrites the groups of locals. A fault carries the number of its group.
pub fn rewrite_locals(rewriter: &mut Rewriter) -> Result<(), Fault>
    ensures rewrites { Rewrites (items local_group) rewriter.old rewriter.new result }
{
    let start = rewriter.start();
    match rewrite_list::<LocalGroup>(rewriter) {
        Ok(()) => {
            rewriter.end_part(&start, Part::Locals);
            Ok(())
        }
        Err(Fault::Malformed(malformed)) => Err(Fault::Malformed(malformed.in_locals())),
        Err(Fault::Memory) => Err(Fault::Memory),
    }
}

/// A group of locals, as an item of the list of locals.
struct LocalGroup;

impl Rewritable for LocalGroup {
    ghost Value = { ℕ × ValType };

    ghost format = { local_group };

    #[inline(always)]
    fn is_lawful() {}

    #[tactic(auto, using(std::proofs::Common::append_assoc))]
    fn rewrite(rewriter: &mut Rewriter) -> Result<(), Fault> {
        rewriter.are_bytes();
        if let Some(count) = scan_local_group(rewriter.left()) {
            rewriter.rewrite_scanned(Scanned::Minimal(count));
            return Ok(());
        }
        let start = rewriter.start();
        rewriter.u32()?;
        rewriter.end_part(&start, Part::Number);
        take_val_type(rewriter)?;
        rewriter.end_part(&start, Part::LocalGroup);
        Ok(())
    }
}

/// Returns the length in bytes of the group of locals that the bytes begin with. Returns `None` unless it is minimally
/// encoded.
#[inline(always)]
fn scan_local_group(bytes: &[u8]) -> Option<usize>
    ensures { IfSome result (λ count. Scans local_group bytes.now (Some (Minimal count))) }
{
    let Some(Scanned::Minimal(count)) = scan_u32(bytes) else {
        return None;
    };
    let ty = scan_val_type(&bytes[count..])?;
    Some(count + ty)
}

/// Reads a group of locals: their number and their type.
pub fn read_local_group(cursor: &mut Cursor<'_>) -> Result<(u32, ValType), Fault>
    ensures reads { Reads local_group.at cursor.old cursor.new result }
    ensures err { IfErr result IsMalformed }
{
    let count = cursor.u32()?;
    let ty = take_val_type(cursor)?;
    Ok((count, ty))
}
