//! The normaliser of lists of instructions (Core 3.0, Instructions).
ghost use Rattle.std.specs.Prelude.{◌<◌, length, IfErr};
ghost use Rattle.wasm_codec.specs.Outcomes.{EncodesSome, LiesIn, as_decoded, as_read};
ghost use Rattle.wasm_instructions.specs.formats.Instructions.{Instruction, Instructions, MinimalInstructions, instruction};
ghost use Rattle.wasm_codec.specs.Rewriter.{Rewrites};
ghost use Rattle.wasm_codec.specs.Decoding.{Normalises, NormalisesInPlace, NormalisesSlice, RewritesAll};
ghost use Rattle.wasm_codec.specs.formats.Bodies.{to_end};
ghost use Rattle.wasm_codec.specs.formats.Combinators.{u64 as u64_format};

mod operands;
mod scan;

use crate::normaliser::operands::rewrite_operands;
use crate::normaliser::scan::{scan_call, scan_frequent_call, scan_padded_load, scan_rare_call};
use crate::reader::take_opcode;
use crate::table::Call;
use std::alloc::Global;
use wasm_codec::reader::cursor::Fault;
use wasm_codec::reader::malformed::Malformed;
use wasm_codec::reader::refusal::Refusal;
use wasm_codec::reader::{ReadError, without_memory, without_reason};
use wasm_codec::rewriter::{Part, Rewriter, Scanned, scan_u64};
use wasm_lists::rewriting::{Joinable, Rewritable, rewrite_items_to_end};

/// Returns the minimal encoding of a list of instructions (Core 3.0, Instructions).
///
/// Fails with `Refused` if the bytes are malformed: `at` is the offset of the first malformed instruction. Fails with
/// `Memory` if the bytes can't be copied.
///
/// # Examples
///
/// ```
/// # use wasm_encoder::normalise_instructions;
/// let minimal = normalise_instructions(rt.alloc(), b"\x20\xc2\x80\x00\x0b")?; // local.get 66, padded; end
/// assert_eq!(rt; minimal.as_slice(), b"\x20\x42\x0b".as_slice());
/// ```
pub fn normalise_instructions(alloc: Global, bytes: &[u8]) -> Result<Vec<u8>, ReadError>
    ensures normalises { Normalises (to_end instruction) MinimalInstructions (EncodesSome Instructions) bytes.now result }
{
    call_bytes_of(alloc, bytes)
}

/// Replaces a list of instructions by its minimal encoding in place (Core 3.0, Instructions).
///
/// It does what `normalise_instructions` does, without allocating: it never fails with `Memory`.
///
/// # Examples
///
/// ```
/// # use wasm_encoder::rewrite_instructions;
/// let padded = Vec::from_slice(rt.alloc(), b"\x41\x80\x80\x00\x1a")?; // i32.const 0, padded; drop
/// let minimal = rewrite_instructions(padded)?;
/// assert_eq!(rt; minimal.as_slice(), b"\x41\x00\x1a".as_slice());
/// ```
pub fn rewrite_instructions(bytes: Vec<u8>) -> Result<Vec<u8>, ReadError>
    ensures normalises { NormalisesInPlace (to_end instruction) (EncodesSome Instructions) bytes.items result }
{
    let mut bytes = bytes;
    match without_reason(rewrite_items_to_end::<Call>(bytes.as_mut_slice())) {
        Ok(len) => {
            bytes.truncate(len);
            Ok(bytes)
        }
        Err(error) => Err(error),
    }
}

/// Replaces a list of instructions by its minimal encoding in place, as [`rewrite_instructions`] does (Core 3.0, Instructions). Returns the length of it, which begins
/// the slice.
///
/// If it fails, the bytes are unspecified.
///
/// # Examples
///
/// ```
/// # use wasm_encoder::rewrite_instructions_in_place;
/// let mut bytes = *b"\x41\x80\x80\x00\x1a"; // i32.const 0, padded; drop
/// let len = rewrite_instructions_in_place(&mut bytes)?;
/// assert_eq!(rt; &bytes[..len], b"\x41\x00\x1a".as_slice());
/// ```
pub fn rewrite_instructions_in_place(bytes: &mut [u8]) -> Result<usize, Refusal>
    ensures normalises { NormalisesSlice (to_end instruction) (EncodesSome Instructions) bytes.old bytes.new (as_read (as_decoded result)) }
    ensures place { IfErr (as_decoded result) (LiesIn (length bytes.old)) }
{
    without_memory(rewrite_items_to_end::<Call>(bytes))
}

/// Copies the bytes and rewrites the copy.
fn call_bytes_of(alloc: Global, bytes: &[u8]) -> Result<Vec<u8>, ReadError>
    ensures rewrites { RewritesAll (to_end instruction) (EncodesSome Instructions) bytes.now result }
{
    rewrite_instructions(Vec::from_slice(alloc, bytes)?)
}

impl Rewritable for Call {
    ghost Value = { Instruction };

    ghost format = { instruction };

    #[inline(always)]
    #[tactic(auto, using(crate::proofs::InstructionFormatLaws::instruction_laws))]
    fn is_lawful() {}

    #[inline(never)]
    fn rewrite(rewriter: &mut Rewriter) -> Result<(), Fault> {
        rewrite_located_call(rewriter)
    }
}

impl Joinable for Call {
    #[inline(always)]
    fn scan(bytes: &[u8]) -> Option<Scanned> {
        scan_call(bytes)
    }

    #[inline(always)]
    fn scan_frequent(bytes: &[u8]) -> Option<usize> {
        scan_frequent_call(bytes)
    }

    #[inline(always)]
    fn scan_rare(bytes: &[u8]) -> Option<usize> {
        scan_rare_call(bytes)
    }
}

/// Rewrites an opcode and its operands.
#[tactic(auto, using(crate::proofs::CallRewriting::after_opcode), unfolding(crate::specs::formats::Instructions::instruction))]
fn rewrite_call(rewriter: &mut Rewriter) -> Result<(), Fault>
    ensures rewrites { Rewrites instruction rewriter.old rewriter.new result }
{
    rewriter.are_bytes();
    if let Some(alignment) = scan_padded_load(rewriter.left()) {
        rewriter.skip(1);
        rewriter.rewrite_scanned(alignment);
        return rewrite_offset(rewriter);
    }
    let start = rewriter.to_end();
    let op = take_opcode(rewriter)?;
    let Some(kind) = op.kind() else {
        return Err(Fault::Malformed(Malformed::new(op.unknown(), start)));
    };
    rewrite_operands(rewriter, kind)
}

/// Rewrites the offset of a memory argument.
#[inline(always)]
fn rewrite_offset(rewriter: &mut Rewriter) -> Result<(), Fault>
    ensures rewrites { Rewrites u64_format rewriter.old rewriter.new result }
{
    rewriter.are_bytes();
    if let Some(scanned) = scan_u64(rewriter.left()) {
        rewriter.rewrite_scanned(scanned);
        return Ok(());
    }
    rewriter.u64()?;
    Ok(())
}

/// Rewrites an opcode and its operands. A fault carries the place of the instruction.
fn rewrite_located_call(rewriter: &mut Rewriter) -> Result<(), Fault>
    ensures rewrites { Rewrites instruction rewriter.old rewriter.new result }
{
    let (start, to_end) = (rewriter.start(), rewriter.to_end());
    match rewrite_call(rewriter) {
        Ok(()) => {
            rewriter.end_part(&start, Part::Instruction);
            Ok(())
        }
        Err(Fault::Malformed(malformed)) => Err(Fault::Malformed(malformed.in_instruction(to_end))),
        Err(Fault::Memory) => Err(Fault::Memory),
    }
}
