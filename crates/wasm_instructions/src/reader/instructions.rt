//! Readers of lists of instructions (Core 3.0, Instructions).
ghost use Rattle.std.specs.Prelude.{IfOk, refl, ◌<◌, true};
ghost use Rattle.wasm_codec.specs.Places.{Reads};
ghost use Rattle.wasm_codec.specs.Outcomes.{EncodesSome};
ghost use Rattle.wasm_instructions.specs.formats.Instructions.{Instruction, Instructions, MinimalInstructions, instruction};
ghost use Rattle.wasm_instructions.specs.Instructions.{IsCounted};
ghost use Rattle.wasm_codec.specs.Decoding.{Decodes, DecodesMinimal, Checks};
ghost use Rattle.wasm_instructions.specs.PrefixFree.{InstructionsArePrefixFree};
ghost use Rattle.wasm_codec.specs.formats.Bodies.{to_end};

use crate::operands::take_mem_arg;
use crate::reader::lists::{read_calls_to_end, read_next_frequent_call};
use crate::reader::operands::read_operands;
use crate::reader::take_opcode;
use crate::table::{Call, Kind, Operands};
use std::alloc::Global;
use wasm_codec::reader::cursor::{Cursor, Fault};
use wasm_codec::reader::malformed::Malformed;
use wasm_codec::reader::{ReadError, without_reason};
use wasm_codec::rewriter::Rewriter;
use wasm_lists::checking::check_items_to_end;
use wasm_lists::readable::Readable;
use wasm_lists::rewriting::Rewritable;

/// Reads a list of instructions, in any encoding (Core 3.0, Instructions).
///
/// Neither nesting nor a final `end` is checked. Fails with `Refused` if the bytes are malformed: `at` is the offset of
/// the first malformed instruction. Fails with `Memory` if an allocation fails.
///
/// # Examples
///
/// ```
/// # use wasm_encoder::{Opcode, Operands, ReadError, read_instructions};
/// let calls = read_instructions(rt.alloc(), b"\x20\xc2\x80\x00\x0b")?; // local.get 66, padded; end
/// assert_eq!(rt; calls.len(), 2);
/// assert_eq!(rt; calls[0].op(), Opcode::without_prefix(0x20));
/// assert_eq!(rt; calls[0].operands(), &Operands::Index(66));
/// let malformed = read_instructions(rt.alloc(), b"\x0b\xff"); // end; no opcode
/// assert_eq!(rt; malformed.err(), Some(ReadError::Refused { at: 1 }));
/// ```
pub fn read_instructions(alloc: Global, bytes: &[u8]) -> Result<Vec<Call>, ReadError>
    ensures decodes { Decodes (λ calls. calls.items) (to_end instruction) (EncodesSome Instructions) bytes.now result }
    ensures prefix_free { InstructionsArePrefixFree }
{
    without_reason(read_calls_to_end::<false>(alloc, bytes))
}

/// Reads a minimally encoded list of instructions (Core 3.0, Instructions).
///
/// Fails with `Refused` if the bytes are malformed or not minimally encoded: `at` is the offset of the first
/// instruction that is malformed or not minimal. Fails with `Memory` if an allocation fails.
///
/// # Examples
///
/// ```
/// # use wasm_encoder::{ReadError, read_instructions_strict};
/// let calls = read_instructions_strict(rt.alloc(), b"\x01\x20\x42")?; // nop; local.get 66
/// assert_eq!(rt; calls.len(), 2);
/// let padded = read_instructions_strict(rt.alloc(), b"\x01\x20\xc2\x80\x00");
/// assert_eq!(rt; padded.err(), Some(ReadError::Refused { at: 1 }));
/// ```
pub fn read_instructions_strict(alloc: Global, bytes: &[u8]) -> Result<Vec<Call>, ReadError>
    ensures decodes { DecodesMinimal (λ calls. calls.items) (to_end instruction) MinimalInstructions (EncodesSome MinimalInstructions) bytes.now result }
{
    without_reason(read_calls_to_end::<true>(alloc, bytes))
}

/// Reads an instruction (Core 3.0, Instructions).
pub fn read_call(alloc: Global, cursor: &mut Cursor<'_>) -> Result<Call, Fault>
    ensures reads { Reads instruction.at cursor.old cursor.new result }
    // A u32 can count the items of its lists.
    ensures counted { IfOk result (λ call. IsCounted call.operands) }
{
    let start = cursor.to_end();
    match read_opcode_and_operands(alloc, cursor) {
        Ok(call) => Ok(call),
        Err(Fault::Malformed(malformed)) => Err(Fault::Malformed(malformed.in_instruction(start))),
        Err(Fault::Memory) => Err(Fault::Memory),
    }
}

/// Reads an opcode and its operands.
#[tactic(auto, unfolding(crate::specs::formats::Instructions::instruction))]
fn read_opcode_and_operands(alloc: Global, cursor: &mut Cursor<'_>) -> Result<Call, Fault>
    ensures reads { Reads instruction.at cursor.old cursor.new result }
    // A u32 can count the items of its lists.
    ensures counted { IfOk result (λ call. IsCounted call.operands) }
{
    let start = cursor.to_end();
    let op = take_opcode(cursor)?;
    let Some(kind) = op.kind() else {
        return Err(Fault::Malformed(Malformed::new(op.unknown(), start)));
    };
    // The most frequent kinds first: operands of any kind take long to hand on.
    match kind {
        Kind::None => return Ok(Call::from_parts(op, Operands::None)),
        Kind::Index => return Ok(Call::from_parts(op, Operands::Index(cursor.u32()?))),
        Kind::Mem => return Ok(Call::from_parts(op, Operands::Mem(take_mem_arg(cursor)?))),
        Kind::I32 => return Ok(Call::from_parts(op, Operands::I32(cursor.s32()?))),
        _ => {}
    }
    let operands = read_operands(alloc, cursor, kind)?;
    Ok(Call::from_parts(op, operands))
}

impl<'a> Readable<'a> for Call {
    ghost Value = { Instruction };

    ghost view = { λ call. call };

    ghost views = { λ calls. calls };

    ghost views_each = { record { none = refl; more = λ calls call. refl } };

    ghost format = { instruction };

    // A frequent instruction is tried first, since the compiler makes it in its place.
    #[inline(always)]
    fn read(alloc: Global, cursor: &mut Cursor<'a>) -> Result<Call, Fault> {
        match read_next_frequent_call::<false>(cursor) {
            Some(call) => Ok(call),
            None => read_call(alloc, cursor),
        }
    }

    #[inline(always)]
    #[tactic(auto, using(crate::proofs::InstructionFormatLaws::instruction_laws))]
    fn is_lawful() {}

    fn rewrite(rewriter: &mut Rewriter) -> Result<(), Fault> {
        <Call as Rewritable>::rewrite(rewriter)
    }
}

/// Checks that a list of instructions is minimally encoded (Core 3.0, Instructions).
///
/// Fails with `Refused` if it isn't: `at` is the offset of the first instruction that is malformed or not minimal.
/// Fails with `Memory` if an allocation fails.
///
/// # Examples
///
/// ```
/// # use wasm_encoder::{ReadError, check_instructions};
/// check_instructions(rt.alloc(), b"\x01\x20\x42")?; // nop; local.get 66
/// let padded = check_instructions(rt.alloc(), b"\x01\x20\xc2\x80\x00");
/// assert_eq!(rt; padded.err(), Some(ReadError::Refused { at: 1 }));
/// ```
pub fn check_instructions(alloc: Global, bytes: &[u8]) -> Result<(), ReadError>
    ensures checks { Checks (to_end instruction) MinimalInstructions (EncodesSome MinimalInstructions) bytes.now result }
{
    without_reason(check_items_to_end::<Call>(alloc, bytes))
}
