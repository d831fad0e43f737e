//! The loop that reads instructions up to the end of bytes (Core 3.0, Instructions).
//!
//! It first tries to read a frequent instruction, whose small result holds no fault, so that the compiler makes the
//! instruction in its place.
ghost use Rattle.std.specs.Prelude.{◌≡◌, ◌<◌, [], length, Some, IfSome, IsNone, IfOk, IfErr};
ghost use Rattle.wasm_codec.specs.Outcomes.{as_read, IfRefused, IsLongestPrefix, LiesIn, EncodesSome};
ghost use Rattle.wasm_codec.specs.Places.{Reads, WasMinimalIf};
ghost use Rattle.wasm_codec.specs.Rewriter.{StopsBehind, faulted};
ghost use Rattle.wasm_codec.specs.Lawful.{IsLawful};
ghost use Rattle.wasm_codec.specs.formats.Bodies.{to_end};
ghost use Rattle.wasm_codec.specs.formats.Combinators.{minimal_if};
ghost use Rattle.wasm_codec.specs.formats.Grammar.{IsBytes, TakesBytes, Joined};
ghost use Rattle.wasm_instructions.specs.formats.Instructions.{instruction};

use crate::reader::operands::{read_empty_block_type, read_short_mem_arg};
use crate::table::{Call, Kind, Opcode, Operands};
use std::alloc::Global;
use wasm_codec::reader::DecodeError;
use wasm_codec::reader::cursor::{Cursor, Fault};
use wasm_codec::reader::malformed::Stop;
use wasm_lists::list::Items;
use wasm_lists::reading::{Number, read_next_item};

/// Reads instructions from all of the bytes, minimally encoded if `STRICT` is set.
///
/// Fails with `Malformed` at the offset of the first malformed instruction, and with `Memory` if an allocation fails.
pub fn read_calls_to_end<const STRICT: bool>(
    alloc: Global,
    bytes: &[u8],
) -> Result<Vec<Call>, DecodeError>
    ensures given { IfOk (as_read result) (λ calls. Joined (minimal_if STRICT instruction).Encodes bytes.now calls.items) }
    ensures prefix { IfRefused (as_read result) (IsLongestPrefix (EncodesSome (Joined (minimal_if STRICT instruction).Encodes)) bytes.now) }
    ensures within { IfRefused (as_read result) (λ at. at < length bytes.now) }
    ensures place { IfErr result (LiesIn (length bytes.now)) }
{
    let mut cursor = Cursor::new(bytes);
    match read_calls_minimal_if::<STRICT>(alloc, &mut cursor) {
        Ok(calls) => Ok(calls.into_vec()),
        Err(stop) => Err(DecodeError::stopped(stop, bytes.len())),
    }
}

/// Reads instructions up to the end of the cursor's bytes.
pub fn read_calls(alloc: Global, cursor: &mut Cursor<'_>) -> Result<Items<Call>, Fault>
    ensures reads { Reads (to_end instruction).at cursor.old cursor.new result }
    ensures ended { IfOk result (λ _. cursor.new.left ≡ []) }
{
    match read_calls_minimal_if::<false>(alloc, cursor) {
        Ok(calls) => Ok(calls),
        Err(stop) => Err(stop.fault),
    }
}

/// Reads instructions up to the end of the cursor's bytes, minimally encoded if `STRICT` is set.
fn read_calls_minimal_if<const STRICT: bool>(
    alloc: Global,
    cursor: &mut Cursor<'_>,
) -> Result<Items<Call>, Stop>
    requires passed { WasMinimalIf STRICT cursor.old }
    ensures reads { Reads (to_end (minimal_if STRICT instruction)).at cursor.old cursor.new (faulted result) }
    ensures given { IfOk result (λ calls. Joined (minimal_if STRICT instruction).Encodes cursor.old.left calls) }
    ensures ended { IfOk result (λ _. cursor.new.left ≡ []) }
    ensures stops { IfErr result (StopsBehind (minimal_if STRICT instruction) cursor.old.left) }
{
    let mut calls = Vec::new(alloc);
    while cursor.len() > 0 {
        // Each push is in a branch of its own, so that the compiler doesn't join the operands of all kinds before it.
        if let Some(call) = read_next_frequent_call::<STRICT>(cursor) {
            calls.push(call)?;
            continue;
        }
        let call = match read_next_item::<Call, STRICT>(alloc, cursor, Number::Uncounted) {
            Ok(call) => call,
            Err(fault) => return Err(Stop::new(fault, cursor.len(), calls.len())),
        };
        calls.push(call)?;
    }
    Ok(Items::from(calls))
}

/// Reads the next instruction if it is frequent, minimally encoded if `STRICT` is set. Returns `None` and doesn't move
/// if it isn't.
#[inline(always)]
#[tactic(auto, using(crate::proofs::InstructionFormatLaws::instruction_laws))]
pub fn read_next_frequent_call<const STRICT: bool>(cursor: &mut Cursor<'_>) -> Option<Call>
    requires passed { WasMinimalIf STRICT cursor.old }
    ensures reads { IfSome result (λ call. (minimal_if STRICT instruction).at cursor.old ≡ Some (call, cursor.new)) }
    ensures passed { WasMinimalIf STRICT cursor.new }
    ensures stays { IsNone result → cursor.new ≡ cursor.old }
    ensures bytes { IsBytes cursor.old.left }
    ensures lawful { IsLawful (minimal_if STRICT instruction) }
    ensures some { TakesBytes (minimal_if STRICT instruction).Encodes }
{
    let start = cursor.fork();
    if let Some(call) = read_frequent_call(cursor) {
        if !STRICT || cursor.is_minimal() {
            return Some(call);
        }
    }
    *cursor = start;
    None
}

/// Reads an instruction without a prefix, with short operands of a frequent kind. Returns `None` if the next one is
/// rarer: then the position is unspecified.
#[inline(always)]
fn read_frequent_call(cursor: &mut Cursor<'_>) -> Option<Call>
    ensures { IfSome result (λ call. instruction.at cursor.old ≡ Some (call, cursor.new)) }
{
    let op = Opcode::without_prefix(cursor.next_byte()?);
    let operands = match op.kind()? {
        Kind::None => Operands::None,
        Kind::Index => Operands::Index(cursor.short_u32()?),
        Kind::Mem => Operands::Mem(read_short_mem_arg(cursor)?),
        Kind::I32 => Operands::I32(cursor.short_s32()?),
        Kind::Block => Operands::Block(read_empty_block_type(cursor)?),
        _ => return None,
    };
    Some(Call::from_parts(op, operands))
}
