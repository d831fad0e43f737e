//! Writers of calls (Core 3.0, Instructions).
ghost use Rattle.std.specs.Prelude.{◌≡◌, ◌++◌, ◌+◌, ◌≤◌, List, ℕ, length, take, IsOk, IfErr, OnOk, OnErr, vec_len, vec_capacity};
ghost use Rattle.wasm_codec.specs.Encoding.{IsMinimalOrLonger, IsMinimal, OnlyTooLong};
ghost use Rattle.wasm_instructions.specs.Appending.{IsCallRefusal, IsCallsRefusal, CountedCall};
ghost use Rattle.wasm_instructions.specs.Instructions.{HasNoList, IsCounted, IsShort, ItemsInRange, NumbersInRange, kind_of};
ghost use Rattle.wasm_instructions.specs.formats.Instructions.{call, Instructions, instruction, instructions_bytes, operands_format};
ghost use Rattle.wasm_instructions.specs.Lengths.{HasNoLongList, IsShortEncoding};

use crate::appenders::{Before, append_held, append_opcode, append_type_list};
use crate::encode::{
    put_bits_32, put_bits_64, put_block_type, put_castop, put_lanes, put_mem_arg, put_ordering,
    put_vector,
};
use crate::table::{Call, Opcode, Operands};
use std::alloc::Allocator;
use wasm_codec::encode::leb128::{put_i32, put_i64, put_u32};
use wasm_codec::encode::{EncodeError, keep_or_undo};
use wasm_lists::encode::Encode;
use wasm_types::types::put_heap_type;

/// Appends the minimal encodings of `calls`, all of them or none.
///
/// Fails with `TooLong` if a list in a call has more than 4,294,967,295 items, and with `Memory` if `bytes` can't grow.
#[inline(always)]
pub fn append_calls<A: Allocator>(bytes: &mut Vec<u8, A>, calls: &[Call]) -> Result<(), EncodeError>
    ensures ok { OnOk result (bytes.new.items ≡ bytes.old.items ++ instructions_bytes calls.now) }
    ensures err { OnErr result (bytes.new.items ≡ bytes.old.items) }
    ensures refused { IfErr result (IsCallsRefusal calls.now) }
    ensures encodes { OnOk result (Instructions (instructions_bytes calls.now) calls.now) }
    ensures minimal { (bytes : List ℕ) → Instructions bytes calls.now →
        IsMinimalOrLonger bytes (instructions_bytes calls.now) }
{
    match calls {
        [call] => append_call(bytes, call),
        _ => append_all(bytes, calls),
    }
}

/// Appends the minimal encodings of any number of `calls`, all of them or none.
///
/// Fails as `append_calls` does, which appends a call alone without this loop: the compiler then often knows its kind.
fn append_all<A: Allocator>(bytes: &mut Vec<u8, A>, calls: &[Call]) -> Result<(), EncodeError>
    ensures ok { OnOk result (bytes.new.items ≡ bytes.old.items ++ instructions_bytes calls.now) }
    ensures err { OnErr result (bytes.new.items ≡ bytes.old.items) }
    ensures refused { IfErr result (IsCallsRefusal calls.now) }
    ensures encodes { OnOk result (Instructions (instructions_bytes calls.now) calls.now) }
{
    let start = bytes.len();
    let appended = append_one_by_one(bytes, calls);
    keep_or_undo(bytes, start, appended)
}

/// Appends the minimal encodings of `calls`. On error some of them may remain.
fn append_one_by_one<A: Allocator>(
    bytes: &mut Vec<u8, A>,
    calls: &[Call],
) -> Result<(), EncodeError>
    ensures ok { OnOk result (bytes.new.items ≡ bytes.old.items ++ instructions_bytes calls.now) }
    ensures kept { take (length bytes.old.items) bytes.new.items ≡ bytes.old.items }
    ensures refused { IfErr result (IsCallsRefusal calls.now) }
    ensures encodes { OnOk result (Instructions (instructions_bytes calls.now) calls.now) }
{
    for call in calls {
        append_call(bytes, call)?;
    }
    Ok(())
}

/// Appends the minimal encoding of `call`, or nothing.
///
/// Fails with `TooLong` if a list has more than 4,294,967,295 items, and with `Memory` if `bytes` can't grow.
#[inline(always)]
#[tactic(auto, using(crate::proofs::CallLaws::encoded, crate::proofs::CallLaws::short_encoding))]
pub fn append_call<A: Allocator>(bytes: &mut Vec<u8, A>, call: &Call) -> Result<(), EncodeError>
    ensures ok { OnOk result (bytes.new.items ≡ bytes.old.items ++ instruction.bytes call.now) }
    ensures err { OnErr result (bytes.new.items ≡ bytes.old.items) }
    ensures counted { OnOk result (IsCounted call.now.operands) }
    ensures refused { IfErr result (IsCallRefusal call.now) }
    ensures room { vec_len bytes.old + 24 ≤ vec_capacity bytes.old → HasNoList call.now.operands → IsOk result }
    // The bytes encode the instruction.
    ensures encodes { OnOk result (instruction.Encodes (instruction.bytes call.now) call.now) }
    // An instruction without a list, or with a list of one type, has 1 to 20 bytes.
    ensures length { HasNoLongList call.now.operands → IsShortEncoding (instruction.bytes call.now) }
{
    append_operands(bytes, call.op(), call.operands())
}

/// Appends the instruction `op` with `operands`, or nothing.
#[inline(always)]
#[tactic(auto, unfolding(crate::specs::Appending::before_bytes, crate::specs::Appending::after_bytes, crate::specs::formats::Instructions::instruction, crate::specs::formats::Instructions::operands_format))]
fn append_operands<A: Allocator>(
    bytes: &mut Vec<u8, A>,
    op: Opcode,
    operands: &Operands,
) -> Result<(), EncodeError>
    requires short { IsShort op }
    requires fits { NumbersInRange operands.now }
    ensures ok { OnOk result (bytes.new.items ≡ bytes.old.items ++ instruction.bytes (call op operands.now)) }
    ensures err { OnErr result (bytes.new.items ≡ bytes.old.items) }
    ensures counted { OnOk result (IsCounted operands.now × ItemsInRange operands.now) }
    ensures refused { IfErr result (IsCallRefusal (call op operands.now)) }
    ensures room { vec_len bytes.old + 24 ≤ vec_capacity bytes.old → HasNoList operands.now → IsOk result }
    ensures in_range { HasNoLongList operands.now → ItemsInRange operands.now }
{
    match operands {
        Operands::BrTable(labels, default) => {
            append_held(
                bytes,
                op,
                Before::Nothing,
                labels.as_slice(),
                Some(*default),
            )
        }
        Operands::Types(types) => append_type_list(bytes, op, types.as_slice()),
        Operands::TryTable(ty, clauses) => {
            append_held(bytes, op, Before::Block(*ty), clauses.as_slice(), None)
        }
        Operands::Resume(index, handlers) => {
            append_held(bytes, op, Before::Index(*index), handlers.as_slice(), None)
        }
        Operands::ResumeThrow(index, tag, handlers) => {
            append_held(
                bytes,
                op,
                Before::TwoIndexes(*index, *tag),
                handlers.as_slice(),
                None,
            )
        }
        _ => {
            append_opcode(bytes, op)?;
            put_operands(bytes, operands);
            Ok(())
        }
    }
}

/// Writes operands without a list, up to 18 bytes, into reserved room.
#[inline(always)]
#[tactic(auto, unfolding(crate::specs::formats::Instructions::operands_format))]
fn put_operands<A: Allocator>(bytes: &mut Vec<u8, A>, operands: &Operands)
    requires no_list { HasNoList operands.now }
    requires fits { NumbersInRange operands.now }
    requires room { vec_len bytes.old + 21 ≤ vec_capacity bytes.old }
    ensures items { bytes.new.items ≡ bytes.old.items ++ (operands_format (kind_of operands.now)).bytes operands.now }
{
    match operands {
        Operands::None => {}
        Operands::Block(ty) => put_block_type(bytes, *ty),
        Operands::Index(index) => put_u32(bytes, *index),
        Operands::TwoIndexes(first, second) => {
            put_u32(bytes, *first);
            put_u32(bytes, *second);
        }
        Operands::Mem(arg) => put_mem_arg(bytes, *arg),
        Operands::I32(value) => put_i32(bytes, *value),
        Operands::I64(value) => put_i64(bytes, *value),
        Operands::F32(value) => put_bits_32(bytes, value.bits()),
        Operands::F64(value) => put_bits_64(bytes, value.bits()),
        Operands::Heap(ty) => put_heap_type(bytes, *ty),
        Operands::Cast(label, before, after) => {
            put_castop(bytes, before.nullable, after.nullable);
            put_u32(bytes, *label);
            put_heap_type(bytes, before.heap_type);
            put_heap_type(bytes, after.heap_type);
        }
        Operands::V128(value) => put_vector(bytes, *value),
        Operands::Shuffle(lanes) => put_lanes(bytes, *lanes),
        Operands::Lane(lane) => bytes.push_reserved(*lane),
        Operands::MemLane(arg, lane) => {
            put_mem_arg(bytes, *arg);
            bytes.push_reserved(*lane);
        }
        Operands::Order(ordering) => put_ordering(bytes, *ordering),
        Operands::OrderIndex(ordering, index) => {
            put_ordering(bytes, *ordering);
            put_u32(bytes, *index);
        }
        Operands::OrderTwoIndexes(ordering, first, second) => {
            put_ordering(bytes, *ordering);
            put_u32(bytes, *first);
            put_u32(bytes, *second);
        }
        _ => unreachable!(),
    }
}

/// The opcode and its operands (Core 3.0, Instructions).
///
/// Fails with `TooLong` if a list in the operands has more than 4,294,967,295 items.
#[tactic(auto, using(crate::proofs::CallRanges::call_written))]
impl Encode for Call {
    ghost bytes = { instruction.bytes };

    ghost IsWritten = { IsMinimal instruction.Encodes instruction.bytes };

    ghost CanEncode = { CountedCall };

    ghost refuses = { OnlyTooLong };

    fn encode<A: Allocator>(&self, sink: &mut Vec<u8, A>) -> Result<(), EncodeError> {
        append_call(sink, self)
    }
}
