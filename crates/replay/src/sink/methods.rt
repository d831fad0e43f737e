//! One method of the sink for each form of operands without a list.

use crate::sink::arguments::Argument;
use std::alloc::Allocator;
use wasm_encoder::{EncodeError, InstructionSink};

/// Returns whether this method is called. The contract of every other method says which call it appends, and
/// `scripts/gate opcodes` compares its opcode with the vectors.
pub(crate) fn is_called(method: &str) -> bool {
    METHODS.contains(&method)
}

const METHODS: [&str; 20] = [
    "nop",
    "local_get",
    "i8x16_extract_lane_s",
    "i32_load",
    "ref_null",
    "block",
    "i32_const",
    "i64_const",
    "f32_const",
    "f64_const",
    "v128_const",
    "i8x16_shuffle",
    "atomic_fence",
    "typed_select",
    "call_indirect",
    "struct_get",
    "v128_load8_lane",
    "global_atomic_get",
    "struct_atomic_get",
    "br_on_cast",
];

/// Calls the method that has these operands. If there is none, nothing is written.
pub(super) fn write<'a, A: Allocator>(
    sink: InstructionSink<'a, A>,
    method: &str,
    arguments: &[Argument],
) -> Result<InstructionSink<'a, A>, EncodeError> {
    match arguments {
        [] => sink.nop(),
        [only] => write_one(sink, *only),
        [first, second] => write_two(sink, method, *first, *second),
        [
            Argument::U32(label),
            Argument::Reference(from),
            Argument::Reference(to),
        ] => { sink.br_on_cast(*label, *from, *to) }
        [
            Argument::Order(order),
            Argument::U32(first),
            Argument::U32(second),
        ] => { sink.struct_atomic_get(*order, *first, *second) }
        _ => Ok(sink),
    }
}

fn write_one<'a, A: Allocator>(
    sink: InstructionSink<'a, A>,
    only: Argument,
) -> Result<InstructionSink<'a, A>, EncodeError> {
    match only {
        Argument::U32(index) => sink.local_get(index),
        Argument::Lane(lane) => sink.i8x16_extract_lane_s(lane),
        Argument::Memory(memarg) => sink.i32_load(memarg),
        Argument::Heap(ty) => sink.ref_null(ty),
        Argument::Block(ty) => sink.block(ty),
        Argument::I32(value) => sink.i32_const(value),
        Argument::I64(value) => sink.i64_const(value),
        Argument::F32(value) => sink.f32_const(value),
        Argument::F64(value) => sink.f64_const(value),
        Argument::I128(value) => sink.v128_const(value),
        Argument::Lanes(lanes) => sink.i8x16_shuffle(lanes),
        Argument::Order(ordering) => sink.atomic_fence(ordering),
        Argument::Value(ty) => sink.typed_select(ty),
        Argument::Reference(_) => Ok(sink),
    }
}

fn write_two<'a, A: Allocator>(
    sink: InstructionSink<'a, A>,
    method: &str,
    first: Argument,
    second: Argument,
) -> Result<InstructionSink<'a, A>, EncodeError> {
    match (first, second) {
        (Argument::U32(first), Argument::U32(second)) if method == "call_indirect" => {
            sink.call_indirect(first, second)
        }
        (Argument::U32(first), Argument::U32(second)) => sink.struct_get(first, second),
        (Argument::Memory(memarg), Argument::Lane(lane)) => sink.v128_load8_lane(memarg, lane),
        (Argument::Order(ordering), Argument::U32(index)) => {
            sink.global_atomic_get(ordering, index)
        }
        _ => Ok(sink),
    }
}
