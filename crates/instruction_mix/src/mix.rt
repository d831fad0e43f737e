//! The mix, in one chain: the compiler may write each method in line.

use std::alloc::Allocator;
use wasm_encoder::{BlockType, EncodeError, HeapType, Ieee64, InstructionSink, MemArg, ValType};

/// Writes twenty instructions, after room for so many is reserved. Half of them have an operand.
pub fn write_mix<const ROOM: u32, A: Allocator>(
    code: &mut Vec<u8, A>,
    round: u32,
) -> Result<(), EncodeError> {
    let memarg = MemArg {
        offset: u64::from(round % 300),
        align: 2,
        memory_index: 0,
    };
    InstructionSink::new(&mut *code)
        .with_room(ROOM)?
        .block(BlockType::Result(ValType::I32))?
        .local_get(round % 10)?
        .local_get(round % 200)?
        .i32_add()?
        .i32_load(memarg)?
        .i32_const((round % 1000) as i32 - 500)?
        .i32_mul()?
        .local_tee(round % 10)?
        .i32_eqz()?
        .br_if(round % 5)?
        .call(round)?
        .i64_const(i64::from(round) * 1_000_003)?
        .i64_sub()?
        .f64_const(Ieee64::new(4607182418800017408))?
        .f64_mul()?
        .ref_null(HeapType::FUNC)?
        .struct_get(round % 20, round % 7)?
        .i32x4_add()?
        .drop()?
        .end()?;
    Ok(())
}
