//! The same mix, of which each call is a function of its own that isn't written in line, as where a compiler's back end
//! writes one instruction here and one there.

use std::alloc::Allocator;
use wasm_encoder::{BlockType, EncodeError, HeapType, Ieee64, InstructionSink, MemArg, ValType};

/// The instructions of [`super::mix::write_mix`].
pub fn write_mix_apart<A: Allocator>(code: &mut Vec<u8, A>, round: u32) -> Result<(), EncodeError> {
    let memarg = MemArg {
        offset: u64::from(round % 300),
        align: 2,
        memory_index: 0,
    };
    block(code, BlockType::Result(ValType::I32))?;
    local_get(code, round % 10)?;
    local_get(code, round % 200)?;
    i32_add(code)?;
    i32_load(code, memarg)?;
    i32_const(code, (round % 1000) as i32 - 500)?;
    i32_mul(code)?;
    local_tee(code, round % 10)?;
    i32_eqz(code)?;
    br_if(code, round % 5)?;
    call(code, round)?;
    i64_const(code, i64::from(round) * 1_000_003)?;
    i64_sub(code)?;
    f64_const(code, Ieee64::new(4607182418800017408))?;
    f64_mul(code)?;
    ref_null(code, HeapType::FUNC)?;
    struct_get(code, round % 20, round % 7)?;
    i32x4_add(code)?;
    drop(code)?;
    end(code)
}

#[inline(never)]
fn block<A: Allocator>(code: &mut Vec<u8, A>, ty: BlockType) -> Result<(), EncodeError> {
    InstructionSink::new(&mut *code).block(ty)?;
    Ok(())
}

#[inline(never)]
fn local_get<A: Allocator>(code: &mut Vec<u8, A>, index: u32) -> Result<(), EncodeError> {
    InstructionSink::new(&mut *code).local_get(index)?;
    Ok(())
}

#[inline(never)]
fn i32_add<A: Allocator>(code: &mut Vec<u8, A>) -> Result<(), EncodeError> {
    InstructionSink::new(&mut *code).i32_add()?;
    Ok(())
}

#[inline(never)]
fn i32_load<A: Allocator>(code: &mut Vec<u8, A>, memarg: MemArg) -> Result<(), EncodeError> {
    InstructionSink::new(&mut *code).i32_load(memarg)?;
    Ok(())
}

#[inline(never)]
fn i32_const<A: Allocator>(code: &mut Vec<u8, A>, value: i32) -> Result<(), EncodeError> {
    InstructionSink::new(&mut *code).i32_const(value)?;
    Ok(())
}

#[inline(never)]
fn i32_mul<A: Allocator>(code: &mut Vec<u8, A>) -> Result<(), EncodeError> {
    InstructionSink::new(&mut *code).i32_mul()?;
    Ok(())
}

#[inline(never)]
fn local_tee<A: Allocator>(code: &mut Vec<u8, A>, index: u32) -> Result<(), EncodeError> {
    InstructionSink::new(&mut *code).local_tee(index)?;
    Ok(())
}

#[inline(never)]
fn i32_eqz<A: Allocator>(code: &mut Vec<u8, A>) -> Result<(), EncodeError> {
    InstructionSink::new(&mut *code).i32_eqz()?;
    Ok(())
}

#[inline(never)]
fn br_if<A: Allocator>(code: &mut Vec<u8, A>, label: u32) -> Result<(), EncodeError> {
    InstructionSink::new(&mut *code).br_if(label)?;
    Ok(())
}

#[inline(never)]
fn call<A: Allocator>(code: &mut Vec<u8, A>, index: u32) -> Result<(), EncodeError> {
    InstructionSink::new(&mut *code).call(index)?;
    Ok(())
}

#[inline(never)]
fn i64_const<A: Allocator>(code: &mut Vec<u8, A>, value: i64) -> Result<(), EncodeError> {
    InstructionSink::new(&mut *code).i64_const(value)?;
    Ok(())
}

#[inline(never)]
fn i64_sub<A: Allocator>(code: &mut Vec<u8, A>) -> Result<(), EncodeError> {
    InstructionSink::new(&mut *code).i64_sub()?;
    Ok(())
}

#[inline(never)]
fn f64_const<A: Allocator>(code: &mut Vec<u8, A>, value: Ieee64) -> Result<(), EncodeError> {
    InstructionSink::new(&mut *code).f64_const(value)?;
    Ok(())
}

#[inline(never)]
fn f64_mul<A: Allocator>(code: &mut Vec<u8, A>) -> Result<(), EncodeError> {
    InstructionSink::new(&mut *code).f64_mul()?;
    Ok(())
}

#[inline(never)]
fn ref_null<A: Allocator>(code: &mut Vec<u8, A>, ty: HeapType) -> Result<(), EncodeError> {
    InstructionSink::new(&mut *code).ref_null(ty)?;
    Ok(())
}

#[inline(never)]
fn struct_get<A: Allocator>(code: &mut Vec<u8, A>, ty: u32, field: u32) -> Result<(), EncodeError> {
    InstructionSink::new(&mut *code).struct_get(ty, field)?;
    Ok(())
}

#[inline(never)]
fn i32x4_add<A: Allocator>(code: &mut Vec<u8, A>) -> Result<(), EncodeError> {
    InstructionSink::new(&mut *code).i32x4_add()?;
    Ok(())
}

#[inline(never)]
fn drop<A: Allocator>(code: &mut Vec<u8, A>) -> Result<(), EncodeError> {
    InstructionSink::new(&mut *code).drop()?;
    Ok(())
}

#[inline(never)]
fn end<A: Allocator>(code: &mut Vec<u8, A>) -> Result<(), EncodeError> {
    InstructionSink::new(&mut *code).end()?;
    Ok(())
}
