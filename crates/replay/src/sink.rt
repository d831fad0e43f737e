//! Vectors of one call of the sink: the method, the tokens of its operands, and the bytes that it writes.

pub mod arguments;
mod lists;
mod methods;

use crate::columns::columns;
use crate::mismatch::Mismatch;
use crate::sink::arguments::{Argument, arguments};
use crate::sink::methods::is_called;
use crate::written::{Written, check_growth, check_written};
use std::alloc::{Allocator, Global};
use wasm_encoder::{
    Call, InstructionSink, Items, Opcode, Operands, Prefix, V128, normalise_instructions,
    read_instructions,
};

/// Holds the sink, the reader and the normaliser to the vector of a line.
pub fn check(alloc: Global, line: &str) -> Result<(), Mismatch> {
    let (method, operands, hex) = columns(line)?;
    let expected = hex::decode(alloc, hex)?;
    let expected = expected.as_slice();
    let has_list = operands.contains("list:");
    let room = if has_list { 0 } else { 24 };
    if has_list || is_called(method) {
        check_method(alloc, room, Written::Method(method, operands), expected)?;
    }
    let calls = [call_of(alloc, method, operands, expected)?];
    check_calls(alloc, room, &calls, expected)?;
    check_readers(alloc, &calls, expected)
}

/// The method writes the bytes.
fn check_method(
    alloc: Global,
    room: usize,
    method: Written<'_>,
    expected: &[u8],
) -> Result<(), Mismatch> {
    check_written(alloc, method, expected)?;
    check_growth(alloc, 0, method, expected)?;
    check_growth(alloc, room, method, expected)
}

/// Calls the method of this name, with the operands that the tokens stand for.
pub fn write_method<A: Allocator>(
    alloc: Global,
    list: &mut Vec<u8, A>,
    method: &str,
    operands: &str,
) -> Result<(), Mismatch> {
    write(alloc, InstructionSink::new(list), method, operands)?;
    Ok(())
}

fn write<'a, A: Allocator>(
    alloc: Global,
    sink: InstructionSink<'a, A>,
    method: &str,
    operands: &str,
) -> Result<InstructionSink<'a, A>, Mismatch> {
    let written = match lists::parse_listed(alloc, method, operands)? {
        Some(listed) => lists::write(sink, method, &listed),
        None => methods::write(sink, method, arguments(alloc, operands)?.as_slice()),
    };
    Ok(written?)
}

/// The call of the method.
fn call_of(alloc: Global, method: &str, operands: &str, bytes: &[u8]) -> Result<Call, Mismatch> {
    let opcode = opcode(bytes)?;
    let operands = operands_of(alloc, method, operands)?;
    let same = operands.try_clone()?;
    let call = Call::new(opcode, operands).ok();
    let call = call.ok_or(Mismatch::NotUnderstood)?;
    if call.op() == opcode && *call.operands() == same && call.try_clone()? == call {
        Ok(call)
    } else {
        Err(Mismatch::Made)
    }
}

/// The operands of the call, in written order.
fn operands_of(alloc: Global, method: &str, operands: &str) -> Result<Operands, Mismatch> {
    if let Some(listed) = lists::parse_listed(alloc, method, operands)? {
        return Ok(lists::operands(listed)?);
    }
    let arguments = arguments(alloc, operands)?;
    match arguments.as_slice() {
        [] => Ok(Operands::None),
        [only] => one_operand(alloc, *only),
        [first, second] => two_operands(method, *first, *second),
        [
            Argument::U32(label),
            Argument::Reference(from),
            Argument::Reference(to),
        ] => { Ok(Operands::Cast(*label, *from, *to)) }
        [
            Argument::Order(order),
            Argument::U32(first),
            Argument::U32(second),
        ] => { Ok(Operands::OrderTwoIndexes(*order, *first, *second)) }
        _ => Err(Mismatch::NotUnderstood),
    }
}

fn one_operand(alloc: Global, only: Argument) -> Result<Operands, Mismatch> {
    Ok(match only {
        Argument::U32(index) => Operands::Index(index),
        Argument::I32(value) => Operands::I32(value),
        Argument::I64(value) => Operands::I64(value),
        Argument::I128(value) => Operands::V128(V128::new(value)),
        Argument::F32(value) => Operands::F32(value),
        Argument::F64(value) => Operands::F64(value),
        Argument::Lane(lane) => Operands::Lane(lane),
        Argument::Lanes(lanes) => Operands::Shuffle(lanes),
        Argument::Memory(memarg) => Operands::Mem(memarg),
        Argument::Order(ordering) => Operands::Order(ordering),
        Argument::Heap(ty) => Operands::Heap(ty),
        Argument::Value(ty) => Operands::Types(Items::from_slice(alloc, &[ty])?),
        Argument::Block(ty) => Operands::Block(ty),
        Argument::Reference(_) => return Err(Mismatch::NotUnderstood),
    })
}

/// Returns two operands. Four methods write the second parameter first.
fn two_operands(method: &str, first: Argument, second: Argument) -> Result<Operands, Mismatch> {
    Ok(match (first, second) {
        (Argument::U32(first), Argument::U32(second)) => match method {
            "call_indirect" | "return_call_indirect" | "memory_init" | "table_init" => {
                Operands::TwoIndexes(second, first)
            }
            _ => Operands::TwoIndexes(first, second),
        },
        (Argument::Memory(memarg), Argument::Lane(lane)) => Operands::MemLane(memarg, lane),
        (Argument::Order(ordering), Argument::U32(index)) => {
            Operands::OrderIndex(ordering, index)
        }
        _ => return Err(Mismatch::NotUnderstood),
    })
}

/// The opcode that the bytes begin with. After a prefix byte its number has one byte or two.
fn opcode(bytes: &[u8]) -> Result<Opcode, Mismatch> {
    let (prefix, number) = match bytes {
        [0xfb, rest @ ..] => (Prefix::Fb, number(rest)?),
        [0xfc, rest @ ..] => (Prefix::Fc, number(rest)?),
        [0xfd, rest @ ..] => (Prefix::Fd, number(rest)?),
        [0xfe, rest @ ..] => (Prefix::Fe, number(rest)?),
        [byte, ..] => (Prefix::None, u32::from(*byte)),
        [] => return Err(Mismatch::NotUnderstood),
    };
    Ok(Opcode { prefix, number })
}

fn number(bytes: &[u8]) -> Result<u32, Mismatch> {
    match bytes {
        [low, ..] if *low < 128 => Ok(u32::from(*low)),
        [low, high, ..] => Ok(u32::from(*low % 128) + 128 * u32::from(*high)),
        _ => Err(Mismatch::NotUnderstood),
    }
}

/// `write_call` and `write_calls` write the bytes.
fn check_calls(
    alloc: Global,
    room: usize,
    calls: &[Call; 1],
    expected: &[u8],
) -> Result<(), Mismatch> {
    let [call] = calls;
    if Some(call.operands().kind()) != call.op().kind() {
        return Err(Mismatch::Made);
    }
    check_written(alloc, Written::Calls(calls), expected)?;
    check_written(alloc, Written::Call(call), expected)?;
    check_growth(alloc, 0, Written::Call(call), expected)?;
    check_growth(alloc, room, Written::Call(call), expected)
}

/// The bytes are read as these calls, and are their own normal form.
fn check_readers(alloc: Global, calls: &[Call], bytes: &[u8]) -> Result<(), Mismatch> {
    if read_instructions(alloc, bytes)?.as_slice() != calls {
        return Err(Mismatch::Read);
    }
    if normalise_instructions(alloc, bytes)?.as_slice() == bytes {
        Ok(())
    } else {
        Err(Mismatch::Normalised)
    }
}
