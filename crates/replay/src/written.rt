//! Values and calls written to lists of bytes, also if requests for memory are refused.

use crate::encoded::encode;
use crate::mismatch::Mismatch;
use crate::sink::write_method;
use rationed::Rationed;
use std::alloc::{Allocator, Global};
use wasm_encoder::{Call, Encode, EncodeError, InstructionSink, RawSection, Section};

/// A value or calls to write to a list.
#[derive(Clone, Copy)]
pub enum Written<'a> {
    /// The call that the sink's method of this name writes, with the operands that the tokens stand for.
    Method(&'a str, &'a str),
    /// A call.
    Call(&'a Call),
    /// Calls.
    Calls(&'a [Call]),
    /// The encoded value of a token.
    Token(&'a str),
    /// A section without its id.
    Body(RawSection<'a>),
    /// A section.
    Section(RawSection<'a>),
}

/// The bytes are written to an empty list, and after another byte, whichever requests for memory are refused before.
pub fn check_written(alloc: Global, written: Written<'_>, bytes: &[u8]) -> Result<(), Mismatch> {
    check_list_to_end(alloc, &mut Vec::new(alloc), written, bytes)?;
    for granted in 0..16 {
        if is_written(alloc, granted, written, bytes)? {
            return if granted > 1 {
                Ok(())
            } else {
                Err(Mismatch::Growth)
            };
        }
    }
    Err(Mismatch::Growth)
}

/// The bytes are written to a list with so much room, where one request for memory is granted: the room, or a growth.
pub fn check_growth(
    alloc: Global,
    room: usize,
    written: Written<'_>,
    bytes: &[u8],
) -> Result<(), Mismatch> {
    let ration = Rationed::new(alloc, 1);
    let mut list = Vec::with_capacity(&ration, room)?;
    check_list_to_end(alloc, &mut list, written, bytes)
}

/// The bytes are written to a list without room, after another byte, where one request for memory is granted.
pub fn check_growth_of_full(
    alloc: Global,
    written: Written<'_>,
    bytes: &[u8],
) -> Result<(), Mismatch> {
    if is_written(alloc, 2, written, bytes)? {
        Ok(())
    } else {
        Err(Mismatch::Memory)
    }
}

/// The bytes are written to this list, which is empty.
pub fn check_list_to_end<A: Allocator>(
    alloc: Global,
    list: &mut Vec<u8, A>,
    written: Written<'_>,
    bytes: &[u8],
) -> Result<(), Mismatch> {
    write(alloc, written, list)?;
    if list.as_slice() == bytes {
        Ok(())
    } else {
        Err(Mismatch::Written)
    }
}

fn write<A: Allocator>(
    alloc: Global,
    written: Written<'_>,
    list: &mut Vec<u8, A>,
) -> Result<(), Mismatch> {
    match written {
        Written::Method(name, operands) => write_method(alloc, list, name, operands),
        Written::Token(token) => encode(alloc, token, list),
        Written::Call(call) => Ok(write_call(call, list)?),
        Written::Calls(calls) => Ok(write_calls(calls, list)?),
        Written::Body(section) => Ok(section.encode(list)?),
        Written::Section(section) => Ok(section.append_to(list)?),
    }
}

fn write_call<A: Allocator>(call: &Call, list: &mut Vec<u8, A>) -> Result<(), EncodeError> {
    InstructionSink::new(list).write_call(call)?;
    Ok(())
}

fn write_calls<A: Allocator>(calls: &[Call], list: &mut Vec<u8, A>) -> Result<(), EncodeError> {
    InstructionSink::new(list).write_calls(calls)?;
    Ok(())
}

/// Whether the bytes are written after another byte where so many requests for memory are granted. If not, the list is
/// as it was.
fn is_written(
    alloc: Global,
    granted: u64,
    written: Written<'_>,
    bytes: &[u8],
) -> Result<bool, Mismatch> {
    let ration = Rationed::new(alloc, granted);
    let mut list = full_list(&ration);
    let before: &[u8] = if list.is_empty() { &[] } else { &[0x2a] };
    let answer = write(alloc, written, &mut list);
    let rest = list.as_slice().strip_prefix(before);
    match answer {
        Ok(()) if rest == Some(bytes) => Ok(true),
        Ok(()) => Err(Mismatch::Written),
        Err(Mismatch::Memory) if rest == Some(&[]) => Ok(false),
        Err(Mismatch::Memory) => Err(Mismatch::Growth),
        Err(mismatch) => Err(mismatch),
    }
}

/// A list of one byte without room for another, or an empty one where that byte is refused.
fn full_list(ration: &Rationed<Global>) -> Vec<u8, &Rationed<Global>> {
    let Ok(mut list) = Vec::with_capacity(ration, 1) else {
        return Vec::new(ration);
    };
    let _ = list.push(0x2a);
    list
}
