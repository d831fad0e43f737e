//! The bytes that chains of the sink's methods and encoded numbers write, and the texts of errors.

use super::{is, is_refused};
use std::test::Fail;
use wasm_encoder::{Encode, EncodeError, InstructionSink};

fn append_without_operands(code: &mut Vec<u8>) -> Result<(), EncodeError> {
    InstructionSink::new(code)
        .unreachable()?
        .nop()?
        .end()?
        .drop()?
        .select()?
        .i32_add()?
        .i32_sub()?;
    Ok(())
}

fn append_with_operands(code: &mut Vec<u8>) -> Result<(), EncodeError> {
    InstructionSink::new(code)
        .br(1)?
        .call(2)?
        .local_get(3)?
        .local_set(4)?
        .local_tee(5)?
        .i32_const(-6)?
        .i64_const(-7)?;
    Ok(())
}

/// One after the other.
#[test]
fn chains(rt: HostRuntime) -> Result<(), Fail> {
    let mut code = Vec::new(rt.alloc());
    append_without_operands(&mut code)?;
    append_with_operands(&mut code)?;
    let hex = "00010B1A1B6A6B0C011002200321042205417A4279";
    is(rt.alloc(), code.as_slice(), hex)
}

#[test]
fn a_number_that_is_too_long(rt: HostRuntime) -> Result<(), Fail> {
    is_refused(rt.alloc(), &4294967296usize, &EncodeError::TooLong)?;
    let mut bytes = vec![in rt.alloc(); 0x2a]?;
    4294967295usize.encode(&mut bytes)?;
    is(rt.alloc(), bytes.as_slice(), "2AFFFFFFFF0F")
}

/// One after the other.
#[test]
fn signed_numbers(rt: HostRuntime) -> Result<(), Fail> {
    let mut bytes = Vec::new(rt.alloc());
    (-123456i32).encode(&mut bytes)?;
    (-50368841737919696i64).encode(&mut bytes)?;
    is(rt.alloc(), bytes.as_slice(), "C0BB78B0C6DAC3E2B9C3A67F")
}

#[test]
fn error_texts(rt: HostRuntime) -> Result<(), Fail> {
    for (error, text) in [
        (EncodeError::Memory, "no memory"),
        (EncodeError::TooLong, "too long"),
        (EncodeError::Alignment, "alignment out of range"),
        (EncodeError::SymbolFlags, "symbol doesn't fit its flags"),
    ] {
        if error.to_string(rt.alloc())?.as_str() != text {
            return Err(Fail::from(text));
        }
    }
    Ok(())
}
