//! The items that are read, one by one or by their number, and the texts of errors.

use super::{calls_of, plain};
use std::alloc::Global;
use std::test::Fail;
use wasm_encoder::{
    Call, CodeBody, Operands, ReadError, ValType, read_code_section, read_instructions,
};

/// The bytes are read as these calls.
fn is_read_as(alloc: Global, hex: &str, calls: &[Call]) -> Result<(), Fail> {
    let code = hex::decode(alloc, hex)?;
    if read_instructions(alloc, code.as_slice())?.as_slice() == calls {
        Ok(())
    } else {
        Err(Fail::from(hex))
    }
}

#[test]
fn calls_are_read(rt: HostRuntime) -> Result<(), Fail> {
    let rows = [(0x20, Some(0)), (0x20, Some(1)), (0x6a, None), (0x0b, None)];
    let sum = calls_of(rt.alloc(), &rows)?;
    is_read_as(rt.alloc(), "200020016A0B", sum.as_slice())
}

#[test]
fn a_constant_is_read(rt: HostRuntime) -> Result<(), Fail> {
    let constant = [Call::new(plain(0x41), Operands::I32(2147483647))?];
    is_read_as(rt.alloc(), "41FFFFFFFF07", &constant)
}

const LOCALS: &[(u32, ValType)] = &[(128, ValType::I32), (1, ValType::FUNCREF)];

/// The body has these locals and calls.
fn is_body(
    alloc: Global,
    body: &CodeBody,
    locals: &[(u32, ValType)],
    rows: &[(u32, Option<u32>)],
) -> Result<(), Fail> {
    let calls = calls_of(alloc, rows)?;
    if body.locals.as_slice() == locals && body.calls.as_slice() == calls.as_slice() {
        Ok(())
    } else {
        Err(Fail::from("another body"))
    }
}

#[test]
fn bodies_are_read(rt: HostRuntime) -> Result<(), Fail> {
    let section = hex::decode(rt.alloc(), "02070280017F01700B06002080000B0B")?;
    let read = read_code_section(rt.alloc(), section.as_slice())?;
    let [first, second] = read.as_slice() else {
        return Err(Fail::from("not two bodies"));
    };
    is_body(rt.alloc(), first, LOCALS, &[(0x0b, None)])?;
    let calls = [(0x20, Some(0)), (0x0b, None), (0x0b, None)];
    is_body(rt.alloc(), second, &[], &calls)
}

/// A head, so many times the same bytes, and a tail.
fn repeated(
    alloc: Global,
    head: &[u8],
    item: &[u8],
    times: u32,
    tail: &[u8],
) -> Result<Vec<u8>, Fail> {
    let mut bytes = head.to_vec(alloc)?;
    for _ in 0..times {
        bytes.extend_from_slice(item)?;
    }
    bytes.extend_from_slice(tail)?;
    Ok(bytes)
}

#[test]
fn many_calls(rt: HostRuntime) -> Result<(), Fail> {
    let code = repeated(rt.alloc(), &[], &[0x0b], 100_000, &[])?;
    let calls = read_instructions(rt.alloc(), code.as_slice())?;
    assert!(rt; calls.len() == 100_000);
    Ok(())
}

#[test]
fn many_functions(rt: HostRuntime) -> Result<(), Fail> {
    let body = [0x02, 0x00, 0x0b];
    let section = repeated(rt.alloc(), &[0xa0, 0x8d, 0x06], &body, 100_000, &[])?;
    let bodies = read_code_section(rt.alloc(), section.as_slice())?;
    assert!(rt; bodies.len() == 100_000);
    Ok(())
}

/// The only body of the section has so many groups of locals.
fn has_groups(alloc: Global, section: &[u8], count: usize) -> Result<(), Fail> {
    let bodies = read_code_section(alloc, section)?;
    match bodies.as_slice() {
        [body] if body.locals.len() == count => Ok(()),
        _ => Err(Fail::from("other locals")),
    }
}

/// One function with groups of one local each. The count of the groups takes a byte more than it needs to, and so the
/// size.
#[test]
fn many_groups_of_locals(rt: HostRuntime) -> Result<(), Fail> {
    let head = [0x01, 0x94, 0xce, 0x00, 0x88, 0xa7, 0x00];
    let section = repeated(rt.alloc(), &head, &[0x01, 0x7f], 5000, &[0x0b])?;
    has_groups(rt.alloc(), section.as_slice(), 5000)
}

/// The error says this.
fn says(alloc: Global, error: &ReadError, text: &str) -> Result<(), Fail> {
    if error.to_string(alloc)?.as_str() == text {
        Ok(())
    } else {
        Err(Fail::from(text))
    }
}

#[test]
fn error_texts(rt: HostRuntime) -> Result<(), Fail> {
    says(rt.alloc(), &ReadError::Memory, "no memory")?;
    says(rt.alloc(), &ReadError::Refused { at: 7 }, "refused at 7")
}
