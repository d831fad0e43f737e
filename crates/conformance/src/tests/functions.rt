//! Functions and code sections.

use super::{is, is_encoded};
use std::alloc::Global;
use std::iter::repeat_n;
use std::test::Fail;
use wasm_encoder::{
    Call, CodeBody, CodeSection, EncodeError, Function, InstructionSink, Items, Section, ValType,
    read_instructions,
};

const NO_LOCALS: [(u32, ValType); 0] = [];

/// Two `i32`s and one `funcref`.
const LOCALS: [(u32, ValType); 2] = [(2, ValType::I32), (1, ValType::FUNCREF)];

/// Appends the sum of two parameters.
fn append_sum(code: &mut Vec<u8>) -> Result<(), EncodeError> {
    InstructionSink::new(code)
        .local_get(0)?
        .local_get(1)?
        .i32_add()?
        .end()?;
    Ok(())
}

/// The section has so many bodies, and these bytes.
fn is_section(alloc: Global, code: &CodeSection, len: u32, hex: &str) -> Result<(), Fail> {
    if code.len() != len || code.is_empty() != (len == 0) {
        return Err(Fail::from(code.len()));
    }
    is_encoded(alloc, code, hex)
}

#[test]
fn a_function_in_a_section(rt: HostRuntime) -> Result<(), Fail> {
    let mut function = Function::new(rt.alloc(), NO_LOCALS.iter().copied())?;
    append_sum(function.bytes_mut())?;
    assert_eq!(rt; function.byte_len(), 7);
    let mut code = CodeSection::new(rt.alloc());
    assert_eq!(rt; code.id(), 10);
    is_section(rt.alloc(), &code, 0, "0100")?;
    code.function(&function)?;
    is_section(rt.alloc(), &code, 1, "09010700200020016A0B")
}

/// A function of the locals and an `end`.
fn function_with_locals(alloc: Global) -> Result<Function, Fail> {
    let mut function = Function::new(alloc, LOCALS.iter().copied())?;
    function.instructions().end()?;
    Ok(function)
}

#[test]
fn a_function_with_locals(rt: HostRuntime) -> Result<(), Fail> {
    let function = function_with_locals(rt.alloc())?;
    is_encoded(rt.alloc(), &function, "0602027F01700B")?;
    let mut code = CodeSection::new(rt.alloc());
    code.function(&function)?;
    is_section(rt.alloc(), &code, 1, "08010602027F01700B")?;
    is_apart(rt.alloc(), code, &function)
}

/// A function that is restarted has its new locals, and nothing of before, whether it gets longer or shorter.
#[test]
fn a_function_restarted(rt: HostRuntime) -> Result<(), Fail> {
    let mut function = Function::new(rt.alloc(), NO_LOCALS.iter().copied())?;
    append_sum(function.bytes_mut())?;
    function.restart(LOCALS)?;
    is_encoded(rt.alloc(), &function, "0502027F0170")?;
    function.instructions().end()?;
    is_encoded(rt.alloc(), &function, "0602027F01700B")?;
    function.restart([])?;
    is_encoded(rt.alloc(), &function, "0100")?;
    append_sum(function.bytes_mut())?;
    is_encoded(rt.alloc(), &function, "0700200020016A0B")
}

/// The function is added to the section, and not to its copy.
fn is_apart(alloc: Global, mut code: CodeSection, function: &Function) -> Result<(), Fail> {
    let copy = code.try_clone()?;
    code.function(&function.try_clone()?)?;
    is_section(alloc, &copy, 1, "08010602027F01700B")?;
    is_section(alloc, &code, 2, "0F020602027F01700B0602027F01700B")
}

/// A body of the locals and a sum of two parameters.
fn body(alloc: Global) -> Result<CodeBody, Fail> {
    let sum: Vec<Call> = read_instructions(alloc, b"\x20\x00\x20\x01\x6a\x0b")?;
    Ok(CodeBody {
        locals: Items::from_slice(alloc, &LOCALS)?,
        calls: Items::from(sum),
    })
}

/// A body is written as the function with its locals and its calls is.
#[test]
fn bodies_are_written_as_functions(rt: HostRuntime) -> Result<(), Fail> {
    let hex = "0B02027F0170200020016A0B";
    let body = body(rt.alloc())?;
    is_encoded(rt.alloc(), &body, hex)?;
    let mut function = Function::new(rt.alloc(), LOCALS.iter().copied())?;
    function.calls(body.calls.as_slice())?;
    is_encoded(rt.alloc(), &function, hex)
}

#[test]
fn a_body_and_its_copy_in_a_section(rt: HostRuntime) -> Result<(), Fail> {
    let body = body(rt.alloc())?;
    let copy = body.try_clone()?;
    assert!(rt; copy == body);
    let bodies = [body, copy];
    let mut code = CodeSection::new(rt.alloc());
    code.bodies(bodies.as_slice())?;
    let hex = "19020B02027F0170200020016A0B0B02027F0170200020016A0B";
    is_section(rt.alloc(), &code, 2, hex)
}

/// A function of locals of these types and an `end` is encoded as these bytes.
fn is_of_types(alloc: Global, types: &[ValType], hex: &str) -> Result<(), Fail> {
    let mut function = Function::new_with_locals_types(alloc, types)?;
    function.instructions().end()?;
    is_encoded(alloc, &function, hex)
}

/// Equal types are a group if no other type is between them.
#[test]
fn locals_by_their_types(rt: HostRuntime) -> Result<(), Fail> {
    let mixed = [ValType::I32, ValType::I32, ValType::F64, ValType::I32];
    let references = [ValType::FUNCREF, ValType::EXTERNREF, ValType::EXTERNREF];
    is_of_types(rt.alloc(), &[], "02000B")?;
    is_of_types(rt.alloc(), &mixed, "0803027F017C017F0B")?;
    is_of_types(rt.alloc(), &references, "06020170026F0B")
}

/// Bytes become a body, or the end of one.
#[test]
fn a_body_from_its_bytes(rt: HostRuntime) -> Result<(), Fail> {
    let mut function = Function::new(rt.alloc(), LOCALS.iter().copied())?;
    function.raw(b"\x0b")?;
    let mut code = CodeSection::new(rt.alloc());
    code.function(&function)?;
    code.raw(b"\x00\x0b")?;
    is_section(rt.alloc(), &code, 2, "0B020602027F01700B02000B")?;
    is(
        rt.alloc(),
        function.into_raw_body().as_slice(),
        "02027F01700B",
    )
}

/// More locals than a u32 counts are refused, by what the iterator says of their number, before one is asked for: were
/// they, the test would run out of time.
#[test]
fn too_many_locals_are_refused(rt: HostRuntime) -> Result<(), Fail> {
    for count in [5_000_000_000, 4_294_967_296] {
        let locals = repeat_n((1, ValType::I32), count);
        let refused = Function::new(rt.alloc(), locals).err();
        assert!(rt; refused == Some(EncodeError::TooLong));
    }
    Ok(())
}
