//! Functions and code sections: made, added to, encoded and cloned.

use super::{call, made_again};
use std::process::Abort;
use std::test::Fail;
use wasm_encoder::{
    Call, CodeBody, CodeSection, Encode, EncodeError, Function, Items, Operands, ValType,
};

/// Two `i32`s and one `funcref`.
const LOCALS: [(u32, ValType); 2] = [(2, ValType::I32), (1, ValType::FUNCREF)];

/// The body of these locals, of `br_table [0, 1] 2` and of `end`, after its size.
const BODY: [u8; 12] = [
    0x0b, 0x02, 0x02, 0x7f, 0x01, 0x70, 0x0e, 0x02, 0x00, 0x01, 0x02, 0x0b,
];

/// A body, of which every list is made again where memory was refused.
fn body(rt: &(impl AllocGlobal + Print)) -> Result<CodeBody, Fail> {
    let labels = made_again(rt, || Items::from_slice(rt.alloc(), &[0, 1]))?;
    let locals = made_again(rt, || Items::from_slice(rt.alloc(), &LOCALS))?;
    let mut calls: Vec<Call> = match Vec::with_capacity(rt.alloc(), 2) {
        Err(_) => {
            println!(rt; "refused")?;
            Vec::with_capacity(rt.alloc(), 2)?
        }
        Ok(calls) => calls,
    };
    calls.push(call(0x0e, Operands::BrTable(labels, 2))?)?;
    calls.push(call(0x0b, Operands::None)?)?;
    Ok(CodeBody {
        locals,
        calls: Items::from(calls),
    })
}

/// The bytes of a value, which is encoded again where it was refused.
fn encoded<T: Encode>(rt: &(impl AllocGlobal + Print + Abort), value: &T) -> Result<Vec<u8>, Fail> {
    let mut bytes = Vec::new(rt.alloc());
    if let Err(EncodeError::Memory) = value.encode(&mut bytes) {
        println!(rt; "refused")?;
        assert!(rt; bytes.is_empty());
        value.encode(&mut bytes)?;
    }
    Ok(bytes)
}

/// A function of the locals, made again where memory was refused.
fn function(rt: &(impl AllocGlobal + Print)) -> Result<Function, Fail> {
    made_again(rt, || Function::new(rt.alloc(), LOCALS.iter().copied()))
}

/// A function of the locals with these calls, which are added again where memory was refused.
fn function_of(rt: &(impl AllocGlobal + Print + Abort), calls: &[Call]) -> Result<Function, Fail> {
    let mut function = function(rt)?;
    assert_eq!(rt; function.byte_len(), 5);
    if let Err(EncodeError::Memory) = function.restart(LOCALS.iter().copied()) {
        println!(rt; "refused")?;
        assert_eq!(rt; function.byte_len(), 5);
    }
    if let Err(EncodeError::Memory) = function.calls(calls) {
        println!(rt; "refused")?;
        assert_eq!(rt; function.byte_len(), 5);
        function.calls(calls)?;
    }
    Ok(function)
}

/// A section with this function, which is added again where memory was refused.
fn section_of(
    rt: &(impl AllocGlobal + Print + Abort),
    function: &Function,
) -> Result<CodeSection, Fail> {
    let mut code = CodeSection::new(rt.alloc());
    if let Err(EncodeError::Memory) = code.function(function) {
        println!(rt; "refused")?;
        assert_eq!(rt; code.len(), 0);
        code.function(function)?;
    }
    assert_eq!(rt; code.len(), 1);
    Ok(code)
}

#[test]
fn functions_are_made_and_added(rt: HostRuntime) -> Result<(), Fail> {
    let body = body(&rt)?;
    let function = function_of(&rt, body.calls.as_slice())?;
    let code = section_of(&rt, &function)?;
    let bytes = encoded(&rt, &code)?;
    assert_eq!(rt; bytes.first(), Some(&13));
    assert_eq!(rt; bytes.get(2..), Some(BODY.as_slice()));
    assert_eq!(rt; encoded(&rt, &function)?.as_slice(), BODY.as_slice());
    Ok(())
}

/// The section is as it was made.
fn is_empty(rt: &(impl AllocGlobal + Abort), code: &CodeSection) -> Result<(), Fail> {
    assert!(rt; code.is_empty());
    let mut nothing = Vec::new(rt.alloc());
    code.encode(&mut nothing)?;
    assert_eq!(rt; nothing.as_slice(), [1, 0].as_slice());
    Ok(())
}

#[test]
fn bodies_are_added(rt: HostRuntime) -> Result<(), Fail> {
    let bodies = [body(&rt)?, body(&rt)?];
    let mut code = CodeSection::new(rt.alloc());
    if let Err(EncodeError::Memory) = code.bodies(bodies.as_slice()) {
        println!(rt; "refused")?;
        is_empty(&rt, &code)?;
        code.bodies(bodies.as_slice())?;
    }
    assert_eq!(rt; code.len(), 2);
    let bytes = encoded(&rt, &code)?;
    assert_eq!(rt; bytes.get(2..14), Some(BODY.as_slice()));
    assert_eq!(rt; bytes.get(14..), Some(BODY.as_slice()));
    Ok(())
}

/// The body's clone, which is made again where memory was refused, is the body.
fn is_cloned(rt: &(impl Print + Abort), body: &CodeBody) -> Result<(), Fail> {
    let same = made_again(rt, || body.try_clone())?;
    assert_eq!(rt; same, *body);
    Ok(())
}

#[test]
fn bodies_are_encoded_and_cloned(rt: HostRuntime) -> Result<(), Fail> {
    let body = body(&rt)?;
    let bytes = encoded(&rt, &body)?;
    assert_eq!(rt; bytes.as_slice(), BODY.as_slice());
    is_cloned(&rt, &body)
}

#[test]
fn functions_and_sections_are_cloned(rt: HostRuntime) -> Result<(), Fail> {
    let function = function(&rt)?;
    let same = made_again(&rt, || function.try_clone())?;
    assert_eq!(rt; same.byte_len(), 5);
    let code = section_of(&rt, &same)?;
    let copy = made_again(&rt, || code.try_clone())?;
    assert_eq!(rt; copy.len(), 1);
    assert_eq!(rt; encoded(&rt, &copy)?, encoded(&rt, &code)?);
    Ok(())
}
