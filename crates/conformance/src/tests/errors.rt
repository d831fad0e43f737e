//! The one error of all calls.

use std::alloc::{AllocError, Global};
use std::io;
use std::test::Fail;
use wasm_encoder::sections::ModuleError;
use wasm_encoder::{
    DecodeError, EncodeError, Error, InstructionSink, Module, ModuleWriter, NameError, NameSection,
    ReadError, StartSection, WholeModule, WriteError, check_order, read, read_whole_module,
};

/// A start section with an unknown section after it.
const MALFORMED: [u8; 13] = *b"\0asm\x01\0\0\0\x08\x01\x05\x0e\x00";

/// Calls of each kind, whose errors `?` converts.
fn all_calls(alloc: Global, module: &[u8], value: i32) -> Result<Vec<u8>, Error> {
    let sections = read_whole_module(alloc, module)?;
    check_order(&sections)?;
    read::<WholeModule>(alloc, module)?;
    let mut code = Vec::new(alloc);
    InstructionSink::new(&mut code).i32_const(value)?;
    code.push(0x0b)?;
    let mut names = NameSection::new(alloc);
    names.module("m")?;
    let mut writer = ModuleWriter::new(alloc, Vec::new(alloc))?;
    writer.section(&names)?;
    writer.finish()?;
    Ok(code)
}

#[test]
fn one_error_for_all_calls(rt: HostRuntime) -> Result<(), Fail> {
    let code = all_calls(rt.alloc(), &Module::HEADER, 1)?;
    assert_eq!(rt; code.as_slice(), b"\x41\x01\x0b".as_slice());
    let refused = all_calls(rt.alloc(), &MALFORMED, 1).err();
    assert!(rt; matches!(refused, Some(Error::Read(ReadError::Refused { at: 11 }))));
    Ok(())
}

#[test]
fn each_error_is_converted(rt: HostRuntime) -> Result<(), Fail> {
    assert!(rt;
        matches!(
            Error::from(EncodeError::TooLong),
            Error::Encode(EncodeError::TooLong)
        )
    );
    assert!(rt; matches!(Error::from(AllocError), Error::Encode(EncodeError::Memory)));
    assert!(rt;
        matches!(
            Error::from(ReadError::Memory),
            Error::Read(ReadError::Memory)
        )
    );
    assert!(rt;
        matches!(
            Error::from(DecodeError::Memory),
            Error::Decode(DecodeError::Memory)
        )
    );
    let order = Error::from(ModuleError::OutOfOrder { index: 7 });
    assert!(rt; matches!(order, Error::Module(ModuleError::OutOfOrder { index: 7 })));
    assert!(rt;
        matches!(
            Error::from(NameError::OutOfOrder),
            Error::Name(NameError::OutOfOrder)
        )
    );
    let write = Error::from(WriteError::Encode(EncodeError::TooLong));
    assert!(rt;
        matches!(
            write,
            Error::Write(WriteError::Encode(EncodeError::TooLong))
        )
    );
    let io = Error::from(io::Error::from(io::ErrorKind::WriteZero));
    assert!(rt; matches!(io, Error::Io(_)));
    Ok(())
}

/// The error says this, and has this offset.
fn says(alloc: Global, error: &Error, at: Option<usize>, text: &str) -> Result<(), Fail> {
    if error.at() == at && error.to_string(alloc)?.as_str() == text {
        Ok(())
    } else {
        Err(Fail::from(text))
    }
}

#[test]
fn errors_say_what_those_say_that_they_hold(rt: HostRuntime) -> Result<(), Fail> {
    let alloc = rt.alloc();
    says(alloc, &EncodeError::TooLong.into(), None, "too long")?;
    says(alloc, &AllocError.into(), None, "no memory")?;
    says(alloc, &ReadError::Memory.into(), None, "no memory")?;
    says(
        alloc,
        &ReadError::Refused { at: 9 }.into(),
        Some(9),
        "refused at 9",
    )?;
    says(alloc, &DecodeError::Memory.into(), None, "no memory")?;
    let order = ModuleError::OutOfOrder { index: 7 };
    says(alloc, &order.into(), None, "section 7 is out of order")?;
    says(
        alloc,
        &NameError::OutOfOrder.into(),
        None,
        "names out of order",
    )?;
    says(
        alloc,
        &WriteError::Encode(EncodeError::TooLong).into(),
        None,
        "too long",
    )?;
    let Err(error) = read::<WholeModule>(alloc, &MALFORMED) else {
        return Err(Fail::from("read"));
    };
    says(
        alloc,
        &error.into(),
        Some(11),
        "section 1, offset 0xb: unknown section id 14",
    )
}
