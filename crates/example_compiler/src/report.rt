//! Prints a module: its bytes and its sections.

use anyhow::Result;
use std::io;
use wasm_encoder::{
    Call, CodeBody, CompositeInnerType, Operands, RawSection, SectionId, TypeEntry, opcode_name,
    read_code_section, read_module, read_type_section,
};

/// Prints the bytes of a module, then its sections.
pub fn print(rt: &(impl Print + AllocGlobal), module: &[u8]) -> Result<()> {
    println!(rt; "module of {} bytes:", module.len())?;
    for line in module.chunks(16) {
        print_hex(rt, line)?;
    }
    for section in read_module(rt.alloc(), module)? {
        print_section(rt, &section)?;
    }
    Ok(())
}

/// Prints a section: its types, its functions or its bytes.
fn print_section(rt: &(impl Print + AllocGlobal), section: &RawSection) -> Result<()> {
    println!(rt; "section {}, {} bytes:", section.id, section.body.len())?;
    if section.id == u8::from(SectionId::Types) {
        print_types(rt, section.body)
    } else if section.id == u8::from(SectionId::Code) {
        print_code(rt, section.body)
    } else {
        Ok(print_hex(rt, section.body)?)
    }
}

/// Prints the entries of a type section.
fn print_types(rt: &(impl Print + AllocGlobal), body: &[u8]) -> Result<()> {
    for entry in read_type_section(rt.alloc(), body)? {
        print_type(rt, &entry)?;
    }
    Ok(())
}

/// Prints the functions of a code section.
fn print_code(rt: &(impl Print + AllocGlobal), body: &[u8]) -> Result<()> {
    for function in read_code_section(rt.alloc(), body)? {
        print_body(rt, &function)?;
    }
    Ok(())
}

/// Prints a type if it is a function type.
fn print_type(rt: &impl Print, entry: &TypeEntry) -> io::Result<()> {
    if let TypeEntry::Sub(ty) = entry
        && let CompositeInnerType::Func(function) = &ty.composite_type.inner
    {
        println!(rt;
            "  function: {:?} to {:?}",
            function.params(),
            function.results()
        )?;
    }
    Ok(())
}

/// Prints the locals and instructions of a function.
fn print_body(rt: &impl Print, body: &CodeBody) -> io::Result<()> {
    println!(rt; "  locals: {:?}", body.locals)?;
    for call in body.calls.as_slice() {
        print_call(rt, call)?;
    }
    Ok(())
}

/// Prints the name and the operands of an instruction.
fn print_call(rt: &impl Print, call: &Call) -> io::Result<()> {
    let name = opcode_name(call.op()).unwrap_or("?");
    match call.operands() {
        Operands::None => println!(rt; "  {name}"),
        operands => println!(rt; "  {name} {operands:?}"),
    }
}

/// Prints a line of bytes.
fn print_hex(rt: &impl Print, bytes: &[u8]) -> io::Result<()> {
    for byte in bytes {
        print!(rt; " {byte:02x}")?;
    }
    println!(rt;)
}
