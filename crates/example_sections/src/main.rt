//! Adds a section type of its own to a module, and reads it back.
//!
//! `exports` implements `Encode` for `FunctionExport`: its ghosts say which bytes a value has, which values have any,
//! and which error the others get. It implements `Section` for `ExportSection`, so `Module::section` accepts it. The
//! contract in `module` gives all bytes of the module, and the program prints them.
//!
//! `read` implements `Readable` for `ReadExport`: its format says which bytes encode which export. It implements `Decode`
//! for `ExportSection`, so the five calls accept the section's body. The program prints the exports, and what each call
//! makes of a body with padded numbers.
#![tactic(auto)]

mod exports;
mod module;
mod read;

use crate::exports::{ExportSection, FunctionExport};
use crate::read::ReadExport;
use anyhow::Result;
use std::io;
use wasm_encoder::reader::DecodeError;
use wasm_encoder::{
    CodeSection, Function, FunctionSection, SectionId, TypeSection, check, first_body, normalise,
    read, read_module, read_strict, rewrite,
};

/// A body with a minimal count. The length and the index of its first export are padded.
const PADDED: [u8; 17] = *b"\x02\x83\x80\x00run\x00\x80\x00\x04main\x00\x00";

fn main(rt: HostRuntime) -> Result<()> {
    let mut types = TypeSection::new(rt.alloc());
    types.ty().function([], [])?;
    let mut functions = FunctionSection::new(rt.alloc());
    functions.function(0)?;
    let mut function = Function::new(rt.alloc(), [])?;
    function.instructions().end()?;
    let mut code = CodeSection::new(rt.alloc());
    code.function(&function)?;
    let names = [
        FunctionExport {
            name: "run",
            function: 0,
        },
        FunctionExport {
            name: "main",
            function: 0,
        },
    ];
    let exports = ExportSection {
        exports: &names,
        alloc: rt.alloc(),
    };
    let module = module::module_of(rt.alloc(), &types, &functions, &exports, &code)?;
    print_hex(&rt, module.as_slice())?;
    let sections = read_module(rt.alloc(), module.as_slice())?;
    if let Some(body) = first_body(&sections, SectionId::Export.into()) {
        check::<ExportSection<'_>>(rt.alloc(), body)?;
        for export in &read_strict::<ExportSection<'_>>(rt.alloc(), body)? {
            print_export(&rt, export)?;
        }
    }
    print_calls(&rt)
}

/// Prints what the five calls make of the padded body.
fn print_calls(rt: &(impl Print + AllocGlobal)) -> Result<()> {
    for export in &read::<ExportSection<'_>>(rt.alloc(), &PADDED)? {
        print_export(rt, export)?;
    }
    print_refusal(
        rt,
        "read_strict",
        read_strict::<ExportSection<'_>>(rt.alloc(), &PADDED).err(),
    )?;
    print_refusal(
        rt,
        "check",
        check::<ExportSection<'_>>(rt.alloc(), &PADDED).err(),
    )?;
    print_hex(
        rt,
        normalise::<ExportSection<'_>>(rt.alloc(), &PADDED)?.as_slice(),
    )?;
    let bytes = Vec::from_slice(rt.alloc(), &PADDED)?;
    print_hex(rt, rewrite::<ExportSection<'_>>(bytes)?.as_slice())?;
    Ok(())
}

/// Prints a line if a call refused its bytes.
fn print_refusal(rt: &impl Print, call: &str, error: Option<DecodeError>) -> io::Result<()> {
    match error {
        Some(error) => println!(rt; "{call}: {error}"),
        None => Ok(()),
    }
}

/// Prints a line for an export.
fn print_export(rt: &impl Print, export: &ReadExport) -> io::Result<()> {
    for byte in export.name {
        print!(rt; "{}", char::from(*byte))?;
    }
    println!(rt; " is function {}", export.function)
}

/// Prints a line of bytes.
fn print_hex(rt: &impl Print, bytes: &[u8]) -> io::Result<()> {
    for byte in bytes {
        print!(rt; " {byte:02x}")?;
    }
    println!(rt;)
}
