//! Measures the library. `scripts/bench` compares it with programs in plain Rust.
//!
//! The first argument is a number, 1 if there is none, and the second says what to do that often:
//!
//! - `read_instructions`, `walk_instructions`, `read_module`, `read_types` and `read_imports` read standard input, and print the number of
//!   values. For 0 they print the values.
//! - `build_functions`, `build_raw_functions`, `build_types`, `build_imports`, `build_globals`, `build_exports`,
//!   `build_elements`, `build_data` and `build_custom` build a module of so many items, and write it.
//! - `write_functions` builds the section of `build_functions`, and writes the module with `ModuleWriter`.
//! - `canonicalise` rewrites the module that is standard input, once, and writes it.
//! - `size_of_call`, which it is if there is no second argument, prints the size of a `Call` in bytes.
#![tactic(auto)]

mod builders;
mod mix;
mod readers;

use crate::builders::{Part, build, write_functions};
use crate::readers::{Form, canonical, print_values, read_times};
use std::io::{Read, Write};
use std::process::ExitCode;
use std::{env, io};
use wasm_encoder::{Call, WriteError};

/// The work that is measured.
#[derive(Clone, Copy)]
enum Work {
    Read(Form),
    Build(Part),
    WriteFunctions,
    Canonicalise,
    SizeOfCall,
}

/// Returns what a word asks for.
fn work_of(word: &str) -> Option<Work> {
    Some(match word {
        "read_instructions" => Work::Read(Form::Instructions),
        "walk_instructions" => Work::Read(Form::EachInstruction),
        "read_module" => Work::Read(Form::Module),
        "read_types" => Work::Read(Form::Types),
        "read_imports" => Work::Read(Form::Imports),
        "write_functions" => Work::WriteFunctions,
        "canonicalise" => Work::Canonicalise,
        "size_of_call" => Work::SizeOfCall,
        _ => Work::Build(part_of(word)?),
    })
}

/// Returns what a word asks to build.
fn part_of(word: &str) -> Option<Part> {
    Some(match word {
        "build_functions" => Part::Functions,
        "build_raw_functions" => Part::RawFunctions,
        "build_types" => Part::Types,
        "build_imports" => Part::Imports,
        "build_globals" => Part::Globals,
        "build_exports" => Part::Exports,
        "build_elements" => Part::Elements,
        "build_data" => Part::Data,
        "build_custom" => Part::Custom,
        _ => return None,
    })
}

/// Returns the number and the work that the arguments ask for. `None` means that they are invalid.
fn asked(rt: &HostRuntime) -> io::Result<Option<(u32, Work)>> {
    let mut words = env::args(rt)?;
    words.next();
    let number = match words.next() {
        None => 1,
        Some(word) => match word.as_str().parse() {
            Ok(number) => number,
            Err(_) => return Ok(None),
        },
    };
    Ok(match words.next() {
        None => Some((number, Work::SizeOfCall)),
        Some(word) => work_of(word.as_str()).map(|work| (number, work)),
    })
}

/// Returns all bytes of standard input.
fn input(rt: &HostRuntime) -> io::Result<Vec<u8>> {
    let mut bytes = Vec::new(rt.alloc());
    rt.stdin().read_to_end(&mut bytes)?;
    Ok(bytes)
}

/// Reads standard input, and prints the number of values, or for 0 the values. `None` means that a reader failed.
fn read_input(rt: &HostRuntime, number: u32, form: Form) -> io::Result<Option<()>> {
    let bytes = input(rt)?;
    if number == 0 {
        return print_values(rt, &bytes, form);
    }
    match read_times(rt.alloc(), &bytes, form, number) {
        Some(total) => {
            println!(rt; "{total}")?;
            Ok(Some(()))
        }
        None => Ok(None),
    }
}

/// Does the work. `None` means that the library failed.
fn run(rt: &HostRuntime, number: u32, work: Work) -> io::Result<Option<()>> {
    match work {
        Work::Read(form) => return read_input(rt, number, form),
        Work::Build(part) => {
            let Ok(module) = build(rt.alloc(), part, number) else {
                return Ok(None);
            };
            rt.stdout().write_all(&module)?;
        }
        Work::WriteFunctions => match write_functions(rt.alloc(), number, rt.stdout()) {
            Ok(()) => {}
            Err(WriteError::Io(error)) => return Err(error),
            Err(WriteError::Encode(_)) => return Ok(None),
        },
        Work::Canonicalise => {
            let Some(module) = canonical(input(rt)?) else {
                return Ok(None);
            };
            rt.stdout().write_all(&module)?;
        }
        Work::SizeOfCall => {
            let size = size_of::<Call>();
            println!(rt; "{size}")?;
        }
    }
    Ok(Some(()))
}

fn main(rt: HostRuntime) -> ExitCode {
    let Ok(Some((number, work))) = asked(&rt) else {
        return ExitCode::from(2);
    };
    match run(&rt, number, work) {
        Ok(Some(())) => ExitCode::from(0),
        Ok(None) => ExitCode::from(3),
        Err(_) => ExitCode::from(4),
    }
}
