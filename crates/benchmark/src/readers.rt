//! Reads the same bytes again and again, and rewrites a module.

use std::alloc::Global;
use std::io;
use wasm_encoder::{
    Call, ImportSection, ItemReader, Kind, read, read_instructions, read_type_section,
    read_whole_module, rewrite_whole_module,
};

/// The form of the bytes.
#[derive(Clone, Copy)]
pub enum Form {
    /// A list of instructions.
    Instructions,
    /// Instructions, read one after another.
    EachInstruction,
    /// A module.
    Module,
    /// The body of a type section.
    Types,
    /// The body of an import section.
    Imports,
}

/// Reads the bytes so many times, and returns the number of values of all. `None` means that a reader failed.
pub fn read_times(alloc: Global, bytes: &[u8], form: Form, times: u32) -> Option<u64> {
    let mut total: u64 = 0;
    for _ in 0..times {
        total = total.saturating_add(count(alloc, bytes, form)? as u64);
    }
    Some(total)
}

/// Reads the bytes, and returns the number of values. `None` means that the reader failed.
fn count(alloc: Global, bytes: &[u8], form: Form) -> Option<usize> {
    match form {
        Form::Instructions => Some(read_instructions(alloc, bytes).ok()?.len()),
        Form::EachInstruction => walk(alloc, bytes),
        Form::Module => Some(read_whole_module(alloc, bytes).ok()?.len()),
        Form::Types => Some(read_type_section(alloc, bytes).ok()?.len()),
        Form::Imports => Some(read::<ImportSection>(alloc, bytes).ok()?.len()),
    }
}

/// Reads instructions one after another, and returns their number. `None` means that one is malformed.
fn walk(alloc: Global, bytes: &[u8]) -> Option<usize> {
    let mut count: usize = 0;
    for next in ItemReader::<Call>::to_end(alloc, bytes) {
        match next {
            // Each value is looked at, so that the compiler makes it.
            Ok((_, call)) => {
                if call.operands().kind() != Kind::Shuffle {
                    count = count.saturating_add(1);
                }
            }
            Err(_) => return None,
        }
    }
    Some(count)
}

/// Reads the bytes, and prints a line for each value. `None` means that the reader failed.
pub fn print_values(rt: &HostRuntime, bytes: &[u8], form: Form) -> io::Result<Option<()>> {
    match form {
        Form::Instructions | Form::EachInstruction => {
            let Ok(calls) = read_instructions(rt.alloc(), bytes) else {
                return Ok(None);
            };
            for call in &calls {
                println!(rt; "{call:?}")?;
            }
        }
        Form::Module => {
            let Ok(sections) = read_whole_module(rt.alloc(), bytes) else {
                return Ok(None);
            };
            for section in &sections {
                println!(rt; "{section:?}")?;
            }
        }
        Form::Types => {
            let Ok(types) = read_type_section(rt.alloc(), bytes) else {
                return Ok(None);
            };
            for entry in &types {
                println!(rt; "{entry:?}")?;
            }
        }
        Form::Imports => {
            let Ok(imports) = read::<ImportSection>(rt.alloc(), bytes) else {
                return Ok(None);
            };
            for import in &imports {
                println!(rt; "{import:?}")?;
            }
        }
    }
    Ok(Some(()))
}

/// Returns the canonical form of a module. `None` means that it is malformed.
pub fn canonical(bytes: Vec<u8>) -> Option<Vec<u8>> {
    rewrite_whole_module(bytes).ok()
}
