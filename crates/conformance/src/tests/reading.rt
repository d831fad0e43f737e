//! Types, calls and the table of opcodes, and what is read.

mod calls;
mod order;
mod sections;
mod table;
mod types;

use std::alloc::Global;
use std::test::Fail;
use wasm_encoder::{Call, Opcode, Operands, Prefix};

/// The opcode of one byte.
fn plain(number: u32) -> Opcode {
    Opcode {
        prefix: Prefix::None,
        number,
    }
}

/// Calls of opcodes of one byte, without operands or with an index.
fn calls_of(alloc: Global, rows: &[(u32, Option<u32>)]) -> Result<Vec<Call>, Fail> {
    let mut calls = Vec::new(alloc);
    for (number, index) in rows {
        let operands = match *index {
            Some(index) => Operands::Index(index),
            None => Operands::None,
        };
        calls.push(Call::new(plain(*number), operands)?)?;
    }
    Ok(calls)
}
