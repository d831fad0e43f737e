//! Vectors of the table of opcodes: a prefix byte or `none`, a number, the kind of its operands or `-` where it is no
//! opcode, and the name of an instruction.

use crate::columns::columns;
use crate::mismatch::Mismatch;
use wasm_encoder::{Kind, Opcode, Prefix, opcode_name};

/// Holds the table to the vector of a line.
pub fn check(line: &str) -> Result<(), Mismatch> {
    let (opcode, kind, name) = columns(line)?;
    let opcode = parse(opcode).ok_or(Mismatch::NotUnderstood)?;
    if opcode.kind().map_or("-", kind_name) != kind {
        return Err(Mismatch::Kind);
    }
    if opcode_name(opcode).unwrap_or("") != first_word(name) {
        return Err(Mismatch::Name);
    }
    Ok(())
}

/// The first word, as of `select with one type`.
fn first_word(name: &str) -> &str {
    match name.split_once(' ') {
        Some((word, _)) => word,
        None => name,
    }
}

fn parse(column: &str) -> Option<Opcode> {
    let (prefix, number) = column.split_once(' ')?;
    let prefix = match prefix {
        "none" => Prefix::None,
        "FB" => Prefix::Fb,
        "FC" => Prefix::Fc,
        "FD" => Prefix::Fd,
        "FE" => Prefix::Fe,
        _ => return None,
    };
    let number = number.parse().ok()?;
    Some(Opcode { prefix, number })
}

fn kind_name(kind: Kind) -> &'static str {
    match kind {
        Kind::None => "None",
        Kind::Block => "Block",
        Kind::Index => "Index",
        Kind::TwoIndexes => "TwoIndexes",
        Kind::BrTable => "BrTable",
        Kind::Types => "Types",
        Kind::TryTable => "TryTable",
        Kind::Mem => "Mem",
        Kind::I32 => "I32",
        Kind::I64 => "I64",
        Kind::F32 => "F32",
        Kind::F64 => "F64",
        Kind::Heap => "Heap",
        Kind::Resume => "Resume",
        Kind::ResumeThrow => "ResumeThrow",
        Kind::Cast => "Cast",
        Kind::V128 => "V128",
        Kind::Shuffle => "Shuffle",
        Kind::Lane => "Lane",
        Kind::MemLane => "MemLane",
        Kind::Order => "Order",
        Kind::OrderIndex => "OrderIndex",
        Kind::OrderTwoIndexes => "OrderTwoIndexes",
    }
}
