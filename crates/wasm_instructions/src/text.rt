//! Text of instructions.
mod floats;

use crate::names::opcode_name;
use crate::operands::{BlockType, Catch, Handle, MemArg, Ordering};
use crate::table::{Call, Opcode, Operands, Prefix};
use std::fmt;
use wasm_types::types::{RefType, ValType};

/// Writes the name of the instruction in the text format, such as `local.get` (Core 3.0, Text Format, Instructions). An
/// opcode outside the table is written in numbers, as `0xff` or `0xfd 300`.
impl fmt::Display for Opcode {
    fn fmt<W: fmt::Write>(&self, f: &mut fmt::Formatter<W>) -> fmt::Result {
        match opcode_name(*self) {
            Some(name) => f.write_str(name),
            None => write_numbers(f, *self),
        }
    }
}

/// Writes the prefix byte and the number of an opcode.
fn write_numbers<W: fmt::Write>(f: &mut fmt::Formatter<W>, op: Opcode) -> fmt::Result {
    f.write_str(match op.prefix {
        Prefix::None => return write!(f, "{:#04x}", op.number),
        Prefix::Fb => "0xfb ",
        Prefix::Fc => "0xfc ",
        Prefix::Fd => "0xfd ",
        Prefix::Fe => "0xfe ",
    })?;
    write!(f, "{}", op.number)
}

/// Writes the instruction with its operands, as `br_table 0 1 2`, `i32.load offset=4 align=4` or `block i32` (Core 3.0,
/// Text Format, Instructions).
///
/// Memory arguments, clauses, types and floating-point numbers are those of the text format. Block types, the types of a
/// `select`, vectors and the lanes of a shuffle are written as `wasm-objdump -d` does.
impl fmt::Display for Call {
    fn fmt<W: fmt::Write>(&self, f: &mut fmt::Formatter<W>) -> fmt::Result {
        f.write_str(self.name())?;
        match self.operands() {
            Operands::TwoIndexes(ty, table) if is_indirect_call(self.op()) => {
                write!(f, " {table} (type {ty})")
            }
            operands => write_operands(f, operands),
        }
    }
}

/// Checks for `call_indirect` and `return_call_indirect`.
fn is_indirect_call(op: Opcode) -> bool {
    matches!(op.prefix, Prefix::None) && matches!(op.number, 0x11 | 0x13)
}

/// Writes operands, with a space in front of each.
fn write_operands<W: fmt::Write>(f: &mut fmt::Formatter<W>, operands: &Operands) -> fmt::Result {
    match operands {
        Operands::None => Ok(()),
        Operands::Block(ty) => write_block_type(f, *ty),
        Operands::Index(index) => write!(f, " {index}"),
        Operands::TwoIndexes(first, second) => write!(f, " {first} {second}"),
        Operands::BrTable(labels, default) => {
            write_labels(f, labels.as_slice())?;
            write!(f, " {default}")
        }
        Operands::Types(types) => write_types(f, types.as_slice()),
        Operands::TryTable(ty, clauses) => {
            write_block_type(f, *ty)?;
            write_catches(f, clauses.as_slice())
        }
        Operands::Mem(arg) => write_mem_arg(f, *arg),
        Operands::MemLane(arg, lane) => {
            write_mem_arg(f, *arg)?;
            write!(f, " {lane}")
        }
        Operands::Heap(ty) => write!(f, " {ty}"),
        Operands::Resume(ty, clauses) => {
            write!(f, " {ty}")?;
            write_handles(f, clauses.as_slice())
        }
        Operands::ResumeThrow(ty, tag, clauses) => {
            write!(f, " {ty} {tag}")?;
            write_handles(f, clauses.as_slice())
        }
        Operands::Cast(label, before, after) => write_cast(f, *label, *before, *after),
        Operands::Order(ordering) => f.write_str(ordering_name(*ordering)),
        Operands::OrderIndex(ordering, index) => {
            write!(f, "{} {index}", ordering_name(*ordering))
        }
        Operands::OrderTwoIndexes(ordering, first, second) => {
            write!(f, "{} {first} {second}", ordering_name(*ordering))
        }
        constant => write_constant(f, constant),
    }
}

/// Writes the constant of an instruction, with a space in front. Writes other operands elsewhere.
fn write_constant<W: fmt::Write>(f: &mut fmt::Formatter<W>, operands: &Operands) -> fmt::Result {
    match operands {
        Operands::I32(value) => write!(f, " {value}"),
        Operands::I64(value) => write!(f, " {value}"),
        Operands::F32(value) => write!(f, " {value}"),
        Operands::F64(value) => write!(f, " {value}"),
        Operands::V128(value) => write_words(f, value.value().to_le_bytes()),
        Operands::Shuffle(lanes) => write_words(f, *lanes),
        Operands::Lane(lane) => write!(f, " {lane}"),
        _ => Ok(()),
    }
}

/// Writes 16 bytes as four words of 32 bits, the lowest first.
fn write_words<W: fmt::Write>(f: &mut fmt::Formatter<W>, bytes: [u8; 16]) -> fmt::Result {
    let [
        a0,
        a1,
        a2,
        a3,
        b0,
        b1,
        b2,
        b3,
        c0,
        c1,
        c2,
        c3,
        d0,
        d1,
        d2,
        d3,
    ] = bytes;
    let first = u32::from_le_bytes([a0, a1, a2, a3]);
    let second = u32::from_le_bytes([b0, b1, b2, b3]);
    let third = u32::from_le_bytes([c0, c1, c2, c3]);
    let fourth = u32::from_le_bytes([d0, d1, d2, d3]);
    write!(
        f,
        " {first:#010x} {second:#010x} {third:#010x} {fourth:#010x}"
    )
}

fn write_block_type<W: fmt::Write>(f: &mut fmt::Formatter<W>, ty: BlockType) -> fmt::Result {
    match ty {
        BlockType::Empty => Ok(()),
        BlockType::Result(ty) => write!(f, " {ty}"),
        BlockType::FunctionType(index) => write!(f, " type[{index}]"),
    }
}

fn write_labels<W: fmt::Write>(f: &mut fmt::Formatter<W>, labels: &[u32]) -> fmt::Result {
    for label in labels {
        write!(f, " {label}")?;
    }
    Ok(())
}

/// Writes the types of a `select`, with commas between them.
fn write_types<W: fmt::Write>(f: &mut fmt::Formatter<W>, types: &[ValType]) -> fmt::Result {
    let mut separator = " ";
    for ty in types {
        write!(f, "{separator}{ty}")?;
        separator = ", ";
    }
    Ok(())
}

fn write_catches<W: fmt::Write>(f: &mut fmt::Formatter<W>, clauses: &[Catch]) -> fmt::Result {
    for clause in clauses {
        match *clause {
            Catch::One { tag, label } => write!(f, " (catch {tag} {label})")?,
            Catch::OneRef { tag, label } => write!(f, " (catch_ref {tag} {label})")?,
            Catch::All { label } => write!(f, " (catch_all {label})")?,
            Catch::AllRef { label } => write!(f, " (catch_all_ref {label})")?,
        }
    }
    Ok(())
}

fn write_handles<W: fmt::Write>(f: &mut fmt::Formatter<W>, clauses: &[Handle]) -> fmt::Result {
    for clause in clauses {
        match *clause {
            Handle::OnLabel { tag, label } => write!(f, " (on {tag} {label})")?,
            Handle::OnSwitch { tag } => write!(f, " (on {tag} switch)")?,
        }
    }
    Ok(())
}

fn write_cast<W: fmt::Write>(
    f: &mut fmt::Formatter<W>,
    label: u32,
    before: RefType,
    after: RefType,
) -> fmt::Result {
    write!(f, " {label} {before} {after}")
}

/// Returns the name of an ordering, with a space in front.
fn ordering_name(ordering: Ordering) -> &'static str {
    match ordering {
        Ordering::SeqCst => " seq_cst",
        Ordering::AcqRel => " acq_rel",
    }
}

/// Writes a memory argument, with a space in front of each part: the index of a memory other than 0, the offset, and
/// the alignment in bytes.
fn write_mem_arg<W: fmt::Write>(f: &mut fmt::Formatter<W>, arg: MemArg) -> fmt::Result {
    if arg.memory_index != 0 {
        write!(f, " {}", arg.memory_index)?;
    }
    write!(f, " offset={} align=", arg.offset)?;
    match 1u64.checked_shl(arg.align) {
        Some(bytes) => write!(f, "{bytes}"),
        None => write!(f, "2^{}", arg.align), // no module can hold it
    }
}
