//! Scanning of instructions: it finds the end of an instruction and its minimal encoding without decoding it (Core 3.0,
//! Instructions).
ghost use Rattle.std.specs.Prelude.{Some, IfSome};
ghost use Rattle.wasm_codec.specs.Scanning.{Scans};
ghost use Rattle.wasm_codec.specs.declared.rewriter.scan.Scanned.TheVariants.{Minimal};
ghost use Rattle.wasm_codec.specs.formats.Combinators.{little_endian};
ghost use Rattle.wasm_instructions.specs.formats.Instructions.{operands_format, instruction};
ghost use Rattle.wasm_instructions.specs.formats.Operands.{block_type, mem_arg};
ghost use Rattle.wasm_instructions.specs.ScannedOpcodes.{IsPaddedAlignment, IsPaddedLoad};

mod opcodes;
mod parts;
mod prefixed;

use crate::normaliser::scan::opcodes::{SCANNED, scanned_kind};
use crate::table::Kind;
pub(crate) use prefixed::scan_rare_call;
use wasm_codec::rewriter::{
    Scanned, kept_digits, scan_s32, scan_s64, scan_short_u32, scan_u32, scan_u64,
};

/// The opcode of `local.get`, the first one that `scan_frequent_call` takes.
pub(crate) const FIRST_VARIABLE: u8 = 0x20;

/// The opcode of `table.set`, the last one that `scan_frequent_call` takes.
pub(crate) const LAST_VARIABLE: u8 = 0x26;

/// Scans the instruction that the bytes begin with. Returns `None` unless it is of a frequent kind.
#[inline(always)]
pub(crate) fn scan_call(bytes: &[u8]) -> Option<Scanned>
    ensures { Scans instruction bytes.now result }
{
    if bytes.len() == 0 {
        return None;
    }
    let operands = &bytes[1..];
    let scanned = match scanned_kind(&SCANNED, bytes[0])? {
        // The most frequent kinds have branches of their own, so that the compiler adds their lengths beforehand.
        Kind::None => return Some(Scanned::Minimal(1)),
        Kind::Index => return Some(scan_u32(operands)?.behind_byte()),
        Kind::Mem => return Some(scan_operands(Kind::Mem, operands)?.behind_byte()),
        kind => scan_operands(kind, operands)?,
    };
    Some(scanned.behind_byte())
}

/// Returns the length of the instruction that the bytes begin with, if it reads or writes a local, a global or a table,
/// with an index of one or two digits.
#[inline(always)]
pub(crate) fn scan_frequent_call(bytes: &[u8]) -> Option<usize>
    ensures { IfSome result (λ count. Scans instruction bytes.now (Some (Minimal count))) }
{
    if bytes.len() == 0 {
        return None;
    }
    let opcode = bytes[0];
    if opcode < FIRST_VARIABLE || opcode > LAST_VARIABLE {
        return None;
    }
    Some(1 + scan_short_u32(&bytes[1..])?)
}

/// Scans operands of a less frequent kind.
#[inline(always)]
fn scan_operands(kind: Kind, bytes: &[u8]) -> Option<Scanned>
    ensures { Scans (operands_format kind) bytes.now result }
{
    match kind {
        Kind::Block => scan_block_type(bytes),
        Kind::Mem => scan_mem_arg(bytes),
        Kind::I32 => scan_s32(bytes),
        Kind::I64 => scan_s64(bytes),
        Kind::F32 => scan_raw(bytes, 4),
        Kind::F64 => scan_raw(bytes, 8),
        _ => None,
    }
}

/// Scans a little-endian number of `count` bytes.
#[inline(always)]
fn scan_raw(bytes: &[u8], count: usize) -> Option<Scanned>
    ensures { Scans (little_endian count) bytes.now result }
{
    if bytes.len() < count {
        return None;
    }
    Some(Scanned::Minimal(count))
}

/// Scans a block type. Returns `None` unless it is empty or a number type.
#[inline(always)]
fn scan_block_type(bytes: &[u8]) -> Option<Scanned>
    ensures { Scans block_type bytes.now result }
{
    if bytes.len() == 0 {
        return None;
    }
    match bytes[0] {
        0x40 => Some(Scanned::Minimal(1)),
        0x7c => Some(Scanned::Minimal(1)),
        0x7d => Some(Scanned::Minimal(1)),
        0x7e => Some(Scanned::Minimal(1)),
        0x7f => Some(Scanned::Minimal(1)),
        _ => None,
    }
}

/// Scans a memory argument. Returns `None` if it has the index of a memory.
#[inline(always)]
fn scan_mem_arg(bytes: &[u8]) -> Option<Scanned>
    ensures { Scans mem_arg bytes.now result }
{
    if bytes.len() == 0 {
        return None;
    }
    if bytes[0] >= 64 {
        return None;
    }
    let offset = scan_u64(&bytes[1..])?;
    Some(offset.behind_byte())
}

/// Scans the padded alignment after the opcode of a load or a store that the bytes begin with. Returns `None` unless its
/// minimal encoding has one byte, and no memory index follows.
#[inline(always)]
pub(crate) fn scan_padded_load(bytes: &[u8]) -> Option<Scanned>
    ensures { IfSome result (IsPaddedLoad bytes.now) }
{
    if bytes.len() < 2 {
        return None;
    }
    match scanned_kind(&SCANNED, bytes[0]) {
        Some(Kind::Mem) => scan_padded_alignment(&bytes[1..]),
        _ => None,
    }
}

/// Scans the padded number that the bytes begin with. Returns `None` unless its minimal encoding is one byte below 64.
#[inline(always)]
fn scan_padded_alignment(bytes: &[u8]) -> Option<Scanned>
    ensures { IfSome result (IsPaddedAlignment bytes.now) }
{
    if bytes.len() == 0 {
        return None;
    }
    if bytes[0] < 128 || bytes[0] >= 192 {
        return None;
    }
    let scanned = scan_u32(bytes)?;
    let Scanned::Padded {
        signed,
        start,
        more,
    } = scanned
    else {
        return None;
    };
    if start != 0 {
        return None;
    }
    if kept_digits(bytes, signed, more) != 1 {
        return None;
    }
    Some(scanned)
}
