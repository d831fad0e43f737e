//! Scanning of instructions that are too rare for the inner loop, or have rare operands (Core 3.0, Instructions).
ghost use Rattle.std.specs.Prelude.{Some, IfSome};
ghost use Rattle.wasm_codec.specs.Scanning.{Scans};
ghost use Rattle.wasm_codec.specs.declared.rewriter.scan.Scanned.TheVariants.{Minimal};
ghost use Rattle.wasm_instructions.specs.declared.table.opcode.Kind.TheVariants as kinds;
ghost use Rattle.wasm_instructions.specs.formats.Instructions.{operands_format, instruction};
ghost use Rattle.wasm_instructions.specs.ScannedOpcodes.{HasOpcode, IsKindAfter};

use crate::normaliser::scan::parts::{
    scan_any_block_type, scan_any_mem_arg, scan_byte, scan_castop, scan_clauses, scan_index,
    scan_lanes, scan_one_type, scan_ordering, scan_vector,
};
use crate::normaliser::scan::{FIRST_VARIABLE, LAST_VARIABLE};
use crate::table::{Kind, Opcode};
use wasm_types::types::scan_heap_type;

/// Returns the length in bytes of the instruction that the bytes begin with. Returns `None` unless it is minimally
/// encoded, and its operands are of a kind that is scanned.
#[inline(always)]
pub(crate) fn scan_rare_call(bytes: &[u8]) -> Option<usize>
    ensures { IfSome result (λ count. Scans instruction bytes.now (Some (Minimal count))) }
{
    if bytes.len() == 0 {
        return None;
    }
    // A run of rare instructions ends at one of variables, which the loop for frequent ones takes faster.
    if bytes[0] >= FIRST_VARIABLE && bytes[0] <= LAST_VARIABLE {
        return None;
    }
    let (kind, start) = scan_opcode(bytes)?;
    let operands = scan_rare_operands(kind, &bytes[start..])?;
    Some(start + operands)
}

/// Returns the kind of the operands of the opcode that the bytes begin with, and the length of the opcode in bytes.
/// Returns `None` unless it is one byte, or a prefix and a minimally encoded number of one or two bytes.
#[inline(always)]
#[tactic(auto, using(crate::proofs::ScannedPrefixed::plain_opcode, crate::proofs::ScannedPrefixed::one_digit_opcode, crate::proofs::ScannedPrefixed::two_digit_opcode))]
fn scan_opcode(bytes: &[u8]) -> Option<(Kind, usize)>
    ensures { IfSome result (λ read. HasOpcode bytes.now read.0 read.1) }
{
    if bytes.len() < 2 {
        return None;
    }
    if bytes[0] < 0xfb {
        let kind = Opcode::without_prefix(bytes[0]).kind()?;
        return Some((kind, 1));
    }
    if bytes[1] < 128 {
        let kind = kind_after(bytes[0], u32::from(bytes[1]))?;
        return Some((kind, 2));
    }
    if bytes.len() < 3 {
        return None;
    }
    if bytes[2] == 0 || bytes[2] >= 128 {
        return None;
    }
    let kind = kind_after(
        bytes[0],
        u32::from(bytes[1] - 128) + 128 * u32::from(bytes[2]),
    )?;
    Some((kind, 3))
}

/// Returns the kind of the operands of the opcode of this number after a prefix byte. Returns `None` if there is no
/// such opcode.
#[inline(always)]
#[tactic(auto, using(crate::proofs::ScannedPrefixed::fb_kind, crate::proofs::ScannedPrefixed::fc_kind, crate::proofs::ScannedPrefixed::fd_kind, crate::proofs::ScannedPrefixed::fe_kind))]
fn kind_after(prefix: u8, number: u32) -> Option<Kind>
    ensures { IfSome result (IsKindAfter prefix number) }
{
    match prefix {
        0xfb => Opcode::after_fb(number).kind(),
        0xfc => Opcode::after_fc(number).kind(),
        0xfd => Opcode::after_fd(number).kind(),
        0xfe => Opcode::after_fe(number).kind(),
        _ => None,
    }
}

/// Returns the length in bytes of the operands that the bytes begin with. Returns `None` unless they are minimally
/// encoded and of a kind that is scanned.
#[inline(always)]
fn scan_rare_operands(kind: Kind, bytes: &[u8]) -> Option<usize>
    ensures { IfSome result (λ count. Scans (operands_format kind) bytes.now (Some (Minimal count))) }
{
    match kind {
        Kind::None => Some(0),
        Kind::Index => scan_index(bytes),
        Kind::TwoIndexes => {
            let first = scan_index(bytes)?;
            let second = scan_index(&bytes[first..])?;
            Some(first + second)
        }
        Kind::BrTable => scan_labels(bytes),
        Kind::Block => scan_any_block_type(bytes),
        Kind::TryTable => scan_try_table(bytes),
        Kind::Types => scan_one_type(bytes),
        Kind::Mem => scan_any_mem_arg(bytes),
        Kind::MemLane => scan_mem_lane(bytes),
        Kind::Heap => scan_heap_type(bytes),
        Kind::Cast => scan_cast(bytes),
        Kind::V128 => scan_vector(bytes),
        Kind::Shuffle => scan_lanes(bytes),
        Kind::Lane => scan_byte(bytes),
        Kind::Order => scan_ordering(bytes),
        _ => None,
    }
}

/// Returns the length in bytes of the block type and the clauses of a `try_table` that the bytes begin with. Returns
/// `None` unless they are minimally encoded.
#[inline(never)]
fn scan_try_table(bytes: &[u8]) -> Option<usize>
    ensures { IfSome result (λ count. Scans (operands_format kinds.TryTable) bytes.now (Some (Minimal count))) }
{
    let ty = scan_any_block_type(bytes)?;
    let clauses = scan_clauses(&bytes[ty..])?;
    Some(ty + clauses)
}

/// Returns the length in bytes of the memory argument and the lane that the bytes begin with. Returns `None` unless
/// they are minimally encoded.
#[inline(always)]
fn scan_mem_lane(bytes: &[u8]) -> Option<usize>
    ensures { IfSome result (λ count. Scans (operands_format kinds.MemLane) bytes.now (Some (Minimal count))) }
{
    let arg = scan_any_mem_arg(bytes)?;
    let lane = scan_byte(&bytes[arg..])?;
    Some(arg + lane)
}

/// Returns the length in bytes of the operands of a branch on a cast that the bytes begin with. Returns `None` unless
/// they are minimally encoded.
#[inline(always)]
fn scan_cast(bytes: &[u8]) -> Option<usize>
    ensures { IfSome result (λ count. Scans (operands_format kinds.Cast) bytes.now (Some (Minimal count))) }
{
    let flags = scan_castop(bytes)?;
    let label = scan_index(&bytes[flags..])?;
    let before = scan_heap_type(&bytes[flags + label..])?;
    let after = scan_heap_type(&bytes[flags + label + before..])?;
    Some(flags + label + before + after)
}

/// Returns the length in bytes of the operands of a `br_table` that the bytes begin with. Returns `None` unless its
/// count and its labels have one byte each.
#[inline(never)]
fn scan_labels(bytes: &[u8]) -> Option<usize>
    ensures { IfSome result (λ count. Scans (operands_format kinds.BrTable) bytes.now (Some (Minimal count))) }
{
    if bytes.len() == 0 {
        return None;
    }
    if bytes[0] >= 128 {
        return None;
    }
    let count = 1 + bytes[0] as usize;
    if bytes.len() - 1 < count {
        return None;
    }
    for index in 0..count {
        if bytes[1 + index] >= 128 {
            return None;
        }
    }
    Some(1 + count)
}
