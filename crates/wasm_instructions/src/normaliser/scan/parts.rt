//! Scanning of parts of rare instructions: lists of types, block types, memory arguments, and the clauses of `try_table`
//! (Core 3.0, Instructions).
ghost use Rattle.std.specs.Prelude.{Some, IfSome};
ghost use Rattle.wasm_codec.specs.Scanning.{Scans};
ghost use Rattle.wasm_codec.specs.declared.rewriter.scan.Scanned.TheVariants.{Minimal};
ghost use Rattle.wasm_codec.specs.formats.Combinators.{a_byte, items, u32 as u32_format};
ghost use Rattle.wasm_types.specs.formats.Types.{val_type};
ghost use Rattle.wasm_instructions.specs.formats.Operands.{block_type, castop, catch_clause, lanes, mem_arg, ordering, vector};

use crate::normaliser::scan::scan_mem_arg;
use wasm_codec::rewriter::{Scanned, scan_u32, scan_u64};
use wasm_types::types::{scan_type_index, scan_val_type};

/// Returns the length in bytes of the index that the bytes begin with. Returns `None` unless it is minimally encoded.
#[inline(always)]
pub(super) fn scan_index(bytes: &[u8]) -> Option<usize>
    ensures { IfSome result (λ count. Scans u32_format bytes.now (Some (Minimal count))) }
{
    match scan_u32(bytes) {
        Some(Scanned::Minimal(count)) => Some(count),
        _ => None,
    }
}

/// Returns the length in bytes of the list of one value type that the bytes begin with. Returns `None` if it is another
/// list.
#[inline(always)]
pub(super) fn scan_one_type(bytes: &[u8]) -> Option<usize>
    ensures { IfSome result (λ count. Scans (items val_type) bytes.now (Some (Minimal count))) }
{
    if bytes.len() == 0 {
        return None;
    }
    if bytes[0] != 1 {
        return None;
    }
    let ty = scan_val_type(&bytes[1..])?;
    Some(1 + ty)
}

/// Returns the length in bytes of the block type that the bytes begin with. Returns `None` unless it is minimally
/// encoded.
#[inline(always)]
#[tactic(auto, using(crate::proofs::ScannedParts::type_block_found, crate::proofs::ScannedParts::result_block_found))]
pub(super) fn scan_any_block_type(bytes: &[u8]) -> Option<usize>
    ensures { IfSome result (λ count. Scans block_type bytes.now (Some (Minimal count))) }
{
    if bytes.len() == 0 {
        return None;
    }
    if bytes[0] == 0x40 {
        return Some(1);
    }
    if bytes[0] < 0x40 || bytes[0] >= 0x80 {
        return scan_type_index(bytes);
    }
    scan_val_type(bytes)
}

/// Returns the length in bytes of the memory argument that the bytes begin with. Returns `None` unless it is minimally
/// encoded, and the index of its memory, if it has one, has one byte.
#[inline(always)]
pub(super) fn scan_any_mem_arg(bytes: &[u8]) -> Option<usize>
    ensures { IfSome result (λ count. Scans mem_arg bytes.now (Some (Minimal count))) }
{
    if bytes.len() < 2 {
        return None;
    }
    if bytes[0] < 64 {
        return match scan_mem_arg(bytes) {
            Some(Scanned::Minimal(count)) => Some(count),
            _ => None,
        };
    }
    // Memory 0 with an index is a long form.
    if bytes[0] >= 128 || bytes[1] == 0 || bytes[1] >= 128 {
        return None;
    }
    match scan_u64(&bytes[2..]) {
        Some(Scanned::Minimal(count)) => Some(2 + count),
        _ => None,
    }
}

/// Returns the length in bytes of the clause of a `try_table` that the bytes begin with. Returns `None` unless it is
/// minimally encoded.
#[inline(always)]
fn scan_clause(bytes: &[u8]) -> Option<usize>
    ensures { IfSome result (λ count. Scans catch_clause bytes.now (Some (Minimal count))) }
{
    if bytes.len() == 0 {
        return None;
    }
    if bytes[0] > 3 {
        return None;
    }
    let first = scan_index(&bytes[1..])?;
    if bytes[0] > 1 {
        return Some(1 + first);
    }
    let label = scan_index(&bytes[1 + first..])?;
    Some(1 + first + label)
}

/// Returns the length in bytes of the clauses of a `try_table` that the bytes begin with. Returns `None` unless they
/// are fewer than 128, and minimally encoded.
#[inline(always)]
pub(super) fn scan_clauses(bytes: &[u8]) -> Option<usize>
    ensures { IfSome result (λ count. Scans (items catch_clause) bytes.now (Some (Minimal count))) }
{
    if bytes.len() == 0 {
        return None;
    }
    if bytes[0] >= 128 {
        return None;
    }
    let clauses = &bytes[1..];
    let count = bytes[0];
    let mut size = 0;
    let mut index = 0;
    while index < count {
        let clause = scan_clause(&clauses[size..])?;
        size += clause;
        index += 1;
    }
    Some(1 + size)
}

/// Returns 16 if the bytes begin with a vector constant, or `None` if there are fewer.
#[inline(always)]
#[tactic(auto, using(crate::proofs::ScannedParts::vector_scanned))]
pub(super) fn scan_vector(bytes: &[u8]) -> Option<usize>
    ensures { IfSome result (λ count. Scans vector bytes.now (Some (Minimal count))) }
{
    if bytes.len() < 16 {
        return None;
    }
    Some(16)
}

/// Returns 16 if the bytes begin with the lanes of a shuffle, or `None` if there are fewer.
#[inline(always)]
#[tactic(auto, using(crate::proofs::ScannedParts::lanes_scanned))]
pub(super) fn scan_lanes(bytes: &[u8]) -> Option<usize>
    ensures { IfSome result (λ count. Scans lanes bytes.now (Some (Minimal count))) }
{
    if bytes.len() < 16 {
        return None;
    }
    Some(16)
}

/// Returns 1, or `None` if there is no byte.
#[inline(always)]
#[tactic(auto, using(crate::proofs::ScannedParts::byte_scanned))]
pub(super) fn scan_byte(bytes: &[u8]) -> Option<usize>
    ensures { IfSome result (λ count. Scans a_byte bytes.now (Some (Minimal count))) }
{
    if bytes.len() < 1 {
        return None;
    }
    Some(1)
}

/// Returns 1 if the bytes begin with an ordering, or `None`.
#[inline(always)]
#[tactic(auto, using(crate::proofs::ScannedParts::ordering_scanned))]
pub(super) fn scan_ordering(bytes: &[u8]) -> Option<usize>
    ensures { IfSome result (λ count. Scans ordering bytes.now (Some (Minimal count))) }
{
    if bytes.len() == 0 {
        return None;
    }
    if bytes[0] >= 2 {
        return None;
    }
    Some(1)
}

/// Returns 1 if the bytes begin with the flags of a branch on a cast, or `None`.
#[inline(always)]
#[tactic(auto, using(crate::proofs::ScannedParts::castop_scanned))]
pub(super) fn scan_castop(bytes: &[u8]) -> Option<usize>
    ensures { IfSome result (λ count. Scans castop bytes.now (Some (Minimal count))) }
{
    if bytes.len() == 0 {
        return None;
    }
    if bytes[0] >= 4 {
        return None;
    }
    Some(1)
}
