//! Frequent function types, read and scanned at once (Core 3.0, Composite Types).
//!
//! The results of the reader hold no fault, so that the compiler makes the type in its place. The scan finds the end of a
//! type without decoding it.
ghost use Rattle.std.specs.Prelude.{◌≡◌, ◌≤◌, ◌∷◌, ℕ, Bool, EachIndex, IfOk, IfSome, IsTrue, List, Some, slice_index, true};
ghost use Rattle.wasm_codec.specs.Places.{place};
ghost use Rattle.wasm_codec.specs.Scanning.{Scans};
ghost use Rattle.wasm_codec.specs.declared.rewriter.scan.Scanned.TheVariants.{Minimal};
ghost use Rattle.wasm_types.specs.formats.Types.{recursive_type, result_type, sub_type, val_type};

use crate::types::composite::{CompositeInnerType, CompositeType, FuncType};
use crate::types::recursive::SubType;
use crate::types::value::{ValType, is_whole_type};
use std::alloc::{AllocError, Global};
use wasm_codec::reader::cursor::Cursor;
use wasm_codec::rewriter::Scanned;
use wasm_lists::list::Items;

/// Reads a final function type without supertypes, with short lists of number and vector types. Returns `None` if the
/// next type is another or malformed: then the position is unspecified.
#[inline(always)]
pub(crate) fn read_function_type(
    alloc: Global,
    cursor: &mut Cursor<'_>,
) -> Result<Option<SubType>, AllocError>
    ensures { IfOk result (λ read. IfSome read (λ ty. sub_type.at cursor.old ≡ Some (ty, cursor.new))) }
{
    let Some(0x60) = cursor.next_byte() else {
        return Ok(None);
    };
    let Some(params) = read_number_types(alloc, cursor)? else {
        return Ok(None);
    };
    let Some(results) = read_number_types(alloc, cursor)? else {
        return Ok(None);
    };
    Ok(Some(SubType {
        is_final: true,
        supertype_idxs: Items::new(alloc),
        composite_type: CompositeType {
            inner: CompositeInnerType::Func(FuncType::from_lists(params, results)),
            shared: false,
            descriptor: None,
            describes: None,
        },
    }))
}

/// Checks whether each byte alone is a number or vector type.
#[inline(always)]
fn are_number_types(bytes: &[u8]) -> bool
    ensures { IsTrue result → EachIndex bytes.now (λ k. (0x7b ≤ slice_index bytes.now k) × (slice_index bytes.now k ≤ 0x7f)) }
{
    bytes.iter().all(|byte| 0x7b <= *byte && *byte <= 0x7f)
}

/// Returns the number or vector type that this byte alone is.
#[inline(always)]
#[tactic(auto, unfolding(crate::specs::formats::Types::val_type, wasm_codec::specs::Places::byte_at))]
fn number_type(byte: u8) -> ValType
    requires { (0x7b ≤ byte) × (byte ≤ 0x7f) }
    ensures { (minimal : Bool) → (more : List ℕ) → val_type.at (place minimal (byte ∷ more)) ≡ Some (result, place minimal more) }
{
    match byte {
        0x7f => ValType::I32,
        0x7e => ValType::I64,
        0x7d => ValType::F32,
        0x7c => ValType::F64,
        _ => ValType::V128,
    }
}

/// Reads a short list of number and vector types. Returns `None` if the next list is longer, is cut off or has another
/// type: then the position is unspecified.
#[inline(always)]
fn read_number_types(
    alloc: Global,
    cursor: &mut Cursor<'_>,
) -> Result<Option<Items<ValType>>, AllocError>
    ensures { IfOk result (λ read. IfSome read (λ types. result_type.at cursor.old ≡ Some (types, cursor.new))) }
{
    let Some(bytes) = cursor.short_sized() else {
        return Ok(None);
    };
    if !are_number_types(bytes) {
        return Ok(None);
    }
    let mut types = Vec::with_capacity(alloc, bytes.len())?;
    for byte in bytes {
        types.push_reserved(number_type(*byte));
    }
    Ok(Some(Items::from(types)))
}

/// Scans the function type that the bytes begin with. Returns `None` unless its counts and value types have one byte
/// each.
#[inline(always)]
pub(crate) fn scan_function_type(bytes: &[u8]) -> Option<Scanned>
    ensures { Scans recursive_type bytes.now result }
{
    if bytes.len() == 0 {
        return None;
    }
    if bytes[0] != 0x60 {
        return None;
    }
    let params = scan_result_type(&bytes[1..])?;
    let results = scan_result_type(&bytes[1 + params..])?;
    Some(Scanned::Minimal(1 + params + results))
}

/// Returns the length of the list of value types that the bytes begin with, or `None` unless its count and types have
/// one byte each.
#[inline(always)]
fn scan_result_type(bytes: &[u8]) -> Option<usize>
    ensures { IfSome result (λ count. Scans result_type bytes.now (Some (Minimal count))) }
{
    if bytes.len() == 0 {
        return None;
    }
    if bytes[0] >= 128 {
        return None;
    }
    let count = bytes[0] as usize;
    if bytes.len() - 1 < count {
        return None;
    }
    for index in 0..count {
        if !is_whole_type(bytes[1 + index]) {
            return None;
        }
    }
    Some(1 + count)
}
