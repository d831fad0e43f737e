//! Runs of minimally encoded numbers, which stay as they are.
ghost use Rattle.std.specs.Prelude.{◌≤◌, IfSome, Some};
ghost use Rattle.wasm_codec.specs.Scanning.{BeginsItems, Scans};
ghost use Rattle.wasm_codec.specs.declared.rewriter.scan.Scanned.TheVariants.{Minimal};
ghost use Rattle.wasm_codec.specs.formats.Combinators.{u32 as u32_format};

use wasm_codec::rewriter::{Scanned, are_bytes, begins_low, scan_u32};

/// A run of items.
#[derive(Clone, Copy)]
pub(crate) struct Run {
    /// Number of items.
    pub items: u32,
    /// Number of bytes.
    pub size: usize,
}

/// Returns a run of minimally encoded numbers that the bytes begin with, at most `most`.
#[inline(never)]
pub(crate) fn number_run(bytes: &[u8], most: u32) -> Run
    ensures few { result.items ≤ most }
    ensures begins { BeginsItems u32_format bytes.now result.items result.size }
{
    are_bytes(bytes);
    let mut items = 0;
    let mut size = 0;
    while items < most {
        let left = &bytes[size..];
        if most - items >= 8 && begins_low(left) {
            items += 8;
            size += 8;
        } else {
            let Some(count) = number_len(left) else {
                return Run { items, size };
            };
            items += 1;
            size += count;
        }
    }
    Run { items, size }
}

/// Returns the length of the number that the bytes begin with. Returns `None` unless it is minimally encoded.
#[inline(always)]
fn number_len(bytes: &[u8]) -> Option<usize>
    ensures { IfSome result (λ count. Scans u32_format bytes.now (Some (Minimal count))) }
{
    are_bytes(bytes);
    if bytes.len() < 5 {
        let Some(Scanned::Minimal(count)) = scan_u32(bytes) else {
            return None;
        };
        return Some(count);
    }
    // With five bytes ahead, the compiler drops the length checks.
    let Some(Scanned::Minimal(count)) = scan_u32(&bytes[..5]) else {
        return None;
    };
    Some(count)
}
