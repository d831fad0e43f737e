//! Scanning of items: it finds the end of an item and its minimal encoding without decoding it.
ghost use Rattle.std.specs.Prelude.{◌≡◌, ◌-◌, ◌<◌, ◌≤◌, ◌^◌, length, take, true, Some, IfSome};
ghost use Rattle.wasm_codec.specs.Scanning.{AreLow, IsWithin, KeepsDigits, Scans, ScansDigits, behind_byte, repeats};
ghost use Rattle.wasm_codec.specs.declared.rewriter.scan.Scanned.TheVariants.{Minimal};
ghost use Rattle.wasm_codec.specs.formats.Combinators.{u32 as u32_format, u64 as u64_format, s32 as s32_format, s64 as s64_format};

use crate::encode::leb128::complemented;
use crate::rewriter::are_bytes;

/// The high bit of each of eight bytes.
const HIGH_BITS: u64 = 0x8080_8080_8080_8080;

/// An item at the start of bytes, as scanned.
#[derive(Clone, Copy)]
pub enum Scanned {
    /// The item is minimally encoded and has this many bytes.
    Minimal(usize),
    /// The item ends with a padded number, which begins at offset `start`: `more` digits, and then a redundant last
    /// digit.
    Padded {
        signed: bool,
        start: usize,
        more: usize,
    },
}

impl Scanned {
    /// Returns the same item with one more byte before it, which stays as it is.
    #[inline(always)]
    pub fn behind_byte(self) -> Scanned
        requires { IsWithin self (2 ^ 64 - 2) }
        ensures { result ≡ behind_byte self }
    {
        match self {
            Scanned::Minimal(count) => Scanned::Minimal(1 + count),
            Scanned::Padded {
                signed,
                start,
                more,
            } => Scanned::Padded {
                signed,
                start: 1 + start,
                more,
            },
        }
    }
}

/// Checks whether the first eight bytes are below 128, so that each is a minimally encoded number. Returns `false` if
/// there are fewer.
#[inline(always)]
pub fn begins_low(bytes: &[u8]) -> bool
    ensures within { result ≡ true → 8 ≤ length bytes.now }
    ensures low { result ≡ true → AreLow (take 8 bytes.now) }
{
    are_bytes(bytes);
    let [a, b, c, d, e, f, g, h, ..] = bytes else {
        return false;
    };
    u64::from_le_bytes([*a, *b, *c, *d, *e, *f, *g, *h]) & HIGH_BITS == 0
}

/// Scans the number of at most `most` digits that the bytes begin with.
///
/// If it has exactly `most` digits, it is scanned only if it is padded or its last digit represents a number below
/// `top`.
#[inline(always)]
#[tactic(auto, using(crate::proofs::ScannedNumbers::more_taken, crate::proofs::ScannedNumbers::last_taken))]
fn scan_digits(bytes: &[u8], signed: bool, most: usize, top: u8) -> Option<Scanned>
    requires { 1 < most }
    ensures { ScansDigits signed most top bytes.now result }
{
    if bytes.len() == 0 {
        return None;
    }
    let mut before = bytes[0];
    if before < 128 {
        return Some(Scanned::Minimal(1));
    }
    for index in 1..most {
        if index >= bytes.len() {
            return None;
        }
        let byte = bytes[index];
        if signed && byte >= 128 {
            // Only a last digit can be redundant. In an unsigned number, one comparison tells both.
            before = byte;
            continue;
        }
        if repeats(signed, before, byte) {
            return Some(Scanned::Padded {
                signed,
                start: 0,
                more: index,
            });
        }
        if byte < 128 {
            if index + 1 == most && complemented(signed && byte >= 64, byte) >= top {
                return None;
            }
            return Some(Scanned::Minimal(index + 1));
        }
        before = byte;
    }
    None
}

/// Returns how many of the first `count` digits are needed if the digit after them is redundant.
#[inline(always)]
pub fn kept_digits(bytes: &[u8], signed: bool, count: usize) -> usize
    requires some { 0 < count }
    requires within { count ≤ length bytes.now }
    ensures { KeepsDigits signed bytes.now count result }
{
    // The loop for unsigned numbers has one test.
    if signed {
        needed_digits(bytes, true, count)
    } else {
        needed_digits(bytes, false, count)
    }
}

/// Returns what `kept_digits` does. The compiler knows the sign.
#[inline(always)]
fn needed_digits(bytes: &[u8], signed: bool, count: usize) -> usize
    requires some { 0 < count }
    requires within { count ≤ length bytes.now }
    ensures { KeepsDigits signed bytes.now count result }
{
    if count <= 1 || !repeats(signed, bytes[count - 2], bytes[count - 1] % 128) {
        return count;
    }
    let mut kept = count - 1;
    while kept > 1 && repeats(signed, bytes[kept - 2], bytes[kept - 1] % 128) {
        kept -= 1;
    }
    kept
}

/// Checks whether the last digit is redundant: 0, or a repetition of the sign that the digit before it already has.
#[inline(always)]
fn repeats(signed: bool, before: u8, last: u8) -> bool
    ensures { result ≡ repeats signed before last }
{
    if signed && before % 128 >= 64 {
        last == 127
    } else {
        last == 0
    }
}

/// Scans the u32 that the bytes begin with.
#[inline(always)]
#[tactic(auto, using(crate::proofs::ScannedNumbers::u32_scanned))]
pub fn scan_u32(bytes: &[u8]) -> Option<Scanned>
    ensures { Scans u32_format bytes.now result }
{
    scan_digits(bytes, false, 5, 16)
}

/// Returns the number of digits of the u32 that the bytes begin with, if it is minimally encoded in one or two.
#[inline(always)]
#[tactic(auto, using(crate::proofs::ScannedNumbers::short_u32_scanned))]
pub fn scan_short_u32(bytes: &[u8]) -> Option<usize>
    ensures { IfSome result (λ count. Scans u32_format bytes.now (Some (Minimal count))) }
{
    match scan_digits(bytes, false, 2, 128)? {
        Scanned::Minimal(count) => Some(count),
        Scanned::Padded { .. } => None,
    }
}

/// Scans the u64 that the bytes begin with.
#[inline(always)]
#[tactic(auto, using(crate::proofs::ScannedNumbers::u64_scanned))]
pub fn scan_u64(bytes: &[u8]) -> Option<Scanned>
    ensures { Scans u64_format bytes.now result }
{
    scan_digits(bytes, false, 10, 2)
}

/// Scans the s32 that the bytes begin with.
#[inline(always)]
#[tactic(auto, using(crate::proofs::ScannedNumbers::s32_scanned))]
pub fn scan_s32(bytes: &[u8]) -> Option<Scanned>
    ensures { Scans s32_format bytes.now result }
{
    scan_digits(bytes, true, 5, 8)
}

/// Scans the s64 that the bytes begin with.
#[inline(always)]
#[tactic(auto, using(crate::proofs::ScannedNumbers::s64_scanned))]
pub fn scan_s64(bytes: &[u8]) -> Option<Scanned>
    ensures { Scans s64_format bytes.now result }
{
    scan_digits(bytes, true, 10, 1)
}
