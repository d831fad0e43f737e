//! Sizes and counts, written before the bytes or items that they count (Core 3.0, Lists, Code Section and Sections).
ghost use Rattle.std.specs.Prelude.{◌≡◌, ◌++◌, ◌+◌, ◌-◌, ◌^◌, ◌<◌, ◌≤◌, length, take, drop, vec_len, IfOk, IfErr, OnOk, OnErr};
ghost use Rattle.wasm_codec.specs.Leb128.{unsigned_leb128};
ghost use Rattle.wasm_codec.specs.declared.encode.EncodeError.TheVariants.{Memory};

use crate::encode::EncodeError;
use crate::encode::leb128::{put_u32, u32_len};
use std::alloc::{AllocError, Allocator};

/// Inserts the number of bytes from `start` on before them, in its minimal encoding.
///
/// The bytes already lie in `bytes`, so no second list is needed. Fails with `Memory` if the list can't grow; `bytes`
/// then stay as they were.
pub fn put_size_before<A: Allocator>(
    bytes: &mut Vec<u8, A>,
    start: usize,
) -> Result<(), EncodeError>
    requires start { start ≤ vec_len bytes.old }
    requires size { vec_len bytes.old - start < 2 ^ 32 }
    ensures ok { OnOk result (bytes.new.items ≡
        take start bytes.old.items ++ (unsigned_leb128 (length bytes.old.items - start) ++ drop start bytes.old.items)) }
    ensures err { OnErr result (bytes.new.items ≡ bytes.old.items) }
    ensures memory { IfErr result (λ e. e ≡ Memory) }
{
    let size = (bytes.len() - start) as u32;
    put_number_before(bytes, start, size)?;
    Ok(())
}

/// Replaces the count at `start` by another, in its minimal encoding, and moves what follows if the lengths differ.
///
/// If it fails, the bytes from `start` on may have lost their count.
pub fn mend_count<A: Allocator>(
    bytes: &mut Vec<u8, A>,
    start: usize,
    wrong: u32,
    right: u32,
) -> Result<(), AllocError>
    requires { start + length (unsigned_leb128 wrong) ≤ vec_len bytes.old }
    ensures ok { OnOk result (bytes.new.items ≡ take start bytes.old.items ++
        (unsigned_leb128 right ++ drop (start + length (unsigned_leb128 wrong)) bytes.old.items)) }
    ensures kept { take start bytes.new.items ≡ take start bytes.old.items }
{
    take_out(bytes, start, u32_len(wrong));
    put_number_before(bytes, start, right)
}

/// Removes `count` bytes at `start`.
fn take_out<A: Allocator>(bytes: &mut Vec<u8, A>, start: usize, count: usize)
    requires { start + count ≤ vec_len bytes.old }
    ensures { bytes.new.items ≡ take start bytes.old.items ++ drop (start + count) bytes.old.items }
{
    bytes[start..].rotate_left(count);
    bytes.truncate(bytes.len() - count);
}

/// Inserts a number before the bytes from `start` on, in its minimal encoding. If it fails, `bytes` stay as they were.
fn put_number_before<A: Allocator>(
    bytes: &mut Vec<u8, A>,
    start: usize,
    number: u32,
) -> Result<(), AllocError>
    requires { start ≤ vec_len bytes.old }
    ensures ok { OnOk result (bytes.new.items ≡
        take start bytes.old.items ++ (unsigned_leb128 number ++ drop start bytes.old.items)) }
    ensures err { OnErr result (bytes.new.items ≡ bytes.old.items) }
{
    let end = bytes.len();
    bytes.reserve(5)?;
    put_u32(bytes, number);
    let digits = bytes.len() - end;
    bytes[start..].rotate_right(digits);
    Ok(())
}

/// Writes the minimal digits of a number over exactly as many bytes.
#[tactic(auto, unfolding(crate::specs::Leb128::unsigned_leb128, crate::specs::Leb128::digits_of))]
pub(crate) fn write_u32(digits: &mut [u8], value: u32)
    requires { length digits.old ≡ length (unsigned_leb128 value) }
    ensures { digits.new ≡ unsigned_leb128 value }
{
    let low = 128 + (value % 128) as u8;
    let second = value / 128;
    let third = second / 128;
    let fourth = third / 128;
    match value {
        0..0x80 => digits.copy_from_slice(&[value as u8]),
        0x80..0x4000 => digits.copy_from_slice(&[low, second as u8]),
        0x4000..0x20_0000 => {
            digits.copy_from_slice(&[low, 128 + (second % 128) as u8, third as u8]);
        }
        0x20_0000..0x1000_0000 => digits.copy_from_slice(&[
            low,
            128 + (second % 128) as u8,
            128 + (third % 128) as u8,
            fourth as u8,
        ]),
        _ => digits.copy_from_slice(&[
            low,
            128 + (second % 128) as u8,
            128 + (third % 128) as u8,
            128 + (fourth % 128) as u8,
            (fourth / 128) as u8,
        ]),
    }
}
