//! Writers of LEB128 numbers into reserved room (Core 3.0, Integers).
ghost use Rattle.std.specs.Prelude.{◌≡◌, ◌++◌, ◌∷◌, [], ◌+◌, ◌%◌, ◌/◌, ◌*◌, ◌^◌, ◌<◌, ◌≤◌, length, pos, vec_len, vec_capacity};
ghost use Rattle.wasm_codec.specs.Encoding.{IsMinimal};
ghost use Rattle.wasm_codec.specs.Leb128.{complemented, digits_of, unsigned_leb128, signed_leb128};
ghost use Rattle.wasm_codec.specs.formats.Numbers.{EncodesU32, EncodesU64, EncodesS32, EncodesS64, EncodesIndex};

use std::alloc::Allocator;

/// Returns the digit, or 127 minus the digit if `turn` is set. The digits of -1 - n are those of n, each subtracted
/// from 127.
#[inline(always)]
pub(crate) fn complemented(turn: bool, digit: u8) -> u8
    requires { digit < 128 }
    ensures value { result ≡ complemented turn digit }
    ensures below { result < 128 }
{
    if turn { 127 - digit } else { digit }
}

/// Writes the lowest digit of a number that has more digits. Returns the number without that digit.
#[inline(always)]
fn put_digit<A: Allocator>(bytes: &mut Vec<u8, A>, turn: bool, n: u64) -> u64
    requires { vec_len bytes.old + 1 ≤ vec_capacity bytes.old }
    ensures items { bytes.new.items ≡ bytes.old.items ++ (128 + complemented turn (n % 128)) ∷ [] }
    ensures len { vec_len bytes.new ≡ vec_len bytes.old + 1 }
    ensures capacity { vec_capacity bytes.new ≡ vec_capacity bytes.old }
    ensures rest { result ≡ n / 128 }
{
    bytes.push_reserved(128 + complemented(turn, (n % 128) as u8));
    n / 128
}

/// Writes the minimal digits of a number that has at most five. The last digit represents a number below `top`.
#[tactic(auto, unfolding(crate::specs::Leb128::digits_of))]
fn put_few<A: Allocator>(bytes: &mut Vec<u8, A>, turn: bool, top: u64, n: u64)
    requires room { vec_len bytes.old + 5 ≤ vec_capacity bytes.old }
    requires top { top ≤ 128 }
    requires few { n < top * 128 ^ 4 }
    ensures items { bytes.new.items ≡ bytes.old.items ++ digits_of turn top 9 n }
    ensures len { vec_len bytes.new ≤ vec_len bytes.old + 5 }
    ensures capacity { vec_capacity bytes.new ≡ vec_capacity bytes.old }
{
    if n < top {
        bytes.push_reserved(complemented(turn, n as u8));
        return;
    }
    let second = put_digit(bytes, turn, n);
    if second < top {
        bytes.push_reserved(complemented(turn, second as u8));
        return;
    }
    let third = put_digit(bytes, turn, second);
    if third < top {
        bytes.push_reserved(complemented(turn, third as u8));
        return;
    }
    let fourth = put_digit(bytes, turn, third);
    if fourth < top {
        bytes.push_reserved(complemented(turn, fourth as u8));
        return;
    }
    let fifth = put_digit(bytes, turn, fourth);
    bytes.push_reserved(complemented(turn, fifth as u8));
}

/// Writes the minimal digits of a number that has at most ten. The last digit represents a number below `top`.
#[tactic(auto, unfolding(crate::specs::Leb128::digits_of))]
fn put_many<A: Allocator>(bytes: &mut Vec<u8, A>, turn: bool, top: u64, n: u64)
    requires room { vec_len bytes.old + 10 ≤ vec_capacity bytes.old }
    requires top { top ≤ 128 }
    requires many { n < top * 128 ^ 9 }
    requires some { 64 ≤ top }
    ensures items { bytes.new.items ≡ bytes.old.items ++ digits_of turn top 9 n }
    ensures len { vec_len bytes.new ≤ vec_len bytes.old + 10 }
    ensures capacity { vec_capacity bytes.new ≡ vec_capacity bytes.old }
{
    if n / (128 * 128 * 128 * 128) < top {
        put_few(bytes, turn, top, n);
        return;
    }
    let second = put_digit(bytes, turn, n);
    let third = put_digit(bytes, turn, second);
    let fourth = put_digit(bytes, turn, third);
    let fifth = put_digit(bytes, turn, fourth);
    let sixth = put_digit(bytes, turn, fifth);
    put_few(bytes, turn, top, sixth);
}

/// Writes a u32 in 1 to 5 bytes (Core 3.0, Integers).
#[tactic(auto, unfolding(crate::specs::Leb128::unsigned_leb128))]
pub fn put_u32<A: Allocator>(bytes: &mut Vec<u8, A>, value: u32)
    requires { vec_len bytes.old + 5 ≤ vec_capacity bytes.old }
    ensures items { bytes.new.items ≡ bytes.old.items ++ unsigned_leb128 value }
    ensures minimal { IsMinimal EncodesU32 unsigned_leb128 value }
    ensures len { vec_len bytes.new ≤ vec_len bytes.old + 5 }
    ensures capacity { vec_capacity bytes.new ≡ vec_capacity bytes.old }
{
    put_few(bytes, false, 128, u64::from(value));
}

/// Writes a u64 in 1 to 10 bytes (Core 3.0, Integers).
#[tactic(auto, unfolding(crate::specs::Leb128::unsigned_leb128))]
pub fn put_u64<A: Allocator>(bytes: &mut Vec<u8, A>, value: u64)
    requires { vec_len bytes.old + 10 ≤ vec_capacity bytes.old }
    ensures items { bytes.new.items ≡ bytes.old.items ++ unsigned_leb128 value }
    ensures minimal { IsMinimal EncodesU64 unsigned_leb128 value }
    ensures len { vec_len bytes.new ≤ vec_len bytes.old + 10 }
    ensures capacity { vec_capacity bytes.new ≡ vec_capacity bytes.old }
{
    put_many(bytes, false, 128, value);
}

/// Writes an s32 in 1 to 5 bytes (Core 3.0, Integers).
#[tactic(auto, unfolding(crate::specs::Leb128::signed_leb128))]
pub fn put_i32<A: Allocator>(bytes: &mut Vec<u8, A>, value: i32)
    requires { vec_len bytes.old + 5 ≤ vec_capacity bytes.old }
    ensures items { bytes.new.items ≡ bytes.old.items ++ signed_leb128 value }
    ensures minimal { IsMinimal EncodesS32 signed_leb128 value }
    ensures len { vec_len bytes.new ≤ vec_len bytes.old + 5 }
    ensures capacity { vec_capacity bytes.new ≡ vec_capacity bytes.old }
{
    if value < 0 {
        put_few(bytes, true, 64, (-1 - i64::from(value)) as u64);
    } else {
        put_few(bytes, false, 64, value as u64);
    }
}

/// Writes an s64 in 1 to 10 bytes (Core 3.0, Integers).
#[tactic(auto, unfolding(crate::specs::Leb128::signed_leb128))]
pub fn put_i64<A: Allocator>(bytes: &mut Vec<u8, A>, value: i64)
    requires { vec_len bytes.old + 10 ≤ vec_capacity bytes.old }
    ensures items { bytes.new.items ≡ bytes.old.items ++ signed_leb128 value }
    ensures minimal { IsMinimal EncodesS64 signed_leb128 value }
    ensures len { vec_len bytes.new ≤ vec_len bytes.old + 10 }
    ensures capacity { vec_capacity bytes.new ≡ vec_capacity bytes.old }
{
    if value < 0 {
        put_many(bytes, true, 64, (-1 - value) as u64);
    } else {
        put_many(bytes, false, 64, value as u64);
    }
}

/// Writes a type index as a non-negative s33, in 1 to 5 bytes (Core 3.0, Heap Types).
#[tactic(auto, unfolding(crate::specs::Leb128::signed_leb128))]
pub fn put_index<A: Allocator>(bytes: &mut Vec<u8, A>, index: u32)
    requires { vec_len bytes.old + 5 ≤ vec_capacity bytes.old }
    ensures items { bytes.new.items ≡ bytes.old.items ++ signed_leb128 (pos index) }
    ensures minimal { IsMinimal EncodesIndex (λ index. signed_leb128 (pos index)) index }
    ensures len { vec_len bytes.new ≤ vec_len bytes.old + 5 }
    ensures capacity { vec_capacity bytes.new ≡ vec_capacity bytes.old }
{
    put_few(bytes, false, 64, u64::from(index));
}

/// Returns the number of bytes in the minimal encoding of a u32.
#[tactic(auto, unfolding(crate::specs::Leb128::unsigned_leb128, crate::specs::Leb128::digits_of))]
pub fn u32_len(value: u32) -> usize
    ensures value { result ≡ length (unsigned_leb128 value) }
    ensures most { result ≤ 5 }
{
    match value {
        0..0x80 => 1,
        0x80..0x4000 => 2,
        0x4000..0x20_0000 => 3,
        0x20_0000..0x1000_0000 => 4,
        _ => 5,
    }
}
