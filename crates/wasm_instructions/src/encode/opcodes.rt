//! Writers of opcodes into reserved room (Core 3.0, Instructions).
ghost use Rattle.std.specs.Prelude.{◌≡◌, ◌++◌, ◌∷◌, ◌+◌, ◌^◌, ◌<◌, ◌≤◌, vec_len, vec_capacity};
ghost use Rattle.wasm_instructions.specs.Instructions.{IsShort};
ghost use Rattle.wasm_instructions.specs.formats.Instructions.{opcode};
ghost use Rattle.wasm_codec.specs.Leb128.{unsigned_leb128};

use crate::table::{Opcode, Prefix};
use std::alloc::Allocator;

/// Writes a prefix byte, and the opcode's number in one byte or two.
#[tactic(auto, unfolding(wasm_codec::specs::Leb128::unsigned_leb128, wasm_codec::specs::Leb128::digits_of))]
fn put_prefixed<A: Allocator>(bytes: &mut Vec<u8, A>, prefix: u8, number: u32)
    requires short { number < 2 ^ 14 }
    requires room { vec_len bytes.old + 3 ≤ vec_capacity bytes.old }
    ensures items { bytes.new.items ≡ bytes.old.items ++ prefix ∷ unsigned_leb128 number }
    ensures len { vec_len bytes.new ≤ vec_len bytes.old + 3 }
    ensures capacity { vec_capacity bytes.new ≡ vec_capacity bytes.old }
{
    bytes.push_reserved(prefix);
    if number < 0x80 {
        bytes.push_reserved(number as u8);
    } else {
        bytes.push_reserved(0x80 + (number % 0x80) as u8);
        bytes.push_reserved((number / 0x80) as u8);
    }
}

/// Writes an opcode in 1 to 3 bytes (Core 3.0, Instructions).
#[inline(always)]
#[tactic(auto, unfolding(crate::specs::formats::Instructions::opcode))]
pub fn put_opcode<A: Allocator>(bytes: &mut Vec<u8, A>, op: Opcode)
    requires short { IsShort op }
    requires room { vec_len bytes.old + 3 ≤ vec_capacity bytes.old }
    ensures items { bytes.new.items ≡ bytes.old.items ++ opcode.bytes op }
    ensures len { vec_len bytes.new ≤ vec_len bytes.old + 3 }
    ensures capacity { vec_capacity bytes.new ≡ vec_capacity bytes.old }
{
    match op.prefix {
        Prefix::None => bytes.push_reserved(op.number as u8),
        Prefix::Fb => put_prefixed(bytes, 0xfb, op.number),
        Prefix::Fc => put_prefixed(bytes, 0xfc, op.number),
        Prefix::Fd => put_prefixed(bytes, 0xfd, op.number),
        Prefix::Fe => put_prefixed(bytes, 0xfe, op.number),
    }
}
