//! Appenders of opcodes and of instructions with a list.
ghost use Rattle.std.specs.Prelude.{◌≡◌, ◌++◌, ◌+◌, ◌≤◌, IsOk, IfErr, OnOk, OnErr, vec_len, vec_capacity};
ghost use Rattle.wasm_codec.specs.declared.encode.EncodeError.TheVariants.{Memory};
ghost use Rattle.wasm_instructions.specs.Instructions.{IsShort};
ghost use Rattle.wasm_instructions.specs.formats.Instructions.{opcode};

mod items;
mod lists;

use crate::encode::put_opcode;
use crate::table::Opcode;
pub use items::Item;
pub(crate) use lists::append_held;
pub use lists::{Before, append_list_call, append_type_list};
use std::alloc::Allocator;
use wasm_codec::encode::EncodeError;

/// The bytes to reserve for an instruction without a list.
pub(crate) const ROOM: usize = 24;

/// Appends an opcode, and reserves room for its operands if none of them is a list. Appends nothing on error.
///
/// Fails with `Memory` if it can't reserve 24 bytes.
#[inline(always)]
pub fn append_opcode<A: Allocator>(bytes: &mut Vec<u8, A>, op: Opcode) -> Result<(), EncodeError>
    requires short { IsShort op }
    ensures ok { OnOk result (bytes.new.items ≡ bytes.old.items ++ opcode.bytes op) }
    ensures reserved { OnOk result (vec_len bytes.new + 21 ≤ vec_capacity bytes.new) }
    ensures err { OnErr result (bytes.new.items ≡ bytes.old.items) }
    ensures memory { IfErr result (λ e. e ≡ Memory) }
    ensures room { vec_len bytes.old + 24 ≤ vec_capacity bytes.old → IsOk result }
{
    bytes.reserve(ROOM)?;
    put_opcode(bytes, op);
    Ok(())
}
