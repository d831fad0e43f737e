//! One emitter for each kind of operands: it appends the opcode, and then fills the reserved room with the operands. It
//! takes the opcode's number, and its prefix if opcodes of the kind differ in it.
ghost use Rattle.std.specs.Prelude.{◌≡◌, ◌++◌, ◌+◌, ◌*◌, ◌≤◌, IsOk, IfErr, IfOk, OnOk, OnErr, vec_len, vec_capacity};
ghost use Rattle.std.specs.Borrow.{sem};
ghost use Rattle.wasm_codec.specs.declared.encode.EncodeError.TheVariants.{Memory};
ghost use Rattle.wasm_instructions.specs.Instructions.{IsShort};
ghost use Rattle.wasm_instructions.specs.formats.Instructions.{opcode};
ghost use Rattle.wasm_sink.specs.Sink.{opcode_of, IsUnchangedAtErr, Emits};
ghost use Rattle.wasm_instructions.specs.Instructions.{IsCall};
ghost use Rattle.wasm_instructions.specs.declared.table.call.Operands.TheVariants as operands;

mod constants;
mod lists;
mod memory;
mod orders;
mod types;

use crate::sink::InstructionSink;
use std::alloc::Allocator;
use wasm_codec::encode::EncodeError;
use wasm_codec::encode::leb128::put_u32;
use wasm_instructions::appenders;
use wasm_instructions::encode::put_opcode;
use wasm_instructions::table::{Opcode, Prefix};

/// Appends an opcode to a list with room for so many calls, or makes room for this one if that is none. Returns for how
/// many calls there is room after this one, whose operands have 21 bytes of it. Appends nothing on error.
#[inline(always)]
fn append_opcode<A: Allocator>(
    bytes: &mut Vec<u8, A>,
    calls: u32,
    op: Opcode,
) -> Result<u32, EncodeError>
    requires short { IsShort op }
    requires reserved { vec_len bytes.old + 24 * calls ≤ vec_capacity bytes.old }
    ensures ok { OnOk result (bytes.new.items ≡ bytes.old.items ++ opcode.bytes op) }
    ensures left { IfOk result (λ left. vec_len bytes.new + 21 + 24 * left ≤ vec_capacity bytes.new) }
    ensures takes { IfOk result (λ left. calls ≤ left + 1) }
    ensures err { OnErr result (bytes.new.items ≡ bytes.old.items) }
    ensures memory { IfErr result (λ e. e ≡ Memory) }
    ensures room { vec_len bytes.old + 24 ≤ vec_capacity bytes.old → IsOk result }
{
    if calls == 0 {
        appenders::append_opcode(bytes, op)?;
        return Ok(0);
    }
    put_opcode(bytes, op);
    Ok(calls - 1)
}

#[tactic(auto, using(crate::proofs::WrittenCalls::short_opcode))]
impl<'a, A: Allocator> InstructionSink<'a, A> {
    /// Appends an instruction without operands.
    #[inline(always)]
    pub(super) fn emit(
        self,
        prefix: Prefix,
        number: u32,
    ) -> Result<InstructionSink<'a, A>, EncodeError>
        requires call { IsCall (opcode_of prefix number) operands.None }
        ensures emits { Emits self.entry (opcode_of prefix number) operands.None result }
        ensures* unchanged { sem 𝓛 (IsUnchangedAtErr A.row A.Allocator self.entry result) }
    {
        let InstructionSink { bytes, calls } = self;
        let calls = append_opcode(bytes, calls, Opcode { prefix, number })?;
        Ok(InstructionSink { bytes, calls })
    }

    /// Appends an instruction with one index.
    #[inline(always)]
    pub(super) fn emit_index(
        self,
        prefix: Prefix,
        number: u32,
        index: u32,
    ) -> Result<InstructionSink<'a, A>, EncodeError>
        requires call { IsCall (opcode_of prefix number) (operands.Index index) }
        ensures emits { Emits self.entry (opcode_of prefix number) (operands.Index index) result }
        ensures* unchanged { sem 𝓛 (IsUnchangedAtErr A.row A.Allocator self.entry result) }
    {
        let InstructionSink { bytes, calls } = self;
        let calls = append_opcode(bytes, calls, Opcode { prefix, number })?;
        put_u32(bytes, index);
        Ok(InstructionSink { bytes, calls })
    }

    /// Appends an instruction with two indexes, `first` before `second`.
    #[inline(always)]
    pub(super) fn emit_two_indexes(
        self,
        prefix: Prefix,
        number: u32,
        first: u32,
        second: u32,
    ) -> Result<InstructionSink<'a, A>, EncodeError>
        requires call { IsCall (opcode_of prefix number) (operands.TwoIndexes first second) }
        ensures emits { Emits self.entry (opcode_of prefix number) (operands.TwoIndexes first second) result }
        ensures* unchanged { sem 𝓛 (IsUnchangedAtErr A.row A.Allocator self.entry result) }
    {
        let InstructionSink { bytes, calls } = self;
        let calls = append_opcode(bytes, calls, Opcode { prefix, number })?;
        put_u32(bytes, first);
        put_u32(bytes, second);
        Ok(InstructionSink { bytes, calls })
    }
}
