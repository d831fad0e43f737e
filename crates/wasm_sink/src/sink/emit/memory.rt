//! Emitters of instructions with memory arguments. They fail with `Alignment` if the alignment is 64 or more, before
//! they allocate.
ghost use Rattle.std.specs.Prelude.{◌<◌};
ghost use Rattle.std.specs.Borrow.{sem};
ghost use Rattle.wasm_sink.specs.Sink.{opcode_of, IsUnchangedAtErr, EmitsAligned};
ghost use Rattle.wasm_instructions.specs.Instructions.{IsCall};
ghost use Rattle.wasm_instructions.specs.formats.Opcodes.{after_fd};
ghost use Rattle.wasm_instructions.specs.declared.table.call.Operands.TheVariants as operands;

use crate::sink::InstructionSink;
use crate::sink::emit::append_opcode;
use std::alloc::Allocator;
use wasm_codec::encode::EncodeError;
use wasm_instructions::encode::put_mem_arg;
use wasm_instructions::operands::{Lane, MemArg};
use wasm_instructions::table::{Opcode, Prefix};

#[tactic(auto, using(crate::proofs::WrittenCalls::short_opcode, wasm_instructions::proofs::OpcodeLaws::in_table_short))]
impl<'a, A: Allocator> InstructionSink<'a, A> {
    /// Appends an instruction with a memory argument.
    #[inline(always)]
    pub(in crate::sink) fn emit_mem(
        self,
        prefix: Prefix,
        number: u32,
        memarg: MemArg,
    ) -> Result<InstructionSink<'a, A>, EncodeError>
        requires call { IsCall (opcode_of prefix number) (operands.Mem memarg) }
        ensures emits { EmitsAligned self.entry (opcode_of prefix number) (operands.Mem memarg) memarg.align result }
        ensures* unchanged { sem 𝓛 (IsUnchangedAtErr A.row A.Allocator self.entry result) }
    {
        let InstructionSink { bytes, calls } = self;
        if memarg.align >= 64 {
            return Err(EncodeError::Alignment);
        }
        let calls = append_opcode(bytes, calls, Opcode { prefix, number })?;
        put_mem_arg(bytes, memarg);
        Ok(InstructionSink { bytes, calls })
    }

    /// Appends an instruction after `0xFD`, with a memory argument and a lane index.
    #[inline(always)]
    pub(in crate::sink) fn emit_mem_lane(
        self,
        number: u32,
        memarg: MemArg,
        lane: Lane,
    ) -> Result<InstructionSink<'a, A>, EncodeError>
        requires call { IsCall (after_fd number) (operands.MemLane memarg lane) }
        ensures emits { EmitsAligned self.entry (after_fd number) (operands.MemLane memarg lane) memarg.align result }
        ensures* unchanged { sem 𝓛 (IsUnchangedAtErr A.row A.Allocator self.entry result) }
    {
        let InstructionSink { bytes, calls } = self;
        if memarg.align >= 64 {
            return Err(EncodeError::Alignment);
        }
        let calls = append_opcode(bytes, calls, Opcode::after_fd(number))?;
        put_mem_arg(bytes, memarg);
        bytes.push_reserved(lane);
        Ok(InstructionSink { bytes, calls })
    }
}
