//! Emitters of instructions with orderings (threads proposal).
ghost use Rattle.std.specs.Borrow.{sem};
ghost use Rattle.wasm_sink.specs.Sink.{IsUnchangedAtErr, Emits};
ghost use Rattle.wasm_instructions.specs.Instructions.{IsCall};
ghost use Rattle.wasm_instructions.specs.formats.Opcodes.{after_fe};
ghost use Rattle.wasm_instructions.specs.declared.table.call.Operands.TheVariants as operands;

use crate::sink::InstructionSink;
use crate::sink::emit::append_opcode;
use std::alloc::Allocator;
use wasm_codec::encode::EncodeError;
use wasm_codec::encode::leb128::put_u32;
use wasm_instructions::encode::put_ordering;
use wasm_instructions::operands::Ordering;
use wasm_instructions::table::Opcode;

#[tactic(auto, using(wasm_instructions::proofs::OpcodeLaws::in_table_short))]
impl<'a, A: Allocator> InstructionSink<'a, A> {
    /// Appends an instruction after `0xFE`, with an ordering.
    #[inline(always)]
    pub(in crate::sink) fn emit_order(
        self,
        number: u32,
        ordering: Ordering,
    ) -> Result<InstructionSink<'a, A>, EncodeError>
        requires call { IsCall (after_fe number) (operands.Order ordering) }
        ensures emits { Emits self.entry (after_fe number) (operands.Order ordering) result }
        ensures* unchanged { sem 𝓛 (IsUnchangedAtErr A.row A.Allocator self.entry result) }
    {
        let InstructionSink { bytes, calls } = self;
        let calls = append_opcode(bytes, calls, Opcode::after_fe(number))?;
        put_ordering(bytes, ordering);
        Ok(InstructionSink { bytes, calls })
    }

    /// Appends an instruction after `0xFE`, with an ordering and an index.
    #[inline(always)]
    pub(in crate::sink) fn emit_order_index(
        self,
        number: u32,
        ordering: Ordering,
        index: u32,
    ) -> Result<InstructionSink<'a, A>, EncodeError>
        requires call { IsCall (after_fe number) (operands.OrderIndex ordering index) }
        ensures emits { Emits self.entry (after_fe number) (operands.OrderIndex ordering index) result }
        ensures* unchanged { sem 𝓛 (IsUnchangedAtErr A.row A.Allocator self.entry result) }
    {
        let InstructionSink { bytes, calls } = self;
        let calls = append_opcode(bytes, calls, Opcode::after_fe(number))?;
        put_ordering(bytes, ordering);
        put_u32(bytes, index);
        Ok(InstructionSink { bytes, calls })
    }

    /// Appends an instruction after `0xFE`, with an ordering and two indexes, `first` before `second`.
    #[inline(always)]
    pub(in crate::sink) fn emit_order_two_indexes(
        self,
        number: u32,
        ordering: Ordering,
        first: u32,
        second: u32,
    ) -> Result<InstructionSink<'a, A>, EncodeError>
        requires call { IsCall (after_fe number) (operands.OrderTwoIndexes ordering first second) }
        ensures emits { Emits self.entry (after_fe number) (operands.OrderTwoIndexes ordering first second) result }
        ensures* unchanged { sem 𝓛 (IsUnchangedAtErr A.row A.Allocator self.entry result) }
    {
        let InstructionSink { bytes, calls } = self;
        let calls = append_opcode(bytes, calls, Opcode::after_fe(number))?;
        put_ordering(bytes, ordering);
        put_u32(bytes, first);
        put_u32(bytes, second);
        Ok(InstructionSink { bytes, calls })
    }
}
