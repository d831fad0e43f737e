//! Emitters of instructions with a list. They fail with `TooLong` if the list has more than 4,294,967,295 items.
ghost use Rattle.std.specs.Prelude.{◌≡◌, Some, length};
ghost use Rattle.std.specs.Borrow.{sem};
ghost use Rattle.wasm_sink.specs.Sink.{IsUnchangedAtErr};
ghost use Rattle.wasm_instructions.specs.Instructions.{IsCall};
ghost use Rattle.wasm_instructions.specs.formats.Opcodes.{without_prefix, opcode_kind};
ghost use Rattle.wasm_instructions.specs.declared.table.opcode.Kind.TheVariants as kinds;
ghost use Rattle.wasm_instructions.specs.declared.table.call.Operands.TheVariants as operands;
ghost use Rattle.std.specs.Iterator.{size};
ghost use Rattle.wasm_sink.specs.ListCalls.{EmitsItems, EmitsList};

use crate::sink::InstructionSink;
use std::alloc::Allocator;
use wasm_codec::encode::EncodeError;
use wasm_instructions::appenders::{Before, append_list_call, append_type_list};
use wasm_instructions::operands::{BlockType, Catch, Handle};
use wasm_instructions::table::Opcode;
use wasm_types::types::ValType;

#[tactic(auto, using(wasm_instructions::proofs::OpcodeLaws::in_table_short))]
impl<'a, A: Allocator> InstructionSink<'a, A> {
    /// Appends an instruction without a prefix, with a list of value types.
    pub(in crate::sink) fn emit_types(
        self,
        number: u8,
        types: &[ValType],
    ) -> Result<InstructionSink<'a, A>, EncodeError>
        requires call { IsCall (without_prefix number) (operands.Types types.now) }
        ensures emits { EmitsList self.entry (without_prefix number) (operands.Types types.now) (length types.now) result }
        ensures* unchanged { sem 𝓛 (IsUnchangedAtErr A.row A.Allocator self.entry result) }
    {
        let InstructionSink { bytes, .. } = self;
        append_type_list(bytes, Opcode::without_prefix(number), types)?;
        Ok(InstructionSink { bytes, calls: 0 })
    }

    /// Appends a branch table: `labels`, and the label `default` for every other operand.
    pub(in crate::sink) fn emit_branch_table<I: ExactSizeIterator<Item = u32>>(
        self,
        number: u8,
        labels: I,
        default: u32,
    ) -> Result<InstructionSink<'a, A>, EncodeError>
        requires call { opcode_kind (without_prefix number) ≡ Some kinds.BrTable }
        requires can { I.can_next labels }
        ensures emits { EmitsItems I.next_gives self.entry (without_prefix number) (λ xs. operands.BrTable xs default) labels (size (I.remaining labels)) result }
        ensures* unchanged { sem 𝓛 (IsUnchangedAtErr A.row A.Allocator self.entry result) }
    {
        let InstructionSink { bytes, .. } = self;
        let op = Opcode::without_prefix(number);
        append_list_call(bytes, op, Before::Nothing, labels, Some(default))?;
        Ok(InstructionSink { bytes, calls: 0 })
    }

    /// Appends an instruction with a block type and catch clauses.
    pub(in crate::sink) fn emit_try_table<I: ExactSizeIterator<Item = Catch>>(
        self,
        number: u8,
        block_type: BlockType,
        clauses: I,
    ) -> Result<InstructionSink<'a, A>, EncodeError>
        requires call { opcode_kind (without_prefix number) ≡ Some kinds.TryTable }
        requires can { I.can_next clauses }
        ensures emits { EmitsItems I.next_gives self.entry (without_prefix number) (λ xs. operands.TryTable block_type xs) clauses (size (I.remaining clauses)) result }
        ensures* unchanged { sem 𝓛 (IsUnchangedAtErr A.row A.Allocator self.entry result) }
    {
        let InstructionSink { bytes, .. } = self;
        let op = Opcode::without_prefix(number);
        append_list_call(bytes, op, Before::Block(block_type), clauses, None)?;
        Ok(InstructionSink { bytes, calls: 0 })
    }

    /// Appends an instruction with an index and handlers.
    pub(in crate::sink) fn emit_resume<I: ExactSizeIterator<Item = Handle>>(
        self,
        number: u8,
        index: u32,
        handlers: I,
    ) -> Result<InstructionSink<'a, A>, EncodeError>
        requires call { opcode_kind (without_prefix number) ≡ Some kinds.Resume }
        requires can { I.can_next handlers }
        ensures emits { EmitsItems I.next_gives self.entry (without_prefix number) (λ xs. operands.Resume index xs) handlers (size (I.remaining handlers)) result }
        ensures* unchanged { sem 𝓛 (IsUnchangedAtErr A.row A.Allocator self.entry result) }
    {
        let InstructionSink { bytes, .. } = self;
        let op = Opcode::without_prefix(number);
        append_list_call(bytes, op, Before::Index(index), handlers, None)?;
        Ok(InstructionSink { bytes, calls: 0 })
    }

    /// Appends an instruction with two indexes, `first` before `second`, and handlers.
    pub(in crate::sink) fn emit_resume_throw<I: ExactSizeIterator<Item = Handle>>(
        self,
        number: u8,
        first: u32,
        second: u32,
        handlers: I,
    ) -> Result<InstructionSink<'a, A>, EncodeError>
        requires call { opcode_kind (without_prefix number) ≡ Some kinds.ResumeThrow }
        requires can { I.can_next handlers }
        ensures emits { EmitsItems I.next_gives self.entry (without_prefix number) (λ xs. operands.ResumeThrow first second xs) handlers (size (I.remaining handlers)) result }
        ensures* unchanged { sem 𝓛 (IsUnchangedAtErr A.row A.Allocator self.entry result) }
    {
        let InstructionSink { bytes, .. } = self;
        let op = Opcode::without_prefix(number);
        append_list_call(bytes, op, Before::TwoIndexes(first, second), handlers, None)?;
        Ok(InstructionSink { bytes, calls: 0 })
    }
}
