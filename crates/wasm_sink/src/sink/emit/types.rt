//! Emitters of instructions with block, heap, reference and value types.
ghost use Rattle.std.specs.Prelude.{◌∷◌, []};
ghost use Rattle.std.specs.Borrow.{sem};
ghost use Rattle.wasm_sink.specs.Sink.{opcode_of, IsUnchangedAtErr, Emits};
ghost use Rattle.wasm_instructions.specs.Instructions.{IsCall};
ghost use Rattle.wasm_instructions.specs.formats.Opcodes.{after_fb, without_prefix};
ghost use Rattle.wasm_instructions.specs.declared.table.call.Operands.TheVariants as operands;

use crate::sink::InstructionSink;
use crate::sink::emit::append_opcode;
use std::alloc::Allocator;
use wasm_codec::encode::EncodeError;
use wasm_codec::encode::leb128::put_u32;
use wasm_instructions::encode::{put_block_type, put_castop};
use wasm_instructions::operands::BlockType;
use wasm_instructions::table::{Opcode, Prefix};
use wasm_types::types::{HeapType, RefType, ValType, put_heap_type, put_val_type};

#[tactic(auto, using(crate::proofs::WrittenCalls::short_opcode, wasm_instructions::proofs::OpcodeLaws::in_table_short))]
impl<'a, A: Allocator> InstructionSink<'a, A> {
    /// Appends an instruction without a prefix, with a block type.
    #[inline(always)]
    pub(in crate::sink) fn emit_block(
        self,
        number: u8,
        block_type: BlockType,
    ) -> Result<InstructionSink<'a, A>, EncodeError>
        requires call { IsCall (without_prefix number) (operands.Block block_type) }
        ensures emits { Emits self.entry (without_prefix number) (operands.Block block_type) result }
        ensures* unchanged { sem 𝓛 (IsUnchangedAtErr A.row A.Allocator self.entry result) }
    {
        let InstructionSink { bytes, calls } = self;
        let calls = append_opcode(bytes, calls, Opcode::without_prefix(number))?;
        put_block_type(bytes, block_type);
        Ok(InstructionSink { bytes, calls })
    }

    /// Appends an instruction with a heap type.
    #[inline(always)]
    pub(in crate::sink) fn emit_heap(
        self,
        prefix: Prefix,
        number: u32,
        heap_type: HeapType,
    ) -> Result<InstructionSink<'a, A>, EncodeError>
        requires call { IsCall (opcode_of prefix number) (operands.Heap heap_type) }
        ensures emits { Emits self.entry (opcode_of prefix number) (operands.Heap heap_type) result }
        ensures* unchanged { sem 𝓛 (IsUnchangedAtErr A.row A.Allocator self.entry result) }
    {
        let InstructionSink { bytes, calls } = self;
        let calls = append_opcode(bytes, calls, Opcode { prefix, number })?;
        put_heap_type(bytes, heap_type);
        Ok(InstructionSink { bytes, calls })
    }

    /// Appends an instruction without a prefix, with a list of one value type.
    #[inline(always)]
    pub(in crate::sink) fn emit_type(
        self,
        number: u8,
        ty: ValType,
    ) -> Result<InstructionSink<'a, A>, EncodeError>
        requires call { IsCall (without_prefix number) (operands.Types (ty ∷ [])) }
        ensures emits { Emits self.entry (without_prefix number) (operands.Types (ty ∷ [])) result }
        ensures* unchanged { sem 𝓛 (IsUnchangedAtErr A.row A.Allocator self.entry result) }
    {
        let InstructionSink { bytes, calls } = self;
        let calls = append_opcode(bytes, calls, Opcode::without_prefix(number))?;
        put_u32(bytes, 1);
        put_val_type(bytes, ty);
        Ok(InstructionSink { bytes, calls })
    }

    /// Appends a branch on a cast, after `0xFB`.
    #[inline(always)]
    pub(in crate::sink) fn emit_cast(
        self,
        number: u32,
        label: u32,
        from: RefType,
        to: RefType,
    ) -> Result<InstructionSink<'a, A>, EncodeError>
        requires call { IsCall (after_fb number) (operands.Cast label from to) }
        ensures emits { Emits self.entry (after_fb number) (operands.Cast label from to) result }
        ensures* unchanged { sem 𝓛 (IsUnchangedAtErr A.row A.Allocator self.entry result) }
    {
        let InstructionSink { bytes, calls } = self;
        let calls = append_opcode(bytes, calls, Opcode::after_fb(number))?;
        put_castop(bytes, from.nullable, to.nullable);
        put_u32(bytes, label);
        put_heap_type(bytes, from.heap_type);
        put_heap_type(bytes, to.heap_type);
        Ok(InstructionSink { bytes, calls })
    }
}
