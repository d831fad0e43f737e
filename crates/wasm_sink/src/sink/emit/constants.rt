//! Emitters of instructions with a constant or with lanes.
ghost use Rattle.std.specs.Borrow.{sem};
ghost use Rattle.wasm_sink.specs.Sink.{IsUnchangedAtErr, Emits};
ghost use Rattle.wasm_instructions.specs.Instructions.{IsCall};
ghost use Rattle.wasm_instructions.specs.formats.Opcodes.{after_fd, without_prefix};
ghost use Rattle.wasm_instructions.specs.declared.table.call.Operands.TheVariants as operands;

use crate::sink::InstructionSink;
use crate::sink::emit::append_opcode;
use std::alloc::Allocator;
use wasm_codec::encode::EncodeError;
use wasm_codec::encode::leb128::{put_i32, put_i64};
use wasm_instructions::encode::{put_bits_32, put_bits_64, put_lanes, put_vector};
use wasm_instructions::operands::{Ieee32, Ieee64, Lane, V128};
use wasm_instructions::table::Opcode;

#[tactic(auto, using(wasm_instructions::proofs::OpcodeLaws::in_table_short))]
impl<'a, A: Allocator> InstructionSink<'a, A> {
    /// Appends an instruction without a prefix, with a signed 32-bit number.
    #[inline(always)]
    pub(in crate::sink) fn emit_i32(
        self,
        number: u8,
        value: i32,
    ) -> Result<InstructionSink<'a, A>, EncodeError>
        requires call { IsCall (without_prefix number) (operands.I32 value) }
        ensures emits { Emits self.entry (without_prefix number) (operands.I32 value) result }
        ensures* unchanged { sem 𝓛 (IsUnchangedAtErr A.row A.Allocator self.entry result) }
    {
        let InstructionSink { bytes, calls } = self;
        let calls = append_opcode(bytes, calls, Opcode::without_prefix(number))?;
        put_i32(bytes, value);
        Ok(InstructionSink { bytes, calls })
    }

    /// Appends an instruction without a prefix, with a signed 64-bit number.
    #[inline(always)]
    pub(in crate::sink) fn emit_i64(
        self,
        number: u8,
        value: i64,
    ) -> Result<InstructionSink<'a, A>, EncodeError>
        requires call { IsCall (without_prefix number) (operands.I64 value) }
        ensures emits { Emits self.entry (without_prefix number) (operands.I64 value) result }
        ensures* unchanged { sem 𝓛 (IsUnchangedAtErr A.row A.Allocator self.entry result) }
    {
        let InstructionSink { bytes, calls } = self;
        let calls = append_opcode(bytes, calls, Opcode::without_prefix(number))?;
        put_i64(bytes, value);
        Ok(InstructionSink { bytes, calls })
    }

    /// Appends an instruction without a prefix, with the bits of a 32-bit floating-point number.
    #[inline(always)]
    pub(in crate::sink) fn emit_f32(
        self,
        number: u8,
        value: Ieee32,
    ) -> Result<InstructionSink<'a, A>, EncodeError>
        requires call { IsCall (without_prefix number) (operands.F32 value) }
        ensures emits { Emits self.entry (without_prefix number) (operands.F32 value) result }
        ensures* unchanged { sem 𝓛 (IsUnchangedAtErr A.row A.Allocator self.entry result) }
    {
        let InstructionSink { bytes, calls } = self;
        let calls = append_opcode(bytes, calls, Opcode::without_prefix(number))?;
        put_bits_32(bytes, value.bits());
        Ok(InstructionSink { bytes, calls })
    }

    /// Appends an instruction without a prefix, with the bits of a 64-bit floating-point number.
    #[inline(always)]
    pub(in crate::sink) fn emit_f64(
        self,
        number: u8,
        value: Ieee64,
    ) -> Result<InstructionSink<'a, A>, EncodeError>
        requires call { IsCall (without_prefix number) (operands.F64 value) }
        ensures emits { Emits self.entry (without_prefix number) (operands.F64 value) result }
        ensures* unchanged { sem 𝓛 (IsUnchangedAtErr A.row A.Allocator self.entry result) }
    {
        let InstructionSink { bytes, calls } = self;
        let calls = append_opcode(bytes, calls, Opcode::without_prefix(number))?;
        put_bits_64(bytes, value.bits());
        Ok(InstructionSink { bytes, calls })
    }

    /// Appends an instruction after `0xFD`, with a 128-bit vector.
    #[inline(always)]
    pub(in crate::sink) fn emit_v128(
        self,
        number: u32,
        value: V128,
    ) -> Result<InstructionSink<'a, A>, EncodeError>
        requires call { IsCall (after_fd number) (operands.V128 value) }
        ensures emits { Emits self.entry (after_fd number) (operands.V128 value) result }
        ensures* unchanged { sem 𝓛 (IsUnchangedAtErr A.row A.Allocator self.entry result) }
    {
        let InstructionSink { bytes, calls } = self;
        let calls = append_opcode(bytes, calls, Opcode::after_fd(number))?;
        put_vector(bytes, value);
        Ok(InstructionSink { bytes, calls })
    }

    /// Appends an instruction after `0xFD`, with sixteen lane indexes.
    #[inline(always)]
    pub(in crate::sink) fn emit_shuffle(
        self,
        number: u32,
        lanes: [Lane; 16],
    ) -> Result<InstructionSink<'a, A>, EncodeError>
        requires call { IsCall (after_fd number) (operands.Shuffle lanes) }
        ensures emits { Emits self.entry (after_fd number) (operands.Shuffle lanes) result }
        ensures* unchanged { sem 𝓛 (IsUnchangedAtErr A.row A.Allocator self.entry result) }
    {
        let InstructionSink { bytes, calls } = self;
        let calls = append_opcode(bytes, calls, Opcode::after_fd(number))?;
        put_lanes(bytes, lanes);
        Ok(InstructionSink { bytes, calls })
    }

    /// Appends an instruction after `0xFD`, with one lane index.
    #[inline(always)]
    pub(in crate::sink) fn emit_lane(
        self,
        number: u32,
        lane: Lane,
    ) -> Result<InstructionSink<'a, A>, EncodeError>
        requires call { IsCall (after_fd number) (operands.Lane lane) }
        ensures emits { Emits self.entry (after_fd number) (operands.Lane lane) result }
        ensures* unchanged { sem 𝓛 (IsUnchangedAtErr A.row A.Allocator self.entry result) }
    {
        let InstructionSink { bytes, calls } = self;
        let calls = append_opcode(bytes, calls, Opcode::after_fd(number))?;
        bytes.push_reserved(lane);
        Ok(InstructionSink { bytes, calls })
    }
}
