//! Operations on eight 16-bit integers (Core 3.0, Vector Instructions).
ghost use Rattle.std.specs.Borrow.{sem};
ghost use Rattle.wasm_sink.specs.Sink.{IsUnchangedAtErr, Emits};
ghost use Rattle.wasm_instructions.specs.formats.Opcodes.{after_fd};
ghost use Rattle.wasm_instructions.specs.declared.table.call.Operands.TheVariants as operands;

use crate::sink::InstructionSink;
use std::alloc::Allocator;
use wasm_codec::encode::EncodeError;
use wasm_instructions::table::Prefix;

#[tactic(auto, unfolding(wasm_instructions::specs::formats::Opcodes::ranges))]
impl<'a, A: Allocator> InstructionSink<'a, A> {
    /// `i16x8.extadd_pairwise_i8x16_s`: `0xFD 0x7C`.
    #[inline(always)]
    pub fn i16x8_extadd_pairwise_i8x16_s(self) -> Result<InstructionSink<'a, A>, EncodeError>
        ensures emits { Emits self.entry (after_fd 0x7c) operands.None result }
        ensures* unchanged { sem 𝓛 (IsUnchangedAtErr A.row A.Allocator self.entry result) }
    {
        self.emit(Prefix::Fd, 0x7c)
    }

    /// `i16x8.extadd_pairwise_i8x16_u`: `0xFD 0x7D`.
    #[inline(always)]
    pub fn i16x8_extadd_pairwise_i8x16_u(self) -> Result<InstructionSink<'a, A>, EncodeError>
        ensures emits { Emits self.entry (after_fd 0x7d) operands.None result }
        ensures* unchanged { sem 𝓛 (IsUnchangedAtErr A.row A.Allocator self.entry result) }
    {
        self.emit(Prefix::Fd, 0x7d)
    }

    /// `i16x8.abs`: `0xFD 0x80 0x01`.
    #[inline(always)]
    pub fn i16x8_abs(self) -> Result<InstructionSink<'a, A>, EncodeError>
        ensures emits { Emits self.entry (after_fd 0x80) operands.None result }
        ensures* unchanged { sem 𝓛 (IsUnchangedAtErr A.row A.Allocator self.entry result) }
    {
        self.emit(Prefix::Fd, 0x80)
    }

    /// `i16x8.neg`: `0xFD 0x81 0x01`.
    #[inline(always)]
    pub fn i16x8_neg(self) -> Result<InstructionSink<'a, A>, EncodeError>
        ensures emits { Emits self.entry (after_fd 0x81) operands.None result }
        ensures* unchanged { sem 𝓛 (IsUnchangedAtErr A.row A.Allocator self.entry result) }
    {
        self.emit(Prefix::Fd, 0x81)
    }

    /// `i16x8.q15mulr_sat_s`: `0xFD 0x82 0x01`.
    #[inline(always)]
    pub fn i16x8_q15mulr_sat_s(self) -> Result<InstructionSink<'a, A>, EncodeError>
        ensures emits { Emits self.entry (after_fd 0x82) operands.None result }
        ensures* unchanged { sem 𝓛 (IsUnchangedAtErr A.row A.Allocator self.entry result) }
    {
        self.emit(Prefix::Fd, 0x82)
    }

    /// `i16x8.all_true`: `0xFD 0x83 0x01`.
    #[inline(always)]
    pub fn i16x8_all_true(self) -> Result<InstructionSink<'a, A>, EncodeError>
        ensures emits { Emits self.entry (after_fd 0x83) operands.None result }
        ensures* unchanged { sem 𝓛 (IsUnchangedAtErr A.row A.Allocator self.entry result) }
    {
        self.emit(Prefix::Fd, 0x83)
    }

    /// `i16x8.bitmask`: `0xFD 0x84 0x01`.
    #[inline(always)]
    pub fn i16x8_bitmask(self) -> Result<InstructionSink<'a, A>, EncodeError>
        ensures emits { Emits self.entry (after_fd 0x84) operands.None result }
        ensures* unchanged { sem 𝓛 (IsUnchangedAtErr A.row A.Allocator self.entry result) }
    {
        self.emit(Prefix::Fd, 0x84)
    }

    /// `i16x8.narrow_i32x4_s`: `0xFD 0x85 0x01`.
    #[inline(always)]
    pub fn i16x8_narrow_i32x4_s(self) -> Result<InstructionSink<'a, A>, EncodeError>
        ensures emits { Emits self.entry (after_fd 0x85) operands.None result }
        ensures* unchanged { sem 𝓛 (IsUnchangedAtErr A.row A.Allocator self.entry result) }
    {
        self.emit(Prefix::Fd, 0x85)
    }

    /// `i16x8.narrow_i32x4_u`: `0xFD 0x86 0x01`.
    #[inline(always)]
    pub fn i16x8_narrow_i32x4_u(self) -> Result<InstructionSink<'a, A>, EncodeError>
        ensures emits { Emits self.entry (after_fd 0x86) operands.None result }
        ensures* unchanged { sem 𝓛 (IsUnchangedAtErr A.row A.Allocator self.entry result) }
    {
        self.emit(Prefix::Fd, 0x86)
    }

    /// `i16x8.extend_low_i8x16_s`: `0xFD 0x87 0x01`.
    #[inline(always)]
    pub fn i16x8_extend_low_i8x16_s(self) -> Result<InstructionSink<'a, A>, EncodeError>
        ensures emits { Emits self.entry (after_fd 0x87) operands.None result }
        ensures* unchanged { sem 𝓛 (IsUnchangedAtErr A.row A.Allocator self.entry result) }
    {
        self.emit(Prefix::Fd, 0x87)
    }

    /// `i16x8.extend_high_i8x16_s`: `0xFD 0x88 0x01`.
    #[inline(always)]
    pub fn i16x8_extend_high_i8x16_s(self) -> Result<InstructionSink<'a, A>, EncodeError>
        ensures emits { Emits self.entry (after_fd 0x88) operands.None result }
        ensures* unchanged { sem 𝓛 (IsUnchangedAtErr A.row A.Allocator self.entry result) }
    {
        self.emit(Prefix::Fd, 0x88)
    }

    /// `i16x8.extend_low_i8x16_u`: `0xFD 0x89 0x01`.
    #[inline(always)]
    pub fn i16x8_extend_low_i8x16_u(self) -> Result<InstructionSink<'a, A>, EncodeError>
        ensures emits { Emits self.entry (after_fd 0x89) operands.None result }
        ensures* unchanged { sem 𝓛 (IsUnchangedAtErr A.row A.Allocator self.entry result) }
    {
        self.emit(Prefix::Fd, 0x89)
    }

    /// `i16x8.extend_high_i8x16_u`: `0xFD 0x8A 0x01`.
    #[inline(always)]
    pub fn i16x8_extend_high_i8x16_u(self) -> Result<InstructionSink<'a, A>, EncodeError>
        ensures emits { Emits self.entry (after_fd 0x8a) operands.None result }
        ensures* unchanged { sem 𝓛 (IsUnchangedAtErr A.row A.Allocator self.entry result) }
    {
        self.emit(Prefix::Fd, 0x8a)
    }

    /// `i16x8.shl`: `0xFD 0x8B 0x01`.
    #[inline(always)]
    pub fn i16x8_shl(self) -> Result<InstructionSink<'a, A>, EncodeError>
        ensures emits { Emits self.entry (after_fd 0x8b) operands.None result }
        ensures* unchanged { sem 𝓛 (IsUnchangedAtErr A.row A.Allocator self.entry result) }
    {
        self.emit(Prefix::Fd, 0x8b)
    }

    /// `i16x8.shr_s`: `0xFD 0x8C 0x01`.
    #[inline(always)]
    pub fn i16x8_shr_s(self) -> Result<InstructionSink<'a, A>, EncodeError>
        ensures emits { Emits self.entry (after_fd 0x8c) operands.None result }
        ensures* unchanged { sem 𝓛 (IsUnchangedAtErr A.row A.Allocator self.entry result) }
    {
        self.emit(Prefix::Fd, 0x8c)
    }

    /// `i16x8.shr_u`: `0xFD 0x8D 0x01`.
    #[inline(always)]
    pub fn i16x8_shr_u(self) -> Result<InstructionSink<'a, A>, EncodeError>
        ensures emits { Emits self.entry (after_fd 0x8d) operands.None result }
        ensures* unchanged { sem 𝓛 (IsUnchangedAtErr A.row A.Allocator self.entry result) }
    {
        self.emit(Prefix::Fd, 0x8d)
    }

    /// `i16x8.add`: `0xFD 0x8E 0x01`.
    #[inline(always)]
    pub fn i16x8_add(self) -> Result<InstructionSink<'a, A>, EncodeError>
        ensures emits { Emits self.entry (after_fd 0x8e) operands.None result }
        ensures* unchanged { sem 𝓛 (IsUnchangedAtErr A.row A.Allocator self.entry result) }
    {
        self.emit(Prefix::Fd, 0x8e)
    }

    /// `i16x8.add_sat_s`: `0xFD 0x8F 0x01`.
    #[inline(always)]
    pub fn i16x8_add_sat_s(self) -> Result<InstructionSink<'a, A>, EncodeError>
        ensures emits { Emits self.entry (after_fd 0x8f) operands.None result }
        ensures* unchanged { sem 𝓛 (IsUnchangedAtErr A.row A.Allocator self.entry result) }
    {
        self.emit(Prefix::Fd, 0x8f)
    }

    /// `i16x8.add_sat_u`: `0xFD 0x90 0x01`.
    #[inline(always)]
    pub fn i16x8_add_sat_u(self) -> Result<InstructionSink<'a, A>, EncodeError>
        ensures emits { Emits self.entry (after_fd 0x90) operands.None result }
        ensures* unchanged { sem 𝓛 (IsUnchangedAtErr A.row A.Allocator self.entry result) }
    {
        self.emit(Prefix::Fd, 0x90)
    }

    /// `i16x8.sub`: `0xFD 0x91 0x01`.
    #[inline(always)]
    pub fn i16x8_sub(self) -> Result<InstructionSink<'a, A>, EncodeError>
        ensures emits { Emits self.entry (after_fd 0x91) operands.None result }
        ensures* unchanged { sem 𝓛 (IsUnchangedAtErr A.row A.Allocator self.entry result) }
    {
        self.emit(Prefix::Fd, 0x91)
    }

    /// `i16x8.sub_sat_s`: `0xFD 0x92 0x01`.
    #[inline(always)]
    pub fn i16x8_sub_sat_s(self) -> Result<InstructionSink<'a, A>, EncodeError>
        ensures emits { Emits self.entry (after_fd 0x92) operands.None result }
        ensures* unchanged { sem 𝓛 (IsUnchangedAtErr A.row A.Allocator self.entry result) }
    {
        self.emit(Prefix::Fd, 0x92)
    }

    /// `i16x8.sub_sat_u`: `0xFD 0x93 0x01`.
    #[inline(always)]
    pub fn i16x8_sub_sat_u(self) -> Result<InstructionSink<'a, A>, EncodeError>
        ensures emits { Emits self.entry (after_fd 0x93) operands.None result }
        ensures* unchanged { sem 𝓛 (IsUnchangedAtErr A.row A.Allocator self.entry result) }
    {
        self.emit(Prefix::Fd, 0x93)
    }

    /// `i16x8.mul`: `0xFD 0x95 0x01`.
    #[inline(always)]
    pub fn i16x8_mul(self) -> Result<InstructionSink<'a, A>, EncodeError>
        ensures emits { Emits self.entry (after_fd 0x95) operands.None result }
        ensures* unchanged { sem 𝓛 (IsUnchangedAtErr A.row A.Allocator self.entry result) }
    {
        self.emit(Prefix::Fd, 0x95)
    }

    /// `i16x8.min_s`: `0xFD 0x96 0x01`.
    #[inline(always)]
    pub fn i16x8_min_s(self) -> Result<InstructionSink<'a, A>, EncodeError>
        ensures emits { Emits self.entry (after_fd 0x96) operands.None result }
        ensures* unchanged { sem 𝓛 (IsUnchangedAtErr A.row A.Allocator self.entry result) }
    {
        self.emit(Prefix::Fd, 0x96)
    }

    /// `i16x8.min_u`: `0xFD 0x97 0x01`.
    #[inline(always)]
    pub fn i16x8_min_u(self) -> Result<InstructionSink<'a, A>, EncodeError>
        ensures emits { Emits self.entry (after_fd 0x97) operands.None result }
        ensures* unchanged { sem 𝓛 (IsUnchangedAtErr A.row A.Allocator self.entry result) }
    {
        self.emit(Prefix::Fd, 0x97)
    }

    /// `i16x8.max_s`: `0xFD 0x98 0x01`.
    #[inline(always)]
    pub fn i16x8_max_s(self) -> Result<InstructionSink<'a, A>, EncodeError>
        ensures emits { Emits self.entry (after_fd 0x98) operands.None result }
        ensures* unchanged { sem 𝓛 (IsUnchangedAtErr A.row A.Allocator self.entry result) }
    {
        self.emit(Prefix::Fd, 0x98)
    }

    /// `i16x8.max_u`: `0xFD 0x99 0x01`.
    #[inline(always)]
    pub fn i16x8_max_u(self) -> Result<InstructionSink<'a, A>, EncodeError>
        ensures emits { Emits self.entry (after_fd 0x99) operands.None result }
        ensures* unchanged { sem 𝓛 (IsUnchangedAtErr A.row A.Allocator self.entry result) }
    {
        self.emit(Prefix::Fd, 0x99)
    }

    /// `i16x8.avgr_u`: `0xFD 0x9B 0x01`.
    #[inline(always)]
    pub fn i16x8_avgr_u(self) -> Result<InstructionSink<'a, A>, EncodeError>
        ensures emits { Emits self.entry (after_fd 0x9b) operands.None result }
        ensures* unchanged { sem 𝓛 (IsUnchangedAtErr A.row A.Allocator self.entry result) }
    {
        self.emit(Prefix::Fd, 0x9b)
    }

    /// `i16x8.extmul_low_i8x16_s`: `0xFD 0x9C 0x01`.
    #[inline(always)]
    pub fn i16x8_extmul_low_i8x16_s(self) -> Result<InstructionSink<'a, A>, EncodeError>
        ensures emits { Emits self.entry (after_fd 0x9c) operands.None result }
        ensures* unchanged { sem 𝓛 (IsUnchangedAtErr A.row A.Allocator self.entry result) }
    {
        self.emit(Prefix::Fd, 0x9c)
    }

    /// `i16x8.extmul_high_i8x16_s`: `0xFD 0x9D 0x01`.
    #[inline(always)]
    pub fn i16x8_extmul_high_i8x16_s(self) -> Result<InstructionSink<'a, A>, EncodeError>
        ensures emits { Emits self.entry (after_fd 0x9d) operands.None result }
        ensures* unchanged { sem 𝓛 (IsUnchangedAtErr A.row A.Allocator self.entry result) }
    {
        self.emit(Prefix::Fd, 0x9d)
    }

    /// `i16x8.extmul_low_i8x16_u`: `0xFD 0x9E 0x01`.
    #[inline(always)]
    pub fn i16x8_extmul_low_i8x16_u(self) -> Result<InstructionSink<'a, A>, EncodeError>
        ensures emits { Emits self.entry (after_fd 0x9e) operands.None result }
        ensures* unchanged { sem 𝓛 (IsUnchangedAtErr A.row A.Allocator self.entry result) }
    {
        self.emit(Prefix::Fd, 0x9e)
    }

    /// `i16x8.extmul_high_i8x16_u`: `0xFD 0x9F 0x01`.
    #[inline(always)]
    pub fn i16x8_extmul_high_i8x16_u(self) -> Result<InstructionSink<'a, A>, EncodeError>
        ensures emits { Emits self.entry (after_fd 0x9f) operands.None result }
        ensures* unchanged { sem 𝓛 (IsUnchangedAtErr A.row A.Allocator self.entry result) }
    {
        self.emit(Prefix::Fd, 0x9f)
    }
}
