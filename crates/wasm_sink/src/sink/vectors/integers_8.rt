//! Operations on sixteen 8-bit integers (Core 3.0, Vector Instructions).
ghost use Rattle.std.specs.Borrow.{sem};
ghost use Rattle.wasm_sink.specs.Sink.{IsUnchangedAtErr, Emits};
ghost use Rattle.wasm_instructions.specs.formats.Opcodes.{after_fd};
ghost use Rattle.wasm_instructions.specs.declared.table.call.Operands.TheVariants as operands;

use crate::sink::InstructionSink;
use std::alloc::Allocator;
use wasm_codec::encode::EncodeError;
use wasm_instructions::table::Prefix;

#[tactic(auto, unfolding(wasm_instructions::specs::formats::Opcodes::ranges))]
impl<'a, A: Allocator> InstructionSink<'a, A> {
    /// `i8x16.abs`: `0xFD 0x60`.
    #[inline(always)]
    pub fn i8x16_abs(self) -> Result<InstructionSink<'a, A>, EncodeError>
        ensures emits { Emits self.entry (after_fd 0x60) operands.None result }
        ensures* unchanged { sem 𝓛 (IsUnchangedAtErr A.row A.Allocator self.entry result) }
    {
        self.emit(Prefix::Fd, 0x60)
    }

    /// `i8x16.neg`: `0xFD 0x61`.
    #[inline(always)]
    pub fn i8x16_neg(self) -> Result<InstructionSink<'a, A>, EncodeError>
        ensures emits { Emits self.entry (after_fd 0x61) operands.None result }
        ensures* unchanged { sem 𝓛 (IsUnchangedAtErr A.row A.Allocator self.entry result) }
    {
        self.emit(Prefix::Fd, 0x61)
    }

    /// `i8x16.popcnt`: `0xFD 0x62`.
    #[inline(always)]
    pub fn i8x16_popcnt(self) -> Result<InstructionSink<'a, A>, EncodeError>
        ensures emits { Emits self.entry (after_fd 0x62) operands.None result }
        ensures* unchanged { sem 𝓛 (IsUnchangedAtErr A.row A.Allocator self.entry result) }
    {
        self.emit(Prefix::Fd, 0x62)
    }

    /// `i8x16.all_true`: `0xFD 0x63`.
    #[inline(always)]
    pub fn i8x16_all_true(self) -> Result<InstructionSink<'a, A>, EncodeError>
        ensures emits { Emits self.entry (after_fd 0x63) operands.None result }
        ensures* unchanged { sem 𝓛 (IsUnchangedAtErr A.row A.Allocator self.entry result) }
    {
        self.emit(Prefix::Fd, 0x63)
    }

    /// `i8x16.bitmask`: `0xFD 0x64`.
    #[inline(always)]
    pub fn i8x16_bitmask(self) -> Result<InstructionSink<'a, A>, EncodeError>
        ensures emits { Emits self.entry (after_fd 0x64) operands.None result }
        ensures* unchanged { sem 𝓛 (IsUnchangedAtErr A.row A.Allocator self.entry result) }
    {
        self.emit(Prefix::Fd, 0x64)
    }

    /// `i8x16.narrow_i16x8_s`: `0xFD 0x65`.
    #[inline(always)]
    pub fn i8x16_narrow_i16x8_s(self) -> Result<InstructionSink<'a, A>, EncodeError>
        ensures emits { Emits self.entry (after_fd 0x65) operands.None result }
        ensures* unchanged { sem 𝓛 (IsUnchangedAtErr A.row A.Allocator self.entry result) }
    {
        self.emit(Prefix::Fd, 0x65)
    }

    /// `i8x16.narrow_i16x8_u`: `0xFD 0x66`.
    #[inline(always)]
    pub fn i8x16_narrow_i16x8_u(self) -> Result<InstructionSink<'a, A>, EncodeError>
        ensures emits { Emits self.entry (after_fd 0x66) operands.None result }
        ensures* unchanged { sem 𝓛 (IsUnchangedAtErr A.row A.Allocator self.entry result) }
    {
        self.emit(Prefix::Fd, 0x66)
    }

    /// `i8x16.shl`: `0xFD 0x6B`.
    #[inline(always)]
    pub fn i8x16_shl(self) -> Result<InstructionSink<'a, A>, EncodeError>
        ensures emits { Emits self.entry (after_fd 0x6b) operands.None result }
        ensures* unchanged { sem 𝓛 (IsUnchangedAtErr A.row A.Allocator self.entry result) }
    {
        self.emit(Prefix::Fd, 0x6b)
    }

    /// `i8x16.shr_s`: `0xFD 0x6C`.
    #[inline(always)]
    pub fn i8x16_shr_s(self) -> Result<InstructionSink<'a, A>, EncodeError>
        ensures emits { Emits self.entry (after_fd 0x6c) operands.None result }
        ensures* unchanged { sem 𝓛 (IsUnchangedAtErr A.row A.Allocator self.entry result) }
    {
        self.emit(Prefix::Fd, 0x6c)
    }

    /// `i8x16.shr_u`: `0xFD 0x6D`.
    #[inline(always)]
    pub fn i8x16_shr_u(self) -> Result<InstructionSink<'a, A>, EncodeError>
        ensures emits { Emits self.entry (after_fd 0x6d) operands.None result }
        ensures* unchanged { sem 𝓛 (IsUnchangedAtErr A.row A.Allocator self.entry result) }
    {
        self.emit(Prefix::Fd, 0x6d)
    }

    /// `i8x16.add`: `0xFD 0x6E`.
    #[inline(always)]
    pub fn i8x16_add(self) -> Result<InstructionSink<'a, A>, EncodeError>
        ensures emits { Emits self.entry (after_fd 0x6e) operands.None result }
        ensures* unchanged { sem 𝓛 (IsUnchangedAtErr A.row A.Allocator self.entry result) }
    {
        self.emit(Prefix::Fd, 0x6e)
    }

    /// `i8x16.add_sat_s`: `0xFD 0x6F`.
    #[inline(always)]
    pub fn i8x16_add_sat_s(self) -> Result<InstructionSink<'a, A>, EncodeError>
        ensures emits { Emits self.entry (after_fd 0x6f) operands.None result }
        ensures* unchanged { sem 𝓛 (IsUnchangedAtErr A.row A.Allocator self.entry result) }
    {
        self.emit(Prefix::Fd, 0x6f)
    }

    /// `i8x16.add_sat_u`: `0xFD 0x70`.
    #[inline(always)]
    pub fn i8x16_add_sat_u(self) -> Result<InstructionSink<'a, A>, EncodeError>
        ensures emits { Emits self.entry (after_fd 0x70) operands.None result }
        ensures* unchanged { sem 𝓛 (IsUnchangedAtErr A.row A.Allocator self.entry result) }
    {
        self.emit(Prefix::Fd, 0x70)
    }

    /// `i8x16.sub`: `0xFD 0x71`.
    #[inline(always)]
    pub fn i8x16_sub(self) -> Result<InstructionSink<'a, A>, EncodeError>
        ensures emits { Emits self.entry (after_fd 0x71) operands.None result }
        ensures* unchanged { sem 𝓛 (IsUnchangedAtErr A.row A.Allocator self.entry result) }
    {
        self.emit(Prefix::Fd, 0x71)
    }

    /// `i8x16.sub_sat_s`: `0xFD 0x72`.
    #[inline(always)]
    pub fn i8x16_sub_sat_s(self) -> Result<InstructionSink<'a, A>, EncodeError>
        ensures emits { Emits self.entry (after_fd 0x72) operands.None result }
        ensures* unchanged { sem 𝓛 (IsUnchangedAtErr A.row A.Allocator self.entry result) }
    {
        self.emit(Prefix::Fd, 0x72)
    }

    /// `i8x16.sub_sat_u`: `0xFD 0x73`.
    #[inline(always)]
    pub fn i8x16_sub_sat_u(self) -> Result<InstructionSink<'a, A>, EncodeError>
        ensures emits { Emits self.entry (after_fd 0x73) operands.None result }
        ensures* unchanged { sem 𝓛 (IsUnchangedAtErr A.row A.Allocator self.entry result) }
    {
        self.emit(Prefix::Fd, 0x73)
    }

    /// `i8x16.min_s`: `0xFD 0x76`.
    #[inline(always)]
    pub fn i8x16_min_s(self) -> Result<InstructionSink<'a, A>, EncodeError>
        ensures emits { Emits self.entry (after_fd 0x76) operands.None result }
        ensures* unchanged { sem 𝓛 (IsUnchangedAtErr A.row A.Allocator self.entry result) }
    {
        self.emit(Prefix::Fd, 0x76)
    }

    /// `i8x16.min_u`: `0xFD 0x77`.
    #[inline(always)]
    pub fn i8x16_min_u(self) -> Result<InstructionSink<'a, A>, EncodeError>
        ensures emits { Emits self.entry (after_fd 0x77) operands.None result }
        ensures* unchanged { sem 𝓛 (IsUnchangedAtErr A.row A.Allocator self.entry result) }
    {
        self.emit(Prefix::Fd, 0x77)
    }

    /// `i8x16.max_s`: `0xFD 0x78`.
    #[inline(always)]
    pub fn i8x16_max_s(self) -> Result<InstructionSink<'a, A>, EncodeError>
        ensures emits { Emits self.entry (after_fd 0x78) operands.None result }
        ensures* unchanged { sem 𝓛 (IsUnchangedAtErr A.row A.Allocator self.entry result) }
    {
        self.emit(Prefix::Fd, 0x78)
    }

    /// `i8x16.max_u`: `0xFD 0x79`.
    #[inline(always)]
    pub fn i8x16_max_u(self) -> Result<InstructionSink<'a, A>, EncodeError>
        ensures emits { Emits self.entry (after_fd 0x79) operands.None result }
        ensures* unchanged { sem 𝓛 (IsUnchangedAtErr A.row A.Allocator self.entry result) }
    {
        self.emit(Prefix::Fd, 0x79)
    }

    /// `i8x16.avgr_u`: `0xFD 0x7B`.
    #[inline(always)]
    pub fn i8x16_avgr_u(self) -> Result<InstructionSink<'a, A>, EncodeError>
        ensures emits { Emits self.entry (after_fd 0x7b) operands.None result }
        ensures* unchanged { sem 𝓛 (IsUnchangedAtErr A.row A.Allocator self.entry result) }
    {
        self.emit(Prefix::Fd, 0x7b)
    }
}
