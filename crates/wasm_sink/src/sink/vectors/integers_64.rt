//! Operations on two 64-bit integers (Core 3.0, Vector Instructions).
ghost use Rattle.std.specs.Borrow.{sem};
ghost use Rattle.wasm_sink.specs.Sink.{IsUnchangedAtErr, Emits};
ghost use Rattle.wasm_instructions.specs.formats.Opcodes.{after_fd};
ghost use Rattle.wasm_instructions.specs.declared.table.call.Operands.TheVariants as operands;

use crate::sink::InstructionSink;
use std::alloc::Allocator;
use wasm_codec::encode::EncodeError;
use wasm_instructions::table::Prefix;

#[tactic(auto, unfolding(wasm_instructions::specs::formats::Opcodes::ranges))]
impl<'a, A: Allocator> InstructionSink<'a, A> {
    /// `i64x2.abs`: `0xFD 0xC0 0x01`.
    #[inline(always)]
    pub fn i64x2_abs(self) -> Result<InstructionSink<'a, A>, EncodeError>
        ensures emits { Emits self.entry (after_fd 0xc0) operands.None result }
        ensures* unchanged { sem 𝓛 (IsUnchangedAtErr A.row A.Allocator self.entry result) }
    {
        self.emit(Prefix::Fd, 0xc0)
    }

    /// `i64x2.neg`: `0xFD 0xC1 0x01`.
    #[inline(always)]
    pub fn i64x2_neg(self) -> Result<InstructionSink<'a, A>, EncodeError>
        ensures emits { Emits self.entry (after_fd 0xc1) operands.None result }
        ensures* unchanged { sem 𝓛 (IsUnchangedAtErr A.row A.Allocator self.entry result) }
    {
        self.emit(Prefix::Fd, 0xc1)
    }

    /// `i64x2.all_true`: `0xFD 0xC3 0x01`.
    #[inline(always)]
    pub fn i64x2_all_true(self) -> Result<InstructionSink<'a, A>, EncodeError>
        ensures emits { Emits self.entry (after_fd 0xc3) operands.None result }
        ensures* unchanged { sem 𝓛 (IsUnchangedAtErr A.row A.Allocator self.entry result) }
    {
        self.emit(Prefix::Fd, 0xc3)
    }

    /// `i64x2.bitmask`: `0xFD 0xC4 0x01`.
    #[inline(always)]
    pub fn i64x2_bitmask(self) -> Result<InstructionSink<'a, A>, EncodeError>
        ensures emits { Emits self.entry (after_fd 0xc4) operands.None result }
        ensures* unchanged { sem 𝓛 (IsUnchangedAtErr A.row A.Allocator self.entry result) }
    {
        self.emit(Prefix::Fd, 0xc4)
    }

    /// `i64x2.extend_low_i32x4_s`: `0xFD 0xC7 0x01`.
    #[inline(always)]
    pub fn i64x2_extend_low_i32x4_s(self) -> Result<InstructionSink<'a, A>, EncodeError>
        ensures emits { Emits self.entry (after_fd 0xc7) operands.None result }
        ensures* unchanged { sem 𝓛 (IsUnchangedAtErr A.row A.Allocator self.entry result) }
    {
        self.emit(Prefix::Fd, 0xc7)
    }

    /// `i64x2.extend_high_i32x4_s`: `0xFD 0xC8 0x01`.
    #[inline(always)]
    pub fn i64x2_extend_high_i32x4_s(self) -> Result<InstructionSink<'a, A>, EncodeError>
        ensures emits { Emits self.entry (after_fd 0xc8) operands.None result }
        ensures* unchanged { sem 𝓛 (IsUnchangedAtErr A.row A.Allocator self.entry result) }
    {
        self.emit(Prefix::Fd, 0xc8)
    }

    /// `i64x2.extend_low_i32x4_u`: `0xFD 0xC9 0x01`.
    #[inline(always)]
    pub fn i64x2_extend_low_i32x4_u(self) -> Result<InstructionSink<'a, A>, EncodeError>
        ensures emits { Emits self.entry (after_fd 0xc9) operands.None result }
        ensures* unchanged { sem 𝓛 (IsUnchangedAtErr A.row A.Allocator self.entry result) }
    {
        self.emit(Prefix::Fd, 0xc9)
    }

    /// `i64x2.extend_high_i32x4_u`: `0xFD 0xCA 0x01`.
    #[inline(always)]
    pub fn i64x2_extend_high_i32x4_u(self) -> Result<InstructionSink<'a, A>, EncodeError>
        ensures emits { Emits self.entry (after_fd 0xca) operands.None result }
        ensures* unchanged { sem 𝓛 (IsUnchangedAtErr A.row A.Allocator self.entry result) }
    {
        self.emit(Prefix::Fd, 0xca)
    }

    /// `i64x2.shl`: `0xFD 0xCB 0x01`.
    #[inline(always)]
    pub fn i64x2_shl(self) -> Result<InstructionSink<'a, A>, EncodeError>
        ensures emits { Emits self.entry (after_fd 0xcb) operands.None result }
        ensures* unchanged { sem 𝓛 (IsUnchangedAtErr A.row A.Allocator self.entry result) }
    {
        self.emit(Prefix::Fd, 0xcb)
    }

    /// `i64x2.shr_s`: `0xFD 0xCC 0x01`.
    #[inline(always)]
    pub fn i64x2_shr_s(self) -> Result<InstructionSink<'a, A>, EncodeError>
        ensures emits { Emits self.entry (after_fd 0xcc) operands.None result }
        ensures* unchanged { sem 𝓛 (IsUnchangedAtErr A.row A.Allocator self.entry result) }
    {
        self.emit(Prefix::Fd, 0xcc)
    }

    /// `i64x2.shr_u`: `0xFD 0xCD 0x01`.
    #[inline(always)]
    pub fn i64x2_shr_u(self) -> Result<InstructionSink<'a, A>, EncodeError>
        ensures emits { Emits self.entry (after_fd 0xcd) operands.None result }
        ensures* unchanged { sem 𝓛 (IsUnchangedAtErr A.row A.Allocator self.entry result) }
    {
        self.emit(Prefix::Fd, 0xcd)
    }

    /// `i64x2.add`: `0xFD 0xCE 0x01`.
    #[inline(always)]
    pub fn i64x2_add(self) -> Result<InstructionSink<'a, A>, EncodeError>
        ensures emits { Emits self.entry (after_fd 0xce) operands.None result }
        ensures* unchanged { sem 𝓛 (IsUnchangedAtErr A.row A.Allocator self.entry result) }
    {
        self.emit(Prefix::Fd, 0xce)
    }

    /// `i64x2.sub`: `0xFD 0xD1 0x01`.
    #[inline(always)]
    pub fn i64x2_sub(self) -> Result<InstructionSink<'a, A>, EncodeError>
        ensures emits { Emits self.entry (after_fd 0xd1) operands.None result }
        ensures* unchanged { sem 𝓛 (IsUnchangedAtErr A.row A.Allocator self.entry result) }
    {
        self.emit(Prefix::Fd, 0xd1)
    }

    /// `i64x2.mul`: `0xFD 0xD5 0x01`.
    #[inline(always)]
    pub fn i64x2_mul(self) -> Result<InstructionSink<'a, A>, EncodeError>
        ensures emits { Emits self.entry (after_fd 0xd5) operands.None result }
        ensures* unchanged { sem 𝓛 (IsUnchangedAtErr A.row A.Allocator self.entry result) }
    {
        self.emit(Prefix::Fd, 0xd5)
    }

    /// `i64x2.extmul_low_i32x4_s`: `0xFD 0xDC 0x01`.
    #[inline(always)]
    pub fn i64x2_extmul_low_i32x4_s(self) -> Result<InstructionSink<'a, A>, EncodeError>
        ensures emits { Emits self.entry (after_fd 0xdc) operands.None result }
        ensures* unchanged { sem 𝓛 (IsUnchangedAtErr A.row A.Allocator self.entry result) }
    {
        self.emit(Prefix::Fd, 0xdc)
    }

    /// `i64x2.extmul_high_i32x4_s`: `0xFD 0xDD 0x01`.
    #[inline(always)]
    pub fn i64x2_extmul_high_i32x4_s(self) -> Result<InstructionSink<'a, A>, EncodeError>
        ensures emits { Emits self.entry (after_fd 0xdd) operands.None result }
        ensures* unchanged { sem 𝓛 (IsUnchangedAtErr A.row A.Allocator self.entry result) }
    {
        self.emit(Prefix::Fd, 0xdd)
    }

    /// `i64x2.extmul_low_i32x4_u`: `0xFD 0xDE 0x01`.
    #[inline(always)]
    pub fn i64x2_extmul_low_i32x4_u(self) -> Result<InstructionSink<'a, A>, EncodeError>
        ensures emits { Emits self.entry (after_fd 0xde) operands.None result }
        ensures* unchanged { sem 𝓛 (IsUnchangedAtErr A.row A.Allocator self.entry result) }
    {
        self.emit(Prefix::Fd, 0xde)
    }

    /// `i64x2.extmul_high_i32x4_u`: `0xFD 0xDF 0x01`.
    #[inline(always)]
    pub fn i64x2_extmul_high_i32x4_u(self) -> Result<InstructionSink<'a, A>, EncodeError>
        ensures emits { Emits self.entry (after_fd 0xdf) operands.None result }
        ensures* unchanged { sem 𝓛 (IsUnchangedAtErr A.row A.Allocator self.entry result) }
    {
        self.emit(Prefix::Fd, 0xdf)
    }
}
