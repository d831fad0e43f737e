//! Operations on four 32-bit integers (Core 3.0, Vector Instructions).
ghost use Rattle.std.specs.Borrow.{sem};
ghost use Rattle.wasm_sink.specs.Sink.{IsUnchangedAtErr, Emits};
ghost use Rattle.wasm_instructions.specs.formats.Opcodes.{after_fd};
ghost use Rattle.wasm_instructions.specs.declared.table.call.Operands.TheVariants as operands;

use crate::sink::InstructionSink;
use std::alloc::Allocator;
use wasm_codec::encode::EncodeError;
use wasm_instructions::table::Prefix;

#[tactic(auto, unfolding(wasm_instructions::specs::formats::Opcodes::ranges))]
impl<'a, A: Allocator> InstructionSink<'a, A> {
    /// `i32x4.extadd_pairwise_i16x8_s`: `0xFD 0x7E`.
    #[inline(always)]
    pub fn i32x4_extadd_pairwise_i16x8_s(self) -> Result<InstructionSink<'a, A>, EncodeError>
        ensures emits { Emits self.entry (after_fd 0x7e) operands.None result }
        ensures* unchanged { sem 𝓛 (IsUnchangedAtErr A.row A.Allocator self.entry result) }
    {
        self.emit(Prefix::Fd, 0x7e)
    }

    /// `i32x4.extadd_pairwise_i16x8_u`: `0xFD 0x7F`.
    #[inline(always)]
    pub fn i32x4_extadd_pairwise_i16x8_u(self) -> Result<InstructionSink<'a, A>, EncodeError>
        ensures emits { Emits self.entry (after_fd 0x7f) operands.None result }
        ensures* unchanged { sem 𝓛 (IsUnchangedAtErr A.row A.Allocator self.entry result) }
    {
        self.emit(Prefix::Fd, 0x7f)
    }

    /// `i32x4.abs`: `0xFD 0xA0 0x01`.
    #[inline(always)]
    pub fn i32x4_abs(self) -> Result<InstructionSink<'a, A>, EncodeError>
        ensures emits { Emits self.entry (after_fd 0xa0) operands.None result }
        ensures* unchanged { sem 𝓛 (IsUnchangedAtErr A.row A.Allocator self.entry result) }
    {
        self.emit(Prefix::Fd, 0xa0)
    }

    /// `i32x4.neg`: `0xFD 0xA1 0x01`.
    #[inline(always)]
    pub fn i32x4_neg(self) -> Result<InstructionSink<'a, A>, EncodeError>
        ensures emits { Emits self.entry (after_fd 0xa1) operands.None result }
        ensures* unchanged { sem 𝓛 (IsUnchangedAtErr A.row A.Allocator self.entry result) }
    {
        self.emit(Prefix::Fd, 0xa1)
    }

    /// `i32x4.all_true`: `0xFD 0xA3 0x01`.
    #[inline(always)]
    pub fn i32x4_all_true(self) -> Result<InstructionSink<'a, A>, EncodeError>
        ensures emits { Emits self.entry (after_fd 0xa3) operands.None result }
        ensures* unchanged { sem 𝓛 (IsUnchangedAtErr A.row A.Allocator self.entry result) }
    {
        self.emit(Prefix::Fd, 0xa3)
    }

    /// `i32x4.bitmask`: `0xFD 0xA4 0x01`.
    #[inline(always)]
    pub fn i32x4_bitmask(self) -> Result<InstructionSink<'a, A>, EncodeError>
        ensures emits { Emits self.entry (after_fd 0xa4) operands.None result }
        ensures* unchanged { sem 𝓛 (IsUnchangedAtErr A.row A.Allocator self.entry result) }
    {
        self.emit(Prefix::Fd, 0xa4)
    }

    /// `i32x4.extend_low_i16x8_s`: `0xFD 0xA7 0x01`.
    #[inline(always)]
    pub fn i32x4_extend_low_i16x8_s(self) -> Result<InstructionSink<'a, A>, EncodeError>
        ensures emits { Emits self.entry (after_fd 0xa7) operands.None result }
        ensures* unchanged { sem 𝓛 (IsUnchangedAtErr A.row A.Allocator self.entry result) }
    {
        self.emit(Prefix::Fd, 0xa7)
    }

    /// `i32x4.extend_high_i16x8_s`: `0xFD 0xA8 0x01`.
    #[inline(always)]
    pub fn i32x4_extend_high_i16x8_s(self) -> Result<InstructionSink<'a, A>, EncodeError>
        ensures emits { Emits self.entry (after_fd 0xa8) operands.None result }
        ensures* unchanged { sem 𝓛 (IsUnchangedAtErr A.row A.Allocator self.entry result) }
    {
        self.emit(Prefix::Fd, 0xa8)
    }

    /// `i32x4.extend_low_i16x8_u`: `0xFD 0xA9 0x01`.
    #[inline(always)]
    pub fn i32x4_extend_low_i16x8_u(self) -> Result<InstructionSink<'a, A>, EncodeError>
        ensures emits { Emits self.entry (after_fd 0xa9) operands.None result }
        ensures* unchanged { sem 𝓛 (IsUnchangedAtErr A.row A.Allocator self.entry result) }
    {
        self.emit(Prefix::Fd, 0xa9)
    }

    /// `i32x4.extend_high_i16x8_u`: `0xFD 0xAA 0x01`.
    #[inline(always)]
    pub fn i32x4_extend_high_i16x8_u(self) -> Result<InstructionSink<'a, A>, EncodeError>
        ensures emits { Emits self.entry (after_fd 0xaa) operands.None result }
        ensures* unchanged { sem 𝓛 (IsUnchangedAtErr A.row A.Allocator self.entry result) }
    {
        self.emit(Prefix::Fd, 0xaa)
    }

    /// `i32x4.shl`: `0xFD 0xAB 0x01`.
    #[inline(always)]
    pub fn i32x4_shl(self) -> Result<InstructionSink<'a, A>, EncodeError>
        ensures emits { Emits self.entry (after_fd 0xab) operands.None result }
        ensures* unchanged { sem 𝓛 (IsUnchangedAtErr A.row A.Allocator self.entry result) }
    {
        self.emit(Prefix::Fd, 0xab)
    }

    /// `i32x4.shr_s`: `0xFD 0xAC 0x01`.
    #[inline(always)]
    pub fn i32x4_shr_s(self) -> Result<InstructionSink<'a, A>, EncodeError>
        ensures emits { Emits self.entry (after_fd 0xac) operands.None result }
        ensures* unchanged { sem 𝓛 (IsUnchangedAtErr A.row A.Allocator self.entry result) }
    {
        self.emit(Prefix::Fd, 0xac)
    }

    /// `i32x4.shr_u`: `0xFD 0xAD 0x01`.
    #[inline(always)]
    pub fn i32x4_shr_u(self) -> Result<InstructionSink<'a, A>, EncodeError>
        ensures emits { Emits self.entry (after_fd 0xad) operands.None result }
        ensures* unchanged { sem 𝓛 (IsUnchangedAtErr A.row A.Allocator self.entry result) }
    {
        self.emit(Prefix::Fd, 0xad)
    }

    /// `i32x4.add`: `0xFD 0xAE 0x01`.
    #[inline(always)]
    pub fn i32x4_add(self) -> Result<InstructionSink<'a, A>, EncodeError>
        ensures emits { Emits self.entry (after_fd 0xae) operands.None result }
        ensures* unchanged { sem 𝓛 (IsUnchangedAtErr A.row A.Allocator self.entry result) }
    {
        self.emit(Prefix::Fd, 0xae)
    }

    /// `i32x4.sub`: `0xFD 0xB1 0x01`.
    #[inline(always)]
    pub fn i32x4_sub(self) -> Result<InstructionSink<'a, A>, EncodeError>
        ensures emits { Emits self.entry (after_fd 0xb1) operands.None result }
        ensures* unchanged { sem 𝓛 (IsUnchangedAtErr A.row A.Allocator self.entry result) }
    {
        self.emit(Prefix::Fd, 0xb1)
    }

    /// `i32x4.mul`: `0xFD 0xB5 0x01`.
    #[inline(always)]
    pub fn i32x4_mul(self) -> Result<InstructionSink<'a, A>, EncodeError>
        ensures emits { Emits self.entry (after_fd 0xb5) operands.None result }
        ensures* unchanged { sem 𝓛 (IsUnchangedAtErr A.row A.Allocator self.entry result) }
    {
        self.emit(Prefix::Fd, 0xb5)
    }

    /// `i32x4.min_s`: `0xFD 0xB6 0x01`.
    #[inline(always)]
    pub fn i32x4_min_s(self) -> Result<InstructionSink<'a, A>, EncodeError>
        ensures emits { Emits self.entry (after_fd 0xb6) operands.None result }
        ensures* unchanged { sem 𝓛 (IsUnchangedAtErr A.row A.Allocator self.entry result) }
    {
        self.emit(Prefix::Fd, 0xb6)
    }

    /// `i32x4.min_u`: `0xFD 0xB7 0x01`.
    #[inline(always)]
    pub fn i32x4_min_u(self) -> Result<InstructionSink<'a, A>, EncodeError>
        ensures emits { Emits self.entry (after_fd 0xb7) operands.None result }
        ensures* unchanged { sem 𝓛 (IsUnchangedAtErr A.row A.Allocator self.entry result) }
    {
        self.emit(Prefix::Fd, 0xb7)
    }

    /// `i32x4.max_s`: `0xFD 0xB8 0x01`.
    #[inline(always)]
    pub fn i32x4_max_s(self) -> Result<InstructionSink<'a, A>, EncodeError>
        ensures emits { Emits self.entry (after_fd 0xb8) operands.None result }
        ensures* unchanged { sem 𝓛 (IsUnchangedAtErr A.row A.Allocator self.entry result) }
    {
        self.emit(Prefix::Fd, 0xb8)
    }

    /// `i32x4.max_u`: `0xFD 0xB9 0x01`.
    #[inline(always)]
    pub fn i32x4_max_u(self) -> Result<InstructionSink<'a, A>, EncodeError>
        ensures emits { Emits self.entry (after_fd 0xb9) operands.None result }
        ensures* unchanged { sem 𝓛 (IsUnchangedAtErr A.row A.Allocator self.entry result) }
    {
        self.emit(Prefix::Fd, 0xb9)
    }

    /// `i32x4.dot_i16x8_s`: `0xFD 0xBA 0x01`.
    #[inline(always)]
    pub fn i32x4_dot_i16x8_s(self) -> Result<InstructionSink<'a, A>, EncodeError>
        ensures emits { Emits self.entry (after_fd 0xba) operands.None result }
        ensures* unchanged { sem 𝓛 (IsUnchangedAtErr A.row A.Allocator self.entry result) }
    {
        self.emit(Prefix::Fd, 0xba)
    }

    /// `i32x4.extmul_low_i16x8_s`: `0xFD 0xBC 0x01`.
    #[inline(always)]
    pub fn i32x4_extmul_low_i16x8_s(self) -> Result<InstructionSink<'a, A>, EncodeError>
        ensures emits { Emits self.entry (after_fd 0xbc) operands.None result }
        ensures* unchanged { sem 𝓛 (IsUnchangedAtErr A.row A.Allocator self.entry result) }
    {
        self.emit(Prefix::Fd, 0xbc)
    }

    /// `i32x4.extmul_high_i16x8_s`: `0xFD 0xBD 0x01`.
    #[inline(always)]
    pub fn i32x4_extmul_high_i16x8_s(self) -> Result<InstructionSink<'a, A>, EncodeError>
        ensures emits { Emits self.entry (after_fd 0xbd) operands.None result }
        ensures* unchanged { sem 𝓛 (IsUnchangedAtErr A.row A.Allocator self.entry result) }
    {
        self.emit(Prefix::Fd, 0xbd)
    }

    /// `i32x4.extmul_low_i16x8_u`: `0xFD 0xBE 0x01`.
    #[inline(always)]
    pub fn i32x4_extmul_low_i16x8_u(self) -> Result<InstructionSink<'a, A>, EncodeError>
        ensures emits { Emits self.entry (after_fd 0xbe) operands.None result }
        ensures* unchanged { sem 𝓛 (IsUnchangedAtErr A.row A.Allocator self.entry result) }
    {
        self.emit(Prefix::Fd, 0xbe)
    }

    /// `i32x4.extmul_high_i16x8_u`: `0xFD 0xBF 0x01`.
    #[inline(always)]
    pub fn i32x4_extmul_high_i16x8_u(self) -> Result<InstructionSink<'a, A>, EncodeError>
        ensures emits { Emits self.entry (after_fd 0xbf) operands.None result }
        ensures* unchanged { sem 𝓛 (IsUnchangedAtErr A.row A.Allocator self.entry result) }
    {
        self.emit(Prefix::Fd, 0xbf)
    }

    /// `i32x4.trunc_sat_f32x4_s`: `0xFD 0xF8 0x01`.
    #[inline(always)]
    pub fn i32x4_trunc_sat_f32x4_s(self) -> Result<InstructionSink<'a, A>, EncodeError>
        ensures emits { Emits self.entry (after_fd 0xf8) operands.None result }
        ensures* unchanged { sem 𝓛 (IsUnchangedAtErr A.row A.Allocator self.entry result) }
    {
        self.emit(Prefix::Fd, 0xf8)
    }

    /// `i32x4.trunc_sat_f32x4_u`: `0xFD 0xF9 0x01`.
    #[inline(always)]
    pub fn i32x4_trunc_sat_f32x4_u(self) -> Result<InstructionSink<'a, A>, EncodeError>
        ensures emits { Emits self.entry (after_fd 0xf9) operands.None result }
        ensures* unchanged { sem 𝓛 (IsUnchangedAtErr A.row A.Allocator self.entry result) }
    {
        self.emit(Prefix::Fd, 0xf9)
    }

    /// `i32x4.trunc_sat_f64x2_s_zero`: `0xFD 0xFC 0x01`.
    #[inline(always)]
    pub fn i32x4_trunc_sat_f64x2_s_zero(self) -> Result<InstructionSink<'a, A>, EncodeError>
        ensures emits { Emits self.entry (after_fd 0xfc) operands.None result }
        ensures* unchanged { sem 𝓛 (IsUnchangedAtErr A.row A.Allocator self.entry result) }
    {
        self.emit(Prefix::Fd, 0xfc)
    }

    /// `i32x4.trunc_sat_f64x2_u_zero`: `0xFD 0xFD 0x01`.
    #[inline(always)]
    pub fn i32x4_trunc_sat_f64x2_u_zero(self) -> Result<InstructionSink<'a, A>, EncodeError>
        ensures emits { Emits self.entry (after_fd 0xfd) operands.None result }
        ensures* unchanged { sem 𝓛 (IsUnchangedAtErr A.row A.Allocator self.entry result) }
    {
        self.emit(Prefix::Fd, 0xfd)
    }
}
