//! Operations on four 32-bit or two 64-bit floating-point numbers (Core 3.0, Vector Instructions).
ghost use Rattle.std.specs.Borrow.{sem};
ghost use Rattle.wasm_sink.specs.Sink.{IsUnchangedAtErr, Emits};
ghost use Rattle.wasm_instructions.specs.formats.Opcodes.{after_fd};
ghost use Rattle.wasm_instructions.specs.declared.table.call.Operands.TheVariants as operands;

use crate::sink::InstructionSink;
use std::alloc::Allocator;
use wasm_codec::encode::EncodeError;
use wasm_instructions::table::Prefix;

#[tactic(auto, unfolding(wasm_instructions::specs::formats::Opcodes::ranges))]
impl<'a, A: Allocator> InstructionSink<'a, A> {
    /// `f32x4.demote_f64x2_zero`: `0xFD 0x5E`.
    #[inline(always)]
    pub fn f32x4_demote_f64x2_zero(self) -> Result<InstructionSink<'a, A>, EncodeError>
        ensures emits { Emits self.entry (after_fd 0x5e) operands.None result }
        ensures* unchanged { sem 𝓛 (IsUnchangedAtErr A.row A.Allocator self.entry result) }
    {
        self.emit(Prefix::Fd, 0x5e)
    }

    /// `f64x2.promote_low_f32x4`: `0xFD 0x5F`.
    #[inline(always)]
    pub fn f64x2_promote_low_f32x4(self) -> Result<InstructionSink<'a, A>, EncodeError>
        ensures emits { Emits self.entry (after_fd 0x5f) operands.None result }
        ensures* unchanged { sem 𝓛 (IsUnchangedAtErr A.row A.Allocator self.entry result) }
    {
        self.emit(Prefix::Fd, 0x5f)
    }

    /// `f32x4.ceil`: `0xFD 0x67`.
    #[inline(always)]
    pub fn f32x4_ceil(self) -> Result<InstructionSink<'a, A>, EncodeError>
        ensures emits { Emits self.entry (after_fd 0x67) operands.None result }
        ensures* unchanged { sem 𝓛 (IsUnchangedAtErr A.row A.Allocator self.entry result) }
    {
        self.emit(Prefix::Fd, 0x67)
    }

    /// `f32x4.floor`: `0xFD 0x68`.
    #[inline(always)]
    pub fn f32x4_floor(self) -> Result<InstructionSink<'a, A>, EncodeError>
        ensures emits { Emits self.entry (after_fd 0x68) operands.None result }
        ensures* unchanged { sem 𝓛 (IsUnchangedAtErr A.row A.Allocator self.entry result) }
    {
        self.emit(Prefix::Fd, 0x68)
    }

    /// `f32x4.trunc`: `0xFD 0x69`.
    #[inline(always)]
    pub fn f32x4_trunc(self) -> Result<InstructionSink<'a, A>, EncodeError>
        ensures emits { Emits self.entry (after_fd 0x69) operands.None result }
        ensures* unchanged { sem 𝓛 (IsUnchangedAtErr A.row A.Allocator self.entry result) }
    {
        self.emit(Prefix::Fd, 0x69)
    }

    /// `f32x4.nearest`: `0xFD 0x6A`.
    #[inline(always)]
    pub fn f32x4_nearest(self) -> Result<InstructionSink<'a, A>, EncodeError>
        ensures emits { Emits self.entry (after_fd 0x6a) operands.None result }
        ensures* unchanged { sem 𝓛 (IsUnchangedAtErr A.row A.Allocator self.entry result) }
    {
        self.emit(Prefix::Fd, 0x6a)
    }

    /// `f64x2.ceil`: `0xFD 0x74`.
    #[inline(always)]
    pub fn f64x2_ceil(self) -> Result<InstructionSink<'a, A>, EncodeError>
        ensures emits { Emits self.entry (after_fd 0x74) operands.None result }
        ensures* unchanged { sem 𝓛 (IsUnchangedAtErr A.row A.Allocator self.entry result) }
    {
        self.emit(Prefix::Fd, 0x74)
    }

    /// `f64x2.floor`: `0xFD 0x75`.
    #[inline(always)]
    pub fn f64x2_floor(self) -> Result<InstructionSink<'a, A>, EncodeError>
        ensures emits { Emits self.entry (after_fd 0x75) operands.None result }
        ensures* unchanged { sem 𝓛 (IsUnchangedAtErr A.row A.Allocator self.entry result) }
    {
        self.emit(Prefix::Fd, 0x75)
    }

    /// `f64x2.trunc`: `0xFD 0x7A`.
    #[inline(always)]
    pub fn f64x2_trunc(self) -> Result<InstructionSink<'a, A>, EncodeError>
        ensures emits { Emits self.entry (after_fd 0x7a) operands.None result }
        ensures* unchanged { sem 𝓛 (IsUnchangedAtErr A.row A.Allocator self.entry result) }
    {
        self.emit(Prefix::Fd, 0x7a)
    }

    /// `f64x2.nearest`: `0xFD 0x94 0x01`.
    #[inline(always)]
    pub fn f64x2_nearest(self) -> Result<InstructionSink<'a, A>, EncodeError>
        ensures emits { Emits self.entry (after_fd 0x94) operands.None result }
        ensures* unchanged { sem 𝓛 (IsUnchangedAtErr A.row A.Allocator self.entry result) }
    {
        self.emit(Prefix::Fd, 0x94)
    }

    /// `f32x4.abs`: `0xFD 0xE0 0x01`.
    #[inline(always)]
    pub fn f32x4_abs(self) -> Result<InstructionSink<'a, A>, EncodeError>
        ensures emits { Emits self.entry (after_fd 0xe0) operands.None result }
        ensures* unchanged { sem 𝓛 (IsUnchangedAtErr A.row A.Allocator self.entry result) }
    {
        self.emit(Prefix::Fd, 0xe0)
    }

    /// `f32x4.neg`: `0xFD 0xE1 0x01`.
    #[inline(always)]
    pub fn f32x4_neg(self) -> Result<InstructionSink<'a, A>, EncodeError>
        ensures emits { Emits self.entry (after_fd 0xe1) operands.None result }
        ensures* unchanged { sem 𝓛 (IsUnchangedAtErr A.row A.Allocator self.entry result) }
    {
        self.emit(Prefix::Fd, 0xe1)
    }

    /// `f32x4.sqrt`: `0xFD 0xE3 0x01`.
    #[inline(always)]
    pub fn f32x4_sqrt(self) -> Result<InstructionSink<'a, A>, EncodeError>
        ensures emits { Emits self.entry (after_fd 0xe3) operands.None result }
        ensures* unchanged { sem 𝓛 (IsUnchangedAtErr A.row A.Allocator self.entry result) }
    {
        self.emit(Prefix::Fd, 0xe3)
    }

    /// `f32x4.add`: `0xFD 0xE4 0x01`.
    #[inline(always)]
    pub fn f32x4_add(self) -> Result<InstructionSink<'a, A>, EncodeError>
        ensures emits { Emits self.entry (after_fd 0xe4) operands.None result }
        ensures* unchanged { sem 𝓛 (IsUnchangedAtErr A.row A.Allocator self.entry result) }
    {
        self.emit(Prefix::Fd, 0xe4)
    }

    /// `f32x4.sub`: `0xFD 0xE5 0x01`.
    #[inline(always)]
    pub fn f32x4_sub(self) -> Result<InstructionSink<'a, A>, EncodeError>
        ensures emits { Emits self.entry (after_fd 0xe5) operands.None result }
        ensures* unchanged { sem 𝓛 (IsUnchangedAtErr A.row A.Allocator self.entry result) }
    {
        self.emit(Prefix::Fd, 0xe5)
    }

    /// `f32x4.mul`: `0xFD 0xE6 0x01`.
    #[inline(always)]
    pub fn f32x4_mul(self) -> Result<InstructionSink<'a, A>, EncodeError>
        ensures emits { Emits self.entry (after_fd 0xe6) operands.None result }
        ensures* unchanged { sem 𝓛 (IsUnchangedAtErr A.row A.Allocator self.entry result) }
    {
        self.emit(Prefix::Fd, 0xe6)
    }

    /// `f32x4.div`: `0xFD 0xE7 0x01`.
    #[inline(always)]
    pub fn f32x4_div(self) -> Result<InstructionSink<'a, A>, EncodeError>
        ensures emits { Emits self.entry (after_fd 0xe7) operands.None result }
        ensures* unchanged { sem 𝓛 (IsUnchangedAtErr A.row A.Allocator self.entry result) }
    {
        self.emit(Prefix::Fd, 0xe7)
    }

    /// `f32x4.min`: `0xFD 0xE8 0x01`.
    #[inline(always)]
    pub fn f32x4_min(self) -> Result<InstructionSink<'a, A>, EncodeError>
        ensures emits { Emits self.entry (after_fd 0xe8) operands.None result }
        ensures* unchanged { sem 𝓛 (IsUnchangedAtErr A.row A.Allocator self.entry result) }
    {
        self.emit(Prefix::Fd, 0xe8)
    }

    /// `f32x4.max`: `0xFD 0xE9 0x01`.
    #[inline(always)]
    pub fn f32x4_max(self) -> Result<InstructionSink<'a, A>, EncodeError>
        ensures emits { Emits self.entry (after_fd 0xe9) operands.None result }
        ensures* unchanged { sem 𝓛 (IsUnchangedAtErr A.row A.Allocator self.entry result) }
    {
        self.emit(Prefix::Fd, 0xe9)
    }

    /// `f32x4.pmin`: `0xFD 0xEA 0x01`.
    #[inline(always)]
    pub fn f32x4_pmin(self) -> Result<InstructionSink<'a, A>, EncodeError>
        ensures emits { Emits self.entry (after_fd 0xea) operands.None result }
        ensures* unchanged { sem 𝓛 (IsUnchangedAtErr A.row A.Allocator self.entry result) }
    {
        self.emit(Prefix::Fd, 0xea)
    }

    /// `f32x4.pmax`: `0xFD 0xEB 0x01`.
    #[inline(always)]
    pub fn f32x4_pmax(self) -> Result<InstructionSink<'a, A>, EncodeError>
        ensures emits { Emits self.entry (after_fd 0xeb) operands.None result }
        ensures* unchanged { sem 𝓛 (IsUnchangedAtErr A.row A.Allocator self.entry result) }
    {
        self.emit(Prefix::Fd, 0xeb)
    }

    /// `f64x2.abs`: `0xFD 0xEC 0x01`.
    #[inline(always)]
    pub fn f64x2_abs(self) -> Result<InstructionSink<'a, A>, EncodeError>
        ensures emits { Emits self.entry (after_fd 0xec) operands.None result }
        ensures* unchanged { sem 𝓛 (IsUnchangedAtErr A.row A.Allocator self.entry result) }
    {
        self.emit(Prefix::Fd, 0xec)
    }

    /// `f64x2.neg`: `0xFD 0xED 0x01`.
    #[inline(always)]
    pub fn f64x2_neg(self) -> Result<InstructionSink<'a, A>, EncodeError>
        ensures emits { Emits self.entry (after_fd 0xed) operands.None result }
        ensures* unchanged { sem 𝓛 (IsUnchangedAtErr A.row A.Allocator self.entry result) }
    {
        self.emit(Prefix::Fd, 0xed)
    }

    /// `f64x2.sqrt`: `0xFD 0xEF 0x01`.
    #[inline(always)]
    pub fn f64x2_sqrt(self) -> Result<InstructionSink<'a, A>, EncodeError>
        ensures emits { Emits self.entry (after_fd 0xef) operands.None result }
        ensures* unchanged { sem 𝓛 (IsUnchangedAtErr A.row A.Allocator self.entry result) }
    {
        self.emit(Prefix::Fd, 0xef)
    }

    /// `f64x2.add`: `0xFD 0xF0 0x01`.
    #[inline(always)]
    pub fn f64x2_add(self) -> Result<InstructionSink<'a, A>, EncodeError>
        ensures emits { Emits self.entry (after_fd 0xf0) operands.None result }
        ensures* unchanged { sem 𝓛 (IsUnchangedAtErr A.row A.Allocator self.entry result) }
    {
        self.emit(Prefix::Fd, 0xf0)
    }

    /// `f64x2.sub`: `0xFD 0xF1 0x01`.
    #[inline(always)]
    pub fn f64x2_sub(self) -> Result<InstructionSink<'a, A>, EncodeError>
        ensures emits { Emits self.entry (after_fd 0xf1) operands.None result }
        ensures* unchanged { sem 𝓛 (IsUnchangedAtErr A.row A.Allocator self.entry result) }
    {
        self.emit(Prefix::Fd, 0xf1)
    }

    /// `f64x2.mul`: `0xFD 0xF2 0x01`.
    #[inline(always)]
    pub fn f64x2_mul(self) -> Result<InstructionSink<'a, A>, EncodeError>
        ensures emits { Emits self.entry (after_fd 0xf2) operands.None result }
        ensures* unchanged { sem 𝓛 (IsUnchangedAtErr A.row A.Allocator self.entry result) }
    {
        self.emit(Prefix::Fd, 0xf2)
    }

    /// `f64x2.div`: `0xFD 0xF3 0x01`.
    #[inline(always)]
    pub fn f64x2_div(self) -> Result<InstructionSink<'a, A>, EncodeError>
        ensures emits { Emits self.entry (after_fd 0xf3) operands.None result }
        ensures* unchanged { sem 𝓛 (IsUnchangedAtErr A.row A.Allocator self.entry result) }
    {
        self.emit(Prefix::Fd, 0xf3)
    }

    /// `f64x2.min`: `0xFD 0xF4 0x01`.
    #[inline(always)]
    pub fn f64x2_min(self) -> Result<InstructionSink<'a, A>, EncodeError>
        ensures emits { Emits self.entry (after_fd 0xf4) operands.None result }
        ensures* unchanged { sem 𝓛 (IsUnchangedAtErr A.row A.Allocator self.entry result) }
    {
        self.emit(Prefix::Fd, 0xf4)
    }

    /// `f64x2.max`: `0xFD 0xF5 0x01`.
    #[inline(always)]
    pub fn f64x2_max(self) -> Result<InstructionSink<'a, A>, EncodeError>
        ensures emits { Emits self.entry (after_fd 0xf5) operands.None result }
        ensures* unchanged { sem 𝓛 (IsUnchangedAtErr A.row A.Allocator self.entry result) }
    {
        self.emit(Prefix::Fd, 0xf5)
    }

    /// `f64x2.pmin`: `0xFD 0xF6 0x01`.
    #[inline(always)]
    pub fn f64x2_pmin(self) -> Result<InstructionSink<'a, A>, EncodeError>
        ensures emits { Emits self.entry (after_fd 0xf6) operands.None result }
        ensures* unchanged { sem 𝓛 (IsUnchangedAtErr A.row A.Allocator self.entry result) }
    {
        self.emit(Prefix::Fd, 0xf6)
    }

    /// `f64x2.pmax`: `0xFD 0xF7 0x01`.
    #[inline(always)]
    pub fn f64x2_pmax(self) -> Result<InstructionSink<'a, A>, EncodeError>
        ensures emits { Emits self.entry (after_fd 0xf7) operands.None result }
        ensures* unchanged { sem 𝓛 (IsUnchangedAtErr A.row A.Allocator self.entry result) }
    {
        self.emit(Prefix::Fd, 0xf7)
    }

    /// `f32x4.convert_i32x4_s`: `0xFD 0xFA 0x01`.
    #[inline(always)]
    pub fn f32x4_convert_i32x4_s(self) -> Result<InstructionSink<'a, A>, EncodeError>
        ensures emits { Emits self.entry (after_fd 0xfa) operands.None result }
        ensures* unchanged { sem 𝓛 (IsUnchangedAtErr A.row A.Allocator self.entry result) }
    {
        self.emit(Prefix::Fd, 0xfa)
    }

    /// `f32x4.convert_i32x4_u`: `0xFD 0xFB 0x01`.
    #[inline(always)]
    pub fn f32x4_convert_i32x4_u(self) -> Result<InstructionSink<'a, A>, EncodeError>
        ensures emits { Emits self.entry (after_fd 0xfb) operands.None result }
        ensures* unchanged { sem 𝓛 (IsUnchangedAtErr A.row A.Allocator self.entry result) }
    {
        self.emit(Prefix::Fd, 0xfb)
    }

    /// `f64x2.convert_low_i32x4_s`: `0xFD 0xFE 0x01`.
    #[inline(always)]
    pub fn f64x2_convert_low_i32x4_s(self) -> Result<InstructionSink<'a, A>, EncodeError>
        ensures emits { Emits self.entry (after_fd 0xfe) operands.None result }
        ensures* unchanged { sem 𝓛 (IsUnchangedAtErr A.row A.Allocator self.entry result) }
    {
        self.emit(Prefix::Fd, 0xfe)
    }

    /// `f64x2.convert_low_i32x4_u`: `0xFD 0xFF 0x01`.
    #[inline(always)]
    pub fn f64x2_convert_low_i32x4_u(self) -> Result<InstructionSink<'a, A>, EncodeError>
        ensures emits { Emits self.entry (after_fd 0xff) operands.None result }
        ensures* unchanged { sem 𝓛 (IsUnchangedAtErr A.row A.Allocator self.entry result) }
    {
        self.emit(Prefix::Fd, 0xff)
    }
}
