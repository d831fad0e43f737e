//! Relaxed operations on vectors (Core 3.0, Vector Instructions).
ghost use Rattle.std.specs.Borrow.{sem};
ghost use Rattle.wasm_sink.specs.Sink.{IsUnchangedAtErr, Emits};
ghost use Rattle.wasm_instructions.specs.formats.Opcodes.{after_fd};
ghost use Rattle.wasm_instructions.specs.declared.table.call.Operands.TheVariants as operands;

use crate::sink::InstructionSink;
use std::alloc::Allocator;
use wasm_codec::encode::EncodeError;
use wasm_instructions::table::Prefix;

#[tactic(auto, unfolding(wasm_instructions::specs::formats::Opcodes::ranges))]
impl<'a, A: Allocator> InstructionSink<'a, A> {
    /// `i8x16.relaxed_swizzle`: `0xFD 0x80 0x02`.
    #[inline(always)]
    pub fn i8x16_relaxed_swizzle(self) -> Result<InstructionSink<'a, A>, EncodeError>
        ensures emits { Emits self.entry (after_fd 0x100) operands.None result }
        ensures* unchanged { sem 𝓛 (IsUnchangedAtErr A.row A.Allocator self.entry result) }
    {
        self.emit(Prefix::Fd, 0x100)
    }

    /// `i32x4.relaxed_trunc_f32x4_s`: `0xFD 0x81 0x02`.
    #[inline(always)]
    pub fn i32x4_relaxed_trunc_f32x4_s(self) -> Result<InstructionSink<'a, A>, EncodeError>
        ensures emits { Emits self.entry (after_fd 0x101) operands.None result }
        ensures* unchanged { sem 𝓛 (IsUnchangedAtErr A.row A.Allocator self.entry result) }
    {
        self.emit(Prefix::Fd, 0x101)
    }

    /// `i32x4.relaxed_trunc_f32x4_u`: `0xFD 0x82 0x02`.
    #[inline(always)]
    pub fn i32x4_relaxed_trunc_f32x4_u(self) -> Result<InstructionSink<'a, A>, EncodeError>
        ensures emits { Emits self.entry (after_fd 0x102) operands.None result }
        ensures* unchanged { sem 𝓛 (IsUnchangedAtErr A.row A.Allocator self.entry result) }
    {
        self.emit(Prefix::Fd, 0x102)
    }

    /// `i32x4.relaxed_trunc_f64x2_s_zero`: `0xFD 0x83 0x02`.
    #[inline(always)]
    pub fn i32x4_relaxed_trunc_f64x2_s_zero(self) -> Result<InstructionSink<'a, A>, EncodeError>
        ensures emits { Emits self.entry (after_fd 0x103) operands.None result }
        ensures* unchanged { sem 𝓛 (IsUnchangedAtErr A.row A.Allocator self.entry result) }
    {
        self.emit(Prefix::Fd, 0x103)
    }

    /// `i32x4.relaxed_trunc_f64x2_u_zero`: `0xFD 0x84 0x02`.
    #[inline(always)]
    pub fn i32x4_relaxed_trunc_f64x2_u_zero(self) -> Result<InstructionSink<'a, A>, EncodeError>
        ensures emits { Emits self.entry (after_fd 0x104) operands.None result }
        ensures* unchanged { sem 𝓛 (IsUnchangedAtErr A.row A.Allocator self.entry result) }
    {
        self.emit(Prefix::Fd, 0x104)
    }

    /// `f32x4.relaxed_madd`: `0xFD 0x85 0x02`.
    #[inline(always)]
    pub fn f32x4_relaxed_madd(self) -> Result<InstructionSink<'a, A>, EncodeError>
        ensures emits { Emits self.entry (after_fd 0x105) operands.None result }
        ensures* unchanged { sem 𝓛 (IsUnchangedAtErr A.row A.Allocator self.entry result) }
    {
        self.emit(Prefix::Fd, 0x105)
    }

    /// `f32x4.relaxed_nmadd`: `0xFD 0x86 0x02`.
    #[inline(always)]
    pub fn f32x4_relaxed_nmadd(self) -> Result<InstructionSink<'a, A>, EncodeError>
        ensures emits { Emits self.entry (after_fd 0x106) operands.None result }
        ensures* unchanged { sem 𝓛 (IsUnchangedAtErr A.row A.Allocator self.entry result) }
    {
        self.emit(Prefix::Fd, 0x106)
    }

    /// `f64x2.relaxed_madd`: `0xFD 0x87 0x02`.
    #[inline(always)]
    pub fn f64x2_relaxed_madd(self) -> Result<InstructionSink<'a, A>, EncodeError>
        ensures emits { Emits self.entry (after_fd 0x107) operands.None result }
        ensures* unchanged { sem 𝓛 (IsUnchangedAtErr A.row A.Allocator self.entry result) }
    {
        self.emit(Prefix::Fd, 0x107)
    }

    /// `f64x2.relaxed_nmadd`: `0xFD 0x88 0x02`.
    #[inline(always)]
    pub fn f64x2_relaxed_nmadd(self) -> Result<InstructionSink<'a, A>, EncodeError>
        ensures emits { Emits self.entry (after_fd 0x108) operands.None result }
        ensures* unchanged { sem 𝓛 (IsUnchangedAtErr A.row A.Allocator self.entry result) }
    {
        self.emit(Prefix::Fd, 0x108)
    }

    /// `i8x16.relaxed_laneselect`: `0xFD 0x89 0x02`.
    #[inline(always)]
    pub fn i8x16_relaxed_laneselect(self) -> Result<InstructionSink<'a, A>, EncodeError>
        ensures emits { Emits self.entry (after_fd 0x109) operands.None result }
        ensures* unchanged { sem 𝓛 (IsUnchangedAtErr A.row A.Allocator self.entry result) }
    {
        self.emit(Prefix::Fd, 0x109)
    }

    /// `i16x8.relaxed_laneselect`: `0xFD 0x8A 0x02`.
    #[inline(always)]
    pub fn i16x8_relaxed_laneselect(self) -> Result<InstructionSink<'a, A>, EncodeError>
        ensures emits { Emits self.entry (after_fd 0x10a) operands.None result }
        ensures* unchanged { sem 𝓛 (IsUnchangedAtErr A.row A.Allocator self.entry result) }
    {
        self.emit(Prefix::Fd, 0x10a)
    }

    /// `i32x4.relaxed_laneselect`: `0xFD 0x8B 0x02`.
    #[inline(always)]
    pub fn i32x4_relaxed_laneselect(self) -> Result<InstructionSink<'a, A>, EncodeError>
        ensures emits { Emits self.entry (after_fd 0x10b) operands.None result }
        ensures* unchanged { sem 𝓛 (IsUnchangedAtErr A.row A.Allocator self.entry result) }
    {
        self.emit(Prefix::Fd, 0x10b)
    }

    /// `i64x2.relaxed_laneselect`: `0xFD 0x8C 0x02`.
    #[inline(always)]
    pub fn i64x2_relaxed_laneselect(self) -> Result<InstructionSink<'a, A>, EncodeError>
        ensures emits { Emits self.entry (after_fd 0x10c) operands.None result }
        ensures* unchanged { sem 𝓛 (IsUnchangedAtErr A.row A.Allocator self.entry result) }
    {
        self.emit(Prefix::Fd, 0x10c)
    }

    /// `f32x4.relaxed_min`: `0xFD 0x8D 0x02`.
    #[inline(always)]
    pub fn f32x4_relaxed_min(self) -> Result<InstructionSink<'a, A>, EncodeError>
        ensures emits { Emits self.entry (after_fd 0x10d) operands.None result }
        ensures* unchanged { sem 𝓛 (IsUnchangedAtErr A.row A.Allocator self.entry result) }
    {
        self.emit(Prefix::Fd, 0x10d)
    }

    /// `f32x4.relaxed_max`: `0xFD 0x8E 0x02`.
    #[inline(always)]
    pub fn f32x4_relaxed_max(self) -> Result<InstructionSink<'a, A>, EncodeError>
        ensures emits { Emits self.entry (after_fd 0x10e) operands.None result }
        ensures* unchanged { sem 𝓛 (IsUnchangedAtErr A.row A.Allocator self.entry result) }
    {
        self.emit(Prefix::Fd, 0x10e)
    }

    /// `f64x2.relaxed_min`: `0xFD 0x8F 0x02`.
    #[inline(always)]
    pub fn f64x2_relaxed_min(self) -> Result<InstructionSink<'a, A>, EncodeError>
        ensures emits { Emits self.entry (after_fd 0x10f) operands.None result }
        ensures* unchanged { sem 𝓛 (IsUnchangedAtErr A.row A.Allocator self.entry result) }
    {
        self.emit(Prefix::Fd, 0x10f)
    }

    /// `f64x2.relaxed_max`: `0xFD 0x90 0x02`.
    #[inline(always)]
    pub fn f64x2_relaxed_max(self) -> Result<InstructionSink<'a, A>, EncodeError>
        ensures emits { Emits self.entry (after_fd 0x110) operands.None result }
        ensures* unchanged { sem 𝓛 (IsUnchangedAtErr A.row A.Allocator self.entry result) }
    {
        self.emit(Prefix::Fd, 0x110)
    }

    /// `i16x8.relaxed_q15mulr_s`: `0xFD 0x91 0x02`.
    #[inline(always)]
    pub fn i16x8_relaxed_q15mulr_s(self) -> Result<InstructionSink<'a, A>, EncodeError>
        ensures emits { Emits self.entry (after_fd 0x111) operands.None result }
        ensures* unchanged { sem 𝓛 (IsUnchangedAtErr A.row A.Allocator self.entry result) }
    {
        self.emit(Prefix::Fd, 0x111)
    }

    /// `i16x8.relaxed_dot_i8x16_i7x16_s`: `0xFD 0x92 0x02`.
    #[inline(always)]
    pub fn i16x8_relaxed_dot_i8x16_i7x16_s(self) -> Result<InstructionSink<'a, A>, EncodeError>
        ensures emits { Emits self.entry (after_fd 0x112) operands.None result }
        ensures* unchanged { sem 𝓛 (IsUnchangedAtErr A.row A.Allocator self.entry result) }
    {
        self.emit(Prefix::Fd, 0x112)
    }

    /// `i32x4.relaxed_dot_i8x16_i7x16_add_s`: `0xFD 0x93 0x02`.
    #[inline(always)]
    pub fn i32x4_relaxed_dot_i8x16_i7x16_add_s(self) -> Result<InstructionSink<'a, A>, EncodeError>
        ensures emits { Emits self.entry (after_fd 0x113) operands.None result }
        ensures* unchanged { sem 𝓛 (IsUnchangedAtErr A.row A.Allocator self.entry result) }
    {
        self.emit(Prefix::Fd, 0x113)
    }
}
