//! Operations on floating-point numbers (Core 3.0, Numeric Instructions).
ghost use Rattle.std.specs.Borrow.{sem};
ghost use Rattle.wasm_sink.specs.Sink.{IsUnchangedAtErr, Emits};
ghost use Rattle.wasm_instructions.specs.formats.Opcodes.{without_prefix};
ghost use Rattle.wasm_instructions.specs.declared.table.call.Operands.TheVariants as operands;

use crate::sink::InstructionSink;
use std::alloc::Allocator;
use wasm_codec::encode::EncodeError;
use wasm_instructions::operands::{Ieee32, Ieee64};
use wasm_instructions::table::Prefix;

#[tactic(auto, unfolding(wasm_instructions::specs::formats::Opcodes::ranges))]
impl<'a, A: Allocator> InstructionSink<'a, A> {
    /// `f32.const`: `0x43`, then 4 bytes, the lowest first.
    #[inline(always)]
    pub fn f32_const(self, value: Ieee32) -> Result<InstructionSink<'a, A>, EncodeError>
        ensures emits { Emits self.entry (without_prefix 0x43) (operands.F32 value) result }
        ensures* unchanged { sem 𝓛 (IsUnchangedAtErr A.row A.Allocator self.entry result) }
    {
        self.emit_f32(0x43, value)
    }

    /// `f64.const`: `0x44`, then 8 bytes, the lowest first.
    #[inline(always)]
    pub fn f64_const(self, value: Ieee64) -> Result<InstructionSink<'a, A>, EncodeError>
        ensures emits { Emits self.entry (without_prefix 0x44) (operands.F64 value) result }
        ensures* unchanged { sem 𝓛 (IsUnchangedAtErr A.row A.Allocator self.entry result) }
    {
        self.emit_f64(0x44, value)
    }

    /// `f32.eq`: `0x5B`.
    #[inline(always)]
    pub fn f32_eq(self) -> Result<InstructionSink<'a, A>, EncodeError>
        ensures emits { Emits self.entry (without_prefix 0x5b) operands.None result }
        ensures* unchanged { sem 𝓛 (IsUnchangedAtErr A.row A.Allocator self.entry result) }
    {
        self.emit(Prefix::None, 0x5b)
    }

    /// `f32.ne`: `0x5C`.
    #[inline(always)]
    pub fn f32_ne(self) -> Result<InstructionSink<'a, A>, EncodeError>
        ensures emits { Emits self.entry (without_prefix 0x5c) operands.None result }
        ensures* unchanged { sem 𝓛 (IsUnchangedAtErr A.row A.Allocator self.entry result) }
    {
        self.emit(Prefix::None, 0x5c)
    }

    /// `f32.lt`: `0x5D`.
    #[inline(always)]
    pub fn f32_lt(self) -> Result<InstructionSink<'a, A>, EncodeError>
        ensures emits { Emits self.entry (without_prefix 0x5d) operands.None result }
        ensures* unchanged { sem 𝓛 (IsUnchangedAtErr A.row A.Allocator self.entry result) }
    {
        self.emit(Prefix::None, 0x5d)
    }

    /// `f32.gt`: `0x5E`.
    #[inline(always)]
    pub fn f32_gt(self) -> Result<InstructionSink<'a, A>, EncodeError>
        ensures emits { Emits self.entry (without_prefix 0x5e) operands.None result }
        ensures* unchanged { sem 𝓛 (IsUnchangedAtErr A.row A.Allocator self.entry result) }
    {
        self.emit(Prefix::None, 0x5e)
    }

    /// `f32.le`: `0x5F`.
    #[inline(always)]
    pub fn f32_le(self) -> Result<InstructionSink<'a, A>, EncodeError>
        ensures emits { Emits self.entry (without_prefix 0x5f) operands.None result }
        ensures* unchanged { sem 𝓛 (IsUnchangedAtErr A.row A.Allocator self.entry result) }
    {
        self.emit(Prefix::None, 0x5f)
    }

    /// `f32.ge`: `0x60`.
    #[inline(always)]
    pub fn f32_ge(self) -> Result<InstructionSink<'a, A>, EncodeError>
        ensures emits { Emits self.entry (without_prefix 0x60) operands.None result }
        ensures* unchanged { sem 𝓛 (IsUnchangedAtErr A.row A.Allocator self.entry result) }
    {
        self.emit(Prefix::None, 0x60)
    }

    /// `f64.eq`: `0x61`.
    #[inline(always)]
    pub fn f64_eq(self) -> Result<InstructionSink<'a, A>, EncodeError>
        ensures emits { Emits self.entry (without_prefix 0x61) operands.None result }
        ensures* unchanged { sem 𝓛 (IsUnchangedAtErr A.row A.Allocator self.entry result) }
    {
        self.emit(Prefix::None, 0x61)
    }

    /// `f64.ne`: `0x62`.
    #[inline(always)]
    pub fn f64_ne(self) -> Result<InstructionSink<'a, A>, EncodeError>
        ensures emits { Emits self.entry (without_prefix 0x62) operands.None result }
        ensures* unchanged { sem 𝓛 (IsUnchangedAtErr A.row A.Allocator self.entry result) }
    {
        self.emit(Prefix::None, 0x62)
    }

    /// `f64.lt`: `0x63`.
    #[inline(always)]
    pub fn f64_lt(self) -> Result<InstructionSink<'a, A>, EncodeError>
        ensures emits { Emits self.entry (without_prefix 0x63) operands.None result }
        ensures* unchanged { sem 𝓛 (IsUnchangedAtErr A.row A.Allocator self.entry result) }
    {
        self.emit(Prefix::None, 0x63)
    }

    /// `f64.gt`: `0x64`.
    #[inline(always)]
    pub fn f64_gt(self) -> Result<InstructionSink<'a, A>, EncodeError>
        ensures emits { Emits self.entry (without_prefix 0x64) operands.None result }
        ensures* unchanged { sem 𝓛 (IsUnchangedAtErr A.row A.Allocator self.entry result) }
    {
        self.emit(Prefix::None, 0x64)
    }

    /// `f64.le`: `0x65`.
    #[inline(always)]
    pub fn f64_le(self) -> Result<InstructionSink<'a, A>, EncodeError>
        ensures emits { Emits self.entry (without_prefix 0x65) operands.None result }
        ensures* unchanged { sem 𝓛 (IsUnchangedAtErr A.row A.Allocator self.entry result) }
    {
        self.emit(Prefix::None, 0x65)
    }

    /// `f64.ge`: `0x66`.
    #[inline(always)]
    pub fn f64_ge(self) -> Result<InstructionSink<'a, A>, EncodeError>
        ensures emits { Emits self.entry (without_prefix 0x66) operands.None result }
        ensures* unchanged { sem 𝓛 (IsUnchangedAtErr A.row A.Allocator self.entry result) }
    {
        self.emit(Prefix::None, 0x66)
    }

    /// `f32.abs`: `0x8B`.
    #[inline(always)]
    pub fn f32_abs(self) -> Result<InstructionSink<'a, A>, EncodeError>
        ensures emits { Emits self.entry (without_prefix 0x8b) operands.None result }
        ensures* unchanged { sem 𝓛 (IsUnchangedAtErr A.row A.Allocator self.entry result) }
    {
        self.emit(Prefix::None, 0x8b)
    }

    /// `f32.neg`: `0x8C`.
    #[inline(always)]
    pub fn f32_neg(self) -> Result<InstructionSink<'a, A>, EncodeError>
        ensures emits { Emits self.entry (without_prefix 0x8c) operands.None result }
        ensures* unchanged { sem 𝓛 (IsUnchangedAtErr A.row A.Allocator self.entry result) }
    {
        self.emit(Prefix::None, 0x8c)
    }

    /// `f32.ceil`: `0x8D`.
    #[inline(always)]
    pub fn f32_ceil(self) -> Result<InstructionSink<'a, A>, EncodeError>
        ensures emits { Emits self.entry (without_prefix 0x8d) operands.None result }
        ensures* unchanged { sem 𝓛 (IsUnchangedAtErr A.row A.Allocator self.entry result) }
    {
        self.emit(Prefix::None, 0x8d)
    }

    /// `f32.floor`: `0x8E`.
    #[inline(always)]
    pub fn f32_floor(self) -> Result<InstructionSink<'a, A>, EncodeError>
        ensures emits { Emits self.entry (without_prefix 0x8e) operands.None result }
        ensures* unchanged { sem 𝓛 (IsUnchangedAtErr A.row A.Allocator self.entry result) }
    {
        self.emit(Prefix::None, 0x8e)
    }

    /// `f32.trunc`: `0x8F`.
    #[inline(always)]
    pub fn f32_trunc(self) -> Result<InstructionSink<'a, A>, EncodeError>
        ensures emits { Emits self.entry (without_prefix 0x8f) operands.None result }
        ensures* unchanged { sem 𝓛 (IsUnchangedAtErr A.row A.Allocator self.entry result) }
    {
        self.emit(Prefix::None, 0x8f)
    }

    /// `f32.nearest`: `0x90`.
    #[inline(always)]
    pub fn f32_nearest(self) -> Result<InstructionSink<'a, A>, EncodeError>
        ensures emits { Emits self.entry (without_prefix 0x90) operands.None result }
        ensures* unchanged { sem 𝓛 (IsUnchangedAtErr A.row A.Allocator self.entry result) }
    {
        self.emit(Prefix::None, 0x90)
    }

    /// `f32.sqrt`: `0x91`.
    #[inline(always)]
    pub fn f32_sqrt(self) -> Result<InstructionSink<'a, A>, EncodeError>
        ensures emits { Emits self.entry (without_prefix 0x91) operands.None result }
        ensures* unchanged { sem 𝓛 (IsUnchangedAtErr A.row A.Allocator self.entry result) }
    {
        self.emit(Prefix::None, 0x91)
    }

    /// `f32.add`: `0x92`.
    #[inline(always)]
    pub fn f32_add(self) -> Result<InstructionSink<'a, A>, EncodeError>
        ensures emits { Emits self.entry (without_prefix 0x92) operands.None result }
        ensures* unchanged { sem 𝓛 (IsUnchangedAtErr A.row A.Allocator self.entry result) }
    {
        self.emit(Prefix::None, 0x92)
    }

    /// `f32.sub`: `0x93`.
    #[inline(always)]
    pub fn f32_sub(self) -> Result<InstructionSink<'a, A>, EncodeError>
        ensures emits { Emits self.entry (without_prefix 0x93) operands.None result }
        ensures* unchanged { sem 𝓛 (IsUnchangedAtErr A.row A.Allocator self.entry result) }
    {
        self.emit(Prefix::None, 0x93)
    }

    /// `f32.mul`: `0x94`.
    #[inline(always)]
    pub fn f32_mul(self) -> Result<InstructionSink<'a, A>, EncodeError>
        ensures emits { Emits self.entry (without_prefix 0x94) operands.None result }
        ensures* unchanged { sem 𝓛 (IsUnchangedAtErr A.row A.Allocator self.entry result) }
    {
        self.emit(Prefix::None, 0x94)
    }

    /// `f32.div`: `0x95`.
    #[inline(always)]
    pub fn f32_div(self) -> Result<InstructionSink<'a, A>, EncodeError>
        ensures emits { Emits self.entry (without_prefix 0x95) operands.None result }
        ensures* unchanged { sem 𝓛 (IsUnchangedAtErr A.row A.Allocator self.entry result) }
    {
        self.emit(Prefix::None, 0x95)
    }

    /// `f32.min`: `0x96`.
    #[inline(always)]
    pub fn f32_min(self) -> Result<InstructionSink<'a, A>, EncodeError>
        ensures emits { Emits self.entry (without_prefix 0x96) operands.None result }
        ensures* unchanged { sem 𝓛 (IsUnchangedAtErr A.row A.Allocator self.entry result) }
    {
        self.emit(Prefix::None, 0x96)
    }

    /// `f32.max`: `0x97`.
    #[inline(always)]
    pub fn f32_max(self) -> Result<InstructionSink<'a, A>, EncodeError>
        ensures emits { Emits self.entry (without_prefix 0x97) operands.None result }
        ensures* unchanged { sem 𝓛 (IsUnchangedAtErr A.row A.Allocator self.entry result) }
    {
        self.emit(Prefix::None, 0x97)
    }

    /// `f32.copysign`: `0x98`.
    #[inline(always)]
    pub fn f32_copysign(self) -> Result<InstructionSink<'a, A>, EncodeError>
        ensures emits { Emits self.entry (without_prefix 0x98) operands.None result }
        ensures* unchanged { sem 𝓛 (IsUnchangedAtErr A.row A.Allocator self.entry result) }
    {
        self.emit(Prefix::None, 0x98)
    }

    /// `f64.abs`: `0x99`.
    #[inline(always)]
    pub fn f64_abs(self) -> Result<InstructionSink<'a, A>, EncodeError>
        ensures emits { Emits self.entry (without_prefix 0x99) operands.None result }
        ensures* unchanged { sem 𝓛 (IsUnchangedAtErr A.row A.Allocator self.entry result) }
    {
        self.emit(Prefix::None, 0x99)
    }

    /// `f64.neg`: `0x9A`.
    #[inline(always)]
    pub fn f64_neg(self) -> Result<InstructionSink<'a, A>, EncodeError>
        ensures emits { Emits self.entry (without_prefix 0x9a) operands.None result }
        ensures* unchanged { sem 𝓛 (IsUnchangedAtErr A.row A.Allocator self.entry result) }
    {
        self.emit(Prefix::None, 0x9a)
    }

    /// `f64.ceil`: `0x9B`.
    #[inline(always)]
    pub fn f64_ceil(self) -> Result<InstructionSink<'a, A>, EncodeError>
        ensures emits { Emits self.entry (without_prefix 0x9b) operands.None result }
        ensures* unchanged { sem 𝓛 (IsUnchangedAtErr A.row A.Allocator self.entry result) }
    {
        self.emit(Prefix::None, 0x9b)
    }

    /// `f64.floor`: `0x9C`.
    #[inline(always)]
    pub fn f64_floor(self) -> Result<InstructionSink<'a, A>, EncodeError>
        ensures emits { Emits self.entry (without_prefix 0x9c) operands.None result }
        ensures* unchanged { sem 𝓛 (IsUnchangedAtErr A.row A.Allocator self.entry result) }
    {
        self.emit(Prefix::None, 0x9c)
    }

    /// `f64.trunc`: `0x9D`.
    #[inline(always)]
    pub fn f64_trunc(self) -> Result<InstructionSink<'a, A>, EncodeError>
        ensures emits { Emits self.entry (without_prefix 0x9d) operands.None result }
        ensures* unchanged { sem 𝓛 (IsUnchangedAtErr A.row A.Allocator self.entry result) }
    {
        self.emit(Prefix::None, 0x9d)
    }

    /// `f64.nearest`: `0x9E`.
    #[inline(always)]
    pub fn f64_nearest(self) -> Result<InstructionSink<'a, A>, EncodeError>
        ensures emits { Emits self.entry (without_prefix 0x9e) operands.None result }
        ensures* unchanged { sem 𝓛 (IsUnchangedAtErr A.row A.Allocator self.entry result) }
    {
        self.emit(Prefix::None, 0x9e)
    }

    /// `f64.sqrt`: `0x9F`.
    #[inline(always)]
    pub fn f64_sqrt(self) -> Result<InstructionSink<'a, A>, EncodeError>
        ensures emits { Emits self.entry (without_prefix 0x9f) operands.None result }
        ensures* unchanged { sem 𝓛 (IsUnchangedAtErr A.row A.Allocator self.entry result) }
    {
        self.emit(Prefix::None, 0x9f)
    }

    /// `f64.add`: `0xA0`.
    #[inline(always)]
    pub fn f64_add(self) -> Result<InstructionSink<'a, A>, EncodeError>
        ensures emits { Emits self.entry (without_prefix 0xa0) operands.None result }
        ensures* unchanged { sem 𝓛 (IsUnchangedAtErr A.row A.Allocator self.entry result) }
    {
        self.emit(Prefix::None, 0xa0)
    }

    /// `f64.sub`: `0xA1`.
    #[inline(always)]
    pub fn f64_sub(self) -> Result<InstructionSink<'a, A>, EncodeError>
        ensures emits { Emits self.entry (without_prefix 0xa1) operands.None result }
        ensures* unchanged { sem 𝓛 (IsUnchangedAtErr A.row A.Allocator self.entry result) }
    {
        self.emit(Prefix::None, 0xa1)
    }

    /// `f64.mul`: `0xA2`.
    #[inline(always)]
    pub fn f64_mul(self) -> Result<InstructionSink<'a, A>, EncodeError>
        ensures emits { Emits self.entry (without_prefix 0xa2) operands.None result }
        ensures* unchanged { sem 𝓛 (IsUnchangedAtErr A.row A.Allocator self.entry result) }
    {
        self.emit(Prefix::None, 0xa2)
    }

    /// `f64.div`: `0xA3`.
    #[inline(always)]
    pub fn f64_div(self) -> Result<InstructionSink<'a, A>, EncodeError>
        ensures emits { Emits self.entry (without_prefix 0xa3) operands.None result }
        ensures* unchanged { sem 𝓛 (IsUnchangedAtErr A.row A.Allocator self.entry result) }
    {
        self.emit(Prefix::None, 0xa3)
    }

    /// `f64.min`: `0xA4`.
    #[inline(always)]
    pub fn f64_min(self) -> Result<InstructionSink<'a, A>, EncodeError>
        ensures emits { Emits self.entry (without_prefix 0xa4) operands.None result }
        ensures* unchanged { sem 𝓛 (IsUnchangedAtErr A.row A.Allocator self.entry result) }
    {
        self.emit(Prefix::None, 0xa4)
    }

    /// `f64.max`: `0xA5`.
    #[inline(always)]
    pub fn f64_max(self) -> Result<InstructionSink<'a, A>, EncodeError>
        ensures emits { Emits self.entry (without_prefix 0xa5) operands.None result }
        ensures* unchanged { sem 𝓛 (IsUnchangedAtErr A.row A.Allocator self.entry result) }
    {
        self.emit(Prefix::None, 0xa5)
    }

    /// `f64.copysign`: `0xA6`.
    #[inline(always)]
    pub fn f64_copysign(self) -> Result<InstructionSink<'a, A>, EncodeError>
        ensures emits { Emits self.entry (without_prefix 0xa6) operands.None result }
        ensures* unchanged { sem 𝓛 (IsUnchangedAtErr A.row A.Allocator self.entry result) }
    {
        self.emit(Prefix::None, 0xa6)
    }
}
