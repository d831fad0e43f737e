//! Conversions between numbers (Core 3.0, Numeric Instructions).
ghost use Rattle.std.specs.Borrow.{sem};
ghost use Rattle.wasm_sink.specs.Sink.{IsUnchangedAtErr, Emits};
ghost use Rattle.wasm_instructions.specs.formats.Opcodes.{without_prefix, after_fc};
ghost use Rattle.wasm_instructions.specs.declared.table.call.Operands.TheVariants as operands;

use crate::sink::InstructionSink;
use std::alloc::Allocator;
use wasm_codec::encode::EncodeError;
use wasm_instructions::table::Prefix;

#[tactic(auto, unfolding(wasm_instructions::specs::formats::Opcodes::ranges))]
impl<'a, A: Allocator> InstructionSink<'a, A> {
    /// `i32.wrap_i64`: `0xA7`.
    #[inline(always)]
    pub fn i32_wrap_i64(self) -> Result<InstructionSink<'a, A>, EncodeError>
        ensures emits { Emits self.entry (without_prefix 0xa7) operands.None result }
        ensures* unchanged { sem 𝓛 (IsUnchangedAtErr A.row A.Allocator self.entry result) }
    {
        self.emit(Prefix::None, 0xa7)
    }

    /// `i32.trunc_f32_s`: `0xA8`.
    #[inline(always)]
    pub fn i32_trunc_f32_s(self) -> Result<InstructionSink<'a, A>, EncodeError>
        ensures emits { Emits self.entry (without_prefix 0xa8) operands.None result }
        ensures* unchanged { sem 𝓛 (IsUnchangedAtErr A.row A.Allocator self.entry result) }
    {
        self.emit(Prefix::None, 0xa8)
    }

    /// `i32.trunc_f32_u`: `0xA9`.
    #[inline(always)]
    pub fn i32_trunc_f32_u(self) -> Result<InstructionSink<'a, A>, EncodeError>
        ensures emits { Emits self.entry (without_prefix 0xa9) operands.None result }
        ensures* unchanged { sem 𝓛 (IsUnchangedAtErr A.row A.Allocator self.entry result) }
    {
        self.emit(Prefix::None, 0xa9)
    }

    /// `i32.trunc_f64_s`: `0xAA`.
    #[inline(always)]
    pub fn i32_trunc_f64_s(self) -> Result<InstructionSink<'a, A>, EncodeError>
        ensures emits { Emits self.entry (without_prefix 0xaa) operands.None result }
        ensures* unchanged { sem 𝓛 (IsUnchangedAtErr A.row A.Allocator self.entry result) }
    {
        self.emit(Prefix::None, 0xaa)
    }

    /// `i32.trunc_f64_u`: `0xAB`.
    #[inline(always)]
    pub fn i32_trunc_f64_u(self) -> Result<InstructionSink<'a, A>, EncodeError>
        ensures emits { Emits self.entry (without_prefix 0xab) operands.None result }
        ensures* unchanged { sem 𝓛 (IsUnchangedAtErr A.row A.Allocator self.entry result) }
    {
        self.emit(Prefix::None, 0xab)
    }

    /// `i64.extend_i32_s`: `0xAC`.
    #[inline(always)]
    pub fn i64_extend_i32_s(self) -> Result<InstructionSink<'a, A>, EncodeError>
        ensures emits { Emits self.entry (without_prefix 0xac) operands.None result }
        ensures* unchanged { sem 𝓛 (IsUnchangedAtErr A.row A.Allocator self.entry result) }
    {
        self.emit(Prefix::None, 0xac)
    }

    /// `i64.extend_i32_u`: `0xAD`.
    #[inline(always)]
    pub fn i64_extend_i32_u(self) -> Result<InstructionSink<'a, A>, EncodeError>
        ensures emits { Emits self.entry (without_prefix 0xad) operands.None result }
        ensures* unchanged { sem 𝓛 (IsUnchangedAtErr A.row A.Allocator self.entry result) }
    {
        self.emit(Prefix::None, 0xad)
    }

    /// `i64.trunc_f32_s`: `0xAE`.
    #[inline(always)]
    pub fn i64_trunc_f32_s(self) -> Result<InstructionSink<'a, A>, EncodeError>
        ensures emits { Emits self.entry (without_prefix 0xae) operands.None result }
        ensures* unchanged { sem 𝓛 (IsUnchangedAtErr A.row A.Allocator self.entry result) }
    {
        self.emit(Prefix::None, 0xae)
    }

    /// `i64.trunc_f32_u`: `0xAF`.
    #[inline(always)]
    pub fn i64_trunc_f32_u(self) -> Result<InstructionSink<'a, A>, EncodeError>
        ensures emits { Emits self.entry (without_prefix 0xaf) operands.None result }
        ensures* unchanged { sem 𝓛 (IsUnchangedAtErr A.row A.Allocator self.entry result) }
    {
        self.emit(Prefix::None, 0xaf)
    }

    /// `i64.trunc_f64_s`: `0xB0`.
    #[inline(always)]
    pub fn i64_trunc_f64_s(self) -> Result<InstructionSink<'a, A>, EncodeError>
        ensures emits { Emits self.entry (without_prefix 0xb0) operands.None result }
        ensures* unchanged { sem 𝓛 (IsUnchangedAtErr A.row A.Allocator self.entry result) }
    {
        self.emit(Prefix::None, 0xb0)
    }

    /// `i64.trunc_f64_u`: `0xB1`.
    #[inline(always)]
    pub fn i64_trunc_f64_u(self) -> Result<InstructionSink<'a, A>, EncodeError>
        ensures emits { Emits self.entry (without_prefix 0xb1) operands.None result }
        ensures* unchanged { sem 𝓛 (IsUnchangedAtErr A.row A.Allocator self.entry result) }
    {
        self.emit(Prefix::None, 0xb1)
    }

    /// `f32.convert_i32_s`: `0xB2`.
    #[inline(always)]
    pub fn f32_convert_i32_s(self) -> Result<InstructionSink<'a, A>, EncodeError>
        ensures emits { Emits self.entry (without_prefix 0xb2) operands.None result }
        ensures* unchanged { sem 𝓛 (IsUnchangedAtErr A.row A.Allocator self.entry result) }
    {
        self.emit(Prefix::None, 0xb2)
    }

    /// `f32.convert_i32_u`: `0xB3`.
    #[inline(always)]
    pub fn f32_convert_i32_u(self) -> Result<InstructionSink<'a, A>, EncodeError>
        ensures emits { Emits self.entry (without_prefix 0xb3) operands.None result }
        ensures* unchanged { sem 𝓛 (IsUnchangedAtErr A.row A.Allocator self.entry result) }
    {
        self.emit(Prefix::None, 0xb3)
    }

    /// `f32.convert_i64_s`: `0xB4`.
    #[inline(always)]
    pub fn f32_convert_i64_s(self) -> Result<InstructionSink<'a, A>, EncodeError>
        ensures emits { Emits self.entry (without_prefix 0xb4) operands.None result }
        ensures* unchanged { sem 𝓛 (IsUnchangedAtErr A.row A.Allocator self.entry result) }
    {
        self.emit(Prefix::None, 0xb4)
    }

    /// `f32.convert_i64_u`: `0xB5`.
    #[inline(always)]
    pub fn f32_convert_i64_u(self) -> Result<InstructionSink<'a, A>, EncodeError>
        ensures emits { Emits self.entry (without_prefix 0xb5) operands.None result }
        ensures* unchanged { sem 𝓛 (IsUnchangedAtErr A.row A.Allocator self.entry result) }
    {
        self.emit(Prefix::None, 0xb5)
    }

    /// `f32.demote_f64`: `0xB6`.
    #[inline(always)]
    pub fn f32_demote_f64(self) -> Result<InstructionSink<'a, A>, EncodeError>
        ensures emits { Emits self.entry (without_prefix 0xb6) operands.None result }
        ensures* unchanged { sem 𝓛 (IsUnchangedAtErr A.row A.Allocator self.entry result) }
    {
        self.emit(Prefix::None, 0xb6)
    }

    /// `f64.convert_i32_s`: `0xB7`.
    #[inline(always)]
    pub fn f64_convert_i32_s(self) -> Result<InstructionSink<'a, A>, EncodeError>
        ensures emits { Emits self.entry (without_prefix 0xb7) operands.None result }
        ensures* unchanged { sem 𝓛 (IsUnchangedAtErr A.row A.Allocator self.entry result) }
    {
        self.emit(Prefix::None, 0xb7)
    }

    /// `f64.convert_i32_u`: `0xB8`.
    #[inline(always)]
    pub fn f64_convert_i32_u(self) -> Result<InstructionSink<'a, A>, EncodeError>
        ensures emits { Emits self.entry (without_prefix 0xb8) operands.None result }
        ensures* unchanged { sem 𝓛 (IsUnchangedAtErr A.row A.Allocator self.entry result) }
    {
        self.emit(Prefix::None, 0xb8)
    }

    /// `f64.convert_i64_s`: `0xB9`.
    #[inline(always)]
    pub fn f64_convert_i64_s(self) -> Result<InstructionSink<'a, A>, EncodeError>
        ensures emits { Emits self.entry (without_prefix 0xb9) operands.None result }
        ensures* unchanged { sem 𝓛 (IsUnchangedAtErr A.row A.Allocator self.entry result) }
    {
        self.emit(Prefix::None, 0xb9)
    }

    /// `f64.convert_i64_u`: `0xBA`.
    #[inline(always)]
    pub fn f64_convert_i64_u(self) -> Result<InstructionSink<'a, A>, EncodeError>
        ensures emits { Emits self.entry (without_prefix 0xba) operands.None result }
        ensures* unchanged { sem 𝓛 (IsUnchangedAtErr A.row A.Allocator self.entry result) }
    {
        self.emit(Prefix::None, 0xba)
    }

    /// `f64.promote_f32`: `0xBB`.
    #[inline(always)]
    pub fn f64_promote_f32(self) -> Result<InstructionSink<'a, A>, EncodeError>
        ensures emits { Emits self.entry (without_prefix 0xbb) operands.None result }
        ensures* unchanged { sem 𝓛 (IsUnchangedAtErr A.row A.Allocator self.entry result) }
    {
        self.emit(Prefix::None, 0xbb)
    }

    /// `i32.reinterpret_f32`: `0xBC`.
    #[inline(always)]
    pub fn i32_reinterpret_f32(self) -> Result<InstructionSink<'a, A>, EncodeError>
        ensures emits { Emits self.entry (without_prefix 0xbc) operands.None result }
        ensures* unchanged { sem 𝓛 (IsUnchangedAtErr A.row A.Allocator self.entry result) }
    {
        self.emit(Prefix::None, 0xbc)
    }

    /// `i64.reinterpret_f64`: `0xBD`.
    #[inline(always)]
    pub fn i64_reinterpret_f64(self) -> Result<InstructionSink<'a, A>, EncodeError>
        ensures emits { Emits self.entry (without_prefix 0xbd) operands.None result }
        ensures* unchanged { sem 𝓛 (IsUnchangedAtErr A.row A.Allocator self.entry result) }
    {
        self.emit(Prefix::None, 0xbd)
    }

    /// `f32.reinterpret_i32`: `0xBE`.
    #[inline(always)]
    pub fn f32_reinterpret_i32(self) -> Result<InstructionSink<'a, A>, EncodeError>
        ensures emits { Emits self.entry (without_prefix 0xbe) operands.None result }
        ensures* unchanged { sem 𝓛 (IsUnchangedAtErr A.row A.Allocator self.entry result) }
    {
        self.emit(Prefix::None, 0xbe)
    }

    /// `f64.reinterpret_i64`: `0xBF`.
    #[inline(always)]
    pub fn f64_reinterpret_i64(self) -> Result<InstructionSink<'a, A>, EncodeError>
        ensures emits { Emits self.entry (without_prefix 0xbf) operands.None result }
        ensures* unchanged { sem 𝓛 (IsUnchangedAtErr A.row A.Allocator self.entry result) }
    {
        self.emit(Prefix::None, 0xbf)
    }

    /// `i32.trunc_sat_f32_s`: `0xFC 0x00`.
    #[inline(always)]
    pub fn i32_trunc_sat_f32_s(self) -> Result<InstructionSink<'a, A>, EncodeError>
        ensures emits { Emits self.entry (after_fc 0x00) operands.None result }
        ensures* unchanged { sem 𝓛 (IsUnchangedAtErr A.row A.Allocator self.entry result) }
    {
        self.emit(Prefix::Fc, 0x00)
    }

    /// `i32.trunc_sat_f32_u`: `0xFC 0x01`.
    #[inline(always)]
    pub fn i32_trunc_sat_f32_u(self) -> Result<InstructionSink<'a, A>, EncodeError>
        ensures emits { Emits self.entry (after_fc 0x01) operands.None result }
        ensures* unchanged { sem 𝓛 (IsUnchangedAtErr A.row A.Allocator self.entry result) }
    {
        self.emit(Prefix::Fc, 0x01)
    }

    /// `i32.trunc_sat_f64_s`: `0xFC 0x02`.
    #[inline(always)]
    pub fn i32_trunc_sat_f64_s(self) -> Result<InstructionSink<'a, A>, EncodeError>
        ensures emits { Emits self.entry (after_fc 0x02) operands.None result }
        ensures* unchanged { sem 𝓛 (IsUnchangedAtErr A.row A.Allocator self.entry result) }
    {
        self.emit(Prefix::Fc, 0x02)
    }

    /// `i32.trunc_sat_f64_u`: `0xFC 0x03`.
    #[inline(always)]
    pub fn i32_trunc_sat_f64_u(self) -> Result<InstructionSink<'a, A>, EncodeError>
        ensures emits { Emits self.entry (after_fc 0x03) operands.None result }
        ensures* unchanged { sem 𝓛 (IsUnchangedAtErr A.row A.Allocator self.entry result) }
    {
        self.emit(Prefix::Fc, 0x03)
    }

    /// `i64.trunc_sat_f32_s`: `0xFC 0x04`.
    #[inline(always)]
    pub fn i64_trunc_sat_f32_s(self) -> Result<InstructionSink<'a, A>, EncodeError>
        ensures emits { Emits self.entry (after_fc 0x04) operands.None result }
        ensures* unchanged { sem 𝓛 (IsUnchangedAtErr A.row A.Allocator self.entry result) }
    {
        self.emit(Prefix::Fc, 0x04)
    }

    /// `i64.trunc_sat_f32_u`: `0xFC 0x05`.
    #[inline(always)]
    pub fn i64_trunc_sat_f32_u(self) -> Result<InstructionSink<'a, A>, EncodeError>
        ensures emits { Emits self.entry (after_fc 0x05) operands.None result }
        ensures* unchanged { sem 𝓛 (IsUnchangedAtErr A.row A.Allocator self.entry result) }
    {
        self.emit(Prefix::Fc, 0x05)
    }

    /// `i64.trunc_sat_f64_s`: `0xFC 0x06`.
    #[inline(always)]
    pub fn i64_trunc_sat_f64_s(self) -> Result<InstructionSink<'a, A>, EncodeError>
        ensures emits { Emits self.entry (after_fc 0x06) operands.None result }
        ensures* unchanged { sem 𝓛 (IsUnchangedAtErr A.row A.Allocator self.entry result) }
    {
        self.emit(Prefix::Fc, 0x06)
    }

    /// `i64.trunc_sat_f64_u`: `0xFC 0x07`.
    #[inline(always)]
    pub fn i64_trunc_sat_f64_u(self) -> Result<InstructionSink<'a, A>, EncodeError>
        ensures emits { Emits self.entry (after_fc 0x07) operands.None result }
        ensures* unchanged { sem 𝓛 (IsUnchangedAtErr A.row A.Allocator self.entry result) }
    {
        self.emit(Prefix::Fc, 0x07)
    }
}
