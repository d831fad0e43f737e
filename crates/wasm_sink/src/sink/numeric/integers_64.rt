//! Operations on 64-bit integers (Core 3.0, Numeric Instructions), and on 128-bit integers (wide arithmetic proposal).
ghost use Rattle.std.specs.Borrow.{sem};
ghost use Rattle.wasm_sink.specs.Sink.{IsUnchangedAtErr, Emits};
ghost use Rattle.wasm_instructions.specs.formats.Opcodes.{without_prefix, after_fc};
ghost use Rattle.wasm_instructions.specs.declared.table.call.Operands.TheVariants as operands;

use crate::sink::InstructionSink;
use std::alloc::Allocator;
use wasm_codec::encode::EncodeError;
use wasm_instructions::table::Prefix;

#[tactic(auto, unfolding(wasm_instructions::specs::formats::Opcodes::ranges))]
impl<'a, A: Allocator> InstructionSink<'a, A> {
    /// `i64.const`: `0x42`, then a signed number of 64 bits.
    #[inline(always)]
    pub fn i64_const(self, value: i64) -> Result<InstructionSink<'a, A>, EncodeError>
        ensures emits { Emits self.entry (without_prefix 0x42) (operands.I64 value) result }
        ensures* unchanged { sem 𝓛 (IsUnchangedAtErr A.row A.Allocator self.entry result) }
    {
        self.emit_i64(0x42, value)
    }

    /// `i64.eqz`: `0x50`.
    #[inline(always)]
    pub fn i64_eqz(self) -> Result<InstructionSink<'a, A>, EncodeError>
        ensures emits { Emits self.entry (without_prefix 0x50) operands.None result }
        ensures* unchanged { sem 𝓛 (IsUnchangedAtErr A.row A.Allocator self.entry result) }
    {
        self.emit(Prefix::None, 0x50)
    }

    /// `i64.eq`: `0x51`.
    #[inline(always)]
    pub fn i64_eq(self) -> Result<InstructionSink<'a, A>, EncodeError>
        ensures emits { Emits self.entry (without_prefix 0x51) operands.None result }
        ensures* unchanged { sem 𝓛 (IsUnchangedAtErr A.row A.Allocator self.entry result) }
    {
        self.emit(Prefix::None, 0x51)
    }

    /// `i64.ne`: `0x52`.
    #[inline(always)]
    pub fn i64_ne(self) -> Result<InstructionSink<'a, A>, EncodeError>
        ensures emits { Emits self.entry (without_prefix 0x52) operands.None result }
        ensures* unchanged { sem 𝓛 (IsUnchangedAtErr A.row A.Allocator self.entry result) }
    {
        self.emit(Prefix::None, 0x52)
    }

    /// `i64.lt_s`: `0x53`.
    #[inline(always)]
    pub fn i64_lt_s(self) -> Result<InstructionSink<'a, A>, EncodeError>
        ensures emits { Emits self.entry (without_prefix 0x53) operands.None result }
        ensures* unchanged { sem 𝓛 (IsUnchangedAtErr A.row A.Allocator self.entry result) }
    {
        self.emit(Prefix::None, 0x53)
    }

    /// `i64.lt_u`: `0x54`.
    #[inline(always)]
    pub fn i64_lt_u(self) -> Result<InstructionSink<'a, A>, EncodeError>
        ensures emits { Emits self.entry (without_prefix 0x54) operands.None result }
        ensures* unchanged { sem 𝓛 (IsUnchangedAtErr A.row A.Allocator self.entry result) }
    {
        self.emit(Prefix::None, 0x54)
    }

    /// `i64.gt_s`: `0x55`.
    #[inline(always)]
    pub fn i64_gt_s(self) -> Result<InstructionSink<'a, A>, EncodeError>
        ensures emits { Emits self.entry (without_prefix 0x55) operands.None result }
        ensures* unchanged { sem 𝓛 (IsUnchangedAtErr A.row A.Allocator self.entry result) }
    {
        self.emit(Prefix::None, 0x55)
    }

    /// `i64.gt_u`: `0x56`.
    #[inline(always)]
    pub fn i64_gt_u(self) -> Result<InstructionSink<'a, A>, EncodeError>
        ensures emits { Emits self.entry (without_prefix 0x56) operands.None result }
        ensures* unchanged { sem 𝓛 (IsUnchangedAtErr A.row A.Allocator self.entry result) }
    {
        self.emit(Prefix::None, 0x56)
    }

    /// `i64.le_s`: `0x57`.
    #[inline(always)]
    pub fn i64_le_s(self) -> Result<InstructionSink<'a, A>, EncodeError>
        ensures emits { Emits self.entry (without_prefix 0x57) operands.None result }
        ensures* unchanged { sem 𝓛 (IsUnchangedAtErr A.row A.Allocator self.entry result) }
    {
        self.emit(Prefix::None, 0x57)
    }

    /// `i64.le_u`: `0x58`.
    #[inline(always)]
    pub fn i64_le_u(self) -> Result<InstructionSink<'a, A>, EncodeError>
        ensures emits { Emits self.entry (without_prefix 0x58) operands.None result }
        ensures* unchanged { sem 𝓛 (IsUnchangedAtErr A.row A.Allocator self.entry result) }
    {
        self.emit(Prefix::None, 0x58)
    }

    /// `i64.ge_s`: `0x59`.
    #[inline(always)]
    pub fn i64_ge_s(self) -> Result<InstructionSink<'a, A>, EncodeError>
        ensures emits { Emits self.entry (without_prefix 0x59) operands.None result }
        ensures* unchanged { sem 𝓛 (IsUnchangedAtErr A.row A.Allocator self.entry result) }
    {
        self.emit(Prefix::None, 0x59)
    }

    /// `i64.ge_u`: `0x5A`.
    #[inline(always)]
    pub fn i64_ge_u(self) -> Result<InstructionSink<'a, A>, EncodeError>
        ensures emits { Emits self.entry (without_prefix 0x5a) operands.None result }
        ensures* unchanged { sem 𝓛 (IsUnchangedAtErr A.row A.Allocator self.entry result) }
    {
        self.emit(Prefix::None, 0x5a)
    }

    /// `i64.clz`: `0x79`.
    #[inline(always)]
    pub fn i64_clz(self) -> Result<InstructionSink<'a, A>, EncodeError>
        ensures emits { Emits self.entry (without_prefix 0x79) operands.None result }
        ensures* unchanged { sem 𝓛 (IsUnchangedAtErr A.row A.Allocator self.entry result) }
    {
        self.emit(Prefix::None, 0x79)
    }

    /// `i64.ctz`: `0x7A`.
    #[inline(always)]
    pub fn i64_ctz(self) -> Result<InstructionSink<'a, A>, EncodeError>
        ensures emits { Emits self.entry (without_prefix 0x7a) operands.None result }
        ensures* unchanged { sem 𝓛 (IsUnchangedAtErr A.row A.Allocator self.entry result) }
    {
        self.emit(Prefix::None, 0x7a)
    }

    /// `i64.popcnt`: `0x7B`.
    #[inline(always)]
    pub fn i64_popcnt(self) -> Result<InstructionSink<'a, A>, EncodeError>
        ensures emits { Emits self.entry (without_prefix 0x7b) operands.None result }
        ensures* unchanged { sem 𝓛 (IsUnchangedAtErr A.row A.Allocator self.entry result) }
    {
        self.emit(Prefix::None, 0x7b)
    }

    /// `i64.add`: `0x7C`.
    #[inline(always)]
    pub fn i64_add(self) -> Result<InstructionSink<'a, A>, EncodeError>
        ensures emits { Emits self.entry (without_prefix 0x7c) operands.None result }
        ensures* unchanged { sem 𝓛 (IsUnchangedAtErr A.row A.Allocator self.entry result) }
    {
        self.emit(Prefix::None, 0x7c)
    }

    /// `i64.sub`: `0x7D`.
    #[inline(always)]
    pub fn i64_sub(self) -> Result<InstructionSink<'a, A>, EncodeError>
        ensures emits { Emits self.entry (without_prefix 0x7d) operands.None result }
        ensures* unchanged { sem 𝓛 (IsUnchangedAtErr A.row A.Allocator self.entry result) }
    {
        self.emit(Prefix::None, 0x7d)
    }

    /// `i64.mul`: `0x7E`.
    #[inline(always)]
    pub fn i64_mul(self) -> Result<InstructionSink<'a, A>, EncodeError>
        ensures emits { Emits self.entry (without_prefix 0x7e) operands.None result }
        ensures* unchanged { sem 𝓛 (IsUnchangedAtErr A.row A.Allocator self.entry result) }
    {
        self.emit(Prefix::None, 0x7e)
    }

    /// `i64.div_s`: `0x7F`.
    #[inline(always)]
    pub fn i64_div_s(self) -> Result<InstructionSink<'a, A>, EncodeError>
        ensures emits { Emits self.entry (without_prefix 0x7f) operands.None result }
        ensures* unchanged { sem 𝓛 (IsUnchangedAtErr A.row A.Allocator self.entry result) }
    {
        self.emit(Prefix::None, 0x7f)
    }

    /// `i64.div_u`: `0x80`.
    #[inline(always)]
    pub fn i64_div_u(self) -> Result<InstructionSink<'a, A>, EncodeError>
        ensures emits { Emits self.entry (without_prefix 0x80) operands.None result }
        ensures* unchanged { sem 𝓛 (IsUnchangedAtErr A.row A.Allocator self.entry result) }
    {
        self.emit(Prefix::None, 0x80)
    }

    /// `i64.rem_s`: `0x81`.
    #[inline(always)]
    pub fn i64_rem_s(self) -> Result<InstructionSink<'a, A>, EncodeError>
        ensures emits { Emits self.entry (without_prefix 0x81) operands.None result }
        ensures* unchanged { sem 𝓛 (IsUnchangedAtErr A.row A.Allocator self.entry result) }
    {
        self.emit(Prefix::None, 0x81)
    }

    /// `i64.rem_u`: `0x82`.
    #[inline(always)]
    pub fn i64_rem_u(self) -> Result<InstructionSink<'a, A>, EncodeError>
        ensures emits { Emits self.entry (without_prefix 0x82) operands.None result }
        ensures* unchanged { sem 𝓛 (IsUnchangedAtErr A.row A.Allocator self.entry result) }
    {
        self.emit(Prefix::None, 0x82)
    }

    /// `i64.and`: `0x83`.
    #[inline(always)]
    pub fn i64_and(self) -> Result<InstructionSink<'a, A>, EncodeError>
        ensures emits { Emits self.entry (without_prefix 0x83) operands.None result }
        ensures* unchanged { sem 𝓛 (IsUnchangedAtErr A.row A.Allocator self.entry result) }
    {
        self.emit(Prefix::None, 0x83)
    }

    /// `i64.or`: `0x84`.
    #[inline(always)]
    pub fn i64_or(self) -> Result<InstructionSink<'a, A>, EncodeError>
        ensures emits { Emits self.entry (without_prefix 0x84) operands.None result }
        ensures* unchanged { sem 𝓛 (IsUnchangedAtErr A.row A.Allocator self.entry result) }
    {
        self.emit(Prefix::None, 0x84)
    }

    /// `i64.xor`: `0x85`.
    #[inline(always)]
    pub fn i64_xor(self) -> Result<InstructionSink<'a, A>, EncodeError>
        ensures emits { Emits self.entry (without_prefix 0x85) operands.None result }
        ensures* unchanged { sem 𝓛 (IsUnchangedAtErr A.row A.Allocator self.entry result) }
    {
        self.emit(Prefix::None, 0x85)
    }

    /// `i64.shl`: `0x86`.
    #[inline(always)]
    pub fn i64_shl(self) -> Result<InstructionSink<'a, A>, EncodeError>
        ensures emits { Emits self.entry (without_prefix 0x86) operands.None result }
        ensures* unchanged { sem 𝓛 (IsUnchangedAtErr A.row A.Allocator self.entry result) }
    {
        self.emit(Prefix::None, 0x86)
    }

    /// `i64.shr_s`: `0x87`.
    #[inline(always)]
    pub fn i64_shr_s(self) -> Result<InstructionSink<'a, A>, EncodeError>
        ensures emits { Emits self.entry (without_prefix 0x87) operands.None result }
        ensures* unchanged { sem 𝓛 (IsUnchangedAtErr A.row A.Allocator self.entry result) }
    {
        self.emit(Prefix::None, 0x87)
    }

    /// `i64.shr_u`: `0x88`.
    #[inline(always)]
    pub fn i64_shr_u(self) -> Result<InstructionSink<'a, A>, EncodeError>
        ensures emits { Emits self.entry (without_prefix 0x88) operands.None result }
        ensures* unchanged { sem 𝓛 (IsUnchangedAtErr A.row A.Allocator self.entry result) }
    {
        self.emit(Prefix::None, 0x88)
    }

    /// `i64.rotl`: `0x89`.
    #[inline(always)]
    pub fn i64_rotl(self) -> Result<InstructionSink<'a, A>, EncodeError>
        ensures emits { Emits self.entry (without_prefix 0x89) operands.None result }
        ensures* unchanged { sem 𝓛 (IsUnchangedAtErr A.row A.Allocator self.entry result) }
    {
        self.emit(Prefix::None, 0x89)
    }

    /// `i64.rotr`: `0x8A`.
    #[inline(always)]
    pub fn i64_rotr(self) -> Result<InstructionSink<'a, A>, EncodeError>
        ensures emits { Emits self.entry (without_prefix 0x8a) operands.None result }
        ensures* unchanged { sem 𝓛 (IsUnchangedAtErr A.row A.Allocator self.entry result) }
    {
        self.emit(Prefix::None, 0x8a)
    }

    /// `i64.extend8_s`: `0xC2`.
    #[inline(always)]
    pub fn i64_extend8_s(self) -> Result<InstructionSink<'a, A>, EncodeError>
        ensures emits { Emits self.entry (without_prefix 0xc2) operands.None result }
        ensures* unchanged { sem 𝓛 (IsUnchangedAtErr A.row A.Allocator self.entry result) }
    {
        self.emit(Prefix::None, 0xc2)
    }

    /// `i64.extend16_s`: `0xC3`.
    #[inline(always)]
    pub fn i64_extend16_s(self) -> Result<InstructionSink<'a, A>, EncodeError>
        ensures emits { Emits self.entry (without_prefix 0xc3) operands.None result }
        ensures* unchanged { sem 𝓛 (IsUnchangedAtErr A.row A.Allocator self.entry result) }
    {
        self.emit(Prefix::None, 0xc3)
    }

    /// `i64.extend32_s`: `0xC4`.
    #[inline(always)]
    pub fn i64_extend32_s(self) -> Result<InstructionSink<'a, A>, EncodeError>
        ensures emits { Emits self.entry (without_prefix 0xc4) operands.None result }
        ensures* unchanged { sem 𝓛 (IsUnchangedAtErr A.row A.Allocator self.entry result) }
    {
        self.emit(Prefix::None, 0xc4)
    }

    /// `i64.add128`: `0xFC 0x13`.
    #[inline(always)]
    pub fn i64_add128(self) -> Result<InstructionSink<'a, A>, EncodeError>
        ensures emits { Emits self.entry (after_fc 0x13) operands.None result }
        ensures* unchanged { sem 𝓛 (IsUnchangedAtErr A.row A.Allocator self.entry result) }
    {
        self.emit(Prefix::Fc, 0x13)
    }

    /// `i64.sub128`: `0xFC 0x14`.
    #[inline(always)]
    pub fn i64_sub128(self) -> Result<InstructionSink<'a, A>, EncodeError>
        ensures emits { Emits self.entry (after_fc 0x14) operands.None result }
        ensures* unchanged { sem 𝓛 (IsUnchangedAtErr A.row A.Allocator self.entry result) }
    {
        self.emit(Prefix::Fc, 0x14)
    }

    /// `i64.mul_wide_s`: `0xFC 0x15`.
    #[inline(always)]
    pub fn i64_mul_wide_s(self) -> Result<InstructionSink<'a, A>, EncodeError>
        ensures emits { Emits self.entry (after_fc 0x15) operands.None result }
        ensures* unchanged { sem 𝓛 (IsUnchangedAtErr A.row A.Allocator self.entry result) }
    {
        self.emit(Prefix::Fc, 0x15)
    }

    /// `i64.mul_wide_u`: `0xFC 0x16`.
    #[inline(always)]
    pub fn i64_mul_wide_u(self) -> Result<InstructionSink<'a, A>, EncodeError>
        ensures emits { Emits self.entry (after_fc 0x16) operands.None result }
        ensures* unchanged { sem 𝓛 (IsUnchangedAtErr A.row A.Allocator self.entry result) }
    {
        self.emit(Prefix::Fc, 0x16)
    }
}
