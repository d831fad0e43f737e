//! Bitwise operations on vectors (Core 3.0, Vector Instructions).
ghost use Rattle.std.specs.Borrow.{sem};
ghost use Rattle.wasm_sink.specs.Sink.{IsUnchangedAtErr, Emits};
ghost use Rattle.wasm_instructions.specs.formats.Opcodes.{after_fd};
ghost use Rattle.wasm_instructions.specs.declared.table.call.Operands.TheVariants as operands;

use crate::sink::InstructionSink;
use std::alloc::Allocator;
use wasm_codec::encode::EncodeError;
use wasm_instructions::table::Prefix;

#[tactic(auto, unfolding(wasm_instructions::specs::formats::Opcodes::ranges))]
impl<'a, A: Allocator> InstructionSink<'a, A> {
    /// `v128.not`: `0xFD 0x4D`.
    #[inline(always)]
    pub fn v128_not(self) -> Result<InstructionSink<'a, A>, EncodeError>
        ensures emits { Emits self.entry (after_fd 0x4d) operands.None result }
        ensures* unchanged { sem 𝓛 (IsUnchangedAtErr A.row A.Allocator self.entry result) }
    {
        self.emit(Prefix::Fd, 0x4d)
    }

    /// `v128.and`: `0xFD 0x4E`.
    #[inline(always)]
    pub fn v128_and(self) -> Result<InstructionSink<'a, A>, EncodeError>
        ensures emits { Emits self.entry (after_fd 0x4e) operands.None result }
        ensures* unchanged { sem 𝓛 (IsUnchangedAtErr A.row A.Allocator self.entry result) }
    {
        self.emit(Prefix::Fd, 0x4e)
    }

    /// `v128.andnot`: `0xFD 0x4F`.
    #[inline(always)]
    pub fn v128_andnot(self) -> Result<InstructionSink<'a, A>, EncodeError>
        ensures emits { Emits self.entry (after_fd 0x4f) operands.None result }
        ensures* unchanged { sem 𝓛 (IsUnchangedAtErr A.row A.Allocator self.entry result) }
    {
        self.emit(Prefix::Fd, 0x4f)
    }

    /// `v128.or`: `0xFD 0x50`.
    #[inline(always)]
    pub fn v128_or(self) -> Result<InstructionSink<'a, A>, EncodeError>
        ensures emits { Emits self.entry (after_fd 0x50) operands.None result }
        ensures* unchanged { sem 𝓛 (IsUnchangedAtErr A.row A.Allocator self.entry result) }
    {
        self.emit(Prefix::Fd, 0x50)
    }

    /// `v128.xor`: `0xFD 0x51`.
    #[inline(always)]
    pub fn v128_xor(self) -> Result<InstructionSink<'a, A>, EncodeError>
        ensures emits { Emits self.entry (after_fd 0x51) operands.None result }
        ensures* unchanged { sem 𝓛 (IsUnchangedAtErr A.row A.Allocator self.entry result) }
    {
        self.emit(Prefix::Fd, 0x51)
    }

    /// `v128.bitselect`: `0xFD 0x52`.
    #[inline(always)]
    pub fn v128_bitselect(self) -> Result<InstructionSink<'a, A>, EncodeError>
        ensures emits { Emits self.entry (after_fd 0x52) operands.None result }
        ensures* unchanged { sem 𝓛 (IsUnchangedAtErr A.row A.Allocator self.entry result) }
    {
        self.emit(Prefix::Fd, 0x52)
    }

    /// `v128.any_true`: `0xFD 0x53`.
    #[inline(always)]
    pub fn v128_any_true(self) -> Result<InstructionSink<'a, A>, EncodeError>
        ensures emits { Emits self.entry (after_fd 0x53) operands.None result }
        ensures* unchanged { sem 𝓛 (IsUnchangedAtErr A.row A.Allocator self.entry result) }
    {
        self.emit(Prefix::Fd, 0x53)
    }
}
