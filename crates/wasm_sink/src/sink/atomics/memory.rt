//! Wait, notify, fence, and atomic loads and stores (threads proposal).
ghost use Rattle.std.specs.Prelude.{◌<◌};
ghost use Rattle.std.specs.Borrow.{sem};
ghost use Rattle.wasm_sink.specs.Sink.{IsUnchangedAtErr, Emits, EmitsAligned};
ghost use Rattle.wasm_instructions.specs.formats.Opcodes.{after_fe};
ghost use Rattle.wasm_instructions.specs.declared.table.call.Operands.TheVariants as operands;

use crate::sink::InstructionSink;
use std::alloc::Allocator;
use wasm_codec::encode::EncodeError;
use wasm_instructions::operands::{MemArg, Ordering};
use wasm_instructions::table::Prefix;

#[tactic(auto, unfolding(wasm_instructions::specs::formats::Opcodes::ranges))]
impl<'a, A: Allocator> InstructionSink<'a, A> {
    /// `memory.atomic.notify`: `0xFE 0x00`, then a memory argument. `Alignment` where `memarg.align` is 64 or more.
    #[inline(always)]
    pub fn memory_atomic_notify(self, memarg: MemArg) -> Result<InstructionSink<'a, A>, EncodeError>
        ensures emits { EmitsAligned self.entry (after_fe 0x00) (operands.Mem memarg) memarg.align result }
        ensures* unchanged { sem 𝓛 (IsUnchangedAtErr A.row A.Allocator self.entry result) }
    {
        self.emit_mem(Prefix::Fe, 0x00, memarg)
    }

    /// `memory.atomic.wait32`: `0xFE 0x01`, then a memory argument. `Alignment` where `memarg.align` is 64 or more.
    #[inline(always)]
    pub fn memory_atomic_wait32(self, memarg: MemArg) -> Result<InstructionSink<'a, A>, EncodeError>
        ensures emits { EmitsAligned self.entry (after_fe 0x01) (operands.Mem memarg) memarg.align result }
        ensures* unchanged { sem 𝓛 (IsUnchangedAtErr A.row A.Allocator self.entry result) }
    {
        self.emit_mem(Prefix::Fe, 0x01, memarg)
    }

    /// `memory.atomic.wait64`: `0xFE 0x02`, then a memory argument. `Alignment` where `memarg.align` is 64 or more.
    #[inline(always)]
    pub fn memory_atomic_wait64(self, memarg: MemArg) -> Result<InstructionSink<'a, A>, EncodeError>
        ensures emits { EmitsAligned self.entry (after_fe 0x02) (operands.Mem memarg) memarg.align result }
        ensures* unchanged { sem 𝓛 (IsUnchangedAtErr A.row A.Allocator self.entry result) }
    {
        self.emit_mem(Prefix::Fe, 0x02, memarg)
    }

    /// `atomic.fence`: `0xFE 0x03`, then an ordering.
    #[inline(always)]
    pub fn atomic_fence(self, ordering: Ordering) -> Result<InstructionSink<'a, A>, EncodeError>
        ensures emits { Emits self.entry (after_fe 0x03) (operands.Order ordering) result }
        ensures* unchanged { sem 𝓛 (IsUnchangedAtErr A.row A.Allocator self.entry result) }
    {
        self.emit_order(0x03, ordering)
    }

    /// `pause`: `0xFE 0x04`.
    #[inline(always)]
    pub fn pause(self) -> Result<InstructionSink<'a, A>, EncodeError>
        ensures emits { Emits self.entry (after_fe 0x04) operands.None result }
        ensures* unchanged { sem 𝓛 (IsUnchangedAtErr A.row A.Allocator self.entry result) }
    {
        self.emit(Prefix::Fe, 0x04)
    }

    /// `i32.atomic.load`: `0xFE 0x10`, then a memory argument. `Alignment` where `memarg.align` is 64 or more.
    #[inline(always)]
    pub fn i32_atomic_load(self, memarg: MemArg) -> Result<InstructionSink<'a, A>, EncodeError>
        ensures emits { EmitsAligned self.entry (after_fe 0x10) (operands.Mem memarg) memarg.align result }
        ensures* unchanged { sem 𝓛 (IsUnchangedAtErr A.row A.Allocator self.entry result) }
    {
        self.emit_mem(Prefix::Fe, 0x10, memarg)
    }

    /// `i64.atomic.load`: `0xFE 0x11`, then a memory argument. `Alignment` where `memarg.align` is 64 or more.
    #[inline(always)]
    pub fn i64_atomic_load(self, memarg: MemArg) -> Result<InstructionSink<'a, A>, EncodeError>
        ensures emits { EmitsAligned self.entry (after_fe 0x11) (operands.Mem memarg) memarg.align result }
        ensures* unchanged { sem 𝓛 (IsUnchangedAtErr A.row A.Allocator self.entry result) }
    {
        self.emit_mem(Prefix::Fe, 0x11, memarg)
    }

    /// `i32.atomic.load8_u`: `0xFE 0x12`, then a memory argument. `Alignment` where `memarg.align` is 64 or more.
    #[inline(always)]
    pub fn i32_atomic_load8_u(self, memarg: MemArg) -> Result<InstructionSink<'a, A>, EncodeError>
        ensures emits { EmitsAligned self.entry (after_fe 0x12) (operands.Mem memarg) memarg.align result }
        ensures* unchanged { sem 𝓛 (IsUnchangedAtErr A.row A.Allocator self.entry result) }
    {
        self.emit_mem(Prefix::Fe, 0x12, memarg)
    }

    /// `i32.atomic.load16_u`: `0xFE 0x13`, then a memory argument. `Alignment` where `memarg.align` is 64 or more.
    #[inline(always)]
    pub fn i32_atomic_load16_u(self, memarg: MemArg) -> Result<InstructionSink<'a, A>, EncodeError>
        ensures emits { EmitsAligned self.entry (after_fe 0x13) (operands.Mem memarg) memarg.align result }
        ensures* unchanged { sem 𝓛 (IsUnchangedAtErr A.row A.Allocator self.entry result) }
    {
        self.emit_mem(Prefix::Fe, 0x13, memarg)
    }

    /// `i64.atomic.load8_u`: `0xFE 0x14`, then a memory argument. `Alignment` where `memarg.align` is 64 or more.
    #[inline(always)]
    pub fn i64_atomic_load8_u(self, memarg: MemArg) -> Result<InstructionSink<'a, A>, EncodeError>
        ensures emits { EmitsAligned self.entry (after_fe 0x14) (operands.Mem memarg) memarg.align result }
        ensures* unchanged { sem 𝓛 (IsUnchangedAtErr A.row A.Allocator self.entry result) }
    {
        self.emit_mem(Prefix::Fe, 0x14, memarg)
    }

    /// `i64.atomic.load16_u`: `0xFE 0x15`, then a memory argument. `Alignment` where `memarg.align` is 64 or more.
    #[inline(always)]
    pub fn i64_atomic_load16_u(self, memarg: MemArg) -> Result<InstructionSink<'a, A>, EncodeError>
        ensures emits { EmitsAligned self.entry (after_fe 0x15) (operands.Mem memarg) memarg.align result }
        ensures* unchanged { sem 𝓛 (IsUnchangedAtErr A.row A.Allocator self.entry result) }
    {
        self.emit_mem(Prefix::Fe, 0x15, memarg)
    }

    /// `i64.atomic.load32_u`: `0xFE 0x16`, then a memory argument. `Alignment` where `memarg.align` is 64 or more.
    #[inline(always)]
    pub fn i64_atomic_load32_u(self, memarg: MemArg) -> Result<InstructionSink<'a, A>, EncodeError>
        ensures emits { EmitsAligned self.entry (after_fe 0x16) (operands.Mem memarg) memarg.align result }
        ensures* unchanged { sem 𝓛 (IsUnchangedAtErr A.row A.Allocator self.entry result) }
    {
        self.emit_mem(Prefix::Fe, 0x16, memarg)
    }

    /// `i32.atomic.store`: `0xFE 0x17`, then a memory argument. `Alignment` where `memarg.align` is 64 or more.
    #[inline(always)]
    pub fn i32_atomic_store(self, memarg: MemArg) -> Result<InstructionSink<'a, A>, EncodeError>
        ensures emits { EmitsAligned self.entry (after_fe 0x17) (operands.Mem memarg) memarg.align result }
        ensures* unchanged { sem 𝓛 (IsUnchangedAtErr A.row A.Allocator self.entry result) }
    {
        self.emit_mem(Prefix::Fe, 0x17, memarg)
    }

    /// `i64.atomic.store`: `0xFE 0x18`, then a memory argument. `Alignment` where `memarg.align` is 64 or more.
    #[inline(always)]
    pub fn i64_atomic_store(self, memarg: MemArg) -> Result<InstructionSink<'a, A>, EncodeError>
        ensures emits { EmitsAligned self.entry (after_fe 0x18) (operands.Mem memarg) memarg.align result }
        ensures* unchanged { sem 𝓛 (IsUnchangedAtErr A.row A.Allocator self.entry result) }
    {
        self.emit_mem(Prefix::Fe, 0x18, memarg)
    }

    /// `i32.atomic.store8`: `0xFE 0x19`, then a memory argument. `Alignment` where `memarg.align` is 64 or more.
    #[inline(always)]
    pub fn i32_atomic_store8(self, memarg: MemArg) -> Result<InstructionSink<'a, A>, EncodeError>
        ensures emits { EmitsAligned self.entry (after_fe 0x19) (operands.Mem memarg) memarg.align result }
        ensures* unchanged { sem 𝓛 (IsUnchangedAtErr A.row A.Allocator self.entry result) }
    {
        self.emit_mem(Prefix::Fe, 0x19, memarg)
    }

    /// `i32.atomic.store16`: `0xFE 0x1A`, then a memory argument. `Alignment` where `memarg.align` is 64 or more.
    #[inline(always)]
    pub fn i32_atomic_store16(self, memarg: MemArg) -> Result<InstructionSink<'a, A>, EncodeError>
        ensures emits { EmitsAligned self.entry (after_fe 0x1a) (operands.Mem memarg) memarg.align result }
        ensures* unchanged { sem 𝓛 (IsUnchangedAtErr A.row A.Allocator self.entry result) }
    {
        self.emit_mem(Prefix::Fe, 0x1a, memarg)
    }

    /// `i64.atomic.store8`: `0xFE 0x1B`, then a memory argument. `Alignment` where `memarg.align` is 64 or more.
    #[inline(always)]
    pub fn i64_atomic_store8(self, memarg: MemArg) -> Result<InstructionSink<'a, A>, EncodeError>
        ensures emits { EmitsAligned self.entry (after_fe 0x1b) (operands.Mem memarg) memarg.align result }
        ensures* unchanged { sem 𝓛 (IsUnchangedAtErr A.row A.Allocator self.entry result) }
    {
        self.emit_mem(Prefix::Fe, 0x1b, memarg)
    }

    /// `i64.atomic.store16`: `0xFE 0x1C`, then a memory argument. `Alignment` where `memarg.align` is 64 or more.
    #[inline(always)]
    pub fn i64_atomic_store16(self, memarg: MemArg) -> Result<InstructionSink<'a, A>, EncodeError>
        ensures emits { EmitsAligned self.entry (after_fe 0x1c) (operands.Mem memarg) memarg.align result }
        ensures* unchanged { sem 𝓛 (IsUnchangedAtErr A.row A.Allocator self.entry result) }
    {
        self.emit_mem(Prefix::Fe, 0x1c, memarg)
    }

    /// `i64.atomic.store32`: `0xFE 0x1D`, then a memory argument. `Alignment` where `memarg.align` is 64 or more.
    #[inline(always)]
    pub fn i64_atomic_store32(self, memarg: MemArg) -> Result<InstructionSink<'a, A>, EncodeError>
        ensures emits { EmitsAligned self.entry (after_fe 0x1d) (operands.Mem memarg) memarg.align result }
        ensures* unchanged { sem 𝓛 (IsUnchangedAtErr A.row A.Allocator self.entry result) }
    {
        self.emit_mem(Prefix::Fe, 0x1d, memarg)
    }
}
