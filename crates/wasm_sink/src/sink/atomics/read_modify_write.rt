//! Atomic read-modify-write instructions (threads proposal).
ghost use Rattle.std.specs.Prelude.{◌<◌};
ghost use Rattle.std.specs.Borrow.{sem};
ghost use Rattle.wasm_sink.specs.Sink.{IsUnchangedAtErr, EmitsAligned};
ghost use Rattle.wasm_instructions.specs.formats.Opcodes.{after_fe};
ghost use Rattle.wasm_instructions.specs.declared.table.call.Operands.TheVariants as operands;

use crate::sink::InstructionSink;
use std::alloc::Allocator;
use wasm_codec::encode::EncodeError;
use wasm_instructions::operands::MemArg;
use wasm_instructions::table::Prefix;

#[tactic(auto, unfolding(wasm_instructions::specs::formats::Opcodes::ranges))]
impl<'a, A: Allocator> InstructionSink<'a, A> {
    /// `i32.atomic.rmw.add`: `0xFE 0x1E`, then a memory argument. `Alignment` where `memarg.align` is 64 or more.
    #[inline(always)]
    pub fn i32_atomic_rmw_add(self, memarg: MemArg) -> Result<InstructionSink<'a, A>, EncodeError>
        ensures emits { EmitsAligned self.entry (after_fe 0x1e) (operands.Mem memarg) memarg.align result }
        ensures* unchanged { sem 𝓛 (IsUnchangedAtErr A.row A.Allocator self.entry result) }
    {
        self.emit_mem(Prefix::Fe, 0x1e, memarg)
    }

    /// `i64.atomic.rmw.add`: `0xFE 0x1F`, then a memory argument. `Alignment` where `memarg.align` is 64 or more.
    #[inline(always)]
    pub fn i64_atomic_rmw_add(self, memarg: MemArg) -> Result<InstructionSink<'a, A>, EncodeError>
        ensures emits { EmitsAligned self.entry (after_fe 0x1f) (operands.Mem memarg) memarg.align result }
        ensures* unchanged { sem 𝓛 (IsUnchangedAtErr A.row A.Allocator self.entry result) }
    {
        self.emit_mem(Prefix::Fe, 0x1f, memarg)
    }

    /// `i32.atomic.rmw8.add_u`: `0xFE 0x20`, then a memory argument. `Alignment` where `memarg.align` is 64 or more.
    #[inline(always)]
    pub fn i32_atomic_rmw8_add_u(
        self,
        memarg: MemArg,
    ) -> Result<InstructionSink<'a, A>, EncodeError>
        ensures emits { EmitsAligned self.entry (after_fe 0x20) (operands.Mem memarg) memarg.align result }
        ensures* unchanged { sem 𝓛 (IsUnchangedAtErr A.row A.Allocator self.entry result) }
    {
        self.emit_mem(Prefix::Fe, 0x20, memarg)
    }

    /// `i32.atomic.rmw16.add_u`: `0xFE 0x21`, then a memory argument. `Alignment` where `memarg.align` is 64 or more.
    #[inline(always)]
    pub fn i32_atomic_rmw16_add_u(
        self,
        memarg: MemArg,
    ) -> Result<InstructionSink<'a, A>, EncodeError>
        ensures emits { EmitsAligned self.entry (after_fe 0x21) (operands.Mem memarg) memarg.align result }
        ensures* unchanged { sem 𝓛 (IsUnchangedAtErr A.row A.Allocator self.entry result) }
    {
        self.emit_mem(Prefix::Fe, 0x21, memarg)
    }

    /// `i64.atomic.rmw8.add_u`: `0xFE 0x22`, then a memory argument. `Alignment` where `memarg.align` is 64 or more.
    #[inline(always)]
    pub fn i64_atomic_rmw8_add_u(
        self,
        memarg: MemArg,
    ) -> Result<InstructionSink<'a, A>, EncodeError>
        ensures emits { EmitsAligned self.entry (after_fe 0x22) (operands.Mem memarg) memarg.align result }
        ensures* unchanged { sem 𝓛 (IsUnchangedAtErr A.row A.Allocator self.entry result) }
    {
        self.emit_mem(Prefix::Fe, 0x22, memarg)
    }

    /// `i64.atomic.rmw16.add_u`: `0xFE 0x23`, then a memory argument. `Alignment` where `memarg.align` is 64 or more.
    #[inline(always)]
    pub fn i64_atomic_rmw16_add_u(
        self,
        memarg: MemArg,
    ) -> Result<InstructionSink<'a, A>, EncodeError>
        ensures emits { EmitsAligned self.entry (after_fe 0x23) (operands.Mem memarg) memarg.align result }
        ensures* unchanged { sem 𝓛 (IsUnchangedAtErr A.row A.Allocator self.entry result) }
    {
        self.emit_mem(Prefix::Fe, 0x23, memarg)
    }

    /// `i64.atomic.rmw32.add_u`: `0xFE 0x24`, then a memory argument. `Alignment` where `memarg.align` is 64 or more.
    #[inline(always)]
    pub fn i64_atomic_rmw32_add_u(
        self,
        memarg: MemArg,
    ) -> Result<InstructionSink<'a, A>, EncodeError>
        ensures emits { EmitsAligned self.entry (after_fe 0x24) (operands.Mem memarg) memarg.align result }
        ensures* unchanged { sem 𝓛 (IsUnchangedAtErr A.row A.Allocator self.entry result) }
    {
        self.emit_mem(Prefix::Fe, 0x24, memarg)
    }

    /// `i32.atomic.rmw.sub`: `0xFE 0x25`, then a memory argument. `Alignment` where `memarg.align` is 64 or more.
    #[inline(always)]
    pub fn i32_atomic_rmw_sub(self, memarg: MemArg) -> Result<InstructionSink<'a, A>, EncodeError>
        ensures emits { EmitsAligned self.entry (after_fe 0x25) (operands.Mem memarg) memarg.align result }
        ensures* unchanged { sem 𝓛 (IsUnchangedAtErr A.row A.Allocator self.entry result) }
    {
        self.emit_mem(Prefix::Fe, 0x25, memarg)
    }

    /// `i64.atomic.rmw.sub`: `0xFE 0x26`, then a memory argument. `Alignment` where `memarg.align` is 64 or more.
    #[inline(always)]
    pub fn i64_atomic_rmw_sub(self, memarg: MemArg) -> Result<InstructionSink<'a, A>, EncodeError>
        ensures emits { EmitsAligned self.entry (after_fe 0x26) (operands.Mem memarg) memarg.align result }
        ensures* unchanged { sem 𝓛 (IsUnchangedAtErr A.row A.Allocator self.entry result) }
    {
        self.emit_mem(Prefix::Fe, 0x26, memarg)
    }

    /// `i32.atomic.rmw8.sub_u`: `0xFE 0x27`, then a memory argument. `Alignment` where `memarg.align` is 64 or more.
    #[inline(always)]
    pub fn i32_atomic_rmw8_sub_u(
        self,
        memarg: MemArg,
    ) -> Result<InstructionSink<'a, A>, EncodeError>
        ensures emits { EmitsAligned self.entry (after_fe 0x27) (operands.Mem memarg) memarg.align result }
        ensures* unchanged { sem 𝓛 (IsUnchangedAtErr A.row A.Allocator self.entry result) }
    {
        self.emit_mem(Prefix::Fe, 0x27, memarg)
    }

    /// `i32.atomic.rmw16.sub_u`: `0xFE 0x28`, then a memory argument. `Alignment` where `memarg.align` is 64 or more.
    #[inline(always)]
    pub fn i32_atomic_rmw16_sub_u(
        self,
        memarg: MemArg,
    ) -> Result<InstructionSink<'a, A>, EncodeError>
        ensures emits { EmitsAligned self.entry (after_fe 0x28) (operands.Mem memarg) memarg.align result }
        ensures* unchanged { sem 𝓛 (IsUnchangedAtErr A.row A.Allocator self.entry result) }
    {
        self.emit_mem(Prefix::Fe, 0x28, memarg)
    }

    /// `i64.atomic.rmw8.sub_u`: `0xFE 0x29`, then a memory argument. `Alignment` where `memarg.align` is 64 or more.
    #[inline(always)]
    pub fn i64_atomic_rmw8_sub_u(
        self,
        memarg: MemArg,
    ) -> Result<InstructionSink<'a, A>, EncodeError>
        ensures emits { EmitsAligned self.entry (after_fe 0x29) (operands.Mem memarg) memarg.align result }
        ensures* unchanged { sem 𝓛 (IsUnchangedAtErr A.row A.Allocator self.entry result) }
    {
        self.emit_mem(Prefix::Fe, 0x29, memarg)
    }

    /// `i64.atomic.rmw16.sub_u`: `0xFE 0x2A`, then a memory argument. `Alignment` where `memarg.align` is 64 or more.
    #[inline(always)]
    pub fn i64_atomic_rmw16_sub_u(
        self,
        memarg: MemArg,
    ) -> Result<InstructionSink<'a, A>, EncodeError>
        ensures emits { EmitsAligned self.entry (after_fe 0x2a) (operands.Mem memarg) memarg.align result }
        ensures* unchanged { sem 𝓛 (IsUnchangedAtErr A.row A.Allocator self.entry result) }
    {
        self.emit_mem(Prefix::Fe, 0x2a, memarg)
    }

    /// `i64.atomic.rmw32.sub_u`: `0xFE 0x2B`, then a memory argument. `Alignment` where `memarg.align` is 64 or more.
    #[inline(always)]
    pub fn i64_atomic_rmw32_sub_u(
        self,
        memarg: MemArg,
    ) -> Result<InstructionSink<'a, A>, EncodeError>
        ensures emits { EmitsAligned self.entry (after_fe 0x2b) (operands.Mem memarg) memarg.align result }
        ensures* unchanged { sem 𝓛 (IsUnchangedAtErr A.row A.Allocator self.entry result) }
    {
        self.emit_mem(Prefix::Fe, 0x2b, memarg)
    }

    /// `i32.atomic.rmw.and`: `0xFE 0x2C`, then a memory argument. `Alignment` where `memarg.align` is 64 or more.
    #[inline(always)]
    pub fn i32_atomic_rmw_and(self, memarg: MemArg) -> Result<InstructionSink<'a, A>, EncodeError>
        ensures emits { EmitsAligned self.entry (after_fe 0x2c) (operands.Mem memarg) memarg.align result }
        ensures* unchanged { sem 𝓛 (IsUnchangedAtErr A.row A.Allocator self.entry result) }
    {
        self.emit_mem(Prefix::Fe, 0x2c, memarg)
    }

    /// `i64.atomic.rmw.and`: `0xFE 0x2D`, then a memory argument. `Alignment` where `memarg.align` is 64 or more.
    #[inline(always)]
    pub fn i64_atomic_rmw_and(self, memarg: MemArg) -> Result<InstructionSink<'a, A>, EncodeError>
        ensures emits { EmitsAligned self.entry (after_fe 0x2d) (operands.Mem memarg) memarg.align result }
        ensures* unchanged { sem 𝓛 (IsUnchangedAtErr A.row A.Allocator self.entry result) }
    {
        self.emit_mem(Prefix::Fe, 0x2d, memarg)
    }

    /// `i32.atomic.rmw8.and_u`: `0xFE 0x2E`, then a memory argument. `Alignment` where `memarg.align` is 64 or more.
    #[inline(always)]
    pub fn i32_atomic_rmw8_and_u(
        self,
        memarg: MemArg,
    ) -> Result<InstructionSink<'a, A>, EncodeError>
        ensures emits { EmitsAligned self.entry (after_fe 0x2e) (operands.Mem memarg) memarg.align result }
        ensures* unchanged { sem 𝓛 (IsUnchangedAtErr A.row A.Allocator self.entry result) }
    {
        self.emit_mem(Prefix::Fe, 0x2e, memarg)
    }

    /// `i32.atomic.rmw16.and_u`: `0xFE 0x2F`, then a memory argument. `Alignment` where `memarg.align` is 64 or more.
    #[inline(always)]
    pub fn i32_atomic_rmw16_and_u(
        self,
        memarg: MemArg,
    ) -> Result<InstructionSink<'a, A>, EncodeError>
        ensures emits { EmitsAligned self.entry (after_fe 0x2f) (operands.Mem memarg) memarg.align result }
        ensures* unchanged { sem 𝓛 (IsUnchangedAtErr A.row A.Allocator self.entry result) }
    {
        self.emit_mem(Prefix::Fe, 0x2f, memarg)
    }

    /// `i64.atomic.rmw8.and_u`: `0xFE 0x30`, then a memory argument. `Alignment` where `memarg.align` is 64 or more.
    #[inline(always)]
    pub fn i64_atomic_rmw8_and_u(
        self,
        memarg: MemArg,
    ) -> Result<InstructionSink<'a, A>, EncodeError>
        ensures emits { EmitsAligned self.entry (after_fe 0x30) (operands.Mem memarg) memarg.align result }
        ensures* unchanged { sem 𝓛 (IsUnchangedAtErr A.row A.Allocator self.entry result) }
    {
        self.emit_mem(Prefix::Fe, 0x30, memarg)
    }

    /// `i64.atomic.rmw16.and_u`: `0xFE 0x31`, then a memory argument. `Alignment` where `memarg.align` is 64 or more.
    #[inline(always)]
    pub fn i64_atomic_rmw16_and_u(
        self,
        memarg: MemArg,
    ) -> Result<InstructionSink<'a, A>, EncodeError>
        ensures emits { EmitsAligned self.entry (after_fe 0x31) (operands.Mem memarg) memarg.align result }
        ensures* unchanged { sem 𝓛 (IsUnchangedAtErr A.row A.Allocator self.entry result) }
    {
        self.emit_mem(Prefix::Fe, 0x31, memarg)
    }

    /// `i64.atomic.rmw32.and_u`: `0xFE 0x32`, then a memory argument. `Alignment` where `memarg.align` is 64 or more.
    #[inline(always)]
    pub fn i64_atomic_rmw32_and_u(
        self,
        memarg: MemArg,
    ) -> Result<InstructionSink<'a, A>, EncodeError>
        ensures emits { EmitsAligned self.entry (after_fe 0x32) (operands.Mem memarg) memarg.align result }
        ensures* unchanged { sem 𝓛 (IsUnchangedAtErr A.row A.Allocator self.entry result) }
    {
        self.emit_mem(Prefix::Fe, 0x32, memarg)
    }

    /// `i32.atomic.rmw.or`: `0xFE 0x33`, then a memory argument. `Alignment` where `memarg.align` is 64 or more.
    #[inline(always)]
    pub fn i32_atomic_rmw_or(self, memarg: MemArg) -> Result<InstructionSink<'a, A>, EncodeError>
        ensures emits { EmitsAligned self.entry (after_fe 0x33) (operands.Mem memarg) memarg.align result }
        ensures* unchanged { sem 𝓛 (IsUnchangedAtErr A.row A.Allocator self.entry result) }
    {
        self.emit_mem(Prefix::Fe, 0x33, memarg)
    }

    /// `i64.atomic.rmw.or`: `0xFE 0x34`, then a memory argument. `Alignment` where `memarg.align` is 64 or more.
    #[inline(always)]
    pub fn i64_atomic_rmw_or(self, memarg: MemArg) -> Result<InstructionSink<'a, A>, EncodeError>
        ensures emits { EmitsAligned self.entry (after_fe 0x34) (operands.Mem memarg) memarg.align result }
        ensures* unchanged { sem 𝓛 (IsUnchangedAtErr A.row A.Allocator self.entry result) }
    {
        self.emit_mem(Prefix::Fe, 0x34, memarg)
    }

    /// `i32.atomic.rmw8.or_u`: `0xFE 0x35`, then a memory argument. `Alignment` where `memarg.align` is 64 or more.
    #[inline(always)]
    pub fn i32_atomic_rmw8_or_u(self, memarg: MemArg) -> Result<InstructionSink<'a, A>, EncodeError>
        ensures emits { EmitsAligned self.entry (after_fe 0x35) (operands.Mem memarg) memarg.align result }
        ensures* unchanged { sem 𝓛 (IsUnchangedAtErr A.row A.Allocator self.entry result) }
    {
        self.emit_mem(Prefix::Fe, 0x35, memarg)
    }

    /// `i32.atomic.rmw16.or_u`: `0xFE 0x36`, then a memory argument. `Alignment` where `memarg.align` is 64 or more.
    #[inline(always)]
    pub fn i32_atomic_rmw16_or_u(
        self,
        memarg: MemArg,
    ) -> Result<InstructionSink<'a, A>, EncodeError>
        ensures emits { EmitsAligned self.entry (after_fe 0x36) (operands.Mem memarg) memarg.align result }
        ensures* unchanged { sem 𝓛 (IsUnchangedAtErr A.row A.Allocator self.entry result) }
    {
        self.emit_mem(Prefix::Fe, 0x36, memarg)
    }

    /// `i64.atomic.rmw8.or_u`: `0xFE 0x37`, then a memory argument. `Alignment` where `memarg.align` is 64 or more.
    #[inline(always)]
    pub fn i64_atomic_rmw8_or_u(self, memarg: MemArg) -> Result<InstructionSink<'a, A>, EncodeError>
        ensures emits { EmitsAligned self.entry (after_fe 0x37) (operands.Mem memarg) memarg.align result }
        ensures* unchanged { sem 𝓛 (IsUnchangedAtErr A.row A.Allocator self.entry result) }
    {
        self.emit_mem(Prefix::Fe, 0x37, memarg)
    }

    /// `i64.atomic.rmw16.or_u`: `0xFE 0x38`, then a memory argument. `Alignment` where `memarg.align` is 64 or more.
    #[inline(always)]
    pub fn i64_atomic_rmw16_or_u(
        self,
        memarg: MemArg,
    ) -> Result<InstructionSink<'a, A>, EncodeError>
        ensures emits { EmitsAligned self.entry (after_fe 0x38) (operands.Mem memarg) memarg.align result }
        ensures* unchanged { sem 𝓛 (IsUnchangedAtErr A.row A.Allocator self.entry result) }
    {
        self.emit_mem(Prefix::Fe, 0x38, memarg)
    }

    /// `i64.atomic.rmw32.or_u`: `0xFE 0x39`, then a memory argument. `Alignment` where `memarg.align` is 64 or more.
    #[inline(always)]
    pub fn i64_atomic_rmw32_or_u(
        self,
        memarg: MemArg,
    ) -> Result<InstructionSink<'a, A>, EncodeError>
        ensures emits { EmitsAligned self.entry (after_fe 0x39) (operands.Mem memarg) memarg.align result }
        ensures* unchanged { sem 𝓛 (IsUnchangedAtErr A.row A.Allocator self.entry result) }
    {
        self.emit_mem(Prefix::Fe, 0x39, memarg)
    }

    /// `i32.atomic.rmw.xor`: `0xFE 0x3A`, then a memory argument. `Alignment` where `memarg.align` is 64 or more.
    #[inline(always)]
    pub fn i32_atomic_rmw_xor(self, memarg: MemArg) -> Result<InstructionSink<'a, A>, EncodeError>
        ensures emits { EmitsAligned self.entry (after_fe 0x3a) (operands.Mem memarg) memarg.align result }
        ensures* unchanged { sem 𝓛 (IsUnchangedAtErr A.row A.Allocator self.entry result) }
    {
        self.emit_mem(Prefix::Fe, 0x3a, memarg)
    }

    /// `i64.atomic.rmw.xor`: `0xFE 0x3B`, then a memory argument. `Alignment` where `memarg.align` is 64 or more.
    #[inline(always)]
    pub fn i64_atomic_rmw_xor(self, memarg: MemArg) -> Result<InstructionSink<'a, A>, EncodeError>
        ensures emits { EmitsAligned self.entry (after_fe 0x3b) (operands.Mem memarg) memarg.align result }
        ensures* unchanged { sem 𝓛 (IsUnchangedAtErr A.row A.Allocator self.entry result) }
    {
        self.emit_mem(Prefix::Fe, 0x3b, memarg)
    }

    /// `i32.atomic.rmw8.xor_u`: `0xFE 0x3C`, then a memory argument. `Alignment` where `memarg.align` is 64 or more.
    #[inline(always)]
    pub fn i32_atomic_rmw8_xor_u(
        self,
        memarg: MemArg,
    ) -> Result<InstructionSink<'a, A>, EncodeError>
        ensures emits { EmitsAligned self.entry (after_fe 0x3c) (operands.Mem memarg) memarg.align result }
        ensures* unchanged { sem 𝓛 (IsUnchangedAtErr A.row A.Allocator self.entry result) }
    {
        self.emit_mem(Prefix::Fe, 0x3c, memarg)
    }

    /// `i32.atomic.rmw16.xor_u`: `0xFE 0x3D`, then a memory argument. `Alignment` where `memarg.align` is 64 or more.
    #[inline(always)]
    pub fn i32_atomic_rmw16_xor_u(
        self,
        memarg: MemArg,
    ) -> Result<InstructionSink<'a, A>, EncodeError>
        ensures emits { EmitsAligned self.entry (after_fe 0x3d) (operands.Mem memarg) memarg.align result }
        ensures* unchanged { sem 𝓛 (IsUnchangedAtErr A.row A.Allocator self.entry result) }
    {
        self.emit_mem(Prefix::Fe, 0x3d, memarg)
    }

    /// `i64.atomic.rmw8.xor_u`: `0xFE 0x3E`, then a memory argument. `Alignment` where `memarg.align` is 64 or more.
    #[inline(always)]
    pub fn i64_atomic_rmw8_xor_u(
        self,
        memarg: MemArg,
    ) -> Result<InstructionSink<'a, A>, EncodeError>
        ensures emits { EmitsAligned self.entry (after_fe 0x3e) (operands.Mem memarg) memarg.align result }
        ensures* unchanged { sem 𝓛 (IsUnchangedAtErr A.row A.Allocator self.entry result) }
    {
        self.emit_mem(Prefix::Fe, 0x3e, memarg)
    }

    /// `i64.atomic.rmw16.xor_u`: `0xFE 0x3F`, then a memory argument. `Alignment` where `memarg.align` is 64 or more.
    #[inline(always)]
    pub fn i64_atomic_rmw16_xor_u(
        self,
        memarg: MemArg,
    ) -> Result<InstructionSink<'a, A>, EncodeError>
        ensures emits { EmitsAligned self.entry (after_fe 0x3f) (operands.Mem memarg) memarg.align result }
        ensures* unchanged { sem 𝓛 (IsUnchangedAtErr A.row A.Allocator self.entry result) }
    {
        self.emit_mem(Prefix::Fe, 0x3f, memarg)
    }

    /// `i64.atomic.rmw32.xor_u`: `0xFE 0x40`, then a memory argument. `Alignment` where `memarg.align` is 64 or more.
    #[inline(always)]
    pub fn i64_atomic_rmw32_xor_u(
        self,
        memarg: MemArg,
    ) -> Result<InstructionSink<'a, A>, EncodeError>
        ensures emits { EmitsAligned self.entry (after_fe 0x40) (operands.Mem memarg) memarg.align result }
        ensures* unchanged { sem 𝓛 (IsUnchangedAtErr A.row A.Allocator self.entry result) }
    {
        self.emit_mem(Prefix::Fe, 0x40, memarg)
    }

    /// `i32.atomic.rmw.xchg`: `0xFE 0x41`, then a memory argument. `Alignment` where `memarg.align` is 64 or more.
    #[inline(always)]
    pub fn i32_atomic_rmw_xchg(self, memarg: MemArg) -> Result<InstructionSink<'a, A>, EncodeError>
        ensures emits { EmitsAligned self.entry (after_fe 0x41) (operands.Mem memarg) memarg.align result }
        ensures* unchanged { sem 𝓛 (IsUnchangedAtErr A.row A.Allocator self.entry result) }
    {
        self.emit_mem(Prefix::Fe, 0x41, memarg)
    }

    /// `i64.atomic.rmw.xchg`: `0xFE 0x42`, then a memory argument. `Alignment` where `memarg.align` is 64 or more.
    #[inline(always)]
    pub fn i64_atomic_rmw_xchg(self, memarg: MemArg) -> Result<InstructionSink<'a, A>, EncodeError>
        ensures emits { EmitsAligned self.entry (after_fe 0x42) (operands.Mem memarg) memarg.align result }
        ensures* unchanged { sem 𝓛 (IsUnchangedAtErr A.row A.Allocator self.entry result) }
    {
        self.emit_mem(Prefix::Fe, 0x42, memarg)
    }

    /// `i32.atomic.rmw8.xchg_u`: `0xFE 0x43`, then a memory argument. `Alignment` where `memarg.align` is 64 or more.
    #[inline(always)]
    pub fn i32_atomic_rmw8_xchg_u(
        self,
        memarg: MemArg,
    ) -> Result<InstructionSink<'a, A>, EncodeError>
        ensures emits { EmitsAligned self.entry (after_fe 0x43) (operands.Mem memarg) memarg.align result }
        ensures* unchanged { sem 𝓛 (IsUnchangedAtErr A.row A.Allocator self.entry result) }
    {
        self.emit_mem(Prefix::Fe, 0x43, memarg)
    }

    /// `i32.atomic.rmw16.xchg_u`: `0xFE 0x44`, then a memory argument. `Alignment` where `memarg.align` is 64 or more.
    #[inline(always)]
    pub fn i32_atomic_rmw16_xchg_u(
        self,
        memarg: MemArg,
    ) -> Result<InstructionSink<'a, A>, EncodeError>
        ensures emits { EmitsAligned self.entry (after_fe 0x44) (operands.Mem memarg) memarg.align result }
        ensures* unchanged { sem 𝓛 (IsUnchangedAtErr A.row A.Allocator self.entry result) }
    {
        self.emit_mem(Prefix::Fe, 0x44, memarg)
    }

    /// `i64.atomic.rmw8.xchg_u`: `0xFE 0x45`, then a memory argument. `Alignment` where `memarg.align` is 64 or more.
    #[inline(always)]
    pub fn i64_atomic_rmw8_xchg_u(
        self,
        memarg: MemArg,
    ) -> Result<InstructionSink<'a, A>, EncodeError>
        ensures emits { EmitsAligned self.entry (after_fe 0x45) (operands.Mem memarg) memarg.align result }
        ensures* unchanged { sem 𝓛 (IsUnchangedAtErr A.row A.Allocator self.entry result) }
    {
        self.emit_mem(Prefix::Fe, 0x45, memarg)
    }

    /// `i64.atomic.rmw16.xchg_u`: `0xFE 0x46`, then a memory argument. `Alignment` where `memarg.align` is 64 or more.
    #[inline(always)]
    pub fn i64_atomic_rmw16_xchg_u(
        self,
        memarg: MemArg,
    ) -> Result<InstructionSink<'a, A>, EncodeError>
        ensures emits { EmitsAligned self.entry (after_fe 0x46) (operands.Mem memarg) memarg.align result }
        ensures* unchanged { sem 𝓛 (IsUnchangedAtErr A.row A.Allocator self.entry result) }
    {
        self.emit_mem(Prefix::Fe, 0x46, memarg)
    }

    /// `i64.atomic.rmw32.xchg_u`: `0xFE 0x47`, then a memory argument. `Alignment` where `memarg.align` is 64 or more.
    #[inline(always)]
    pub fn i64_atomic_rmw32_xchg_u(
        self,
        memarg: MemArg,
    ) -> Result<InstructionSink<'a, A>, EncodeError>
        ensures emits { EmitsAligned self.entry (after_fe 0x47) (operands.Mem memarg) memarg.align result }
        ensures* unchanged { sem 𝓛 (IsUnchangedAtErr A.row A.Allocator self.entry result) }
    {
        self.emit_mem(Prefix::Fe, 0x47, memarg)
    }

    /// `i32.atomic.rmw.cmpxchg`: `0xFE 0x48`, then a memory argument. `Alignment` where `memarg.align` is 64 or more.
    #[inline(always)]
    pub fn i32_atomic_rmw_cmpxchg(
        self,
        memarg: MemArg,
    ) -> Result<InstructionSink<'a, A>, EncodeError>
        ensures emits { EmitsAligned self.entry (after_fe 0x48) (operands.Mem memarg) memarg.align result }
        ensures* unchanged { sem 𝓛 (IsUnchangedAtErr A.row A.Allocator self.entry result) }
    {
        self.emit_mem(Prefix::Fe, 0x48, memarg)
    }

    /// `i64.atomic.rmw.cmpxchg`: `0xFE 0x49`, then a memory argument. `Alignment` where `memarg.align` is 64 or more.
    #[inline(always)]
    pub fn i64_atomic_rmw_cmpxchg(
        self,
        memarg: MemArg,
    ) -> Result<InstructionSink<'a, A>, EncodeError>
        ensures emits { EmitsAligned self.entry (after_fe 0x49) (operands.Mem memarg) memarg.align result }
        ensures* unchanged { sem 𝓛 (IsUnchangedAtErr A.row A.Allocator self.entry result) }
    {
        self.emit_mem(Prefix::Fe, 0x49, memarg)
    }

    /// `i32.atomic.rmw8.cmpxchg_u`: `0xFE 0x4A`, then a memory argument.
    /// `Alignment` where `memarg.align` is 64 or more.
    #[inline(always)]
    pub fn i32_atomic_rmw8_cmpxchg_u(
        self,
        memarg: MemArg,
    ) -> Result<InstructionSink<'a, A>, EncodeError>
        ensures emits { EmitsAligned self.entry (after_fe 0x4a) (operands.Mem memarg) memarg.align result }
        ensures* unchanged { sem 𝓛 (IsUnchangedAtErr A.row A.Allocator self.entry result) }
    {
        self.emit_mem(Prefix::Fe, 0x4a, memarg)
    }

    /// `i32.atomic.rmw16.cmpxchg_u`: `0xFE 0x4B`, then a memory argument.
    /// `Alignment` where `memarg.align` is 64 or more.
    #[inline(always)]
    pub fn i32_atomic_rmw16_cmpxchg_u(
        self,
        memarg: MemArg,
    ) -> Result<InstructionSink<'a, A>, EncodeError>
        ensures emits { EmitsAligned self.entry (after_fe 0x4b) (operands.Mem memarg) memarg.align result }
        ensures* unchanged { sem 𝓛 (IsUnchangedAtErr A.row A.Allocator self.entry result) }
    {
        self.emit_mem(Prefix::Fe, 0x4b, memarg)
    }

    /// `i64.atomic.rmw8.cmpxchg_u`: `0xFE 0x4C`, then a memory argument.
    /// `Alignment` where `memarg.align` is 64 or more.
    #[inline(always)]
    pub fn i64_atomic_rmw8_cmpxchg_u(
        self,
        memarg: MemArg,
    ) -> Result<InstructionSink<'a, A>, EncodeError>
        ensures emits { EmitsAligned self.entry (after_fe 0x4c) (operands.Mem memarg) memarg.align result }
        ensures* unchanged { sem 𝓛 (IsUnchangedAtErr A.row A.Allocator self.entry result) }
    {
        self.emit_mem(Prefix::Fe, 0x4c, memarg)
    }

    /// `i64.atomic.rmw16.cmpxchg_u`: `0xFE 0x4D`, then a memory argument.
    /// `Alignment` where `memarg.align` is 64 or more.
    #[inline(always)]
    pub fn i64_atomic_rmw16_cmpxchg_u(
        self,
        memarg: MemArg,
    ) -> Result<InstructionSink<'a, A>, EncodeError>
        ensures emits { EmitsAligned self.entry (after_fe 0x4d) (operands.Mem memarg) memarg.align result }
        ensures* unchanged { sem 𝓛 (IsUnchangedAtErr A.row A.Allocator self.entry result) }
    {
        self.emit_mem(Prefix::Fe, 0x4d, memarg)
    }

    /// `i64.atomic.rmw32.cmpxchg_u`: `0xFE 0x4E`, then a memory argument.
    /// `Alignment` where `memarg.align` is 64 or more.
    #[inline(always)]
    pub fn i64_atomic_rmw32_cmpxchg_u(
        self,
        memarg: MemArg,
    ) -> Result<InstructionSink<'a, A>, EncodeError>
        ensures emits { EmitsAligned self.entry (after_fe 0x4e) (operands.Mem memarg) memarg.align result }
        ensures* unchanged { sem 𝓛 (IsUnchangedAtErr A.row A.Allocator self.entry result) }
    {
        self.emit_mem(Prefix::Fe, 0x4e, memarg)
    }
}
