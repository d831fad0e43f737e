//! Loads and stores of vectors and of their lanes (Core 3.0, Vector Instructions).
ghost use Rattle.std.specs.Prelude.{◌<◌};
ghost use Rattle.std.specs.Borrow.{sem};
ghost use Rattle.wasm_sink.specs.Sink.{IsUnchangedAtErr, EmitsAligned};
ghost use Rattle.wasm_instructions.specs.formats.Opcodes.{after_fd};
ghost use Rattle.wasm_instructions.specs.declared.table.call.Operands.TheVariants as operands;

use crate::sink::InstructionSink;
use std::alloc::Allocator;
use wasm_codec::encode::EncodeError;
use wasm_instructions::operands::{Lane, MemArg};
use wasm_instructions::table::Prefix;

#[tactic(auto, unfolding(wasm_instructions::specs::formats::Opcodes::ranges))]
impl<'a, A: Allocator> InstructionSink<'a, A> {
    /// `v128.load`: `0xFD 0x00`, then a memory argument. `Alignment` where `memarg.align` is 64 or more.
    #[inline(always)]
    pub fn v128_load(self, memarg: MemArg) -> Result<InstructionSink<'a, A>, EncodeError>
        ensures emits { EmitsAligned self.entry (after_fd 0x00) (operands.Mem memarg) memarg.align result }
        ensures* unchanged { sem 𝓛 (IsUnchangedAtErr A.row A.Allocator self.entry result) }
    {
        self.emit_mem(Prefix::Fd, 0x00, memarg)
    }

    /// `v128.load8x8_s`: `0xFD 0x01`, then a memory argument. `Alignment` where `memarg.align` is 64 or more.
    #[inline(always)]
    pub fn v128_load8x8_s(self, memarg: MemArg) -> Result<InstructionSink<'a, A>, EncodeError>
        ensures emits { EmitsAligned self.entry (after_fd 0x01) (operands.Mem memarg) memarg.align result }
        ensures* unchanged { sem 𝓛 (IsUnchangedAtErr A.row A.Allocator self.entry result) }
    {
        self.emit_mem(Prefix::Fd, 0x01, memarg)
    }

    /// `v128.load8x8_u`: `0xFD 0x02`, then a memory argument. `Alignment` where `memarg.align` is 64 or more.
    #[inline(always)]
    pub fn v128_load8x8_u(self, memarg: MemArg) -> Result<InstructionSink<'a, A>, EncodeError>
        ensures emits { EmitsAligned self.entry (after_fd 0x02) (operands.Mem memarg) memarg.align result }
        ensures* unchanged { sem 𝓛 (IsUnchangedAtErr A.row A.Allocator self.entry result) }
    {
        self.emit_mem(Prefix::Fd, 0x02, memarg)
    }

    /// `v128.load16x4_s`: `0xFD 0x03`, then a memory argument. `Alignment` where `memarg.align` is 64 or more.
    #[inline(always)]
    pub fn v128_load16x4_s(self, memarg: MemArg) -> Result<InstructionSink<'a, A>, EncodeError>
        ensures emits { EmitsAligned self.entry (after_fd 0x03) (operands.Mem memarg) memarg.align result }
        ensures* unchanged { sem 𝓛 (IsUnchangedAtErr A.row A.Allocator self.entry result) }
    {
        self.emit_mem(Prefix::Fd, 0x03, memarg)
    }

    /// `v128.load16x4_u`: `0xFD 0x04`, then a memory argument. `Alignment` where `memarg.align` is 64 or more.
    #[inline(always)]
    pub fn v128_load16x4_u(self, memarg: MemArg) -> Result<InstructionSink<'a, A>, EncodeError>
        ensures emits { EmitsAligned self.entry (after_fd 0x04) (operands.Mem memarg) memarg.align result }
        ensures* unchanged { sem 𝓛 (IsUnchangedAtErr A.row A.Allocator self.entry result) }
    {
        self.emit_mem(Prefix::Fd, 0x04, memarg)
    }

    /// `v128.load32x2_s`: `0xFD 0x05`, then a memory argument. `Alignment` where `memarg.align` is 64 or more.
    #[inline(always)]
    pub fn v128_load32x2_s(self, memarg: MemArg) -> Result<InstructionSink<'a, A>, EncodeError>
        ensures emits { EmitsAligned self.entry (after_fd 0x05) (operands.Mem memarg) memarg.align result }
        ensures* unchanged { sem 𝓛 (IsUnchangedAtErr A.row A.Allocator self.entry result) }
    {
        self.emit_mem(Prefix::Fd, 0x05, memarg)
    }

    /// `v128.load32x2_u`: `0xFD 0x06`, then a memory argument. `Alignment` where `memarg.align` is 64 or more.
    #[inline(always)]
    pub fn v128_load32x2_u(self, memarg: MemArg) -> Result<InstructionSink<'a, A>, EncodeError>
        ensures emits { EmitsAligned self.entry (after_fd 0x06) (operands.Mem memarg) memarg.align result }
        ensures* unchanged { sem 𝓛 (IsUnchangedAtErr A.row A.Allocator self.entry result) }
    {
        self.emit_mem(Prefix::Fd, 0x06, memarg)
    }

    /// `v128.load8_splat`: `0xFD 0x07`, then a memory argument. `Alignment` where `memarg.align` is 64 or more.
    #[inline(always)]
    pub fn v128_load8_splat(self, memarg: MemArg) -> Result<InstructionSink<'a, A>, EncodeError>
        ensures emits { EmitsAligned self.entry (after_fd 0x07) (operands.Mem memarg) memarg.align result }
        ensures* unchanged { sem 𝓛 (IsUnchangedAtErr A.row A.Allocator self.entry result) }
    {
        self.emit_mem(Prefix::Fd, 0x07, memarg)
    }

    /// `v128.load16_splat`: `0xFD 0x08`, then a memory argument. `Alignment` where `memarg.align` is 64 or more.
    #[inline(always)]
    pub fn v128_load16_splat(self, memarg: MemArg) -> Result<InstructionSink<'a, A>, EncodeError>
        ensures emits { EmitsAligned self.entry (after_fd 0x08) (operands.Mem memarg) memarg.align result }
        ensures* unchanged { sem 𝓛 (IsUnchangedAtErr A.row A.Allocator self.entry result) }
    {
        self.emit_mem(Prefix::Fd, 0x08, memarg)
    }

    /// `v128.load32_splat`: `0xFD 0x09`, then a memory argument. `Alignment` where `memarg.align` is 64 or more.
    #[inline(always)]
    pub fn v128_load32_splat(self, memarg: MemArg) -> Result<InstructionSink<'a, A>, EncodeError>
        ensures emits { EmitsAligned self.entry (after_fd 0x09) (operands.Mem memarg) memarg.align result }
        ensures* unchanged { sem 𝓛 (IsUnchangedAtErr A.row A.Allocator self.entry result) }
    {
        self.emit_mem(Prefix::Fd, 0x09, memarg)
    }

    /// `v128.load64_splat`: `0xFD 0x0A`, then a memory argument. `Alignment` where `memarg.align` is 64 or more.
    #[inline(always)]
    pub fn v128_load64_splat(self, memarg: MemArg) -> Result<InstructionSink<'a, A>, EncodeError>
        ensures emits { EmitsAligned self.entry (after_fd 0x0a) (operands.Mem memarg) memarg.align result }
        ensures* unchanged { sem 𝓛 (IsUnchangedAtErr A.row A.Allocator self.entry result) }
    {
        self.emit_mem(Prefix::Fd, 0x0a, memarg)
    }

    /// `v128.store`: `0xFD 0x0B`, then a memory argument. `Alignment` where `memarg.align` is 64 or more.
    #[inline(always)]
    pub fn v128_store(self, memarg: MemArg) -> Result<InstructionSink<'a, A>, EncodeError>
        ensures emits { EmitsAligned self.entry (after_fd 0x0b) (operands.Mem memarg) memarg.align result }
        ensures* unchanged { sem 𝓛 (IsUnchangedAtErr A.row A.Allocator self.entry result) }
    {
        self.emit_mem(Prefix::Fd, 0x0b, memarg)
    }

    /// `v128.load8_lane`: `0xFD 0x54`, then a memory argument and a lane.
    /// `Alignment` where `memarg.align` is 64 or more.
    #[inline(always)]
    pub fn v128_load8_lane(
        self,
        memarg: MemArg,
        lane: Lane,
    ) -> Result<InstructionSink<'a, A>, EncodeError>
        ensures emits { EmitsAligned self.entry (after_fd 0x54) (operands.MemLane memarg lane) memarg.align result }
        ensures* unchanged { sem 𝓛 (IsUnchangedAtErr A.row A.Allocator self.entry result) }
    {
        self.emit_mem_lane(0x54, memarg, lane)
    }

    /// `v128.load16_lane`: `0xFD 0x55`, then a memory argument and a lane.
    /// `Alignment` where `memarg.align` is 64 or more.
    #[inline(always)]
    pub fn v128_load16_lane(
        self,
        memarg: MemArg,
        lane: Lane,
    ) -> Result<InstructionSink<'a, A>, EncodeError>
        ensures emits { EmitsAligned self.entry (after_fd 0x55) (operands.MemLane memarg lane) memarg.align result }
        ensures* unchanged { sem 𝓛 (IsUnchangedAtErr A.row A.Allocator self.entry result) }
    {
        self.emit_mem_lane(0x55, memarg, lane)
    }

    /// `v128.load32_lane`: `0xFD 0x56`, then a memory argument and a lane.
    /// `Alignment` where `memarg.align` is 64 or more.
    #[inline(always)]
    pub fn v128_load32_lane(
        self,
        memarg: MemArg,
        lane: Lane,
    ) -> Result<InstructionSink<'a, A>, EncodeError>
        ensures emits { EmitsAligned self.entry (after_fd 0x56) (operands.MemLane memarg lane) memarg.align result }
        ensures* unchanged { sem 𝓛 (IsUnchangedAtErr A.row A.Allocator self.entry result) }
    {
        self.emit_mem_lane(0x56, memarg, lane)
    }

    /// `v128.load64_lane`: `0xFD 0x57`, then a memory argument and a lane.
    /// `Alignment` where `memarg.align` is 64 or more.
    #[inline(always)]
    pub fn v128_load64_lane(
        self,
        memarg: MemArg,
        lane: Lane,
    ) -> Result<InstructionSink<'a, A>, EncodeError>
        ensures emits { EmitsAligned self.entry (after_fd 0x57) (operands.MemLane memarg lane) memarg.align result }
        ensures* unchanged { sem 𝓛 (IsUnchangedAtErr A.row A.Allocator self.entry result) }
    {
        self.emit_mem_lane(0x57, memarg, lane)
    }

    /// `v128.store8_lane`: `0xFD 0x58`, then a memory argument and a lane.
    /// `Alignment` where `memarg.align` is 64 or more.
    #[inline(always)]
    pub fn v128_store8_lane(
        self,
        memarg: MemArg,
        lane: Lane,
    ) -> Result<InstructionSink<'a, A>, EncodeError>
        ensures emits { EmitsAligned self.entry (after_fd 0x58) (operands.MemLane memarg lane) memarg.align result }
        ensures* unchanged { sem 𝓛 (IsUnchangedAtErr A.row A.Allocator self.entry result) }
    {
        self.emit_mem_lane(0x58, memarg, lane)
    }

    /// `v128.store16_lane`: `0xFD 0x59`, then a memory argument and a lane.
    /// `Alignment` where `memarg.align` is 64 or more.
    #[inline(always)]
    pub fn v128_store16_lane(
        self,
        memarg: MemArg,
        lane: Lane,
    ) -> Result<InstructionSink<'a, A>, EncodeError>
        ensures emits { EmitsAligned self.entry (after_fd 0x59) (operands.MemLane memarg lane) memarg.align result }
        ensures* unchanged { sem 𝓛 (IsUnchangedAtErr A.row A.Allocator self.entry result) }
    {
        self.emit_mem_lane(0x59, memarg, lane)
    }

    /// `v128.store32_lane`: `0xFD 0x5A`, then a memory argument and a lane.
    /// `Alignment` where `memarg.align` is 64 or more.
    #[inline(always)]
    pub fn v128_store32_lane(
        self,
        memarg: MemArg,
        lane: Lane,
    ) -> Result<InstructionSink<'a, A>, EncodeError>
        ensures emits { EmitsAligned self.entry (after_fd 0x5a) (operands.MemLane memarg lane) memarg.align result }
        ensures* unchanged { sem 𝓛 (IsUnchangedAtErr A.row A.Allocator self.entry result) }
    {
        self.emit_mem_lane(0x5a, memarg, lane)
    }

    /// `v128.store64_lane`: `0xFD 0x5B`, then a memory argument and a lane.
    /// `Alignment` where `memarg.align` is 64 or more.
    #[inline(always)]
    pub fn v128_store64_lane(
        self,
        memarg: MemArg,
        lane: Lane,
    ) -> Result<InstructionSink<'a, A>, EncodeError>
        ensures emits { EmitsAligned self.entry (after_fd 0x5b) (operands.MemLane memarg lane) memarg.align result }
        ensures* unchanged { sem 𝓛 (IsUnchangedAtErr A.row A.Allocator self.entry result) }
    {
        self.emit_mem_lane(0x5b, memarg, lane)
    }

    /// `v128.load32_zero`: `0xFD 0x5C`, then a memory argument. `Alignment` where `memarg.align` is 64 or more.
    #[inline(always)]
    pub fn v128_load32_zero(self, memarg: MemArg) -> Result<InstructionSink<'a, A>, EncodeError>
        ensures emits { EmitsAligned self.entry (after_fd 0x5c) (operands.Mem memarg) memarg.align result }
        ensures* unchanged { sem 𝓛 (IsUnchangedAtErr A.row A.Allocator self.entry result) }
    {
        self.emit_mem(Prefix::Fd, 0x5c, memarg)
    }

    /// `v128.load64_zero`: `0xFD 0x5D`, then a memory argument. `Alignment` where `memarg.align` is 64 or more.
    #[inline(always)]
    pub fn v128_load64_zero(self, memarg: MemArg) -> Result<InstructionSink<'a, A>, EncodeError>
        ensures emits { EmitsAligned self.entry (after_fd 0x5d) (operands.Mem memarg) memarg.align result }
        ensures* unchanged { sem 𝓛 (IsUnchangedAtErr A.row A.Allocator self.entry result) }
    {
        self.emit_mem(Prefix::Fd, 0x5d, memarg)
    }
}
