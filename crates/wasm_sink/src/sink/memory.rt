//! Instructions on memories (Core 3.0, Memory Instructions), and `memory.discard` (memory control proposal).
ghost use Rattle.std.specs.Prelude.{◌<◌};
ghost use Rattle.std.specs.Borrow.{sem};
ghost use Rattle.wasm_sink.specs.Sink.{IsUnchangedAtErr, Emits, EmitsAligned};
ghost use Rattle.wasm_instructions.specs.formats.Opcodes.{without_prefix, after_fc};
ghost use Rattle.wasm_instructions.specs.declared.table.call.Operands.TheVariants as operands;

use crate::sink::InstructionSink;
use std::alloc::Allocator;
use wasm_codec::encode::EncodeError;
use wasm_instructions::operands::MemArg;
use wasm_instructions::table::Prefix;

#[tactic(auto, unfolding(wasm_instructions::specs::formats::Opcodes::ranges))]
impl<'a, A: Allocator> InstructionSink<'a, A> {
    /// `i32.load`: `0x28`, then a memory argument. `Alignment` where `memarg.align` is 64 or more.
    #[inline(always)]
    pub fn i32_load(self, memarg: MemArg) -> Result<InstructionSink<'a, A>, EncodeError>
        ensures emits { EmitsAligned self.entry (without_prefix 0x28) (operands.Mem memarg) memarg.align result }
        ensures* unchanged { sem 𝓛 (IsUnchangedAtErr A.row A.Allocator self.entry result) }
    {
        self.emit_mem(Prefix::None, 0x28, memarg)
    }

    /// `i64.load`: `0x29`, then a memory argument. `Alignment` where `memarg.align` is 64 or more.
    #[inline(always)]
    pub fn i64_load(self, memarg: MemArg) -> Result<InstructionSink<'a, A>, EncodeError>
        ensures emits { EmitsAligned self.entry (without_prefix 0x29) (operands.Mem memarg) memarg.align result }
        ensures* unchanged { sem 𝓛 (IsUnchangedAtErr A.row A.Allocator self.entry result) }
    {
        self.emit_mem(Prefix::None, 0x29, memarg)
    }

    /// `f32.load`: `0x2A`, then a memory argument. `Alignment` where `memarg.align` is 64 or more.
    #[inline(always)]
    pub fn f32_load(self, memarg: MemArg) -> Result<InstructionSink<'a, A>, EncodeError>
        ensures emits { EmitsAligned self.entry (without_prefix 0x2a) (operands.Mem memarg) memarg.align result }
        ensures* unchanged { sem 𝓛 (IsUnchangedAtErr A.row A.Allocator self.entry result) }
    {
        self.emit_mem(Prefix::None, 0x2a, memarg)
    }

    /// `f64.load`: `0x2B`, then a memory argument. `Alignment` where `memarg.align` is 64 or more.
    #[inline(always)]
    pub fn f64_load(self, memarg: MemArg) -> Result<InstructionSink<'a, A>, EncodeError>
        ensures emits { EmitsAligned self.entry (without_prefix 0x2b) (operands.Mem memarg) memarg.align result }
        ensures* unchanged { sem 𝓛 (IsUnchangedAtErr A.row A.Allocator self.entry result) }
    {
        self.emit_mem(Prefix::None, 0x2b, memarg)
    }

    /// `i32.load8_s`: `0x2C`, then a memory argument. `Alignment` where `memarg.align` is 64 or more.
    #[inline(always)]
    pub fn i32_load8_s(self, memarg: MemArg) -> Result<InstructionSink<'a, A>, EncodeError>
        ensures emits { EmitsAligned self.entry (without_prefix 0x2c) (operands.Mem memarg) memarg.align result }
        ensures* unchanged { sem 𝓛 (IsUnchangedAtErr A.row A.Allocator self.entry result) }
    {
        self.emit_mem(Prefix::None, 0x2c, memarg)
    }

    /// `i32.load8_u`: `0x2D`, then a memory argument. `Alignment` where `memarg.align` is 64 or more.
    #[inline(always)]
    pub fn i32_load8_u(self, memarg: MemArg) -> Result<InstructionSink<'a, A>, EncodeError>
        ensures emits { EmitsAligned self.entry (without_prefix 0x2d) (operands.Mem memarg) memarg.align result }
        ensures* unchanged { sem 𝓛 (IsUnchangedAtErr A.row A.Allocator self.entry result) }
    {
        self.emit_mem(Prefix::None, 0x2d, memarg)
    }

    /// `i32.load16_s`: `0x2E`, then a memory argument. `Alignment` where `memarg.align` is 64 or more.
    #[inline(always)]
    pub fn i32_load16_s(self, memarg: MemArg) -> Result<InstructionSink<'a, A>, EncodeError>
        ensures emits { EmitsAligned self.entry (without_prefix 0x2e) (operands.Mem memarg) memarg.align result }
        ensures* unchanged { sem 𝓛 (IsUnchangedAtErr A.row A.Allocator self.entry result) }
    {
        self.emit_mem(Prefix::None, 0x2e, memarg)
    }

    /// `i32.load16_u`: `0x2F`, then a memory argument. `Alignment` where `memarg.align` is 64 or more.
    #[inline(always)]
    pub fn i32_load16_u(self, memarg: MemArg) -> Result<InstructionSink<'a, A>, EncodeError>
        ensures emits { EmitsAligned self.entry (without_prefix 0x2f) (operands.Mem memarg) memarg.align result }
        ensures* unchanged { sem 𝓛 (IsUnchangedAtErr A.row A.Allocator self.entry result) }
    {
        self.emit_mem(Prefix::None, 0x2f, memarg)
    }

    /// `i64.load8_s`: `0x30`, then a memory argument. `Alignment` where `memarg.align` is 64 or more.
    #[inline(always)]
    pub fn i64_load8_s(self, memarg: MemArg) -> Result<InstructionSink<'a, A>, EncodeError>
        ensures emits { EmitsAligned self.entry (without_prefix 0x30) (operands.Mem memarg) memarg.align result }
        ensures* unchanged { sem 𝓛 (IsUnchangedAtErr A.row A.Allocator self.entry result) }
    {
        self.emit_mem(Prefix::None, 0x30, memarg)
    }

    /// `i64.load8_u`: `0x31`, then a memory argument. `Alignment` where `memarg.align` is 64 or more.
    #[inline(always)]
    pub fn i64_load8_u(self, memarg: MemArg) -> Result<InstructionSink<'a, A>, EncodeError>
        ensures emits { EmitsAligned self.entry (without_prefix 0x31) (operands.Mem memarg) memarg.align result }
        ensures* unchanged { sem 𝓛 (IsUnchangedAtErr A.row A.Allocator self.entry result) }
    {
        self.emit_mem(Prefix::None, 0x31, memarg)
    }

    /// `i64.load16_s`: `0x32`, then a memory argument. `Alignment` where `memarg.align` is 64 or more.
    #[inline(always)]
    pub fn i64_load16_s(self, memarg: MemArg) -> Result<InstructionSink<'a, A>, EncodeError>
        ensures emits { EmitsAligned self.entry (without_prefix 0x32) (operands.Mem memarg) memarg.align result }
        ensures* unchanged { sem 𝓛 (IsUnchangedAtErr A.row A.Allocator self.entry result) }
    {
        self.emit_mem(Prefix::None, 0x32, memarg)
    }

    /// `i64.load16_u`: `0x33`, then a memory argument. `Alignment` where `memarg.align` is 64 or more.
    #[inline(always)]
    pub fn i64_load16_u(self, memarg: MemArg) -> Result<InstructionSink<'a, A>, EncodeError>
        ensures emits { EmitsAligned self.entry (without_prefix 0x33) (operands.Mem memarg) memarg.align result }
        ensures* unchanged { sem 𝓛 (IsUnchangedAtErr A.row A.Allocator self.entry result) }
    {
        self.emit_mem(Prefix::None, 0x33, memarg)
    }

    /// `i64.load32_s`: `0x34`, then a memory argument. `Alignment` where `memarg.align` is 64 or more.
    #[inline(always)]
    pub fn i64_load32_s(self, memarg: MemArg) -> Result<InstructionSink<'a, A>, EncodeError>
        ensures emits { EmitsAligned self.entry (without_prefix 0x34) (operands.Mem memarg) memarg.align result }
        ensures* unchanged { sem 𝓛 (IsUnchangedAtErr A.row A.Allocator self.entry result) }
    {
        self.emit_mem(Prefix::None, 0x34, memarg)
    }

    /// `i64.load32_u`: `0x35`, then a memory argument. `Alignment` where `memarg.align` is 64 or more.
    #[inline(always)]
    pub fn i64_load32_u(self, memarg: MemArg) -> Result<InstructionSink<'a, A>, EncodeError>
        ensures emits { EmitsAligned self.entry (without_prefix 0x35) (operands.Mem memarg) memarg.align result }
        ensures* unchanged { sem 𝓛 (IsUnchangedAtErr A.row A.Allocator self.entry result) }
    {
        self.emit_mem(Prefix::None, 0x35, memarg)
    }

    /// `i32.store`: `0x36`, then a memory argument. `Alignment` where `memarg.align` is 64 or more.
    #[inline(always)]
    pub fn i32_store(self, memarg: MemArg) -> Result<InstructionSink<'a, A>, EncodeError>
        ensures emits { EmitsAligned self.entry (without_prefix 0x36) (operands.Mem memarg) memarg.align result }
        ensures* unchanged { sem 𝓛 (IsUnchangedAtErr A.row A.Allocator self.entry result) }
    {
        self.emit_mem(Prefix::None, 0x36, memarg)
    }

    /// `i64.store`: `0x37`, then a memory argument. `Alignment` where `memarg.align` is 64 or more.
    #[inline(always)]
    pub fn i64_store(self, memarg: MemArg) -> Result<InstructionSink<'a, A>, EncodeError>
        ensures emits { EmitsAligned self.entry (without_prefix 0x37) (operands.Mem memarg) memarg.align result }
        ensures* unchanged { sem 𝓛 (IsUnchangedAtErr A.row A.Allocator self.entry result) }
    {
        self.emit_mem(Prefix::None, 0x37, memarg)
    }

    /// `f32.store`: `0x38`, then a memory argument. `Alignment` where `memarg.align` is 64 or more.
    #[inline(always)]
    pub fn f32_store(self, memarg: MemArg) -> Result<InstructionSink<'a, A>, EncodeError>
        ensures emits { EmitsAligned self.entry (without_prefix 0x38) (operands.Mem memarg) memarg.align result }
        ensures* unchanged { sem 𝓛 (IsUnchangedAtErr A.row A.Allocator self.entry result) }
    {
        self.emit_mem(Prefix::None, 0x38, memarg)
    }

    /// `f64.store`: `0x39`, then a memory argument. `Alignment` where `memarg.align` is 64 or more.
    #[inline(always)]
    pub fn f64_store(self, memarg: MemArg) -> Result<InstructionSink<'a, A>, EncodeError>
        ensures emits { EmitsAligned self.entry (without_prefix 0x39) (operands.Mem memarg) memarg.align result }
        ensures* unchanged { sem 𝓛 (IsUnchangedAtErr A.row A.Allocator self.entry result) }
    {
        self.emit_mem(Prefix::None, 0x39, memarg)
    }

    /// `i32.store8`: `0x3A`, then a memory argument. `Alignment` where `memarg.align` is 64 or more.
    #[inline(always)]
    pub fn i32_store8(self, memarg: MemArg) -> Result<InstructionSink<'a, A>, EncodeError>
        ensures emits { EmitsAligned self.entry (without_prefix 0x3a) (operands.Mem memarg) memarg.align result }
        ensures* unchanged { sem 𝓛 (IsUnchangedAtErr A.row A.Allocator self.entry result) }
    {
        self.emit_mem(Prefix::None, 0x3a, memarg)
    }

    /// `i32.store16`: `0x3B`, then a memory argument. `Alignment` where `memarg.align` is 64 or more.
    #[inline(always)]
    pub fn i32_store16(self, memarg: MemArg) -> Result<InstructionSink<'a, A>, EncodeError>
        ensures emits { EmitsAligned self.entry (without_prefix 0x3b) (operands.Mem memarg) memarg.align result }
        ensures* unchanged { sem 𝓛 (IsUnchangedAtErr A.row A.Allocator self.entry result) }
    {
        self.emit_mem(Prefix::None, 0x3b, memarg)
    }

    /// `i64.store8`: `0x3C`, then a memory argument. `Alignment` where `memarg.align` is 64 or more.
    #[inline(always)]
    pub fn i64_store8(self, memarg: MemArg) -> Result<InstructionSink<'a, A>, EncodeError>
        ensures emits { EmitsAligned self.entry (without_prefix 0x3c) (operands.Mem memarg) memarg.align result }
        ensures* unchanged { sem 𝓛 (IsUnchangedAtErr A.row A.Allocator self.entry result) }
    {
        self.emit_mem(Prefix::None, 0x3c, memarg)
    }

    /// `i64.store16`: `0x3D`, then a memory argument. `Alignment` where `memarg.align` is 64 or more.
    #[inline(always)]
    pub fn i64_store16(self, memarg: MemArg) -> Result<InstructionSink<'a, A>, EncodeError>
        ensures emits { EmitsAligned self.entry (without_prefix 0x3d) (operands.Mem memarg) memarg.align result }
        ensures* unchanged { sem 𝓛 (IsUnchangedAtErr A.row A.Allocator self.entry result) }
    {
        self.emit_mem(Prefix::None, 0x3d, memarg)
    }

    /// `i64.store32`: `0x3E`, then a memory argument. `Alignment` where `memarg.align` is 64 or more.
    #[inline(always)]
    pub fn i64_store32(self, memarg: MemArg) -> Result<InstructionSink<'a, A>, EncodeError>
        ensures emits { EmitsAligned self.entry (without_prefix 0x3e) (operands.Mem memarg) memarg.align result }
        ensures* unchanged { sem 𝓛 (IsUnchangedAtErr A.row A.Allocator self.entry result) }
    {
        self.emit_mem(Prefix::None, 0x3e, memarg)
    }

    /// `memory.size`: `0x3F`, then a memory index.
    #[inline(always)]
    pub fn memory_size(self, memory: u32) -> Result<InstructionSink<'a, A>, EncodeError>
        ensures emits { Emits self.entry (without_prefix 0x3f) (operands.Index memory) result }
        ensures* unchanged { sem 𝓛 (IsUnchangedAtErr A.row A.Allocator self.entry result) }
    {
        self.emit_index(Prefix::None, 0x3f, memory)
    }

    /// `memory.grow`: `0x40`, then a memory index.
    #[inline(always)]
    pub fn memory_grow(self, memory: u32) -> Result<InstructionSink<'a, A>, EncodeError>
        ensures emits { Emits self.entry (without_prefix 0x40) (operands.Index memory) result }
        ensures* unchanged { sem 𝓛 (IsUnchangedAtErr A.row A.Allocator self.entry result) }
    {
        self.emit_index(Prefix::None, 0x40, memory)
    }

    /// `memory.init`: `0xFC 0x08`, then a data index and a memory index.
    #[inline(always)]
    pub fn memory_init(
        self,
        memory: u32,
        segment: u32,
    ) -> Result<InstructionSink<'a, A>, EncodeError>
        ensures emits { Emits self.entry (after_fc 0x08) (operands.TwoIndexes segment memory) result }
        ensures* unchanged { sem 𝓛 (IsUnchangedAtErr A.row A.Allocator self.entry result) }
    {
        self.emit_two_indexes(Prefix::Fc, 0x08, segment, memory)
    }

    /// `data.drop`: `0xFC 0x09`, then a data index.
    #[inline(always)]
    pub fn data_drop(self, segment: u32) -> Result<InstructionSink<'a, A>, EncodeError>
        ensures emits { Emits self.entry (after_fc 0x09) (operands.Index segment) result }
        ensures* unchanged { sem 𝓛 (IsUnchangedAtErr A.row A.Allocator self.entry result) }
    {
        self.emit_index(Prefix::Fc, 0x09, segment)
    }

    /// `memory.copy`: `0xFC 0x0A`, then the destination's memory index and the source's memory index.
    #[inline(always)]
    pub fn memory_copy(
        self,
        destination: u32,
        source: u32,
    ) -> Result<InstructionSink<'a, A>, EncodeError>
        ensures emits { Emits self.entry (after_fc 0x0a) (operands.TwoIndexes destination source) result }
        ensures* unchanged { sem 𝓛 (IsUnchangedAtErr A.row A.Allocator self.entry result) }
    {
        self.emit_two_indexes(Prefix::Fc, 0x0a, destination, source)
    }

    /// `memory.fill`: `0xFC 0x0B`, then a memory index.
    #[inline(always)]
    pub fn memory_fill(self, memory: u32) -> Result<InstructionSink<'a, A>, EncodeError>
        ensures emits { Emits self.entry (after_fc 0x0b) (operands.Index memory) result }
        ensures* unchanged { sem 𝓛 (IsUnchangedAtErr A.row A.Allocator self.entry result) }
    {
        self.emit_index(Prefix::Fc, 0x0b, memory)
    }

    /// `memory.discard`: `0xFC 0x12`, then a memory index.
    #[inline(always)]
    pub fn memory_discard(self, memory: u32) -> Result<InstructionSink<'a, A>, EncodeError>
        ensures emits { Emits self.entry (after_fc 0x12) (operands.Index memory) result }
        ensures* unchanged { sem 𝓛 (IsUnchangedAtErr A.row A.Allocator self.entry result) }
    {
        self.emit_index(Prefix::Fc, 0x12, memory)
    }
}
