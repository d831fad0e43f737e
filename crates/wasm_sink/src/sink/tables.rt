//! Instructions on tables (Core 3.0, Table Instructions).
ghost use Rattle.std.specs.Borrow.{sem};
ghost use Rattle.wasm_sink.specs.Sink.{IsUnchangedAtErr, Emits};
ghost use Rattle.wasm_instructions.specs.formats.Opcodes.{without_prefix, after_fc};
ghost use Rattle.wasm_instructions.specs.declared.table.call.Operands.TheVariants as operands;

use crate::sink::InstructionSink;
use std::alloc::Allocator;
use wasm_codec::encode::EncodeError;
use wasm_instructions::table::Prefix;

#[tactic(auto, unfolding(wasm_instructions::specs::formats::Opcodes::ranges))]
impl<'a, A: Allocator> InstructionSink<'a, A> {
    /// `table.get`: `0x25`, then a table index.
    #[inline(always)]
    pub fn table_get(self, table: u32) -> Result<InstructionSink<'a, A>, EncodeError>
        ensures emits { Emits self.entry (without_prefix 0x25) (operands.Index table) result }
        ensures* unchanged { sem 𝓛 (IsUnchangedAtErr A.row A.Allocator self.entry result) }
    {
        self.emit_index(Prefix::None, 0x25, table)
    }

    /// `table.set`: `0x26`, then a table index.
    #[inline(always)]
    pub fn table_set(self, table: u32) -> Result<InstructionSink<'a, A>, EncodeError>
        ensures emits { Emits self.entry (without_prefix 0x26) (operands.Index table) result }
        ensures* unchanged { sem 𝓛 (IsUnchangedAtErr A.row A.Allocator self.entry result) }
    {
        self.emit_index(Prefix::None, 0x26, table)
    }

    /// `table.init`: `0xFC 0x0C`, then an element index and a table index.
    #[inline(always)]
    pub fn table_init(self, table: u32, segment: u32) -> Result<InstructionSink<'a, A>, EncodeError>
        ensures emits { Emits self.entry (after_fc 0x0c) (operands.TwoIndexes segment table) result }
        ensures* unchanged { sem 𝓛 (IsUnchangedAtErr A.row A.Allocator self.entry result) }
    {
        self.emit_two_indexes(Prefix::Fc, 0x0c, segment, table)
    }

    /// `elem.drop`: `0xFC 0x0D`, then an element index.
    #[inline(always)]
    pub fn elem_drop(self, segment: u32) -> Result<InstructionSink<'a, A>, EncodeError>
        ensures emits { Emits self.entry (after_fc 0x0d) (operands.Index segment) result }
        ensures* unchanged { sem 𝓛 (IsUnchangedAtErr A.row A.Allocator self.entry result) }
    {
        self.emit_index(Prefix::Fc, 0x0d, segment)
    }

    /// `table.copy`: `0xFC 0x0E`, then the destination's table index and the source's table index.
    #[inline(always)]
    pub fn table_copy(
        self,
        destination: u32,
        source: u32,
    ) -> Result<InstructionSink<'a, A>, EncodeError>
        ensures emits { Emits self.entry (after_fc 0x0e) (operands.TwoIndexes destination source) result }
        ensures* unchanged { sem 𝓛 (IsUnchangedAtErr A.row A.Allocator self.entry result) }
    {
        self.emit_two_indexes(Prefix::Fc, 0x0e, destination, source)
    }

    /// `table.grow`: `0xFC 0x0F`, then a table index.
    #[inline(always)]
    pub fn table_grow(self, table: u32) -> Result<InstructionSink<'a, A>, EncodeError>
        ensures emits { Emits self.entry (after_fc 0x0f) (operands.Index table) result }
        ensures* unchanged { sem 𝓛 (IsUnchangedAtErr A.row A.Allocator self.entry result) }
    {
        self.emit_index(Prefix::Fc, 0x0f, table)
    }

    /// `table.size`: `0xFC 0x10`, then a table index.
    #[inline(always)]
    pub fn table_size(self, table: u32) -> Result<InstructionSink<'a, A>, EncodeError>
        ensures emits { Emits self.entry (after_fc 0x10) (operands.Index table) result }
        ensures* unchanged { sem 𝓛 (IsUnchangedAtErr A.row A.Allocator self.entry result) }
    {
        self.emit_index(Prefix::Fc, 0x10, table)
    }

    /// `table.fill`: `0xFC 0x11`, then a table index.
    #[inline(always)]
    pub fn table_fill(self, table: u32) -> Result<InstructionSink<'a, A>, EncodeError>
        ensures emits { Emits self.entry (after_fc 0x11) (operands.Index table) result }
        ensures* unchanged { sem 𝓛 (IsUnchangedAtErr A.row A.Allocator self.entry result) }
    {
        self.emit_index(Prefix::Fc, 0x11, table)
    }
}
