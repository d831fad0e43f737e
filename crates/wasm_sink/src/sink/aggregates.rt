//! Instructions on structs and arrays (Core 3.0, Aggregate Instructions), and those with descriptors (custom
//! descriptors proposal).
ghost use Rattle.std.specs.Borrow.{sem};
ghost use Rattle.wasm_sink.specs.Sink.{IsUnchangedAtErr, Emits};
ghost use Rattle.wasm_instructions.specs.formats.Opcodes.{after_fb};
ghost use Rattle.wasm_instructions.specs.declared.table.call.Operands.TheVariants as operands;

use crate::sink::InstructionSink;
use std::alloc::Allocator;
use wasm_codec::encode::EncodeError;
use wasm_instructions::table::Prefix;

#[tactic(auto, unfolding(wasm_instructions::specs::formats::Opcodes::ranges))]
impl<'a, A: Allocator> InstructionSink<'a, A> {
    /// `struct.new`: `0xFB 0x00`, then a type index.
    #[inline(always)]
    pub fn struct_new(self, ty: u32) -> Result<InstructionSink<'a, A>, EncodeError>
        ensures emits { Emits self.entry (after_fb 0x00) (operands.Index ty) result }
        ensures* unchanged { sem 𝓛 (IsUnchangedAtErr A.row A.Allocator self.entry result) }
    {
        self.emit_index(Prefix::Fb, 0x00, ty)
    }

    /// `struct.new_default`: `0xFB 0x01`, then a type index.
    #[inline(always)]
    pub fn struct_new_default(self, ty: u32) -> Result<InstructionSink<'a, A>, EncodeError>
        ensures emits { Emits self.entry (after_fb 0x01) (operands.Index ty) result }
        ensures* unchanged { sem 𝓛 (IsUnchangedAtErr A.row A.Allocator self.entry result) }
    {
        self.emit_index(Prefix::Fb, 0x01, ty)
    }

    /// `struct.get`: `0xFB 0x02`, then a type index and a field index.
    #[inline(always)]
    pub fn struct_get(self, ty: u32, field: u32) -> Result<InstructionSink<'a, A>, EncodeError>
        ensures emits { Emits self.entry (after_fb 0x02) (operands.TwoIndexes ty field) result }
        ensures* unchanged { sem 𝓛 (IsUnchangedAtErr A.row A.Allocator self.entry result) }
    {
        self.emit_two_indexes(Prefix::Fb, 0x02, ty, field)
    }

    /// `struct.get_s`: `0xFB 0x03`, then a type index and a field index.
    #[inline(always)]
    pub fn struct_get_s(self, ty: u32, field: u32) -> Result<InstructionSink<'a, A>, EncodeError>
        ensures emits { Emits self.entry (after_fb 0x03) (operands.TwoIndexes ty field) result }
        ensures* unchanged { sem 𝓛 (IsUnchangedAtErr A.row A.Allocator self.entry result) }
    {
        self.emit_two_indexes(Prefix::Fb, 0x03, ty, field)
    }

    /// `struct.get_u`: `0xFB 0x04`, then a type index and a field index.
    #[inline(always)]
    pub fn struct_get_u(self, ty: u32, field: u32) -> Result<InstructionSink<'a, A>, EncodeError>
        ensures emits { Emits self.entry (after_fb 0x04) (operands.TwoIndexes ty field) result }
        ensures* unchanged { sem 𝓛 (IsUnchangedAtErr A.row A.Allocator self.entry result) }
    {
        self.emit_two_indexes(Prefix::Fb, 0x04, ty, field)
    }

    /// `struct.set`: `0xFB 0x05`, then a type index and a field index.
    #[inline(always)]
    pub fn struct_set(self, ty: u32, field: u32) -> Result<InstructionSink<'a, A>, EncodeError>
        ensures emits { Emits self.entry (after_fb 0x05) (operands.TwoIndexes ty field) result }
        ensures* unchanged { sem 𝓛 (IsUnchangedAtErr A.row A.Allocator self.entry result) }
    {
        self.emit_two_indexes(Prefix::Fb, 0x05, ty, field)
    }

    /// `array.new`: `0xFB 0x06`, then a type index.
    #[inline(always)]
    pub fn array_new(self, ty: u32) -> Result<InstructionSink<'a, A>, EncodeError>
        ensures emits { Emits self.entry (after_fb 0x06) (operands.Index ty) result }
        ensures* unchanged { sem 𝓛 (IsUnchangedAtErr A.row A.Allocator self.entry result) }
    {
        self.emit_index(Prefix::Fb, 0x06, ty)
    }

    /// `array.new_default`: `0xFB 0x07`, then a type index.
    #[inline(always)]
    pub fn array_new_default(self, ty: u32) -> Result<InstructionSink<'a, A>, EncodeError>
        ensures emits { Emits self.entry (after_fb 0x07) (operands.Index ty) result }
        ensures* unchanged { sem 𝓛 (IsUnchangedAtErr A.row A.Allocator self.entry result) }
    {
        self.emit_index(Prefix::Fb, 0x07, ty)
    }

    /// `array.new_fixed`: `0xFB 0x08`, then a type index and a length.
    #[inline(always)]
    pub fn array_new_fixed(
        self,
        ty: u32,
        length: u32,
    ) -> Result<InstructionSink<'a, A>, EncodeError>
        ensures emits { Emits self.entry (after_fb 0x08) (operands.TwoIndexes ty length) result }
        ensures* unchanged { sem 𝓛 (IsUnchangedAtErr A.row A.Allocator self.entry result) }
    {
        self.emit_two_indexes(Prefix::Fb, 0x08, ty, length)
    }

    /// `array.new_data`: `0xFB 0x09`, then a type index and a data index.
    #[inline(always)]
    pub fn array_new_data(
        self,
        ty: u32,
        segment: u32,
    ) -> Result<InstructionSink<'a, A>, EncodeError>
        ensures emits { Emits self.entry (after_fb 0x09) (operands.TwoIndexes ty segment) result }
        ensures* unchanged { sem 𝓛 (IsUnchangedAtErr A.row A.Allocator self.entry result) }
    {
        self.emit_two_indexes(Prefix::Fb, 0x09, ty, segment)
    }

    /// `array.new_elem`: `0xFB 0x0A`, then a type index and an element index.
    #[inline(always)]
    pub fn array_new_elem(
        self,
        ty: u32,
        segment: u32,
    ) -> Result<InstructionSink<'a, A>, EncodeError>
        ensures emits { Emits self.entry (after_fb 0x0a) (operands.TwoIndexes ty segment) result }
        ensures* unchanged { sem 𝓛 (IsUnchangedAtErr A.row A.Allocator self.entry result) }
    {
        self.emit_two_indexes(Prefix::Fb, 0x0a, ty, segment)
    }

    /// `array.get`: `0xFB 0x0B`, then a type index.
    #[inline(always)]
    pub fn array_get(self, ty: u32) -> Result<InstructionSink<'a, A>, EncodeError>
        ensures emits { Emits self.entry (after_fb 0x0b) (operands.Index ty) result }
        ensures* unchanged { sem 𝓛 (IsUnchangedAtErr A.row A.Allocator self.entry result) }
    {
        self.emit_index(Prefix::Fb, 0x0b, ty)
    }

    /// `array.get_s`: `0xFB 0x0C`, then a type index.
    #[inline(always)]
    pub fn array_get_s(self, ty: u32) -> Result<InstructionSink<'a, A>, EncodeError>
        ensures emits { Emits self.entry (after_fb 0x0c) (operands.Index ty) result }
        ensures* unchanged { sem 𝓛 (IsUnchangedAtErr A.row A.Allocator self.entry result) }
    {
        self.emit_index(Prefix::Fb, 0x0c, ty)
    }

    /// `array.get_u`: `0xFB 0x0D`, then a type index.
    #[inline(always)]
    pub fn array_get_u(self, ty: u32) -> Result<InstructionSink<'a, A>, EncodeError>
        ensures emits { Emits self.entry (after_fb 0x0d) (operands.Index ty) result }
        ensures* unchanged { sem 𝓛 (IsUnchangedAtErr A.row A.Allocator self.entry result) }
    {
        self.emit_index(Prefix::Fb, 0x0d, ty)
    }

    /// `array.set`: `0xFB 0x0E`, then a type index.
    #[inline(always)]
    pub fn array_set(self, ty: u32) -> Result<InstructionSink<'a, A>, EncodeError>
        ensures emits { Emits self.entry (after_fb 0x0e) (operands.Index ty) result }
        ensures* unchanged { sem 𝓛 (IsUnchangedAtErr A.row A.Allocator self.entry result) }
    {
        self.emit_index(Prefix::Fb, 0x0e, ty)
    }

    /// `array.len`: `0xFB 0x0F`.
    #[inline(always)]
    pub fn array_len(self) -> Result<InstructionSink<'a, A>, EncodeError>
        ensures emits { Emits self.entry (after_fb 0x0f) operands.None result }
        ensures* unchanged { sem 𝓛 (IsUnchangedAtErr A.row A.Allocator self.entry result) }
    {
        self.emit(Prefix::Fb, 0x0f)
    }

    /// `array.fill`: `0xFB 0x10`, then a type index.
    #[inline(always)]
    pub fn array_fill(self, ty: u32) -> Result<InstructionSink<'a, A>, EncodeError>
        ensures emits { Emits self.entry (after_fb 0x10) (operands.Index ty) result }
        ensures* unchanged { sem 𝓛 (IsUnchangedAtErr A.row A.Allocator self.entry result) }
    {
        self.emit_index(Prefix::Fb, 0x10, ty)
    }

    /// `array.copy`: `0xFB 0x11`, then the destination's type index and the source's type index.
    #[inline(always)]
    pub fn array_copy(
        self,
        destination_type: u32,
        source_type: u32,
    ) -> Result<InstructionSink<'a, A>, EncodeError>
        ensures emits { Emits self.entry (after_fb 0x11) (operands.TwoIndexes destination_type source_type) result }
        ensures* unchanged { sem 𝓛 (IsUnchangedAtErr A.row A.Allocator self.entry result) }
    {
        self.emit_two_indexes(Prefix::Fb, 0x11, destination_type, source_type)
    }

    /// `array.init_data`: `0xFB 0x12`, then a type index and a data index.
    #[inline(always)]
    pub fn array_init_data(
        self,
        ty: u32,
        segment: u32,
    ) -> Result<InstructionSink<'a, A>, EncodeError>
        ensures emits { Emits self.entry (after_fb 0x12) (operands.TwoIndexes ty segment) result }
        ensures* unchanged { sem 𝓛 (IsUnchangedAtErr A.row A.Allocator self.entry result) }
    {
        self.emit_two_indexes(Prefix::Fb, 0x12, ty, segment)
    }

    /// `array.init_elem`: `0xFB 0x13`, then a type index and an element index.
    #[inline(always)]
    pub fn array_init_elem(
        self,
        ty: u32,
        segment: u32,
    ) -> Result<InstructionSink<'a, A>, EncodeError>
        ensures emits { Emits self.entry (after_fb 0x13) (operands.TwoIndexes ty segment) result }
        ensures* unchanged { sem 𝓛 (IsUnchangedAtErr A.row A.Allocator self.entry result) }
    {
        self.emit_two_indexes(Prefix::Fb, 0x13, ty, segment)
    }

    /// `struct.new_desc`: `0xFB 0x20`, then a type index.
    #[inline(always)]
    pub fn struct_new_desc(self, ty: u32) -> Result<InstructionSink<'a, A>, EncodeError>
        ensures emits { Emits self.entry (after_fb 0x20) (operands.Index ty) result }
        ensures* unchanged { sem 𝓛 (IsUnchangedAtErr A.row A.Allocator self.entry result) }
    {
        self.emit_index(Prefix::Fb, 0x20, ty)
    }

    /// `struct.new_default_desc`: `0xFB 0x21`, then a type index.
    #[inline(always)]
    pub fn struct_new_default_desc(self, ty: u32) -> Result<InstructionSink<'a, A>, EncodeError>
        ensures emits { Emits self.entry (after_fb 0x21) (operands.Index ty) result }
        ensures* unchanged { sem 𝓛 (IsUnchangedAtErr A.row A.Allocator self.entry result) }
    {
        self.emit_index(Prefix::Fb, 0x21, ty)
    }
}
