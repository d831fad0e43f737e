//! Instructions on references, and branches on them (Core 3.0, Reference Instructions and Control Instructions), and
//! those with descriptors (custom descriptors proposal).
ghost use Rattle.std.specs.Borrow.{sem};
ghost use Rattle.wasm_sink.specs.Sink.{IsUnchangedAtErr, Emits};
ghost use Rattle.wasm_instructions.specs.formats.Opcodes.{without_prefix, after_fb};
ghost use Rattle.wasm_instructions.specs.declared.table.call.Operands.TheVariants as operands;

use crate::sink::InstructionSink;
use std::alloc::Allocator;
use wasm_codec::encode::EncodeError;
use wasm_instructions::table::Prefix;
use wasm_types::types::{HeapType, RefType};

#[tactic(auto, unfolding(wasm_instructions::specs::formats::Opcodes::ranges))]
impl<'a, A: Allocator> InstructionSink<'a, A> {
    /// `ref.null`: `0xD0`, then a heap type.
    #[inline(always)]
    pub fn ref_null(self, heap_type: HeapType) -> Result<InstructionSink<'a, A>, EncodeError>
        ensures emits { Emits self.entry (without_prefix 0xd0) (operands.Heap heap_type) result }
        ensures* unchanged { sem 𝓛 (IsUnchangedAtErr A.row A.Allocator self.entry result) }
    {
        self.emit_heap(Prefix::None, 0xd0, heap_type)
    }

    /// `ref.is_null`: `0xD1`.
    #[inline(always)]
    pub fn ref_is_null(self) -> Result<InstructionSink<'a, A>, EncodeError>
        ensures emits { Emits self.entry (without_prefix 0xd1) operands.None result }
        ensures* unchanged { sem 𝓛 (IsUnchangedAtErr A.row A.Allocator self.entry result) }
    {
        self.emit(Prefix::None, 0xd1)
    }

    /// `ref.func`: `0xD2`, then a function index.
    #[inline(always)]
    pub fn ref_func(self, function: u32) -> Result<InstructionSink<'a, A>, EncodeError>
        ensures emits { Emits self.entry (without_prefix 0xd2) (operands.Index function) result }
        ensures* unchanged { sem 𝓛 (IsUnchangedAtErr A.row A.Allocator self.entry result) }
    {
        self.emit_index(Prefix::None, 0xd2, function)
    }

    /// `ref.eq`: `0xD3`.
    #[inline(always)]
    pub fn ref_eq(self) -> Result<InstructionSink<'a, A>, EncodeError>
        ensures emits { Emits self.entry (without_prefix 0xd3) operands.None result }
        ensures* unchanged { sem 𝓛 (IsUnchangedAtErr A.row A.Allocator self.entry result) }
    {
        self.emit(Prefix::None, 0xd3)
    }

    /// `ref.as_non_null`: `0xD4`.
    #[inline(always)]
    pub fn ref_as_non_null(self) -> Result<InstructionSink<'a, A>, EncodeError>
        ensures emits { Emits self.entry (without_prefix 0xd4) operands.None result }
        ensures* unchanged { sem 𝓛 (IsUnchangedAtErr A.row A.Allocator self.entry result) }
    {
        self.emit(Prefix::None, 0xd4)
    }

    /// `br_on_null`: `0xD5`, then a label index.
    #[inline(always)]
    pub fn br_on_null(self, label: u32) -> Result<InstructionSink<'a, A>, EncodeError>
        ensures emits { Emits self.entry (without_prefix 0xd5) (operands.Index label) result }
        ensures* unchanged { sem 𝓛 (IsUnchangedAtErr A.row A.Allocator self.entry result) }
    {
        self.emit_index(Prefix::None, 0xd5, label)
    }

    /// `br_on_non_null`: `0xD6`, then a label index.
    #[inline(always)]
    pub fn br_on_non_null(self, label: u32) -> Result<InstructionSink<'a, A>, EncodeError>
        ensures emits { Emits self.entry (without_prefix 0xd6) (operands.Index label) result }
        ensures* unchanged { sem 𝓛 (IsUnchangedAtErr A.row A.Allocator self.entry result) }
    {
        self.emit_index(Prefix::None, 0xd6, label)
    }

    /// `ref.test` of a type without null: `0xFB 0x14`, then a heap type.
    #[inline(always)]
    pub fn ref_test_non_null(
        self,
        heap_type: HeapType,
    ) -> Result<InstructionSink<'a, A>, EncodeError>
        ensures emits { Emits self.entry (after_fb 0x14) (operands.Heap heap_type) result }
        ensures* unchanged { sem 𝓛 (IsUnchangedAtErr A.row A.Allocator self.entry result) }
    {
        self.emit_heap(Prefix::Fb, 0x14, heap_type)
    }

    /// `ref.test` of a type with null: `0xFB 0x15`, then a heap type.
    #[inline(always)]
    pub fn ref_test_nullable(
        self,
        heap_type: HeapType,
    ) -> Result<InstructionSink<'a, A>, EncodeError>
        ensures emits { Emits self.entry (after_fb 0x15) (operands.Heap heap_type) result }
        ensures* unchanged { sem 𝓛 (IsUnchangedAtErr A.row A.Allocator self.entry result) }
    {
        self.emit_heap(Prefix::Fb, 0x15, heap_type)
    }

    /// `ref.cast` to a type without null: `0xFB 0x16`, then a heap type.
    #[inline(always)]
    pub fn ref_cast_non_null(
        self,
        heap_type: HeapType,
    ) -> Result<InstructionSink<'a, A>, EncodeError>
        ensures emits { Emits self.entry (after_fb 0x16) (operands.Heap heap_type) result }
        ensures* unchanged { sem 𝓛 (IsUnchangedAtErr A.row A.Allocator self.entry result) }
    {
        self.emit_heap(Prefix::Fb, 0x16, heap_type)
    }

    /// `ref.cast` to a type with null: `0xFB 0x17`, then a heap type.
    #[inline(always)]
    pub fn ref_cast_nullable(
        self,
        heap_type: HeapType,
    ) -> Result<InstructionSink<'a, A>, EncodeError>
        ensures emits { Emits self.entry (after_fb 0x17) (operands.Heap heap_type) result }
        ensures* unchanged { sem 𝓛 (IsUnchangedAtErr A.row A.Allocator self.entry result) }
    {
        self.emit_heap(Prefix::Fb, 0x17, heap_type)
    }

    /// `br_on_cast`: `0xFB 0x18`, then a byte for nullability, a label index and the heap types of `from` and `to`.
    #[inline(always)]
    pub fn br_on_cast(
        self,
        label: u32,
        from: RefType,
        to: RefType,
    ) -> Result<InstructionSink<'a, A>, EncodeError>
        ensures emits { Emits self.entry (after_fb 0x18) (operands.Cast label from to) result }
        ensures* unchanged { sem 𝓛 (IsUnchangedAtErr A.row A.Allocator self.entry result) }
    {
        self.emit_cast(0x18, label, from, to)
    }

    /// `br_on_cast_fail`: `0xFB 0x19`, then a byte for nullability, a label index and the heap types of `from` and
    /// `to`.
    #[inline(always)]
    pub fn br_on_cast_fail(
        self,
        label: u32,
        from: RefType,
        to: RefType,
    ) -> Result<InstructionSink<'a, A>, EncodeError>
        ensures emits { Emits self.entry (after_fb 0x19) (operands.Cast label from to) result }
        ensures* unchanged { sem 𝓛 (IsUnchangedAtErr A.row A.Allocator self.entry result) }
    {
        self.emit_cast(0x19, label, from, to)
    }

    /// `any.convert_extern`: `0xFB 0x1A`.
    #[inline(always)]
    pub fn any_convert_extern(self) -> Result<InstructionSink<'a, A>, EncodeError>
        ensures emits { Emits self.entry (after_fb 0x1a) operands.None result }
        ensures* unchanged { sem 𝓛 (IsUnchangedAtErr A.row A.Allocator self.entry result) }
    {
        self.emit(Prefix::Fb, 0x1a)
    }

    /// `extern.convert_any`: `0xFB 0x1B`.
    #[inline(always)]
    pub fn extern_convert_any(self) -> Result<InstructionSink<'a, A>, EncodeError>
        ensures emits { Emits self.entry (after_fb 0x1b) operands.None result }
        ensures* unchanged { sem 𝓛 (IsUnchangedAtErr A.row A.Allocator self.entry result) }
    {
        self.emit(Prefix::Fb, 0x1b)
    }

    /// `ref.i31`: `0xFB 0x1C`.
    #[inline(always)]
    pub fn ref_i31(self) -> Result<InstructionSink<'a, A>, EncodeError>
        ensures emits { Emits self.entry (after_fb 0x1c) operands.None result }
        ensures* unchanged { sem 𝓛 (IsUnchangedAtErr A.row A.Allocator self.entry result) }
    {
        self.emit(Prefix::Fb, 0x1c)
    }

    /// `i31.get_s`: `0xFB 0x1D`.
    #[inline(always)]
    pub fn i31_get_s(self) -> Result<InstructionSink<'a, A>, EncodeError>
        ensures emits { Emits self.entry (after_fb 0x1d) operands.None result }
        ensures* unchanged { sem 𝓛 (IsUnchangedAtErr A.row A.Allocator self.entry result) }
    {
        self.emit(Prefix::Fb, 0x1d)
    }

    /// `i31.get_u`: `0xFB 0x1E`.
    #[inline(always)]
    pub fn i31_get_u(self) -> Result<InstructionSink<'a, A>, EncodeError>
        ensures emits { Emits self.entry (after_fb 0x1e) operands.None result }
        ensures* unchanged { sem 𝓛 (IsUnchangedAtErr A.row A.Allocator self.entry result) }
    {
        self.emit(Prefix::Fb, 0x1e)
    }

    /// `ref.get_desc`: `0xFB 0x22`, then a type index.
    #[inline(always)]
    pub fn ref_get_desc(self, ty: u32) -> Result<InstructionSink<'a, A>, EncodeError>
        ensures emits { Emits self.entry (after_fb 0x22) (operands.Index ty) result }
        ensures* unchanged { sem 𝓛 (IsUnchangedAtErr A.row A.Allocator self.entry result) }
    {
        self.emit_index(Prefix::Fb, 0x22, ty)
    }

    /// `ref.cast_desc_eq` to a type without null: `0xFB 0x23`, then a heap type.
    #[inline(always)]
    pub fn ref_cast_desc_eq_non_null(
        self,
        heap_type: HeapType,
    ) -> Result<InstructionSink<'a, A>, EncodeError>
        ensures emits { Emits self.entry (after_fb 0x23) (operands.Heap heap_type) result }
        ensures* unchanged { sem 𝓛 (IsUnchangedAtErr A.row A.Allocator self.entry result) }
    {
        self.emit_heap(Prefix::Fb, 0x23, heap_type)
    }

    /// `ref.cast_desc_eq` to a type with null: `0xFB 0x24`, then a heap type.
    #[inline(always)]
    pub fn ref_cast_desc_eq_nullable(
        self,
        heap_type: HeapType,
    ) -> Result<InstructionSink<'a, A>, EncodeError>
        ensures emits { Emits self.entry (after_fb 0x24) (operands.Heap heap_type) result }
        ensures* unchanged { sem 𝓛 (IsUnchangedAtErr A.row A.Allocator self.entry result) }
    {
        self.emit_heap(Prefix::Fb, 0x24, heap_type)
    }

    /// `br_on_cast_desc_eq`: `0xFB 0x25`, then a byte for nullability, a label index and the heap types of `from` and
    /// `to`.
    #[inline(always)]
    pub fn br_on_cast_desc_eq(
        self,
        label: u32,
        from: RefType,
        to: RefType,
    ) -> Result<InstructionSink<'a, A>, EncodeError>
        ensures emits { Emits self.entry (after_fb 0x25) (operands.Cast label from to) result }
        ensures* unchanged { sem 𝓛 (IsUnchangedAtErr A.row A.Allocator self.entry result) }
    {
        self.emit_cast(0x25, label, from, to)
    }

    /// `br_on_cast_desc_eq_fail`: `0xFB 0x26`, then a byte for nullability, a label index and the heap types of `from`
    /// and `to`.
    #[inline(always)]
    pub fn br_on_cast_desc_eq_fail(
        self,
        label: u32,
        from: RefType,
        to: RefType,
    ) -> Result<InstructionSink<'a, A>, EncodeError>
        ensures emits { Emits self.entry (after_fb 0x26) (operands.Cast label from to) result }
        ensures* unchanged { sem 𝓛 (IsUnchangedAtErr A.row A.Allocator self.entry result) }
    {
        self.emit_cast(0x26, label, from, to)
    }
}
