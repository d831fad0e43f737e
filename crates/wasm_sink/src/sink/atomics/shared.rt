//! Atomic accesses to globals, tables, structs and arrays, and shared references to 31-bit integers
//! (shared-everything-threads proposal).
ghost use Rattle.std.specs.Borrow.{sem};
ghost use Rattle.wasm_sink.specs.Sink.{IsUnchangedAtErr, Emits};
ghost use Rattle.wasm_instructions.specs.formats.Opcodes.{after_fe};
ghost use Rattle.wasm_instructions.specs.declared.table.call.Operands.TheVariants as operands;

use crate::sink::InstructionSink;
use std::alloc::Allocator;
use wasm_codec::encode::EncodeError;
use wasm_instructions::operands::Ordering;
use wasm_instructions::table::Prefix;

#[tactic(auto, unfolding(wasm_instructions::specs::formats::Opcodes::ranges))]
impl<'a, A: Allocator> InstructionSink<'a, A> {
    /// `global.atomic.get`: `0xFE 0x4F`, then an ordering and a global index.
    #[inline(always)]
    pub fn global_atomic_get(
        self,
        ordering: Ordering,
        global: u32,
    ) -> Result<InstructionSink<'a, A>, EncodeError>
        ensures emits { Emits self.entry (after_fe 0x4f) (operands.OrderIndex ordering global) result }
        ensures* unchanged { sem 𝓛 (IsUnchangedAtErr A.row A.Allocator self.entry result) }
    {
        self.emit_order_index(0x4f, ordering, global)
    }

    /// `global.atomic.set`: `0xFE 0x50`, then an ordering and a global index.
    #[inline(always)]
    pub fn global_atomic_set(
        self,
        ordering: Ordering,
        global: u32,
    ) -> Result<InstructionSink<'a, A>, EncodeError>
        ensures emits { Emits self.entry (after_fe 0x50) (operands.OrderIndex ordering global) result }
        ensures* unchanged { sem 𝓛 (IsUnchangedAtErr A.row A.Allocator self.entry result) }
    {
        self.emit_order_index(0x50, ordering, global)
    }

    /// `global.atomic.rmw.add`: `0xFE 0x51`, then an ordering and a global index.
    #[inline(always)]
    pub fn global_atomic_rmw_add(
        self,
        ordering: Ordering,
        global: u32,
    ) -> Result<InstructionSink<'a, A>, EncodeError>
        ensures emits { Emits self.entry (after_fe 0x51) (operands.OrderIndex ordering global) result }
        ensures* unchanged { sem 𝓛 (IsUnchangedAtErr A.row A.Allocator self.entry result) }
    {
        self.emit_order_index(0x51, ordering, global)
    }

    /// `global.atomic.rmw.sub`: `0xFE 0x52`, then an ordering and a global index.
    #[inline(always)]
    pub fn global_atomic_rmw_sub(
        self,
        ordering: Ordering,
        global: u32,
    ) -> Result<InstructionSink<'a, A>, EncodeError>
        ensures emits { Emits self.entry (after_fe 0x52) (operands.OrderIndex ordering global) result }
        ensures* unchanged { sem 𝓛 (IsUnchangedAtErr A.row A.Allocator self.entry result) }
    {
        self.emit_order_index(0x52, ordering, global)
    }

    /// `global.atomic.rmw.and`: `0xFE 0x53`, then an ordering and a global index.
    #[inline(always)]
    pub fn global_atomic_rmw_and(
        self,
        ordering: Ordering,
        global: u32,
    ) -> Result<InstructionSink<'a, A>, EncodeError>
        ensures emits { Emits self.entry (after_fe 0x53) (operands.OrderIndex ordering global) result }
        ensures* unchanged { sem 𝓛 (IsUnchangedAtErr A.row A.Allocator self.entry result) }
    {
        self.emit_order_index(0x53, ordering, global)
    }

    /// `global.atomic.rmw.or`: `0xFE 0x54`, then an ordering and a global index.
    #[inline(always)]
    pub fn global_atomic_rmw_or(
        self,
        ordering: Ordering,
        global: u32,
    ) -> Result<InstructionSink<'a, A>, EncodeError>
        ensures emits { Emits self.entry (after_fe 0x54) (operands.OrderIndex ordering global) result }
        ensures* unchanged { sem 𝓛 (IsUnchangedAtErr A.row A.Allocator self.entry result) }
    {
        self.emit_order_index(0x54, ordering, global)
    }

    /// `global.atomic.rmw.xor`: `0xFE 0x55`, then an ordering and a global index.
    #[inline(always)]
    pub fn global_atomic_rmw_xor(
        self,
        ordering: Ordering,
        global: u32,
    ) -> Result<InstructionSink<'a, A>, EncodeError>
        ensures emits { Emits self.entry (after_fe 0x55) (operands.OrderIndex ordering global) result }
        ensures* unchanged { sem 𝓛 (IsUnchangedAtErr A.row A.Allocator self.entry result) }
    {
        self.emit_order_index(0x55, ordering, global)
    }

    /// `global.atomic.rmw.xchg`: `0xFE 0x56`, then an ordering and a global index.
    #[inline(always)]
    pub fn global_atomic_rmw_xchg(
        self,
        ordering: Ordering,
        global: u32,
    ) -> Result<InstructionSink<'a, A>, EncodeError>
        ensures emits { Emits self.entry (after_fe 0x56) (operands.OrderIndex ordering global) result }
        ensures* unchanged { sem 𝓛 (IsUnchangedAtErr A.row A.Allocator self.entry result) }
    {
        self.emit_order_index(0x56, ordering, global)
    }

    /// `global.atomic.rmw.cmpxchg`: `0xFE 0x57`, then an ordering and a global index.
    #[inline(always)]
    pub fn global_atomic_rmw_cmpxchg(
        self,
        ordering: Ordering,
        global: u32,
    ) -> Result<InstructionSink<'a, A>, EncodeError>
        ensures emits { Emits self.entry (after_fe 0x57) (operands.OrderIndex ordering global) result }
        ensures* unchanged { sem 𝓛 (IsUnchangedAtErr A.row A.Allocator self.entry result) }
    {
        self.emit_order_index(0x57, ordering, global)
    }

    /// `table.atomic.get`: `0xFE 0x58`, then an ordering and a table index.
    #[inline(always)]
    pub fn table_atomic_get(
        self,
        ordering: Ordering,
        table: u32,
    ) -> Result<InstructionSink<'a, A>, EncodeError>
        ensures emits { Emits self.entry (after_fe 0x58) (operands.OrderIndex ordering table) result }
        ensures* unchanged { sem 𝓛 (IsUnchangedAtErr A.row A.Allocator self.entry result) }
    {
        self.emit_order_index(0x58, ordering, table)
    }

    /// `table.atomic.set`: `0xFE 0x59`, then an ordering and a table index.
    #[inline(always)]
    pub fn table_atomic_set(
        self,
        ordering: Ordering,
        table: u32,
    ) -> Result<InstructionSink<'a, A>, EncodeError>
        ensures emits { Emits self.entry (after_fe 0x59) (operands.OrderIndex ordering table) result }
        ensures* unchanged { sem 𝓛 (IsUnchangedAtErr A.row A.Allocator self.entry result) }
    {
        self.emit_order_index(0x59, ordering, table)
    }

    /// `table.atomic.rmw.xchg`: `0xFE 0x5A`, then an ordering and a table index.
    #[inline(always)]
    pub fn table_atomic_rmw_xchg(
        self,
        ordering: Ordering,
        table: u32,
    ) -> Result<InstructionSink<'a, A>, EncodeError>
        ensures emits { Emits self.entry (after_fe 0x5a) (operands.OrderIndex ordering table) result }
        ensures* unchanged { sem 𝓛 (IsUnchangedAtErr A.row A.Allocator self.entry result) }
    {
        self.emit_order_index(0x5a, ordering, table)
    }

    /// `table.atomic.rmw.cmpxchg`: `0xFE 0x5B`, then an ordering and a table index.
    #[inline(always)]
    pub fn table_atomic_rmw_cmpxchg(
        self,
        ordering: Ordering,
        table: u32,
    ) -> Result<InstructionSink<'a, A>, EncodeError>
        ensures emits { Emits self.entry (after_fe 0x5b) (operands.OrderIndex ordering table) result }
        ensures* unchanged { sem 𝓛 (IsUnchangedAtErr A.row A.Allocator self.entry result) }
    {
        self.emit_order_index(0x5b, ordering, table)
    }

    /// `struct.atomic.get`: `0xFE 0x5C`, then an ordering, a type index and a field index.
    #[inline(always)]
    pub fn struct_atomic_get(
        self,
        ordering: Ordering,
        ty: u32,
        field: u32,
    ) -> Result<InstructionSink<'a, A>, EncodeError>
        ensures emits { Emits self.entry (after_fe 0x5c) (operands.OrderTwoIndexes ordering ty field) result }
        ensures* unchanged { sem 𝓛 (IsUnchangedAtErr A.row A.Allocator self.entry result) }
    {
        self.emit_order_two_indexes(0x5c, ordering, ty, field)
    }

    /// `struct.atomic.get_s`: `0xFE 0x5D`, then an ordering, a type index and a field index.
    #[inline(always)]
    pub fn struct_atomic_get_s(
        self,
        ordering: Ordering,
        ty: u32,
        field: u32,
    ) -> Result<InstructionSink<'a, A>, EncodeError>
        ensures emits { Emits self.entry (after_fe 0x5d) (operands.OrderTwoIndexes ordering ty field) result }
        ensures* unchanged { sem 𝓛 (IsUnchangedAtErr A.row A.Allocator self.entry result) }
    {
        self.emit_order_two_indexes(0x5d, ordering, ty, field)
    }

    /// `struct.atomic.get_u`: `0xFE 0x5E`, then an ordering, a type index and a field index.
    #[inline(always)]
    pub fn struct_atomic_get_u(
        self,
        ordering: Ordering,
        ty: u32,
        field: u32,
    ) -> Result<InstructionSink<'a, A>, EncodeError>
        ensures emits { Emits self.entry (after_fe 0x5e) (operands.OrderTwoIndexes ordering ty field) result }
        ensures* unchanged { sem 𝓛 (IsUnchangedAtErr A.row A.Allocator self.entry result) }
    {
        self.emit_order_two_indexes(0x5e, ordering, ty, field)
    }

    /// `struct.atomic.set`: `0xFE 0x5F`, then an ordering, a type index and a field index.
    #[inline(always)]
    pub fn struct_atomic_set(
        self,
        ordering: Ordering,
        ty: u32,
        field: u32,
    ) -> Result<InstructionSink<'a, A>, EncodeError>
        ensures emits { Emits self.entry (after_fe 0x5f) (operands.OrderTwoIndexes ordering ty field) result }
        ensures* unchanged { sem 𝓛 (IsUnchangedAtErr A.row A.Allocator self.entry result) }
    {
        self.emit_order_two_indexes(0x5f, ordering, ty, field)
    }

    /// `struct.atomic.rmw.add`: `0xFE 0x60`, then an ordering, a type index and a field index.
    #[inline(always)]
    pub fn struct_atomic_rmw_add(
        self,
        ordering: Ordering,
        ty: u32,
        field: u32,
    ) -> Result<InstructionSink<'a, A>, EncodeError>
        ensures emits { Emits self.entry (after_fe 0x60) (operands.OrderTwoIndexes ordering ty field) result }
        ensures* unchanged { sem 𝓛 (IsUnchangedAtErr A.row A.Allocator self.entry result) }
    {
        self.emit_order_two_indexes(0x60, ordering, ty, field)
    }

    /// `struct.atomic.rmw.sub`: `0xFE 0x61`, then an ordering, a type index and a field index.
    #[inline(always)]
    pub fn struct_atomic_rmw_sub(
        self,
        ordering: Ordering,
        ty: u32,
        field: u32,
    ) -> Result<InstructionSink<'a, A>, EncodeError>
        ensures emits { Emits self.entry (after_fe 0x61) (operands.OrderTwoIndexes ordering ty field) result }
        ensures* unchanged { sem 𝓛 (IsUnchangedAtErr A.row A.Allocator self.entry result) }
    {
        self.emit_order_two_indexes(0x61, ordering, ty, field)
    }

    /// `struct.atomic.rmw.and`: `0xFE 0x62`, then an ordering, a type index and a field index.
    #[inline(always)]
    pub fn struct_atomic_rmw_and(
        self,
        ordering: Ordering,
        ty: u32,
        field: u32,
    ) -> Result<InstructionSink<'a, A>, EncodeError>
        ensures emits { Emits self.entry (after_fe 0x62) (operands.OrderTwoIndexes ordering ty field) result }
        ensures* unchanged { sem 𝓛 (IsUnchangedAtErr A.row A.Allocator self.entry result) }
    {
        self.emit_order_two_indexes(0x62, ordering, ty, field)
    }

    /// `struct.atomic.rmw.or`: `0xFE 0x63`, then an ordering, a type index and a field index.
    #[inline(always)]
    pub fn struct_atomic_rmw_or(
        self,
        ordering: Ordering,
        ty: u32,
        field: u32,
    ) -> Result<InstructionSink<'a, A>, EncodeError>
        ensures emits { Emits self.entry (after_fe 0x63) (operands.OrderTwoIndexes ordering ty field) result }
        ensures* unchanged { sem 𝓛 (IsUnchangedAtErr A.row A.Allocator self.entry result) }
    {
        self.emit_order_two_indexes(0x63, ordering, ty, field)
    }

    /// `struct.atomic.rmw.xor`: `0xFE 0x64`, then an ordering, a type index and a field index.
    #[inline(always)]
    pub fn struct_atomic_rmw_xor(
        self,
        ordering: Ordering,
        ty: u32,
        field: u32,
    ) -> Result<InstructionSink<'a, A>, EncodeError>
        ensures emits { Emits self.entry (after_fe 0x64) (operands.OrderTwoIndexes ordering ty field) result }
        ensures* unchanged { sem 𝓛 (IsUnchangedAtErr A.row A.Allocator self.entry result) }
    {
        self.emit_order_two_indexes(0x64, ordering, ty, field)
    }

    /// `struct.atomic.rmw.xchg`: `0xFE 0x65`, then an ordering, a type index and a field index.
    #[inline(always)]
    pub fn struct_atomic_rmw_xchg(
        self,
        ordering: Ordering,
        ty: u32,
        field: u32,
    ) -> Result<InstructionSink<'a, A>, EncodeError>
        ensures emits { Emits self.entry (after_fe 0x65) (operands.OrderTwoIndexes ordering ty field) result }
        ensures* unchanged { sem 𝓛 (IsUnchangedAtErr A.row A.Allocator self.entry result) }
    {
        self.emit_order_two_indexes(0x65, ordering, ty, field)
    }

    /// `struct.atomic.rmw.cmpxchg`: `0xFE 0x66`, then an ordering, a type index and a field index.
    #[inline(always)]
    pub fn struct_atomic_rmw_cmpxchg(
        self,
        ordering: Ordering,
        ty: u32,
        field: u32,
    ) -> Result<InstructionSink<'a, A>, EncodeError>
        ensures emits { Emits self.entry (after_fe 0x66) (operands.OrderTwoIndexes ordering ty field) result }
        ensures* unchanged { sem 𝓛 (IsUnchangedAtErr A.row A.Allocator self.entry result) }
    {
        self.emit_order_two_indexes(0x66, ordering, ty, field)
    }

    /// `array.atomic.get`: `0xFE 0x67`, then an ordering and a type index.
    #[inline(always)]
    pub fn array_atomic_get(
        self,
        ordering: Ordering,
        ty: u32,
    ) -> Result<InstructionSink<'a, A>, EncodeError>
        ensures emits { Emits self.entry (after_fe 0x67) (operands.OrderIndex ordering ty) result }
        ensures* unchanged { sem 𝓛 (IsUnchangedAtErr A.row A.Allocator self.entry result) }
    {
        self.emit_order_index(0x67, ordering, ty)
    }

    /// `array.atomic.get_s`: `0xFE 0x68`, then an ordering and a type index.
    #[inline(always)]
    pub fn array_atomic_get_s(
        self,
        ordering: Ordering,
        ty: u32,
    ) -> Result<InstructionSink<'a, A>, EncodeError>
        ensures emits { Emits self.entry (after_fe 0x68) (operands.OrderIndex ordering ty) result }
        ensures* unchanged { sem 𝓛 (IsUnchangedAtErr A.row A.Allocator self.entry result) }
    {
        self.emit_order_index(0x68, ordering, ty)
    }

    /// `array.atomic.get_u`: `0xFE 0x69`, then an ordering and a type index.
    #[inline(always)]
    pub fn array_atomic_get_u(
        self,
        ordering: Ordering,
        ty: u32,
    ) -> Result<InstructionSink<'a, A>, EncodeError>
        ensures emits { Emits self.entry (after_fe 0x69) (operands.OrderIndex ordering ty) result }
        ensures* unchanged { sem 𝓛 (IsUnchangedAtErr A.row A.Allocator self.entry result) }
    {
        self.emit_order_index(0x69, ordering, ty)
    }

    /// `array.atomic.set`: `0xFE 0x6A`, then an ordering and a type index.
    #[inline(always)]
    pub fn array_atomic_set(
        self,
        ordering: Ordering,
        ty: u32,
    ) -> Result<InstructionSink<'a, A>, EncodeError>
        ensures emits { Emits self.entry (after_fe 0x6a) (operands.OrderIndex ordering ty) result }
        ensures* unchanged { sem 𝓛 (IsUnchangedAtErr A.row A.Allocator self.entry result) }
    {
        self.emit_order_index(0x6a, ordering, ty)
    }

    /// `array.atomic.rmw.add`: `0xFE 0x6B`, then an ordering and a type index.
    #[inline(always)]
    pub fn array_atomic_rmw_add(
        self,
        ordering: Ordering,
        ty: u32,
    ) -> Result<InstructionSink<'a, A>, EncodeError>
        ensures emits { Emits self.entry (after_fe 0x6b) (operands.OrderIndex ordering ty) result }
        ensures* unchanged { sem 𝓛 (IsUnchangedAtErr A.row A.Allocator self.entry result) }
    {
        self.emit_order_index(0x6b, ordering, ty)
    }

    /// `array.atomic.rmw.sub`: `0xFE 0x6C`, then an ordering and a type index.
    #[inline(always)]
    pub fn array_atomic_rmw_sub(
        self,
        ordering: Ordering,
        ty: u32,
    ) -> Result<InstructionSink<'a, A>, EncodeError>
        ensures emits { Emits self.entry (after_fe 0x6c) (operands.OrderIndex ordering ty) result }
        ensures* unchanged { sem 𝓛 (IsUnchangedAtErr A.row A.Allocator self.entry result) }
    {
        self.emit_order_index(0x6c, ordering, ty)
    }

    /// `array.atomic.rmw.and`: `0xFE 0x6D`, then an ordering and a type index.
    #[inline(always)]
    pub fn array_atomic_rmw_and(
        self,
        ordering: Ordering,
        ty: u32,
    ) -> Result<InstructionSink<'a, A>, EncodeError>
        ensures emits { Emits self.entry (after_fe 0x6d) (operands.OrderIndex ordering ty) result }
        ensures* unchanged { sem 𝓛 (IsUnchangedAtErr A.row A.Allocator self.entry result) }
    {
        self.emit_order_index(0x6d, ordering, ty)
    }

    /// `array.atomic.rmw.or`: `0xFE 0x6E`, then an ordering and a type index.
    #[inline(always)]
    pub fn array_atomic_rmw_or(
        self,
        ordering: Ordering,
        ty: u32,
    ) -> Result<InstructionSink<'a, A>, EncodeError>
        ensures emits { Emits self.entry (after_fe 0x6e) (operands.OrderIndex ordering ty) result }
        ensures* unchanged { sem 𝓛 (IsUnchangedAtErr A.row A.Allocator self.entry result) }
    {
        self.emit_order_index(0x6e, ordering, ty)
    }

    /// `array.atomic.rmw.xor`: `0xFE 0x6F`, then an ordering and a type index.
    #[inline(always)]
    pub fn array_atomic_rmw_xor(
        self,
        ordering: Ordering,
        ty: u32,
    ) -> Result<InstructionSink<'a, A>, EncodeError>
        ensures emits { Emits self.entry (after_fe 0x6f) (operands.OrderIndex ordering ty) result }
        ensures* unchanged { sem 𝓛 (IsUnchangedAtErr A.row A.Allocator self.entry result) }
    {
        self.emit_order_index(0x6f, ordering, ty)
    }

    /// `array.atomic.rmw.xchg`: `0xFE 0x70`, then an ordering and a type index.
    #[inline(always)]
    pub fn array_atomic_rmw_xchg(
        self,
        ordering: Ordering,
        ty: u32,
    ) -> Result<InstructionSink<'a, A>, EncodeError>
        ensures emits { Emits self.entry (after_fe 0x70) (operands.OrderIndex ordering ty) result }
        ensures* unchanged { sem 𝓛 (IsUnchangedAtErr A.row A.Allocator self.entry result) }
    {
        self.emit_order_index(0x70, ordering, ty)
    }

    /// `array.atomic.rmw.cmpxchg`: `0xFE 0x71`, then an ordering and a type index.
    #[inline(always)]
    pub fn array_atomic_rmw_cmpxchg(
        self,
        ordering: Ordering,
        ty: u32,
    ) -> Result<InstructionSink<'a, A>, EncodeError>
        ensures emits { Emits self.entry (after_fe 0x71) (operands.OrderIndex ordering ty) result }
        ensures* unchanged { sem 𝓛 (IsUnchangedAtErr A.row A.Allocator self.entry result) }
    {
        self.emit_order_index(0x71, ordering, ty)
    }

    /// `ref.i31_shared`: `0xFE 0x72`.
    #[inline(always)]
    pub fn ref_i31_shared(self) -> Result<InstructionSink<'a, A>, EncodeError>
        ensures emits { Emits self.entry (after_fe 0x72) operands.None result }
        ensures* unchanged { sem 𝓛 (IsUnchangedAtErr A.row A.Allocator self.entry result) }
    {
        self.emit(Prefix::Fe, 0x72)
    }
}
