//! Control instructions (Core 3.0, Control Instructions), and `try`, `catch`, `rethrow`, `delegate` and `catch_all`,
//! which `try_table` replaces.
ghost use Rattle.std.specs.Borrow.{sem};
ghost use Rattle.std.specs.Iterator.{size};
ghost use Rattle.wasm_sink.specs.Sink.{IsUnchangedAtErr, Emits};
ghost use Rattle.wasm_lists.specs.Iterators.{OfIterator};
ghost use Rattle.wasm_sink.specs.ListCalls.{EmitsItems};
ghost use Rattle.wasm_instructions.specs.formats.Opcodes.{without_prefix};
ghost use Rattle.wasm_instructions.specs.declared.table.call.Operands.TheVariants as operands;

use crate::sink::InstructionSink;
use std::alloc::Allocator;
use wasm_codec::encode::EncodeError;
use wasm_instructions::operands::{BlockType, Catch};
use wasm_instructions::table::Prefix;

#[tactic(auto, unfolding(wasm_instructions::specs::formats::Opcodes::ranges))]
impl<'a, A: Allocator> InstructionSink<'a, A> {
    /// `unreachable`: `0x00`.
    #[inline(always)]
    pub fn unreachable(self) -> Result<InstructionSink<'a, A>, EncodeError>
        ensures emits { Emits self.entry (without_prefix 0x00) operands.None result }
        ensures* unchanged { sem 𝓛 (IsUnchangedAtErr A.row A.Allocator self.entry result) }
    {
        self.emit(Prefix::None, 0x00)
    }

    /// `nop`: `0x01`.
    #[inline(always)]
    pub fn nop(self) -> Result<InstructionSink<'a, A>, EncodeError>
        ensures emits { Emits self.entry (without_prefix 0x01) operands.None result }
        ensures* unchanged { sem 𝓛 (IsUnchangedAtErr A.row A.Allocator self.entry result) }
    {
        self.emit(Prefix::None, 0x01)
    }

    /// `block`: `0x02`, then a block type.
    #[inline(always)]
    pub fn block(self, block_type: BlockType) -> Result<InstructionSink<'a, A>, EncodeError>
        ensures emits { Emits self.entry (without_prefix 0x02) (operands.Block block_type) result }
        ensures* unchanged { sem 𝓛 (IsUnchangedAtErr A.row A.Allocator self.entry result) }
    {
        self.emit_block(0x02, block_type)
    }

    /// `loop`: `0x03`, then a block type.
    #[inline(always)]
    pub fn loop_(self, block_type: BlockType) -> Result<InstructionSink<'a, A>, EncodeError>
        ensures emits { Emits self.entry (without_prefix 0x03) (operands.Block block_type) result }
        ensures* unchanged { sem 𝓛 (IsUnchangedAtErr A.row A.Allocator self.entry result) }
    {
        self.emit_block(0x03, block_type)
    }

    /// `if`: `0x04`, then a block type.
    #[inline(always)]
    pub fn if_(self, block_type: BlockType) -> Result<InstructionSink<'a, A>, EncodeError>
        ensures emits { Emits self.entry (without_prefix 0x04) (operands.Block block_type) result }
        ensures* unchanged { sem 𝓛 (IsUnchangedAtErr A.row A.Allocator self.entry result) }
    {
        self.emit_block(0x04, block_type)
    }

    /// `else`: `0x05`.
    #[inline(always)]
    pub fn else_(self) -> Result<InstructionSink<'a, A>, EncodeError>
        ensures emits { Emits self.entry (without_prefix 0x05) operands.None result }
        ensures* unchanged { sem 𝓛 (IsUnchangedAtErr A.row A.Allocator self.entry result) }
    {
        self.emit(Prefix::None, 0x05)
    }

    /// `try`: `0x06`, then a block type.
    #[inline(always)]
    pub fn try_(self, block_type: BlockType) -> Result<InstructionSink<'a, A>, EncodeError>
        ensures emits { Emits self.entry (without_prefix 0x06) (operands.Block block_type) result }
        ensures* unchanged { sem 𝓛 (IsUnchangedAtErr A.row A.Allocator self.entry result) }
    {
        self.emit_block(0x06, block_type)
    }

    /// `catch`: `0x07`, then a tag index.
    #[inline(always)]
    pub fn catch(self, tag: u32) -> Result<InstructionSink<'a, A>, EncodeError>
        ensures emits { Emits self.entry (without_prefix 0x07) (operands.Index tag) result }
        ensures* unchanged { sem 𝓛 (IsUnchangedAtErr A.row A.Allocator self.entry result) }
    {
        self.emit_index(Prefix::None, 0x07, tag)
    }

    /// `throw`: `0x08`, then a tag index.
    #[inline(always)]
    pub fn throw(self, tag: u32) -> Result<InstructionSink<'a, A>, EncodeError>
        ensures emits { Emits self.entry (without_prefix 0x08) (operands.Index tag) result }
        ensures* unchanged { sem 𝓛 (IsUnchangedAtErr A.row A.Allocator self.entry result) }
    {
        self.emit_index(Prefix::None, 0x08, tag)
    }

    /// `rethrow`: `0x09`, then a label index.
    #[inline(always)]
    pub fn rethrow(self, label: u32) -> Result<InstructionSink<'a, A>, EncodeError>
        ensures emits { Emits self.entry (without_prefix 0x09) (operands.Index label) result }
        ensures* unchanged { sem 𝓛 (IsUnchangedAtErr A.row A.Allocator self.entry result) }
    {
        self.emit_index(Prefix::None, 0x09, label)
    }

    /// `throw_ref`: `0x0A`.
    #[inline(always)]
    pub fn throw_ref(self) -> Result<InstructionSink<'a, A>, EncodeError>
        ensures emits { Emits self.entry (without_prefix 0x0a) operands.None result }
        ensures* unchanged { sem 𝓛 (IsUnchangedAtErr A.row A.Allocator self.entry result) }
    {
        self.emit(Prefix::None, 0x0a)
    }

    /// `end`: `0x0B`.
    #[inline(always)]
    pub fn end(self) -> Result<InstructionSink<'a, A>, EncodeError>
        ensures emits { Emits self.entry (without_prefix 0x0b) operands.None result }
        ensures* unchanged { sem 𝓛 (IsUnchangedAtErr A.row A.Allocator self.entry result) }
    {
        self.emit(Prefix::None, 0x0b)
    }

    /// `br`: `0x0C`, then a label index.
    #[inline(always)]
    pub fn br(self, label: u32) -> Result<InstructionSink<'a, A>, EncodeError>
        ensures emits { Emits self.entry (without_prefix 0x0c) (operands.Index label) result }
        ensures* unchanged { sem 𝓛 (IsUnchangedAtErr A.row A.Allocator self.entry result) }
    {
        self.emit_index(Prefix::None, 0x0c, label)
    }

    /// `br_if`: `0x0D`, then a label index.
    #[inline(always)]
    pub fn br_if(self, label: u32) -> Result<InstructionSink<'a, A>, EncodeError>
        ensures emits { Emits self.entry (without_prefix 0x0d) (operands.Index label) result }
        ensures* unchanged { sem 𝓛 (IsUnchangedAtErr A.row A.Allocator self.entry result) }
    {
        self.emit_index(Prefix::None, 0x0d, label)
    }

    /// `br_table`: `0x0E`, then a list of label indexes and the default's label index.
    /// `TooLong` where `labels.len()` is above 4,294,967,295.
    pub fn br_table<I: IntoIterator<Item = u32>>(
        self,
        labels: I,
        default: u32,
    ) -> Result<InstructionSink<'a, A>, EncodeError>
    where
        I::IntoIter: ExactSizeIterator,
        requires { (items : I.IntoIter) → I.into_iter_gives labels items → I.IntoIter.can_next items }
        ensures emits { OfIterator I.into_iter_gives labels (λ items. EmitsItems I.IntoIter.next_gives self.entry (without_prefix 0x0e) (λ xs. operands.BrTable xs default) items (size (I.IntoIter.remaining items)) result) }
        ensures* unchanged { sem 𝓛 (IsUnchangedAtErr A.row A.Allocator self.entry result) }
    {
        self.emit_branch_table(0x0e, labels.into_iter(), default)
    }

    /// `return`: `0x0F`.
    #[inline(always)]
    pub fn return_(self) -> Result<InstructionSink<'a, A>, EncodeError>
        ensures emits { Emits self.entry (without_prefix 0x0f) operands.None result }
        ensures* unchanged { sem 𝓛 (IsUnchangedAtErr A.row A.Allocator self.entry result) }
    {
        self.emit(Prefix::None, 0x0f)
    }

    /// `call`: `0x10`, then a function index.
    #[inline(always)]
    pub fn call(self, function: u32) -> Result<InstructionSink<'a, A>, EncodeError>
        ensures emits { Emits self.entry (without_prefix 0x10) (operands.Index function) result }
        ensures* unchanged { sem 𝓛 (IsUnchangedAtErr A.row A.Allocator self.entry result) }
    {
        self.emit_index(Prefix::None, 0x10, function)
    }

    /// `call_indirect`: `0x11`, then a type index and a table index.
    #[inline(always)]
    pub fn call_indirect(self, table: u32, ty: u32) -> Result<InstructionSink<'a, A>, EncodeError>
        ensures emits { Emits self.entry (without_prefix 0x11) (operands.TwoIndexes ty table) result }
        ensures* unchanged { sem 𝓛 (IsUnchangedAtErr A.row A.Allocator self.entry result) }
    {
        self.emit_two_indexes(Prefix::None, 0x11, ty, table)
    }

    /// `return_call`: `0x12`, then a function index.
    #[inline(always)]
    pub fn return_call(self, function: u32) -> Result<InstructionSink<'a, A>, EncodeError>
        ensures emits { Emits self.entry (without_prefix 0x12) (operands.Index function) result }
        ensures* unchanged { sem 𝓛 (IsUnchangedAtErr A.row A.Allocator self.entry result) }
    {
        self.emit_index(Prefix::None, 0x12, function)
    }

    /// `return_call_indirect`: `0x13`, then a type index and a table index.
    #[inline(always)]
    pub fn return_call_indirect(
        self,
        table: u32,
        ty: u32,
    ) -> Result<InstructionSink<'a, A>, EncodeError>
        ensures emits { Emits self.entry (without_prefix 0x13) (operands.TwoIndexes ty table) result }
        ensures* unchanged { sem 𝓛 (IsUnchangedAtErr A.row A.Allocator self.entry result) }
    {
        self.emit_two_indexes(Prefix::None, 0x13, ty, table)
    }

    /// `call_ref`: `0x14`, then a type index.
    #[inline(always)]
    pub fn call_ref(self, ty: u32) -> Result<InstructionSink<'a, A>, EncodeError>
        ensures emits { Emits self.entry (without_prefix 0x14) (operands.Index ty) result }
        ensures* unchanged { sem 𝓛 (IsUnchangedAtErr A.row A.Allocator self.entry result) }
    {
        self.emit_index(Prefix::None, 0x14, ty)
    }

    /// `return_call_ref`: `0x15`, then a type index.
    #[inline(always)]
    pub fn return_call_ref(self, ty: u32) -> Result<InstructionSink<'a, A>, EncodeError>
        ensures emits { Emits self.entry (without_prefix 0x15) (operands.Index ty) result }
        ensures* unchanged { sem 𝓛 (IsUnchangedAtErr A.row A.Allocator self.entry result) }
    {
        self.emit_index(Prefix::None, 0x15, ty)
    }

    /// `delegate`: `0x18`, then a label index.
    #[inline(always)]
    pub fn delegate(self, label: u32) -> Result<InstructionSink<'a, A>, EncodeError>
        ensures emits { Emits self.entry (without_prefix 0x18) (operands.Index label) result }
        ensures* unchanged { sem 𝓛 (IsUnchangedAtErr A.row A.Allocator self.entry result) }
    {
        self.emit_index(Prefix::None, 0x18, label)
    }

    /// `catch_all`: `0x19`.
    #[inline(always)]
    pub fn catch_all(self) -> Result<InstructionSink<'a, A>, EncodeError>
        ensures emits { Emits self.entry (without_prefix 0x19) operands.None result }
        ensures* unchanged { sem 𝓛 (IsUnchangedAtErr A.row A.Allocator self.entry result) }
    {
        self.emit(Prefix::None, 0x19)
    }

    /// `try_table`: `0x1F`, then a block type and a list of catch clauses.
    /// `TooLong` where `clauses.len()` is above 4,294,967,295.
    pub fn try_table<I: IntoIterator<Item = Catch>>(
        self,
        block_type: BlockType,
        clauses: I,
    ) -> Result<InstructionSink<'a, A>, EncodeError>
    where
        I::IntoIter: ExactSizeIterator,
        requires { (items : I.IntoIter) → I.into_iter_gives clauses items → I.IntoIter.can_next items }
        ensures emits { OfIterator I.into_iter_gives clauses (λ items. EmitsItems I.IntoIter.next_gives self.entry (without_prefix 0x1f) (λ xs. operands.TryTable block_type xs) items (size (I.IntoIter.remaining items)) result) }
        ensures* unchanged { sem 𝓛 (IsUnchangedAtErr A.row A.Allocator self.entry result) }
    {
        self.emit_try_table(0x1f, block_type, clauses.into_iter())
    }
}
