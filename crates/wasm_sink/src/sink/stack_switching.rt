//! Instructions on continuations (stack switching proposal).
ghost use Rattle.std.specs.Borrow.{sem};
ghost use Rattle.std.specs.Iterator.{size};
ghost use Rattle.wasm_sink.specs.Sink.{IsUnchangedAtErr, Emits};
ghost use Rattle.wasm_lists.specs.Iterators.{OfIterator};
ghost use Rattle.wasm_sink.specs.ListCalls.{EmitsItems};
ghost use Rattle.wasm_instructions.specs.formats.Opcodes.{without_prefix};
ghost use Rattle.wasm_instructions.specs.declared.table.call.Operands.TheVariants as operands;

use crate::sink::InstructionSink;
use std::alloc::Allocator;
use wasm_codec::encode::EncodeError;
use wasm_instructions::operands::Handle;
use wasm_instructions::table::Prefix;

#[tactic(auto, unfolding(wasm_instructions::specs::formats::Opcodes::ranges))]
impl<'a, A: Allocator> InstructionSink<'a, A> {
    /// `cont.new`: `0xE0`, then a type index.
    #[inline(always)]
    pub fn cont_new(self, ty: u32) -> Result<InstructionSink<'a, A>, EncodeError>
        ensures emits { Emits self.entry (without_prefix 0xe0) (operands.Index ty) result }
        ensures* unchanged { sem 𝓛 (IsUnchangedAtErr A.row A.Allocator self.entry result) }
    {
        self.emit_index(Prefix::None, 0xe0, ty)
    }

    /// `cont.bind`: `0xE1`, then the argument's type index and the result's type index.
    #[inline(always)]
    pub fn cont_bind(
        self,
        argument_type: u32,
        result_type: u32,
    ) -> Result<InstructionSink<'a, A>, EncodeError>
        ensures emits { Emits self.entry (without_prefix 0xe1) (operands.TwoIndexes argument_type result_type) result }
        ensures* unchanged { sem 𝓛 (IsUnchangedAtErr A.row A.Allocator self.entry result) }
    {
        self.emit_two_indexes(Prefix::None, 0xe1, argument_type, result_type)
    }

    /// `suspend`: `0xE2`, then a tag index.
    #[inline(always)]
    pub fn suspend(self, tag: u32) -> Result<InstructionSink<'a, A>, EncodeError>
        ensures emits { Emits self.entry (without_prefix 0xe2) (operands.Index tag) result }
        ensures* unchanged { sem 𝓛 (IsUnchangedAtErr A.row A.Allocator self.entry result) }
    {
        self.emit_index(Prefix::None, 0xe2, tag)
    }

    /// `resume`: `0xE3`, then a type index and a list of handlers.
    /// `TooLong` where `handlers.len()` is above 4,294,967,295.
    pub fn resume<I: IntoIterator<Item = Handle>>(
        self,
        ty: u32,
        handlers: I,
    ) -> Result<InstructionSink<'a, A>, EncodeError>
    where
        I::IntoIter: ExactSizeIterator,
        requires { (items : I.IntoIter) → I.into_iter_gives handlers items → I.IntoIter.can_next items }
        ensures emits { OfIterator I.into_iter_gives handlers (λ items. EmitsItems I.IntoIter.next_gives self.entry (without_prefix 0xe3) (λ xs. operands.Resume ty xs) items (size (I.IntoIter.remaining items)) result) }
        ensures* unchanged { sem 𝓛 (IsUnchangedAtErr A.row A.Allocator self.entry result) }
    {
        self.emit_resume(0xe3, ty, handlers.into_iter())
    }

    /// `resume_throw`: `0xE4`, then a type index, a tag index and a list of handlers.
    /// `TooLong` where `handlers.len()` is above 4,294,967,295.
    pub fn resume_throw<I: IntoIterator<Item = Handle>>(
        self,
        ty: u32,
        tag: u32,
        handlers: I,
    ) -> Result<InstructionSink<'a, A>, EncodeError>
    where
        I::IntoIter: ExactSizeIterator,
        requires { (items : I.IntoIter) → I.into_iter_gives handlers items → I.IntoIter.can_next items }
        ensures emits { OfIterator I.into_iter_gives handlers (λ items. EmitsItems I.IntoIter.next_gives self.entry (without_prefix 0xe4) (λ xs. operands.ResumeThrow ty tag xs) items (size (I.IntoIter.remaining items)) result) }
        ensures* unchanged { sem 𝓛 (IsUnchangedAtErr A.row A.Allocator self.entry result) }
    {
        self.emit_resume_throw(0xe4, ty, tag, handlers.into_iter())
    }

    /// `resume_throw_ref`: `0xE5`, then a type index and a list of handlers.
    /// `TooLong` where `handlers.len()` is above 4,294,967,295.
    pub fn resume_throw_ref<I: IntoIterator<Item = Handle>>(
        self,
        ty: u32,
        handlers: I,
    ) -> Result<InstructionSink<'a, A>, EncodeError>
    where
        I::IntoIter: ExactSizeIterator,
        requires { (items : I.IntoIter) → I.into_iter_gives handlers items → I.IntoIter.can_next items }
        ensures emits { OfIterator I.into_iter_gives handlers (λ items. EmitsItems I.IntoIter.next_gives self.entry (without_prefix 0xe5) (λ xs. operands.Resume ty xs) items (size (I.IntoIter.remaining items)) result) }
        ensures* unchanged { sem 𝓛 (IsUnchangedAtErr A.row A.Allocator self.entry result) }
    {
        self.emit_resume(0xe5, ty, handlers.into_iter())
    }

    /// `switch`: `0xE6`, then a type index and a tag index.
    #[inline(always)]
    pub fn switch(self, ty: u32, tag: u32) -> Result<InstructionSink<'a, A>, EncodeError>
        ensures emits { Emits self.entry (without_prefix 0xe6) (operands.TwoIndexes ty tag) result }
        ensures* unchanged { sem 𝓛 (IsUnchangedAtErr A.row A.Allocator self.entry result) }
    {
        self.emit_two_indexes(Prefix::None, 0xe6, ty, tag)
    }
}
