//! Instructions on locals and globals (Core 3.0, Variable Instructions).
ghost use Rattle.std.specs.Borrow.{sem};
ghost use Rattle.wasm_sink.specs.Sink.{IsUnchangedAtErr, Emits};
ghost use Rattle.wasm_instructions.specs.formats.Opcodes.{without_prefix};
ghost use Rattle.wasm_instructions.specs.declared.table.call.Operands.TheVariants as operands;

use crate::sink::InstructionSink;
use std::alloc::Allocator;
use wasm_codec::encode::EncodeError;
use wasm_instructions::table::Prefix;

#[tactic(auto, unfolding(wasm_instructions::specs::formats::Opcodes::ranges))]
impl<'a, A: Allocator> InstructionSink<'a, A> {
    /// `local.get`: `0x20`, then a local index.
    #[inline(always)]
    pub fn local_get(self, local: u32) -> Result<InstructionSink<'a, A>, EncodeError>
        ensures emits { Emits self.entry (without_prefix 0x20) (operands.Index local) result }
        ensures* unchanged { sem 𝓛 (IsUnchangedAtErr A.row A.Allocator self.entry result) }
    {
        self.emit_index(Prefix::None, 0x20, local)
    }

    /// `local.set`: `0x21`, then a local index.
    #[inline(always)]
    pub fn local_set(self, local: u32) -> Result<InstructionSink<'a, A>, EncodeError>
        ensures emits { Emits self.entry (without_prefix 0x21) (operands.Index local) result }
        ensures* unchanged { sem 𝓛 (IsUnchangedAtErr A.row A.Allocator self.entry result) }
    {
        self.emit_index(Prefix::None, 0x21, local)
    }

    /// `local.tee`: `0x22`, then a local index.
    #[inline(always)]
    pub fn local_tee(self, local: u32) -> Result<InstructionSink<'a, A>, EncodeError>
        ensures emits { Emits self.entry (without_prefix 0x22) (operands.Index local) result }
        ensures* unchanged { sem 𝓛 (IsUnchangedAtErr A.row A.Allocator self.entry result) }
    {
        self.emit_index(Prefix::None, 0x22, local)
    }

    /// `global.get`: `0x23`, then a global index.
    #[inline(always)]
    pub fn global_get(self, global: u32) -> Result<InstructionSink<'a, A>, EncodeError>
        ensures emits { Emits self.entry (without_prefix 0x23) (operands.Index global) result }
        ensures* unchanged { sem 𝓛 (IsUnchangedAtErr A.row A.Allocator self.entry result) }
    {
        self.emit_index(Prefix::None, 0x23, global)
    }

    /// `global.set`: `0x24`, then a global index.
    #[inline(always)]
    pub fn global_set(self, global: u32) -> Result<InstructionSink<'a, A>, EncodeError>
        ensures emits { Emits self.entry (without_prefix 0x24) (operands.Index global) result }
        ensures* unchanged { sem 𝓛 (IsUnchangedAtErr A.row A.Allocator self.entry result) }
    {
        self.emit_index(Prefix::None, 0x24, global)
    }
}
