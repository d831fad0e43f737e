//! `drop` and `select` (Core 3.0, Parametric Instructions).
ghost use Rattle.std.specs.Prelude.{◌∷◌, [], length};
ghost use Rattle.std.specs.Borrow.{sem};
ghost use Rattle.wasm_sink.specs.Sink.{IsUnchangedAtErr, Emits};
ghost use Rattle.wasm_sink.specs.ListCalls.{EmitsList};
ghost use Rattle.wasm_instructions.specs.formats.Opcodes.{without_prefix};
ghost use Rattle.wasm_instructions.specs.declared.table.call.Operands.TheVariants as operands;

use crate::sink::InstructionSink;
use std::alloc::Allocator;
use wasm_codec::encode::EncodeError;
use wasm_instructions::table::Prefix;
use wasm_types::types::ValType;

#[tactic(auto, unfolding(wasm_instructions::specs::formats::Opcodes::ranges))]
impl<'a, A: Allocator> InstructionSink<'a, A> {
    /// `drop`: `0x1A`.
    #[inline(always)]
    pub fn drop(self) -> Result<InstructionSink<'a, A>, EncodeError>
        ensures emits { Emits self.entry (without_prefix 0x1a) operands.None result }
        ensures* unchanged { sem 𝓛 (IsUnchangedAtErr A.row A.Allocator self.entry result) }
    {
        self.emit(Prefix::None, 0x1a)
    }

    /// `select`: `0x1B`.
    #[inline(always)]
    pub fn select(self) -> Result<InstructionSink<'a, A>, EncodeError>
        ensures emits { Emits self.entry (without_prefix 0x1b) operands.None result }
        ensures* unchanged { sem 𝓛 (IsUnchangedAtErr A.row A.Allocator self.entry result) }
    {
        self.emit(Prefix::None, 0x1b)
    }

    /// `select` with one type: `0x1C`, then a list of one value type.
    #[inline(always)]
    pub fn typed_select(self, ty: ValType) -> Result<InstructionSink<'a, A>, EncodeError>
        ensures emits { Emits self.entry (without_prefix 0x1c) (operands.Types (ty ∷ [])) result }
        ensures* unchanged { sem 𝓛 (IsUnchangedAtErr A.row A.Allocator self.entry result) }
    {
        self.emit_type(0x1c, ty)
    }

    /// `select` with a list of types: `0x1C`, then a list of value types.
    /// `TooLong` where `types.len()` is above 4,294,967,295.
    pub fn typed_select_multi(
        self,
        types: &[ValType],
    ) -> Result<InstructionSink<'a, A>, EncodeError>
        ensures emits { EmitsList self.entry (without_prefix 0x1c) (operands.Types types.now) (length types.now) result }
        ensures* unchanged { sem 𝓛 (IsUnchangedAtErr A.row A.Allocator self.entry result) }
    {
        self.emit_types(0x1c, types)
    }
}
