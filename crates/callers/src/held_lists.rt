//! Lists of types, locals and labels, passed as iterators over slices and vectors.
ghost use Rattle.std.specs.Prelude.{◌≡◌, ◌++◌, ◌∷◌, [], List, IfOk, OnOk};
ghost use Rattle.wasm_encoder.specs.CodeSections.{FunctionStandsFor, body_of};
ghost use Rattle.wasm_encoder.specs.InstructionFormats.{instruction};
ghost use Rattle.wasm_encoder.specs.TypeSections.{StandsFor, final_entry};
ghost use Rattle.wasm_instructions.specs.formats.Instructions.{call};
ghost use Rattle.wasm_instructions.specs.formats.Opcodes.{without_prefix};
ghost use Rattle.wasm_instructions.specs.declared.table.call.Operands.TheVariants as operands;
ghost use Rattle.wasm_types.specs.declared.types.composite.CompositeInnerType.TheVariants as inner;
ghost use Rattle.wasm_types.specs.declared.types.recursive.TypeEntry.{TypeEntry};
ghost use Rattle.wasm_types.specs.declared.types.recursive.TypeEntry.TheVariants as entries;

use crate::whole_way::{function, group};
use std::alloc::Global;
use wasm_encoder::{
    EncodeError, Function, InstructionSink, SubType, TypeEntry, TypeSection, ValType,
};

/// Adds a function type with these parameters and results.
pub fn function_of_slices(
    section: &mut TypeSection,
    params: &[ValType],
    results: &[ValType],
) -> Result<(), EncodeError>
    ensures { (before : List TypeEntry) → StandsFor section.old before →
        OnOk result (StandsFor section.new (before ++
        final_entry (inner.Func (record { params = params.now; results = results.now })) ∷ [])) }
{
    function(section, params.iter().copied(), results.iter().copied())
}

/// Adds a recursion group of these types.
pub fn group_of_vec(section: &mut TypeSection, types: Vec<SubType>) -> Result<(), EncodeError>
    ensures { (before : List TypeEntry) → StandsFor section.old before →
        OnOk result (StandsFor section.new (before ++ entries.Rec types.items ∷ [])) }
{
    group(section, types.into_iter())
}

/// Returns a function with these locals and no instructions.
pub fn function_of_locals(alloc: Global, locals: &[(u32, ValType)]) -> Result<Function, EncodeError>
    ensures { IfOk result (λ function. FunctionStandsFor function (body_of locals.now [])) }
{
    Function::new(alloc, locals.iter().copied())
}

/// Gives the function these locals and no instructions.
pub fn restarted(function: &mut Function, locals: &[(u32, ValType)]) -> Result<(), EncodeError>
    ensures { OnOk result (FunctionStandsFor function.new (body_of locals.now [])) }
{
    function.restart(locals.iter().copied())
}

/// Appends a `br_table` with these labels.
pub fn branch_table(code: &mut Vec<u8>, labels: &[u32]) -> Result<(), EncodeError>
    ensures { OnOk result (code.new.items ≡
        code.old.items ++ instruction.bytes (call (without_prefix 0x0e) (operands.BrTable labels.now 0))) }
{
    InstructionSink::new(&mut *code).br_table(labels.iter().copied(), 0)?;
    Ok(())
}
