//! A module with a section of the caller's type.
ghost use Rattle.std.specs.Prelude.{◌≡◌, ◌∷◌, [], IfOk};
ghost use Rattle.wasm_encoder.specs.ModuleFormats.{raw_module};
ghost use Rattle.wasm_encoder.specs.Sections.{section_of};
ghost use Rattle.wasm_encoder.specs.EncodedLists.{body_bytes};
ghost use Rattle.example_sections.specs.Exports.{body_of};

use crate::exports::ExportSection;
use std::alloc::Global;
use wasm_encoder::{CodeSection, EncodeError, FunctionSection, Module, TypeSection};

/// Returns a module of these sections.
pub fn module_of(
    alloc: Global,
    types: &TypeSection,
    functions: &FunctionSection,
    exports: &ExportSection,
    code: &CodeSection,
) -> Result<Module, EncodeError>
    // The bytes are those of four sections, each an id, a size and a body.
    ensures { IfOk result (λ made. made ≡ raw_module.bytes (
        section_of (1, body_bytes types.now) ∷
        section_of (3, body_bytes functions.now) ∷
        section_of (7, body_of exports.now.exports.now) ∷
        section_of (10, body_bytes code.now) ∷ [])) }
{
    let mut module = Module::new(alloc)?;
    module.section(types)?;
    module.section(functions)?;
    module.section(exports)?;
    module.section(code)?;
    Ok(module)
}
