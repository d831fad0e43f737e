//! Type sections in modules, and modules that are minimally encoded.
ghost use Rattle.std.specs.Prelude.{◌≡◌, ◌++◌, ◌∷◌, [], List, OnOk};
ghost use Rattle.std.specs.List.{AllByRecursion};
ghost use Rattle.wasm_encoder.specs.Outcomes.{IsOrMemory};
ghost use Rattle.wasm_encoder.specs.Modules.{IsTypedSection};
ghost use Rattle.wasm_encoder.specs.ModuleFormats.{typed_module, raw_module};
ghost use Rattle.wasm_encoder.specs.Sections.{TypedSection, SectionParts, section_of};
ghost use Rattle.wasm_encoder.specs.EncodedLists.{body_bytes};

use std::alloc::Global;
use wasm_encoder::{EncodeError, Module, ReadError, TypeSection, normalise_module};

/// Appends a type section to a module.
pub fn written(types: &TypeSection, built: &mut Module) -> Result<(), EncodeError>
    ensures { (sections : List SectionParts) → built.old ≡ raw_module.bytes sections →
        OnOk result (built.new ≡ raw_module.bytes (sections ++ section_of (1, body_bytes types.now) ∷ [])) }
{
    built.section(types)
}

/// Normalises a minimally encoded module, which stays as it is.
pub fn normalised(alloc: Global, bytes: &[u8]) -> Result<Vec<u8>, ReadError>
    ensures { (sections : List TypedSection) → AllByRecursion IsTypedSection sections →
        bytes.now ≡ typed_module.bytes sections → IsOrMemory (λ given. given.items) bytes.now result }
{
    normalise_module(alloc, bytes)
}
