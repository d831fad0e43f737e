//! Modules that are written section by section.
ghost use Rattle.std.specs.Prelude.{◌++◌, ◌∷◌, [], ℕ, List, Option, IfOk, OnOk};
ghost use Rattle.wasm_codec.specs.formats.Combinators.{u32 as u32_format};
ghost use Rattle.wasm_encoder.specs.WrittenModules.{IsWrittenModule};
ghost use Rattle.wasm_sections.specs.ListSections.{StandsForItems};
ghost use Rattle.wasm_sections.specs.formats.EntryParts.{ExportParts, custom_parts};
ghost use Rattle.wasm_sections.specs.formats.ModuleSectionParts.{ModuleSectionParts, custom, exports as holding_exports, functions as holding_functions};
ghost use Rattle.wasm_sections.specs.formats.Entries.{export_entry};
ghost use Rattle.wasm_sections.specs.formats.ModuleSections.{MinimalWholeModule};

use std::alloc::Global;
use std::io::Write;
use wasm_encoder::{CustomSection, ExportSection, FunctionSection, ModuleWriter, WriteError};

/// Writes a custom section after the sections before.
pub fn custom_section<W: Write + Drop>(
    written: &mut ModuleWriter<W>,
    section: &CustomSection<'_>,
) -> Result<(), WriteError>
    ensures { (start : Option (List ℕ)) (sections : List ModuleSectionParts) → IsWrittenModule start written.old sections →
        OnOk result (IsWrittenModule start written.new (sections ++ custom (custom_parts section.now) ∷ [])) }
{
    written.section(section)
}

/// Writes a module of a function section and an export section.
pub fn module_of<W: Write + Drop>(
    alloc: Global,
    writer: W,
    indexes: &FunctionSection,
    names: &ExportSection<'_>,
) -> Result<W, WriteError>
    ensures { (types : List ℕ) (entries : List ExportParts) → StandsForItems u32_format indexes.now types →
        StandsForItems export_entry names.now entries →
        IfOk result (λ written. IsWrittenModule (W.contents writer) (W.contents written) (holding_functions types ∷ holding_exports entries ∷ [])) }
{
    let mut module = ModuleWriter::new(alloc, writer)?;
    module.section(indexes)?;
    module.section(names)?;
    Ok(module.finish()?)
}

/// Writes such a module into a list of bytes, which holds nothing else.
pub fn list_of(
    alloc: Global,
    indexes: &FunctionSection,
    names: &ExportSection<'_>,
) -> Result<Vec<u8>, WriteError>
    ensures { (types : List ℕ) (entries : List ExportParts) → StandsForItems u32_format indexes.now types →
        StandsForItems export_entry names.now entries →
        IfOk result (λ bytes. MinimalWholeModule bytes.items (holding_functions types ∷ holding_exports entries ∷ [])) }
{
    module_of(alloc, Vec::new(alloc), indexes, names)
}
