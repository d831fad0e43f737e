//! Modules built from named sections, and read back with every section decoded.
ghost use Rattle.std.specs.Prelude.{◌≡◌, ◌++◌, ◌∷◌, ◌⊎◌, [], ℕ, List, IfErr, IfOk, OnOk};
ghost use Rattle.wasm_codec.specs.declared.encode.EncodeError.TheVariants as encode_errors;
ghost use Rattle.wasm_codec.specs.declared.reader.ReadError.TheVariants as read_errors;
ghost use Rattle.wasm_codec.specs.formats.Combinators.{u32 as u32_format};
ghost use Rattle.wasm_encoder.specs.declared.error.Error.TheVariants as errors;
ghost use Rattle.wasm_encoder.specs.Outcomes.{IsNormalForm, IsOrMemory};
ghost use Rattle.wasm_sections.specs.ListSections.{StandsForItems};
ghost use Rattle.wasm_sections.specs.formats.EntryParts.{ExportParts, custom_parts};
ghost use Rattle.wasm_sections.specs.formats.ModuleSectionParts.{ModuleSectionParts, all_module_section_parts, custom, exports as holding_exports, functions as holding_functions, module_section_parts};
ghost use Rattle.wasm_sections.specs.formats.Entries.{export_entry};
ghost use Rattle.wasm_sections.specs.formats.ModuleSections.{MinimalWholeModule, module_section, whole_module};

use std::alloc::Global;
use wasm_encoder::{
    CustomSection, EncodeError, Error, ExportSection, FunctionSection, Module, ModuleSection,
    ReadError, WholeModule, normalise, read_whole_module, read_whole_module_strict,
};

/// Appends a function section to a module.
pub fn functions(built: &mut Module, section: &FunctionSection) -> Result<(), EncodeError>
    ensures { (sections : List ModuleSectionParts) (indexes : List ℕ) → MinimalWholeModule built.old sections →
        StandsForItems u32_format section.now indexes →
        OnOk result (MinimalWholeModule built.new (sections ++ holding_functions indexes ∷ [])) }
{
    built.section(section)?;
    Ok(())
}

/// Appends an export section to a module.
pub fn exports(built: &mut Module, section: &ExportSection<'_>) -> Result<(), EncodeError>
    ensures { (sections : List ModuleSectionParts) (entries : List ExportParts) → MinimalWholeModule built.old sections →
        StandsForItems export_entry section.now entries →
        OnOk result (MinimalWholeModule built.new (sections ++ holding_exports entries ∷ [])) }
{
    built.section(section)?;
    Ok(())
}

/// Appends a custom section to a module.
pub fn custom(built: &mut Module, section: &CustomSection<'_>) -> Result<(), EncodeError>
    ensures { (sections : List ModuleSectionParts) → MinimalWholeModule built.old sections →
        OnOk result (MinimalWholeModule built.new (sections ++ custom (custom_parts section.now) ∷ [])) }
{
    built.section(section)?;
    Ok(())
}

/// Returns a module of a function section and an export section.
pub fn module_of(
    alloc: Global,
    indexes: &FunctionSection,
    names: &ExportSection<'_>,
) -> Result<Module, EncodeError>
    ensures { (types : List ℕ) (entries : List ExportParts) → StandsForItems u32_format indexes.now types →
        StandsForItems export_entry names.now entries →
        IfOk result (λ m. MinimalWholeModule m (holding_functions types ∷ holding_exports entries ∷ [])) }
{
    let mut built = Module::new(alloc)?;
    functions(&mut built, indexes)?;
    exports(&mut built, names)?;
    Ok(built)
}

/// Reads the sections of such a module back.
pub fn read_back<'a>(alloc: Global, module: &'a Module) -> Result<Vec<ModuleSection<'a>>, ReadError>
    ensures { (sections : List ModuleSectionParts) → MinimalWholeModule module.now sections →
        IsOrMemory (λ given. all_module_section_parts given.items) sections result }
{
    read_whole_module_strict(alloc, module.as_slice())
}

/// Appends a section that was read to a module.
pub fn read_section(built: &mut Module, section: &ModuleSection<'_>) -> Result<(), EncodeError>
    ensures { (sections : List ModuleSectionParts) (bytes : List ℕ) → MinimalWholeModule built.old sections →
        module_section.Encodes bytes (module_section_parts section.now) →
        OnOk result (MinimalWholeModule built.new (sections ++ module_section_parts section.now ∷ [])) }
{
    built.section(section)?;
    Ok(())
}

/// Reads a module, and writes its sections back.
pub fn written_back(alloc: Global, bytes: &[u8]) -> Result<Module, Error>
    // The module is the normal form of what was read.
    ensures normal { IfOk result (λ m. IsNormalForm whole_module.Encodes whole_module.bytes bytes.now m) }
    // It encodes the sections that were read, and is their minimal encoding.
    ensures same { (sections : List ModuleSectionParts) → whole_module.Encodes bytes.now sections →
        IfOk result (λ m. MinimalWholeModule m sections) }
    // If the bytes are a module, it fails only if memory runs out.
    ensures memory { (sections : List ModuleSectionParts) → whole_module.Encodes bytes.now sections →
        IfErr result (λ e. (e ≡ errors.Read read_errors.Memory) ⊎ (e ≡ errors.Encode encode_errors.Memory)) }
{
    let sections = read_whole_module(alloc, bytes)?;
    Ok(Module::from_sections(alloc, &sections)?)
}

/// Writes the sections of a module back, and normalises the module.
pub fn both_ways(alloc: Global, bytes: &[u8]) -> Result<(Module, Vec<u8>), Error>
    // Both are the same bytes.
    ensures { IfOk result (λ both. both.0 ≡ both.1.items) }
{
    let built = written_back(alloc, bytes)?;
    let normal = normalise::<WholeModule>(alloc, bytes)?;
    Ok((built, normal))
}
