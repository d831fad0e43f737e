//! Decoded sections with new indices (Core 3.0, Modules).
ghost use Rattle.wasm_modules.specs.IndexOverflows.{SectionExceeds};
ghost use Rattle.wasm_modules.specs.MappedSections.{mapped_section};

use crate::indices::renumbering::{map_each, new_index_of};
use crate::indices::{IndexSpace, MapIndices, Renumbering};
use std::alloc::Global;
use wasm_codec::encode::EncodeError;
use wasm_externals::limits::MemoryType;
use wasm_lists::list::Items;
use wasm_sections::custom::CustomSection;
use wasm_sections::module_sections::ModuleSection;

impl<'a> MapIndices for ModuleSection<'a> {
    ghost mapped = { mapped_section };

    ghost exceeds = { SectionExceeds };

    fn map_indices<M: Renumbering>(
        &self,
        alloc: Global,
        indices: &M,
    ) -> Result<ModuleSection<'a>, EncodeError> {
        Ok(match self {
            ModuleSection::Types(types) => ModuleSection::Types(types.map_indices(alloc, indices)?),
            ModuleSection::Imports(imports) => ModuleSection::Imports(imports.map_indices(
                alloc, indices,
            )?),
            ModuleSection::Functions(types) => {
                let types = map_each(alloc, indices, IndexSpace::Types, types.as_slice())?;
                ModuleSection::Functions(Items::from(types))
            }
            ModuleSection::Tables(tables) => ModuleSection::Tables(tables.map_indices(
                alloc, indices,
            )?),
            ModuleSection::Tags(tags) => ModuleSection::Tags(tags.map_indices(alloc, indices)?),
            ModuleSection::Globals(globals) => ModuleSection::Globals(globals.map_indices(
                alloc, indices,
            )?),
            ModuleSection::Exports(exports) => ModuleSection::Exports(exports.map_indices(
                alloc, indices,
            )?),
            ModuleSection::Start(function) => {
                ModuleSection::Start(new_index_of(indices, IndexSpace::Functions, *function)?)
            }
            ModuleSection::Elements(elements) => ModuleSection::Elements(elements.map_indices(
                alloc, indices,
            )?),
            ModuleSection::Code(bodies) => ModuleSection::Code(bodies.map_indices(alloc, indices)?),
            ModuleSection::Data(segments) => ModuleSection::Data(segments.map_indices(
                alloc, indices,
            )?),
            ModuleSection::Memories(memories) => ModuleSection::Memories(memories.try_clone()?),
            ModuleSection::DataCount(count) => ModuleSection::DataCount(*count),
            ModuleSection::Custom(custom) => ModuleSection::Custom(CustomSection {
                name: custom.name,
                bytes: custom.bytes,
            }),
        })
    }
}
