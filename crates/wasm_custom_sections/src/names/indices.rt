//! Subsections of a name section with new indices (Core 3.0, Name Section).
ghost use Rattle.std.specs.Prelude.{◌≡◌, IfErr, IfOk, map};
ghost use Rattle.wasm_lists.specs.EncodedLists.{IsMemoryOrTooLong};
ghost use Rattle.wasm_modules.specs.IndexOverflows.{Exceeds};
ghost use Rattle.wasm_custom_sections.specs.MappedNames.{ItemsExceed, mapped_indirect_naming, mapped_naming, mapped_subsection, NamesExceed, SubsectionExceeds};

use crate::name_maps::{IndirectNaming, Naming};
use crate::names::NameSubsection;
use std::alloc::Global;
use wasm_codec::encode::EncodeError;
use wasm_lists::list::Items;
use wasm_modules::indices::{IndexSpace, MapIndices, Renumbering};

impl<'a> MapIndices for NameSubsection<'a> {
    ghost mapped = { mapped_subsection };

    ghost exceeds = { SubsectionExceeds };

    fn map_indices<M: Renumbering>(
        &self,
        alloc: Global,
        indices: &M,
    ) -> Result<NameSubsection<'a>, EncodeError> {
        Ok(match self {
            NameSubsection::Module(name) => NameSubsection::Module(name),
            NameSubsection::Functions(names) => {
                NameSubsection::Functions(map_names(alloc, indices, IndexSpace::Functions, names)?)
            }
            NameSubsection::Locals(items) => {
                NameSubsection::Locals(map_items(alloc, indices, IndexSpace::Functions, items)?)
            }
            NameSubsection::Labels(items) => {
                NameSubsection::Labels(map_items(alloc, indices, IndexSpace::Functions, items)?)
            }
            NameSubsection::Types(names) => {
                NameSubsection::Types(map_names(alloc, indices, IndexSpace::Types, names)?)
            }
            NameSubsection::Tables(names) => {
                NameSubsection::Tables(map_names(alloc, indices, IndexSpace::Tables, names)?)
            }
            NameSubsection::Memories(names) => {
                NameSubsection::Memories(map_names(alloc, indices, IndexSpace::Memories, names)?)
            }
            NameSubsection::Globals(names) => {
                NameSubsection::Globals(map_names(alloc, indices, IndexSpace::Globals, names)?)
            }
            NameSubsection::Elements(names) => {
                NameSubsection::Elements(map_names(alloc, indices, IndexSpace::Elements, names)?)
            }
            NameSubsection::Data(names) => {
                NameSubsection::Data(map_names(alloc, indices, IndexSpace::Data, names)?)
            }
            NameSubsection::Fields(items) => {
                NameSubsection::Fields(map_items(alloc, indices, IndexSpace::Types, items)?)
            }
            NameSubsection::Tags(names) => {
                NameSubsection::Tags(map_names(alloc, indices, IndexSpace::Tags, names)?)
            }
            NameSubsection::Unknown { id, bytes } => NameSubsection::Unknown { id: *id, bytes },
        })
    }
}

/// Returns names of items of this index space with new indices.
fn map_names<'a, M: Renumbering>(
    alloc: Global,
    indices: &M,
    space: IndexSpace,
    names: &Items<Naming<'a>>,
) -> Result<Items<Naming<'a>>, EncodeError>
    ensures ok { IfOk result (λ copies. copies ≡ map (mapped_naming (M.new_indices indices.now space)) names.now) }
    ensures refused { IfErr result (IsMemoryOrTooLong (NamesExceed (M.new_indices indices.now) space names.now)) }
{
    let mut copies = Vec::with_capacity(alloc, names.len())?;
    for naming in names.as_slice() {
        copies.push(map_naming(indices, space, naming)?)?;
    }
    Ok(Items::from(copies))
}

/// Returns the name with the new index of its item.
fn map_naming<'a, M: Renumbering>(
    indices: &M,
    space: IndexSpace,
    naming: &Naming<'a>,
) -> Result<Naming<'a>, EncodeError>
    ensures ok { IfOk result (λ copy. copy ≡ mapped_naming (M.new_indices indices.now space) naming.now) }
    ensures refused { IfErr result (IsMemoryOrTooLong (Exceeds (M.new_indices indices.now) space naming.now.index)) }
{
    Ok(Naming {
        index: indices.new_index(space, naming.index)?,
        name: naming.name,
    })
}

/// Returns names inside items of this index space, with the items' new indices.
fn map_items<'a, M: Renumbering>(
    alloc: Global,
    indices: &M,
    space: IndexSpace,
    items: &Items<IndirectNaming<'a>>,
) -> Result<Items<IndirectNaming<'a>>, EncodeError>
    ensures ok { IfOk result (λ copies. copies ≡ map (mapped_indirect_naming (M.new_indices indices.now space)) items.now) }
    ensures refused { IfErr result (IsMemoryOrTooLong (ItemsExceed (M.new_indices indices.now) space items.now)) }
{
    let mut copies = Vec::with_capacity(alloc, items.len())?;
    for item in items.as_slice() {
        copies.push(map_item(indices, space, item)?)?;
    }
    Ok(Items::from(copies))
}

/// Returns the names inside an item with the item's new index.
fn map_item<'a, M: Renumbering>(
    indices: &M,
    space: IndexSpace,
    item: &IndirectNaming<'a>,
) -> Result<IndirectNaming<'a>, EncodeError>
    ensures ok { IfOk result (λ copy. copy ≡ mapped_indirect_naming (M.new_indices indices.now space) item.now) }
    ensures refused { IfErr result (IsMemoryOrTooLong (Exceeds (M.new_indices indices.now) space item.now.index)) }
{
    Ok(IndirectNaming {
        index: indices.new_index(space, item.index)?,
        names: item.names.try_clone()?,
    })
}
