//! Entries of sections with new indices (Core 3.0, Modules).
ghost use Rattle.std.specs.Prelude.{◌≡◌, IfErr, IfOk, option_map};
ghost use Rattle.wasm_lists.specs.EncodedLists.{IsMemoryOrTooLong};
ghost use Rattle.wasm_modules.specs.IndexOverflows.{BodyExceeds, DataModeExceeds, DataSegmentExceeds, ElementExceeds, ElementModeExceeds, ElementsExceed, EntityTypeExceeds, ExportExceeds, GlobalExceeds, GlobalTypeExceeds, ImportExceeds, InitExceeds, LocalGroupExceeds, TableExceeds, TableTypeExceeds, TagTypeExceeds};
ghost use Rattle.wasm_modules.specs.MappedSections.{mapped_calls, mapped_table_type, mapped_global_type, mapped_tag_type, mapped_entity_type, mapped_import, mapped_table, mapped_global, space_of, mapped_export, mapped_element_mode, mapped_elements, mapped_element, mapped_local_group, mapped_body, mapped_data_mode, mapped_data_segment};

use crate::indices::renumbering::{map_each, new_index_of};
use crate::indices::{IndexSpace, MapIndices, Renumbering};
use std::alloc::Global as Heap;
use wasm_code::code::CodeBody;
use wasm_codec::encode::EncodeError;
use wasm_externals::limits::TableType;
use wasm_externals::types::{EntityType, ExportKind, GlobalType, TagType};
use wasm_instructions::table::Call;
use wasm_lists::list::Items;
use wasm_sections::data::{DataSegment, DataSegmentMode};
use wasm_sections::elements::{Element, ElementMode, Elements};
use wasm_sections::exports::Export;
use wasm_sections::globals::Global;
use wasm_sections::imports::Import;
use wasm_sections::tables::Table;
use wasm_types::types::ValType;

impl MapIndices for TableType {
    ghost mapped = { mapped_table_type };

    ghost exceeds = { TableTypeExceeds };

    fn map_indices<M: Renumbering>(
        &self,
        alloc: Heap,
        indices: &M,
    ) -> Result<TableType, EncodeError> {
        Ok(TableType {
            element_type: self.element_type.map_indices(alloc, indices)?,
            table64: self.table64,
            minimum: self.minimum,
            maximum: self.maximum,
            shared: self.shared,
        })
    }
}

impl MapIndices for GlobalType {
    ghost mapped = { mapped_global_type };

    ghost exceeds = { GlobalTypeExceeds };

    fn map_indices<M: Renumbering>(
        &self,
        alloc: Heap,
        indices: &M,
    ) -> Result<GlobalType, EncodeError> {
        Ok(GlobalType {
            val_type: self.val_type.map_indices(alloc, indices)?,
            mutable: self.mutable,
            shared: self.shared,
        })
    }
}

impl MapIndices for TagType {
    ghost mapped = { mapped_tag_type };

    ghost exceeds = { TagTypeExceeds };

    fn map_indices<M: Renumbering>(
        &self,
        _alloc: Heap,
        indices: &M,
    ) -> Result<TagType, EncodeError> {
        Ok(TagType {
            kind: self.kind,
            func_type_idx: new_index_of(indices, IndexSpace::Types, self.func_type_idx)?,
        })
    }
}

impl MapIndices for EntityType {
    ghost mapped = { mapped_entity_type };

    ghost exceeds = { EntityTypeExceeds };

    fn map_indices<M: Renumbering>(
        &self,
        alloc: Heap,
        indices: &M,
    ) -> Result<EntityType, EncodeError> {
        Ok(match self {
            EntityType::Function(index) => {
                EntityType::Function(new_index_of(indices, IndexSpace::Types, *index)?)
            }
            EntityType::FunctionExact(index) => {
                EntityType::FunctionExact(new_index_of(indices, IndexSpace::Types, *index)?)
            }
            EntityType::Table(ty) => EntityType::Table(ty.map_indices(alloc, indices)?),
            EntityType::Memory(ty) => EntityType::Memory(*ty),
            EntityType::Global(ty) => EntityType::Global(ty.map_indices(alloc, indices)?),
            EntityType::Tag(ty) => EntityType::Tag(ty.map_indices(alloc, indices)?),
        })
    }
}

impl<'a> MapIndices for Import<'a> {
    ghost mapped = { mapped_import };

    ghost exceeds = { ImportExceeds };

    fn map_indices<M: Renumbering>(
        &self,
        alloc: Heap,
        indices: &M,
    ) -> Result<Import<'a>, EncodeError> {
        Ok(Import {
            module: self.module,
            field: self.field,
            ty: self.ty.map_indices(alloc, indices)?,
        })
    }
}

impl MapIndices for Table {
    ghost mapped = { mapped_table };

    ghost exceeds = { TableExceeds };

    fn map_indices<M: Renumbering>(&self, alloc: Heap, indices: &M) -> Result<Table, EncodeError> {
        Ok(Table {
            ty: self.ty.map_indices(alloc, indices)?,
            init: map_expression(alloc, indices, &self.init)?,
        })
    }
}

/// Returns an expression with new indices, if there is one.
fn map_expression<M: Renumbering>(
    alloc: Heap,
    indices: &M,
    expression: &Option<Items<Call>>,
) -> Result<Option<Items<Call>>, EncodeError>
    ensures ok { IfOk result (λ copy. copy ≡ option_map (mapped_calls (M.new_indices indices.now)) expression.now) }
    ensures refused { IfErr result (IsMemoryOrTooLong (InitExceeds (M.new_indices indices.now) expression.now)) }
{
    match expression {
        Some(calls) => Ok(Some(calls.map_indices(alloc, indices)?)),
        None => Ok(None),
    }
}

impl MapIndices for Global {
    ghost mapped = { mapped_global };

    ghost exceeds = { GlobalExceeds };

    fn map_indices<M: Renumbering>(&self, alloc: Heap, indices: &M) -> Result<Global, EncodeError> {
        Ok(Global {
            ty: self.ty.map_indices(alloc, indices)?,
            init: self.init.map_indices(alloc, indices)?,
        })
    }
}

/// Returns the index space of items of this kind.
fn space_of(kind: ExportKind) -> IndexSpace
    ensures { result ≡ space_of kind }
{
    match kind {
        ExportKind::Func => IndexSpace::Functions,
        ExportKind::Table => IndexSpace::Tables,
        ExportKind::Memory => IndexSpace::Memories,
        ExportKind::Global => IndexSpace::Globals,
        ExportKind::Tag => IndexSpace::Tags,
    }
}

impl<'a> MapIndices for Export<'a> {
    ghost mapped = { mapped_export };

    ghost exceeds = { ExportExceeds };

    fn map_indices<M: Renumbering>(
        &self,
        _alloc: Heap,
        indices: &M,
    ) -> Result<Export<'a>, EncodeError> {
        Ok(Export {
            name: self.name,
            kind: self.kind,
            index: new_index_of(indices, space_of(self.kind), self.index)?,
        })
    }
}

impl MapIndices for ElementMode {
    ghost mapped = { mapped_element_mode };

    ghost exceeds = { ElementModeExceeds };

    fn map_indices<M: Renumbering>(
        &self,
        alloc: Heap,
        indices: &M,
    ) -> Result<ElementMode, EncodeError> {
        Ok(match self {
            ElementMode::Passive => ElementMode::Passive,
            ElementMode::Active {
                table_index,
                offset,
            } => ElementMode::Active {
                table_index: new_index_of(indices, IndexSpace::Tables, *table_index)?,
                offset: offset.map_indices(alloc, indices)?,
            },
            ElementMode::Declared => ElementMode::Declared,
        })
    }
}

impl MapIndices for Elements {
    ghost mapped = { mapped_elements };

    ghost exceeds = { ElementsExceed };

    fn map_indices<M: Renumbering>(
        &self,
        alloc: Heap,
        indices: &M,
    ) -> Result<Elements, EncodeError> {
        match self {
            Elements::Functions(functions) => {
                let space = IndexSpace::Functions;
                let functions = map_each(alloc, indices, space, functions.as_slice())?;
                Ok(Elements::Functions(Items::from(functions)))
            }
            Elements::Expressions(ty, expressions) => {
                let ty = ty.map_indices(alloc, indices)?;
                Ok(Elements::Expressions(ty, expressions.map_indices(alloc, indices)?))
            }
        }
    }
}

impl MapIndices for Element {
    ghost mapped = { mapped_element };

    ghost exceeds = { ElementExceeds };

    fn map_indices<M: Renumbering>(
        &self,
        alloc: Heap,
        indices: &M,
    ) -> Result<Element, EncodeError> {
        Ok(Element {
            mode: self.mode.map_indices(alloc, indices)?,
            elements: self.elements.map_indices(alloc, indices)?,
        })
    }
}

impl MapIndices for (u32, ValType) {
    ghost mapped = { mapped_local_group };

    ghost exceeds = { LocalGroupExceeds };

    fn map_indices<M: Renumbering>(
        &self,
        alloc: Heap,
        indices: &M,
    ) -> Result<(u32, ValType), EncodeError> {
        Ok((self.0, self.1.map_indices(alloc, indices)?))
    }
}

impl MapIndices for CodeBody {
    ghost mapped = { mapped_body };

    ghost exceeds = { BodyExceeds };

    fn map_indices<M: Renumbering>(
        &self,
        alloc: Heap,
        indices: &M,
    ) -> Result<CodeBody, EncodeError> {
        Ok(CodeBody {
            locals: self.locals.map_indices(alloc, indices)?,
            calls: self.calls.map_indices(alloc, indices)?,
        })
    }
}

impl MapIndices for DataSegmentMode {
    ghost mapped = { mapped_data_mode };

    ghost exceeds = { DataModeExceeds };

    fn map_indices<M: Renumbering>(
        &self,
        alloc: Heap,
        indices: &M,
    ) -> Result<DataSegmentMode, EncodeError> {
        Ok(match self {
            DataSegmentMode::Active {
                memory_index,
                offset,
            } => DataSegmentMode::Active {
                memory_index: new_index_of(indices, IndexSpace::Memories, *memory_index)?,
                offset: offset.map_indices(alloc, indices)?,
            },
            DataSegmentMode::Passive => DataSegmentMode::Passive,
        })
    }
}

impl<'a> MapIndices for DataSegment<'a> {
    ghost mapped = { mapped_data_segment };

    ghost exceeds = { DataSegmentExceeds };

    fn map_indices<M: Renumbering>(
        &self,
        alloc: Heap,
        indices: &M,
    ) -> Result<DataSegment<'a>, EncodeError> {
        Ok(DataSegment {
            mode: self.mode.map_indices(alloc, indices)?,
            bytes: self.bytes,
        })
    }
}
