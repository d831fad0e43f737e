//! Types with new indices of types.
ghost use Rattle.std.specs.Prelude.{◌≡◌, IfErr, IfOk, option_map};
ghost use Rattle.wasm_lists.specs.EncodedLists.{IsMemoryOrTooLong};
ghost use Rattle.wasm_modules.specs.declared.indices.spaces.IndexSpace.TheVariants as spaces;
ghost use Rattle.wasm_modules.specs.IndexOverflows.{CompositeTypeExceeds, ExceedsIfSome, FieldExceeds, FuncTypeExceeds, HeapTypeExceeds, InnerTypeExceeds, RefTypeExceeds, StorageTypeExceeds, SubTypeExceeds, TypeEntryExceeds, ValTypeExceeds};
ghost use Rattle.wasm_modules.specs.MappedIndices.{mapped_heap_type, mapped_ref_type, mapped_val_type, mapped_storage_type, mapped_field, mapped_func_type, mapped_inner_type, mapped_composite_type, mapped_sub_type, mapped_type_entry};

use crate::indices::renumbering::{map_all_indices, map_each, new_index_of};
use crate::indices::{IndexSpace, MapIndices, Renumbering};
use std::alloc::Global;
use wasm_codec::encode::EncodeError;
use wasm_lists::list::Items;
use wasm_types::types::{
    ArrayType, CompositeInnerType, CompositeType, ContType, FieldType, FuncType, HeapType, RefType,
    StorageType, StructType, SubType, TypeEntry, ValType,
};

impl MapIndices for HeapType {
    ghost mapped = { mapped_heap_type };

    ghost exceeds = { HeapTypeExceeds };

    fn map_indices<M: Renumbering>(
        &self,
        alloc: Global,
        indices: &M,
    ) -> Result<HeapType, EncodeError> {
        Ok(match self {
            HeapType::Abstract { shared, ty } => HeapType::Abstract {
                shared: *shared,
                ty: *ty,
            },
            HeapType::Concrete(index) => {
                HeapType::Concrete(new_index_of(indices, IndexSpace::Types, *index)?)
            }
            HeapType::Exact(index) => HeapType::Exact(new_index_of(
                indices,
                IndexSpace::Types,
                *index,
            )?),
        })
    }
}

impl MapIndices for RefType {
    ghost mapped = { mapped_ref_type };

    ghost exceeds = { RefTypeExceeds };

    fn map_indices<M: Renumbering>(
        &self,
        alloc: Global,
        indices: &M,
    ) -> Result<RefType, EncodeError> {
        Ok(RefType {
            nullable: self.nullable,
            heap_type: self.heap_type.map_indices(alloc, indices)?,
        })
    }
}

impl MapIndices for ValType {
    ghost mapped = { mapped_val_type };

    ghost exceeds = { ValTypeExceeds };

    fn map_indices<M: Renumbering>(
        &self,
        alloc: Global,
        indices: &M,
    ) -> Result<ValType, EncodeError> {
        match self {
            ValType::Ref(ty) => Ok(ValType::Ref(ty.map_indices(alloc, indices)?)),
            other => Ok(*other),
        }
    }
}

impl MapIndices for StorageType {
    ghost mapped = { mapped_storage_type };

    ghost exceeds = { StorageTypeExceeds };

    fn map_indices<M: Renumbering>(
        &self,
        alloc: Global,
        indices: &M,
    ) -> Result<StorageType, EncodeError> {
        match self {
            StorageType::Val(ty) => Ok(StorageType::Val(ty.map_indices(alloc, indices)?)),
            other => Ok(*other),
        }
    }
}

impl MapIndices for FieldType {
    ghost mapped = { mapped_field };

    ghost exceeds = { FieldExceeds };

    fn map_indices<M: Renumbering>(
        &self,
        alloc: Global,
        indices: &M,
    ) -> Result<FieldType, EncodeError> {
        Ok(FieldType {
            element_type: self.element_type.map_indices(alloc, indices)?,
            mutable: self.mutable,
        })
    }
}

impl MapIndices for FuncType {
    ghost mapped = { mapped_func_type };

    ghost exceeds = { FuncTypeExceeds };

    fn map_indices<M: Renumbering>(
        &self,
        alloc: Global,
        indices: &M,
    ) -> Result<FuncType, EncodeError> {
        let params = map_all_indices(alloc, indices, self.params())?;
        let results = map_all_indices(alloc, indices, self.results())?;
        Ok(FuncType::from_lists(Items::from(params), Items::from(results)))
    }
}

impl MapIndices for CompositeInnerType {
    ghost mapped = { mapped_inner_type };

    ghost exceeds = { InnerTypeExceeds };

    fn map_indices<M: Renumbering>(
        &self,
        alloc: Global,
        indices: &M,
    ) -> Result<CompositeInnerType, EncodeError> {
        Ok(match self {
            CompositeInnerType::Func(ty) => CompositeInnerType::Func(ty.map_indices(
                alloc, indices,
            )?),
            CompositeInnerType::Array(ArrayType(field)) => {
                CompositeInnerType::Array(ArrayType(field.map_indices(alloc, indices)?))
            }
            CompositeInnerType::Struct(ty) => CompositeInnerType::Struct(StructType {
                fields: ty.fields.map_indices(alloc, indices)?,
            }),
            CompositeInnerType::Cont(ContType(index)) => {
                CompositeInnerType::Cont(ContType(new_index_of(
                    indices,
                    IndexSpace::Types,
                    *index,
                )?))
            }
        })
    }
}

impl MapIndices for CompositeType {
    ghost mapped = { mapped_composite_type };

    ghost exceeds = { CompositeTypeExceeds };

    fn map_indices<M: Renumbering>(
        &self,
        alloc: Global,
        indices: &M,
    ) -> Result<CompositeType, EncodeError> {
        Ok(CompositeType {
            inner: self.inner.map_indices(alloc, indices)?,
            shared: self.shared,
            descriptor: map_type_index(indices, self.descriptor)?,
            describes: map_type_index(indices, self.describes)?,
        })
    }
}

/// Returns the new index of a type, if there is an index.
fn map_type_index<M: Renumbering>(
    indices: &M,
    index: Option<u32>,
) -> Result<Option<u32>, EncodeError>
    ensures ok { IfOk result (λ copy. copy ≡ option_map (M.new_indices indices.now spaces.Types) index) }
    ensures refused { IfErr result (IsMemoryOrTooLong (ExceedsIfSome (M.new_indices indices.now) spaces.Types index)) }
{
    match index {
        Some(index) => Ok(Some(new_index_of(indices, IndexSpace::Types, index)?)),
        None => Ok(None),
    }
}

impl MapIndices for SubType {
    ghost mapped = { mapped_sub_type };

    ghost exceeds = { SubTypeExceeds };

    fn map_indices<M: Renumbering>(
        &self,
        alloc: Global,
        indices: &M,
    ) -> Result<SubType, EncodeError> {
        Ok(SubType {
            is_final: self.is_final,
            supertype_idxs: Items::from(map_each(
                alloc,
                indices,
                IndexSpace::Types,
                self.supertype_idxs.as_slice(),
            )?),
            composite_type: self.composite_type.map_indices(alloc, indices)?,
        })
    }
}

impl MapIndices for TypeEntry {
    ghost mapped = { mapped_type_entry };

    ghost exceeds = { TypeEntryExceeds };

    fn map_indices<M: Renumbering>(
        &self,
        alloc: Global,
        indices: &M,
    ) -> Result<TypeEntry, EncodeError> {
        match self {
            TypeEntry::Sub(ty) => Ok(TypeEntry::Sub(ty.map_indices(alloc, indices)?)),
            TypeEntry::Rec(types) => Ok(TypeEntry::Rec(types.map_indices(alloc, indices)?)),
        }
    }
}
