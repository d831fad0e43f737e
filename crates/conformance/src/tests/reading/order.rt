//! The order of types: that of the declarations, variant by variant and field by field.

use std::cmp::Ordering;
use std::test::Fail;
use wasm_encoder::{AbstractHeapType, FieldType, HeapType, RefType, StorageType, ValType};

/// Each item is less than the next, and the next greater than it.
fn ascends<T: PartialOrd>(items: &[T]) -> Result<(), Fail> {
    for (lower, higher) in items.iter().zip(items.iter().skip(1)) {
        let is_less = lower.partial_cmp(higher) == Some(Ordering::Less);
        let is_greater = higher.partial_cmp(lower) == Some(Ordering::Greater);
        if !is_less || !is_greater {
            return Err(Fail::from("another order"));
        }
    }
    Ok(())
}

#[test]
fn heap_types_ascend() -> Result<(), Fail> {
    let abstract_types = [
        AbstractHeapType::Func,
        AbstractHeapType::Extern,
        AbstractHeapType::Any,
        AbstractHeapType::None,
        AbstractHeapType::NoExtern,
        AbstractHeapType::NoFunc,
        AbstractHeapType::Eq,
        AbstractHeapType::Struct,
        AbstractHeapType::Array,
        AbstractHeapType::I31,
        AbstractHeapType::Exn,
        AbstractHeapType::NoExn,
        AbstractHeapType::Cont,
        AbstractHeapType::NoCont,
    ];
    ascends(&abstract_types)?;
    let heap_types = [
        HeapType::FUNC,
        HeapType::EXTERN,
        HeapType::Abstract {
            shared: true,
            ty: AbstractHeapType::Func,
        },
        HeapType::Concrete(0),
        HeapType::Concrete(1),
        HeapType::Exact(0),
        HeapType::Exact(1),
    ];
    ascends(&heap_types)
}

/// The first field decides, and then the second.
#[test]
fn reference_types_ascend() -> Result<(), Fail> {
    let types = [
        RefType::FUNCREF.nullable(false),
        RefType::ANYREF.nullable(false),
        RefType::FUNCREF,
        RefType::ANYREF,
    ];
    ascends(&types)
}

#[test]
fn value_and_storage_types_ascend() -> Result<(), Fail> {
    let value_types = [
        ValType::I32,
        ValType::I64,
        ValType::F32,
        ValType::F64,
        ValType::V128,
        ValType::Ref(RefType::FUNCREF.nullable(false)),
        ValType::FUNCREF,
        ValType::EXTERNREF,
    ];
    ascends(&value_types)?;
    let storage_types = [
        StorageType::I8,
        StorageType::I16,
        StorageType::Val(ValType::I32),
        StorageType::Val(ValType::I64),
    ];
    ascends(&storage_types)
}

/// A field that holds this.
fn field(element_type: StorageType, mutable: bool) -> FieldType {
    FieldType {
        element_type,
        mutable,
    }
}

/// The storage type of a field decides first, then its mutability.
#[test]
fn fields_ascend() -> Result<(), Fail> {
    let fields = [
        field(StorageType::I8, false),
        field(StorageType::I8, true),
        field(StorageType::I16, false),
        field(StorageType::I16, true),
    ];
    ascends(&fields)
}
