//! The tokens that stand for types, as `val:ref:1:abs:0:func`. A function takes the text after the first colon.

use wasm_encoder::{AbstractHeapType, FieldType, HeapType, RefType, StorageType, ValType};

/// An abstract heap type by its name.
pub fn abstract_heap_type(name: &str) -> Option<AbstractHeapType> {
    Some(match name {
        "func" => AbstractHeapType::Func,
        "extern" => AbstractHeapType::Extern,
        "any" => AbstractHeapType::Any,
        "none" => AbstractHeapType::None,
        "noextern" => AbstractHeapType::NoExtern,
        "nofunc" => AbstractHeapType::NoFunc,
        "eq" => AbstractHeapType::Eq,
        "struct" => AbstractHeapType::Struct,
        "array" => AbstractHeapType::Array,
        "i31" => AbstractHeapType::I31,
        "exn" => AbstractHeapType::Exn,
        "noexn" => AbstractHeapType::NoExn,
        "cont" => AbstractHeapType::Cont,
        "nocont" => AbstractHeapType::NoCont,
        _ => return None,
    })
}

/// A heap type, as `abs:0:func`, where the digit says whether it is shared, or `concrete:7` or `exact:7`.
pub fn heap_type(text: &str) -> Option<HeapType> {
    let (kind, rest) = text.split_once(':')?;
    match kind {
        "abs" => {
            let (shared, name) = rest.split_once(':')?;
            Some(HeapType::Abstract {
                shared: flag(shared)?,
                ty: abstract_heap_type(name)?,
            })
        }
        "concrete" => Some(HeapType::Concrete(rest.parse().ok()?)),
        "exact" => Some(HeapType::Exact(rest.parse().ok()?)),
        _ => None,
    }
}

/// A reference type: whether null belongs to it, and a heap type.
pub fn ref_type(text: &str) -> Option<RefType> {
    let (nullable, heap) = text.split_once(':')?;
    Some(RefType {
        nullable: flag(nullable)?,
        heap_type: heap_type(heap)?,
    })
}

/// A value type.
pub fn val_type(text: &str) -> Option<ValType> {
    match text {
        "i32" => Some(ValType::I32),
        "i64" => Some(ValType::I64),
        "f32" => Some(ValType::F32),
        "f64" => Some(ValType::F64),
        "v128" => Some(ValType::V128),
        _ => Some(ValType::Ref(ref_type(text.strip_prefix("ref:")?)?)),
    }
}

/// A storage type.
pub fn storage_type(text: &str) -> Option<StorageType> {
    match text {
        "i8" => Some(StorageType::I8),
        "i16" => Some(StorageType::I16),
        _ => Some(StorageType::Val(val_type(text)?)),
    }
}

/// A field: whether it can be written, and a storage type.
pub fn field_type(text: &str) -> Option<FieldType> {
    let (mutable, element) = text.split_once(':')?;
    Some(FieldType {
        element_type: storage_type(element)?,
        mutable: flag(mutable)?,
    })
}

/// `0` or `1`.
pub fn flag(digit: &str) -> Option<bool> {
    match digit {
        "0" => Some(false),
        "1" => Some(true),
        _ => None,
    }
}
