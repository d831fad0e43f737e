//! Heap, reference, value, storage and composite types, and the type section (Core 3.0, Types and Type Section).

pub use crate::type_section::{CoreTypeEncoder, TypeSection};
pub use wasm_types::types::{
    AbstractHeapType, ArrayType, CompositeInnerType, CompositeType, ContType, FieldType, FuncType,
    HeapType, RefType, StorageType, StructType, SubType, TypeEntry, ValType,
};
