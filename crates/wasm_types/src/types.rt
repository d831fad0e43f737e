//! Heap, reference, value, storage and composite types, subtypes, and entries of a type section (Core 3.0, Types and
//! Type Section). Each file has types, the functions that take them from an input, and those that write them.

mod composite;
mod copies;
mod function;
mod heap;
mod items;
mod recursive;
mod text;
mod value;

pub use composite::{
    ArrayType, CompositeInnerType, CompositeType, ContType, FieldType, FuncType, StructType,
};
pub use heap::{
    AbstractHeapType, HeapType, RefType, put_heap_type, put_ref_type, scan_heap_type,
    scan_type_index, take_heap_type, take_ref_type,
};
pub use recursive::{SubType, TypeEntry};
pub use value::{StorageType, ValType, is_whole_type, put_val_type, scan_val_type, take_val_type};
