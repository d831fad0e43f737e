//! Text of heap types, reference types and value types (Core 3.0, Text Format, Types).
use crate::types::{AbstractHeapType, HeapType, RefType, ValType};
use std::fmt;

/// Writes the name of the type in the text format, such as `func` (Core 3.0, Text Format, Types).
impl fmt::Display for AbstractHeapType {
    fn fmt<W: fmt::Write>(&self, f: &mut fmt::Formatter<W>) -> fmt::Result {
        f.write_str(heap_name(*self))
    }
}

fn heap_name(ty: AbstractHeapType) -> &'static str {
    match ty {
        AbstractHeapType::Func => "func",
        AbstractHeapType::Extern => "extern",
        AbstractHeapType::Any => "any",
        AbstractHeapType::None => "none",
        AbstractHeapType::NoExtern => "noextern",
        AbstractHeapType::NoFunc => "nofunc",
        AbstractHeapType::Eq => "eq",
        AbstractHeapType::Struct => "struct",
        AbstractHeapType::Array => "array",
        AbstractHeapType::I31 => "i31",
        AbstractHeapType::Exn => "exn",
        AbstractHeapType::NoExn => "noexn",
        AbstractHeapType::Cont => "cont",
        AbstractHeapType::NoCont => "nocont",
    }
}

/// Writes the type in the text format, as `func`, `(shared func)`, `3` or `(exact 3)` (Core 3.0, Text Format, Types).
impl fmt::Display for HeapType {
    fn fmt<W: fmt::Write>(&self, f: &mut fmt::Formatter<W>) -> fmt::Result {
        match *self {
            HeapType::Abstract { shared: false, ty } => f.write_str(heap_name(ty)),
            HeapType::Abstract { shared: true, ty } => write!(f, "(shared {})", heap_name(ty)),
            HeapType::Concrete(index) => write!(f, "{index}"),
            HeapType::Exact(index) => write!(f, "(exact {index})"),
        }
    }
}

/// Writes the type in the text format, as `funcref`, `(ref func)` or `(ref null 3)` (Core 3.0, Text Format, Types).
impl fmt::Display for RefType {
    fn fmt<W: fmt::Write>(&self, f: &mut fmt::Formatter<W>) -> fmt::Result {
        match self.heap_type {
            HeapType::Abstract { shared: false, ty } if self.nullable => f.write_str(short_name(
                ty,
            )),
            heap_type => {
                let null = if self.nullable { "null " } else { "" };
                write!(f, "(ref {null}{heap_type})")
            }
        }
    }
}

/// Returns the name of the nullable reference type to an abstract heap type.
fn short_name(ty: AbstractHeapType) -> &'static str {
    match ty {
        AbstractHeapType::Func => "funcref",
        AbstractHeapType::Extern => "externref",
        AbstractHeapType::Any => "anyref",
        AbstractHeapType::None => "nullref",
        AbstractHeapType::NoExtern => "nullexternref",
        AbstractHeapType::NoFunc => "nullfuncref",
        AbstractHeapType::Eq => "eqref",
        AbstractHeapType::Struct => "structref",
        AbstractHeapType::Array => "arrayref",
        AbstractHeapType::I31 => "i31ref",
        AbstractHeapType::Exn => "exnref",
        AbstractHeapType::NoExn => "nullexnref",
        AbstractHeapType::Cont => "contref",
        AbstractHeapType::NoCont => "nullcontref",
    }
}

/// Writes the type in the text format, as `i32` or `funcref` (Core 3.0, Text Format, Types).
impl fmt::Display for ValType {
    fn fmt<W: fmt::Write>(&self, f: &mut fmt::Formatter<W>) -> fmt::Result {
        match self {
            ValType::I32 => f.write_str("i32"),
            ValType::I64 => f.write_str("i64"),
            ValType::F32 => f.write_str("f32"),
            ValType::F64 => f.write_str("f64"),
            ValType::V128 => f.write_str("v128"),
            ValType::Ref(ty) => write!(f, "{ty}"),
        }
    }
}
