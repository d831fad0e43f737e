//! Constants and conversions of types: their bytes.

use super::is_encoded;
use std::test::Fail;
use wasm_encoder::{AbstractHeapType, HeapType, RefType, ValType};

#[test]
fn reference_types(rt: HostRuntime) -> Result<(), Fail> {
    for (ty, hex) in [
        (RefType::ANYREF, "6E"),
        (RefType::EQREF, "6D"),
        (RefType::FUNCREF, "70"),
        (RefType::EXTERNREF, "6F"),
        (RefType::I31REF, "6C"),
        (RefType::ARRAYREF, "6A"),
        (RefType::EXNREF, "69"),
        (
            RefType::new_abstract(AbstractHeapType::Cont, false, true),
            "646568",
        ),
        (RefType::I31REF.nullable(false), "646C"),
    ] {
        is_encoded(rt.alloc(), &ty, hex)?;
        is_encoded(rt.alloc(), &ValType::from(ty), hex)?;
    }
    Ok(())
}

#[test]
fn heap_types(rt: HostRuntime) -> Result<(), Fail> {
    for (ty, hex) in [
        (HeapType::ANY, "6E"),
        (HeapType::FUNC, "70"),
        (HeapType::EXTERN, "6F"),
        (HeapType::I31, "6C"),
    ] {
        is_encoded(rt.alloc(), &ty, hex)?;
    }
    Ok(())
}

#[test]
fn value_types(rt: HostRuntime) -> Result<(), Fail> {
    for (ty, hex) in [
        (ValType::FUNCREF, "70"),
        (ValType::EXTERNREF, "6F"),
        (ValType::EXNREF, "69"),
    ] {
        is_encoded(rt.alloc(), &ty, hex)?;
    }
    Ok(())
}
