//! The questions that types answer, and their order.

use wasm_encoder::{AbstractHeapType, HeapType, RefType, StorageType, ValType};

#[test]
fn predicates(rt: HostRuntime) {
    let packed = [StorageType::I8, StorageType::I16];
    for ty in packed {
        assert_eq!(rt; ty.unpack(), ValType::I32);
        assert!(rt; ty.is_defaultable());
    }
    let strict = StorageType::Val(ValType::Ref(RefType::ANYREF.nullable(false)));
    assert!(rt; !strict.is_defaultable());
    assert!(rt; !strict.unpack().is_defaultable());
    for ty in [ValType::I32, ValType::I64, ValType::F32, ValType::F64] {
        assert!(rt; ty.is_numeric() && !ty.is_vector() && !ty.is_reference());
    }
    assert!(rt; ValType::V128.is_vector() && !ValType::V128.is_numeric());
    assert!(rt; ValType::FUNCREF.is_reference() && ValType::FUNCREF.is_defaultable());
}

/// The order is that of the declarations, and false is less than true.
#[test]
fn order(rt: HostRuntime) {
    assert!(rt; ValType::V128 < ValType::FUNCREF);
    assert!(rt; RefType::ANYREF.nullable(false) < RefType::FUNCREF);
    assert!(rt; HeapType::Concrete(9) < HeapType::Exact(0));
    assert!(rt; AbstractHeapType::Func < AbstractHeapType::NoCont);
    assert!(rt; StorageType::I16 < StorageType::Val(ValType::I32));
}
