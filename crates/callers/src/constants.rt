//! The named types and the header of modules, equal to those of the standard (Core 3.0, Heap Types to Value Types).
ghost use Rattle.std.specs.Prelude.{◌≡◌, true, false};
ghost use Rattle.wasm_encoder.specs.Sections.{header};
ghost use Rattle.wasm_types.specs.formats.Types.{reference};
ghost use Rattle.wasm_types.specs.declared.types.heap.AbstractHeapType.TheVariants as abstracts;
ghost use Rattle.wasm_types.specs.declared.types.heap.HeapType.TheVariants.{Abstract};
ghost use Rattle.wasm_types.specs.declared.types.value.ValType.TheVariants as values;

use wasm_encoder::{HeapType, Module, RefType, ValType};

/// Returns `HeapType::ANY`.
pub fn any() -> HeapType
    ensures { result ≡ Abstract false abstracts.Any }
{
    HeapType::ANY
}

/// Returns `HeapType::FUNC`.
pub fn func() -> HeapType
    ensures { result ≡ Abstract false abstracts.Func }
{
    HeapType::FUNC
}

/// Returns `HeapType::EXTERN`.
pub fn external() -> HeapType
    ensures { result ≡ Abstract false abstracts.Extern }
{
    HeapType::EXTERN
}

/// Returns `HeapType::I31`.
pub fn i31() -> HeapType
    ensures { result ≡ Abstract false abstracts.I31 }
{
    HeapType::I31
}

/// Returns `RefType::ANYREF`.
pub fn anyref() -> RefType
    ensures { result ≡ reference true (Abstract false abstracts.Any) }
{
    RefType::ANYREF
}

/// Returns `RefType::EQREF`.
pub fn eqref() -> RefType
    ensures { result ≡ reference true (Abstract false abstracts.Eq) }
{
    RefType::EQREF
}

/// Returns `RefType::FUNCREF`.
pub fn funcref() -> RefType
    ensures { result ≡ reference true (Abstract false abstracts.Func) }
{
    RefType::FUNCREF
}

/// Returns `RefType::EXTERNREF`.
pub fn externref() -> RefType
    ensures { result ≡ reference true (Abstract false abstracts.Extern) }
{
    RefType::EXTERNREF
}

/// Returns `RefType::I31REF`.
pub fn i31ref() -> RefType
    ensures { result ≡ reference true (Abstract false abstracts.I31) }
{
    RefType::I31REF
}

/// Returns `RefType::ARRAYREF`.
pub fn arrayref() -> RefType
    ensures { result ≡ reference true (Abstract false abstracts.Array) }
{
    RefType::ARRAYREF
}

/// Returns `RefType::EXNREF`.
pub fn exnref() -> RefType
    ensures { result ≡ reference true (Abstract false abstracts.Exn) }
{
    RefType::EXNREF
}

/// Returns `ValType::FUNCREF`.
pub fn funcref_value() -> ValType
    ensures { result ≡ values.Ref (reference true (Abstract false abstracts.Func)) }
{
    ValType::FUNCREF
}

/// Returns `ValType::EXTERNREF`.
pub fn externref_value() -> ValType
    ensures { result ≡ values.Ref (reference true (Abstract false abstracts.Extern)) }
{
    ValType::EXTERNREF
}

/// Returns `ValType::EXNREF`.
pub fn exnref_value() -> ValType
    ensures { result ≡ values.Ref (reference true (Abstract false abstracts.Exn)) }
{
    ValType::EXNREF
}

/// Returns `Module::HEADER`.
pub fn module_header() -> [u8; 8]
    ensures { result ≡ header }
{
    Module::HEADER
}
