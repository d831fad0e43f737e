//! Copies of the types that own lists.
ghost use Rattle.std.specs.Prelude.{◌≡◌, IfOk, IfErr};
ghost use Rattle.wasm_codec.specs.declared.encode.EncodeError.TheVariants.{Memory};

use crate::types::composite::{CompositeInnerType, CompositeType, StructType};
use crate::types::recursive::{SubType, TypeEntry};
use std::alloc::Global;
use wasm_codec::encode::EncodeError;
use wasm_lists::list::Items;

impl StructType {
    /// Returns a copy. Fails with `Memory` if an allocation fails.
    pub fn try_clone(&self) -> Result<StructType, EncodeError>
        ensures ok { IfOk result (λ ty. ty ≡ self.now) }
        ensures err { IfErr result (λ e. e ≡ Memory) }
    {
        let fields = self.fields.try_clone()?;
        Ok(StructType { fields })
    }
}

impl CompositeInnerType {
    /// Returns a copy. Fails with `Memory` if an allocation fails.
    pub fn try_clone(&self) -> Result<CompositeInnerType, EncodeError>
        ensures ok { IfOk result (λ ty. ty ≡ self.now) }
        ensures err { IfErr result (λ e. e ≡ Memory) }
    {
        Ok(match self {
            CompositeInnerType::Func(ty) => CompositeInnerType::Func(ty.try_clone()?),
            CompositeInnerType::Array(ty) => CompositeInnerType::Array(*ty),
            CompositeInnerType::Struct(ty) => CompositeInnerType::Struct(ty.try_clone()?),
            CompositeInnerType::Cont(ty) => CompositeInnerType::Cont(*ty),
        })
    }
}

impl CompositeType {
    /// Returns a copy. Fails with `Memory` if an allocation fails.
    pub fn try_clone(&self) -> Result<CompositeType, EncodeError>
        ensures ok { IfOk result (λ ty. ty ≡ self.now) }
        ensures err { IfErr result (λ e. e ≡ Memory) }
    {
        Ok(CompositeType {
            inner: self.inner.try_clone()?,
            shared: self.shared,
            descriptor: self.descriptor,
            describes: self.describes,
        })
    }
}

impl SubType {
    /// Returns a copy. Fails with `Memory` if an allocation fails.
    pub fn try_clone(&self) -> Result<SubType, EncodeError>
        ensures ok { IfOk result (λ ty. ty ≡ self.now) }
        ensures err { IfErr result (λ e. e ≡ Memory) }
    {
        Ok(SubType {
            is_final: self.is_final,
            supertype_idxs: self.supertype_idxs.try_clone()?,
            composite_type: self.composite_type.try_clone()?,
        })
    }
}

impl TypeEntry {
    /// Returns a copy. Fails with `Memory` if an allocation fails.
    pub fn try_clone(&self) -> Result<TypeEntry, EncodeError>
        ensures ok { IfOk result (λ entry. entry ≡ self.now) }
        ensures err { IfErr result (λ e. e ≡ Memory) }
    {
        Ok(match self {
            TypeEntry::Sub(ty) => TypeEntry::Sub(ty.try_clone()?),
            TypeEntry::Rec(types) => {
                let copies = copies_of(types.allocator(), types.as_slice())?;
                TypeEntry::Rec(Items::from(copies))
            }
        })
    }
}

/// Copies the types of a recursion group.
fn copies_of(alloc: Global, types: &[SubType]) -> Result<Vec<SubType>, EncodeError>
    ensures ok { IfOk result (λ copies. copies.items ≡ types.now) }
    ensures err { IfErr result (λ e. e ≡ Memory) }
{
    let mut copies = Vec::with_capacity(alloc, types.len())?;
    for ty in types {
        copies.push(ty.try_clone()?)?;
    }
    Ok(copies)
}
