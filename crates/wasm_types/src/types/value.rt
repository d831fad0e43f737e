//! Value types and storage types (Core 3.0, Value Types and Composite Types).
ghost use Rattle.std.specs.Prelude.{◌≡◌, ◌∷◌, ◌++◌, ◌+◌, ◌≤◌, true, List, ℕ, Some, IfSome, vec_len, vec_capacity};
ghost use Rattle.wasm_codec.specs.Encoding.{IsMinimal};
ghost use Rattle.wasm_codec.specs.Inputs.{Takes};
ghost use Rattle.wasm_codec.specs.Scanning.{Scans};
ghost use Rattle.wasm_codec.specs.declared.rewriter.scan.Scanned.TheVariants.{Minimal};
ghost use Rattle.wasm_types.specs.TypeRanges.{StorageTypeFits, ValTypeFits};
ghost use Rattle.wasm_types.specs.Types.{is_defaultable, is_numeric, is_reference, is_vector, unpacked};
ghost use Rattle.wasm_types.specs.declared.types.value.StorageType.TheVariants as storage_types;
ghost use Rattle.wasm_types.specs.declared.types.value.ValType.TheVariants.{Ref};
ghost use Rattle.wasm_types.specs.formats.Types.{storage_type, val_type};

use crate::types::heap::{
    RefType, put_ref_type, scan_heap_type, scan_type_index, take_ref_type_as,
};
use std::alloc::Allocator;
use wasm_codec::encode::EncodeError;
use wasm_codec::input::Input;
use wasm_codec::reader::cursor::Fault;
use wasm_codec::reader::malformed::Construct;
use wasm_lists::encode::{Encode, EncodeShort};

/// A value type (Core 3.0, Value Types).
///
/// # Examples
///
/// ```
/// # use wasm_encoder::{Encode, RefType, ValType};
/// let mut bytes = Vec::new(rt.alloc());
/// ValType::I32.encode(&mut bytes)?;
/// ValType::FUNCREF.encode(&mut bytes)?;
/// ValType::Ref(RefType::FUNCREF.nullable(false)).encode(&mut bytes)?;
/// assert_eq!(rt; bytes.as_slice(), b"\x7f\x70\x64\x70".as_slice());
/// assert_eq!(rt; ValType::FUNCREF.to_string(rt.alloc())?.as_str(), "funcref");
/// ```
#[derive(Clone, Copy, Debug, PartialEq, Eq, Hash, PartialOrd, Ord)]
pub enum ValType {
    /// `i32`.
    I32,
    /// `i64`.
    I64,
    /// `f32`.
    F32,
    /// `f64`.
    F64,
    /// `v128`.
    V128,
    /// A reference type.
    Ref(RefType),
}

impl ValType {
    /// `funcref`.
    pub const FUNCREF: ValType = ValType::Ref(RefType::FUNCREF);

    /// `externref`.
    pub const EXTERNREF: ValType = ValType::Ref(RefType::EXTERNREF);

    /// `exnref`.
    pub const EXNREF: ValType = ValType::Ref(RefType::EXNREF);

    /// Checks whether the type is `i32`, `i64`, `f32` or `f64`.
    pub fn is_numeric(&self) -> bool
        ensures { result ≡ is_numeric self.now }
    {
        matches!(
            self,
            ValType::I32 | ValType::I64 | ValType::F32 | ValType::F64
        )
    }

    /// Checks whether the type is `v128`.
    pub fn is_vector(&self) -> bool
        ensures { result ≡ is_vector self.now }
    {
        matches!(self, ValType::V128)
    }

    /// Checks whether the type is a reference type.
    pub fn is_reference(&self) -> bool
        ensures { result ≡ is_reference self.now }
    {
        matches!(self, ValType::Ref(_))
    }

    /// Checks whether a local of this type has a default value: it has one unless it is a reference that can't be null.
    pub fn is_defaultable(&self) -> bool
        ensures { result ≡ is_defaultable self.now }
    {
        match self {
            ValType::Ref(ty) => ty.nullable,
            _ => true,
        }
    }
}

impl From<RefType> for ValType {
    ghost from_gives = { λ ty value. value ≡ Ref ty };

    fn from(ty: RefType) -> ValType {
        ValType::Ref(ty)
    }
}

/// The type of a value in a field: a value type, or a packed type (Core 3.0, Composite Types).
///
/// # Examples
///
/// ```
/// # use wasm_encoder::{StorageType, ValType};
/// assert_eq!(rt; StorageType::I8.unpack(), ValType::I32);
/// assert_eq!(rt; StorageType::from(ValType::F64), StorageType::Val(ValType::F64));
/// ```
#[derive(Clone, Copy, Debug, PartialEq, Eq, Hash, PartialOrd, Ord)]
pub enum StorageType {
    /// `i8`.
    I8,
    /// `i16`.
    I16,
    /// A value type.
    Val(ValType),
}

impl From<ValType> for StorageType {
    ghost from_gives = { λ ty storage. storage ≡ storage_types.Val ty };

    fn from(ty: ValType) -> StorageType {
        StorageType::Val(ty)
    }
}

impl StorageType {
    /// Returns the type of the value read from the field: `i32` if it is packed.
    pub fn unpack(&self) -> ValType
        ensures { result ≡ unpacked self.now }
    {
        match self {
            StorageType::I8 | StorageType::I16 => ValType::I32,
            StorageType::Val(ty) => *ty,
        }
    }

    /// Checks whether the unpacked type has a default value.
    pub fn is_defaultable(&self) -> bool
        ensures { result ≡ is_defaultable (unpacked self.now) }
    {
        self.unpack().is_defaultable()
    }
}

/// Takes a value type (Core 3.0, Value Types).
#[inline(always)]
#[tactic(auto, unfolding(crate::specs::formats::Types::val_type))]
pub fn take_val_type<I: Input>(input: &mut I) -> Result<ValType, Fault>
    ensures takes { Takes I.writes val_type (I.state input.old) (I.state input.new) result }
{
    let ty = match input.peek(Construct::ValType)? {
        0x7f => ValType::I32,
        0x7e => ValType::I64,
        0x7d => ValType::F32,
        0x7c => ValType::F64,
        0x7b => ValType::V128,
        _ => return Ok(ValType::Ref(take_ref_type_as(input, Construct::ValType)?)),
    };
    input.byte_of(Construct::ValType)?;
    Ok(ty)
}

/// Takes a storage type (Core 3.0, Composite Types).
#[tactic(auto, unfolding(crate::specs::formats::Types::storage_type))]
pub(crate) fn take_storage_type<I: Input>(input: &mut I) -> Result<StorageType, Fault>
    ensures takes { Takes I.writes storage_type (I.state input.old) (I.state input.new) result }
{
    let ty = match input.peek(Construct::ValType)? {
        0x78 => StorageType::I8,
        0x77 => StorageType::I16,
        _ => return Ok(StorageType::Val(take_val_type(input)?)),
    };
    input.byte_of(Construct::ValType)?;
    Ok(ty)
}

/// Writes a value type in 1 to 7 bytes (Core 3.0, Value Types).
#[inline(always)]
#[tactic(auto, unfolding(crate::specs::formats::Types::val_type))]
pub fn put_val_type<A: Allocator>(bytes: &mut Vec<u8, A>, ty: ValType)
    requires { vec_len bytes.old + 7 ≤ vec_capacity bytes.old }
    ensures items { bytes.new.items ≡ bytes.old.items ++ val_type.bytes ty }
    ensures fits { ValTypeFits ty }
    ensures len { vec_len bytes.new ≤ vec_len bytes.old + 7 }
    ensures capacity { vec_capacity bytes.new ≡ vec_capacity bytes.old }
{
    let byte = match ty {
        ValType::I32 => 0x7f,
        ValType::I64 => 0x7e,
        ValType::F32 => 0x7d,
        ValType::F64 => 0x7c,
        ValType::V128 => 0x7b,
        ValType::Ref(ty) => {
            put_ref_type(bytes, ty);
            return;
        }
    };
    bytes.push_reserved(byte);
}

/// Writes a storage type in 1 to 7 bytes (Core 3.0, Composite Types).
#[tactic(auto, unfolding(crate::specs::formats::Types::storage_type))]
pub(crate) fn put_storage_type<A: Allocator>(bytes: &mut Vec<u8, A>, ty: StorageType)
    requires { vec_len bytes.old + 7 ≤ vec_capacity bytes.old }
    ensures items { bytes.new.items ≡ bytes.old.items ++ storage_type.bytes ty }
    ensures fits { StorageTypeFits ty }
    ensures len { vec_len bytes.new ≤ vec_len bytes.old + 7 }
    ensures capacity { vec_capacity bytes.new ≡ vec_capacity bytes.old }
{
    match ty {
        StorageType::I8 => bytes.push_reserved(0x78),
        StorageType::I16 => bytes.push_reserved(0x77),
        StorageType::Val(ty) => put_val_type(bytes, ty),
    }
}

/// One byte, or a reference type (Core 3.0, Value Types).
#[tactic(auto, using(crate::proofs::WrittenTypes::val_written))]
impl Encode for ValType {
    ghost bytes = { val_type.bytes };

    ghost IsWritten = { IsMinimal val_type.Encodes val_type.bytes };

    fn encode<A: Allocator>(&self, sink: &mut Vec<u8, A>) -> Result<(), EncodeError> {
        sink.reserve(7)?;
        put_val_type(sink, *self);
        Ok(())
    }
}

#[tactic(auto, using(crate::proofs::WrittenTypes::val_written))]
impl EncodeShort for ValType {
    #[inline(always)]
    fn put<A: Allocator>(&self, sink: &mut Vec<u8, A>) {
        put_val_type(sink, *self);
    }
}

/// One byte for a packed type, otherwise a value type (Core 3.0, Composite Types).
#[tactic(auto, using(crate::proofs::WrittenTypes::storage_written))]
impl Encode for StorageType {
    ghost bytes = { storage_type.bytes };

    ghost IsWritten = { IsMinimal storage_type.Encodes storage_type.bytes };

    fn encode<A: Allocator>(&self, sink: &mut Vec<u8, A>) -> Result<(), EncodeError> {
        sink.reserve(7)?;
        put_storage_type(sink, *self);
        Ok(())
    }
}

/// Checks whether the byte alone is a minimally encoded value type: a number or vector type, or a nullable reference to
/// an abstract heap type.
#[inline(always)]
pub fn is_whole_type(byte: u8) -> bool
    ensures { result ≡ true → (more : List ℕ) → Scans val_type (byte ∷ more) (Some (Minimal 1)) }
{
    if byte < 0x68 {
        return false;
    }
    if byte >= 0x80 {
        return false;
    }
    byte < 0x76 || byte >= 0x7b
}

/// Returns the length in bytes of the value type that the bytes begin with. Returns `None` unless it is minimally
/// encoded, and its heap type, if it has one, can be scanned.
#[inline(always)]
#[tactic(auto, using(crate::proofs::ScannedValTypes::whole_scanned))]
pub fn scan_val_type(bytes: &[u8]) -> Option<usize>
    ensures { IfSome result (λ count. Scans val_type bytes.now (Some (Minimal count))) }
{
    if bytes.len() == 0 {
        return None;
    }
    if is_whole_type(bytes[0]) {
        return Some(1);
    }
    match bytes[0] {
        // After this byte, an abstract heap type would be a long form.
        0x63 => {
            let index = scan_type_index(&bytes[1..])?;
            Some(1 + index)
        }
        0x64 => {
            let heap = scan_heap_type(&bytes[1..])?;
            Some(1 + heap)
        }
        _ => None,
    }
}

/// Returns the length in bytes of the storage type that the bytes begin with. Returns `None` unless it is a packed type
/// or a value type that can be scanned.
#[inline(always)]
#[tactic(auto, using(crate::proofs::ScannedFields::i8_found, crate::proofs::ScannedFields::i16_found, crate::proofs::ScannedFields::value_found))]
pub(crate) fn scan_storage_type(bytes: &[u8]) -> Option<usize>
    ensures { IfSome result (λ count. Scans storage_type bytes.now (Some (Minimal count))) }
{
    if bytes.len() == 0 {
        return None;
    }
    if bytes[0] == 0x77 {
        return Some(1);
    }
    if bytes[0] == 0x78 {
        return Some(1);
    }
    scan_val_type(bytes)
}
