//! Composite types: types of fields, structures, arrays, functions and continuations (Core 3.0, Composite Types).
ghost use Rattle.std.specs.Iterator.{Drains, IsFinite};
ghost use Rattle.std.specs.Prelude.{◌≡◌, ◌++◌, ◌+◌, ◌≤◌, IfErr, IfOk, IfSome, OnOk, Some, length, take, vec_len, vec_capacity};
ghost use Rattle.wasm_codec.specs.Encoding.{IsRefusal, IsMinimal, OnlyTooLong};
ghost use Rattle.wasm_codec.specs.Inputs.{Takes};
ghost use Rattle.wasm_codec.specs.Places.{Reads};
ghost use Rattle.wasm_codec.specs.Rewriter.{Rewrites};
ghost use Rattle.wasm_codec.specs.Scanning.{Scans};
ghost use Rattle.wasm_codec.specs.declared.encode.EncodeError.TheVariants.{Memory};
ghost use Rattle.wasm_codec.specs.declared.rewriter.scan.Scanned.TheVariants.{Minimal};
ghost use Rattle.wasm_codec.specs.formats.Combinators.{optional, u32};
ghost use Rattle.wasm_lists.specs.Iterators.{OfIterator};
ghost use Rattle.wasm_types.specs.TypeCounts.{CountedComposite, CountedFunc, CountedInner, CountedStruct};
ghost use Rattle.wasm_types.specs.TypeRanges.{StorageTypeFits};
ghost use Rattle.wasm_types.specs.declared.types.composite.CompositeInnerType.TheVariants as inner;
ghost use Rattle.wasm_types.specs.formats.Types.{composite_type, field_type, inner_type};

use crate::types::value::{
    StorageType, ValType, put_storage_type, scan_storage_type, take_storage_type,
};
use std::alloc::{Allocator, Global};
use wasm_codec::encode::leb128::{put_index, put_u32};
use wasm_codec::encode::{EncodeError, keep_or_undo};
use wasm_codec::input::Input;
use wasm_codec::reader::cursor::{Cursor, Fault};
use wasm_codec::reader::malformed::Construct;
use wasm_codec::rewriter::Rewriter;
use wasm_lists::encode::{Encode, encode_list, encode_list_after};
use wasm_lists::list::Items;
use wasm_lists::readable::Item;
use wasm_lists::reading::read_list;
use wasm_lists::rewriting::rewrite_list;

/// The type of a structure's field or an array's elements.
#[derive(Clone, Copy, Debug, PartialEq, Eq, Hash, PartialOrd, Ord)]
pub struct FieldType {
    /// Type of the stored value.
    pub element_type: StorageType,
    /// Whether the value can be written.
    pub mutable: bool,
}

/// An array type, by the type of its elements.
#[derive(Clone, Copy, Debug, PartialEq, Eq, Hash)]
pub struct ArrayType(pub FieldType);

/// A continuation type, by the index of its function type.
#[derive(Clone, Copy, Debug, PartialEq, Eq, Hash)]
pub struct ContType(pub u32);

/// A structure type.
#[derive(Debug, PartialEq, Eq, Hash, Drop)]
pub struct StructType {
    /// Types of the fields, in order.
    pub fields: Items<FieldType>,
}

impl StructType {
    /// Returns a structure type with these fields. Fails with `Memory` if an allocation fails.
    pub fn new(alloc: Global, fields: &[FieldType]) -> Result<StructType, EncodeError>
        ensures ok { IfOk result (λ ty. ty.fields ≡ fields.now) }
        ensures err { IfErr result (λ e. e ≡ Memory) }
    {
        let fields = Items::from_slice(alloc, fields)?;
        Ok(StructType { fields })
    }
}

/// A function type (Core 3.0, Composite Types).
///
/// # Examples
///
/// ```
/// # use wasm_encoder::{Encode, FuncType, ValType};
/// let params = [ValType::I32, ValType::I64];
/// let ty = FuncType::new(rt.alloc(), params, [])?;
/// assert_eq!(rt; ty.params(), params.as_slice());
/// assert!(rt; ty.results().is_empty());
/// ```
#[derive(Debug, PartialEq, Eq, Hash, Drop)]
pub struct FuncType {
    params: Items<ValType>,
    results: Items<ValType>,
}

impl FuncType {
    /// Returns a function type with these parameters and results: arrays, `vec.into_iter()` or
    /// `slice.iter().copied()`. Fails with `Memory` if an allocation fails.
    pub fn new<P: IntoIterator<Item = ValType>, R: IntoIterator<Item = ValType>>(
        alloc: Global,
        params: P,
        results: R,
    ) -> Result<FuncType, EncodeError>
        requires params { (items : P.IntoIter) → P.into_iter_gives params items → P.IntoIter.can_next items × IsFinite (P.IntoIter.remaining items) }
        requires results { (items : R.IntoIter) → R.into_iter_gives results items → R.IntoIter.can_next items × IsFinite (R.IntoIter.remaining items) }
        ensures params { IfOk result (λ ty. OfIterator P.into_iter_gives params (λ items. Drains P.IntoIter.next_gives items ty.params)) }
        ensures results { IfOk result (λ ty. OfIterator R.into_iter_gives results (λ items. Drains R.IntoIter.next_gives items ty.results)) }
        ensures err { IfErr result (λ e. e ≡ Memory) }
    {
        let (params, results) = (params.into_iter(), results.into_iter());
        let params: Vec<ValType> = params.collect(alloc)?;
        let results: Vec<ValType> = results.collect(alloc)?;
        Ok(FuncType {
            params: Items::from(params),
            results: Items::from(results),
        })
    }

    /// Returns a function type with these parameters and results.
    pub fn from_lists(params: Items<ValType>, results: Items<ValType>) -> FuncType
        ensures { result ≡ record { params = params; results = results } }
    {
        FuncType { params, results }
    }

    /// Returns a copy. Fails with `Memory` if an allocation fails.
    pub fn try_clone(&self) -> Result<FuncType, EncodeError>
        ensures ok { IfOk result (λ ty. ty ≡ self.now) }
        ensures err { IfErr result (λ e. e ≡ Memory) }
    {
        Ok(FuncType {
            params: self.params.try_clone()?,
            results: self.results.try_clone()?,
        })
    }

    /// Returns the types of the parameters.
    pub fn params(&self) -> &[ValType]
        ensures value { result.now ≡ self.now.params }
    {
        self.params.as_slice()
    }

    /// Returns the types of the results.
    pub fn results(&self) -> &[ValType]
        ensures value { result.now ≡ self.now.results }
    {
        self.results.as_slice()
    }
}

/// A composite type without the additions of proposals.
#[derive(Debug, PartialEq, Eq, Drop)]
pub enum CompositeInnerType {
    /// A function type.
    Func(FuncType),
    /// An array type.
    Array(ArrayType),
    /// A structure type.
    Struct(StructType),
    /// A continuation type (stack switching proposal).
    Cont(ContType),
}

/// A composite type, with the additions of the proposals on shared types and custom descriptors (Core 3.0, Composite
/// Types).
#[derive(Debug, PartialEq, Eq, Drop)]
pub struct CompositeType {
    /// The type without these additions.
    pub inner: CompositeInnerType,
    /// Whether it is shared between threads.
    pub shared: bool,
    /// Index of the type that describes this one. `None` means that there is none.
    pub descriptor: Option<u32>,
    /// Index of the type that this one describes. `None` means that there is none.
    pub describes: Option<u32>,
}

/// Takes a field type (Core 3.0, Composite Types).
#[tactic(auto, unfolding(crate::specs::formats::Types::field_type, crate::specs::formats::Types::mutability))]
pub(crate) fn take_field_type<I: Input>(input: &mut I) -> Result<FieldType, Fault>
    ensures takes { Takes I.writes field_type (I.state input.old) (I.state input.new) result }
{
    let element_type = take_storage_type(input)?;
    let mutable = match input.byte_of(Construct::Mutability)? {
        0x00 => false,
        0x01 => true,
        byte => return Err(Fault::Malformed(input.invalid(Construct::Mutability, byte))),
    };
    Ok(FieldType {
        element_type,
        mutable,
    })
}

/// Returns the length in bytes of the field type that the bytes begin with. Returns `None` unless it is minimally
/// encoded and its storage type can be scanned.
#[inline(always)]
#[tactic(auto, using(crate::proofs::ScannedFields::field_scanned))]
pub(crate) fn scan_field_type(bytes: &[u8]) -> Option<usize>
    ensures { IfSome result (λ count. Scans field_type bytes.now (Some (Minimal count))) }
{
    let storage = scan_storage_type(bytes)?;
    if storage >= bytes.len() {
        return None;
    }
    if bytes[storage] >= 2 {
        return None;
    }
    Some(storage + 1)
}

/// Reads a function, structure, array or continuation type.
#[tactic(auto, unfolding(crate::specs::formats::Types::inner_type, crate::specs::formats::Types::result_type))]
pub(crate) fn read_inner_type(
    alloc: Global,
    cursor: &mut Cursor<'_>,
) -> Result<CompositeInnerType, Fault>
    ensures reads { Reads inner_type.at cursor.old cursor.new result }
{
    match cursor.byte_of(Construct::CompositeType)? {
        0x60 => {
            let params = read_list(alloc, cursor)?;
            let results = read_list(alloc, cursor)?;
            Ok(CompositeInnerType::Func(FuncType::from_lists(params, results)))
        }
        0x5f => {
            let fields = read_list(alloc, cursor)?;
            Ok(CompositeInnerType::Struct(StructType { fields }))
        }
        0x5e => Ok(CompositeInnerType::Array(ArrayType(take_field_type(cursor)?))),
        0x5d => Ok(CompositeInnerType::Cont(ContType(cursor.index()?))),
        byte => Err(Fault::Malformed(cursor.invalid(Construct::CompositeType, byte))),
    }
}

/// Rewrites a function, structure, array or continuation type.
#[tactic(auto, using(std::proofs::Common::append_assoc), unfolding(crate::specs::formats::Types::inner_type, crate::specs::formats::Types::result_type))]
pub(crate) fn rewrite_inner_type(rewriter: &mut Rewriter) -> Result<(), Fault>
    ensures rewrites { Rewrites inner_type rewriter.old rewriter.new result }
{
    match rewriter.byte_of(Construct::CompositeType)? {
        0x60 => {
            rewrite_list::<Item<'_, ValType>>(rewriter)?;
            rewrite_list::<Item<'_, ValType>>(rewriter)?;
        }
        0x5f => rewrite_list::<Item<'_, FieldType>>(rewriter)?,
        0x5e => {
            take_field_type(rewriter)?;
        }
        0x5d => {
            rewriter.index()?;
        }
        byte => return Err(Fault::Malformed(rewriter.invalid(Construct::CompositeType, byte))),
    }
    Ok(())
}

/// Reads an optional descriptor and the type after it.
fn read_described_type(
    alloc: Global,
    cursor: &mut Cursor<'_>,
) -> Result<(Option<u32>, CompositeInnerType), Fault>
    ensures reads { Reads (optional 0x4d u32 inner_type).at cursor.old cursor.new result }
{
    if cursor.peek(Construct::TypeForm)? == 0x4d {
        cursor.byte_of(Construct::TypeForm)?;
        let descriptor = cursor.u32()?;
        let inner = read_inner_type(alloc, cursor)?;
        return Ok((Some(descriptor), inner));
    }
    let inner = read_inner_type(alloc, cursor)?;
    Ok((None, inner))
}

/// Rewrites an optional descriptor and the type after it.
#[inline(always)]
#[tactic(auto, using(std::proofs::Common::append_assoc))]
fn rewrite_described_type(rewriter: &mut Rewriter) -> Result<(), Fault>
    ensures rewrites { Rewrites (optional 0x4d u32 inner_type) rewriter.old rewriter.new result }
{
    if rewriter.peek(Construct::TypeForm)? == 0x4d {
        rewriter.byte_of(Construct::TypeForm)?;
        rewriter.u32()?;
    }
    rewrite_inner_type(rewriter)
}

/// Reads an optional described type, and then the rest of a composite type.
fn read_describing_type(
    alloc: Global,
    cursor: &mut Cursor<'_>,
) -> Result<(Option<u32>, (Option<u32>, CompositeInnerType)), Fault>
    ensures reads { Reads (optional 0x4c u32 (optional 0x4d u32 inner_type)).at cursor.old cursor.new result }
{
    if cursor.peek(Construct::TypeForm)? == 0x4c {
        cursor.byte_of(Construct::TypeForm)?;
        let describes = cursor.u32()?;
        let rest = read_described_type(alloc, cursor)?;
        return Ok((Some(describes), rest));
    }
    let rest = read_described_type(alloc, cursor)?;
    Ok((None, rest))
}

/// Rewrites an optional described type, and then the rest of a composite type.
#[inline(always)]
#[tactic(auto, using(std::proofs::Common::append_assoc))]
fn rewrite_describing_type(rewriter: &mut Rewriter) -> Result<(), Fault>
    ensures rewrites { Rewrites (optional 0x4c u32 (optional 0x4d u32 inner_type)) rewriter.old rewriter.new result }
{
    if rewriter.peek(Construct::TypeForm)? == 0x4c {
        rewriter.byte_of(Construct::TypeForm)?;
        rewriter.u32()?;
    }
    rewrite_described_type(rewriter)
}

/// Reads a composite type (Core 3.0, Composite Types).
#[tactic(auto, unfolding(crate::specs::formats::Types::composite_type))]
pub(crate) fn read_composite_type(
    alloc: Global,
    cursor: &mut Cursor<'_>,
) -> Result<CompositeType, Fault>
    ensures reads { Reads composite_type.at cursor.old cursor.new result }
{
    let shared = cursor.peek(Construct::TypeForm)? == 0x65;
    if shared {
        cursor.byte_of(Construct::TypeForm)?;
    }
    let (describes, (descriptor, inner)) = read_describing_type(alloc, cursor)?;
    Ok(CompositeType {
        inner,
        shared,
        descriptor,
        describes,
    })
}

/// Rewrites a composite type (Core 3.0, Composite Types).
///
/// A structure or an array needs no look at the additions of proposals.
#[tactic(auto, using(std::proofs::Common::append_assoc), unfolding(crate::specs::formats::Types::composite_type))]
pub(crate) fn rewrite_composite_type(rewriter: &mut Rewriter) -> Result<(), Fault>
    ensures rewrites { Rewrites composite_type rewriter.old rewriter.new result }
{
    let first = rewriter.peek(Construct::TypeForm)?;
    if first == 0x5e || first == 0x5f {
        return rewrite_inner_type(rewriter);
    }
    if first == 0x65 {
        rewriter.byte_of(Construct::TypeForm)?;
    }
    rewrite_describing_type(rewriter)
}

/// Writes a field type in 2 to 8 bytes (Core 3.0, Composite Types).
#[tactic(auto, unfolding(crate::specs::formats::Types::field_type, crate::specs::formats::Types::mutability))]
fn put_field_type<A: Allocator>(bytes: &mut Vec<u8, A>, field: FieldType)
    requires { vec_len bytes.old + 8 ≤ vec_capacity bytes.old }
    ensures items { bytes.new.items ≡ bytes.old.items ++ field_type.bytes field }
    ensures fits { StorageTypeFits field.element_type }
    ensures capacity { vec_capacity bytes.new ≡ vec_capacity bytes.old }
{
    put_storage_type(bytes, field.element_type);
    bytes.push_reserved(u8::from(field.mutable));
}

/// A storage type, then `0x00` if the field is immutable or `0x01` if it is mutable (Core 3.0, Composite Types).
#[tactic(auto, using(crate::proofs::WrittenTypes::field_written))]
impl Encode for FieldType {
    ghost bytes = { field_type.bytes };

    ghost IsWritten = { IsMinimal field_type.Encodes field_type.bytes };

    fn encode<A: Allocator>(&self, sink: &mut Vec<u8, A>) -> Result<(), EncodeError> {
        sink.reserve(8)?;
        put_field_type(sink, *self);
        Ok(())
    }
}

/// Appends a function type. On error a part of it may remain.
#[tactic(auto, using(crate::proofs::WrittenTypes::func_ok), unfolding(crate::specs::formats::Types::inner_type, crate::specs::formats::Types::result_type))]
fn append_func<A: Allocator>(ty: &FuncType, sink: &mut Vec<u8, A>) -> Result<(), EncodeError>
    ensures ok { OnOk result (sink.new.items ≡ sink.old.items ++ inner_type.bytes (inner.Func ty.now)) }
    ensures can { OnOk result (CountedFunc ty.now) }
    ensures written { OnOk result (IsMinimal inner_type.Encodes inner_type.bytes (inner.Func ty.now)) }
    ensures refused { IfErr result (IsRefusal CountedFunc OnlyTooLong ty.now) }
    ensures kept { take (length sink.old.items) sink.new.items ≡ sink.old.items }
{
    encode_list_after(0x60, ty.params(), sink)?;
    encode_list(ty.results(), sink)
}

/// `0x60`, the parameters and the results (Core 3.0, Composite Types).
///
/// Fails with `TooLong` if there are more than 4,294,967,295 parameters or results.
impl Encode for FuncType {
    ghost bytes = { λ ty. inner_type.bytes (inner.Func ty) };

    ghost IsWritten = { λ ty. IsMinimal inner_type.Encodes inner_type.bytes (inner.Func ty) };

    ghost CanEncode = { CountedFunc };

    ghost refuses = { OnlyTooLong };

    fn encode<A: Allocator>(&self, sink: &mut Vec<u8, A>) -> Result<(), EncodeError> {
        let start = sink.len();
        let result = append_func(self, sink);
        keep_or_undo(sink, start, result)
    }
}

/// `0x5F` and the fields (Core 3.0, Composite Types).
///
/// Fails with `TooLong` if there are more than 4,294,967,295 fields.
#[tactic(auto, using(crate::proofs::WrittenTypes::struct_ok), unfolding(crate::specs::formats::Types::inner_type, crate::specs::formats::Types::result_type))]
impl Encode for StructType {
    ghost bytes = { λ ty. inner_type.bytes (inner.Struct ty) };

    ghost IsWritten = { λ ty. IsMinimal inner_type.Encodes inner_type.bytes (inner.Struct ty) };

    ghost CanEncode = { CountedStruct };

    ghost refuses = { OnlyTooLong };

    fn encode<A: Allocator>(&self, sink: &mut Vec<u8, A>) -> Result<(), EncodeError> {
        encode_list_after(0x5f, self.fields.as_slice(), sink)
    }
}

/// `0x5E` and the field (Core 3.0, Composite Types).
#[tactic(auto, using(crate::proofs::WrittenTypes::array_written), unfolding(crate::specs::formats::Types::inner_type, crate::specs::formats::Types::result_type))]
impl Encode for ArrayType {
    ghost bytes = { λ ty. inner_type.bytes (inner.Array ty) };

    ghost IsWritten = { λ ty. IsMinimal inner_type.Encodes inner_type.bytes (inner.Array ty) };

    fn encode<A: Allocator>(&self, sink: &mut Vec<u8, A>) -> Result<(), EncodeError> {
        sink.reserve(9)?;
        sink.push_reserved(0x5e);
        put_field_type(sink, self.0);
        Ok(())
    }
}

/// `0x5D` and the index of a function type, as an s33 (stack switching proposal).
#[tactic(auto, using(crate::proofs::WrittenTypes::cont_written), unfolding(crate::specs::formats::Types::inner_type, crate::specs::formats::Types::result_type))]
impl Encode for ContType {
    ghost bytes = { λ ty. inner_type.bytes (inner.Cont ty) };

    ghost IsWritten = { λ ty. IsMinimal inner_type.Encodes inner_type.bytes (inner.Cont ty) };

    fn encode<A: Allocator>(&self, sink: &mut Vec<u8, A>) -> Result<(), EncodeError> {
        sink.reserve(6)?;
        sink.push_reserved(0x5d);
        put_index(sink, self.0);
        Ok(())
    }
}

/// The encoding of the function, struct, array or continuation type (Core 3.0, Composite Types).
///
/// Fails with `TooLong` if a list in the type has more than 4,294,967,295 items.
impl Encode for CompositeInnerType {
    ghost bytes = { inner_type.bytes };

    ghost IsWritten = { IsMinimal inner_type.Encodes inner_type.bytes };

    ghost CanEncode = { CountedInner };

    ghost refuses = { OnlyTooLong };

    fn encode<A: Allocator>(&self, sink: &mut Vec<u8, A>) -> Result<(), EncodeError> {
        match self {
            CompositeInnerType::Func(ty) => ty.encode(sink),
            CompositeInnerType::Struct(ty) => ty.encode(sink),
            CompositeInnerType::Array(ty) => ty.encode(sink),
            CompositeInnerType::Cont(ty) => ty.encode(sink),
        }
    }
}

/// Appends a composite type. On error a part of it may remain.
#[tactic(auto, using(crate::proofs::WrittenTypes::composite_ok), unfolding(crate::specs::formats::Types::composite_type))]
fn append_composite<A: Allocator>(
    ty: &CompositeType,
    sink: &mut Vec<u8, A>,
) -> Result<(), EncodeError>
    ensures ok { OnOk result (sink.new.items ≡ sink.old.items ++ composite_type.bytes ty.now) }
    ensures can { OnOk result (CountedComposite ty.now) }
    ensures written { OnOk result (IsMinimal composite_type.Encodes composite_type.bytes ty.now) }
    ensures refused { IfErr result (IsRefusal CountedComposite OnlyTooLong ty.now) }
    ensures kept { take (length sink.old.items) sink.new.items ≡ sink.old.items }
{
    sink.reserve(13)?;
    if ty.shared {
        sink.push_reserved(0x65);
    }
    if let Some(index) = ty.describes {
        sink.push_reserved(0x4c);
        put_u32(sink, index);
    }
    if let Some(index) = ty.descriptor {
        sink.push_reserved(0x4d);
        put_u32(sink, index);
    }
    ty.inner.encode(sink)
}

/// `0x65` if the type is shared, `0x4C` and the index of the type that it describes, `0x4D` and the index of its
/// descriptor, and the inner type (Core 3.0, Composite Types; proposals).
///
/// Fails with `TooLong` if a list in the type has more than 4,294,967,295 items.
impl Encode for CompositeType {
    ghost bytes = { composite_type.bytes };

    ghost IsWritten = { IsMinimal composite_type.Encodes composite_type.bytes };

    ghost CanEncode = { CountedComposite };

    ghost refuses = { OnlyTooLong };

    fn encode<A: Allocator>(&self, sink: &mut Vec<u8, A>) -> Result<(), EncodeError> {
        let start = sink.len();
        let result = append_composite(self, sink);
        keep_or_undo(sink, start, result)
    }
}
