//! Heap types and reference types (Core 3.0, Heap Types to Reference Types).
ghost use Rattle.std.specs.Prelude.{[], ◌≡◌, ◌∷◌, ◌++◌, ◌+◌, ◌≤◌, Some, IfSome, vec_len, vec_capacity};
ghost use Rattle.wasm_codec.specs.Encoding.{IsMinimal};
ghost use Rattle.wasm_codec.specs.Inputs.{Takes};
ghost use Rattle.wasm_codec.specs.Scanning.{Scans};
ghost use Rattle.wasm_codec.specs.declared.rewriter.scan.Scanned.TheVariants.{Minimal};
ghost use Rattle.wasm_codec.specs.formats.Combinators.{flagged, index as index_format};
ghost use Rattle.wasm_types.specs.TypeRanges.{HeapTypeFits};
ghost use Rattle.wasm_types.specs.formats.Types.{abstract_type, heap_type, ref_type};

use std::alloc::Allocator;
use wasm_codec::encode::EncodeError;
use wasm_codec::encode::leb128::{put_index, put_u32};
use wasm_codec::input::Input;
use wasm_codec::reader::cursor::Fault;
use wasm_codec::reader::malformed::Construct;
use wasm_lists::encode::Encode;

/// An abstract heap type, which has a name instead of a definition (Core 3.0, Heap Types).
#[derive(Clone, Copy, Debug, PartialEq, Eq, Hash, PartialOrd, Ord)]
pub enum AbstractHeapType {
    /// `func`: all functions.
    Func,
    /// `extern`: all values of the host.
    Extern,
    /// `any`: all internal values.
    Any,
    /// `none`: subtype of all internal types.
    None,
    /// `noextern`: subtype of all external types.
    NoExtern,
    /// `nofunc`: subtype of all function types.
    NoFunc,
    /// `eq`: values that can be compared.
    Eq,
    /// `struct`: all structures.
    Struct,
    /// `array`: all arrays.
    Array,
    /// `i31`: integers of 31 bits.
    I31,
    /// `exn`: all exceptions.
    Exn,
    /// `noexn`: subtype of all exception types.
    NoExn,
    /// `cont`: all continuations.
    Cont,
    /// `nocont`: subtype of all continuation types.
    NoCont,
}

/// The type that a reference refers to (Core 3.0, Heap Types).
#[derive(Clone, Copy, Debug, PartialEq, Eq, Hash, PartialOrd, Ord)]
pub enum HeapType {
    /// An abstract heap type.
    Abstract {
        /// Whether it is shared between threads.
        shared: bool,
        /// The heap type itself.
        ty: AbstractHeapType,
    },
    /// The defined type of this index, or a subtype of it.
    Concrete(u32),
    /// Exactly the defined type of this index (custom descriptors proposal).
    Exact(u32),
}

impl HeapType {
    /// `any`.
    pub const ANY: HeapType = HeapType::Abstract {
        shared: false,
        ty: AbstractHeapType::Any,
    };

    /// `func`.
    pub const FUNC: HeapType = HeapType::Abstract {
        shared: false,
        ty: AbstractHeapType::Func,
    };

    /// `extern`.
    pub const EXTERN: HeapType = HeapType::Abstract {
        shared: false,
        ty: AbstractHeapType::Extern,
    };

    /// `i31`.
    pub const I31: HeapType = HeapType::Abstract {
        shared: false,
        ty: AbstractHeapType::I31,
    };
}

/// A reference type (Core 3.0, Reference Types).
///
/// # Examples
///
/// ```
/// # use wasm_encoder::{Encode, HeapType, RefType};
/// let mut bytes = Vec::new(rt.alloc());
/// RefType::EXTERNREF.encode(&mut bytes)?;
/// let of_type_5 = RefType {
///     nullable: true,
///     heap_type: HeapType::Concrete(5),
/// };
/// of_type_5.encode(&mut bytes)?;
/// assert_eq!(rt; bytes.as_slice(), b"\x6f\x63\x05".as_slice());
/// assert_eq!(rt; of_type_5.to_string(rt.alloc())?.as_str(), "(ref null 5)");
/// ```
#[derive(Clone, Copy, Debug, PartialEq, Eq, Hash, PartialOrd, Ord)]
pub struct RefType {
    /// Whether the reference can be null.
    pub nullable: bool,
    /// Type that it refers to.
    pub heap_type: HeapType,
}

impl RefType {
    /// `anyref`.
    pub const ANYREF: RefType = RefType {
        nullable: true,
        heap_type: HeapType::ANY,
    };

    /// `eqref`.
    pub const EQREF: RefType = RefType {
        nullable: true,
        heap_type: HeapType::Abstract {
            shared: false,
            ty: AbstractHeapType::Eq,
        },
    };

    /// `funcref`.
    pub const FUNCREF: RefType = RefType {
        nullable: true,
        heap_type: HeapType::FUNC,
    };

    /// `externref`.
    pub const EXTERNREF: RefType = RefType {
        nullable: true,
        heap_type: HeapType::EXTERN,
    };

    /// `i31ref`.
    pub const I31REF: RefType = RefType {
        nullable: true,
        heap_type: HeapType::I31,
    };

    /// `arrayref`.
    pub const ARRAYREF: RefType = RefType {
        nullable: true,
        heap_type: HeapType::Abstract {
            shared: false,
            ty: AbstractHeapType::Array,
        },
    };

    /// `exnref`.
    pub const EXNREF: RefType = RefType {
        nullable: true,
        heap_type: HeapType::Abstract {
            shared: false,
            ty: AbstractHeapType::Exn,
        },
    };

    /// Returns a reference type to an abstract heap type.
    pub fn new_abstract(ty: AbstractHeapType, nullable: bool, shared: bool) -> RefType
        ensures { result ≡ record { nullable = nullable; heap_type = HeapType.Abstract shared ty } }
    {
        RefType {
            nullable,
            heap_type: HeapType::Abstract { shared, ty },
        }
    }

    /// Returns the same reference type, nullable or not.
    pub fn nullable(self, nullable: bool) -> RefType
        ensures { result ≡ record self { nullable = nullable } }
    {
        RefType { nullable, ..self }
    }
}

/// Takes an abstract heap type that isn't shared.
#[tactic(auto, unfolding(crate::specs::formats::Types::abstract_type))]
fn take_abstract_type<I: Input>(
    input: &mut I,
    construct: Construct,
) -> Result<AbstractHeapType, Fault>
    ensures takes { Takes I.writes abstract_type (I.state input.old) (I.state input.new) result }
{
    match input.byte_of(construct)? {
        0x75 => Ok(AbstractHeapType::NoCont),
        0x74 => Ok(AbstractHeapType::NoExn),
        0x73 => Ok(AbstractHeapType::NoFunc),
        0x72 => Ok(AbstractHeapType::NoExtern),
        0x71 => Ok(AbstractHeapType::None),
        0x70 => Ok(AbstractHeapType::Func),
        0x6f => Ok(AbstractHeapType::Extern),
        0x6e => Ok(AbstractHeapType::Any),
        0x6d => Ok(AbstractHeapType::Eq),
        0x6c => Ok(AbstractHeapType::I31),
        0x6b => Ok(AbstractHeapType::Struct),
        0x6a => Ok(AbstractHeapType::Array),
        0x69 => Ok(AbstractHeapType::Exn),
        0x68 => Ok(AbstractHeapType::Cont),
        byte => Err(Fault::Malformed(input.invalid(construct, byte))),
    }
}

/// Takes an abstract heap type, and whether it is shared.
fn take_shared_type<I: Input>(
    input: &mut I,
    construct: Construct,
) -> Result<(bool, AbstractHeapType), Fault>
    ensures takes { Takes I.writes (flagged 0x65 abstract_type) (I.state input.old) (I.state input.new) result }
{
    if input.peek(construct)? == 0x65 {
        input.byte_of(construct)?;
        return Ok((
            true,
            take_abstract_type(input, Construct::AbstractHeapType)?,
        ));
    }
    Ok((false, take_abstract_type(input, construct)?))
}

/// Takes a heap type (Core 3.0, Heap Types).
#[tactic(auto, unfolding(crate::specs::formats::Types::heap_type))]
pub fn take_heap_type<I: Input>(input: &mut I) -> Result<HeapType, Fault>
    ensures takes { Takes I.writes heap_type (I.state input.old) (I.state input.new) result }
{
    let first = input.peek(Construct::HeapType)?;
    if !(0x40..0x80).contains(&first) {
        return Ok(HeapType::Concrete(input.index()?));
    }
    if first == 0x62 {
        input.byte_of(Construct::HeapType)?;
        return Ok(HeapType::Exact(input.u32()?));
    }
    let (shared, ty) = take_shared_type(input, Construct::HeapType)?;
    Ok(HeapType::Abstract { shared, ty })
}

/// Takes a reference type, by any of its forms (Core 3.0, Reference Types).
pub fn take_ref_type<I: Input>(input: &mut I) -> Result<RefType, Fault>
    ensures takes { Takes I.writes ref_type (I.state input.old) (I.state input.new) result }
{
    take_ref_type_as(input, Construct::RefType)
}

/// Takes a reference type as a part of this construct. The long form of a nullable abstract one loses its first byte.
#[inline(never)]
#[tactic(auto, using(std::proofs::Common::append_assoc), unfolding(crate::specs::formats::Types::ref_type, crate::specs::formats::Types::heap_type))]
pub(crate) fn take_ref_type_as<I: Input>(
    input: &mut I,
    construct: Construct,
) -> Result<RefType, Fault>
    ensures takes { Takes I.writes ref_type (I.state input.old) (I.state input.new) result }
{
    let first = input.peek(construct)?;
    if first == 0x63 {
        let mark = input.mark();
        input.byte_of(construct)?;
        let heap_type = take_heap_type(input)?;
        if matches!(heap_type, HeapType::Abstract { .. }) {
            input.leave_out(mark, 1);
        }
        return Ok(RefType {
            nullable: true,
            heap_type,
        });
    }
    if first == 0x64 {
        input.byte_of(construct)?;
        let heap_type = take_heap_type(input)?;
        return Ok(RefType {
            nullable: false,
            heap_type,
        });
    }
    let (shared, ty) = take_shared_type(input, construct)?;
    Ok(RefType::new_abstract(ty, true, shared))
}

/// Returns the byte of an abstract heap type (Core 3.0, Heap Types).
#[tactic(auto, unfolding(crate::specs::formats::Types::abstract_type))]
fn abstract_byte(ty: AbstractHeapType) -> u8
    ensures { abstract_type.bytes ty ≡ result ∷ [] }
{
    match ty {
        AbstractHeapType::NoCont => 0x75,
        AbstractHeapType::NoExn => 0x74,
        AbstractHeapType::NoFunc => 0x73,
        AbstractHeapType::NoExtern => 0x72,
        AbstractHeapType::None => 0x71,
        AbstractHeapType::Func => 0x70,
        AbstractHeapType::Extern => 0x6f,
        AbstractHeapType::Any => 0x6e,
        AbstractHeapType::Eq => 0x6d,
        AbstractHeapType::I31 => 0x6c,
        AbstractHeapType::Struct => 0x6b,
        AbstractHeapType::Array => 0x6a,
        AbstractHeapType::Exn => 0x69,
        AbstractHeapType::Cont => 0x68,
    }
}

/// Writes an abstract heap type in one byte, or in two if it is shared.
fn put_abstract<A: Allocator>(bytes: &mut Vec<u8, A>, shared: bool, ty: AbstractHeapType)
    requires { vec_len bytes.old + 2 ≤ vec_capacity bytes.old }
    ensures items { bytes.new.items ≡ bytes.old.items ++ (flagged 0x65 abstract_type).bytes (shared, ty) }
    ensures len { vec_len bytes.new ≤ vec_len bytes.old + 2 }
    ensures capacity { vec_capacity bytes.new ≡ vec_capacity bytes.old }
{
    if shared {
        bytes.push_reserved(0x65);
    }
    bytes.push_reserved(abstract_byte(ty));
}

/// Writes a heap type in 1 to 6 bytes (Core 3.0, Heap Types).
#[inline(always)]
#[tactic(auto, unfolding(crate::specs::formats::Types::heap_type))]
pub fn put_heap_type<A: Allocator>(bytes: &mut Vec<u8, A>, ty: HeapType)
    requires { vec_len bytes.old + 6 ≤ vec_capacity bytes.old }
    ensures items { bytes.new.items ≡ bytes.old.items ++ heap_type.bytes ty }
    ensures fits { HeapTypeFits ty }
    ensures len { vec_len bytes.new ≤ vec_len bytes.old + 6 }
    ensures capacity { vec_capacity bytes.new ≡ vec_capacity bytes.old }
{
    match ty {
        HeapType::Abstract { shared, ty } => put_abstract(bytes, shared, ty),
        HeapType::Concrete(index) => put_index(bytes, index),
        HeapType::Exact(index) => {
            bytes.push_reserved(0x62);
            put_u32(bytes, index);
        }
    }
}

/// Writes a reference type in 1 to 7 bytes, in its short form if it has one (Core 3.0, Reference Types).
#[inline(never)]
#[tactic(auto, unfolding(crate::specs::formats::Types::ref_type))]
pub fn put_ref_type<A: Allocator>(bytes: &mut Vec<u8, A>, ty: RefType)
    requires { vec_len bytes.old + 7 ≤ vec_capacity bytes.old }
    ensures items { bytes.new.items ≡ bytes.old.items ++ ref_type.bytes ty }
    ensures fits { HeapTypeFits ty.heap_type }
    ensures len { vec_len bytes.new ≤ vec_len bytes.old + 7 }
    ensures capacity { vec_capacity bytes.new ≡ vec_capacity bytes.old }
{
    if !ty.nullable {
        bytes.push_reserved(0x64);
        put_heap_type(bytes, ty.heap_type);
        return;
    }
    match ty.heap_type {
        HeapType::Abstract { shared, ty } => put_abstract(bytes, shared, ty),
        HeapType::Concrete(_) | HeapType::Exact(_) => {
            bytes.push_reserved(0x63);
            put_heap_type(bytes, ty.heap_type);
        }
    }
}

/// One byte (Core 3.0, Heap Types).
#[tactic(auto, using(crate::proofs::WrittenTypes::abstract_written))]
impl Encode for AbstractHeapType {
    ghost bytes = { abstract_type.bytes };

    ghost IsWritten = { IsMinimal abstract_type.Encodes abstract_type.bytes };

    fn encode<A: Allocator>(&self, sink: &mut Vec<u8, A>) -> Result<(), EncodeError> {
        sink.reserve(1)?;
        sink.push_reserved(abstract_byte(*self));
        Ok(())
    }
}

/// One byte for an abstract heap type, `0x65` before it if shared; an index as an s33, or `0x62` and an index (Core
/// 3.0, Heap Types).
#[tactic(auto, using(crate::proofs::WrittenTypes::heap_written))]
impl Encode for HeapType {
    ghost bytes = { heap_type.bytes };

    ghost IsWritten = { IsMinimal heap_type.Encodes heap_type.bytes };

    fn encode<A: Allocator>(&self, sink: &mut Vec<u8, A>) -> Result<(), EncodeError> {
        sink.reserve(6)?;
        put_heap_type(sink, *self);
        Ok(())
    }
}

/// One byte for a nullable abstract type, two if shared; otherwise `0x63` or `0x64` and the heap type (Core 3.0,
/// Reference Types).
#[tactic(auto, using(crate::proofs::WrittenTypes::ref_written))]
impl Encode for RefType {
    ghost bytes = { ref_type.bytes };

    ghost IsWritten = { IsMinimal ref_type.Encodes ref_type.bytes };

    fn encode<A: Allocator>(&self, sink: &mut Vec<u8, A>) -> Result<(), EncodeError> {
        sink.reserve(7)?;
        put_ref_type(sink, *self);
        Ok(())
    }
}

/// Returns the length in bytes of the type index that the bytes begin with, in the place of a type. Returns `None`
/// unless it is minimally encoded in one or two bytes.
#[inline(always)]
#[tactic(auto, using(crate::proofs::ScannedValTypes::index_one_scanned, crate::proofs::ScannedValTypes::index_two_scanned))]
pub fn scan_type_index(bytes: &[u8]) -> Option<usize>
    ensures { IfSome result (λ count. Scans index_format bytes.now (Some (Minimal count))) }
{
    if bytes.len() == 0 {
        return None;
    }
    if bytes[0] < 64 {
        return Some(1);
    }
    if bytes[0] < 128 {
        return None;
    }
    if bytes.len() == 1 {
        return None;
    }
    if bytes[1] >= 64 {
        return None;
    }
    // The second byte only repeats the sign.
    if bytes[1] == 0 && bytes[0] < 192 {
        return None;
    }
    Some(2)
}

/// Returns the length in bytes of the heap type that the bytes begin with. Returns `None` unless it is abstract and not
/// shared, or a type index of one or two bytes.
#[inline(always)]
#[tactic(auto, using(crate::proofs::ScannedValTypes::one_heap, crate::proofs::ScannedValTypes::concrete_found))]
pub fn scan_heap_type(bytes: &[u8]) -> Option<usize>
    ensures { IfSome result (λ count. Scans heap_type bytes.now (Some (Minimal count))) }
{
    if bytes.len() == 0 {
        return None;
    }
    if bytes[0] < 0x68 || bytes[0] >= 0x76 {
        return scan_type_index(bytes);
    }
    Some(1)
}
