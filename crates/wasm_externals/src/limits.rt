//! Limits, and the types of memories and tables (Core 3.0, Types).
ghost use Rattle.std.specs.Prelude.{◌≡◌, Some, None, false, IfSome, refl, ◌++◌, ◌+◌, ◌≤◌, is_some, vec_len, vec_capacity};
ghost use Rattle.wasm_codec.specs.Inputs.{Takes};
ghost use Rattle.wasm_codec.specs.formats.Combinators.{find, u32 as u32_format, u64 as u64_format};
ghost use Rattle.wasm_externals.specs.formats.PartCombinators.{part_if};
ghost use Rattle.wasm_externals.specs.formats.Externals.{flags_byte, all_flags, paged_byte, all_paged, limits_flags, memory_flags, memory_type, table_type};
ghost use Rattle.wasm_externals.specs.declared.limits.MemoryType.{MemoryType};
ghost use Rattle.wasm_codec.specs.Encoding.{IsMinimal};
ghost use Rattle.wasm_codec.specs.Leb128.{unsigned_leb128};
ghost use Rattle.wasm_codec.specs.formats.Numbers.{EncodesU32, EncodesU64};

use std::alloc::{Allocator, Global};
use wasm_codec::encode::EncodeError;
use wasm_codec::encode::leb128::{put_u32, put_u64};
use wasm_codec::input::Input;
use wasm_codec::reader::cursor::{Cursor, Fault};
use wasm_codec::reader::malformed::Construct;
use wasm_codec::rewriter::Rewriter;
use wasm_lists::encode::Encode;
use wasm_lists::readable::Readable;
use wasm_types::types::{RefType, put_ref_type, take_ref_type};

/// The type of a memory (Core 3.0, Memory Types).
///
/// # Examples
///
/// ```
/// # use wasm_encoder::{Encode, MemoryType};
/// let memory = MemoryType { maximum: Some(256), ..MemoryType::new(1) };
/// let mut bytes = Vec::new(rt.alloc());
/// memory.encode(&mut bytes)?; // a byte of flags, the minimum, the maximum
/// assert_eq!(rt; bytes.as_slice(), b"\x01\x01\x80\x02".as_slice());
/// ```
#[derive(Clone, Copy, Debug, PartialEq, Eq)]
pub struct MemoryType {
    /// Initial size in pages.
    pub minimum: u64,
    /// Maximum size in pages. `None` means no maximum.
    pub maximum: Option<u64>,
    /// Whether addresses have 64 bits instead of 32.
    pub memory64: bool,
    /// Whether threads may share the memory.
    pub shared: bool,
    /// Base-2 logarithm of the page size in bytes. `None` means 16.
    pub page_size_log2: Option<u32>,
}

impl MemoryType {
    /// Returns the type of a memory of `minimum` pages of 64 KiB, with 32-bit addresses and without a maximum.
    pub fn new(minimum: u64) -> MemoryType
        ensures { result ≡ record { minimum = minimum; maximum = None; memory64 = false; shared = false; page_size_log2 = None } }
    {
        MemoryType {
            minimum,
            maximum: None,
            memory64: false,
            shared: false,
            page_size_log2: None,
        }
    }
}

/// The type of a table (Core 3.0, Table Types).
#[derive(Clone, Copy, Debug, PartialEq, Eq)]
pub struct TableType {
    /// Type of the elements.
    pub element_type: RefType,
    /// Whether indices into the table have 64 bits instead of 32.
    pub table64: bool,
    /// Initial number of elements.
    pub minimum: u64,
    /// Maximum number of elements. `None` means no maximum.
    pub maximum: Option<u64>,
    /// Whether threads may share the table.
    pub shared: bool,
}

impl TableType {
    /// Returns the type of a table of `minimum` elements, with 32-bit indices and without a maximum.
    pub fn new(element_type: RefType, minimum: u64) -> TableType
        ensures { result ≡ record { element_type = element_type; table64 = false; minimum = minimum; maximum = None; shared = false } }
    {
        TableType {
            element_type,
            table64: false,
            minimum,
            maximum: None,
            shared: false,
        }
    }
}

/// Returns the flags of limits: whether there is a maximum, whether they are shared, whether addresses have 64 bits.
/// `None` means that the byte is malformed.
fn limits_flags_of(byte: u8) -> Option<(bool, (bool, bool))>
    ensures found { result ≡ find flags_byte all_flags byte }
    ensures byte { IfSome result (λ flags. flags_byte flags ≡ Some byte) }
{
    match byte {
        0x00 => Some((false, (false, false))),
        0x01 => Some((true, (false, false))),
        0x02 => Some((false, (true, false))),
        0x03 => Some((true, (true, false))),
        0x04 => Some((false, (false, true))),
        0x05 => Some((true, (false, true))),
        0x06 => Some((false, (true, true))),
        0x07 => Some((true, (true, true))),
        _ => None,
    }
}

/// Returns the flags of a memory's limits, and whether there is a page size. `None` means that the byte is malformed.
fn memory_flags_of(byte: u8) -> Option<((bool, (bool, bool)), bool)>
    ensures found { result ≡ find paged_byte all_paged byte }
    ensures byte { IfSome result (λ flags. paged_byte flags ≡ Some byte) }
{
    match byte {
        0x00 => Some(((false, (false, false)), false)),
        0x01 => Some(((true, (false, false)), false)),
        0x02 => Some(((false, (true, false)), false)),
        0x03 => Some(((true, (true, false)), false)),
        0x04 => Some(((false, (false, true)), false)),
        0x05 => Some(((true, (false, true)), false)),
        0x06 => Some(((false, (true, true)), false)),
        0x07 => Some(((true, (true, true)), false)),
        0x08 => Some(((false, (false, false)), true)),
        0x09 => Some(((true, (false, false)), true)),
        0x0a => Some(((false, (true, false)), true)),
        0x0b => Some(((true, (true, false)), true)),
        0x0c => Some(((false, (false, true)), true)),
        0x0d => Some(((true, (false, true)), true)),
        0x0e => Some(((false, (true, true)), true)),
        0x0f => Some(((true, (true, true)), true)),
        _ => None,
    }
}

/// Takes the flags of limits.
#[tactic(auto, unfolding(crate::specs::formats::Externals::limits_flags))]
fn take_limits_flags<I: Input>(input: &mut I) -> Result<(bool, (bool, bool)), Fault>
    ensures takes { Takes I.writes limits_flags (I.state input.old) (I.state input.new) result }
{
    let byte = input.byte_of(Construct::Limits)?;
    match limits_flags_of(byte) {
        Some(flags) => Ok(flags),
        None => Err(Fault::Malformed(input.invalid(Construct::Limits, byte))),
    }
}

/// Takes the flags of a memory's limits.
#[tactic(auto, unfolding(crate::specs::formats::Externals::memory_flags))]
fn take_memory_flags<I: Input>(input: &mut I) -> Result<((bool, (bool, bool)), bool), Fault>
    ensures takes { Takes I.writes memory_flags (I.state input.old) (I.state input.new) result }
{
    let byte = input.byte_of(Construct::MemoryFlags)?;
    match memory_flags_of(byte) {
        Some(flags) => Ok(flags),
        None => Err(Fault::Malformed(input.invalid(Construct::MemoryFlags, byte))),
    }
}

/// Takes a u64 if a flag says that there is one.
#[tactic(auto, unfolding(crate::specs::formats::PartCombinators::part_if))]
fn take_u64_if<I: Input>(input: &mut I, there: bool) -> Result<Option<u64>, Fault>
    ensures takes { Takes I.writes (part_if there u64_format) (I.state input.old) (I.state input.new) result }
{
    if !there {
        return Ok(None);
    }
    Ok(Some(input.u64()?))
}

/// Takes a u32 if a flag says that there is one.
#[tactic(auto, unfolding(crate::specs::formats::PartCombinators::part_if))]
fn take_u32_if<I: Input>(input: &mut I, there: bool) -> Result<Option<u32>, Fault>
    ensures takes { Takes I.writes (part_if there u32_format) (I.state input.old) (I.state input.new) result }
{
    if !there {
        return Ok(None);
    }
    Ok(Some(input.u32()?))
}

/// Takes a memory type (Core 3.0, Memory Types).
#[tactic(auto, using(std::proofs::Common::append_assoc), unfolding(crate::specs::formats::Externals::memory_type, crate::specs::formats::PartCombinators::part_if))]
pub(crate) fn take_memory_type<I: Input>(input: &mut I) -> Result<MemoryType, Fault>
    ensures takes { Takes I.writes memory_type (I.state input.old) (I.state input.new) result }
{
    let ((has_maximum, (shared, memory64)), has_page_size) = take_memory_flags(input)?;
    let minimum = input.u64()?;
    let maximum = take_u64_if(input, has_maximum)?;
    let page_size_log2 = take_u32_if(input, has_page_size)?;
    Ok(MemoryType {
        minimum,
        maximum,
        memory64,
        shared,
        page_size_log2,
    })
}

/// Takes a table type (Core 3.0, Table Types).
#[tactic(auto, using(std::proofs::Common::append_assoc), unfolding(crate::specs::formats::Externals::table_type, crate::specs::formats::PartCombinators::part_if))]
pub fn take_table_type<I: Input>(input: &mut I) -> Result<TableType, Fault>
    ensures takes { Takes I.writes table_type (I.state input.old) (I.state input.new) result }
{
    let element_type = take_ref_type(input)?;
    let (has_maximum, (shared, table64)) = take_limits_flags(input)?;
    let minimum = input.u64()?;
    let maximum = take_u64_if(input, has_maximum)?;
    Ok(TableType {
        element_type,
        table64,
        minimum,
        maximum,
        shared,
    })
}

impl<'a> Readable<'a> for MemoryType {
    ghost Value = { MemoryType };

    ghost view = { λ memory. memory };

    ghost views = { λ memories. memories };

    ghost views_each = { record { none = refl; more = λ memories memory. refl } };

    ghost format = { memory_type };

    #[inline(always)]
    #[tactic(auto, using(crate::proofs::ExternalLaws::memory_is_lawful, crate::proofs::ExternalLaws::memory_takes))]
    fn is_lawful() {}

    fn read(_alloc: Global, cursor: &mut Cursor<'a>) -> Result<MemoryType, Fault> {
        take_memory_type(cursor)
    }

    fn rewrite(rewriter: &mut Rewriter) -> Result<(), Fault> {
        take_memory_type(rewriter)?;
        Ok(())
    }
}

/// Returns the flags byte of limits: whether there is a maximum, whether they are shared, whether addresses have 64
/// bits.
fn limits_byte(has_maximum: bool, shared: bool, wide: bool) -> u8
    ensures { flags_byte (has_maximum, (shared, wide)) ≡ Some result }
{
    match (has_maximum, shared, wide) {
        (false, false, false) => 0x00,
        (true, false, false) => 0x01,
        (false, true, false) => 0x02,
        (true, true, false) => 0x03,
        (false, false, true) => 0x04,
        (true, false, true) => 0x05,
        (false, true, true) => 0x06,
        (true, true, true) => 0x07,
    }
}

/// Returns the flags byte of a memory's limits, with one flag more for the page size.
#[tactic(auto, using(crate::proofs::ExternalLaws::paged_is))]
fn memory_byte(has_maximum: bool, shared: bool, wide: bool, paged: bool) -> u8
    ensures { paged_byte ((has_maximum, (shared, wide)), paged) ≡ Some result }
{
    let limits = limits_byte(has_maximum, shared, wide);
    if paged { limits + 8 } else { limits }
}

/// Appends a u64, if present, in at most 10 bytes.
#[tactic(auto, unfolding(crate::specs::formats::PartCombinators::part_if))]
fn put_u64_if<A: Allocator>(bytes: &mut Vec<u8, A>, value: Option<u64>)
    requires { vec_len bytes.old + 10 ≤ vec_capacity bytes.old }
    ensures items { bytes.new.items ≡ bytes.old.items ++ (part_if (is_some value) u64_format).bytes value }
    ensures minimal { IfSome value (IsMinimal EncodesU64 unsigned_leb128) }
    ensures len { vec_len bytes.new ≤ vec_len bytes.old + 10 }
    ensures capacity { vec_capacity bytes.new ≡ vec_capacity bytes.old }
{
    if let Some(value) = value {
        put_u64(bytes, value);
    }
}

/// Appends a u32, if present, in at most 5 bytes.
#[tactic(auto, unfolding(crate::specs::formats::PartCombinators::part_if))]
pub fn put_u32_if<A: Allocator>(bytes: &mut Vec<u8, A>, value: Option<u32>)
    requires { vec_len bytes.old + 5 ≤ vec_capacity bytes.old }
    ensures items { bytes.new.items ≡ bytes.old.items ++ (part_if (is_some value) u32_format).bytes value }
    ensures minimal { IfSome value (IsMinimal EncodesU32 unsigned_leb128) }
    ensures len { vec_len bytes.new ≤ vec_len bytes.old + 5 }
    ensures capacity { vec_capacity bytes.new ≡ vec_capacity bytes.old }
{
    if let Some(value) = value {
        put_u32(bytes, value);
    }
}

/// Appends a memory type in 2 to 26 bytes.
pub(crate) fn put_memory_type<A: Allocator>(bytes: &mut Vec<u8, A>, ty: &MemoryType)
    requires { vec_len bytes.old + 26 ≤ vec_capacity bytes.old }
    ensures items { bytes.new.items ≡ bytes.old.items ++ memory_type.bytes ty.now }
    ensures written { IsMinimal memory_type.Encodes memory_type.bytes ty.now }
{
    bytes.push_reserved(memory_byte(
        ty.maximum.is_some(),
        ty.shared,
        ty.memory64,
        ty.page_size_log2.is_some(),
    ));
    put_u64(bytes, ty.minimum);
    put_u64_if(bytes, ty.maximum);
    put_u32_if(bytes, ty.page_size_log2);
}

/// Appends a table type in 3 to 28 bytes.
pub fn put_table_type<A: Allocator>(bytes: &mut Vec<u8, A>, ty: &TableType)
    requires { vec_len bytes.old + 28 ≤ vec_capacity bytes.old }
    ensures items { bytes.new.items ≡ bytes.old.items ++ table_type.bytes ty.now }
    ensures written { IsMinimal table_type.Encodes table_type.bytes ty.now }
{
    put_ref_type(bytes, ty.element_type);
    bytes.push_reserved(limits_byte(ty.maximum.is_some(), ty.shared, ty.table64));
    put_u64(bytes, ty.minimum);
    put_u64_if(bytes, ty.maximum);
}

/// The flags, the minimum, then the maximum and the page size if present (Core 3.0, Memory Types).
impl Encode for MemoryType {
    ghost bytes = { memory_type.bytes };

    ghost IsWritten = { IsMinimal memory_type.Encodes memory_type.bytes };

    fn encode<A: Allocator>(&self, sink: &mut Vec<u8, A>) -> Result<(), EncodeError> {
        sink.reserve(26)?;
        put_memory_type(sink, self);
        Ok(())
    }
}

/// The element type, the flags, the minimum, then the maximum if present (Core 3.0, Table Types).
impl Encode for TableType {
    ghost bytes = { table_type.bytes };

    ghost IsWritten = { IsMinimal table_type.Encodes table_type.bytes };

    fn encode<A: Allocator>(&self, sink: &mut Vec<u8, A>) -> Result<(), EncodeError> {
        sink.reserve(28)?;
        put_table_type(sink, self);
        Ok(())
    }
}
