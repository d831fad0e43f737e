//! The types of globals, tags and imports (Core 3.0, Types), and the kinds of exports (Export Section).
ghost use Rattle.std.specs.Prelude.{[], ◌≡◌, false, refl, ◌++◌, ◌+◌, ◌≤◌, ◌∷◌, Some, vec_len, vec_capacity, IfSome};
ghost use Rattle.wasm_codec.specs.Scanning.{Scans};
ghost use Rattle.wasm_codec.specs.declared.rewriter.scan.Scanned.TheVariants.{Minimal};
ghost use Rattle.wasm_codec.specs.Inputs.{Takes};
ghost use Rattle.wasm_externals.specs.formats.Externals.{global_flags, global_type, tag_type, entity_type, global_byte, export_kind};
ghost use Rattle.wasm_externals.specs.declared.types.EntityType.TheVariants as entity_types;
ghost use Rattle.wasm_externals.specs.declared.types.TagType.{TagType};
ghost use Rattle.wasm_codec.specs.Encoding.{IsMinimal};

use crate::limits::{
    MemoryType, TableType, put_memory_type, put_table_type, take_memory_type, take_table_type,
};
use std::alloc::{Allocator, Global};
use wasm_codec::encode::EncodeError;
use wasm_codec::encode::leb128::put_u32;
use wasm_codec::input::Input;
use wasm_codec::reader::cursor::{Cursor, Fault};
use wasm_codec::reader::malformed::Construct;
use wasm_codec::rewriter::{Rewriter, Scanned, scan_u32};
use wasm_lists::encode::Encode;
use wasm_lists::readable::Readable;
use wasm_types::types::{ValType, is_whole_type, put_val_type, take_val_type};

/// The type of a global (Core 3.0, Global Types).
#[derive(Clone, Copy, Debug, PartialEq, Eq)]
pub struct GlobalType {
    /// Type of the value.
    pub val_type: ValType,
    /// Whether the value can change.
    pub mutable: bool,
    /// Whether threads may share the global.
    pub shared: bool,
}

impl GlobalType {
    /// Returns the type of a global that isn't shared.
    pub fn new(val_type: ValType, mutable: bool) -> GlobalType
        ensures { result ≡ record { val_type = val_type; mutable = mutable; shared = false } }
    {
        GlobalType {
            val_type,
            mutable,
            shared: false,
        }
    }
}

/// The kind of a tag (Core 3.0, Tag Types).
#[derive(Clone, Copy, Debug, PartialEq, Eq)]
pub enum TagKind {
    /// Exceptions.
    Exception,
}

/// The type of a tag (Core 3.0, Tag Types).
#[derive(Clone, Copy, Debug, PartialEq, Eq)]
pub struct TagType {
    /// Kind of the tag.
    pub kind: TagKind,
    /// Type index of a function type whose parameters are the values of the exception.
    pub func_type_idx: u32,
}

/// The type of an import (Core 3.0, External Types).
///
/// # Examples
///
/// ```
/// # use wasm_encoder::{EntityType, ImportSection, MemoryType, Section};
/// let mut imports = ImportSection::new(rt.alloc());
/// imports.import("m", "f", EntityType::Function(0))?;
/// imports.import("m", "g", MemoryType::new(1).into())?;
/// let mut bytes = Vec::new(rt.alloc());
/// imports.append_to(&mut bytes)?;
/// assert_eq!(rt; bytes.as_slice(), b"\x02\x0e\x02\x01m\x01f\x00\x00\x01m\x01g\x02\x00\x01".as_slice());
/// ```
#[derive(Clone, Copy, Debug, PartialEq, Eq)]
pub enum EntityType {
    /// A function. Holds its type index.
    Function(u32),
    /// A table.
    Table(TableType),
    /// A memory.
    Memory(MemoryType),
    /// A global.
    Global(GlobalType),
    /// A tag.
    Tag(TagType),
    /// A function of exactly this type, not of a subtype. Holds its type index.
    FunctionExact(u32),
}

impl From<TableType> for EntityType {
    ghost from_gives = { λ ty entity. entity ≡ entity_types.Table ty };

    fn from(ty: TableType) -> EntityType {
        EntityType::Table(ty)
    }
}

impl From<MemoryType> for EntityType {
    ghost from_gives = { λ ty entity. entity ≡ entity_types.Memory ty };

    fn from(ty: MemoryType) -> EntityType {
        EntityType::Memory(ty)
    }
}

impl From<GlobalType> for EntityType {
    ghost from_gives = { λ ty entity. entity ≡ entity_types.Global ty };

    fn from(ty: GlobalType) -> EntityType {
        EntityType::Global(ty)
    }
}

impl From<TagType> for EntityType {
    ghost from_gives = { λ ty entity. entity ≡ entity_types.Tag ty };

    fn from(ty: TagType) -> EntityType {
        EntityType::Tag(ty)
    }
}

/// The kind of an export (Core 3.0, Export Section).
#[derive(Clone, Copy, Debug, PartialEq, Eq)]
pub enum ExportKind {
    /// A function.
    Func,
    /// A table.
    Table,
    /// A memory.
    Memory,
    /// A global.
    Global,
    /// A tag.
    Tag,
}

/// Takes whether a global is mutable and whether it is shared.
#[tactic(auto, unfolding(crate::specs::formats::Externals::global_flags))]
fn take_global_flags<I: Input>(input: &mut I) -> Result<(bool, bool), Fault>
    ensures takes { Takes I.writes global_flags (I.state input.old) (I.state input.new) result }
{
    match input.byte_of(Construct::GlobalMutability)? {
        0x00 => Ok((false, false)),
        0x01 => Ok((true, false)),
        0x02 => Ok((false, true)),
        0x03 => Ok((true, true)),
        byte => Err(Fault::Malformed(input.invalid(Construct::GlobalMutability, byte))),
    }
}

/// Takes a global type (Core 3.0, Global Types).
#[tactic(auto, unfolding(crate::specs::formats::Externals::global_type))]
pub fn take_global_type<I: Input>(input: &mut I) -> Result<GlobalType, Fault>
    ensures takes { Takes I.writes global_type (I.state input.old) (I.state input.new) result }
{
    let val_type = take_val_type(input)?;
    let (mutable, shared) = take_global_flags(input)?;
    Ok(GlobalType {
        val_type,
        mutable,
        shared,
    })
}

/// Takes a tag type (Core 3.0, Tag Types).
#[tactic(auto, unfolding(crate::specs::formats::Externals::tag_type))]
pub(crate) fn take_tag_type<I: Input>(input: &mut I) -> Result<TagType, Fault>
    ensures takes { Takes I.writes tag_type (I.state input.old) (I.state input.new) result }
{
    let byte = input.byte_of(Construct::TagAttribute)?;
    if byte != 0x00 {
        return Err(Fault::Malformed(input.invalid(Construct::TagAttribute, byte)));
    }
    let func_type_idx = input.u32()?;
    Ok(TagType {
        kind: TagKind::Exception,
        func_type_idx,
    })
}

/// Takes the type of an import (Core 3.0, External Types).
#[tactic(auto, unfolding(crate::specs::formats::Externals::entity_type))]
pub fn take_entity_type<I: Input>(input: &mut I) -> Result<EntityType, Fault>
    ensures takes { Takes I.writes entity_type (I.state input.old) (I.state input.new) result }
{
    match input.byte_of(Construct::ImportKind)? {
        0x00 => Ok(EntityType::Function(input.u32()?)),
        0x01 => Ok(EntityType::Table(take_table_type(input)?)),
        0x02 => Ok(EntityType::Memory(take_memory_type(input)?)),
        0x03 => Ok(EntityType::Global(take_global_type(input)?)),
        0x04 => Ok(EntityType::Tag(take_tag_type(input)?)),
        0x20 => Ok(EntityType::FunctionExact(input.u32()?)),
        byte => Err(Fault::Malformed(input.invalid(Construct::ImportKind, byte))),
    }
}

/// Takes the kind of an export (Core 3.0, Export Section).
#[tactic(auto, unfolding(crate::specs::formats::Externals::export_kind))]
pub fn take_export_kind<I: Input>(input: &mut I) -> Result<ExportKind, Fault>
    ensures takes { Takes I.writes export_kind (I.state input.old) (I.state input.new) result }
{
    match input.byte_of(Construct::ExportKind)? {
        0x00 => Ok(ExportKind::Func),
        0x01 => Ok(ExportKind::Table),
        0x02 => Ok(ExportKind::Memory),
        0x03 => Ok(ExportKind::Global),
        0x04 => Ok(ExportKind::Tag),
        byte => Err(Fault::Malformed(input.invalid(Construct::ExportKind, byte))),
    }
}

/// Reads the type of an import. Returns `None` if it is malformed: then the position is unspecified.
///
/// A function, the frequent kind, is read without a fault to hand on.
#[inline(always)]
#[tactic(auto, unfolding(crate::specs::formats::Externals::entity_type))]
pub fn read_frequent_entity_type(cursor: &mut Cursor<'_>) -> Option<EntityType>
    ensures { IfSome result (λ ty. entity_type.at cursor.old ≡ Some (ty, cursor.new)) }
{
    if let Ok(0x00) = cursor.peek(Construct::ImportKind) {
        cursor.next_byte()?;
        return match cursor.u32() {
            Ok(index) => Some(EntityType::Function(index)),
            Err(_) => None,
        };
    }
    match take_entity_type(cursor) {
        Ok(ty) => Some(ty),
        Err(_) => None,
    }
}

/// Returns the length in bytes of the global type that the bytes begin with. Returns `None` unless its value type has one
/// byte.
#[inline(always)]
pub fn scan_global_type(bytes: &[u8]) -> Option<usize>
    ensures { IfSome result (λ count. Scans global_type bytes.now (Some (Minimal count))) }
{
    if bytes.len() < 2 {
        return None;
    }
    if !is_whole_type(bytes[0]) {
        return None;
    }
    if bytes[1] >= 4 {
        return None;
    }
    Some(2)
}

/// Returns the length in bytes of the type of an import that the bytes begin with. Returns `None` unless it is a function
/// with a minimal index, or a global whose value type has one byte.
#[inline(always)]
pub fn scan_entity_type(bytes: &[u8]) -> Option<usize>
    ensures { IfSome result (λ count. Scans entity_type bytes.now (Some (Minimal count))) }
{
    if bytes.len() == 0 {
        return None;
    }
    let rest = &bytes[1..];
    match bytes[0] {
        0x00 => match scan_u32(rest) {
            Some(Scanned::Minimal(count)) => Some(1 + count),
            _ => None,
        },
        0x03 => {
            let count = scan_global_type(rest)?;
            Some(1 + count)
        }
        _ => None,
    }
}

impl<'a> Readable<'a> for TagType {
    ghost Value = { TagType };

    ghost view = { λ tag. tag };

    ghost views = { λ tags. tags };

    ghost views_each = { record { none = refl; more = λ tags tag. refl } };

    ghost format = { tag_type };

    #[inline(always)]
    #[tactic(auto, using(crate::proofs::ExternalLaws::tag_is_lawful, crate::proofs::ExternalLaws::tag_takes))]
    fn is_lawful() {}

    fn read(_alloc: Global, cursor: &mut Cursor<'a>) -> Result<TagType, Fault> {
        take_tag_type(cursor)
    }

    fn rewrite(rewriter: &mut Rewriter) -> Result<(), Fault> {
        take_tag_type(rewriter)?;
        Ok(())
    }
}

/// Returns the flags byte of a global: whether it is mutable, whether it is shared.
fn mutability_byte(mutable: bool, shared: bool) -> u8
    ensures { global_byte (mutable, shared) ≡ Some result }
{
    match (mutable, shared) {
        (false, false) => 0x00,
        (true, false) => 0x01,
        (false, true) => 0x02,
        (true, true) => 0x03,
    }
}

/// Appends a global type in 2 to 8 bytes.
#[tactic(auto, using(crate::proofs::ExternalLaws::global_put, crate::proofs::ExternalLaws::global_written))]
pub fn put_global_type<A: Allocator>(bytes: &mut Vec<u8, A>, ty: GlobalType)
    requires { vec_len bytes.old + 8 ≤ vec_capacity bytes.old }
    ensures items { bytes.new.items ≡ bytes.old.items ++ global_type.bytes ty }
    ensures written { IsMinimal global_type.Encodes global_type.bytes ty }
{
    put_val_type(bytes, ty.val_type);
    bytes.push_reserved(mutability_byte(ty.mutable, ty.shared));
}

/// Appends a tag type in 2 to 6 bytes.
#[tactic(auto, using(crate::proofs::ExternalLaws::tag_put, crate::proofs::ExternalLaws::tag_written))]
pub(crate) fn put_tag_type<A: Allocator>(bytes: &mut Vec<u8, A>, ty: TagType)
    requires { vec_len bytes.old + 6 ≤ vec_capacity bytes.old }
    ensures items { bytes.new.items ≡ bytes.old.items ++ tag_type.bytes ty }
    ensures written { IsMinimal tag_type.Encodes tag_type.bytes ty }
{
    bytes.push_reserved(0x00);
    put_u32(bytes, ty.func_type_idx);
}

/// The value type and the flags (Core 3.0, Global Types).
impl Encode for GlobalType {
    ghost bytes = { global_type.bytes };

    ghost IsWritten = { IsMinimal global_type.Encodes global_type.bytes };

    fn encode<A: Allocator>(&self, sink: &mut Vec<u8, A>) -> Result<(), EncodeError> {
        sink.reserve(8)?;
        put_global_type(sink, *self);
        Ok(())
    }
}

/// A zero byte and the index of the function type (Core 3.0, Tag Types).
impl Encode for TagType {
    ghost bytes = { tag_type.bytes };

    ghost IsWritten = { IsMinimal tag_type.Encodes tag_type.bytes };

    fn encode<A: Allocator>(&self, sink: &mut Vec<u8, A>) -> Result<(), EncodeError> {
        sink.reserve(6)?;
        put_tag_type(sink, *self);
        Ok(())
    }
}

/// Appends the type of an import in 2 to 29 bytes.
pub fn put_entity_type<A: Allocator>(bytes: &mut Vec<u8, A>, ty: &EntityType)
    requires { vec_len bytes.old + 29 ≤ vec_capacity bytes.old }
    ensures items { bytes.new.items ≡ bytes.old.items ++ entity_type.bytes ty.now }
    ensures written { IsMinimal entity_type.Encodes entity_type.bytes ty.now }
{
    match ty {
        EntityType::Function(index) => {
            bytes.push_reserved(0x00);
            put_u32(bytes, *index);
        }
        EntityType::Table(table) => {
            bytes.push_reserved(0x01);
            put_table_type(bytes, table);
        }
        EntityType::Memory(memory) => {
            bytes.push_reserved(0x02);
            put_memory_type(bytes, memory);
        }
        EntityType::Global(global) => {
            bytes.push_reserved(0x03);
            put_global_type(bytes, *global);
        }
        EntityType::Tag(tag) => {
            bytes.push_reserved(0x04);
            put_tag_type(bytes, *tag);
        }
        EntityType::FunctionExact(index) => {
            bytes.push_reserved(0x20);
            put_u32(bytes, *index);
        }
    }
}

/// The byte of the kind and the type (Core 3.0, External Types).
impl Encode for EntityType {
    ghost bytes = { entity_type.bytes };

    ghost IsWritten = { IsMinimal entity_type.Encodes entity_type.bytes };

    fn encode<A: Allocator>(&self, sink: &mut Vec<u8, A>) -> Result<(), EncodeError> {
        sink.reserve(29)?;
        put_entity_type(sink, self);
        Ok(())
    }
}

/// Returns the byte of an export's kind.
#[tactic(auto, unfolding(crate::specs::formats::Externals::export_kind))]
pub fn kind_byte(kind: ExportKind) -> u8
    ensures { export_kind.bytes kind ≡ result ∷ [] }
{
    match kind {
        ExportKind::Func => 0x00,
        ExportKind::Table => 0x01,
        ExportKind::Memory => 0x02,
        ExportKind::Global => 0x03,
        ExportKind::Tag => 0x04,
    }
}
