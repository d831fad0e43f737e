//! Subtypes, and the entries of a type section (Core 3.0, Recursive Types and Type Section).
ghost use Rattle.std.specs.List.{All};
ghost use Rattle.std.specs.Prelude.{◌≡◌, ◌++◌, IfErr, OnOk, Some, length, take};
ghost use Rattle.wasm_codec.specs.Encoding.{IsCount, IsCountRefusal, IsRefusal, IsMinimal, OnlyTooLong};
ghost use Rattle.wasm_codec.specs.Leb128.{unsigned_leb128};
ghost use Rattle.wasm_codec.specs.Places.{Place, Reads, byte_at};
ghost use Rattle.wasm_codec.specs.Rewriter.{Rewrites};
ghost use Rattle.wasm_codec.specs.formats.Combinators.{◌⊗◌, items, made, u32};
ghost use Rattle.wasm_codec.specs.formats.Numbers.{EncodesU32};
ghost use Rattle.wasm_types.specs.TypeCounts.{CountedEntry, CountedSub, supertypes_bytes};
ghost use Rattle.wasm_types.specs.TypeParts.{sub_parts};
ghost use Rattle.wasm_types.specs.formats.Types.{composite_type, recursive_type, sub_of, sub_type};

use crate::types::composite::{
    CompositeType, read_composite_type, rewrite_composite_type, rewrite_inner_type,
};
use crate::types::function::read_function_type;
use std::alloc::{Allocator, Global};
use wasm_codec::encode::{EncodeError, keep_or_undo};
use wasm_codec::reader::cursor::{Cursor, Fault};
use wasm_codec::reader::malformed::Construct;
use wasm_codec::rewriter::Rewriter;
use wasm_lists::encode::{Encode, encode_list_after};
use wasm_lists::list::Items;
use wasm_lists::readable::Item;
use wasm_lists::reading::read_list;
use wasm_lists::rewriting::rewrite_list;

/// A composite type with its supertypes (Core 3.0, Recursive Types).
#[derive(Debug, PartialEq, Eq, Drop)]
pub struct SubType {
    /// Whether it can't have subtypes.
    pub is_final: bool,
    /// Indexes of the supertypes.
    pub supertype_idxs: Items<u32>,
    /// The composite type.
    pub composite_type: CompositeType,
}

/// An entry of a type section: a single type, or a group of types that can refer to each other (Core 3.0, Type
/// Section).
///
/// A group of one type and that type alone are different entries.
#[derive(Debug, PartialEq, Eq, Drop)]
pub enum TypeEntry {
    /// A single type.
    Sub(SubType),
    /// A recursion group.
    Rec(Items<SubType>),
}

/// Reads supertypes and a composite type.
fn read_with_supertypes(
    alloc: Global,
    cursor: &mut Cursor<'_>,
    is_final: bool,
) -> Result<SubType, Fault>
    ensures reads { Reads (made (sub_of is_final) sub_parts (items u32 ⊗ composite_type)).at cursor.old cursor.new result }
{
    let supertype_idxs = read_list(alloc, cursor)?;
    let composite_type = read_composite_type(alloc, cursor)?;
    Ok(SubType {
        is_final,
        supertype_idxs,
        composite_type,
    })
}

/// Reads a subtype (Core 3.0, Recursive Types).
#[inline(always)]
pub(crate) fn read_sub_type(alloc: Global, cursor: &mut Cursor<'_>) -> Result<SubType, Fault>
    ensures reads { Reads sub_type.at cursor.old cursor.new result }
{
    let start = cursor.fork();
    if let Some(ty) = read_function_type(alloc, cursor)? {
        return Ok(ty);
    }
    *cursor = start;
    read_any_sub_type(alloc, cursor)
}

/// Reads a subtype of any form.
#[tactic(auto, unfolding(crate::specs::formats::Types::sub_type))]
fn read_any_sub_type(alloc: Global, cursor: &mut Cursor<'_>) -> Result<SubType, Fault>
    ensures reads { Reads sub_type.at cursor.old cursor.new result }
{
    let first = cursor.peek(Construct::TypeForm)?;
    if first == 0x50 {
        cursor.byte_of(Construct::TypeForm)?;
        return read_with_supertypes(alloc, cursor, false);
    }
    if first == 0x4f {
        cursor.byte_of(Construct::TypeForm)?;
        let ty = read_with_supertypes(alloc, cursor, true)?;
        if ty.supertype_idxs.as_slice().is_empty() {
            cursor.note_long_form();
        }
        return Ok(ty);
    }
    let composite_type = read_composite_type(alloc, cursor)?;
    Ok(SubType {
        is_final: true,
        supertype_idxs: Items::new(alloc),
        composite_type,
    })
}

/// Reads an entry of a type section (Core 3.0, Type Section).
#[tactic(auto, unfolding(crate::specs::formats::Types::recursive_type))]
pub(crate) fn read_entry(alloc: Global, cursor: &mut Cursor<'_>) -> Result<TypeEntry, Fault>
    ensures reads { Reads recursive_type.at cursor.old cursor.new result }
{
    if cursor.peek(Construct::TypeForm)? == 0x4e {
        cursor.byte_of(Construct::TypeForm)?;
        return Ok(TypeEntry::Rec(read_list(alloc, cursor)?));
    }
    Ok(TypeEntry::Sub(read_sub_type(alloc, cursor)?))
}

/// Rewrites a final subtype that begins with `0x4F`. If it has no supertypes, that byte and the empty list are left out.
#[tactic(auto, using(crate::proofs::FinalTypes::left_out, crate::proofs::FinalTypes::kept), unfolding(crate::specs::formats::Types::sub_type))]
fn rewrite_final_type(rewriter: &mut Rewriter) -> Result<(), Fault>
    requires { (after : Place) × (byte_at rewriter.old.place ≡ Some (0x4f, after)) }
    ensures rewrites { Rewrites sub_type rewriter.old rewriter.new result }
{
    let mark = rewriter.written_len();
    rewriter.byte_of(Construct::TypeForm)?;
    rewrite_list::<u32>(rewriter)?;
    let is_alone = rewriter.written_len() - mark == 2;
    rewrite_composite_type(rewriter)?;
    if is_alone {
        rewriter.cut_out(mark, 2);
    }
    Ok(())
}

/// Rewrites a subtype (Core 3.0, Recursive Types).
#[inline(always)]
#[tactic(auto, using(std::proofs::Common::append_assoc), unfolding(crate::specs::formats::Types::sub_type))]
pub(crate) fn rewrite_sub_type(rewriter: &mut Rewriter) -> Result<(), Fault>
    ensures rewrites { Rewrites sub_type rewriter.old rewriter.new result }
{
    let first = rewriter.peek(Construct::TypeForm)?;
    if first == 0x50 {
        rewriter.byte_of(Construct::TypeForm)?;
        rewrite_list::<u32>(rewriter)?;
        return rewrite_composite_type(rewriter);
    }
    if first == 0x4f {
        return rewrite_final_type(rewriter);
    }
    rewrite_composite_type(rewriter)
}

/// Rewrites an entry of a type section (Core 3.0, Type Section).
///
/// A function type is final and has no supertypes, so it needs no look at the other forms.
#[inline(never)]
#[tactic(auto, using(std::proofs::Common::append_assoc), unfolding(crate::specs::formats::Types::recursive_type, crate::specs::formats::Types::sub_type, crate::specs::formats::Types::composite_type))]
pub(crate) fn rewrite_entry(rewriter: &mut Rewriter) -> Result<(), Fault>
    ensures rewrites { Rewrites recursive_type rewriter.old rewriter.new result }
{
    let first = rewriter.peek(Construct::TypeForm)?;
    if first == 0x4e {
        rewriter.byte_of(Construct::TypeForm)?;
        return rewrite_list::<Item<'_, SubType>>(rewriter);
    }
    if first == 0x60 {
        return rewrite_inner_type(rewriter);
    }
    rewrite_sub_type(rewriter)
}

/// Appends the supertypes of a subtype, unless its encoding omits them. On error a part of them may remain.
fn append_supertypes<A: Allocator>(
    is_final: bool,
    supertypes: &[u32],
    sink: &mut Vec<u8, A>,
) -> Result<(), EncodeError>
    ensures ok { OnOk result (sink.new.items ≡ sink.old.items ++ supertypes_bytes is_final supertypes.now) }
    ensures can { OnOk result (IsCount (length supertypes.now)) }
    ensures written { OnOk result (All (IsMinimal EncodesU32 unsigned_leb128) supertypes.now) }
    ensures refused { IfErr result (IsCountRefusal (length supertypes.now)) }
    ensures kept { take (length sink.old.items) sink.new.items ≡ sink.old.items }
{
    match supertypes {
        [] if is_final => Ok(()),
        _ => encode_list_after(if is_final { 0x4f } else { 0x50 }, supertypes, sink),
    }
}

/// Appends a subtype. On error a part of it may remain.
#[tactic(auto, using(crate::proofs::WrittenTypes::sub_ok), unfolding(crate::specs::formats::Types::sub_type))]
fn append_sub<A: Allocator>(ty: &SubType, sink: &mut Vec<u8, A>) -> Result<(), EncodeError>
    ensures ok { OnOk result (sink.new.items ≡ sink.old.items ++ sub_type.bytes ty.now) }
    ensures can { OnOk result (CountedSub ty.now) }
    ensures written { OnOk result (IsMinimal sub_type.Encodes sub_type.bytes ty.now) }
    ensures refused { IfErr result (IsRefusal CountedSub OnlyTooLong ty.now) }
    ensures kept { take (length sink.old.items) sink.new.items ≡ sink.old.items }
{
    append_supertypes(ty.is_final, ty.supertype_idxs.as_slice(), sink)?;
    ty.composite_type.encode(sink)
}

/// `0x50`, or `0x4F` for a final subtype, then the supertypes and the composite type. A final subtype without
/// supertypes is the composite type alone (Core 3.0, Recursive Types).
///
/// Fails with `TooLong` if a list in the subtype has more than 4,294,967,295 items.
impl Encode for SubType {
    ghost bytes = { sub_type.bytes };

    ghost IsWritten = { IsMinimal sub_type.Encodes sub_type.bytes };

    ghost CanEncode = { CountedSub };

    ghost refuses = { OnlyTooLong };

    fn encode<A: Allocator>(&self, sink: &mut Vec<u8, A>) -> Result<(), EncodeError> {
        let start = sink.len();
        let result = append_sub(self, sink);
        keep_or_undo(sink, start, result)
    }
}

/// `0x4E` and a list of subtypes for a recursion group; otherwise the subtype (Core 3.0, Recursive Types).
///
/// Fails with `TooLong` if a list in the entry has more than 4,294,967,295 items.
#[tactic(auto, using(wasm_lists::proofs::WrittenLists::list_refused, crate::proofs::WrittenTypes::alone_ok, crate::proofs::WrittenTypes::group_ok), unfolding(crate::specs::formats::Types::recursive_type))]
impl Encode for TypeEntry {
    ghost bytes = { recursive_type.bytes };

    ghost IsWritten = { IsMinimal recursive_type.Encodes recursive_type.bytes };

    ghost CanEncode = { CountedEntry };

    ghost refuses = { OnlyTooLong };

    fn encode<A: Allocator>(&self, sink: &mut Vec<u8, A>) -> Result<(), EncodeError> {
        match self {
            TypeEntry::Sub(ty) => ty.encode(sink),
            TypeEntry::Rec(types) => encode_list_after(0x4e, types.as_slice(), sink),
        }
    }
}
