//! Appenders of instructions with a list, mostly from an iterator. They fail with `TooLong` if the iterator's `len` is
//! over 4,294,967,295, before they ask for an item, and with `Memory` if `bytes` can't grow. The count is that of the
//! items that the iterator yields, even if they are fewer than `len`.
ghost use Rattle.std.specs.List.{AllByRecursion};
ghost use Rattle.std.specs.Prelude.{◌≡◌, ◌++◌, ◌∷◌, [], ◌<◌, ◌+◌, ◌≤◌, ◌^◌, length, take, IsOk, OnOk, OnErr, IfErr, vec_len, vec_capacity};
ghost use Rattle.std.specs.Iterator.{size};
ghost use Rattle.wasm_instructions.specs.Appending.{AppendsAll, IsRefusedList, after_bytes, before_bytes, list_bytes};
ghost use Rattle.wasm_codec.specs.Lists.{items_bytes};
ghost use Rattle.wasm_codec.specs.declared.encode.EncodeError.TheVariants.{Memory};
ghost use Rattle.wasm_instructions.specs.Instructions.{IsCounted, IsShort, ItemsInRange};
ghost use Rattle.wasm_instructions.specs.formats.Instructions.{call, instruction};
ghost use Rattle.wasm_instructions.specs.Operands.{ValTypeFits};
ghost use Rattle.wasm_instructions.specs.declared.table.call.Operands.TheVariants as operands;

use crate::appenders::append_opcode;
use crate::appenders::items::{Item, put_list, reserve_list};
use crate::encode::{put_block_type, put_opcode};
use crate::operands::BlockType;
use crate::table::Opcode;
use std::alloc::{AllocError, Allocator};
use wasm_codec::encode::leb128::put_u32;
use wasm_codec::encode::{EncodeError, keep_or_undo};
use wasm_types::types::{ValType, put_val_type};

/// Appends an opcode, the operands before a list, the list, and the index after it, if there is one. Appends all or
/// nothing.
pub fn append_list_call<T: Item, I: ExactSizeIterator<Item = T>, A: Allocator>(
    bytes: &mut Vec<u8, A>,
    op: Opcode,
    before: Before,
    items: I,
    after: Option<u32>,
) -> Result<(), EncodeError>
    requires short { IsShort op }
    requires can { I.can_next items }
    ensures ok { OnOk result (AppendsAll I.next_gives T.InRange items (λ xs. list_bytes op before (items_bytes T.encoding xs) after) bytes.old.items bytes.new.items) }
    ensures refused { IfErr result (IsRefusedList (size (I.remaining items))) }
    ensures err { OnErr result (bytes.new.items ≡ bytes.old.items) }
{
    let start = bytes.len();
    let appended = write_list(bytes, op, before, items, after);
    keep_or_undo(bytes, start, appended)
}

/// Appends an instruction with a list of one value type.
#[tactic(auto, unfolding(crate::specs::formats::Instructions::instruction, crate::specs::formats::Instructions::operands_format))]
fn append_type<A: Allocator>(
    bytes: &mut Vec<u8, A>,
    op: Opcode,
    ty: ValType,
) -> Result<(), EncodeError>
    requires short { IsShort op }
    ensures ok { OnOk result (bytes.new.items ≡ bytes.old.items ++ instruction.bytes (call op (operands.Types (ty ∷ [])))) }
    ensures err { OnErr result (bytes.new.items ≡ bytes.old.items) }
    ensures memory { IfErr result (λ e. e ≡ Memory) }
    ensures in_range { ValTypeFits ty }
    ensures room { vec_len bytes.old + 24 ≤ vec_capacity bytes.old → IsOk result }
{
    append_opcode(bytes, op)?;
    put_u32(bytes, 1);
    put_val_type(bytes, ty);
    Ok(())
}

/// Appends an instruction with a list of value types. A list of one type needs no more room than 24 bytes.
#[tactic(auto, unfolding(crate::specs::Appending::before_bytes, crate::specs::Appending::after_bytes, crate::specs::formats::Instructions::instruction, crate::specs::formats::Instructions::operands_format))]
pub fn append_type_list<A: Allocator>(
    bytes: &mut Vec<u8, A>,
    op: Opcode,
    types: &[ValType],
) -> Result<(), EncodeError>
    requires short { IsShort op }
    ensures ok { OnOk result (bytes.new.items ≡ bytes.old.items ++ instruction.bytes (call op (operands.Types types.now))) }
    ensures err { OnErr result (bytes.new.items ≡ bytes.old.items) }
    ensures counted { OnOk result (IsCounted (operands.Types types.now) × ItemsInRange (operands.Types types.now)) }
    ensures refused { IfErr result (IsRefusedList (length types.now)) }
    ensures in_range { length types.now ≡ 1 → AllByRecursion ValTypeFits types.now }
{
    match types {
        [ty] => append_type(bytes, op, *ty),
        _ => append_held(bytes, op, Before::Nothing, types, None),
    }
}

/// The operands between an opcode and a list.
#[derive(Clone, Copy)]
pub enum Before {
    /// None: the list follows the opcode.
    Nothing,
    /// A block type.
    Block(BlockType),
    /// An index.
    Index(u32),
    /// Two indexes.
    TwoIndexes(u32, u32),
}

/// Writes the operands before a list, up to 10 bytes, into reserved room.
#[inline(always)]
#[tactic(auto, unfolding(crate::specs::Appending::before_bytes))]
fn put_before<A: Allocator>(bytes: &mut Vec<u8, A>, before: Before)
    requires room { vec_len bytes.old + 10 ≤ vec_capacity bytes.old }
    ensures items { bytes.new.items ≡ bytes.old.items ++ before_bytes before }
    ensures len { vec_len bytes.new ≤ vec_len bytes.old + 10 }
    ensures capacity { vec_capacity bytes.new ≡ vec_capacity bytes.old }
{
    match before {
        Before::Nothing => {}
        Before::Block(ty) => put_block_type(bytes, ty),
        Before::Index(index) => put_u32(bytes, index),
        Before::TwoIndexes(first, second) => {
            put_u32(bytes, first);
            put_u32(bytes, second);
        }
    }
}

/// Appends an instruction with the list in a slice, as [`append_list_call`] does.
pub(crate) fn append_held<T: Item, A: Allocator>(
    bytes: &mut Vec<u8, A>,
    op: Opcode,
    before: Before,
    items: &[T],
    after: Option<u32>,
) -> Result<(), EncodeError>
    requires short { IsShort op }
    ensures ok { OnOk result (bytes.new.items ≡ bytes.old.items ++ list_bytes op before (items_bytes T.encoding items.now) after) }
    ensures err { OnErr result (bytes.new.items ≡ bytes.old.items) }
    ensures counted { OnOk result (length items.now < 2 ^ 32) }
    ensures fits { OnOk result (AllByRecursion T.InRange items.now) }
    ensures refused { IfErr result (IsRefusedList (length items.now)) }
{
    append_list_call(bytes, op, before, items.iter().copied(), after)
}

/// Appends an instruction with a list, as [`append_list_call`] does. On error a part of it may remain.
#[tactic(auto, unfolding(crate::specs::Appending::AppendsAll))]
fn write_list<T: Item, I: ExactSizeIterator<Item = T>, A: Allocator>(
    bytes: &mut Vec<u8, A>,
    op: Opcode,
    before: Before,
    items: I,
    after: Option<u32>,
) -> Result<(), EncodeError>
    requires short { IsShort op }
    requires can { I.can_next items }
    ensures ok { OnOk result (AppendsAll I.next_gives T.InRange items (λ xs. list_bytes op before (items_bytes T.encoding xs) after) bytes.old.items bytes.new.items) }
    ensures refused { IfErr result (IsRefusedList (size (I.remaining items))) }
    ensures kept { take (length bytes.old.items) bytes.new.items ≡ bytes.old.items }
{
    let counted = reserve_list::<T, A>(bytes, items.len())?;
    put_opcode(bytes, op);
    put_before(bytes, before);
    put_list(bytes, counted, items)?;
    Ok(append_after(bytes, after)?)
}

/// Appends the index after a list, if there is one.
#[tactic(auto, unfolding(crate::specs::Appending::after_bytes))]
fn append_after<A: Allocator>(bytes: &mut Vec<u8, A>, after: Option<u32>) -> Result<(), AllocError>
    ensures ok { OnOk result (bytes.new.items ≡ bytes.old.items ++ after_bytes after) }
    ensures kept { take (length bytes.old.items) bytes.new.items ≡ bytes.old.items }
{
    if let Some(index) = after {
        bytes.reserve(5)?;
        put_u32(bytes, index);
    }
    Ok(())
}
