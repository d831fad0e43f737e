//! Lists of operands: their count, and then each item's bytes (Core 3.0, Lists).
ghost use Rattle.std.specs.Prelude.{◌≡◌, ◌++◌, ◌+◌, ◌*◌, ◌≤◌, ◌<◌, ◌^◌, ℕ, List, length, take, OnOk, IfOk, IfErr, IsTrue, vec_len, vec_capacity};
ghost use Rattle.std.specs.Iterator.{IsFinite, size};
ghost use Rattle.wasm_instructions.specs.Appending.{AppendsAll, PutsItems, IsRefusedList};
ghost use Rattle.wasm_codec.specs.Leb128.{unsigned_leb128};
ghost use Rattle.wasm_types.specs.formats.Types.{val_type};
ghost use Rattle.wasm_codec.specs.Lists.{items_bytes};
ghost use Rattle.wasm_instructions.specs.Operands.{ValTypeFits, CatchFits, HandleFits};
ghost use Rattle.wasm_instructions.specs.formats.Operands.{catch_clause, handle_clause};

use crate::appenders::ROOM;
use crate::encode::{put_catch, put_handle};
use crate::operands::{Catch, Handle};
use std::alloc::{AllocError, Allocator};
use wasm_codec::encode::leb128::put_u32;
use wasm_codec::encode::{EncodeError, mend_count};
use wasm_types::types::{ValType, put_val_type};

/// The bytes to reserve for an item.
const ITEM_ROOM: usize = 11;

/// The number of items up to which a list is short. Room for a short list is reserved at once.
const SHORT: u32 = 64;

/// An item of a list of operands.
pub trait Item: Copy + Drop {
    /// The least number of bytes of an item's minimal encoding.
    const LEAST: usize;

    /// The item's minimal encoding.
    ghost encoding: { Self → List ℕ };

    /// The item's numbers are within their widths.
    ghost InRange: { Self → Type 0 };

    /// Writes the item, `LEAST` to 11 bytes, into reserved room.
    fn put<A: Allocator>(self, bytes: &mut Vec<u8, A>)
        requires room { vec_len bytes.old + 11 ≤ vec_capacity bytes.old }
        ensures items { bytes.new.items ≡ bytes.old.items ++ encoding self }
        ensures in_range { InRange self }
        ensures len { vec_len bytes.new ≤ vec_len bytes.old + 11 }
        ensures capacity { vec_capacity bytes.new ≡ vec_capacity bytes.old };
}

impl Item for u32 {
    const LEAST: usize = 1;

    ghost encoding = { unsigned_leb128 };

    ghost InRange = { λ n. n < 2 ^ 32 };

    fn put<A: Allocator>(self, bytes: &mut Vec<u8, A>) {
        put_u32(bytes, self);
    }
}

impl Item for ValType {
    const LEAST: usize = 1;

    ghost encoding = { val_type.bytes };

    ghost InRange = { ValTypeFits };

    fn put<A: Allocator>(self, bytes: &mut Vec<u8, A>) {
        put_val_type(bytes, self);
    }
}

impl Item for Catch {
    const LEAST: usize = 2;

    ghost encoding = { catch_clause.bytes };

    ghost InRange = { CatchFits };

    fn put<A: Allocator>(self, bytes: &mut Vec<u8, A>) {
        put_catch(bytes, self);
    }
}

impl Item for Handle {
    const LEAST: usize = 2;

    ghost encoding = { handle_clause.bytes };

    ghost InRange = { HandleFits };

    fn put<A: Allocator>(self, bytes: &mut Vec<u8, A>) {
        put_handle(bytes, self);
    }
}

/// Reserves room for an instruction with `count` items, and returns `count` as a `u32`. It reserves 24 bytes for all
/// but the items. For the items of a short list it reserves the most bytes that they may need, for those of a longer
/// list the fewest.
///
/// Fails with `TooLong` if `count` is over 4,294,967,295, and with `Memory` if `bytes` can't grow.
pub(crate) fn reserve_list<T: Item, A: Allocator>(
    bytes: &mut Vec<u8, A>,
    count: usize,
) -> Result<u32, EncodeError>
    ensures count { IfOk result (λ n. n ≡ count) }
    ensures room { OnOk result (vec_len bytes.new + 24 ≤ vec_capacity bytes.new) }
    ensures room_if_short { OnOk result (count ≤ 64 → vec_len bytes.new + 24 + 11 * count ≤ vec_capacity bytes.new) }
    ensures err { IfErr result (IsRefusedList count) }
    ensures unchanged { bytes.new.items ≡ bytes.old.items }
{
    let Ok(number) = u32::try_from(count) else {
        return Err(EncodeError::TooLong);
    };
    let each = if number <= SHORT { ITEM_ROOM } else { T::LEAST };
    bytes.reserve(count.saturating_mul(each).saturating_add(ROOM))?;
    Ok(number)
}

/// Appends the count into reserved room, and then the items. A short list's items go into reserved room too. On error a
/// part of the list may remain.
///
/// Writes the iterator's `len` as the count, and corrects it if the iterator yields fewer items.
#[tactic(auto, unfolding(crate::specs::Appending::AppendsAll))]
pub(crate) fn put_list<T: Item, I: ExactSizeIterator<Item = T>, A: Allocator>(
    bytes: &mut Vec<u8, A>,
    told: u32,
    items: I,
) -> Result<(), AllocError>
    requires can { I.can_next items }
    requires finite { IsFinite (I.remaining items) }
    requires told { told ≡ size (I.remaining items) }
    requires room { vec_len bytes.old + 5 ≤ vec_capacity bytes.old }
    requires room_if_short { told ≤ 64 → vec_len bytes.old + 5 + 11 * told ≤ vec_capacity bytes.old }
    ensures ok { OnOk result (AppendsAll I.next_gives T.InRange items (items_bytes T.encoding) bytes.old.items bytes.new.items) }
    ensures kept { take (length bytes.old.items) bytes.new.items ≡ bytes.old.items }
{
    let start = bytes.len();
    put_u32(bytes, told);
    let came = if told <= SHORT {
        put_items::<T, I, A, true>(bytes, items)?
    } else {
        put_items::<T, I, A, false>(bytes, items)?
    };
    if came == told {
        return Ok(());
    }
    mend_count(bytes, start, told, came)
}

/// Appends the items that the iterator yields, and returns their number. On error some of them may remain.
///
/// With `FITS`, room for all items is already reserved; without it, room is reserved before each item.
fn put_items<T: Item, I: ExactSizeIterator<Item = T>, A: Allocator, const FITS: bool>(
    bytes: &mut Vec<u8, A>,
    items: I,
) -> Result<u32, AllocError>
    requires can { I.can_next items }
    requires finite { IsFinite (I.remaining items) }
    requires few { size (I.remaining items) < 2 ^ 32 }
    requires room { IsTrue FITS → vec_len bytes.old + 11 * size (I.remaining items) ≤ vec_capacity bytes.old }
    ensures ok { IfOk result (PutsItems I.next_gives T.InRange items T.encoding bytes.old.items bytes.new.items) }
    ensures few { IfOk result (λ came. came ≤ size (I.remaining items)) }
    ensures kept { take (length bytes.old.items) bytes.new.items ≡ bytes.old.items }
{
    let mut came = 0;
    for item in items {
        if !FITS {
            bytes.reserve(ITEM_ROOM)?;
        }
        item.put(bytes);
        came += 1;
    }
    Ok(came)
}
