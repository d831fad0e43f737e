//! Lists, bytes and texts, each after its length (Core 3.0, Lists and Names).
ghost use Rattle.std.specs.Prelude.{◌≡◌, ◌++◌, ◌∷◌, ◌+◌, ◌^◌, ◌≤◌, ◌⊎◌, IsOk, OnOk, OnErr, IfErr, IsErrOf, length, take, vec_len, vec_capacity};
ghost use Rattle.std.specs.List.{All, Any, flat_map};
ghost use Rattle.wasm_codec.specs.Leb128.{unsigned_leb128};
ghost use Rattle.wasm_codec.specs.Lists.{items_bytes};
ghost use Rattle.wasm_codec.specs.Encoding.{byte_list_bytes, CanEncodeList, IsCount, IsCountRefusal, IsListRefusal, Refuses};
ghost use Rattle.wasm_codec.specs.declared.encode.EncodeError.TheVariants.{Memory};

use crate::encode::Encode;
use std::alloc::Allocator;
use wasm_codec::encode::leb128::{put_u32, u32_len};
use wasm_codec::encode::{EncodeError, keep_or_undo};

/// The bytes to reserve for a list besides one for each item: for its count, and for more bytes of the last item.
const LIST_ROOM: usize = 10;

/// Appends the number of items and then each item's encoding. On error `sink` is unchanged (Core 3.0, Lists).
///
/// Fails with `TooLong` if there are more than 4,294,967,295 items, before it allocates, and with any error of an item.
///
/// Write the type of numbers: `&[0u32, 64]` for indexes. The numbers of `&[0, 64]` are `i32`, and a signed 64 has two
/// bytes.
///
/// # Examples
///
/// ```
/// # use wasm_encoder::encode_list;
/// let mut bytes = Vec::new(rt.alloc());
/// encode_list(&[0u32, 64], &mut bytes)?;
/// assert_eq!(rt; bytes.as_slice(), b"\x02\x00\x40".as_slice());
/// ```
pub fn encode_list<T: Encode, A: Allocator>(
    items: &[T],
    sink: &mut Vec<u8, A>,
) -> Result<(), EncodeError>
    ensures ok { OnOk result (sink.new.items ≡ sink.old.items ++ items_bytes T.bytes items.now) }
    ensures can { OnOk result (CanEncodeList T.CanEncode items.now) }
    ensures written { OnOk result (All T.IsWritten items.now) }
    ensures refused { IfErr result (IsListRefusal T.CanEncode T.refuses items.now) }
    ensures too_many { 2 ^ 32 ≤ length items.now → IsErrOf result EncodeError.TooLong }
    ensures err { OnErr result (sink.new.items ≡ sink.old.items) }
{
    let start = sink.len();
    let result = append_list(items, sink);
    keep_or_undo(sink, start, result)
}

/// Appends `byte`, the number of items and then each item's encoding. On error `sink` is unchanged.
///
/// Fails with `TooLong` if there are more than 4,294,967,295 items, before it allocates, and with any error of an item.
pub fn encode_list_after<T: Encode, A: Allocator>(
    byte: u8,
    items: &[T],
    sink: &mut Vec<u8, A>,
) -> Result<(), EncodeError>
    ensures ok { OnOk result (sink.new.items ≡ sink.old.items ++ byte ∷ items_bytes T.bytes items.now) }
    ensures can { OnOk result (CanEncodeList T.CanEncode items.now) }
    ensures written { OnOk result (All T.IsWritten items.now) }
    ensures refused { IfErr result (IsListRefusal T.CanEncode T.refuses items.now) }
    ensures too_many { 2 ^ 32 ≤ length items.now → IsErrOf result EncodeError.TooLong }
    ensures err { OnErr result (sink.new.items ≡ sink.old.items) }
{
    if u32::try_from(items.len()).is_err() {
        return Err(EncodeError::TooLong);
    }
    let start = sink.len();
    sink.reserve(1 + LIST_ROOM + items.len())?;
    sink.push_reserved(byte);
    let result = encode_list(items, sink);
    keep_or_undo(sink, start, result)
}

/// Appends the number of items and then each item's encoding. On error a part of the list may remain.
fn append_list<T: Encode, A: Allocator>(
    items: &[T],
    sink: &mut Vec<u8, A>,
) -> Result<(), EncodeError>
    ensures ok { OnOk result (sink.new.items ≡ sink.old.items ++ items_bytes T.bytes items.now) }
    ensures can { OnOk result (CanEncodeList T.CanEncode items.now) }
    ensures written { OnOk result (All T.IsWritten items.now) }
    ensures refused { IfErr result (IsListRefusal T.CanEncode T.refuses items.now) }
    ensures too_many { 2 ^ 32 ≤ length items.now → IsErrOf result EncodeError.TooLong }
    ensures kept { take (length sink.old.items) sink.new.items ≡ sink.old.items }
{
    let Ok(count) = u32::try_from(items.len()) else {
        return Err(EncodeError::TooLong);
    };
    sink.reserve(LIST_ROOM + items.len())?;
    put_u32(sink, count);
    append_each(items, sink)
}

/// Appends each item's encoding. On error some of them may remain.
pub fn append_each<T: Encode, A: Allocator>(
    items: &[T],
    sink: &mut Vec<u8, A>,
) -> Result<(), EncodeError>
    ensures ok { OnOk result (sink.new.items ≡ sink.old.items ++ flat_map T.bytes items.now) }
    ensures can { OnOk result (All T.CanEncode items.now) }
    ensures written { OnOk result (All T.IsWritten items.now) }
    ensures refused { IfErr result (λ e. (e ≡ Memory) ⊎ Any (λ x. Refuses T.CanEncode T.refuses x e) items.now) }
    ensures kept { take (length sink.old.items) sink.new.items ≡ sink.old.items }
{
    for item in items {
        item.encode(sink)?;
    }
    Ok(())
}

/// Appends the number of bytes and then the bytes. On error `sink` is unchanged (Core 3.0, Lists).
///
/// Fails with `TooLong` if there are more than 4,294,967,295 bytes. Otherwise it allocates at most once, and not if
/// `sink` has room.
///
/// # Examples
///
/// ```
/// # use wasm_encoder::encode_bytes;
/// let mut bytes = Vec::new(rt.alloc());
/// encode_bytes(b"\x2a\x80", &mut bytes)?;
/// assert_eq!(rt; bytes.as_slice(), b"\x02\x2a\x80".as_slice());
/// ```
pub fn encode_bytes<A: Allocator>(bytes: &[u8], sink: &mut Vec<u8, A>) -> Result<(), EncodeError>
    ensures ok { OnOk result (sink.new.items ≡ sink.old.items ++ byte_list_bytes bytes.now) }
    ensures can { OnOk result (IsCount (length bytes.now)) }
    ensures refused { IfErr result (IsCountRefusal (length bytes.now)) }
    ensures too_many { 2 ^ 32 ≤ length bytes.now → IsErrOf result EncodeError.TooLong }
    ensures room { IsCount (length bytes.now) →
        vec_len sink.old + length (byte_list_bytes bytes.now) ≤ vec_capacity sink.old → IsOk result }
    ensures err { OnErr result (sink.new.items ≡ sink.old.items) }
{
    let Ok(count) = u32::try_from(bytes.len()) else {
        return Err(EncodeError::TooLong);
    };
    sink.reserve(u32_len(count) + bytes.len())?;
    put_length(sink, count);
    sink.extend_from_slice(bytes)?;
    Ok(())
}

/// Writes a length of 1 to 5 bytes into reserved room, in which as many bytes are to follow.
#[tactic(auto, unfolding(wasm_codec::specs::Leb128::unsigned_leb128, wasm_codec::specs::Leb128::digits_of))]
fn put_length<A: Allocator>(sink: &mut Vec<u8, A>, number: u32)
    requires { vec_len sink.old + length (unsigned_leb128 number) + number ≤ vec_capacity sink.old }
    ensures items { sink.new.items ≡ sink.old.items ++ unsigned_leb128 number }
    ensures capacity { vec_capacity sink.new ≡ vec_capacity sink.old }
{
    if number < 128 {
        sink.push_reserved(number as u8);
    } else {
        put_u32(sink, number);
    }
}

/// Appends the length of a text in bytes and then the text as UTF-8. On error `sink` is unchanged (Core 3.0, Names).
///
/// Fails with `TooLong` if the text is longer than 4,294,967,295 bytes. Otherwise it allocates at most once, and not if
/// `sink` has room.
///
/// # Examples
///
/// ```
/// # use wasm_encoder::encode_str;
/// let mut bytes = Vec::new(rt.alloc());
/// encode_str("naïve", &mut bytes)?;
/// assert_eq!(rt; bytes.as_slice(), b"\x06na\xc3\xafve".as_slice());
/// ```
pub fn encode_str<A: Allocator>(text: &str, sink: &mut Vec<u8, A>) -> Result<(), EncodeError>
    ensures ok { OnOk result (sink.new.items ≡ sink.old.items ++ byte_list_bytes text.now) }
    ensures can { OnOk result (IsCount (length text.now)) }
    ensures refused { IfErr result (IsCountRefusal (length text.now)) }
    ensures too_many { 2 ^ 32 ≤ length text.now → IsErrOf result EncodeError.TooLong }
    ensures room { IsCount (length text.now) →
        vec_len sink.old + length (byte_list_bytes text.now) ≤ vec_capacity sink.old → IsOk result }
    ensures err { OnErr result (sink.new.items ≡ sink.old.items) }
{
    encode_bytes(text.as_bytes(), sink)
}
