//! Lists of items with short encodings, which are written into room that is reserved once (Core 3.0, Lists).
ghost use Rattle.std.specs.Prelude.{◌≡◌, ◌++◌, ◌+◌, ◌*◌, ◌≤◌, OnOk, IfErr, length, take, vec_capacity, vec_len};
ghost use Rattle.std.specs.Iterator.{IsFinite, size};
ghost use Rattle.wasm_codec.specs.Encoding.{IsCount};
ghost use Rattle.wasm_codec.specs.declared.encode.EncodeError.TheVariants.{Memory};
ghost use Rattle.wasm_lists.specs.Iterators.{AppendsItems, AppendsJoined};

use crate::encode::Encode;
use std::alloc::Allocator;
use wasm_codec::encode::leb128::put_u32;
use wasm_codec::encode::{EncodeError, mend_count};

/// A value that has an encoding of at most seven bytes, such as a value type.
pub trait EncodeShort: Encode {
    /// Appends the value's encoding, for which `sink` has room.
    fn put<A: Allocator>(&self, sink: &mut Vec<u8, A>)
        requires { vec_len sink.old + 7 ≤ vec_capacity sink.old }
        ensures items { sink.new.items ≡ sink.old.items ++ Self.bytes self.now }
        ensures can { Self.CanEncode self.now }
        ensures written { Self.IsWritten self.now }
        ensures len { vec_len sink.new ≤ vec_len sink.old + 7 }
        ensures capacity { vec_capacity sink.new ≡ vec_capacity sink.old };
}

/// Appends the number of the items that the iterator yields, and then each item's encoding. On error a part of the list
/// may remain.
///
/// `told` is the iterator's `len`, and `sink` has room for as many items and for `rest` bytes more, as it still has then.
/// Fails with `Memory` if the iterator yields fewer items and `sink` can't grow.
#[inline(always)]
pub(crate) fn append_short_items<
    T: EncodeShort + Drop,
    I: ExactSizeIterator<Item = T>,
    A: Allocator,
>(items: I, told: u32, rest: usize, sink: &mut Vec<u8, A>) -> Result<(), EncodeError>
    requires next { I.can_next items }
    requires ends { IsFinite (I.remaining items) }
    requires told { told ≡ size (I.remaining items) }
    requires room { vec_len sink.old + (5 + 7 * told + rest) ≤ vec_capacity sink.old }
    ensures ok { OnOk result (AppendsItems T.bytes T.CanEncode T.IsWritten I.next_gives items sink.old.items sink.new.items) }
    ensures room { OnOk result (vec_len sink.new + rest ≤ vec_capacity sink.new) }
    ensures refused { IfErr result (λ e. e ≡ Memory) }
    ensures kept { take (length sink.old.items) sink.new.items ≡ sink.old.items }
{
    let start = sink.len();
    put_u32(sink, told);
    let came = put_each(items, sink);
    if came != told {
        mend_count(sink, start, told, came)?;
        sink.reserve(rest)?;
    }
    Ok(())
}

/// Appends the encodings of the items that the iterator yields, for which `sink` has room, and returns their number.
#[inline(always)]
fn put_each<T: EncodeShort + Drop, I: ExactSizeIterator<Item = T>, A: Allocator>(
    items: I,
    sink: &mut Vec<u8, A>,
) -> u32
    requires next { I.can_next items }
    requires ends { IsFinite (I.remaining items) }
    requires few { IsCount (size (I.remaining items)) }
    requires room { vec_len sink.old + 7 * size (I.remaining items) ≤ vec_capacity sink.old }
    ensures ok { AppendsJoined T.bytes T.CanEncode T.IsWritten I.next_gives items sink.old.items sink.new.items result }
    ensures few { result ≤ size (I.remaining items) }
    ensures len { vec_len sink.new ≤ vec_len sink.old + 7 * size (I.remaining items) }
    ensures capacity { vec_capacity sink.new ≡ vec_capacity sink.old }
{
    let mut came = 0;
    for item in items {
        item.put(sink);
        came += 1;
    }
    came
}
