//! Lists of the items that an iterator yields (Core 3.0, Lists).
ghost use Rattle.std.specs.Prelude.{◌≡◌, ◌^◌, ◌≤◌, ◌⊎◌, OnOk, IfOk, IfErr, IsErrOf, length, take};
ghost use Rattle.std.specs.Iterator.{IsFinite, size};
ghost use Rattle.wasm_codec.specs.Encoding.{IsCount};
ghost use Rattle.wasm_lists.specs.Iterators.{AppendsJoined, AppendsItems, IsItemsRefusal, IsRefusalOfGiven};
ghost use Rattle.wasm_codec.specs.declared.encode.EncodeError.TheVariants.{Memory};

use crate::encode::Encode;
use std::alloc::Allocator;
use wasm_codec::encode::{EncodeError, mend_count};

/// Appends the number of the items that the iterator yields, and then each item's encoding. On error a part of the list
/// may remain.
///
/// Writes the iterator's `len` as the count, and corrects it if the iterator yields fewer items. Fails with `TooLong`
/// if `len` is over 4,294,967,295, before it asks for an item, and with any error of an item.
#[inline(always)]
pub fn append_items<T: Encode + Drop, I: ExactSizeIterator<Item = T>, A: Allocator>(
    items: I,
    sink: &mut Vec<u8, A>,
) -> Result<(), EncodeError>
    requires { I.can_next items }
    ensures ok { OnOk result (AppendsItems T.bytes T.CanEncode T.IsWritten I.next_gives items sink.old.items sink.new.items) }
    ensures refused { IfErr result (IsItemsRefusal T.CanEncode T.refuses I.next_gives I.remaining items) }
    ensures too_many { 2 ^ 32 ≤ size (I.remaining items) → IsErrOf result EncodeError.TooLong }
    ensures kept { take (length sink.old.items) sink.new.items ≡ sink.old.items }
{
    let Ok(told) = u32::try_from(items.len()) else {
        return Err(EncodeError::TooLong);
    };
    let start = sink.len();
    told.encode(sink)?;
    let came = append_given(items, sink)?;
    if came != told {
        mend_count(sink, start, told, came)?;
    }
    Ok(())
}

/// Appends the encodings of the items that the iterator yields, and returns their number. On error some of them may
/// remain.
#[inline(always)]
fn append_given<T: Encode + Drop, I: ExactSizeIterator<Item = T>, A: Allocator>(
    items: I,
    sink: &mut Vec<u8, A>,
) -> Result<u32, EncodeError>
    requires next { I.can_next items }
    requires ends { IsFinite (I.remaining items) }
    requires few { IsCount (size (I.remaining items)) }
    ensures ok { IfOk result (λ came. AppendsJoined T.bytes T.CanEncode T.IsWritten I.next_gives items sink.old.items sink.new.items came) }
    ensures few { IfOk result (λ came. came ≤ size (I.remaining items)) }
    ensures refused { IfErr result (λ e. (e ≡ Memory) ⊎ IsRefusalOfGiven T.CanEncode T.refuses I.next_gives items e) }
    ensures kept { take (length sink.old.items) sink.new.items ≡ sink.old.items }
{
    let mut came = 0;
    for item in items {
        item.encode(sink)?;
        came += 1;
    }
    Ok(came)
}
