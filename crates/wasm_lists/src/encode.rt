//! The trait `Encode`, and writers of numbers, options and references (Core 3.0, Values).
ghost use Rattle.std.specs.Prelude.{◌≡◌, ◌++◌, ℕ, List, Option, None, OnOk, OnErr, IfErr, IsErrOf, IfSome, IsSomeAnd, ⊤};
ghost use Rattle.wasm_codec.specs.Leb128.{unsigned_leb128, signed_leb128};
ghost use Rattle.wasm_codec.specs.formats.Numbers.{EncodesU32, EncodesU64, EncodesS32, EncodesS64};
ghost use Rattle.wasm_codec.specs.Encoding.{option_bytes, IsCount, IsRefusal, IsMinimal, OnlyTooLong, too_long_at_once};
ghost use Rattle.wasm_codec.specs.declared.encode.EncodeError.{EncodeError};

mod iterators;
mod lists;
mod pairs;
mod short;

pub use iterators::append_items;
pub use lists::{append_each, encode_bytes, encode_list, encode_list_after, encode_str};
pub use short::EncodeShort;
pub(crate) use short::append_short_items;
use std::alloc::Allocator;
pub use wasm_codec::encode::EncodeError;
use wasm_codec::encode::keep_or_undo;
use wasm_codec::encode::leb128::{put_i32, put_i64, put_u32, put_u64};

/// A value with an encoding in the binary format.
///
/// Numbers, options, pairs, types, operands, calls, code bodies and the builders of sections implement it. Implement it
/// for types of your own too: `bytes` says what a value's encoding is, and the proof checks that `encode` appends it.
///
/// # Examples
///
/// ```
/// # use wasm_encoder::Encode;
/// let mut bytes = Vec::new(rt.alloc());
/// 624485u32.encode(&mut bytes)?;
/// (-123456i32).encode(&mut bytes)?;
/// assert_eq!(rt; bytes.as_slice(), b"\xe5\x8e\x26\xc0\xbb\x78".as_slice());
/// ```
pub trait Encode {
    /// The encoding of a value.
    ghost bytes: { Self → List ℕ };

    /// What holds for every value that was written, for example that its encoding is minimal. By default nothing.
    ghost IsWritten: { Self → Type 0 } = { λ _. ⊤ };

    /// The values that have an encoding. By default all.
    ghost CanEncode: { Self → Type 0 } = { λ _. ⊤ };

    /// The errors besides `Memory` that `encode` may return for a value without an encoding. By default none.
    ghost refuses: { Self → EncodeError → Type 0 } = { λ _ _. ⊥ };

    /// The error that `encode` returns for the value before it allocates, whatever memory is available. By default
    /// none.
    ghost at_once: { Self → Option EncodeError } = { λ _. None };

    /// Appends the value's encoding to `sink`. On error `sink` is unchanged.
    ///
    /// Fails with `Memory` if `sink` can't grow, and with an error of `refuses` if the value has no encoding.
    fn encode<A: Allocator>(&self, sink: &mut Vec<u8, A>) -> Result<(), EncodeError>
        ensures ok { OnOk result (sink.new.items ≡ sink.old.items ++ bytes self.now) }
        ensures can { OnOk result (CanEncode self.now) }
        ensures written { OnOk result (IsWritten self.now) }
        ensures refused { IfErr result (IsRefusal CanEncode refuses self.now) }
        ensures at_once { IfSome (at_once self.now) (λ e. IsErrOf result e) }
        ensures err { OnErr result (sink.new.items ≡ sink.old.items) };
}

/// An unsigned LEB128 number of 1 to 5 bytes (Core 3.0, Integers).
impl Encode for u32 {
    ghost bytes = { unsigned_leb128 };

    ghost IsWritten = { IsMinimal EncodesU32 unsigned_leb128 };

    #[inline(always)]
    fn encode<A: Allocator>(&self, sink: &mut Vec<u8, A>) -> Result<(), EncodeError> {
        sink.reserve(5)?;
        put_u32(sink, *self);
        Ok(())
    }
}

/// An unsigned LEB128 number of 1 to 10 bytes (Core 3.0, Integers).
impl Encode for u64 {
    ghost bytes = { unsigned_leb128 };

    ghost IsWritten = { IsMinimal EncodesU64 unsigned_leb128 };

    fn encode<A: Allocator>(&self, sink: &mut Vec<u8, A>) -> Result<(), EncodeError> {
        sink.reserve(10)?;
        put_u64(sink, *self);
        Ok(())
    }
}

/// A signed LEB128 number of 1 to 5 bytes (Core 3.0, Integers).
impl Encode for i32 {
    ghost bytes = { signed_leb128 };

    ghost IsWritten = { IsMinimal EncodesS32 signed_leb128 };

    fn encode<A: Allocator>(&self, sink: &mut Vec<u8, A>) -> Result<(), EncodeError> {
        sink.reserve(5)?;
        put_i32(sink, *self);
        Ok(())
    }
}

/// A signed LEB128 number of 1 to 10 bytes (Core 3.0, Integers).
impl Encode for i64 {
    ghost bytes = { signed_leb128 };

    ghost IsWritten = { IsMinimal EncodesS64 signed_leb128 };

    fn encode<A: Allocator>(&self, sink: &mut Vec<u8, A>) -> Result<(), EncodeError> {
        sink.reserve(10)?;
        put_i64(sink, *self);
        Ok(())
    }
}

/// A length or a count, as a `u32` (Core 3.0, Integers).
///
/// Fails with [`EncodeError::TooLong`] if the number is over 4,294,967,295.
impl Encode for usize {
    ghost bytes = { unsigned_leb128 };

    ghost IsWritten = { IsMinimal EncodesU32 unsigned_leb128 };

    ghost CanEncode = { IsCount };

    ghost refuses = { OnlyTooLong };

    ghost at_once = { too_long_at_once };

    fn encode<A: Allocator>(&self, sink: &mut Vec<u8, A>) -> Result<(), EncodeError> {
        let Ok(number) = u32::try_from(*self) else {
            return Err(EncodeError::TooLong);
        };
        number.encode(sink)
    }
}

/// The encoding of the referenced value.
impl<T: Encode> Encode for &T {
    ghost bytes = { λ value. T.bytes value.now };

    ghost IsWritten = { λ value. T.IsWritten value.now };

    ghost CanEncode = { λ value. T.CanEncode value.now };

    ghost refuses = { λ value. T.refuses value.now };

    ghost at_once = { λ value. T.at_once value.now };

    fn encode<A: Allocator>(&self, sink: &mut Vec<u8, A>) -> Result<(), EncodeError> {
        (**self).encode(sink)
    }
}

/// `0x00` for `None`, and `0x01` and the value's encoding for `Some`.
impl<T: Encode> Encode for Option<T> {
    ghost bytes = { option_bytes T.bytes };

    ghost IsWritten = { λ option. IfSome option T.IsWritten };

    ghost CanEncode = { λ option. IfSome option T.CanEncode };

    ghost refuses = { λ option e. IsSomeAnd option (λ value. T.refuses value e) };

    fn encode<A: Allocator>(&self, sink: &mut Vec<u8, A>) -> Result<(), EncodeError> {
        sink.reserve(1)?;
        let Some(value) = self else {
            sink.push_reserved(0);
            return Ok(());
        };
        let start = sink.len();
        sink.push_reserved(1);
        let result = value.encode(sink);
        keep_or_undo(sink, start, result)
    }
}
