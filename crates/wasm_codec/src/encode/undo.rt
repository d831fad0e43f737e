//! Undoing an append that failed halfway.
ghost use Rattle.std.specs.Prelude.{◌≡◌, take, OnOk, OnErr};

use crate::encode::EncodeError;
use std::alloc::Allocator;

/// Truncates `bytes` back to `start` items if `appended` is an error. Returns `appended`.
///
/// # Examples
///
/// ```
/// # use wasm_encoder::{EncodeError, keep_or_undo};
/// let mut bytes = Vec::from_slice(rt.alloc(), b"\x01\x02\x03")?;
/// let result = keep_or_undo(&mut bytes, 1, Err(EncodeError::TooLong));
/// assert_eq!(rt; result, Err(EncodeError::TooLong));
/// assert_eq!(rt; bytes.as_slice(), b"\x01".as_slice());
/// ```
pub fn keep_or_undo<A: Allocator>(
    bytes: &mut Vec<u8, A>,
    start: usize,
    appended: Result<(), EncodeError>,
) -> Result<(), EncodeError>
    ensures same { result ≡ appended }
    ensures kept { OnOk result (bytes.new.items ≡ bytes.old.items) }
    ensures undone { OnErr result (bytes.new.items ≡ take start bytes.old.items) }
{
    if appended.is_err() {
        bytes.truncate(start);
    }
    appended
}
