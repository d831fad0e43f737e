//! Items that come one after another.

use crate::mismatch::Mismatch;
use std::alloc::Global;
use wasm_encoder::{DecodeError, ItemReader, ReadError, Readable};

/// Takes all items, which come at these offsets. Returns what a reader of the list returns.
pub fn all_items<'a, T: Readable<'a>>(
    alloc: Global,
    reader: Result<ItemReader<'a, T>, DecodeError>,
    offsets: &[usize],
) -> Result<Result<Vec<T>, ReadError>, Mismatch> {
    match reader {
        Ok(reader) => take_all(alloc, reader, offsets),
        Err(error) => Ok(Err(ReadError::from(error))),
    }
}

/// Takes all items. Nothing may come after an error.
fn take_all<'a, T: Readable<'a>>(
    alloc: Global,
    reader: ItemReader<'a, T>,
    offsets: &[usize],
) -> Result<Result<Vec<T>, ReadError>, Mismatch> {
    let mut items = Vec::new(alloc);
    let mut refused = None;
    for next in reader {
        if refused.is_some() {
            return Err(Mismatch::Read);
        }
        match next {
            Ok((offset, _)) if offsets.get(items.len()) != Some(&offset) => {
                return Err(Mismatch::Place);
            }
            Ok((_, item)) => items.push(item)?,
            Err(error) => refused = Some(ReadError::from(error)),
        }
    }
    Ok(match refused {
        Some(error) => Err(error),
        None => Ok(items),
    })
}
