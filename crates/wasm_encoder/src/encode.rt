//! The trait [`Encode`], functions that write lists, bytes and texts, and the errors of writing.

pub use wasm_codec::encode::{EncodeError, keep_or_undo};
pub use wasm_lists::encode::{Encode, encode_bytes, encode_list, encode_str};
