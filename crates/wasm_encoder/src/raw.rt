//! Sections whose body is undecoded bytes.
pub use wasm_code::section::{RawSection, first_body};
