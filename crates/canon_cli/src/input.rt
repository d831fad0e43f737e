//! Readers that may know how many bytes they have.
use std::io::Read;

/// A reader that may know how many bytes it has.
pub trait Input: Read {
    /// Returns the number of bytes to read, if it is known. A wrong number costs only time and memory.
    fn expected_len(&self) -> Option<usize>;
}
