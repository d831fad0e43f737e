//! What inputs look like that aren't modules.
use std::fmt;

/// The beginning of an input, shown as what it looks like.
#[derive(Clone, Copy)]
pub struct Beginning {
    first: [u8; 4],
    len: usize,
}

impl Beginning {
    /// Returns the beginning of an input of `len` bytes with these first four, little-endian.
    pub fn new(first: u32, len: usize) -> Beginning {
        Beginning {
            first: first.to_le_bytes(),
            len,
        }
    }

    /// Returns what begins so. `None` means that it isn't known.
    fn name(&self) -> Option<&'static str> {
        match self.first.get(..self.len.min(4))? {
            [] => Some("no bytes"),
            [0x00] | [0x00, b'a'] | [0x00, b'a', b's'] => Some("a cut header"),
            [0x00, b'a', b's', b'm'] => Some("a cut header"),
            [0x1f, 0x8b, ..] => Some("a gzip file"),
            [b'B', b'C', 0xc0, 0xde] => Some("LLVM bitcode"),
            [b'!', b'<', b'a', b'r'] | [b'!', b'<', b't', b'h'] => Some("an `ar` archive"),
            [b'(', b'm', b'o', b'd'] | [b'(', b'c', b'o', b'm'] => Some("the text format"),
            [b';', b';', ..] => Some("the text format"),
            bytes if bytes.iter().all(is_text) => Some("text"),
            _ => None,
        }
    }
}

/// Checks whether ASCII text may have this byte.
fn is_text(byte: &u8) -> bool {
    matches!(*byte, b'\t' | b'\n' | b'\r' | 0x20..=0x7e)
}

impl fmt::Display for Beginning {
    fn fmt<W: fmt::Write>(&self, f: &mut fmt::Formatter<W>) -> fmt::Result {
        match self.name() {
            Some(name) => f.write_str(name),
            None => {
                let [first, second, third, fourth] = self.first;
                write!(f, "{first:02X} {second:02X} {third:02X} {fourth:02X}")
            }
        }
    }
}

/// A version that isn't that of a module, and what is expected.
#[derive(Clone, Copy)]
pub struct OtherVersion(pub u32);

impl fmt::Display for OtherVersion {
    fn fmt<W: fmt::Write>(&self, f: &mut fmt::Formatter<W>) -> fmt::Result {
        let found = if self.0 == 0x1_000d {
            ", found a component"
        } else {
            ""
        };
        write!(f, "0x{:x}: expected 1{found}", self.0)
    }
}
