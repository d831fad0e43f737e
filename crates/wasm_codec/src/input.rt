//! `Input`, what a production of the binary format takes its parts from.
ghost use Rattle.std.specs.Prelude.{◌≡◌, Bool, true, false, [], IfErr, ◌≤◌, ◌<◌, ◌+◌, length};
ghost use Rattle.wasm_codec.specs.Inputs.{IfWrites, Takes, left_out, overwritten};
ghost use Rattle.wasm_codec.specs.Outcomes.{IsMalformed};
ghost use Rattle.wasm_codec.specs.Places.{Sees};
ghost use Rattle.wasm_codec.specs.Rewriter.{Rewriting, rewriting, no_rest};
ghost use Rattle.wasm_codec.specs.formats.Combinators.{a_byte, u32 as u32_format, u64 as u64_format, index as index_format};

use crate::reader::cursor::{Cursor, Fault};
use crate::reader::malformed::{Construct, Malformed};
use crate::rewriter::Rewriter;

/// The input of a production: a cursor, which reads, or a rewriter, which also writes minimal encodings in place.
pub trait Input {
    /// Whether it writes what it reads.
    ghost writes: { Bool };

    /// What was written, and what is left.
    ghost state: { Self → Rewriting };

    /// Returns the number of bytes up to the end of the input.
    fn to_end(&self) -> usize;

    /// Returns the fault that the byte just read isn't this part.
    fn invalid(&self, construct: Construct, byte: u8) -> Malformed;

    /// Returns the number of bytes written. A cursor writes none.
    fn mark(&self) -> usize
        ensures { result ≡ length (state self.now).done };

    /// Notes a long form. Its minimal encoding lacks the `count` bytes written at `mark`.
    fn leave_out(&mut self, mark: usize, count: usize)
        requires { IfWrites writes (mark + count ≤ length (state self.old).done) }
        ensures { state self.new ≡ left_out writes mark count (state self.old) };

    /// Overwrites the byte written at `mark`.
    fn overwrite(&mut self, mark: usize, byte: u8)
        requires { IfWrites writes (mark < length (state self.old).done) }
        ensures { state self.new ≡ overwritten writes mark byte (state self.old) };

    /// Takes the first byte of a part. Fails with `Malformed` at the end of the bytes.
    fn byte_of(&mut self, construct: Construct) -> Result<u8, Fault>
        ensures takes { Takes writes a_byte (state self.old) (state self.new) result };

    /// Returns the next byte, the first of this part, and doesn't move. Fails with `Malformed` at the end of the bytes.
    fn peek(&self, construct: Construct) -> Result<u8, Fault>
        ensures sees { Sees (state self.now).place result }
        ensures err { IfErr result IsMalformed };

    /// Takes a u32 (Core 3.0, Integers).
    fn u32(&mut self) -> Result<u32, Fault>
        ensures takes { Takes writes u32_format (state self.old) (state self.new) result };

    /// Takes a u64 (Core 3.0, Integers).
    fn u64(&mut self) -> Result<u64, Fault>
        ensures takes { Takes writes u64_format (state self.old) (state self.new) result };

    /// Takes a type index, encoded as a non-negative s33 (Core 3.0, Heap Types).
    fn index(&mut self) -> Result<u32, Fault>
        ensures takes { Takes writes index_format (state self.old) (state self.new) result };
}

impl<'a> Input for Cursor<'a> {
    ghost writes = { false };

    ghost state = { λ cursor. rewriting [] cursor no_rest };

    #[inline(always)]
    fn to_end(&self) -> usize {
        Cursor::to_end(self)
    }

    #[cold]
    fn invalid(&self, construct: Construct, byte: u8) -> Malformed {
        Cursor::invalid(self, construct, byte)
    }

    #[inline(always)]
    fn mark(&self) -> usize {
        0
    }

    #[inline(always)]
    fn leave_out(&mut self, _mark: usize, _count: usize) {
        self.note_long_form();
    }

    #[inline(always)]
    fn overwrite(&mut self, _mark: usize, _byte: u8) {}

    #[inline(always)]
    fn byte_of(&mut self, construct: Construct) -> Result<u8, Fault> {
        Cursor::byte_of(self, construct)
    }

    #[inline(always)]
    fn peek(&self, construct: Construct) -> Result<u8, Fault> {
        Cursor::peek(self, construct)
    }

    #[inline(always)]
    fn u32(&mut self) -> Result<u32, Fault> {
        Cursor::u32(self)
    }

    #[inline(always)]
    fn u64(&mut self) -> Result<u64, Fault> {
        Cursor::u64(self)
    }

    #[inline(always)]
    fn index(&mut self) -> Result<u32, Fault> {
        Cursor::index(self)
    }
}

impl Input for Rewriter<'_> {
    ghost writes = { true };

    ghost state = { λ rewriter. rewriter };

    #[inline(always)]
    fn to_end(&self) -> usize {
        Rewriter::to_end(self)
    }

    #[cold]
    fn invalid(&self, construct: Construct, byte: u8) -> Malformed {
        Rewriter::invalid(self, construct, byte)
    }

    #[inline(always)]
    fn mark(&self) -> usize {
        self.written_len()
    }

    #[inline(always)]
    fn leave_out(&mut self, mark: usize, count: usize) {
        self.cut_out(mark, count);
    }

    #[inline(always)]
    fn overwrite(&mut self, mark: usize, byte: u8) {
        self.set_byte(mark, byte);
    }

    #[inline(always)]
    fn byte_of(&mut self, construct: Construct) -> Result<u8, Fault> {
        Rewriter::byte_of(self, construct)
    }

    #[inline(always)]
    fn peek(&self, construct: Construct) -> Result<u8, Fault> {
        Rewriter::peek(self, construct)
    }

    #[inline(always)]
    fn u32(&mut self) -> Result<u32, Fault> {
        Rewriter::u32(self)
    }

    #[inline(always)]
    fn u64(&mut self) -> Result<u64, Fault> {
        Rewriter::u64(self)
    }

    #[inline(always)]
    fn index(&mut self) -> Result<u32, Fault> {
        Rewriter::index(self)
    }
}
