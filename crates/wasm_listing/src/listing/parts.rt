//! The parts of a section's body, and what of them isn't minimally encoded.
use crate::listing::Stop;
use crate::sections::LocatedSection;
use std::alloc::{AllocError, Global};
use wasm_code::code::normaliser::read_local_group;
use wasm_codec::encode::EncodeError;
use wasm_codec::encode::leb128::u32_len;
use wasm_codec::reader::cursor::Cursor;
use wasm_codec::reader::malformed::Construct;
use wasm_codec::rewriter::Rewriter;
use wasm_externals::expressions::{encode_expr, read_expr};
use wasm_externals::names::read_name;
use wasm_instructions::table::Call;
use wasm_lists::encode::Encode;
use wasm_lists::list::Items;
use wasm_lists::readable::Readable;
use wasm_types::types::{RefType, ValType, take_ref_type};

/// A part of a module.
#[derive(Clone, Copy)]
pub struct Part<'a> {
    /// Number of parts before it in its list.
    pub number: u32,
    /// Offset in bytes from the start of the module.
    pub at: usize,
    /// The bytes that encode it.
    pub bytes: &'a [u8],
    /// Length of its minimal encoding, if that is shorter.
    pub minimal: Option<usize>,
}

impl Part<'_> {
    /// Returns the offset of what follows.
    pub fn end(&self) -> usize {
        self.at.saturating_add(self.bytes.len())
    }

    /// Returns the two lengths of a part that isn't minimally encoded.
    pub fn longer(&self) -> Option<Longer> {
        self.minimal.map(|minimal| Longer {
            bytes: self.bytes.len(),
            minimal,
        })
    }
}

/// The lengths in bytes of an encoding that isn't minimal, and of the minimal one.
#[derive(Clone, Copy)]
pub struct Longer {
    /// Length of the encoding.
    pub bytes: usize,
    /// Length of the minimal encoding.
    pub minimal: usize,
}

/// Returns the lengths of the number at the start of the bytes, if it isn't minimally encoded.
pub fn longer_number(bytes: &[u8]) -> Option<Longer> {
    let mut cursor = Cursor::new(bytes);
    match cursor.u32() {
        Ok(number) if !cursor.is_minimal() => Some(Longer {
            bytes: bytes.len().saturating_sub(cursor.len()),
            minimal: u32_len(number),
        }),
        _ => None,
    }
}

/// A reader of the parts of a section's body, or of a function in it.
#[derive(Drop)]
pub struct PartReader<'a> {
    alloc: Global,
    located: LocatedSection<'a>,
    cursor: Cursor<'a>,
}

impl<'a> PartReader<'a> {
    /// Returns a reader of the body of a section.
    pub fn new(alloc: Global, located: LocatedSection<'a>) -> PartReader<'a> {
        PartReader {
            alloc,
            located,
            cursor: Cursor::new(located.section.body),
        }
    }

    /// Returns a second reader at the same position.
    pub fn again(&self) -> PartReader<'a> {
        PartReader {
            alloc: self.alloc,
            located: self.located,
            cursor: self.cursor.fork(),
        }
    }

    /// Returns a second reader at a later position in the body. Fails with `Malformed` if fewer bytes are left.
    pub fn skip_to(&self, position: usize) -> Result<PartReader<'a>, Stop> {
        let mut reader = self.again();
        let skipped = position.saturating_sub(self.position());
        reader.cursor.take(skipped, Construct::Body)?;
        Ok(reader)
    }

    /// Returns the number of bytes left.
    pub fn len(&self) -> usize {
        self.cursor.len()
    }

    /// Returns the bytes from here to the end of the section.
    pub fn left(&self) -> &'a [u8] {
        let body = self.located.section.body;
        body.get(self.position()..).unwrap_or(&[])
    }

    /// Returns the number of bytes of the body before the next part.
    pub fn position(&self) -> usize {
        let body = self.located.section.body;
        body.len().saturating_sub(self.cursor.to_end())
    }

    /// Returns the part from this position of the body up to the next part.
    fn part(&self, number: u32, start: usize, minimal: Option<usize>) -> Part<'a> {
        let body = self.located.section.body;
        Part {
            number,
            at: self.located.offset_of(start),
            bytes: body.get(start..self.position()).unwrap_or(&[]),
            minimal,
        }
    }

    /// Returns the offset of the next part in the module.
    pub fn at(&self) -> usize {
        self.located.offset_of(self.position())
    }

    /// Returns the part that began at `start` and ends here. Its minimal encoding has `minimal` bytes.
    pub fn part_from(&self, number: u32, start: usize, minimal: usize) -> Part<'a> {
        let part = self.part(number, start, None);
        if minimal < part.bytes.len() {
            return Part {
                minimal: Some(minimal),
                ..part
            };
        }
        part
    }

    /// Checks whether this is the next byte.
    pub fn next_is(&self, byte: u8) -> bool {
        self.left().first() == Some(&byte)
    }

    /// Reads a byte.
    pub fn byte(&mut self) -> Result<u8, Stop> {
        Ok(self.cursor.byte()?)
    }

    /// Reads a name.
    pub fn name(&mut self) -> Result<&'a str, Stop> {
        match read_name(&mut self.cursor) {
            Ok(name) => Ok(name),
            Err(fault) => Err(Stop::from(fault)),
        }
    }

    /// Reads a size, and returns a reader of as many bytes.
    pub fn sized(&mut self) -> Result<PartReader<'a>, Stop> {
        let cursor = self.cursor.body()?;
        Ok(PartReader {
            alloc: self.alloc,
            located: self.located,
            cursor,
        })
    }

    /// Reads a number, such as a count.
    pub fn number(&mut self) -> Result<u32, Stop> {
        Ok(self.cursor.u32()?)
    }

    /// Fails with `Malformed` if bytes are left.
    pub fn end(&self) -> Result<(), Stop> {
        if self.cursor.len() > 0 {
            return Err(Stop::Malformed);
        }
        Ok(())
    }

    /// Reads the item with this number.
    pub fn item<T: Readable<'a>>(&mut self, number: u32) -> Result<(Part<'a>, T), Stop> {
        let start = self.position();
        let (item, minimal) = self.piece::<T>()?;
        Ok((self.part_from(number, start, minimal), item))
    }

    /// Reads a value.
    pub fn value<T: Readable<'a>>(&mut self) -> Result<T, Stop> {
        Ok(T::read(self.alloc, &mut self.cursor)?)
    }

    /// Reads a piece of an item. Returns it, and the length of its minimal encoding.
    pub fn piece<T: Readable<'a>>(&mut self) -> Result<(T, usize), Stop> {
        let start = self.position();
        self.cursor.set_minimal(true);
        let piece = self.value::<T>()?;
        let bytes = self.part(0, start, None).bytes;
        if self.cursor.is_minimal() {
            return Ok((piece, bytes.len()));
        }
        let minimal = minimal_len::<T>(self.alloc, bytes)?;
        Ok((piece, minimal))
    }

    /// Passes pieces of an item. Returns the sum of the lengths of their minimal encodings.
    pub fn pass<T: Readable<'a>>(&mut self, count: u32) -> Result<usize, Stop> {
        let mut minimal = 0usize;
        for _ in 0..count {
            let (_, len) = self.piece::<T>()?;
            minimal = minimal.saturating_add(len);
        }
        Ok(minimal)
    }

    /// Reads an expression. Returns its instructions, and the length of its minimal encoding.
    pub fn expression(&mut self) -> Result<(Items<Call>, usize), Stop> {
        let start = self.position();
        self.cursor.set_minimal(true);
        let calls = read_expr(self.alloc, &mut self.cursor)?;
        if self.cursor.is_minimal() {
            let len = self.position().saturating_sub(start);
            return Ok((calls, len));
        }
        let len = expression_len(self.alloc, calls.as_slice())?;
        Ok((calls, len))
    }

    /// Passes expressions. Returns the sum of the lengths of their minimal encodings.
    pub fn pass_expressions(&mut self, count: u32) -> Result<usize, Stop> {
        let mut minimal = 0usize;
        for _ in 0..count {
            let (_, len) = self.expression()?;
            minimal = minimal.saturating_add(len);
        }
        Ok(minimal)
    }

    /// Reads a reference type.
    pub fn ref_type(&mut self) -> Result<RefType, Stop> {
        Ok(take_ref_type(&mut self.cursor)?)
    }

    /// Returns the allocator for what is read.
    pub fn alloc(&self) -> Global {
        self.alloc
    }

    /// Reads the group of locals with this number: how many locals, and their type.
    pub fn local_group(&mut self, number: u32) -> Result<(Part<'a>, (u32, ValType)), Stop> {
        let start = self.position();
        self.cursor.set_minimal(true);
        let (count, ty) = read_local_group(&mut self.cursor)?;
        let part = self.part(number, start, None);
        if self.cursor.is_minimal() {
            return Ok((part, (count, ty)));
        }
        let minimal = Some(u32_len(count).saturating_add(encoded_len(self.alloc, &ty)?));
        Ok((Part { minimal, ..part }, (count, ty)))
    }

    /// Reads a size, and returns a reader of as many bytes. The part is both.
    pub fn body(&mut self, number: u32) -> Result<(Part<'a>, PartReader<'a>), Stop> {
        let start = self.position();
        let body = self.sized()?;
        Ok((self.part(number, start, None), body))
    }
}

/// Returns the length of the minimal encoding of the item that the bytes encode.
fn minimal_len<'a, T: Readable<'a>>(alloc: Global, bytes: &[u8]) -> Result<usize, AllocError> {
    let mut copy = Vec::from_slice(alloc, bytes)?;
    let mut rewriter = Rewriter::new(copy.as_mut_slice());
    match T::rewrite(&mut rewriter) {
        Ok(()) => Ok(rewriter.written_len()),
        Err(_) => Ok(bytes.len()),
    }
}

/// Returns the length of the minimal encoding of a value.
pub fn encoded_len<T: Encode>(alloc: Global, value: &T) -> Result<usize, Stop> {
    let mut bytes = Vec::new(alloc);
    match value.encode(&mut bytes) {
        Ok(()) => Ok(bytes.len()),
        Err(EncodeError::Memory) => Err(Stop::Memory),
        Err(_) => Ok(0),
    }
}

/// Returns the length of the minimal encoding of an expression.
fn expression_len(alloc: Global, calls: &[Call]) -> Result<usize, Stop> {
    let mut bytes = Vec::new(alloc);
    match encode_expr(calls, &mut bytes) {
        Ok(()) => Ok(bytes.len()),
        Err(EncodeError::Memory) => Err(Stop::Memory),
        Err(_) => Ok(0),
    }
}
