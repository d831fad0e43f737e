//! Encoded sections whose bytes mostly stay where the builder keeps them (Core 3.0, Sections).
ghost use Rattle.std.specs.Prelude.{◌≡◌, ◌++◌, ◌∷◌, OnOk, IfOk, IfErr, length};
ghost use Rattle.wasm_codec.specs.Encoding.{byte_list_bytes, IsCount, IsRefusal, OnlyTooLong};
ghost use Rattle.wasm_codec.specs.Streams.{WritesAll};
ghost use Rattle.wasm_encoder.specs.EncodedLists.{CountedSection, body_bytes};

use std::alloc::Global;
use std::io;
use std::io::Write;
use std::marker::Model;
use wasm_codec::encode::EncodeError;
use wasm_codec::encode::leb128::{put_u32, u32_len};
use wasm_codec::streams::write_all;

/// The id and the encoding of a section, in two parts: a list of its own, and borrowed bytes after it.
///
/// [`Section::encoded`](crate::Section::encoded) makes it, and [`ModuleWriter`](crate::ModuleWriter) writes it. In
/// contracts it is its bytes.
///
/// # Examples
///
/// ```
/// # use wasm_encoder::{FunctionSection, Section};
/// let mut functions = FunctionSection::new(rt.alloc());
/// functions.entries(&[0, 1])?;
/// let mut bytes = Vec::new(rt.alloc());
/// functions.encoded(rt.alloc())?.write_to(&mut bytes)?;
/// assert_eq!(rt; bytes.as_slice(), b"\x03\x03\x02\x00\x01".as_slice());
/// ```
#[derive(Debug, Drop)]
pub struct EncodedSection<'a> {
    front: Vec<u8>,
    rest: &'a [u8],
}

impl<'a> Model for EncodedSection<'a> {
    ghost use Rattle.std.specs.Prelude.{◌++◌, ℕ, List};

    ghost Value = { List ℕ };

    ghost view = { λ section. section.front.items ++ section.rest.now };
}

impl<'a> EncodedSection<'a> {
    /// Returns a section whose id and encoding are `front` and then `rest`. Nothing checks them.
    pub fn new(front: Vec<u8>, rest: &'a [u8]) -> EncodedSection<'a>
        ensures { result ≡ front.items ++ rest.now }
    {
        EncodedSection { front, rest }
    }

    /// Returns a section of this id and body. Fails with `TooLong` if the body is longer than 4,294,967,295 bytes.
    pub(crate) fn of_body(
        alloc: Global,
        id: u8,
        body: &'a [u8],
    ) -> Result<EncodedSection<'a>, EncodeError>
        ensures ok { IfOk result (λ section. section ≡ id ∷ byte_list_bytes body.now) }
        ensures can { OnOk result (IsCount (length body.now)) }
        ensures refused { IfErr result (IsRefusal (λ bytes. IsCount (length bytes)) OnlyTooLong body.now) }
    {
        let Ok(size) = u32::try_from(body.len()) else {
            return Err(EncodeError::TooLong);
        };
        let mut front = Vec::new(alloc);
        front.reserve(6)?;
        front.push_reserved(id);
        put_u32(&mut front, size);
        Ok(EncodedSection::new(front, body))
    }

    /// Returns a section of this id whose body is a list of `count` encoded items.
    ///
    /// Fails with `TooLong` if the body is longer than 4,294,967,295 bytes.
    pub(crate) fn of_list(
        alloc: Global,
        id: u8,
        count: u32,
        items: &'a [u8],
    ) -> Result<EncodedSection<'a>, EncodeError>
        ensures ok { IfOk result (λ section. section ≡ id ∷ byte_list_bytes (body_bytes (record { count = count; bytes = items.now }))) }
        ensures can { OnOk result (CountedSection (record { count = count; bytes = items.now })) }
        ensures refused { IfErr result (IsRefusal CountedSection OnlyTooLong (record { count = count; bytes = items.now })) }
        // The number of items fits a u32.
        ensures few { IsCount count }
    {
        let Ok(size) = u32::try_from(u32_len(count) + items.len()) else {
            return Err(EncodeError::TooLong);
        };
        let mut front = Vec::new(alloc);
        front.reserve(11)?;
        front.push_reserved(id);
        put_u32(&mut front, size);
        put_u32(&mut front, count);
        Ok(EncodedSection::new(front, items))
    }

    /// Writes the section. Fails if a write fails. A part of the section may then be written.
    #[tactic(auto, using(crate::proofs::WriterLaws::after_front, crate::proofs::WriterLaws::only_front))]
    pub fn write_to<W: Write>(&self, writer: &mut W) -> io::Result<()>
        ensures writes { WritesAll self.now (W.contents writer.old) (W.contents writer.new) result }
    {
        write_all(writer, &self.front)?;
        write_all(writer, self.rest)
    }
}
