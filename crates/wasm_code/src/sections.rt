//! The sections of a module one after another (Core 3.0, Modules).
ghost use Rattle.std.specs.Prelude.{◌≡◌, IfErr, IfOk, false, true};
ghost use Rattle.wasm_codec.specs.Outcomes.{read_error_of};
ghost use Rattle.wasm_codec.specs.declared.reader.ReadError.TheVariants.{Refused};
ghost use Rattle.wasm_code.specs.Modules.{GivesSections, HasNoHeader};

use crate::raw::{after_header, no_header};
use crate::section::{HEADER, RawSection};
use std::alloc::Global;
use wasm_codec::reader::DecodeError;
use wasm_lists::item_reader::ItemReader;

/// Returns the sections of a module one after another, each with the offset of its id (Core 3.0, Modules).
///
/// Section bodies aren't decoded, and sizes may be padded. Fails with `Malformed` at 0 if the header is missing.
///
/// # Examples
///
/// ```
/// # use wasm_encoder::read_sections;
/// let bytes = b"\0asm\x01\0\0\0\x03\x82\x00\x01\x00"; // a function section; its size is padded
/// let mut sections = read_sections(rt.alloc(), bytes)?;
/// while let Some(next) = sections.next() {
///     let (offset, section) = next?;
///     assert_eq!(rt; offset, 8);
///     assert_eq!(rt; section.id, 3);
///     assert_eq!(rt; sections.offset() - section.body.len(), 11); // the offset of the body
/// }
/// ```
pub fn read_sections<'a>(
    alloc: Global,
    bytes: &'a [u8],
) -> Result<ItemReader<'a, RawSection<'a>>, DecodeError>
    ensures gives { IfOk result (GivesSections false bytes.now) }
    ensures refused { IfErr result (λ e. (read_error_of e ≡ Refused 0) × HasNoHeader bytes.now) }
{
    sections_minimal_if(alloc, bytes, false)
}

/// Returns the sections of a module one after another, with sizes that are minimally encoded (Core 3.0, Modules).
///
/// Section bodies aren't decoded. Fails with `Malformed` at 0 if the header is missing.
///
/// # Examples
///
/// ```
/// # use wasm_encoder::read_sections_strict;
/// let padded = b"\0asm\x01\0\0\0\x03\x82\x00\x01\x00"; // a function section; its size is padded
/// for section in read_sections_strict(rt.alloc(), padded)? {
///     assert_eq!(rt; section.err().and_then(|error| error.at()), Some(8));
/// }
/// ```
pub fn read_sections_strict<'a>(
    alloc: Global,
    bytes: &'a [u8],
) -> Result<ItemReader<'a, RawSection<'a>>, DecodeError>
    ensures gives { IfOk result (GivesSections true bytes.now) }
    ensures refused { IfErr result (λ e. (read_error_of e ≡ Refused 0) × HasNoHeader bytes.now) }
{
    sections_minimal_if(alloc, bytes, true)
}

/// Returns the sections of a module, with minimally encoded sizes if `is_strict` is set.
fn sections_minimal_if<'a>(
    alloc: Global,
    bytes: &'a [u8],
    is_strict: bool,
) -> Result<ItemReader<'a, RawSection<'a>>, DecodeError>
    ensures gives { IfOk result (GivesSections is_strict bytes.now) }
    ensures refused { IfErr result (λ e. (read_error_of e ≡ Refused 0) × HasNoHeader bytes.now) }
{
    let Some(rest) = after_header(bytes) else {
        return Err(no_header(bytes));
    };
    Ok(ItemReader::to_end_at(alloc, rest, HEADER.len(), is_strict))
}
