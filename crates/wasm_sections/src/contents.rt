//! What sections hold, item by item (Core 3.0, Modules).
ghost use Rattle.std.specs.Prelude.{◌≡◌, ◌+◌, ◌-◌, ◌<◌, ◌^◌, IfErr, IfOk, false, length, true};
ghost use Rattle.wasm_codec.specs.Outcomes.{HoldsAtRefusal, as_read, read_error_of, NeedsNoMemory, LiesIn};
ghost use Rattle.wasm_codec.specs.Decoding.{ReadsAll};
ghost use Rattle.wasm_codec.specs.formats.Combinators.{minimal_if, u32 as u32_format};
ghost use Rattle.wasm_code.specs.formats.Sections.{parts_of};
ghost use Rattle.wasm_code.specs.DecodedPrefixes.{IsNothingOr};
ghost use Rattle.wasm_sections.specs.SectionContents.{EncodesNoValue, GivesContents, HasNoContents};
ghost use Rattle.wasm_sections.specs.formats.EntryParts.{custom_parts};
ghost use Rattle.wasm_sections.specs.formats.Sections.{custom_body};

use crate::custom::{CustomSection, read_name_and_bytes, read_name_and_bytes_strict};
use crate::data::DataSegment;
use crate::elements::Element;
use crate::exports::Export;
use crate::globals::Global as GlobalEntry;
use crate::imports::Import;
use crate::numbers::{read_number, read_number_strict};
use crate::tables::Table;
use std::alloc::Global;
use wasm_code::code::function_body::FunctionBody;
use wasm_code::section::RawSection;
use wasm_codec::reader::DecodeError;
use wasm_externals::limits::MemoryType;
use wasm_externals::types::TagType;
use wasm_lists::item_reader::{ItemReader, behind};
use wasm_types::types::TypeEntry;

/// What a section holds. A list is an iterator over its items, each with its offset (Core 3.0, Modules).
#[derive(Drop)]
pub enum Contents<'a> {
    /// A custom section (id 0).
    Custom(CustomSection<'a>),
    /// The type section (id 1): recursion groups and single types.
    Types(ItemReader<'a, TypeEntry>),
    /// The import section (id 2).
    Imports(ItemReader<'a, Import<'a>>),
    /// The function section (id 3): the type index of each function.
    Functions(ItemReader<'a, u32>),
    /// The table section (id 4).
    Tables(ItemReader<'a, Table>),
    /// The memory section (id 5).
    Memories(ItemReader<'a, MemoryType>),
    /// The global section (id 6).
    Globals(ItemReader<'a, GlobalEntry>),
    /// The export section (id 7).
    Exports(ItemReader<'a, Export<'a>>),
    /// The start section (id 8): a function index.
    Start(u32),
    /// The element section (id 9).
    Elements(ItemReader<'a, Element>),
    /// The code section (id 10): function bodies whose instructions are still bytes.
    Code(ItemReader<'a, FunctionBody<'a>>),
    /// The data section (id 11).
    Data(ItemReader<'a, DataSegment<'a>>),
    /// The data count section (id 12): the number of data segments.
    DataCount(u32),
    /// The tag section (id 13).
    Tags(ItemReader<'a, TagType>),
    /// A section with another id, which isn't decoded.
    Unknown,
}

/// Begins to read what a section holds, in any encoding. The section ends at offset `end` of an input, which offsets
/// count from.
///
/// Fails with `Malformed` at the start of the body if the count of a list is malformed, and as [`read`](crate::read)
/// does if the body isn't a list. Allocates nothing.
///
/// # Examples
///
/// ```
/// # use wasm_encoder::{Contents, read_contents, read_sections};
/// let bytes = b"\0asm\x01\0\0\0\x03\x83\x00\x02\x05\x06"; // two functions, of types 5 and 6; the size is padded
/// let mut sections = read_sections(rt.alloc(), bytes)?;
/// while let Some(next) = sections.next() {
///     let (_, section) = next?;
///     if let Contents::Functions(types) = read_contents(rt.alloc(), &section, sections.offset())? {
///         for next in types {
///             let (offset, ty) = next?;
///             assert!(rt; offset == 12 && ty == 5 || offset == 13 && ty == 6);
///         }
///     }
/// }
/// ```
pub fn read_contents<'a>(
    alloc: Global,
    section: &RawSection<'a>,
    end: usize,
) -> Result<Contents<'a>, DecodeError>
    ensures gives { IfOk result (GivesContents false (end - length section.now.body.now) (parts_of section.now)) }
    ensures refused { IfErr result (λ e. HoldsAtRefusal (read_error_of e) (HasNoContents false (end - length section.now.body.now) (parts_of section.now))) }
    ensures memory { NeedsNoMemory (as_read result) }
{
    contents_if(alloc, section, end, false)
}

/// Begins to read what a section holds, minimally encoded. The section ends at offset `end` of an input, which offsets
/// count from.
///
/// Fails as [`read_contents`] does, also if the count or the value isn't minimally encoded.
///
/// # Examples
///
/// ```
/// # use wasm_encoder::{Contents, RawSection, read_contents_strict};
/// let start = RawSection { id: 8, body: b"\x85\x00" }; // the index 5 in two bytes
/// let padded = read_contents_strict(rt.alloc(), &start, 2);
/// assert_eq!(rt; padded.err().and_then(|error| error.at()), Some(0));
/// ```
pub fn read_contents_strict<'a>(
    alloc: Global,
    section: &RawSection<'a>,
    end: usize,
) -> Result<Contents<'a>, DecodeError>
    ensures gives { IfOk result (GivesContents true (end - length section.now.body.now) (parts_of section.now)) }
    ensures refused { IfErr result (λ e. HoldsAtRefusal (read_error_of e) (HasNoContents true (end - length section.now.body.now) (parts_of section.now))) }
    ensures memory { NeedsNoMemory (as_read result) }
{
    contents_if(alloc, section, end, true)
}

/// Begins to read what a section holds, minimally encoded if `is_strict` is set.
fn contents_if<'a>(
    alloc: Global,
    section: &RawSection<'a>,
    end: usize,
    is_strict: bool,
) -> Result<Contents<'a>, DecodeError>
    ensures gives { IfOk result (GivesContents is_strict (end - length section.now.body.now) (parts_of section.now)) }
    ensures refused { IfErr result (λ e. HoldsAtRefusal (read_error_of e) (HasNoContents is_strict (end - length section.now.body.now) (parts_of section.now))) }
    ensures memory { NeedsNoMemory (as_read result) }
{
    let body = section.body;
    let start = end.saturating_sub(body.len());
    Ok(match section.id {
        0 => Contents::Custom(custom_at(body, start, is_strict)?),
        1 => Contents::Types(ItemReader::list_at(alloc, body, start, is_strict)?),
        2 => Contents::Imports(ItemReader::list_at(alloc, body, start, is_strict)?),
        3 => Contents::Functions(ItemReader::list_at(alloc, body, start, is_strict)?),
        4 => Contents::Tables(ItemReader::list_at(alloc, body, start, is_strict)?),
        5 => Contents::Memories(ItemReader::list_at(alloc, body, start, is_strict)?),
        6 => Contents::Globals(ItemReader::list_at(alloc, body, start, is_strict)?),
        7 => Contents::Exports(ItemReader::list_at(alloc, body, start, is_strict)?),
        8 => Contents::Start(number_at(body, start, is_strict)?),
        9 => Contents::Elements(ItemReader::list_at(alloc, body, start, is_strict)?),
        10 => Contents::Code(ItemReader::list_at(alloc, body, start, is_strict)?),
        11 => Contents::Data(ItemReader::list_at(alloc, body, start, is_strict)?),
        12 => Contents::DataCount(number_at(body, start, is_strict)?),
        13 => Contents::Tags(ItemReader::list_at(alloc, body, start, is_strict)?),
        14.. => Contents::Unknown,
    })
}

/// Reads a number that fills a body, which begins at offset `start` of an input, minimally encoded if `is_strict` is set.
#[tactic(auto, using(crate::proofs::ContentsLaws::no_value))]
fn number_at(body: &[u8], start: usize, is_strict: bool) -> Result<u32, DecodeError>
    requires fits { start + length body.now < 2 ^ 64 }
    ensures given { IfOk result (λ number. (minimal_if is_strict u32_format).Encodes body.now number) }
    ensures refused { IfErr result (λ e. HoldsAtRefusal (read_error_of e) (EncodesNoValue is_strict u32_format start body.now)) }
    ensures memory { NeedsNoMemory (as_read result) }
{
    match number_if(body, is_strict) {
        Ok(number) => Ok(number),
        Err(error) => Err(behind(error, start)),
    }
}

/// Reads a number that fills a body, minimally encoded if `is_strict` is set.
fn number_if(body: &[u8], is_strict: bool) -> Result<u32, DecodeError>
    ensures reads { ReadsAll (λ number. number) (minimal_if is_strict u32_format).Encodes (IsNothingOr (minimal_if is_strict u32_format)) body.now (as_read result) }
    ensures place { IfErr result (LiesIn (length body.now)) }
    ensures memory { NeedsNoMemory (as_read result) }
{
    if is_strict {
        read_number_strict(body)
    } else {
        read_number(body)
    }
}

/// Reads the body of a custom section, which begins at offset `start` of an input, minimally encoded if `is_strict` is set.
#[tactic(auto, using(crate::proofs::ContentsLaws::no_value))]
fn custom_at<'a>(
    body: &'a [u8],
    start: usize,
    is_strict: bool,
) -> Result<CustomSection<'a>, DecodeError>
    requires fits { start + length body.now < 2 ^ 64 }
    ensures given { IfOk result (λ section. (minimal_if is_strict custom_body).Encodes body.now (custom_parts section)) }
    ensures refused { IfErr result (λ e. HoldsAtRefusal (read_error_of e) (EncodesNoValue is_strict custom_body start body.now)) }
    ensures memory { NeedsNoMemory (as_read result) }
{
    match custom_if(body, is_strict) {
        Ok(section) => Ok(section),
        Err(error) => Err(behind(error, start)),
    }
}

/// Reads the body of a custom section, minimally encoded if `is_strict` is set.
fn custom_if<'a>(body: &'a [u8], is_strict: bool) -> Result<CustomSection<'a>, DecodeError>
    ensures reads { ReadsAll custom_parts (minimal_if is_strict custom_body).Encodes (IsNothingOr (minimal_if is_strict custom_body)) body.now (as_read result) }
    ensures place { IfErr result (LiesIn (length body.now)) }
    ensures memory { NeedsNoMemory (as_read result) }
{
    if is_strict {
        read_name_and_bytes_strict(body)
    } else {
        read_name_and_bytes(body)
    }
}
