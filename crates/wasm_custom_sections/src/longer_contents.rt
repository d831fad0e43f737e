//! The first contents of custom sections that aren't minimally encoded.
ghost use Rattle.std.specs.List.{AllByRecursion};
ghost use Rattle.std.specs.Prelude.{◌++◌, ◌+◌, ◌≤◌, List, IfNone, IfOk, IfSome, length};
ghost use Rattle.wasm_codec.specs.Outcomes.{EncodesSome};
ghost use Rattle.wasm_codec.specs.formats.Grammar.{Joined};
ghost use Rattle.wasm_code.specs.formats.Modules.{raw_section};
ghost use Rattle.wasm_code.specs.formats.Sections.{SectionParts, header, parts_of};
ghost use Rattle.wasm_custom_sections.specs.LongerContents.{HasLongerContents, IsFirstLonger, IsLongerInside, IsMinimalInside, IsWritten};
ghost use Rattle.wasm_custom_sections.specs.MinimalContents.{MinimisesContents};
ghost use Rattle.wasm_sections.specs.formats.ModuleSections.{MinimalWholeModule};

use crate::contents::{Decoded, contents_of, rewrite_contents};
use crate::names::NameSection;
use crate::producers::ProducersSection;
use std::alloc::{AllocError, Global};
use wasm_code::decode::{Decode, check};
use wasm_code::raw::{after_header, read_section};
use wasm_code::section::{HEADER, RawSection};
use wasm_codec::encode::leb128::u32_len;
use wasm_codec::reader::DecodeError;
use wasm_codec::reader::cursor::Cursor;
use wasm_codec::reader::malformed::Reason;
use wasm_codec::reader::refusal::{Refusal, SectionPlace};
use wasm_sections::custom::read_custom;

/// Returns the refusal of the first section `name` or `producers` of a minimally encoded module whose contents decode and
/// aren't minimally encoded. `None` means that there is none.
///
/// `at` is the offset of the section, `offset` that of the bytes that aren't minimal. The module is copied. Fails if there
/// is no memory for that.
pub fn find_longer_contents(alloc: Global, module: &[u8]) -> Result<Option<Refusal>, AllocError>
    ensures none { IfOk result (λ found. IfNone found (MinimisesContents module.now module.now)) }
    ensures some { IfOk result (λ found. IfSome found (λ _. HasLongerContents module.now)) }
    ensures first { IfOk result (λ found. IfSome found (λ refusal. EncodesSome MinimalWholeModule module.now → IsFirstLonger module.now refusal.at)) }
{
    let minimal = rewrite_contents(alloc, Vec::from_slice(alloc, module)?)?;
    if minimal.as_slice() == module {
        return Ok(None);
    }
    let refusal = locate_longer(alloc, module)?;
    Ok(Some(refusal))
}

/// Locates the first contents that aren't minimally encoded, in a minimally encoded module that has some.
#[tactic(auto, using(crate::proofs::LongerWalk::has_header))]
fn locate_longer(alloc: Global, module: &[u8]) -> Result<Refusal, AllocError>
    ensures first { IfOk result (λ refusal. EncodesSome MinimalWholeModule module.now → HasLongerContents module.now → IsFirstLonger module.now refusal.at) }
{
    let Some(sections) = after_header(module) else {
        return Ok(no_refusal());
    };
    match first_longer(alloc, sections)? {
        Some(refusal) => {
            let at = refusal.at + HEADER.len();
            Ok(refusal.behind(at, HEADER.len()))
        }
        None => Ok(no_refusal()),
    }
}

/// Returns a refusal for modules that have no longer contents.
fn no_refusal() -> Refusal {
    Refusal {
        at: 0,
        offset: 0,
        body: None,
        section: None,
        item: None,
        local_group: None,
        instruction: None,
        reason: Reason::LongForm,
    }
}

/// Returns the refusal of the first section with contents that aren't minimally encoded. Offsets are those in `sections`.
///
/// Returns `None` if there is no such section, or a malformed one before it.
fn first_longer(alloc: Global, sections: &[u8]) -> Result<Option<Refusal>, AllocError>
    ensures some { IfOk result (λ found. IfSome found (λ refusal. IsFirstLonger (header ++ sections.now) (refusal.at + 8))) }
    ensures within { IfOk result (λ found. IfSome found (λ refusal. refusal.at ≤ length sections.now)) }
    ensures none { IfOk result (λ found. IfNone found ((all : List SectionParts) → Joined raw_section.Encodes sections.now all → AllByRecursion IsMinimalInside all)) }
{
    let mut cursor = Cursor::new(sections);
    let mut number = 0_usize;
    while cursor.len() > 0 {
        cursor.are_bytes();
        let at = sections.len() - cursor.len();
        let Ok(section) = read_section(&mut cursor) else {
            return Ok(None);
        };
        if let Some(longer) = check_contents(alloc, section)? {
            let end = sections.len() - cursor.len();
            let body = end.saturating_sub(section.body.len());
            let id = section.id;
            return Ok(Some(Refusal {
                at,
                offset: body.saturating_add(longer.offset),
                section: Some(SectionPlace { number, id }),
                ..longer
            }));
        }
        number = number.saturating_add(1);
    }
    Ok(None)
}

/// Returns the refusal of a section's contents if they decode and aren't minimally encoded. Its offset is that in the
/// body.
#[tactic(auto, using(crate::proofs::LongerLaws::none_minimal, crate::proofs::LongerLaws::unnamed_minimal))]
fn check_contents(alloc: Global, section: RawSection<'_>) -> Result<Option<Refusal>, AllocError>
    ensures none { IfOk result (λ found. IfNone found (IsMinimalInside (parts_of section.entry))) }
    ensures some { IfOk result (λ found. IfSome found (λ _. IsLongerInside (parts_of section.entry))) }
{
    let Ok(custom) = read_custom(section.body) else {
        return Ok(None);
    };
    let name_len = section.body.len().saturating_sub(custom.bytes.len());
    match contents_of(alloc, section)? {
        Some(Decoded::Names) => check_minimal::<NameSection>(alloc, custom.bytes, name_len),
        Some(Decoded::Producers) => {
            check_minimal::<ProducersSection<'_>>(alloc, custom.bytes, name_len)
        }
        None => Ok(None),
    }
}

/// Returns the refusal of contents that aren't minimally encoded. They begin at this offset of the body.
fn check_minimal<'a, T: Decode<'a>>(
    alloc: Global,
    contents: &[u8],
    start: usize,
) -> Result<Option<Refusal>, AllocError>
    ensures none { IfOk result (λ found. IfNone found (IsWritten T.format contents.now)) }
    ensures some { IfOk result (λ found. IfSome found (λ _. IsWritten T.format contents.now → ⊥)) }
{
    match check::<T>(alloc, contents) {
        Ok(()) => Ok(None),
        Err(DecodeError::Memory) => Err(AllocError),
        Err(DecodeError::Malformed(refusal)) => {
            let reason = match refusal.reason {
                Reason::LongForm => longer_number(contents.get(refusal.offset..).unwrap_or(&[])),
                reason => reason,
            };
            let placed = Refusal { reason, ..refusal };
            Ok(Some(placed.behind(refusal.at, start)))
        }
    }
}

/// Returns why bytes aren't minimally encoded. Compares the number at their start with its minimal encoding.
fn longer_number(bytes: &[u8]) -> Reason {
    let mut cursor = Cursor::new(bytes);
    match cursor.u32() {
        Ok(number) if !cursor.is_minimal() => Reason::NotMinimal {
            bytes: bytes.len().saturating_sub(cursor.len()),
            minimal: u32_len(number),
        },
        _ => Reason::LongForm,
    }
}
