//! The order of the sections of an encoded module.
ghost use Rattle.std.specs.Prelude.{◌≡◌, ◌++◌, List, ℕ, IfOk, IfSome, IfNone};
ghost use Rattle.wasm_code.specs.formats.Sections.{parts_of};
ghost use Rattle.wasm_sections.specs.formats.ModuleSectionParts.{ModuleSectionParts};
ghost use Rattle.wasm_codec.specs.formats.Numbers.{EncodesU32};
ghost use Rattle.wasm_modules.specs.EncodedSections.{IsSection, next_body};
ghost use Rattle.wasm_modules.specs.ModuleOrder.{facts_of, IsModule, IsWhyNot, OfModule, OfSections};

use crate::order::ModuleError;
use crate::order::check::{OrderCheck, SectionFacts};
use crate::order::data_uses::find_encoded_data_use;
use std::alloc::{AllocError, Global};
use wasm_code::raw::{after_header, read_section};
use wasm_code::section::{CODE_SECTION_ID, RawSection};
use wasm_codec::reader::cursor::Cursor;

/// Finds a rule that the sections of an encoded module break (Core 3.0, Modules). Returns `None` if they break none, or
/// if the module is malformed.
///
/// The rules are those of `check_order`. Reads the sizes of sections, the counts of lists, and only the functions that
/// may name data segments. Fails if memory runs out.
///
/// # Examples
///
/// ```
/// # use wasm_encoder::sections::{ModuleError, find_order_error};
/// let module = b"\0asm\x01\0\0\0\x0c\x01\x00\x08\x01\x00"; // a data count section, then a start section
/// let error = find_order_error(rt.alloc(), module)?;
/// assert_eq!(rt; error, Some(ModuleError::OutOfOrder { index: 1 }));
/// ```
pub fn find_order_error(alloc: Global, bytes: &[u8]) -> Result<Option<ModuleError>, AllocError>
    // If it finds none, the sections that the bytes encode make a module.
    ensures none { IfOk result (λ error. IfNone error (OfModule bytes.now IsModule)) }
    // The error names a rule that they break, and the first place or the numbers that break it.
    ensures why { IfOk result (λ error. IfSome error (λ error. OfModule bytes.now (λ sections. IsWhyNot sections error))) }
{
    match after_header(bytes) {
        Some(sections) => find_in_sections(alloc, sections),
        None => Ok(None),
    }
}

/// Finds a rule that encoded sections break.
fn find_in_sections(alloc: Global, sections: &[u8]) -> Result<Option<ModuleError>, AllocError>
    ensures none { IfOk result (λ error. IfNone error (OfSections sections.now IsModule)) }
    ensures why { IfOk result (λ error. IfSome error (λ error. OfSections sections.now (λ all. IsWhyNot all error))) }
{
    let mut check = OrderCheck::new();
    let mut code = sections;
    let mut cursor = Cursor::new(sections);
    let mut index = 0;
    while cursor.len() > 0 {
        cursor.are_bytes();
        let Ok(section) = read_section(&mut cursor) else {
            // Malformed bytes encode no sections.
            return Ok(None);
        };
        code = first_code(&check, &section, code);
        if let Err(error) = check.section(index, facts_of(&section)) {
            return Ok(Some(error));
        }
        index += 1;
    }
    let data_use = if check.needs_data_use() {
        find_encoded_data_use(alloc, code)?
    } else {
        None
    };
    Ok(check.finish(data_use).err())
}

/// Returns the body of `section` if it is the first code section, and otherwise `last`.
fn first_code<'a>(check: &OrderCheck, section: &RawSection<'a>, last: &'a [u8]) -> &'a [u8]
    ensures { result.now ≡ next_body check.now.bodies section.now.id section.now.body.now last.now }
{
    if section.id == CODE_SECTION_ID && !check.has_code() {
        section.body
    } else {
        last
    }
}

/// Returns what the order of an encoded section and its counts depend on.
fn facts_of(section: &RawSection<'_>) -> SectionFacts
    ensures { (s : ModuleSectionParts) → IsSection (parts_of section.now) s → result ≡ facts_of s }
{
    let count = first_number(section.body);
    match section.id {
        3 => SectionFacts::Functions(count as usize),
        10 => SectionFacts::Code(count as usize),
        11 => SectionFacts::Data(count as usize),
        12 => SectionFacts::DataCount(count),
        id => SectionFacts::Other(id),
    }
}

/// Returns the number that the bytes begin with, or 0 if it is malformed.
fn first_number(bytes: &[u8]) -> u32
    ensures { (prefix rest : List ℕ) (n : ℕ) → bytes.now ≡ prefix ++ rest → EncodesU32 prefix n → result ≡ n }
{
    match Cursor::new(bytes).u32() {
        Ok(number) => number,
        Err(_) => 0,
    }
}
