//! Custom sections that keep offsets into the module. Once bytes have moved, these offsets are stale.
ghost use Rattle.std.specs.Prelude.{◌≡◌, ◌⊎◌, ℕ, [], false, true, List, IfOk, IfSome, IfNone};
ghost use Rattle.wasm_code.specs.formats.Sections.{parts_of};
ghost use Rattle.wasm_modules.specs.Offsets.{IsNameOf};
ghost use Rattle.wasmcanon.specs.Objects.{OfRawSections};
ghost use Rattle.wasmcanon.specs.StaleSections.{AreOffsetNames, IsStaleName, KeepsNoOffsets, NamesOffsets};

use std::alloc::{AllocError, Global};
use wasm_code::raw::{after_header, read_section};
use wasm_code::section::RawSection;
use wasm_codec::reader::cursor::Cursor;
use wasm_modules::offsets::is_offset_name;
use wasm_modules::selection::custom_name;

/// Returns the names of the custom sections whose offsets are stale: of all that keep offsets, if the numbers of the
/// module or the contents of a custom section have got shorter. With `hints_moved`, branch hints aren't stale.
///
/// Fails if memory runs out.
pub fn stale_names(
    alloc: Global,
    module: &[u8],
    has_moved: bool,
    has_shorter_contents: bool,
    hints_moved: bool,
) -> Result<Vec<String>, AllocError>
    // They are the names of all sections that keep offsets, or there are none, since no byte of the module has moved.
    ensures { IfOk result (λ names. NamesOffsets hints_moved module.now names.items
        ⊎ ((names.items ≡ []) × ((has_moved ≡ false) × (has_shorter_contents ≡ false)))) }
{
    if has_moved || has_shorter_contents {
        return offset_names(alloc, module, hints_moved);
    }
    Ok(Vec::new(alloc))
}

/// Returns the names of the custom sections that keep stale offsets, in their order.
fn offset_names(alloc: Global, module: &[u8], hints_moved: bool) -> Result<Vec<String>, AllocError>
    // They are the names of all such sections of a module.
    ensures { IfOk result (λ names. NamesOffsets hints_moved module.now names.items) }
{
    match after_header(module) {
        Some(sections) => names_in(alloc, sections, hints_moved),
        None => Ok(Vec::new(alloc)),
    }
}

/// Returns the names of those of the sections that keep stale offsets.
fn names_in(alloc: Global, sections: &[u8], hints_moved: bool) -> Result<Vec<String>, AllocError>
    ensures { IfOk result (λ names. OfRawSections sections.now (λ all. AreOffsetNames hints_moved all names.items)) }
{
    let mut names = Vec::new(alloc);
    let mut cursor = Cursor::new(sections);
    while cursor.len() > 0 {
        cursor.are_bytes();
        let Ok(section) = read_section(&mut cursor) else {
            // Malformed bytes encode no sections.
            return Ok(names);
        };
        if let Some(name) = offset_name(section, hints_moved) {
            names.push(String::from_str(alloc, name)?)?;
        }
    }
    Ok(names)
}

/// Returns the name of a custom section that keeps stale offsets.
fn offset_name<'a>(section: RawSection<'a>, hints_moved: bool) -> Option<&'a str>
    ensures named { IfSome result (λ name. IsNameOf (parts_of section.entry) name.now) }
    ensures keeps { IfSome result (λ name. IsStaleName hints_moved name.now) }
    ensures none { IfNone result (KeepsNoOffsets hints_moved (parts_of section.entry)) }
{
    let name = custom_name(section)?;
    if is_stale_name(name, hints_moved) {
        return Some(name);
    }
    None
}

/// Checks whether sections of this name keep offsets that are stale. With `hints_moved`, those of branch hints don't.
fn is_stale_name(name: &str, hints_moved: bool) -> bool
    ensures yes { result ≡ true → IsStaleName hints_moved name.now }
    ensures no { result ≡ false → IsStaleName hints_moved name.now → ⊥ }
{
    is_offset_name(name) && !(hints_moved && name == "metadata.code.branch_hint")
}
