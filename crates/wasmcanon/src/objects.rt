//! Object files: a linker changes their code by offsets, which are stale once bytes have moved.
ghost use Rattle.std.specs.Prelude.{◌≡◌, true, false};
ghost use Rattle.wasm_code.specs.formats.Sections.{parts_of};
ghost use Rattle.wasmcanon.specs.Objects.{IsObjectSection, IsObjectFile, IsNoObjectFile, HasNoObject, HasObject, OfRawSections};

use wasm_code::raw::{after_header, read_section};
use wasm_code::section::RawSection;
use wasm_codec::reader::cursor::Cursor;
use wasm_modules::offsets::is_object_name;
use wasm_modules::selection::custom_name;

/// Checks whether a module is an object file: it has a section `linking`, or one whose name begins with `reloc.`.
pub fn is_object_file(bytes: &[u8]) -> bool
    ensures yes { result ≡ true → IsObjectFile bytes.now }
    ensures no { result ≡ false → IsNoObjectFile bytes.now }
{
    match after_header(bytes) {
        Some(sections) => has_object_section(sections),
        None => false,
    }
}

/// Checks whether one of the sections is that of an object file.
fn has_object_section(sections: &[u8]) -> bool
    ensures yes { result ≡ true → OfRawSections sections.now HasObject }
    ensures no { result ≡ false → OfRawSections sections.now HasNoObject }
{
    let mut cursor = Cursor::new(sections);
    while cursor.len() > 0 {
        cursor.are_bytes();
        let Ok(section) = read_section(&mut cursor) else {
            // Malformed bytes encode no sections.
            return false;
        };
        if is_object_section(&section) {
            return true;
        }
    }
    false
}

/// Checks whether a section is that of an object file.
fn is_object_section(section: &RawSection<'_>) -> bool
    ensures yes { result ≡ true → IsObjectSection (parts_of section.now) }
    ensures no { result ≡ false → IsObjectSection (parts_of section.now) → ⊥ }
{
    match custom_name(*section) {
        Some(name) => is_object_name(name),
        None => false,
    }
}
