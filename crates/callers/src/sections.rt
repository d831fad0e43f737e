//! Sections other than types and code, filled and written.
ghost use Rattle.std.specs.Prelude.{◌≡◌, ◌++◌, ◌∷◌, [], List, OnOk};
ghost use Rattle.wasm_codec.specs.Encoding.{byte_list_bytes};
ghost use Rattle.wasm_sections.specs.formats.EntryParts.{ExportParts};
ghost use Rattle.wasm_externals.specs.declared.types.ExportKind.TheVariants as kinds;
ghost use Rattle.wasm_sections.specs.formats.Entries.{export_of, export_entry};
ghost use Rattle.wasm_codec.specs.formats.Combinators.{items};
ghost use Rattle.wasm_encoder.specs.EncodedLists.{body_bytes};
ghost use Rattle.wasm_sections.specs.ListSections.{StandsForItems};

use wasm_encoder::{Encode, EncodeError, ExportKind, ExportSection};

/// Adds an export of a function.
pub fn exported(
    exports: &mut ExportSection<'_>,
    name: &str,
    function: u32,
) -> Result<(), EncodeError>
    ensures { (before : List ExportParts) → StandsForItems export_entry exports.old before →
        OnOk result (StandsForItems export_entry exports.new (before ++ export_of (name.now, (kinds.Func, function)) ∷ [])) }
{
    exports.export(name, ExportKind::Func, function)
}

/// Writes an export section, whose body encodes its exports.
pub fn encoded(exports: &ExportSection<'_>, bytes: &mut Vec<u8>) -> Result<(), EncodeError>
    ensures written { OnOk result (bytes.new.items ≡ bytes.old.items ++ byte_list_bytes (body_bytes exports.now)) }
    ensures encodes { (entries : List ExportParts) → StandsForItems export_entry exports.now entries →
        OnOk result ((items export_entry).Encodes (body_bytes exports.now) entries) }
{
    exports.encode(bytes)
}
