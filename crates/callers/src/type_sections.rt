//! Type sections that are filled, written and read back.
ghost use Rattle.std.specs.Prelude.{◌≡◌, ◌++◌, ◌∷◌, [], List, OnOk};
ghost use Rattle.wasm_encoder.specs.Outcomes.{IsOrMemory};
ghost use Rattle.wasm_encoder.specs.EncodedLists.{body_bytes};
ghost use Rattle.wasm_encoder.specs.TypeFormats.{type_body};
ghost use Rattle.wasm_encoder.specs.TypeSections.{StandsFor, final_entry};
ghost use Rattle.wasm_types.specs.declared.types.composite.CompositeInnerType.TheVariants as inner;
ghost use Rattle.wasm_types.specs.declared.types.recursive.TypeEntry.{TypeEntry};
ghost use Rattle.wasm_types.specs.declared.types.recursive.TypeEntry.TheVariants as entries;

use std::alloc::Global;
use wasm_encoder::{
    Encode, EncodeError, FuncType, ReadError, SubType, TypeEntry, TypeSection, read_type_section,
};

/// Drops an unused encoder, which leaves the section unchanged.
pub fn unused(section: &mut TypeSection)
    ensures { section.new ≡ section.old }
{
    let _unused = section.ty();
}

/// Adds two entries by separate calls.
pub fn two_more(
    section: &mut TypeSection,
    ty: &FuncType,
    subtype: &SubType,
) -> Result<(), EncodeError>
    ensures { (before : List TypeEntry) → StandsFor section.old before → OnOk result (StandsFor section.new
        ((before ++ final_entry (inner.Func ty.now) ∷ []) ++ entries.Sub subtype.now ∷ [])) }
{
    section.ty().func_type(ty)?;
    section.ty().subtype(subtype)
}

/// Adds entries from a slice.
pub fn more(section: &mut TypeSection, added: &[TypeEntry]) -> Result<(), EncodeError>
    ensures { (before : List TypeEntry) → StandsFor section.old before →
        OnOk result (StandsFor section.new (before ++ added.now)) }
{
    section.entries(added)
}

/// Writes a type section, whose body encodes its entries whichever calls filled it.
pub fn encoded(section: &TypeSection, bytes: &mut Vec<u8>) -> Result<(), EncodeError>
    ensures { (added : List TypeEntry) → StandsFor section.now added →
        type_body.Encodes (body_bytes section.now) added }
{
    section.encode(bytes)
}

/// Writes a type section and reads its entries back.
pub fn read_back(
    alloc: Global,
    section: &TypeSection,
    body: &[u8],
    bytes: &mut Vec<u8>,
) -> Result<Vec<TypeEntry>, ReadError>
    requires { body.now ≡ body_bytes section.now }
    ensures { (added : List TypeEntry) → StandsFor section.now added →
        IsOrMemory (λ given. given.items) added result }
{
    if section.encode(bytes).is_err() {
        return Err(ReadError::Memory);
    }
    read_type_section(alloc, body)
}
