//! A type section from its first entry to reading it back out of a module.
ghost use Rattle.std.specs.Prelude.{◌≡◌, ◌++◌, ◌∷◌, [], List, IfOk, OnOk};
ghost use Rattle.wasm_encoder.specs.Outcomes.{IsOrMemory};
ghost use Rattle.wasm_encoder.specs.EncodedLists.{CountedSection, GivesItems, body_bytes};
ghost use Rattle.wasm_encoder.specs.ModuleFormats.{raw_module};
ghost use Rattle.wasm_encoder.specs.Sections.{all_parts_of, header, section_of};
ghost use Rattle.wasm_encoder.specs.TypeSections.{HoldsEntries, StandsFor, final_entry};
ghost use Rattle.wasm_types.specs.declared.types.value.ValType.{ValType};
ghost use Rattle.wasm_types.specs.declared.types.recursive.SubType.{SubType};
ghost use Rattle.wasm_types.specs.declared.types.composite.CompositeInnerType.TheVariants as inner;
ghost use Rattle.wasm_types.specs.declared.types.recursive.TypeEntry.{TypeEntry};
ghost use Rattle.wasm_types.specs.declared.types.recursive.TypeEntry.TheVariants as entries;

use std::alloc::Global;
use wasm_encoder::{
    EncodeError, Module, RawSection, ReadError, SectionId, SubType, TypeEntry, TypeSection,
    ValType, first_body, read_module, read_type_section,
};

/// Adds a function type with the parameters and results of two iterators.
pub fn function<P: ExactSizeIterator<Item = ValType>, R: ExactSizeIterator<Item = ValType>>(
    section: &mut TypeSection,
    params: P,
    results: R,
) -> Result<(), EncodeError>
    requires params { P.can_next params }
    requires results { R.can_next results }
    ensures { (before : List TypeEntry) (ps rs : List ValType) → StandsFor section.old before →
        GivesItems P.next_gives params ps → GivesItems R.next_gives results rs →
        OnOk result (StandsFor section.new
        (before ++ final_entry (inner.Func (record { params = ps; results = rs })) ∷ [])) }
{
    section.ty().function(params, results)
}

/// Adds such a function type and a subtype.
pub fn two_types<P: ExactSizeIterator<Item = ValType>, R: ExactSizeIterator<Item = ValType>>(
    section: &mut TypeSection,
    params: P,
    results: R,
    subtype: &SubType,
) -> Result<(), EncodeError>
    requires params { P.can_next params }
    requires results { R.can_next results }
    ensures { (before : List TypeEntry) (ps rs : List ValType) → StandsFor section.old before →
        GivesItems P.next_gives params ps → GivesItems R.next_gives results rs →
        OnOk result (StandsFor section.new
        ((before ++ final_entry (inner.Func (record { params = ps; results = rs })) ∷ [])
        ++ entries.Sub subtype.now ∷ [])) }
{
    function(section, params, results)?;
    section.ty().subtype(subtype)
}

/// Adds a recursion group of the types of an iterator.
pub fn group<S: ExactSizeIterator<Item = SubType>>(
    section: &mut TypeSection,
    types: S,
) -> Result<(), EncodeError>
    requires { S.can_next types }
    ensures { (before : List TypeEntry) (given : List SubType) → StandsFor section.old before →
        GivesItems S.next_gives types given →
        OnOk result (StandsFor section.new (before ++ entries.Rec given ∷ [])) }
{
    section.ty().rec(types)
}

/// Adds such a group and entries from a slice.
pub fn group_and_more<S: ExactSizeIterator<Item = SubType>>(
    section: &mut TypeSection,
    types: S,
    more: &[TypeEntry],
) -> Result<(), EncodeError>
    requires { S.can_next types }
    ensures { (before : List TypeEntry) (given : List SubType) → StandsFor section.old before →
        GivesItems S.next_gives types given →
        OnOk result (StandsFor section.new ((before ++ entries.Rec given ∷ []) ++ more.now)) }
{
    group(section, types)?;
    section.entries(more)
}

/// Appends the section to a new module.
pub fn in_module(section: &TypeSection, built: &mut Module) -> Result<(), EncodeError>
    requires { built.old ≡ header }
    ensures bytes { OnOk result (built.new ≡ raw_module.bytes (section_of (1, body_bytes section.now) ∷ [])) }
    ensures counted { OnOk result (CountedSection section.now) }
    ensures holds { OnOk result (HoldsEntries section.now) }
{
    built.section(section)
}

/// Reads the sections of that module.
pub fn module_back<'a>(
    alloc: Global,
    section: &TypeSection,
    bytes: &'a [u8],
) -> Result<Vec<RawSection<'a>>, ReadError>
    requires counted { CountedSection section.now }
    requires of_section { bytes.now ≡ raw_module.bytes (section_of (1, body_bytes section.now) ∷ []) }
    ensures { IsOrMemory (λ given. all_parts_of given.items) (section_of (1, body_bytes section.now) ∷ []) result }
{
    read_module(alloc, bytes)
}

/// Reads the entries back from the bytes of that module.
pub fn entries_back(
    alloc: Global,
    section: &TypeSection,
    bytes: &[u8],
) -> Result<Vec<TypeEntry>, ReadError>
    requires counted { CountedSection section.now }
    requires holds { HoldsEntries section.now }
    requires of_section { bytes.now ≡ raw_module.bytes (section_of (1, body_bytes section.now) ∷ []) }
    ensures { (held : List TypeEntry) → StandsFor section.now held →
        IsOrMemory (λ given. given.items) held result }
{
    let sections = module_back(alloc, section, bytes)?;
    let Some(body) = first_body(sections.as_slice(), SectionId::Types.into()) else {
        return Err(ReadError::Refused { at: bytes.len() });
    };
    read_type_section(alloc, body)
}

/// Appends the section to a new module and reads the entries back from its bytes.
pub fn there_and_back(
    alloc: Global,
    section: &TypeSection,
) -> Result<Result<Vec<TypeEntry>, ReadError>, EncodeError>
    ensures { (held : List TypeEntry) → StandsFor section.now held →
        IfOk result (IsOrMemory (λ given. given.items) held) }
{
    let mut built = Module::new(alloc)?;
    in_module(section, &mut built)?;
    Ok(entries_back(alloc, section, built.as_slice()))
}

/// Fills a section by `function`, `subtype`, `rec` and `entries`, appends it to a module and reads its entries back.
pub fn whole_way<
    P: ExactSizeIterator<Item = ValType>,
    R: ExactSizeIterator<Item = ValType>,
    S: ExactSizeIterator<Item = SubType>,
>(
    alloc: Global,
    section: &mut TypeSection,
    params: P,
    results: R,
    subtype: &SubType,
    types: S,
    more: &[TypeEntry],
) -> Result<Result<Vec<TypeEntry>, ReadError>, EncodeError>
    requires params { P.can_next params }
    requires results { R.can_next results }
    requires types { S.can_next types }
    ensures { (before : List TypeEntry) (ps rs : List ValType) (given : List SubType) →
        StandsFor section.old before → GivesItems P.next_gives params ps → GivesItems R.next_gives results rs →
        GivesItems S.next_gives types given →
        IfOk result (IsOrMemory (λ read. read.items)
        ((((before ++ final_entry (inner.Func (record { params = ps; results = rs })) ∷ [])
        ++ entries.Sub subtype.now ∷ []) ++ entries.Rec given ∷ []) ++ more.now)) }
{
    two_types(section, params, results, subtype)?;
    group_and_more(section, types, more)?;
    there_and_back(alloc, section)
}
