//! Code sections that are filled, written and read back.
ghost use Rattle.std.specs.Prelude.{◌≡◌, ◌++◌, ◌∷◌, [], List, OnOk};
ghost use Rattle.wasm_encoder.specs.Outcomes.{IsOrMemory};
ghost use Rattle.wasm_encoder.specs.CodeSections.{FunctionStandsFor, StandsForBodies, followed};
ghost use Rattle.wasm_encoder.specs.EncodedLists.{CountedSection, body_bytes};
ghost use Rattle.wasm_encoder.specs.ModuleFormats.{raw_module};
ghost use Rattle.wasm_encoder.specs.Sections.{SectionParts, all_parts_of, section_of};
ghost use Rattle.wasm_code.specs.declared.code.CodeBody.{CodeBody};
ghost use Rattle.wasm_encoder.specs.CodeFormats.{code_section_body};

use std::alloc::Global;
use wasm_encoder::{
    Call, CodeBody, CodeSection, Encode, EncodeError, Function, Module, RawSection, ReadError,
    read_code_section, read_module,
};

/// Appends calls to a function, and the function to a code section.
pub fn function(
    section: &mut CodeSection,
    function: &mut Function,
    calls: &[Call],
) -> Result<(), EncodeError>
    ensures { (before : List CodeBody) (body : CodeBody) → StandsForBodies section.old before →
        FunctionStandsFor function.old body →
        OnOk result (StandsForBodies section.new (before ++ followed body calls.now ∷ [])) }
{
    function.calls(calls)?;
    section.function(function)
}

/// Appends bodies to a code section.
pub fn more(section: &mut CodeSection, added: &[CodeBody]) -> Result<(), EncodeError>
    ensures { (before : List CodeBody) → StandsForBodies section.old before →
        OnOk result (StandsForBodies section.new (before ++ added.now)) }
{
    section.bodies(added)
}

/// Writes a code section, whose body encodes its bodies whichever calls filled it.
pub fn encoded(section: &CodeSection, bytes: &mut Vec<u8>) -> Result<(), EncodeError>
    ensures { (added : List CodeBody) → StandsForBodies section.now added →
        code_section_body.Encodes (body_bytes section.now) added }
{
    section.encode(bytes)
}

/// Writes a code section and reads its bodies back.
pub fn read_back(
    alloc: Global,
    section: &CodeSection,
    body: &[u8],
    bytes: &mut Vec<u8>,
) -> Result<Vec<CodeBody>, ReadError>
    requires { body.now ≡ body_bytes section.now }
    ensures { (added : List CodeBody) → StandsForBodies section.now added →
        IsOrMemory (λ given. given.items) added result }
{
    if section.encode(bytes).is_err() {
        return Err(ReadError::Memory);
    }
    read_code_section(alloc, body)
}

/// Appends a code section to a module.
pub fn in_module(built: &mut Module, section: &CodeSection) -> Result<(), EncodeError>
    ensures goes_on { (sections : List SectionParts) → built.old ≡ raw_module.bytes sections →
        OnOk result (built.new ≡ raw_module.bytes (sections ++ section_of (10, body_bytes section.now) ∷ [])) }
    ensures counted { OnOk result (CountedSection section.now) }
{
    built.section(section)
}

/// Reads a module of one code section back.
pub fn module_back<'a>(
    alloc: Global,
    section: &CodeSection,
    bytes: &'a [u8],
) -> Result<Vec<RawSection<'a>>, ReadError>
    requires counted { CountedSection section.now }
    requires of_section { bytes.now ≡ raw_module.bytes (section_of (10, body_bytes section.now) ∷ []) }
    ensures { IsOrMemory (λ given. all_parts_of given.items) (section_of (10, body_bytes section.now) ∷ []) result }
{
    read_module(alloc, bytes)
}
