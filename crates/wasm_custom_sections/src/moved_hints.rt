//! Branch hints of a module whose code gets its minimal encoding: their offsets move with their instructions
//! (WebAssembly proposal, Branch Hinting).
ghost use Rattle.std.specs.Prelude.{◌≡◌, ℕ, List, Some, None, Ok, true, false, IfOk, IfSome, IfNone, IsErrAnd};
ghost use Rattle.wasm_codec.specs.declared.encode.EncodeError.TheVariants.{Memory};
ghost use Rattle.wasm_code.specs.formats.Sections.{all_parts_of, first_body_of, parts_of};
ghost use Rattle.wasm_sections.specs.formats.EntryParts.{all_import_parts};
ghost use Rattle.wasm_sections.specs.formats.ModuleSections.{KeepsMinimal};
ghost use Rattle.wasm_custom_sections.specs.MovedHints.{AppendsMoved, CantMove, HasHintBytes, HasHintSection, ImportsFunctions, IsCodeOf, IsHintSection, MovesContents, MovesHints, MovesInOneWay, function_imports, import_section_id, is_function as function_type};
ghost use Rattle.wasm_custom_sections.specs.MovedFunctions.{HasFronts, all_bodies};
ghost use Rattle.wasm_custom_sections.specs.declared.moved_hints.HintedCode.{HintedCode};

pub mod functions;
pub mod offsets;

use crate::branch_hints::FunctionHints;
use crate::moved_hints::functions::{BodyBytes, moved_functions, no_fronts};
use crate::moved_hints::offsets::Fronts;
use std::alloc::{AllocError, Global};
use wasm_code::raw::read_module;
use wasm_code::section::{CODE_SECTION_ID, HEADER, RawSection, append_section, first_body};
use wasm_codec::encode::EncodeError;
use wasm_codec::reader::{DecodeError, ReadError};
use wasm_externals::types::EntityType;
use wasm_lists::encode::{Encode, encode_list};
use wasm_lists::reading::read_list_to_end;
use wasm_sections::custom::{CustomSection, read_custom};
use wasm_sections::imports::Import;

/// Id of import sections (Core 3.0, Sections).
const IMPORT_SECTION_ID: u8 = 2;

/// The code that a module's branch hints refer to, in the encoding to which their offsets belong.
///
/// Copy it before you rewrite the module to its minimal encoding. Then move the hints in the result
/// (WebAssembly proposal, Branch Hinting).
///
/// # Examples
///
/// ```
/// # use wasm_encoder::{HintedCode, Module, RawSection, WholeModule, rewrite};
/// // One function without locals: `local.get 0` with a padded index, `if` at offset 7, and `end` twice.
/// let hints = b"\x19metadata.code.branch_hint\x01\x00\x01\x07\x01\x01";
/// let mut module = Module::new(rt.alloc())?;
/// module.section(&RawSection { id: 0, body: hints })?;
/// module.section(&RawSection { id: 10, body: b"\x01\x0b\x00\x20\x80\x80\x80\x80\x00\x04\x40\x0b\x0b" })?;
/// let module = module.finish();
/// let code = HintedCode::of_module(rt.alloc(), &module)?;
/// let minimal = rewrite::<WholeModule>(module)?;
/// let moved = match code {
///     Some(code) => code.move_hints(rt.alloc(), &minimal)?,
///     None => None,
/// };
/// let hints = moved.as_ref().and_then(|module| module.get(36..42));
/// assert_eq!(rt; hints, Some(b"\x01\x00\x01\x03\x01\x01".as_slice())); // now `if` begins at offset 3
/// ```
#[derive(Drop)]
pub struct HintedCode {
    /// Number of imported functions, which come first among the functions.
    pub imported_functions: usize,
    /// Body of the code section.
    pub code: Vec<u8>,
}

impl HintedCode {
    /// Copies the code of a module with branch hints. `None` means that the module or its import section is malformed,
    /// or that it has no branch hints or no code. Fails if memory runs out.
    pub fn of_module(alloc: Global, module: &[u8]) -> Result<Option<HintedCode>, AllocError>
        ensures code { IfOk result (λ found. IfSome found (IsCodeOf module.now)) }
        // It copies the code of every module that has branch hints, code and well-formed imports.
        ensures none { IfOk result (λ found. IfNone found ((code : HintedCode) → IsCodeOf module.now code → ⊥)) }
    {
        let sections = match read_module(alloc, module) {
            Ok(sections) => sections,
            Err(ReadError::Refused { .. }) => return Ok(None),
            Err(ReadError::Memory) => return Err(AllocError),
        };
        if !has_hints(sections.as_slice()) {
            return Ok(None);
        }
        let Some(code) = first_body(sections.as_slice(), CODE_SECTION_ID) else {
            return Ok(None);
        };
        let Some(imported_functions) = imported_functions(alloc, sections.as_slice())? else {
            return Ok(None);
        };
        let code = Vec::from_slice(alloc, code)?;
        Ok(Some(HintedCode {
            imported_functions,
            code,
        }))
    }

    /// Returns a module with its branch hints moved to where their instructions are in the minimal encoding of this code.
    ///
    /// The hints of `module` are those of this code, with their offsets as they were. `None` means that they can't be
    /// moved: a section of hints is malformed, a function has no body here, no instruction begins at an offset, or a
    /// section gets longer than 4,294,967,295 bytes. Fails if memory runs out.
    #[tactic(auto, using(crate::proofs::MovedModuleLaws::moves_in_one_way))]
    pub fn move_hints(&self, alloc: Global, module: &[u8]) -> Result<Option<Vec<u8>>, AllocError>
        ensures moves { IfOk result (λ found. IfSome found (λ moved. MovesHints self.now module.now moved.items)) }
        // `None` means that they can't be moved.
        ensures none { IfOk result (λ found. IfNone found ((moved : List ℕ) → MovesHints self.now module.now moved → ⊥)) }
        // There is at most one such module.
        ensures one { MovesInOneWay self.now module.now }
        // A minimally encoded module stays one.
        ensures minimal { IfOk result (λ found. IfSome found (λ moved. KeepsMinimal module.now moved.items)) }
    {
        let sections = match read_module(alloc, module) {
            Ok(sections) => sections,
            Err(ReadError::Refused { .. }) => return Ok(None),
            Err(ReadError::Memory) => return Err(AllocError),
        };
        let bodies = match read_list_to_end::<BodyBytes<'_>, false>(alloc, self.code.as_slice()) {
            Ok(bodies) => bodies,
            Err(DecodeError::Malformed(_)) => return Ok(None),
            Err(DecodeError::Memory) => return Err(AllocError),
        };
        let mut known = no_fronts(alloc, bodies.len())?;
        let mut moved = Vec::from_slice(alloc, &HEADER)?;
        for section in &sections {
            if !append_moved(
                alloc,
                *section,
                self.imported_functions,
                bodies.as_slice(),
                known.as_mut_slice(),
                &mut moved,
            )? {
                return Ok(None);
            }
        }
        Ok(Some(moved))
    }
}

/// Checks whether one of the sections has branch hints.
fn has_hints(sections: &[RawSection<'_>]) -> bool
    ensures yes { result ≡ true → HasHintSection (all_parts_of sections.now) }
    ensures no { result ≡ false → HasHintSection (all_parts_of sections.now) → ⊥ }
{
    for section in sections {
        if hint_bytes(*section).is_some() {
            return true;
        }
    }
    false
}

/// Returns how many functions are imported. `None` means that the import section is malformed. Fails if memory runs out.
fn imported_functions(
    alloc: Global,
    sections: &[RawSection<'_>],
) -> Result<Option<usize>, AllocError>
    ensures count { IfOk result (λ found. IfSome found (ImportsFunctions (first_body_of import_section_id (all_parts_of sections.now)))) }
    ensures none { IfOk result (λ found. IfNone found ((count : ℕ) → ImportsFunctions (first_body_of import_section_id (all_parts_of sections.now)) count → ⊥)) }
{
    let Some(body) = first_body(sections, IMPORT_SECTION_ID) else {
        return Ok(Some(0));
    };
    match read_list_to_end::<Import<'_>, false>(alloc, body) {
        Ok(imports) => Ok(Some(count_functions(imports.as_slice()))),
        Err(DecodeError::Malformed(_)) => Ok(None),
        Err(DecodeError::Memory) => Err(AllocError),
    }
}

/// Returns how many of the imports are functions.
fn count_functions(imports: &[Import<'_>]) -> usize
    ensures { result ≡ function_imports (all_import_parts imports.now) }
{
    let mut count = 0;
    for import in imports {
        if is_function(import.ty) {
            count += 1;
        }
    }
    count
}

/// Checks whether an import of this type is a function.
fn is_function(ty: EntityType) -> bool
    ensures { result ≡ function_type ty }
{
    match ty {
        EntityType::Function(_) | EntityType::FunctionExact(_) => true,
        EntityType::Table(_) | EntityType::Memory(_) | EntityType::Global(_) | EntityType::Tag(_) =>
            false,
    }
}

/// Returns the contents of a section of branch hints.
fn hint_bytes<'a>(section: RawSection<'a>) -> Option<&'a [u8]>
    ensures some { IfSome result (λ contents. HasHintBytes (parts_of section.entry) contents.now) }
    ensures none { IfNone result (IsHintSection (parts_of section.entry) → ⊥) }
{
    if section.id != 0 {
        return None;
    }
    let Ok(custom) = read_custom(section.body) else {
        return None;
    };
    if custom.name == "metadata.code.branch_hint" {
        Some(custom.bytes)
    } else {
        None
    }
}

/// Appends a section, with its hints moved if it has some. Returns `false` if they can't be moved.
#[tactic(auto, using(crate::proofs::MovedModuleLaws::section_stays))]
fn append_moved(
    alloc: Global,
    section: RawSection<'_>,
    imported: usize,
    bodies: &[BodyBytes<'_>],
    known: &mut [Option<Fronts>],
    sink: &mut Vec<u8>,
) -> Result<bool, AllocError>
    requires { HasFronts (all_bodies bodies.now) known.old }
    ensures known { HasFronts (all_bodies bodies.now) known.new }
    ensures moved { IfOk result (λ done. done ≡ true → AppendsMoved imported (all_bodies bodies.now) (parts_of section.entry) sink.old.items sink.new.items) }
    ensures none { IfOk result (λ done. done ≡ false → CantMove imported (all_bodies bodies.now) (parts_of section.entry)) }
{
    let Some(contents) = hint_bytes(section) else {
        return done(append_section(section.id, &section, sink));
    };
    let Some(moved) = moved_contents(alloc, contents, imported, bodies, known)? else {
        return Ok(false);
    };
    let custom = CustomSection {
        name: "metadata.code.branch_hint",
        bytes: moved.as_slice(),
    };
    done(append_section(0, &custom, sink))
}

/// Returns whether something was written: `false` if it is too long.
fn done(outcome: Result<(), EncodeError>) -> Result<bool, AllocError>
    ensures done { IfOk result (λ done. done ≡ true → outcome ≡ Ok tt) }
    ensures too_long { IfOk result (λ done. done ≡ false → IsErrAnd outcome (λ e. e ≡ Memory → ⊥)) }
{
    match outcome {
        Ok(()) => Ok(true),
        Err(EncodeError::Memory) => Err(AllocError),
        Err(_) => Ok(false),
    }
}

/// Returns contents whose hints are moved. `None` means that the contents are malformed or the hints can't be moved. Fails
/// if memory runs out.
fn moved_contents(
    alloc: Global,
    contents: &[u8],
    imported: usize,
    bodies: &[BodyBytes<'_>],
    known: &mut [Option<Fronts>],
) -> Result<Option<Vec<u8>>, AllocError>
    requires { HasFronts (all_bodies bodies.now) known.old }
    ensures known { HasFronts (all_bodies bodies.now) known.new }
    ensures moves { IfOk result (λ found. IfSome found (λ moved. MovesContents imported (all_bodies bodies.now) contents.now moved.items)) }
    ensures none { IfOk result (λ found. IfNone found ((moved : List ℕ) → MovesContents imported (all_bodies bodies.now) contents.now moved → ⊥)) }
{
    let functions = match read_list_to_end::<FunctionHints, false>(alloc, contents) {
        Ok(functions) => functions,
        Err(DecodeError::Malformed(_)) => return Ok(None),
        Err(DecodeError::Memory) => return Err(AllocError),
    };
    let Some(moved) = moved_functions(alloc, functions.as_slice(), imported, bodies, known)? else {
        return Ok(None);
    };
    let mut bytes = Vec::new(alloc);
    if !done(encode_list(moved.as_slice(), &mut bytes))? {
        return Ok(None);
    }
    Ok(Some(bytes))
}
