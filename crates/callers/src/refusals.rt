//! The parts that the numbers in a refusal count.
ghost use Rattle.std.specs.Prelude.{ℕ, IfSome, drop};
ghost use Rattle.wasm_codec.specs.formats.Numbers.{EncodesU32};
ghost use Rattle.wasm_encoder.specs.Lists.{HasItemsBefore};
ghost use Rattle.wasm_code.specs.formats.CodeBodies.{code_body};
ghost use Rattle.wasm_code.specs.Modules.{HasSectionsBefore};
ghost use Rattle.wasm_sections.specs.formats.ModuleSections.{BreaksInSection, module_section};

use std::alloc::Global;
use wasm_encoder::{CodeSection, DecodeError, WholeModule, read};

/// Returns how many functions of a code section decode before the malformed one. `None` means that none is malformed.
pub fn functions_before(alloc: Global, body: &[u8]) -> Option<u32>
    ensures { IfSome result (λ number. (count : ℕ) × (at : ℕ) × HasItemsBefore EncodesU32 code_body.Encodes body.now count number at) }
{
    match read::<CodeSection>(alloc, body) {
        Err(DecodeError::Malformed(refusal)) => refusal.item,
        _ => None,
    }
}

/// Returns how many sections of a module decode before the malformed one. `None` means that none is malformed.
pub fn sections_before(alloc: Global, bytes: &[u8]) -> Option<usize>
    ensures { IfSome result (λ number. (at : ℕ) × HasSectionsBefore module_section.Encodes bytes.now number at) }
{
    match read::<WholeModule>(alloc, bytes) {
        Err(DecodeError::Malformed(refusal)) => match refusal.section {
            Some(place) => Some(place.number),
            None => None,
        },
        _ => None,
    }
}

/// Returns where the malformed section of a module begins, and how many items of its list decode before the malformed
/// one. `None` means that no item is malformed.
pub fn items_before(alloc: Global, bytes: &[u8]) -> Option<(usize, u32)>
    ensures { IfSome result (λ place. BreaksInSection (drop place.0 bytes.now) place.1) }
{
    match read::<WholeModule>(alloc, bytes) {
        Err(DecodeError::Malformed(refusal)) => match refusal.item {
            Some(index) => Some((refusal.at, index)),
            None => None,
        },
        _ => None,
    }
}
