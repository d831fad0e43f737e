//! The contents of the custom sections `name` and `producers`, which `--names` puts into their minimal encoding too.
ghost use Rattle.std.specs.Prelude.{IfOk};
ghost use Rattle.wasm_sections.specs.formats.ModuleSections.{KeepsMinimal};
ghost use Rattle.wasmcanon.specs.Run.{HasContents, IsCanonicalForm, IsVerdictOn};

use crate::run::Verdict;
use std::alloc::{AllocError, Global};
use wasm_custom_sections::contents::rewrite_contents;
use wasm_custom_sections::longer_contents::find_longer_contents;

/// Puts the contents of a module's sections `name` and `producers` into their minimal encoding if `names` is set.
///
/// Fails if memory runs out.
pub fn with_contents(alloc: Global, bytes: Vec<u8>, names: bool) -> Result<Vec<u8>, AllocError>
    ensures contents { IfOk result (λ form. HasContents names bytes.items form.items) }
    ensures minimal { IfOk result (λ form. KeepsMinimal bytes.items form.items) }
{
    if names {
        rewrite_contents(alloc, bytes)
    } else {
        Ok(bytes)
    }
}

/// Returns the verdict on a canonical module. With `names` it isn't canonical if the contents of a section `name` or
/// `producers` decode and aren't minimally encoded.
///
/// Fails if memory runs out.
#[tactic(auto, using(crate::proofs::ResultLaws::longer_contents))]
pub fn verdict_on_contents(alloc: Global, input: &[u8], names: bool) -> Result<Verdict, AllocError>
    ensures { IfOk result (λ verdict. IsCanonicalForm input.now input.now → IsVerdictOn names input.now verdict) }
{
    if !names {
        return Ok(Verdict::Canonical);
    }
    match find_longer_contents(alloc, input)? {
        None => Ok(Verdict::Canonical),
        Some(refusal) => Ok(Verdict::Longer(refusal)),
    }
}
