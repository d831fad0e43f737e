//! Branch hints, which are moved with their instructions once code has got shorter.
ghost use Rattle.std.specs.Prelude.{◌≡◌, false, IfOk};
ghost use Rattle.wasm_sections.specs.formats.ModuleSections.{KeepsMinimal};
ghost use Rattle.wasmcanon.specs.Run.{MovesHintsIf};

use crate::run::Canonical;
use std::alloc::{AllocError, Global};

/// A canonical form whose branch hints are moved, if they can be.
#[derive(Drop)]
pub struct Hinted {
    /// The bytes.
    pub bytes: Vec<u8>,
    /// Whether there are hints and they are moved.
    pub are_moved: bool,
}

/// Moves the branch hints of a canonical form, if bytes have moved and the hints can be moved.
///
/// They can't be if they are malformed, or if no instruction begins at one of their offsets. Fails if memory runs out.
pub fn with_hints(alloc: Global, canonical: Canonical) -> Result<Hinted, AllocError>
    ensures hints { IfOk result (λ hinted. MovesHintsIf hinted.are_moved canonical.has_moved canonical.code canonical.bytes.items hinted.bytes.items) }
    ensures minimal { IfOk result (λ hinted. KeepsMinimal canonical.bytes.items hinted.bytes.items) }
    ensures stays { canonical.has_moved ≡ false → IfOk result (λ hinted. hinted.are_moved ≡ false) }
{
    let Canonical {
        bytes,
        has_moved,
        code,
    } = canonical;
    if !has_moved {
        return Ok(unmoved(bytes));
    }
    let Some(code) = code else {
        return Ok(unmoved(bytes));
    };
    let Some(moved) = code.move_hints(alloc, &bytes)? else {
        return Ok(unmoved(bytes));
    };
    Ok(Hinted {
        bytes: moved,
        are_moved: true,
    })
}

/// Returns a canonical form as it is.
fn unmoved(bytes: Vec<u8>) -> Hinted
    ensures bytes { result.bytes.items ≡ bytes.items }
    ensures unmoved { result.are_moved ≡ false }
{
    Hinted {
        bytes,
        are_moved: false,
    }
}
