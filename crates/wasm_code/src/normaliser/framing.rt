//! The normaliser of modules, generic over the format of their sections (Core 3.0, Modules).
ghost use Rattle.std.specs.Prelude.{◌≡◌, ◌≤◌, IfErr, IfOk, length};
ghost use Rattle.wasm_codec.specs.Outcomes.{IfMalformed, IfRefusedInItem, LiesIn, NeedsNoMemory, as_read};
ghost use Rattle.wasm_code.specs.Modules.{CountsSections, IsModulePrefixOf};
ghost use Rattle.wasm_code.specs.formats.Modules.{module_of};
ghost use Rattle.wasm_codec.specs.Decoding.{RewritesInPlace};
ghost use Rattle.wasm_codec.specs.Rewriter.{Rewrites};
ghost use Rattle.wasm_codec.specs.formats.Bodies.{sized};

use crate::longer::{CheckedSlice, checked_module_of};
use wasm_codec::reader::DecodeError;
use wasm_codec::reader::cursor::Fault;
use wasm_codec::rewriter::Rewriter;
use wasm_lists::rewriting::{Rewritable, RewritableBody, rewrite_sized};

/// Replaces a module by its minimal encoding in place. Returns the length of it, which begins the slice.
///
/// Allocates nothing, and never fails with `Memory`. Fails with `Malformed` at the offset of the first malformed section,
/// or at 0 if the header is missing; the bytes are then unspecified.
pub fn rewrite_module_of<S: Rewritable>(bytes: &mut [u8]) -> Result<usize, DecodeError>
    ensures len { IfOk result (λ len. len ≤ length bytes.new) }
    ensures rewrites { RewritesInPlace (module_of S.format) (IsModulePrefixOf S.format) bytes.old bytes.new (as_read result) }
    ensures memory { NeedsNoMemory (as_read result) }
    ensures place { IfErr result (LiesIn (length bytes.old)) }
    // The section that a refusal names counts the sections before it.
    ensures counts { IfMalformed result (CountsSections S.format bytes.old) }
    // The section begins with a list that breaks off at the item that a refusal names.
    ensures names { IfMalformed result (IfRefusedInItem S.Breaks bytes.old) }
{
    let CheckedSlice {
        bytes: _bytes,
        checked,
    } = checked_module_of::<S>(bytes);
    match checked {
        Ok(checked) => Ok(checked.len),
        Err(error) => Err(error),
    }
}

/// Rewrites the size and the body of the section with this id. A fault carries the id.
pub(crate) fn rewrite_section_body<T: RewritableBody>(
    rewriter: &mut Rewriter,
    id: u8,
) -> Result<(), Fault>
    ensures rewrites { Rewrites (sized T.format) rewriter.old rewriter.new result }
{
    match rewrite_sized::<T>(rewriter) {
        Ok(()) => Ok(()),
        Err(Fault::Malformed(malformed)) => Err(Fault::Malformed(malformed.in_section(id))),
        Err(Fault::Memory) => Err(Fault::Memory),
    }
}
