//! Hints of functions, moved with the instructions in the functions' bodies.
ghost use Rattle.std.proofs.lemmas.List.{map_push};
ghost use Rattle.std.specs.Prelude.{◌≡◌, ◌<◌, ◌^◌, ℕ, List, Some, refl, length, slice_get, IfOk, IfSome, IfNone};
ghost use Rattle.wasm_codec.specs.Lawful.{IsLawful};
ghost use Rattle.wasm_codec.specs.Rewriter.{Rewrites};
ghost use Rattle.wasm_codec.specs.formats.Bodies.{byte_list};
ghost use Rattle.wasm_codec.specs.formats.Grammar.{TakesBytes};
ghost use Rattle.wasm_custom_sections.specs.MovedFunctions.{AreUnknown, HasFronts, IsBodyAt, MovesFunction, all_bodies, bytes_of_body};
ghost use Rattle.wasm_custom_sections.specs.MovedOffsets.{Each};
ghost use Rattle.wasm_custom_sections.specs.declared.branch_hints.FunctionHints.{FunctionHints};

use crate::branch_hints::FunctionHints;
use crate::moved_hints::offsets::{Fronts, moved_hints};
use crate::sized::read_sized_bytes;
use std::alloc::{AllocError, Global};
use wasm_code::raw::RawBytes;
use wasm_codec::reader::cursor::{Cursor, Fault};
use wasm_codec::rewriter::Rewriter;
use wasm_lists::readable::Readable;
use wasm_lists::rewriting::rewrite_sized;

/// The body of a function as bytes, without its size.
#[derive(Clone, Copy)]
pub struct BodyBytes<'a> {
    /// Locals and instructions.
    pub bytes: &'a [u8],
}

impl<'a> Readable<'a> for BodyBytes<'a> {
    ghost Value = { List ℕ };

    ghost view = { bytes_of_body };

    ghost views = { all_bodies };

    ghost views_each = { record { none = refl; more = λ bodies body. map_push bytes_of_body bodies body } };

    ghost format = { byte_list };

    #[inline(always)]
    #[tactic(auto, using(crate::proofs::MovedFunctionLaws::byte_list_laws))]
    fn is_lawful()
        ensures lawful { IsLawful byte_list }
        ensures some { TakesBytes byte_list.Encodes }
    {}

    fn read(_alloc: Global, cursor: &mut Cursor<'a>) -> Result<BodyBytes<'a>, Fault> {
        let bytes = read_sized_bytes(cursor)?;
        Ok(BodyBytes { bytes })
    }

    fn rewrite(rewriter: &mut Rewriter) -> Result<(), Fault>
        ensures rewrites { Rewrites byte_list rewriter.old rewriter.new result }
    {
        rewrite_sized::<RawBytes>(rewriter)
    }
}

/// Returns the known fronts of `count` bodies, before any are known. Fails if memory runs out.
pub(crate) fn no_fronts(alloc: Global, count: usize) -> Result<Vec<Option<Fronts>>, AllocError>
    ensures { IfOk result (λ known. AreUnknown count known.items) }
{
    let mut known = Vec::with_capacity(alloc, count)?;
    for number in 0..count {
        known.push(None)?;
    }
    Ok(known)
}

/// Returns the hints for each function, moved. `None` means that they can't be. Fails if memory runs out.
///
/// `known` has the fronts of each body that are known, and keeps those that are found.
pub(crate) fn moved_functions(
    alloc: Global,
    functions: &[FunctionHints],
    imported: usize,
    bodies: &[BodyBytes<'_>],
    known: &mut [Option<Fronts>],
) -> Result<Option<Vec<FunctionHints>>, AllocError>
    requires { HasFronts (all_bodies bodies.now) known.old }
    ensures known { HasFronts (all_bodies bodies.now) known.new }
    ensures moves { IfOk result (λ found. IfSome found (λ moved. Each (MovesFunction imported (all_bodies bodies.now)) functions.now moved.items)) }
    ensures none { IfOk result (λ found. IfNone found ((moved : List FunctionHints) → Each (MovesFunction imported (all_bodies bodies.now)) functions.now moved → ⊥)) }
{
    let mut moved = Vec::with_capacity(alloc, functions.len())?;
    for function in functions {
        let Some(next) = moved_function(alloc, function, imported, bodies, known)? else {
            return Ok(None);
        };
        moved.push(next)?;
    }
    Ok(Some(moved))
}

/// Returns the hints for a function, moved. `None` means that they can't be. Fails if memory runs out.
fn moved_function(
    alloc: Global,
    function: &FunctionHints,
    imported: usize,
    bodies: &[BodyBytes<'_>],
    known: &mut [Option<Fronts>],
) -> Result<Option<FunctionHints>, AllocError>
    requires { HasFronts (all_bodies bodies.now) known.old }
    ensures known { HasFronts (all_bodies bodies.now) known.new }
    ensures moves { IfOk result (λ found. IfSome found (MovesFunction imported (all_bodies bodies.now) function.now)) }
    ensures none { IfOk result (λ found. IfNone found ((moved : FunctionHints) → MovesFunction imported (all_bodies bodies.now) function.now moved → ⊥)) }
{
    let Some(number) = number_of(bodies, imported, function.function_index) else {
        return Ok(None);
    };
    let body = bodies[number].bytes;
    let Some(hints) = moved_hints(alloc, body, &mut known[number], function.hints.as_slice())?
    else {
        return Ok(None);
    };
    Ok(Some(FunctionHints {
        function_index: function.function_index,
        hints,
    }))
}

/// Returns the number of bodies before that of the function with this index. `None` means that it has no body here.
fn number_of(bodies: &[BodyBytes<'_>], imported: usize, index: u32) -> Option<usize>
    ensures within { IfSome result (λ number. (number < length bodies.now) × (number < 2 ^ 32)) }
    ensures body { IfSome result (λ number. (body : List ℕ) → slice_get (all_bodies bodies.now) number ≡ Some body → IsBodyAt imported (all_bodies bodies.now) index body) }
    ensures none { IfNone result ((body : List ℕ) → IsBodyAt imported (all_bodies bodies.now) index body → ⊥) }
{
    let number = (index as usize).checked_sub(imported)?;
    if number < bodies.len() {
        Some(number)
    } else {
        None
    }
}
