//! Modules rewritten in place, and the first part of them that isn't minimally encoded.
ghost use Rattle.std.specs.Prelude.{◌≡◌, ◌≤◌, IfOk, IfErr, IfSome, length};
ghost use Rattle.wasm_codec.specs.Outcomes.{IfMalformed, IfRefusedInItem, LiesIn, NeedsNoMemory, as_read};
ghost use Rattle.wasm_codec.specs.formats.Combinators.{minimal_only};
ghost use Rattle.wasm_codec.specs.Decoding.{RewritesInPlace, ChecksAll};
ghost use Rattle.wasm_code.specs.Modules.{CountsSections, IsModulePrefixOf};
ghost use Rattle.wasm_code.specs.Longer.{IsLongerAt, len_of, verdict_of, verdict_at, RefusalLiesIn};
ghost use Rattle.wasm_code.specs.formats.Modules.{module_of};

use crate::raw::{after_header, no_header};
use crate::section::HEADER;
use wasm_codec::reader::DecodeError;
use wasm_codec::reader::malformed::{Malformed, Reason};
use wasm_codec::reader::refusal::{Refusal, SectionPlace};
use wasm_codec::rewriter::{Finished, Rewriter};
use wasm_lists::longer::{LongerItem, rewrite_and_check_items};
use wasm_lists::rewriting::Rewritable;

/// What a module was that is now minimally encoded.
#[derive(Clone, Copy, Debug, PartialEq, Eq)]
pub struct CheckedInPlace {
    /// Length in bytes of the minimal encoding.
    pub len: usize,
    /// The first part of the module that wasn't minimally encoded. Its `at` is the offset of the first such section.
    /// `None` means that the module was minimally encoded, and is unchanged.
    pub longer: Option<Refusal>,
}

/// A slice that was rewritten and checked.
#[derive(Drop)]
pub(crate) struct CheckedSlice<'a> {
    /// The slice.
    pub(crate) bytes: &'a mut [u8],
    /// What it was; or why it is malformed.
    pub(crate) checked: Result<CheckedInPlace, DecodeError>,
}

/// Replaces a module with sections of type `S` by its minimal encoding in place, and tells whether it was minimally
/// encoded. The minimal encoding begins the slice.
///
/// Fails with `Malformed` at the offset of the first malformed section, or at 0 if the header is missing; the bytes are
/// then unspecified. Allocates nothing.
pub fn rewrite_and_check_module_of<S: Rewritable>(
    bytes: &mut [u8],
) -> Result<CheckedInPlace, DecodeError>
    ensures len { IfOk result (λ checked. checked.len ≤ length bytes.new) }
    ensures rewrites { RewritesInPlace (module_of S.format) (IsModulePrefixOf S.format) bytes.old bytes.new (len_of result) }
    ensures checks { IfOk result (λ checked. ChecksAll (module_of (minimal_only S.format)).Encodes (IsModulePrefixOf (minimal_only S.format)) bytes.old (verdict_of checked.longer)) }
    ensures memory { NeedsNoMemory (as_read result) }
    ensures place { IfErr result (LiesIn (length bytes.old)) }
    ensures within { IfOk result (λ checked. IfSome checked.longer (RefusalLiesIn (length bytes.old))) }
    // The section that a refusal names counts the sections before it.
    ensures counts { IfMalformed result (CountsSections S.format bytes.old) }
    // The section begins with a list that breaks off at the item that a refusal names.
    ensures names { IfMalformed result (IfRefusedInItem S.Breaks bytes.old) }
    // The section of the first part that isn't minimal counts the sections before it, which are minimally encoded.
    ensures numbers { IfOk result (λ checked. IfSome checked.longer (CountsSections (minimal_only S.format) bytes.old)) }
{
    let CheckedSlice {
        bytes: _bytes,
        checked,
    } = checked_module_of::<S>(bytes);
    checked
}

/// Rewrites and checks a module, and returns the same slice.
pub(crate) fn checked_module_of<'a, S: Rewritable>(bytes: &'a mut [u8]) -> CheckedSlice<'a>
    ensures same_reference { IfOk result.checked (λ _. result.bytes.ghost_name ≡ bytes.entry.ghost_name) }
    ensures len { IfOk result.checked (λ checked. checked.len ≤ length result.bytes.now) }
    ensures rewrites { RewritesInPlace (module_of S.format) (IsModulePrefixOf S.format) bytes.old result.bytes.now (len_of result.checked) }
    ensures checks { IfOk result.checked (λ checked. ChecksAll (module_of (minimal_only S.format)).Encodes (IsModulePrefixOf (minimal_only S.format)) bytes.old (verdict_of checked.longer)) }
    ensures memory { NeedsNoMemory (as_read result.checked) }
    ensures place { IfErr result.checked (LiesIn (length bytes.old)) }
    ensures within { IfOk result.checked (λ checked. IfSome checked.longer (RefusalLiesIn (length bytes.old))) }
    ensures counts { IfMalformed result.checked (CountsSections S.format bytes.old) }
    ensures names { IfMalformed result.checked (IfRefusedInItem S.Breaks bytes.old) }
    ensures numbers { IfOk result.checked (λ checked. IfSome checked.longer (CountsSections (minimal_only S.format) bytes.old)) }
{
    S::is_lawful();
    let all = bytes.len();
    let Some(_sections) = after_header(bytes) else {
        return CheckedSlice {
            checked: Err(no_header(bytes)),
            bytes,
        };
    };
    let mut rewriter = Rewriter::new(bytes);
    rewriter.skip(HEADER.len());
    rewriter.are_bytes();
    match rewrite_and_check_items::<S>(&mut rewriter) {
        Ok(first) => {
            let part = rewriter.longer();
            let Finished { bytes, len } = rewriter.finish();
            let longer = longer_part(part, first, bytes, all);
            CheckedSlice {
                bytes,
                checked: Ok(CheckedInPlace { len, longer }),
            }
        }
        Err(stop) => CheckedSlice {
            bytes: rewriter.finish().bytes,
            checked: Err(DecodeError::new(stop.fault, all - stop.left, all).numbered(stop.passed)),
        },
    }
}

/// Returns the refusal of the first part that isn't minimally encoded, in this section of a module of `len` bytes.
///
/// The id of the section stands in the minimal encoding where it was, because everything before is minimally encoded.
fn longer_part(
    part: Option<Malformed>,
    section: Option<LongerItem>,
    minimal: &[u8],
    len: usize,
) -> Option<Refusal>
    ensures verdict { verdict_of result ≡ verdict_at len section }
    ensures within { IfSome result (RefusalLiesIn len) }
    ensures part { IfSome result (IsLongerAt len section) }
{
    let LongerItem { left, passed } = section?;
    let at = len.saturating_sub(left);
    let part = part.unwrap_or(Malformed::new(Reason::LongForm, left));
    let section = minimal.get(at).map(|id| SectionPlace {
        number: passed,
        id: *id,
    });
    Some(Refusal {
        section,
        ..Refusal::new(&part, at, len)
    })
}
