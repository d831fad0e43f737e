//! The calls of `nosgrivel.wasm`, a WebAssembly module for hosts such as node and browsers.
//!
//! `nosgrivel_canonicalise` rewrites a module in place as its canonical form, and says what the module was.
//! `nosgrivel_message` writes a refusal as text. Nothing here allocates, so the module imports nothing: the host owns all
//! memory from `__heap_base` on, and grows it.
//!
//! A slice is a pointer and a length, both i64. No pointer may be null, and no two slices may overlap.
#![tactic(auto)]

ghost use Rattle.std.specs.Prelude.{◌≤◌};
ghost use Rattle.flat_refusals.specs.Messages.{HoldsTextOf};
ghost use Rattle.nosgrivel_wasm.specs.Canonicalising.{Canonicalises, IsTold};

use flat_refusals::message::write_message;
use flat_refusals::refusal::FlatRefusal;
use flat_refusals::statuses::{NORMAL, NOT_NORMAL, REFUSED};
use wasm_codec::reader::refusal::Refusal;
use wasm_modules::modules::{CheckedInPlace, rewrite_and_check_in_place};

/// Replaces a module by its canonical form in place, and returns whether it was canonical.
///
/// Returns `NORMAL` if it was; it is unchanged. Returns `NOT_NORMAL` if it wasn't: the canonical form begins the bytes,
/// the count is its length, and the refusal is the first part that isn't minimally encoded. Returns `REFUSED` if it is
/// malformed: the count is the length of the longest prefix that decodes, the refusal says why and where, and the bytes
/// are unspecified.
#[unsafe(no_mangle)]
pub extern "C" fn nosgrivel_canonicalise(
    bytes: &mut [u8],
    count: &mut usize,
    refusal: &mut FlatRefusal,
) -> u32
    ensures canonicalises { Canonicalises bytes.old bytes.new count.new refusal.new result }
{
    tell(rewrite_and_check_in_place(bytes), count, refusal)
}

/// Writes the text of a refusal to the buffer, cut to its length, with a NUL at its end. Returns the length of the
/// whole text.
///
/// Writes nothing if the buffer is empty. The text is empty if nothing was refused.
#[unsafe(no_mangle)]
pub extern "C" fn nosgrivel_message(refusal: &FlatRefusal, buffer: &mut [u8]) -> usize
    ensures len { result ≤ 256 }
    ensures held { HoldsTextOf result buffer.old buffer.new }
{
    write_message(refusal, buffer)
}

/// Writes what a module was to the count and the refusal, and returns the status.
fn tell(checked: Result<CheckedInPlace, Refusal>, count: &mut usize, told: &mut FlatRefusal) -> u32
    ensures { IsTold checked count.new told.new result }
{
    match checked {
        Ok(CheckedInPlace { len, longer: None }) => {
            *count = len;
            *told = FlatRefusal::accepted(len);
            NORMAL
        }
        Ok(
            CheckedInPlace {
                len,
                longer: Some(refusal),
            },
        ) => {
            *count = len;
            *told = FlatRefusal::of(&refusal);
            NOT_NORMAL
        }
        Err(refusal) => {
            *count = refusal.at;
            *told = FlatRefusal::of(&refusal);
            REFUSED
        }
    }
}
