//! The copy of a result to the caller's memory, and further statuses.
ghost use Rattle.std.specs.Prelude.{length};
ghost use Rattle.nosgrivel_c.specs.Delivery.{IsDelivered, IsJudged, IsChecked, IsRewritten, TellsRefusal};

use flat_refusals::statuses::{NO_MEMORY, NORMAL, NOT_NORMAL, REFUSED};
use wasm_codec::reader::ReadError;
use wasm_codec::reader::refusal::Refusal;

/// The output is too short for the result. The count is the length that it needs.
pub const TOO_LONG: u32 = 5;

/// A list of patterns isn't UTF-8. The caller's memory and the count are unchanged.
pub const BAD_PATTERN: u32 = 6;

/// Copies the result of a normaliser to the output, and returns the status.
///
/// Returns `TOO_LONG` if the output is too short.
pub(crate) fn deliver(
    normal: Result<Vec<u8>, ReadError>,
    output: &mut [u8],
    count: &mut usize,
) -> u32
    ensures { IsDelivered (λ encoding. encoding.items) normal output.old output.new count.old count.new result }
{
    match normal {
        Ok(encoding) => {
            *count = encoding.len();
            if encoding.len() > output.len() {
                return TOO_LONG;
            }
            output[..encoding.len()].copy_from_slice(&encoding);
            NORMAL
        }
        Err(error) => refuse(error, count),
    }
}

/// Compares the result of a normaliser with the input, and returns the status.
///
/// The result is never longer, and it equals the input if it is as long.
pub(crate) fn judge(normal: Result<Vec<u8>, ReadError>, input: &[u8], count: &mut usize) -> u32
    ensures { IsJudged (λ encoding. encoding.items) normal (length input.now) count.old count.new result }
{
    match normal {
        Ok(encoding) => {
            *count = encoding.len();
            if encoding.len() == input.len() {
                NORMAL
            } else {
                NOT_NORMAL
            }
        }
        Err(error) => refuse(error, count),
    }
}

/// Returns the status of a check.
pub(crate) fn answer(checked: Result<(), ReadError>, input: &[u8], count: &mut usize) -> u32
    ensures { IsChecked checked (length input.now) count.old count.new result }
{
    match checked {
        Ok(()) => {
            *count = input.len();
            NORMAL
        }
        Err(error) => refuse(error, count),
    }
}

/// Returns the status of a call that rewrites in place.
pub(crate) fn report(rewritten: Result<usize, Refusal>, count: &mut usize) -> u32
    ensures { IsRewritten rewritten count.new result }
{
    match rewritten {
        Ok(len) => {
            *count = len;
            NORMAL
        }
        Err(refusal) => {
            *count = refusal.at;
            REFUSED
        }
    }
}

/// Returns the status for an error, and sets the count if the input was refused.
fn refuse(error: ReadError, count: &mut usize) -> u32
    ensures { TellsRefusal error count.old count.new result }
{
    match error {
        ReadError::Refused { at } => {
            *count = at;
            REFUSED
        }
        ReadError::Memory => NO_MEMORY,
    }
}
