//! Vectors of a normaliser's answers: what is read, its bytes, and `ok` with the normal form or `refused` with the
//! place.

use crate::columns::columns;
use crate::mismatch::Mismatch;
use crate::readers::{normalise, read};
use crate::words::runs;
use crate::written::{Written, check_list_to_end, check_written};
use std::alloc::Global;
use wasm_encoder::read_instructions;

/// Holds a normaliser and its reader to the vector of a line.
pub fn check(alloc: Global, line: &str) -> Result<(), Mismatch> {
    let (what, input, answer) = columns(line)?;
    let input = runs(alloc, input)?;
    let input = input.as_slice();
    match answer.split_once(' ') {
        Some(("ok", normal)) => check_taken(alloc, what, input, normal),
        Some(("refused", at)) => check_refused(alloc, what, input, at.parse().ok()),
        _ => Err(Mismatch::NotUnderstood),
    }
}

/// The reader takes the bytes, and they have this normal form, which is its own.
fn check_taken(alloc: Global, what: &str, input: &[u8], normal: &str) -> Result<(), Mismatch> {
    if read(alloc, what, input)?.is_err() {
        return Err(Mismatch::Read);
    }
    let normal = runs(alloc, normal)?;
    let normal = normal.as_slice();
    check_normal(alloc, what, input, normal)?;
    check_normal(alloc, what, normal, normal)?;
    check_calls(alloc, what, input, normal)
}

fn check_normal(alloc: Global, what: &str, input: &[u8], normal: &[u8]) -> Result<(), Mismatch> {
    match normalise(alloc, what, input)? {
        Ok(written) if written.as_slice() == normal => Ok(()),
        _ => Err(Mismatch::Normalised),
    }
}

/// Checks that the calls read are written as the normal form, also if requests for memory are refused. A long input
/// would need too many refusals.
fn check_calls(alloc: Global, what: &str, input: &[u8], normal: &[u8]) -> Result<(), Mismatch> {
    if what != "calls" {
        return Ok(());
    }
    let calls = read_instructions(alloc, input)?;
    let calls = Written::Calls(calls.as_slice());
    if (1..1000).contains(&normal.len()) {
        check_written(alloc, calls, normal)
    } else {
        check_list_to_end(alloc, &mut Vec::new(alloc), calls, normal)
    }
}

/// The normaliser refuses the bytes at this place, and so does the reader, but for a module's, which looks into no body.
fn check_refused(
    alloc: Global,
    what: &str,
    input: &[u8],
    at: Option<usize>,
) -> Result<(), Mismatch> {
    let at = at.ok_or(Mismatch::NotUnderstood)?;
    match normalise(alloc, what, input)? {
        Err(place) if place == at => {}
        _ => return Err(Mismatch::Normalised),
    }
    if what != "module" && read(alloc, what, input)? != Err(at) {
        return Err(Mismatch::Read);
    }
    Ok(())
}
