//! Vectors of refusals: the calls that refuse, what they decode, the bytes, and where and why they refuse them.

mod calls;
mod expected;
mod framed;

use crate::mismatch::Mismatch;
use crate::refusals::calls::check_refusal;
use crate::refusals::expected::{Expected, parse_expected};
use crate::refusals::framed::check_framed;
use std::alloc::Global;

/// Holds the calls to the vector of a line.
pub fn check(alloc: Global, line: &str) -> Result<(), Mismatch> {
    let columns: Vec<&str> = line.split('\t').collect(alloc)?;
    let [calls, what, bytes, refusal @ ..] = columns.as_slice() else {
        return Err(Mismatch::NotUnderstood);
    };
    let bytes = hex::decode(alloc, bytes)?;
    let expected = parse_expected(refusal)?;
    check_row(alloc, calls, what, bytes.as_slice(), &expected)
}

/// The calls refuse the bytes so, and the body of a section also in a module.
fn check_row(
    alloc: Global,
    calls: &str,
    what: &str,
    bytes: &[u8],
    expected: &Expected<'_>,
) -> Result<(), Mismatch> {
    check_refusal(alloc, calls, what, bytes, expected)?;
    match calls {
        "all" | "read" => check_framed(alloc, calls, what, bytes, expected),
        _ => Ok(()),
    }
}
