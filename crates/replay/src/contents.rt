//! Vectors of the contents of a custom section after its name: which section it is, its bytes, and `ok` with how many items
//! it has and the normal form, or `refused` with the place.

mod built;

use crate::columns::columns;
use crate::contents::built::check_built;
use crate::decoded::{check_cuts, check_given, check_refusal};
use crate::mismatch::Mismatch;
use std::alloc::Global;

/// Holds the readers, the normalisers and the builders to the vector of a line.
pub fn check(alloc: Global, line: &str) -> Result<(), Mismatch> {
    let (section, contents, answer) = columns(line)?;
    let contents = hex::decode(alloc, contents)?;
    let contents = contents.as_slice();
    match answer.split_once(' ') {
        Some(("ok", expected)) => check_taken(alloc, section, contents, expected),
        Some(("refused", at)) => {
            let at = at.parse().ok().ok_or(Mismatch::NotUnderstood)?;
            check_refusal(alloc, section, contents, at)
        }
        _ => Err(Mismatch::NotUnderstood),
    }
}

/// Checks that the contents have this number of items and normal form, which the builder writes too. Each part of a
/// list must be refused.
fn check_taken(
    alloc: Global,
    section: &str,
    contents: &[u8],
    expected: &str,
) -> Result<(), Mismatch> {
    let (count, normal) = expected.split_once(' ').ok_or(Mismatch::NotUnderstood)?;
    let count: usize = count.parse().ok().ok_or(Mismatch::NotUnderstood)?;
    let normal = hex::decode(alloc, normal)?;
    check_given(alloc, section, contents, normal.as_slice(), count)?;
    if section != "names" && section != "linking" {
        check_cuts(alloc, section, contents)?;
    }
    check_built(alloc, section, contents, normal.as_slice())
}
