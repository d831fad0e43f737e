//! Vectors of a strict reader's answers: what is read, its bytes, and `ok` or `refused` with the place.

use crate::columns::columns;
use crate::mismatch::Mismatch;
use crate::readers::read_strictly;
use std::alloc::Global;

/// Holds a strict reader to the vector of a line.
pub fn check(alloc: Global, line: &str) -> Result<(), Mismatch> {
    let (what, input, answer) = columns(line)?;
    let expected = parse_refusal(answer)?;
    let input = hex::decode(alloc, input)?;
    if read_strictly(alloc, what, input.as_slice())?.err() == expected {
        Ok(())
    } else {
        Err(Mismatch::Read)
    }
}

/// The place of the refusal, if there is to be one.
pub fn parse_refusal(answer: &str) -> Result<Option<usize>, Mismatch> {
    if answer == "ok" {
        return Ok(None);
    }
    match answer.split_once(' ') {
        Some(("refused", at)) => Ok(Some(at.parse().ok().ok_or(Mismatch::NotUnderstood)?)),
        _ => Err(Mismatch::NotUnderstood),
    }
}
