//! Vectors of the body of a section, or of a module: which section it is of, its bytes, and `ok` with the normal form and how
//! many items it has, or `refused` with the place.

mod bodies;
mod built;
pub mod modules;

use crate::columns::columns;
use crate::decoded::bodies::{Answers, all_answers};
use crate::decoded::modules::{check_module, check_order_of, module_of};
use crate::mismatch::Mismatch;
use std::alloc::Global;

/// Holds the readers, the normalisers and the builders to the vector of a line.
pub fn check(alloc: Global, line: &str) -> Result<(), Mismatch> {
    let (section, body, answer) = columns(line)?;
    let body = hex::decode(alloc, body)?;
    check_answer(alloc, section, body.as_slice(), answer)
}

/// Checks that the calls answer so to the bytes.
fn check_answer(alloc: Global, section: &str, body: &[u8], answer: &str) -> Result<(), Mismatch> {
    if section == "order" {
        return check_order_of(alloc, body, answer);
    }
    match answer.split_once(' ') {
        Some(("ok", expected)) => check_taken(alloc, section, body, expected),
        Some(("refused", at)) => check_refused(alloc, section, body, at.parse().ok()),
        _ => Err(Mismatch::NotUnderstood),
    }
}

/// Checks that the bytes have this number of items and normal form.
fn check_taken(alloc: Global, section: &str, body: &[u8], expected: &str) -> Result<(), Mismatch> {
    let (count, normal) = expected.split_once(' ').ok_or(Mismatch::NotUnderstood)?;
    let count: usize = count.parse().ok().ok_or(Mismatch::NotUnderstood)?;
    let normal = hex::decode(alloc, normal)?;
    if section == "module" {
        return check_module(alloc, body, normal.as_slice(), count);
    }
    check_body(alloc, section, body, normal.as_slice(), count)
}

/// Checks that the calls answer so to the body and to the module of that section, and refuse each part of the body.
fn check_body(
    alloc: Global,
    section: &str,
    body: &[u8],
    normal: &[u8],
    count: usize,
) -> Result<(), Mismatch> {
    check_given(alloc, section, body, normal, count)?;
    check_cuts(alloc, section, body)?;
    let module = module_of(alloc, section, body)?;
    let expected = module_of(alloc, section, normal)?;
    check_module(alloc, module.as_slice(), expected.as_slice(), 1)
}

/// The bytes hold so many items, and have this normal form, which is its own and alone is read strictly.
pub fn check_given(
    alloc: Global,
    section: &str,
    body: &[u8],
    normal: &[u8],
    count: usize,
) -> Result<(), Mismatch> {
    check_one(alloc, section, body, normal, count)?;
    check_one(alloc, section, normal, normal, count)
}

/// The bytes hold so many items, and have this normal form. They are read strictly if they are it.
fn check_one(
    alloc: Global,
    section: &str,
    body: &[u8],
    normal: &[u8],
    count: usize,
) -> Result<(), Mismatch> {
    let answers = all_answers(alloc, section, body)?;
    if answers.read != Ok(count) {
        return Err(Mismatch::Read);
    }
    match answers.strict {
        Ok(given) if body == normal && given == count => {}
        Err(_) if body != normal => {}
        _ => return Err(Mismatch::ReadStrictly),
    }
    match answers.normal {
        Ok(written) if written.as_slice() == normal => Ok(()),
        _ => Err(Mismatch::Normalised),
    }
}

/// Each part of the body from its beginning is refused, but for a custom section, which may hold any bytes after its name.
pub fn check_cuts(alloc: Global, section: &str, body: &[u8]) -> Result<(), Mismatch> {
    if section == "custom" {
        return Ok(());
    }
    for len in 0..body.len() {
        check_cut(alloc, section, &body[..len])?;
    }
    Ok(())
}

/// The place where the reader and the normaliser refuse the part. The strict reader refuses it no later.
pub fn check_cut(alloc: Global, section: &str, cut: &[u8]) -> Result<usize, Mismatch> {
    cut_at(&all_answers(alloc, section, cut)?, cut.len())
}

/// The place where the reader and the normaliser refuse the part of this length. The strict reader refuses it no later.
pub fn cut_at(answers: &Answers, len: usize) -> Result<usize, Mismatch> {
    match (answers.read, &answers.normal, answers.strict) {
        (Err(at), Err(place), Err(strict)) if *place == at && strict <= at && at <= len => Ok(at),
        _ => Err(Mismatch::Cut),
    }
}

/// The bytes are refused at this place, and the module of such a section after its header.
fn check_refused(
    alloc: Global,
    section: &str,
    body: &[u8],
    at: Option<usize>,
) -> Result<(), Mismatch> {
    let at = at.ok_or(Mismatch::NotUnderstood)?;
    check_refusal(alloc, section, body, at)?;
    if section == "module" {
        return Ok(());
    }
    let module = module_of(alloc, section, body)?;
    check_refusal(alloc, "module", module.as_slice(), 8)
}

/// The readers and the normaliser refuse the bytes, the wide ones at this place.
pub fn check_refusal(alloc: Global, section: &str, body: &[u8], at: usize) -> Result<(), Mismatch> {
    let answers = all_answers(alloc, section, body)?;
    if answers.read != Err(at) {
        return Err(Mismatch::Read);
    }
    if answers.strict.is_ok() {
        return Err(Mismatch::ReadStrictly);
    }
    match answers.normal {
        Err(place) if place == at => Ok(()),
        _ => Err(Mismatch::Normalised),
    }
}
