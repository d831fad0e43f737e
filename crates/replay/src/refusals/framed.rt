//! Bodies that are refused, as sections of a module.

use crate::decoded::modules::id_of;
use crate::mismatch::Mismatch;
use crate::refusals::calls::check_refusal;
use crate::refusals::expected::Expected;
use std::alloc::Global;
use wasm_encoder::reader::SectionPlace;

/// The header of a module, and a custom section without name and bytes.
const BEFORE: [u8; 11] = *b"\0asm\x01\0\0\0\x00\x01\x00";

/// A custom section without name, with one byte.
const AFTER: [u8; 4] = *b"\x00\x02\x00\xff";

/// The module that has the body in its second section of three refuses it there, for the same reason.
pub fn check_framed(
    alloc: Global,
    calls: &str,
    what: &str,
    body: &[u8],
    expected: &Expected<'_>,
) -> Result<(), Mismatch> {
    if !is_body(what) {
        return Ok(());
    }
    let size = match u8::try_from(body.len()) {
        Ok(size) if size < 128 => size,
        _ => return Err(Mismatch::NotUnderstood),
    };
    let id = id_of(what);
    let mut module = Vec::from_slice(alloc, &BEFORE)?;
    module.extend_from_slice(&[id, size])?;
    module.extend_from_slice(body)?;
    module.extend_from_slice(&AFTER)?;
    let framed = framed(expected, id);
    check_refusal(alloc, calls, "module", module.as_slice(), &framed)
}

/// Whether these are the body of a section.
fn is_body(what: &str) -> bool {
    what == "custom" || id_of(what) > 0
}

/// The refusal in the body, after the bytes before it.
fn framed<'a>(expected: &Expected<'a>, id: u8) -> Expected<'a> {
    Expected {
        at: BEFORE.len(),
        offset: behind(expected.offset),
        section: Some(SectionPlace { number: 1, id }),
        item: expected.item,
        local_group: expected.local_group,
        instruction: match expected.instruction {
            Some(offset) => Some(behind(offset)),
            None => None,
        },
        reason: expected.reason,
    }
}

/// The offset in the module of an offset in the body.
fn behind(offset: usize) -> usize {
    offset.saturating_add(BEFORE.len() + 2)
}
