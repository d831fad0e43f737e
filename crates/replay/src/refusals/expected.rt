//! The refusal that a vector gives.

use crate::mismatch::Mismatch;
use std::alloc::Global;
use wasm_encoder::reader::{Reason, Refusal, SectionPlace};

/// A refusal, with the reason as text.
#[derive(Clone, Copy)]
pub struct Expected<'a> {
    /// Offset of the first part that is refused.
    pub at: usize,
    /// Offset of the bytes for which the reason is given.
    pub offset: usize,
    /// The section, if the bytes lie in one.
    pub section: Option<SectionPlace>,
    /// Number of items before it.
    pub item: Option<u32>,
    /// Number of groups of locals before it.
    pub local_group: Option<u32>,
    /// Offset of its instruction.
    pub instruction: Option<usize>,
    /// The reason, as `Debug` writes it.
    pub reason: &'a str,
}

/// The refusal of seven columns. There is `-` for what it doesn't have.
pub fn parse_expected<'a>(columns: &[&'a str]) -> Result<Expected<'a>, Mismatch> {
    let [at, offset, section, item, group, instruction, reason] = columns else {
        return Err(Mismatch::NotUnderstood);
    };
    Ok(Expected {
        at: parse_offset(at)?.ok_or(Mismatch::NotUnderstood)?,
        offset: parse_offset(offset)?.ok_or(Mismatch::NotUnderstood)?,
        section: parse_section(section)?,
        item: parse_index(item)?,
        local_group: parse_index(group)?,
        instruction: parse_offset(instruction)?,
        reason,
    })
}

/// An offset, or `-`.
fn parse_offset(text: &str) -> Result<Option<usize>, Mismatch> {
    if text == "-" {
        return Ok(None);
    }
    Ok(Some(text.parse().ok().ok_or(Mismatch::NotUnderstood)?))
}

/// An index, or `-`.
fn parse_index(text: &str) -> Result<Option<u32>, Mismatch> {
    if text == "-" {
        return Ok(None);
    }
    Ok(Some(text.parse().ok().ok_or(Mismatch::NotUnderstood)?))
}

/// A section's number and its id with a colon between, or `-`.
fn parse_section(text: &str) -> Result<Option<SectionPlace>, Mismatch> {
    if text == "-" {
        return Ok(None);
    }
    let (number, id) = text.split_once(':').ok_or(Mismatch::NotUnderstood)?;
    Ok(Some(SectionPlace {
        number: number.parse().ok().ok_or(Mismatch::NotUnderstood)?,
        id: id.parse().ok().ok_or(Mismatch::NotUnderstood)?,
    }))
}

impl<'a> Expected<'a> {
    /// A call refused the bytes so.
    pub fn check(&self, alloc: Global, refusal: Option<Refusal>) -> Result<(), Mismatch> {
        let refusal = refusal.ok_or(Mismatch::Place)?;
        if refusal != self.with(refusal.reason, refusal.body) {
            return Err(Mismatch::Place);
        }
        match format!(in alloc; "{:?}", refusal.reason) {
            Ok(text) if text.as_str() == self.reason => Ok(()),
            Ok(_) => Err(Mismatch::Reason),
            Err(_) => Err(Mismatch::Memory),
        }
    }

    /// The refusal at this place for a reason, in a body. Columns don't have the body.
    fn with(&self, reason: Reason, body: Option<usize>) -> Refusal {
        Refusal {
            at: self.at,
            offset: self.offset,
            body,
            section: self.section,
            item: self.item,
            local_group: self.local_group,
            instruction: self.instruction,
            reason,
        }
    }
}
