//! Refusals as numbers.
ghost use Rattle.std.specs.Prelude.{◌≡◌, option_map};
ghost use Rattle.wasm_codec.specs.declared.reader.refusal.Refusal.{Refusal};
ghost use Rattle.wasm_codec.specs.declared.reader.refusal.SectionPlace.{SectionPlace};
ghost use Rattle.flat_refusals.specs.FlatRefusals.{flat_accepted, flat_refusal, or_minus_one, offset_or_minus_one};

use crate::reasons::FlatReason;
use crate::statuses::{NORMAL, REFUSED};
use wasm_codec::reader::refusal::{Refusal, SectionPlace};

/// Why and where a call refuses its input, as numbers.
#[repr(C)]
#[derive(Clone, Copy)]
pub struct FlatRefusal {
    /// The status that the call returned.
    pub status: u32,
    /// Code of the reason. 0 means that nothing was refused.
    pub reason: u32,
    /// Code of the part of the binary format that the reason names. 0 means that it names none.
    pub construct: u32,
    /// Id of the section. -1 means outside of sections.
    pub section_id: i32,
    /// Length in bytes of the longest prefix that the call accepts.
    pub at: u64,
    /// Offset of the bytes for which the reason is given.
    pub offset: u64,
    /// Number of sections before this one. -1 means outside of sections.
    pub section: i64,
    /// Number of items before it in the list. -1 means outside of lists.
    pub item: i64,
    /// Number of groups of locals before it in its code body. -1 means outside of locals.
    pub local_group: i64,
    /// Offset of its instruction. -1 means outside of instructions.
    pub instruction: i64,
    /// The first number that the reason carries. 0 means that it carries none.
    pub first: u64,
    /// The second number that the reason carries. 0 means that it carries none.
    pub second: u64,
}

impl FlatRefusal {
    /// Returns the numbers for an accepted input of this length.
    pub fn accepted(len: usize) -> FlatRefusal
        ensures { result ≡ flat_accepted len }
    {
        FlatRefusal {
            status: NORMAL,
            reason: 0,
            construct: 0,
            section_id: -1,
            at: len as u64,
            offset: len as u64,
            section: -1,
            item: -1,
            local_group: -1,
            instruction: -1,
            first: 0,
            second: 0,
        }
    }

    /// Returns the numbers of a refusal.
    pub fn of(refusal: &Refusal) -> FlatRefusal
        ensures { result ≡ flat_refusal refusal.now }
    {
        let reason = FlatReason::of(refusal.reason);
        FlatRefusal {
            status: REFUSED,
            reason: reason.code,
            construct: reason.construct,
            section_id: section_id(refusal.section),
            at: refusal.at as u64,
            offset: refusal.offset as u64,
            section: section_number(refusal.section),
            item: number_or_none(refusal.item),
            local_group: number_or_none(refusal.local_group),
            instruction: offset_or_none(refusal.instruction),
            first: reason.first,
            second: reason.second,
        }
    }

    /// Returns the refusal that has these numbers. `None` means that none has them.
    pub fn refusal(&self) -> Option<Refusal> {
        let reason = FlatReason {
            code: self.reason,
            construct: self.construct,
            first: self.first,
            second: self.second,
        };
        Some(Refusal {
            at: usize::try_from(self.at).ok()?,
            offset: usize::try_from(self.offset).ok()?,
            body: None,
            section: self.section_place(),
            item: u32::try_from(self.item).ok(),
            local_group: u32::try_from(self.local_group).ok(),
            instruction: usize::try_from(self.instruction).ok(),
            reason: reason.reason()?,
        })
    }

    /// Returns the section. `None` means outside of sections.
    fn section_place(&self) -> Option<SectionPlace> {
        Some(SectionPlace {
            number: usize::try_from(self.section).ok()?,
            id: u8::try_from(self.section_id).ok()?,
        })
    }
}

/// Returns the id of the section, or -1.
fn section_id(section: Option<SectionPlace>) -> i32
    ensures { result ≡ or_minus_one (option_map (λ (place : SectionPlace). place.id) section) }
{
    match section {
        Some(place) => i32::from(place.id),
        None => -1,
    }
}

/// Returns the number of sections before this one, or -1.
fn section_number(section: Option<SectionPlace>) -> i64
    ensures { result ≡ offset_or_minus_one (option_map (λ (place : SectionPlace). place.number) section) }
{
    match section {
        Some(place) => offset_or_none(Some(place.number)),
        None => -1,
    }
}

/// Returns the number, or -1.
fn number_or_none(number: Option<u32>) -> i64
    ensures { result ≡ or_minus_one number }
{
    match number {
        Some(number) => i64::from(number),
        None => -1,
    }
}

/// Returns the offset, or -1.
fn offset_or_none(offset: Option<usize>) -> i64
    ensures { result ≡ offset_or_minus_one offset }
{
    match offset {
        Some(offset) => i64::try_from(offset).unwrap_or(i64::MAX),
        None => -1,
    }
}
