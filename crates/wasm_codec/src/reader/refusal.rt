//! Why and where bytes are refused.
ghost use Rattle.std.specs.Prelude.{◌≡◌, ◌≤◌, ◌+◌};

use crate::reader::malformed::{Malformed, Reason};
use crate::reader::names::section_names;
use std::fmt;

/// The section that a malformed part lies in.
#[derive(Clone, Copy, Debug, PartialEq, Eq)]
pub struct SectionPlace {
    /// Number of sections before it.
    pub number: usize,
    /// Its id.
    pub id: u8,
}

/// Why and where bytes are refused.
///
/// `Display` writes a whole message, but for the name of the input.
///
/// # Examples
///
/// ```
/// # use wasm_encoder::{DecodeError, Reason, WholeModule, read};
/// let module = b"\0asm\x01\0\0\0\x0a\x05\x01\x03\x00\xff\x0b"; // the opcode 0xFF doesn't exist
/// let Err(DecodeError::Malformed(refusal)) = read::<WholeModule>(rt.alloc(), module) else {
///     panic!(rt; "expected a refusal");
/// };
/// assert_eq!(rt; refusal.reason, Reason::UnknownOpcode { number: 0xff });
/// assert_eq!(rt; refusal.offset, 13);
/// assert_eq!(rt; refusal.item, Some(0)); // the first function
/// ```
#[derive(Clone, Copy, Debug, PartialEq, Eq)]
pub struct Refusal {
    /// Length in bytes of the longest prefix that the call accepts: the offset of the first part that it refuses.
    pub at: usize,
    /// Offset of the bytes for which the reason is given.
    pub offset: usize,
    /// Offset of the size of the innermost body or name around these bytes. `None` outside of both.
    pub body: Option<usize>,
    /// The section. `None` outside of sections.
    pub section: Option<SectionPlace>,
    /// Number of items before it in the list, such as functions in a code section. `None` outside of lists.
    pub item: Option<u32>,
    /// Number of groups of locals before it in its code body. `None` outside of locals.
    pub local_group: Option<u32>,
    /// Offset of its instruction. `None` outside of instructions.
    pub instruction: Option<usize>,
    /// Why the bytes are refused.
    pub reason: Reason,
}

impl Refusal {
    /// Returns the refusal for a fault in the part that begins at `at`, in `len` bytes. A section isn't numbered yet.
    pub fn new(malformed: &Malformed, at: usize, len: usize) -> Refusal
        ensures at { result.at ≡ at }
        ensures from { at ≤ result.offset }
        ensures to { at ≤ len → result.offset ≤ len }
        ensures item { result.item ≡ malformed.now.item }
    {
        let offset = len.saturating_sub(malformed.left).max(at);
        Refusal {
            at,
            offset,
            body: malformed.body.map(|left| len.saturating_sub(left)),
            section: malformed.section.map(|id| SectionPlace { number: 0, id }),
            item: malformed.item,
            local_group: malformed.local_group,
            instruction: malformed.instruction.map(|left| len.saturating_sub(left)),
            reason: malformed.reason,
        }
    }

    /// Returns the refusal at `at`, in bytes with `count` more in front.
    pub fn behind(self, at: usize, count: usize) -> Refusal
        ensures at { result.at ≡ at }
        ensures from { at ≡ count + self.at → self.at ≤ self.offset → at ≤ result.offset }
        ensures to { result.offset ≤ count + self.offset }
    {
        Refusal {
            at,
            offset: self.offset.saturating_add(count),
            body: self.body.map(|offset| offset.saturating_add(count)),
            instruction: self.instruction.map(|offset| offset.saturating_add(count)),
            ..self
        }
    }
}

impl fmt::Display for Refusal {
    fn fmt<W: fmt::Write>(&self, f: &mut fmt::Formatter<W>) -> fmt::Result {
        let mut item_name = "item";
        if let Some(place) = self.section {
            match section_names(place.id) {
                Some(names) => {
                    write!(f, "{} section, ", names.section)?;
                    item_name = names.item;
                }
                None => write!(f, "section {}, ", place.number)?,
            }
        }
        if let Some(index) = self.item {
            write!(f, "{item_name} {index}, ")?;
        }
        if let Some(group) = self.local_group {
            write!(f, "local group {group}, ")?;
        }
        write!(f, "offset {:#x}: {}", self.offset, self.reason)
    }
}
