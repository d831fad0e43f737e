//! The first difference between two canonical forms.
ghost use Rattle.std.specs.Prelude.{◌≡◌, IfSome, IfNone};

use crate::sections::{LocatedSection, SectionTitle, SectionWalk};
use std::alloc::Global;
use std::fmt;

/// The first sections that differ.
#[derive(Clone, Copy)]
pub struct Difference<'a> {
    /// Number of equal sections before them.
    number: usize,
    /// The section of the first module. `None` means that it has no more sections.
    first: Option<LocatedSection<'a>>,
    /// The section of the second module. `None` means that it has no more sections.
    second: Option<LocatedSection<'a>>,
}

/// The place of a difference.
#[derive(Clone, Copy)]
pub struct DifferentPlace {
    /// Number of equal sections before it.
    pub section: usize,
    /// Id of the sections that differ. `None` means that they have different ids.
    pub id: Option<u8>,
    /// Offset in the first canonical form. `None` means that it has no more sections.
    pub first: Option<usize>,
    /// Offset in the second canonical form. `None` means that it has no more sections.
    pub second: Option<usize>,
}

impl Difference<'_> {
    /// Returns the place of the difference.
    pub fn place(&self) -> DifferentPlace {
        let (id, first, second) = match (self.first, self.second) {
            (Some(first), Some(second)) if first.section.id == second.section.id => {
                let common = common_len(first.section.body, second.section.body);
                let (here, there) = (first.offset_of(common), second.offset_of(common));
                (Some(first.section.id), Some(here), Some(there))
            }
            (Some(first), Some(second)) => (None, Some(first.at), Some(second.at)),
            (Some(only), None) => (Some(only.section.id), Some(only.at), None),
            (None, Some(only)) => (Some(only.section.id), None, Some(only.at)),
            (None, None) => (None, None, None),
        };
        DifferentPlace {
            section: self.number,
            id,
            first,
            second,
        }
    }
}

/// Finds the first difference between two canonical forms. Returns `None` if they are equal.
pub fn find_difference<'a>(
    alloc: Global,
    first: &'a [u8],
    second: &'a [u8],
) -> Option<Difference<'a>>
    // `None` means that they are equal.
    ensures same { IfNone result (first.now ≡ second.now) }
    // A difference means that they are not.
    ensures differ { IfSome result (λ _. first.now ≡ second.now → ⊥) }
{
    if first == second {
        return None;
    }
    Some(difference_of(alloc, first, second))
}

/// Finds the first sections that differ.
fn difference_of<'a>(alloc: Global, first: &'a [u8], second: &'a [u8]) -> Difference<'a> {
    let mut firsts = SectionWalk::new(alloc, first);
    let mut seconds = SectionWalk::new(alloc, second);
    for number in 0..first.len() {
        let (one, other) = (firsts.next(), seconds.next());
        match (one, other) {
            (Some(here), Some(there)) if is_same(&here, &there) => {}
            _ => {
                return Difference {
                    number,
                    first: one,
                    second: other,
                };
            }
        }
    }
    Difference {
        number: first.len(),
        first: None,
        second: None,
    }
}

/// Checks whether two sections have the same id and the same body.
fn is_same(first: &LocatedSection<'_>, second: &LocatedSection<'_>) -> bool {
    first.section.id == second.section.id && first.section.body == second.section.body
}

/// Returns the length of the longest common prefix.
pub(crate) fn common_len(first: &[u8], second: &[u8]) -> usize {
    let differ = first
        .iter()
        .zip(second)
        .position(|(one, other)| one != other);
    differ.unwrap_or(first.len().min(second.len()))
}

impl fmt::Display for Difference<'_> {
    fn fmt<W: fmt::Write>(&self, f: &mut fmt::Formatter<W>) -> fmt::Result {
        match (self.first, self.second) {
            (Some(first), Some(second)) if first.section.id == second.section.id => {
                write_bodies(f, &first, &second)
            }
            (Some(first), Some(second)) => write_sections(f, self.number, &first, &second),
            (Some(only), None) => write_only(f, &only, "first"),
            (None, Some(only)) => write_only(f, &only, "second"),
            (None, None) => f.write_str("bytes after the last section"),
        }
    }
}

/// Writes that the bodies of two sections with one id differ.
fn write_bodies<W: fmt::Write>(
    f: &mut fmt::Formatter<W>,
    first: &LocatedSection<'_>,
    second: &LocatedSection<'_>,
) -> fmt::Result {
    let title = SectionTitle(first.section);
    let common = common_len(first.section.body, second.section.body);
    let (here, there) = (first.offset_of(common), second.offset_of(common));
    write!(
        f,
        "{title} section, offset {here:#x} in the first canonical form, offset {there:#x} in the second"
    )
}

/// Writes that two sections with this number have different ids.
fn write_sections<W: fmt::Write>(
    f: &mut fmt::Formatter<W>,
    number: usize,
    first: &LocatedSection<'_>,
    second: &LocatedSection<'_>,
) -> fmt::Result {
    let (at, here, there) = (
        first.at,
        SectionTitle(first.section),
        SectionTitle(second.section),
    );
    write!(
        f,
        "section {number}, offset {at:#x}: {here} in the first canonical form, {there} in the second"
    )
}

/// Writes that only one canonical form has a section.
fn write_only<W: fmt::Write>(
    f: &mut fmt::Formatter<W>,
    only: &LocatedSection<'_>,
    side: &str,
) -> fmt::Result {
    let (title, at) = (SectionTitle(only.section), only.at);
    write!(
        f,
        "{title} section, offset {at:#x}: only in the {side} canonical form"
    )
}
