//! The sections of a module: their offsets, and their titles in messages.
ghost use Rattle.std.specs.Iterator.{at_most};
ghost use Rattle.std.specs.Prelude.{◌≡◌, ⊤};
ghost use Rattle.wasm_code.specs.formats.Sections.{parts_of};
ghost use Rattle.wasm_lists.specs.ItemReading.{most_left};
ghost use Rattle.wasm_listing.specs.Ranks.{rank};

use escaped_text::Escaped;
use std::alloc::Global;
use std::fmt;
use wasm_code::section::RawSection;
use wasm_code::sections::read_sections;
use wasm_codec::encode::leb128::u32_len;
use wasm_codec::reader::cursor::Cursor;
use wasm_codec::reader::names::section_names;
use wasm_lists::item_reader::ItemReader;
use wasm_modules::counting::ItemCounts;
use wasm_modules::selection::custom_name;

const DATA_COUNT_SECTION: u8 = 12;

const TAG_SECTION: u8 = 13;

/// A section and its offset in the module.
#[derive(Clone, Copy)]
pub struct LocatedSection<'a> {
    /// Offset of the section's id, in bytes from the start of the module.
    pub at: usize,
    /// Length in bytes, including the id and the size.
    pub len: usize,
    /// The id and the body.
    pub section: RawSection<'a>,
}

impl LocatedSection<'_> {
    /// Returns the offset in the module of this offset in the body.
    pub fn offset_of(&self, in_body: usize) -> usize {
        self.at
            .saturating_add(self.header_len())
            .saturating_add(in_body)
    }

    /// Checks whether the size isn't minimally encoded.
    pub fn has_longer_size(&self) -> bool {
        let size = u32::try_from(self.section.body.len()).unwrap_or(u32::MAX);
        self.header_len() > 1 + u32_len(size)
    }

    /// Returns the length in bytes of the id and the size.
    fn header_len(&self) -> usize {
        self.len.saturating_sub(self.section.body.len())
    }
}

/// The sections of a module one after another, up to the first malformed one.
#[derive(Drop)]
pub struct SectionWalk<'a> {
    sections: ItemReader<'a, RawSection<'a>>,
}

impl<'a> SectionWalk<'a> {
    /// Begins at the first section. A module without a header has none.
    pub fn new(alloc: Global, module: &'a [u8]) -> SectionWalk<'a> {
        match read_sections(alloc, module) {
            Ok(sections) => SectionWalk { sections },
            Err(_) => SectionWalk::behind_header(alloc, &[]),
        }
    }

    /// Begins at the first of sections without a header. Their offsets are those in `bytes`.
    pub fn behind_header(alloc: Global, bytes: &'a [u8]) -> SectionWalk<'a> {
        SectionWalk {
            sections: ItemReader::to_end(alloc, bytes),
        }
    }
}

impl<'a> Iterator for SectionWalk<'a> {
    type Item = LocatedSection<'a>;

    ghost next_gives = { λ _ _ _. ⊤ };

    ghost remaining = { λ walk. at_most (most_left walk.sections) };

    fn next(&mut self) -> Option<LocatedSection<'a>> {
        match self.sections.next()? {
            Ok((at, section)) => Some(LocatedSection {
                at,
                len: self.sections.offset().saturating_sub(at),
                section,
            }),
            Err(_) => None,
        }
    }
}

/// Counts the one item of a section that isn't a list: the number at the start of its body. `None` means that there is no
/// number.
pub fn count_number(body: &[u8]) -> Option<ItemCounts> {
    longer_number(body).map(|longer| ItemCounts {
        count: 1,
        longer: u32::from(longer),
    })
}

/// Checks whether sections with this id are lists of items. Custom, start and data count sections are not.
pub fn has_list(id: u8) -> bool {
    !matches!(id, 0 | 8 | 12)
}

/// Returns the position of a section in the standard's order. Returns 0 for a custom section, which may come anywhere.
pub fn rank(section: &RawSection<'_>) -> u16
    ensures { result ≡ rank (parts_of section.now) }
{
    let id = section.id;
    if id == TAG_SECTION {
        11 // after memories, whose id is 5
    } else if id == DATA_COUNT_SECTION {
        19 // after elements, whose id is 9
    } else {
        2 * u16::from(id)
    }
}

/// Checks whether the number at the start of the bytes is not minimally encoded. `None` means that there is no number.
pub fn longer_number(bytes: &[u8]) -> Option<bool> {
    let mut cursor = Cursor::new(bytes);
    match cursor.u32() {
        Ok(_) => Some(!cursor.is_minimal()),
        Err(_) => None,
    }
}

/// Returns the name of this section id. Returns an empty text if the id is unknown.
pub fn kind_name(id: u8) -> &'static str {
    match section_names(id) {
        Some(names) => names.section,
        None => "",
    }
}

/// A section's title in messages: its kind, and the name of a custom section.
#[derive(Clone, Copy)]
pub struct SectionTitle<'a>(pub RawSection<'a>);

impl fmt::Display for SectionTitle<'_> {
    fn fmt<W: fmt::Write>(&self, f: &mut fmt::Formatter<W>) -> fmt::Result {
        match section_names(self.0.id) {
            Some(names) => write!(f, "{}", names.section)?,
            None => write!(f, "id {}", self.0.id)?,
        }
        match custom_name(self.0) {
            Some(name) => write!(f, " \"{}\"", Escaped(name)),
            None => Ok(()),
        }
    }
}
