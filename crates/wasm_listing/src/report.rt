//! The report: the size of each section before and after, and the number of encodings that are not minimal.
use crate::json::{Object, text_value};
use crate::listing::Stop;
use crate::sections::{
    LocatedSection, SectionTitle, SectionWalk, count_number, has_list, kind_name, longer_number,
};
use escaped_text::JsonText;
use serde_json::Value;
use std::alloc::{AllocError, Global};
use std::{fmt, io};
use wasm_code::decode::normalise;
use wasm_code::section::{HEADER, RawSection};
use wasm_codec::encode::leb128::u32_len;
use wasm_codec::reader::DecodeError;
use wasm_custom_sections::contents::{Decoded, contents_of};
use wasm_custom_sections::names::NameSection;
use wasm_custom_sections::producers::ProducersSection;
use wasm_modules::counting::{ItemCounts, SectionWatcher};
use wasm_modules::selection::custom_name;
use wasm_sections::custom::read_custom;

/// A writer of the report of a module, which is rewritten meanwhile: a row for each section, and then the totals.
#[derive(Drop)]
pub struct Report<'w, W> {
    alloc: Global,
    writer: &'w mut W,
    /// Whether the report is written as JSON.
    json: bool,
    /// Whether the contents of sections `name` and `producers` get their minimal encoding too.
    names: bool,
    /// The section that is being rewritten, if its row isn't written yet.
    next: Option<SectionFacts>,
    totals: Totals,
    /// Why the report ends before the last section.
    stop: Option<Stop>,
}

/// What is known of a section before it is rewritten.
#[derive(Clone, Copy)]
struct SectionFacts {
    id: u8,
    /// Length in bytes, including the id and the size.
    len: usize,
    /// The one item of a section that isn't a list.
    number: Option<ItemCounts>,
    /// Whether the size is not minimally encoded.
    has_longer_size: bool,
    /// Whether the section is a list whose count is not minimally encoded.
    has_longer_count: bool,
}

/// A section, its size in the canonical form, and the encodings in it that are not minimal.
#[derive(Clone, Copy)]
struct ReportRow<'a> {
    /// Number of sections before it.
    number: usize,
    /// The section's id, and its body if it is a custom section.
    section: RawSection<'a>,
    facts: SectionFacts,
    after: usize,
    items: ItemCounts,
}

/// The sums over all sections so far.
#[derive(Clone, Copy)]
struct Totals {
    sections: usize,
    before: usize,
    after: usize,
    items: Tally,
    sizes: Tally,
    counts: Tally,
}

/// The number of encodings of one kind, and how many are not minimal.
#[derive(Clone, Copy)]
struct Tally {
    longer: u64,
    of: u64,
}

impl Tally {
    const NONE: Tally = Tally { longer: 0, of: 0 };

    /// Adds to both numbers.
    fn with(self, longer: u64, of: u64) -> Tally {
        Tally {
            longer: self.longer.saturating_add(longer),
            of: self.of.saturating_add(of),
        }
    }
}

impl Totals {
    /// Returns the sums of a module without sections.
    fn new() -> Totals {
        Totals {
            sections: 0,
            before: HEADER.len(),
            after: HEADER.len(),
            items: Tally::NONE,
            sizes: Tally::NONE,
            counts: Tally::NONE,
        }
    }

    /// Returns the sums with one more section.
    fn with(self, row: &ReportRow<'_>) -> Totals {
        let (facts, items) = (row.facts, row.items);
        Totals {
            sections: self.sections.saturating_add(1),
            before: self.before.saturating_add(facts.len),
            after: self.after.saturating_add(row.after),
            items: self
                .items
                .with(u64::from(items.longer), u64::from(items.count)),
            sizes: self.sizes.with(u64::from(facts.has_longer_size), 1),
            counts: self.counts.with(
                u64::from(facts.has_longer_count),
                u64::from(has_list(facts.id)),
            ),
        }
    }
}

impl SectionFacts {
    /// Returns what is known of a section.
    fn new(located: &LocatedSection<'_>) -> SectionFacts {
        let RawSection { id, body } = located.section;
        let is_list = has_list(id);
        SectionFacts {
            id,
            len: located.len,
            number: if is_list { None } else { count_number(body) },
            has_longer_size: located.has_longer_size(),
            has_longer_count: is_list && longer_number(body) == Some(true),
        }
    }
}

impl<'w, W: io::Write> Report<'w, W> {
    /// Returns the writer of a report.
    pub fn new(alloc: Global, writer: &'w mut W, json: bool, names: bool) -> Report<'w, W> {
        Report {
            alloc,
            writer,
            json,
            names,
            next: None,
            totals: Totals::new(),
            stop: None,
        }
    }

    /// Writes what precedes the rows.
    pub fn begin(&mut self) -> Result<(), Stop> {
        if self.json {
            write!(self.writer, "{{\"sections\":[")?;
        } else {
            writeln!(
                self.writer,
                "section {:>9} {:>9} {:>9} {:>7} {:>7}  kind",
                "before", "after", "saved", "longer", "out of"
            )?;
        }
        Ok(())
    }

    /// Fails if a row could not be written.
    pub fn stopped(&mut self) -> Result<(), Stop> {
        match self.stop.take() {
            Some(stop) => Err(stop),
            None => Ok(()),
        }
    }

    /// Writes the totals of the module in this file.
    pub fn end(&mut self, file: &str) -> Result<(), Stop> {
        if self.json {
            let file = text_value(self.alloc, file)?;
            let (before, after) = (self.totals.before, self.totals.after);
            write!(
                self.writer,
                "],\"file\":{file},\"before\":{before},\"after\":{after}}}"
            )?;
        } else {
            writeln!(self.writer, "{}", self.totals)?;
        }
        Ok(())
    }

    /// Writes the row of a section, and adds it to the totals.
    fn add_row(
        &mut self,
        facts: SectionFacts,
        section: RawSection<'_>,
        after: usize,
        items: Option<ItemCounts>,
    ) -> Result<(), Stop> {
        let row = ReportRow {
            number: self.totals.sections,
            section,
            facts,
            after,
            items: items.or(facts.number).unwrap_or(NO_ITEMS),
        };
        self.totals = self.totals.with(&row);
        if self.json {
            row.write_value(self.alloc, self.writer)
        } else {
            writeln!(self.writer, "{row}")?;
            Ok(())
        }
    }

    /// Writes the row of a custom section while its name is there. Keeps what is known of another section.
    fn look_at(&mut self, located: &LocatedSection<'_>) -> Result<(), Stop> {
        let facts = SectionFacts::new(located);
        if custom_name(located.section).is_none() {
            self.next = Some(facts);
            return Ok(());
        }
        let after = custom_len(self.alloc, located.section, self.names)?;
        self.add_row(facts, located.section, after, None)
    }

    /// Writes the row of the section that was rewritten, unless it is written already.
    fn write_next(&mut self, len: usize, counts: Option<ItemCounts>) -> Result<(), Stop> {
        match self.next.take() {
            Some(facts) => {
                let section = RawSection {
                    id: facts.id,
                    body: &[],
                };
                self.add_row(facts, section, len, counts)
            }
            None => Ok(()),
        }
    }
}

impl<W: io::Write> SectionWatcher for Report<'_, W> {
    fn before(&mut self, left: &[u8]) {
        if self.stop.is_some() {
            return;
        }
        // A malformed section has no row.
        if let Some(located) = SectionWalk::behind_header(self.alloc, left).next() {
            self.stop = self.look_at(&located).err();
        }
    }

    fn after(&mut self, len: usize, counts: Option<ItemCounts>) {
        if self.stop.is_none() {
            self.stop = self.write_next(len, counts).err();
        }
    }
}

/// The counts of a section without items.
const NO_ITEMS: ItemCounts = ItemCounts {
    count: 0,
    longer: 0,
};

/// Returns the length of a custom section's minimal encoding, including the id and the size. With `names` this is that
/// with minimal contents.
///
/// Fails if memory runs out.
fn custom_len(alloc: Global, section: RawSection<'_>, names: bool) -> Result<usize, AllocError> {
    let (name_len, contents_len) = match read_custom(section.body) {
        Ok(custom) if names => (custom.name.len(), minimal_contents_len(alloc, section)?),
        Ok(custom) => (custom.name.len(), custom.bytes.len()),
        Err(_) => (0, 0),
    };
    Ok(1usize.saturating_add(sized_len(sized_len(name_len).saturating_add(contents_len))))
}

/// Returns the length of a custom section's contents. If they are those of a section `name` or `producers`, it is that of
/// their minimal encoding.
///
/// Fails if memory runs out.
fn minimal_contents_len(alloc: Global, section: RawSection<'_>) -> Result<usize, AllocError> {
    let Ok(custom) = read_custom(section.body) else {
        return Ok(0);
    };
    let minimal = match contents_of(alloc, section)? {
        Some(Decoded::Names) => normalise::<NameSection>(alloc, custom.bytes),
        Some(Decoded::Producers) => normalise::<ProducersSection<'_>>(alloc, custom.bytes),
        None => return Ok(custom.bytes.len()),
    };
    match minimal {
        Ok(minimal) => Ok(minimal.len()),
        Err(DecodeError::Memory) => Err(AllocError),
        Err(DecodeError::Malformed(_)) => Ok(custom.bytes.len()),
    }
}

/// Returns the length of this number of bytes after their size.
fn sized_len(len: usize) -> usize {
    u32_len(u32::try_from(len).unwrap_or(u32::MAX)).saturating_add(len)
}

impl fmt::Display for Totals {
    fn fmt<W: fmt::Write>(&self, f: &mut fmt::Formatter<W>) -> fmt::Result {
        let (before, after, items) = (self.before, self.after, self.items);
        let saved = before.saturating_sub(after);
        writeln!(
            f,
            "  total {before:>9} {after:>9} {saved:>9} {:>7} {:>7}  items",
            items.longer, items.of
        )?;
        let (sizes, counts) = (self.sizes, self.counts);
        writeln!(f, "{:>45} {:>7}  section sizes", sizes.longer, sizes.of)?;
        write!(f, "{:>45} {:>7}  item counts", counts.longer, counts.of)
    }
}

impl fmt::Display for ReportRow<'_> {
    fn fmt<W: fmt::Write>(&self, f: &mut fmt::Formatter<W>) -> fmt::Result {
        let (before, title) = (self.facts.len, SectionTitle(self.section));
        let saved = before.saturating_sub(self.after);
        write!(
            f,
            "{:>7} {before:>9} {:>9} {saved:>9} {:>7} {:>7}  {title}",
            self.number, self.after, self.items.longer, self.items.count
        )
    }
}

impl ReportRow<'_> {
    /// Writes the row as JSON. The name comes last: it can be too long to copy.
    fn write_value<W: io::Write>(&self, alloc: Global, writer: &mut W) -> Result<(), Stop> {
        let text = format!(in alloc; "{}", self.value(alloc)?)?;
        let members = text.as_str().strip_suffix("}").unwrap_or("{");
        let separator = if self.number == 0 { "" } else { "," };
        write!(writer, "{separator}\n{members},\"name\":")?;
        match custom_name(self.section) {
            Some(name) => write!(writer, "{}}}", JsonText(name))?,
            None => write!(writer, "null}}")?,
        }
        Ok(())
    }

    /// Returns the row as JSON, without the name.
    fn value(&self, alloc: Global) -> Result<Value, AllocError> {
        let mut object = Object::new(alloc);
        object.put("section", self.number)?;
        object.put("id", self.facts.id)?;
        object.put("kind", kind_name(self.facts.id))?;
        object.put("before", self.facts.len)?;
        object.put("after", self.after)?;
        object.put("encodings", self.encodings_value(alloc)?)?;
        Ok(object.into_value())
    }

    /// Returns the numbers of encodings as JSON.
    fn encodings_value(&self, alloc: Global) -> Result<Value, AllocError> {
        let mut object = Object::new(alloc);
        object.put("items", self.items.count)?;
        object.put("longer_items", self.items.longer)?;
        object.put("longer_size", self.facts.has_longer_size)?;
        object.put("longer_count", self.facts.has_longer_count)?;
        Ok(object.into_value())
    }
}
