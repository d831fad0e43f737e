//! The parts in which two modules differ, as text.
use crate::listing::{
    Differences, DifferentPart, HeadText, ItemText, Lines, Part, SectionHead, Side, Stop,
};
use crate::sections::SectionTitle;
use std::alloc::Global;
use std::fmt::Write;
use std::{fmt, io};
use wasm_codec::reader::names::section_names;

/// A writer of the parts that differ as text.
#[derive(Drop)]
pub struct DifferentLines<'w, W> {
    alloc: Global,
    writer: &'w mut W,
    /// Whether the first part ends the list.
    only_first: bool,
}

impl<'w, W: io::Write> DifferentLines<'w, W> {
    /// Returns a writer of lines.
    pub fn new(alloc: Global, writer: &'w mut W) -> DifferentLines<'w, W> {
        DifferentLines {
            alloc,
            writer,
            only_first: false,
        }
    }

    /// Returns a writer of the lines of the first part. It then ends the list with `Enough`.
    pub fn of_first(alloc: Global, writer: &'w mut W) -> DifferentLines<'w, W> {
        DifferentLines {
            alloc,
            writer,
            only_first: true,
        }
    }

    /// Returns a writer of the lines of a module.
    fn lines(&mut self, side: Side) -> Lines<'_, W> {
        Lines::led_by(self.writer, lead_of(side))
    }
}

/// Returns what each line of a module begins with.
fn lead_of(side: Side) -> char {
    match side {
        Side::First => '-',
        Side::Second => '+',
    }
}

impl<W: io::Write> Differences for DifferentLines<'_, W> {
    fn part(&mut self, part: &DifferentPart<'_>) -> Result<(), Stop> {
        writeln!(self.writer, "{}", PartTitle(part))?;
        Ok(())
    }

    fn section(&mut self, side: Side, head: &SectionHead<'_>) -> Result<(), Stop> {
        let (alloc, lead) = (self.alloc, lead_of(side));
        let text = HeadText(head);
        self.lines(side)
            .plain(&format_args!("{lead}{}", InWords { alloc, text: &text }))
    }

    fn item(&mut self, side: Side, part: &Part<'_>, text: &ItemText<'_>) -> Result<(), Stop> {
        let alloc = self.alloc;
        self.lines(side).item_of(part, &InWords { alloc, text })
    }

    fn code<T: fmt::Display>(&mut self, side: Side, part: &Part<'_>, text: &T) -> Result<(), Stop> {
        let alloc = self.alloc;
        self.lines(side).code_of(part, &InWords { alloc, text })
    }

    fn row(&mut self, side: Side, part: &Part<'_>) -> Result<(), Stop> {
        self.lines(side).row_of(part)
    }

    fn side_end(&mut self) -> Result<(), Stop> {
        Ok(())
    }

    fn nothing(&mut self, _side: Side) -> Result<(), Stop> {
        Ok(())
    }

    fn part_end(&mut self) -> Result<(), Stop> {
        if self.only_first {
            return Err(Stop::Enough);
        }
        Ok(())
    }
}

/// The title of a part that differs.
#[derive(Clone, Copy)]
struct PartTitle<'a, 'p>(&'p DifferentPart<'a>);

impl fmt::Display for PartTitle<'_, '_> {
    fn fmt<W: fmt::Write>(&self, f: &mut fmt::Formatter<W>) -> fmt::Result {
        let part = self.0;
        write!(f, "{} section", SectionTitle(part.section))?;
        if let Some(number) = part.item {
            let item = match section_names(part.section.id) {
                Some(names) => names.item,
                None => "item",
            };
            write!(f, ", {item} {number}")?;
        }
        match (part.in_first, part.in_second) {
            (true, false) => write!(f, ": only in the first module"),
            (false, true) => write!(f, ": only in the second module"),
            _ => Ok(()),
        }
    }
}

/// A text that is written word by word, whatever its pieces are, so that it's known whether a line has room for a word.
#[derive(Clone, Copy)]
struct InWords<'t, T> {
    alloc: Global,
    text: &'t T,
}

impl<T: fmt::Display> fmt::Display for InWords<'_, T> {
    fn fmt<W: fmt::Write>(&self, f: &mut fmt::Formatter<W>) -> fmt::Result {
        let mut words = Words {
            to: f,
            held: String::new(self.alloc),
        };
        write!(words, "{}", self.text)?;
        words.pass_on()
    }
}

/// Number of bytes of a word that fill a line, whatever its characters are.
const LONGEST: usize = 320;

/// A writer that passes on whole words. It holds a word up to the length of a line.
#[derive(Drop)]
struct Words<'f, W> {
    to: &'f mut fmt::Formatter<W>,
    held: String,
}

impl<W: fmt::Write> Words<'_, W> {
    /// Passes on what is held.
    fn pass_on(&mut self) -> fmt::Result {
        self.to.write_str(self.held.as_str())?;
        self.held.clear();
        Ok(())
    }
}

impl<W: fmt::Write> fmt::Write for Words<'_, W> {
    fn write_str(&mut self, text: &str) -> fmt::Result {
        for character in text.chars() {
            if self.held.push(character).is_err() {
                return Err(fmt::Error);
            }
            if character == ' ' || self.held.len() >= LONGEST {
                self.pass_on()?;
            }
        }
        Ok(())
    }
}
