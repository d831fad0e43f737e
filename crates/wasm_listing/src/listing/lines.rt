//! The listing as text, in lines of at most 80 columns if names, numbers and nesting allow it.
use crate::listing::{
    CustomText, FunctionHead, Instruction, ItemName, ItemText, Listing, LocalsText, Longer,
    Nesting, Part, SectionHead, Stop,
};
use crate::sections::SectionTitle;
use escaped_text::Escaped;
use std::fmt::Write;
use std::{fmt, io};
use wasm_codec::reader::names::section_names;
use wasm_types::types::ValType;

/// Number of columns of a terminal.
const WIDTH: usize = 80;

/// Number of bytes in a line of code.
const CODE_BYTES: usize = 9;

/// Number of bytes in a line of data.
const DATA_BYTES: usize = 16;

/// Number of nested blocks up to which a line is indented.
const DEEPEST: usize = 12;

/// Column of the text of an item.
const ITEM_COLUMN: usize = 17;

/// Column of the text of an instruction.
const CODE_COLUMN: usize = 38;

/// A writer of the listing as text.
#[derive(Drop)]
pub struct Lines<'w, W> {
    writer: &'w mut W,
    /// What each line of an item begins with.
    lead: char,
    /// Number of open blocks.
    depth: usize,
}

impl<'w, W: io::Write> Lines<'w, W> {
    /// Returns a writer of lines.
    pub fn new(writer: &'w mut W) -> Lines<'w, W> {
        Lines::led_by(writer, ' ')
    }

    /// Returns a writer of lines that begin with `lead` in place of a space.
    pub fn led_by(writer: &'w mut W, lead: char) -> Lines<'w, W> {
        Lines {
            writer,
            lead,
            depth: 0,
        }
    }

    /// Writes a line without a place.
    pub fn plain<D: fmt::Display>(&mut self, text: &D) -> Result<(), Stop> {
        let mut line = Line::new(self.writer, 0, &[]);
        let written = write!(line, "{text}");
        line.finish(written)
    }

    /// Writes the offset and the length of an item, and then this text.
    pub fn item_of<D: fmt::Display>(&mut self, part: &Part<'_>, text: &D) -> Result<(), Stop> {
        begin_item(self.writer, self.lead, part)?;
        let mut line = Line::new(self.writer, ITEM_COLUMN, &[]);
        let written = write!(line, "{text}{}", Mark("", part.longer()));
        line.finish(written)
    }

    /// Writes the offset and the bytes of a part of a function, and then this text.
    pub fn code_of<D: fmt::Display>(&mut self, part: &Part<'_>, text: &D) -> Result<(), Stop> {
        let left = begin_code(self.writer, self.lead, part, 0)?;
        let mut line = Line::new(self.writer, CODE_COLUMN, left);
        let written = write!(line, "{text}{}", Mark("", part.longer()));
        line.finish(written)
    }

    /// Writes up to 16 bytes of data and their offset.
    pub fn row_of(&mut self, part: &Part<'_>) -> Result<(), Stop> {
        write_row(self.writer, self.lead, part.at, part.bytes)?;
        Ok(())
    }
}

/// Writes the offset and the length of an item.
fn begin_item<W: io::Write>(writer: &mut W, lead: char, part: &Part<'_>) -> io::Result<()> {
    let (at, len) = (part.at, part.bytes.len());
    write!(writer, "{lead}{at:06x} {len:>6} | ")
}

/// Writes the offset and the first bytes of a part of a function, and the indentation. Returns the other bytes.
fn begin_code<'b, W: io::Write>(
    writer: &mut W,
    lead: char,
    part: &Part<'b>,
    indent: usize,
) -> io::Result<&'b [u8]> {
    let at = part.at;
    write!(writer, "{lead}{at:06x}:")?;
    let left = write_bytes(writer, part.bytes)?;
    write!(writer, " | {:indent$}", "")?;
    Ok(left)
}

/// Writes a space and the two hexadecimal digits of a byte.
fn write_byte<W: io::Write>(writer: &mut W, byte: u8) -> io::Result<()> {
    writer.write_all(&[b' ', hex_digit(byte / 16), hex_digit(byte % 16)])
}

fn hex_digit(digit: u8) -> u8 {
    let first = if digit < 10 { b'0' } else { b'a' - 10 };
    first.saturating_add(digit)
}

/// Writes up to nine bytes, and blanks in place of others. Returns the bytes that are left.
fn write_bytes<'b, W: io::Write>(writer: &mut W, bytes: &'b [u8]) -> io::Result<&'b [u8]> {
    let (now, left) = bytes.split_at(bytes.len().min(CODE_BYTES));
    for byte in now {
        write_byte(writer, *byte)?;
    }
    let blanks = CODE_BYTES.saturating_sub(now.len()).saturating_mul(3);
    write!(writer, "{:blanks$}", "")?;
    Ok(left)
}

impl<W: io::Write> Listing for Lines<'_, W> {
    fn section(&mut self, head: &SectionHead<'_>) -> Result<(), Stop> {
        self.plain(&HeadText(head))
    }

    fn item(&mut self, part: &Part<'_>, text: &ItemText<'_>) -> Result<(), Stop> {
        self.item_of(part, text)
    }

    fn custom_item(&mut self, part: &Part<'_>, text: &CustomText<'_>) -> Result<(), Stop> {
        self.item_of(part, text)
    }

    fn contents(&mut self, at: usize, bytes: &[u8]) -> Result<(), Stop> {
        for (number, row) in bytes.chunks(DATA_BYTES).enumerate() {
            let at = at.saturating_add(number.saturating_mul(DATA_BYTES));
            write_row(self.writer, self.lead, at, row)?;
        }
        Ok(())
    }

    fn function(&mut self, head: &FunctionHead<'_>) -> Result<(), Stop> {
        self.depth = 0;
        begin_item(self.writer, self.lead, &head.part)?;
        let mut line = Line::new(self.writer, ITEM_COLUMN, &[]);
        let text = ItemText::Body(head.index, head.name);
        let (size, groups) = (Mark("size ", head.size), Mark("local groups ", head.groups));
        let written = write!(line, "{text}{size}{groups}");
        line.finish(written)
    }

    fn locals(&mut self, part: &Part<'_>, count: u32, ty: ValType) -> Result<(), Stop> {
        let left = begin_code(self.writer, self.lead, part, 0)?;
        let mut line = Line::new(self.writer, CODE_COLUMN, left);
        let text = LocalsText(count, ty);
        let written = write!(line, "{text}{}", Mark("", part.longer()));
        line.finish(written)
    }

    fn call(
        &mut self,
        part: &Part<'_>,
        instruction: &Instruction<'_>,
        name: Option<ItemName<'_>>,
    ) -> Result<(), Stop> {
        let nesting = Nesting::of(instruction.op());
        let depth = nesting.own_depth(self.depth);
        self.depth = nesting.next_depth(self.depth);
        let indent = depth.min(DEEPEST).saturating_mul(2);
        let left = begin_code(self.writer, self.lead, part, indent)?;
        let mut line = Line::new(self.writer, CODE_COLUMN.saturating_add(indent), left);
        let written = match name {
            Some(name) => write!(line, "{instruction} {}", ShortName(name)),
            None => write!(line, "{instruction}"),
        };
        let written = match written {
            Ok(()) => write!(line, "{}", Mark("", part.longer())),
            failed => failed,
        };
        line.finish(written)
    }

    fn function_end(&mut self) -> Result<(), Stop> {
        Ok(())
    }

    fn section_end(&mut self) -> Result<(), Stop> {
        Ok(())
    }
}

/// The line of a section.
#[derive(Clone, Copy)]
pub struct HeadText<'a, 'h>(pub &'h SectionHead<'a>);

impl fmt::Display for HeadText<'_, '_> {
    fn fmt<W: fmt::Write>(&self, f: &mut fmt::Formatter<W>) -> fmt::Result {
        let head = self.0;
        let (number, located) = (head.number, head.located);
        let title = SectionTitle(located.section);
        let (at, len) = (located.at, located.len);
        write!(f, "section {number}: {title}, offset {at:#x}, {len} bytes")?;
        let item = match section_names(located.section.id) {
            Some(names) => names.item,
            None => "item",
        };
        if let Some(count) = head.count {
            let plural = if count == 1 { "" } else { "s" };
            write!(f, ", {count} {item}{plural}")?;
        }
        let first = if head.count.is_some() {
            "count "
        } else {
            "name length "
        };
        write!(f, "{}{}", Mark("size ", head.size), Mark(first, head.first))
    }
}

/// The mark of a part that isn't minimally encoded: what the part is, and its lengths.
#[derive(Clone, Copy)]
struct Mark(&'static str, Option<Longer>);

impl fmt::Display for Mark {
    fn fmt<W: fmt::Write>(&self, f: &mut fmt::Formatter<W>) -> fmt::Result {
        let Some(Longer { bytes, minimal }) = self.1 else {
            return Ok(());
        };
        write!(f, "; {}{bytes} bytes, minimal is {minimal}", self.0)
    }
}

/// A name of an item that an instruction refers to. A long one is cut.
#[derive(Clone, Copy)]
struct ShortName<'a>(ItemName<'a>);

/// Number of characters of a short name.
const SHORT: usize = 24;

/// Number of columns for `<`, `>` and the two points of a name that is cut.
const NAME_MARKS: usize = 4;

impl fmt::Display for ShortName<'_> {
    fn fmt<W: fmt::Write>(&self, f: &mut fmt::Formatter<W>) -> fmt::Result {
        match self.0 {
            ItemName::Given(name) => write!(f, "<{}>", ShortText(name)),
            ItemName::Imported(module, field) => {
                write!(f, "<{}.{}>", ShortText(module), ShortText(field))
            }
        }
    }
}

/// Text of a name. A long one is cut.
#[derive(Clone, Copy)]
struct ShortText<'a>(&'a str);

impl fmt::Display for ShortText<'_> {
    fn fmt<W: fmt::Write>(&self, f: &mut fmt::Formatter<W>) -> fmt::Result {
        let text = self.0;
        match text.char_indices().nth(SHORT) {
            Some((end, _)) => write!(f, "{}..", Escaped(text.get(..end).unwrap_or(text))),
            None => write!(f, "{}", Escaped(text)),
        }
    }
}

/// Writes a line of data: its offset, the bytes, and those that are characters of ASCII.
fn write_row<W: io::Write>(writer: &mut W, lead: char, at: usize, row: &[u8]) -> io::Result<()> {
    write!(writer, "{lead} {at:06x}:")?;
    for byte in row {
        write_byte(writer, *byte)?;
    }
    let blanks = DATA_BYTES.saturating_sub(row.len()).saturating_mul(3);
    writeln!(writer, "{:blanks$} | {}", "", Characters(row))
}

/// Bytes as characters of ASCII, with points in place of others.
#[derive(Clone, Copy)]
struct Characters<'a>(&'a [u8]);

impl fmt::Display for Characters<'_> {
    fn fmt<W: fmt::Write>(&self, f: &mut fmt::Formatter<W>) -> fmt::Result {
        for byte in self.0 {
            let shown = if matches!(*byte, b' '..=b'~') {
                *byte
            } else {
                b'.'
            };
            write!(f, "{}", char::from(shown))?;
        }
        Ok(())
    }
}

/// A line that goes on in further lines, with the bytes that the first one has no room for beside them.
#[derive(Drop)]
struct Line<'l, 'b, W> {
    writer: &'l mut W,
    /// Column of the text.
    margin: usize,
    column: usize,
    /// Number of spaces before the next word. It goes into a further line if this one has no room for it.
    blanks: usize,
    /// Whether `<` comes before the next word. It stays with the start of a name.
    opens_name: bool,
    /// The bytes of an instruction that aren't written yet.
    bytes: &'b [u8],
    error: Option<io::Error>,
}

impl<'l, 'b, W: io::Write> Line<'l, 'b, W> {
    /// Returns a line that has this many columns already.
    fn new(writer: &'l mut W, margin: usize, bytes: &'b [u8]) -> Line<'l, 'b, W> {
        Line {
            writer,
            margin,
            column: margin,
            blanks: 0,
            opens_name: false,
            bytes,
            error: None,
        }
    }

    /// Begins a further line.
    fn go_on(&mut self) -> io::Result<()> {
        writeln!(self.writer)?;
        if self.margin < CODE_COLUMN {
            write!(self.writer, "{:1$}", "", self.margin.saturating_add(2))?;
        } else {
            self.write_more_bytes()?;
            let indent = self.margin.saturating_sub(CODE_COLUMN).saturating_add(2);
            write!(self.writer, " | {:indent$}", "")?;
        }
        self.column = self.margin.saturating_add(2);
        Ok(())
    }

    /// Writes the next bytes into a further line.
    fn write_more_bytes(&mut self) -> io::Result<()> {
        write!(self.writer, "{:8}", "")?;
        self.bytes = write_bytes(self.writer, self.bytes)?;
        Ok(())
    }

    /// Writes a text, with further lines in place of spaces before words that this line has no room for.
    fn write_text(&mut self, text: &str) -> io::Result<()> {
        let words = match text.strip_suffix("<") {
            Some(words) if words.is_empty() || words.ends_with(" ") => words,
            _ => return self.write_words(text),
        };
        self.write_words(words)?;
        if self.opens_name {
            self.write_word("")?;
        }
        self.opens_name = true;
        Ok(())
    }

    /// Writes words and the spaces between them.
    fn write_words(&mut self, text: &str) -> io::Result<()> {
        for (number, word) in text.split(' ').enumerate() {
            if number > 0 {
                if self.opens_name {
                    self.write_word("")?;
                }
                self.blanks = self.blanks.saturating_add(1);
            }
            if !word.is_empty() {
                self.write_word(word)?;
            }
        }
        Ok(())
    }

    /// Writes a word after the spaces before it.
    fn write_word(&mut self, word: &str) -> io::Result<()> {
        let opening = if self.opens_name { "<" } else { "" };
        self.opens_name = false;
        self.write_blanks(room_for(word).saturating_add(opening.len().saturating_mul(NAME_MARKS)))?;
        self.writer.write_all(opening.as_bytes())?;
        self.writer.write_all(word.as_bytes())?;
        let columns = opening.len().saturating_add(word.chars().count());
        self.column = self.column.saturating_add(columns);
        Ok(())
    }

    /// Writes the spaces before a word that needs this many columns, or begins a further line.
    fn write_blanks(&mut self, room: usize) -> io::Result<()> {
        let blanks = self.blanks;
        self.blanks = 0;
        if blanks == 0 {
            return Ok(());
        }
        let start = self.column.saturating_add(blanks);
        if start.saturating_add(room) > WIDTH {
            return self.go_on();
        }
        self.column = start;
        write!(self.writer, "{:blanks$}", "")
    }

    /// Ends the line, once its text was written. Writes the bytes that are left into further lines.
    fn finish(&mut self, written: fmt::Result) -> Result<(), Stop> {
        if let Some(error) = self.error.take() {
            return Err(Stop::from(error));
        }
        // Texts are read while they are written, which needs memory.
        if written.is_err() {
            return Err(Stop::Memory);
        }
        for _ in 0..self.bytes.len() {
            if self.bytes.is_empty() {
                break;
            }
            writeln!(self.writer)?;
            self.write_more_bytes()?;
            write!(self.writer, " |")?;
        }
        writeln!(self.writer)?;
        Ok(())
    }
}

/// Returns the number of columns that a word needs. More of it follows after an opening mark and after `0x`.
fn room_for(word: &str) -> usize {
    let more = match word.chars().next_back() {
        Some('=') if word == "offset=" => 7,
        Some('=') if word == "align=" => 2,
        Some('(' | '[' | '"' | '=') => 14,
        Some('x') => 8,
        _ => 1,
    };
    word.chars().count().saturating_add(more)
}

impl<W: io::Write> fmt::Write for Line<'_, '_, W> {
    fn write_str(&mut self, text: &str) -> fmt::Result {
        match self.write_text(text) {
            Ok(()) => Ok(()),
            Err(error) => {
                self.error = Some(error);
                Err(fmt::Error)
            }
        }
    }
}
