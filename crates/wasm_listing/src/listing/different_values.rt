//! The parts in which two modules differ, as JSON.
use crate::json::ObjectWriter;
use crate::listing::{
    Differences, DifferentPart, HeadText, ItemText, Part, SectionHead, Side, Stop,
};
use crate::sections::kind_name;
use std::{fmt, io};

/// A writer of the parts that differ as JSON: the values of an array, whose brackets the caller writes.
#[derive(Drop)]
pub struct DifferentValues<'w, W> {
    writer: &'w mut W,
    /// Whether a part was written.
    has_parts: bool,
    /// Whether a detail of what the module has was written.
    has_detail: bool,
}

impl<'w, W: io::Write> DifferentValues<'w, W> {
    /// Returns a writer of values.
    pub fn new(writer: &'w mut W) -> DifferentValues<'w, W> {
        DifferentValues {
            writer,
            has_parts: false,
            has_detail: false,
        }
    }
}

/// Returns the name of the member for what a module has.
fn name_of(side: Side) -> &'static str {
    match side {
        Side::First => "first",
        Side::Second => "second",
    }
}

impl<W: io::Write> Differences for DifferentValues<'_, W> {
    fn part(&mut self, part: &DifferentPart<'_>) -> Result<(), Stop> {
        if self.has_parts {
            write!(self.writer, ",")?;
        }
        self.has_parts = true;
        writeln!(self.writer)?;
        open_part(self.writer, part)?;
        Ok(())
    }

    fn section(&mut self, side: Side, head: &SectionHead<'_>) -> Result<(), Stop> {
        self.has_detail = false;
        let place = Place(head.located.at, head.located.section.body.len());
        open_object(self.writer, name_of(side), place, &HeadText(head))?;
        Ok(())
    }

    fn item(&mut self, side: Side, part: &Part<'_>, text: &ItemText<'_>) -> Result<(), Stop> {
        self.has_detail = false;
        open_object(self.writer, name_of(side), Place::of(part), text)?;
        Ok(())
    }

    fn code<T: fmt::Display>(
        &mut self,
        _side: Side,
        part: &Part<'_>,
        text: &T,
    ) -> Result<(), Stop> {
        self.has_detail = true;
        open_object(self.writer, "detail", Place::of(part), text)?;
        self.writer.write_all(b"}")?;
        Ok(())
    }

    fn row(&mut self, side: Side, part: &Part<'_>) -> Result<(), Stop> {
        self.code(side, part, &RowText(part))
    }

    fn side_end(&mut self) -> Result<(), Stop> {
        let mut object = ObjectWriter::go_on(self.writer);
        if !self.has_detail {
            object.put("detail", "null")?;
        }
        object.end()?;
        Ok(())
    }

    fn nothing(&mut self, side: Side) -> Result<(), Stop> {
        ObjectWriter::go_on(self.writer).put(name_of(side), "null")?;
        Ok(())
    }

    fn part_end(&mut self) -> Result<(), Stop> {
        self.writer.write_all(b"}")?;
        Ok(())
    }
}

/// The number of the first item that differs. It then ends the list with `Enough`.
#[derive(Drop)]
pub struct FirstItem {
    /// Number of items before it in the section. `None` means that the section differs as a whole.
    pub number: Option<u32>,
}

impl FirstItem {
    /// Returns no number.
    pub fn new() -> FirstItem {
        FirstItem { number: None }
    }
}

impl Differences for FirstItem {
    fn part(&mut self, part: &DifferentPart<'_>) -> Result<(), Stop> {
        self.number = part.item;
        Err(Stop::Enough)
    }

    fn section(&mut self, _side: Side, _head: &SectionHead<'_>) -> Result<(), Stop> {
        Ok(())
    }

    fn item(&mut self, _side: Side, _part: &Part<'_>, _text: &ItemText<'_>) -> Result<(), Stop> {
        Ok(())
    }

    fn code<T: fmt::Display>(
        &mut self,
        _side: Side,
        _part: &Part<'_>,
        _text: &T,
    ) -> Result<(), Stop> {
        Ok(())
    }

    fn row(&mut self, _side: Side, _part: &Part<'_>) -> Result<(), Stop> {
        Ok(())
    }

    fn side_end(&mut self) -> Result<(), Stop> {
        Ok(())
    }

    fn nothing(&mut self, _side: Side) -> Result<(), Stop> {
        Ok(())
    }

    fn part_end(&mut self) -> Result<(), Stop> {
        Ok(())
    }
}

/// Writes a part up to what the modules have. Its object stays open.
fn open_part<W: io::Write>(writer: &mut W, part: &DifferentPart<'_>) -> io::Result<()> {
    let mut object = ObjectWriter::new(writer);
    object.put("id", part.section.id)?;
    object.put_text("kind", &kind_name(part.section.id))?;
    let (first, second) = (Index(part.first_number), Index(part.second_number));
    object.put("sections", format_args!("[{first},{second}]"))?;
    object.put_option("item", part.item)
}

/// The offset and the size of a section or a part.
#[derive(Clone, Copy)]
struct Place(usize, usize);

impl Place {
    /// Returns the place of a part.
    fn of(part: &Part<'_>) -> Place {
        Place(part.at, part.bytes.len())
    }
}

/// Writes a member that is an object with a place and a text. It stays open.
fn open_object<W: io::Write, D: fmt::Display>(
    writer: &mut W,
    name: &str,
    Place(offset, size): Place,
    text: &D,
) -> io::Result<()> {
    let mut outer = ObjectWriter::go_on(writer);
    let mut object = outer.object(name)?;
    object.put("offset", offset)?;
    object.put("size", size)?;
    object.put_text("text", text)
}

/// The number of a section, or `null`.
#[derive(Clone, Copy)]
struct Index(Option<usize>);

impl fmt::Display for Index {
    fn fmt<W: fmt::Write>(&self, f: &mut fmt::Formatter<W>) -> fmt::Result {
        match self.0 {
            Some(number) => write!(f, "{number}"),
            None => f.write_str("null"),
        }
    }
}

/// Bytes in hexadecimal digits.
#[derive(Clone, Copy)]
struct RowText<'a, 'p>(&'p Part<'a>);

impl fmt::Display for RowText<'_, '_> {
    fn fmt<W: fmt::Write>(&self, f: &mut fmt::Formatter<W>) -> fmt::Result {
        for byte in self.0.bytes {
            write!(f, "{byte:02x}")?;
        }
        Ok(())
    }
}
