//! The listing as JSON, one value at a time.
use crate::json::ObjectWriter;
use crate::listing::{
    CustomText, FunctionHead, Instruction, ItemName, ItemText, Listing, LocalsText, Longer,
    Nesting, Part, SectionHead, Stop, Unnamed,
};
use crate::sections::kind_name;
use std::{fmt, io};
use wasm_modules::selection::custom_name;
use wasm_types::types::ValType;

/// A writer of the members of an object that hold a listing.
#[derive(Drop)]
pub struct Values<'w, W> {
    writer: &'w mut W,
    /// The array of sections. It stays open.
    sections: Array,
    /// The array of a section's items.
    items: Array,
    /// The array of a function's locals and instructions.
    code: Array,
    /// Number of open blocks.
    depth: usize,
}

/// The state of an array.
#[derive(Clone, Copy, PartialEq, Eq)]
enum Array {
    Closed,
    Empty,
    Filled,
}

impl<'w, W: io::Write> Values<'w, W> {
    /// Returns a writer of values.
    pub fn new(writer: &'w mut W) -> Values<'w, W> {
        Values {
            writer,
            sections: Array::Empty,
            items: Array::Closed,
            code: Array::Closed,
            depth: 0,
        }
    }

    /// Begins an object and the array of sections in it.
    pub fn begin(&mut self) -> io::Result<()> {
        write!(self.writer, "{{\"sections\":[")
    }

    /// Closes all arrays and their objects, also after a part that is malformed.
    pub fn end(&mut self) -> io::Result<()> {
        close(self.writer, &mut self.code)?;
        close(self.writer, &mut self.items)?;
        write!(self.writer, "]")
    }
}

/// Closes an array and the object whose last member it is, if it is open.
fn close<W: io::Write>(writer: &mut W, array: &mut Array) -> io::Result<()> {
    if *array == Array::Closed {
        return Ok(());
    }
    *array = Array::Closed;
    write!(writer, "]}}")
}

/// Writes what separates the next value of an array from the one before.
fn separate<W: io::Write>(writer: &mut W, array: &mut Array) -> io::Result<()> {
    if *array == Array::Filled {
        write!(writer, ",")?;
    }
    *array = Array::Filled;
    writeln!(writer)
}

/// Writes the lengths of what isn't minimally encoded, or `null`.
fn put_longer<W: io::Write>(
    object: &mut ObjectWriter<'_, W>,
    name: &str,
    longer: Option<Longer>,
) -> io::Result<()> {
    let Some(Longer { bytes, minimal }) = longer else {
        return object.put(name, "null");
    };
    let mut lengths = object.object(name)?;
    lengths.put("size", bytes)?;
    lengths.put("minimal", minimal)?;
    lengths.end()
}

/// Writes the name of an item, or `null`.
fn put_name<W: io::Write>(
    object: &mut ObjectWriter<'_, W>,
    name: Option<ItemName<'_>>,
) -> io::Result<()> {
    match name {
        Some(ItemName::Given(name)) => object.put_text("name", &name),
        Some(ItemName::Imported(module, field)) => {
            object.put_text("name", &format_args!("{module}.{field}"))
        }
        None => object.put("name", "null"),
    }
}

/// Writes the place and the lengths of a part.
fn put_place<W: io::Write>(object: &mut ObjectWriter<'_, W>, part: &Part<'_>) -> io::Result<()> {
    object.put("offset", part.at)?;
    object.put("size", part.bytes.len())?;
    object.put_option("minimal", part.minimal)
}

/// Writes the number, the place, the lengths and the text of a part.
fn put_item<W: io::Write, D: fmt::Display>(
    object: &mut ObjectWriter<'_, W>,
    part: &Part<'_>,
    text: &D,
) -> io::Result<()> {
    object.put("item", part.number)?;
    put_place(object, part)?;
    object.put_text("text", text)
}

/// Writes a section up to its items.
fn open_section<W: io::Write>(writer: &mut W, head: &SectionHead<'_>) -> io::Result<()> {
    let section = head.located.section;
    let mut object = ObjectWriter::new(writer);
    object.put("section", head.number)?;
    object.put("id", section.id)?;
    object.put_text("kind", &kind_name(section.id))?;
    match custom_name(section) {
        Some(name) => object.put_text("name", &name)?,
        None => object.put("name", "null")?,
    }
    object.put("offset", head.located.at)?;
    object.put("size", head.located.len)?;
    object.put_option("count", head.count)?;
    put_longer(&mut object, "longer_size", head.size)?;
    put_longer(&mut object, "longer_number", head.first)?;
    object.array("items")
}

/// Writes a function up to its code.
fn open_function<W: io::Write>(writer: &mut W, head: &FunctionHead<'_>) -> io::Result<()> {
    let mut object = ObjectWriter::new(writer);
    object.put("item", head.part.number)?;
    object.put("offset", head.part.at)?;
    object.put("size", head.part.bytes.len())?;
    let text = ItemText::Body(head.index, head.name);
    object.put_text("text", &Unnamed(&text))?;
    put_name(&mut object, text.name())?;
    put_longer(&mut object, "longer_size", head.size)?;
    put_longer(&mut object, "longer_number", head.groups)?;
    object.array("code")
}

impl<W: io::Write> Listing for Values<'_, W> {
    fn section(&mut self, head: &SectionHead<'_>) -> Result<(), Stop> {
        separate(self.writer, &mut self.sections)?;
        open_section(self.writer, head)?;
        self.items = Array::Empty;
        Ok(())
    }

    fn item(&mut self, part: &Part<'_>, text: &ItemText<'_>) -> Result<(), Stop> {
        separate(self.writer, &mut self.items)?;
        let mut object = ObjectWriter::new(self.writer);
        put_item(&mut object, part, &Unnamed(text))?;
        put_name(&mut object, text.name())?;
        object.end()?;
        Ok(())
    }

    fn custom_item(&mut self, part: &Part<'_>, text: &CustomText<'_>) -> Result<(), Stop> {
        separate(self.writer, &mut self.items)?;
        let mut object = ObjectWriter::new(self.writer);
        put_item(&mut object, part, text)?;
        object.end()?;
        Ok(())
    }

    fn contents(&mut self, _at: usize, _bytes: &[u8]) -> Result<(), Stop> {
        Ok(())
    }

    fn function(&mut self, head: &FunctionHead<'_>) -> Result<(), Stop> {
        separate(self.writer, &mut self.items)?;
        open_function(self.writer, head)?;
        self.code = Array::Empty;
        self.depth = 0;
        Ok(())
    }

    fn locals(&mut self, part: &Part<'_>, count: u32, ty: ValType) -> Result<(), Stop> {
        separate(self.writer, &mut self.code)?;
        let mut object = ObjectWriter::new(self.writer);
        put_item(&mut object, part, &LocalsText(count, ty))?;
        object.end()?;
        Ok(())
    }

    fn call(
        &mut self,
        part: &Part<'_>,
        instruction: &Instruction<'_>,
        name: Option<ItemName<'_>>,
    ) -> Result<(), Stop> {
        separate(self.writer, &mut self.code)?;
        let nesting = Nesting::of(instruction.op());
        let depth = nesting.own_depth(self.depth);
        self.depth = nesting.next_depth(self.depth);
        let mut object = ObjectWriter::new(self.writer);
        put_place(&mut object, part)?;
        object.put("depth", depth)?;
        object.put_text("text", instruction)?;
        put_name(&mut object, name)?;
        object.end()?;
        Ok(())
    }

    fn function_end(&mut self) -> Result<(), Stop> {
        close(self.writer, &mut self.code)?;
        Ok(())
    }

    fn section_end(&mut self) -> Result<(), Stop> {
        close(self.writer, &mut self.items)?;
        Ok(())
    }
}
