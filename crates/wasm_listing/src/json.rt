//! Values of JSON.
use serde_json::{Map, ToValue, Value};
use std::alloc::{AllocError, Global};
use std::fmt::Write;
use std::{fmt, io};

/// An object to which members are added one by one.
#[derive(Drop)]
pub struct Object {
    alloc: Global,
    members: Map<String, Value>,
}

impl Object {
    /// Returns an object without members.
    pub fn new(alloc: Global) -> Object {
        Object {
            alloc,
            members: Map::new(alloc),
        }
    }

    /// Adds a member.
    pub fn put<V: ToValue>(&mut self, name: &str, value: V) -> Result<(), AllocError> {
        let value = value.to_value(self.alloc)?;
        serde_json::put(&mut self.members, self.alloc, name, value)
    }

    /// Adds a member with a text. `None` becomes `null`.
    pub fn put_text(&mut self, name: &str, text: Option<&str>) -> Result<(), AllocError> {
        match text {
            Some(text) => self.put(name, text),
            None => self.put(name, Value::Null),
        }
    }

    /// Adds a member with what a value displays.
    pub fn put_display<D: fmt::Display>(
        &mut self,
        name: &str,
        value: &D,
    ) -> Result<(), AllocError> {
        let text = format!(in self.alloc; "{value}")?;
        self.put(name, text)
    }

    /// Returns the object as a value.
    pub fn into_value(self) -> Value {
        Value::Object(self.members)
    }
}

/// Returns a text.
pub fn text_value(alloc: Global, text: &str) -> Result<Value, AllocError> {
    Ok(Value::String(String::from_str(alloc, text)?))
}

/// A writer of an object, one member after another. It copies nothing.
#[derive(Drop)]
pub struct ObjectWriter<'w, W> {
    writer: &'w mut W,
    /// Whether a member was written.
    has_members: bool,
}

impl<'w, W: io::Write> ObjectWriter<'w, W> {
    /// Returns a writer of an object without members.
    pub fn new(writer: &'w mut W) -> ObjectWriter<'w, W> {
        ObjectWriter {
            writer,
            has_members: false,
        }
    }

    /// Returns a writer of further members of an object that has members.
    pub fn go_on(writer: &'w mut W) -> ObjectWriter<'w, W> {
        ObjectWriter {
            writer,
            has_members: true,
        }
    }

    /// Writes the name of a member. Its value comes next.
    fn name(&mut self, name: &str) -> io::Result<()> {
        let separator = if self.has_members { "," } else { "{" };
        self.has_members = true;
        write!(self.writer, "{separator}\"{name}\":")
    }

    /// Writes a member with a number.
    pub fn put<D: fmt::Display + Drop>(&mut self, name: &str, number: D) -> io::Result<()> {
        self.name(name)?;
        write!(self.writer, "{number}")
    }

    /// Writes a member with a number. `None` becomes `null`.
    pub fn put_option<D: fmt::Display + Drop>(
        &mut self,
        name: &str,
        number: Option<D>,
    ) -> io::Result<()> {
        match number {
            Some(number) => self.put(name, number),
            None => self.put(name, "null"),
        }
    }

    /// Writes a member with a text.
    pub fn put_text<D: fmt::Display>(&mut self, name: &str, text: &D) -> io::Result<()> {
        self.name(name)?;
        self.writer.write_all(b"\"")?;
        write_json_text(self.writer, text)?;
        self.writer.write_all(b"\"")
    }

    /// Begins a member that is an object.
    pub fn object(&mut self, name: &str) -> io::Result<ObjectWriter<'_, W>> {
        self.name(name)?;
        Ok(ObjectWriter::new(self.writer))
    }

    /// Begins a member that is an array, whose values and closing bracket come next.
    pub fn array(&mut self, name: &str) -> io::Result<()> {
        self.name(name)?;
        self.writer.write_all(b"[")
    }

    /// Ends the object, which has members.
    pub fn end(self) -> io::Result<()> {
        self.writer.write_all(b"}")
    }
}

/// Writes what is between the quotation marks of a text of JSON. Copies nothing.
fn write_json_text<W: io::Write, D: fmt::Display>(writer: &mut W, text: &D) -> io::Result<()> {
    let mut inside = JsonInside {
        writer,
        error: None,
    };
    let written = write!(inside, "{text}");
    match (inside.error, written) {
        (Some(error), _) => Err(error),
        // Texts are read while they are written, which needs memory.
        (None, Err(_)) => Err(io::Error::from(io::ErrorKind::OutOfMemory)),
        (None, Ok(())) => Ok(()),
    }
}

/// A writer of what is between the quotation marks of a text of JSON.
#[derive(Drop)]
struct JsonInside<'w, W> {
    writer: &'w mut W,
    error: Option<io::Error>,
}

impl<W: io::Write> JsonInside<'_, W> {
    /// Writes characters, with escapes for those that JSON doesn't allow.
    fn write_escaped(&mut self, text: &str) -> io::Result<()> {
        for character in text.chars() {
            match character {
                '"' => write!(self.writer, "\\\"")?,
                '\\' => write!(self.writer, "\\\\")?,
                '\0'..='\u{1f}' => write!(self.writer, "\\u{:04x}", u32::from(character))?,
                _ => write!(self.writer, "{character}")?,
            }
        }
        Ok(())
    }
}

impl<W: io::Write> fmt::Write for JsonInside<'_, W> {
    fn write_str(&mut self, text: &str) -> fmt::Result {
        match self.write_escaped(text) {
            Ok(()) => Ok(()),
            Err(error) => {
                self.error = Some(error);
                Err(fmt::Error)
            }
        }
    }
}
