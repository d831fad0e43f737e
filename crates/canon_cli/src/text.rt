//! Text in messages.
use crate::request::Location;
use escaped_text::Escaped;
use std::fmt;

/// The name of the input in messages.
#[derive(Clone, Copy)]
pub struct InputName<'a>(pub Location<'a>);

impl fmt::Display for InputName<'_> {
    fn fmt<W: fmt::Write>(&self, f: &mut fmt::Formatter<W>) -> fmt::Result {
        match self.0 {
            Location::Standard => write!(f, "standard input"),
            Location::File(path) | Location::NotText(path) => write!(f, "{}", Escaped(path)),
        }
    }
}

/// The name of the output in messages.
#[derive(Clone, Copy)]
pub struct OutputName<'a>(pub Location<'a>);

impl fmt::Display for OutputName<'_> {
    fn fmt<W: fmt::Write>(&self, f: &mut fmt::Formatter<W>) -> fmt::Result {
        match self.0 {
            Location::Standard => write!(f, "standard output"),
            Location::File(path) | Location::NotText(path) => write!(f, "{}", Escaped(path)),
        }
    }
}

/// The warning that custom sections keep stale offsets.
#[derive(Clone, Copy)]
pub struct OffsetWarning<'a> {
    /// The module.
    pub input: InputName<'a>,
    /// The names of the sections.
    pub names: &'a [String],
}

impl fmt::Display for OffsetWarning<'_> {
    fn fmt<W: fmt::Write>(&self, f: &mut fmt::Formatter<W>) -> fmt::Result {
        write!(f, "warning: {}: custom sections ", self.input)?;
        for (number, name) in self.names.iter().enumerate() {
            let comma = if number == 0 { "" } else { ", " };
            write!(f, "{comma}{}", Escaped(name.as_str()))?;
        }
        writeln!(f, ": offsets are stale, because bytes have moved")?;
        write!(
            f,
            "help: drop such sections with --strip-offsets, or generate them again from the output"
        )
    }
}

/// The warning that a pattern matches no custom section.
#[derive(Clone, Copy)]
pub struct UnusedPattern<'a> {
    /// The option with the pattern.
    pub option: &'a str,
    /// The pattern.
    pub word: &'a str,
}

impl fmt::Display for UnusedPattern<'_> {
    fn fmt<W: fmt::Write>(&self, f: &mut fmt::Formatter<W>) -> fmt::Result {
        let word = Escaped(self.word);
        write!(
            f,
            "warning: {} {word}: no custom section matches",
            self.option
        )
    }
}

/// A digest in hexadecimal digits.
#[derive(Clone, Copy)]
pub struct Hex(pub [u8; 32]);

impl fmt::Display for Hex {
    fn fmt<W: fmt::Write>(&self, f: &mut fmt::Formatter<W>) -> fmt::Result {
        for byte in &self.0 {
            write!(f, "{byte:02x}")?;
        }
        Ok(())
    }
}

/// The name of a file as `sha256sum` prints it. Backslashes and ends of lines are escaped.
#[derive(Clone, Copy)]
pub struct SumName<'a>(&'a str);

impl<'a> SumName<'a> {
    /// Returns the name of an input.
    pub fn of(input: Location<'a>) -> SumName<'a> {
        SumName(input.word())
    }

    /// Returns what precedes the digest: a backslash if something in the name is escaped.
    pub fn mark(&self) -> &'static str {
        if self.0.contains(['\\', '\n', '\r']) {
            "\\"
        } else {
            ""
        }
    }
}

impl fmt::Display for SumName<'_> {
    fn fmt<W: fmt::Write>(&self, f: &mut fmt::Formatter<W>) -> fmt::Result {
        for character in self.0.chars() {
            match character {
                '\\' => write!(f, "\\\\")?,
                '\n' => write!(f, "\\n")?,
                '\r' => write!(f, "\\r")?,
                _ => write!(f, "{character}")?,
            }
        }
        Ok(())
    }
}
