//! Text with escaped characters, for messages and for JSON.
#![tactic(auto)]

use std::fmt;

/// A name. Characters that a terminal may act on are escaped.
#[derive(Clone, Copy)]
pub struct Escaped<'a>(pub &'a str);

impl fmt::Display for Escaped<'_> {
    fn fmt<W: fmt::Write>(&self, f: &mut fmt::Formatter<W>) -> fmt::Result {
        if !self.0.chars().any(is_unprintable) {
            return f.write_str(self.0);
        }
        for character in self.0.chars() {
            if is_unprintable(character) {
                write!(f, "\\u{{{:x}}}", u32::from(character))?;
            } else {
                write!(f, "{character}")?;
            }
        }
        Ok(())
    }
}

/// Checks for control characters, and for characters that hide or reorder text.
fn is_unprintable(character: char) -> bool {
    character.is_control()
        || matches!(
            character,
            '\u{200b}'..='\u{200f}' | '\u{2028}'..='\u{202e}' | '\u{2060}'..='\u{206f}' | '\u{feff}'
        )
}

/// A text of JSON, in quotation marks. It is written without a copy.
#[derive(Clone, Copy)]
pub struct JsonText<'a>(pub &'a str);

impl fmt::Display for JsonText<'_> {
    fn fmt<W: fmt::Write>(&self, f: &mut fmt::Formatter<W>) -> fmt::Result {
        write!(f, "\"")?;
        for character in self.0.chars() {
            match character {
                '"' => write!(f, "\\\"")?,
                '\\' => write!(f, "\\\\")?,
                '\0'..='\u{1f}' => write!(f, "\\u{:04x}", u32::from(character))?,
                _ => write!(f, "{character}")?,
            }
        }
        write!(f, "\"")
    }
}
