//! The words of the command line, which need not be UTF-8.
use std::alloc::{AllocError, Global};
use std::env::{Env, FillError};
use std::str;

/// The first character of a word that isn't UTF-8. In its rest, bytes that belong to no character are escaped.
///
/// No other word has this character: it ends the words that the system passes.
pub const NOT_TEXT: char = '\0';

/// Reads the words of the command line, the program's name among them.
///
/// Fails if memory runs out.
pub fn read_words(rt: &HostRuntime) -> Result<Vec<String>, AllocError> {
    let mut words = Vec::new(rt.alloc());
    for index in 0..usize::MAX {
        let Some(bytes) = read_word(rt, index)? else {
            break;
        };
        words.push(text_of(rt.alloc(), &bytes)?)?;
    }
    Ok(words)
}

/// Reads the bytes of a word. Returns `None` if there are fewer words.
fn read_word(rt: &HostRuntime, index: usize) -> Result<Option<Vec<u8>>, AllocError> {
    let mut bytes = Vec::new(rt.alloc());
    let mut room = 256usize;
    for _ in 0..usize::BITS {
        bytes.resize(room, 0)?;
        match rt.arg(index, &mut bytes) {
            Ok(len) => {
                bytes.truncate(len);
                return Ok(Some(bytes));
            }
            Err(FillError::NotPresent) => return Ok(None),
            Err(FillError::TooLong) => room = room.saturating_add(room),
        }
    }
    Err(AllocError)
}

/// Returns the text of a word. If it isn't UTF-8, returns `NOT_TEXT` and the word with escapes.
fn text_of(alloc: Global, word: &[u8]) -> Result<String, AllocError> {
    match str::from_utf8(word) {
        Ok(text) => String::from_str(alloc, text),
        Err(_) => escaped(alloc, word),
    }
}

/// Returns `NOT_TEXT` and the word, in which bytes that belong to no character are escaped.
fn escaped(alloc: Global, word: &[u8]) -> Result<String, AllocError> {
    let mut text = String::new(alloc);
    text.push(NOT_TEXT)?;
    for chunk in word.utf8_chunks() {
        text.push_str(chunk.valid())?;
        push_escapes(alloc, &mut text, chunk.invalid())?;
    }
    Ok(text)
}

/// Appends an escape for each byte.
fn push_escapes(alloc: Global, text: &mut String, bytes: &[u8]) -> Result<(), AllocError> {
    for byte in bytes {
        let escape = format!(in alloc; "\\x{byte:02X}")?;
        text.push_str(escape.as_str())?;
    }
    Ok(())
}

/// Checks whether the words that aren't UTF-8 all name inputs: none is an option or an option's value.
pub fn inputs_alone_escape(words: &[String], inputs: &[&str]) -> bool {
    let escaped = words
        .iter()
        .skip(1)
        .filter(|word| word.starts_with(NOT_TEXT))
        .count();
    let named = inputs.iter().filter(|word| is_name_not_text(word)).count();
    escaped == named
}

/// Checks whether a word that isn't UTF-8 is no option.
fn is_name_not_text(word: &str) -> bool {
    match word.strip_prefix(NOT_TEXT) {
        Some(name) => !name.starts_with('-'),
        None => false,
    }
}
