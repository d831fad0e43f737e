//! The words of a column, one after the other.

use crate::mismatch::Mismatch;
use std::alloc::Global;

/// Words that are taken in their order.
#[derive(Drop)]
pub struct Words<'a> {
    words: Vec<&'a str>,
    next: usize,
}

impl<'a> Words<'a> {
    /// The words that spaces split.
    pub fn new(alloc: Global, text: &'a str) -> Result<Words<'a>, Mismatch> {
        let words = text.split(' ').collect(alloc)?;
        Ok(Words { words, next: 0 })
    }

    /// The next word.
    pub fn next(&mut self) -> Result<&'a str, Mismatch> {
        let word = self.words.get(self.next).ok_or(Mismatch::NotUnderstood)?;
        self.next += 1;
        Ok(*word)
    }

    /// Returns the text after this key and a colon in the next word.
    pub fn value(&mut self, key: &str) -> Result<&'a str, Mismatch> {
        match self.next()?.split_once(':') {
            Some((name, value)) if name == key => Ok(value),
            _ => Err(Mismatch::NotUnderstood),
        }
    }

    /// Reads a value from a word of this key.
    pub fn read<T, Read: Fn(&str) -> Option<T>>(
        &mut self,
        key: &str,
        read: Read,
    ) -> Result<T, Mismatch>
        requires { Read.IsAlwaysCallable read }
    {
        read(self.value(key)?).ok_or(Mismatch::NotUnderstood)
    }

    /// The items of a list in a word of this key, each read from its token.
    pub fn items<T: Drop, Read: Fn(&str) -> Option<T>>(
        &mut self,
        alloc: Global,
        key: &str,
        read: Read,
    ) -> Result<Vec<T>, Mismatch>
        requires { Read.IsAlwaysCallable read }
    {
        items(alloc, self.value(key)?, read)
    }

    /// Whether no word is left.
    pub fn is_at_end(&self) -> bool {
        self.next >= self.words.len()
    }
}

/// The tokens of a list, as of `[val:i32;val:i64]`.
pub fn list_tokens(alloc: Global, list: &str) -> Result<Vec<&str>, Mismatch> {
    let list = list.strip_prefix('[').ok_or(Mismatch::NotUnderstood)?;
    let list = list.strip_suffix(']').ok_or(Mismatch::NotUnderstood)?;
    if list.is_empty() {
        return Ok(Vec::new(alloc));
    }
    Ok(list.split(';').collect(alloc)?)
}

/// The items of a list, each read from its token.
pub fn items<T: Drop, Read: Fn(&str) -> Option<T>>(
    alloc: Global,
    list: &str,
    read: Read,
) -> Result<Vec<T>, Mismatch>
    requires { Read.IsAlwaysCallable read }
{
    let mut items = Vec::new(alloc);
    for token in list_tokens(alloc, list)?.as_slice() {
        items.push(read(token).ok_or(Mismatch::NotUnderstood)?)?;
    }
    Ok(items)
}

/// The number that a text tells.
pub fn number(text: &str) -> Option<u32> {
    text.parse().ok()
}

/// The bytes of a column: runs in hex that `+` splits, where `0B*100` is a run of a hundred.
pub fn runs(alloc: Global, column: &str) -> Result<Vec<u8>, Mismatch> {
    let mut bytes = Vec::new(alloc);
    for run in column.split('+') {
        let (hex, times) = run.split_once('*').unwrap_or((run, "1"));
        append_run(hex::decode(alloc, hex)?.as_slice(), times, &mut bytes)?;
    }
    Ok(bytes)
}

/// Appends the bytes so many times.
fn append_run(run: &[u8], times: &str, bytes: &mut Vec<u8>) -> Result<(), Mismatch> {
    for _ in 0..number(times).ok_or(Mismatch::NotUnderstood)? {
        bytes.extend_from_slice(run)?;
    }
    Ok(())
}
