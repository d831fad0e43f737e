//! The kinds of vectors in a file, and the checks of the library against them.

use crate::mismatch::Mismatch;
use crate::{
    answers, contents, cuts, decoded, encoded, entries, kinds, refusals, sections, sink, strict,
};
use std::alloc::Global;

/// The vectors of a file.
#[derive(Clone, Copy)]
pub enum Suite {
    /// One call of the sink each.
    Sink,
    /// One encoded value, entry, section or module each.
    Types,
    /// The answers of a normaliser to some bytes.
    Answers,
    /// The answers of a strict reader to some bytes.
    Strict,
    /// The answers of readers and normalisers to some bytes and to each part of them.
    Cuts,
    /// The kind of an opcode.
    Kinds,
    /// The values read from the body of a section, or from a module with every section decoded.
    Decoded,
    /// The values read from the contents of a custom section.
    Contents,
    /// The reason and the place of a refusal.
    Refusals,
}

impl Suite {
    /// Holds the encoder to the vector of a line.
    pub fn check(self, alloc: Global, line: &str) -> Result<(), Mismatch> {
        match self {
            Suite::Sink => sink::check(alloc, line),
            Suite::Types => check_types(alloc, line),
            Suite::Answers => answers::check(alloc, line),
            Suite::Strict => strict::check(alloc, line),
            Suite::Cuts => cuts::check(alloc, line),
            Suite::Kinds => kinds::check(line),
            Suite::Decoded => decoded::check(alloc, line),
            Suite::Contents => contents::check(alloc, line),
            Suite::Refusals => refusals::check(alloc, line),
        }
    }
}

/// Holds what the first column says to the others.
fn check_types(alloc: Global, line: &str) -> Result<(), Mismatch> {
    let columns: Vec<&str> = line.split('\t').collect(alloc)?;
    match columns.as_slice() {
        ["encode", token, hex] => encoded::check(alloc, token, hex),
        ["entry", words, hex, section] => entries::check_entry(alloc, words, hex, section),
        ["section", words, hex, len] => entries::check_section(alloc, words, hex, len),
        [row, words, hex] => sections::check(alloc, row, words, hex),
        _ => Err(Mismatch::NotUnderstood),
    }
}
