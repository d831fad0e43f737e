//! Vectors of sections: `raw`, a section's id and body, and its bytes; `module`, the sections of a module, and the
//! module; or `read`, the same of a module in longer encodings.

use crate::calls::normal_of;
use crate::mismatch::Mismatch;
use crate::written::{Written, check_written};
use std::alloc::Global;
use wasm_encoder::{Module, RawSection, read_module};

/// A section that a vector gives.
#[derive(Drop)]
struct OwnedSection {
    id: u8,
    body: Vec<u8>,
}

impl OwnedSection {
    fn as_raw(&self) -> RawSection<'_> {
        RawSection {
            id: self.id,
            body: self.body.as_slice(),
        }
    }
}

/// Holds sections, modules and their reader to the vector.
pub fn check(alloc: Global, row: &str, words: &str, hex: &str) -> Result<(), Mismatch> {
    let words: Vec<&str> = words.split(' ').collect(alloc)?;
    let expected = hex::decode(alloc, hex)?;
    check_row(alloc, row, words.as_slice(), expected.as_slice())
}

fn check_row(alloc: Global, row: &str, words: &[&str], expected: &[u8]) -> Result<(), Mismatch> {
    match (row, words) {
        ("raw", [id, body]) => check_raw(alloc, &owned(alloc, id, body)?, expected),
        ("module", [count, words @ ..]) => {
            let sections = sections(alloc, count, words)?;
            check_module(alloc, sections.as_slice(), expected)?;
            check_reader(alloc, sections.as_slice(), expected)
        }
        ("read", [count, words @ ..]) => {
            check_reader(alloc, sections(alloc, count, words)?.as_slice(), expected)
        }
        _ => Err(Mismatch::NotUnderstood),
    }
}

/// How many sections a word announces, as `raws:2`.
fn parse_count(word: &str) -> Option<usize> {
    word.strip_prefix("raws:")?.parse().ok()
}

/// So many sections, an id and a body each.
fn sections(alloc: Global, count: &str, words: &[&str]) -> Result<Vec<OwnedSection>, Mismatch> {
    let mut sections = Vec::new(alloc);
    for section in words.chunks(2) {
        let [id, body] = section else {
            return Err(Mismatch::NotUnderstood);
        };
        sections.push(owned(alloc, id, body)?)?;
    }
    if parse_count(count) == Some(sections.len()) {
        Ok(sections)
    } else {
        Err(Mismatch::NotUnderstood)
    }
}

/// A section by its id and its body, which is `-` where it is empty.
fn owned(alloc: Global, id: &str, body: &str) -> Result<OwnedSection, Mismatch> {
    let Ok(id) = id.parse() else {
        return Err(Mismatch::NotUnderstood);
    };
    let body = if body == "-" { "" } else { body };
    let body = hex::decode(alloc, body)?;
    Ok(OwnedSection { id, body })
}

/// The section's bytes are the expected ones, and with its id before them where it is added to a list.
fn check_raw(alloc: Global, section: &OwnedSection, expected: &[u8]) -> Result<(), Mismatch> {
    let section = section.as_raw();
    check_written(alloc, Written::Body(section), expected)?;
    let mut whole = vec![in alloc; section.id]?;
    whole.extend_from_slice(expected)?;
    check_written(alloc, Written::Section(section), whole.as_slice())
}

/// The module of the sections is the bytes.
fn check_module(alloc: Global, sections: &[OwnedSection], expected: &[u8]) -> Result<(), Mismatch> {
    let mut module = Module::new(alloc)?;
    for section in sections {
        module.section(&section.as_raw())?;
    }
    if module.finish().as_slice() == expected {
        Ok(())
    } else {
        Err(Mismatch::Written)
    }
}

/// The bytes are read as the sections.
fn check_reader(alloc: Global, sections: &[OwnedSection], bytes: &[u8]) -> Result<(), Mismatch> {
    let read = read_module(alloc, bytes)?;
    if read.len() != sections.len() {
        return Err(Mismatch::Read);
    }
    for (raw, section) in read.iter().zip(sections) {
        if raw.id != section.id || raw.body != section.body.as_slice() {
            return Err(Mismatch::Read);
        }
    }
    check_normal(alloc, sections, bytes)
}

/// The normal form of the bytes is the module of the sections.
fn check_normal(alloc: Global, sections: &[OwnedSection], bytes: &[u8]) -> Result<(), Mismatch> {
    match normal_of::<Module>(alloc, bytes)? {
        Ok(normal) => check_module(alloc, sections, normal.as_slice()),
        Err(_) => Err(Mismatch::Normalised),
    }
}
