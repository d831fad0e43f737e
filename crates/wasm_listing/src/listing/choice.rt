//! Which sections of a module a listing shows.
use crate::listing::{IndexSpaces, Listing, SectionHead, Silent, Stop, list_section};
use crate::sections::{SectionWalk, kind_name};
use escaped_text::Escaped;
use std::alloc::{AllocError, Global};
use std::fmt;
use wasm_code::section::RawSection;
use wasm_modules::selection::custom_name;

/// The sections that a listing shows.
#[derive(Drop)]
pub struct Choice<'a> {
    /// Kinds, such as `code`, and names of custom sections. Without any, all sections are shown.
    words: &'a [&'a str],
    /// For each word, whether it matches a section.
    found: Vec<bool>,
    /// Whether the lines of sections are shown without their items.
    pub headers: bool,
}

impl<'a> Choice<'a> {
    /// Returns the choice of the sections of these kinds and names, and of all sections if there are no words.
    ///
    /// Fails if memory runs out.
    pub fn new(
        alloc: Global,
        words: &'a [&'a str],
        headers: bool,
    ) -> Result<Choice<'a>, AllocError> {
        let mut found = Vec::new(alloc);
        for _word in words {
            found.push(false)?;
        }
        Ok(Choice {
            words,
            found,
            headers,
        })
    }

    /// Checks whether a section is shown. Notes which words match it.
    pub fn shows(&mut self, section: RawSection<'_>) -> bool {
        let mut is_shown = self.words.is_empty();
        for (word, found) in self.words.iter().zip(self.found.iter_mut()) {
            if is_word_for(word, section) {
                *found = true;
                is_shown = true;
            }
        }
        is_shown
    }

    /// Returns the words that matched no section.
    ///
    /// Fails if memory runs out.
    pub fn unmatched(&self, alloc: Global) -> Result<Vec<Unmatched<'a>>, AllocError> {
        let mut unmatched = Vec::new(alloc);
        for (word, found) in self.words.iter().zip(self.found.iter()) {
            if !*found {
                unmatched.push(Unmatched(*word))?;
            }
        }
        Ok(unmatched)
    }
}

/// Checks whether a word is the kind or the name of a section.
fn is_word_for(word: &str, section: RawSection<'_>) -> bool {
    word == kind_name(section.id) || custom_name(section) == Some(word)
}

/// A word that matched no section.
#[derive(Clone, Copy)]
pub struct Unmatched<'a>(&'a str);

impl fmt::Display for Unmatched<'_> {
    fn fmt<W: fmt::Write>(&self, f: &mut fmt::Formatter<W>) -> fmt::Result {
        let word = Escaped(self.0);
        write!(
            f,
            "warning: --section {word}: no section has this kind or name"
        )
    }
}

/// Lists the sections of a module that are shown, without their items, up to the first malformed one.
pub fn list_heads<L: Listing>(
    alloc: Global,
    module: &[u8],
    choice: &mut Choice<'_>,
    listing: &mut L,
) -> Result<(), Stop> {
    for (number, located) in SectionWalk::new(alloc, module).enumerate() {
        if choice.shows(located.section) {
            listing.section(&SectionHead::new(number, located, module))?;
            listing.section_end()?;
        }
    }
    Ok(())
}

/// Lists a section if it is shown. Otherwise counts its items.
pub fn list_chosen<L: Listing>(
    alloc: Global,
    head: &SectionHead<'_>,
    choice: &mut Choice<'_>,
    spaces: &mut IndexSpaces<'_>,
    listing: &mut L,
) -> Result<(), Stop> {
    let section = head.located.section;
    if choice.shows(section) {
        return list_section(alloc, head, spaces, listing);
    }
    match section.id {
        0 if custom_name(section).is_some() => Ok(()),
        // Only code sections need the number of functions in them.
        10 => Ok(()),
        _ => list_section(alloc, head, spaces, &mut Silent),
    }
}
