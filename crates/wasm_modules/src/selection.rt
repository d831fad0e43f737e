//! Modules without some of their custom sections, which are chosen by name.
ghost use Rattle.std.specs.Prelude.{◌≡◌, ◌≤◌, ◌∷◌, [], ℕ, List, true, false, codes, length, take, IfSome, IfNone};
ghost use Rattle.wasm_code.specs.formats.Sections.{SectionParts, parts_of};
ghost use Rattle.wasm_code.specs.formats.Modules.{raw_module};
ghost use Rattle.wasm_sections.specs.formats.ModuleSections.{KeepsMinimal};
ghost use Rattle.wasm_modules.specs.Offsets.{IsNameOf};
ghost use Rattle.wasm_modules.specs.Selections.{star, IsMatch, Matches, MatchesSome, IsDroppedName, IsDropped, ChoosesNext, IsSelected, IsChosen, Selects};

use crate::offsets::is_offset_name;
use wasm_code::raw::{after_header, read_section, rewrite_raw_section};
use wasm_code::section::{HEADER, RawSection};
use wasm_codec::reader::cursor::Cursor;
use wasm_codec::rewriter::{Finished, Rewriter};
use wasm_sections::custom::read_custom;

/// A pattern of names of custom sections. Each `*` in it stands for any characters, or for none.
#[derive(Clone, Copy)]
pub struct Pattern<'a> {
    text: &'a str,
}

impl<'a> Pattern<'a> {
    /// Returns the pattern that `text` spells.
    pub fn new(text: &'a str) -> Pattern<'a>
        ensures { result.text.now ≡ text.now }
    {
        Pattern { text }
    }

    /// Returns the pattern of all names.
    pub fn of_all() -> Pattern<'a>
        ensures { result.text.now ≡ codes "*" }
    {
        Pattern { text: "*" }
    }

    /// Checks whether the pattern matches `name`.
    pub fn matches(self, name: &str) -> bool
        ensures yes { result ≡ true → Matches self.entry name.now }
        ensures no { result ≡ false → Matches self.entry name.now → ⊥ }
    {
        match self.text.split_once('*') {
            None => name == self.text,
            Some((beginning, rest)) => match name.strip_prefix(beginning) {
                Some(end) => matches_some_end(rest, end),
                None => false,
            },
        }
    }
}

/// Checks whether the pattern matches some end of `name`.
///
/// Finds each piece in front of a `*` as early as possible: the `*` stands for whatever follows.
fn matches_some_end(pattern: &str, name: &str) -> bool
    ensures yes { result ≡ true → IsMatch (star ∷ pattern.now) name.now }
    ensures no { result ≡ false → IsMatch (star ∷ pattern.now) name.now → ⊥ }
{
    let mut pattern = pattern;
    let mut name = name;
    while let Some((piece, rest)) = pattern.split_once('*') {
        let Some((_before, after)) = name.split_once(piece) else {
            return false;
        };
        pattern = rest;
        name = after;
    }
    name.ends_with(pattern)
}

/// The custom sections to drop.
#[derive(Clone, Copy)]
pub struct Selection<'a> {
    /// Whether to drop sections that keep offsets.
    pub offsets: bool,
    /// Patterns of the names to drop.
    pub dropped: &'a [Pattern<'a>],
    /// Patterns of the names to keep even so.
    pub kept: &'a [Pattern<'a>],
}

/// The sections to write.
#[derive(Clone, Copy)]
pub enum Sections<'a> {
    /// All.
    All,
    /// All but the custom sections that the selection drops.
    Selected(Selection<'a>),
}

/// Returns a canonical form with only these sections. It works in place.
pub fn choose_sections(canonical: Vec<u8>, sections: Sections<'_>) -> Vec<u8>
    ensures chosen { IsChosen sections.entry canonical.items result.items }
    ensures minimal { KeepsMinimal canonical.items result.items }
{
    match sections {
        Sections::All => canonical,
        Sections::Selected(selection) => select_sections(canonical, selection),
    }
}

/// Returns the module without the custom sections that the selection drops. It works in place.
///
/// The sizes of the other sections get their minimal encoding. A malformed module becomes empty.
pub fn select_sections(bytes: Vec<u8>, selection: Selection<'_>) -> Vec<u8>
    // The result is the minimal encoding of the sections that aren't dropped.
    ensures ok { (sections : List SectionParts) → raw_module.Encodes bytes.items sections →
        IsSelected selection.entry sections result.items }
    ensures minimal { KeepsMinimal bytes.items result.items }
{
    let mut bytes = bytes;
    let len = select_in_place(bytes.as_mut_slice(), selection);
    bytes.truncate(len);
    bytes
}

/// Drops the custom sections of the selection from a module, in place. Returns the length of what stays, which begins the
/// slice.
///
/// The sizes of the other sections get their minimal encoding. Returns 0 if the module is malformed.
pub fn select_in_place(bytes: &mut [u8], selection: Selection<'_>) -> usize
    ensures len { result ≤ length bytes.new }
    ensures ok { (sections : List SectionParts) → raw_module.Encodes bytes.old sections →
        IsSelected selection.entry sections (take result bytes.new) }
    ensures minimal { KeepsMinimal bytes.old (take result bytes.new) }
{
    let Selected { bytes: _bytes, len } = select_slice(bytes, selection);
    match len {
        Some(len) => len,
        None => 0,
    }
}

/// A slice of which some sections were kept.
#[derive(Drop)]
struct Selected<'a> {
    /// The slice.
    bytes: &'a mut [u8],
    /// Length in bytes of what was kept. `None` means that the module is malformed.
    len: Option<usize>,
}

/// Drops the sections, and returns the same slice.
fn select_slice<'a>(bytes: &'a mut [u8], selection: Selection<'_>) -> Selected<'a>
    ensures same_reference { IfSome result.len (λ _. result.bytes.ghost_name ≡ bytes.entry.ghost_name) }
    ensures len { IfSome result.len (λ len. len ≤ length result.bytes.now) }
    ensures ok { IfSome result.len (λ len. (sections : List SectionParts) → raw_module.Encodes bytes.old sections →
        IsSelected selection.entry sections (take len result.bytes.now)) }
    ensures minimal { IfSome result.len (λ len. KeepsMinimal bytes.old (take len result.bytes.now)) }
    ensures none { IfNone result.len ((sections : List SectionParts) → raw_module.Encodes bytes.old sections → ⊥) }
{
    let Some(_sections) = after_header(bytes) else {
        return Selected { bytes, len: None };
    };
    let mut rewriter = Rewriter::new(bytes);
    rewriter.skip(HEADER.len());
    if keep_selected(&mut rewriter, selection) {
        let Finished { bytes, len } = rewriter.finish();
        Selected {
            bytes,
            len: Some(len),
        }
    } else {
        Selected {
            bytes: rewriter.finish().bytes,
            len: None,
        }
    }
}

/// Rewrites the sections up to the end, without those that the selection drops. Returns `false` at a malformed one.
fn keep_selected(rewriter: &mut Rewriter, selection: Selection<'_>) -> bool
    ensures rest { result ≡ true → rewriter.new.rest ≡ rewriter.old.rest }
    ensures end { result ≡ true → rewriter.new.place.left ≡ [] }
    ensures ok { result ≡ true → (bytes : List ℕ) → Selects selection.entry bytes rewriter.old → Selects selection.entry bytes rewriter.new }
    ensures none { result ≡ false → (bytes : List ℕ) → Selects selection.entry bytes rewriter.old →
        (sections : List SectionParts) → raw_module.Encodes bytes sections → ⊥ }
{
    while rewriter.len() > 0 {
        rewriter.are_bytes();
        let dropped = next_is_dropped(rewriter.left(), selection);
        let mark = rewriter.written_len();
        if rewrite_raw_section(rewriter).is_err() {
            return false;
        }
        if dropped {
            rewriter.cut_out(mark, rewriter.written_len() - mark);
        }
    }
    true
}

/// Checks whether the bytes begin with a section that the selection drops.
fn next_is_dropped(bytes: &[u8], selection: Selection<'_>) -> bool
    ensures next { ChoosesNext selection.entry bytes.now result }
{
    let mut cursor = Cursor::new(bytes);
    match read_section(&mut cursor) {
        Ok(section) => is_dropped(&section, selection),
        Err(_) => false,
    }
}

/// Returns the name of a custom section. `None` means that the section is of another kind, or malformed.
pub fn custom_name<'a>(section: RawSection<'a>) -> Option<&'a str>
    // The section is a custom section of this name.
    ensures found { IfSome result (λ name. IsNameOf (parts_of section.entry) name.now) }
    // `None` means that it has no name.
    ensures none { IfNone result ((name : List ℕ) → IsNameOf (parts_of section.entry) name → ⊥) }
    // It has at most one name.
    ensures one { (name other : List ℕ) → IsNameOf (parts_of section.entry) name → IsNameOf (parts_of section.entry) other → name ≡ other }
{
    if section.id != 0 {
        return None;
    }
    match read_custom(section.body) {
        Ok(custom) => Some(custom.name),
        Err(_) => None,
    }
}

/// Checks whether the selection drops a section.
fn is_dropped(section: &RawSection<'_>, selection: Selection<'_>) -> bool
    ensures yes { result ≡ true → IsDropped selection.entry (parts_of section.now) }
    ensures no { result ≡ false → IsDropped selection.entry (parts_of section.now) → ⊥ }
{
    match custom_name(*section) {
        Some(name) => is_dropped_name(name, selection),
        None => false,
    }
}

/// Checks whether the selection drops custom sections of this name.
fn is_dropped_name(name: &str, selection: Selection<'_>) -> bool
    ensures yes { result ≡ true → IsDroppedName selection.entry name.now }
    ensures no { result ≡ false → IsDroppedName selection.entry name.now → ⊥ }
{
    if matches_some(selection.kept, name) {
        return false;
    }
    if matches_some(selection.dropped, name) {
        return true;
    }
    if selection.offsets {
        is_offset_name(name)
    } else {
        false
    }
}

/// Checks whether one of the patterns matches `name`.
fn matches_some(patterns: &[Pattern<'_>], name: &str) -> bool
    ensures yes { result ≡ true → MatchesSome patterns.now name.now }
    ensures no { result ≡ false → MatchesSome patterns.now name.now → ⊥ }
{
    for pattern in patterns {
        if pattern.matches(name) {
            return true;
        }
    }
    false
}
