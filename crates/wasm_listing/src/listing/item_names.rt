//! The names of a module's items: from the `name` section (Core 3.0, Name Section), from exports and imports, and from
//! the symbol table of an object file.
mod name_maps;
mod named_entries;

use crate::sections::{LocatedSection, SectionWalk};
use escaped_text::Escaped;
use name_maps::NameMaps;
use named_entries::{EntryKind, NamedEntries};
use std::alloc::{AllocError, Global};
use std::fmt;
use wasm_modules::indices::IndexSpace;
use wasm_modules::selection::custom_name;

/// A name of an item.
#[derive(Clone, Copy)]
pub enum ItemName<'a> {
    /// A name that the module gives to the item.
    Given(&'a str),
    /// The names of the module that an item is imported from, and of the item in it.
    Imported(&'a str, &'a str),
}

impl fmt::Display for ItemName<'_> {
    fn fmt<W: fmt::Write>(&self, f: &mut fmt::Formatter<W>) -> fmt::Result {
        match self {
            ItemName::Given(name) => write!(f, "{}", Escaped(name)),
            ItemName::Imported(module, field) => {
                write!(f, "{}.{}", Escaped(module), Escaped(field))
            }
        }
    }
}

/// The name of an item behind its text, if it has one.
#[derive(Clone, Copy)]
pub struct NameText<'a>(pub Option<ItemName<'a>>);

impl fmt::Display for NameText<'_> {
    fn fmt<W: fmt::Write>(&self, f: &mut fmt::Formatter<W>) -> fmt::Result {
        match self.0 {
            Some(name) => write!(f, " <{name}>"),
            None => Ok(()),
        }
    }
}

/// The names of a module's items, found by index. It keeps their offsets, and copies none.
#[derive(Drop)]
pub struct ItemNames<'a> {
    /// The names in the `name` section.
    maps: NameMaps<'a>,
    exports: NamedEntries<'a>,
    imports: NamedEntries<'a>,
    symbols: NamedEntries<'a>,
}

impl<'a> ItemNames<'a> {
    /// Finds the names in a module. Each part counts up to where it is malformed.
    ///
    /// Fails if memory runs out.
    pub fn find(alloc: Global, module: &'a [u8]) -> Result<ItemNames<'a>, AllocError> {
        let mut names = ItemNames {
            maps: NameMaps::new(alloc, module),
            exports: NamedEntries::new(alloc, EntryKind::Export, module),
            imports: NamedEntries::new(alloc, EntryKind::Import, module),
            symbols: NamedEntries::new(alloc, EntryKind::Symbol, module),
        };
        for located in SectionWalk::new(alloc, module) {
            names.add_section(alloc, &located)?;
        }
        names.exports.sort();
        names.imports.sort();
        names.symbols.sort();
        Ok(names)
    }

    /// Adds the names in a section.
    fn add_section(
        &mut self,
        alloc: Global,
        located: &LocatedSection<'a>,
    ) -> Result<(), AllocError> {
        match (located.section.id, custom_name(located.section)) {
            (2, _) => self.imports.add_list(alloc, located),
            (7, _) => self.exports.add_list(alloc, located),
            (_, Some("name")) => self.maps.add(alloc, located),
            (_, Some("linking")) => self.symbols.add_symbols(alloc, located),
            _ => Ok(()),
        }
    }

    /// Returns the name of the item with this index: that of the `name` section, else of its first export, else of its
    /// import, else of its first symbol.
    pub fn get(&self, space: IndexSpace, index: u32) -> Option<ItemName<'a>> {
        if let Some(name) = self.given(space, index) {
            return Some(name);
        }
        match self.imports.import(space, index) {
            Some(name) => Some(name),
            None => self.symbols.get(space, index),
        }
    }

    /// Returns the name that the `name` section or an export gives to the item with this index.
    pub fn given(&self, space: IndexSpace, index: u32) -> Option<ItemName<'a>> {
        match self.maps.get(space, index) {
            Some(name) => Some(ItemName::Given(name)),
            None => self.exports.get(space, index),
        }
    }
}
