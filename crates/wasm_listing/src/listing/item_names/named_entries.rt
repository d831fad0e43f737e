//! The imports, the exports or the symbols of a module, as names of its items.
use super::ItemName;
use super::name_maps::skip_name;
use crate::sections::LocatedSection;
use std::alloc::{AllocError, Global};
use wasm_codec::reader::cursor::Cursor;
use wasm_custom_sections::symbols::Symbol;
use wasm_externals::names::read_name;
use wasm_lists::readable::Readable;
use wasm_modules::indices::IndexSpace;
use wasm_sections::exports::Export;
use wasm_sections::imports::Import;

/// Number of entries of one kind that are taken from any module, beside one for each 256 bytes.
const MOST_ENTRIES: usize = 131_072;

/// Fewest bytes of an entry.
const FEWEST_BYTES: usize = 3;

/// Version of linking sections.
const LINKING_VERSION: u32 = 2;

/// Id of the subsection of a linking section that is a symbol table.
const SYMBOL_TABLE: u8 = 8;

/// A kind of entries that name items.
#[derive(Clone, Copy, PartialEq, Eq)]
pub enum EntryKind {
    /// Imports.
    Import,
    /// Exports.
    Export,
    /// Symbols (tool conventions, WebAssembly Object File Linking).
    Symbol,
}

/// Entries of one kind, found by the items that they name.
#[derive(Drop)]
pub struct NamedEntries<'a> {
    module: &'a [u8],
    kind: EntryKind,
    /// Most entries that are taken, so that offsets need little memory.
    most: usize,
    /// Offsets of the entries in the module. They are sorted by the keys of the entries.
    starts: Vec<u32>,
}

/// What entries are sorted by.
#[derive(Clone, Copy, PartialEq, Eq, PartialOrd, Ord)]
struct Key {
    /// The byte that tells of which kind the item is.
    item_kind: u8,
    /// Index of the item. Imports don't have it, and so are in order of their offsets.
    index: u32,
    /// Offset of the entry.
    start: u32,
}

impl<'a> NamedEntries<'a> {
    /// Returns no entries.
    pub fn new(alloc: Global, kind: EntryKind, module: &'a [u8]) -> NamedEntries<'a> {
        NamedEntries {
            module,
            kind,
            most: MOST_ENTRIES.saturating_add(module.len() / 256),
            starts: Vec::new(alloc),
        }
    }

    /// Adds the entries of a section that is a list of them, up to the first malformed one.
    ///
    /// Fails if memory runs out.
    pub fn add_list(
        &mut self,
        alloc: Global,
        located: &LocatedSection<'a>,
    ) -> Result<(), AllocError> {
        let mut list = Cursor::new(located.section.body);
        self.add_entries(alloc, located, &mut list)
    }

    /// Adds the symbols of a linking section, up to the first malformed part.
    ///
    /// Fails if memory runs out.
    pub fn add_symbols(
        &mut self,
        alloc: Global,
        located: &LocatedSection<'a>,
    ) -> Result<(), AllocError> {
        let mut subsections = Cursor::new(located.section.body);
        if skip_name(&mut subsections).is_none() || subsections.u32() != Ok(LINKING_VERSION) {
            return Ok(());
        }
        for _ in 0..located.section.body.len() {
            let Ok(id) = subsections.byte() else {
                break;
            };
            let Ok(mut list) = subsections.body() else {
                break;
            };
            if id == SYMBOL_TABLE {
                self.add_entries(alloc, located, &mut list)?;
            }
        }
        Ok(())
    }

    /// Adds the entries of a list in a section, up to the first malformed one.
    fn add_entries(
        &mut self,
        alloc: Global,
        located: &LocatedSection<'a>,
        list: &mut Cursor<'a>,
    ) -> Result<(), AllocError> {
        let count = list.u32().unwrap_or(0);
        let left = self.most.saturating_sub(self.starts.len());
        let room = left.min(count as usize).min(list.len() / FEWEST_BYTES);
        self.starts.reserve(room)?;
        for _ in 0..count {
            if self.starts.len() >= self.most {
                break;
            }
            let in_body = located.section.body.len().saturating_sub(list.to_end());
            let Ok(start) = u32::try_from(located.offset_of(in_body)) else {
                break;
            };
            match self.kind.read_entry(alloc, list) {
                Some(true) => self.starts.push(start)?,
                Some(false) => {}
                None => break,
            }
        }
        Ok(())
    }

    /// Sorts the entries, once all were added.
    pub fn sort(&mut self) {
        let (module, kind) = (self.module, self.kind);
        self.starts
            .sort_unstable_by_key(|start| key_at(module, kind, *start));
    }

    /// Returns the name in the first entry that names the item with this index.
    pub fn get(&self, space: IndexSpace, index: u32) -> Option<ItemName<'a>> {
        let item_kind = self.kind.item_kind(space)?;
        let first = self.first_at_least(item_kind, index);
        let start = *self.starts.get(first)?;
        let key = key_at(self.module, self.kind, start);
        if key.item_kind != item_kind || key.index != index {
            return None;
        }
        self.name_at(start)
    }

    /// Returns the names in the import with this number among those of one kind.
    pub fn import(&self, space: IndexSpace, number: u32) -> Option<ItemName<'a>> {
        let item_kind = self.kind.item_kind(space)?;
        let first = self.first_at_least(item_kind, 0);
        let start = *self.starts.get(first.saturating_add(number as usize))?;
        if key_at(self.module, self.kind, start).item_kind != item_kind {
            return None;
        }
        self.name_at(start)
    }

    /// Returns the number of entries before the first whose item has this kind and at least this index.
    fn first_at_least(&self, item_kind: u8, index: u32) -> usize {
        let key = Key {
            item_kind,
            index,
            start: 0,
        };
        self.starts
            .partition_point(|start| key_at(self.module, self.kind, *start) < key)
    }

    /// Returns the name in the entry at this offset.
    fn name_at(&self, start: u32) -> Option<ItemName<'a>> {
        let mut cursor = Cursor::new(self.module.get(start as usize..)?);
        self.kind.read_name(&mut cursor)
    }
}

/// Returns the key of the entry at this offset.
fn key_at(module: &[u8], kind: EntryKind, start: u32) -> Key {
    let mut cursor = Cursor::new(module.get(start as usize..).unwrap_or(&[]));
    let (item_kind, index) = kind.read_item(&mut cursor).unwrap_or((u8::MAX, 0));
    Key {
        item_kind,
        index,
        start,
    }
}

impl EntryKind {
    /// Reads an entry. Returns whether it has a name. `None` means that it is malformed.
    fn read_entry(self, alloc: Global, cursor: &mut Cursor<'_>) -> Option<bool> {
        match self {
            EntryKind::Import => {
                let _import = Import::read(alloc, cursor).ok()?;
                Some(true)
            }
            EntryKind::Export => {
                let _export = Export::read(alloc, cursor).ok()?;
                Some(true)
            }
            EntryKind::Symbol => {
                let symbol = Symbol::read(alloc, cursor).ok()?;
                Some(has_name(&symbol))
            }
        }
    }

    /// Reads the byte that tells of which kind an entry's item is, and the index of the item. That of an import is 0.
    fn read_item(self, cursor: &mut Cursor<'_>) -> Option<(u8, u32)> {
        match self {
            EntryKind::Import => {
                skip_name(cursor)?;
                skip_name(cursor)?;
                match cursor.byte().ok()? {
                    0x20 => Some((0, 0)), // a function of exactly a type
                    item_kind => Some((item_kind, 0)),
                }
            }
            EntryKind::Export => {
                skip_name(cursor)?;
                let item_kind = cursor.byte().ok()?;
                Some((item_kind, cursor.u32().ok()?))
            }
            EntryKind::Symbol => {
                let item_kind = cursor.byte().ok()?;
                let _flags = cursor.u32().ok()?;
                Some((item_kind, cursor.u32().ok()?))
            }
        }
    }

    /// Reads the name in an entry.
    fn read_name<'a>(self, cursor: &mut Cursor<'a>) -> Option<ItemName<'a>> {
        if self == EntryKind::Symbol {
            let _item = self.read_item(cursor)?;
        }
        let name = read_name(cursor).ok()?;
        match self {
            EntryKind::Import => Some(ItemName::Imported(name, read_name(cursor).ok()?)),
            _ => Some(ItemName::Given(name)),
        }
    }

    /// Returns the byte that stands for items of an index space. `None` means that no entries name them.
    fn item_kind(self, space: IndexSpace) -> Option<u8> {
        match (self, space) {
            (_, IndexSpace::Functions) => Some(0),
            (EntryKind::Symbol, IndexSpace::Tables) => Some(5),
            (EntryKind::Symbol, IndexSpace::Memories) => None,
            (EntryKind::Symbol, IndexSpace::Globals) => Some(2),
            (_, IndexSpace::Tables) => Some(1),
            (_, IndexSpace::Memories) => Some(2),
            (_, IndexSpace::Globals) => Some(3),
            (_, IndexSpace::Tags) => Some(4),
            _ => None,
        }
    }
}

/// Checks whether a symbol is one of an item and has a name of its own.
fn has_name(symbol: &Symbol<'_>) -> bool {
    match symbol {
        Symbol::Function(item) | Symbol::Global(item) | Symbol::Tag(item) | Symbol::Table(item) =>
            item.name.is_some(),
        Symbol::Data(_) | Symbol::Section(_) => false,
    }
}
