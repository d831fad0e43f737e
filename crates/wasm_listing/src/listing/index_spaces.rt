//! The indexes of items in a module (Core 3.0, Indices).
use crate::listing::{
    ItemName, ItemNames, ItemText, Part, PartReader, Segment, Stop, Types, read_data,
};
use wasm_externals::limits::MemoryType;
use wasm_externals::types::{EntityType, TagType};
use wasm_modules::indices::IndexSpace;
use wasm_sections::data::DataSegment;
use wasm_sections::exports::Export;
use wasm_sections::globals::Global;
use wasm_sections::imports::Import;
use wasm_sections::tables::Table;

/// The next index of each kind of item, and the names of items.
#[derive(Clone, Copy)]
pub struct IndexSpaces<'n> {
    names: &'n ItemNames<'n>,
    types: u32,
    functions: u32,
    /// Index of the next function whose body comes.
    bodies: u32,
    tables: u32,
    memories: u32,
    globals: u32,
    tags: u32,
    elements: u32,
    data: u32,
}

impl<'n> IndexSpaces<'n> {
    /// Returns the indexes of the first items.
    pub fn new(names: &'n ItemNames<'n>) -> IndexSpaces<'n> {
        IndexSpaces {
            names,
            types: 0,
            functions: 0,
            bodies: 0,
            tables: 0,
            memories: 0,
            globals: 0,
            tags: 0,
            elements: 0,
            data: 0,
        }
    }

    /// Returns the name of the item with this index.
    pub fn name(&self, space: IndexSpace, index: u32) -> Option<ItemName<'n>> {
        self.names.get(space, index)
    }

    /// Returns the name of the function with this index.
    pub fn function_name(&self, function: u32) -> Option<ItemName<'n>> {
        self.name(IndexSpace::Functions, function)
    }

    /// Returns the index of the next function whose body comes.
    pub fn body(&self) -> u32 {
        self.bodies
    }

    /// Returns the index of the next function whose body comes, and counts it.
    pub fn next_body(&mut self) -> u32 {
        let index = self.bodies;
        increment(&mut self.bodies);
        index
    }
}

/// Adds 1. Indexes have 32 bits.
fn increment(index: &mut u32) {
    *index = index.saturating_add(1);
}

/// An item that a listing shows.
pub trait Listed<'a>: Drop + Sized {
    /// Reads the item with this number.
    fn read(parts: &mut PartReader<'a>, number: u32) -> Result<(Part<'a>, Self), Stop>;

    /// Returns the item's text, with its index.
    fn text<'i>(&'i self, spaces: &IndexSpaces<'i>) -> ItemText<'i>;

    /// Checks whether two items are the same.
    fn is_same(&self, other: &Self) -> Result<bool, Stop>;

    /// Counts the item.
    fn count(&self, spaces: &mut IndexSpaces<'_>);
}

impl<'a> Listed<'a> for Types<'a> {
    fn read(parts: &mut PartReader<'a>, number: u32) -> Result<(Part<'a>, Types<'a>), Stop> {
        Types::read(parts, number)
    }

    fn text<'i>(&'i self, spaces: &IndexSpaces<'i>) -> ItemText<'i> {
        ItemText::Types(self, spaces.types, spaces.names)
    }

    fn is_same(&self, other: &Self) -> Result<bool, Stop> {
        Types::is_same(self, other)
    }

    fn count(&self, spaces: &mut IndexSpaces<'_>) {
        spaces.types = spaces.types.saturating_add(self.count);
    }
}

impl<'a> Listed<'a> for Import<'a> {
    fn read(parts: &mut PartReader<'a>, number: u32) -> Result<(Part<'a>, Import<'a>), Stop> {
        parts.item::<Import<'a>>(number)
    }

    fn text<'i>(&'i self, spaces: &IndexSpaces<'i>) -> ItemText<'i> {
        let (space, index) = match self.ty {
            EntityType::Function(_) | EntityType::FunctionExact(_) => {
                (IndexSpace::Functions, spaces.functions)
            }
            EntityType::Table(_) => (IndexSpace::Tables, spaces.tables),
            EntityType::Memory(_) => (IndexSpace::Memories, spaces.memories),
            EntityType::Global(_) => (IndexSpace::Globals, spaces.globals),
            EntityType::Tag(_) => (IndexSpace::Tags, spaces.tags),
        };
        ItemText::Import(*self, index, spaces.names.given(space, index))
    }

    fn is_same(&self, other: &Self) -> Result<bool, Stop> {
        Ok(self.module == other.module && self.field == other.field && self.ty == other.ty)
    }

    fn count(&self, spaces: &mut IndexSpaces<'_>) {
        match self.ty {
            EntityType::Function(_) | EntityType::FunctionExact(_) => {
                increment(&mut spaces.functions);
                increment(&mut spaces.bodies);
            }
            EntityType::Table(_) => increment(&mut spaces.tables),
            EntityType::Memory(_) => increment(&mut spaces.memories),
            EntityType::Global(_) => increment(&mut spaces.globals),
            EntityType::Tag(_) => increment(&mut spaces.tags),
        }
    }
}

impl<'a> Listed<'a> for u32 {
    fn read(parts: &mut PartReader<'a>, number: u32) -> Result<(Part<'a>, u32), Stop> {
        parts.item::<u32>(number)
    }

    fn text<'i>(&'i self, spaces: &IndexSpaces<'i>) -> ItemText<'i> {
        ItemText::Function(
            spaces.functions,
            *self,
            spaces.function_name(spaces.functions),
        )
    }

    fn is_same(&self, other: &Self) -> Result<bool, Stop> {
        Ok(*self == *other)
    }

    fn count(&self, spaces: &mut IndexSpaces<'_>) {
        increment(&mut spaces.functions);
    }
}

impl<'a> Listed<'a> for Table {
    fn read(parts: &mut PartReader<'a>, number: u32) -> Result<(Part<'a>, Table), Stop> {
        parts.item::<Table>(number)
    }

    fn text<'i>(&'i self, spaces: &IndexSpaces<'i>) -> ItemText<'i> {
        let name = spaces.name(IndexSpace::Tables, spaces.tables);
        ItemText::Table(self, spaces.tables, name)
    }

    fn is_same(&self, other: &Self) -> Result<bool, Stop> {
        Ok(*self == *other)
    }

    fn count(&self, spaces: &mut IndexSpaces<'_>) {
        increment(&mut spaces.tables);
    }
}

impl<'a> Listed<'a> for MemoryType {
    fn read(parts: &mut PartReader<'a>, number: u32) -> Result<(Part<'a>, MemoryType), Stop> {
        parts.item::<MemoryType>(number)
    }

    fn text<'i>(&'i self, spaces: &IndexSpaces<'i>) -> ItemText<'i> {
        let name = spaces.name(IndexSpace::Memories, spaces.memories);
        ItemText::Memory(*self, spaces.memories, name)
    }

    fn is_same(&self, other: &Self) -> Result<bool, Stop> {
        Ok(*self == *other)
    }

    fn count(&self, spaces: &mut IndexSpaces<'_>) {
        increment(&mut spaces.memories);
    }
}

impl<'a> Listed<'a> for TagType {
    fn read(parts: &mut PartReader<'a>, number: u32) -> Result<(Part<'a>, TagType), Stop> {
        parts.item::<TagType>(number)
    }

    fn text<'i>(&'i self, spaces: &IndexSpaces<'i>) -> ItemText<'i> {
        let name = spaces.name(IndexSpace::Tags, spaces.tags);
        ItemText::Tag(*self, spaces.tags, name)
    }

    fn is_same(&self, other: &Self) -> Result<bool, Stop> {
        Ok(*self == *other)
    }

    fn count(&self, spaces: &mut IndexSpaces<'_>) {
        increment(&mut spaces.tags);
    }
}

impl<'a> Listed<'a> for Global {
    fn read(parts: &mut PartReader<'a>, number: u32) -> Result<(Part<'a>, Global), Stop> {
        parts.item::<Global>(number)
    }

    fn text<'i>(&'i self, spaces: &IndexSpaces<'i>) -> ItemText<'i> {
        let name = spaces.name(IndexSpace::Globals, spaces.globals);
        ItemText::Global(self, spaces.globals, name)
    }

    fn is_same(&self, other: &Self) -> Result<bool, Stop> {
        Ok(*self == *other)
    }

    fn count(&self, spaces: &mut IndexSpaces<'_>) {
        increment(&mut spaces.globals);
    }
}

impl<'a> Listed<'a> for Export<'a> {
    fn read(parts: &mut PartReader<'a>, number: u32) -> Result<(Part<'a>, Export<'a>), Stop> {
        parts.item::<Export<'a>>(number)
    }

    fn text<'i>(&'i self, _spaces: &IndexSpaces<'i>) -> ItemText<'i> {
        ItemText::Export(*self)
    }

    fn is_same(&self, other: &Self) -> Result<bool, Stop> {
        Ok(self.kind == other.kind && self.name == other.name && self.index == other.index)
    }

    fn count(&self, _spaces: &mut IndexSpaces<'_>) {}
}

impl<'a> Listed<'a> for Segment<'a> {
    fn read(parts: &mut PartReader<'a>, number: u32) -> Result<(Part<'a>, Segment<'a>), Stop> {
        Segment::read(parts, number)
    }

    fn text<'i>(&'i self, spaces: &IndexSpaces<'i>) -> ItemText<'i> {
        let name = spaces.name(IndexSpace::Elements, spaces.elements);
        ItemText::Element(self, spaces.elements, name)
    }

    fn is_same(&self, other: &Self) -> Result<bool, Stop> {
        Segment::is_same(self, other)
    }

    fn count(&self, spaces: &mut IndexSpaces<'_>) {
        increment(&mut spaces.elements);
    }
}

impl<'a> Listed<'a> for DataSegment<'a> {
    fn read(parts: &mut PartReader<'a>, number: u32) -> Result<(Part<'a>, DataSegment<'a>), Stop> {
        read_data(parts, number)
    }

    fn text<'i>(&'i self, spaces: &IndexSpaces<'i>) -> ItemText<'i> {
        let name = spaces.name(IndexSpace::Data, spaces.data);
        ItemText::Data(self, spaces.data, name)
    }

    fn is_same(&self, other: &Self) -> Result<bool, Stop> {
        Ok(self.mode == other.mode && self.bytes == other.bytes)
    }

    fn count(&self, spaces: &mut IndexSpaces<'_>) {
        increment(&mut spaces.data);
    }
}
