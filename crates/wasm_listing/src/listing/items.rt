//! Text of the items of sections.
use crate::listing::instructions::ExprText;
use crate::listing::types::EntryText;
use crate::listing::{ItemName, ItemNames, NameText, Segment, Types};
use escaped_text::Escaped;
use std::fmt;
use wasm_externals::limits::{MemoryType, TableType};
use wasm_externals::types::{EntityType, ExportKind, GlobalType, TagType};
use wasm_modules::indices::IndexSpace;
use wasm_sections::data::{DataSegment, DataSegmentMode};
use wasm_sections::elements::{ElementMode, Elements};
use wasm_sections::exports::Export;
use wasm_sections::globals::Global;
use wasm_sections::imports::Import;
use wasm_sections::tables::Table;
use wasm_types::types::ValType;

/// An item of a section, with the index and the name that it has in the module.
#[derive(Clone, Copy)]
pub enum ItemText<'i> {
    /// An entry of a type section, the index of its first type, and the names of types.
    Types(&'i Types<'i>, u32, &'i ItemNames<'i>),
    /// An import.
    Import(Import<'i>, u32, Option<ItemName<'i>>),
    /// A function: its index, type index and name.
    Function(u32, u32, Option<ItemName<'i>>),
    /// A table.
    Table(&'i Table, u32, Option<ItemName<'i>>),
    /// A memory.
    Memory(MemoryType, u32, Option<ItemName<'i>>),
    /// A tag.
    Tag(TagType, u32, Option<ItemName<'i>>),
    /// A global.
    Global(&'i Global, u32, Option<ItemName<'i>>),
    /// An export.
    Export(Export<'i>),
    /// The start function: its index and name.
    Start(u32, Option<ItemName<'i>>),
    /// An element segment.
    Element(&'i Segment<'i>, u32, Option<ItemName<'i>>),
    /// The number of data segments.
    DataCount(u32),
    /// A function's body: its index and name.
    Body(u32, Option<ItemName<'i>>),
    /// A data segment, without its bytes.
    Data(&'i DataSegment<'i>, u32, Option<ItemName<'i>>),
}

impl<'i> ItemText<'i> {
    /// Returns the bytes of a data segment. Other items have none.
    pub fn contents(&self) -> &'i [u8] {
        match self {
            ItemText::Data(data, ..) => data.bytes,
            _ => &[],
        }
    }

    /// Returns the name of the item. The names of a group of types are in its text.
    pub fn name(&self) -> Option<ItemName<'i>> {
        match self {
            ItemText::Types(entry, first, names) => {
                if entry.is_group {
                    return None;
                }
                names.get(IndexSpace::Types, *first)
            }
            ItemText::Import(_, _, name)
            | ItemText::Function(_, _, name)
            | ItemText::Table(_, _, name)
            | ItemText::Memory(_, _, name)
            | ItemText::Tag(_, _, name)
            | ItemText::Global(_, _, name)
            | ItemText::Element(_, _, name)
            | ItemText::Data(_, _, name)
            | ItemText::Start(_, name)
            | ItemText::Body(_, name) => *name,
            ItemText::Export(_) | ItemText::DataCount(_) => None,
        }
    }
}

impl fmt::Display for ItemText<'_> {
    fn fmt<W: fmt::Write>(&self, f: &mut fmt::Formatter<W>) -> fmt::Result {
        write!(f, "{}{}", Unnamed(self), NameText(self.name()))
    }
}

/// An item without its name.
#[derive(Clone, Copy)]
pub struct Unnamed<'i, 't>(pub &'t ItemText<'i>);

impl fmt::Display for Unnamed<'_, '_> {
    fn fmt<W: fmt::Write>(&self, f: &mut fmt::Formatter<W>) -> fmt::Result {
        match self.0 {
            ItemText::Types(entry, first, names) => {
                let (first, names) = (*first, *names);
                let text = EntryText {
                    entry,
                    first,
                    names,
                };
                write!(f, "{text}")
            }
            ItemText::Import(import, index, _) => write_import(f, import, *index),
            ItemText::Function(index, ty, _) => write!(f, "func[{index}] type {ty}"),
            ItemText::Table(table, index, _) => write_table(f, table, *index),
            ItemText::Memory(ty, index, _) => write!(f, "memory[{index}] {}", MemoryText(*ty)),
            ItemText::Tag(ty, index, _) => write!(f, "tag[{index}] type {}", ty.func_type_idx),
            ItemText::Global(global, index, _) => {
                let init = ExprText(global.init.as_slice());
                write!(f, "global[{index}] {} = {init}", GlobalText(global.ty))
            }
            ItemText::Export(export) => {
                let (kind, name) = (kind_name(export.kind), Escaped(export.name));
                write!(f, "{kind}[{}] -> \"{name}\"", export.index)
            }
            ItemText::Start(index, _) | ItemText::Body(index, _) => write!(f, "func[{index}]"),
            ItemText::Element(segment, index, _) => write_segment(f, segment, *index),
            ItemText::DataCount(count) => {
                let plural = if *count == 1 { "" } else { "s" };
                write!(f, "{count} data segment{plural}")
            }
            ItemText::Data(data, index, _) => write_data(f, data, *index),
        }
    }
}

/// A group of locals: how many, and their type.
#[derive(Clone, Copy, PartialEq, Eq)]
pub struct LocalsText(pub u32, pub ValType);

impl fmt::Display for LocalsText {
    fn fmt<W: fmt::Write>(&self, f: &mut fmt::Formatter<W>) -> fmt::Result {
        let LocalsText(count, ty) = *self;
        let noun = if count == 1 { "local" } else { "locals" };
        write!(f, "{count} {noun} of {ty}")
    }
}

fn write_import<W: fmt::Write>(
    f: &mut fmt::Formatter<W>,
    import: &Import<'_>,
    index: u32,
) -> fmt::Result {
    match import.ty {
        EntityType::Function(ty) => write!(f, "func[{index}] type {ty}")?,
        EntityType::FunctionExact(ty) => write!(f, "func[{index}] exact type {ty}")?,
        EntityType::Table(ty) => write!(f, "table[{index}] {}", TableText(ty))?,
        EntityType::Memory(ty) => write!(f, "memory[{index}] {}", MemoryText(ty))?,
        EntityType::Global(ty) => write!(f, "global[{index}] {}", GlobalText(ty))?,
        EntityType::Tag(ty) => write!(f, "tag[{index}] type {}", ty.func_type_idx)?,
    }
    let (module, field) = (Escaped(import.module), Escaped(import.field));
    write!(f, " <- \"{module}\" \"{field}\"")
}

fn write_table<W: fmt::Write>(f: &mut fmt::Formatter<W>, table: &Table, index: u32) -> fmt::Result {
    write!(f, "table[{index}] {}", TableText(table.ty))?;
    match &table.init {
        Some(init) => write!(f, " = {}", ExprText(init.as_slice())),
        None => Ok(()),
    }
}

fn kind_name(kind: ExportKind) -> &'static str {
    match kind {
        ExportKind::Func => "func",
        ExportKind::Table => "table",
        ExportKind::Memory => "memory",
        ExportKind::Global => "global",
        ExportKind::Tag => "tag",
    }
}

/// The type of a table.
#[derive(Clone, Copy)]
struct TableText(TableType);

impl fmt::Display for TableText {
    fn fmt<W: fmt::Write>(&self, f: &mut fmt::Formatter<W>) -> fmt::Result {
        let ty = self.0;
        write!(f, "{} initial={}", ty.element_type, ty.minimum)?;
        write_limits(f, ty.maximum, ty.shared, ty.table64)
    }
}

/// The type of a memory.
#[derive(Clone, Copy)]
struct MemoryText(MemoryType);

impl fmt::Display for MemoryText {
    fn fmt<W: fmt::Write>(&self, f: &mut fmt::Formatter<W>) -> fmt::Result {
        let ty = self.0;
        write!(f, "initial={}", ty.minimum)?;
        write_limits(f, ty.maximum, ty.shared, ty.memory64)?;
        match ty.page_size_log2 {
            Some(log2) => write!(f, " pagesize=2^{log2}"),
            None => Ok(()),
        }
    }
}

/// Writes what follows the minimum of limits.
fn write_limits<W: fmt::Write>(
    f: &mut fmt::Formatter<W>,
    maximum: Option<u64>,
    shared: bool,
    is_64: bool,
) -> fmt::Result {
    if let Some(maximum) = maximum {
        write!(f, " max={maximum}")?;
    }
    if shared {
        write!(f, " shared")?;
    }
    if is_64 {
        write!(f, " i64")?;
    }
    Ok(())
}

/// The type of a global.
#[derive(Clone, Copy)]
struct GlobalText(GlobalType);

impl fmt::Display for GlobalText {
    fn fmt<W: fmt::Write>(&self, f: &mut fmt::Formatter<W>) -> fmt::Result {
        let GlobalType {
            val_type,
            mutable,
            shared,
        } = self.0;
        let shared = if shared { "shared " } else { "" };
        let mutable = if mutable { "mut " } else { "" };
        write!(f, "{shared}{mutable}{val_type}")
    }
}

fn write_segment<W: fmt::Write>(
    f: &mut fmt::Formatter<W>,
    segment: &Segment<'_>,
    index: u32,
) -> fmt::Result {
    write!(f, "segment[{index}] ")?;
    match &segment.head.mode {
        ElementMode::Passive => write!(f, "passive")?,
        ElementMode::Declared => write!(f, "declared")?,
        ElementMode::Active {
            table_index,
            offset,
        } => {
            let offset = ExprText(offset.as_slice());
            write!(f, "active table {table_index} offset {offset}")?;
        }
    }
    match &segment.head.elements {
        Elements::Functions(_) => write!(f, ": func")?,
        Elements::Expressions(ty, _) => write!(f, ": {ty}")?,
    }
    segment.write_elements(f)
}

fn write_data<W: fmt::Write>(
    f: &mut fmt::Formatter<W>,
    data: &DataSegment<'_>,
    index: u32,
) -> fmt::Result {
    write!(f, "segment[{index}] ")?;
    match &data.mode {
        DataSegmentMode::Passive => write!(f, "passive")?,
        DataSegmentMode::Active {
            memory_index,
            offset,
        } => {
            let offset = ExprText(offset.as_slice());
            write!(f, "active memory {memory_index} offset {offset}")?;
        }
    }
    let (len, plural) = (
        data.bytes.len(),
        if data.bytes.len() == 1 { "" } else { "s" },
    );
    write!(f, ": {len} byte{plural}")
}
