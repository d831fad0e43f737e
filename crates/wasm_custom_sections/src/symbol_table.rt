//! Symbol tables that are built symbol by symbol (tool conventions, WebAssembly Object File Linking).
ghost use Rattle.std.specs.Prelude.{⊤, ◌≡◌, ◌↔◌, ◌∷◌, ◌++◌, [], IsTrue, is_some, OnOk, OnErr, IfErr, length, Option, option_map};
ghost use Rattle.wasm_codec.specs.Appending.{Appends};
ghost use Rattle.wasm_codec.specs.Encoding.{byte_list_bytes, IsCount, OnlyTooLong};
ghost use Rattle.wasm_codec.specs.declared.encode.EncodeError.TheVariants.{Memory};
ghost use Rattle.wasm_externals.specs.Making.{Makes};
ghost use Rattle.wasm_externals.specs.formats.Names.{name as name_format};
ghost use Rattle.wasm_externals.specs.formats.PartCombinators.{part_if};
ghost use Rattle.wasm_lists.specs.EncodedLists.{body_bytes};
ghost use Rattle.wasm_sections.specs.ListSections.{StandsForItems};
ghost use Rattle.wasm_custom_sections.specs.LinkingSections.{AddsSymbol, CanName, CountedSymbol, IsWrittenSymbol};
ghost use Rattle.wasm_custom_sections.specs.formats.SymbolParts.{data_object, data_parts, function, global, item_parts, section as section_entry, symbol_parts, table, tag};
ghost use Rattle.wasm_custom_sections.specs.formats.Symbols.{data_of, data_symbol, definition as definition_format, Agrees, ItemAgrees, DataAgrees, has_name as names_item, item_of, item_symbol, section_of, section_symbol, symbol};

use crate::sized::append_subsection;
use crate::symbols::{
    DataSymbol, DataSymbolDefinition, ItemSymbol, SectionSymbol, Symbol, has_name, is_defined,
};
use std::alloc::{Allocator, Global};
use std::marker::Model;
use wasm_codec::encode::leb128::put_u32;
use wasm_codec::encode::{EncodeError, keep_or_undo};
use wasm_externals::names::append_name;
use wasm_lists::encode::Encode;
use wasm_lists::encoded_list::{Counted, EncodedList};

/// Appends a name if it is there and a flag says so. Appends nothing if it fails.
#[tactic(auto, using(crate::proofs::SymbolLaws::no_more, crate::proofs::SymbolLaws::name_there), unfolding(wasm_externals::specs::formats::PartCombinators::part_if))]
fn append_name_if<A: Allocator>(
    name: Option<&str>,
    there: bool,
    sink: &mut Vec<u8, A>,
) -> Result<(), EncodeError>
    ensures { let text = option_map (λ text. text.now) name.entry in
        Appends ((part_if there name_format).bytes text) (CanName there text) (is_some text ≡ there → (part_if there name_format).InRange text)
        sink.old.items sink.new.items result }
{
    if !there {
        return Ok(());
    }
    match name {
        Some(name) => append_name(name, sink),
        None => Ok(()),
    }
}

/// Appends the kind and the symbol of an item. On error a part of them may remain.
fn append_item<A: Allocator>(
    kind: u8,
    item: &ItemSymbol<'_>,
    sink: &mut Vec<u8, A>,
) -> Result<(), EncodeError>
    ensures { Appends (kind ∷ item_symbol.bytes (item_parts item.now)) (CanName (names_item item.now.flags) (item_parts item.now).name)
        (ItemAgrees (item_parts item.now) → item_symbol.InRange (item_parts item.now)) sink.old.items sink.new.items result }
{
    sink.reserve(11)?;
    sink.push_reserved(kind);
    put_u32(sink, item.flags);
    put_u32(sink, item.index);
    append_name_if(item.name, has_name(item.flags), sink)
}

/// Appends the place of data if it is there and a flag says so.
#[tactic(auto, using(crate::proofs::SymbolLaws::no_more), unfolding(wasm_externals::specs::formats::PartCombinators::part_if))]
fn append_definition_if<A: Allocator>(
    definition: Option<DataSymbolDefinition>,
    there: bool,
    sink: &mut Vec<u8, A>,
) -> Result<(), EncodeError>
    ensures ok { OnOk result (sink.new.items ≡ sink.old.items ++ (part_if there definition_format).bytes definition) }
    ensures written { OnOk result (is_some definition ≡ there → (part_if there definition_format).InRange definition) }
    ensures refused { IfErr result (λ e. e ≡ Memory) }
    ensures err { OnErr result (sink.new.items ≡ sink.old.items) }
{
    if !there {
        return Ok(());
    }
    let Some(place) = definition else {
        return Ok(());
    };
    sink.reserve(15)?;
    put_u32(sink, place.index);
    put_u32(sink, place.offset);
    put_u32(sink, place.size);
    Ok(())
}

/// Appends the symbol of data, with its kind. On error a part of it may remain.
fn append_data<A: Allocator>(
    item: &DataSymbol<'_>,
    sink: &mut Vec<u8, A>,
) -> Result<(), EncodeError>
    ensures { Appends (1 ∷ data_symbol.bytes (data_parts item.now)) (IsCount (length item.now.name.now))
        (DataAgrees (data_parts item.now) → data_symbol.InRange (data_parts item.now)) sink.old.items sink.new.items result }
{
    sink.reserve(6)?;
    sink.push_reserved(1);
    put_u32(sink, item.flags);
    append_name(item.name, sink)?;
    append_definition_if(item.definition, is_defined(item.flags), sink)
}

/// Appends the symbol of a section, with its kind. On error a part of it may remain.
fn append_section<A: Allocator>(
    item: SectionSymbol,
    sink: &mut Vec<u8, A>,
) -> Result<(), EncodeError>
    ensures { Appends (3 ∷ section_symbol.bytes item) ⊤ (section_symbol.InRange item) sink.old.items sink.new.items result }
{
    sink.reserve(11)?;
    sink.push_reserved(3);
    put_u32(sink, item.flags);
    put_u32(sink, item.section);
    Ok(())
}

/// Appends a symbol. On error a part of it may remain.
#[tactic(auto, unfolding(crate::specs::formats::Symbols::symbol))]
fn append_symbol<A: Allocator>(item: &Symbol<'_>, sink: &mut Vec<u8, A>) -> Result<(), EncodeError>
    ensures { Appends (symbol.bytes (symbol_parts item.now)) (CountedSymbol (symbol_parts item.now)) (IsWrittenSymbol (symbol_parts item.now)) sink.old.items sink.new.items result }
{
    match item {
        Symbol::Function(function) => append_item(0, function, sink),
        Symbol::Data(data) => append_data(data, sink),
        Symbol::Global(global) => append_item(2, global, sink),
        Symbol::Section(section) => append_section(*section, sink),
        Symbol::Tag(tag) => append_item(4, tag, sink),
        Symbol::Table(table) => append_item(5, table, sink),
    }
}

/// The kind of the symbol, and its parts.
///
/// A name or a definition that the flags exclude isn't written. Fails with `TooLong` if the name is longer than
/// 4,294,967,295 bytes.
impl<'a> Encode for Symbol<'a> {
    ghost bytes = { λ item. symbol.bytes (symbol_parts item) };

    ghost IsWritten = { λ item. IsWrittenSymbol (symbol_parts item) };

    ghost CanEncode = { λ item. CountedSymbol (symbol_parts item) };

    ghost refuses = { OnlyTooLong };

    fn encode<A: Allocator>(&self, sink: &mut Vec<u8, A>) -> Result<(), EncodeError> {
        let start = sink.len();
        let result = append_symbol(self, sink);
        keep_or_undo(sink, start, result)
    }
}

/// Checks whether the parts of a symbol are those that its flags ask for.
fn fits_flags(symbol: &Symbol<'_>) -> bool
    ensures { IsTrue result ↔ Agrees (symbol_parts symbol.now) }
{
    match symbol {
        Symbol::Function(item) | Symbol::Global(item) | Symbol::Tag(item) | Symbol::Table(item) => {
            item.name.is_some() == has_name(item.flags)
        }
        Symbol::Data(data) => data.definition.is_some() == is_defined(data.flags),
        Symbol::Section(_) => true,
    }
}

/// A symbol table, the subsection 8 of a linking section: you add symbols, and it keeps them encoded.
///
/// On error the table is unchanged. In contracts the table is the number of its symbols and their bytes.
///
/// # Examples
///
/// ```
/// # use wasm_encoder::{Encode, SymbolTable};
/// let mut symbols = SymbolTable::new(rt.alloc());
/// symbols.function(SymbolTable::WASM_SYM_BINDING_LOCAL, 3, Some("f"))?;
/// symbols.function(SymbolTable::WASM_SYM_UNDEFINED, 0, None)?; // it has the name of the import
/// let mut bytes = Vec::new(rt.alloc());
/// symbols.encode(&mut bytes)?; // the id 8, the size, and two symbols
/// let expected = b"\x08\x09\x02\x00\x02\x03\x01f\x00\x10\x00";
/// assert_eq!(rt; bytes.as_slice(), expected.as_slice());
/// ```
#[derive(Debug, Drop)]
pub struct SymbolTable {
    symbols: EncodedList,
}

impl Model for SymbolTable {
    ghost use Rattle.wasm_lists.specs.EncodedLists.{EncodedItems};

    ghost Value = { EncodedItems };

    ghost view = { λ table. table.symbols };
}

impl SymbolTable {
    /// Flag of a weak symbol: the linker may take another definition.
    pub const WASM_SYM_BINDING_WEAK: u32 = 0x01;
    /// Flag of a local symbol, which other object files don't see.
    pub const WASM_SYM_BINDING_LOCAL: u32 = 0x02;
    /// Flag of a hidden symbol, which isn't exported.
    pub const WASM_SYM_VISIBILITY_HIDDEN: u32 = 0x04;
    /// Flag of a symbol that another object file defines.
    pub const WASM_SYM_UNDEFINED: u32 = 0x10;
    /// Flag of a symbol that the linker exports.
    pub const WASM_SYM_EXPORTED: u32 = 0x20;
    /// Flag of an imported symbol that has a name of its own.
    pub const WASM_SYM_EXPLICIT_NAME: u32 = 0x40;
    /// Flag of a symbol that the linker keeps even if nothing uses it.
    pub const WASM_SYM_NO_STRIP: u32 = 0x80;
    /// Flag of data that each thread has its own copy of.
    pub const WASM_SYM_TLS: u32 = 0x100;
    /// Flag of data whose offset is an address.
    pub const WASM_SYM_ABSOLUTE: u32 = 0x200;

    /// Returns a table without symbols. Allocates nothing.
    #[tactic(auto, using(crate::proofs::GainingLaws::stands_for_none))]
    pub fn new(alloc: Global) -> SymbolTable
        ensures { StandsForItems symbol result [] }
    {
        SymbolTable {
            symbols: EncodedList::new(alloc),
        }
    }

    /// Returns the number of symbols.
    pub fn len(&self) -> u32
        ensures { result ≡ self.now.count }
    {
        self.symbols.len()
    }

    /// Returns whether the table has no symbols.
    pub fn is_empty(&self) -> bool
        ensures { IsTrue result ↔ (self.now.count ≡ 0) }
    {
        self.symbols.len() == 0
    }

    /// Adds the symbol of the function `index`.
    ///
    /// `flags` ask for a name unless they have `WASM_SYM_UNDEFINED` without `WASM_SYM_EXPLICIT_NAME`.
    ///
    /// Fails with `SymbolFlags` if they ask for a name and `name` is `None`, or don't and it is `Some`. Fails with
    /// `TooLong` if the table already has 4,294,967,295 symbols or `name` is longer than 4,294,967,295 bytes, and with
    /// `Memory` if the table can't grow.
    pub fn function(
        &mut self,
        flags: u32,
        index: u32,
        name: Option<&str>,
    ) -> Result<(), EncodeError>
        ensures adds { AddsSymbol self.old (function (item_of (flags, (index, option_map (λ text. text.now) name.entry)))) self.new result }
    {
        self.add(&Symbol::Function(ItemSymbol { flags, index, name }))
    }

    /// Adds the symbol `name` of data, which `definition` places.
    ///
    /// `flags` ask for a definition unless they have `WASM_SYM_UNDEFINED`. Fails with `SymbolFlags` if they ask for one and
    /// `definition` is `None`, or don't and it is `Some`, and else as [`function`](SymbolTable::function) does.
    pub fn data(
        &mut self,
        flags: u32,
        name: &str,
        definition: Option<DataSymbolDefinition>,
    ) -> Result<(), EncodeError>
        ensures adds { AddsSymbol self.old (data_object (data_of (flags, (name.now, definition)))) self.new result }
    {
        self.add(&Symbol::Data(DataSymbol {
            flags,
            name,
            definition,
        }))
    }

    /// Adds the symbol of the global `index`. `name` and errors are as in [`function`](SymbolTable::function).
    pub fn global(&mut self, flags: u32, index: u32, name: Option<&str>) -> Result<(), EncodeError>
        ensures adds { AddsSymbol self.old (global (item_of (flags, (index, option_map (λ text. text.now) name.entry)))) self.new result }
    {
        self.add(&Symbol::Global(ItemSymbol { flags, index, name }))
    }

    /// Adds the symbol of the section with `section` sections before it.
    ///
    /// Fails with `TooLong` if the table already has 4,294,967,295 symbols, and with `Memory` if the table can't grow.
    pub fn section(&mut self, flags: u32, section: u32) -> Result<(), EncodeError>
        ensures adds { AddsSymbol self.old (section_entry (section_of (flags, section))) self.new result }
    {
        self.add(&Symbol::Section(SectionSymbol { flags, section }))
    }

    /// Adds the symbol of the tag `index`. `name` and errors are as in [`function`](SymbolTable::function).
    pub fn tag(&mut self, flags: u32, index: u32, name: Option<&str>) -> Result<(), EncodeError>
        ensures adds { AddsSymbol self.old (tag (item_of (flags, (index, option_map (λ text. text.now) name.entry)))) self.new result }
    {
        self.add(&Symbol::Tag(ItemSymbol { flags, index, name }))
    }

    /// Adds the symbol of the table `index`. `name` and errors are as in [`function`](SymbolTable::function).
    pub fn table(&mut self, flags: u32, index: u32, name: Option<&str>) -> Result<(), EncodeError>
        ensures adds { AddsSymbol self.old (table (item_of (flags, (index, option_map (λ text. text.now) name.entry)))) self.new result }
    {
        self.add(&Symbol::Table(ItemSymbol { flags, index, name }))
    }

    /// Adds a symbol. Fails with `SymbolFlags` if its parts aren't those that its flags ask for.
    fn add(&mut self, symbol: &Symbol<'_>) -> Result<(), EncodeError>
        ensures adds { AddsSymbol self.old (symbol_parts symbol.now) self.new result }
    {
        if !fits_flags(symbol) {
            return Err(EncodeError::SymbolFlags);
        }
        self.symbols.add(symbol)
    }

    /// Copies the table. Fails with `Memory` if it can't allocate.
    pub fn try_clone(&self) -> Result<SymbolTable, EncodeError>
        ensures makes { Makes self.now result }
    {
        let symbols = self.symbols.try_clone()?;
        Ok(SymbolTable { symbols })
    }
}

/// The id 8, the size in bytes, the number of symbols, and the symbols.
///
/// Fails with `TooLong` if the symbols are longer than 4,294,967,295 bytes.
impl Encode for SymbolTable {
    ghost bytes = { λ table. 8 ∷ byte_list_bytes (body_bytes table) };

    ghost IsWritten = { λ table. IsCount table.count × IsCount (length (body_bytes table)) };

    ghost CanEncode = { λ table. IsCount (length (body_bytes table)) };

    ghost refuses = { OnlyTooLong };

    fn encode<A: Allocator>(&self, sink: &mut Vec<u8, A>) -> Result<(), EncodeError> {
        let start = sink.len();
        let table = Counted {
            list: &self.symbols,
        };
        let result = append_subsection(8, &table, sink);
        keep_or_undo(sink, start, result)
    }
}
