//! Symbols of object files, and tables of them (tool conventions, WebAssembly Object File Linking).
ghost use Rattle.std.specs.Prelude.{◌≡◌, ◌↔◌, ◌∷◌, ◌++◌, ◌+◌, ◌≤◌, ◌⊎◌, [], refl, IsTrue, is_some, IfSome, OnOk, OnErr, IfErr, length, take, option_map};
ghost use Rattle.std.proofs.lemmas.List.{map_push};
ghost use Rattle.wasm_codec.specs.Encoding.{byte_list_bytes, IsCount, IsCountRefusal, IsRefusal, IsMinimal, OnlyTooLong};
ghost use Rattle.wasm_codec.specs.Lawful.{IsLawful};
ghost use Rattle.wasm_codec.specs.Inputs.{Passes, Takes};
ghost use Rattle.wasm_codec.specs.Rewriter.{Rewrites};
ghost use Rattle.wasm_codec.specs.Outcomes.{IsMalformed};
ghost use Rattle.wasm_codec.specs.formats.Grammar.{TakesBytes};
ghost use Rattle.wasm_externals.specs.formats.Names.{name as name_format};
ghost use Rattle.wasm_externals.specs.formats.PartCombinators.{part_if};
ghost use Rattle.wasm_custom_sections.specs.formats.SymbolParts.{SymbolParts, all_symbol_parts, data_parts, item_parts, symbol_parts};
ghost use Rattle.wasm_custom_sections.specs.formats.Symbols.{data_symbol, definition as definition_format, has_name as names_item, is_defined as defines, item_symbol, section_symbol, symbol};

use std::alloc::Global;
use wasm_codec::input::Input;
use wasm_codec::reader::cursor::{Cursor, Fault};
use wasm_codec::reader::malformed::Construct;
use wasm_codec::rewriter::Rewriter;
use wasm_externals::names::NameInput;
use wasm_lists::readable::Readable;

/// A symbol of a function, a global, a tag or a table.
#[derive(Clone, Copy, Debug)]
pub struct ItemSymbol<'a> {
    /// Flags, such as `WASM_SYM_UNDEFINED` of [`SymbolTable`].
    pub flags: u32,
    /// Index of the item.
    pub index: u32,
    /// Name of the symbol. `None` means the name of the import.
    pub name: Option<&'a str>,
}

/// A symbol of data.
#[derive(Clone, Copy, Debug)]
pub struct DataSymbol<'a> {
    /// Flags.
    pub flags: u32,
    /// Name of the symbol.
    pub name: &'a str,
    /// Place of the data. `None` means that another object file defines it.
    pub definition: Option<DataSymbolDefinition>,
}

/// The place of data that a symbol names.
#[derive(Clone, Copy, Debug, PartialEq, Eq)]
pub struct DataSymbolDefinition {
    /// Index of the data segment.
    pub index: u32,
    /// Offset in the segment, in bytes.
    pub offset: u32,
    /// Size of the data in bytes, which may be 0.
    pub size: u32,
}

/// A symbol of a section.
#[derive(Clone, Copy, Debug, PartialEq, Eq)]
pub struct SectionSymbol {
    /// Flags.
    pub flags: u32,
    /// Number of sections before the section in the module.
    pub section: u32,
}

/// A symbol of an object file.
#[derive(Clone, Copy, Debug)]
pub enum Symbol<'a> {
    /// Function, 0.
    Function(ItemSymbol<'a>),
    /// Data, 1.
    Data(DataSymbol<'a>),
    /// Global, 2.
    Global(ItemSymbol<'a>),
    /// Section, 3.
    Section(SectionSymbol),
    /// Tag, 4.
    Tag(ItemSymbol<'a>),
    /// Table, 5.
    Table(ItemSymbol<'a>),
}

/// Checks whether the flags of a symbol say that the object file defines it.
pub(crate) fn is_defined(flags: u32) -> bool
    ensures { result ≡ defines flags }
{
    flags & 0x10 == 0
}

/// Checks whether the flags of an item's symbol say that it has a name.
pub(crate) fn has_name(flags: u32) -> bool
    ensures { result ≡ names_item flags }
{
    is_defined(flags) || flags & 0x40 != 0
}

/// Takes a name if a flag says that there is one.
#[tactic(auto, unfolding(wasm_externals::specs::formats::PartCombinators::part_if))]
fn take_name_if<'a, I: NameInput<'a>>(input: &mut I, there: bool) -> Result<Option<&'a str>, Fault>
    ensures passes { Passes I.writes (option_map (λ text. text.now)) (part_if there name_format) (I.state input.old) (I.state input.new) result }
    ensures err { IfErr result IsMalformed }
{
    if !there {
        return Ok(None);
    }
    Ok(Some(input.name()?))
}

/// Takes the symbol of an item after its kind.
#[tactic(auto, unfolding(crate::specs::formats::Symbols::item_symbol))]
fn take_item_symbol<'a, I: NameInput<'a>>(input: &mut I) -> Result<ItemSymbol<'a>, Fault>
    ensures passes { Passes I.writes item_parts item_symbol (I.state input.old) (I.state input.new) result }
    ensures err { IfErr result IsMalformed }
{
    let flags = input.u32()?;
    let index = input.u32()?;
    let name = take_name_if(input, has_name(flags))?;
    Ok(ItemSymbol { flags, index, name })
}

/// Takes the place of data.
#[tactic(auto, unfolding(crate::specs::formats::Symbols::definition))]
fn take_definition<I: Input>(input: &mut I) -> Result<DataSymbolDefinition, Fault>
    ensures takes { Takes I.writes definition_format (I.state input.old) (I.state input.new) result }
{
    let index = input.u32()?;
    let offset = input.u32()?;
    let size = input.u32()?;
    Ok(DataSymbolDefinition {
        index,
        offset,
        size,
    })
}

/// Takes the place of data if a flag says that there is one.
#[tactic(auto, unfolding(wasm_externals::specs::formats::PartCombinators::part_if))]
fn take_definition_if<I: Input>(
    input: &mut I,
    there: bool,
) -> Result<Option<DataSymbolDefinition>, Fault>
    ensures takes { Takes I.writes (part_if there definition_format) (I.state input.old) (I.state input.new) result }
{
    if !there {
        return Ok(None);
    }
    Ok(Some(take_definition(input)?))
}

/// Takes the symbol of data after its kind.
#[tactic(auto, unfolding(crate::specs::formats::Symbols::data_symbol))]
fn take_data_symbol<'a, I: NameInput<'a>>(input: &mut I) -> Result<DataSymbol<'a>, Fault>
    ensures passes { Passes I.writes data_parts data_symbol (I.state input.old) (I.state input.new) result }
    ensures err { IfErr result IsMalformed }
{
    let flags = input.u32()?;
    let name = input.name()?;
    let definition = take_definition_if(input, is_defined(flags))?;
    Ok(DataSymbol {
        flags,
        name,
        definition,
    })
}

/// Takes the symbol of a section after its kind.
#[tactic(auto, unfolding(crate::specs::formats::Symbols::section_symbol))]
fn take_section_symbol<I: Input>(input: &mut I) -> Result<SectionSymbol, Fault>
    ensures takes { Takes I.writes section_symbol (I.state input.old) (I.state input.new) result }
{
    let flags = input.u32()?;
    let section = input.u32()?;
    Ok(SectionSymbol { flags, section })
}

/// Takes a symbol (tool conventions, WebAssembly Object File Linking).
#[tactic(auto, unfolding(crate::specs::formats::Symbols::symbol))]
fn take_symbol<'a, I: NameInput<'a>>(input: &mut I) -> Result<Symbol<'a>, Fault>
    ensures passes { Passes I.writes symbol_parts symbol (I.state input.old) (I.state input.new) result }
    ensures err { IfErr result IsMalformed }
{
    match input.byte_of(Construct::SymbolKind)? {
        0 => Ok(Symbol::Function(take_item_symbol(input)?)),
        1 => Ok(Symbol::Data(take_data_symbol(input)?)),
        2 => Ok(Symbol::Global(take_item_symbol(input)?)),
        3 => Ok(Symbol::Section(take_section_symbol(input)?)),
        4 => Ok(Symbol::Tag(take_item_symbol(input)?)),
        5 => Ok(Symbol::Table(take_item_symbol(input)?)),
        kind => Err(Fault::Malformed(input.invalid(Construct::SymbolKind, kind))),
    }
}

impl<'a> Readable<'a> for Symbol<'a> {
    ghost Value = { SymbolParts };

    ghost view = { symbol_parts };

    ghost views = { all_symbol_parts };

    ghost views_each = { record { none = refl; more = λ symbols symbol. map_push symbol_parts symbols symbol } };

    ghost format = { symbol };

    #[inline(always)]
    #[tactic(auto, using(crate::proofs::SymbolLaws::symbol_is_lawful, crate::proofs::SymbolLaws::symbol_takes))]
    fn is_lawful()
        ensures lawful { IsLawful symbol }
        ensures some { TakesBytes symbol.Encodes }
    {}

    fn read(_alloc: Global, cursor: &mut Cursor<'a>) -> Result<Symbol<'a>, Fault> {
        take_symbol(cursor)
    }

    fn rewrite(rewriter: &mut Rewriter) -> Result<(), Fault>
        ensures rewrites { Rewrites symbol rewriter.old rewriter.new result }
    {
        take_symbol(rewriter)?;
        Ok(())
    }
}
