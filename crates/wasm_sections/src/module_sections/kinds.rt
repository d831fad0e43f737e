//! Kinds of sections: their ids, names and contents, and what is done with a section by its kind.
ghost use Rattle.std.specs.Prelude.{◌<◌, ◌≤◌, ℕ, List, ⊤, IsSome, IsNone, IfSome, IfNone};
ghost use Rattle.wasm_codec.specs.formats.Combinators.{Format, u32 as u32_format};
ghost use Rattle.wasm_codec.specs.Outcomes.{IfInItem};
ghost use Rattle.wasm_codec.specs.Places.{Reads};
ghost use Rattle.wasm_codec.specs.Reading.{map_ok};
ghost use Rattle.wasm_types.specs.formats.Types.{recursive_type};
ghost use Rattle.wasm_code.specs.formats.CodeBodies.{code_body};
ghost use Rattle.wasm_sections.specs.formats.Elements.{element_segment};
ghost use Rattle.wasm_sections.specs.formats.Entries.{import_entry, table_entry, global_entry, export_entry};
ghost use Rattle.wasm_externals.specs.formats.Externals.{memory_type, tag_type};
ghost use Rattle.wasm_sections.specs.formats.ModuleSectionParts.{ModuleSectionParts, module_section_parts, custom, types, imports, functions, tables, memories, globals, exports, start, elements, code, data_segments, data_count, tags, custom_part, type_entries_part, imports_part, function_indexes_part, tables_part, memories_part, globals_part, exports_part, start_part, elements_part, code_part, data_segments_part, data_count_part, tags_part};
ghost use Rattle.wasm_sections.specs.formats.ModuleSections.{BreaksInList, OfKind, one_of, list_of};
ghost use Rattle.wasm_sections.specs.formats.Sections.{custom_body};
ghost use Rattle.wasm_sections.specs.formats.Segments.{data_segment};

use crate::bodies::read_sized_list;
use crate::custom::Custom;
use crate::data::DataSegment;
use crate::elements::Element;
use crate::exports::Export;
use crate::globals::Global as GlobalEntry;
use crate::imports::Import;
use crate::module_sections::ModuleSection;
use crate::module_sections::reader::{read_sized_custom, read_sized_number};
use crate::numbers::Number;
use crate::tables::Table;
use std::alloc::Global;
use wasm_code::code::CodeBody;
use wasm_codec::reader::cursor::{Cursor, Fault};
use wasm_externals::limits::MemoryType;
use wasm_externals::types::TagType;
use wasm_lists::readable::Item;
use wasm_lists::rewriting::{Rewritable, RewritableBody};
use wasm_types::types::TypeEntry;

/// A kind of section. It is implemented for the section's items if the section is a list.
pub trait SectionKind {
    /// The bytes that encode the content after the section's id.
    ghost content: { Format ModuleSectionParts };

    /// What the content is if a fault names the item with this index. By default nothing is known.
    ghost ContentBreaks: { List ℕ → ℕ → Type 0 } = { λ content index. ⊤ };

    /// Reads the content after the section's id. Fails with `Malformed` if it can't be decoded, and with `Memory` if an
    /// allocation fails.
    fn read<'a>(alloc: Global, cursor: &mut Cursor<'a>) -> Result<ModuleSection<'a>, Fault>
        ensures reads { Reads content.at cursor.old cursor.new (map_ok module_section_parts result) }
        ensures names { IfInItem result (ContentBreaks cursor.old.left) };
}

/// What is done with a section by its kind.
pub trait SectionVisitor {
    /// The result.
    type Output;

    /// What is done with a list, given the formats of its items and of the section's content, and where it breaks off.
    ghost visits_list: { (V : Type 0) → Format V → Format ModuleSectionParts → (List ℕ → ℕ → Type 0) → Self → Self → Self.Output → Type 0 };

    /// What is done with another body, given the formats of the body and of the section's content.
    ghost visits_body: { (V : Type 0) → Format V → Format ModuleSectionParts → Self → Self → Self.Output → Type 0 };

    /// What is done if the id is unknown.
    ghost visits_unknown: { Self → Self → Self.Output → Type 0 };

    /// Visits a section that is a list of items `T`.
    fn visit_list<T: Rewritable + SectionKind>(&mut self) -> Self::Output
        ensures visits { visits_list T.Value T.format T.content T.ContentBreaks self.old self.new result };

    /// Visits a section of kind `K` with a body `B` that isn't a list.
    fn visit_body<B: RewritableBody, K: SectionKind>(&mut self) -> Self::Output
        ensures visits { visits_body B.Value B.format K.content self.old self.new result };

    /// Visits a section with an unknown id.
    fn visit_unknown(&mut self, id: u8) -> Self::Output
        ensures visits { visits_unknown self.old self.new result };
}

/// Visits a section by its id (Core 3.0, Modules). This is the one table of the kinds of sections.
pub fn visit_section<V: SectionVisitor>(id: u8, visitor: &mut V) -> V::Output
    ensures visits { OfKind
        (λ T F C. V.visits_list T F C (BreaksInList F) visitor.old visitor.new result)
        (λ T F C. V.visits_body T F C visitor.old visitor.new result)
        (V.visits_unknown visitor.old visitor.new result) id }
{
    match id {
        0 => visitor.visit_body::<Custom, Custom>(),
        1 => visitor.visit_list::<TypeEntry>(),
        2 => visitor.visit_list::<Item<'static, Import<'static>>>(),
        3 => visitor.visit_list::<u32>(),
        4 => visitor.visit_list::<Item<'static, Table>>(),
        5 => visitor.visit_list::<Item<'static, MemoryType>>(),
        6 => visitor.visit_list::<Item<'static, GlobalEntry>>(),
        7 => visitor.visit_list::<Item<'static, Export<'static>>>(),
        8 => visitor.visit_body::<Number, Start>(),
        9 => visitor.visit_list::<Item<'static, Element>>(),
        10 => visitor.visit_list::<CodeBody>(),
        11 => visitor.visit_list::<Item<'static, DataSegment<'static>>>(),
        12 => visitor.visit_body::<Number, DataCount>(),
        13 => visitor.visit_list::<Item<'static, TagType>>(),
        14.. => visitor.visit_unknown(id),
    }
}

impl SectionKind for Custom {
    ghost content = { one_of custom custom_part custom_body };

    fn read<'a>(_alloc: Global, cursor: &mut Cursor<'a>) -> Result<ModuleSection<'a>, Fault> {
        Ok(ModuleSection::Custom(read_sized_custom(cursor)?))
    }
}

impl SectionKind for TypeEntry {
    ghost content = { list_of types type_entries_part recursive_type };

    ghost ContentBreaks = { BreaksInList recursive_type };

    fn read<'a>(alloc: Global, cursor: &mut Cursor<'a>) -> Result<ModuleSection<'a>, Fault> {
        Ok(ModuleSection::Types(read_sized_list(alloc, cursor)?))
    }
}

impl SectionKind for Item<'static, Import<'static>> {
    ghost content = { list_of imports imports_part import_entry };

    ghost ContentBreaks = { BreaksInList import_entry };

    fn read<'a>(alloc: Global, cursor: &mut Cursor<'a>) -> Result<ModuleSection<'a>, Fault> {
        Ok(ModuleSection::Imports(read_sized_list(alloc, cursor)?))
    }
}

impl SectionKind for u32 {
    ghost content = { list_of functions function_indexes_part u32_format };

    ghost ContentBreaks = { BreaksInList u32_format };

    fn read<'a>(alloc: Global, cursor: &mut Cursor<'a>) -> Result<ModuleSection<'a>, Fault> {
        Ok(ModuleSection::Functions(read_sized_list(alloc, cursor)?))
    }
}

impl SectionKind for Item<'static, Table> {
    ghost content = { list_of tables tables_part table_entry };

    ghost ContentBreaks = { BreaksInList table_entry };

    fn read<'a>(alloc: Global, cursor: &mut Cursor<'a>) -> Result<ModuleSection<'a>, Fault> {
        Ok(ModuleSection::Tables(read_sized_list(alloc, cursor)?))
    }
}

impl SectionKind for Item<'static, MemoryType> {
    ghost content = { list_of memories memories_part memory_type };

    ghost ContentBreaks = { BreaksInList memory_type };

    fn read<'a>(alloc: Global, cursor: &mut Cursor<'a>) -> Result<ModuleSection<'a>, Fault> {
        Ok(ModuleSection::Memories(read_sized_list(alloc, cursor)?))
    }
}

impl SectionKind for Item<'static, GlobalEntry> {
    ghost content = { list_of globals globals_part global_entry };

    ghost ContentBreaks = { BreaksInList global_entry };

    fn read<'a>(alloc: Global, cursor: &mut Cursor<'a>) -> Result<ModuleSection<'a>, Fault> {
        Ok(ModuleSection::Globals(read_sized_list(alloc, cursor)?))
    }
}

impl SectionKind for Item<'static, Export<'static>> {
    ghost content = { list_of exports exports_part export_entry };

    ghost ContentBreaks = { BreaksInList export_entry };

    fn read<'a>(alloc: Global, cursor: &mut Cursor<'a>) -> Result<ModuleSection<'a>, Fault> {
        Ok(ModuleSection::Exports(read_sized_list(alloc, cursor)?))
    }
}

/// The start section.
struct Start;

impl SectionKind for Start {
    ghost content = { one_of start start_part u32_format };

    fn read<'a>(_alloc: Global, cursor: &mut Cursor<'a>) -> Result<ModuleSection<'a>, Fault> {
        Ok(ModuleSection::Start(read_sized_number(cursor)?))
    }
}

impl SectionKind for Item<'static, Element> {
    ghost content = { list_of elements elements_part element_segment };

    ghost ContentBreaks = { BreaksInList element_segment };

    fn read<'a>(alloc: Global, cursor: &mut Cursor<'a>) -> Result<ModuleSection<'a>, Fault> {
        Ok(ModuleSection::Elements(read_sized_list(alloc, cursor)?))
    }
}

impl SectionKind for CodeBody {
    ghost content = { list_of code code_part code_body };

    ghost ContentBreaks = { BreaksInList code_body };

    fn read<'a>(alloc: Global, cursor: &mut Cursor<'a>) -> Result<ModuleSection<'a>, Fault> {
        Ok(ModuleSection::Code(read_sized_list(alloc, cursor)?))
    }
}

impl SectionKind for Item<'static, DataSegment<'static>> {
    ghost content = { list_of data_segments data_segments_part data_segment };

    ghost ContentBreaks = { BreaksInList data_segment };

    fn read<'a>(alloc: Global, cursor: &mut Cursor<'a>) -> Result<ModuleSection<'a>, Fault> {
        Ok(ModuleSection::Data(read_sized_list(alloc, cursor)?))
    }
}

/// The data count section.
struct DataCount;

impl SectionKind for DataCount {
    ghost content = { one_of data_count data_count_part u32_format };

    fn read<'a>(_alloc: Global, cursor: &mut Cursor<'a>) -> Result<ModuleSection<'a>, Fault> {
        Ok(ModuleSection::DataCount(read_sized_number(cursor)?))
    }
}

impl SectionKind for Item<'static, TagType> {
    ghost content = { list_of tags tags_part tag_type };

    ghost ContentBreaks = { BreaksInList tag_type };

    fn read<'a>(alloc: Global, cursor: &mut Cursor<'a>) -> Result<ModuleSection<'a>, Fault> {
        Ok(ModuleSection::Tags(read_sized_list(alloc, cursor)?))
    }
}
