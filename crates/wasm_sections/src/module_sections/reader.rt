//! Readers of single decoded sections.
ghost use Rattle.std.specs.Prelude.{◌≡◌, Some, IfSome, refl};
ghost use Rattle.std.proofs.lemmas.List.{map_push};
ghost use Rattle.wasm_codec.specs.formats.Grammar.{TakesBytes};
ghost use Rattle.wasm_codec.specs.Lawful.{IsLawful};
ghost use Rattle.wasm_codec.specs.Places.{Reads};
ghost use Rattle.wasm_codec.specs.Outcomes.{FailsMalformed, IfInItem};
ghost use Rattle.wasm_codec.specs.Reading.{map_ok};
ghost use Rattle.wasm_codec.specs.formats.Bodies.{sized};
ghost use Rattle.wasm_codec.specs.formats.Combinators.{items, u32 as u32_format};
ghost use Rattle.wasm_sections.specs.formats.EntryParts.{custom_parts};
ghost use Rattle.wasm_sections.specs.formats.ModuleSectionParts.{ModuleSectionParts, module_section_parts, all_module_section_parts};
ghost use Rattle.wasm_sections.specs.formats.ModuleSections.{BreaksInList, BreaksInSection, module_section};
ghost use Rattle.wasm_sections.specs.formats.Sections.{custom_body};
ghost use Rattle.wasm_codec.specs.Rewriter.{Rewrites};

use crate::custom::CustomSection;
use crate::module_sections::ModuleSection;
use crate::module_sections::kinds::{SectionKind, SectionVisitor, visit_section};
use crate::module_sections::rewriter::{AnySection, unknown_section};
use std::alloc::Global;
use wasm_codec::reader::cursor::{Cursor, Fault};
use wasm_codec::reader::malformed::Construct;
use wasm_codec::rewriter::Rewriter;
use wasm_externals::names::{read_name, read_short_name};
use wasm_lists::readable::Readable;
use wasm_lists::rewriting::{Rewritable, RewritableBody};

impl<'a> Readable<'a> for ModuleSection<'a> {
    ghost Value = { ModuleSectionParts };

    ghost view = { module_section_parts };

    ghost views = { all_module_section_parts };

    ghost views_each = { record { none = refl; more = λ sections section. map_push module_section_parts sections section } };

    ghost format = { module_section };

    ghost Breaks = { BreaksInSection };

    #[inline(always)]
    #[tactic(auto, using(crate::proofs::ModuleSectionLaws::module_section_is_lawful, crate::proofs::ModuleSectionLaws::module_section_takes))]
    fn is_lawful()
        ensures lawful { IsLawful module_section }
        ensures some { TakesBytes module_section.Encodes }
    {}

    fn read(alloc: Global, cursor: &mut Cursor<'a>) -> Result<ModuleSection<'a>, Fault> {
        let start = cursor.fork();
        if let Some(section) = read_short_custom(cursor) {
            return Ok(section);
        }
        *cursor = start;
        read_any_section(alloc, cursor)
    }

    fn rewrite(rewriter: &mut Rewriter) -> Result<(), Fault>
        ensures rewrites { Rewrites module_section rewriter.old rewriter.new result }
    {
        <AnySection as Rewritable>::rewrite(rewriter)
    }
}

/// Reads a size and a number that fills so many bytes.
pub(crate) fn read_sized_number(cursor: &mut Cursor<'_>) -> Result<u32, Fault>
    ensures reads { Reads (sized u32_format).at cursor.old cursor.new result }
{
    let mut body = cursor.body()?;
    let number = body.u32()?;
    if body.len() > 0 {
        return Err(Fault::Malformed(body.trailing()));
    }
    cursor.set_minimal(body.is_minimal());
    Ok(number)
}

/// Reads a size, a name, and the contents up to that size.
pub(crate) fn read_sized_custom<'a>(cursor: &mut Cursor<'a>) -> Result<CustomSection<'a>, Fault>
    ensures reads { Reads (sized custom_body).at cursor.old cursor.new (map_ok custom_parts result) }
{
    let mut body = cursor.body()?;
    let name = read_name(&mut body)?;
    let bytes = body.take(body.len(), Construct::Body)?;
    cursor.set_minimal(body.is_minimal());
    Ok(CustomSection { name, bytes })
}

/// A reader of the content after a section's id.
#[derive(Drop)]
struct ContentReader<'a> {
    alloc: Global,
    cursor: Cursor<'a>,
}

impl<'a> SectionVisitor for ContentReader<'a> {
    type Output = Result<ModuleSection<'a>, Fault>;

    ghost visits_list = { λ V F C B old new section. Reads C.at old.cursor new.cursor (map_ok module_section_parts section) × IfInItem section (B old.cursor.left) };

    ghost visits_body = { λ V F C old new section. Reads C.at old.cursor new.cursor (map_ok module_section_parts section) × IfInItem section (λ _. ⊥) };

    ghost visits_unknown = { λ old new section. FailsMalformed section × IfInItem section (λ _. ⊥) };

    fn visit_list<T: Rewritable + SectionKind>(&mut self) -> Result<ModuleSection<'a>, Fault> {
        T::read(self.alloc, &mut self.cursor)
    }

    fn visit_body<B: RewritableBody, K: SectionKind>(
        &mut self,
    ) -> Result<ModuleSection<'a>, Fault> {
        match K::read(self.alloc, &mut self.cursor) {
            Ok(section) => Ok(section),
            Err(Fault::Malformed(malformed)) => Err(Fault::Malformed(malformed.outside_items())),
            Err(Fault::Memory) => Err(Fault::Memory),
        }
    }

    fn visit_unknown(&mut self, id: u8) -> Result<ModuleSection<'a>, Fault> {
        Err(Fault::Malformed(unknown_section(id, self.cursor.to_end())))
    }
}

/// Reads a custom section whose size has one or two bytes. Returns `None` if the next section is another, longer or
/// malformed: then the position is unspecified.
#[inline(always)]
fn read_short_custom<'a>(cursor: &mut Cursor<'a>) -> Option<ModuleSection<'a>>
    ensures { IfSome result (λ section. module_section.at cursor.old ≡ Some (module_section_parts section, cursor.new)) }
{
    let Some(0) = cursor.next_byte() else {
        return None;
    };
    let mut body = cursor.short_body()?;
    let name = read_short_name(&mut body)?;
    match body.take(body.len(), Construct::Body) {
        Ok(bytes) => {
            cursor.set_minimal(body.is_minimal());
            Some(ModuleSection::Custom(CustomSection { name, bytes }))
        }
        Err(_) => None,
    }
}

/// Reads a section of any kind.
#[tactic(auto, using(crate::proofs::ModuleSectionLaws::read_by_kind, crate::proofs::ModuleSectionLaws::broken_read), unfolding(crate::specs::formats::ModuleSections::module_section))]
fn read_any_section<'a>(alloc: Global, cursor: &mut Cursor<'a>) -> Result<ModuleSection<'a>, Fault>
    ensures reads { Reads module_section.at cursor.old cursor.new (map_ok module_section_parts result) }
    // The section is a list that breaks off at the item that a fault names.
    ensures names { IfInItem result (BreaksInSection cursor.old.left) }
{
    let id = cursor.byte_of(Construct::SectionId)?;
    let mut reader = ContentReader {
        alloc,
        cursor: cursor.fork(),
    };
    let section = visit_section(id, &mut reader);
    *cursor = reader.cursor;
    section
}
