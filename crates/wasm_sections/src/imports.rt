//! Import sections (Core 3.0, Import Section).
ghost use Rattle.std.specs.Prelude.{◌≡◌, refl, IfErr, length, ◌⊎◌, Some, IfSome};
ghost use Rattle.wasm_codec.specs.Scanning.{Scans};
ghost use Rattle.wasm_codec.specs.declared.rewriter.scan.Scanned.TheVariants.{Minimal};
ghost use Rattle.wasm_codec.specs.Inputs.{Passes};
ghost use Rattle.wasm_codec.specs.Rewriter.{Rewrites};
ghost use Rattle.wasm_codec.specs.Outcomes.{IsMalformed};
ghost use Rattle.std.proofs.lemmas.List.{map_push};
ghost use Rattle.wasm_codec.specs.formats.Grammar.{TakesBytes};
ghost use Rattle.wasm_codec.specs.Lawful.{IsLawful};
ghost use Rattle.wasm_sections.specs.formats.EntryParts.{ImportParts, import_parts, all_import_parts};
ghost use Rattle.wasm_sections.specs.formats.Entries.{import_entry, import_of};
ghost use Rattle.wasm_codec.specs.Appending.{AppendsMinimal};
ghost use Rattle.wasm_codec.specs.Encoding.{IsCount, IsMinimal, OnlyTooLong};
ghost use Rattle.wasm_sections.specs.SectionKinds.{import_section};
ghost use Rattle.wasm_sections.specs.ListSections.{AddsOr, IsUncounted, LawfulEntry};

use crate::list_section::{ListSection, SectionItem, add};
use std::alloc::{Allocator, Global};
use wasm_codec::encode::{EncodeError, keep_or_undo};
use wasm_codec::reader::cursor::{Cursor, Fault};
use wasm_codec::rewriter::{Rewriter, Scanned};
use wasm_externals::names::{NameInput, append_name, read_short_name, scan_name};
use wasm_externals::types::{
    EntityType, put_entity_type, read_frequent_entity_type, scan_entity_type, take_entity_type,
};
use wasm_lists::encode::Encode;
use wasm_lists::readable::Readable;

/// An import: two names and a type (Core 3.0, Import Section).
#[derive(Clone, Copy, Debug)]
pub struct Import<'a> {
    /// Name of the module to import from.
    pub module: &'a str,
    /// Name of the item in that module.
    pub field: &'a str,
    /// Type of the item.
    pub ty: EntityType,
}

/// Reads an import whose names are short. Returns `None` if a name is longer or the import is malformed: then the position
/// is unspecified.
#[inline(always)]
#[tactic(auto, unfolding(crate::specs::formats::Entries::import_entry))]
fn read_short_import<'a>(cursor: &mut Cursor<'a>) -> Option<Import<'a>>
    ensures { IfSome result (λ import. import_entry.at cursor.old ≡ Some (import_parts import, cursor.new)) }
{
    let module = read_short_name(cursor)?;
    let field = read_short_name(cursor)?;
    let ty = read_frequent_entity_type(cursor)?;
    Some(Import { module, field, ty })
}

/// Takes an import (Core 3.0, Import Section).
#[inline(never)]
#[tactic(auto, unfolding(crate::specs::formats::Entries::import_entry))]
fn take_import<'a, I: NameInput<'a>>(input: &mut I) -> Result<Import<'a>, Fault>
    ensures passes { Passes I.writes import_parts import_entry (I.state input.old) (I.state input.new) result }
    ensures err { IfErr result IsMalformed }
{
    let module = input.name()?;
    let field = input.name()?;
    let ty = take_entity_type(input)?;
    Ok(Import { module, field, ty })
}

impl<'a> Readable<'a> for Import<'a> {
    ghost Value = { ImportParts };

    ghost view = { import_parts };

    ghost views = { all_import_parts };

    ghost views_each = { record { none = refl; more = λ imports import. map_push import_parts imports import } };

    ghost format = { import_entry };

    #[inline(always)]
    #[tactic(auto, using(crate::proofs::EntryLaws::import_is_lawful, crate::proofs::EntryLaws::import_takes))]
    fn is_lawful()
        ensures lawful { IsLawful import_entry }
        ensures some { TakesBytes import_entry.Encodes }
    {}

    fn read(_alloc: Global, cursor: &mut Cursor<'a>) -> Result<Import<'a>, Fault> {
        let start = cursor.fork();
        if let Some(import) = read_short_import(cursor) {
            return Ok(import);
        }
        *cursor = start;
        take_import(cursor)
    }

    #[inline(always)]
    fn rewrite(rewriter: &mut Rewriter) -> Result<(), Fault>
        ensures rewrites { Rewrites import_entry rewriter.old rewriter.new result }
    {
        rewriter.are_bytes();
        if let Some(count) = scan_import(rewriter.left()) {
            rewriter.rewrite_scanned(Scanned::Minimal(count));
            return Ok(());
        }
        take_import(rewriter)?;
        Ok(())
    }
}

/// Returns the length in bytes of the import that the bytes begin with. Returns `None` unless its names are short and
/// ASCII, and it is a function or a global.
#[inline(always)]
fn scan_import(bytes: &[u8]) -> Option<usize>
    ensures { IfSome result (λ count. Scans import_entry bytes.now (Some (Minimal count))) }
{
    let module_name = scan_name(bytes)?;
    let field = scan_name(&bytes[module_name..])?;
    let names = module_name + field;
    let ty = scan_entity_type(&bytes[names..])?;
    Some(names + ty)
}

/// Appends an import. On error a part of it may remain.
fn append_import<A: Allocator>(
    import: &Import<'_>,
    sink: &mut Vec<u8, A>,
) -> Result<(), EncodeError>
    ensures { AppendsMinimal import_entry (import_parts import.now) (IsCount (length import.now.module.now) × IsCount (length import.now.field.now)) sink.old.items sink.new.items result }
{
    append_name(import.module, sink)?;
    append_name(import.field, sink)?;
    sink.reserve(29)?;
    put_entity_type(sink, &import.ty);
    Ok(())
}

/// The module name, the item name and the type (Core 3.0, Import Section).
///
/// Fails with `TooLong` if a name is longer than 4,294,967,295 bytes.
impl<'a> Encode for Import<'a> {
    ghost bytes = { λ import. import_entry.bytes (import_parts import) };

    ghost IsWritten = { λ import. IsMinimal import_entry.Encodes import_entry.bytes (import_parts import) };

    ghost CanEncode = { λ import. IsCount (length import.module.now) × IsCount (length import.field.now) };

    ghost refuses = { OnlyTooLong };

    fn encode<A: Allocator>(&self, sink: &mut Vec<u8, A>) -> Result<(), EncodeError> {
        let start = sink.len();
        let result = append_import(self, sink);
        keep_or_undo(sink, start, result)
    }
}

/// An import section (Core 3.0, Import Section).
///
/// # Examples
///
/// ```
/// # use wasm_encoder::{Encode, EntityType, ImportSection};
/// let mut imports = ImportSection::new(rt.alloc());
/// imports.import("env", "log", EntityType::Function(0))?;
/// let mut bytes = Vec::new(rt.alloc());
/// imports.encode(&mut bytes)?;
/// assert_eq!(rt; bytes.as_slice(), b"\x0b\x01\x03env\x03log\x00\x00".as_slice());
/// ```
pub type ImportSection<'a> = ListSection<Import<'a>>;

impl<'a> SectionItem for Import<'a> {
    ghost Value = { ImportParts };

    ghost view = { import_parts };

    ghost section = { import_section };

    fn section_id() -> u8
        ensures { result ≡ 2 }
    {
        2
    }

    #[inline(always)]
    #[tactic(auto, using(crate::proofs::ItemLaws::imports_lawful))]
    fn is_lawful()
        ensures lawful { LawfulEntry import_parts import_section }
    {}
}

impl<'a> ListSection<Import<'a>> {
    /// Adds an import of the item `field` of type `ty` from the module `module_name`.
    ///
    /// Fails with `TooLong` if the section already has 4,294,967,295 imports or a name is longer than 4,294,967,295
    /// bytes.
    #[tactic(auto, using(crate::proofs::ItemLaws::adds_twice_named))]
    pub fn import(
        &mut self,
        module_name: &str,
        field: &str,
        ty: EntityType,
    ) -> Result<(), EncodeError>
        ensures adds { AddsOr import_section (IsUncounted (length module_name.now) ⊎ IsUncounted (length field.now))
            self.old (import_of (module_name.now, (field.now, ty))) self.new result }
    {
        add(
            &mut self.items,
            &Import {
                module: module_name,
                field,
                ty,
            },
        )
    }
}
