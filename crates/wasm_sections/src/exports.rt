//! Export sections (Core 3.0, Export Section).
ghost use Rattle.std.specs.Prelude.{◌≡◌, refl, IfErr, length, Some, IfSome};
ghost use Rattle.wasm_codec.specs.Scanning.{Scans};
ghost use Rattle.wasm_codec.specs.declared.rewriter.scan.Scanned.TheVariants.{Minimal};
ghost use Rattle.wasm_codec.specs.Inputs.{Passes};
ghost use Rattle.wasm_codec.specs.Rewriter.{Rewrites};
ghost use Rattle.wasm_codec.specs.Outcomes.{IsMalformed};
ghost use Rattle.std.proofs.lemmas.List.{map_push};
ghost use Rattle.wasm_codec.specs.formats.Grammar.{TakesBytes};
ghost use Rattle.wasm_codec.specs.Lawful.{IsLawful};
ghost use Rattle.wasm_sections.specs.formats.EntryParts.{ExportParts, export_parts, all_export_parts};
ghost use Rattle.wasm_sections.specs.formats.Entries.{export_entry, export_of};
ghost use Rattle.wasm_codec.specs.Appending.{AppendsMinimal};
ghost use Rattle.wasm_codec.specs.Encoding.{IsCount, IsMinimal, OnlyTooLong};
ghost use Rattle.wasm_externals.specs.formats.Names.{name};
ghost use Rattle.wasm_sections.specs.SectionKinds.{export_section};
ghost use Rattle.wasm_sections.specs.ListSections.{AddsOr, IsUncounted, LawfulEntry};

use crate::list_section::{ListSection, SectionItem, add};
use std::alloc::{Allocator, Global};
use wasm_codec::encode::leb128::put_u32;
use wasm_codec::encode::{EncodeError, keep_or_undo};
use wasm_codec::reader::cursor::{Cursor, Fault};
use wasm_codec::rewriter::{Rewriter, Scanned, scan_u32};
use wasm_externals::names::{NameInput, append_name, scan_name};
use wasm_externals::types::{ExportKind, kind_byte, take_export_kind};
use wasm_lists::encode::Encode;
use wasm_lists::readable::Readable;

/// An export: a name for an item of the module (Core 3.0, Export Section).
#[derive(Clone, Copy, Debug)]
pub struct Export<'a> {
    /// Name of the export.
    pub name: &'a str,
    /// Kind of the exported item.
    pub kind: ExportKind,
    /// Index of the item in the index space of its kind.
    pub index: u32,
}

/// Takes an export (Core 3.0, Export Section).
#[inline(never)]
#[tactic(auto, unfolding(crate::specs::formats::Entries::export_entry))]
fn take_export<'a, I: NameInput<'a>>(input: &mut I) -> Result<Export<'a>, Fault>
    ensures passes { Passes I.writes export_parts export_entry (I.state input.old) (I.state input.new) result }
    ensures err { IfErr result IsMalformed }
{
    let name = input.name()?;
    let kind = take_export_kind(input)?;
    let index = input.u32()?;
    Ok(Export { name, kind, index })
}

impl<'a> Readable<'a> for Export<'a> {
    ghost Value = { ExportParts };

    ghost view = { export_parts };

    ghost views = { all_export_parts };

    ghost views_each = { record { none = refl; more = λ exports export. map_push export_parts exports export } };

    ghost format = { export_entry };

    #[inline(always)]
    #[tactic(auto, using(crate::proofs::EntryLaws::export_is_lawful, crate::proofs::EntryLaws::export_takes))]
    fn is_lawful()
        ensures lawful { IsLawful export_entry }
        ensures some { TakesBytes export_entry.Encodes }
    {}

    fn read(_alloc: Global, cursor: &mut Cursor<'a>) -> Result<Export<'a>, Fault> {
        take_export(cursor)
    }

    #[inline(always)]
    fn rewrite(rewriter: &mut Rewriter) -> Result<(), Fault>
        ensures rewrites { Rewrites export_entry rewriter.old rewriter.new result }
    {
        rewriter.are_bytes();
        if let Some(count) = scan_export(rewriter.left()) {
            rewriter.rewrite_scanned(Scanned::Minimal(count));
            return Ok(());
        }
        take_export(rewriter)?;
        Ok(())
    }
}

/// Returns the length in bytes of the export that the bytes begin with. Returns `None` unless its name is short and ASCII,
/// and its index is minimally encoded.
#[inline(always)]
fn scan_export(bytes: &[u8]) -> Option<usize>
    ensures { IfSome result (λ count. Scans export_entry bytes.now (Some (Minimal count))) }
{
    let name = scan_name(bytes)?;
    if name >= bytes.len() {
        return None;
    }
    if bytes[name] >= 5 {
        return None;
    }
    match scan_u32(&bytes[name + 1..]) {
        Some(Scanned::Minimal(count)) => Some(name + 1 + count),
        _ => None,
    }
}

/// Appends an export. On error a part of it may remain.
fn append_export<A: Allocator>(
    export: &Export<'_>,
    sink: &mut Vec<u8, A>,
) -> Result<(), EncodeError>
    ensures { AppendsMinimal export_entry (export_parts export.now) (IsCount (length export.now.name.now)) sink.old.items sink.new.items result }
{
    append_name(export.name, sink)?;
    sink.reserve(6)?;
    sink.push_reserved(kind_byte(export.kind));
    put_u32(sink, export.index);
    Ok(())
}

/// The name, the byte of the kind and the index (Core 3.0, Export Section).
///
/// Fails with `TooLong` if the name is longer than 4,294,967,295 bytes.
impl<'a> Encode for Export<'a> {
    ghost bytes = { λ export. export_entry.bytes (export_parts export) };

    ghost IsWritten = { λ export. IsMinimal export_entry.Encodes export_entry.bytes (export_parts export) };

    ghost CanEncode = { λ export. IsCount (length export.name.now) };

    ghost refuses = { OnlyTooLong };

    fn encode<A: Allocator>(&self, sink: &mut Vec<u8, A>) -> Result<(), EncodeError> {
        let start = sink.len();
        let result = append_export(self, sink);
        keep_or_undo(sink, start, result)
    }
}

/// An export section (Core 3.0, Export Section).
///
/// # Examples
///
/// ```
/// # use wasm_encoder::{Encode, ExportKind, ExportSection};
/// let mut exports = ExportSection::new(rt.alloc());
/// exports.export("add", ExportKind::Func, 0)?;
/// let mut bytes = Vec::new(rt.alloc());
/// exports.encode(&mut bytes)?;
/// assert_eq!(rt; bytes.as_slice(), b"\x07\x01\x03add\x00\x00".as_slice());
/// ```
///
/// Reading a body returns its exports, and accepts padded numbers:
///
/// ```
/// # use wasm_encoder::{ExportKind, ExportSection, read};
/// let body = b"\x01\x03mem\x02\x80\x00"; // one export; the index 0 in two bytes
/// for export in &read::<ExportSection<'_>>(rt.alloc(), body)? {
///     assert_eq!(rt; export.name, "mem");
///     assert_eq!(rt; export.kind, ExportKind::Memory);
/// }
/// ```
pub type ExportSection<'a> = ListSection<Export<'a>>;

impl<'a> SectionItem for Export<'a> {
    ghost Value = { ExportParts };

    ghost view = { export_parts };

    ghost section = { export_section };

    fn section_id() -> u8
        ensures { result ≡ 7 }
    {
        7
    }

    #[inline(always)]
    #[tactic(auto, using(crate::proofs::ItemLaws::exports_lawful))]
    fn is_lawful()
        ensures lawful { LawfulEntry export_parts export_section }
    {}
}

impl<'a> ListSection<Export<'a>> {
    /// Adds an export named `name` of the item `index` of kind `kind`. `index` is in the index space of `kind`.
    ///
    /// Fails with `TooLong` if the section already has 4,294,967,295 exports or `name` is longer than 4,294,967,295
    /// bytes.
    #[tactic(auto, using(crate::proofs::ItemLaws::adds_named))]
    pub fn export(&mut self, name: &str, kind: ExportKind, index: u32) -> Result<(), EncodeError>
        ensures adds { AddsOr export_section (IsUncounted (length name.now)) self.old (export_of (name.now, (kind, index))) self.new result }
    {
        add(&mut self.items, &Export { name, kind, index })
    }
}
