//! Data sections (Core 3.0, Data Section).
ghost use Rattle.std.specs.Prelude.{◌≡◌, refl, Some, IfSome};
ghost use Rattle.wasm_codec.specs.Scanning.{Scans};
ghost use Rattle.wasm_codec.specs.declared.rewriter.scan.Scanned.TheVariants.{Minimal};
ghost use Rattle.wasm_codec.specs.Places.{Reads};
ghost use Rattle.wasm_codec.specs.Rewriter.{Rewrites};
ghost use Rattle.std.proofs.lemmas.List.{map_push};
ghost use Rattle.wasm_codec.specs.formats.Grammar.{TakesBytes};
ghost use Rattle.wasm_codec.specs.Lawful.{IsLawful};
ghost use Rattle.wasm_codec.specs.Reading.{map_ok};
ghost use Rattle.wasm_codec.specs.formats.Bodies.{byte_list};
ghost use Rattle.wasm_codec.specs.formats.Combinators.{◌⊗◌};
ghost use Rattle.wasm_sections.specs.formats.EntryParts.{DataParts, data_parts, all_data_parts};
ghost use Rattle.wasm_sections.specs.SegmentBytes.{active_parts};
ghost use Rattle.wasm_sections.specs.declared.data.DataSegmentMode.TheVariants as data_modes;
ghost use Rattle.wasm_externals.specs.ClosedExpressions.{IsClosed, IsCountedExpr};
ghost use Rattle.wasm_externals.specs.formats.Expressions.{expr};
ghost use Rattle.wasm_sections.specs.formats.Segments.{data_segment, active_data, passive_data};
ghost use Rattle.wasm_codec.specs.Appending.{Appends, AppendsIfClosed};
ghost use Rattle.wasm_codec.specs.Encoding.{IsMinimal, OnlyTooLong};
ghost use Rattle.wasm_sections.specs.ClosedEntries.{IsClosedData, IsCountedData, IsCountedDataMode};
ghost use Rattle.wasm_sections.specs.SegmentBytes.{DataModeFits, data_mode_bytes};
ghost use Rattle.wasm_sections.specs.SectionKinds.{data_section};
ghost use Rattle.wasm_sections.specs.ListSections.{AddsCounted, LawfulIf};

use crate::list_section::{ListSection, SectionItem, add};
use crate::segments::append_table_and_offset;
use std::alloc::{Allocator, Global};
use wasm_code::raw::{RawBytes, read_sized_bytes};
use wasm_codec::encode::leb128::put_u32;
use wasm_codec::encode::{EncodeError, keep_or_undo};
use wasm_codec::reader::cursor::{Cursor, Fault};
use wasm_codec::reader::malformed::{Construct, Malformed};
use wasm_codec::rewriter::{Rewriter, Scanned, are_bytes};
use wasm_externals::const_expr::ConstExpr;
use wasm_externals::expressions::{read_expr, rewrite_expr, scan_expr};
use wasm_instructions::table::Call;
use wasm_lists::encode::{Encode, encode_bytes};
use wasm_lists::list::Items;
use wasm_lists::readable::Readable;
use wasm_lists::rewriting::rewrite_sized;

/// Mode of a data segment.
#[derive(Debug, PartialEq, Eq, Drop)]
pub enum DataSegmentMode {
    /// Copied into a memory when the module is instantiated.
    Active {
        /// Memory index.
        memory_index: u32,
        /// Instructions that compute the address of the first byte, without the final `end`.
        offset: Items<Call>,
    },
    /// Copied by instructions such as `memory.init`.
    Passive,
}

/// A data segment (Core 3.0, Data Section).
#[derive(Debug, Drop)]
pub struct DataSegment<'a> {
    /// Mode of the segment.
    pub mode: DataSegmentMode,
    /// Contents of the segment.
    pub bytes: &'a [u8],
}

/// Reads a data segment. Notes a non-minimal form if the segment names memory 0.
#[tactic(auto, using(crate::proofs::SegmentLaws::no_data_form), unfolding(crate::specs::formats::Segments::data_segment))]
fn read_data_segment<'a>(alloc: Global, cursor: &mut Cursor<'a>) -> Result<DataSegment<'a>, Fault>
    ensures reads { Reads data_segment.at cursor.old cursor.new (map_ok data_parts result) }
{
    let start = cursor.to_end();
    match cursor.u32()? {
        0 => {
            let offset = read_expr(alloc, cursor)?;
            let bytes = read_sized_bytes(cursor)?;
            let mode = DataSegmentMode::Active {
                memory_index: 0,
                offset,
            };
            Ok(DataSegment { mode, bytes })
        }
        1 => {
            let bytes = read_sized_bytes(cursor)?;
            Ok(DataSegment {
                mode: DataSegmentMode::Passive,
                bytes,
            })
        }
        2 => {
            let memory_index = cursor.u32()?;
            let offset = read_expr(alloc, cursor)?;
            let bytes = read_sized_bytes(cursor)?;
            if memory_index == 0 {
                cursor.note_long_form();
            }
            let mode = DataSegmentMode::Active {
                memory_index,
                offset,
            };
            Ok(DataSegment { mode, bytes })
        }
        number => Err(Fault::Malformed(Malformed::invalid_number(
            Construct::DataForm,
            number,
            start,
        ))),
    }
}

impl<'a> Readable<'a> for DataSegment<'a> {
    ghost Value = { DataParts };

    ghost view = { data_parts };

    ghost views = { all_data_parts };

    ghost views_each = { record { none = refl; more = λ segments segment. map_push data_parts segments segment } };

    ghost format = { data_segment };

    #[inline(always)]
    #[tactic(auto, using(crate::proofs::SegmentLaws::data_is_lawful, crate::proofs::SegmentLaws::data_takes))]
    fn is_lawful()
        ensures lawful { IsLawful data_segment }
        ensures some { TakesBytes data_segment.Encodes }
    {}

    fn read(alloc: Global, cursor: &mut Cursor<'a>) -> Result<DataSegment<'a>, Fault> {
        read_data_segment(alloc, cursor)
    }

    #[inline(always)]
    fn rewrite(rewriter: &mut Rewriter) -> Result<(), Fault>
        ensures rewrites { Rewrites data_segment rewriter.old rewriter.new result }
    {
        rewriter.are_bytes();
        if let Some(count) = scan_data_segment(rewriter.left()) {
            rewriter.rewrite_scanned(Scanned::Minimal(count));
            return Ok(());
        }
        rewrite_data_segment(rewriter)
    }
}

/// Returns the length in bytes of the data segment that the bytes begin with. Returns `None` unless it has fewer than 128
/// bytes, and is passive or has a frequent instruction as its offset in memory 0.
#[inline(always)]
fn scan_data_segment(bytes: &[u8]) -> Option<usize>
    ensures { IfSome result (λ count. Scans data_segment bytes.now (Some (Minimal count))) }
{
    if bytes.len() == 0 {
        return None;
    }
    match bytes[0] {
        0 => {
            let offset = scan_expr(&bytes[1..])?;
            let contents = scan_byte_list(&bytes[1 + offset..])?;
            Some(1 + offset + contents)
        }
        1 => {
            let contents = scan_byte_list(&bytes[1..])?;
            Some(1 + contents)
        }
        _ => None,
    }
}

/// Returns the length of the bytes after their length that the bytes begin with, with their length. Returns `None` if they
/// are 128 or more.
#[inline(always)]
fn scan_byte_list(bytes: &[u8]) -> Option<usize>
    ensures { IfSome result (λ count. Scans byte_list bytes.now (Some (Minimal count))) }
{
    if bytes.len() == 0 {
        return None;
    }
    if bytes[0] >= 128 {
        return None;
    }
    let count = bytes[0] as usize;
    if bytes.len() - 1 < count {
        return None;
    }
    Some(1 + count)
}

/// Rewrites the offset and the contents of an active data segment to their minimal encodings.
#[tactic(auto, using(std::proofs::Common::append_assoc))]
fn rewrite_active(rewriter: &mut Rewriter) -> Result<(), Fault>
    ensures rewrites { Rewrites (expr ⊗ byte_list) rewriter.old rewriter.new result }
{
    rewrite_expr(rewriter)?;
    rewrite_sized::<RawBytes>(rewriter)
}

/// Rewrites a data segment to its minimal encoding. If it names memory 0, cuts out the form number 2, so that the
/// memory index 0 becomes the number of the shorter form.
#[inline(never)]
#[tactic(auto, using(crate::proofs::SegmentLaws::no_data_form, crate::proofs::SegmentLaws::active_rewritten, crate::proofs::SegmentLaws::passive_rewritten, crate::proofs::SegmentLaws::memory_left_out, crate::proofs::SegmentLaws::memory_kept), unfolding(crate::specs::formats::Segments::data_segment))]
fn rewrite_data_segment(rewriter: &mut Rewriter) -> Result<(), Fault>
    ensures rewrites { Rewrites data_segment rewriter.old rewriter.new result }
{
    let (mark, start) = (rewriter.written_len(), rewriter.to_end());
    match rewriter.u32()? {
        0 => rewrite_active(rewriter),
        1 => rewrite_sized::<RawBytes>(rewriter),
        2 => {
            let memory = rewriter.u32()?;
            rewrite_active(rewriter)?;
            if memory == 0 {
                rewriter.cut_out(mark, 1);
            }
            Ok(())
        }
        number => Err(Fault::Malformed(Malformed::invalid_number(
            Construct::DataForm,
            number,
            start,
        ))),
    }
}

/// Appends what precedes the contents of a data segment. On error a part of it may remain.
fn append_data_mode<A: Allocator>(
    mode: &DataSegmentMode,
    sink: &mut Vec<u8, A>,
) -> Result<(), EncodeError>
    ensures { Appends (data_mode_bytes mode.now) (IsCountedDataMode mode.now) (IsClosedData mode.now → DataModeFits mode.now) sink.old.items sink.new.items result }
{
    match mode {
        DataSegmentMode::Active {
            memory_index,
            offset,
        } => append_active_mode(*memory_index, offset.as_slice(), sink),
        DataSegmentMode::Passive => {
            sink.reserve(5)?;
            put_u32(sink, 1);
            Ok(())
        }
    }
}

/// Appends what precedes the contents of an active data segment. On error a part of it may remain.
#[inline(always)]
fn append_active_mode<A: Allocator>(
    memory_index: u32,
    offset: &[Call],
    sink: &mut Vec<u8, A>,
) -> Result<(), EncodeError>
    ensures { Appends (data_mode_bytes (data_modes.Active memory_index offset.now)) (IsCountedExpr offset.now)
        (IsClosed offset.now → DataModeFits (data_modes.Active memory_index offset.now)) sink.old.items sink.new.items result }
{
    if memory_index == 0 {
        append_table_and_offset(0, None, offset, sink)
    } else {
        append_table_and_offset(2, Some(memory_index), offset, sink)
    }
}

/// Appends a data segment. On error a part of it may remain.
fn append_data_segment<A: Allocator>(
    segment: &DataSegment<'_>,
    sink: &mut Vec<u8, A>,
) -> Result<(), EncodeError>
    ensures { AppendsIfClosed data_segment (data_parts segment.now) (IsCountedData (data_parts segment.now)) (IsClosedData segment.now.mode) sink.old.items sink.new.items result }
{
    are_bytes(segment.bytes);
    append_data_mode(&segment.mode, sink)?;
    encode_bytes(segment.bytes, sink)
}

/// The number of the form, the memory index unless 0, the offset, and the contents after their length (Core 3.0, Data
/// Section).
///
/// Fails with `TooLong` if the contents have more than 4,294,967,295 bytes, or a list in an instruction more items than
/// that.
impl<'a> Encode for DataSegment<'a> {
    ghost bytes = { λ segment. data_segment.bytes (data_parts segment) };

    ghost IsWritten = { λ segment. IsClosedData segment.mode → IsMinimal data_segment.Encodes data_segment.bytes (data_parts segment) };

    ghost CanEncode = { λ segment. IsCountedData (data_parts segment) };

    ghost refuses = { OnlyTooLong };

    fn encode<A: Allocator>(&self, sink: &mut Vec<u8, A>) -> Result<(), EncodeError> {
        let start = sink.len();
        let result = append_data_segment(self, sink);
        keep_or_undo(sink, start, result)
    }
}

/// An active data segment that borrows its offset, so that adding it needs no list.
#[derive(Drop)]
struct ActiveData<'a> {
    memory_index: u32,
    offset: &'a [Call],
    bytes: &'a [u8],
}

impl Encode for ActiveData<'_> {
    ghost bytes = { λ segment. data_segment.bytes (active_parts segment) };

    ghost IsWritten = { λ segment. IsClosed segment.offset.now →
        IsMinimal data_segment.Encodes data_segment.bytes (active_parts segment) };

    ghost CanEncode = { λ segment. IsCountedData (active_parts segment) };

    ghost refuses = { OnlyTooLong };

    #[inline(always)]
    fn encode<A: Allocator>(&self, sink: &mut Vec<u8, A>) -> Result<(), EncodeError> {
        let start = sink.len();
        let result = append_active(self, sink);
        keep_or_undo(sink, start, result)
    }
}

/// Appends an active data segment. On error a part of it may remain.
#[inline(always)]
fn append_active<A: Allocator>(
    segment: &ActiveData<'_>,
    sink: &mut Vec<u8, A>,
) -> Result<(), EncodeError>
    ensures { AppendsIfClosed data_segment (active_parts segment.now) (IsCountedData (active_parts segment.now)) (IsClosed segment.now.offset.now) sink.old.items sink.new.items result }
{
    are_bytes(segment.bytes);
    append_active_mode(segment.memory_index, segment.offset, sink)?;
    encode_bytes(segment.bytes, sink)
}

/// A data section (Core 3.0, Data Section).
///
/// # Examples
///
/// ```
/// # use wasm_encoder::{ConstExpr, DataSection, Encode};
/// let mut data = DataSection::new(rt.alloc());
/// data.active(0, ConstExpr::i32_const(rt.alloc(), 16)?, b"hi")?;
/// data.passive(b"!")?;
/// let mut bytes = Vec::new(rt.alloc());
/// data.encode(&mut bytes)?;
/// assert_eq!(rt; bytes.as_slice(), b"\x0b\x02\x00\x41\x10\x0b\x02hi\x01\x01!".as_slice());
/// ```
pub type DataSection<'a> = ListSection<DataSegment<'a>>;

impl<'a> SectionItem for DataSegment<'a> {
    ghost Value = { DataParts };

    ghost view = { data_parts };

    ghost section = { data_section };

    ghost Fits = { λ segment. IsClosedData segment.mode };

    fn section_id() -> u8
        ensures { result ≡ 11 }
    {
        11
    }

    #[inline(always)]
    #[tactic(auto, using(crate::proofs::ItemLaws::data_lawful))]
    fn is_lawful()
        ensures lawful { LawfulIf data_parts data_section (λ segment. IsClosedData segment.mode) }
    {}
}

#[tactic(auto, using(crate::proofs::ItemLaws::adds_counted))]
impl<'a> ListSection<DataSegment<'a>> {
    /// Adds an active segment: instantiating the module copies `bytes` into the memory `memory_index`, from address
    /// `offset` on. The encoding omits memory 0, which is shorter.
    ///
    /// Fails with `TooLong` if the section already has 4,294,967,295 segments, `bytes` is longer than 4,294,967,295
    /// bytes, or a list in an instruction of `offset` has more items than that.
    #[inline(always)]
    pub fn active(
        &mut self,
        memory_index: u32,
        offset: ConstExpr,
        bytes: &[u8],
    ) -> Result<(), EncodeError>
        ensures adds { AddsCounted data_section IsCountedData self.old (active_data memory_index (offset, bytes.now)) self.new result }
    {
        let calls = offset.as_slice();
        self.items.add(&ActiveData {
            memory_index,
            offset: calls,
            bytes,
        })
    }

    /// Adds a passive segment, which `memory.init` copies.
    ///
    /// Fails with `TooLong` if the section already has 4,294,967,295 segments or `bytes` is longer than 4,294,967,295
    /// bytes.
    pub fn passive(&mut self, bytes: &[u8]) -> Result<(), EncodeError>
        ensures adds { AddsCounted data_section IsCountedData self.old (passive_data bytes.now) self.new result }
    {
        let mode = DataSegmentMode::Passive;
        add(&mut self.items, &DataSegment { mode, bytes })
    }
}
