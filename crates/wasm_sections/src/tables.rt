//! Table sections (Core 3.0, Table Section).
ghost use Rattle.std.specs.Prelude.{refl};
ghost use Rattle.wasm_codec.specs.Places.{Reads};
ghost use Rattle.wasm_codec.specs.Rewriter.{Rewrites};
ghost use Rattle.wasm_sections.specs.declared.tables.Table.{Table};
ghost use Rattle.wasm_sections.specs.formats.Entries.{table_entry, filled_of, unfilled};
ghost use Rattle.wasm_codec.specs.Appending.{AppendsIfClosed};
ghost use Rattle.wasm_codec.specs.Encoding.{IsMinimal, OnlyTooLong};
ghost use Rattle.wasm_externals.specs.ClosedExpressions.{IsClosed, IsCountedExpr};
ghost use Rattle.wasm_sections.specs.ClosedEntries.{IsClosedTable, IsCountedTable};
ghost use Rattle.wasm_sections.specs.SectionKinds.{table_section};
ghost use Rattle.wasm_sections.specs.ListSections.{AddsItem, AddsCounted};

use crate::list_section::{ListSection, SectionItem};
use std::alloc::{Allocator, Global};
use wasm_codec::encode::{EncodeError, keep_or_undo};
use wasm_codec::reader::cursor::{Cursor, Fault};
use wasm_codec::reader::malformed::Construct;
use wasm_codec::rewriter::Rewriter;
use wasm_externals::const_expr::ConstExpr;
use wasm_externals::expressions::{encode_expr, read_expr, rewrite_expr};
use wasm_externals::limits::{TableType, put_table_type, take_table_type};
use wasm_instructions::table::Call;
use wasm_lists::encode::Encode;
use wasm_lists::list::Items;
use wasm_lists::readable::Readable;

/// A table defined by the module (Core 3.0, Table Section).
#[derive(Debug, PartialEq, Eq, Drop)]
pub struct Table {
    /// Type of the table.
    pub ty: TableType,
    /// Instructions that compute the initial value of the elements, without the final `end`. `None` means null.
    pub init: Option<Items<Call>>,
}

/// Reads a table (Core 3.0, Table Section).
#[tactic(auto, unfolding(crate::specs::formats::Entries::table_entry))]
fn read_table(alloc: Global, cursor: &mut Cursor<'_>) -> Result<Table, Fault>
    ensures reads { Reads table_entry.at cursor.old cursor.new result }
{
    if cursor.peek(Construct::Table)? != 0x40 {
        let ty = take_table_type(cursor)?;
        return Ok(Table { ty, init: None });
    }
    cursor.byte_of(Construct::Table)?;
    let byte = cursor.byte_of(Construct::Reserved)?;
    if byte != 0x00 {
        return Err(Fault::Malformed(cursor.invalid(Construct::Reserved, byte)));
    }
    let ty = take_table_type(cursor)?;
    let init = read_expr(alloc, cursor)?;
    Ok(Table {
        ty,
        init: Some(init),
    })
}

impl<'a> Readable<'a> for Table {
    ghost Value = { Table };

    ghost view = { λ table. table };

    ghost views = { λ tables. tables };

    ghost views_each = { record { none = refl; more = λ tables table. refl } };

    ghost format = { table_entry };

    #[inline(always)]
    #[tactic(auto, using(crate::proofs::EntryLaws::table_is_lawful, crate::proofs::EntryLaws::table_takes))]
    fn is_lawful() {}

    fn read(alloc: Global, cursor: &mut Cursor<'a>) -> Result<Table, Fault> {
        read_table(alloc, cursor)
    }

    #[tactic(auto, using(std::proofs::Common::append_assoc), unfolding(crate::specs::formats::Entries::table_entry))]
    fn rewrite(rewriter: &mut Rewriter) -> Result<(), Fault>
        ensures rewrites { Rewrites table_entry rewriter.old rewriter.new result }
    {
        if rewriter.peek(Construct::Table)? != 0x40 {
            take_table_type(rewriter)?;
            return Ok(());
        }
        rewriter.byte_of(Construct::Table)?;
        let byte = rewriter.byte_of(Construct::Reserved)?;
        if byte != 0x00 {
            return Err(Fault::Malformed(rewriter.invalid(Construct::Reserved, byte)));
        }
        take_table_type(rewriter)?;
        rewrite_expr(rewriter)
    }
}

/// Appends a table. On error a part of it may remain.
fn append_table<A: Allocator>(table: &Table, sink: &mut Vec<u8, A>) -> Result<(), EncodeError>
    ensures { AppendsIfClosed table_entry table.now (IsCountedTable table.now) (IsClosedTable table.now) sink.old.items sink.new.items result }
{
    let Some(init) = &table.init else {
        sink.reserve(28)?;
        put_table_type(sink, &table.ty);
        return Ok(());
    };
    append_filled(&table.ty, init.as_slice(), sink)
}

/// Appends a table of this type with this initial value. On error a part of it may remain.
fn append_filled<A: Allocator>(
    ty: &TableType,
    init: &[Call],
    sink: &mut Vec<u8, A>,
) -> Result<(), EncodeError>
    ensures { AppendsIfClosed table_entry (filled_of (ty.now, init.now)) (IsCountedExpr init.now) (IsClosed init.now) sink.old.items sink.new.items result }
{
    sink.reserve(30)?;
    sink.push_reserved(0x40);
    sink.push_reserved(0x00);
    put_table_type(sink, ty);
    encode_expr(init, sink)
}

/// The type. With an initial expression: `0x40`, `0x00`, the type and the expression (Core 3.0, Table Section).
///
/// Fails with `TooLong` if a list in an instruction has more than 4,294,967,295 items.
impl Encode for Table {
    ghost bytes = { table_entry.bytes };

    ghost IsWritten = { λ table. IsClosedTable table → IsMinimal table_entry.Encodes table_entry.bytes table };

    ghost CanEncode = { IsCountedTable };

    ghost refuses = { OnlyTooLong };

    fn encode<A: Allocator>(&self, sink: &mut Vec<u8, A>) -> Result<(), EncodeError> {
        let start = sink.len();
        let result = append_table(self, sink);
        keep_or_undo(sink, start, result)
    }
}

/// A table that borrows its initial value, so that adding it needs no list.
#[derive(Drop)]
struct FilledTable<'a> {
    ty: TableType,
    init: &'a [Call],
}

impl Encode for FilledTable<'_> {
    ghost bytes = { λ table. table_entry.bytes (filled_of (table.ty, table.init.now)) };

    ghost IsWritten = { λ table. IsClosed table.init.now →
        IsMinimal table_entry.Encodes table_entry.bytes (filled_of (table.ty, table.init.now)) };

    ghost CanEncode = { λ table. IsCountedExpr table.init.now };

    ghost refuses = { OnlyTooLong };

    fn encode<A: Allocator>(&self, sink: &mut Vec<u8, A>) -> Result<(), EncodeError> {
        let start = sink.len();
        let result = append_filled(&self.ty, self.init, sink);
        keep_or_undo(sink, start, result)
    }
}

/// A table section: the tables that the module defines (Core 3.0, Table Section).
///
/// # Examples
///
/// ```
/// # use wasm_encoder::{ConstExpr, Encode, RefType, TableSection, TableType};
/// let ty = TableType::new(RefType::FUNCREF, 2);
/// let mut tables = TableSection::new(rt.alloc());
/// tables.table(ty)?;
/// tables.table_with_init(ty, ConstExpr::ref_func(rt.alloc(), 0)?)?;
/// let mut bytes = Vec::new(rt.alloc());
/// tables.encode(&mut bytes)?;
/// assert_eq!(rt; bytes.as_slice(), b"\x0c\x02\x70\x00\x02\x40\x00\x70\x00\x02\xd2\x00\x0b".as_slice());
/// ```
pub type TableSection = ListSection<Table>;

impl SectionItem for Table {
    ghost view = { λ item. item };

    ghost section = { table_section };

    ghost Fits = { IsClosedTable };

    fn section_id() -> u8 {
        4
    }

    #[inline(always)]
    #[tactic(auto, using(crate::proofs::ItemLaws::tables_lawful))]
    fn is_lawful() {}
}

#[tactic(auto, using(crate::proofs::ItemLaws::adds_always))]
impl ListSection<Table> {
    /// Adds a table without an initializer: its elements start as null.
    ///
    /// Fails with `TooLong` if the section already has 4,294,967,295 tables.
    pub fn table(&mut self, ty: TableType) -> Result<(), EncodeError>
        ensures adds { AddsItem table_section self.old (unfilled ty) self.new result }
    {
        self.push(&Table { ty, init: None })
    }

    /// Adds a table whose elements start as the value of `init`.
    ///
    /// Fails with `TooLong` if the section already has 4,294,967,295 tables or a list in an instruction of `init` has
    /// more than 4,294,967,295 items.
    pub fn table_with_init(&mut self, ty: TableType, init: ConstExpr) -> Result<(), EncodeError>
        ensures adds { AddsCounted table_section IsCountedTable self.old (filled_of (ty, init)) self.new result }
    {
        let calls = init.as_slice();
        self.items.add(&FilledTable { ty, init: calls })
    }
}
