//! Global sections (Core 3.0, Global Section).
ghost use Rattle.std.specs.Prelude.{refl, Some, IfSome};
ghost use Rattle.wasm_codec.specs.Scanning.{Scans};
ghost use Rattle.wasm_codec.specs.declared.rewriter.scan.Scanned.TheVariants.{Minimal};
ghost use Rattle.wasm_codec.specs.Places.{Reads};
ghost use Rattle.wasm_codec.specs.Rewriter.{Rewrites};
ghost use Rattle.wasm_sections.specs.declared.globals.Global.{Global};
ghost use Rattle.wasm_sections.specs.formats.Entries.{global_entry, global_of};
ghost use Rattle.wasm_codec.specs.Appending.{AppendsIfClosed};
ghost use Rattle.wasm_codec.specs.Encoding.{IsMinimal, OnlyTooLong};
ghost use Rattle.wasm_externals.specs.ClosedExpressions.{IsClosed, IsCountedExpr};
ghost use Rattle.wasm_sections.specs.ClosedEntries.{IsClosedGlobal, IsCountedGlobal};
ghost use Rattle.wasm_sections.specs.SectionKinds.{global_section};
ghost use Rattle.wasm_sections.specs.ListSections.{AddsCounted};

use crate::list_section::{ListSection, SectionItem};
use std::alloc::{Allocator, Global as Heap};
use wasm_codec::encode::{EncodeError, keep_or_undo};
use wasm_codec::reader::cursor::{Cursor, Fault};
use wasm_codec::rewriter::{Rewriter, Scanned};
use wasm_externals::const_expr::ConstExpr;
use wasm_externals::expressions::{encode_expr, read_expr, rewrite_expr, scan_expr};
use wasm_externals::types::{GlobalType, put_global_type, scan_global_type, take_global_type};
use wasm_instructions::table::Call;
use wasm_lists::encode::Encode;
use wasm_lists::list::Items;
use wasm_lists::readable::Readable;

/// A global defined by the module (Core 3.0, Global Section).
#[derive(Debug, PartialEq, Eq, Drop)]
pub struct Global {
    /// Type of the global.
    pub ty: GlobalType,
    /// Instructions that compute the initial value, without the final `end`.
    pub init: Items<Call>,
}

/// Reads a global (Core 3.0, Global Section).
#[tactic(auto, unfolding(crate::specs::formats::Entries::global_entry))]
fn read_global(alloc: Heap, cursor: &mut Cursor<'_>) -> Result<Global, Fault>
    ensures reads { Reads global_entry.at cursor.old cursor.new result }
{
    let ty = take_global_type(cursor)?;
    let init = read_expr(alloc, cursor)?;
    Ok(Global { ty, init })
}

/// Rewrites a global (Core 3.0, Global Section).
#[inline(never)]
#[tactic(auto, using(std::proofs::Common::append_assoc), unfolding(crate::specs::formats::Entries::global_entry))]
fn rewrite_global(rewriter: &mut Rewriter) -> Result<(), Fault>
    ensures rewrites { Rewrites global_entry rewriter.old rewriter.new result }
{
    take_global_type(rewriter)?;
    rewrite_expr(rewriter)
}

impl<'a> Readable<'a> for Global {
    ghost Value = { Global };

    ghost view = { λ global. global };

    ghost views = { λ globals. globals };

    ghost views_each = { record { none = refl; more = λ globals global. refl } };

    ghost format = { global_entry };

    #[inline(always)]
    #[tactic(auto, using(crate::proofs::EntryLaws::global_is_lawful, crate::proofs::EntryLaws::global_takes))]
    fn is_lawful() {}

    fn read(alloc: Heap, cursor: &mut Cursor<'a>) -> Result<Global, Fault> {
        read_global(alloc, cursor)
    }

    #[inline(always)]
    fn rewrite(rewriter: &mut Rewriter) -> Result<(), Fault> {
        rewriter.are_bytes();
        if let Some(count) = scan_global(rewriter.left()) {
            rewriter.rewrite_scanned(Scanned::Minimal(count));
            return Ok(());
        }
        rewrite_global(rewriter)
    }
}

/// Returns the length in bytes of the global that the bytes begin with. Returns `None` unless its value type has one byte,
/// and its initial value is a frequent instruction.
#[inline(always)]
fn scan_global(bytes: &[u8]) -> Option<usize>
    ensures { IfSome result (λ count. Scans global_entry bytes.now (Some (Minimal count))) }
{
    let ty = scan_global_type(bytes)?;
    let init = scan_expr(&bytes[ty..])?;
    Some(ty + init)
}

/// Appends a global of this type with this initial value. On error a part of it may remain.
fn append_global<A: Allocator>(
    ty: GlobalType,
    init: &[Call],
    sink: &mut Vec<u8, A>,
) -> Result<(), EncodeError>
    ensures { AppendsIfClosed global_entry (global_of (ty, init.now)) (IsCountedExpr init.now) (IsClosed init.now) sink.old.items sink.new.items result }
{
    sink.reserve(8)?;
    put_global_type(sink, ty);
    encode_expr(init, sink)
}

/// The type and the initial expression (Core 3.0, Global Section).
///
/// Fails with `TooLong` if a list in an instruction has more than 4,294,967,295 items.
impl Encode for Global {
    ghost bytes = { global_entry.bytes };

    ghost IsWritten = { λ global. IsClosedGlobal global → IsMinimal global_entry.Encodes global_entry.bytes global };

    ghost CanEncode = { IsCountedGlobal };

    ghost refuses = { OnlyTooLong };

    fn encode<A: Allocator>(&self, sink: &mut Vec<u8, A>) -> Result<(), EncodeError> {
        let start = sink.len();
        let result = append_global(self.ty, self.init.as_slice(), sink);
        keep_or_undo(sink, start, result)
    }
}

/// A global that borrows its initial value, so that adding it needs no list.
#[derive(Drop)]
struct BorrowedGlobal<'a> {
    ty: GlobalType,
    init: &'a [Call],
}

impl Encode for BorrowedGlobal<'_> {
    ghost bytes = { λ global. global_entry.bytes (global_of (global.ty, global.init.now)) };

    ghost IsWritten = { λ global. IsClosed global.init.now →
        IsMinimal global_entry.Encodes global_entry.bytes (global_of (global.ty, global.init.now)) };

    ghost CanEncode = { λ global. IsCountedExpr global.init.now };

    ghost refuses = { OnlyTooLong };

    fn encode<A: Allocator>(&self, sink: &mut Vec<u8, A>) -> Result<(), EncodeError> {
        let start = sink.len();
        let result = append_global(self.ty, self.init, sink);
        keep_or_undo(sink, start, result)
    }
}

/// A global section: the globals that the module defines, with their initial values (Core 3.0, Global Section).
///
/// # Examples
///
/// ```
/// # use wasm_encoder::{ConstExpr, Encode, GlobalSection, GlobalType, ValType};
/// let ty = GlobalType::new(ValType::I64, true);
/// let mut globals = GlobalSection::new(rt.alloc());
/// globals.global(ty, ConstExpr::i64_const(rt.alloc(), -1)?)?;
/// let mut bytes = Vec::new(rt.alloc());
/// globals.encode(&mut bytes)?;
/// assert_eq!(rt; bytes.as_slice(), b"\x06\x01\x7e\x01\x42\x7f\x0b".as_slice());
/// ```
pub type GlobalSection = ListSection<Global>;

impl SectionItem for Global {
    ghost view = { λ item. item };

    ghost section = { global_section };

    ghost Fits = { IsClosedGlobal };

    fn section_id() -> u8 {
        6
    }

    #[inline(always)]
    #[tactic(auto, using(crate::proofs::ItemLaws::globals_lawful))]
    fn is_lawful() {}
}

impl ListSection<Global> {
    /// Adds a global with the initial value `init`.
    ///
    /// Fails with `TooLong` if the section already has 4,294,967,295 globals or a list in an instruction of `init` has
    /// more than 4,294,967,295 items.
    pub fn global(&mut self, ty: GlobalType, init: ConstExpr) -> Result<(), EncodeError>
        ensures adds { AddsCounted global_section IsCountedGlobal self.old (global_of (ty, init)) self.new result }
    {
        let calls = init.as_slice();
        self.items.add(&BorrowedGlobal { ty, init: calls })
    }
}
