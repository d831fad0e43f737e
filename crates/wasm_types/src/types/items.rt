//! Types as items of lists: what reads, rewrites and skips them there.
ghost use Rattle.std.specs.Prelude.{⊤, IfErr, refl};
ghost use Rattle.wasm_codec.specs.Outcomes.{IfInItem, IsMalformed};
ghost use Rattle.wasm_codec.specs.Places.{Reads};
ghost use Rattle.wasm_codec.specs.Reading.{map_ok};
ghost use Rattle.wasm_types.specs.declared.types.composite.FieldType.{FieldType};
ghost use Rattle.wasm_types.specs.declared.types.recursive.SubType.{SubType};
ghost use Rattle.wasm_types.specs.declared.types.recursive.TypeEntry.{TypeEntry};
ghost use Rattle.wasm_types.specs.declared.types.value.ValType.{ValType};
ghost use Rattle.wasm_types.specs.formats.Types.{field_type, recursive_type, sub_type, val_type};

use crate::types::composite::{FieldType, scan_field_type, take_field_type};
use crate::types::function::scan_function_type;
use crate::types::recursive::{
    SubType, TypeEntry, read_entry, read_sub_type, rewrite_entry, rewrite_sub_type,
};
use crate::types::value::{ValType, scan_val_type, take_val_type};
use std::alloc::Global;
use wasm_codec::reader::cursor::{Cursor, Fault};
use wasm_codec::rewriter::{Rewriter, Scanned};
use wasm_lists::readable::Readable;
use wasm_lists::rewriting::Rewritable;

impl<'a> Readable<'a> for ValType {
    ghost Value = { ValType };

    ghost view = { λ ty. ty };

    ghost views = { λ types. types };

    ghost views_each = { record { none = refl; more = λ types ty. refl } };

    ghost format = { val_type };

    fn read(_alloc: Global, cursor: &mut Cursor<'a>) -> Result<ValType, Fault>
        ensures reads { Reads val_type.at cursor.old cursor.new (map_ok (λ x. x) result) }
        ensures names { IfInItem result (λ index. ⊤) }
        ensures err { IfErr result IsMalformed }
    {
        take_val_type(cursor)
    }

    #[inline(always)]
    #[tactic(auto, using(crate::proofs::TypeFormatLaws::type_laws))]
    fn is_lawful() {}

    #[inline(always)]
    fn rewrite(rewriter: &mut Rewriter) -> Result<(), Fault> {
        rewriter.are_bytes();
        if let Some(count) = scan_val_type(rewriter.left()) {
            rewriter.rewrite_scanned(Scanned::Minimal(count));
            return Ok(());
        }
        take_val_type(rewriter)?;
        Ok(())
    }
}

impl<'a> Readable<'a> for FieldType {
    ghost Value = { FieldType };

    ghost view = { λ field. field };

    ghost views = { λ fields. fields };

    ghost views_each = { record { none = refl; more = λ fields field. refl } };

    ghost format = { field_type };

    fn read(_alloc: Global, cursor: &mut Cursor<'a>) -> Result<FieldType, Fault>
        ensures reads { Reads field_type.at cursor.old cursor.new (map_ok (λ x. x) result) }
        ensures names { IfInItem result (λ index. ⊤) }
        ensures err { IfErr result IsMalformed }
    {
        take_field_type(cursor)
    }

    #[inline(always)]
    #[tactic(auto, using(crate::proofs::TypeFormatLaws::type_laws))]
    fn is_lawful() {}

    #[inline(always)]
    fn rewrite(rewriter: &mut Rewriter) -> Result<(), Fault> {
        rewriter.are_bytes();
        if let Some(count) = scan_field_type(rewriter.left()) {
            rewriter.rewrite_scanned(Scanned::Minimal(count));
            return Ok(());
        }
        take_field_type(rewriter)?;
        Ok(())
    }
}

impl<'a> Readable<'a> for SubType {
    ghost Value = { SubType };

    ghost view = { λ ty. ty };

    ghost views = { λ types. types };

    ghost views_each = { record { none = refl; more = λ types ty. refl } };

    ghost format = { sub_type };

    fn read(alloc: Global, cursor: &mut Cursor<'a>) -> Result<SubType, Fault> {
        read_sub_type(alloc, cursor)
    }

    #[inline(always)]
    #[tactic(auto, using(crate::proofs::TypeFormatLaws::type_laws))]
    fn is_lawful() {}

    fn rewrite(rewriter: &mut Rewriter) -> Result<(), Fault> {
        rewrite_sub_type(rewriter)
    }
}

impl<'a> Readable<'a> for TypeEntry {
    ghost Value = { TypeEntry };

    ghost view = { λ entry. entry };

    ghost views = { λ entries. entries };

    ghost views_each = { record { none = refl; more = λ entries entry. refl } };

    ghost format = { recursive_type };

    fn read(alloc: Global, cursor: &mut Cursor<'a>) -> Result<TypeEntry, Fault> {
        read_entry(alloc, cursor)
    }

    #[inline(always)]
    #[tactic(auto, using(crate::proofs::TypeFormatLaws::type_laws))]
    fn is_lawful() {}

    fn rewrite(rewriter: &mut Rewriter) -> Result<(), Fault> {
        <TypeEntry as Rewritable>::rewrite(rewriter)
    }
}

impl Rewritable for TypeEntry {
    ghost Value = { TypeEntry };

    ghost format = { recursive_type };

    #[inline(always)]
    #[tactic(auto, using(crate::proofs::TypeFormatLaws::type_laws))]
    fn is_lawful() {}

    #[inline(always)]
    fn rewrite(rewriter: &mut Rewriter) -> Result<(), Fault> {
        rewriter.are_bytes();
        if let Some(scanned) = scan_function_type(rewriter.left()) {
            rewriter.rewrite_scanned(scanned);
            return Ok(());
        }
        rewrite_entry(rewriter)
    }
}
