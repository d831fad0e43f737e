//! Rewriters of operands (Core 3.0, Instructions). Each replaces the next operand by its minimal encoding in place, and
//! holds no list.
ghost use Rattle.wasm_codec.specs.Rewriter.{Rewrites};
ghost use Rattle.wasm_instructions.specs.formats.Instructions.{operands_format};
ghost use Rattle.wasm_instructions.specs.formats.Operands.{vector};
ghost use Rattle.wasm_instructions.specs.declared.table.opcode.Kind.TheVariants as kinds;

use crate::operands::{Catch, Handle, take_castop, take_mem_arg, take_ordering};
use crate::reader::take_block_type;
use crate::table::Kind;
use wasm_codec::reader::cursor::Fault;
use wasm_codec::rewriter::Rewriter;
use wasm_lists::readable::Item;
use wasm_lists::rewriting::rewrite_list;
use wasm_types::types::{ValType, take_heap_type};

/// Rewrites operands of a kind.
#[tactic(auto, using(std::proofs::Common::append_assoc), unfolding(crate::specs::formats::Instructions::operands_format))]
pub(crate) fn rewrite_operands(rewriter: &mut Rewriter, kind: Kind) -> Result<(), Fault>
    ensures rewrites { Rewrites (operands_format kind) rewriter.old rewriter.new result }
{
    match kind {
        Kind::None => Ok(()),
        Kind::Block => {
            take_block_type(rewriter)?;
            Ok(())
        }
        Kind::Index => {
            rewriter.u32()?;
            Ok(())
        }
        Kind::TwoIndexes => {
            rewriter.u32()?;
            rewriter.u32()?;
            Ok(())
        }
        Kind::BrTable => {
            rewrite_list::<u32>(rewriter)?;
            rewriter.u32()?;
            Ok(())
        }
        Kind::Types => rewrite_list::<Item<'_, ValType>>(rewriter),
        Kind::TryTable => rewrite_try_table(rewriter),
        Kind::Mem => {
            take_mem_arg(rewriter)?;
            Ok(())
        }
        Kind::I32 => rewrite_i32(rewriter),
        Kind::I64 => rewrite_i64(rewriter),
        Kind::F32 => rewriter.number(4),
        Kind::F64 => rewriter.number(8),
        Kind::Heap => {
            take_heap_type(rewriter)?;
            Ok(())
        }
        Kind::Resume => {
            rewriter.u32()?;
            rewrite_list::<Item<'_, Handle>>(rewriter)
        }
        Kind::ResumeThrow => {
            rewriter.u32()?;
            rewriter.u32()?;
            rewrite_list::<Item<'_, Handle>>(rewriter)
        }
        Kind::Cast => rewrite_cast(rewriter),
        Kind::V128 => rewrite_vector(rewriter),
        Kind::Shuffle => rewrite_lanes(rewriter),
        Kind::Lane => rewrite_lane(rewriter),
        Kind::MemLane => {
            take_mem_arg(rewriter)?;
            rewriter.byte()?;
            Ok(())
        }
        Kind::Order => {
            take_ordering(rewriter)?;
            Ok(())
        }
        Kind::OrderIndex => {
            take_ordering(rewriter)?;
            rewriter.u32()?;
            Ok(())
        }
        Kind::OrderTwoIndexes => {
            take_ordering(rewriter)?;
            rewriter.u32()?;
            rewriter.u32()?;
            Ok(())
        }
    }
}

/// Rewrites the block type and the clauses of a `try_table`.
#[tactic(auto, using(std::proofs::Common::append_assoc), unfolding(crate::specs::formats::Instructions::operands_format))]
fn rewrite_try_table(rewriter: &mut Rewriter) -> Result<(), Fault>
    ensures rewrites { Rewrites (operands_format kinds.TryTable) rewriter.old rewriter.new result }
{
    take_block_type(rewriter)?;
    rewrite_list::<Item<'_, Catch>>(rewriter)
}

/// Rewrites the constant of an `i32.const`.
#[tactic(auto, unfolding(crate::specs::formats::Instructions::operands_format))]
fn rewrite_i32(rewriter: &mut Rewriter) -> Result<(), Fault>
    ensures rewrites { Rewrites (operands_format kinds.I32) rewriter.old rewriter.new result }
{
    rewriter.s32()?;
    Ok(())
}

/// Rewrites the constant of an `i64.const`.
#[tactic(auto, unfolding(crate::specs::formats::Instructions::operands_format))]
fn rewrite_i64(rewriter: &mut Rewriter) -> Result<(), Fault>
    ensures rewrites { Rewrites (operands_format kinds.I64) rewriter.old rewriter.new result }
{
    rewriter.s64()?;
    Ok(())
}

/// Rewrites the flags of a branch on a cast, its label and its two types.
#[tactic(auto, using(std::proofs::Common::append_assoc), unfolding(crate::specs::formats::Instructions::operands_format))]
fn rewrite_cast(rewriter: &mut Rewriter) -> Result<(), Fault>
    ensures rewrites { Rewrites (operands_format kinds.Cast) rewriter.old rewriter.new result }
{
    take_castop(rewriter)?;
    rewriter.u32()?;
    take_heap_type(rewriter)?;
    take_heap_type(rewriter)?;
    Ok(())
}

/// Rewrites the lanes of a shuffle.
#[tactic(auto, unfolding(crate::specs::formats::Instructions::operands_format, crate::specs::formats::Operands::lanes))]
fn rewrite_lanes(rewriter: &mut Rewriter) -> Result<(), Fault>
    ensures rewrites { Rewrites (operands_format kinds.Shuffle) rewriter.old rewriter.new result }
{
    rewriter.bytes(16)
}

/// Rewrites a lane index.
#[tactic(auto, unfolding(crate::specs::formats::Instructions::operands_format))]
fn rewrite_lane(rewriter: &mut Rewriter) -> Result<(), Fault>
    ensures rewrites { Rewrites (operands_format kinds.Lane) rewriter.old rewriter.new result }
{
    let _lane = rewriter.byte()?;
    Ok(())
}

/// Rewrites the constant of a `v128.const`.
#[tactic(auto, using(std::proofs::Common::append_assoc), unfolding(crate::specs::formats::Operands::vector))]
fn rewrite_vector(rewriter: &mut Rewriter) -> Result<(), Fault>
    ensures rewrites { Rewrites vector rewriter.old rewriter.new result }
{
    rewriter.number(8)?;
    rewriter.number(8)
}
