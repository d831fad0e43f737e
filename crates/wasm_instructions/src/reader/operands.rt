//! Readers of the parts of operands (Core 3.0, Instructions).
ghost use Rattle.std.specs.Prelude.{◌≡◌, ◌<◌, IfErr, IfOk, IfSome, Some};
ghost use Rattle.wasm_codec.specs.Places.{Reads, map_at};
ghost use Rattle.wasm_codec.specs.formats.Combinators.{little_endian};
ghost use Rattle.wasm_codec.specs.Outcomes.{IsMalformed};
ghost use Rattle.wasm_instructions.specs.formats.Operands.{block_type, ieee32, ieee64, lanes, mem_arg, vector};
ghost use Rattle.wasm_instructions.specs.declared.table.opcode.Kind.TheVariants as kinds;
ghost use Rattle.wasm_instructions.specs.formats.Instructions.{operands_format};
ghost use Rattle.wasm_instructions.specs.Instructions.{IsAligned, IsCounted, kind_of};
ghost use Rattle.wasm_instructions.specs.ReadOperands.{ReadsOperands};

use crate::operands::{
    BlockType, Ieee32, Ieee64, Lane, MemArg, V128, take_castop, take_mem_arg, take_ordering,
};
use crate::reader::take_block_type;
use crate::table::{Kind, Operands};
use std::alloc::Global;
use wasm_codec::reader::cursor::{Cursor, Fault};
use wasm_codec::reader::malformed::Construct;
use wasm_lists::list::BoxedItems;
use wasm_lists::reading::read_list;
use wasm_types::types::{RefType, take_heap_type};

/// Reads a 32-bit floating-point number as its bits.
fn read_f32(cursor: &mut Cursor<'_>) -> Result<Ieee32, Fault>
    ensures reads { Reads (map_at ieee32 (little_endian 4).at) cursor.old cursor.new result }
    ensures err { IfErr result IsMalformed }
{
    Ok(Ieee32::new(read_bits_32(cursor)?))
}

/// Reads a 64-bit floating-point number as its bits.
fn read_f64(cursor: &mut Cursor<'_>) -> Result<Ieee64, Fault>
    ensures reads { Reads (map_at ieee64 (little_endian 8).at) cursor.old cursor.new result }
    ensures err { IfErr result IsMalformed }
{
    Ok(Ieee64::new(read_bits_64(cursor)?))
}

/// Reads a little-endian number of 4 bytes.
#[tactic(auto, unfolding(wasm_codec::specs::formats::Combinators::little_endian))]
pub fn read_bits_32(cursor: &mut Cursor<'_>) -> Result<u32, Fault>
    ensures reads { Reads (little_endian 4).at cursor.old cursor.new result }
    ensures err { IfErr result IsMalformed }
{
    let first = u32::from(cursor.byte_of(Construct::Constant)?);
    let second = u32::from(cursor.byte_of(Construct::Constant)?);
    let third = u32::from(cursor.byte_of(Construct::Constant)?);
    let fourth = u32::from(cursor.byte_of(Construct::Constant)?);
    Ok(first + 0x100 * (second + 0x100 * (third + 0x100 * fourth)))
}

/// Reads a little-endian number of 8 bytes.
#[tactic(auto, using(crate::proofs::LittleEndianHalves::both_halves, crate::proofs::LittleEndianHalves::no_low_half, crate::proofs::LittleEndianHalves::no_high_half))]
pub fn read_bits_64(cursor: &mut Cursor<'_>) -> Result<u64, Fault>
    ensures reads { Reads (little_endian 8).at cursor.old cursor.new result }
    ensures err { IfErr result IsMalformed }
{
    let low = read_bits_32(cursor)?;
    let high = read_bits_32(cursor)?;
    Ok(u64::from(low) + (1 << 32) * u64::from(high))
}

/// Reads a vector of 16 bytes, little-endian.
#[tactic(auto, unfolding(crate::specs::formats::Operands::vector))]
fn read_vector(cursor: &mut Cursor<'_>) -> Result<V128, Fault>
    ensures reads { Reads vector.at cursor.old cursor.new result }
    ensures err { IfErr result IsMalformed }
{
    let low = read_bits_64(cursor)?;
    let high = read_bits_64(cursor)?;
    Ok(V128 { low, high })
}

/// Reads sixteen lane indexes.
#[tactic(auto, unfolding(crate::specs::formats::Operands::lanes, wasm_codec::specs::Places::raw_at))]
fn read_lanes(cursor: &mut Cursor<'_>) -> Result<[Lane; 16], Fault>
    ensures reads { Reads lanes.at cursor.old cursor.new result }
    ensures err { IfErr result IsMalformed }
{
    let bytes = cursor.take(16, Construct::Constant)?;
    let mut lanes = [0; 16];
    lanes.copy_from_slice(bytes);
    Ok(lanes)
}

/// Reads operands of a kind.
#[tactic(auto, unfolding(crate::specs::formats::Instructions::operands_format))]
pub fn read_operands(alloc: Global, cursor: &mut Cursor<'_>, kind: Kind) -> Result<Operands, Fault>
    ensures reads { Reads (operands_format kind).at cursor.old cursor.new result }
    ensures kind { IfOk result (λ o. kind_of o ≡ kind) }
    ensures aligned { IfOk result (λ o. IsAligned o) }
    ensures counted { IfOk result (λ o. IsCounted o) }
{
    match kind {
        Kind::None => Ok(Operands::None),
        Kind::Block => Ok(Operands::Block(take_block_type(cursor)?)),
        Kind::Index => Ok(Operands::Index(cursor.u32()?)),
        Kind::TwoIndexes => read_two_indexes(cursor),
        Kind::BrTable => read_br_table(alloc, cursor),
        Kind::Types => Ok(Operands::Types(read_list(alloc, cursor)?)),
        Kind::TryTable => read_try_table(alloc, cursor),
        Kind::Mem => Ok(Operands::Mem(take_mem_arg(cursor)?)),
        Kind::I32 => Ok(Operands::I32(cursor.s32()?)),
        Kind::I64 => Ok(Operands::I64(cursor.s64()?)),
        Kind::F32 => Ok(Operands::F32(read_f32(cursor)?)),
        Kind::F64 => Ok(Operands::F64(read_f64(cursor)?)),
        Kind::Heap => Ok(Operands::Heap(take_heap_type(cursor)?)),
        Kind::Resume => read_resume(alloc, cursor),
        Kind::ResumeThrow => read_resume_throw(alloc, cursor),
        Kind::Cast => read_cast(cursor),
        Kind::V128 => Ok(Operands::V128(read_vector(cursor)?)),
        Kind::Shuffle => Ok(Operands::Shuffle(read_lanes(cursor)?)),
        Kind::Lane => Ok(Operands::Lane(cursor.byte()?)),
        Kind::MemLane => read_mem_lane(cursor),
        Kind::Order => Ok(Operands::Order(take_ordering(cursor)?)),
        Kind::OrderIndex => read_order_index(cursor),
        Kind::OrderTwoIndexes => read_order_two_indexes(cursor),
    }
}

/// Reads a memory argument of short numbers, without the index of its memory. Returns `None` if the next one has
/// another form: then the position is unspecified.
#[inline(always)]
#[tactic(auto, unfolding(crate::specs::formats::Operands::mem_arg))]
pub(crate) fn read_short_mem_arg(cursor: &mut Cursor<'_>) -> Option<MemArg>
    ensures reads { IfSome result (λ arg. mem_arg.at cursor.old ≡ Some (arg, cursor.new)) }
    ensures aligned { IfSome result (λ arg. arg.align < 64) }
{
    let align = cursor.short_u32()?;
    if align >= 64 {
        return None;
    }
    let offset = cursor.short_u64()?;
    Some(MemArg {
        offset,
        align,
        memory_index: 0,
    })
}

/// Reads an empty block type. Returns `None` if the next one isn't empty: then the position is unspecified.
#[inline(always)]
#[tactic(auto, unfolding(crate::specs::formats::Operands::block_type))]
pub(crate) fn read_empty_block_type(cursor: &mut Cursor<'_>) -> Option<BlockType>
    ensures { IfSome result (λ ty. block_type.at cursor.old ≡ Some (ty, cursor.new)) }
{
    if cursor.next_byte()? != 0x40 {
        return None;
    }
    Some(BlockType::Empty)
}

/// Reads two indexes.
#[tactic(auto, unfolding(crate::specs::formats::Instructions::operands_format))]
fn read_two_indexes(cursor: &mut Cursor<'_>) -> Result<Operands, Fault>
    ensures reads { ReadsOperands kinds.TwoIndexes cursor.old cursor.new result }
{
    let first = cursor.u32()?;
    let second = cursor.u32()?;
    Ok(Operands::TwoIndexes(first, second))
}

/// Reads the labels and the default label of a `br_table`.
#[tactic(auto, unfolding(crate::specs::formats::Instructions::operands_format))]
fn read_br_table(alloc: Global, cursor: &mut Cursor<'_>) -> Result<Operands, Fault>
    ensures reads { ReadsOperands kinds.BrTable cursor.old cursor.new result }
{
    let labels = read_list(alloc, cursor)?;
    let default = cursor.u32()?;
    Ok(Operands::BrTable(labels, default))
}

/// Reads the block type and the clauses of a `try_table`.
#[tactic(auto, unfolding(crate::specs::formats::Instructions::operands_format))]
fn read_try_table(alloc: Global, cursor: &mut Cursor<'_>) -> Result<Operands, Fault>
    ensures reads { ReadsOperands kinds.TryTable cursor.old cursor.new result }
{
    let ty = take_block_type(cursor)?;
    let Ok(clauses) = BoxedItems::new(read_list(alloc, cursor)?) else {
        return Err(Fault::Memory);
    };
    Ok(Operands::TryTable(ty, clauses))
}

/// Reads an index and the clauses of a `resume`.
#[tactic(auto, unfolding(crate::specs::formats::Instructions::operands_format))]
fn read_resume(alloc: Global, cursor: &mut Cursor<'_>) -> Result<Operands, Fault>
    ensures reads { ReadsOperands kinds.Resume cursor.old cursor.new result }
{
    let index = cursor.u32()?;
    let handlers = read_list(alloc, cursor)?;
    Ok(Operands::Resume(index, handlers))
}

/// Reads two indexes and the clauses of a `resume_throw`.
#[tactic(auto, unfolding(crate::specs::formats::Instructions::operands_format))]
fn read_resume_throw(alloc: Global, cursor: &mut Cursor<'_>) -> Result<Operands, Fault>
    ensures reads { ReadsOperands kinds.ResumeThrow cursor.old cursor.new result }
{
    let index = cursor.u32()?;
    let tag = cursor.u32()?;
    let handlers = read_list(alloc, cursor)?;
    Ok(Operands::ResumeThrow(index, tag, handlers))
}

/// Reads a memory argument and a lane index.
#[tactic(auto, unfolding(crate::specs::formats::Instructions::operands_format))]
fn read_mem_lane(cursor: &mut Cursor<'_>) -> Result<Operands, Fault>
    ensures reads { ReadsOperands kinds.MemLane cursor.old cursor.new result }
{
    let arg = take_mem_arg(cursor)?;
    let lane = cursor.byte()?;
    Ok(Operands::MemLane(arg, lane))
}

/// Reads an ordering and an index.
#[tactic(auto, unfolding(crate::specs::formats::Instructions::operands_format))]
fn read_order_index(cursor: &mut Cursor<'_>) -> Result<Operands, Fault>
    ensures reads { ReadsOperands kinds.OrderIndex cursor.old cursor.new result }
{
    let ordering = take_ordering(cursor)?;
    let index = cursor.u32()?;
    Ok(Operands::OrderIndex(ordering, index))
}

/// Reads an ordering and two indexes.
#[tactic(auto, unfolding(crate::specs::formats::Instructions::operands_format))]
fn read_order_two_indexes(cursor: &mut Cursor<'_>) -> Result<Operands, Fault>
    ensures reads { ReadsOperands kinds.OrderTwoIndexes cursor.old cursor.new result }
{
    let ordering = take_ordering(cursor)?;
    let first = cursor.u32()?;
    let second = cursor.u32()?;
    Ok(Operands::OrderTwoIndexes(ordering, first, second))
}

/// Reads the operands of a branch on a cast: flags, a label and two heap types.
#[tactic(auto, unfolding(crate::specs::formats::Instructions::operands_format))]
fn read_cast(cursor: &mut Cursor<'_>) -> Result<Operands, Fault>
    ensures reads { ReadsOperands kinds.Cast cursor.old cursor.new result }
{
    let (before_nullable, after_nullable) = take_castop(cursor)?;
    let label = cursor.u32()?;
    let before = RefType {
        nullable: before_nullable,
        heap_type: take_heap_type(cursor)?,
    };
    let after = RefType {
        nullable: after_nullable,
        heap_type: take_heap_type(cursor)?,
    };
    Ok(Operands::Cast(label, before, after))
}
