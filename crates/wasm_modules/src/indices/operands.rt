//! Instructions with new indices (Core 3.0, Instructions).
ghost use Rattle.std.specs.Prelude.{◌≡◌, IfErr, IfOk, map, ◌⊎◌, Any};
ghost use Rattle.wasm_lists.specs.EncodedLists.{IsMemoryOrTooLong};
ghost use Rattle.wasm_modules.specs.IndexSpaces.{index_spaces};
ghost use Rattle.wasm_modules.specs.IndexOverflows.{BlockTypeExceeds, CallExceeds, CatchExceeds, ExceedsIn, HandleExceeds, MemArgExceeds, OperandsExceed, PairExceeds, RefTypeExceeds};
ghost use Rattle.wasm_modules.specs.MappedIndices.{index_in, mapped_ref_type, mapped_block_type, mapped_catch, mapped_handle, mapped_mem_arg, mapped_operands, mapped_call};
ghost use Rattle.wasm_instructions.specs.declared.table.call.Operands.TheVariants as operands;

use crate::indices::renumbering::{new_index_in, new_index_of};
use crate::indices::{IndexSpace, MapIndices, Renumbering, index_spaces};
use std::alloc::Global;
use wasm_codec::encode::EncodeError;
use wasm_instructions::operands::{BlockType, Catch, Handle, MemArg};
use wasm_instructions::table::{Call, Opcode, Operands};
use wasm_lists::list::{BoxedItems, Items};
use wasm_types::types::RefType;

impl MapIndices for BlockType {
    ghost mapped = { mapped_block_type };

    ghost exceeds = { BlockTypeExceeds };

    fn map_indices<M: Renumbering>(
        &self,
        alloc: Global,
        indices: &M,
    ) -> Result<BlockType, EncodeError> {
        Ok(match self {
            BlockType::Empty => BlockType::Empty,
            BlockType::Result(ty) => BlockType::Result(ty.map_indices(alloc, indices)?),
            BlockType::FunctionType(index) => {
                BlockType::FunctionType(new_index_of(indices, IndexSpace::Types, *index)?)
            }
        })
    }
}

impl MapIndices for Catch {
    ghost mapped = { mapped_catch };

    ghost exceeds = { CatchExceeds };

    fn map_indices<M: Renumbering>(
        &self,
        alloc: Global,
        indices: &M,
    ) -> Result<Catch, EncodeError> {
        Ok(match self {
            Catch::One { tag, label } => Catch::One {
                tag: new_index_of(indices, IndexSpace::Tags, *tag)?,
                label: *label,
            },
            Catch::OneRef { tag, label } => Catch::OneRef {
                tag: new_index_of(indices, IndexSpace::Tags, *tag)?,
                label: *label,
            },
            Catch::All { label } => Catch::All { label: *label },
            Catch::AllRef { label } => Catch::AllRef { label: *label },
        })
    }
}

impl MapIndices for Handle {
    ghost mapped = { mapped_handle };

    ghost exceeds = { HandleExceeds };

    fn map_indices<M: Renumbering>(
        &self,
        alloc: Global,
        indices: &M,
    ) -> Result<Handle, EncodeError> {
        Ok(match self {
            Handle::OnLabel { tag, label } => Handle::OnLabel {
                tag: new_index_of(indices, IndexSpace::Tags, *tag)?,
                label: *label,
            },
            Handle::OnSwitch { tag } => Handle::OnSwitch {
                tag: new_index_of(indices, IndexSpace::Tags, *tag)?,
            },
        })
    }
}

impl MapIndices for MemArg {
    ghost mapped = { mapped_mem_arg };

    ghost exceeds = { MemArgExceeds };

    fn map_indices<M: Renumbering>(
        &self,
        alloc: Global,
        indices: &M,
    ) -> Result<MemArg, EncodeError> {
        Ok(MemArg {
            offset: self.offset,
            align: self.align,
            memory_index: new_index_of(indices, IndexSpace::Memories, self.memory_index)?,
        })
    }
}

impl MapIndices for Call {
    ghost mapped = { mapped_call };

    ghost exceeds = { CallExceeds };

    #[tactic(auto, using(crate::proofs::MappedCalls::mapped_fits, crate::proofs::MappedCalls::mapped_aligned))]
    fn map_indices<M: Renumbering>(&self, alloc: Global, indices: &M) -> Result<Call, EncodeError> {
        let op = self.op();
        let operands = map_operands(alloc, indices, op, self.operands())?;
        Ok(Call::from_parts(op, operands))
    }
}

/// Returns operands of this opcode with new indices.
fn map_operands<M: Renumbering>(
    alloc: Global,
    indices: &M,
    op: Opcode,
    operands: &Operands,
) -> Result<Operands, EncodeError>
    ensures ok { IfOk result (λ copy. copy ≡ mapped_operands (M.new_indices indices.now) op operands.now) }
    ensures refused { IfErr result (IsMemoryOrTooLong (OperandsExceed (M.new_indices indices.now) op operands.now)) }
{
    let (first, second) = index_spaces(op);
    match operands {
        Operands::Index(index) => new_index_in(indices, first, *index).map(Operands::Index),
        Operands::TwoIndexes(one, two) => {
            let (one, two) = map_pair(indices, op, *one, *two)?;
            Ok(Operands::TwoIndexes(one, two))
        }
        Operands::OrderIndex(ordering, index) => {
            let index = new_index_in(indices, first, *index)?;
            Ok(Operands::OrderIndex(*ordering, index))
        }
        Operands::OrderTwoIndexes(ordering, one, two) => {
            let (one, two) = map_pair(indices, op, *one, *two)?;
            Ok(Operands::OrderTwoIndexes(*ordering, one, two))
        }
        Operands::Resume(ty, handlers) => map_resume(alloc, indices, first, *ty, handlers),
        Operands::ResumeThrow(ty, tag, handlers) => {
            let (ty, tag) = map_pair(indices, op, *ty, *tag)?;
            let handlers = handlers.map_indices(alloc, indices)?;
            Ok(Operands::ResumeThrow(ty, tag, handlers))
        }
        Operands::Block(ty) => ty.map_indices(alloc, indices).map(Operands::Block),
        Operands::Types(types) => types.map_indices(alloc, indices).map(Operands::Types),
        Operands::TryTable(ty, clauses) => map_try_table(alloc, indices, *ty, clauses),
        Operands::Mem(arg) => arg.map_indices(alloc, indices).map(Operands::Mem),
        Operands::MemLane(arg, lane) => {
            let arg = arg.map_indices(alloc, indices)?;
            Ok(Operands::MemLane(arg, *lane))
        }
        Operands::Heap(ty) => ty.map_indices(alloc, indices).map(Operands::Heap),
        Operands::Cast(label, before, after) => {
            map_cast(alloc, indices, *label, *before, *after)
        }
        others => others.try_clone(),
    }
}

/// Returns the new indices of the two indices of an instruction with this opcode.
fn map_pair<M: Renumbering>(
    indices: &M,
    op: Opcode,
    one: u32,
    two: u32,
) -> Result<(u32, u32), EncodeError>
    ensures first { IfOk result (λ pair. pair.0 ≡ index_in (M.new_indices indices.now) (index_spaces op).0 one) }
    ensures second { IfOk result (λ pair. pair.1 ≡ index_in (M.new_indices indices.now) (index_spaces op).1 two) }
    ensures refused { IfErr result (IsMemoryOrTooLong (PairExceeds (M.new_indices indices.now) op one two)) }
{
    let (first, second) = index_spaces(op);
    let one = new_index_in(indices, first, one)?;
    Ok((one, new_index_in(indices, second, two)?))
}

/// Returns the operands of a `resume` with new indices.
fn map_resume<M: Renumbering>(
    alloc: Global,
    indices: &M,
    space: Option<IndexSpace>,
    ty: u32,
    handlers: &Items<Handle>,
) -> Result<Operands, EncodeError>
    ensures ok { IfOk result (λ copy. copy ≡
        operands.Resume (index_in (M.new_indices indices.now) space ty) (map (mapped_handle (M.new_indices indices.now)) handlers.now)) }
    ensures refused { IfErr result (IsMemoryOrTooLong (ExceedsIn (M.new_indices indices.now) space ty ⊎ Any (HandleExceeds (M.new_indices indices.now)) handlers.now)) }
{
    let ty = new_index_in(indices, space, ty)?;
    Ok(Operands::Resume(ty, handlers.map_indices(alloc, indices)?))
}

/// Returns the operands of a `try_table` with new indices.
fn map_try_table<M: Renumbering>(
    alloc: Global,
    indices: &M,
    ty: BlockType,
    clauses: &BoxedItems<Catch>,
) -> Result<Operands, EncodeError>
    ensures ok { IfOk result (λ copy. copy ≡
        operands.TryTable (mapped_block_type (M.new_indices indices.now) ty) (map (mapped_catch (M.new_indices indices.now)) clauses.now)) }
    ensures refused { IfErr result (IsMemoryOrTooLong (BlockTypeExceeds (M.new_indices indices.now) ty ⊎ Any (CatchExceeds (M.new_indices indices.now)) clauses.now)) }
{
    let ty = ty.map_indices(alloc, indices)?;
    let clauses = clauses.items().map_indices(alloc, indices)?;
    Ok(Operands::TryTable(ty, BoxedItems::new(clauses)?))
}

/// Returns the operands of a branch on a cast with new indices.
fn map_cast<M: Renumbering>(
    alloc: Global,
    indices: &M,
    label: u32,
    before: RefType,
    after: RefType,
) -> Result<Operands, EncodeError>
    ensures ok { IfOk result (λ copy. copy ≡
        operands.Cast label (mapped_ref_type (M.new_indices indices.now) before) (mapped_ref_type (M.new_indices indices.now) after)) }
    ensures refused { IfErr result (IsMemoryOrTooLong (RefTypeExceeds (M.new_indices indices.now) before ⊎ RefTypeExceeds (M.new_indices indices.now) after)) }
{
    let before = before.map_indices(alloc, indices)?;
    Ok(Operands::Cast(label, before, after.map_indices(alloc, indices)?))
}
