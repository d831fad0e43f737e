//! Block types, the clauses of `try_table` (Core 3.0, Control Instructions) and of `resume`, and the flags of branches on
//! casts.
ghost use Rattle.std.specs.Prelude.{◌≡◌, refl};
ghost use Rattle.wasm_codec.specs.Inputs.{Takes};
ghost use Rattle.wasm_instructions.specs.declared.operands.control.BlockType.TheVariants as block_types;
ghost use Rattle.wasm_instructions.specs.declared.operands.control.Catch.{Catch};
ghost use Rattle.wasm_instructions.specs.declared.operands.control.Handle.{Handle};
ghost use Rattle.wasm_instructions.specs.formats.Operands.{block_type, castop, catch_clause, handle_clause};

use std::alloc::Global;
use wasm_codec::input::Input;
use wasm_codec::reader::cursor::{Cursor, Fault};
use wasm_codec::reader::malformed::Construct;
use wasm_codec::rewriter::Rewriter;
use wasm_lists::readable::Readable;
use wasm_types::types::{ValType, take_val_type};

/// The type of a block (Core 3.0, Control Instructions).
///
/// # Examples
///
/// ```
/// # use wasm_encoder::{BlockType, InstructionSink, ValType};
/// let mut code = Vec::new(rt.alloc());
/// let sink = InstructionSink::new(&mut code);
/// sink.block(BlockType::Result(ValType::I32))?.i32_const(7)?.end()?;
/// assert_eq!(rt; code.as_slice(), b"\x02\x7f\x41\x07\x0b".as_slice());
/// assert_eq!(rt; BlockType::from(ValType::I32), BlockType::Result(ValType::I32));
/// ```
#[derive(Clone, Copy, Debug, PartialEq, Eq)]
pub enum BlockType {
    /// No parameters and no results.
    Empty,
    /// No parameters and one result.
    Result(ValType),
    /// The function type of this index.
    FunctionType(u32),
}

impl From<ValType> for BlockType {
    ghost from_gives = { λ ty block. block ≡ block_types.Result ty };

    fn from(ty: ValType) -> BlockType {
        BlockType::Result(ty)
    }
}

/// A clause of `try_table`: the exceptions that it catches, and the label that it branches to (Core 3.0, Control
/// Instructions).
#[derive(Clone, Copy, Debug, PartialEq, Eq)]
pub enum Catch {
    /// Catches exceptions of a tag.
    One {
        /// Index of the tag.
        tag: u32,
        /// Label to branch to.
        label: u32,
    },
    /// Catches exceptions of a tag, and passes a reference to the exception.
    OneRef {
        /// Index of the tag.
        tag: u32,
        /// Label to branch to.
        label: u32,
    },
    /// Catches all exceptions.
    All {
        /// Label to branch to.
        label: u32,
    },
    /// Catches all exceptions, and passes a reference to the exception.
    AllRef {
        /// Label to branch to.
        label: u32,
    },
}

/// A clause of `resume`: the handler of a suspension (stack switching proposal).
#[derive(Clone, Copy, Debug, PartialEq, Eq)]
pub enum Handle {
    /// Branches on a suspension of a tag.
    OnLabel {
        /// Index of the tag.
        tag: u32,
        /// Label to branch to.
        label: u32,
    },
    /// Handles a `switch` of a tag.
    OnSwitch {
        /// Index of the tag.
        tag: u32,
    },
}

/// Takes a block type (Core 3.0, Control Instructions).
#[tactic(auto, unfolding(crate::specs::formats::Operands::block_type))]
pub fn take_block_type<I: Input>(input: &mut I) -> Result<BlockType, Fault>
    ensures takes { Takes I.writes block_type (I.state input.old) (I.state input.new) result }
{
    let first = input.peek(Construct::BlockType)?;
    if first == 0x40 {
        input.byte_of(Construct::BlockType)?;
        return Ok(BlockType::Empty);
    }
    if !(0x40..0x80).contains(&first) {
        return Ok(BlockType::FunctionType(input.index()?));
    }
    Ok(BlockType::Result(take_val_type(input)?))
}

/// Takes the flags of a branch on a cast: whether the types before and after it are nullable.
#[tactic(auto, unfolding(crate::specs::formats::Operands::castop))]
pub(crate) fn take_castop<I: Input>(input: &mut I) -> Result<(bool, bool), Fault>
    ensures takes { Takes I.writes castop (I.state input.old) (I.state input.new) result }
{
    match input.byte_of(Construct::CastFlags)? {
        0x00 => Ok((false, false)),
        0x01 => Ok((true, false)),
        0x02 => Ok((false, true)),
        0x03 => Ok((true, true)),
        byte => Err(Fault::Malformed(input.invalid(Construct::CastFlags, byte))),
    }
}

/// Takes a clause of a `try_table` (Core 3.0, Control Instructions).
#[tactic(auto, unfolding(crate::specs::formats::Operands::catch_clause))]
fn take_catch<I: Input>(input: &mut I) -> Result<Catch, Fault>
    ensures takes { Takes I.writes catch_clause (I.state input.old) (I.state input.new) result }
{
    match input.byte_of(Construct::Clause)? {
        0x00 => {
            let tag = input.u32()?;
            let label = input.u32()?;
            Ok(Catch::One { tag, label })
        }
        0x01 => {
            let tag = input.u32()?;
            let label = input.u32()?;
            Ok(Catch::OneRef { tag, label })
        }
        0x02 => {
            let label = input.u32()?;
            Ok(Catch::All { label })
        }
        0x03 => {
            let label = input.u32()?;
            Ok(Catch::AllRef { label })
        }
        byte => Err(Fault::Malformed(input.invalid(Construct::Clause, byte))),
    }
}

/// Takes a clause of a `resume`.
#[tactic(auto, unfolding(crate::specs::formats::Operands::handle_clause))]
fn take_handle<I: Input>(input: &mut I) -> Result<Handle, Fault>
    ensures takes { Takes I.writes handle_clause (I.state input.old) (I.state input.new) result }
{
    match input.byte_of(Construct::HandlerClause)? {
        0x00 => {
            let tag = input.u32()?;
            let label = input.u32()?;
            Ok(Handle::OnLabel { tag, label })
        }
        0x01 => {
            let tag = input.u32()?;
            Ok(Handle::OnSwitch { tag })
        }
        byte => Err(Fault::Malformed(input.invalid(Construct::HandlerClause, byte))),
    }
}

impl<'a> Readable<'a> for Catch {
    ghost Value = { Catch };

    ghost view = { λ catch. catch };

    ghost views = { λ catches. catches };

    ghost views_each = { record { none = refl; more = λ catches catch. refl } };

    ghost format = { catch_clause };

    fn read(_alloc: Global, cursor: &mut Cursor<'a>) -> Result<Catch, Fault> {
        take_catch(cursor)
    }

    #[inline(always)]
    #[tactic(auto, using(crate::proofs::OperandFormatLaws::item_laws))]
    fn is_lawful() {}

    fn rewrite(rewriter: &mut Rewriter) -> Result<(), Fault> {
        take_catch(rewriter)?;
        Ok(())
    }
}

impl<'a> Readable<'a> for Handle {
    ghost Value = { Handle };

    ghost view = { λ handle. handle };

    ghost views = { λ handles. handles };

    ghost views_each = { record { none = refl; more = λ handles handle. refl } };

    ghost format = { handle_clause };

    fn read(_alloc: Global, cursor: &mut Cursor<'a>) -> Result<Handle, Fault> {
        take_handle(cursor)
    }

    #[inline(always)]
    #[tactic(auto, using(crate::proofs::OperandFormatLaws::item_laws))]
    fn is_lawful() {}

    fn rewrite(rewriter: &mut Rewriter) -> Result<(), Fault> {
        take_handle(rewriter)?;
        Ok(())
    }
}
