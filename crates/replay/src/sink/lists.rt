//! Methods with a list, by name, and their operands as a call has them.

use crate::mismatch::Mismatch;
use crate::sink::arguments::{block_type, catch, handler, index, value_type};
use crate::words::{Words, number};
use std::alloc::{Allocator, Global};
use wasm_encoder::{
    BlockType, BoxedItems, Catch, EncodeError, Handle, InstructionSink, Items, Operands, ValType,
};

/// The operands of a call with a list.
#[derive(Drop)]
pub enum Listed {
    /// Labels and the label of all other numbers.
    Labels(Vec<u32>, u32),
    /// Value types.
    Types(Vec<ValType>),
    /// A block type and clauses.
    Clauses(BlockType, Vec<Catch>),
    /// An index and handlers.
    Handlers(u32, Vec<Handle>),
    /// Two indexes and handlers.
    HandlersAfterTwo(u32, u32, Vec<Handle>),
}

/// The operands of a method with a list, or `None` where it has none.
pub fn parse_listed(alloc: Global, method: &str, column: &str) -> Result<Option<Listed>, Mismatch> {
    let mut words = Words::new(alloc, column)?;
    let listed = read_listed(alloc, method, &mut words)?;
    if listed.is_none() || words.is_at_end() {
        Ok(listed)
    } else {
        Err(Mismatch::NotUnderstood)
    }
}

fn read_listed(
    alloc: Global,
    method: &str,
    words: &mut Words<'_>,
) -> Result<Option<Listed>, Mismatch> {
    Ok(Some(match method {
        "br_table" => {
            let labels = words.items(alloc, "list", index)?;
            Listed::Labels(labels, words.read("u32", number)?)
        }
        "typed_select_multi" => Listed::Types(words.items(alloc, "list", value_type)?),
        "try_table" => {
            let ty = words.read("block", block_type)?;
            Listed::Clauses(ty, words.items(alloc, "list", catch)?)
        }
        "resume" | "resume_throw_ref" => {
            let ty = words.read("u32", number)?;
            Listed::Handlers(ty, words.items(alloc, "list", handler)?)
        }
        "resume_throw" => {
            let ty = words.read("u32", number)?;
            let tag = words.read("u32", number)?;
            Listed::HandlersAfterTwo(ty, tag, words.items(alloc, "list", handler)?)
        }
        _ => return Ok(None),
    }))
}

/// Calls the method of this name.
pub fn write<'a, A: Allocator>(
    sink: InstructionSink<'a, A>,
    method: &str,
    listed: &Listed,
) -> Result<InstructionSink<'a, A>, EncodeError> {
    match listed {
        Listed::Labels(labels, default) => sink.br_table(labels.iter().copied(), *default),
        Listed::Types(types) => sink.typed_select_multi(types.as_slice()),
        Listed::Clauses(ty, clauses) => sink.try_table(*ty, clauses.iter().copied()),
        Listed::Handlers(ty, handlers) => resume(sink, method, *ty, handlers.as_slice()),
        Listed::HandlersAfterTwo(ty, tag, handlers) => {
            sink.resume_throw(*ty, *tag, handlers.iter().copied())
        }
    }
}

/// The two methods with an index and handlers.
fn resume<'a, A: Allocator>(
    sink: InstructionSink<'a, A>,
    method: &str,
    ty: u32,
    handlers: &[Handle],
) -> Result<InstructionSink<'a, A>, EncodeError> {
    if method == "resume" {
        sink.resume(ty, handlers.iter().copied())
    } else {
        sink.resume_throw_ref(ty, handlers.iter().copied())
    }
}

/// The operands of the call, in written order.
pub fn operands(listed: Listed) -> Result<Operands, EncodeError> {
    Ok(match listed {
        Listed::Labels(labels, default) => Operands::BrTable(Items::from(labels), default),
        Listed::Types(types) => Operands::Types(Items::from(types)),
        Listed::Clauses(ty, clauses) => {
            Operands::TryTable(ty, BoxedItems::new(Items::from(clauses))?)
        }
        Listed::Handlers(ty, handlers) => Operands::Resume(ty, Items::from(handlers)),
        Listed::HandlersAfterTwo(ty, tag, handlers) => {
            Operands::ResumeThrow(ty, tag, Items::from(handlers))
        }
    })
}
