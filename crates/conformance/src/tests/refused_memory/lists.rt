//! Calls with lists, cloned.

use super::{call, is_cloned};
use std::alloc::Global;
use std::test::Fail;
use wasm_encoder::{
    BlockType, BoxedItems, Call, Catch, EncodeError, Handle, Items, Operands, ValType,
};

/// A list of these items, though the first request for memory be refused.
fn items<T: Copy>(alloc: Global, items: &[T]) -> Result<Items<T>, EncodeError> {
    match Items::from_slice(alloc, items) {
        Err(EncodeError::Memory) => Items::from_slice(alloc, items),
        list => list,
    }
}

/// The same behind a pointer.
fn boxed<T: Copy>(alloc: Global, list: &[T]) -> Result<BoxedItems<T>, EncodeError> {
    match BoxedItems::new(items(alloc, list)?) {
        Err(EncodeError::Memory) => BoxedItems::new(items(alloc, list)?),
        boxed => boxed,
    }
}

/// `br_table`, `select` and `try_table`.
fn branches(alloc: Global) -> Result<[Call; 3], Fail> {
    let clauses = [Catch::One { tag: 1, label: 0 }, Catch::AllRef { label: 2 }];
    let labels = items(alloc, &[1, 2])?;
    let types = items(alloc, &[ValType::I32, ValType::I64])?;
    let clauses = boxed(alloc, &clauses)?;
    Ok([
        call(0x0e, Operands::BrTable(labels, 3))?,
        call(0x1c, Operands::Types(types))?,
        call(0x1f, Operands::TryTable(BlockType::Empty, clauses))?,
    ])
}

/// `resume`, `resume_throw` and `end`.
fn resumptions(alloc: Global) -> Result<[Call; 3], Fail> {
    let handlers = [
        Handle::OnLabel { tag: 0, label: 1 },
        Handle::OnSwitch { tag: 2 },
    ];
    let first = items(alloc, &handlers)?;
    let second = items(alloc, &handlers)?;
    Ok([
        call(0xe3, Operands::Resume(3, first))?,
        call(0xe4, Operands::ResumeThrow(3, 4, second))?,
        call(0x0b, Operands::None)?,
    ])
}

#[test]
fn branches_are_cloned(rt: HostRuntime) -> Result<(), Fail> {
    for call in branches(rt.alloc())? {
        is_cloned(&rt, &call)?;
    }
    Ok(())
}

#[test]
fn resumptions_are_cloned(rt: HostRuntime) -> Result<(), Fail> {
    for call in resumptions(rt.alloc())? {
        is_cloned(&rt, &call)?;
    }
    Ok(())
}

#[test]
fn long_lists_are_cloned(rt: HostRuntime) -> Result<(), Fail> {
    let labels = items(rt.alloc(), &[7; 100_000])?;
    is_cloned(&rt, &call(0x0e, Operands::BrTable(labels, 3))?)
}
