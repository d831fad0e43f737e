//! Instructions with lists.

use std::alloc::Allocator;
use wasm_encoder::{BlockType, Catch, EncodeError, InstructionSink, ValType};

/// Sixteen labels, of one byte and of two.
const LABELS: [u32; 16] = [
    0, 1, 2, 3, 4, 5, 6, 7, 130, 131, 132, 133, 134, 135, 136, 137,
];

/// A branch table of 16 labels and one of 2, a `select` with its type, and a block with two clauses, in each round.
pub fn write_lists<A: Allocator>(code: &mut Vec<u8, A>, round: u32) -> Result<(), EncodeError> {
    let clauses = [
        Catch::One {
            tag: round % 200,
            label: round % 5,
        },
        Catch::All { label: 1 },
    ];
    let two = [round % 100, round % 1000];
    InstructionSink::new(&mut *code)
        .br_table(LABELS.iter().copied(), round % 3)?
        .br_table(two.iter().copied(), round)?
        .typed_select(ValType::I64)?
        .try_table(BlockType::Empty, clauses.iter().copied())?;
    Ok(())
}
