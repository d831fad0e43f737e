//! Items inserted into each index space: the instructions that change, and new indexes that are too large.

use super::{SPACES, is};
use std::alloc::Global;
use std::test::Fail;
use wasm_encoder::{
    EncodeError, IndexSpace, InsertedItems, InstructionSink, map_all_indices, read_instructions,
};

/// Instructions with index 2 in a space and no other index over 0, and the same with index 3.
const ROWS: [(IndexSpace, &str, &str); 17] = [
    (IndexSpace::Types, "0202", "0203"), // block
    (IndexSpace::Types, "D002", "D003"), // ref.null
    (IndexSpace::Types, "1C016402", "1C016403"), // select
    (IndexSpace::Types, "FB0002", "FB0003"), // struct.new
    (IndexSpace::Types, "110200", "110300"), // call_indirect
    (IndexSpace::Functions, "1002", "1003"), // call
    (IndexSpace::Functions, "D202", "D203"), // ref.func
    (IndexSpace::Tables, "2502", "2503"), // table.get
    (IndexSpace::Tables, "FC0C0002", "FC0C0003"), // table.init
    (IndexSpace::Memories, "3F02", "3F03"), // memory.size
    (IndexSpace::Memories, "28420200", "28420300"), // i32.load
    (IndexSpace::Globals, "2302", "2303"), // global.get
    (IndexSpace::Tags, "0802", "0803"), // throw
    (IndexSpace::Tags, "1F4001000200", "1F4001000300"), // try_table
    (IndexSpace::Elements, "FC0D02", "FC0D03"), // elem.drop
    (IndexSpace::Data, "FC0902", "FC0903"), // data.drop
    (IndexSpace::Data, "FC080200", "FC080300"), // memory.init
];

/// The instructions become these when items are inserted.
fn becomes(alloc: Global, hex: &str, inserted: InsertedItems, then: &str) -> Result<(), Fail> {
    let bytes = hex::decode(alloc, hex)?;
    let calls = read_instructions(alloc, bytes.as_slice())?;
    let mapped = map_all_indices(alloc, &inserted, calls.as_slice())?;
    let mut written = Vec::new(alloc);
    InstructionSink::new(&mut written).write_calls(mapped.as_slice())?;
    is(alloc, written.as_slice(), then)
}

/// The instructions have no encoding when items are inserted.
fn is_too_large(alloc: Global, hex: &str, inserted: InsertedItems) -> Result<(), Fail> {
    let bytes = hex::decode(alloc, hex)?;
    let calls = read_instructions(alloc, bytes.as_slice())?;
    match map_all_indices(alloc, &inserted, calls.as_slice()) {
        Err(EncodeError::TooLong) => Ok(()),
        _ => Err(Fail::from(hex)),
    }
}

#[test]
fn an_item_in_each_index_space(rt: HostRuntime) -> Result<(), Fail> {
    for (own, before, after) in &ROWS {
        for space in SPACES {
            let inserted = InsertedItems {
                space,
                at: 1,
                count: 1,
            };
            let then = if space == *own { *after } else { *before };
            becomes(rt.alloc(), before, inserted, then)?;
        }
    }
    Ok(())
}

#[test]
fn only_indexes_of_the_instruction_can_be_too_large(rt: HostRuntime) -> Result<(), Fail> {
    for (own, hex, _) in &ROWS {
        for space in SPACES {
            let mut inserted = InsertedItems {
                space,
                at: 3,
                count: u32::MAX,
            };
            becomes(rt.alloc(), hex, inserted, hex)?;
            inserted.at = 2;
            if space == *own {
                is_too_large(rt.alloc(), hex, inserted)?;
            } else {
                becomes(rt.alloc(), hex, inserted, hex)?;
            }
        }
    }
    Ok(())
}
