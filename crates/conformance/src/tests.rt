//! Worked examples, each public function on its happy path, and what no contract says. The rows of `replay` hold what is
//! read, refused and normalised, and what is written in one call.

mod contents;
mod core_dumps;
mod errors;
mod expressions;
mod functions;
mod in_place;
mod index_spaces;
mod instructions;
mod iterators;
mod lists;
mod module_writer;
mod modules;
mod moved_hints;
mod operands;
mod own;
mod reading;
mod readme;
mod reasons;
mod refused_memory;
mod symbols;
mod text;
mod type_sections;
mod types;
mod writing;
mod written_back;
mod written_names;

use std::alloc::Global;
use std::test::Fail;
use wasm_encoder::{Encode, EncodeError, IndexSpace};

/// Every index space.
const SPACES: [IndexSpace; 8] = [
    IndexSpace::Types,
    IndexSpace::Functions,
    IndexSpace::Tables,
    IndexSpace::Memories,
    IndexSpace::Globals,
    IndexSpace::Tags,
    IndexSpace::Elements,
    IndexSpace::Data,
];

/// The bytes are these in hex.
fn is(alloc: Global, bytes: &[u8], hex: &str) -> Result<(), Fail> {
    if hex::decode(alloc, hex)?.as_slice() == bytes {
        Ok(())
    } else {
        Err(Fail::from(hex))
    }
}

/// The value is encoded as these bytes.
fn is_encoded<T: Encode>(alloc: Global, value: &T, hex: &str) -> Result<(), Fail> {
    let mut bytes = Vec::new(alloc);
    value.encode(&mut bytes)?;
    is(alloc, bytes.as_slice(), hex)
}

/// The value is refused with this error, and the list to which it was to be appended is as it was.
fn is_refused<T: Encode>(alloc: Global, value: &T, error: &EncodeError) -> Result<(), Fail> {
    let mut list = vec![in alloc; 0x2a]?;
    let refused = value.encode(&mut list).err();
    if refused.as_ref() == Some(error) && list.as_slice() == [0x2a].as_slice() {
        Ok(())
    } else {
        Err(Fail::from("another answer"))
    }
}
