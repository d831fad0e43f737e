//! Writers of opcodes and operands into reserved room.

mod opcodes;
mod operands;

pub use opcodes::put_opcode;
pub use operands::{
    put_bits_32, put_bits_64, put_block_type, put_castop, put_catch, put_handle, put_lanes,
    put_mem_arg, put_ordering, put_vector,
};
