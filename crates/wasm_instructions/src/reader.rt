//! Readers of operands, instructions and lists of them.

pub mod instructions;
pub mod lists;
pub mod operands;

pub use crate::operands::control::take_block_type;
pub use crate::table::opcode::take_opcode;
