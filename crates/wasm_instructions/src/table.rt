//! Opcodes, the kinds of their operands, and calls: opcodes with operands of their kinds.

mod call;
mod kinds;
pub(crate) mod opcode;

pub use call::{Call, Operands};
pub use opcode::{Kind, Opcode, Prefix};
