//! Operands (Core 3.0, Instructions): block types, memory arguments, the clauses of `try_table` and constants, with the
//! operands of the proposals on stack switching and shared-everything threads.

mod constants;
pub(crate) mod control;
mod memory;

pub use constants::{Ieee32, Ieee64, Lane, V128};
pub(crate) use control::take_castop;
pub use control::{BlockType, Catch, Handle};
pub use memory::{MemArg, Ordering};
pub(crate) use memory::{take_mem_arg, take_ordering};
