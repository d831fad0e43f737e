//! Instructions of WebAssembly (Core 3.0, Instructions): the table of opcodes, operands and calls, and what reads, writes
//! and rewrites them.
#![tactic(auto)]

pub mod appenders;
pub mod calls;
pub mod encode;
pub mod names;
pub mod normaliser;
pub mod operands;
pub mod reader;
pub mod table;
mod text;
