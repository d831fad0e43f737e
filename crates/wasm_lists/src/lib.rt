//! Lists of the WebAssembly binary format (Core 3.0, Lists): traits for what is read, written and rewritten, and the
//! functions that read, write, rewrite and check lists of it.
#![tactic(auto)]

pub mod checking;
pub mod encode;
pub mod encoded_list;
pub mod item_reader;
pub mod list;
pub mod longer;
pub mod readable;
pub mod reading;
pub mod rewriting;
