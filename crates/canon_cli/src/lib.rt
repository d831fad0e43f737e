//! The command line of `wasmcanon`, and its inputs and outputs: what needs no statement of the WebAssembly library.
#![tactic(auto)]

pub mod command_line;
pub mod held;
pub mod input;
mod options;
pub mod outputs;
pub mod paths;
pub mod progress;
pub mod replacement;
pub mod request;
pub mod statuses;
pub mod text;
pub mod words;
