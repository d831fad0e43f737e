//! Numbers, sizes and lists of the WebAssembly binary format (Core 3.0, Conventions and Values). The cursor reads them,
//! and the rewriter replaces their encodings by minimal ones in place. `streams` writes bytes to a writer.
#![tactic(auto)]

pub mod encode;
pub mod input;
pub mod reader;
pub mod rewriter;
pub mod streams;
