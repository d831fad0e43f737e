//! Types of WebAssembly (Core 3.0, Types), from heap types to the entries of a type section, and what reads, writes and
//! rewrites them.
#![tactic(auto)]

pub mod type_sections;
pub mod types;
