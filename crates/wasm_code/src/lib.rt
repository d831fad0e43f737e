//! Modules of WebAssembly (Core 3.0, Modules) with their bodies as bytes, or with types and code decoded; code bodies; and
//! what reads, writes and rewrites them.
#![tactic(auto)]

pub mod code;
pub mod decode;
pub mod longer;
pub mod normaliser;
pub mod raw;
pub mod reasons;
pub mod section;
pub mod sections;
