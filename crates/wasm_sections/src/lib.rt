//! The sections of WebAssembly modules, except types and code (Core 3.0, Modules). The file of a section has its items,
//! reads, writes and rewrites them, and builds the section.
#![tactic(auto)]

pub mod bodies;
pub mod contents;
pub mod custom;
pub mod data;
pub mod elements;
pub mod exports;
pub mod functions;
pub mod globals;
pub mod imports;
pub mod list_section;
pub mod memories;
pub mod module_sections;
pub mod numbers;
mod segments;
pub mod tables;
pub mod tags;
