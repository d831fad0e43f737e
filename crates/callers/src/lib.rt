//! Callers of the library, proved from its public contracts.
#![tactic(auto)]

pub mod code_sections;
pub mod constants;
pub mod floats;
pub mod held_lists;
pub mod instructions;
pub mod module_writers;
pub mod modules;
pub mod one_by_one;
pub mod refusals;
pub mod sections;
pub mod type_sections;
pub mod whole_modules;
pub mod whole_way;
