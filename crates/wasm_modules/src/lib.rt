//! Modules with every section decoded (Core 3.0, Modules): read, written in minimal encoding, checked, and searched for
//! what is malformed.
#![tactic(auto)]

pub mod counting;
pub mod indices;
pub mod modules;
pub mod offsets;
pub mod order;
pub mod selection;
