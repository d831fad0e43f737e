//! The instruction sink, with a method for each instruction (Core 3.0, Instructions).
#![tactic(auto)]

pub mod sink;
