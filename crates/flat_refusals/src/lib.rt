//! Refusals as numbers and as text, for callers in other languages: C, and the hosts of a WebAssembly module.
//!
//! Nothing here allocates.
#![tactic(auto, using(crate::proofs::MessageLaws::holds, crate::proofs::MessageLaws::holds_none, crate::proofs::MessageLaws::holds_text_of))]

pub mod message;
pub mod reasons;
pub mod refusal;
pub mod statuses;
