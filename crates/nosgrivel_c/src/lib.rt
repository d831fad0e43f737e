//! The normalisers and the checks, for callers in C and in other languages with C's calling convention.
//!
//! Modules, lists of instructions, and the bodies of type sections and code sections have five calls each:
//! - `nosgrivel_normalise_…` writes the minimal encoding of the input to an output,
//! - `nosgrivel_normalise_…_in_place` writes it over the input, which a refusal leaves as it was,
//! - `nosgrivel_rewrite_…` writes it over the input without memory of its own,
//! - `nosgrivel_judge_…` checks whether the input is minimally encoded, and returns the length of that encoding,
//! - `nosgrivel_check_…` checks the same, and returns where the minimal encoding ends.
//!
//! `nosgrivel_canonicalise`, `nosgrivel_canonicalise_in_place` and `nosgrivel_rewrite_canonical` write the canonical form
//! of a module, and `nosgrivel_strip` writes it without some of the custom sections. `nosgrivel_explain_module` says why and where a
//! module is refused, and `nosgrivel_message` writes that as text. `nosgrivel_version` returns the version.
//!
//! Calls take pointers and lengths for their input and their output, and a pointer to a count or to a refusal. Most
//! return a status. No pointer may be null, even if its length is 0, and no two of them may overlap.
//! `bindings/c/nosgrivel.h` lists all that a caller owes.
#![tactic(auto, using(crate::proofs::DeliveryLaws::rewrites_normal, crate::proofs::DeliveryLaws::writes_normal, crate::proofs::DeliveryLaws::writes_in_place, crate::proofs::DeliveryLaws::judges_normal, crate::proofs::DeliveryLaws::checks_normal, crate::proofs::DeliveryLaws::checks_all, crate::proofs::ExplainLaws::decodes, crate::proofs::ExplainLaws::fails, crate::proofs::StripLaws::stripped, crate::proofs::StripLaws::writes_stripped, crate::proofs::StripLaws::stops))]

pub mod canonical;
pub mod code_section;
pub mod delivery;
pub mod explain;
pub mod instructions;
pub mod message;
pub mod module;
pub mod strip;
pub mod type_section;
pub mod version;
