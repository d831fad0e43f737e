//! Listings of a module and of the differences between two modules, and reports of what isn't minimally encoded. Each is
//! written as text or as JSON while the module is read, so that no listing is kept.
//!
//! `listing::list_module` passes the parts of a module to a `Listing`: `Lines` writes text, and `Values` JSON.
//! `listing::list_differences` passes the parts in which two modules differ to `Differences`: `DifferentLines` or
//! `DifferentValues`. A `report::Report` watches a module while it is rewritten.
#![tactic(auto)]

pub mod diff;
pub mod json;
pub mod listing;
pub mod report;
pub mod sections;
