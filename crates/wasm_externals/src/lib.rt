//! What several sections share: the types of entities (Core 3.0, Types), names, and constant expressions. Each is read,
//! written and rewritten here.
#![tactic(auto)]

pub mod const_expr;
pub mod expressions;
pub mod limits;
pub mod names;
pub mod types;
