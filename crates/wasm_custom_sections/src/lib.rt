//! The contents of well-known custom sections: names (Core 3.0, Name Section), and the sections `producers`,
//! `target_features`, `metadata.code.branch_hint` and `linking`, and those of core dumps.
#![tactic(auto)]

pub mod branch_hints;
pub mod contents;
pub mod core_dumps;
pub mod core_stacks;
pub mod core_values;
pub mod custom_list;
pub mod known;
pub mod linking;
pub mod longer_contents;
pub mod moved_hints;
pub mod name_maps;
pub mod names;
pub mod producers;
mod sized;
pub mod symbol_table;
pub mod symbols;
pub mod target_features;
mod whole_values;
