//! Copies of values with new indices, for tools that add, move or remove items of a module (Core 3.0, Indices).

mod entries;
mod operands;
mod renumbering;
mod sections;
mod spaces;
mod type_indices;

pub use renumbering::{InsertedItems, MapIndices, Renumbering, map_all_indices};
pub use spaces::{IndexSpace, index_spaces};
