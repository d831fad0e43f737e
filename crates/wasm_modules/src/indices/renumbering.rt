//! Renumberings of a module's items, and the trait of values that they apply to.
ghost use Rattle.std.specs.Prelude.{◌≡◌, ◌^◌, ◌≤◌, ℕ, List, map, Any, IfOk, IfErr};
ghost use Rattle.wasm_lists.specs.EncodedLists.{IsMemoryOrTooLong};
ghost use Rattle.wasm_codec.specs.declared.encode.EncodeError.TheVariants.{TooLong};
ghost use Rattle.wasm_modules.specs.declared.indices.spaces.IndexSpace.{IndexSpace};
ghost use Rattle.wasm_modules.specs.IndexOverflows.{Exceeds, ExceedsIn};
ghost use Rattle.wasm_modules.specs.MappedIndices.{index_in, index_after_insertion};

use crate::indices::IndexSpace;
use std::alloc::Global;
use wasm_codec::encode::EncodeError;
use wasm_lists::list::Items;

/// A renumbering: it gives each item of a module a new index. Implement it for renumberings of your own.
///
/// # Examples
///
/// ```
/// # use wasm_encoder::{Renumbering, IndexSpace, InsertedItems};
/// let inserted = InsertedItems {
///     space: IndexSpace::Functions,
///     at: 2,
///     count: 1,
/// };
/// assert_eq!(rt; inserted.new_index(IndexSpace::Functions, 1)?, 1);
/// assert_eq!(rt; inserted.new_index(IndexSpace::Functions, 2)?, 3);
/// assert_eq!(rt; inserted.new_index(IndexSpace::Globals, 2)?, 2);
/// ```
pub trait Renumbering {
    /// The new index of each item, by its index space and its old index.
    ghost new_indices: { Self → IndexSpace → ℕ → ℕ };

    /// Returns the new index of an item. Fails with `TooLong` if it is over 4,294,967,295.
    fn new_index(&self, space: IndexSpace, index: u32) -> Result<u32, EncodeError>
        ensures ok { IfOk result (λ new. new ≡ new_indices self.now space index) }
        ensures err { IfErr result (λ e. (e ≡ TooLong) × (2 ^ 32 ≤ new_indices self.now space index)) };
}

/// The renumbering when items are inserted into an index space: items from index `at` on move up by `count`.
///
/// Items of one kind share an index space with its imports, which come first. An import that is added in front of the
/// others is inserted at 0.
///
/// # Examples
///
/// ```
/// # use wasm_encoder::{EncodeError, Renumbering, IndexSpace, InsertedItems};
/// let import = InsertedItems {
///     space: IndexSpace::Functions,
///     at: 0,
///     count: 1,
/// };
/// assert_eq!(rt; import.new_index(IndexSpace::Functions, 7)?, 8);
/// let too_many = import.new_index(IndexSpace::Functions, 4294967295);
/// assert_eq!(rt; too_many.err(), Some(EncodeError::TooLong));
/// ```
#[derive(Clone, Copy, Debug, PartialEq, Eq)]
pub struct InsertedItems {
    /// Index space of the items.
    pub space: IndexSpace,
    /// Index of the first item that is inserted.
    pub at: u32,
    /// Number of items that are inserted.
    pub count: u32,
}

impl Renumbering for InsertedItems {
    ghost new_indices = { index_after_insertion };

    fn new_index(&self, space: IndexSpace, index: u32) -> Result<u32, EncodeError> {
        if space.number() == self.space.number() && self.at <= index {
            index.checked_add(self.count).ok_or(EncodeError::TooLong)
        } else {
            Ok(index)
        }
    }
}

/// A value that holds indices of a module's items: an instruction, an entry of a section, or a decoded section.
///
/// The indices are those of types, functions, tables, memories, globals, tags, element and data segments. Labels,
/// locals, fields, constants, names and the contents of custom sections stay.
///
/// # Examples
///
/// ```
/// # use wasm_encoder::{IndexSpace, InsertedItems, MapIndices, ModuleSection, read_whole_module};
/// let module = b"\0asm\x01\0\0\0\x08\x01\x05"; // a start section: function 5
/// let sections = read_whole_module(rt.alloc(), module)?;
/// let import = InsertedItems {
///     space: IndexSpace::Functions,
///     at: 0,
///     count: 1,
/// };
/// let start = sections[0].map_indices(rt.alloc(), &import)?;
/// assert!(rt; matches!(start, ModuleSection::Start(6)));
/// ```
pub trait MapIndices {
    /// The value with new indices, which is otherwise the same.
    ghost mapped: { (IndexSpace → ℕ → ℕ) → Self → Self };

    /// Whether a new index of the value is 2^32 or more.
    ghost exceeds: { (IndexSpace → ℕ → ℕ) → Self → Type 0 };

    /// Returns a copy with new indices. Everything else stays.
    ///
    /// Fails with `TooLong` if a new index is over 4,294,967,295, and with `Memory` if it can't allocate.
    fn map_indices<M: Renumbering>(&self, alloc: Global, indices: &M) -> Result<Self, EncodeError>
        ensures ok { IfOk result (λ copy. copy ≡ mapped (M.new_indices indices.now) self.now) }
        ensures refused { IfErr result (IsMemoryOrTooLong (exceeds (M.new_indices indices.now) self.now)) };
}

impl<T: MapIndices + Drop> MapIndices for Items<T> {
    ghost mapped = { λ new. map (T.mapped new) };

    ghost exceeds = { λ new. Any (T.exceeds new) };

    fn map_indices<M: Renumbering>(
        &self,
        alloc: Global,
        indices: &M,
    ) -> Result<Items<T>, EncodeError> {
        Ok(Items::from(map_all_indices(alloc, indices, self.as_slice())?))
    }
}

/// Returns copies of values with new indices.
///
/// Fails with `TooLong` if a new index is over 4,294,967,295, and with `Memory` if it can't allocate.
///
/// # Examples
///
/// ```
/// # use wasm_encoder::{IndexSpace, InsertedItems, InstructionSink, map_all_indices, read_instructions};
/// let calls = read_instructions(rt.alloc(), b"\x41\x02\x10\x02")?; // i32.const 2, call 2
/// let import = InsertedItems {
///     space: IndexSpace::Functions,
///     at: 0,
///     count: 1,
/// };
/// let mapped = map_all_indices(rt.alloc(), &import, calls.as_slice())?;
/// let mut bytes = Vec::new(rt.alloc());
/// InstructionSink::new(&mut bytes).write_calls(mapped.as_slice())?;
/// assert_eq!(rt; bytes.as_slice(), b"\x41\x02\x10\x03".as_slice()); // i32.const 2, call 3
/// ```
pub fn map_all_indices<M: Renumbering, T: MapIndices + Drop>(
    alloc: Global,
    indices: &M,
    values: &[T],
) -> Result<Vec<T>, EncodeError>
    ensures ok { IfOk result (λ copies. copies.items ≡ map (T.mapped (M.new_indices indices.now)) values.now) }
    ensures refused { IfErr result (IsMemoryOrTooLong (Any (T.exceeds (M.new_indices indices.now)) values.now)) }
{
    let mut copies = Vec::with_capacity(alloc, values.len())?;
    for value in values {
        copies.push(value.map_indices(alloc, indices)?)?;
    }
    Ok(copies)
}

/// Returns the new index of an item, with the error of methods that map values.
pub(crate) fn new_index_of<M: Renumbering>(
    indices: &M,
    space: IndexSpace,
    index: u32,
) -> Result<u32, EncodeError>
    ensures ok { IfOk result (λ new. new ≡ M.new_indices indices.now space index) }
    ensures refused { IfErr result (IsMemoryOrTooLong (Exceeds (M.new_indices indices.now) space index)) }
{
    indices.new_index(space, index)
}

/// Returns the new index in this index space. An index that is in none stays.
pub(crate) fn new_index_in<M: Renumbering>(
    indices: &M,
    space: Option<IndexSpace>,
    index: u32,
) -> Result<u32, EncodeError>
    ensures ok { IfOk result (λ new. new ≡ index_in (M.new_indices indices.now) space index) }
    ensures refused { IfErr result (IsMemoryOrTooLong (ExceedsIn (M.new_indices indices.now) space index)) }
{
    match space {
        Some(space) => new_index_of(indices, space, index),
        None => Ok(index),
    }
}

/// Returns the new indices of items of this index space.
pub(crate) fn map_each<M: Renumbering>(
    alloc: Global,
    indices: &M,
    space: IndexSpace,
    list: &[u32],
) -> Result<Vec<u32>, EncodeError>
    ensures ok { IfOk result (λ copies. copies.items ≡ map (M.new_indices indices.now space) list.now) }
    ensures refused { IfErr result (IsMemoryOrTooLong (Any (Exceeds (M.new_indices indices.now) space) list.now)) }
{
    let mut copies = Vec::with_capacity(alloc, list.len())?;
    for index in list {
        copies.push(new_index_of(indices, space, *index)?)?;
    }
    Ok(copies)
}
