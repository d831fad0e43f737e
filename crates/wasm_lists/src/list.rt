//! `Items`, a list that owns its items, and `BoxedItems`, such a list behind a pointer. In contracts both are the plain
//! list of the items.
ghost use Rattle.std.specs.Prelude.{◌≡◌, ◌↔◌, ◌<◌, ◌^◌, List, [], length, IfOk, IfErr, IsTrue};
ghost use Rattle.std.specs.Iterator.Runs.{EveryRun, ItemsMapTo};
ghost use Rattle.std.specs.Slice.Iter.{iter_rest, iter_steps};
ghost use Rattle.wasm_codec.specs.declared.encode.EncodeError.TheVariants.{Memory};

use std::alloc::Global;
use std::fmt;
use std::fmt::Debug;
use std::hash::{Hash, Hasher};
use std::marker::Model;
use std::slice::Iter;
use wasm_codec::encode::EncodeError;

/// A list that owns its items. Types and operands store their lists in it.
///
/// It converts from and to a `Vec` without allocating.
///
/// # Examples
///
/// ```
/// # use wasm_encoder::Items;
/// let items = Items::from_slice(rt.alloc(), &[3, 5])?;
/// assert_eq!(rt; items.len(), 2);
/// assert_eq!(rt; items.as_slice(), [3, 5].as_slice());
/// let mut sum = 0;
/// for item in &items {
///     sum += *item;
/// }
/// assert_eq!(rt; sum, 8);
/// assert_eq!(rt; items.into_vec().pop(), Some(5));
/// ```
#[derive(Drop)]
pub struct Items<T> {
    items: Vec<T>,
}

impl<T> Model for Items<T> {
    ghost use Rattle.std.specs.Prelude.{List};

    ghost Value = { List T };

    ghost view = { λ a. a.items.items };
}

impl<T> Items<T> {
    /// Returns an empty list. It doesn't allocate.
    pub fn new(alloc: Global) -> Items<T>
        ensures { result ≡ [] }
    {
        Items {
            items: Vec::new(alloc),
        }
    }

    /// Returns the items as a slice.
    pub fn as_slice(&self) -> &[T]
        ensures value { result.now ≡ self.now }
    {
        self.items.as_slice()
    }

    /// Returns the number of items.
    pub fn len(&self) -> usize
        ensures { result ≡ length self.now }
    {
        self.items.len()
    }

    /// Checks whether the list is empty.
    pub fn is_empty(&self) -> bool
        ensures { IsTrue result ↔ (self.now ≡ []) }
    {
        self.items.is_empty()
    }

    /// Returns the items as a `Vec`.
    pub fn into_vec(self) -> Vec<T>
        ensures { result.items ≡ self }
    {
        let Items { items } = self;
        items
    }
}

impl<T> Items<T> {
    /// Returns the allocator of the list.
    pub fn allocator(&self) -> Global {
        *self.items.allocator()
    }
}

impl<T: Copy> Items<T> {
    /// Returns a copy. Fails with `Memory` if an allocation fails.
    pub fn try_clone(&self) -> Result<Items<T>, EncodeError>
        ensures ok { IfOk result (λ list. list ≡ self.now) }
        ensures err { IfErr result (λ e. e ≡ Memory) }
    {
        Items::from_slice(self.allocator(), self.as_slice())
    }

    /// Copies a slice to a new list. Fails with `Memory` if an allocation fails.
    pub fn from_slice(alloc: Global, items: &[T]) -> Result<Items<T>, EncodeError>
        ensures ok { IfOk result (λ list. list ≡ items.now) }
        ensures err { IfErr result (λ e. e ≡ Memory) }
    {
        let items = Vec::from_slice(alloc, items)?;
        Ok(Items { items })
    }
}

impl<T> From<Vec<T>> for Items<T> {
    ghost from_gives = { λ v list. list ≡ v.items };

    fn from(items: Vec<T>) -> Items<T> {
        Items { items }
    }
}

/// Yields references to the items, in order.
impl<'a, T> IntoIterator for &'a Items<T> {
    type Item = &'a T;

    type IntoIter = Iter<'a, T>;

    ghost into_iter_gives = { λ items iter. (iter_rest iter ≡ items.now) × (length (iter_rest iter) < 2 ^ 64) × EveryRun (iter_steps {A = T}) (λ p. ItemsMapTo p (λ y. y.now) (iter_rest p.from)) };

    fn into_iter(self) -> Iter<'a, T> {
        self.as_slice().iter()
    }
}

impl<T: PartialEq> PartialEq for Items<T> {
    ghost use Rattle.std.specs.Cmp.Lexicographic.{pointwise, lists_per};

    ghost eq = { pointwise T.eq };

    ghost laws = { lists_per T.laws };

    fn eq(&self, other: &Self) -> bool {
        self.items.eq(&other.items)
    }
}

impl<T: Eq> Eq for Items<T> {
    ghost use Rattle.std.specs.Cmp.Lexicographic.{lists_equiv};

    ghost laws = { lists_equiv T.Eq.laws };
}

impl<T: Hash> Hash for Items<T> {
    ghost use Rattle.std.specs.Hash as fed;
    ghost use Rattle.std.specs.Hash.{items_Alike};

    ghost hash_input = { fed.slice T.hash_input };

    ghost respects_eq = { (items_Alike (record { fed = T.respects_eq })).fed };

    fn hash<H: Hasher>(&self, state: &mut H) {
        self.items.hash(state);
    }
}

impl<T: Debug> Debug for Items<T> {
    fn fmt<W: fmt::Write>(&self, f: &mut fmt::Formatter<W>) -> fmt::Result {
        Debug::fmt(&self.items, f)
    }
}

/// A list that owns its items, behind a pointer.
///
/// The clauses of a `try_table` are such a list, because it is smaller than [`Items`]. Otherwise a `try_table` would be
/// larger than all other instructions, and every `Call` would have its size.
///
/// # Examples
///
/// ```
/// # use wasm_encoder::{BoxedItems, Items};
/// let items = BoxedItems::new(Items::from_slice(rt.alloc(), &[3, 5])?)?;
/// assert_eq!(rt; items.as_slice(), [3, 5].as_slice());
/// assert_eq!(rt; items.into_items().into_vec().pop(), Some(5));
/// ```
#[derive(Drop)]
pub struct BoxedItems<T> {
    items: Box<Items<T>>,
}

impl<T> Model for BoxedItems<T> {
    ghost use Rattle.std.specs.Prelude.{List};

    ghost Value = { List T };

    ghost view = { λ a. a.items.value };
}

impl<T: Drop> BoxedItems<T> {
    /// Moves a list behind a pointer. If it can't allocate, it drops the list and fails with `Memory`.
    pub fn new(items: Items<T>) -> Result<BoxedItems<T>, EncodeError>
        ensures ok { IfOk result (λ list. list ≡ items) }
        ensures err { IfErr result (λ e. e ≡ Memory) }
    {
        let items = Box::new(items.allocator(), items)?;
        Ok(BoxedItems { items })
    }
}

impl<T> BoxedItems<T> {
    /// Returns the items as a slice.
    pub fn as_slice(&self) -> &[T]
        ensures value { result.now ≡ self.now }
    {
        self.items().as_slice()
    }

    /// Returns the list.
    pub fn items(&self) -> &Items<T>
        ensures value { result.now ≡ self.now }
    {
        &self.items
    }

    /// Returns the list itself.
    pub fn into_items(self) -> Items<T>
        ensures { result ≡ self }
    {
        let BoxedItems { items } = self;
        Box::into_inner(items)
    }
}

impl<T: Copy> BoxedItems<T> {
    /// Returns a copy. Fails with `Memory` if an allocation fails.
    pub fn try_clone(&self) -> Result<BoxedItems<T>, EncodeError>
        ensures ok { IfOk result (λ list. list ≡ self.now) }
        ensures err { IfErr result (λ e. e ≡ Memory) }
    {
        BoxedItems::new(self.items().try_clone()?)
    }
}

/// Yields references to the items, in order.
impl<'a, T> IntoIterator for &'a BoxedItems<T> {
    type Item = &'a T;

    type IntoIter = Iter<'a, T>;

    ghost into_iter_gives = { λ items iter. (iter_rest iter ≡ items.now) × (length (iter_rest iter) < 2 ^ 64) × EveryRun (iter_steps {A = T}) (λ p. ItemsMapTo p (λ y. y.now) (iter_rest p.from)) };

    fn into_iter(self) -> Iter<'a, T> {
        self.items().into_iter()
    }
}

impl<T: PartialEq> PartialEq for BoxedItems<T> {
    ghost use Rattle.std.specs.Cmp.Lexicographic.{pointwise, lists_per};

    ghost eq = { pointwise T.eq };

    ghost laws = { lists_per T.laws };

    fn eq(&self, other: &Self) -> bool {
        self.items().eq(other.items())
    }
}

impl<T: Eq> Eq for BoxedItems<T> {
    ghost use Rattle.std.specs.Cmp.Lexicographic.{lists_equiv};

    ghost laws = { lists_equiv T.Eq.laws };
}

impl<T: Debug> Debug for BoxedItems<T> {
    fn fmt<W: fmt::Write>(&self, f: &mut fmt::Formatter<W>) -> fmt::Result {
        Debug::fmt(self.items(), f)
    }
}
