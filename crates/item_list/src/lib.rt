//! A list type for values that contracts name: a vector, seen as the list of its items.
//!
//! Begin with `ItemList::of`, which takes a vector; `at`, `len` and `as_slice` read it. A contract that names a
//! list says `List`, and takes no note of the vector: the type is seen as its items. There are no specs of its own.
//!
//! Laws on lists and counts in the library's words alone, for crates that share them, stand in proofs/: `Tests` on
//! items that pass tests, `Maps` on functions that agree, `Ranges` on the numbers of a range, `Writes` on lists that
//! are written over, `Places` on rows that stand one after another, `Positions` on the places of numbers, `Numbers`
//! on two numbers, `Results` on what holds at an exit.
#![tactic(auto)]

ghost use Rattle.std.specs.Prelude.{◌≡◌, ◌<◌, ℕ, List, length, slice_get, Some, slice_set, ◌==◌};

use std::marker::Model;

/// Items in order, which a contract sees as their list.
#[derive(Drop, Debug)]
pub struct ItemList<T> {
    items: Vec<T>,
}

impl<T> Model for ItemList<T> {
    ghost use Rattle.std.specs.Prelude.{List};

    ghost Value = { List T };

    ghost view = { λ list. list.items.items };
}

impl<T> ItemList<T> {
    /// The list of these items. It takes no memory.
    pub fn of(items: Vec<T>) -> Self
        ensures { result ≡ items.items }
    {
        ItemList { items }
    }

    /// How many items there are.
    pub fn len(&self) -> usize
        ensures { result ≡ length self.now }
    {
        self.items.len()
    }

    /// Whether there is no item.
    pub fn is_empty(&self) -> bool
        ensures { result ≡ (length self.now == 0) }
    {
        self.items.is_empty()
    }

    /// The item at a place, counted from 0.
    pub fn at(&self, place: usize) -> &T
        requires { place < length self.now }
        ensures { slice_get self.now place ≡ Some result.now }
    {
        &self.items[place]
    }

    /// All items, in order.
    pub fn as_slice(&self) -> &[T]
        ensures { result.now ≡ self.now }
    {
        self.items.as_slice()
    }
}

impl<T: PartialEq> PartialEq for ItemList<T> {
    ghost use Rattle.std.specs.Cmp.Lexicographic.{lists_per, pointwise};

    ghost eq = { pointwise T.eq };

    ghost laws = { lists_per T.laws };

    fn eq(&self, other: &ItemList<T>) -> bool {
        self.as_slice() == other.as_slice()
    }
}

impl<T: Eq> Eq for ItemList<T> {
    ghost use Rattle.std.specs.Cmp.Lexicographic.{lists_equiv};

    ghost laws = { lists_equiv T.Eq.laws };
}

impl<T: Drop> ItemList<T> {
    /// Makes `item` the item at a place, counted from 0. All others stay.
    pub fn set(&mut self, place: usize, item: T)
        requires { place < length self.old }
        ensures { self.new ≡ slice_set self.old place item }
    {
        self.items[place] = item;
    }
}
