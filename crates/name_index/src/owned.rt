//! Names that own their bytes.
ghost use Rattle.std.specs.Prelude.{◌≡◌, ◌++◌, ◌∷◌, ◌<◌, [], true, not, length, map, option_map, position, slice_get, IfOk, IfSome};
ghost use Rattle.std.specs.List.{IsDistinct};
ghost use Rattle.std.specs.Str.{bytes_eq};
ghost use Rattle.name_index.specs.Seen.{has, distinct_from};

use indexmap::IndexSet;
use std::alloc::{AllocError, Global};
use std::marker::Model;

/// The names of a kind so far, in order, for names that stand nowhere else. A name's number is its place, from 0 on.
pub struct OwnedNames {
    seen: IndexSet<Vec<u8>>,
}

// Whoever lets names go makes this one call, in place of going through all that a set is made of.
impl Drop for OwnedNames {
    fn drop(self) {
        let OwnedNames { seen: _seen } = self;
    }
}

impl Model for OwnedNames {
    ghost use Rattle.std.specs.Prelude.{List, ℕ, map};

    ghost Value = { List (List ℕ) };

    ghost view = { λ names. map (λ name. name.items) names.seen.keys };
}

impl OwnedNames {
    /// No names.
    pub fn new(alloc: Global) -> OwnedNames
        ensures { result ≡ [] }
    {
        OwnedNames {
            seen: IndexSet::new(alloc),
        }
    }

    /// Adds a name, unless it is there: then the answer is `false`.
    pub fn add(&mut self, name: Vec<u8>) -> Result<bool, AllocError>
        ensures fresh { IfOk result (λ fresh. fresh ≡ not (has self.old name.items)) }
        ensures added { IfOk result (λ fresh. fresh ≡ true → self.new ≡ self.old ++ name.items ∷ []) }
        ensures names { IfOk result (λ _. self.new ≡ distinct_from self.old (name.items ∷ [])) }
    {
        Ok(self.seen.insert(name)?)
    }

    /// Whether a name is there.
    pub fn has(&self, name: &[u8]) -> bool
        ensures { result ≡ has self.now name.now }
    {
        self.seen.contains(name)
    }

    /// How many names there are.
    pub fn len(&self) -> usize
        ensures len { result ≡ length self.now }
        ensures distinct { IsDistinct bytes_eq self.now }
    {
        self.seen.len()
    }

    /// All names, in order.
    pub fn as_slice(&self) -> &[Vec<u8>]
        ensures { map (λ name. name.items) result.now ≡ self.now }
    {
        self.seen.as_slice()
    }

    /// The name of a number.
    pub fn get(&self, number: usize) -> Option<&[u8]>
        ensures { option_map (λ name. name.now) result ≡ slice_get self.now number }
    {
        match self.seen.as_slice().get(number) {
            Some(name) => Some(name.as_slice()),
            None => None,
        }
    }

    /// The number of a name.
    pub fn number_of(&self, name: &[u8]) -> Option<usize>
        ensures value { result ≡ position (bytes_eq name.now) self.now }
        ensures within { IfSome result (λ number. number < length self.now) }
    {
        self.seen.get_index_of(name)
    }
}
