//! A set of numbers that gives its least one in the time of three words, however many there are.
//!
//! Begin with `LeastSet::new`; `insert` and `insert_eighths` put numbers in, and `take_below` takes the least one
//! out, if it is below a limit. Read `specs/Members.antt`. The bits of the numbers stand in words of 64; a bit
//! above each word says whether it has any, in two levels, so that three words lead to the least number. That is
//! found ahead, when the one before it is taken, so that it is at hand; where the word has another number, that
//! word alone leads to it.
#![tactic(auto)]

ghost use Rattle.std.specs.Prelude.{◌≡◌, ◌≢◌, ◌<◌, ◌≤◌, ◌*◌, ◌+◌, ◌%◌, ℕ, length, IfOk, IfSome, IsNone, Some};

mod levels;
mod words;

use levels::{add, add_eighths, take_away};
use std::alloc::{AllocError, Global};
use std::marker::Model;

/// The most numbers that a set has room for.
pub const MOST: u32 = 262_144;

/// A set of numbers below a bound.
#[derive(Drop)]
pub struct LeastSet {
    words: Vec<u64>,
    over_words: Vec<u64>,
    over_all: u64,
    // The least number, or where there is none, `MOST`.
    least: u32,
}

impl Model for LeastSet {
    ghost use Rattle.least_set.specs.Members.{Members, HasLeast, IsOver};

    ghost Value = { Members };

    ghost view = { λ set. record { words = set.words.items } };

    ghost invariant = { λ set. IsOver set.words.items set.over_words.items set.over_all
        × HasLeast set.least set.words.items };
}

impl LeastSet {
    ghost use Rattle.least_set.specs.Members.{bit_of, bound, most, HasNone, Gains, GainsEighths, Loses, IsLeast};

    /// The empty set of numbers below a bound, which is rounded up to a multiple of 64.
    pub fn new(alloc: Global, numbers: u32) -> Result<LeastSet, AllocError>
        requires { numbers ≤ most }
        ensures none { IfOk result HasNone }
        ensures room { IfOk result (λ set. numbers ≤ bound set) }
    {
        let words = (numbers as usize + 63) / 64;
        let over = (words + 63) / 64;
        Ok(LeastSet {
            words: vec![in alloc; 0; words]?,
            over_words: vec![in alloc; 0; over]?,
            over_all: 0,
            least: MOST,
        })
    }

    /// Takes all numbers away.
    pub fn clear(&mut self)
        ensures none { HasNone self.new }
        ensures room { bound self.new ≡ bound self.old }
    {
        self.words.fill(0);
        self.over_words.fill(0);
        self.over_all = 0;
        self.least = MOST;
    }

    /// Adds a number.
    pub fn insert(&mut self, number: u32)
        requires { number < bound self.old }
        ensures { Gains number self.old self.new }
    {
        let place = number as usize;
        self.over_all = add(&mut self.words, &mut self.over_words, self.over_all, place);
        self.least = self.least.min(number);
    }

    /// Adds the numbers from a first to a last one, of which each is eight more than the one before. It costs a step for
    /// each eight of them.
    pub fn insert_eighths(&mut self, first: u32, last: u32)
        requires order { first ≤ last }
        requires step { last % 8 ≡ first % 8 }
        requires within { last < bound self.old }
        ensures { GainsEighths first last self.old self.new }
    {
        self.over_all = add_eighths(
            &mut self.words,
            &mut self.over_words,
            self.over_all,
            first as usize,
            last as usize,
        );
        self.least = self.least.min(first);
    }

    /// Takes the least number away, if there is one below a limit.
    pub fn take_below(&mut self, limit: u32) -> Option<u32>
        requires { limit ≤ most }
        ensures least { IfSome result (λ number. (number < limit)
            × IsLeast number self.old × Loses number self.old self.new) }
        ensures none { IsNone result
            → (number : ℕ) → number < limit → bit_of self.old.words number ≡ 0 }
        ensures same { IsNone result → self.new ≡ self.old }
    {
        let number = self.least;
        if number >= limit {
            return None;
        }
        self.least = take_away(
            &mut self.words,
            &mut self.over_words,
            &mut self.over_all,
            number as usize,
        );
        Some(number)
    }
}
