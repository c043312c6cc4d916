//! Counters of steps. They take no bytes, and counting does nothing at run time.
//!
//! A function that counts takes `steps: &mut Steps<L>` under `L: Ledger`, and says by `RoseBy` or
//! `RoseByAtMost` what it counts. A caller that counts nothing goes through a function that starts the
//! counter from a blank:
//!
//! ```text
//! fn find_from<L: Ledger>(bytes: &[u8], byte: u8, blank: Blank) -> Option<usize>
//!     requires name { blank.name ≡ L.name }
//!     requires parts { blank.parts ≡ L.parts }
//!     requires some_part { 0 < blank.parts }
//! {
//!     find(bytes, byte, &mut Steps::<L>::start(blank))
//! }
//! ```
//!
//! It calls `find_from::<Brand>(bytes, byte, Blank::new(1))`, and picks the ledger in its
//! `Invariants.antt` by two lines, in which `a` is `g a` where it is itself generic, or a test:
//!
//! ```text
//! abbrev pub ghosts-find_from : goal.ghosts-find_from
//! ghosts-find_from a = record { name = a.blank.name; parts = a.blank.parts }
//! ```
#![tactic(auto)]

ghost use Rattle.std.specs.Prelude.{◌≡◌, ◌<◌};
ghost use Rattle.counted_steps.specs.Steps.{RoseBy};

use std::marker::Model;
use std::sync::ledger::{Blank, Book, Ledger, Share};

/// How many steps were counted. It takes no bytes, and only ticks change it.
#[derive(Drop)]
pub struct Steps<L: Ledger> {
    book: Book<L>,
    share: Share<L>,
}

impl<L: Ledger> Model for Steps<L> {
    ghost use Rattle.std.specs.Prelude.{ℕ, ◌<◌};

    ghost Value = { ℕ };

    ghost view = { λ steps. steps.book.total };

    ghost invariant = { λ steps. 0 < steps.share.parts };
}

impl<L: Ledger> Steps<L> {
    /// A counter at which no step was counted.
    pub fn start(blank: Blank) -> Self
        requires name { blank.name ≡ L.name }
        requires parts { blank.parts ≡ L.parts }
        requires some_part { 0 < blank.parts }
        ensures { result ≡ 0 }
    {
        let (book, share) = blank.open::<L>();
        Steps { book, share }
    }

    /// Counts one step.
    pub fn tick(&mut self)
        ensures { RoseBy 1 self.old self.new }
    {
        self.book.add(&mut self.share, 1);
    }

    /// Counts so many steps.
    pub fn tick_times(&mut self, count: usize)
        ensures { RoseBy count self.old self.new }
    {
        self.book.add(&mut self.share, count as u64);
    }
}
