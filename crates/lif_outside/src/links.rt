//! Links, as the program sees them: what is put on one flies until it is taken, in any order.
ghost use Rattle.std.specs.Prelude.{◌≡◌, ◌<◌, ◌++◌, ◌∷◌, [], ℕ, Bool, List, Option, length};

use crate::Failed;
use std::alloc::{AllocError, Global};

/// A frame and the link that it is on.
#[derive(Clone, Copy, Debug, PartialEq, Eq)]
pub struct Flight {
    /// The number of the link.
    pub link: u32,
    /// The frame's bytes.
    pub frame: [u8; 140],
}

/// Links that carry frames, and lose none. A call that answers `Failed` has raised the count of faults.
///
/// An implementation may give any flying pair next. It may keep a pair that it gave, as often as `repeats`
/// says at most, and one that isn't faithful may give a frame with other bytes behind its first twelve.
pub trait Links {
    ghost use Rattle.lif_outside.specs.declared.links.Flight.{Flight};
    ghost use Rattle.lif_outside.specs.LinksAccounts.{LinksAccounts, holding};
    ghost use Rattle.lif_outside.specs.Moves.{Move, open_move, put_move, take_move};

    /// The pairs that fly.
    ghost flying: { Self → List Flight };

    /// How many pairs may fly.
    ghost room: { Self → ℕ };

    /// The number that the links were opened with.
    ghost opened_with: { Self → ℕ };

    /// How often a pair may still be given and kept, at most.
    ghost repeats: { Self → ℕ };

    /// Whether each frame is given as it was put.
    ghost faithful: { Self → Bool };

    /// All pairs put, where they are told.
    ghost sent: { Self → Option (List Flight) };

    /// All pairs that a take gave, where they are told.
    ghost given: { Self → Option (List Flight) };

    /// How often a put or a take has failed.
    ghost faults: { Self → ℕ };

    /// These calls with their answers, in this order, lead from one state to the other.
    ghost moves: { List Move → Self → Self → Type 0 };

    /// Makes room for `most` pairs, with a number, the seed, that may decide in which order they are given.
    fn open(&mut self, alloc: Global, seed: u64, most: u32) -> Result<(), AllocError>
        requires { flying self.old ≡ [] }
        ensures { moves (open_move seed most result ∷ []) self.old self.new };

    /// Puts a frame on a link. Where it fails, nothing was put.
    fn put(&mut self, link: u32, frame: &[u8; 140]) -> Result<(), Failed>
        requires { length (flying self.old) < room self.old }
        ensures { moves (put_move link frame.now result ∷ []) self.old self.new };

    /// Takes a frame that flies, any of them, and answers `None` where none flies.
    fn take(&mut self) -> Result<Option<Flight>, Failed>
        ensures { moves (take_move result ∷ []) self.old self.new };

    /// No call leads from a state to itself.
    ghost no_moves: { (at : Self) → moves [] at at };

    /// Calls and then more calls are the calls of both lists.
    ghost more_moves: { (first later : List Move) (a b c : Self) → moves first a b
        → moves later b c → moves (first ++ later) a c };

    /// What flies follows the calls, and so do the pairs put and given, where they are told. The count doesn't fall,
    /// a put or a take that failed has raised it, and where none failed it stays.
    ghost accounts: { (made : List Move) (old new : Self) → moves made old new
        → LinksAccounts (holding flying room opened_with repeats) faithful faults sent given
        made old new };
}
