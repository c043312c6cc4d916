//! Blocks put together again.
ghost use Rattle.std.specs.Prelude.{◌≡◌, ◌≤◌, ◌*◌, length};
ghost use Rattle.generation_frame.specs.Blocks.{most_rows, row_bytes};
ghost use Rattle.generation_frame.specs.Joins.{Joining, joined, ends};

use crate::frame::number_in;
use crate::{ROW, cap};
use std::marker::Model;

/// Takes the blocks of a file in order, and says how many of their bytes are the file's.
#[derive(Drop)]
pub struct Joiner {
    rate: u32,
    ended: bool,
    ghost some_rate: { 1 ≤ rate },
    ghost low_rate: { rate ≤ most_rows },
}

/// What a block has of a file. The bytes are the block's from place 4 on.
#[derive(Clone, Copy, Debug, PartialEq, Eq)]
pub enum Joined {
    /// So many bytes, all that there is room for: more blocks follow.
    More(u32),
    /// So many bytes, fewer than there is room for: it is the last block.
    Last(u32),
    /// The block counts so many, more than there is room for.
    BadCount(u32),
    /// The last block came before.
    Ended,
}

impl Model for Joiner {
    ghost use Rattle.generation_frame.specs.Joins.{Joining};

    ghost Value = { Joining };

    ghost view = { λ joiner. record { rate = joiner.rate; ended = joiner.ended } };
}

impl Joiner {
    ghost use Rattle.std.specs.Prelude.{false};

    /// A joiner of blocks of `rate` rows, before the first.
    pub fn new(rate: u32) -> Joiner
        requires some_rate { 1 ≤ rate }
        requires low_rate { rate ≤ most_rows }
        ensures { result ≡ record { rate = rate; ended = false } }
    {
        Joiner { rate, ended: false }
    }

    /// Takes the next block. Where its count is bad and where the file has ended nothing changes.
    pub fn join(&mut self, block: &[u8]) -> Joined
        requires { length block.now ≡ self.old.rate * row_bytes }
        ensures value { result ≡ joined self.old block.now }
        ensures after { self.new
            ≡ record { rate = self.old.rate; ended = ends self.old block.now } }
    {
        if self.ended {
            return Joined::Ended;
        }
        let count = number_in(block);
        let room = cap(self.rate);
        if count > room {
            return Joined::BadCount(count);
        }
        if count == room {
            return Joined::More(count);
        }
        self.ended = true;
        Joined::Last(count)
    }
}
