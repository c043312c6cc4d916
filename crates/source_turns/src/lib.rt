//! A source that is streamed into turns: its file is read from a store, and of each of its blocks files get appends.
//!
//! Begin with the trait `BlockTurns`, what the blocks become, and `Feeding`, which holds such a value and reads the source;
//! `create_each` creates files in order.
//! Read `specs/Turns.antt`, the turns that bytes of a source bring, and `specs/Feeding.antt`, the calls of a source that is
//! fed. The law that matters is `runs_feeding` in proofs/RunLaws: what a command does that feeds a source is told by the words
//! of `feeds`.
#![tactic(auto)]

mod creating;
mod feeding;
mod turns;

pub use creating::create_each;
pub use feeding::{Fed, FeedFault, Feeding};
pub use turns::BlockTurns;
