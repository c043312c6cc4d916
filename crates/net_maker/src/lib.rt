//! Networks and sources to show the tools on: combination networks, and bytes that follow from their places.
//!
//! A combination network has a source, some nodes in the middle, and one sink behind each set of so many of them.
//! `combination` makes it, exactly where `demo_fits`; `source_byte` is a byte of the source. Read
//! `specs/Combination.antt` and `specs/Fits.antt`. The laws that matter are in proofs/CombinationLaws: the rate is
//! `k`, and there is no cycle.
#![tactic(auto)]

mod fits;
mod maker;
mod names;
mod source;
mod subsets;

pub use fits::demo_fits;
pub use maker::combination;
pub use source::source_byte;
