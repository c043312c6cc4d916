//! Two sources as one: a network in which one new node feeds both, and codes of it that keep the rows of the two apart.
//!
//! Begin with `join_sources`, which puts a node `super` before the source of a network and before a second node, and
//! `separate`, which makes of an accepted code one whose links out of the source carry a row of the block each. Read
//! `specs/Joined.antt` and `specs/Separated.antt`. The laws that matter are `joined-acyclic` and `compiled-first_links`
//! in proofs/JoinedLaws, by which a compiled code of a joined network can be separated, and `separated-carries` in
//! proofs/SeparatedLaws: the new code carries of the block of what its first links carried what the old one carried.
#![tactic(auto)]

mod decoders;
mod joining;
mod names;
mod patterns;
mod separating;
mod sharing;

pub use joining::{JoinRefusal, join_sources};
pub use separating::separate;
