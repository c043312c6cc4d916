//! The links at each node of a network, as chains in rising order: adjacency lists.
//!
//! Begin with `wiring_of`, which makes the chains from and into each node once for all demands; `Chains` gives a
//! node's first link, and the next one of each link. Read `specs/Chains.antt` and `specs/Wiring.antt`. A `LinkEnd`
//! says which end of a link is meant.
#![tactic(auto)]

mod chains;
mod wiring;

pub use chains::{Chains, LinkEnd};
pub use wiring::{Wiring, wiring_of};
