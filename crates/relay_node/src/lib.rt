//! One node of a code at work: it takes in the packets of the links into it, in any order, or at the source blocks, and
//! gives those of the links out of it.
//!
//! Begin with `Node::open`; `begin` opens a window of 1 to 4 generations, `feed` and `accept` take in, and `next_out`
//! gives the least packet that is due. Read `specs/Relay.antt`. The law that matters is that of `next_out`'s clause
//! `traffic`: where what came is the traffic of blocks, so is what is given.
#![tactic(auto)]

mod feeding;
mod node;
mod sharing;
mod summands;
mod summing;

pub use node::Node;
