//! The run of a code over links: blocks are fed to the source, what flies is taken and given to the node at its link's head,
//! and what that gives is put, until nothing flies. Then each sink has its block.
//!
//! Begin with `Runner::open`; `carry` sends a window of 1 to 4 blocks, in whatever order the links deliver, `decode_all` decodes
//! them at all sinks, side by side, and `decoded_block` lends what a sink decoded. Read `specs/Carrying.antt`. The clause that matters
//! is `carried` of `carry`: it is a run of the core, from its opening state to one where nothing flies, so all of the traffic was
//! put, nothing twice.
//!
//! How a run at work shows a state of the core, by its nodes, the sinks at them and what flies, is in `specs/Showing.antt`; its
//! laws are in proofs/: what the source gives of its blocks is the opening state (`OpeningLaws`), a pair that links gave and what
//! is put then are a step (`StepLaws`), there is room for all that is put (`CountLaws`), and where nothing flies each sink has all
//! that it decodes (`WholeLaws`).
#![tactic(auto)]

mod decoding;
mod runner;
mod running;
mod sharing;
mod starting;

pub use decoding::LEAST_SINKS;
pub use runner::Runner;

/// What a step of a run did.
#[derive(Clone, Copy, Debug, PartialEq, Eq)]
pub enum Turn {
    /// A frame was taken and given to a node.
    Moved,
    /// Nothing flew.
    Quiet,
}

/// A put or a take on the links failed, and has raised their count. The run is over.
#[derive(Clone, Copy, Debug, PartialEq, Eq)]
pub struct LinkFault;
