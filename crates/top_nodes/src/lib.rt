//! The commands `relay` and `sink`, which run one node of a code over files, a stream of frames for each link.
//!
//! Read `specs/Sink.antt` and `specs/Relay.antt`, each the steps of its command, and `specs/Chained.antt`: what they make of
//! streams for numbered blocks, and for the blocks of a file.
#![tactic(auto)]

mod naming;
mod reading;
mod relaying;
mod sinking;
mod sourcing;
mod working;

pub use relaying::relay;
pub use sinking::sink;
