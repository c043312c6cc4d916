//! One sink of a code at work: it takes in the packets of its decoder's links, in any order, and decodes whole blocks.
//!
//! Begin with `Decoder::open`; `begin` opens a window of 1 to 4 generations, `accept` takes a packet in, and `block`
//! writes the block that the decoder makes of what came. Read `specs/Receiving.antt`. The law that matters is that of
//! `block`'s clause `traffic`: where what came is the traffic of blocks, the block decoded is the one that was sent.
#![tactic(auto)]

mod decoder;
mod decoding;
mod opening;
mod sharing;

pub use decoder::Decoder;
