//! Headed frames: frames with the vector of their link, so that a sink needs no code to decode them.
//!
//! `write_head` writes the headed frame of a packet and a vector, and `read_head` reads both. Read `specs/Heads.antt`.
//! `Fabric` makes those of all links of a code, of one block, where links fail. Read `specs/Fabric.antt`.
//! `Blind` takes in what they bring, and gives a block once as many vectors of each piece as the rate were new: read
//! `specs/Rows.antt`. It looks at no link and no generation. Where the vector of a row is a sum of multiples of those
//! kept, the row isn't looked at further: a payload that contradicts those kept is ignored.
#![tactic(auto)]

mod blind;
mod elements;
mod fabric;
mod fabric_parts;
mod heads;
mod receiving;
mod sharing;

pub use blind::{Blind, Gain};
pub use fabric::Fabric;
pub use heads::{HEAD, HeadRefusal, read_head, write_head};
pub use receiving::{ins_where, rank_into, receive};
