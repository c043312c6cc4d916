//! The names of a network's nodes, links and patterns, and texts that are made of them.
//!
//! Begin with `node_name`, `link_name` and `pattern_name`; `push_lines`, `push_links`, `push_side` and
//! `push_demand` add names to a text. Read `specs/Names.antt`, which has every byte of them; proofs/TextLaws bound
//! their lengths.
#![tactic(auto)]

mod names;
mod texts;

pub use names::{link_name, node_name, pattern_name, sink_name};
pub use texts::{NAME_ROOM, push_demand, push_lines, push_links, push_side};
