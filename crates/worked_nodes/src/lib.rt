//! Worked examples: frames and blocks whose bytes are written out, rows that come in pieces, sets that give their least
//! number, sums that wait for their inputs, the packets of codes that are written out, nodes and sinks of codes, fed by
//! hand, and windows of blocks that are carried to the sinks over links.
//!
//! Where no runner takes part, the tests hand packets to `Node` and `Decoder` in several orders, twice and changed, and
//! look at what they give. `carrying` calls `Runner` alone, and looks whether every sink has each block; `counts` looks
//! at what was put, and `faults` lets calls on the links fail.
#![tactic(auto)]

#[cfg(test)]
mod tests;
