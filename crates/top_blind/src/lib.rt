//! The command `blind`, which sends a source through a code where links fail that nobody listed, as headed frames, to each
//! sink whose vectors still have the rank of the code.
//!
//! Read `specs/Blind.antt`, the steps of the command, and `specs/Delivered.antt`: which files are the source then.
#![tactic(auto)]

mod blinding;
mod delivering;
mod delivery;
mod naming;
mod receivers;

pub use blinding::blind;
