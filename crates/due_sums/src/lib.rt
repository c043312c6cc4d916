//! Sums whose inputs come in pieces: which of them are complete and weren't taken yet, least first.
//!
//! Begin with `DueSums::new`, which takes the inputs of each sum; `accept` takes a piece of an input in, and
//! `take_due` gives the least piece of a sum all of whose inputs have come. Sums that follow one another and have the
//! same inputs are a group. Each input of a group that is still missing is counted, so a piece costs a step for each group
//! that reads it, and where it is the last, one for each eight sums of the group; the least one costs three words. Read
//! `specs/Waiting.antt`.
#![tactic(auto)]

mod counting;
mod due_sums;
mod groups;
mod readers;

pub use due_sums::{Due, DueSums, SumTable};
