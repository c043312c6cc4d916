//! Cases, read: what the lines of a case say of a store, of links and of a run, and what is to come of it.
//!
//! docs/CASES.md says how cases are written. `loops` says for what a case goes, `reading` takes in its lines up to a run and
//! what is told behind it, into a `Scene` (src/scene.rt) with what is wanted (src/wanted.rt); `Differences` are told a line
//! each. Nothing is promised here but that all calls return. `worked_cases` does the runs, and compares what comes.
#![tactic(auto)]

pub mod bytes;
pub mod cursor;
pub mod differences;
mod filling;
pub mod loops;
pub mod named;
pub mod reading;
pub mod scene;
pub mod tally;
pub mod wanted;
