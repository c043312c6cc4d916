//! The report of certificates, as text.
//!
//! `head` is the line of the rate, `entry` the lines of one demand, and `with_entries` adds those of all, made side
//! by side. Read `specs/Report.antt`, which has every byte of them, and what can be printed at all.
#![tactic(auto)]

mod batches;
mod report;
mod room;

pub use batches::with_entries;
pub use report::{entry, head};
