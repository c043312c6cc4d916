//! The outside, as the program sees it: stores of files, sinks of what is said, links that carry frames, those in
//! memory too, the gate of jobs, and the batches that they do.
//!
//! Begin with the traits `Store`, `Sink` and `Links`: what each call answers, and which event it is. Read
//! `specs/Events.antt` and `specs/Moves.antt`, what calls change, `specs/FileCalls.antt`, how a file is read and written
//! by several calls, and `specs/Calls.antt`, what was done on all objects. The law that matters is each trait's
//! `accounts`: where content is told, it follows the calls, and a count rose where one failed.
#![tactic(auto)]

mod batches;
mod gate;
mod links;
mod listed;
mod memory;
mod seeded;
mod sink;
mod store;

pub use batches::{WORKERS, batch_count, batch_size};
pub use gate::{Gate, NoGate};
pub use links::{Flight, Links};
pub use listed::{ListLinks, Spoil};
pub use memory::{Call, Fail, MemSink, MemStore};
pub use seeded::SeedLinks;
pub use sink::Sink;
pub use store::Store;

/// The answer of an object of the outside that failed. The object has counted it.
#[derive(Clone, Copy, Debug, PartialEq, Eq)]
pub struct Failed;
