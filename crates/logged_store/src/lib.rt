//! What the tests of stores and of whole runs share: a store that keeps a log of the calls made on it, and a system whose
//! files lie in memory, of which one call fails, and which gives words. The program has none of it.
//!
//! Begin with `Logged`, which is over any store, and its `log`. Read `specs/Logs.antt`: the log grew by the calls
//! that were made, or `is_whole` says that an event was lost for want of memory. Of `MemFiles` nothing is promised.
#![tactic(auto)]

mod event;
mod logged;
mod memory;
mod system;
mod varied;

pub use event::Event;
pub use logged::Logged;
pub use system::MemFiles;
pub use varied::varied_bytes;
