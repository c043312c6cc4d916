//! The calls by which programs in other languages have codes, nodes and sinks: each export has a name that begins with `lif_`,
//! looks at all that it is given, answers a status, and changes nothing where that isn't `OK`.
//!
//! What a call does is said of what its handles hold, in `specs/Calls.antt`, by the words of `open_nodes`. A caller owes what
//! the header says: that pointers point to what they should, and that a handle is one that was cleared, or that the library
//! wrote last. Memory is the C program's own.
#![tactic(auto)]

mod blocks;
mod codes;
mod handle;
mod loose;
mod nodes;
mod opened;
mod refusal;
mod sinks;
mod slot;
mod status;
mod writing;
