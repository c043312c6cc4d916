//! Sources that are delivered over links to the sinks' files: a code at work takes them in window by window, and each file gets
//! what its sink decodes of its source. There is one source, or there are two, of which each has rows of every block.
//!
//! Begin with `SourceDelivery::open` and `SourceDelivery::create_outputs`; `stream` then reads the source from a store
//! as it is carried, and `carry_source` carries one that is in memory. `open_two` and `stream_two` are the same of two sources.
//! Read `specs/Turns.antt`, what the sinks' files get of what came, `specs/Streaming.antt`, the calls of a source that is
//! streamed, and `specs/Twin.antt`, those of two. The clauses that matter are those of `stream` and `stream_two`: what was
//! read was carried, and what each sink decodes of what came is appended to its file.
#![tactic(auto)]

mod delivering;
mod delivery;
mod parts;
mod reader;
mod streaming;
mod twin;

pub use delivery::{DeliveryFault, SentCounts, SourceDelivery};
pub use parts::Parts;
pub use reader::SourceReader;
pub use streaming::StreamFault;
pub use twin::{TwinCounts, TwinDelivery};
