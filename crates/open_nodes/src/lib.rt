//! Codes, nodes and sinks for a caller that proves nothing: each call looks at all that it is given, answers what is wrong
//! with it, and changes nothing then.
//!
//! Begin with `open_code`, which reads and checks the bytes of a code file; `OpenNode` and `OpenSink` are a node and a sink of
//! it at work, whichever its field is. Read `specs/Errors.antt`, which error is due, `specs/NodeCalls.antt` and
//! `specs/SinkCalls.antt`, what each call does, and `specs/Opening.antt`. Which error comes is always decided by what the call
//! is given and by the value of the node or the sink, but for want of memory.
#![tactic(auto)]

mod arguments;
mod blocks;
mod call_error;
mod codes;
mod nodes;
mod opening;
mod sharing;
mod sinks;

pub use blocks::{count_in, cut_into};
pub use call_error::CallError;
pub use codes::{Shape, ends_of, link_name_of, node_name_of, pattern_name_of, shape_of, sink_node};
pub use nodes::OpenNode;
pub use opening::{OpenRefusal, open_code};
pub use sinks::OpenSink;
