//! What a handle can hold.
use code_checker::Checked;
use open_nodes::{OpenNode, OpenSink};

/// A code, or a node or a sink at work.
#[derive(Drop)]
pub(crate) enum Opened {
    /// A code that was checked.
    Code(Checked),
    /// A node.
    Node(OpenNode),
    /// A sink.
    Sink(OpenSink),
}
