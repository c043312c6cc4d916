//! A node and a sink over files: streams of frames, one a link, and what a node and a sink make of them.
//!
//! Begin with `Stream::read`, which reads a file as a stream of a link; `generations` and `first_missing` say how far it is
//! whole. `Relay` makes the frames of a generation out of the streams of the links into a node, or at the source out of a
//! block; `Gather` decodes one out of the streams of the links that a sink wants (`wanted_links`). Read `specs/Streams.antt` and `specs/Reading.antt`.
//! What matters is that `pass`, `originate` and `take` are told by the words that tell a run over links: the sums over
//! live operands, the traffic of a block, and what a decoder makes of packets.
#![tactic(auto)]

mod frames;
mod gather;
mod relay;
mod stream;
mod wanted;

pub use frames::Frames;
pub use gather::Gather;
pub use relay::Relay;
pub use stream::{Place, Stream, StreamList};
pub use wanted::wanted_links;
