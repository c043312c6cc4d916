//! The nodes of a code at work, each with the sink at it, and the table of them all: a packet that came is taken in by both,
//! and what the node gives is put on links.
//!
//! Begin with `open_stations`, which makes a station for each node; they begin generations together, and the blocks of a window
//! are fed to the source. Read `specs/Shown.antt`, how nodes and sinks show a state of the core, `specs/Passing.antt` and
//! `specs/Table.antt`. The clause that matters is `passed` of `Station::pass_on`: a packet that came is taken in, and what is put
//! then is what the node gives, until nothing is due. The laws that matter are in proofs/: a packet that is taken in is a
//! delivery of the core (`DeliveryLaws`, `SinkLaws`), what a node gives then is what the core says that it sends
//! (`SendingLaws`), what the source gives of the blocks fed is what flies first (`SourceLaws`), and a source that was fed the
//! blocks of a window has all that its sums need, and gave nothing yet (`ReadyLaws`).
#![tactic(auto)]

mod beginning;
mod feeding;
mod given;
mod opening;
mod putting;
mod sharing;
mod station;

pub use beginning::begin_stations;
pub use feeding::feed_blocks;
pub use given::packet_given;
pub use opening::open_stations;
pub use putting::put_due;
pub use station::Station;
