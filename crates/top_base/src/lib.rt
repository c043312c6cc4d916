//! What the commands share: words, statuses and the lines said with them, whole files, and the codes and networks
//! that are read from them.
//!
//! Begin with `command_of`, `read_whole`, `read_file_of_code`, `read_accepted` and `conclude`. Read `specs/Performs.antt`: what a
//! command does is one record of four words, and `Performs` what is promised of any. The law that matters is
//! `performs_said` in proofs/PerformingLaws: all of it follows from the calls.
#![tactic(auto)]

mod accepting;
mod code_files;
mod demo_words;
mod draft_files;
mod lines;
mod long_texts;
mod named;
mod networks;
mod outcome;
mod paths;
mod reading;
mod send_two_words;
mod status;
mod text;
mod twin_words;
mod words;

pub use accepting::read_accepted;
pub use code_files::read_file_of_code;
pub use demo_words::DemoWords;
pub use draft_files::read_file_of_draft;
pub use lines::Line;
pub use long_texts::{order_text, push_rank, rate_unmet_line, zero_rate_line};
pub use named::{dotted_path, link_named, node_named, pattern_named, sink_named};
pub use networks::{Ordered, read_ordered};
pub use outcome::{Outcome, conclude};
pub use paths::{both_output_paths, output_paths, shared_path};
pub use reading::{FileRefusal, read_next, read_whole};
pub use send_two_words::SendTwoWords;
pub use status::{NetWhy, Status, TwinWhy};
pub use text::ROOM as LINE_ROOM;
pub use twin_words::TwinWords;
pub use words::{
    BlindWords, Command, CompileWords, FinishWords, MigrateWords, NodeWords, SOURCE_LIMIT,
    SendWords, command_of,
};
