//! Code files: the bytes of a code, and the code of bytes; and the same of drafts, which are codes without decoders.
//!
//! `read_code` and `write_code` are the calls that matter, and `write_code_one` writes the older version; `read_draft` and
//! `write_draft` are those of a `Draft`. The parts of a file are read and written by `code_items`. Read `specs/Items.antt`, the
//! bytes of a code in each version, `specs/Reading.antt`, what bytes are refused for, from left to right, and
//! `specs/Drafts.antt`, both for drafts. The laws that matter are `contents_of-file` and `bytes_in-prefix` in
//! proofs/ReadingLaws: each file of a code is read as what it spells, and none begins another. Those of proofs/DraftLaws say
//! the same of drafts.
#![tactic(auto)]

mod draft;
mod drafts;
mod nets;
mod parts;
mod reading;
mod room;
mod sharing;
mod writing;

pub use code_items::CodeRefusal;
pub use draft::Draft;
pub use drafts::{read_draft, write_draft};
pub use reading::{CODE_LIMIT, read_code};
pub use writing::{write_code, write_code_one};
