//! The items of code files: each part of a file, read and written.
//!
//! A file's parts are all before its decoders, which is the whole of a draft's file, and the decoders of demands. The first part
//! has the front (all up to the operands) and the operands of links. `read_draft_parts`, `read_decoders` and `read_end` read from
//! left to right, each from what the one before left; `put_draft_parts`, and `put_shared_decoders` or `put_decoders`, add the
//! parts to the bytes before, and `draft_room`, and `shared_decoders_room` or `decoders_room`, say how much room they take. In
//! version 2 demands share decoders, which `sames_of` finds. What is made of the parts, as a code or a draft, stands in the crate
//! of that file.
//!
//! Read `specs/Items.antt`, the bytes of each part, and `specs/Reading.antt`, what bytes are refused for; `specs/DraftParts.antt`
//! is the part before the decoders, `specs/Whole.antt` a whole file, and `specs/Gives.antt` says that a reader returns what
//! reading gives. The laws that matter are `draft_parts_reader` in proofs/DraftReaders and `decoder_table_reader` in
//! proofs/PartReaders, a part is read as what was spelled, and those of proofs/WholeLaws.
#![tactic(auto)]

mod decoders;
mod draft_parts;
mod ending;
mod front;
mod items;
mod links;
mod marks;
mod names;
mod nodes;
mod operands;
mod parts;
mod patterns;
mod pieces;
mod refusal;
mod rest;
mod rising;
mod room;
mod shared_decoders;
mod sharing;
mod writing;

pub use decoders::read_decoders;
pub use draft_parts::{draft_room, put_draft_parts, read_draft_parts};
pub use ending::read_end;
pub use parts::{DraftParts, Front};
pub use refusal::CodeRefusal;
pub use rest::Rest;
pub use room::{decoders_room, shared_decoders_room};
pub use sharing::sames_of;
pub use writing::{put_decoders, put_shared_decoders};
