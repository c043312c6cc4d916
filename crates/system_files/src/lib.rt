//! The adapters of the outside: the store over the files of any system, and the sink over any writer.
//!
//! Begin with `FileStore::new`, over a system's files, and with `WriterSay::new`, over a writer that is a `Teller`;
//! `files` has what is done to a file by its path, `handle` and `pieces` what is done with an open one. Read
//! `specs/Store.antt` and `specs/Say.antt`, what both show, `specs/Handle.antt`, what a read from a place gives,
//! `specs/Open.antt`, which files are open, and `specs/Known.antt`, which may be made. The law that matters is `accounts`
//! of the traits `Store` and `Sink`: each call is one that they promise, and the counts account for it. Nothing is told of
//! what a system holds; `worked_rows` shows that all of this works.
#![tactic(auto)]

mod faults;
mod files;
pub mod handle;
mod kept;
pub mod known;
mod open;
pub mod pieces;
mod say;
mod standard;
mod store;
mod words;

pub use say::{Teller, WriterSay};
pub use standard::StandIns;
pub use store::FileStore;
pub use words::{GivesWords, Words, words_of};
