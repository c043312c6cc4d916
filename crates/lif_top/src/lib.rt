//! The program: words to commands, and what they do.
//!
//! There is one call, `lif`; `run`, which makes it with the words as a system gave them and ends with the number of its
//! status; and `launch`, which is a run over the words, the files and the output of a system. Read `specs/Promises.antt`, the
//! clause of `lif`, and `specs/Send/Command.antt` of `top_runs`, the four words of `send`. docs/ARCHITECTURE.md has the way from
//! `lif` down to 'the sink's file is the source'.
#![tactic(auto)]

mod launching;
mod program;
mod running;

pub use code_file::CodeRefusal;
pub use launching::launch;
pub use program::lif;
pub use running::run;
pub use system_files::Words;
pub use top_base::{NetWhy, Status, TwinWhy};
