//! Networks as texts.
//!
//! There is one call, `read_net`. Read `specs/Lines.antt`, lines and words, `specs/Bundles.antt`, the links that one
//! line or one word stands for, `specs/Statements.antt`, what a line says and what is wrong with it after the lines
//! before, and `specs/Text.antt`, the network of a whole text. A text is read exactly where every line is good and so
//! is the whole; else the first line that isn't is named.
#![tactic(auto)]

mod bundles;
mod digits;
mod lines;
mod names;
mod names_read;
mod parts;
mod reading;
mod refusal;
mod sharing;
mod state;
mod statements;
mod whole;

pub use digits::number_of;
pub use names_read::{link_name, node_name};
pub use refusal::{ReadRefusal, What};
pub use whole::{NET_LIMIT, read_net};
