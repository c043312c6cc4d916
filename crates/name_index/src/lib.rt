//! Names of a kind, each once, with their numbers in order of first appearance.
//!
//! There are two types, `Names`, which borrows the names, and `OwnedNames`, which keeps them: `add` says whether a name is
//! new, and `number_of` which number it has. Read `specs/Seen.antt`. A name's number is its place in the list as which the
//! type is seen.
#![tactic(auto)]

mod names;
mod owned;

pub use names::Names;
pub use owned::OwnedNames;
