//! What the links of a network carry, as rows of bytes, whichever links fail.
//!
//! Begin with `LinkRows::of`, which makes a row for each link from the rows of a block, and `vector_rows`, which does
//! so for the unit rows: those rows are the links' global coding vectors. Read `specs/LinkRows.antt` and
//! `specs/Vectors.antt`. There is no decoder and no pattern: which links fail is told link by link.
#![tactic(auto)]

mod rows;
mod sharing;
mod vectors;

pub use rows::LinkRows;
pub use vectors::vector_rows;
