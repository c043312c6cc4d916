//! Rows and matrices of field elements in memory, and the inverse of a matrix by elimination.
//!
//! Begin with `Matrix`, which is seen as its rows, and `invert`; `dot`, `scale` and `add_scaled` work on single
//! rows. Read `specs/Elements.antt`, rows in the field's own operations, `specs/Grid.antt` and
//! `specs/Inverse.antt`. Each call says its exact result and its steps; proofs/NumberLaws say the same on the
//! numbers of elements.
#![tactic(auto)]

mod inverse;
mod matrix;
mod parts;
mod product;
mod refusal;
mod rows;
mod sharing;

pub use inverse::invert;
pub use matrix::Matrix;
pub use product::{Entry, is_identity_product};
pub use refusal::InvertRefusal;
pub use rows::{Row, add_scaled, dot, scale};
