//! The fields that codes are over: two of 256 elements, by tables, and one of 65,536 elements, as pairs.
//!
//! Begin with the trait `Field` and its markers `Gf8`, `Gf9` and `Gf16`; `product` multiplies the numbers of elements by
//! the kind of their field. Read `specs/Product.antt`, what a product is by its definition on numbers, and
//! `specs/Field.antt`, the laws of a field. Those that matter are the two of the trait, `numbering` and `field`:
//! records that a generic proof takes as one fact each.
#![tactic(auto)]

mod field;
mod kind;
mod octet;
mod poly_11b;
mod poly_11d;
mod quad;
mod sharing;

pub use field::Field;
pub use kind::{FieldKind, Width, product};
pub use octet::{Generates, Octet};
pub use poly_11b::{Gf9, Poly11B};
pub use poly_11d::{Gf8, Poly11D};
pub use quad::{Gf16, NoRoot, Quad};
