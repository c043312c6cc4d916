//! The vectors on the frontier of a sink's paths, a basis, with their inverse vectors.
//!
//! Begin with `Basis::start`, the unit vectors; `advance` puts a new vector in an old one's place without taking
//! memory, and `renew` does so by the inverse of all. Read `specs/Basis.antt`, that vectors and inverses are dual,
//! and `specs/Renewal.antt`, with the steps that `advance` counts. What matters is that both keep `IsBasis` wherever
//! the old inverse's product with the new vector isn't zero.
#![tactic(auto)]

mod basis;
mod inverting;
mod renewal;

pub use basis::{Basis, Frontier};
