//! Decoders for codes that have none: of a draft, whose coefficients came from elsewhere, the code.
//!
//! There is one call, `finish`. Read `specs/Finished.antt`, what it gives, and `specs/Solved.antt`: which links a decoder
//! takes, and what it is that a demand doesn't decode. The laws that matter are in proofs/DecodesLaws: a demand decodes where
//! the vectors of the links into its sink make all unit vectors, and doesn't where they hide a block.
#![tactic(auto)]

mod finishing;
mod solving;
mod taking;

pub use finishing::{FinishRefused, FinishWhy, finish};
