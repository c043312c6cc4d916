//! The Linear Information Flow compiler (Jaggi et al. 2005).
//!
//! There is one call, `compile`, and `compile_along` where the chains and the order of the links are at hand. Read
//! `specs/Compiled.antt`, what a compiled code is, and `specs/Refused.antt`, the five conditions that may not hold.
//! The invariant of the loop over the links is in `specs/Visits.antt`: the frontier of each demand carries a basis.
//! proofs/VisitLaws say how a basis outlives a visit.
#![tactic(auto)]

mod advancing;
mod carrying;
mod choosing;
mod compiling;
mod decoding;
mod failing;
mod hops;
mod kinds;
mod operands;
mod partial_code;
mod planning;
mod rating;
mod refusal;
mod starting;
mod table;
mod visiting;

pub use compiling::{compile, compile_along};
pub use hops::{Hop, HopList};
pub use refusal::CompileRefusal;
