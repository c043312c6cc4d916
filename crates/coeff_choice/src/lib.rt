//! Coefficients with which none of as many linear functions as the field has elements is zero.
//!
//! There is one call, `choose`, and its clauses are the whole of it: no product is zero, in at most so many steps.
//! Read `specs/Choice.antt`. Why there is always a coefficient left is in proofs/ChoosingLaws: of the elements with
//! the numbers 0 to i, at most i are forbidden at row i.
#![tactic(auto)]

mod choosing;

pub use choosing::choose;
