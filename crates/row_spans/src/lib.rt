//! Rows of elements as bytes, taken in one by one by the elimination of Gauss and Jordan.
//!
//! Begin with `RowSpan::open`; `take_in` takes a row in and tells whether it raised the rank of the vectors, which are
//! the first elements of the rows. Read `specs/Spans.antt`: sums of multiples of rows, and lists of rows with the same
//! sums. What matters is that the kept rows have the same sums as all rows that raised the rank. Laws of such sums for
//! the crates above stand in `proofs/SumLaws.antt`.
#![tactic(auto)]

mod hiding;
mod inverses;
mod reducing;
mod sharing;
mod span;
#[cfg(test)]
mod tests;

pub use span::RowSpan;
