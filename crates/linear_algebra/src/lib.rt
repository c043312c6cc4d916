//! Rows and matrices of elements of a kind of field, by their numbers: definitions and laws, and no code.
//!
//! Read `specs/Rows.antt`, sums and multiples of rows and linear combinations of them, and `specs/Matrices.antt`,
//! products of matrices and the identity. The law that matters is `combination-times_rows` in proofs/MatrixLaws:
//! products of matrices associate. Crates that have matrices in memory say in these words what they hold.
#![tactic(auto)]
