//! Matrices: the first entry of a product that isn't that of the identity, inverses, and blocks sent to zero.
use super::counting::{Counted, run_over};
use super::numbered::{element, put, square, two_by_two};
use counted_steps::Steps;
use field_vectors::{InvertRefusal, Matrix, dot, invert, is_identity_product};
use gf_tables::{Field, Gf8, Gf16};
use net_model::HIGHEST_RATE;
use std::alloc::{AllocError, Global};
use std::sync::ledger::Ledger;

// The first entry in which the product of two square matrices differs from the identity: its row, its column and
// its number. Where the matrices aren't square and of one size, it is one that no matrix has.
fn difference<F: Field, L: Ledger>(
    a: &Matrix<F>,
    b: &Matrix<F>,
    steps: &mut Steps<L>,
) -> Option<(u32, u32, u32)> {
    if a.rows() != a.columns() || b.rows() != a.rows() || b.columns() != a.rows() {
        return Some((u32::MAX, u32::MAX, u32::MAX));
    }
    match is_identity_product(a, b, steps) {
        Ok(()) => None,
        Err(entry) => Some((entry.row, entry.column, entry.found.number())),
    }
}

// A matrix of three rows and three columns, by its numbers.
#[derive(Clone, Copy)]
struct ThreeByThree([u32; 9]);

// The first entry in which the product of a matrix and the identity of three rows differs from the identity.
fn difference_from_identity<F: Field, L: Ledger>(
    alloc: Global,
    matrix: &Matrix<F>,
    steps: &mut Steps<L>,
) -> Result<Option<(u32, u32, u32)>, AllocError> {
    match square::<F>(alloc, 3, &[1, 0, 0, 0, 1, 0, 0, 0, 1]) {
        Ok(identity) => Ok(difference(matrix, &identity, steps)),
        Err(error) => Err(error),
    }
}

impl Counted for ThreeByThree {
    type Found = Result<Option<(u32, u32, u32)>, AllocError>;

    fn run<F: Field, L: Ledger>(self, alloc: Global, mut steps: Steps<L>) -> Self::Found {
        match square::<F>(alloc, 3, &self.0) {
            Ok(matrix) => difference_from_identity(alloc, &matrix, &mut steps),
            Err(error) => Err(error),
        }
    }
}

// Matrices, and the first entry in which each differs from the identity.
const DIFFERENCES: &[([u32; 9], Option<(u32, u32, u32)>)] = &[
    ([1, 0, 0, 0, 1, 0, 0, 0, 1], None),
    ([1, 0, 0, 0, 1, 5, 7, 0, 1], Some((1, 2, 5))),
    ([1, 0, 3, 4, 1, 0, 0, 0, 1], Some((0, 2, 3))),
    ([2, 0, 0, 0, 1, 0, 0, 0, 1], Some((0, 0, 2))),
    ([1, 0, 0, 0, 1, 0, 0, 0, 0], Some((2, 2, 0))),
];

// The first row of those that isn't so.
fn wrong_difference(alloc: Global) -> Option<usize> {
    for (row, &(numbers, right)) in DIFFERENCES.iter().enumerate() {
        let found: Result<_, _> = run_over::<Gf8, ThreeByThree>(alloc, ThreeByThree(numbers));
        if found != Ok(right) {
            return Some(row);
        }
    }
    None
}

#[test]
fn the_first_difference_is_found_by_rows(rt: HostRuntime) {
    assert_eq!(rt; wrong_difference(rt.alloc()), None);
}

// The numbers of two elements.
fn two<F: Field>(row: &[F]) -> [u32; 2] {
    match row {
        [a, b] => [a.number(), b.number()],
        _ => [0; 2],
    }
}

// The numbers of the inverse of a matrix of two rows, or of the block that it sends to zero.
fn inverted<F: Field>(alloc: Global, matrix: &Matrix<F>) -> Result<[u32; 4], [u32; 2]> {
    if matrix.rows() != matrix.columns() {
        return Err([0; 2]);
    }
    match invert(alloc, matrix) {
        Ok(inverse) => two_by_two(&inverse).ok_or([0; 2]),
        Err(InvertRefusal::Singular { block }) => Err(two(block.as_slice())),
        Err(InvertRefusal::OutOfMemory) => Err([0; 2]),
    }
}

// The same of a matrix by its numbers.
fn inverse_of<F: Field>(alloc: Global, numbers: &[u32; 4]) -> Result<[u32; 4], [u32; 2]> {
    match square::<F>(alloc, 2, numbers) {
        Ok(matrix) => inverted(alloc, &matrix),
        Err(AllocError) => Err([0; 2]),
    }
}

// Matrices, and their inverses, or the blocks that they send to zero.
const INVERSES: &[([u32; 4], Result<[u32; 4], [u32; 2]>)] = &[
    ([1, 0, 1, 1], Ok([1, 0, 1, 1])),
    ([0, 1, 1, 0], Ok([0, 1, 1, 0])),
    ([2, 0, 0, 1], Ok([0x8E, 0, 0, 1])),
    ([1, 1, 1, 1], Err([1, 1])),
];

// The first row of those that isn't so.
fn wrong_inverse(alloc: Global) -> Option<usize> {
    for (row, &(numbers, right)) in INVERSES.iter().enumerate() {
        if inverse_of::<Gf8>(alloc, &numbers) != right {
            return Some(row);
        }
    }
    None
}

#[test]
fn small_matrices_are_inverted_or_singular(rt: HostRuntime) {
    assert_eq!(rt; wrong_inverse(rt.alloc()), None);
}

// The numbers of a copy of a matrix of two rows, whose first row was replaced by the second.
fn row_copied<F: Field>(alloc: Global, matrix: &Matrix<F>) -> Result<Option<[u32; 4]>, AllocError> {
    let mut copy = matrix.copy(alloc)?;
    if matrix.rows() == 2 {
        copy.put_row(0, matrix.row(1));
    }
    Ok(two_by_two(&copy))
}

// The same of a matrix by its numbers.
fn row_copied_of<F: Field>(
    alloc: Global,
    numbers: &[u32; 4],
) -> Result<Option<[u32; 4]>, AllocError> {
    match square::<F>(alloc, 2, numbers) {
        Ok(matrix) => row_copied(alloc, &matrix),
        Err(error) => Err(error),
    }
}

#[test]
fn a_row_is_copied(rt: HostRuntime) {
    let found: Result<_, _> = row_copied_of::<Gf8>(rt.alloc(), &[1, 2, 3, 4]);
    assert!(rt; found == Ok(Some([3, 4, 3, 4])));
}

// A square matrix of some size and rank.
struct Mixed {
    size: u32,
    rank: u32,
}

// Adds a multiple of a row to another, where there are such rows.
fn mix_row<F: Field, L: Ledger>(matrix: &mut Matrix<F>, i: u32, j: u32, steps: &mut Steps<L>) {
    if i != j && i < matrix.rows() && j < matrix.rows() {
        let by = element(i.wrapping_mul(0x4E35) ^ j.wrapping_mul(0x1F7B) & 0xFFFF);
        matrix.add_row(i, by, j, steps);
    }
}

// As many nonzero elements on the diagonal as the rank, and then a multiple of each row added to each other.
fn mix<F: Field, L: Ledger>(
    alloc: Global,
    mixed: Mixed,
    steps: &mut Steps<L>,
) -> Result<Matrix<F>, AllocError> {
    let Mixed { size, rank } = mixed;
    let mut matrix = Matrix::zeros(alloc, size, size)?;
    for i in 0..size.min(rank) {
        put(&mut matrix, i, i, i.wrapping_mul(37) & 0xFF | 1);
    }
    for i in 0..size {
        for j in 0..size {
            mix_row(&mut matrix, i, j, steps);
        }
    }
    Ok(matrix)
}

// Whether a block isn't all zeros, and each row of the matrix sends it to zero.
fn is_sent_to_zero<F: Field, L: Ledger>(a: &Matrix<F>, block: &[F], steps: &mut Steps<L>) -> bool {
    let mut is_zero = true;
    for element in block {
        is_zero = is_zero && *element == F::zero();
    }
    for i in 0..a.rows() {
        let row = a.row(i);
        if row.len() != block.len() || dot(row, block, steps) != F::zero() {
            return false;
        }
    }
    !is_zero
}

// What came of a matrix that was to be inverted.
#[derive(PartialEq, Drop)]
enum Outcome {
    Inverse,
    Block,
    // A wrong inverse or a wrong block.
    Wrong,
    OutOfMemory,
}

// Whether two matrices are inverse to each other.
fn are_inverse<F: Field, L: Ledger>(a: &Matrix<F>, b: &Matrix<F>, steps: &mut Steps<L>) -> bool {
    difference(a, b, steps).is_none() && difference(b, a, steps).is_none()
}

// What comes of a matrix that is inverted.
fn outcome_of<F: Field, L: Ledger>(alloc: Global, a: &Matrix<F>, steps: &mut Steps<L>) -> Outcome {
    if a.rows() != a.columns() {
        return Outcome::Wrong;
    }
    match invert(alloc, a) {
        Ok(b) => right_or_wrong(are_inverse(a, &b, steps), Outcome::Inverse),
        Err(InvertRefusal::Singular { block }) => {
            right_or_wrong(is_sent_to_zero(a, block.as_slice(), steps), Outcome::Block)
        }
        Err(InvertRefusal::OutOfMemory) => Outcome::OutOfMemory,
    }
}

// An outcome that is as it should be, or a wrong one.
fn right_or_wrong(is_right: bool, outcome: Outcome) -> Outcome {
    if is_right { outcome } else { Outcome::Wrong }
}

impl Counted for Mixed {
    type Found = Outcome;

    fn run<F: Field, L: Ledger>(self, alloc: Global, mut steps: Steps<L>) -> Outcome {
        match mix::<F, L>(alloc, self, &mut steps) {
            Ok(matrix) => outcome_of(alloc, &matrix, &mut steps),
            Err(AllocError) => Outcome::OutOfMemory,
        }
    }
}

// Whether the matrices of some size and rank come out so over both fields.
fn both_come_out(alloc: Global, size: u32, rank: u32, right: &Outcome) -> bool {
    run_over::<Gf8, Mixed>(alloc, Mixed { size, rank }) == *right
        && run_over::<Gf16, Mixed>(alloc, Mixed { size, rank }) == *right
}

// The first size of which a matrix isn't inverted.
fn wrong_size(alloc: Global) -> Option<u32> {
    for size in 1..=HIGHEST_RATE {
        if !both_come_out(alloc, size, size, &Outcome::Inverse) {
            return Some(size);
        }
    }
    None
}

#[test]
fn matrices_of_all_sizes_are_inverted(rt: HostRuntime) {
    assert_eq!(rt; wrong_size(rt.alloc()), None);
}

// The first rank and size of which a matrix doesn't send a block to zero.
fn wrong_rank(alloc: Global) -> Option<(u32, u32)> {
    for rank in 0..=4u32 {
        for size in 5..=9u32 {
            if !both_come_out(alloc, size, rank, &Outcome::Block) {
                return Some((rank, size));
            }
        }
    }
    None
}

#[test]
fn matrices_of_small_rank_are_singular(rt: HostRuntime) {
    assert_eq!(rt; wrong_rank(rt.alloc()), None);
}
