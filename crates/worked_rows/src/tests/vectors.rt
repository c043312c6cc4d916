//! What the links of a code carry where no link fails, and under a pattern.
ghost use Rattle.std.specs.Prelude.{◌<◌, length};
ghost use Rattle.gf_tables.specs.Kind.{IsOfKind};

use super::codes::WIDE_ROWS;
use field_vectors::Matrix;
use gf_tables::{Field, FieldKind, Gf8, Gf9, Gf16};
use node_program::{Code, vectors};
use std::alloc::Global;
use test_support::codes::code_of;
use test_support::files::{CUT_BUTTERFLY, TWO_WAYS};

// Whether an entry of a matrix is the element of a number.
fn is_entry<F: Field>(matrix: &Matrix<F>, row: usize, column: usize, number: u32) -> bool {
    row < matrix.rows() as usize
        && column < matrix.columns() as usize
        && matrix.at(row as u32, column as u32).number() == number
}

// Whether a row of a matrix has the elements of these numbers.
fn is_row<F: Field>(matrix: &Matrix<F>, row: usize, numbers: &[u32]) -> bool {
    for (column, &number) in numbers.iter().enumerate() {
        if !is_entry(matrix, row, column, number) {
            return false;
        }
    }
    matrix.columns() as usize == numbers.len()
}

// Whether a matrix has these rows.
fn has_rows<F: Field>(matrix: &Matrix<F>, rows: &[&[u32]]) -> bool {
    for (row, numbers) in rows.iter().enumerate() {
        if !is_row(matrix, row, numbers) {
            return false;
        }
    }
    matrix.rows() as usize == rows.len()
}

// Whether these are the vectors of a code's links, where `F` is the code's field.
fn are_vectors_over<F: Field>(alloc: Global, code: &Code, pattern: u32, want: &[&[u32]]) -> bool
    requires pattern { pattern < length code.now.net.patterns }
    requires field { IsOfKind code.now.field F.SIZE F.BYTES F.MARK F.product }
{
    match vectors::<F>(alloc, code, pattern) {
        Ok(vectors) => has_rows(&vectors, want),
        Err(_) => false,
    }
}

// The same over whichever field is the code's.
#[tactic(auto, unfolding(gf_tables::specs::Product::product))]
fn are_vectors(alloc: Global, code: &Code, pattern: u32, want: &[&[u32]]) -> bool
    requires { pattern < length code.now.net.patterns }
{
    match code.field {
        FieldKind::Eight => are_vectors_over::<Gf8>(alloc, code, pattern, want),
        FieldKind::Nine => are_vectors_over::<Gf9>(alloc, code, pattern, want),
        FieldKind::Sixteen => are_vectors_over::<Gf16>(alloc, code, pattern, want),
    }
}

// Whether these are the vectors of the links of the code of a file.
fn carries(alloc: Global, file: &[u8], pattern: u32, want: &[&[u32]]) -> bool {
    match code_of(alloc, file) {
        Ok(code) => {
            (pattern as usize) < code.net.patterns.len() && are_vectors(alloc, &code, pattern, want)
        }
        Err(_) => false,
    }
}

// A code's file, a pattern, and the vector of each link.
type Row = (&'static [u8], u32, &'static [&'static [u32]]);

const ROWS: &[Row] = &[
    // The shared link has the sum of what comes to it.
    (
        CUT_BUTTERFLY,
        0,
        &[
            &[1, 0],
            &[0, 1],
            &[1, 0],
            &[0, 1],
            &[1, 0],
            &[0, 1],
            &[1, 1],
            &[1, 1],
            &[1, 1],
        ],
    ),
    (
        CUT_BUTTERFLY,
        1,
        &[
            &[0, 0],
            &[0, 1],
            &[0, 0],
            &[0, 1],
            &[0, 0],
            &[0, 1],
            &[0, 1],
            &[0, 1],
            &[0, 1],
        ],
    ),
    // A failed link leaves its coefficient out.
    (TWO_WAYS, 0, &[&[1], &[1], &[1], &[3]]),
    (TWO_WAYS, 1, &[&[0], &[1], &[0], &[1]]),
    // Coefficients of two bytes are multiplied. The numbers were computed by another program, from the field's
    // definition.
    (
        WIDE_ROWS,
        0,
        &[&[0x1234, 1], &[0, 0xABCD], &[0xD28E, 0x868E], &[0, 0xDDF6]],
    ),
];

// The first row of which a link has another vector.
fn wrong_row(alloc: Global) -> Option<usize> {
    for (row, &(file, pattern, want)) in ROWS.iter().enumerate() {
        if !carries(alloc, file, pattern, want) {
            return Some(row);
        }
    }
    None
}

#[test]
fn each_link_has_its_vector(rt: HostRuntime) {
    assert_eq!(rt; wrong_row(rt.alloc()), None);
}
