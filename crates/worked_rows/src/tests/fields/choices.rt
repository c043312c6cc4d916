//! Choices of coefficients: as many rows as the field has elements, many rows, one and none.
ghost use Rattle.std.specs.Prelude.{◌≡◌, ◌≤◌, length, IsTrue};
ghost use Rattle.coeff_choice.specs.Choice.{HasNonzeroAt, choice_steps};

use super::counting::{Counted, run_over};
use super::numbered::put;
use coeff_choice::choose;
use counted_steps::Steps;
use field_vectors::{Matrix, dot};
use gf_tables::{Field, Gf8, Gf16};
use std::alloc::{AllocError, Global};
use std::sync::ledger::Ledger;

// A table, with a place for each row at which it isn't zero.
#[derive(Clone, Copy)]
enum Table {
    // The rows (1, g) for all nonzero bytes g, and the row (0, 1).
    Slopes,
    // Three hundred rows, whose places go round the columns.
    Many,
    // The row (0, 0, 7).
    One,
    // No row of three columns.
    Empty,
}

// How many rows and columns a table has.
fn size_of(table: Table) -> (u32, u32) {
    match table {
        Table::Slopes => (Gf8::SIZE, 2),
        Table::Many => (300, 7),
        Table::One => (1, 3),
        Table::Empty => (0, 3),
    }
}

// The place of a row.
fn place_of(table: Table, row: u32) -> u32 {
    match table {
        Table::Slopes => row / 255,
        Table::Many => row % 7,
        Table::One | Table::Empty => 2,
    }
}

// The number in a row and a column of the many. At the row's place it isn't zero, and elsewhere mostly.
fn mixed_number(row: u32, column: u32) -> u32 {
    let mixed = row.wrapping_mul(0x4E35) ^ column.wrapping_mul(0x1F7B);
    if column == row % 7 {
        mixed & 0xFFFF | 1
    } else if mixed & 3 != 0 {
        mixed & 0xFF
    } else {
        0
    }
}

// The number in a row and a column.
fn number_at(table: Table, row: u32, column: u32) -> u32 {
    match (table, column) {
        (Table::Slopes, 0) => 1 - row / 255 % 2,
        (Table::Slopes, _) => if row < 255 { row + 1 } else { 1 },
        (Table::Many, _) => mixed_number(row, column),
        (Table::One, 2) => 7,
        _ => 0,
    }
}

// The matrix of a table.
fn matrix_of<F: Field>(alloc: Global, table: Table) -> Result<Matrix<F>, AllocError> {
    let (rows, columns) = size_of(table);
    let mut matrix = Matrix::zeros(alloc, rows, columns)?;
    for row in 0..rows {
        for column in 0..columns {
            put(&mut matrix, row, column, number_at(table, row, column));
        }
    }
    Ok(matrix)
}

// The places of all rows of a table.
fn places_of(alloc: Global, table: Table) -> Result<Vec<u32>, AllocError> {
    let (rows, _) = size_of(table);
    let mut places = Vec::new(alloc);
    for row in 0..rows {
        places.push(place_of(table, row))?;
    }
    Ok(places)
}

// Whether each row of a matrix isn't zero at its place.
fn is_nonzero_at<F: Field>(matrix: &Matrix<F>, places: &[u32]) -> bool
    ensures { IsTrue result → HasNonzeroAt F.zero matrix.now places.now }
{
    if places.len() != matrix.rows() as usize {
        return false;
    }
    for row in 0..matrix.rows() {
        let place = places[row as usize];
        if place >= matrix.columns() || matrix.at(row, place) == F::zero() {
            return false;
        }
    }
    true
}

// A choice, with a counter at which no step was counted.
fn choose_counted<F: Field, L: Ledger>(
    alloc: Global,
    matrix: &Matrix<F>,
    places: &[u32],
    steps: &mut Steps<L>,
) -> Result<Vec<F>, AllocError>
    requires none { steps.old ≡ 0 }
    requires nonzero { HasNonzeroAt F.zero matrix.now places.now }
    requires few_rows { length matrix.now.rows ≤ F.SIZE }
    ensures { steps.new ≤ choice_steps (length matrix.now.rows) matrix.now.columns }
{
    choose(alloc, matrix, places, steps)
}

// Whether no product of a row with the coefficients is zero.
fn are_nonzero<F: Field, L: Ledger>(
    matrix: &Matrix<F>,
    coefficients: &[F],
    steps: &mut Steps<L>,
) -> bool {
    for row in 0..matrix.rows() {
        let line = matrix.row(row);
        if line.len() != coefficients.len() || dot(line, coefficients, steps) == F::zero() {
            return false;
        }
    }
    true
}

// How many elements there are, and the numbers of the first two.
fn summary<F: Field>(elements: &[F]) -> (usize, [u32; 2]) {
    match elements {
        [first, second, ..] => (elements.len(), [first.number(), second.number()]),
        _ => (elements.len(), [0; 2]),
    }
}

// The summary of coefficients, where no product of a row with them is zero.
fn summary_of<F: Field, L: Ledger>(
    matrix: &Matrix<F>,
    coefficients: &[F],
    steps: &mut Steps<L>,
) -> Option<(usize, [u32; 2])> {
    if are_nonzero(matrix, coefficients, steps) {
        Some(summary(coefficients))
    } else {
        None
    }
}

// The summary of chosen coefficients, where the rows aren't zero at their places, and no product is.
fn chosen<F: Field, L: Ledger>(
    alloc: Global,
    matrix: &Matrix<F>,
    places: &[u32],
    steps: &mut Steps<L>,
) -> Option<(usize, [u32; 2])>
    requires { steps.old ≡ 0 }
{
    if matrix.rows() > F::SIZE || !is_nonzero_at(matrix, places) {
        return None;
    }
    match choose_counted(alloc, matrix, places, steps) {
        Ok(choice) => summary_of(matrix, &choice, steps),
        Err(_) => None,
    }
}

// The same of the matrix of a table.
fn chosen_of<F: Field, L: Ledger>(
    alloc: Global,
    table: Table,
    matrix: &Matrix<F>,
    steps: &mut Steps<L>,
) -> Option<(usize, [u32; 2])>
    requires { steps.old ≡ 0 }
{
    match places_of(alloc, table) {
        Ok(places) => chosen(alloc, matrix, &places, steps),
        Err(_) => None,
    }
}

impl Counted for Table {
    type Found = Option<(usize, [u32; 2])>;

    fn run<F: Field, L: Ledger>(self, alloc: Global, mut steps: Steps<L>) -> Self::Found {
        match matrix_of::<F>(alloc, self) {
            Ok(matrix) => chosen_of(alloc, self, &matrix, &mut steps),
            Err(_) => None,
        }
    }
}

#[test]
fn as_many_rows_as_elements_leave_one_choice(rt: HostRuntime) {
    let found = run_over::<Gf8, Table>(rt.alloc(), Table::Slopes);
    assert!(rt;
        found.is_some_and(|(count, [first, second])| count == 2 && first == 0 && second != 0)
    );
}

// How many coefficients are chosen for a table.
fn count_of<F: Field>(alloc: Global, table: Table) -> Option<usize> {
    match run_over::<F, Table>(alloc, table) {
        Some((count, _)) => Some(count),
        None => None,
    }
}

#[test]
fn each_column_has_a_coefficient(rt: HostRuntime) {
    let have_one = count_of::<Gf16>(rt.alloc(), Table::Many) == Some(7)
        && count_of::<Gf8>(rt.alloc(), Table::One) == Some(3)
        && count_of::<Gf16>(rt.alloc(), Table::Empty) == Some(3);
    assert!(rt; have_one);
}
