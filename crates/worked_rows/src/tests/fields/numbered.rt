//! Elements, rows and matrices by their numbers.
use field_vectors::Matrix;
use gf_tables::Field;
use std::alloc::{AllocError, Global};

/// The element with a number, or with its low byte where it is past the field.
pub(super) fn element<F: Field>(number: u32) -> F {
    let within = if number < F::SIZE {
        number
    } else {
        number & 0xFF
    };
    if within < F::SIZE {
        F::of_number(within)
    } else {
        F::zero()
    }
}

/// The row of the elements with these numbers.
pub(super) fn row<F: Field>(alloc: Global, numbers: &[u32]) -> Result<Vec<F>, AllocError> {
    let mut elements = Vec::new(alloc);
    for number in numbers {
        elements.push(element(*number))?;
    }
    Ok(elements)
}

/// Makes the element with a number an entry of a matrix that has such a place.
pub(super) fn put<F: Field>(matrix: &mut Matrix<F>, row: u32, column: u32, number: u32) {
    if row < matrix.rows() && column < matrix.columns() {
        matrix.set(row, column, element(number));
    }
}

/// The square matrix of the elements with these numbers, row by row.
pub(super) fn square<F: Field>(
    alloc: Global,
    size: u32,
    numbers: &[u32],
) -> Result<Matrix<F>, AllocError> {
    let mut matrix = Matrix::zeros(alloc, size, size)?;
    let mut place = 0u32;
    for number in numbers {
        if 0 < size {
            put(&mut matrix, place / size, place % size, *number);
        }
        place = place.saturating_add(1);
    }
    Ok(matrix)
}

/// The numbers of a matrix of two rows and two columns, row by row.
pub(super) fn two_by_two<F: Field>(matrix: &Matrix<F>) -> Option<[u32; 4]> {
    if matrix.rows() != 2 || matrix.columns() != 2 {
        return None;
    }
    Some([
        matrix.at(0, 0).number(),
        matrix.at(0, 1).number(),
        matrix.at(1, 0).number(),
        matrix.at(1, 1).number(),
    ])
}
