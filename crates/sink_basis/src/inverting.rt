//! The inverse vectors of vectors, by the inverse of their matrix.
ghost use Rattle.std.specs.Prelude.{◌≡◌, ◌<◌, length, IfOk};
ghost use Rattle.field_vectors.specs.Elements.{column_of};
ghost use Rattle.field_vectors.specs.Grid.{IsMatrix, with_row};
ghost use Rattle.field_vectors.specs.Inverse.{OnlyZeroToZero};
ghost use Rattle.sink_basis.specs.Basis.{IsBasis};
ghost use Rattle.sink_basis.specs.Renewal.{IsTransposed};

use field_vectors::{InvertRefusal, Matrix, invert};
use gf_tables::Field;
use std::alloc::{AllocError, Global};

/// A matrix with another row at a place, in memory of its own.
pub fn replaced<F: Field>(
    alloc: Global,
    matrix: &Matrix<F>,
    place: u32,
    row: &[F],
) -> Result<Matrix<F>, AllocError>
    requires place { place < length matrix.now.rows }
    requires width { length row.now ≡ matrix.now.columns }
    ensures value { IfOk result (λ new. new ≡ with_row matrix.now place row.now) }
    ensures kept { IfOk result (IsMatrix F.is_element) }
{
    let mut new = matrix.copy(alloc)?;
    new.put_row(place, row);
    Ok(new)
}

// Column `k` of a matrix.
fn column<F: Field>(alloc: Global, matrix: &Matrix<F>, k: u32) -> Result<Vec<F>, AllocError>
    requires { k < matrix.now.columns }
    ensures { IfOk result (λ column. column.items ≡ column_of F.zero k matrix.now.rows) }
{
    let mut items = Vec::with_capacity(alloc, matrix.rows() as usize)?;
    for i in 0..matrix.rows() {
        items.push(matrix.at(i, k))?;
    }
    Ok(items)
}

// The columns of a matrix as rows.
fn transposed<F: Field>(alloc: Global, matrix: &Matrix<F>) -> Result<Matrix<F>, AllocError>
    ensures transposed { IfOk result (IsTransposed F.is_element F.zero matrix.now) }
    ensures kept { IsMatrix F.is_element matrix.now }
{
    let size = matrix.columns();
    let mut new = Matrix::zeros(alloc, size, matrix.rows())?;
    for k in 0..size {
        let column = column(alloc, matrix, k)?;
        new.put_row(k, &column);
    }
    Ok(new)
}

/// The inverse vectors of as many vectors as each is long, which send only zero to zero.
pub fn inverses_of<F: Field>(alloc: Global, vectors: &Matrix<F>) -> Result<Matrix<F>, AllocError>
    requires square { vectors.now.columns ≡ length vectors.now.rows }
    requires regular { OnlyZeroToZero F.is_element F.zero F.add F.mul vectors.now }
    ensures basis { IfOk result
        (IsBasis F.zero F.one F.add F.mul (length vectors.now.rows) vectors.now) }
    ensures kept { IfOk result (IsMatrix F.is_element) }
{
    match invert(alloc, vectors) {
        Ok(inverse) => transposed(alloc, &inverse),
        Err(InvertRefusal::OutOfMemory) => Err(AllocError),
        Err(InvertRefusal::Singular { .. }) => unreachable!(),
    }
}
