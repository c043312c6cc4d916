//! Whether two matrices are each other's inverses.
ghost use Rattle.std.specs.Prelude.{◌≡◌, ◌<◌, ◌*◌, ◌==◌, length, IfSome, IfNone, IfErr, OnOk, if◌then◌else◌};
ghost use Rattle.counted_steps.specs.Steps.{RoseBy, RoseByAtMost};
ghost use Rattle.field_vectors.specs.Elements.{product_of, identity_of};
ghost use Rattle.field_vectors.specs.Difference.{product_entry, identity_entry, IsFirstInRow, IsFirstDifference};

use crate::matrix::Matrix;
use counted_steps::Steps;
use gf_tables::Field;
use std::sync::ledger::Ledger;

/// An entry of a matrix: its row and its column, counted from 0, and the element found there.
#[derive(Clone, Copy, Debug, PartialEq, Eq)]
pub struct Entry<F> {
    /// The row.
    pub row: u32,
    /// The column.
    pub column: u32,
    /// The element.
    pub found: F,
}

// The entry of the identity in a row and a column.
fn identity_entry<F: Field>(i: u32, j: u32) -> F
    ensures { result ≡ identity_entry F.zero F.one i j }
{
    if i == j { F::one() } else { F::zero() }
}

// The entry of a product in a row and a column.
fn product_entry<F: Field, L: Ledger>(
    a: &Matrix<F>,
    b: &Matrix<F>,
    i: u32,
    j: u32,
    steps: &mut Steps<L>,
) -> F
    requires row { i < length a.now.rows }
    requires column { j < b.now.columns }
    requires inner { a.now.columns ≡ length b.now.rows }
    ensures value { result ≡ product_entry F.zero F.add F.mul a.now b.now i j }
    ensures ticks { RoseBy a.now.columns steps.old steps.new }
{
    let mut sum = F::zero();
    for k in (0..a.columns()).rev() {
        sum = a.at(i, k).mul(b.at(k, j)).add(sum);
        steps.tick();
    }
    sum
}

// The first entry in a row of a product that differs from the identity.
fn difference_in_row<F: Field, L: Ledger>(
    a: &Matrix<F>,
    b: &Matrix<F>,
    i: u32,
    steps: &mut Steps<L>,
) -> Option<Entry<F>>
    requires row { i < length a.now.rows }
    requires inner { a.now.columns ≡ length b.now.rows }
    ensures none { IfNone result ((j : _) → j < b.now.columns →
        product_entry F.zero F.add F.mul a.now b.now i j ≡ identity_entry F.zero F.one i j) }
    ensures some { IfSome result (λ e.
        IsFirstInRow F.zero F.one F.add F.mul a.now b.now i e.row e.column e.found) }
    ensures ticks { RoseByAtMost (b.now.columns * a.now.columns) steps.old steps.new }
{
    for j in 0..b.columns() {
        let found = product_entry(a, b, i, j, steps);
        if found == identity_entry(i, j) {} else {
            return Some(Entry {
                row: i,
                column: j,
                found,
            });
        }
    }
    None
}

/// Whether the product of two square matrices is the identity. An `Err` has the first entry, by
/// rows, in which it differs. It counts a step for each product of elements, at most as many as the
/// cube of the size.
pub fn is_identity_product<F: Field, L: Ledger>(
    a: &Matrix<F>,
    b: &Matrix<F>,
    steps: &mut Steps<L>,
) -> Result<(), Entry<F>>
    requires square { a.now.columns ≡ length a.now.rows }
    requires same_rows { length b.now.rows ≡ length a.now.rows }
    requires same_columns { b.now.columns ≡ length a.now.rows }
    ensures ok { let size = length a.now.rows in
        OnOk result (product_of F.zero F.add F.mul size a.now.rows b.now.rows
        ≡ identity_of F.zero F.one size) }
    ensures err { IfErr result (λ e.
        IsFirstDifference F.zero F.one F.add F.mul a.now b.now e.row e.column e.found) }
    ensures ticks { RoseByAtMost
        (length a.now.rows * (b.now.columns * a.now.columns)) steps.old steps.new }
{
    for i in 0..a.rows() {
        if let Some(entry) = difference_in_row(a, b, i, steps) {
            return Err(entry);
        }
    }
    Ok(())
}
