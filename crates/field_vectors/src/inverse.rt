//! The inverse of a matrix, by elimination.
ghost use Rattle.std.specs.Prelude.{◌≡◌, ◌≢◌, ◌+◌, ◌-◌, ◌^◌, ◌<◌, ◌≤◌, ◌++◌, length, map, drop, replicate, slice_get, IfSome, IfNone, IfOk, IfErr, OnOk};
ghost use Rattle.std.specs.Bool.{OnTrue, OnFalse};
ghost use Rattle.std.specs.List.{range_with_len};
ghost use Rattle.field_vectors.specs.Elements.{unit_of};
ghost use Rattle.field_vectors.specs.Elimination.{IsStep, IsReduced, IsStuck, IsPivot, IsBeside};
ghost use Rattle.field_vectors.specs.Grid.{row_of, entry_of, with_row, IsMatrix};
ghost use Rattle.field_vectors.specs.Inverse.{IsInverse, OnlyZeroToZero, IsRightHalf, block_of};
ghost use Rattle.field_vectors.specs.Refusal.{IsRefusal};

use crate::matrix::Matrix;
use crate::parts::part;
use crate::refusal::InvertRefusal;
use crate::rows::Row;
use counted_steps::Steps;
use gf_tables::Field;
use item_list::ItemList;
use std::alloc::{AllocError, Global};
use std::marker::Brand;
use std::sync::ledger::{Blank, Ledger};

// The first row from row k on whose entry in column k is not zero.
fn pivot_of<F: Field>(work: &Matrix<F>, k: u32) -> Option<u32>
    requires { k < work.now.columns }
    ensures none { IfNone result (IsStuck F.zero work.now k) }
    ensures some { IfSome result (λ i. IsPivot F.zero work.now k i) }
{
    for i in k..work.rows() {
        if work.at(i, k) == F::zero() {} else {
            return Some(i);
        }
    }
    None
}

// Makes the entry on the diagonal of column k nonzero, by the pivot's row.
fn lift_pivot<F: Field, L: Ledger>(work: &mut Matrix<F>, k: u32, pivot: u32, steps: &mut Steps<L>)
    requires matrix { IsMatrix F.is_element work.old }
    requires column { k < work.old.columns }
    requires reduced { IsReduced F.zero F.one work.old k }
    requires pivot { IsPivot F.zero work.old k pivot }
    ensures step { IsStep F.is_element F.zero F.add F.mul work.old work.new }
    ensures kept { IsReduced F.zero F.one work.new k }
    ensures nonzero { entry_of F.zero work.new k k ≢ F.zero }
{
    if pivot != k {
        work.add_row(k, F::one(), pivot, steps);
    }
}

// Makes the entry on the diagonal of column k one.
fn normalize_pivot<F: Field, L: Ledger>(work: &mut Matrix<F>, k: u32, steps: &mut Steps<L>)
    requires row { k < length work.old.rows }
    requires column { k < work.old.columns }
    requires reduced { IsReduced F.zero F.one work.old k }
    requires nonzero { entry_of F.zero work.old k k ≢ F.zero }
    ensures step { IsStep F.is_element F.zero F.add F.mul work.old work.new }
    ensures kept { IsReduced F.zero F.one work.new k }
    ensures one { entry_of F.zero work.new k k ≡ F.one }
{
    let by = work.at(k, k).inv();
    work.scale_row(k, by, steps);
}

// Makes the entries of column k beside the diagonal zero.
fn clear_column<F: Field, L: Ledger>(work: &mut Matrix<F>, k: u32, steps: &mut Steps<L>)
    requires row { k < length work.old.rows }
    requires column { k < work.old.columns }
    requires reduced { IsReduced F.zero F.one work.old k }
    requires one { entry_of F.zero work.old k k ≡ F.one }
    ensures step { IsStep F.is_element F.zero F.add F.mul work.old work.new }
    ensures cleared { IsReduced F.zero F.one work.new (k + 1) }
{
    for i in 0..work.rows() {
        if i != k {
            let by = work.at(i, k);
            work.add_row(i, by, k, steps);
        }
    }
}

// Makes column k that of the identity, where some row from row k on has a nonzero entry there.
fn reduce_column<F: Field, L: Ledger>(work: &mut Matrix<F>, k: u32, steps: &mut Steps<L>) -> bool
    requires matrix { IsMatrix F.is_element work.old }
    requires row { k < length work.old.rows }
    requires column { k < work.old.columns }
    requires reduced { IsReduced F.zero F.one work.old k }
    ensures step { IsStep F.is_element F.zero F.add F.mul work.old work.new }
    ensures done { OnTrue result (IsReduced F.zero F.one work.new (k + 1)) }
    ensures left { OnFalse result (IsReduced F.zero F.one work.new k) }
    ensures stuck { OnFalse result (IsStuck F.zero work.new k) }
{
    if let Some(pivot) = pivot_of(work, k) {
        lift_pivot(work, k, pivot, steps);
        normalize_pivot(work, k, steps);
        clear_column(work, k, steps);
        true
    } else {
        false
    }
}

// Makes the first columns those of the identity, as many as there are rows. The answer is the first
// column in which that cannot be, if there is one.
fn reduce<F: Field, L: Ledger>(work: &mut Matrix<F>, steps: &mut Steps<L>) -> Option<u32>
    requires { length work.old.rows ≤ work.old.columns }
    ensures step { IsStep F.is_element F.zero F.add F.mul work.old work.new }
    ensures none { IfNone result (IsReduced F.zero F.one work.new (length work.new.rows)) }
    ensures some { IfSome result (λ k.
        (k < length work.new.rows) × IsReduced F.zero F.one work.new k
        × IsStuck F.zero work.new k) }
{
    for k in 0..work.rows() {
        if !reduce_column(work, k, steps) {
            return Some(k);
        }
    }
    None
}

// Makes row `i` of a matrix of zeros that of another, with the row of the identity behind it.
fn fill_row<F: Field>(work: &mut Matrix<F>, a: &Matrix<F>, i: u32)
    requires row { i < length a.now.rows }
    requires square { a.now.columns ≡ length a.now.rows }
    requires height { length work.old.rows ≡ length a.now.rows }
    requires width { work.old.columns ≡ length a.now.rows + length a.now.rows }
    requires few_columns { length a.now.rows + length a.now.rows < 2 ^ 32 }
    requires zeros { row_of work.old i ≡ replicate (length a.now.rows + length a.now.rows) F.zero }
    ensures value { work.new ≡ with_row work.old i
        (row_of a.now i ++ unit_of F.zero F.one (length a.now.rows) i) }
    ensures kept { IsMatrix F.is_element work.new }
{
    let size = a.columns();
    for j in 0..size {
        work.set(i, j, a.at(i, j));
    }
    work.set(i, size + i, F::one());
}

// A square matrix with the identity beside it.
fn beside_identity<F: Field>(alloc: Global, a: &Matrix<F>) -> Result<Matrix<F>, AllocError>
    requires { a.now.columns ≡ length a.now.rows }
    ensures beside { IfOk result (λ work. IsBeside F.is_element F.zero F.one a.now work) }
    ensures kept { IsMatrix F.is_element a.now }
{
    let size = a.rows();
    if size > u32::MAX / 2 {
        return Err(AllocError);
    }
    let mut work = Matrix::zeros(alloc, size, size + size)?;
    for i in 0..size {
        fill_row(&mut work, a, i);
    }
    Ok(work)
}

// What stands behind the identity.
fn right_half<F: Field>(alloc: Global, work: &Matrix<F>) -> Result<Matrix<F>, AllocError>
    requires { work.now.columns ≡ length work.now.rows + length work.now.rows }
    ensures { IfOk result (λ half. IsRightHalf F.is_element work.now half) }
{
    let size = work.rows();
    let width = work.columns();
    let mut half = Matrix::zeros(alloc, size, size)?;
    for i in 0..size {
        half.put_row(i, part(work.row(i), size as usize, width as usize));
    }
    Ok(half)
}

// The entries of column k above the diagonal.
fn column_above<F: Field>(alloc: Global, work: &Matrix<F>, k: u32) -> Result<Vec<F>, AllocError>
    requires row { k < length work.now.rows }
    requires column { k < work.now.columns }
    ensures { IfOk result
        (λ v. v.items ≡ map (λ i. entry_of F.zero work.now i k) (range_with_len 0 k)) }
{
    let mut items = Vec::new(alloc);
    for i in 0..k {
        items.push(work.at(i, k))?;
    }
    Ok(items)
}

// Puts so many zeros behind.
fn push_zeros<F: Field>(items: &mut Vec<F>, count: u32) -> Result<(), AllocError>
    ensures { OnOk result (items.new.items ≡ items.old.items ++ replicate count F.zero) }
{
    for _place in 0..count {
        items.push(F::zero())?;
    }
    Ok(())
}

// What the columns before k combine to in column k, with one for column k itself.
fn stuck_block<F: Field>(alloc: Global, work: &Matrix<F>, k: u32) -> Result<Row<F>, AllocError>
    requires row { k < length work.now.rows }
    requires column { k < work.now.columns }
    ensures { IfOk result (λ block. block ≡ block_of F.zero F.one work.now k) }
{
    let mut items = column_above(alloc, work, k)?;
    items.push(F::one())?;
    push_zeros(&mut items, work.rows() - k - 1)?;
    Ok(ItemList::of(items))
}

// The inverse, with a counter of its own.
fn invert_from<F: Field, L: Ledger>(
    alloc: Global,
    a: &Matrix<F>,
    blank: Blank,
) -> Result<Matrix<F>, InvertRefusal<F>>
    requires name { blank.name ≡ L.name }
    requires parts { blank.parts ≡ L.parts }
    requires some_part { 0 < blank.parts }
    requires square { a.now.columns ≡ length a.now.rows }
    ensures ok { IfOk result (IsInverse F.zero F.one F.add F.mul a.now) }
    ensures regular { OnOk result (OnlyZeroToZero F.is_element F.zero F.add F.mul a.now) }
    ensures refused { IfErr result (IsRefusal F.is_element F.zero F.add F.mul a.now) }
{
    let mut work = beside_identity(alloc, a)?;
    match reduce(&mut work, &mut Steps::<L>::start(blank)) {
        None => {
            let half = right_half(alloc, &work)?;
            Ok(half)
        }
        Some(k) => {
            let block = stuck_block(alloc, &work, k)?;
            Err(InvertRefusal::Singular { block })
        }
    }
}

/// The inverse of a square matrix, from both sides. It is refused exactly where the matrix sends some
/// block that is not all zeros to zero, with such a block, or where there is too little memory.
pub fn invert<F: Field>(alloc: Global, a: &Matrix<F>) -> Result<Matrix<F>, InvertRefusal<F>>
    requires { a.now.columns ≡ length a.now.rows }
    ensures ok { IfOk result (IsInverse F.zero F.one F.add F.mul a.now) }
    ensures regular { OnOk result (OnlyZeroToZero F.is_element F.zero F.add F.mul a.now) }
    ensures refused { IfErr result (IsRefusal F.is_element F.zero F.add F.mul a.now) }
{
    invert_from::<F, Brand>(alloc, a, Blank::new(1))
}
