//! Matrices of elements.
ghost use Rattle.std.specs.Prelude.{◌≡◌, ◌≢◌, ◌<◌, length, All, IfOk, slice_set};
ghost use Rattle.counted_steps.specs.Steps.{RoseBy};
ghost use Rattle.field_vectors.specs.Elements.{plus_multiple, multiple_of};
ghost use Rattle.field_vectors.specs.Grid.{row_of, entry_of, with_row, grid_of, AreMatrices, IsMatrix};

use crate::parts::{add_part, copy_to_part, part, place_of, scale_part, zeros};
use counted_steps::Steps;
use gf_tables::Field;
use std::alloc::{AllocError, Global};
use std::marker::Model;
use std::sync::ledger::Ledger;

/// A matrix of elements, which a contract sees as its rows and how many columns it has.
#[derive(Drop)]
pub struct Matrix<F: Field> {
    entries: Vec<F>,
    row_count: u32,
    column_count: u32,
}

impl<F: Field> Model for Matrix<F> {
    ghost use Rattle.field_vectors.specs.Grid.{Grid};
    ghost use Rattle.field_vectors.specs.Cut.{grid_in, AreEntries};

    ghost Value = { Grid F };

    ghost view = { λ m. grid_in m.row_count m.column_count m.entries.items };

    ghost invariant = { λ m. AreEntries F.is_element m.row_count m.column_count m.entries.items };
}

impl<F: Field> Matrix<F> {
    /// The matrix of so many rows and columns whose entries are all zero.
    pub fn zeros(alloc: Global, rows: u32, columns: u32) -> Result<Self, AllocError>
        ensures value { IfOk result (λ m. m ≡ grid_of rows columns F.zero) }
        ensures kept { IfOk result (IsMatrix F.is_element) }
    {
        let entries = zeros(alloc, place_of(rows, 0, columns))?;
        Ok(Matrix {
            entries,
            row_count: rows,
            column_count: columns,
        })
    }

    /// How many rows there are.
    pub fn rows(&self) -> u32
        ensures value { result ≡ length self.now.rows }
        ensures kept { IsMatrix F.is_element self.now }
    {
        self.row_count
    }

    /// How many columns there are.
    pub fn columns(&self) -> u32
        ensures value { result ≡ self.now.columns }
        ensures kept { IsMatrix F.is_element self.now }
    {
        self.column_count
    }

    /// The same matrix, in memory of its own.
    pub fn copy(&self, alloc: Global) -> Result<Self, AllocError>
        ensures { IfOk result (λ m. m ≡ self.now) }
    {
        let entries = Vec::from_slice(alloc, self.entries.as_slice())?;
        Ok(Matrix {
            entries,
            row_count: self.row_count,
            column_count: self.column_count,
        })
    }

    /// Row `i`, counted from 0.
    pub fn row(&self, i: u32) -> &[F]
        requires { i < length self.now.rows }
        ensures elements { All F.is_element result.now }
        ensures width { length result.now ≡ self.now.columns }
        ensures value { result.now ≡ row_of self.now i }
        ensures kept { IsMatrix F.is_element self.now }
    {
        let columns = self.column_count;
        let start = place_of(i, 0, columns);
        let end = place_of(i, columns, columns);
        part(self.entries.as_slice(), start, end)
    }

    /// The entry in row `i` and column `j`, both counted from 0.
    pub fn at(&self, i: u32, j: u32) -> F
        requires row { i < length self.now.rows }
        requires column { j < self.now.columns }
        ensures element { F.is_element result }
        ensures value { result ≡ entry_of F.zero self.now i j }
        ensures kept { IsMatrix F.is_element self.now }
    {
        self.entries[place_of(i, j, self.column_count)]
    }

    /// Makes `value` the entry in row `i` and column `j`. All others stay.
    pub fn set(&mut self, i: u32, j: u32, value: F)
        requires row { i < length self.old.rows }
        requires column { j < self.old.columns }
        ensures value { self.new ≡ with_row self.old i (slice_set (row_of self.old i) j value) }
        ensures kept { AreMatrices F.is_element self.old self.new }
    {
        let _number = value.number();
        let place = place_of(i, j, self.column_count);
        self.entries[place] = value;
    }

    /// Makes the elements of `from` row `i`. All other rows stay.
    pub fn put_row(&mut self, i: u32, from: &[F])
        requires row { i < length self.old.rows }
        requires width { length from.now ≡ self.old.columns }
        ensures value { self.new ≡ with_row self.old i from.now }
        ensures kept { AreMatrices F.is_element self.old self.new }
    {
        let columns = self.column_count;
        let start = place_of(i, 0, columns);
        let end = place_of(i, columns, columns);
        copy_to_part(self.entries.as_mut_slice(), start, end, from);
    }

    /// Multiplies row `i` by `by`. All other rows stay. It counts a step for each column.
    pub fn scale_row<L: Ledger>(&mut self, i: u32, by: F, steps: &mut Steps<L>)
        requires { i < length self.old.rows }
        ensures value { self.new ≡ with_row self.old i (multiple_of F.mul by (row_of self.old i)) }
        ensures kept { AreMatrices F.is_element self.old self.new }
        ensures ticks { RoseBy self.old.columns steps.old steps.new }
    {
        let _number = by.number();
        let columns = self.column_count;
        let start = place_of(i, 0, columns);
        let end = place_of(i, columns, columns);
        scale_part(self.entries.as_mut_slice(), start, end, by, steps);
    }

    /// Adds `by` times row `j` to row `i`. All other rows stay. It counts a step for each column.
    pub fn add_row<L: Ledger>(&mut self, i: u32, by: F, j: u32, steps: &mut Steps<L>)
        requires into { i < length self.old.rows }
        requires from { j < length self.old.rows }
        requires apart { i ≢ j }
        ensures value { self.new ≡ with_row self.old i
            (plus_multiple F.add F.mul (row_of self.old i) by (row_of self.old j)) }
        ensures kept { AreMatrices F.is_element self.old self.new }
        ensures ticks { RoseBy self.old.columns steps.old steps.new }
    {
        let _number = by.number();
        let columns = self.column_count;
        let start = place_of(i, 0, columns);
        let end = place_of(i, columns, columns);
        let from = place_of(j, 0, columns);
        let from_end = place_of(j, columns, columns);
        add_part(
            self.entries.as_mut_slice(),
            start,
            end,
            by,
            from,
            from_end,
            steps,
        );
    }
}
