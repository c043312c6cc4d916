//! Rows that were taken in.
ghost use Rattle.std.specs.Prelude.{◌≡◌, ◌<◌, ◌≤◌, ◌-◌, ◌%◌, ◌↔◌, [], ◌∷◌, suc, true, false, length, take, drop, IfOk};
ghost use Rattle.linear_algebra.specs.Elements.{elements_of};
ghost use Rattle.linear_algebra.specs.Rows.{unit_row, zero_row, AreRows, IsRow};
ghost use Rattle.row_spans.specs.Spans.{HaveSameSums, IsHidden, IsSum, vectors};
ghost use Rattle.field_rows.specs.Widths.{width_in};

use crate::hiding::{entries_with_one, unmarked};
use crate::reducing::{keep, lead_of};
use field_rows::RowTables;
use gf_tables::FieldKind;
use std::alloc::{AllocError, Global};
use std::marker::Model;

/// Rows of `W` bytes that were taken in, as far as each raised the rank of the vectors. The vector of a row is its first
/// elements, as many as the rate.
///
/// The kept rows have the same sums as those that raised the rank. Each has a column of its own, where it has one and
/// every other has zero. `W` is even, and at most 4096, since some rows stand on the stack.
#[derive(Drop)]
pub struct RowSpan<const W: usize> {
    field: FieldKind,
    rate: u32,
    rank: u32,
    marks: Vec<bool>,
    rows: Vec<[u8; W]>,
}

impl<const W: usize> Model for RowSpan<W> {
    ghost use Rattle.row_spans.specs.Spans.{Span};

    ghost Value = { Span };

    ghost use Rattle.row_spans.specs.Reduced.{kept, IsHeld};
    ghost use Rattle.field_rows.specs.Widths.{rows_in};

    ghost view = { λ s. record {
      field = s.field;
      rate = s.rate;
      rows = kept s.marks.items (rows_in s.field s.rows.items);
    } };

    ghost invariant = { λ s. IsHeld s.field W s.rate s.rank s.marks.items
        (rows_in s.field s.rows.items) };
}

impl<const W: usize> RowSpan<W> {
    /// No rows, of a field and a rate. Here memory is taken, for each place of a vector a row and a mark; no other call takes any.
    pub fn open(alloc: Global, field: FieldKind, rate: u32) -> Result<RowSpan<W>, AllocError>
        requires low_rate { rate ≤ 32 }
        requires long { 64 ≤ W }
        requires short { W ≤ 4096 }
        requires even { W % 2 ≡ 0 }
        ensures field { IfOk result (λ span. span.field ≡ field) }
        ensures rate { IfOk result (λ span. span.rate ≡ rate) }
        ensures none { IfOk result (λ span. span.rows ≡ []) }
    {
        Ok(RowSpan {
            field,
            rate,
            rank: 0,
            marks: vec![in alloc; false; rate as usize]?,
            rows: vec![in alloc; [0; W]; rate as usize]?,
        })
    }

    /// Forgets all rows.
    pub fn clear(&mut self)
        ensures field { self.new.field ≡ self.old.field }
        ensures rate { self.new.rate ≡ self.old.rate }
        ensures none { self.new.rows ≡ [] }
    {
        self.rank = 0;
        self.marks.fill(false);
        self.rows.fill([0; W]);
    }

    /// Takes a row in, and answers whether it is kept: exactly where its vector isn't a sum of multiples of those of the kept
    /// rows. The work is at most two multiples of a row for each kept one, and one more.
    pub fn take_in(&mut self, tables: &RowTables, row: &[u8; W]) -> bool
        ensures raised { result ≡ true ↔ ¬ IsSum self.old.field self.old.rate
            (vectors self.old.rate self.old.rows)
            (take self.old.rate (elements_of self.old.field row.now)) }
        ensures same { result ≡ false → self.new ≡ self.old }
        ensures sums { result ≡ true → HaveSameSums self.old.field (width_in self.old.field W)
            self.new.rows (elements_of self.old.field row.now ∷ self.old.rows) }
        ensures count { result ≡ true → length self.new.rows ≡ suc (length self.old.rows) }
        ensures field { self.new.field ≡ self.old.field }
        ensures rate { self.new.rate ≡ self.old.rate }
        ensures row { IsRow self.old.field (width_in self.old.field W)
            (elements_of self.old.field row.now) }
        ensures rows { AreRows self.old.field (width_in self.old.field W) self.new.rows }
    {
        match lead_of(
            tables,
            self.field,
            self.rank,
            self.marks.as_slice(),
            self.rows.as_slice(),
            row,
        ) {
            None => false,
            Some(lead) => {
                keep(
                    tables,
                    self.field,
                    &lead,
                    self.marks.as_mut_slice(),
                    self.rows.as_mut_slice(),
                );
                self.rank += 1;
                true
            }
        }
    }

    /// How many rows are kept, at most as many as the rate.
    pub fn rank(&self) -> u32
        ensures value { result ≡ length self.now.rows }
        ensures most { result ≤ self.now.rate }
        ensures low_rate { self.now.rate ≤ 32 }
        ensures rows { AreRows self.now.field (width_in self.now.field W) self.now.rows }
    {
        self.rank
    }

    /// The sum of rows whose vector is a unit vector, with one at place `k`, once as many rows are kept as the rate.
    pub fn row(&self, k: u32) -> &[u8; W]
        requires place { k < self.now.rate }
        requires whole { length self.now.rows ≡ self.now.rate }
        ensures unit { take self.now.rate (elements_of self.now.field result.now)
            ≡ unit_row self.now.rate k }
        ensures sum { IsSum self.now.field (width_in self.now.field W) self.now.rows
            (elements_of self.now.field result.now) }
    {
        &self.rows[k as usize]
    }

    /// A row that isn't zero and gives zero with the vector of each kept row, while fewer are kept than the rate. It has
    /// zeros behind its elements.
    pub fn hidden(&self) -> [u8; 64]
        requires { length self.now.rows < self.now.rate }
        ensures hidden { IsHidden self.now.field self.now.rate
            (vectors self.now.rate self.now.rows)
            (take self.now.rate (elements_of self.now.field result)) }
        ensures behind { drop self.now.rate (elements_of self.now.field result)
            ≡ zero_row (width_in self.now.field 64 - self.now.rate) }
    {
        let column = unmarked(self.marks.as_slice());
        entries_with_one(self.field, self.rows.as_slice(), column)
    }
}
