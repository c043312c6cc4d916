//! Links into a sink that are taken in one by one.
ghost use Rattle.std.specs.Prelude.{◌≡◌, ◌<◌, ◌≤◌, ◌*◌, ◌∷◌, ◌++◌, [], ℕ, List, IfOk, OnOk, length, take};
ghost use Rattle.gf_tables.specs.Product.{bytes_of_element};
ghost use Rattle.linear_algebra.specs.Elements.{elements_of};
ghost use Rattle.linear_algebra.specs.Matrices.{rows_of};
ghost use Rattle.linear_algebra.specs.Rows.{AreElements, IsRow, unit_row};
ghost use Rattle.link_rows.specs.Vectors.{widened};
ghost use Rattle.row_spans.specs.Spans.{IsHidden, vectors};
ghost use Rattle.code_finish.specs.Solved.{AreUnitSums};
ghost use Rattle.code_finish.specs.Taken.{AreTaken, taken_bytes};

use field_rows::{RowTables, element_at, push_elements, put_element};
use gf_tables::FieldKind;
use row_spans::RowSpan;
use std::alloc::{AllocError, Global};

/// The links into a sink that were kept, and the rows that stand of their vectors: behind each the coefficients with which the
/// vectors of the kept links add up to it. A row has 64 elements of the field, in `W` bytes.
#[derive(Drop)]
pub(crate) struct Taken<const W: usize> {
    pub(crate) field: FieldKind,
    pub(crate) rate: u32,
    pub(crate) span: RowSpan<W>,
    pub(crate) links: Vec<u32>,
    ghost span_field: { span.field ≡ field },
    ghost span_rate: { span.rate ≡ rate },
    ghost bytes: { W ≡ taken_bytes field },
    ghost some_rate: { 1 ≤ rate },
    ghost low_rate: { rate ≤ 32 },
}

// The row of a link: the first elements of its vector, and one at a place behind them.
fn row_of<const W: usize>(field: FieldKind, vector: &[u8; 64], place: u32) -> [u8; W]
    requires bytes { W ≡ taken_bytes field }
    requires place { place < 32 }
    ensures { elements_of field result ≡ take 32 (elements_of field vector.now) ++ unit_row 32 place }
{
    let mut row = [0; W];
    let (front, behind) = row.split_at_mut(W / 2);
    front.copy_from_slice(&vector[..W / 2]);
    put_element(field, behind, place, 1);
    row
}

// The elements that the bytes behind a row's vector are.
fn elements_in(field: FieldKind, bytes: &[u8]) -> [u32; 32]
    requires { length bytes.now ≡ bytes_of_element field * 32 }
    ensures elements { AreElements field result }
    ensures value { result ≡ elements_of field bytes.now }
{
    let mut elements = [0; 32];
    for place in 0..32 {
        elements[place] = element_at(field, bytes, place as u32);
    }
    elements
}

impl<const W: usize> Taken<W> {
    /// No links. Here memory is taken for the rows.
    pub(crate) fn open(alloc: Global, field: FieldKind, rate: u32) -> Result<Taken<W>, AllocError>
        requires bytes { W ≡ taken_bytes field }
        requires some_rate { 1 ≤ rate }
        requires low_rate { rate ≤ 32 }
        ensures field { IfOk result (λ taken. taken.field ≡ field) }
        ensures rate { IfOk result (λ taken. taken.rate ≡ rate) }
    {
        Ok(Taken {
            field,
            rate,
            span: RowSpan::open(alloc, field, rate)?,
            links: Vec::with_capacity(alloc, rate as usize)?,
        })
    }

    /// Forgets all links.
    pub(crate) fn clear(&mut self)
        ensures field { self.new.field ≡ self.old.field }
        ensures rate { self.new.rate ≡ self.old.rate }
        ensures rows { self.new.span.rows ≡ [] }
        ensures links { self.new.links.items ≡ [] }
    {
        self.span.clear();
        self.links.clear();
    }

    /// Takes a link in, by its vector: it is kept where that is no sum of multiples of the vectors of those before.
    pub(crate) fn take_in(
        &mut self,
        tables: &RowTables,
        link: u32,
        vector: &[u8; 64],
    ) -> Result<(), AllocError>
        ensures field { self.new.field ≡ self.old.field }
        ensures rate { self.new.rate ≡ self.old.rate }
        ensures taken { OnOk result ((vector_of : ℕ → List ℕ) (earlier : List ℕ)
            → ((e : ℕ) → IsRow self.old.field self.old.rate (vector_of e))
            → elements_of self.old.field vector.now ≡ widened self.old.field (vector_of link)
            → AreTaken self.old.field self.old.rate vector_of earlier self.old.links.items
            self.old.span.rows
            → AreTaken self.old.field self.old.rate vector_of (link ∷ earlier) self.new.links.items
            self.new.span.rows) }
    {
        let kept = self.span.rank();
        let row = row_of(self.field, vector, kept.min(self.rate - 1));
        self.span.take_in(tables, &row);
        if self.span.rank() > kept {
            self.links.push(link)?;
        }
        Ok(())
    }

    /// The coefficients with which the vectors of the kept links add up to the unit vectors, row by row.
    pub(crate) fn entries(&self, alloc: Global) -> Result<Vec<u32>, AllocError>
        requires full { length self.now.span.rows ≡ self.now.rate }
        ensures count { IfOk result
            (λ entries. length entries.items ≡ self.now.rate * self.now.rate) }
        ensures elements { IfOk result (λ entries. AreElements self.now.field entries.items) }
        ensures sums { IfOk result (λ entries. AreUnitSums self.now.field self.now.rate
            self.now.span.rows (rows_of self.now.rate self.now.rate entries.items)) }
    {
        let mut entries = Vec::with_capacity(alloc, self.rate as usize * self.rate as usize)?;
        for k in 0..self.rate {
            let row: &[u8] = self.span.row(k);
            let coefficients = elements_in(self.field, &row[W / 2..]);
            entries.extend_from_slice(&coefficients[..self.rate as usize])?;
        }
        Ok(entries)
    }

    /// A row of elements that isn't zero and gives zero with the vector of each link.
    pub(crate) fn hidden(&self, alloc: Global) -> Result<Vec<u32>, AllocError>
        requires below { length self.now.span.rows < self.now.rate }
        ensures { IfOk result (λ block. IsHidden self.now.field self.now.rate
            (vectors self.now.rate self.now.span.rows) block.items) }
    {
        let row = self.span.hidden();
        let mut block = Vec::with_capacity(alloc, self.rate as usize)?;
        push_elements(&mut block, self.field, &row, self.rate)?;
        Ok(block)
    }
}
