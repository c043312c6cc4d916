//! A row that comes is cleared by the rows that are kept, and clears them.
ghost use Rattle.std.specs.Prelude.{◌≡◌, ◌≢◌, ◌<◌, ◌≤◌, ◌%◌, length, set, slice_index, take, true, IfNone, IfSome};
ghost use Rattle.gf_tables.specs.Product.{bytes_of_element, size_of};
ghost use Rattle.linear_algebra.specs.Elements.{elements_of};
ghost use Rattle.linear_algebra.specs.Rows.{scale_row, zero_row, IsRow};
ghost use Rattle.row_spans.specs.Reduced.{cleared, cleared_by, kept, with_lead, AreReduced, IsNewLead};
ghost use Rattle.row_spans.specs.Spans.{IsSum, vectors};
ghost use Rattle.field_rows.specs.Widths.{rows_in, width_in};

use crate::inverses::inverse;
use field_rows::{RowTables, element_at};
use gf_tables::FieldKind;

/// A row that leads at a column.
#[derive(Drop)]
pub(crate) struct Lead<const W: usize> {
    pub(crate) column: u32,
    pub(crate) row: [u8; W],
}

/// What a row leads with, once it is cleared and divided, if its vector isn't a sum of the vectors, of which there are `rank`.
pub(crate) fn lead_of<const W: usize>(
    tables: &RowTables,
    field: FieldKind,
    rank: u32,
    marks: &[bool],
    rows: &[[u8; W]],
    row: &[u8],
) -> Option<Lead<W>>
    requires length { length row.now ≡ W }
    requires even { W % 2 ≡ 0 }
    requires few { length marks.now ≤ 32 }
    requires reduced { AreReduced field (width_in field W) (length marks.now) marks.now
        (rows_in field rows.now) }
    requires rank { rank ≡ length (kept marks.now (rows_in field rows.now)) }
    ensures row { IsRow field (width_in field W) (elements_of field row.now) }
    ensures none { IfNone result (IsSum field (length marks.now)
        (vectors (length marks.now) (rows_in field rows.now))
        (take (length marks.now) (elements_of field row.now))) }
    ensures some { IfSome result (λ lead. IsNewLead field (width_in field W) (length marks.now)
        marks.now (rows_in field rows.now) (elements_of field row.now) lead.column
        (elements_of field lead.row)) }
{
    // Where every column has a row, each vector is a sum of multiples of those of the rows.
    if rank == marks.len() as u32 {
        return None;
    }
    let left = cleared(tables, field, marks, rows, row);
    match first_column(field, marks.len() as u32, &left) {
        None => None,
        Some(column) => {
            let by = inverse(field, element_at(field, &left, column));
            let row = scaled(tables, field, &left, by);
            Some(Lead { column, row })
        }
    }
}

/// Keeps a row that leads, and makes the others zero at its column.
pub(crate) fn keep<const W: usize>(
    tables: &RowTables,
    field: FieldKind,
    lead: &Lead<W>,
    marks: &mut [bool],
    rows: &mut [[u8; W]],
)
    requires even { W % 2 ≡ 0 }
    requires column { lead.now.column < width_in field W }
    requires marks { lead.now.column < length marks.old }
    requires rows { lead.now.column < length rows.old }
    ensures marks { marks.new ≡ set marks.old lead.now.column true }
    ensures rows { rows_in field rows.new ≡ with_lead field lead.now.column
        (elements_of field lead.now.row) (rows_in field rows.old) }
{
    clear_rows(tables, field, lead.column, rows, &lead.row);
    let at = lead.column as usize;
    rows[at] = lead.row;
    marks[at] = true;
}

// A row, made zero at the marked columns.
fn cleared<const W: usize>(
    tables: &RowTables,
    field: FieldKind,
    marks: &[bool],
    rows: &[[u8; W]],
    row: &[u8],
) -> [u8; W]
    requires length { length row.now ≡ W }
    requires even { W % 2 ≡ 0 }
    requires reduced { AreReduced field (width_in field W) (length marks.now) marks.now
        (rows_in field rows.now) }
    ensures row { IsRow field (width_in field W) (elements_of field row.now) }
    ensures value { elements_of field result
        ≡ cleared field (width_in field W) (length marks.now) (rows_in field rows.now)
        (elements_of field row.now) }
{
    let mut left = [0; W];
    left.copy_from_slice(row);
    for place in 0..marks.len() {
        if marks[place] {
            let by = element_at(field, row, place as u32);
            tables.add_scaled(field, &mut left, by, &rows[place]);
        }
    }
    left
}

// The first of so many columns at which a row isn't zero.
fn first_column(field: FieldKind, rate: u32, row: &[u8]) -> Option<u32>
    requires whole { length row.now % bytes_of_element field ≡ 0 }
    requires rate { rate ≤ width_in field (length row.now) }
    ensures none { IfNone result (take rate (elements_of field row.now) ≡ zero_row rate) }
    ensures some { IfSome result
        (λ column. (column < rate) × (slice_index (elements_of field row.now) column ≢ 0)) }
{
    for column in 0..rate {
        if element_at(field, row, column) != 0 {
            return Some(column);
        }
    }
    None
}

// A multiple of a row.
fn scaled<const W: usize>(tables: &RowTables, field: FieldKind, row: &[u8; W], by: u32) -> [u8; W]
    requires even { W % 2 ≡ 0 }
    requires element { by < size_of field }
    ensures { elements_of field result ≡ scale_row field by (elements_of field row.now) }
{
    let mut multiple = [0; W];
    tables.add_scaled(field, &mut multiple, by, row);
    multiple
}

// Makes rows zero at a column, by the row that leads there.
fn clear_rows<const W: usize>(
    tables: &RowTables,
    field: FieldKind,
    column: u32,
    rows: &mut [[u8; W]],
    lead: &[u8; W],
)
    requires even { W % 2 ≡ 0 }
    requires column { column < width_in field W }
    ensures { rows_in field rows.new
        ≡ cleared_by field column (elements_of field lead.now) (rows_in field rows.old) }
{
    for row in rows.iter_mut() {
        let by = element_at(field, row, column);
        if by != 0 {
            tables.add_scaled(field, row, by, lead);
        }
    }
}
