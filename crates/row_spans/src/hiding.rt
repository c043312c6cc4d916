//! A row that is hidden from the vectors, at a column that isn't marked.
ghost use Rattle.std.specs.Prelude.{◌≡◌, ◌<◌, ◌≤◌, ◌-◌, ◌%◌, ◌++◌, ℕ, true, false, length, set, slice_index_or};
ghost use Rattle.linear_algebra.specs.Elements.{elements_of};
ghost use Rattle.linear_algebra.specs.Matrices.{column};
ghost use Rattle.linear_algebra.specs.Rows.{zero_row};
ghost use Rattle.field_rows.specs.Widths.{rows_in, width_in};

use field_rows::{element_at, put_element};
use gf_tables::FieldKind;

/// The first column that isn't marked.
pub(crate) fn unmarked(marks: &[bool]) -> u32
    requires few { length marks.now ≤ 32 }
    requires some { ¬ ((p : ℕ) → p < length marks.now → slice_index_or marks.now p false ≡ true) }
    ensures within { result < length marks.now }
    ensures unmarked { slice_index_or marks.now result false ≡ false }
{
    for place in 0..marks.len() {
        if !marks[place] {
            return place as u32;
        }
    }
    unreachable!()
}

/// The entries of rows at a column, with one at the column's own row, and zeros behind them.
pub(crate) fn entries_with_one<const W: usize>(
    field: FieldKind,
    rows: &[[u8; W]],
    place: u32,
) -> [u8; 64]
    requires few { length rows.now ≤ 32 }
    requires long { 64 ≤ W }
    requires even { W % 2 ≡ 0 }
    requires place { place < length rows.now }
    ensures { elements_of field result ≡ set (column place (rows_in field rows.now)) place 1
        ++ zero_row (width_in field 64 - length rows.now) }
{
    let mut found = [0; 64];
    for at in 0..rows.len() {
        let entry = element_at(field, &rows[at], place);
        put_element(field, &mut found, at as u32, entry);
    }
    put_element(field, &mut found, place, 1);
    found
}
