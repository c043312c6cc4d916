//! What a matrix makes of the rows that are held for the live links of a decoder.
ghost use Rattle.std.specs.Prelude.{◌≡◌, ◌≤◌, ◌*◌, false, not, ◌||◌, length, slice_index_or};
ghost use Rattle.std.specs.List.{concat, list_all, range_with_len};
ghost use Rattle.coded_traffic.specs.CodeBlocks.{row_width};
ghost use Rattle.generation_frame.specs.Blocks.{most_rows, row_bytes};
ghost use Rattle.held_rows.specs.Held.{is_whole, row_count};
ghost use Rattle.linear_algebra.specs.Elements.{elements_of};
ghost use Rattle.linear_algebra.specs.Matrices.{matrix_times};
ghost use Rattle.linear_algebra.specs.Rows.{AreElements, combination};
ghost use Rattle.sink_decoder.specs.Sums.{values_held};

use field_rows::RowTables;
use generation_frame::ROW;
use gf_tables::FieldKind;
use held_rows::HeldRows;

// Whether all pieces of the live links' rows have come.
pub(crate) fn are_whole(live: &[bool], held: &HeldRows) -> bool
    requires few_links { length live.now ≤ most_rows }
    requires rows { length live.now ≤ row_count held.now }
    ensures { result
        ≡ list_all (λ place. not (slice_index_or live.now place false) || is_whole held.now place)
        (range_with_len 0 (length live.now)) }
{
    for (place, is_live) in live.iter().enumerate() {
        if *is_live && !held.is_whole(place as u32) {
            return false;
        }
    }
    true
}

// Makes a row the sum of the rows held for live links, each times its coefficient.
pub(crate) fn sum_rows(
    tables: &RowTables,
    field: FieldKind,
    coefficients: &[u32],
    live: &[bool],
    held: &HeldRows,
    into: &mut [u8],
)
    requires width { length into.old ≡ row_bytes }
    requires count { length coefficients.now ≡ length live.now }
    requires elements { AreElements field coefficients.now }
    requires few_links { length live.now ≤ most_rows }
    requires rows { length live.now ≤ row_count held.now }
    ensures width { length into.new ≡ row_bytes }
    ensures sum { elements_of field into.new
        ≡ combination field (row_width field) coefficients.now
        (values_held field live.now held.now) }
{
    into.fill(0);
    for (place, is_live) in live.iter().enumerate() {
        if *is_live {
            tables.add_scaled(field, into, coefficients[place], held.row(place as u32));
        }
    }
}

// Writes the rows that a square matrix makes of those held for links, zeros for those that aren't live.
pub(crate) fn decode_rows(
    tables: &RowTables,
    field: FieldKind,
    entries: &[u32],
    live: &[bool],
    held: &HeldRows,
    into: &mut [u8],
)
    requires few_links { length live.now ≤ most_rows }
    requires rows { length live.now ≤ row_count held.now }
    requires square { length entries.now ≡ length live.now * length live.now }
    requires elements { AreElements field entries.now }
    requires room { length into.old ≡ length live.now * row_bytes }
    ensures count { length into.new ≡ length into.old }
    ensures value { elements_of field into.new
        ≡ concat (matrix_times field (row_width field) (length live.now) entries.now
        (values_held field live.now held.now)) }
{
    let rate = live.len();
    for i in 0..rate {
        let coefficients = &entries[i * rate..i * rate + rate];
        let row = &mut into[i * ROW..i * ROW + ROW];
        sum_rows(tables, field, coefficients, live, held, row);
    }
}
