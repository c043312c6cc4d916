//! Decoders whose matrices are multiplied from the left.
ghost use Rattle.std.specs.Prelude.{◌≡◌, ◌<◌, ◌≤◌, ◌*◌, [], ℕ, IfOk, false, length, map, slice_index_or, true};
ghost use Rattle.std.specs.List.{concat};
ghost use Rattle.linear_algebra.specs.Elements.{elements_of};
ghost use Rattle.linear_algebra.specs.Matrices.{rows_of, times_rows};
ghost use Rattle.linear_algebra.specs.Rows.{AreElements};
ghost use Rattle.link_rows.specs.LinkRows.{row_sum};
ghost use Rattle.link_rows.specs.Vectors.{wide_width, widened};
ghost use Rattle.net_model.specs.Limits.{highest_rate};
ghost use Rattle.net_model.specs.Walks.{leaves_source};
ghost use Rattle.two_sources.specs.Separated.{HasFirstLinks, first_vectors, separated_decoder};

use field_rows::{RowTables, push_elements, put_element};
use gf_tables::FieldKind;
use net_model::LinkList;
use node_program::{Code, Decoder, DecoderTable, Entries, operands_of};
use std::alloc::{AllocError, Global};

// A row of 64 bytes with these elements, and zeros behind them.
fn row_of(field: FieldKind, elements: &[u32]) -> [u8; 64]
    requires count { length elements.now ≤ wide_width field }
    requires elements { AreElements field elements.now }
    ensures { elements_of field result ≡ widened field elements.now }
{
    let mut row = [0; 64];
    for place in 0..elements.len() {
        put_element(field, &mut row, place as u32, elements[place]);
    }
    row
}

// The rows of a square matrix.
fn matrix_rows(field: FieldKind, rate: usize, entries: &[u32]) -> [[u8; 64]; 32]
    requires rate { rate ≤ highest_rate }
    requires count { length entries.now ≡ rate * rate }
    requires elements { AreElements field entries.now }
    ensures { (row : ℕ) → row < rate → elements_of field (slice_index_or result row [])
        ≡ widened field (slice_index_or (rows_of rate rate entries.now) row []) }
{
    let mut rows = [[0; 64]; 32];
    for row in 0..rate {
        rows[row] = row_of(field, &entries[row * rate..row * rate + rate]);
    }
    rows
}

// What a link out of the source carries of rows, where no link fails.
fn carried(tables: &RowTables, code: &Code, link: u32, rows: &[[u8; 64]]) -> [u8; 64]
    requires link { leaves_source code.now.net link ≡ true }
    requires rows { code.now.rate ≤ length rows.now }
    ensures { elements_of code.now.field result
        ≡ row_sum code.now.net code.now.field code.now.operands (wide_width code.now.field)
        false rows.now [] link }
{
    let mut sum = [0; 64];
    for operand in operands_of(code, link) {
        let row = &rows[operand.from as usize];
        tables.add_scaled(code.field, &mut sum, operand.times, row);
    }
    sum
}

// A decoder's matrix, multiplied from the left by the vectors of the first links: its rows are what
// these carry of its rows.
fn separated_entries(
    alloc: Global,
    tables: &RowTables,
    code: &Code,
    entries: &[u32],
) -> Result<Entries, AllocError>
    requires first { HasFirstLinks code.now.net code.now.rate }
    requires count { length entries.now ≡ code.now.rate * code.now.rate }
    requires elements { AreElements code.now.field entries.now }
    ensures { IfOk result (λ product. product
        ≡ concat (times_rows code.now.field code.now.rate (first_vectors code.now)
        (rows_of code.now.rate code.now.rate entries.now))) }
{
    let rows = matrix_rows(code.field, code.rate as usize, entries);
    let mut product = Vec::with_capacity(alloc, entries.len())?;
    for link in 0..code.rate {
        let row = carried(tables, code, link, &rows);
        push_elements(&mut product, code.field, &row, code.rate)?;
    }
    Ok(Entries::of(product))
}

/// The decoders of a code, each with its matrix multiplied so. For each row of a matrix, as many
/// products of a row of 64 bytes are added up as the first link of its place has operands.
pub(crate) fn separated_decoders(alloc: Global, code: &Code) -> Result<DecoderTable, AllocError>
    requires { HasFirstLinks code.now.net code.now.rate }
    ensures { IfOk result (λ decoders. decoders
        ≡ map (separated_decoder code.now) code.now.decoders) }
{
    let tables = RowTables::new();
    let mut decoders = Vec::with_capacity(alloc, code.decoders.len())?;
    for decoder in code.decoders.as_slice() {
        decoders.push(Decoder {
            links: LinkList::of(decoder.links.as_slice().to_vec(alloc)?),
            entries: separated_entries(alloc, &tables, code, decoder.entries.as_slice())?,
        })?;
    }
    Ok(DecoderTable::of(decoders))
}
