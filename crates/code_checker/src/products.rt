//! A demand's decoder times the vectors of its links.
ghost use Rattle.std.specs.Prelude.{◌≡◌, ◌<◌, ◌≤◌, ℕ, length, slice_get, slice_index, slice_index_or, [], Some, IfNone, IfSome};
ghost use Rattle.linear_algebra.specs.Elements.{elements_of};
ghost use Rattle.linear_algebra.specs.Matrices.{identity};
ghost use Rattle.linear_algebra.specs.Rows.{unit_row};
ghost use Rattle.net_model.specs.Demands.{demand_count, pattern_of_demand, sink_of_demand};
ghost use Rattle.net_model.specs.Limits.{highest_rate};
ghost use Rattle.node_program.specs.Decoding.{IsDecoder};
ghost use Rattle.link_rows.specs.Vectors.{widened};
ghost use Rattle.code_checker.specs.Checking.{demand_product, AreVectorsIn, DiffersAt, DiffersFirst};

use field_rows::{RowTables, element_at, unit_row};
use link_rows::LinkRows;
use node_program::{Code, Decoder, FieldKind};

/// Where the product of a demand differs first from the identity.
#[derive(Clone, Copy)]
pub struct Failure {
    /// The demand.
    pub demand: u32,
    /// The row of the first entry that differs, by rows.
    pub row: u32,
    /// Its column.
    pub column: u32,
    /// The number of the element that stands there.
    pub found: u32,
}

/// The first entry in which the product of a demand differs from the identity, if there is one.
pub fn difference(
    tables: &RowTables,
    code: &Code,
    demand: u32,
    vectors: &LinkRows<64>,
) -> Option<Failure>
    requires demand { demand < demand_count code.now.net }
    requires vectors { AreVectorsIn code.now (pattern_of_demand code.now.net demand) vectors.now }
    ensures none { IfNone result (demand_product code.now demand ≡ identity code.now.rate) }
    ensures some { IfSome result (λ f. (f.demand ≡ demand)
        × DiffersFirst code.now.rate (demand_product code.now demand) f.row f.column f.found) }
{
    for row in 0..code.rate {
        let product = product_row(tables, code, demand, row, vectors);
        if let Some((column, found)) = differing(code.field, code.rate, row, &product) {
            return Some(Failure {
                demand,
                row,
                column,
                found,
            });
        }
    }
    None
}

// A row of the product.
fn product_row(
    tables: &RowTables,
    code: &Code,
    demand: u32,
    row: u32,
    vectors: &LinkRows<64>,
) -> [u8; 64]
    requires demand { demand < demand_count code.now.net }
    requires row { row < code.now.rate }
    requires vectors { AreVectorsIn code.now (pattern_of_demand code.now.net demand) vectors.now }
    ensures { elements_of code.now.field result
        ≡ widened code.now.field (slice_index_or (demand_product code.now demand) row []) }
{
    let rate = code.rate as usize;
    let decoder = decoder_of(code, demand);
    let links = decoder.links.as_slice();
    let start = row as usize * rate;
    let coefficients = &decoder.entries.as_slice()[start..start + rate];
    let mut sum = [0; 64];
    for place in 0..rate {
        let vector = vectors.row(links[place]);
        tables.add_scaled(code.field, &mut sum, coefficients[place], vector);
    }
    sum
}

// The decoder of a demand.
fn decoder_of(code: &Code, demand: u32) -> &Decoder
    requires { demand < demand_count code.now.net }
    ensures value { slice_get code.now.decoders demand ≡ Some result.now }
    ensures shape { IsDecoder code.now.net code.now.rate code.now.field
        (sink_of_demand code.now.net demand) result.now }
{
    code.decoders.at(demand as usize)
}

// The first column in which a row of a product differs from that row of the identity, and the element there.
fn differing(field: FieldKind, rate: u32, row: u32, product: &[u8; 64]) -> Option<(u32, u32)>
    requires row { row < rate }
    requires rate { rate ≤ highest_rate }
    ensures none { IfNone result ((j : ℕ) → j < rate
        → slice_index (elements_of field product.now) j ≡ slice_index (unit_row rate row) j) }
    ensures some { IfSome result
        (λ entry. DiffersAt rate row (elements_of field product.now) entry.0 entry.1) }
{
    let unit: [u8; 64] = unit_row(field, row);
    if *product == unit {
        return None;
    }
    for column in 0..rate {
        let found = element_at(field, product, column);
        let expected = element_at(field, &unit, column);
        if found != expected {
            return Some((column, found));
        }
    }
    None
}
