//! Sums of rows of all fields.
ghost use Rattle.std.specs.Prelude.{◌≡◌, ◌<◌, ◌/◌, ◌%◌, ℕ, length, slice_index_or};
ghost use Rattle.field_rows.specs.Bytes.{elements_of};
ghost use Rattle.gf_tables.specs.Product.{bytes_of_element, size_of};
ghost use Rattle.linear_algebra.specs.Rows.{add_rows, scale_row};

use crate::nibbles::NibbleTables;
use crate::pairs::PairTables;
use crate::plain::add_row;
use gf_tables::{Field, FieldKind, Generates, Octet, Poly11B, Poly11D};
use std::array::from_fn;

// The constant of the field of pairs, in which y*y = y + C.
const PAIR_CONSTANT: u8 = 0x20;

// The tables of the products with each octet, modulo the polynomial of `T`.
#[derive(Drop)]
struct OctetTables<T: Generates> {
    tables: [NibbleTables<T>; 256],
    ghost each_its_own: { (octet none : ℕ) → octet < 256
        → slice_index_or tables octet none ≡ octet },
}

impl<T: Generates> OctetTables<T> {
    fn new() -> Self {
        OctetTables {
            tables: from_fn(
                |octet: usize| -> NibbleTables<T>
                    requires { octet < 256 }
                    ensures { result ≡ octet }
                { NibbleTables::new(Octet::of_number(octet as u32)) },
            ),
        }
    }

    // The tables of an octet.
    fn of_octet(&self, octet: u8) -> &NibbleTables<T>
        ensures { result.now ≡ octet }
    {
        &self.tables[octet as usize]
    }
}

/// The tables of the products with each octet of both fields of octets. By them a row of elements of any field
/// is multiplied with any element.
#[derive(Drop)]
pub struct RowTables {
    octets: OctetTables<Poly11D>,
    aes_octets: OctetTables<Poly11B>,
}

impl RowTables {
    /// The tables of all octets. They take no memory but the value's own, about 16 KiB.
    pub fn new() -> RowTables {
        RowTables {
            octets: OctetTables::new(),
            aes_octets: OctetTables::new(),
        }
    }

    // The tables for products with the pair of octets that a number stands for.
    fn of_pair(&self, by: u32) -> PairTables<'_>
        requires { by < 65536 }
        ensures low { result.low.now ≡ by % 256 }
        ensures high { result.high.now ≡ by / 256 }
    {
        let low = (by & 255) as u8;
        let high = (by >> 8) as u8;
        let octets = &self.octets;
        PairTables {
            low: octets.of_octet(low),
            high: octets.of_octet(high),
            both: octets.of_octet(low ^ high),
            wrapped: octets.of_octet(octets.of_octet(PAIR_CONSTANT).times(high)),
        }
    }

    /// Adds to each element of a row `by` times the element of another row at its place. Zero times another row, and one
    /// time, take no products.
    pub fn add_scaled(&self, field: FieldKind, into: &mut [u8], by: u32, from: &[u8])
        requires same_length { length into.old ≡ length from.now }
        requires whole { length from.now % bytes_of_element field ≡ 0 }
        requires element { by < size_of field }
        ensures count { length into.new ≡ length into.old }
        ensures sum { elements_of field into.new
            ≡ add_rows (elements_of field into.old)
            (scale_row field by (elements_of field from.now)) }
    {
        if by == 0 {
            return;
        }
        if by == 1 {
            add_row(into, from);
            return;
        }
        match field {
            FieldKind::Eight => self.octets.of_octet(by as u8).add_scaled(into, from),
            FieldKind::Nine => self.aes_octets.of_octet(by as u8).add_scaled(into, from),
            FieldKind::Sixteen => self.of_pair(by).add_scaled(into, from),
        }
    }
}
