//! Rows of elements, as bytes and in memory: a multiple of one added to another, beside the products of elements.
ghost use Rattle.std.specs.Prelude.{◌≡◌};
ghost use Rattle.gf_tables.specs.Product.{width_of};
ghost use Rattle.gf_tables.specs.declared.kind.Width.TheVariants.{One};

use super::counting::{Counted, run_over};
use super::numbered::{element, row};
use counted_steps::Steps;
use field_rows::RowTables;
use field_vectors::{add_scaled, dot, scale};
use gf_tables::{Field, FieldKind, Gf8, Gf9, Gf16, product};
use std::alloc::{AllocError, Global};
use std::sync::ledger::Ledger;

// Bytes from a first one on, each a step above the one before.
fn in_steps(first: u8, step: u8) -> [u8; 1100] {
    let mut bytes = [first; 1100];
    for place in 1..1100 {
        bytes[place] = bytes[place - 1].wrapping_add(step);
    }
    bytes
}

// The number of the sum of an element and a multiple of another, where they are elements of the field.
fn sum(kind: FieldKind, before: u32, by: u32, from: u32) -> Option<u32> {
    let size = match kind {
        FieldKind::Eight => Gf8::SIZE,
        FieldKind::Nine => Gf9::SIZE,
        FieldKind::Sixteen => Gf16::SIZE,
    };
    if by < size && from < size {
        Some(before ^ product(kind, by, from))
    } else {
        None
    }
}

// The first of all bytes that isn't the sum, or, behind so many bytes, isn't as before.
fn wrong_octet(
    kind: FieldKind,
    into: &[u8; 1100],
    before: &[u8; 1100],
    by: u32,
    from: &[u8; 1100],
    octets: usize,
) -> Option<usize> {
    for place in 0..1100 {
        let by = if place < octets { by } else { 0 };
        let (number, times) = (before[place] as u32, from[place] as u32);
        if sum(kind, number, by, times) != Some(into[place] as u32) {
            return Some(place);
        }
    }
    None
}

// The first case in which a sum is wrong: the multiplier, the count and the place.
fn wrong_octets(tables: &RowTables, kind: FieldKind) -> Option<(u32, usize, usize)>
    requires { width_of kind ≡ One }
{
    let from = in_steps(5, 3);
    let before = in_steps(1, 2);
    for by in [0, 1, 2, 0x1D, 0x80, 0xFF] {
        for octets in [0, 1, 63, 64, 65, 128, 200, 1024] {
            let mut into = before;
            tables.add_scaled(kind, &mut into[..octets], by, &from[..octets]);
            if let Some(place) = wrong_octet(kind, &into, &before, by, &from, octets) {
                return Some((by, octets, place));
            }
        }
    }
    None
}

#[test]
fn multiples_of_octets_are_added(rt: HostRuntime) {
    let tables = RowTables::new();
    let eight = wrong_octets(&tables, FieldKind::Eight);
    assert!(rt; eight.is_none() && wrong_octets(&tables, FieldKind::Nine).is_none());
}

// The number of a pair of bytes.
fn pair_at(bytes: &[u8; 1100], pair: usize) -> u32 {
    if pair < 550 {
        256 * bytes[2 * pair] as u32 + bytes[2 * pair + 1] as u32
    } else {
        0
    }
}

// The first of all pairs of bytes that isn't the sum, or, behind so many pairs, isn't as before.
fn wrong_pair(
    into: &[u8; 1100],
    before: &[u8; 1100],
    by: u32,
    from: &[u8; 1100],
    pairs: usize,
) -> Option<usize> {
    for pair in 0..550 {
        let by = if pair < pairs { by } else { 0 };
        let (number, times) = (pair_at(before, pair), pair_at(from, pair));
        if sum(FieldKind::Sixteen, number, by, times) != Some(pair_at(into, pair)) {
            return Some(pair);
        }
    }
    None
}

// The same of pairs of bytes.
fn wrong_pairs(tables: &RowTables) -> Option<(u32, usize, usize)> {
    let from = in_steps(5, 3);
    let before = in_steps(1, 2);
    for by in [0, 1, 2, 0x20, 0x100, 0x1D00, 0x8001, 0xABCD, 0xFFFF] {
        for pairs in [0, 1, 31, 32, 33, 64, 100, 512] {
            let bytes = 2 * pairs;
            let mut into = before;
            tables.add_scaled(FieldKind::Sixteen, &mut into[..bytes], by, &from[..bytes]);
            if let Some(pair) = wrong_pair(&into, &before, by, &from, pairs) {
                return Some((by, pairs, pair));
            }
        }
    }
    None
}

#[test]
fn multiples_of_pairs_are_added(rt: HostRuntime) {
    assert_eq!(rt; wrong_pairs(&RowTables::new()), None);
}

// Two rows of two elements, one behind the other, and a multiplier, all by their numbers.
#[derive(Clone, Copy)]
struct TwoRows {
    rows: [u32; 4],
    by: u32,
}

// Adds a multiple of the second row to the first, and makes the second that multiple. The answer is the product of
// the rows as they were.
fn combine<F: Field, L: Ledger>(rows: &mut [F], by: F, steps: &mut Steps<L>) -> F {
    if rows.len() != 4 {
        return F::zero();
    }
    let (into, from) = rows.split_at_mut(2);
    let product = dot(into, from, steps);
    add_scaled(into, by, from, steps);
    scale(from, by, steps);
    product
}

// The numbers of four elements.
fn four<F: Field>(row: &[F]) -> Option<[u32; 4]> {
    match row {
        [a, b, c, d] => Some([a.number(), b.number(), c.number(), d.number()]),
        _ => None,
    }
}

// The numbers of the product of two rows, and of the rows that are made.
fn combined<F: Field, L: Ledger>(
    rows: &mut [F],
    by: F,
    steps: &mut Steps<L>,
) -> Option<(u32, [u32; 4])> {
    let product = combine(rows, by, steps).number();
    match four(rows) {
        Some(numbers) => Some((product, numbers)),
        None => None,
    }
}

impl Counted for TwoRows {
    type Found = Option<(u32, [u32; 4])>;

    fn run<F: Field, L: Ledger>(self, alloc: Global, mut steps: Steps<L>) -> Self::Found {
        match row::<F>(alloc, &self.rows) {
            Ok(mut rows) => combined(rows.as_mut_slice(), element(self.by), &mut steps),
            Err(_) => None,
        }
    }
}

const OCTETS: TwoRows = TwoRows {
    rows: [2, 3, 0x80, 2],
    by: 2,
};

const PAIRS: TwoRows = TwoRows {
    rows: [3, 2, 0x0100, 1],
    by: 3,
};

#[test]
fn rows_of_both_fields_are_combined(rt: HostRuntime) {
    let octets = run_over::<Gf8, TwoRows>(rt.alloc(), OCTETS);
    let pairs = run_over::<Gf16, TwoRows>(rt.alloc(), PAIRS);
    assert!(rt;
        octets == Some((0x1B, [0x1F, 7, 0x1D, 4]))
            && pairs == Some((0x0302, [0x0303, 1, 0x0300, 3]))
    );
}
