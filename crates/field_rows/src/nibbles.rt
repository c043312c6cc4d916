//! Products with one fixed element, by tables of half a byte each.
ghost use Rattle.std.specs.Prelude.{◌≡◌, ◌≤◌, ◌<◌, ℕ, bit_xor, length, map};
ghost use Rattle.std.specs.Simd.Lanes.{zip2};
ghost use Rattle.field_rows.specs.Halves.{by_lane};
ghost use Rattle.field_rows.specs.Nibbles.{AreProducts};
ghost use Rattle.gf_tables.specs.Product.{octet_product};

use crate::lanes::{LaneTables, add_at, twice_each};
use gf_tables::{Field, Generates, Octet};
use std::marker::Model;
use std::simd::prelude::*;

/// The products of one element with the bytes below 16, and with their multiples of 16. Any byte is
/// the sum of one of each.
#[derive(Drop)]
pub(crate) struct NibbleTables<T: Generates> {
    multiplier: Octet<T>,
    low: [u8; 16],
    high: [u8; 16],
}

impl<T: Generates> Model for NibbleTables<T> {
    ghost Value = { ℕ };

    ghost view = { λ t. t.multiplier };

    ghost invariant = { λ t. AreProducts T.POLY t.multiplier 1 t.low
        × AreProducts T.POLY t.multiplier 16 t.high };
}

impl<T: Generates> NibbleTables<T> {
    /// The tables of an element.
    pub(crate) fn new(multiplier: Octet<T>) -> Self
        ensures { result ≡ multiplier }
    {
        NibbleTables {
            multiplier,
            low: products(multiplier, 1),
            high: products(multiplier, 16),
        }
    }

    /// The product of the element with a byte.
    pub(crate) fn times(&self, byte: u8) -> u8
        ensures { result ≡ octet_product T.POLY self.now byte }
    {
        self.low[(byte & 15) as usize] ^ self.high[(byte >> 4) as usize]
    }

    /// The tables for the lower half of the lanes, and those of another element for the upper half.
    #[inline(always)]
    pub(crate) fn lanes(&self, upper: &Self) -> LaneTables
        ensures lower { (i byte : ℕ) → i < 32 → byte < 256
            → by_lane result.low result.high i byte ≡ octet_product T.POLY self.now byte }
        ensures upper { (i byte : ℕ) → 32 ≤ i → i < 64 → byte < 256
            → by_lane result.low result.high i byte ≡ octet_product T.POLY upper.now byte }
    {
        LaneTables {
            low: twice_each(&self.low, &upper.low),
            high: twice_each(&self.high, &upper.high),
        }
    }

    /// Adds to each byte of `into` the product of the element with the byte of `from` at its place.
    pub(crate) fn add_scaled(&self, into: &mut [u8], from: &[u8])
        requires { length into.old ≡ length from.now }
        ensures { into.new ≡ zip2 bit_xor into.old (map (octet_product T.POLY self.now) from.now) }
    {
        let tables = self.lanes(self);
        let mut at = 0;
        while from.len() - at >= 64 {
            add_at(into, at, tables.look_up(u8x64::from_slice(&from[at..])));
            at += 64;
        }
        for place in at..from.len() {
            into[place] ^= self.times(from[place]);
        }
    }
}

// The products of an element with 16 multiples of `step`, from 0.
fn products<T: Generates>(multiplier: Octet<T>, step: u8) -> [u8; 16]
    requires { step ≤ 16 }
    ensures { AreProducts T.POLY multiplier step result }
{
    let mut table = [0; 16];
    for nibble in 0..16 {
        let multiple = Octet::of_number(nibble as u32 * step as u32);
        table[nibble] = multiplier.mul(multiple).number() as u8;
    }
    table
}
