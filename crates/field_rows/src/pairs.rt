//! Products with one element of the field of pairs of octets, by the tables of octets.
ghost use Rattle.std.specs.Prelude.{◌≡◌, ◌%◌, bit_xor, length};
ghost use Rattle.field_rows.specs.Added.{IsAddedBelow};
ghost use Rattle.field_rows.specs.PairSums.{times, pair_sum_of};
ghost use Rattle.gf_tables.specs.Product.{pair_constant};

use crate::lanes::{add_at, crossed, joined, parted};
use crate::nibbles::NibbleTables;
use gf_tables::Poly11D;

/// The tables of the octets with which the octets of an element are multiplied.
#[derive(Drop)]
pub(crate) struct PairTables<'a> {
    /// Those of the element's low octet.
    pub(crate) low: &'a NibbleTables<Poly11D>,
    /// Those of its high octet.
    pub(crate) high: &'a NibbleTables<Poly11D>,
    /// Those of the sum of the two.
    pub(crate) both: &'a NibbleTables<Poly11D>,
    /// Those of the constant times the high octet.
    pub(crate) wrapped: &'a NibbleTables<Poly11D>,
    ghost sum: { both.now ≡ bit_xor low.now high.now },
    ghost product: { wrapped.now ≡ times pair_constant high.now },
}

impl PairTables<'_> {
    /// Adds to each two bytes of `into` the product of the element with the two of `from` at their
    /// place.
    pub(crate) fn add_scaled(&self, into: &mut [u8], from: &[u8])
        requires same_length { length into.old ≡ length from.now }
        requires whole { length from.now % 2 ≡ 0 }
        ensures { IsAddedBelow (pair_sum_of self.now.low.now self.now.high.now from.now)
            (length from.now) into.old into.new }
    {
        let straight = self.both.lanes(self.low);
        let crosswise = self.high.lanes(self.wrapped);
        let mut at = 0;
        while from.len() - at >= 64 {
            let bytes = parted(from, at);
            let products = straight.look_up(bytes) ^ crosswise.look_up(crossed(bytes));
            add_at(into, at, joined(products));
            at += 64;
        }
        while at < from.len() {
            let (high, low) = (from[at], from[at + 1]);
            into[at] ^= self.both.times(high) ^ self.high.times(low);
            into[at + 1] ^= self.low.times(low) ^ self.wrapped.times(high);
            at += 2;
        }
    }
}
