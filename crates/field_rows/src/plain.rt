//! Sums of rows of bytes.
ghost use Rattle.std.specs.Prelude.{◌≡◌, bit_xor, length};
ghost use Rattle.std.specs.Simd.Lanes.{zip2};

use crate::lanes::add_at;
use std::simd::prelude::*;

/// Adds to each byte of `into` the byte of `from` at its place.
pub(crate) fn add_row(into: &mut [u8], from: &[u8])
    requires { length into.old ≡ length from.now }
    ensures { into.new ≡ zip2 bit_xor into.old from.now }
{
    let mut at = 0;
    while from.len() - at >= 64 {
        add_at(into, at, u8x64::from_slice(&from[at..]));
        at += 64;
    }
    for place in at..from.len() {
        into[place] ^= from[place];
    }
}
