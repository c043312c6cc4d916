//! Look-ups in tables of 16, for 64 bytes at a time.
ghost use Rattle.std.specs.Prelude.{◌≡◌, ◌≤◌, ◌<◌, ◌+◌, ◌%◌, ℕ, bit_xor, length, slice_index};
ghost use Rattle.std.specs.Simd.Lanes.{zip2, chunk, put_chunk};
ghost use Rattle.field_rows.specs.Halves.{RepeatsInHalves, by_lane};
ghost use Rattle.field_rows.specs.Parted.{place_of_lane, lane_of_place};

use std::simd::prelude::*;

/// Two tables for the lower half of the lanes and two for the upper half, each of them in each block
/// of 16 lanes there. Two together give for a byte the sum of what they have at its low and at its
/// high half.
#[derive(Drop)]
pub(crate) struct LaneTables {
    pub(crate) low: u8x64,
    pub(crate) high: u8x64,
    ghost low_repeats: { RepeatsInHalves low },
    ghost high_repeats: { RepeatsInHalves high },
}

impl LaneTables {
    /// What the tables give for each lane.
    #[inline(always)]
    pub(crate) fn look_up(&self, bytes: u8x64) -> u8x64
        ensures count { length result ≡ 64 }
        ensures lanes { (i : ℕ) → i < 64
            → slice_index result i ≡ by_lane self.now.low self.now.high i (slice_index bytes i) }
    {
        self.low.swizzle_dyn_within::<16>(bytes & u8x64::splat(15))
            ^ self.high.swizzle_dyn_within::<16>(bytes >> u8x64::splat(4))
    }
}

/// Adds the lanes to the bytes from `at` on.
#[inline(always)]
pub(crate) fn add_at(into: &mut [u8], at: usize, lanes: u8x64)
    requires { at + 64 ≤ length into.old }
    ensures { into.new ≡ put_chunk at into.old (zip2 bit_xor (chunk at 64 into.old) lanes) }
{
    let sum = u8x64::from_slice(&into[at..]) ^ lanes;
    sum.copy_to_slice(&mut into[at..]);
}

/// A table in each block of the lower half of the lanes, and another in each of the upper half.
#[inline(always)]
pub(crate) fn twice_each(lower: &[u8; 16], upper: &[u8; 16]) -> u8x64
    ensures repeats { RepeatsInHalves result }
    ensures lower { (k : ℕ) → k < 16 → slice_index result k ≡ slice_index lower.now k }
    ensures upper { (k : ℕ) → k < 16 → slice_index result (32 + k) ≡ slice_index upper.now k }
{
    u8x16::from_slice(lower).shuffle(
        u8x16::from_slice(upper),
        [
            0, 1, 2, 3, 4, 5, 6, 7, 8, 9, 10, 11, 12, 13, 14, 15, 0, 1, 2, 3, 4, 5, 6, 7, 8, 9, 10,
            11, 12, 13, 14, 15, 16, 17, 18, 19, 20, 21, 22, 23, 24, 25, 26, 27, 28, 29, 30, 31, 16,
            17, 18, 19, 20, 21, 22, 23, 24, 25, 26, 27, 28, 29, 30, 31,
        ],
    )
}

/// The bytes from `at` on: in the lower half of the lanes those at the even places, and in the upper
/// half those at the odd ones.
#[inline(always)]
pub(crate) fn parted(from: &[u8], at: usize) -> u8x64
    requires { at + 64 ≤ length from.now }
    ensures { (i : ℕ) → i < 64
        → slice_index result i ≡ slice_index from.now (at + place_of_lane i) }
{
    u8x64::from_slice(&from[at..]).swizzle([
        0, 2, 4, 6, 8, 10, 12, 14, 32, 34, 36, 38, 40, 42, 44, 46, 16, 18, 20, 22, 24, 26, 28, 30,
        48, 50, 52, 54, 56, 58, 60, 62, 1, 3, 5, 7, 9, 11, 13, 15, 33, 35, 37, 39, 41, 43, 45, 47,
        17, 19, 21, 23, 25, 27, 29, 31, 49, 51, 53, 55, 57, 59, 61, 63,
    ])
}

/// The lanes with their halves exchanged.
#[inline(always)]
pub(crate) fn crossed(lanes: u8x64) -> u8x64
    ensures { (i : ℕ) → i < 64 → slice_index result i ≡ slice_index lanes ((i + 32) % 64) }
{
    lanes.rotate_elements_left::<32>()
}

/// The lanes in the order of the bytes that `parted` took.
#[inline(always)]
pub(crate) fn joined(lanes: u8x64) -> u8x64
    ensures count { length result ≡ 64 }
    ensures lanes { (i : ℕ) → i < 64 → slice_index result i ≡ slice_index lanes (lane_of_place i) }
{
    lanes.swizzle([
        0, 32, 1, 33, 2, 34, 3, 35, 4, 36, 5, 37, 6, 38, 7, 39, 16, 48, 17, 49, 18, 50, 19, 51, 20,
        52, 21, 53, 22, 54, 23, 55, 8, 40, 9, 41, 10, 42, 11, 43, 12, 44, 13, 45, 14, 46, 15, 47,
        24, 56, 25, 57, 26, 58, 27, 59, 28, 60, 29, 61, 30, 62, 31, 63,
    ])
}
