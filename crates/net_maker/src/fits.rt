//! Which combination networks are made.
ghost use Rattle.std.specs.Prelude.{◌≡◌, ◌↔◌, ◌+◌, ◌^◌, ◌<◌, ◌≤◌, ℕ, IsTrue, slice_index, length};
ghost use Rattle.net_model.specs.Limits.{highest_rate};
ghost use Rattle.net_maker.specs.Fits.{Fits, fits, most_middle};
ghost use Rattle.net_maker.specs.Subsets.{binomial};

use net_model::{HIGHEST_RATE, MOST_LINKS, MOST_NODES};

// The most nodes between the source and the sinks.
const MOST_MIDDLE: u32 = 64;

/// Whether the network with a sink behind each `k` of `n` nodes is made. It takes no memory.
pub fn demo_fits(n: u32, k: u32) -> bool
    ensures value { result ≡ fits n k }
    ensures fits { IsTrue result ↔ Fits n k }
{
    if k < 1 || k > n || n > MOST_MIDDLE || k > HIGHEST_RATE {
        return false;
    }
    let sinks = binomial(n, k);
    u128::from(n) + u128::from(k) * sinks <= MOST_LINKS as u128
        && 1 + u128::from(n) + sinks <= MOST_NODES as u128
}

/// How many sets of `k` out of `n` there are.
pub(crate) fn binomial(n: u32, k: u32) -> u128
    requires middle { n ≤ most_middle }
    requires rate { k ≤ highest_rate }
    ensures value { result ≡ binomial n k }
    ensures bound { result ≤ 2 ^ 64 }
{
    let mut row = [0; HIGHEST_RATE as usize + 1];
    row[0] = 1;
    for above in 0..n {
        next_row(&mut row, above);
    }
    row[k as usize]
}

// From a row of Pascal's triangle to the next.
fn next_row(row: &mut [u128], above: u32)
    requires middle { above < most_middle }
    requires row { (k : ℕ) → k < length row.old → slice_index row.old k ≡ binomial above k }
    ensures { (k : ℕ) → k < length row.new → slice_index row.new k ≡ binomial (above + 1) k }
{
    for k in (1..row.len()).rev() {
        row[k] += row[k - 1];
    }
}
