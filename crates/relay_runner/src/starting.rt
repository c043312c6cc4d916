//! The start of a window.
ghost use Rattle.std.specs.Prelude.{◌≡◌, ◌<◌, ℕ, length};
ghost use Rattle.node_stations.specs.Table.{ArePlanned, relays_of, sinks_of};
ghost use Rattle.relay_runner.specs.Running.{AreBlocks, Starts, count_in, window_from};

use generation_frame::ROW;
use gf_tables::Field;
use node_program::Code;
use node_stations::{Station, begin_stations, feed_blocks};

/// Lets the stations of a code begin the window of these blocks from a number on, feeds the source its blocks, and says how
/// many they are.
pub(crate) fn start_window<F: Field>(
    code: &Code,
    stations: &mut [Station<F>],
    first: u32,
    blocks: &[u8],
) -> u32
    requires planned { (pattern : ℕ) × ArePlanned code.now pattern
        (relays_of stations.old) (sinks_of stations.old) }
    requires blocks { AreBlocks code.now first blocks.now }
    ensures count { result ≡ count_in code.now blocks.now }
    ensures starts { (pattern : ℕ) → pattern < length code.now.net.patterns
        → ArePlanned code.now pattern (relays_of stations.old) (sinks_of stations.old)
        → Starts code.now pattern (window_from code.now first blocks.now)
        (relays_of stations.new) (sinks_of stations.new) }
{
    let size = code.rate as usize * ROW;
    let count = (blocks.len() / size) as u32;
    begin_stations(stations, first, count);
    let source = code.net.source as usize;
    feed_blocks(&mut stations[source].node, first, count, size, blocks);
    count
}
