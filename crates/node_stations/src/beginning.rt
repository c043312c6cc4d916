//! Stations that begin generations.
ghost use Rattle.std.specs.Prelude.{◌≤◌, ◌+◌, ◌^◌};
ghost use Rattle.generation_frame.specs.Blocks.{most_blocks};
ghost use Rattle.node_stations.specs.Table.{HaveBegun, relays_of, sinks_of};

use crate::station::Station;
use gf_tables::Field;

/// Lets all stations forget what came and what was given, and begin these generations.
pub fn begin_stations<F: Field>(stations: &mut [Station<F>], first: u32, count: u32)
    requires some_generations { 1 ≤ count }
    requires few_generations { count ≤ most_blocks }
    requires last { first + count ≤ 2 ^ 32 }
    ensures { HaveBegun first count (relays_of stations.old) (relays_of stations.new)
        (sinks_of stations.old) (sinks_of stations.new) }
{
    'stations: for station in stations.iter_mut() {
        station.begin(first, count);
    }
}
