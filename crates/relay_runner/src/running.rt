//! A step of a run at work.
ghost use Rattle.std.specs.Prelude.{◌≡◌, ◌*◌, ◌≤◌, ◌∷◌, ℕ, [], List, OnErr, Ok, length};
ghost use Rattle.coded_traffic.specs.Traffic.{Window, room_for};
ghost use Rattle.lif_outside.specs.Moves.{took_none};
ghost use Rattle.node_stations.specs.Table.{relays_of, sinks_of};
ghost use Rattle.relay_core.specs.Core.{Delivery, RelayState};
ghost use Rattle.relay_runner.specs.Running.{IsRunning, StandAt};
ghost use Rattle.relay_runner.specs.Stepping.{Steps, StopsStepping};

use crate::Turn;
use gf_tables::Field;
use lif_outside::{Failed, Links};
use node_program::Code;
use node_stations::{Station, packet_given};

/// One step: a pair that flies is given to the station at its link's head, and what the node gives then is put.
pub(crate) fn step<F: Field, K: Links>(
    code: &Code,
    stations: &mut [Station<F>],
    links: &mut K,
) -> Result<Turn, Failed>
    requires stand { (pattern : ℕ) × StandAt code.now pattern
        (relays_of stations.old) (sinks_of stations.old) (K.flying links.old) }
    requires room { room_for code.now ≤ K.room links.old }
    ensures moved { result ≡ Ok Turn.Moved
        → (pattern : ℕ) (window : Window) (run : List Delivery) (state : RelayState)
        → IsRunning code.now pattern window run (relays_of stations.old) (sinks_of stations.old)
        (K.flying links.old) state
        → Steps K.Links code.now pattern window run state links.old links.new
        (relays_of stations.new) (sinks_of stations.new) }
    ensures quiet { result ≡ Ok Turn.Quiet → K.flying links.old ≡ [] }
    ensures none { result ≡ Ok Turn.Quiet → K.moves (took_none ∷ []) links.old links.new }
    ensures same { result ≡ Ok Turn.Quiet → stations.new ≡ stations.old }
    ensures stopped { OnErr result
        ((pattern : ℕ) (window : Window) (run : List Delivery) (state : RelayState)
        → IsRunning code.now pattern window run (relays_of stations.old) (sinks_of stations.old)
        (K.flying links.old) state
        → StopsStepping K.Links code.now pattern window run state links.old links.new) }
{
    let Some(flight) = links.take()? else {
        return Ok(Turn::Quiet);
    };
    let packet = packet_given(&flight);
    let node = code.net.links.at(packet.link as usize).head as usize;
    stations[node].pass_on(&packet, links)?;
    Ok(Turn::Moved)
}
