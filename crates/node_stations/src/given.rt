//! What links give, as packets.
ghost use Rattle.std.specs.Prelude.{◌≡◌, ◌<◌, drop};
ghost use Rattle.generation_frame.specs.Blocks.{pieces};
ghost use Rattle.generation_frame.specs.declared.frame.Packet.{Packet};
ghost use Rattle.node_stations.specs.Given.{IsGivenOf, IsOfPut};

use generation_frame::{Packet, read_frame};
use lif_outside::Flight;

/// The packet of a flight that links gave: that of the pair put, with the payload that was given.
pub fn packet_given(flight: &Flight) -> Packet
    requires { IsOfPut flight.now }
    ensures value { (put : Packet) → IsGivenOf put flight.now
        → result ≡ record put { payload = drop 12 flight.now.frame } }
    ensures piece { result.piece < pieces }
{
    match read_frame(&flight.frame) {
        Ok(packet) => packet,
        Err(_) => unreachable!(),
    }
}
