//! The place of each node among the sinks.
ghost use Rattle.std.specs.Prelude.{IfOk};
ghost use Rattle.node_plans.specs.SinkPlaces.{AreSinkPlaces};

use node_program::Code;
use std::alloc::{AllocError, Global};

// For each node its place among the sinks, where it is one: the sinks are gone over once.
pub(crate) fn sink_places(alloc: Global, code: &Code) -> Result<Vec<Option<u32>>, AllocError>
    ensures { IfOk result (λ places. AreSinkPlaces code.now code.now.net.sinks places.items) }
{
    let mut places = vec![in alloc; None; code.net.nodes.len()]?;
    for (place, sink) in code.net.sinks.as_slice().iter().enumerate() {
        places[*sink as usize] = Some(place as u32);
    }
    Ok(places)
}
