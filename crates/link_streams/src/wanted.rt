//! The links whose streams a sink wants.
ghost use Rattle.std.specs.Prelude.{◌≡◌, ◌<◌, IfOk, length};
ghost use Rattle.failure_patterns.specs.Demands.{number_of};
ghost use Rattle.link_streams.specs.Gathering.{wanted_links};
ghost use Rattle.sink_decoder.specs.Receiving.{sink_plan_of};

use code_checker::Checked;
use failure_patterns::number_of;
use net_model::Demand;
use node_program::live_links;
use std::alloc::{AllocError, Global};

/// The links whose streams the sink of a demand wants: those of its decoder that are live, by rising number.
pub fn wanted_links(alloc: Global, code: &Checked, demand: Demand) -> Result<Vec<u32>, AllocError>
    requires sink { demand.sink < length code.now.net.sinks }
    requires pattern { demand.pattern < length code.now.net.patterns }
    ensures { IfOk result (λ links. links.items
        ≡ wanted_links (sink_plan_of code.now (number_of code.now.net demand))) }
{
    let code = code.code();
    let live = live_links(alloc, code, demand.pattern)?;
    let decoder = code.decoders.at(number_of(&code.net, demand) as usize);
    let mut links = Vec::with_capacity(alloc, decoder.links.len())?;
    for link in decoder.links.as_slice() {
        if *live.at(*link as usize) {
            links.push(*link)?;
        }
    }
    Ok(links)
}
