//! The greatest flow of a demand, and its least side.
ghost use Rattle.std.specs.Prelude.{◌<◌, IfOk, IsTrue, length};
ghost use Rattle.link_chains.specs.Wiring.{IsWiring};
ghost use Rattle.net_model.specs.Flows.{IsLeastSide, flow_network};
ghost use Rattle.net_model.specs.Lists.{is_rising};
ghost use Rattle.unit_flow.specs.Begun.{IsFlowToSink};
ghost use Rattle.unit_flow.specs.Greatest.{CrossesAsOften, IsGreatest, first_links};
ghost use Rattle.unit_flow.specs.Visits.{AreFewVisits};

use crate::augmenting::augment;
use crate::beginning::use_paths;
use crate::decomposing::decompose;
use crate::residual::Residual;
use crate::search::Search;
use counted_steps::Steps;
use item_list::ItemList;
use link_chains::{Wiring, wiring_of};
use net_model::{Demand, Net, Paths, Side};
use std::alloc::{AllocError, Global};
use std::sync::ledger::Ledger;

/// The greatest flow of a demand, and the least of the sides that are left by as few links as a least cut has.
#[derive(Drop)]
pub struct Flow {
    /// As many paths from the source to the sink as there can be without a common link, by their links in
    /// order. Their first links rise.
    pub paths: Paths,
    /// For each node whether it is on the least side. The source is, the sink isn't, and as many links that
    /// didn't fail leave the side as there are paths: they are a least cut.
    pub side: Side,
}

/// The greatest flow of a demand and its least side, by paths in residual networks (Ford and Fulkerson). It
/// fails only where there was too little memory. A step is one call of [`Residual::cross`]: a look at a link from one
/// of its ends.
///
/// It makes the chains of the network's links for itself; see [`max_flow_along`] for more than one demand.
pub fn max_flow<L: Ledger>(
    alloc: Global,
    net: &Net,
    demand: Demand,
    steps: &mut Steps<L>,
) -> Result<Flow, AllocError>
    requires sink { demand.sink < length net.now.sinks }
    requires pattern { demand.pattern < length net.now.patterns }
    ensures greatest { IfOk result (IsGreatest net.now demand) }
    ensures rising { IfOk result (λ flow. IsTrue (is_rising (first_links flow.paths))) }
    ensures side { IfOk result (λ flow. IsLeastSide (flow_network net.now demand) flow.side) }
    ensures as_many { IfOk result (CrossesAsOften net.now demand) }

    // Two looks at each link for each search, of which there is at most one more than each cut has links.
    ensures ticks { AreFewVisits net.now demand steps.old steps.new }
{
    let wiring = wiring_of(alloc, net)?;
    max_flow_along(alloc, net, &wiring, demand, steps)
}

/// The same as [`max_flow`], where the chains of the network's links are given, which serve all of its demands.
pub fn max_flow_along<L: Ledger>(
    alloc: Global,
    net: &Net,
    wiring: &Wiring,
    demand: Demand,
    steps: &mut Steps<L>,
) -> Result<Flow, AllocError>
    requires wiring { IsWiring net.now.links (length net.now.nodes) wiring.now }
    requires sink { demand.sink < length net.now.sinks }
    requires pattern { demand.pattern < length net.now.patterns }
    ensures greatest { IfOk result (IsGreatest net.now demand) }
    ensures rising { IfOk result (λ flow. IsTrue (is_rising (first_links flow.paths))) }
    ensures side { IfOk result (λ flow. IsLeastSide (flow_network net.now demand) flow.side) }
    ensures as_many { IfOk result (CrossesAsOften net.now demand) }
    ensures ticks { AreFewVisits net.now demand steps.old steps.new }
{
    let none = ItemList::of(Vec::new(alloc));
    max_flow_from(alloc, net, wiring, demand, &none, steps)
}

/// The same as [`max_flow_along`], begun from paths that share no link: a flow to the sink of the demand under
/// whatever pattern. Those of them of which no link failed are a flow of the demand already, to which searches add,
/// mostly one that finds no more.
pub fn max_flow_from<L: Ledger>(
    alloc: Global,
    net: &Net,
    wiring: &Wiring,
    demand: Demand,
    begun: &Paths,
    steps: &mut Steps<L>,
) -> Result<Flow, AllocError>
    requires wiring { IsWiring net.now.links (length net.now.nodes) wiring.now }
    requires sink { demand.sink < length net.now.sinks }
    requires pattern { demand.pattern < length net.now.patterns }
    requires begun { IsFlowToSink net.now demand begun.now }
    ensures greatest { IfOk result (IsGreatest net.now demand) }
    ensures rising { IfOk result (λ flow. IsTrue (is_rising (first_links flow.paths))) }
    ensures side { IfOk result (λ flow. IsLeastSide (flow_network net.now demand) flow.side) }
    ensures as_many { IfOk result (CrossesAsOften net.now demand) }
    ensures ticks { AreFewVisits net.now demand steps.old steps.new }
{
    let mut residual = Residual::start(alloc, net, demand)?;
    let mut search = Search::new(alloc, net.nodes.len())?;
    let mut entered = vec![in alloc; false; net.nodes.len()]?;
    let mut value = use_paths(net, &mut residual, &mut entered, begun);
    while augment(net, wiring, &mut residual, &mut search, &mut entered, steps) {
        value += 1;
    }
    let paths = decompose(alloc, net, &wiring.from, residual, value)?;
    let Search { reached, .. } = search;
    let side = ItemList::of(reached);
    Ok(Flow { paths, side })
}
