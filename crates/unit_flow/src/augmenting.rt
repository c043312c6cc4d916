//! One unit more, along a path of the residual network.
ghost use Rattle.std.specs.Prelude.{◌≡◌, ◌<◌, ◌*◌, true, false, length};
ghost use Rattle.counted_steps.specs.Steps.{RoseBy, RoseByAtMost};
ghost use Rattle.link_chains.specs.Wiring.{IsWiring};
ghost use Rattle.unit_flow.specs.FlowOf.{IsAugmented, turned, turned_from};
ghost use Rattle.unit_flow.specs.Residual.{AreEntered};
ghost use Rattle.unit_flow.specs.Searching.{EndsAt, HasPlaces, HasReached, IsWayIn, has_sink, looks, looks_from, sink_of};

use crate::residual::{LinkState, Residual};
use crate::search::Search;
use counted_steps::Steps;
use link_chains::Wiring;
use net_model::Net;
use std::sync::ledger::Ledger;

// Makes the used links a flow of one unit more, and says so, or says that there is no augmenting path.
pub(crate) fn augment<L: Ledger>(
    net: &Net,
    wiring: &Wiring,
    residual: &mut Residual,
    search: &mut Search,
    entered: &mut [bool],
    steps: &mut Steps<L>,
) -> bool
    requires wiring { IsWiring net.now.links (length net.now.nodes) wiring.now }
    requires states { length residual.old.states ≡ length net.now.links }
    requires entered { AreEntered net.now.links (length net.now.nodes) residual.old.states
        entered.old }
    requires sink { residual.old.demand.sink < length net.now.sinks }
    requires places { HasPlaces (length net.now.nodes) search.old }
    ensures demand { residual.new.demand ≡ residual.old.demand }
    ensures more { result ≡ true → IsAugmented net.now residual.old residual.new.states }

    ensures same { result ≡ false → residual.new.states ≡ residual.old.states }
    ensures reached { result ≡ false → HasReached net.now residual.old search.new }
    ensures away { result ≡ false → has_sink net.now residual.old search.new ≡ false }

    ensures states { length residual.new.states ≡ length net.now.links }
    ensures entered { AreEntered net.now.links (length net.now.nodes) residual.new.states
        entered.new }
    ensures places { HasPlaces (length net.now.nodes) search.new }
    ensures ticks { RoseBy (looks net.now.links entered.old search.new) steps.old steps.new }
    ensures few_looks { RoseByAtMost (2 * length net.now.links) steps.old steps.new }
    ensures each_once { result ≡ false
        → RoseBy (looks_from net.now.links entered.old search.new.reached.items) steps.old steps.new }
{
    if !search.reaches_sink(net, wiring, residual, entered, steps) {
        return false;
    }
    go_back(net, residual, search, entered);
    true
}

// Turns the links by which the sink was reached, from the sink back to the source.
fn go_back(net: &Net, residual: &mut Residual, search: &Search, entered: &mut [bool])
    requires states { length residual.old.states ≡ length net.now.links }
    requires entered { AreEntered net.now.links (length net.now.nodes) residual.old.states
        entered.old }
    requires sink { residual.old.demand.sink < length net.now.sinks }
    requires way { IsWayIn net.now residual.old search.now }
    requires at_sink { EndsAt (sink_of net.now residual.old) search.now }
    ensures demand { residual.new.demand ≡ residual.old.demand }
    ensures states { length residual.new.states ≡ length net.now.links }
    ensures entered { AreEntered net.now.links (length net.now.nodes) residual.new.states
        entered.new }
    ensures more { IsAugmented net.now residual.old residual.new.states }
{
    let mut node = residual.sink(net);
    while node != net.source {
        let link = search.came[node as usize];
        node = turn(net, residual, entered, link);
    }
}

// Makes a used link free, or else used, and gives the node from which it could be passed.
pub(crate) fn turn(net: &Net, residual: &mut Residual, entered: &mut [bool], link: u32) -> u32
    requires states { length residual.old.states ≡ length net.now.links }
    requires link { link < length net.now.links }
    requires entered { AreEntered net.now.links (length net.now.nodes) residual.old.states
        entered.old }
    ensures demand { residual.new.demand ≡ residual.old.demand }
    ensures states { residual.new.states ≡ turned residual.old.states link }
    ensures entered { AreEntered net.now.links (length net.now.nodes) residual.new.states
        entered.new }
    ensures node { result ≡ turned_from net.now.links residual.old.states link }
{
    if residual.is_used(link) {
        residual.set_state(link, LinkState::Free);
        net.head(link)
    } else {
        residual.set_state(link, LinkState::Used);
        entered[net.head(link) as usize] = true;
        net.tail(link)
    }
}
