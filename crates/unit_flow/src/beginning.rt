//! A flow is begun from the paths of another to the same sink.
ghost use Rattle.std.specs.Prelude.{◌≡◌, ◌<◌, ◌∷◌, [], IsTrue, length};
ghost use Rattle.net_model.specs.Flows.{flow_network};
ghost use Rattle.net_model.specs.Walks.{IsWalk};
ghost use Rattle.unit_flow.specs.Begun.{IsFlowToSink, is_open, is_open_path};
ghost use Rattle.unit_flow.specs.FlowOf.{HasValue, IsAugmented};
ghost use Rattle.unit_flow.specs.Residual.{AreEntered};

use crate::augmenting::turn;
use crate::residual::Residual;
use net_model::{LinkList, Net, Paths};

// Uses those of the paths that are open, one after another, and says how many these are.
pub(crate) fn use_paths(
    net: &Net,
    residual: &mut Residual,
    entered: &mut [bool],
    begun: &Paths,
) -> u32
    requires sink { residual.old.demand.sink < length net.now.sinks }
    requires nothing { HasValue net.now residual.old 0 }
    requires entered { AreEntered net.now.links (length net.now.nodes) residual.old.states
        entered.old }
    requires begun { IsFlowToSink net.now residual.old.demand begun.now }
    ensures demand { residual.new.demand ≡ residual.old.demand }
    ensures value { HasValue net.now residual.new result }
    ensures entered { AreEntered net.now.links (length net.now.nodes) residual.new.states
        entered.new }
{
    let mut value = 0;
    for path in begun.as_slice() {
        if is_open_path(net, residual, path) {
            use_path(net, residual, entered, path);
            value += 1;
        }
    }
    value
}

// Turns the links of an open path, from the last back to the first.
fn use_path(net: &Net, residual: &mut Residual, entered: &mut [bool], path: &LinkList)
    requires sink { residual.old.demand.sink < length net.now.sinks }
    requires states { length residual.old.states ≡ length net.now.links }
    requires entered { AreEntered net.now.links (length net.now.nodes) residual.old.states
        entered.old }
    requires path { IsFlowToSink net.now residual.old.demand (path.now ∷ []) }
    requires all_open { IsTrue (is_open_path (flow_network net.now residual.old.demand) residual.old.states
        path.now) }
    ensures demand { residual.new.demand ≡ residual.old.demand }
    ensures more { IsAugmented net.now residual.old residual.new.states }
    ensures entered { AreEntered net.now.links (length net.now.nodes) residual.new.states
        entered.new }
{
    let mut place = path.len();
    while place > 0 {
        place -= 1;
        turn(net, residual, entered, *path.at(place));
    }
}

// Whether each link of a walk is open.
fn is_open_path(net: &Net, residual: &Residual, path: &LinkList) -> bool
    requires sink { residual.now.demand.sink < length net.now.sinks }
    requires states { length residual.now.states ≡ length net.now.links }
    requires walk { IsWalk net.now.links path.now }
    ensures { result ≡ is_open_path (flow_network net.now residual.now.demand) residual.now.states
        path.now }
{
    for link in path.as_slice() {
        if !is_open(net, residual, *link) {
            return false;
        }
    }
    true
}

// Whether a link is free, and neither leads into the source nor leaves the sink.
fn is_open(net: &Net, residual: &Residual, link: u32) -> bool
    requires sink { residual.now.demand.sink < length net.now.sinks }
    requires states { length residual.now.states ≡ length net.now.links }
    requires link { link < length net.now.links }
    ensures { result ≡ is_open (flow_network net.now residual.now.demand) residual.now.states link }
{
    residual.is_free(link) && net.head(link) != net.source && net.tail(link) != residual.sink(net)
}
