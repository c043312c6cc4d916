//! The used links of a residual network, decomposed into paths.
ghost use Rattle.std.specs.Prelude.{◌≡◌, ◌<◌, IfOk, IsSome, OnOk, Some, false, length};
ghost use Rattle.link_chains.specs.Chains.{AreFirstsAt, AreNextsAt};
ghost use Rattle.link_chains.specs.declared.chains.LinkEnd.TheVariants.{Tail};
ghost use Rattle.unit_flow.specs.Decomposition.{used_leaving};
ghost use Rattle.unit_flow.specs.FlowOf.{HasUnit, HasValue, IsWithoutFirst, flow_paths, taken_of};
ghost use Rattle.unit_flow.specs.Taking.{HasCursors};

use crate::residual::{LinkState, Residual};
use item_list::ItemList;
use link_chains::Chains;
use net_model::{LinkList, Net, Paths};
use std::alloc::{AllocError, Global};

// The used links that are on no path yet.
#[derive(Drop)]
struct Undecomposed {
    residual: Residual,
    // For each node a link, or the number of links. No used link before it leaves the node.
    cursors: Vec<u32>,
}

impl Undecomposed {
    // The least used link that leaves a node.
    fn next_used(&self, net: &Net, nexts: &[u32], node: u32) -> u32
        requires nexts { AreNextsAt net.now Tail nexts.now }
        requires states { length self.now.residual.states ≡ length net.now.links }
        requires cursors { HasCursors net.now self.now }
        requires node { node < length net.now.nodes }
        requires used_link { IsSome (used_leaving net.now.links self.now.residual.states node) }
        ensures { used_leaving net.now.links self.now.residual.states node ≡ Some result }
    {
        let mut link = self.cursors[node as usize];
        while !self.residual.is_used(link) {
            link = nexts[link as usize];
        }
        link
    }

    // Takes the first path from the source to the sink: from each node the least used link that leaves it.
    fn take_path(&mut self, alloc: Global, net: &Net, nexts: &[u32]) -> Result<LinkList, AllocError>
        requires nexts { AreNextsAt net.now Tail nexts.now }
        requires sink { self.old.residual.demand.sink < length net.now.sinks }
        requires unit { HasUnit net.now self.old.residual }
        requires cursors { HasCursors net.now self.old }
        ensures path { IfOk result (λ path. path ≡ (taken_of net.now self.old.residual).path) }
        ensures states { OnOk result (IsWithoutFirst net.now self.old.residual self.new.residual) }
        ensures demand { OnOk result (self.new.residual.demand ≡ self.old.residual.demand) }
        ensures cursors { OnOk result (HasCursors net.now self.new) }
    {
        let sink = self.residual.sink(net);
        let mut path = Vec::new(alloc);
        let mut node = net.source;
        while node != sink {
            let link = self.next_used(net, nexts, node);
            path.push(link)?;
            self.residual.set_state(link, LinkState::Free);
            self.cursors[node as usize] = link;
            node = net.head(link);
        }
        Ok(ItemList::of(path))
    }
}

// The paths into which the used links decompose, which are a flow of so many units.
pub(crate) fn decompose(
    alloc: Global,
    net: &Net,
    from: &Chains,
    residual: Residual,
    value: u32,
) -> Result<Paths, AllocError>
    requires firsts { AreFirstsAt net.now Tail from.now.firsts.items }
    requires nexts { AreNextsAt net.now Tail from.now.nexts.items }
    requires sink { residual.demand.sink < length net.now.sinks }
    requires conserved { HasValue net.now residual value }
    ensures { IfOk result (λ paths. paths ≡ flow_paths net.now residual value) }
{
    let cursors = Vec::from_slice(alloc, from.firsts.as_slice())?;
    let mut undecomposed = Undecomposed { residual, cursors };
    let mut paths = Vec::new(alloc);
    for _k in 0..value {
        let path = undecomposed.take_path(alloc, net, from.nexts.as_slice())?;
        paths.push(path)?;
    }
    Ok(ItemList::of(paths))
}
