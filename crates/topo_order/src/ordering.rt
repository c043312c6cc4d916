//! The order of a network's links.
ghost use Rattle.std.specs.Prelude.{◌≡◌, IfErr, IfOk, OnOk, length};
ghost use Rattle.link_chains.specs.Wiring.{IsWiring};
ghost use Rattle.net_model.specs.Walks.{IsAcyclic};
ghost use Rattle.topo_order.specs.Order.{order_of};
ghost use Rattle.topo_order.specs.Refusal.{IsRefusal};

use crate::going_back::cycle;
use crate::placing::nothing_placed;
use crate::queue::{first_ready, place_next};
use crate::refusal::OrderRefusal;
use link_chains::{Wiring, wiring_of};
use net_model::Net;
use std::alloc::Global;

/// The links of a network in the order in which each comes after all links into its tail, and of those that
/// may come the least first. There is one exactly where the network has no cycle; else a cycle is shown.
pub fn order(alloc: Global, net: &Net) -> Result<Vec<u32>, OrderRefusal>
    ensures ordered { IfOk result (λ order. order.items ≡ order_of net.now.links) }
    ensures whole { IfOk result (λ order. length order.items ≡ length net.now.links) }
    ensures acyclic { OnOk result (IsAcyclic net.now.links) }
    ensures cyclic { IfErr result (IsRefusal net.now.links) }
{
    let wiring = wiring_of(alloc, net)?;
    order_along(alloc, net, &wiring)
}

/// The same as [`order`], where the chains of the network's links are given.
pub fn order_along(alloc: Global, net: &Net, wiring: &Wiring) -> Result<Vec<u32>, OrderRefusal>
    requires { IsWiring net.now.links (length net.now.nodes) wiring.now }
    ensures ordered { IfOk result (λ order. order.items ≡ order_of net.now.links) }
    ensures whole { IfOk result (λ order. length order.items ≡ length net.now.links) }
    ensures acyclic { OnOk result (IsAcyclic net.now.links) }
    ensures cyclic { IfErr result (IsRefusal net.now.links) }
{
    let mut placing = nothing_placed(alloc, net, wiring.into.firsts.as_slice())?;
    let mut ready = first_ready(alloc, net, &placing)?;
    for _k in 0..net.links.len() {
        if !place_next(net, wiring, &mut placing, &mut ready)? {
            let links = cycle(alloc, net, &placing)?;
            return Err(OrderRefusal::Cyclic { links });
        }
    }
    Ok(placing.order)
}
