//! The links that leave a side and haven't failed.
ghost use Rattle.std.specs.Prelude.{◌≡◌, ◌<◌, IfOk, length};
ghost use Rattle.cut_witness.specs.Certificate.{IsDemand};
ghost use Rattle.net_model.specs.Flows.{crossing, flow_network, leaves};
ghost use Rattle.unit_flow.specs.Residual.{HasStates};

use item_list::ItemList;
use net_model::{Demand, LinkList, Net, Side};
use std::alloc::{AllocError, Global};
use unit_flow::Residual;

/// The links that leave a side of a demand and haven't failed, in rising order.
pub fn cut_of(alloc: Global, net: &Net, demand: Demand, side: &Side) -> Result<LinkList, AllocError>
    requires demand { IsDemand net.now demand }
    requires side { length side.now ≡ length net.now.nodes }
    ensures { IfOk result (λ cut. cut ≡ crossing (flow_network net.now demand) side.now) }
{
    let residual = Residual::start(alloc, net, demand)?;
    let mut cut = Vec::new(alloc);
    for link in 0..net.links.len() as u32 {
        if leaves(net, &residual, side, link) {
            cut.push(link)?;
        }
    }
    Ok(ItemList::of(cut))
}

// Whether a link leaves a side and hasn't failed in a residual network.
fn leaves(net: &Net, residual: &Residual, side: &Side, link: u32) -> bool
    requires states { HasStates net.now residual.now.demand residual.now }
    requires side { length side.now ≡ length net.now.nodes }
    requires link { link < length net.now.links }
    ensures { result ≡ leaves (flow_network net.now residual.now.demand) side.now link }
{
    *side.at(net.tail(link) as usize)
        && !*side.at(net.head(link) as usize)
        && !residual.is_failed(link)
}
