//! The links that may be placed next.
ghost use Rattle.std.specs.Prelude.{◌≡◌, ◌<◌, true, false, IfOk, OnOk, length};
ghost use Rattle.link_chains.specs.Wiring.{IsWiring};
ghost use Rattle.topo_order.specs.Placing.{HasSameOrder, IsOneLonger, IsPlacingIn, IsStuck};
ghost use Rattle.topo_order.specs.Queue.{HasAlso, HasReady};

use crate::placing::{Placing, place};
use link_chains::Wiring;
use net_model::Net;
use std::alloc::{AllocError, Global};
use std::collections::BTreeSet;

// The links that may be placed first.
pub(crate) fn first_ready(
    alloc: Global,
    net: &Net,
    placing: &Placing,
) -> Result<BTreeSet<u32>, AllocError>
    requires { IsPlacingIn net.now placing.now }
    ensures { IfOk result (HasReady net.now placing.now) }
{
    let count = net.links.len() as u32;
    let mut ready = BTreeSet::new(alloc);
    for link in 0..count {
        if !placing.placed[link as usize] && placing.into[net.tail(link) as usize] == count {
            let _ = ready.insert(link)?;
        }
    }
    Ok(ready)
}

// Places the next link and says so, or says that none may be placed.
pub(crate) fn place_next(
    net: &Net,
    wiring: &Wiring,
    placing: &mut Placing,
    ready: &mut BTreeSet<u32>,
) -> Result<bool, AllocError>
    requires wiring { IsWiring net.now.links (length net.now.nodes) wiring.now }
    requires placing { IsPlacingIn net.now placing.old }
    requires ready { HasReady net.now placing.old ready.old }
    requires room { length placing.old.order.items < length net.now.links }
    ensures placing { OnOk result (IsPlacingIn net.now placing.new) }
    ensures ready { IfOk result (λ found. found ≡ true → HasReady net.now placing.new ready.new) }
    ensures more { IfOk result (λ found. found ≡ true → IsOneLonger placing.old placing.new) }
    ensures stuck { IfOk result (λ found. found ≡ false → IsStuck net.now placing.new) }
    ensures same { IfOk result (λ found. found ≡ false → HasSameOrder placing.old placing.new) }
{
    let Some(link) = ready.pop_first() else {
        return Ok(false);
    };
    place(net, placing, wiring.into.nexts.as_slice(), link)?;
    let node = net.head(link);
    let count = net.links.len() as u32;
    if placing.into[node as usize] == count {
        add_leaving(net, wiring, ready, node)?;
    }
    Ok(true)
}

// Adds the links that leave a node.
fn add_leaving(
    net: &Net,
    wiring: &Wiring,
    ready: &mut BTreeSet<u32>,
    node: u32,
) -> Result<(), AllocError>
    requires wiring { IsWiring net.now.links (length net.now.nodes) wiring.now }
    requires node { node < length net.now.nodes }
    ensures { OnOk result (HasAlso net.now node ready.old ready.new) }
{
    let count = net.links.len() as u32;
    let mut link = wiring.from.firsts[node as usize];
    while link < count {
        let _ = ready.insert(link)?;
        link = wiring.from.nexts[link as usize];
    }
    Ok(())
}
