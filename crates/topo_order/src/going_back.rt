//! The cycle of a network whose links cannot all be placed.
ghost use Rattle.std.specs.Prelude.{◌≡◌, ◌<◌, ◌≤◌, All, IfOk, drop, false, length, slice_index, slice_index_or};
ghost use Rattle.net_model.specs.Walks.{head_of, tail_of};
ghost use Rattle.topo_order.specs.GoingBack.{IsTurn, IsWalkedFrom};
ghost use Rattle.topo_order.specs.Order.{IsShownCycle};
ghost use Rattle.topo_order.specs.Placing.{IsPlacingIn, IsStuck};

use crate::placing::Placing;
use item_list::ItemList;
use net_model::{LinkList, Net};
use std::alloc::{AllocError, Global};

// A cycle, where some links aren't placed and none of them may be placed next.
pub(crate) fn cycle(alloc: Global, net: &Net, placing: &Placing) -> Result<LinkList, AllocError>
    requires placing { IsPlacingIn net.now placing.now }
    requires unplaced { length placing.now.order.items < length net.now.links }
    requires stuck { IsStuck net.now placing.now }
    ensures { IfOk result (IsShownCycle net.now.links) }
{
    let (path, from) = path_back(alloc, net, placing)?;
    let turn = &path[from..];
    let cycle = walked_from(alloc, turn, least_place(turn))?;
    Ok(ItemList::of(cycle))
}

// The least link that isn't placed.
fn first_unplaced(net: &Net, placing: &Placing) -> u32
    requires placing { IsPlacingIn net.now placing.now }
    requires unplaced { length placing.now.order.items < length net.now.links }
    ensures within { result < length net.now.links }
    ensures unplaced { slice_index_or placing.now.placed.items result false ≡ false }
{
    for link in 0..net.links.len() as u32 {
        if !placing.placed[link as usize] {
            return link;
        }
    }
    unreachable!()
}

// A link that isn't placed, into the tail of one that isn't.
fn back(net: &Net, placing: &Placing, link: u32) -> u32
    requires placing { IsPlacingIn net.now placing.now }
    requires stuck { IsStuck net.now placing.now }
    requires within { link < length net.now.links }
    requires unplaced { slice_index_or placing.now.placed.items link false ≡ false }
    ensures within { result < length net.now.links }
    ensures unplaced { slice_index_or placing.now.placed.items result false ≡ false }
    ensures leads { head_of net.now.links result ≡ tail_of net.now.links link }
{
    placing.into[net.tail(link) as usize]
}

// Links that aren't placed, each into the tail of the one before, and the place from which on they are a
// cycle.
fn path_back(alloc: Global, net: &Net, placing: &Placing) -> Result<(Vec<u32>, usize), AllocError>
    requires placing { IsPlacingIn net.now placing.now }
    requires unplaced { length placing.now.order.items < length net.now.links }
    requires stuck { IsStuck net.now placing.now }
    ensures from { IfOk result (λ found. found.1 < length found.0.items) }
    ensures turn { IfOk result (λ found. IsTurn net.now.links (drop found.1 found.0.items)) }
{
    // For each node one more than the place in the path of the link that leaves it, or 0.
    let mut seen: Vec<usize> = vec![in alloc; 0; net.nodes.len()]?;
    let mut link = first_unplaced(net, placing);
    let mut path = vec![in alloc; link]?;
    loop {
        let node = net.tail(link) as usize;
        let from = seen[node];
        if from != 0 {
            return Ok((path, from));
        }
        seen[node] = path.len();
        link = back(net, placing, link);
        path.push(link)?;
    }
}

// The place of the least link.
fn least_place(turn: &[u32]) -> usize
    requires { 0 < length turn.now }
    ensures within { result < length turn.now }
    ensures least { All (λ link. slice_index turn.now result ≤ link) turn.now }
{
    let mut least = 0;
    for (place, link) in turn.iter().enumerate() {
        if *link < turn[least] {
            least = place;
        }
    }
    least
}

// The links in the direction of the walk, from a place on.
fn walked_from(alloc: Global, turn: &[u32], from: usize) -> Result<Vec<u32>, AllocError>
    requires { from < length turn.now }
    ensures { IfOk result (λ cycle. IsWalkedFrom turn.now from cycle.items) }
{
    let mut cycle = Vec::with_capacity(alloc, turn.len())?;
    for k in 0..turn.len() {
        let place = if k <= from {
            from - k
        } else {
            from + (turn.len() - k)
        };
        cycle.push(turn[place])?;
    }
    Ok(cycle)
}
