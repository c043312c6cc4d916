//! Links placed one after another.
ghost use Rattle.std.specs.Prelude.{◌≡◌, ◌<◌, ◌++◌, ◌∷◌, [], Some, IfOk, OnOk, length, slice_index_or, true, false};
ghost use Rattle.net_model.specs.Walks.{head_of};
ghost use Rattle.link_chains.specs.Chains.{AreFirstsAt, AreNextsAt};
ghost use Rattle.link_chains.specs.declared.chains.LinkEnd.TheVariants.{Head};
ghost use Rattle.topo_order.specs.Order.{next_link};
ghost use Rattle.topo_order.specs.Placing.{IsNextInto, IsPlacingIn};

use net_model::Net;
use std::alloc::{AllocError, Global};

// The links placed so far.
#[derive(Drop)]
pub(crate) struct Placing {
    pub(crate) order: Vec<u32>,
    // For each link whether it stands in the order.
    pub(crate) placed: Vec<bool>,
    // For each node the least link into it that isn't placed, or the number of links.
    pub(crate) into: Vec<u32>,
}

// Nothing placed, where the first link into each node is known.
pub(crate) fn nothing_placed(
    alloc: Global,
    net: &Net,
    first_into: &[u32],
) -> Result<Placing, AllocError>
    requires { AreFirstsAt net.now Head first_into.now }
    ensures empty { IfOk result (λ placing. placing.order.items ≡ []) }
    ensures placing { IfOk result (IsPlacingIn net.now) }
{
    let order = Vec::with_capacity(alloc, net.links.len())?;
    let placed = vec![in alloc; false; net.links.len()]?;
    let into = Vec::from_slice(alloc, first_into)?;
    Ok(Placing {
        order,
        placed,
        into,
    })
}

// Places the next link.
pub(crate) fn place(
    net: &Net,
    placing: &mut Placing,
    next_into: &[u32],
    link: u32,
) -> Result<(), AllocError>
    requires placing { IsPlacingIn net.now placing.old }
    requires room { length placing.old.order.items < length net.now.links }
    requires chain { AreNextsAt net.now Head next_into.now }
    requires next { next_link net.now.links placing.old.order.items ≡ Some link }
    ensures placing { OnOk result (IsPlacingIn net.now placing.new) }
    ensures order { OnOk result (placing.new.order.items ≡ placing.old.order.items ++ link ∷ []) }
{
    placing.order.push(link)?;
    placing.placed[link as usize] = true;
    let node = net.head(link);
    if placing.into[node as usize] == link {
        let next = next_unplaced(net, placing.placed.as_slice(), next_into, link);
        placing.into[node as usize] = next;
    }
    Ok(())
}

// The least link into the head of one that is placed that comes after it and isn't placed, or the number of
// links.
fn next_unplaced(net: &Net, placed: &[bool], next_into: &[u32], link: u32) -> u32
    requires flags { length placed.now ≡ length net.now.links }
    requires chain { AreNextsAt net.now Head next_into.now }
    requires within { link < length net.now.links }
    requires placed { slice_index_or placed.now link false ≡ true }
    ensures { IsNextInto net.now.links placed.now (head_of net.now.links link) link result }
{
    let count = net.links.len() as u32;
    let mut next = next_into[link as usize];
    while next < count && placed[next as usize] {
        next = next_into[next as usize];
    }
    next
}
