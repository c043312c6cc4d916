//! Chains of the links at one node, in rising order.
ghost use Rattle.std.specs.Prelude.{◌≡◌, ◌<◌, IfOk, length};
ghost use Rattle.link_chains.specs.Chains.{AreFirstsAt, AreNextsAt, end_of};

use net_model::Net;
use std::alloc::{AllocError, Global};

/// An end of a link.
#[derive(Clone, Copy, Debug, PartialEq, Eq)]
pub enum LinkEnd {
    /// The node that it leaves.
    Tail,
    /// The node that it leads into.
    Head,
}

/// For each node the first link at it, and for each link the next one at its node. The number of links stands
/// for none.
#[derive(Drop)]
pub struct Chains {
    pub firsts: Vec<u32>,
    pub nexts: Vec<u32>,
}

/// The chains of the links that have an end at each node.
pub fn chains_of(alloc: Global, net: &Net, end: LinkEnd) -> Result<Chains, AllocError>
    ensures firsts { IfOk result (λ chains. AreFirstsAt net.now end chains.firsts.items) }
    ensures nexts { IfOk result (λ chains. AreNextsAt net.now end chains.nexts.items) }
{
    let count = net.links.len() as u32;
    let mut firsts = vec![in alloc; count; net.nodes.len()]?;
    let mut nexts = vec![in alloc; count; net.links.len()]?;
    for link in (0..count).rev() {
        let node = end_of(net, end, link) as usize;
        nexts[link as usize] = firsts[node];
        firsts[node] = link;
    }
    Ok(Chains { firsts, nexts })
}

// The node at an end of a link.
fn end_of(net: &Net, end: LinkEnd, link: u32) -> u32
    requires { link < length net.now.links }
    ensures value { result ≡ end_of net.now.links end link }
    ensures below { result < length net.now.nodes }
{
    match end {
        LinkEnd::Tail => net.tail(link),
        LinkEnd::Head => net.head(link),
    }
}
