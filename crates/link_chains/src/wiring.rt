//! The links at both ends of each node.
ghost use Rattle.std.specs.Prelude.{◌≡◌, IfOk, length};
ghost use Rattle.link_chains.specs.Wiring.{IsWiring, chains_at};

use crate::chains::{Chains, LinkEnd, chains_of};
use net_model::Net;
use std::alloc::{AllocError, Global};

/// The chains of a network's links: of those that leave each node, and of those that lead into it.
#[derive(Drop)]
pub struct Wiring {
    pub from: Chains,
    pub into: Chains,
}

/// The chains of all links of a network.
pub fn wiring_of(alloc: Global, net: &Net) -> Result<Wiring, AllocError>
    ensures { IfOk result (IsWiring net.now.links (length net.now.nodes)) }
{
    let from = chains_of(alloc, net, LinkEnd::Tail)?;
    let into = chains_of(alloc, net, LinkEnd::Head)?;
    Ok(Wiring { from, into })
}

impl Wiring {
    /// The chains of the links that have an end at each node.
    pub fn chains(&self, end: LinkEnd) -> &Chains
        ensures { result.now ≡ chains_at end self.now }
    {
        match end {
            LinkEnd::Tail => &self.from,
            LinkEnd::Head => &self.into,
        }
    }
}
