//! A network in which one node feeds two.
ghost use Rattle.std.specs.Prelude.{◌≡◌, ◌<◌, ◌≤◌, ◌+◌, ◌++◌, ◌∷◌, ◌↔◌, [], IfOk, IsErrOf, IsTrue, OnOk, length};
ghost use Rattle.std.specs.List.{list_all, list_any};
ghost use Rattle.std.specs.Str.{bytes_eq};
ghost use Rattle.net_model.specs.Limits.{highest_rate};
ghost use Rattle.net_model.specs.Name.{is_name};
ghost use Rattle.net_reader.specs.Bundles.{made_names};
ghost use Rattle.two_sources.specs.Joined.{IsJoined, IsTooMany, bundle_links, is_taken, joined_links, super_links, super_name};

use crate::names::{is_among_made, made_name, name};
use crate::patterns::moved_patterns;
use net_model::{Link, LinkTable, MOST_LINKS, MOST_NODES, Name, NameList, Net, NodeList};
use std::alloc::{AllocError, Global};

/// The name of the node that is joined.
const SUPER: &[u8] = b"super";

/// What the names of its links into the source begin with.
const FIRST: &[u8] = b"super.1";

/// What those of its links into the second node begin with.
const SECOND: &[u8] = b"super.2";

/// Why two sources aren't joined.
#[derive(Clone, Copy, Debug, PartialEq, Eq)]
pub enum JoinRefusal {
    /// A node of the network is named `super`, or a link of it has the name of one that is made.
    NameTaken,
    /// The network has 4,096 nodes, or there would be more than 8,192 links.
    TooMany,
    /// There was no memory.
    OutOfMemory,
}

impl From<AllocError> for JoinRefusal {
    ghost use Rattle.two_sources.specs.declared.joining.JoinRefusal.TheVariants.{OutOfMemory};

    ghost from_gives = { λ _ refusal. refusal ≡ OutOfMemory };

    fn from(_: AllocError) -> JoinRefusal {
        JoinRefusal::OutOfMemory
    }
}

// Whether a node or a link has a name that is made. It takes no memory.
fn is_taken(net: &Net, r1: u32, r2: u32) -> bool
    ensures { result ≡ is_taken net.now r1 r2 }
{
    is_super_among(net.nodes.as_slice()) || is_made_among(net.links.as_slice(), r1, r2)
}

// Whether a node has the name of the joined one.
fn is_super_among(nodes: &[Name]) -> bool
    ensures { result ≡ list_any (λ node. bytes_eq node super_name) nodes.now }
{
    nodes.iter().any(|node| node.bytes() == SUPER)
}

// Whether a link has a name that is made.
fn is_made_among(links: &[Link], r1: u32, r2: u32) -> bool
    ensures { result
        ≡ list_any (λ link. list_any (bytes_eq link.name) (super_links r1 r2)) links.now }
{
    links
        .iter()
        .any(|link| is_super_link(link.name.bytes(), r1, r2))
}

// Whether a name is that of a link that is made.
fn is_super_link(name: &[u8], r1: u32, r2: u32) -> bool
    ensures { result ≡ list_any (bytes_eq name.now) (super_links r1 r2) }
{
    is_among_made(name, FIRST, r1) || is_among_made(name, SECOND, r2)
}

// The names of the nodes, and then that of the joined one.
fn nodes(alloc: Global, net: &Net) -> Result<NameList, AllocError>
    ensures { IfOk result (λ nodes. nodes ≡ net.now.nodes ++ super_name ∷ []) }
{
    let mut nodes = Vec::with_capacity(alloc, net.nodes.len() + 1)?;
    for node in net.nodes.as_slice() {
        nodes.push(name(alloc, node.bytes())?)?;
    }
    nodes.push(name(alloc, SUPER)?)?;
    Ok(NameList::of(nodes))
}

// Adds the links of a bundle from one node to another.
fn push_bundle(
    alloc: Global,
    links: &mut Vec<Link>,
    bundle: &[u8],
    count: u32,
    tail: u32,
    head: u32,
) -> Result<(), AllocError>
    requires { IsTrue (list_all is_name (made_names bundle.now count)) }
    ensures { OnOk result (links.new.items
        ≡ links.old.items ++ bundle_links bundle.now count tail head) }
{
    for before in 0..count {
        links.push(Link {
            name: made_name(alloc, bundle, before + 1)?,
            tail,
            head,
        })?;
    }
    Ok(())
}

// Adds links.
fn push_links(alloc: Global, links: &mut Vec<Link>, more: &[Link]) -> Result<(), AllocError>
    ensures { OnOk result (links.new.items ≡ links.old.items ++ more.now) }
{
    for link in more {
        links.push(Link {
            name: name(alloc, link.name.bytes())?,
            tail: link.tail,
            head: link.head,
        })?;
    }
    Ok(())
}

// The links of the joined node, and then those of the network.
fn links(alloc: Global, net: &Net, second: u32, r1: u32, r2: u32) -> Result<LinkTable, AllocError>
    requires { r1 + r2 ≤ highest_rate }
    ensures { IfOk result (λ links. links ≡ joined_links net.now second r1 r2) }
{
    let node = net.nodes.len() as u32;
    let mut links = Vec::with_capacity(alloc, (r1 + r2) as usize + net.links.len())?;
    push_bundle(alloc, &mut links, FIRST, r1, node, net.source)?;
    push_bundle(alloc, &mut links, SECOND, r2, node, second)?;
    push_links(alloc, &mut links, net.links.as_slice())?;
    Ok(LinkTable::of(links))
}

/// The network with a node `super` in place of the source: `r1` links lead from it into the source,
/// `super.1.1` to `super.1.r1`, and `r2` into the second node, `super.2.1` to `super.2.r2`. The
/// nodes are those of the network and then `super`, the links these and then those of the network.
/// Sinks, failing links and field stay, and a code of rate `r1 + r2` is wanted.
pub fn join_sources(
    alloc: Global,
    net: &Net,
    second: u32,
    r1: u32,
    r2: u32,
) -> Result<Net, JoinRefusal>
    requires second { second < length net.now.nodes }
    requires first_rate { 1 ≤ r1 }
    requires second_rate { 1 ≤ r2 }
    requires rate { r1 + r2 ≤ highest_rate }
    ensures joined { IfOk result (IsJoined second r1 r2 net.now) }
    ensures taken { IsErrOf result JoinRefusal.NameTaken ↔ IsTrue (is_taken net.now r1 r2) }
    ensures many { IsErrOf result JoinRefusal.TooMany ↔ IsTooMany net.now r1 r2 }
{
    if is_taken(net, r1, r2) {
        return Err(JoinRefusal::NameTaken);
    }
    let more = (r1 + r2) as usize;
    if net.nodes.len() >= MOST_NODES || net.links.len() + more > MOST_LINKS {
        return Err(JoinRefusal::TooMany);
    }
    let nodes = nodes(alloc, net)?;
    let links = links(alloc, net, second, r1, r2)?;
    let sinks = NodeList::of(Vec::from_slice(alloc, net.sinks.as_slice())?);
    let count = net.links.len() as u32;
    let patterns = moved_patterns(alloc, net.patterns.as_slice(), count, r1 + r2)?;
    let source = net.nodes.len() as u32;
    Ok(Net::of(nodes, links, source, sinks, patterns, net.field).wanting(r1 + r2))
}
