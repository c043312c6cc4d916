//! What the words of a call name of a network, and the paths of files that are named.
ghost use Rattle.std.specs.Prelude.{◌≡◌, ◌==◌, IfOk, position, string_bytes};
ghost use Rattle.net_model.specs.Name.{IsName};
ghost use Rattle.top_base.specs.Named.{link_named, node_named, pattern_named, sink_named};
ghost use Rattle.top_base.specs.Paths.{dotted_path};

use net_model::Net;
use std::alloc::{AllocError, Global};

/// The number of the pattern of a name, if there is one.
pub fn pattern_named(net: &Net, name: &[u8]) -> Option<u32>
    ensures { result ≡ pattern_named net.now name.now }
{
    for pattern in 0..net.patterns.len() {
        if net.patterns.at(pattern).name.bytes() == name {
            return Some(pattern as u32);
        }
    }
    None
}

/// The number of the link of a name, if there is one.
pub fn link_named(net: &Net, name: &[u8]) -> Option<u32>
    ensures { result ≡ link_named net.now name.now }
{
    for link in 0..net.links.len() {
        if net.links.at(link).name.bytes() == name {
            return Some(link as u32);
        }
    }
    None
}

/// The number of the node of a name, if there is one.
pub fn node_named(net: &Net, name: &[u8]) -> Option<u32>
    ensures { result ≡ node_named net.now name.now }
{
    for node in 0..net.nodes.len() {
        if net.nodes.at(node).bytes() == name {
            return Some(node as u32);
        }
    }
    None
}

// The place of a node among the sinks, if it is one.
fn place_among(net: &Net, node: u32) -> Option<u32>
    ensures { result ≡ position (λ sink. sink == node) net.now.sinks }
{
    for place in 0..net.sinks.len() {
        if *net.sinks.at(place) == node {
            return Some(place as u32);
        }
    }
    None
}

/// The place among the sinks of the sink of a name, if there is one.
pub fn sink_named(net: &Net, name: &[u8]) -> Option<u32>
    ensures { result ≡ sink_named net.now name.now }
{
    match node_named(net, name) {
        Some(node) => place_among(net, node),
        None => None,
    }
}

/// The path of a file that is named: what the paths begin with, a dot and the name.
pub fn dotted_path(alloc: Global, prefix: &str, name: &[u8]) -> Result<String, AllocError>
    requires { IsName name.now }
    ensures { IfOk result (λ path. string_bytes path ≡ dotted_path prefix.now name.now) }
{
    let mut path = String::from_str(alloc, prefix)?;
    path.push('.')?;
    for byte in name {
        path.push(char::from(*byte))?;
    }
    Ok(path)
}
