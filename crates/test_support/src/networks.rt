//! The nodes and links of a network, beside those that are told.
use net_model::Net;

// Whether a node has this name.
fn is_node(net: &Net, place: usize, name: &[u8]) -> bool {
    place < net.nodes.len() && net.nodes.at(place).bytes() == name
}

/// Whether the nodes have these names, in order.
pub fn has_nodes(net: &Net, names: &[&[u8]]) -> bool {
    for (place, name) in names.iter().enumerate() {
        if !is_node(net, place, name) {
            return false;
        }
    }
    net.nodes.len() == names.len()
}

// Whether a link has this name, this tail and this head.
fn is_link(net: &Net, place: usize, name: &[u8], tail: u32, head: u32) -> bool {
    if place >= net.links.len() {
        return false;
    }
    let link = net.links.at(place);
    link.name.bytes() == name && link.tail == tail && link.head == head
}

/// Whether the links have these names, tails and heads, in order.
pub fn has_links(net: &Net, links: &[(&[u8], u32, u32)]) -> bool {
    for (place, &(name, tail, head)) in links.iter().enumerate() {
        if !is_link(net, place, name, tail, head) {
            return false;
        }
    }
    net.links.len() == links.len()
}
