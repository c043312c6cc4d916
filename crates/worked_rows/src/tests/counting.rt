//! Cuts, paths and sides by their definitions, over all sets of at most 12 links and of at most 7 nodes. A set
//! has a bit for each of its items.
use net_model::{LinkList, Net};

// The set of one item.
fn only(item: usize) -> u32 {
    1 << (item % 32)
}

// Whether an item is in a set.
fn has(set: u32, item: usize) -> bool {
    set & only(item) != 0
}

// The set of these links.
pub(super) fn set_of(links: &[u32]) -> u32 {
    let mut set = 0;
    for link in links {
        set |= only(*link as usize);
    }
    set
}

// The set of the nodes of a side.
pub(super) fn side_of(side: &[bool]) -> u32 {
    let mut set = 0;
    for (node, on) in side.iter().enumerate() {
        if *on {
            set |= only(node);
        }
    }
    set
}

// The nodes of a set, and those to which a link leads from them that isn't closed.
fn one_link_further(net: &Net, closed: u32, nodes: u32) -> u32 {
    let mut further = nodes;
    for (number, link) in net.links.as_slice().iter().enumerate() {
        if has(nodes, link.tail as usize) && !has(closed, number) {
            further |= only(link.head as usize);
        }
    }
    further
}

// The nodes that are reached from the source over links that aren't closed. Six links lead to any of seven nodes.
fn reached(net: &Net, closed: u32) -> u32 {
    let mut nodes = only(net.source as usize);
    for _ in 0..6u32 {
        nodes = one_link_further(net, closed, nodes);
    }
    nodes
}

// How many links the least cut has: where they and those that failed are closed, the sink isn't reached.
pub(super) fn least_cut(net: &Net, sink: u32, failed: u32) -> usize {
    let mut least = 13;
    for links in 0..4096u32 {
        if links.count_ones() < least && !has(reached(net, failed | links), sink as usize) {
            least = links.count_ones();
        }
    }
    least as usize
}

// Whether links that didn't fail follow one another from the source to the sink.
fn is_path(net: &Net, sink: u32, failed: u32, path: &[u32]) -> bool {
    let mut node = net.source;
    for number in path {
        match net.links.as_slice().get(*number as usize) {
            Some(link) if link.tail == node && !has(failed, *number as usize) => node = link.head,
            _ => return false,
        }
    }
    node == sink
}

// The links of a set and of a path, where none stands twice.
fn with_path(links: u32, path: &[u32]) -> Option<u32> {
    let mut more = links;
    for number in path {
        if has(more, *number as usize) {
            return None;
        }
        more |= only(*number as usize);
    }
    Some(more)
}

// Whether no link stands twice, neither in one path nor in two.
fn share_no_link(paths: &[LinkList]) -> bool {
    let mut links = 0;
    for path in paths {
        match with_path(links, path.as_slice()) {
            Some(more) => links = more,
            None => return false,
        }
    }
    true
}

// Whether the first links of the paths rise.
fn first_links_rise(paths: &[LinkList]) -> bool {
    let mut before = None;
    for path in paths {
        let first = path.as_slice().first().copied();
        if first <= before {
            return false;
        }
        before = first;
    }
    true
}

// Whether these are paths that share no link, by their first links.
pub(super) fn are_paths(net: &Net, sink: u32, failed: u32, paths: &[LinkList]) -> bool {
    for path in paths {
        if !is_path(net, sink, failed, path.as_slice()) {
            return false;
        }
    }
    share_no_link(paths) && first_links_rise(paths)
}

// The links that leave a set of nodes and didn't fail.
fn leaving(net: &Net, failed: u32, side: u32) -> u32 {
    let mut links = 0;
    for (number, link) in net.links.as_slice().iter().enumerate() {
        if has(side, link.tail as usize) && !has(side, link.head as usize) && !has(failed, number) {
            links |= only(number);
        }
    }
    links
}

// Whether a set of nodes is a side that at most so many links leave.
fn is_crossed(net: &Net, sink: u32, failed: u32, most: usize, side: u32) -> bool {
    has(side, net.source as usize)
        && !has(side, sink as usize)
        && leaving(net, failed, side).count_ones() as usize <= most
}

// Whether so many links leave the side, and each side that no more links leave has all of its nodes.
pub(super) fn is_least_side(net: &Net, sink: u32, failed: u32, count: usize, side: u32) -> bool {
    for other in 0..128u32 {
        if is_crossed(net, sink, failed, count, other) && side & other != side {
            return false;
        }
    }
    is_crossed(net, sink, failed, count, side)
        && leaving(net, failed, side).count_ones() as usize == count
}
