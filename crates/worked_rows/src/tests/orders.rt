//! Orders of the links of networks, and cycles.
use super::numbered;
use net_model::{MOST_LINKS, MOST_NODES, Net};
use std::alloc::{AllocError, Global};
use topo_order::{OrderRefusal, order};

// What links are shown to be.
#[derive(Clone, Copy, PartialEq, Eq)]
enum Shown {
    // All links in order.
    Order,
    Cycle,
}

// A network with these links, from node 0 to node 1, and what is shown of it.
struct Example {
    ends: &'static [(u32, u32)],
    shown: Shown,
    links: &'static [u32],
}

const EXAMPLES: &[Example] = &[
    Example {
        ends: &[],
        shown: Shown::Order,
        links: &[],
    },
    Example {
        ends: &[(0, 1)],
        shown: Shown::Order,
        links: &[0],
    },
    // Parallel links.
    Example {
        ends: &[(0, 1), (0, 1), (0, 1)],
        shown: Shown::Order,
        links: &[0, 1, 2],
    },
    // The links of the butterfly, from the sinks back.
    Example {
        ends: &[
            (2, 3),
            (2, 4),
            (5, 2),
            (6, 3),
            (1, 4),
            (6, 5),
            (1, 5),
            (0, 6),
            (0, 1),
        ],
        shown: Shown::Order,
        links: &[7, 3, 5, 8, 4, 6, 2, 0, 1],
    },
    // A loop of two.
    Example {
        ends: &[(0, 1), (2, 1), (1, 2)],
        shown: Shown::Cycle,
        links: &[1, 2],
    },
    // A link leads to the cycle, and another, which is found first, away from it.
    Example {
        ends: &[(2, 3), (0, 1), (1, 4), (2, 1), (4, 2)],
        shown: Shown::Cycle,
        links: &[2, 4, 3],
    },
];

// Whether that is shown of a network.
fn is_shown(alloc: Global, net: &Net, shown: Shown, links: &[u32]) -> bool {
    match order(alloc, net) {
        Ok(order) => shown == Shown::Order && order.as_slice() == links,
        Err(OrderRefusal::Cyclic { links: cycle }) => {
            shown == Shown::Cycle && cycle.as_slice() == links
        }
        Err(OrderRefusal::OutOfMemory) => false,
    }
}

// Whether that is shown of a network with these links.
fn is_shown_of(alloc: Global, ends: &[(u32, u32)], shown: Shown, links: &[u32]) -> bool {
    match numbered(alloc, ends, &[1], &[]) {
        Some(net) => is_shown(alloc, &net, shown, links),
        None => false,
    }
}

fn is_example(alloc: Global, example: &Example) -> bool {
    is_shown_of(alloc, example.ends, example.shown, example.links)
}

// The first example of which another thing is shown.
fn wrong_example(alloc: Global) -> Option<usize> {
    for (row, example) in EXAMPLES.iter().enumerate() {
        if !is_example(alloc, example) {
            return Some(row);
        }
    }
    None
}

#[test]
fn orders_and_cycles(rt: HostRuntime) {
    assert!(rt; wrong_example(rt.alloc()).is_none());
}

// The numbers below a bound.
fn rising(alloc: Global, bound: u32) -> Result<Vec<u32>, AllocError> {
    let mut numbers = Vec::new(alloc);
    for number in 0..bound {
        numbers.push(number)?;
    }
    Ok(numbers)
}

// As many nodes as there can be.
const NODES: u32 = MOST_NODES as u32;

// Whether the first links, so many, are shown of a network with these links.
fn are_first_shown(alloc: Global, ends: &[(u32, u32)], shown: Shown, count: u32) -> bool {
    match rising(alloc, count) {
        Ok(links) => is_shown_of(alloc, ends, shown, &links),
        Err(_) => false,
    }
}

// A link from each node to the next, and from the last to the first.
fn loop_ends(alloc: Global) -> Result<Vec<(u32, u32)>, AllocError> {
    let mut ends = Vec::new(alloc);
    for node in 0..NODES {
        ends.push((node, (node + 1) % NODES))?;
    }
    Ok(ends)
}

fn is_loop_shown(alloc: Global) -> bool {
    match loop_ends(alloc) {
        Ok(ends) => are_first_shown(alloc, &ends, Shown::Cycle, NODES),
        Err(_) => false,
    }
}

#[test]
fn a_loop_of_the_most_nodes(rt: HostRuntime) {
    assert!(rt; is_loop_shown(rt.alloc()));
}

fn are_parallel_shown(alloc: Global) -> bool {
    let Ok(ends) = vec![in alloc; (0, 1); MOST_LINKS] else {
        return false;
    };
    are_first_shown(alloc, &ends, Shown::Order, MOST_LINKS as u32)
}

#[test]
fn links_of_one_node(rt: HostRuntime) {
    assert!(rt; are_parallel_shown(rt.alloc()));
}

// Two links into each node from the one above, and into the last from the source.
fn path_ends(alloc: Global) -> Result<Vec<(u32, u32)>, AllocError> {
    let mut ends = Vec::new(alloc);
    for link in 0..2 * (NODES - 1) {
        let node = link / 2 + 1;
        ends.push(((node + 1) % NODES, node))?;
    }
    Ok(ends)
}

// The order of those: the two into node 1 come first.
fn path_links(alloc: Global) -> Result<Vec<u32>, AllocError> {
    let mut links = Vec::new(alloc);
    for link in 0..2 * (NODES - 1) {
        links.push(2 * (NODES - 2 - link / 2) + link % 2)?;
    }
    Ok(links)
}

fn is_path_order(alloc: Global, ends: &[(u32, u32)]) -> bool {
    match path_links(alloc) {
        Ok(links) => is_shown_of(alloc, ends, Shown::Order, &links),
        Err(_) => false,
    }
}

fn is_path_shown(alloc: Global) -> bool {
    match path_ends(alloc) {
        Ok(ends) => is_path_order(alloc, &ends),
        Err(_) => false,
    }
}

#[test]
fn a_path_of_the_most_nodes(rt: HostRuntime) {
    assert!(rt; is_path_shown(rt.alloc()));
}
