//! Greatest flows and least sides of networks from node 0 to node 1.
use super::steps::flow_at;
use super::{are_paths, numbered};
use net_model::{MOST_LINKS, MOST_NODES, Net};
use std::alloc::{AllocError, Global};
use unit_flow::Flow;

// A network with these links, and its flow: where no link fails (0), or where link 0 does (1).
struct Example {
    ends: &'static [(u32, u32)],
    pattern: u64,
    paths: &'static [&'static [u32]],
    side: &'static [bool],
}

const EXAMPLES: &[Example] = &[
    Example {
        ends: &[(0, 1)],
        pattern: 0,
        paths: &[&[0]],
        side: &[true, false],
    },
    // Parallel links.
    Example {
        ends: &[(0, 1), (0, 1)],
        pattern: 0,
        paths: &[&[0], &[1]],
        side: &[true, false],
    },
    // The butterfly: the links s-a, s-b, a-t1, b-t2, a-c, b-c, c-d, d-t1 and d-t2 of the nodes s, t1, a, b, t2, c
    // and d.
    Example {
        ends: &[
            (0, 2),
            (0, 3),
            (2, 1),
            (3, 4),
            (2, 5),
            (3, 5),
            (5, 6),
            (6, 1),
            (6, 4),
        ],
        pattern: 0,
        paths: &[&[0, 2], &[1, 5, 6, 7]],
        side: &[true, false, false, false, false, false, false],
    },
    // The shortest path takes link 1, and the second unit goes back over it.
    Example {
        ends: &[
            (0, 2),
            (2, 3),
            (3, 1),
            (0, 4),
            (4, 5),
            (5, 3),
            (2, 6),
            (6, 7),
            (7, 1),
        ],
        pattern: 0,
        paths: &[&[0, 6, 7, 8], &[3, 4, 5, 2]],
        side: &[true, false, false, false, false, false, false, false],
    },
    // The link that fails cuts all.
    Example {
        ends: &[(2, 1), (0, 2), (0, 3), (2, 3)],
        pattern: 1,
        paths: &[],
        side: &[true, false, true, true],
    },
    // A sink that forwards.
    Example {
        ends: &[(0, 1), (1, 2), (0, 2), (2, 1)],
        pattern: 0,
        paths: &[&[0], &[2, 3]],
        side: &[true, false, false],
    },
    // Links into the source.
    Example {
        ends: &[(2, 0), (0, 2), (0, 3), (2, 1), (3, 0)],
        pattern: 0,
        paths: &[&[1, 3]],
        side: &[true, false, false, true],
    },
];

// Whether a flow has these paths and this side.
fn is_flow(flow: &Flow, paths: &[&[u32]], side: &[bool]) -> bool {
    are_paths(flow.paths.as_slice(), paths) && flow.side.as_slice() == side
}

fn is_found(alloc: Global, net: &Net, example: &Example) -> bool {
    match flow_at(alloc, net, example.pattern) {
        Some(flow) => is_flow(&flow, example.paths, example.side),
        None => false,
    }
}

fn is_example(alloc: Global, example: &Example) -> bool {
    match numbered(alloc, example.ends, &[1], &[&[0]]) {
        Some(net) => is_found(alloc, &net, example),
        None => false,
    }
}

// The first example of which another flow is found.
fn wrong_example(alloc: Global) -> Option<usize> {
    for (row, example) in EXAMPLES.iter().enumerate() {
        if !is_example(alloc, example) {
            return Some(row);
        }
    }
    None
}

#[test]
fn small_networks(rt: HostRuntime) {
    assert!(rt; wrong_example(rt.alloc()).is_none());
}

// How many hops a path through all nodes of a network has, of which there are as many as there can be.
const HOPS: u32 = MOST_NODES as u32 - 1;

// Whether a path takes every second link, from this one on.
fn is_every_second(path: &[u32], first: u32) -> bool {
    if path.len() != HOPS as usize {
        return false;
    }
    for place in 0..HOPS {
        if path[place as usize] != 2 * place + first % 2 {
            return false;
        }
    }
    true
}

// Whether only the first node is on a side.
fn is_source_alone(side: &[bool]) -> bool {
    for node in 0..side.len() {
        if side[node] != (node == 0) {
            return false;
        }
    }
    true
}

fn are_two_paths(flow: &Flow) -> bool {
    flow.paths.len() == 2
        && is_every_second(flow.paths.at(0).as_slice(), 0)
        && is_every_second(flow.paths.at(1).as_slice(), 1)
        && is_source_alone(flow.side.as_slice())
}

fn are_two_paths_found(alloc: Global, net: &Net) -> bool {
    match flow_at(alloc, net, 0) {
        Some(flow) => are_two_paths(&flow),
        None => false,
    }
}

// Two links between each node and the next.
fn path_ends(alloc: Global) -> Result<Vec<(u32, u32)>, AllocError> {
    let mut ends = Vec::new(alloc);
    for link in 0..2 * HOPS {
        let hop = link / 2;
        let tail = if hop == 0 { 0 } else { hop + 1 };
        let head = if hop == HOPS - 1 { 1 } else { hop + 2 };
        ends.push((tail, head))?;
    }
    Ok(ends)
}

fn are_two_paths_of(alloc: Global, ends: &[(u32, u32)]) -> bool {
    match numbered(alloc, ends, &[1], &[]) {
        Some(net) => are_two_paths_found(alloc, &net),
        None => false,
    }
}

fn is_path_found(alloc: Global) -> bool {
    match path_ends(alloc) {
        Ok(ends) => are_two_paths_of(alloc, &ends),
        Err(_) => false,
    }
}

#[test]
fn a_path_of_the_most_nodes(rt: HostRuntime) {
    assert!(rt; is_path_found(rt.alloc()));
}

// Whether each path is the link of its number.
fn are_links(flow: &Flow) -> bool {
    for place in 0..flow.paths.len() {
        let path = flow.paths.at(place);
        if path.len() != 1 || *path.at(0) as usize != place {
            return false;
        }
    }
    flow.paths.len() == MOST_LINKS
}

fn are_links_found(alloc: Global, net: &Net) -> bool {
    match flow_at(alloc, net, 0) {
        Some(flow) => are_links(&flow),
        None => false,
    }
}

fn are_links_of(alloc: Global, ends: &[(u32, u32)]) -> bool {
    match numbered(alloc, ends, &[1], &[]) {
        Some(net) => are_links_found(alloc, &net),
        None => false,
    }
}

fn are_parallel_found(alloc: Global) -> bool {
    let Ok(ends) = vec![in alloc; (0, 1); MOST_LINKS] else {
        return false;
    };
    are_links_of(alloc, &ends)
}

#[test]
fn links_of_one_node(rt: HostRuntime) {
    assert!(rt; are_parallel_found(rt.alloc()));
}
