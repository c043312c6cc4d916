//! Combination networks, and the bytes of a source.
use net_maker::{combination, demo_fits, source_byte};
use net_model::Net;
use std::alloc::Global;
use test_support::networks::{has_links, has_nodes};

// The nodes of the network with a sink behind each two of four.
const NODES: &[&[u8]] = &[
    b"s", b"m1", b"m2", b"m3", b"m4", b"t1", b"t2", b"t3", b"t4", b"t5", b"t6",
];

// The names of its links, with their tails and heads.
const LINKS: &[(&[u8], u32, u32)] = &[
    (b"a1", 0, 1),
    (b"a2", 0, 2),
    (b"a3", 0, 3),
    (b"a4", 0, 4),
    (b"b1-1", 1, 5),
    (b"b1-2", 2, 5),
    (b"b2-1", 1, 6),
    (b"b2-3", 3, 6),
    (b"b3-1", 1, 7),
    (b"b3-4", 4, 7),
    (b"b4-2", 2, 8),
    (b"b4-3", 3, 8),
    (b"b5-2", 2, 9),
    (b"b5-4", 4, 9),
    (b"b6-3", 3, 10),
    (b"b6-4", 4, 10),
];

// The network, if it is made.
fn made(alloc: Global, n: u32, k: u32) -> Option<Net> {
    if demo_fits(n, k) {
        combination(alloc, n, k).ok()
    } else {
        None
    }
}

// How many nodes, links and sinks there are.
fn counts(net: &Net) -> (usize, usize, usize) {
    (net.nodes.len(), net.links.len(), net.sinks.len())
}

fn has_parts(net: &Net) -> bool {
    counts(net) == (11, 16, 6) && has_nodes(net, NODES) && has_links(net, LINKS)
}

fn is_two_of_four(alloc: Global) -> bool {
    match made(alloc, 4, 2) {
        Some(net) => has_parts(&net),
        None => false,
    }
}

#[test]
fn a_sink_stands_behind_each_two_of_four(rt: HostRuntime) {
    assert!(rt; is_two_of_four(rt.alloc()));
}

fn is_largest(alloc: Global) -> bool {
    match made(alloc, 26, 3) {
        Some(net) => counts(&net) == (2627, 7826, 2600),
        None => false,
    }
}

#[test]
fn the_largest_is_made(rt: HostRuntime) {
    assert!(rt; is_largest(rt.alloc()));
}

// The first numbers of a table for which it isn't so that networks are made, or that none are.
fn otherwise(table: &[(u32, u32)], fits: bool) -> Option<(u32, u32)> {
    for &(n, k) in table {
        if demo_fits(n, k) != fits {
            return Some((n, k));
        }
    }
    None
}

#[test]
fn these_fit(rt: HostRuntime) {
    let table = [
        (1, 1),
        (4, 2),
        (23, 2),
        (24, 2),
        (64, 1),
        (64, 2),
        (32, 32),
        (33, 32),
        (12, 6),
        (26, 3),
    ];
    assert_eq!(rt; otherwise(&table, true), None);
}

#[test]
fn these_do_not(rt: HostRuntime) {
    let table = [
        (0, 0),
        (0, 1),
        (1, 0),
        (2, 3),
        (65, 1),
        (33, 33),
        (27, 3),
        (17, 4),
        (64, 3),
        (64, 32),
        (u32::MAX, 1),
    ];
    assert_eq!(rt; otherwise(&table, false), None);
}

// Whether the source begins with these bytes.
fn begins(bytes: &[u8]) -> bool {
    for (place, &byte) in bytes.iter().enumerate() {
        if source_byte(place as u64) != byte {
            return false;
        }
    }
    true
}

#[test]
fn the_source_begins_with_these_bytes(rt: HostRuntime) {
    assert!(rt; begins(&[5, 172, 83, 250, 161, 72, 239, 150, 61, 228]));
}
