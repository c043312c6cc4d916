//! Texts of networks, and the parts of the networks that they stand for.
use super::network_texts::{HEAD, net_of};
use net_model::{FieldChoice, Net};
use std::alloc::Global;
use test_support::networks::{has_links, has_nodes};
use test_support::texts::{BUTTERFLY_TEXT, ONE_LINK_TEXT};

// A text in pieces, and the parts of its network.
struct Good {
    text: &'static [&'static [u8]],
    nodes: &'static [&'static [u8]],
    // Names, tails and heads.
    links: &'static [(&'static [u8], u32, u32)],
    source: u32,
    sinks: &'static [u32],
    patterns: &'static [(&'static [u8], &'static [u32])],
    field: FieldChoice,
}

const PLAIN: &[Good] = &[
    Good {
        text: &[ONE_LINK_TEXT],
        nodes: &[b"s", b"t"],
        links: &[(b"l", 0, 1)],
        source: 0,
        sinks: &[1],
        patterns: &[(b"none", &[])],
        field: FieldChoice::Any,
    },
    // The butterfly.
    Good {
        text: &[BUTTERFLY_TEXT, b"field 8\n"],
        nodes: &[b"s", b"t1", b"t2", b"a", b"b", b"c", b"d"],
        links: &[
            (b"s-a", 0, 3),
            (b"s-b", 0, 4),
            (b"a-t1", 3, 1),
            (b"b-t2", 4, 2),
            (b"a-c", 3, 5),
            (b"b-c", 4, 5),
            (b"c-d", 5, 6),
            (b"d-t1", 6, 1),
            (b"d-t2", 6, 2),
        ],
        source: 0,
        sinks: &[1, 2],
        patterns: &[(b"none", &[])],
        field: FieldChoice::Eight,
    },
    // Comments, and line ends of two bytes.
    Good {
        text: &[HEAD],
        nodes: &[b"s", b"t"],
        links: &[(b"l", 0, 1)],
        source: 0,
        sinks: &[1],
        patterns: &[(b"none", &[]), (b"p", &[0])],
        field: FieldChoice::Eight,
    },
];

const UNUSUAL: &[Good] = &[
    // The lines in another order, and patterns that name their links in falling order.
    Good {
        text: &[
            b"field 16\r\n\
            link p u t # the head before the source\r\n\
            link q s u\r\n\
            link r s t\r\n\
            pattern two r p\r\n\
            sink w\r\n\
            pattern all r q p\r\n\
            sink t\r\n\
            source s",
        ],
        nodes: &[b"u", b"t", b"s", b"w"],
        links: &[(b"p", 0, 1), (b"q", 2, 0), (b"r", 2, 1)],
        source: 2,
        sinks: &[3, 1],
        patterns: &[(b"none", &[]), (b"two", &[0, 2]), (b"all", &[0, 1, 2])],
        field: FieldChoice::Sixteen,
    },
    // A node, a link and a pattern have one name, which may be a first word, and `none` is no name of a node.
    Good {
        text: &[b"source link\nlink link link none\npattern link link\nsink none"],
        nodes: &[b"link", b"none"],
        links: &[(b"link", 0, 1)],
        source: 0,
        sinks: &[1],
        patterns: &[(b"none", &[]), (b"link", &[0])],
        field: FieldChoice::Any,
    },
    // The longest name, each kind of byte in names, and a cycle.
    Good {
        text: &[
            b"source aA0_-.zZ9\nlink none aA0_-.zZ9 12345678901234567890123456789012\n\
            link - 12345678901234567890123456789012 aA0_-.zZ9#\nsink 12345678901234567890123456789012\n",
        ],
        nodes: &[b"aA0_-.zZ9", b"12345678901234567890123456789012"],
        links: &[(b"none", 0, 1), (b"-", 1, 0)],
        source: 0,
        sinks: &[1],
        patterns: &[(b"none", &[])],
        field: FieldChoice::Any,
    },
];

fn is_pattern(net: &Net, place: usize, name: &[u8], links: &[u32]) -> bool {
    if place >= net.patterns.len() {
        return false;
    }
    let pattern = net.patterns.at(place);
    pattern.name.bytes() == name && pattern.links.as_slice() == links
}

fn has_patterns(net: &Net, patterns: &[(&[u8], &[u32])]) -> bool {
    for (place, &(name, links)) in patterns.iter().enumerate() {
        if !is_pattern(net, place, name, links) {
            return false;
        }
    }
    net.patterns.len() == patterns.len()
}

fn has_parts(net: &Net, good: &Good) -> bool {
    has_nodes(net, good.nodes)
        && has_links(net, good.links)
        && net.source == good.source
        && net.sinks.as_slice() == good.sinks
        && has_patterns(net, good.patterns)
        && net.field == good.field
}

// Whether a text stands for a network of these parts.
fn is_network(alloc: Global, text: &[u8], good: &Good) -> bool {
    match net_of(alloc, text) {
        Ok(net) => has_parts(&net, good),
        Err(_) => false,
    }
}

fn is_read(alloc: Global, good: &Good) -> bool {
    match good.text.concat(alloc) {
        Ok(text) => is_network(alloc, &text, good),
        Err(_) => false,
    }
}

// The first row of a table whose text doesn't stand for its network.
fn wrong_row(alloc: Global, table: &[Good]) -> Option<usize> {
    for (row, good) in table.iter().enumerate() {
        if !is_read(alloc, good) {
            return Some(row);
        }
    }
    None
}

#[test]
fn plain_networks_are_read(rt: HostRuntime) {
    assert_eq!(rt; wrong_row(rt.alloc(), PLAIN), None);
}

#[test]
fn unusual_networks_are_read(rt: HostRuntime) {
    assert_eq!(rt; wrong_row(rt.alloc(), UNUSUAL), None);
}
