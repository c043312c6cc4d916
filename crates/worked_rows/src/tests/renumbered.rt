//! Networks whose links get new numbers.
use super::network_texts::net_of;
use net_model::{FieldChoice, Link, Net, Pattern};
use std::alloc::Global;

// A link by its name, tail and head, and a pattern by its name and links.
type Ends = (&'static [u8], u32, u32);

type Failing = (&'static [u8], &'static [u32]);

// A network of three nodes, and what it is with its links in another order and with a field.
struct Example {
    text: &'static [u8],
    field: FieldChoice,
    links: &'static [Ends],
    patterns: &'static [Failing],
}

const EXAMPLES: &[Example] = &[
    // The last link comes first. The first and the last fail together.
    Example {
        text: b"source s\n\
            link sm s m\n\
            link mt m t\n\
            link st s t\n\
            sink t\n\
            pattern both sm st\n",
        field: FieldChoice::Eight,
        links: &[(b"st", 0, 2), (b"sm", 0, 1), (b"mt", 1, 2)],
        patterns: &[(b"none", &[]), (b"both", &[0, 1])],
    },
    Example {
        text: b"source s\nsink m\nsink t\n",
        field: FieldChoice::Sixteen,
        links: &[],
        patterns: &[(b"none", &[])],
    },
];

// The network with the last of three links first, or with no links.
fn renumbered(alloc: Global, net: &Net, field: FieldChoice) -> Option<Net> {
    match net.links.len() {
        0 => net.renumbered(alloc, &[], field).ok(),
        3 => net.renumbered(alloc, &[2, 0, 1], field).ok(),
        _ => None,
    }
}

fn is_link(link: &Link, wanted: Ends) -> bool {
    let (name, tail, head) = wanted;
    link.name.bytes() == name && link.tail == tail && link.head == head
}

fn are_links(links: &[Link], wanted: &[Ends]) -> bool {
    if links.len() != wanted.len() {
        return false;
    }
    for place in 0..wanted.len() {
        if !is_link(&links[place], wanted[place]) {
            return false;
        }
    }
    true
}

fn is_pattern(pattern: &Pattern, wanted: Failing) -> bool {
    let (name, links) = wanted;
    pattern.name.bytes() == name && pattern.links.as_slice() == links
}

fn are_patterns(patterns: &[Pattern], wanted: &[Failing]) -> bool {
    if patterns.len() != wanted.len() {
        return false;
    }
    for place in 0..wanted.len() {
        if !is_pattern(&patterns[place], wanted[place]) {
            return false;
        }
    }
    true
}

fn is_network(net: &Net, example: &Example) -> bool {
    net.nodes.len() == 3
        && net.field == example.field
        && are_links(net.links.as_slice(), example.links)
        && are_patterns(net.patterns.as_slice(), example.patterns)
}

fn is_renumbered(alloc: Global, net: &Net, example: &Example) -> bool {
    match renumbered(alloc, net, example.field) {
        Some(new) => is_network(&new, example),
        None => false,
    }
}

fn is_example(alloc: Global, example: &Example) -> bool {
    match net_of(alloc, example.text) {
        Ok(net) => is_renumbered(alloc, &net, example),
        Err(_) => false,
    }
}

// The first example that becomes another network.
fn wrong_example(alloc: Global) -> Option<usize> {
    for (row, example) in EXAMPLES.iter().enumerate() {
        if !is_example(alloc, example) {
            return Some(row);
        }
    }
    None
}

#[test]
fn links_in_a_new_order(rt: HostRuntime) {
    assert!(rt; wrong_example(rt.alloc()).is_none());
}
