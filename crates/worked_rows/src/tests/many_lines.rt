//! Texts with as many nodes, links and patterns as there may be, and with one more.
use super::network_texts::{net_of, refusal};
use net_reader::ReadRefusal::TooMany;
use net_reader::{ReadRefusal, What};
use std::alloc::{AllocError, Global};
use test_support::texts::numbered;

// A first piece of a text, then so many lines, each with its number between words, and a last piece.
struct Lines {
    first: &'static str,
    before: &'static str,
    behind: &'static str,
    count: u64,
    last: &'static str,
}

fn text_of(alloc: Global, lines: &Lines) -> Result<String, AllocError> {
    let mut text = numbered(alloc, lines.first, lines.before, lines.behind, lines.count)?;
    text.push_str(lines.last)?;
    Ok(text)
}

// How many nodes, links and patterns the network of a text has.
fn sizes(alloc: Global, text: &[u8]) -> Option<[usize; 3]> {
    match net_of(alloc, text) {
        Ok(net) => Some([net.nodes.len(), net.links.len(), net.patterns.len()]),
        Err(_) => None,
    }
}

fn has_sizes(alloc: Global, lines: &Lines, want: [usize; 3]) -> bool {
    match text_of(alloc, lines) {
        Ok(text) => sizes(alloc, text.as_bytes()) == Some(want),
        Err(_) => false,
    }
}

const FULL: &[(Lines, [usize; 3])] = &[
    (
        Lines {
            first: "source s\n",
            before: "sink t",
            behind: "\n",
            count: 4095,
            last: "",
        },
        [4096, 0, 1],
    ),
    (
        Lines {
            first: "source s\nsink t\n",
            before: "link l",
            behind: " s t\n",
            count: 8192,
            last: "",
        },
        [2, 8192, 1],
    ),
    (
        Lines {
            first: "source s\nsink t\nlink l s t\n",
            before: "pattern p",
            behind: " l\n",
            count: 4095,
            last: "",
        },
        [2, 1, 4096],
    ),
];

// The first row whose network has other sizes.
fn wrong_sizes(alloc: Global) -> Option<usize> {
    for (row, (lines, want)) in FULL.iter().enumerate() {
        if !has_sizes(alloc, lines, *want) {
            return Some(row);
        }
    }
    None
}

#[test]
fn as_many_as_may_be(rt: HostRuntime) {
    assert_eq!(rt; wrong_sizes(rt.alloc()), None);
}

fn is_refused(alloc: Global, lines: &Lines, why: ReadRefusal) -> bool {
    match text_of(alloc, lines) {
        Ok(text) => refusal(alloc, text.as_bytes()) == Some(why),
        Err(_) => false,
    }
}

const NODES: Lines = Lines {
    first: "#\n",
    before: "sink t",
    behind: "\n",
    count: 4096,
    last: "",
};

// With the last line there is one too many.
const OVER: &[(Lines, ReadRefusal)] = &[
    (
        Lines {
            last: "sink t\n",
            ..NODES
        },
        TooMany {
            line: 4098,
            what: What::Nodes,
        },
    ),
    (
        Lines {
            last: "source s\n",
            ..NODES
        },
        TooMany {
            line: 4098,
            what: What::Nodes,
        },
    ),
    (
        Lines {
            last: "\nlink l t0 t",
            ..NODES
        },
        TooMany {
            line: 4099,
            what: What::Nodes,
        },
    ),
    // The tail is the last node that there may be.
    (
        Lines {
            first: "",
            count: 4095,
            last: "link l s t\n",
            ..NODES
        },
        TooMany {
            line: 4096,
            what: What::Nodes,
        },
    ),
    (
        Lines {
            first: "",
            before: "link l",
            behind: " s t\n",
            count: 8192,
            last: "link l t s\n",
        },
        TooMany {
            line: 8193,
            what: What::Links,
        },
    ),
    (
        Lines {
            first: "link l s t\n",
            before: "pattern p",
            behind: " l\n",
            count: 4095,
            last: "pattern p l",
        },
        TooMany {
            line: 4097,
            what: What::Patterns,
        },
    ),
];

// The first row whose text isn't refused so.
fn wrong_refusal(alloc: Global) -> Option<usize> {
    for (row, (lines, why)) in OVER.iter().enumerate() {
        if !is_refused(alloc, lines, *why) {
            return Some(row);
        }
    }
    None
}

#[test]
fn one_too_many(rt: HostRuntime) {
    assert_eq!(rt; wrong_refusal(rt.alloc()), None);
}
