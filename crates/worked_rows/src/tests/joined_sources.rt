//! Networks in which one node feeds two sources, and codes whose links out of the source carry a row each.
ghost use Rattle.std.specs.Prelude.{◌≡◌, true};
ghost use Rattle.two_sources.specs.Separated.{HasFirstLinks};

use super::codes::is_file_of;
use super::network_texts::net_of;
use gf_tables::{FieldKind, Gf8};
use net_model::{FieldChoice, Net};
use node_program::Code;
use std::alloc::{AllocError, Global};
use std::thread::Threads;
use test_support::codes::checked_of;
use test_support::networks::{has_links, has_nodes};
use two_sources::JoinRefusal::{NameTaken, TooMany};
use two_sources::{JoinRefusal, join_sources, separate};

// The network of a text, joined with a node by so many links each.
fn joined(
    alloc: Global,
    text: &[u8],
    second: u32,
    r1: u32,
    r2: u32,
) -> Option<Result<Net, JoinRefusal>> {
    let net = net_of(alloc, text).ok()?;
    if second as usize >= net.nodes.len() || r1 < 1 || r2 < 1 || r1 > 32 || r2 > 32 - r1 {
        return None;
    }
    Some(join_sources(alloc, &net, second, r1, r2))
}

// Two nodes with a file each, and two sinks that want both.
const TRUNK: &[u8] = b"source a\nsink t1\nsink t2\n\
    link a-t1 a t1\nlink a-c a c\nlink b-c b c\nlink b-t2 b t2\n\
    link c-d c d\nlink d-t1 d t1\nlink d-t2 d t2\n\
    pattern p a-c d-t2\nfield 16\nrate 7\n";

// Whether it is joined at `b` by two links and one.
fn trunk_is_joined(alloc: Global) -> Option<bool> {
    let net = joined(alloc, TRUNK, 4, 2, 1)?.ok()?;
    let links: &[(&[u8], u32, u32)] = &[
        (b"super.1.1", 6, 0),
        (b"super.1.2", 6, 0),
        (b"super.2.1", 6, 4),
        (b"a-t1", 0, 1),
        (b"a-c", 0, 3),
        (b"b-c", 4, 3),
        (b"b-t2", 4, 2),
        (b"c-d", 3, 5),
        (b"d-t1", 5, 1),
        (b"d-t2", 5, 2),
    ];
    let nodes: &[&[u8]] = &[b"a", b"t1", b"t2", b"c", b"b", b"d", b"super"];
    let pattern = net.patterns.as_slice().get(1)?;
    Some(
        has_nodes(&net, nodes)
            && has_links(&net, links)
            && net.source == 6
            && net.sinks.as_slice() == [1, 2].as_slice()
            && net.patterns.len() == 2
            && pattern.name.bytes() == b"p".as_slice()
            && pattern.links.as_slice() == [4, 9].as_slice()
            && net.field == FieldChoice::Sixteen
            && net.wanted == Some(3),
    )
}

#[test]
fn both_sources_stand_behind_one_node(rt: HostRuntime) {
    assert_eq!(rt; trunk_is_joined(rt.alloc()), Some(true));
}

// A text, a second node, and how many links lead into the source and into that node.
type Row = (&'static [u8], u32, u32, u32);

// Texts whose sources are joined.
const JOINED: &[Row] = &[
    (TRUNK, 0, 16, 16),
    (TRUNK, 1, 31, 1),
    (b"source a\nsink t\nlink super.1.2 a t\n", 0, 1, 1),
    (b"source a\nsink t\nlink super.2.01 a t\n", 0, 1, 1),
    (b"source a\nsink t\nlink super.12 a t x2\n", 0, 12, 12),
    (b"source a\nsink t\nlink l a t x8190\n", 0, 1, 1),
];

// Texts that have a node or a link of a name that is made.
const TAKEN: &[Row] = &[
    (b"source a\nsink t\nlink l a super\n", 0, 1, 1),
    (b"source super\nsink t\nlink l super t\n", 1, 1, 1),
    (b"source a\nsink t\nlink super.1.1 a t\n", 0, 1, 1),
    (b"source a\nsink t\nlink super.1.2 a t\n", 0, 2, 1),
    (b"source a\nsink t\nlink super.2 a t x9\n", 0, 1, 1),
    (b"source a\nsink t\nlink l a super x8192\n", 0, 1, 1),
];

// Texts with too many links for those that are made.
const FULL: &[Row] = &[
    (b"source a\nsink t\nlink l a t x8190\n", 0, 1, 2),
    (b"source a\nsink t\nlink l a t x8192\n", 1, 1, 1),
];

// The first row that isn't refused for this, or isn't joined where there is no such refusal.
fn first_otherwise(alloc: Global, rows: &[Row], why: Option<JoinRefusal>) -> Option<usize> {
    for (row, &(text, second, r1, r2)) in rows.iter().enumerate() {
        let Some(made) = joined(alloc, text, second, r1, r2) else {
            return Some(row);
        };
        if made.err() != why {
            return Some(row);
        }
    }
    None
}

#[test]
fn names_and_room_decide_what_is_joined(rt: HostRuntime) {
    assert_eq!(rt; first_otherwise(rt.alloc(), JOINED, None), None);
    assert_eq!(rt; first_otherwise(rt.alloc(), TAKEN, Some(NameTaken)), None);
    assert_eq!(rt; first_otherwise(rt.alloc(), FULL, Some(TooMany)), None);
}

// Whether the links out of a code's source are its first, as many as the rate.
fn has_first_links(code: &Code) -> bool
    ensures { result ≡ true → HasFirstLinks code.now.net code.now.rate }
{
    for link in 0..code.net.links.len() {
        if code.net.leaves_source(link as u32) != (link < code.rate as usize) {
            return false;
        }
    }
    code.rate as usize <= code.net.links.len()
}

// The front of the code files of that network, joined by one link each.
const FRONT: &[u8] = b"LIFC\x02\x08\x02\
    \x00\x07\x01a\x02t1\x02t2\x01c\x01b\x01d\x05super\
    \x00\x09\
    \x09super.1.1\x00\x06\x00\x00\
    \x09super.2.1\x00\x06\x00\x04\
    \x04a-t1\x00\x00\x00\x01\
    \x03a-c\x00\x00\x00\x03\
    \x03b-c\x00\x04\x00\x03\
    \x04b-t2\x00\x04\x00\x02\
    \x03c-d\x00\x03\x00\x05\
    \x04d-t1\x00\x05\x00\x01\
    \x04d-t2\x00\x05\x00\x02\
    \x00\x06\x00\x02\x00\x01\x00\x02\x00\x00";

// What the links behind the first two add up.
const REST: &[u8] = b"\x00\x01\x00\x00\x01\
    \x00\x01\x00\x00\x01\
    \x00\x01\x00\x01\x01\
    \x00\x01\x00\x01\x01\
    \x00\x02\x00\x03\x01\x00\x04\x01\
    \x00\x01\x00\x06\x01\
    \x00\x01\x00\x06\x01";

// The first link carries twice the first row and the second one. So `c-d` carries twice the first row, of which the sinks take
// the half.
const SUMS: &[u8] = b"\x00\x02\x00\x00\x02\x00\x01\x01\
    \x00\x01\x00\x01\x01";

const OF_SUMS: &[u8] = b"\x00\x00\x00\x00\x00\x02\x00\x07\x00\x8E\x01\x01\
    \x00\x00\x00\x00\x00\x05\x00\x08\x00\x8E\x01\x00";

// Each carries a row. So `c-d` carries their sum.
const ROWS: &[u8] = b"\x00\x01\x00\x00\x01\
    \x00\x01\x00\x01\x01";

const OF_ROWS: &[u8] = b"\x00\x00\x00\x00\x00\x02\x00\x07\x01\x00\x01\x01\
    \x00\x00\x00\x00\x00\x05\x00\x08\x01\x01\x01\x00";

// A code file of that network, with these operands of the first two links and these decoders.
fn file_with(alloc: Global, first: &[u8], decoders: &[u8]) -> Result<Vec<u8>, AllocError> {
    let mut file = Vec::from_slice(alloc, FRONT)?;
    file.extend_from_slice(first)?;
    file.extend_from_slice(REST)?;
    file.extend_from_slice(decoders)?;
    Ok(file)
}

// Whether the code of a file is separated to that of another.
#[tactic(auto, unfolding(gf_tables::specs::Product::product))]
fn becomes<R: Threads + Sync>(rt: &R, alloc: Global, old: &[u8], new: &[u8]) -> Option<bool> {
    let code = checked_of(rt, alloc, old).ok()?;
    if code.code().field != FieldKind::Eight || !has_first_links(code.code()) {
        return None;
    }
    let separated = separate::<Gf8>(alloc, &code).ok()?;
    Some(is_file_of(alloc, new, &separated))
}

// Whether both codes are separated to the one whose links carry a row each.
fn both_become_rows<R: Threads + Sync>(rt: &R, alloc: Global) -> Option<bool> {
    let sums = file_with(alloc, SUMS, OF_SUMS).ok()?;
    let rows = file_with(alloc, ROWS, OF_ROWS).ok()?;
    Some(becomes(rt, alloc, &sums, &rows)? && becomes(rt, alloc, &rows, &rows)?)
}

#[test]
fn first_links_carry_a_row_each(rt: HostRuntime) {
    assert_eq!(rt; both_become_rows(&rt, rt.alloc()), Some(true));
}
