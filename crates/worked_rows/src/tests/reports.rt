//! Reports of certificates.
use super::network_texts::net_of;
use super::steps::certificate_at;
use net_model::Net;
use report_text::{entry, head};
use std::alloc::Global;

fn is_head(alloc: Global, rate: u32, line: &[u8]) -> bool {
    match head(alloc, rate) {
        Ok(text) => text.as_slice() == line,
        Err(_) => false,
    }
}

#[test]
fn the_first_line(rt: HostRuntime) {
    assert!(rt; is_head(rt.alloc(), 2, b"rate 2\n"));
}

// The butterfly, with a pattern in which both links out of the source fail.
const BUTTERFLY: &[u8] = b"source s\n\
    sink t1\n\
    sink t2\n\
    link s-a s a\n\
    link s-b s b\n\
    link a-t1 a t1\n\
    link b-t2 b t2\n\
    link a-c a c\n\
    link b-c b c\n\
    link c-d c d\n\
    link d-t1 d t1\n\
    link d-t2 d t2\n\
    pattern cut-off s-a s-b\n";

// The lines of each of its demands.
const OF_BUTTERFLY: &[&[u8]] = &[
    b"demand t1 none cut 2\nside s\ncross s-a s-b\npath s-a a-t1\npath s-b b-c c-d d-t1\n",
    b"demand t1 cut-off cut 0\nside s\ncross\n",
    b"demand t2 none cut 2\nside s\ncross s-a s-b\npath s-a a-c c-d d-t2\npath s-b b-t2\n",
    b"demand t2 cut-off cut 0\nside s\ncross\n",
];

// The lines of the certificate of a demand.
fn lines_of(alloc: Global, net: &Net, number: u64) -> Option<Vec<u8>> {
    match certificate_at(alloc, net, number) {
        Some(cert) => entry(alloc, net, &cert).ok(),
        None => None,
    }
}

fn has_lines(alloc: Global, net: &Net, number: u64, lines: &[u8]) -> bool {
    match lines_of(alloc, net, number) {
        Some(text) => text.as_slice() == lines,
        None => false,
    }
}

fn are_reported(alloc: Global, net: &Net, lines: &[&[u8]]) -> bool {
    for number in 0..lines.len() {
        if !has_lines(alloc, net, number as u64, lines[number]) {
            return false;
        }
    }
    true
}

fn is_butterfly_reported(alloc: Global) -> bool {
    match net_of(alloc, BUTTERFLY) {
        Ok(net) => are_reported(alloc, &net, OF_BUTTERFLY),
        Err(_) => false,
    }
}

#[test]
fn the_lines_of_each_demand(rt: HostRuntime) {
    assert!(rt; is_butterfly_reported(rt.alloc()));
}
