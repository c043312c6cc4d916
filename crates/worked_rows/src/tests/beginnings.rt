//! The beginnings of a network's text.
use super::network_texts::net_of;
use net_reader::ReadRefusal::{BadLine, NoSink, NoSource, UnknownLink};
use std::alloc::Global;
use test_support::texts::THREE_CORES_TEXT;

// Cores that may fail, with comments of any bytes.
const FAILING_CORES_TEXT: &[u8] = b"# two edges, three cores\r\n\
    source head   # the head end\r\n\
    sink edge1\r\n\
    sink edge2\r\n\
    \r\n\
    link h-c1 head c1\r\n\
    link h-c2 head c2\r\n\
    link c1-e1 c1 edge1\r\n\
    link c2-e1 c2 edge1\r\n\
    link c1-e2 c1 edge2\t# \x00\xff\r\n\
    link c2-e2 c2 edge2\r\n\
    pattern no-c1 h-c1\r\n\
    pattern no-c2 c2-e2 c2-e1 h-c2\r\n\
    field 16\r\n";

// The number of the last line of a text, which may be empty.
fn last_line(text: &[u8]) -> u64 {
    let mut line = 1u64;
    for &byte in text {
        if byte == b'\n' {
            line = line.saturating_add(1);
        }
    }
    line
}

// Whether each line of a text is good but for the last one, which may not be whole.
fn is_beginning(alloc: Global, text: &[u8]) -> bool {
    match net_of(alloc, text) {
        Ok(_) | Err(NoSource | NoSink) => true,
        Err(BadLine { line } | UnknownLink { line }) => line == last_line(text),
        Err(_) => false,
    }
}

// How many links the network of a text has.
fn link_count(alloc: Global, text: &[u8]) -> Option<usize> {
    match net_of(alloc, text) {
        Ok(net) => Some(net.links.len()),
        Err(_) => None,
    }
}

// The first length at which a text isn't read as it should be: whole, its network has so many links.
fn wrong_length(alloc: Global, text: &[u8], links: usize) -> Option<usize> {
    for len in 0..text.len() {
        if !is_beginning(alloc, &text[..len]) {
            return Some(len);
        }
    }
    if link_count(alloc, text) == Some(links) {
        None
    } else {
        Some(text.len())
    }
}

#[test]
fn every_beginning_is_read(rt: HostRuntime) {
    assert_eq!(rt; wrong_length(rt.alloc(), THREE_CORES_TEXT, 9), None);
    assert_eq!(rt; wrong_length(rt.alloc(), FAILING_CORES_TEXT, 6), None);
}
