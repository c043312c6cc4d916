//! A node with as many links as a network may have.
use super::hands::{Span, Worker, Wrong};
use super::repeats::packet_of;
use super::runs::{Hands, open_file};
use generation_frame::Accepted;
use gf_tables::Gf8;
use std::alloc::{AllocError, Global};
use std::test;
use std::thread::Threads;

// How many links leave the node.
const OUTS: u32 = 8191;

// The coefficient of a link: 1 to 255, again and again.
fn times(link: u32) -> u8 {
    (link % 255) as u8 + 1
}

// The name of a link: four digits.
fn name_of(link: u32) -> [u8; 4] {
    [
        b'0' + (link / 1000 % 10) as u8,
        b'0' + (link / 100 % 10) as u8,
        b'0' + (link / 10 % 10) as u8,
        b'0' + (link % 10) as u8,
    ]
}

// The file of a code of which one link leads into a node, and 8191 from that to the sink. The sink takes in link 255, of
// which the coefficient is 1.
fn file_of(alloc: Global) -> Result<Vec<u8>, AllocError> {
    let mut file = Vec::new(alloc);
    file.extend_from_slice(b"LIFC\x01\x08\x01\x00\x03\x01s\x01a\x01t\x20\x00")?;
    file.extend_from_slice(b"\x01i\x00\x00\x00\x01")?;
    for link in 1..=OUTS {
        file.push(4)?;
        file.extend_from_slice(&name_of(link))?;
        file.extend_from_slice(b"\x00\x01\x00\x02")?;
    }
    file.extend_from_slice(b"\x00\x00\x00\x01\x00\x02\x00\x00\x00\x01\x00\x00\x01")?;
    for link in 1..=OUTS {
        file.extend_from_slice(b"\x00\x01\x00\x00")?;
        file.push(times(link))?;
    }
    file.extend_from_slice(b"\x00\xff\x01")?;
    Ok(file)
}

// Whether the node gives a piece of 1s on each link, in order, times its coefficient, and then nothing.
fn gives_on_each(worker: &mut Worker<Gf8>, generation: u32, piece: u8) -> bool {
    for link in 1..=OUTS {
        if worker.next_out() != Some(packet_of(link, generation, piece, times(link))) {
            return false;
        }
    }
    worker.next_out().is_none()
}

// Whether a piece comes once, and is given on each link once.
fn comes_once(worker: &mut Worker<Gf8>, generation: u32, piece: u8) -> Result<bool, Wrong> {
    let packet = packet_of(0, generation, piece, 1);
    Ok(
        worker.accept(&packet)? == Accepted::New
            && gives_on_each(worker, generation, piece)
            && worker.accept(&packet)? == Accepted::Known
            && worker.next_out().is_none(),
    )
}

// Pieces, each of another generation.
const PIECES: &[(u32, u8)] = &[(0, 0), (3, 7), (1, 4)];

// Whether they come once.
fn each_comes_once(worker: &mut Worker<Gf8>) -> Result<bool, Wrong> {
    for &(generation, piece) in PIECES {
        if !comes_once(worker, generation, piece)? {
            return Ok(false);
        }
    }
    Ok(true)
}

// Whether they do at the node of the code of a file.
fn each_comes_to_node<R: Threads + Sync>(
    rt: &R,
    alloc: Global,
    file: &[u8],
    hands: &mut Hands<Gf8>,
) -> Result<bool, Wrong> {
    open_file(rt, alloc, file, Span::of(0, 4)?, hands)?;
    match hands.workers.get_mut(1) {
        Some(worker) => each_comes_once(worker),
        None => Err(Wrong::Call),
    }
}

// The same, of that code.
fn each_comes_through<R: Threads + Sync>(rt: &R, alloc: Global) -> Result<bool, Wrong> {
    let file = file_of(alloc)?;
    let mut hands = Hands::new(alloc);
    each_comes_to_node(rt, alloc, &file, &mut hands)
}

#[test]
fn a_node_gives_on_8191_links(rt: HostRuntime) {
    assert_eq!(rt; each_comes_through(&rt, rt.alloc()), Ok(true));
}
