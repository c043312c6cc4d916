//! How many frames are put for a block, and which bytes they have.
use super::carrying::{Course, file_carries};
use lif_outside::{Flight, SeedLinks};
use std::alloc::Global;
use std::test;
use std::thread::Threads;
use test_support::files::{BUTTERFLY, ONE_LINK, TWO_WAYS};
use test_support::watched::watch;

// How many pairs were put, and the frame of one piece on one link.
fn count_and_frame(puts: &[Flight], link: u32, piece: u8) -> (usize, Option<[u8; 140]>) {
    let put = puts
        .iter()
        .find(|put| put.link == link && put.frame[3] == piece);
    (puts.len(), put.map(|put| put.frame))
}

// How many frames a code puts for a block under a pattern, and the frame of one piece on one link.
fn put_for<R: Threads + Sync>(
    rt: &R,
    alloc: Global,
    file: &[u8],
    pattern: u32,
    block: &[u8],
    link: u32,
    piece: u8,
) -> Option<(usize, Option<[u8; 140]>)> {
    let course = Course {
        pattern,
        seed: 0,
        blocks: 1,
        windows: 1,
    };
    let mut links = watch(alloc, SeedLinks::new(alloc));
    if !file_carries(rt, alloc, file, course, &mut links, block) {
        return None;
    }
    Some(count_and_frame(&links.calls.puts, link, piece))
}

// Whether so many frames are put, among them one with these bytes and then one byte again and again.
fn are_put(put: Option<(usize, Option<[u8; 140]>)>, puts: usize, front: &[u8], rest: u8) -> bool {
    let Some((count, Some(frame))) = put else {
        return false;
    };
    count == puts
        && frame.starts_with(front)
        && frame.iter().skip(front.len()).all(|byte| *byte == rest)
}

#[test]
fn the_block_of_one_byte_goes_over_one_link(rt: HostRuntime) {
    let mut block = [0; 1024];
    block[3] = 1;
    block[4] = 0x41;
    let put = put_for(&rt, rt.alloc(), ONE_LINK, 0, &block, 0, 0);
    let front = b"\x4c\x46\x01\x00\x00\x00\x00\x00\x00\x00\x00\x00\x00\x00\x00\x01\x41";
    assert!(rt; are_put(put, 8, front, 0));
}

// The block of 2000 bytes 7: its count is in front, and it ends with 44 zeros.
fn sevens() -> [u8; 2048] {
    let mut block = [7; 2048];
    block[..4].copy_from_slice(b"\x00\x00\x07\xd0");
    block[2004..].fill(0);
    block
}

// How the last piece of the sum of its rows begins: the front of the frame, and zeros.
fn last_front() -> [u8; 96] {
    let mut front = [0; 96];
    front[..12].copy_from_slice(b"\x4c\x46\x01\x07\x00\x00\x00\x06\x00\x00\x00\x00");
    front
}

// Whether the link in the middle of the butterfly carries a piece of the block that begins so, and goes on with one byte.
fn middle_carries<R: Threads + Sync>(
    rt: &R,
    alloc: Global,
    piece: u8,
    front: &[u8],
    rest: u8,
) -> bool {
    let put = put_for(rt, alloc, BUTTERFLY, 0, &sevens(), 6, piece);
    are_put(put, 72, front, rest)
}

#[test]
fn the_middle_of_the_butterfly_carries_the_sum_of_the_rows(rt: HostRuntime) {
    let front = b"\x4c\x46\x01\x00\x00\x00\x00\x06\x00\x00\x00\x00\x07\x07\x00\xd7";
    assert!(rt; middle_carries(&rt, rt.alloc(), 0, front, 0));
    assert!(rt; middle_carries(&rt, rt.alloc(), 7, &last_front(), 7));
}

// How many frames the two ways put for a block under a pattern.
fn count_put<R: Threads + Sync>(rt: &R, alloc: Global, pattern: u32) -> Option<usize> {
    match put_for(rt, alloc, TWO_WAYS, pattern, &[9; 1024], 3, 0) {
        Some((puts, _)) => Some(puts),
        None => None,
    }
}

// The patterns of the two ways, each with how many links carry frames: where the link from `s` to `a` fails, that behind
// it carries nothing either.
const LIVE: &[(u32, usize)] = &[(0, 4), (1, 2)];

// The first pattern under which others do.
fn wrong_pattern<R: Threads + Sync>(rt: &R, alloc: Global) -> Option<u32> {
    for &(pattern, live) in LIVE {
        if count_put(rt, alloc, pattern) != Some(8 * live) {
            return Some(pattern);
        }
    }
    None
}

#[test]
fn only_live_links_carry_frames(rt: HostRuntime) {
    assert_eq!(rt; wrong_pattern(&rt, rt.alloc()), None);
}
