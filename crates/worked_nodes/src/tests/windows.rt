//! Several generations at work together, under numbers that begin anywhere.
use super::hands::Wrong;
use super::runs::wrong_row;
use super::told::Told;
use std::alloc::{AllocError, Global};
use std::test;
use std::thread::Threads;
use test_support::files::{BUTTERFLY, ONE_LINK, TWO_WAYS};

// Bytes that differ from block to block.
fn blocks_of(alloc: Global, size: u32, count: u32) -> Result<Vec<u8>, AllocError> {
    let mut bytes = Vec::new(alloc);
    for place in 0..size.saturating_mul(count) {
        bytes.push((place as u64 * 7 / 5 % 251) as u8)?;
    }
    Ok(bytes)
}

// Codes, by the size of their blocks.
const ROWS: &[(u32, &[Told])] = &[
    (
        1024,
        &[
            Told {
                file: ONE_LINK,
                pattern: 0,
                live: &[0],
                pieces: &[],
                sinks: 1,
            },
            Told {
                file: TWO_WAYS,
                pattern: 1,
                live: &[1, 3],
                pieces: &[],
                sinks: 1,
            },
        ],
    ),
    (
        2048,
        &[Told {
            file: BUTTERFLY,
            pattern: 0,
            live: &[0, 1, 2, 3, 4, 5, 6, 7, 8],
            pieces: &[],
            sinks: 2,
        }],
    ),
];

// Whether so many blocks of a size come through codes, from a number on.
fn size_comes<R: Threads + Sync>(
    rt: &R,
    alloc: Global,
    size: u32,
    codes: &[Told],
    first: u32,
    count: u32,
) -> Result<bool, Wrong> {
    let blocks = blocks_of(alloc, size, count)?;
    Ok(wrong_row(rt, alloc, codes, first, count, &blocks)?.is_none())
}

// Whether they do of all sizes.
fn all_come<R: Threads + Sync>(
    rt: &R,
    alloc: Global,
    first: u32,
    count: u32,
) -> Result<bool, Wrong> {
    for &(size, codes) in ROWS {
        if !size_comes(rt, alloc, size, codes, first, count)? {
            return Ok(false);
        }
    }
    Ok(true)
}

// The first number and the count with which they don't.
fn lost_numbers<R: Threads + Sync>(rt: &R, alloc: Global) -> Result<Option<(u32, u32)>, Wrong> {
    for &first in &[0, 7, 0xffff_fffc] {
        for count in 1..=4 {
            if !all_come(rt, alloc, first, count)? {
                return Ok(Some((first, count)));
            }
        }
    }
    Ok(None)
}

#[test]
fn frames_of_generations_mix(rt: HostRuntime) {
    assert_eq!(rt; lost_numbers(&rt, rt.alloc()), Ok(None));
}
