//! The order in which links deliver.
ghost use Rattle.std.specs.Prelude.{◌≡◌, []};

use super::carrying::{Course, file_carries};
use lif_outside::{Links, SeedLinks};
use std::alloc::Global;
use std::test;
use std::thread::Threads;
use test_support::files::{BUTTERFLY, DOUBLED_ONE_LINK, ONE_LINK, TWO_WAYS, WIDE_ONE_LINK};
use test_support::orders::{PLAIN, Script, hostile, listed};
use test_support::runs::source_of;

// Whether windows of a source come through the code of a file, over links.
fn comes_through<K: Links, R: Threads + Sync>(
    rt: &R,
    alloc: Global,
    file: &[u8],
    course: Course,
    links: &mut K,
) -> bool
    requires nothing_flies { K.flying links.old ≡ [] }
{
    match source_of(alloc, 16384) {
        Some(source) => file_carries(rt, alloc, file, course, links, &source),
        None => false,
    }
}

// Whether they do in an order that a number decides.
fn by_seed<R: Threads + Sync>(rt: &R, alloc: Global, file: &[u8], course: Course) -> bool {
    let mut links = SeedLinks::new(alloc);
    comes_through(rt, alloc, file, course, &mut links)
}

// Whether they do in an order that a list says.
fn by_list<R: Threads + Sync>(
    rt: &R,
    alloc: Global,
    file: &[u8],
    course: Course,
    rule: u32,
) -> bool {
    match listed(alloc, rule) {
        Some(mut links) => comes_through(rt, alloc, file, course, &mut links),
        None => false,
    }
}

// Each code with its name, its file, and a pattern.
const CODES: &[(&str, &[u8], u32)] = &[
    ("one link", ONE_LINK, 0),
    ("doubled one link", DOUBLED_ONE_LINK, 0),
    ("wide one link", WIDE_ONE_LINK, 0),
    ("butterfly", BUTTERFLY, 0),
    ("two ways", TWO_WAYS, 0),
    ("one of two ways", TWO_WAYS, 1),
];

// Numbers that decide the order, each with how many blocks are a window.
const SEEDS: &[(u64, u32)] = &[(0, 1), (1, 2), (7, 3), (u64::MAX, 4)];

// The first code and number by which not all comes.
fn lost_by_seed<R: Threads + Sync>(rt: &R, alloc: Global) -> Option<(&'static str, u64)> {
    for &(name, file, pattern) in CODES {
        for &(seed, blocks) in SEEDS {
            let course = Course {
                pattern,
                seed,
                blocks,
                windows: 2,
            };
            if !by_seed(rt, alloc, file, course) {
                return Some((name, seed));
            }
        }
    }
    None
}

#[test]
fn a_number_decides_the_order(rt: HostRuntime) {
    assert_eq!(rt; lost_by_seed(&rt, rt.alloc()), None);
}

// The first code and rule of a list by which not all comes.
fn lost_by_list<R: Threads + Sync>(rt: &R, alloc: Global) -> Option<(&'static str, u32)> {
    for &(name, file, pattern) in CODES {
        for rule in 0..3 {
            let course = Course {
                pattern,
                seed: 0,
                blocks: 1,
                windows: 3,
            };
            if !by_list(rt, alloc, file, course, rule) {
                return Some((name, rule));
            }
        }
    }
    None
}

#[test]
fn a_list_says_the_order(rt: HostRuntime) {
    assert_eq!(rt; lost_by_list(&rt, rt.alloc()), None);
}

// Whether a window of four blocks comes over links of which each second take keeps its pair.
fn by_repeats<R: Threads + Sync>(rt: &R, alloc: Global, file: &[u8], pattern: u32) -> bool {
    let course = Course {
        pattern,
        seed: 0,
        blocks: 4,
        windows: 1,
    };
    let mut keeps = [0; 1000];
    for (place, keep) in keeps.iter_mut().enumerate() {
        *keep = 2 * place as u64 + 1;
    }
    let script = Script {
        keeps: &keeps,
        ..PLAIN
    };
    match hostile(alloc, &script) {
        Some(mut links) => comes_through(rt, alloc, file, course, &mut links),
        None => false,
    }
}

// The first code of which not all comes so.
fn lost_by_repeats<R: Threads + Sync>(rt: &R, alloc: Global) -> Option<&'static str> {
    for &(name, file, pattern) in CODES {
        if !by_repeats(rt, alloc, file, pattern) {
            return Some(name);
        }
    }
    None
}

#[test]
fn pairs_may_come_again(rt: HostRuntime) {
    assert_eq!(rt; lost_by_repeats(&rt, rt.alloc()), None);
}
