//! The check of the examples, read from their files.
use super::codes::{WIDE_ROWS, changed, is_file_one_of};
use code_checker::CheckRefusal::NotIdentity;
use code_checker::{CheckRefusal, check};
use std::alloc::Global;
use std::thread::Threads;
use test_support::codes::{checked_of, code_of};
use test_support::files::{
    BUTTERFLY, CUT_BUTTERFLY, DOUBLED_ONE_LINK, ONE_LINK, TWO_WAYS, WIDE_ONE_LINK,
};
use test_support::gates::{Entries, Meeting};

const ACCEPTED: &[&[u8]] = &[
    ONE_LINK,
    DOUBLED_ONE_LINK,
    WIDE_ONE_LINK,
    BUTTERFLY,
    TWO_WAYS,
    WIDE_ROWS,
];

// Whether the code of a file is accepted, and is the same afterwards.
fn is_accepted<R: Threads + Sync>(rt: &R, alloc: Global, file: &[u8]) -> bool {
    match checked_of(rt, alloc, file) {
        Ok(checked) => {
            let is_kept = is_file_one_of(alloc, file, checked.code());
            is_file_one_of(alloc, file, &checked.into_code()) && is_kept
        }
        Err(_) => false,
    }
}

// The first row whose code isn't accepted.
fn first_not_accepted<R: Threads + Sync>(rt: &R, alloc: Global) -> Option<usize> {
    for (row, &file) in ACCEPTED.iter().enumerate() {
        if !is_accepted(rt, alloc, file) {
            return Some(row);
        }
    }
    None
}

#[test]
fn codes_that_decode_are_accepted(rt: HostRuntime) {
    assert_eq!(rt; first_not_accepted(&rt, rt.alloc()), None);
}

// A code's file, bytes of it that are others, and what the check says.
type Row = (&'static [u8], &'static [(usize, u8)], CheckRefusal);

// No link carries the first row.
const CUT: CheckRefusal = NotIdentity {
    demand: 1,
    row: 0,
    column: 0,
    found: 0,
};

const REFUSED: &[Row] = &[
    // The second sink takes twice its first row.
    (
        BUTTERFLY,
        &[(173, 2)],
        NotIdentity {
            demand: 1,
            row: 0,
            column: 1,
            found: 3,
        },
    ),
    (CUT_BUTTERFLY, &[], CUT),
    // The second sink fails where no link does, in a later batch.
    (CUT_BUTTERFLY, &[(190, 2)], CUT),
    // The first sink fails where no link does.
    (
        CUT_BUTTERFLY,
        &[(175, 0)],
        NotIdentity {
            demand: 0,
            row: 1,
            column: 0,
            found: 1,
        },
    ),
    // The entry is that of another element of the field of 65,536.
    (
        WIDE_ONE_LINK,
        &[(37, 2)],
        NotIdentity {
            demand: 0,
            row: 0,
            column: 0,
            found: 513,
        },
    ),
];

// What the check of the code of a file with other bytes says.
fn refusal<R: Threads + Sync>(
    rt: &R,
    alloc: Global,
    file: &[u8],
    others: &[(usize, u8)],
) -> Option<CheckRefusal> {
    match changed(alloc, file, others) {
        Ok(file) => checked_of(rt, alloc, &file).err(),
        Err(_) => None,
    }
}

// The first row whose code isn't refused so.
fn wrong_refusal<R: Threads + Sync>(rt: &R, alloc: Global) -> Option<usize> {
    for (row, &(file, others, why)) in REFUSED.iter().enumerate() {
        if refusal(rt, alloc, file, others) != Some(why) {
            return Some(row);
        }
    }
    None
}

#[test]
fn the_first_demand_that_fails_is_named(rt: HostRuntime) {
    assert_eq!(rt; wrong_refusal(&rt, rt.alloc()), None);
}

// The codes of files, and which jobs enter the gate of their checks: one for each demand, and at most four.
const ENTERED: &[(&[u8], u64)] = &[(ONE_LINK, 1), (BUTTERFLY, 11), (CUT_BUTTERFLY, 1111)];

// What enters the gate of the check of the code of a file.
fn entries_of<R: Threads + Sync>(rt: &R, alloc: Global, file: &[u8]) -> Option<u64> {
    let gate = Entries::new();
    match code_of(alloc, file) {
        Ok(code) => {
            let _ = check(rt, alloc, code, &gate);
            Some(gate.counted())
        }
        Err(_) => None,
    }
}

// The first row of which others enter.
fn wrong_entries<R: Threads + Sync>(rt: &R, alloc: Global) -> Option<usize> {
    for (row, &(file, entries)) in ENTERED.iter().enumerate() {
        if entries_of(rt, alloc, file) != Some(entries) {
            return Some(row);
        }
    }
    None
}

#[test]
fn batches_enter_the_gate(rt: HostRuntime) {
    assert_eq!(rt; wrong_entries(&rt, rt.alloc()), None);
}

// Whether the check of the code of a file has such jobs, of which each meets another one.
fn jobs_meet<R: Threads + Sync>(rt: &R, alloc: Global, file: &[u8], jobs: u64) -> bool {
    let gate = Meeting::new();
    match code_of(alloc, file) {
        Ok(code) => {
            let _ = check(rt, alloc, code, &gate);
            gate.is_met(jobs)
        }
        Err(_) => false,
    }
}

#[test]
fn demands_are_checked_side_by_side(rt: HostRuntime) {
    assert!(rt; jobs_meet(&rt, rt.alloc(), BUTTERFLY, 11));
    assert!(rt; jobs_meet(&rt, rt.alloc(), CUT_BUTTERFLY, 1111));
}
