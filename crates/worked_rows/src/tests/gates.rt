//! The gates that tests go by, which jobs enter one after another.
use code_checker::check;
use lif_outside::Gate;
use std::alloc::Global;
use std::thread::Threads;
use test_support::codes::code_of;
use test_support::files::ONE_LINK;
use test_support::gates::{Entries, Meeting, Pairing};

// How often a job turns here.
const FEW_TURNS: u32 = 3;

// The jobs enter a gate one after another.
fn enter_all<G: Gate>(gate: &G, jobs: &[u32]) {
    for &job in jobs {
        gate.enter(job);
    }
}

// Jobs, and what is counted of them.
const COUNTED: &[(&[u32], u64)] = &[
    (&[], 0),
    (&[0], 1),
    (&[1], 10),
    (&[1, 0, 1], 21),
    (&[3, 3, 3, 0], 3001),
];

#[test]
fn entries_are_counted(rt: HostRuntime) {
    for &(jobs, counted) in COUNTED {
        let gate = Entries::new();
        enter_all(&gate, jobs);
        assert_eq!(rt; gate.counted(), counted);
    }
}

// Jobs, what is counted of them, and whether each met another one: none does that enters first.
const MET: &[(&[u32], u64, bool)] = &[
    (&[], 0, true),
    (&[], 1, false),
    (&[0], 1, false),
    (&[0, 0], 2, false),
    (&[0, 1], 11, false),
];

#[test]
fn one_after_another_is_not_met(rt: HostRuntime) {
    for &(jobs, counted, met) in MET {
        let gate = Meeting::of_turns(FEW_TURNS);
        enter_all(&gate, jobs);
        assert_eq!(rt; gate.is_met(counted), met);
    }
}

// Jobs, and whether each met one of its stage.
const PAIRED: &[(&[u32], bool)] = &[(&[], true), (&[0], false), (&[0, 1], false)];

#[test]
fn one_after_another_is_not_paired(rt: HostRuntime) {
    for &(jobs, met) in PAIRED {
        let gate = Pairing::of_turns(FEW_TURNS);
        enter_all(&gate, jobs);
        assert_eq!(rt; gate.all_meet(), met);
    }
}

// Whether the one job meets another one, by which the code of a file with one demand is checked.
fn one_meets<R: Threads + Sync>(rt: &R, alloc: Global, file: &[u8]) -> Option<bool> {
    let gate = Meeting::of_turns(FEW_TURNS);
    match code_of(alloc, file) {
        Ok(code) => {
            let _ = check(rt, alloc, code, &gate);
            Some(gate.is_met(1))
        }
        Err(_) => None,
    }
}

#[test]
fn one_demand_is_checked_alone(rt: HostRuntime) {
    assert_eq!(rt; one_meets(&rt, rt.alloc(), ONE_LINK), Some(false));
}
