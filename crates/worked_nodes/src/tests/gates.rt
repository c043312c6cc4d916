//! Which jobs enter the gate of a decoding.
use super::carrying::{Course, carries};
use code_checker::Checked;
use lif_outside::{NoGate, SeedLinks};
use std::alloc::Global;
use std::test;
use std::thread::Threads;
use test_support::gates::Meeting;
use test_support::runs::source_of;
use top_tools::combination_code;

// Whether two jobs enter the gate for one window of a source and meet there, where its blocks come to all sinks.
fn two_meet<R: Threads + Sync>(rt: &R, alloc: Global, code: &Checked, source: &[u8]) -> bool {
    let course = Course {
        pattern: 0,
        seed: 1,
        blocks: 4,
        windows: 1,
    };
    let mut links = SeedLinks::new(alloc);
    let gate = Meeting::new();
    carries(rt, alloc, code, course, &mut links, source, &gate) && gate.is_met(11)
}

// Whether they do for so many bytes.
fn code_meets<R: Threads + Sync>(rt: &R, alloc: Global, code: &Checked) -> bool {
    match source_of(alloc, 8192) {
        Some(source) => two_meet(rt, alloc, code, &source),
        None => false,
    }
}

// Whether they do where the sinks are behind each two of four nodes.
fn combination_meets<R: Threads + Sync>(rt: &R, alloc: Global) -> bool {
    match combination_code(rt, alloc, 4, 2, &NoGate) {
        Ok(code) => code_meets(rt, alloc, &code),
        Err(_) => false,
    }
}

// Three sinks are decoded in each of two runs.
#[test]
fn six_sinks_are_decoded_side_by_side(rt: HostRuntime) {
    assert!(rt; combination_meets(&rt, rt.alloc()));
}
