//! Which jobs enter the gate that a command is given.
use super::calls::{is_done_by, store_of};
use lif_outside::{Gate, MemStore, NoGate};
use std::alloc::{AllocError, Global};
use std::test;
use std::thread::Threads;
use test_support::files::{BUTTERFLY, ONE_LINK};
use test_support::gates::{Entries, Meeting, Pairing};
use test_support::texts::{BUTTERFLY_TEXT, ONE_LINK_TEXT, THREE_CORES_TEXT, TWO_LINKS_TEXT};

// Whether a command on the file at `in` is done, by a gate.
fn is_done_on<G: Gate + Sync, R: Threads + Sync>(
    rt: &R,
    alloc: Global,
    words: &[&str],
    file: &[u8],
    gate: &G,
) -> Option<bool> {
    let mut store = store_of(alloc, &[("in", file)])?;
    is_done_by(rt, alloc, words, &mut store, gate)
}

// Whether a command on the file at `in` is done, and these enter its gate.
fn enter<R: Threads + Sync>(
    rt: &R,
    alloc: Global,
    words: &[&str],
    file: &[u8],
    entries: u64,
) -> Option<bool> {
    let gate = Entries::new();
    Some(is_done_on(rt, alloc, words, file, &gate)? && gate.counted() == entries)
}

const CUTS: &[&str] = &["cuts", "in"];

const COMPILE: &[&str] = &["compile", "in", "code", "report"];

const CHECK: &[&str] = &["check", "in"];

const SEND: &[&str] = &["send", "in", "none", "1", "in", "out"];

// Commands, their files, and what enters: a job for each batch of certificates or of a check, of which there are as many
// as demands and at most four, and for each window that is sent a job for each run of sinks.
const ENTERED: &[(&[&str], &[u8], u64)] = &[
    (CUTS, ONE_LINK_TEXT, 1),
    (CUTS, BUTTERFLY_TEXT, 11),
    (CUTS, TWO_LINKS_TEXT, 111),
    (CUTS, THREE_CORES_TEXT, 1111),
    (COMPILE, ONE_LINK_TEXT, 1),
    (COMPILE, BUTTERFLY_TEXT, 11),
    (COMPILE, TWO_LINKS_TEXT, 111),
    (COMPILE, THREE_CORES_TEXT, 1111),
    (CHECK, ONE_LINK, 1),
    (CHECK, BUTTERFLY, 11),
    (SEND, BUTTERFLY, 12),
    (&["order", "in"], BUTTERFLY_TEXT, 0),
];

#[test]
fn jobs_enter_the_gate(rt: HostRuntime) {
    for &(words, file, entries) in ENTERED {
        let entered = enter(&rt, rt.alloc(), words, file, entries);
        assert!(rt; entered == Some(true), "{entries}");
    }
}

// A network of so many sinks, each with a link from the source, and so many patterns beside `none`, in each of which a link
// fails that leads to another node.
fn write_wide(text: &mut String, sinks: u32, patterns: u32) -> Result<(), AllocError> {
    text.push_str("source s\n")?;
    for sink in 1..=sinks {
        write!(text, "sink t{sink}\nlink l{sink} s t{sink}\n")?;
    }
    for spare in 1..=patterns {
        write!(text, "link e{spare} s x\npattern p{spare} e{spare}\n")?;
    }
    Ok(())
}

fn wide(alloc: Global, sinks: u32, patterns: u32) -> Option<String> {
    let mut text = String::new(alloc);
    write_wide(&mut text, sinks, patterns).ok()?;
    Some(text)
}

// One of 1,024 demands.
fn many_demands(alloc: Global) -> Option<String> {
    wide(alloc, 32, 31)
}

// Whether a command on the file at `in` has four jobs, of which each meets another one.
fn four_meet<R: Threads + Sync>(
    rt: &R,
    alloc: Global,
    words: &[&str],
    file: &[u8],
) -> Option<bool> {
    let gate = Meeting::new();
    Some(is_done_on(rt, alloc, words, file, &gate)? && gate.is_met(1111))
}

// Whether they do for a command on the network of 1,024 demands.
fn four_meet_wide<R: Threads + Sync>(rt: &R, alloc: Global, words: &[&str]) -> Option<bool> {
    let text = many_demands(alloc)?;
    four_meet(rt, alloc, words, text.as_bytes())
}

#[test]
fn certificates_are_made_side_by_side(rt: HostRuntime) {
    assert!(rt; four_meet_wide(&rt, rt.alloc(), CUTS) == Some(true));
    assert!(rt; four_meet_wide(&rt, rt.alloc(), COMPILE) == Some(true));
}

// The code that is compiled in a store of the text at `in`.
fn compiled_in<'a, R: Threads + Sync>(
    rt: &R,
    alloc: Global,
    store: &'a mut MemStore,
) -> Option<&'a [u8]> {
    if !is_done_by(rt, alloc, COMPILE, store, &NoGate)? {
        return None;
    }
    store.file("code")
}

// Whether four jobs meet where the code of the network of 1,024 demands is checked.
fn four_check_wide<R: Threads + Sync>(rt: &R, alloc: Global) -> Option<bool> {
    let text = many_demands(alloc)?;
    let mut store = store_of(alloc, &[("in", text.as_bytes())])?;
    let code = compiled_in(rt, alloc, &mut store)?;
    four_meet(rt, alloc, CHECK, code)
}

#[test]
fn codes_are_checked_side_by_side(rt: HostRuntime) {
    assert!(rt; four_check_wide(&rt, rt.alloc()) == Some(true));
}

// Four middle nodes, with a sink behind each two of them.
const COMBINATION_TEXT: &[u8] = b"source s\n\
    sink t1\nsink t2\nsink t3\nsink t4\nsink t5\nsink t6\n\
    link a1 s m1\nlink a2 s m2\nlink a3 s m3\nlink a4 s m4\n\
    link b1-1 m1 t1\nlink b1-2 m2 t1\nlink b2-1 m1 t2\nlink b2-3 m3 t2\n\
    link b3-1 m1 t3\nlink b3-4 m4 t3\nlink b4-2 m2 t4\nlink b4-3 m3 t4\n\
    link b5-2 m2 t5\nlink b5-4 m4 t5\nlink b6-3 m3 t6\nlink b6-4 m4 t6\n";

// Whether each job of `send` by a code meets another one of its stage, for a source of some bytes.
fn all_meet<R: Threads + Sync>(rt: &R, alloc: Global, code: &[u8]) -> Option<bool> {
    let gate = Pairing::new();
    Some(is_done_on(rt, alloc, SEND, code, &gate)? && gate.all_meet())
}

// Whether it does by the code of a network.
fn all_meet_in<R: Threads + Sync>(rt: &R, alloc: Global, network: &[u8]) -> Option<bool> {
    let mut store = store_of(alloc, &[("in", network)])?;
    let code = compiled_in(rt, alloc, &mut store)?;
    all_meet(rt, alloc, code)
}

// Whether it does by that of 64 sinks.
fn all_meet_in_wide<R: Threads + Sync>(rt: &R, alloc: Global) -> Option<bool> {
    let text = wide(alloc, 64, 0)?;
    all_meet_in(rt, alloc, text.as_bytes())
}

#[test]
fn the_check_and_the_sinks_are_done_side_by_side(rt: HostRuntime) {
    assert!(rt; all_meet_in(&rt, rt.alloc(), COMBINATION_TEXT) == Some(true));
    assert!(rt; all_meet_in_wide(&rt, rt.alloc()) == Some(true));
}
