//! A store that keeps a log: it is whole while there is memory.
ghost use Rattle.std.specs.Prelude.{codes};

use super::{failing, make};
use lif_outside::{Call, MemStore, Store};
use logged_store::{Event, Logged};
use std::alloc::{AllocError, Global};

// Two reads, a create and an append, of which only the first read is to be done.
fn call_all<S: Store>(store: &mut S, into: &mut [u8]) -> [bool; 4]
    requires { S.made store.old (codes "a") }
{
    let first = store.read("a", 1, into);
    let second = store.read("b", 2, into);
    let third = store.create("c");
    let fourth = store.append("a", b"w");
    [
        first == Ok(2),
        second.is_err(),
        third.is_err(),
        fourth.is_err(),
    ]
}

// The events, as they are told below.
const EVENTS: &[(&str, &str, u64, usize, &[u8])] = &[
    ("created", "a", 0, 0, b""),
    ("appended", "a", 0, 0, b"xyz"),
    ("read", "a", 1, 5, b"yz"),
    ("read failed", "b", 2, 5, b""),
    ("create failed", "c", 0, 0, b""),
    ("append failed", "a", 0, 0, b"w"),
];

// The kind of an event, its path, its place and its room where it has these, and its bytes.
fn told(event: &Event) -> (&str, &str, u64, usize, &[u8]) {
    match event {
        Event::Read {
            path,
            at,
            room,
            bytes,
        } => ("read", path, *at, *room, bytes),
        Event::ReadFailed { path, at, room } => ("read failed", path, *at, *room, &[]),
        Event::Created { path } => ("created", path, 0, 0, &[]),
        Event::CreateFailed { path } => ("create failed", path, 0, 0, &[]),
        Event::Appended { path, bytes } => ("appended", path, 0, 0, bytes),
        Event::AppendFailed { path, bytes } => ("append failed", path, 0, 0, bytes),
    }
}

fn are_events(log: &[Event]) -> bool {
    if log.len() != EVENTS.len() {
        return false;
    }
    for (place, event) in log.iter().enumerate() {
        if told(event) != EVENTS[place] {
            return false;
        }
    }
    true
}

fn are_kept(store: &mut Logged<MemStore>) -> bool {
    make(store, "a", b"xyz") == Ok(())
        && call_all(store, &mut [0; 5]) == [true; 4]
        && store.inner().file("a") == Some(b"xyz".as_slice())
        && store.is_whole()
        && are_events(store.log())
}

// The second create and the second append fail.
fn are_logged(alloc: Global) -> Result<bool, AllocError> {
    let fails = vec![in alloc; failing(Call::Create, 2, 0), failing(Call::Append, 2, 0)]?;
    let mut store = Logged::new(alloc, MemStore::new(alloc, 100, fails));
    Ok(are_kept(&mut store))
}

#[test]
fn calls_are_logged(rt: HostRuntime) {
    assert!(rt; are_logged(rt.alloc()) == Ok(true));
}
