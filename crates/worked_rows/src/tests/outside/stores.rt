//! A store in memory: what reads give, and what failing calls keep.
use super::{failing, make};
use lif_outside::{Call, Failed, MemStore, Store};
use std::alloc::{AllocError, Global};

// Paths and places to read from, with the answers, and with what three bytes of room hold then.
const READS: &[(&str, u32, Result<usize, Failed>, [u8; 3])] = &[
    ("a", 0, Ok(2), [1, 2, 9]),
    ("a", 1, Ok(2), [2, 3, 9]),
    ("a", 2, Ok(2), [3, 4, 9]),
    ("a", 4, Ok(1), [5, 9, 9]),
    ("a", 5, Ok(0), [9, 9, 9]),
    ("a", 70, Ok(0), [9, 9, 9]),
    ("b", 0, Err(Failed), [9, 9, 9]),
    ("a", 0, Err(Failed), [9, 9, 9]),
    ("a", 3, Ok(2), [4, 5, 9]),
];

fn is_read(
    store: &mut MemStore,
    path: &str,
    at: u32,
    answer: Result<usize, Failed>,
    found: [u8; 3],
) -> bool {
    let mut into = [9; 3];
    let said = store.read(path, u64::from(at), &mut into);
    said == answer && into == found
}

// The first row of the reads that isn't so.
fn wrong_read(store: &mut MemStore) -> Option<usize> {
    for (row, &(path, at, answer, found)) in READS.iter().enumerate() {
        if !is_read(store, path, at, answer, found) {
            return Some(row);
        }
    }
    None
}

// The same of a store whose reads give two bytes at most, and of which the eighth fails.
fn first_wrong_read(alloc: Global) -> Result<Option<usize>, AllocError> {
    let fails = vec![in alloc; failing(Call::Append, 2, 0), failing(Call::Read, 8, 3)]?;
    let mut store = MemStore::new(alloc, 2, fails);
    store.put_file(alloc, "a", &[1, 2, 3, 4, 5])?;
    Ok(wrong_read(&mut store))
}

#[test]
fn reads_come_in_pieces(rt: HostRuntime) {
    assert_eq!(rt; first_wrong_read(rt.alloc()), Ok(None));
}

// Bytes to add to the file `a`, with the answers, and with what it holds then.
const APPENDS: &[(&[u8], Result<(), Failed>, &[u8])] = &[
    (&[4], Ok(()), &[1, 2, 3, 4]),
    (
        &[0, 1, 2, 3, 4, 5, 6, 7, 8, 9],
        Err(Failed),
        &[1, 2, 3, 4, 0, 1, 2, 3, 4, 5, 6],
    ),
    (&[], Ok(()), &[1, 2, 3, 4, 0, 1, 2, 3, 4, 5, 6]),
    (
        &[8, 9],
        Err(Failed),
        &[1, 2, 3, 4, 0, 1, 2, 3, 4, 5, 6, 8, 9],
    ),
];

fn is_appended(
    store: &mut MemStore,
    bytes: &[u8],
    answer: Result<(), Failed>,
    want: &[u8],
) -> bool {
    if store.file("a").is_none() {
        return false;
    }
    store.append("a", bytes) == answer && store.file("a") == Some(want)
}

// The first row of the appends that isn't so.
fn wrong_append(store: &mut MemStore) -> Option<usize> {
    for (row, &(bytes, answer, want)) in APPENDS.iter().enumerate() {
        if !is_appended(store, bytes, answer, want) {
            return Some(row);
        }
    }
    None
}

// A file is made, can't be made empty, grows, is made empty, and then there is another.
fn are_answered(store: &mut MemStore) -> bool {
    make(store, "a", &[1, 2, 3]) == Ok(())
        && store.create("a") == Err(Failed)
        && wrong_append(store).is_none()
        && store.create("a") == Ok(())
        && store.file("a") == Some(&[])
        && store.create("b") == Ok(())
}

// The first listing of a call counts, and a failing append keeps all bytes where there are fewer than it says.
fn fail_where_listed(alloc: Global) -> Result<bool, AllocError> {
    let fails = vec![in alloc;
        failing(Call::Create, 2, 0),
        failing(Call::Append, 3, 7),
        failing(Call::Append, 3, 1),
        failing(Call::Append, 5, 70),
    ]?;
    let mut store = MemStore::new(alloc, 100, fails);
    Ok(are_answered(&mut store))
}

#[test]
fn calls_fail_where_listed(rt: HostRuntime) {
    assert!(rt; fail_where_listed(rt.alloc()) == Ok(true));
}
