//! Every coefficient of one link with every entry of its decoder: the code is accepted exactly where their product is one.
use super::calls::{status_over, store_of};
use gf_tables::{FieldKind, product};
use lif_outside::{MemSink, MemStore, SeedLinks};
use std::alloc::Global;
use std::test;
use std::thread::Threads;
use test_support::files::ONE_LINK;

// The places of the coefficient and of the entry in the file of the one link.
const TIMES: usize = 33;

const ENTRY: usize = 36;

// The file of the one link with a coefficient and an entry.
fn one_link(times: u8, entry: u8) -> [u8; 37] {
    let mut code = [0; 37];
    for (place, byte) in ONE_LINK.iter().enumerate() {
        if let Some(old) = code.get_mut(place) {
            *old = *byte;
        }
    }
    code[TIMES] = times;
    code[ENTRY] = entry;
    code
}

// The number of the status of `check`.
fn status_of(times: u8, entry: u8) -> u8 {
    if times == 0 {
        7
    } else if product(FieldKind::Eight, u32::from(times), u32::from(entry)) == 1 {
        0
    } else {
        8
    }
}

// Whether the code of a store is checked with the status of this number.
fn is_checked<R: Threads + Sync>(
    rt: &R,
    alloc: Global,
    store: &mut MemStore,
    status: u8,
) -> Option<bool> {
    let mut say = MemSink::new(alloc, Vec::new(alloc));
    let mut links = SeedLinks::new(alloc);
    let number = status_over(rt, alloc, &["check", "code"], store, &mut links, &mut say)?;
    Some(number == status)
}

// Whether it is with a coefficient and an entry.
fn is_right<R: Threads + Sync>(rt: &R, alloc: Global, times: u8, entry: u8) -> Option<bool> {
    let code = one_link(times, entry);
    let mut store = store_of(alloc, &[("code", &code)])?;
    is_checked(rt, alloc, &mut store, status_of(times, entry))
}

// The first coefficient and entry for which it isn't.
fn first_wrong<R: Threads + Sync>(rt: &R, alloc: Global) -> Option<[u8; 2]> {
    for pair in 0..=u16::MAX {
        let [times, entry] = pair.to_be_bytes();
        if is_right(rt, alloc, times, entry) != Some(true) {
            return Some([times, entry]);
        }
    }
    None
}

#[test]
fn a_code_is_accepted_where_the_entry_is_the_inverse(rt: HostRuntime) {
    let wrong = first_wrong(&rt, rt.alloc());
    assert!(rt; wrong.is_none(), "{wrong:?}");
}

// How many entries undo a coefficient.
fn inverses(times: u8) -> u32 {
    let mut count = 0u32;
    for entry in 0..=255u8 {
        if status_of(times, entry) == 0 {
            count = count.saturating_add(1);
        }
    }
    count
}

#[test]
fn a_coefficient_has_one_inverse(rt: HostRuntime) {
    for times in 0..=255u8 {
        assert!(rt; inverses(times) == u32::from(times != 0), "{times}");
    }
}
