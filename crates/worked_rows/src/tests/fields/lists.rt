//! Lists that threads share.
ghost use Rattle.std.specs.Prelude.{◌≤◌, length};

use item_list::ItemList;
use std::alloc::Global;
use std::thread::{Threads, join};

// Threads can take values of the type, and share them.
fn shared<T: Send + Sync>() {}

// So they can lists of what they can share.
fn shared_lists<T: Send + Sync>() {
    shared::<ItemList<T>>();
}

// The first item of a list and the third, each read by a thread.
fn read_by_two<R: Threads>(rt: &R, list: &ItemList<u32>) -> (u32, u32)
    requires { 3 ≤ length list.now }
{
    join(rt, || *list.at(0), || *list.at(2))
}

// The same of the list of these items.
fn ends_of<R: Threads>(rt: &R, alloc: Global, items: &[u32]) -> Option<(u32, u32)>
    requires { 3 ≤ length items.now }
{
    match Vec::from_slice(alloc, items) {
        Ok(items) => Some(read_by_two(rt, &ItemList::of(items))),
        Err(_) => None,
    }
}

#[test]
fn threads_share_lists(rt: HostRuntime) {
    shared_lists::<u32>();
    assert!(rt; ends_of(&rt, rt.alloc(), &[5, 6, 7]) == Some((5, 7)));
}
