//! The top call over objects in memory.
ghost use Rattle.std.specs.Prelude.{◌≡◌, []};

use lif_outside::{Gate, Links, MemSink, MemStore, NoGate, SeedLinks};
use lif_top::lif;
use std::alloc::Global;
use std::thread::Threads;
use test_support::runs::words_of;

/// A store with these files, where a read gives as much as is asked for.
pub(super) fn store_of(alloc: Global, files: &[(&str, &[u8])]) -> Option<MemStore> {
    let mut store = MemStore::new(alloc, 65536, Vec::new(alloc));
    for &(path, bytes) in files {
        store.put_file(alloc, path, bytes).ok()?;
    }
    Some(store)
}

/// The number of the status with which the call ends, over any links. What it says goes to `say`.
pub(super) fn status_over<R: Threads + Sync, K: Links>(
    rt: &R,
    alloc: Global,
    words: &[&str],
    store: &mut MemStore,
    links: &mut K,
    say: &mut MemSink,
) -> Option<u8>
    requires { K.flying links.old ≡ [] }
{
    let words = words_of(alloc, words).ok()?;
    Some(lif(rt, alloc, &words, store, say, links, &NoGate).code())
}

/// Whether the call is done, by a gate, over links that go by the seed.
pub(super) fn is_done_by<G: Gate + Sync, R: Threads + Sync>(
    rt: &R,
    alloc: Global,
    words: &[&str],
    store: &mut MemStore,
    gate: &G,
) -> Option<bool> {
    let words = words_of(alloc, words).ok()?;
    let mut say = MemSink::new(alloc, Vec::new(alloc));
    let mut links = SeedLinks::new(alloc);
    Some(lif(rt, alloc, &words, store, &mut say, &mut links, gate).code() == 0)
}
