//! Runs of `lif` over a store, a sink and links in memory.
ghost use Rattle.std.specs.Prelude.{◌≡◌, [], IfSome};
ghost use Rattle.lif_outside.specs.Listed.{held_in};

use crate::comparing::{Came, compare};
use case_reader::cursor::NO_MEMORY;
use case_reader::differences::Differences;
use case_reader::named::{Named, add_copy, found};
use case_reader::scene::{Scene, Trouble};
use lif_outside::{Links, ListLinks, MemSink, MemStore, NoGate, SeedLinks};
use lif_top::lif;
use logged_store::{Event, Logged};
use std::alloc::Global;
use std::thread::Threads;
use test_support::orders::{Script, hostile};
use test_support::watched::{Watched, watch};

// What a run goes over beside links.
#[derive(Drop)]
struct Outside {
    store: Logged<MemStore>,
    say: MemSink,
}

// Whether words may lead to calls on links.
fn may_carry(words: &[String]) -> bool {
    match words.first() {
        Some(word) => matches!(word.as_str(), "send" | "demo" | "sendtwo"),
        None => false,
    }
}

// Runs over links, and compares what comes.
fn run_over<R: Threads + Sync, K: Links>(
    rt: &R,
    alloc: Global,
    scene: &Scene<'_>,
    outside: &mut Outside,
    links: &mut Watched<K>,
    differences: &mut Differences<'_>,
)
    requires { K.flying links.old.links ≡ [] }
{
    let status = lif(
        rt,
        alloc,
        &scene.words,
        &mut outside.store,
        &mut outside.say,
        links,
        &NoGate,
    );
    let came = Came {
        status: status.code(),
        said: outside.say.bytes(),
        store: outside.store.inner(),
        log: outside.store.log(),
        is_logged: outside.store.is_whole(),
        calls: &links.calls,
        may_carry: may_carry(&scene.words),
    };
    compare(scene, &came, differences);
}

// Links that go by a list.
fn listed(alloc: Global, trouble: &Trouble) -> Option<ListLinks>
    ensures { IfSome result (λ links. (held_in links).flying ≡ []) }
{
    let script = Script {
        picks: &trouble.picks,
        keeps: &trouble.keeps,
        spoils: &trouble.spoils,
        put_fails: &trouble.put_fails,
        take_fails: &trouble.take_fails,
    };
    hostile(alloc, &script)
}

// Runs over links that go by a list.
fn run_listed<R: Threads + Sync>(
    rt: &R,
    alloc: Global,
    scene: &Scene<'_>,
    outside: &mut Outside,
    differences: &mut Differences<'_>,
) -> Option<&'static str> {
    match listed(alloc, &scene.trouble) {
        Some(links) => {
            let mut links = watch(alloc, links);
            run_over(rt, alloc, scene, outside, &mut links, differences);
            None
        }
        None => Some("links can't go so"),
    }
}

// Runs over links that go by the seed.
fn run_seeded<R: Threads + Sync>(
    rt: &R,
    alloc: Global,
    scene: &Scene<'_>,
    outside: &mut Outside,
    differences: &mut Differences<'_>,
) {
    let mut links = watch(alloc, SeedLinks::new(alloc));
    run_over(rt, alloc, scene, outside, &mut links, differences);
}

// Runs over the links that are told.
fn run_with<R: Threads + Sync>(
    rt: &R,
    alloc: Global,
    scene: &Scene<'_>,
    outside: &mut Outside,
    differences: &mut Differences<'_>,
) -> Option<&'static str> {
    if scene.trouble.is_listed {
        run_listed(rt, alloc, scene, outside, differences)
    } else {
        run_seeded(rt, alloc, scene, outside, differences);
        None
    }
}

// Puts files into a store, and answers whether their paths are texts and there was memory for them.
fn put_files(alloc: Global, files: &[Named], store: &mut MemStore) -> bool {
    let mut are_put = true;
    for file in files {
        are_put &= match str::from_utf8(&file.name) {
            Ok(path) => store.put_file(alloc, path, &file.bytes).is_ok(),
            Err(_) => false,
        };
    }
    are_put
}

// A store without files, of which the calls fail that are told.
fn empty_store(alloc: Global, scene: &Scene<'_>) -> Option<MemStore> {
    let fails = Vec::from_slice(alloc, &scene.trouble.fails).ok()?;
    Some(MemStore::new(alloc, scene.trouble.most.max(1), fails))
}

// A store with the files of a case.
fn store_of(alloc: Global, scene: &Scene<'_>) -> Option<MemStore> {
    let mut store = empty_store(alloc, scene)?;
    put_files(alloc, &scene.files, &mut store).then_some(store)
}

// A sink of which the puts fail that are told.
fn sink_of(alloc: Global, scene: &Scene<'_>) -> Option<MemSink> {
    match Vec::from_slice(alloc, &scene.trouble.say_fails) {
        Ok(fails) => Some(MemSink::new(alloc, fails)),
        Err(_) => None,
    }
}

// Notes what stands at a path of a store, and answers whether there was memory for it.
fn note(alloc: Global, path: &str, store: &MemStore, files: &mut Vec<Named>) -> bool {
    match store.file(path) {
        Some(bytes) => add_copy(alloc, files, path.as_bytes(), bytes),
        None => true,
    }
}

// Notes what stands at the path of a file that a call made, where it isn't noted.
fn note_made(alloc: Global, event: &Event, store: &MemStore, files: &mut Vec<Named>) -> bool {
    match event {
        Event::Created { path } if found(files, path.as_bytes()).is_none() => {
            note(alloc, path.as_str(), store, files)
        }
        _ => true,
    }
}

// Notes the files that stand in a store behind a run, and answers whether there was memory for them.
fn note_files(
    alloc: Global,
    before: &[Named],
    store: &Logged<MemStore>,
    files: &mut Vec<Named>,
) -> bool {
    let mut are_noted = true;
    for file in before {
        let path = str::from_utf8(&file.name).unwrap_or_default();
        are_noted &= note(alloc, path, store.inner(), files);
    }
    for event in store.log() {
        are_noted &= note_made(alloc, event, store.inner(), files);
    }
    are_noted
}

// A store and a sink for a scene.
fn outside_of(alloc: Global, scene: &Scene<'_>) -> Option<Outside> {
    let store = Logged::new(alloc, store_of(alloc, scene)?);
    let say = sink_of(alloc, scene)?;
    Some(Outside { store, say })
}

/// Runs `lif` in a scene, tells what differs, and notes the files that stand there then. It answers why it can't.
pub fn carry_out<R: Threads + Sync>(
    rt: &R,
    alloc: Global,
    scene: &Scene<'_>,
    files: &mut Vec<Named>,
    differences: &mut Differences<'_>,
) -> Option<&'static str> {
    match outside_of(alloc, scene) {
        Some(mut outside) => {
            let stopped = run_with(rt, alloc, scene, &mut outside, differences);
            let are_noted = note_files(alloc, &scene.files, &outside.store, files);
            stopped.or((!are_noted).then_some(NO_MEMORY))
        }
        None => Some("a path that isn't text, or no memory for the files"),
    }
}
