//! A run of the program over a store, a sink and links, whatever they are.
ghost use Rattle.std.specs.Prelude.{◌≡◌, ◌≤◌, []};
ghost use Rattle.std.specs.Process.{exit_status};
ghost use Rattle.lif_outside.specs.Calls.{KeepsStore, objects};
ghost use Rattle.top_base.specs.Codes.{code_of};
ghost use Rattle.top_base.specs.declared.status.Status.{Status};
ghost use Rattle.lif_top.specs.Run.{RunsWords};

use crate::program::lif;
use lif_outside::{Links, NoGate, Sink, Store};
use std::alloc::Global;
use std::process::ExitCode;
use std::thread::Threads;
use system_files::Words;
use top_base::Status;

// Does what the words say, and tells how it ended.
fn end_of<S: Store, C: Sink, L: Links, R: Threads + Sync>(
    rt: &R,
    alloc: Global,
    words: Words,
    store: &mut S,
    say: &mut C,
    links: &mut L,
) -> Status
    requires { L.flying links.old ≡ [] }
    ensures runs { RunsWords
        (objects S.Store C.Sink L.Links store.old store.new say.old say.new links.old links.new)
        result words }
    ensures counts { KeepsStore S.Store store.old store.new }
    ensures say_count { C.faults say.old ≤ C.faults say.new }
    ensures link_count { L.faults links.old ≤ L.faults links.new }
{
    match words {
        Words::Given(words) => lif(rt, alloc, words.as_slice(), store, say, links, &NoGate),
        Words::NotText => lif(rt, alloc, &[], store, say, links, &NoGate),
        Words::NoMemory => {
            let _ = say.put(b"out of memory\n");
            Status::OutOfMemory
        },
    }
}

/// Does what the words say, and ends with the number of the status. Words that aren't text are no form. Where there
/// was no memory for the words, nothing but that is said.
pub fn run<S: Store, C: Sink, L: Links, R: Threads + Sync>(
    rt: &R,
    alloc: Global,
    words: Words,
    store: &mut S,
    say: &mut C,
    links: &mut L,
) -> ExitCode
    requires { L.flying links.old ≡ [] }
    ensures status { (status : Status) × (exit_status result ≡ code_of status) × RunsWords
        (objects S.Store C.Sink L.Links store.old store.new say.old say.new links.old links.new)
        status words }
    ensures counts { KeepsStore S.Store store.old store.new }
    ensures say_count { C.faults say.old ≤ C.faults say.new }
    ensures link_count { L.faults links.old ≤ L.faults links.new }
{
    let status = end_of(rt, alloc, words, store, say, links);
    ExitCode::from(status.code())
}
