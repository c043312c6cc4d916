//! What no clause says: the exit status as a value, and that nothing but the line comes of words that can't be had.
use super::run_over;
use lif_outside::{MemSink, MemStore};
use lif_top::Words;
use logged_store::Logged;
use std::alloc::Global;
use std::process::ExitCode;
use std::thread::Threads;

// Whether this line was said, and no call made on the store.
fn said_alone(store: &Logged<MemStore>, say: &MemSink, line: &[u8]) -> bool {
    say.bytes() == line && store.is_whole() && store.log().is_empty()
}

// Whether a run with words that can't be had ends with this number, says this line, and does nothing else.
fn says_alone<R: Threads + Sync>(
    rt: &R,
    alloc: Global,
    words: Words,
    number: u8,
    line: &[u8],
) -> bool {
    let mut store = Logged::new(alloc, MemStore::new(alloc, 100, Vec::new(alloc)));
    let mut say = MemSink::new(alloc, Vec::new(alloc));
    let code = run_over(rt, alloc, words, &mut store, &mut say);
    code == ExitCode::from(number) && said_alone(&store, &say, line)
}

#[test]
fn words_may_be_missing(rt: HostRuntime) {
    let usage =
        b"usage: lif order NET | cuts NET | compile NET CODE REPORT | check CODE | send CODE PATTERN SEED SRC PREFIX | demo N K BYTES | migrate OLD NEW | relay CODE PATTERN NODE IN OUT | sink CODE PATTERN SINK IN DST | blind CODE SRC PREFIX LINK | finish DRAFT CODE | twin NET SECOND R1 R2 CODE REPORT | sendtwo CODE PATTERN SEED R1 SRC1 SRC2 PREFIX\n";
    assert!(rt; says_alone(&rt, rt.alloc(), Words::NotText, 2, usage));
    assert!(rt; says_alone(&rt, rt.alloc(), Words::NoMemory, 13, b"out of memory\n"));
}
