//! Cases, told as data: what `lif` does over a store, a sink and links in memory, and all that comes of it.
//!
//! docs/CASES.md says how they are written. The words are the names of files: of those whose bytes cases name, and then of
//! files of cases. Each such file's cases are done, what differs is said in a line each, and then how many there were.
//! Nothing is promised here but that all calls return: what the cases show is tested. Begin with `go_by_text` in
//! src/files.rt; a run and what comes of it are in src/running.rt and src/comparing.rt. Lines are read by `case_reader`.
#![tactic(auto)]

mod comparing;
mod files;
mod running;
mod steps;

use case_reader::named::Named;
use case_reader::tally::Tally;
use files::go_by_text;
use std::alloc::{AllocError, Global};
use std::thread::Threads;
use std::{env, fs, io};

// Keeps the bytes of a file.
fn keep(
    alloc: Global,
    file: &str,
    bytes: Vec<u8>,
    given: &mut Vec<Named>,
) -> Result<(), AllocError> {
    let name = Vec::from_slice(alloc, file.as_bytes())?;
    given.push(Named { name, bytes })?;
    Ok(())
}

// Goes by the cases of a file, and says what differs, and how many there were.
fn go<R: Print + AllocGlobal + Threads + Sync>(
    rt: &R,
    file: &str,
    text: &[u8],
    given: &[Named],
) -> io::Result<()> {
    let mut tally = Tally::none(rt.alloc());
    go_by_text(rt, rt.alloc(), file, text, given, &mut tally);
    let (told, cases, differ) = (tally.text(), tally.cases, tally.differ);
    println!(rt; "{told}{file}: {cases} cases, {differ} differ")
}

fn main(rt: HostRuntime) -> io::Result<()> {
    let mut given = Vec::new(rt.alloc());
    for word in env::args(&rt)?.skip(1) {
        let file = word.as_str();
        let bytes = fs::read(&rt, file)?;
        if file.ends_with(".cases") {
            go(&rt, file, &bytes, &given)?;
        } else {
            keep(rt.alloc(), file, bytes, &mut given)?;
        }
    }
    Ok(())
}
