//! A whole run over the files of the system, of which each call is logged: no other call is made, and no other
//! file.
mod failing;
mod given_words;
mod launching;
mod missing_words;

use lif_outside::{MemSink, SeedLinks, Store};
use lif_top::{Words, run};
use logged_store::{Event, Logged, varied_bytes};
use std::alloc::{AllocError, Global};
use std::process::ExitCode;
use std::test::Fail;
use std::thread::Threads;
use std::{fs, io};
use system_files::FileStore;
use test_support::files::ONE_LINK;

// A folder of this test alone, and the paths in it.
const FOLDER: &str = "logged-run-test";

const CODE: &str = "logged-run-test/code";

const SOURCE: &str = "logged-run-test/source";

const PREFIX: &str = "logged-run-test/out";

const OUTPUT: &str = "logged-run-test/out.t";

const WORDS: &[&str] = &["send", CODE, "none", "1", SOURCE, PREFIX];

const SENT: &[u8] = b"sent 70000 bytes in 69 generations to 1 sinks\n";

// The bytes that a read of a path gave, where it was one from this place on with room for some.
fn bytes_read<'a>(event: &'a Event, path: &str, place: usize) -> Option<&'a [u8]> {
    match event {
        Event::Read {
            path: other,
            at,
            room,
            bytes,
        } if other.as_str() == path && *at == place as u64 && *room > 0 => Some(bytes.as_slice()),
        _ => None,
    }
}

/// Where the log begins with reads of a file that holds these bytes, from its start on without a gap until one gave
/// nothing, what follows them.
pub fn behind_reads<'a>(log: &'a [Event], path: &str, held: &[u8]) -> Option<&'a [Event]> {
    let mut place = 0usize;
    for (index, event) in log.iter().enumerate() {
        let rest = held.get(place..)?;
        let bytes = bytes_read(event, path, place)?;
        if bytes.is_empty() && rest.is_empty() {
            return log.get(index + 1..);
        }
        if bytes.is_empty() || !rest.starts_with(bytes) {
            return None;
        }
        place = place.saturating_add(bytes.len());
    }
    None
}

// Whether a path is one of these.
fn is_among(path: &str, paths: &[&str]) -> bool {
    for other in paths {
        if *other == path {
            return true;
        }
    }
    false
}

// Whether a log has reads of a file that holds these bytes, from its start on without a gap until one gave nothing, and
// appends to these outputs alone, of which those to the output add all that the file holds, and nothing before it was read.
fn is_added(log: &[Event], path: &str, outputs: &[&str], output: &str, held: &[u8]) -> bool {
    let (mut read, mut added, mut has_ended) = (0usize, 0usize, false);
    for event in log {
        match event {
            Event::Appended { path: other, bytes } if other.as_str() == output => {
                let Some(rest) = held.get(added..read) else {
                    return false;
                };
                if !rest.starts_with(bytes) {
                    return false;
                }
                added = added.saturating_add(bytes.len());
            }
            Event::Appended { path: other, .. } if is_among(other.as_str(), outputs) => {}
            _ => {
                let (Some(bytes), Some(rest)) = (bytes_read(event, path, read), held.get(read..))
                else {
                    return false;
                };
                if has_ended || !rest.starts_with(bytes) {
                    return false;
                }
                read = read.saturating_add(bytes.len());
                has_ended = bytes.is_empty();
            }
        }
    }
    has_ended && read == held.len() && added == held.len()
}

/// Whether a log streams a file that holds these bytes to these outputs: it is read once, from its start to its end, and
/// what was read is added to each of them.
pub fn is_stream(log: &[Event], path: &str, outputs: &[&str], held: &[u8]) -> bool {
    for output in outputs {
        if !is_added(log, path, outputs, output, held) {
            return false;
        }
    }
    true
}

// Whether these are the calls of a source that was sent: the code was read to its end, the output made, and the source
// read to its end, and streamed to the output.
fn is_delivery(log: &[Event], code: &[u8], source: &[u8]) -> bool {
    match behind_reads(log, CODE, code) {
        Some([Event::Created { path }, log @ ..]) => {
            path.as_str() == OUTPUT && is_stream(log, SOURCE, &[OUTPUT], source)
        }
        _ => false,
    }
}

// Whether the folder has these names and no other.
fn has_names(rt: &HostRuntime, names: &[&str]) -> io::Result<bool> {
    let mut count = 0usize;
    for entry in fs::read_dir(rt, FOLDER)? {
        if !names.contains(&entry?.file_name()) {
            return Ok(false);
        }
        count = count.saturating_add(1);
    }
    Ok(count == names.len())
}

// Makes the folder, and answers whether it has the code and the source alone.
fn make_folder(rt: &HostRuntime, source: &[u8]) -> io::Result<bool> {
    let _ = fs::remove_dir_all(rt, FOLDER);
    fs::create_dir(rt, FOLDER)?;
    fs::write(rt, CODE, ONE_LINK)?;
    fs::write(rt, SOURCE, source)?;
    has_names(rt, &["code", "source"])
}

// Whether the output is the source, and no other file was made.
fn has_output(rt: &HostRuntime, source: &[u8]) -> io::Result<bool> {
    let output = fs::read(rt, OUTPUT)?;
    Ok(output.as_slice() == source && has_names(rt, &["code", "out.t", "source"])?)
}

/// These words.
pub fn words_of(alloc: Global, words: &[&str]) -> Result<Words, AllocError> {
    let mut given = Vec::new(alloc);
    for word in words {
        given.push(String::from_str(alloc, word)?)?;
    }
    Ok(Words::Given(given))
}

// Whether the calls on the disk are those of the source that was sent.
fn has_delivered(store: &Logged<FileStore<HostRuntime>>, source: &[u8]) -> bool {
    store.is_whole() && is_delivery(store.log(), ONE_LINK, source)
}

/// Runs the words over a store, and answers the status. What it says goes to `say`.
pub fn run_over<R: Threads + Sync, S: Store>(
    rt: &R,
    alloc: Global,
    words: Words,
    store: &mut S,
    say: &mut MemSink,
) -> ExitCode {
    run(rt, alloc, words, store, say, &mut SeedLinks::new(alloc))
}

// Whether a run that ended so sent the source by the promised calls on the disk, and said so.
fn has_sent(
    status: ExitCode,
    store: &Logged<FileStore<HostRuntime>>,
    say: &MemSink,
    source: &[u8],
) -> bool {
    status == ExitCode::SUCCESS && say.bytes() == SENT && has_delivered(store, source)
}

// Whether a run sends the source so.
fn sends<R: Threads + Sync>(
    rt: &R,
    alloc: Global,
    words: Words,
    disk: FileStore<HostRuntime>,
    source: &[u8],
) -> bool {
    let mut store = Logged::new(alloc, disk);
    let mut say = MemSink::new(alloc, Vec::new(alloc));
    let status = run_over(rt, alloc, words, &mut store, &mut say);
    has_sent(status, &store, &say, source)
}

// Whether a source that lies in a folder of its own is sent so, and comes to the output alone.
fn is_sent<R: Threads + Sync>(rt: &R, host: &HostRuntime, source: &[u8]) -> io::Result<bool> {
    if !make_folder(host, source)? {
        return Ok(false);
    }
    let words = words_of(host.alloc(), WORDS)?;
    Ok(sends(rt, host.alloc(), words, FileStore::new(host), source) && has_output(host, source)?)
}

#[test]
fn a_run_makes_the_promised_calls(rt: HostRuntime) -> Result<(), Fail> {
    let source = varied_bytes(rt.alloc(), 70_000)?;
    assert!(rt; is_sent(&rt, &rt, &source)?);
    fs::remove_dir_all(&rt, FOLDER)?;
    Ok(())
}
