//! Whole runs over files in memory, of which each call fails in turn: the calls on the store are those of the run in
//! which none fails, up to the one that failed, and nothing comes behind that.
use super::{behind_reads, is_stream, run_over, words_of};
use lif_outside::MemSink;
use lif_top::Words;
use logged_store::{Event, Logged, MemFiles, varied_bytes};
use std::alloc::Global;
use std::io;
use std::process::ExitCode;
use std::test::Fail;
use std::thread::Threads;
use system_files::FileStore;

/// A code for two sinks, each with two links from the source. The first of the second sink carries the sum of both rows.
pub const TWO_SINKS: &[u8] = b"LIFC\x01\x08\x02\
    \x00\x03\x01s\x02t1\x02t2\
    \x00\x04\
    \x01a\x00\x00\x00\x01\
    \x01b\x00\x00\x00\x01\
    \x01c\x00\x00\x00\x02\
    \x01d\x00\x00\x00\x02\
    \x00\x00\
    \x00\x02\x00\x01\x00\x02\
    \x00\x00\
    \x00\x01\x00\x00\x01\
    \x00\x01\x00\x01\x01\
    \x00\x02\x00\x00\x01\x00\x01\x01\
    \x00\x01\x00\x01\x01\
    \x00\x00\x00\x01\x01\x00\x00\x01\
    \x00\x02\x00\x03\x01\x01\x00\x01";

/// The words of a run.
pub const WORDS: &[&str] = &["send", "code", "none", "1", "source", "out"];

/// More calls than a run makes.
pub const MOST_CALLS: u64 = 10_000;

/// What is said of a source of 10,000 bytes.
pub const SENT: &[u8] = b"sent 10000 bytes in 5 generations to 2 sinks\n";

// Whether a call is the failure of another.
fn is_failed(last: &Event, next: &Event) -> bool {
    match next {
        Event::Read { path, at, room, .. } => is_failed_read(last, path.as_str(), *at, *room),
        Event::Created { path } => is_failed_create(last, path.as_str()),
        Event::Appended { path, bytes } => is_failed_append(last, path.as_str(), bytes),
        _ => false,
    }
}

fn is_failed_read(last: &Event, path: &str, at: u64, room: usize) -> bool {
    match last {
        Event::ReadFailed {
            path: other,
            at: place,
            room: wanted,
        } => other.as_str() == path && *place == at && *wanted == room,
        _ => false,
    }
}

fn is_failed_create(last: &Event, path: &str) -> bool {
    match last {
        Event::CreateFailed { path: other } => other.as_str() == path,
        _ => false,
    }
}

fn is_failed_append(last: &Event, path: &str, bytes: &[u8]) -> bool {
    match last {
        Event::AppendFailed {
            path: other,
            bytes: added,
        } => other.as_str() == path && added.as_slice() == bytes,
        _ => false,
    }
}

// The number of the status and the line of a run that ends with a call that failed.
fn fault_of(last: &Event) -> (u8, &'static [u8]) {
    match last {
        Event::ReadFailed { .. } => (10, b"read fault\n"),
        _ => (11, b"write fault\n"),
    }
}

// Whether a run went as a whole one, up to a call that failed.
fn goes_as(status: ExitCode, said: &[u8], log: &[Event], whole: &[Event]) -> bool {
    if log == whole {
        return status == ExitCode::SUCCESS && said == SENT;
    }
    let Some((last, front)) = log.split_last() else {
        return false;
    };
    let (number, line) = fault_of(last);
    let Some(next) = whole.get(front.len()) else {
        return false;
    };
    status == ExitCode::from(number)
        && said == line
        && whole.starts_with(front)
        && is_failed(last, next)
}

// Whether a log begins with the creates of the sinks' files, in order.
fn behind_creates(log: &[Event]) -> Option<&[Event]> {
    match log {
        [
            Event::Created { path: first },
            Event::Created { path: second },
            log @ ..,
        ] if first.as_str() == "out.t1" && second.as_str() == "out.t2" => { Some(log) }
        _ => None,
    }
}

// Whether these are the calls of a source that was streamed to both sinks.
fn is_sending(log: &[Event], source: &[u8]) -> bool {
    behind_reads(log, "code", TWO_SINKS)
        .and_then(behind_creates)
        .is_some_and(|log| is_stream(log, "source", &["out.t1", "out.t2"], source))
}

// A system with the code and the source, of which the call of this number fails.
fn system(alloc: Global, failing: u64, handles: usize, source: &[u8]) -> io::Result<MemFiles> {
    let files = MemFiles::new(alloc, failing, handles)?;
    files.put("code", TWO_SINKS)?;
    files.put("source", source)?;
    Ok(files)
}

// Whether each sink's file holds the source, or a front of it where it needn't be whole.
fn has_files(files: &MemFiles, source: &[u8], whole: bool) -> bool {
    files.holds("out.t1", source, whole) && files.holds("out.t2", source, whole)
}

// Whether a run over a system with these files ended as a whole one, up to a call that failed.
fn ended_as(
    status: ExitCode,
    store: &Logged<FileStore<'_, MemFiles>>,
    say: &MemSink,
    files: &MemFiles,
    source: &[u8],
    whole: &[Event],
) -> bool {
    store.is_whole()
        && !files.went_on()
        && goes_as(status, say.bytes(), store.log(), whole)
        && has_files(files, source, status == ExitCode::SUCCESS)
}

// Whether a run goes as a whole one, up to a call that failed.
fn goes<R: Threads + Sync>(
    rt: &R,
    alloc: Global,
    files: &MemFiles,
    words: Words,
    source: &[u8],
    whole: &[Event],
) -> bool {
    let mut store = Logged::new(alloc, FileStore::new(files));
    let mut say = MemSink::new(alloc, Vec::new(alloc));
    let status = run_over(rt, alloc, words, &mut store, &mut say);
    ended_as(status, &store, &say, files, source, whole)
}

// Whether a run in which the call of this number fails goes as a whole one up to that, and whether the call was made.
fn goes_up_to<R: Threads + Sync>(
    rt: &R,
    alloc: Global,
    failing: u64,
    handles: usize,
    source: &[u8],
    whole: &[Event],
) -> io::Result<(bool, bool)> {
    let words = words_of(alloc, WORDS)?;
    let files = system(alloc, failing, handles, source)?;
    let is_right = goes(rt, alloc, &files, words, source, whole);
    Ok((is_right, failing <= files.calls()))
}

// The first call of the system whose failure leads elsewhere, by its number. It is 0 where there is no end of calls.
fn first_wrong<R: Threads + Sync>(
    rt: &R,
    alloc: Global,
    handles: usize,
    source: &[u8],
    whole: &[Event],
) -> io::Result<Option<u64>> {
    for failing in 1..MOST_CALLS {
        match goes_up_to(rt, alloc, failing, handles, source, whole)? {
            (true, true) => {}
            (true, false) => return Ok(None),
            (false, _) => return Ok(Some(failing)),
        }
    }
    Ok(Some(0))
}

// The same, where the run in which no call fails was as promised.
fn first_wrong_after<R: Threads + Sync>(
    rt: &R,
    alloc: Global,
    handles: usize,
    source: &[u8],
    whole: &[Event],
) -> io::Result<Option<u64>> {
    if is_sending(whole, source) {
        first_wrong(rt, alloc, handles, source, whole)
    } else {
        Ok(Some(0))
    }
}

// The same, for a system in which no call fails yet.
fn first_wrong_call<R: Threads + Sync>(
    rt: &R,
    alloc: Global,
    handles: usize,
    source: &[u8],
) -> io::Result<Option<u64>> {
    let words = words_of(alloc, WORDS)?;
    let files = system(alloc, 0, handles, source)?;
    let mut store = Logged::new(alloc, FileStore::new(&files));
    let mut say = MemSink::new(alloc, Vec::new(alloc));
    let _status = run_over(rt, alloc, words, &mut store, &mut say);
    first_wrong_after(rt, alloc, handles, source, store.log())
}

#[test]
fn each_call_of_the_system_may_fail(rt: HostRuntime) -> Result<(), Fail> {
    let source = varied_bytes(rt.alloc(), 10_000)?;
    for handles in [1, 3] {
        let wrong = first_wrong_call(&rt, rt.alloc(), handles, &source)?;
        assert_eq!(rt; wrong, None, "with {handles} handles");
    }
    Ok(())
}
