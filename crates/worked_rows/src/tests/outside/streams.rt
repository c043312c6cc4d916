//! Pipes as sources and as sinks, and standard streams that are closed.
use lif_outside::{Failed, Sink, Store};
use logged_store::{MemFiles, varied_bytes};
use std::alloc::{AllocError, Global};
use std::io;
use std::test::Fail;
use system_files::{FileStore, StandIns, WriterSay};

// A pipe, and some files, of which one is open at a time.
fn pipe_and_files(alloc: Global, bytes: &[u8]) -> io::Result<MemFiles> {
    let files = MemFiles::new(alloc, 0, 2)?;
    files.put_pipe("pipe", bytes)?;
    Ok(files)
}

// Whether a pipe gives these bytes to reads that follow one another, while other files are made and read.
fn reads_on(store: &mut FileStore<'_, MemFiles>, bytes: &[u8]) -> bool {
    let mut into = [0; 1000];
    let mut place = 0usize;
    for path in ["a", "b", "c", "d"] {
        let Ok(count) = store.read("pipe", place.min(1 << 40) as u64, &mut into) else {
            return false;
        };
        let end = place.saturating_add(count);
        if bytes.get(place..end) != into.get(..count) || add_more(store, path, path).is_err() {
            return false;
        }
        place = end;
    }
    place == bytes.len()
}

// Makes a file that holds so much, and reads it.
fn add_more(store: &mut FileStore<'_, MemFiles>, path: &str, text: &str) -> Result<usize, Failed> {
    store.create(path)?;
    store.append(path, text.as_bytes())?;
    store.read(path, 0, &mut [0; 3])
}

fn is_read(alloc: Global, bytes: &[u8]) -> io::Result<bool> {
    let files = pipe_and_files(alloc, bytes)?;
    let mut store = FileStore::new(&files);
    // A read at another place than that where the last one ended fails.
    Ok(reads_on(&mut store, bytes) && store.read("pipe", 0, &mut [0; 3]).is_err())
}

#[test]
fn a_pipe_is_read_once(rt: HostRuntime) -> Result<(), Fail> {
    let bytes = varied_bytes(rt.alloc(), 3500)?;
    assert!(rt; is_read(rt.alloc(), &bytes)?);
    Ok(())
}

// Adds bytes to a pipe and to other files by turns.
fn add_by_turns(store: &mut FileStore<'_, MemFiles>) -> Result<(), Failed> {
    store.create("pipe")?;
    for path in ["a", "b", "c", "d"] {
        store.create(path)?;
        store.append(path, b"file")?;
        store.append("pipe", b"more")?;
    }
    Ok(())
}

// Whether a pipe is neither emptied nor closed.
fn is_added(alloc: Global) -> io::Result<bool> {
    let files = pipe_and_files(alloc, b"old")?;
    let mut store = FileStore::new(&files);
    Ok(
        add_by_turns(&mut store).is_ok()
            && files.holds("pipe", b"oldmoremoremoremore", true)
            && files.holds("a", b"file", true)
            && files.holds("d", b"file", true),
    )
}

#[test]
fn a_pipe_is_only_added_to(rt: HostRuntime) -> Result<(), Fail> {
    assert!(rt; is_added(rt.alloc())?);
    Ok(())
}

// Which of standard input, output and error are closed, by their numbers.
const CLOSED: &[&[usize]] = &[&[], &[0], &[1], &[2], &[0, 1], &[0, 2], &[1, 2], &[0, 1, 2]];

// Makes a file, says a line, and answers whether that went well, and whether the line came to the output and to the file.
fn says(files: &MemFiles) -> (bool, bool, bool) {
    let mut store = FileStore::new(files);
    let mut say = WriterSay::new(io::writer(files));
    let went_well = store.create("file").is_ok() && say.put(b"line").is_ok();
    (
        went_well,
        files.has_said(b"line"),
        files.holds("file", b"line", true),
    )
}

// The same in a system of which these are closed.
fn says_with(
    alloc: Global,
    closed: &[usize],
    stands_in: bool,
) -> Result<(bool, bool, bool), AllocError> {
    let files = MemFiles::new(alloc, 0, 9)?;
    for number in closed {
        files.close_standard(*number);
    }
    if stands_in {
        let _stand_ins = StandIns::take(&files);
        Ok(says(&files))
    } else {
        Ok(says(&files))
    }
}

// Whether nothing that is said comes into a file, whichever are closed, and it is told where it comes nowhere.
fn are_apart(alloc: Global) -> Result<bool, AllocError> {
    for closed in CLOSED {
        let is_open = !closed.contains(&1);
        if says_with(alloc, closed, true)? != (is_open, is_open, false) {
            return Ok(false);
        }
    }
    Ok(true)
}

#[test]
fn closed_streams_are_taken(rt: HostRuntime) -> Result<(), Fail> {
    assert!(rt; are_apart(rt.alloc())?);
    // Else the line comes into the file, as it does on a disk.
    let astray = says_with(rt.alloc(), &[1], false)?;
    assert!(rt; astray == (true, false, true));
    Ok(())
}
