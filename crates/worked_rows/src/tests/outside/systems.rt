//! The system in memory itself: which call fails, how many files are open, and what is held, so that no test over it passes
//! where nothing fails.
use logged_store::MemFiles;
use std::alloc::Global;
use std::fs::{File, OpenFile, OpenOptions};
use std::io;
use std::io::{ErrorKind, Read, Seek, SeekFrom, Write};
use std::rt::Files;
use std::test::Fail;

// Opens a file for appends, and makes one where none is.
fn open_sink<R: Files>(files: &R, path: &str) -> io::Result<R::File> {
    OpenOptions::new()
        .append(true)
        .create(true)
        .open(files, path)
}

// Looks at a file that is open for appends, empties it, adds to it and flushes it.
fn use_sink<F: OpenFile + Write>(sink: &mut F) -> io::Result<()> {
    sink.metadata()?;
    sink.set_len(0)?;
    let _count = sink.write(b"abc")?;
    sink.flush()
}

// Makes eight calls: a file is opened, used and closed, and another is opened and read.
fn make_calls(files: &MemFiles) -> io::Result<usize> {
    use_sink(&mut open_sink(files, "sink")?)?;
    let mut source = File::open(files, "source")?;
    source.read(&mut [0; 9])
}

// How many bytes were read, where the call of this number fails, and whether the failure was the last call.
fn read_count(alloc: Global, failing: u64) -> io::Result<(Option<usize>, bool)> {
    let files = MemFiles::new(alloc, failing, 9)?;
    files.put("source", b"held")?;
    let outcome = make_calls(&files);
    Ok((outcome.ok(), !files.went_on()))
}

// Whether each of the calls fails where it is to, and none else. That a file is closed, the sixth, is told to nobody.
fn fails_in_turn(alloc: Global) -> io::Result<bool> {
    for failing in [1, 2, 3, 4, 5, 7, 8] {
        if read_count(alloc, failing)? != (None, true) {
            return Ok(false);
        }
    }
    Ok(read_count(alloc, 6)? == (Some(4), true) && read_count(alloc, 9)? == (Some(4), true))
}

#[test]
fn the_call_that_is_to_fails(rt: HostRuntime) -> Result<(), Fail> {
    assert!(rt; fails_in_turn(rt.alloc())?);
    Ok(())
}

// Whether a call behind one that failed is noted.
fn is_noted(alloc: Global) -> io::Result<bool> {
    let files = MemFiles::new(alloc, 1, 9)?;
    files.put("source", b"held")?;
    let first = File::open(&files, "source").is_err();
    let second = File::open(&files, "source").is_ok();
    Ok(first && second && files.went_on() && files.calls() == 3)
}

// Whether a file is wrong in its bytes, in its front, or missing, and that is told.
fn tells_holdings(files: &MemFiles) -> bool {
    files.holds("source", b"held", true)
        && !files.holds("source", b"hel", true)
        && !files.holds("source", b"heldmore", true)
        && files.holds("source", b"heldmore", false)
        && !files.holds("source", b"hex", false)
        && !files.holds("missing", b"", true)
        && files.holds("missing", b"", false)
}

// Why an outcome isn't there.
fn failure<T: Drop>(outcome: io::Result<T>) -> Option<ErrorKind> {
    match outcome {
        Ok(_) => None,
        Err(error) => Some(error.kind()),
    }
}

// Whether no more than so many files are open at once.
fn has_two_handles(files: &MemFiles) -> io::Result<bool> {
    let _first = File::open(files, "source")?;
    let second = File::open(files, "source")?;
    let is_full = File::open(files, "source").is_err();
    drop(second);
    Ok(is_full && File::open(files, "source").is_ok())
}

// Whether a file is told to be a regular one.
fn is_regular<F: OpenFile>(file: &F) -> bool {
    match file.metadata() {
        Ok(metadata) => metadata.is_file(),
        Err(_) => false,
    }
}

// Whether a pipe that is open for appends can't be moved in, emptied or read.
fn is_pipe<F: OpenFile + Read + Seek>(pipe: &mut F) -> bool {
    !is_regular(pipe)
        && pipe.set_len(0).is_err()
        && pipe.seek(SeekFrom::Start(0)).is_err()
        && failure(pipe.read(&mut [0; 2])) == Some(ErrorKind::PermissionDenied)
}

// Whether a file that is open for reads can be moved in, and not written to.
fn is_source<F: OpenFile + Write + Seek>(source: &mut F) -> bool {
    is_regular(source)
        && matches!(source.seek(SeekFrom::Start(2)), Ok(2))
        && failure(source.write(b"a")) == Some(ErrorKind::PermissionDenied)
}

// Whether files are of their kinds, and a pipe is opened once.
fn has_kinds(files: &MemFiles) -> io::Result<bool> {
    let are_kinds = is_pipe(&mut open_sink(files, "pipe")?)
        && is_source(&mut File::open(files, "source")?);
    Ok(are_kinds && File::open(files, "pipe").is_err())
}

fn is_as_it_should(alloc: Global) -> io::Result<bool> {
    let files = MemFiles::new(alloc, 0, 2)?;
    files.put("source", b"held")?;
    files.put_pipe("pipe", b"")?;
    Ok(tells_holdings(&files) && has_two_handles(&files)? && has_kinds(&files)?)
}

#[test]
fn a_system_in_memory_tells_what_it_holds(rt: HostRuntime) -> Result<(), Fail> {
    assert!(rt; is_noted(rt.alloc())?);
    assert!(rt; is_as_it_should(rt.alloc())?);
    Ok(())
}
