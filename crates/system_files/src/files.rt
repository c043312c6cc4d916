//! What is done to the files of a system, by their paths.
ghost use Rattle.std.specs.Prelude.{◌≡◌, ◌≤◌, None, true, length, take, drop, IfOk, OnOk, OnErr};
ghost use Rattle.std.specs.Fs.{new_options, with_read, with_append, with_create};
ghost use Rattle.lif_outside.specs.Limits.{last_place};
ghost use Rattle.system_files.specs.Handle.{place_of};
ghost use Rattle.system_files.specs.Kept.{handle_of, OnlyCloses, OnlyClosesOthers};
ghost use Rattle.system_files.specs.Open.{sources_of, sinks_of, OnlyClosesAny, GivesOrOpens, GainsOrOpens};

use crate::handle::Handle;
use crate::known::{FileId, KnownFiles, id_of};
use crate::open::OpenFiles;
use std::alloc::{AllocError, Global};
use std::fs::{OpenFile, OpenOptions};
use std::io;
use std::io::ErrorKind;
use std::rt::Files;

fn for_reads() -> OpenOptions
    ensures { result ≡ with_read new_options true }
{
    let mut how = OpenOptions::new();
    how.read(true);
    how
}

// A file that is there is left as it is, and one that isn't is made. Bytes go to its end.
fn for_creates() -> OpenOptions
    ensures { result ≡ with_create (with_append new_options true) true }
{
    let mut how = OpenOptions::new();
    how.append(true);
    how.create(true);
    how
}

// Bytes go to the end of a file that is there.
fn for_appends() -> OpenOptions
    ensures { result ≡ with_append new_options true }
{
    let mut how = OpenOptions::new();
    how.append(true);
    how
}

// Opens a file that is read, and notes that it is.
fn open_source<R: Files>(
    rt: &R,
    open_files: &mut OpenFiles<R::File>,
    path: &str,
) -> io::Result<Handle<R::File>>
    ensures start { IfOk result (λ source. place_of source ≡ 0) }
    ensures rest { OnlyClosesAny open_files.old open_files.new }
{
    let file = open_files.open(rt, &for_reads(), path)?;
    let metadata = file.metadata()?;
    if let Some(id) = id_of(&metadata) {
        open_files.known.fix(id)?;
    }
    Ok(Handle::opened(file, !metadata.is_file()))
}

/// Reads bytes of a file from a place on, and answers how many came: fewer than there is room for
/// only at its end. The file stays open where all went well, and isn't moved where the last read of it ended.
pub fn read_at<R: Files + AllocGlobal>(
    rt: &R,
    open_files: &mut OpenFiles<R::File>,
    path: &str,
    at: u64,
    into: &mut [u8],
) -> io::Result<usize>
    requires { at ≤ last_place }
    ensures count { IfOk result (λ n. n ≤ length into.old) }
    ensures rest { IfOk result (λ n. drop n into.new ≡ drop n into.old) }
    ensures bytes { IfOk result (λ n. GivesOrOpens path.now R.File.Seek R.File.Read at
        (length into.old) (take n into.new) (sources_of open_files.old) (sources_of open_files.new)) }
    ensures closes { OnErr result (handle_of (sources_of open_files.new) path.now ≡ None) }
    ensures others { OnlyClosesOthers path.now
        (sources_of open_files.old) (sources_of open_files.new) }
    ensures sinks { OnlyCloses (sinks_of open_files.old) (sinks_of open_files.new) }
{
    if let Some(outcome) = open_files.sources.read_from(path, at, into) {
        return outcome;
    }
    let mut source = open_source(rt, open_files, path)?;
    let count = source.read_from(at, into)?;
    open_files.sources.keep(rt.alloc(), path, source);
    Ok(count)
}

// Notes that a file is made under a path, and fails where it may not be.
fn claim(known: &mut KnownFiles, alloc: Global, id: FileId, path: &str) -> io::Result<()> {
    if known.name(alloc, id, path)? {
        Ok(())
    } else {
        Err(io::Error::from(ErrorKind::AlreadyExists))
    }
}

// Opens a file for appends, and makes one where none is. A regular file is emptied, unless it may not be made.
fn open_sink<R: Files + AllocGlobal>(
    rt: &R,
    open_files: &mut OpenFiles<R::File>,
    path: &str,
) -> io::Result<Handle<R::File>>
    ensures { OnlyClosesAny open_files.old open_files.new }
{
    let file = open_files.open(rt, &for_creates(), path)?;
    let metadata = file.metadata()?;
    if let Some(id) = id_of(&metadata) {
        claim(&mut open_files.known, rt.alloc(), id, path)?;
    }
    if metadata.is_file() {
        file.set_len(0)?;
    }
    Ok(Handle::opened(file, !metadata.is_file()))
}

/// Makes an empty file, or empties the one that is there, and keeps it open for appends. What isn't a regular file, as
/// a pipe, a terminal or a device, is only opened. A file that was read, or to which another path leads that was named
/// or made, is left as it is, and the call fails.
pub fn create_empty<R: Files + AllocGlobal>(
    rt: &R,
    open_files: &mut OpenFiles<R::File>,
    path: &str,
) -> io::Result<()>
    ensures closes { OnErr result (handle_of (sinks_of open_files.new) path.now ≡ None) }
    ensures others { OnlyClosesOthers path.now
        (sinks_of open_files.old) (sinks_of open_files.new) }
    ensures sources { OnlyCloses (sources_of open_files.old) (sources_of open_files.new) }
{
    open_files.sinks.close(path);
    let sink = open_sink(rt, open_files, path)?;
    open_files.sinks.keep(rt.alloc(), path, sink);
    Ok(())
}

// Opens a file that is there for appends.
fn reopen_sink<R: Files>(
    rt: &R,
    open_files: &mut OpenFiles<R::File>,
    path: &str,
) -> io::Result<Handle<R::File>>
    ensures { OnlyClosesAny open_files.old open_files.new }
{
    let file = open_files.open(rt, &for_appends(), path)?;
    let metadata = file.metadata()?;
    Ok(Handle::opened(file, !metadata.is_file()))
}

/// Adds bytes at the end of a file that is there, and keeps it open where all went well.
pub fn append_to<R: Files + AllocGlobal>(
    rt: &R,
    open_files: &mut OpenFiles<R::File>,
    path: &str,
    bytes: &[u8],
) -> io::Result<()>
    ensures gains { OnOk result (GainsOrOpens path.now R.File.contents bytes.now
        (sinks_of open_files.old) (sinks_of open_files.new)) }
    ensures closes { OnErr result (handle_of (sinks_of open_files.new) path.now ≡ None) }
    ensures others { OnlyClosesOthers path.now
        (sinks_of open_files.old) (sinks_of open_files.new) }
    ensures sources { OnlyCloses (sources_of open_files.old) (sources_of open_files.new) }
{
    if let Some(outcome) = open_files.sinks.append(path, bytes) {
        return outcome;
    }
    let mut sink = reopen_sink(rt, open_files, path)?;
    sink.append(bytes)?;
    open_files.sinks.keep(rt.alloc(), path, sink);
    Ok(())
}

// Which file a path leads to, where it is a regular one.
fn id_at<R: Files>(rt: &R, path: &str) -> Option<FileId> {
    match rt.metadata(path) {
        Ok(metadata) => id_of(&metadata),
        Err(_) => None,
    }
}

/// Notes that a path is named: the file that it leads to isn't made under another one.
pub fn note_named<R: Files + AllocGlobal>(
    rt: &R,
    open_files: &mut OpenFiles<R::File>,
    path: &str,
) -> Result<(), AllocError>
    ensures sources { sources_of open_files.new ≡ sources_of open_files.old }
    ensures sinks { sinks_of open_files.new ≡ sinks_of open_files.old }
{
    if let Some(id) = id_at(rt, path) {
        open_files.known.name(rt.alloc(), id, path)?;
    }
    Ok(())
}
