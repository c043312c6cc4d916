//! What no clause says: what the files of the system hold, and which calls fail.
use super::make;
use lif_outside::{Failed, Store};
use logged_store::{MemFiles, varied_bytes};
use std::alloc::{AllocError, Global};
use std::fs::{File, OpenFile, OpenOptions};
use std::io::{Seek, SeekFrom, Write};
use std::rt::Files;
use std::{fs, io};
use system_files::FileStore;

const SEVENS: &[u8] = &[7; 5000];

const DOTS: &[u8] = &[b'.'; 5000];

// How many files are appended to by turns: more than stay open.
const MANY: u32 = 600;

/// A call of a store or of the system, and what comes of it.
#[derive(Clone, Copy)]
pub enum Step {
    Create(&'static str),
    // The file is made with these bytes.
    Make(&'static str, &'static [u8]),
    Name(&'static str),
    Append(&'static str, &'static [u8]),
    // From a place on so many bytes come, and a buffer of dots is this one then.
    Read(&'static str, u32, usize, &'static [u8]),
    CreateFails(&'static str),
    AppendFails(&'static str),
    // From a place on.
    ReadFails(&'static str, u32),
    // The file is taken from the system.
    Remove(&'static str),
    // So many reads have failed, and so many creates and appends.
    Faults(u64, u64),
}

// Whether a read from a place on gives so many bytes, and a buffer of dots is this one then.
fn gives(
    store: &mut FileStore<HostRuntime>,
    path: &str,
    at: u32,
    count: usize,
    buffer: &[u8],
) -> bool {
    let mut into = [b'.'; 5000];
    let Some(into) = into.get_mut(..buffer.len()) else {
        return false;
    };
    store.read(path, at as u64, into) == Ok(count) && &*into == buffer
}

// Whether a step goes as it says.
fn goes(rt: &HostRuntime, store: &mut FileStore<HostRuntime>, step: &Step) -> bool {
    match step {
        Step::Create(path) => store.create(path).is_ok(),
        Step::Make(path, bytes) => make(store, path, bytes).is_ok(),
        Step::Name(path) => store.name(path).is_ok(),
        Step::Append(path, bytes) => store.append(path, bytes).is_ok(),
        Step::Read(path, at, count, buffer) => gives(store, path, *at, *count, buffer),
        Step::CreateFails(path) => store.create(path).is_err(),
        Step::AppendFails(path) => store.append(path, b"d").is_err(),
        Step::ReadFails(path, at) => store.read(path, *at as u64, &mut [0; 3]).is_err(),
        Step::Remove(path) => fs::remove_file(rt, path).is_ok(),
        Step::Faults(reads, writes) => {
            store.read_faulted() == *reads && store.write_faulted() == *writes
        }
    }
}

// The first step that doesn't go as it says, by its place.
fn first_wrong(
    rt: &HostRuntime,
    store: &mut FileStore<HostRuntime>,
    steps: &[Step],
) -> Option<usize> {
    for (place, step) in steps.iter().enumerate() {
        if !goes(rt, store, step) {
            return Some(place);
        }
    }
    None
}

/// Whether all steps go as they say, with a new store.
pub fn go(rt: &HostRuntime, steps: &[Step]) -> bool {
    first_wrong(rt, &mut FileStore::new(rt), steps).is_none()
}

const ON_DISK: &[Step] = &[
    Step::Create("disk-store-test"),
    Step::Create("another"),
    Step::Append("disk-store-test", b"ab"),
    Step::Append("disk-store-test", b"c"),
    Step::Append("another", b"z"),
    Step::Append("disk-store-test", b"de"),
    Step::Read("disk-store-test", 0, 4, b"abcd"),
    Step::Read("disk-store-test", 3, 2, b"de.."),
    Step::Read("disk-store-test", 5, 0, b"...."),
    Step::Read("disk-store-test", 9, 0, b"...."),
    Step::Read("another", 0, 1, b"z..."),
    Step::Append("disk-store-test", SEVENS),
    Step::Read("disk-store-test", 5, 5000, SEVENS),
    Step::Create("made-anew"),
    Step::Append("made-anew", b"ab"),
    Step::Create("made-anew"),
    Step::Read("made-anew", 0, 0, DOTS),
    Step::Faults(0, 0),
    // What was read isn't made anew.
    Step::CreateFails("disk-store-test"),
    Step::Read("disk-store-test", 0, 4, b"abcd"),
    Step::Faults(0, 1),
    Step::Remove("disk-store-test"),
    Step::Remove("another"),
    Step::Remove("made-anew"),
    Step::ReadFails("no-such-file", 0),
    Step::AppendFails("no-such-file"),
    Step::CreateFails("no-such-folder/file"),
    Step::Faults(1, 3),
];

#[test]
fn keeps_bytes_on_disk(rt: HostRuntime) {
    assert!(rt; go(&rt, ON_DISK));
}

const FAILING: &[Step] = &[
    Step::ReadFails("disk-store-folder-test", 0),
    Step::ReadFails("disk-store-folder-test", 70_000),
    Step::AppendFails("disk-store-folder-test"),
    Step::ReadFails("disk-store-missing-test", 0),
    Step::AppendFails("disk-store-missing-test"),
    // The device that is always full, and stays open where nothing is added.
    Step::Append("/dev/full", b""),
    Step::AppendFails("/dev/full"),
    Step::AppendFails("/dev/full"),
    Step::CreateFails("disk-store-folder-test"),
    Step::Faults(3, 5),
];

// Whether steps go so that fail where one path is a folder and none is made at another.
fn are_counted(rt: &HostRuntime) -> bool {
    fs::create_dir_all(rt, "disk-store-folder-test").is_ok()
        && go(rt, FAILING)
        && matches!(fs::exists(rt, "disk-store-missing-test"), Ok(false))
        && fs::remove_dir(rt, "disk-store-folder-test").is_ok()
}

#[test]
fn faults_of_the_system_are_counted(rt: HostRuntime) {
    assert!(rt; are_counted(&rt));
}

// Makes a file, and adds these bytes to its end by long pieces.
fn write_by_pieces(
    store: &mut FileStore<HostRuntime>,
    path: &str,
    bytes: &[u8],
) -> Result<(), Failed> {
    store.create(path)?;
    for piece in bytes.chunks(65_536) {
        store.append(path, piece)?;
    }
    Ok(())
}

// Whether a read from a place on fills the buffer with what is held there.
fn fills(
    store: &mut FileStore<HostRuntime>,
    path: &str,
    at: u32,
    into: &mut [u8],
    held: &[u8],
) -> bool {
    let outcome = store.read(path, at as u64, into);
    let want = held
        .get(at as usize..)
        .and_then(|rest| rest.get(..into.len()));
    outcome == Ok(into.len()) && want == Some(&*into)
}

// Whether short and long reads give what a long file holds, and none what is behind its end.
fn holds_long(store: &mut FileStore<HostRuntime>, path: &str, held: &[u8]) -> bool {
    for at in [0, 1019, 65_535, 65_536, 66_000] {
        if !fills(store, path, at, &mut [0; 3], held)
            || !fills(store, path, at, &mut [0; 1024], held)
        {
            return false;
        }
    }
    gives(store, path, 70_000, 0, b"...")
}

// Whether a file of these bytes is written and read without a fault.
fn keeps_long(store: &mut FileStore<HostRuntime>, path: &str, bytes: &[u8]) -> bool {
    write_by_pieces(store, path, bytes).is_ok()
        && holds_long(store, path, bytes)
        && (store.read_faulted(), store.write_faulted()) == (0, 0)
}

// Whether they are in a new store, and the file is removed then.
fn keeps_long_anew(rt: &HostRuntime, path: &str, bytes: &[u8]) -> bool {
    let is_kept = keeps_long(&mut FileStore::new(rt), path, bytes);
    is_kept && fs::remove_file(rt, path).is_ok()
}

fn are_kept(rt: &HostRuntime) -> bool {
    match varied_bytes(rt.alloc(), 70_000) {
        Ok(bytes) => keeps_long_anew(rt, "disk-store-long-test", &bytes),
        Err(_) => false,
    }
}

#[test]
fn long_appends_are_kept(rt: HostRuntime) {
    assert!(rt; are_kept(&rt));
}

// Whether the byte at a place of the long file is this one.
fn has_byte(store: &mut FileStore<HostRuntime>, path: &str, at: u64, byte: u8) -> bool {
    let mut into = [b'.'; 1];
    at <= 1 << 41 && store.read(path, at, &mut into) == Ok(1) && into == [byte]
}

// Writes one byte at each power of two up to 2^31: its exponent.
fn write_powers(file: &mut File) -> io::Result<()> {
    for exponent in 0..32u8 {
        file.seek(SeekFrom::Start(1 << exponent))?;
        file.write_all(&[exponent])?;
    }
    Ok(())
}

// Whether they are written into the file of a path.
fn are_written(rt: &HostRuntime, path: &str) -> bool {
    match OpenOptions::new().write(true).open(rt, path) {
        Ok(mut file) => write_powers(&mut file).is_ok(),
        Err(_) => false,
    }
}

// Whether a read from each power of two on gives the byte that is there, and the last one the end.
fn has_powers(store: &mut FileStore<HostRuntime>, path: &str) -> bool {
    for exponent in 0..32u8 {
        if !has_byte(store, path, 1 << exponent, exponent) {
            return false;
        }
    }
    store.read(path, 1 << 31, &mut [0; 2]) == Ok(1)
}

// Whether a file that is made holds what is written far behind its start.
fn holds_far(rt: &HostRuntime, store: &mut FileStore<HostRuntime>, path: &str) -> bool {
    store.create(path).is_ok() && are_written(rt, path) && has_powers(store, path)
}

// Whether it does in a new store, and is removed then.
fn holds_far_anew(rt: &HostRuntime, path: &str) -> bool {
    let is_held = holds_far(rt, &mut FileStore::new(rt), path);
    is_held && fs::remove_file(rt, path).is_ok()
}

#[test]
fn reads_begin_far_behind(rt: HostRuntime) {
    assert!(rt; holds_far_anew(&rt, "disk-store-far-test"));
}

// Makes a file so long, and says whether it is.
fn is_lengthened(rt: &HostRuntime, path: &str, length: u64) -> bool {
    match OpenOptions::new().write(true).open(rt, path) {
        Ok(file) => file.set_len(length).is_ok(),
        Err(_) => false,
    }
}

// How long a file is.
fn length_of(rt: &HostRuntime, path: &str) -> Option<u64> {
    match fs::metadata(rt, path) {
        Ok(metadata) => Some(metadata.len()),
        Err(_) => None,
    }
}

// Whether a file that is made, and becomes 5,000,000 bytes long, is made anew.
fn is_made_anew(rt: &HostRuntime, store: &mut FileStore<HostRuntime>, path: &str) -> bool {
    store.create(path).is_ok()
        && is_lengthened(rt, path, 5_000_000)
        && length_of(rt, path) == Some(5_000_000)
        && store.create(path).is_ok()
}

// Whether it is in a new store, has no byte then, and is removed.
fn is_empty_anew(rt: &HostRuntime, path: &str) -> bool {
    let is_made = is_made_anew(rt, &mut FileStore::new(rt), path);
    is_made && length_of(rt, path) == Some(0) && fs::remove_file(rt, path).is_ok()
}

#[test]
fn a_long_file_is_made_anew(rt: HostRuntime) {
    assert!(rt; is_empty_anew(&rt, "disk-store-anew-test"));
}

// The paths of many files in a folder.
fn paths_in(alloc: Global, folder: &str) -> Result<Vec<String>, AllocError> {
    let mut paths = Vec::new(alloc);
    for place in 0..MANY {
        paths.push(format!(in alloc; "{folder}/{place}")?)?;
    }
    Ok(paths)
}

// Makes many files, and adds to each its path three times, by turns.
fn write_many<R: Files + AllocGlobal>(
    store: &mut FileStore<'_, R>,
    paths: &[String],
) -> Result<(), Failed> {
    for path in paths {
        store.create(path)?;
        store.append(path, path.as_bytes())?;
    }
    for _round in 0..2 {
        for path in paths {
            store.append(path, path.as_bytes())?;
        }
    }
    Ok(())
}

// Whether a file holds its path three times, and nothing more.
fn holds_path_thrice<R: Files + AllocGlobal>(store: &mut FileStore<'_, R>, path: &str) -> bool {
    let mut into = [0; 100];
    let Ok(count) = store.read(path, 0, &mut into) else {
        return false;
    };
    let mut rest = &into[..count];
    for _ in 0..3 {
        match rest.strip_prefix(path.as_bytes()) {
            Some(more) => rest = more,
            None => return false,
        }
    }
    rest.is_empty()
}

// Whether each of many files holds its path three times.
fn hold_paths<R: Files + AllocGlobal>(store: &mut FileStore<'_, R>, paths: &[String]) -> bool {
    for path in paths {
        if !holds_path_thrice(store, path) {
            return false;
        }
    }
    true
}

// Whether many files are written by turns and read without a fault.
fn keeps_many<R: Files + AllocGlobal>(store: &mut FileStore<'_, R>, paths: &[String]) -> bool {
    write_many(store, paths).is_ok()
        && hold_paths(store, paths)
        && (store.read_faulted(), store.write_faulted()) == (0, 0)
}

// Whether they are in a new store, and their folder is removed then.
fn keeps_many_anew(rt: &HostRuntime, folder: &str, paths: &[String]) -> bool {
    let are_kept = keeps_many(&mut FileStore::new(rt), paths);
    are_kept && fs::remove_dir_all(rt, folder).is_ok()
}

// The same of a folder that is made before.
fn keeps_many_in(rt: &HostRuntime, folder: &str) -> bool {
    if fs::create_dir(rt, folder).is_err() {
        return false;
    }
    match paths_in(rt.alloc(), folder) {
        Ok(paths) => keeps_many_anew(rt, folder, &paths),
        Err(_) => false,
    }
}

#[test]
fn more_files_than_stay_open_are_appended_to(rt: HostRuntime) {
    assert!(rt; keeps_many_in(&rt, "disk-store-many-test"));
}

// Whether many files are kept where at most so many are open at once.
fn keeps_many_by(alloc: Global, paths: &[String], handles: usize) -> bool {
    match MemFiles::new(alloc, 0, handles) {
        Ok(files) => keeps_many(&mut FileStore::new(&files), paths),
        Err(_) => false,
    }
}

fn keeps_many_by_few(alloc: Global) -> bool {
    match paths_in(alloc, "many") {
        Ok(paths) => keeps_many_by(alloc, &paths, 256) && keeps_many_by(alloc, &paths, 1),
        Err(_) => false,
    }
}

#[test]
fn handles_may_be_wanting(rt: HostRuntime) {
    assert!(rt; keeps_many_by_few(rt.alloc()));
}
