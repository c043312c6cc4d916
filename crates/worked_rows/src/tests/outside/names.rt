//! Files to which several paths lead: what was read, made or named by one isn't made by another.
use super::file_stores::{Step, go};
use std::os::unix::fs::symlink;
use std::{fs, io};

// A folder of this test alone, with a file of these bytes.
const FOLDER: &str = "two-names-test";

const PATH: &str = "two-names-test/first";

const KEPT: &[u8] = b"kept";

// How a store comes to know the file, and leaves it as it is.
const WAYS: &[Step] = &[
    Step::Read(PATH, 0, 4, KEPT),
    Step::Make(PATH, KEPT),
    Step::Name(PATH),
];

// Other paths that lead to it.
const OTHERS: &[&str] = &[
    "two-names-test/./first",
    "two-names-test//first",
    "two-names-test/../two-names-test/first",
    "two-names-test/hard",
    "two-names-test/soft",
];

// Steps with a new store each, behind which the file is as it was.
const KEEPING: &[&[Step]] = &[
    // A file of which two paths were named isn't made by either.
    &[
        Step::Name(PATH),
        Step::Name("two-names-test/soft"),
        Step::CreateFails(PATH),
        Step::CreateFails("two-names-test/soft"),
        Step::Faults(0, 2),
    ],
    // One file may be read by two paths, and a path at which nothing is may be named and made.
    &[
        Step::Read(PATH, 0, 4, b"kept.."),
        Step::Read("two-names-test/soft", 1, 3, b"ept.."),
        Step::Name("two-names-test/new"),
        Step::Create("two-names-test/new"),
        Step::Faults(0, 0),
    ],
    // A device may be made by several paths, though it was read and named.
    &[
        Step::Read("/dev/null", 0, 0, b"..."),
        Step::Name("/dev/./null"),
        Step::Make("/dev//null", b"abc"),
        Step::Create("/dev/null"),
        Step::Faults(0, 0),
    ],
    // What was read isn't made anew by its own path either.
    &[Step::Read(PATH, 0, 4, KEPT), Step::CreateFails(PATH)],
];

// Steps with a new store each, behind which the file is empty.
const EMPTYING: &[&[Step]] = &[
    &[Step::Make(PATH, KEPT), Step::Create(PATH)],
    &[Step::Name(PATH), Step::Create(PATH)],
];

// Makes the folder with the file and what leads to it.
fn make_folder(rt: &HostRuntime) -> io::Result<()> {
    let _ = fs::remove_dir_all(rt, FOLDER);
    fs::create_dir(rt, FOLDER)?;
    fs::write(rt, PATH, KEPT)?;
    fs::hard_link(rt, PATH, "two-names-test/hard")?;
    symlink(rt, "first", "two-names-test/soft")
}

// Whether the file holds these bytes.
fn holds(rt: &HostRuntime, bytes: &[u8]) -> bool {
    match fs::read(rt, PATH) {
        Ok(held) => held.as_slice() == bytes,
        Err(_) => false,
    }
}

// Whether a store that knows the file in each way makes none by another path, counts that, and leaves the file as it is.
fn refuse(rt: &HostRuntime, other: &'static str) -> bool {
    for way in WAYS {
        let steps = [*way, Step::CreateFails(other), Step::Faults(0, 1)];
        if !go(rt, &steps) || !holds(rt, KEPT) {
            return false;
        }
    }
    true
}

// Whether it is so by each of the other paths.
fn refuse_all(rt: &HostRuntime) -> bool {
    for other in OTHERS {
        if !refuse(rt, other) {
            return false;
        }
    }
    true
}

// Whether all steps go as they say, and the file holds these bytes behind each.
fn go_all(rt: &HostRuntime, all: &[&[Step]], bytes: &[u8]) -> bool {
    for steps in all {
        if make_folder(rt).is_err() || !go(rt, steps) || !holds(rt, bytes) {
            return false;
        }
    }
    true
}

// Whether the file is kept, or emptied, as it should be.
fn are_kept(rt: &HostRuntime) -> bool {
    make_folder(rt).is_ok()
        && refuse_all(rt)
        && go_all(rt, KEEPING, KEPT)
        && go_all(rt, EMPTYING, b"")
        && fs::remove_dir_all(rt, FOLDER).is_ok()
}

#[test]
fn a_file_of_two_names_is_kept(rt: HostRuntime) {
    assert!(rt; are_kept(&rt));
}
