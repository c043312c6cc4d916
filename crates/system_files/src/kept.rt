//! The files that are kept open for the next reads or appends.
ghost use Rattle.std.specs.Prelude.{◌≡◌, ◌⊎◌, ◌≤◌, ◌<◌, ℕ, List, None, Some, IsTrue, IfSome, IfNone, IfOk, OnOk, OnErr, length, take, drop};
ghost use Rattle.lif_outside.specs.Limits.{last_place};

use crate::handle::Handle;
use indexmap::IndexMap;
use std::alloc::Global;
use std::io;
use std::io::{Read, Seek, Write};

/// How many files are kept open at most, of those that may be closed.
pub const MOST_OPEN: usize = 512;

/// Files that are kept open, by their paths.
pub struct KeptFiles<F> {
    files: IndexMap<String, Handle<F>>,
}

// Whoever lets them go makes this one call, in place of going through all that a map is made of.
impl<F: Drop> Drop for KeptFiles<F> {
    fn drop(self) {
        let KeptFiles { files: _files } = self;
    }
}

impl<F: Drop> KeptFiles<F> {
    ghost use Rattle.system_files.specs.Kept.{handle_of, count_of, OnlyCloses, KeepsOthers, OnlyClosesOthers};

    /// None.
    pub fn new(alloc: Global) -> KeptFiles<F>
        ensures { (path : List ℕ) → handle_of result path ≡ None }
    {
        KeptFiles {
            files: IndexMap::new(alloc),
        }
    }

    /// Closes the file of a path, where it is kept.
    pub fn close(&mut self, path: &str)
        ensures closed { handle_of self.new path.now ≡ None }
        ensures others { KeepsOthers path.now self.old self.new }
    {
        let _closed = self.files.swap_remove(path);
    }

    // The first of those that may be closed, by its place.
    fn first_to_close(&self) -> Option<usize> {
        self.files.values().position(|handle| !handle.stays())
    }

    /// Closes the file that was kept first, of those that may be closed, and answers whether there was one.
    pub fn close_first(&mut self) -> bool
        ensures fewer { IsTrue result → count_of self.new < count_of self.old }
        ensures no_more { count_of self.new ≤ count_of self.old }
        ensures rest { OnlyCloses self.old self.new }
    {
        match self.first_to_close() {
            Some(place) => self.files.shift_remove_index(place).is_some(),
            None => false,
        }
    }

    // Where the most are kept, closes that which was kept first.
    fn make_room(&mut self)
        ensures { OnlyCloses self.old self.new }
    {
        if self.files.len() >= MOST_OPEN {
            self.close_first();
        }
    }

    /// Keeps a file, where there is memory for its path. Where the most are kept, that which was kept first is
    /// closed.
    pub fn keep(&mut self, alloc: Global, path: &str, handle: Handle<F>)
        requires { handle_of self.old path.now ≡ None }
        ensures kept { (handle_of self.new path.now ≡ Some handle)
            ⊎ (handle_of self.new path.now ≡ None) }
        ensures others { OnlyClosesOthers path.now self.old self.new }
    {
        self.make_room();
        if let Ok(path) = String::from_str(alloc, path) {
            let _kept = self.files.insert(path, handle);
        }
    }
}

impl<F: Read + Seek + Drop> KeptFiles<F> {
    ghost use Rattle.system_files.specs.Kept.{handle_of, KeepsOthers, GivesOn};

    /// Reads from a place of the file of a path, where it is kept. Where that fails, the file is closed.
    pub fn read_from(&mut self, path: &str, at: u64, into: &mut [u8]) -> Option<io::Result<usize>>
        requires { at ≤ last_place }
        ensures absent { IfNone result (handle_of self.old path.now ≡ None) }
        ensures still { IfNone result (handle_of self.new path.now ≡ None) }
        ensures idle { IfNone result (into.new ≡ into.old) }
        ensures count { IfSome result (λ outcome. IfOk outcome (λ n. n ≤ length into.old)) }
        ensures rest { IfSome result
            (λ outcome. IfOk outcome (λ n. drop n into.new ≡ drop n into.old)) }
        ensures gives { IfSome result (λ outcome. IfOk outcome
            (λ n. GivesOn path.now F.Seek F.Read at (length into.old) (take n into.new) self.old self.new)) }
        ensures closes { IfSome result
            (λ outcome. OnErr outcome (handle_of self.new path.now ≡ None)) }
        ensures others { KeepsOthers path.now self.old self.new }
    {
        let handle = self.files.get_mut(path)?;
        let outcome = handle.read_from(at, into);
        if outcome.is_err() {
            self.close(path);
        }
        Some(outcome)
    }
}

impl<F: Write + Drop> KeptFiles<F> {
    ghost use Rattle.system_files.specs.Kept.{handle_of, KeepsOthers, Gains};

    /// Adds bytes at the end of the file of a path, where it is kept. Where that fails, the file is closed.
    pub fn append(&mut self, path: &str, bytes: &[u8]) -> Option<io::Result<()>>
        ensures absent { IfNone result (handle_of self.old path.now ≡ None) }
        ensures still { IfNone result (handle_of self.new path.now ≡ None) }
        ensures gains { IfSome result (λ outcome.
            OnOk outcome (Gains path.now F.contents bytes.now self.old self.new)) }
        ensures closes { IfSome result
            (λ outcome. OnErr outcome (handle_of self.new path.now ≡ None)) }
        ensures others { KeepsOthers path.now self.old self.new }
    {
        let handle = self.files.get_mut(path)?;
        let outcome = handle.append(bytes);
        if outcome.is_err() {
            self.close(path);
        }
        Some(outcome)
    }
}
