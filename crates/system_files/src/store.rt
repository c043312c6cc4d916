//! A store over the files of a system.
ghost use Rattle.std.specs.Prelude.{◌≡◌, ◌≤◌, ◌∷◌, [], None, length, take, drop, IfOk, OnOk, OnErr};
ghost use Rattle.lif_outside.specs.AccountLaws.{accounts_none, accounts_then};
ghost use Rattle.lif_outside.specs.Counts.{one_more};
ghost use Rattle.lif_outside.specs.Events.{read_event, create_event, append_event};
ghost use Rattle.lif_outside.specs.Limits.{last_place};
ghost use Rattle.system_files.specs.Store.{sources_in, sinks_in, read_faults_of, write_faults_of, path_read_faults, path_write_faults, any_path, no_files, calls_on_files};
ghost use Rattle.system_files.specs.Kept.{handle_of, OnlyCloses, OnlyClosesOthers};
ghost use Rattle.system_files.specs.Open.{GivesOrOpens, GainsOrOpens};

use crate::faults::counted;
use crate::files::{append_to, create_empty, note_named, read_at};
use crate::open::OpenFiles;
use lif_outside::{Failed, Store};
use std::alloc::AllocError;
use std::rt::Files;

/// The files of a system, by their paths. It tells nothing of what they hold, and doesn't force what was
/// written out of the system's memory.
///
/// A file that was read or made stays open for the next read or append, until a call on it fails or a handle is wanted; at
/// most 512 of each are open so, and one more closes that which was opened first. What isn't a regular file, as a pipe, a
/// terminal or a device, isn't emptied, stays open until a call on it fails or the store is let go, and is read without
/// being moved where reads follow one another. A regular file isn't made, and is left as it is, where it was read, or where another path
/// leads to it that was made or named (`name`): then the create fails.
#[derive(Drop)]
pub struct FileStore<'r, R: Files> {
    rt: &'r R,
    open_files: OpenFiles<R::File>,
    read_faults: u64,
    write_faults: u64,
}

impl<'r, R: Files + AllocGlobal> FileStore<'r, R> {
    /// A store that has had no fault.
    pub fn new(rt: &'r R) -> FileStore<'r, R>
        ensures reads { read_faults_of result ≡ 0 }
        ensures writes { write_faults_of result ≡ 0 }
    {
        FileStore {
            rt,
            open_files: OpenFiles::new(rt.alloc()),
            read_faults: 0,
            write_faults: 0,
        }
    }

    /// Notes that a path is named: where it leads to a regular file, this isn't made under another path.
    pub fn name(&mut self, path: &str) -> Result<(), AllocError>
        ensures reads { read_faults_of self.new ≡ read_faults_of self.old }
        ensures writes { write_faults_of self.new ≡ write_faults_of self.old }
    {
        note_named(self.rt, &mut self.open_files, path)
    }

    /// How often a read has failed.
    pub fn read_faulted(&self) -> u64
        ensures { result ≡ read_faults_of self.now }
    {
        self.read_faults
    }

    /// How often a create or an append has failed.
    pub fn write_faulted(&self) -> u64
        ensures { result ≡ write_faults_of self.now }
    {
        self.write_faults
    }
}

impl<'r, R: Files + AllocGlobal> Store for FileStore<'r, R> {
    ghost files = { no_files };

    ghost read_faults = { path_read_faults };

    ghost write_faults = { path_write_faults };

    ghost made = { any_path };

    ghost calls = { calls_on_files };

    ghost no_calls = { accounts_none no_files path_read_faults path_write_faults any_path };

    ghost more_calls = { accounts_then no_files path_read_faults path_write_faults any_path };

    ghost accounts = { λ _ _ _ h. h };

    fn read(&mut self, path: &str, at: u64, into: &mut [u8]) -> Result<usize, Failed>
        requires { at ≤ last_place }
        ensures count { IfOk result (λ n. n ≤ length into.old) }
        ensures rest { IfOk result (λ n. drop n into.new ≡ drop n into.old) }
        ensures call { calls_on_files
            (read_event path.now at (length into.old) result into.new ∷ []) self.old self.new }

        // What came was read from there on, in the file that was open of the path, or in one that was opened for want
        // of it.
        ensures bytes { IfOk result (λ n. GivesOrOpens path.now R.File.Seek R.File.Read at
            (length into.old) (take n into.new) (sources_in self.old) (sources_in self.new)) }

        // Other files are as before, or closed.
        ensures others { OnlyClosesOthers path.now (sources_in self.old) (sources_in self.new) }
        ensures sinks { OnlyCloses (sinks_in self.old) (sinks_in self.new) }

        // A fault is counted exactly where the read fails.
        ensures faults_ok { OnOk result (read_faults_of self.new ≡ read_faults_of self.old) }
        ensures faults_err { OnErr result
            (read_faults_of self.new ≡ one_more (read_faults_of self.old)) }
        ensures writes { write_faults_of self.new ≡ write_faults_of self.old }
    {
        let outcome = read_at(self.rt, &mut self.open_files, path, at, into);
        counted(outcome, &mut self.read_faults)
    }

    fn create(&mut self, path: &str) -> Result<(), Failed>
        ensures call { calls_on_files (create_event path.now result ∷ []) self.old self.new }

        // Where it fails, no file is open for appends to the path.
        ensures closes { OnErr result (handle_of (sinks_in self.new) path.now ≡ None) }

        // Other files are as before, or closed.
        ensures others { OnlyClosesOthers path.now (sinks_in self.old) (sinks_in self.new) }
        ensures sources { OnlyCloses (sources_in self.old) (sources_in self.new) }

        // A fault is counted exactly where the create fails.
        ensures faults_ok { OnOk result (write_faults_of self.new ≡ write_faults_of self.old) }
        ensures faults_err { OnErr result
            (write_faults_of self.new ≡ one_more (write_faults_of self.old)) }
        ensures reads { read_faults_of self.new ≡ read_faults_of self.old }
    {
        let outcome = create_empty(self.rt, &mut self.open_files, path);
        counted(outcome, &mut self.write_faults)
    }

    fn append(&mut self, path: &str, bytes: &[u8]) -> Result<(), Failed>
        requires { any_path self.old path.now }
        ensures call { calls_on_files
            (append_event path.now bytes.now result ∷ []) self.old self.new }

        // All bytes went to the file that was open of the path, or to one that was opened for want of it.
        ensures gains { OnOk result (GainsOrOpens path.now R.File.contents bytes.now
            (sinks_in self.old) (sinks_in self.new)) }
        ensures closes { OnErr result (handle_of (sinks_in self.new) path.now ≡ None) }

        // Other files are as before, or closed.
        ensures others { OnlyClosesOthers path.now (sinks_in self.old) (sinks_in self.new) }
        ensures sources { OnlyCloses (sources_in self.old) (sources_in self.new) }

        // A fault is counted exactly where the append fails.
        ensures faults_ok { OnOk result (write_faults_of self.new ≡ write_faults_of self.old) }
        ensures faults_err { OnErr result
            (write_faults_of self.new ≡ one_more (write_faults_of self.old)) }
        ensures reads { read_faults_of self.new ≡ read_faults_of self.old }
    {
        let outcome = append_to(self.rt, &mut self.open_files, path, bytes);
        counted(outcome, &mut self.write_faults)
    }
}
