//! An open file.
ghost use Rattle.std.specs.Prelude.{◌≡◌, ◌≤◌, ℕ, List, Some, length, take, drop, OnOk, OnErr, IfOk};
ghost use Rattle.std.specs.Io.KnownBytes.{Appends};
ghost use Rattle.lif_outside.specs.Limits.{last_place};

use crate::pieces::{move_to, read_full, write_full};
use std::io;
use std::io::{Read, Seek, Write};

/// An open file: where reads of it go on, and whether it stays open. What isn't a regular file, as a pipe or a
/// terminal, can't be opened again where it stood.
#[derive(Drop)]
pub struct Handle<F> {
    file: F,
    at: u64,
    stays: bool,
}

impl<F> Handle<F> {
    ghost use Rattle.system_files.specs.Handle.{file_of, place_of, stays_of};

    /// A file that was opened: reads begin at its start.
    pub fn opened(file: F, stays: bool) -> Handle<F>
        ensures file { file_of result ≡ file }
        ensures start { place_of result ≡ 0 }
        ensures stays { stays_of result ≡ stays }
    {
        Handle { file, at: 0, stays }
    }

    /// Whether it stays open.
    pub fn stays(&self) -> bool
        ensures { result ≡ stays_of self.now }
    {
        self.stays
    }
}

impl<F: Read + Seek> Handle<F> {
    ghost use Rattle.system_files.specs.Handle.{file_of, place_of, stays_of, IsMoved, GivesFrom, ReadsStream};

    // Moves to a place, unless reads go on there already.
    fn go_to(&mut self, at: u64) -> io::Result<()>
        ensures moved { OnOk result (IsMoved F.Seek at self.old (file_of self.new)) }
        ensures on { OnOk result (place_of self.new ≡ at) }
        ensures stays { stays_of self.new ≡ stays_of self.old }
    {
        if self.at != at {
            move_to(&mut self.file, at)?;
            self.at = at;
        }
        Ok(())
    }

    /// Reads from a place on to the front of a buffer, and answers how many bytes came: fewer than there is room for
    /// only at the file's end. It isn't moved where reads go on there already.
    pub fn read_from(&mut self, at: u64, into: &mut [u8]) -> io::Result<usize>
        requires { at ≤ last_place }
        ensures count { IfOk result (λ n. n ≤ length into.old) }
        ensures rest { IfOk result (λ n. drop n into.new ≡ drop n into.old) }
        ensures bytes { IfOk result
            (λ n. GivesFrom F.Seek F.Read at (length into.old) (take n into.new) self.old self.new) }
        ensures stays { stays_of self.new ≡ stays_of self.old }

        // Where a file tells its stream and that it stands where reads go on, and reads give the stream: these are its
        // bytes from there on.
        ensures stream { IfOk result (λ n. ReadsStream F.Seek F.Read → (held : List ℕ)
            → F.stream_position (file_of self.old) ≡ Some (place_of self.old)
            → F.stream_bytes (file_of self.old) ≡ Some held
            → take n into.new ≡ take (length into.old) (drop at held)) }
    {
        self.go_to(at)?;
        let count = read_full(&mut self.file, into)?;
        self.at = at + count as u64;
        Ok(count)
    }
}

impl<F: Write> Handle<F> {
    ghost use Rattle.system_files.specs.Handle.{file_of, stays_of};

    /// Adds bytes at the end of a file that was opened for that. Where it fails, a prefix of them was added.
    pub fn append(&mut self, bytes: &[u8]) -> io::Result<()>
        ensures ok { OnOk result (Appends (F.contents (file_of self.old))
            (F.contents (file_of self.new)) bytes.now) }
        ensures err { OnErr result ((n : ℕ) × Appends (F.contents (file_of self.old))
            (F.contents (file_of self.new)) (take n bytes.now)) }
        ensures stays { stays_of self.new ≡ stays_of self.old }
    {
        write_full(&mut self.file, bytes)
    }
}
