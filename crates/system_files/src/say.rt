//! A sink over a writer.
ghost use Rattle.std.specs.Prelude.{◌≡◌, ℕ, ◌∷◌, [], take, OnOk, OnErr};
ghost use Rattle.std.specs.Io.KnownBytes.{Appends};
ghost use Rattle.lif_outside.specs.AccountLaws.{puts_none, puts_then};
ghost use Rattle.lif_outside.specs.Counts.{one_more};
ghost use Rattle.lif_outside.specs.Puts.{put_event};
ghost use Rattle.system_files.specs.Say.{writer_of, faults_of, bytes_of, puts_on_writer};

use crate::faults::counted;
use crate::pieces::write_full;
use lif_outside::{Failed, Sink};
use std::io::{Print, Printer, Write};

/// A writer that tells what it holds in each state or in none.
pub trait Teller: Write {
    ghost use Rattle.std.specs.Prelude.{◌≡◌, is_some};

    /// What is told in one state is told in each.
    ghost steady: { (old new : Self) → is_some (Self.contents new) ≡ is_some (Self.contents old) };
}

/// Standard output tells nothing of what was written.
impl<P: Print> Teller for Printer<'_, P> {
    ghost use Rattle.std.specs.Prelude.{refl};

    ghost steady = { λ old new. refl };
}

/// Bytes in memory are told.
impl Teller for Vec<u8> {
    ghost use Rattle.std.specs.Prelude.{refl};

    ghost steady = { λ old new. refl };
}

/// A writer as a sink. It tells what was written where the writer does.
#[derive(Drop)]
pub struct WriterSay<W> {
    to: W,
    faults: u64,
}

impl<W: Teller> WriterSay<W> {
    /// A sink that has had no fault.
    pub fn new(to: W) -> WriterSay<W>
        ensures writer { writer_of result ≡ to }
        ensures faults { faults_of result ≡ 0 }
    {
        WriterSay { to, faults: 0 }
    }

    /// Where the bytes go.
    pub fn writer(&self) -> &W
        ensures { result.now ≡ writer_of self.now }
    {
        &self.to
    }

    /// How often a put has failed.
    pub fn faulted(&self) -> u64
        ensures { result ≡ faults_of self.now }
    {
        self.faults
    }
}

impl<W: Teller> Sink for WriterSay<W> {
    ghost written = { bytes_of W.contents };

    ghost faults = { faults_of };

    ghost puts = { puts_on_writer W.contents };

    ghost no_puts = { puts_none (bytes_of W.contents) faults_of };

    ghost more_puts = { puts_then (bytes_of W.contents) faults_of };

    ghost accounts = { λ _ _ _ h. h };

    fn put(&mut self, bytes: &[u8]) -> Result<(), Failed>
        ensures put { puts_on_writer W.contents
            (put_event bytes.now result ∷ []) self.old self.new }

        // All bytes are written, or else a prefix of them was.
        ensures ok { OnOk result
            (Appends (bytes_of W.contents self.old) (bytes_of W.contents self.new) bytes.now) }
        ensures err { OnErr result ((n : ℕ) × Appends (bytes_of W.contents self.old)
            (bytes_of W.contents self.new) (take n bytes.now)) }

        // A fault is counted exactly where the put fails.
        ensures faults_ok { OnOk result (faults_of self.new ≡ faults_of self.old) }
        ensures faults_err { OnErr result (faults_of self.new ≡ one_more (faults_of self.old)) }
    {
        let outcome = write_full(&mut self.to, bytes);
        counted(outcome, &mut self.faults)
    }
}
