//! The program over a system: its words, its files and its output.
ghost use Rattle.std.specs.Prelude.{◌≡◌, ◌⊎◌, IfSome};
ghost use Rattle.std.specs.Process.{exit_status};
ghost use Rattle.lif_outside.specs.Calls.{Objects};
ghost use Rattle.system_files.specs.Store.{read_faults_of, write_faults_of};
ghost use Rattle.system_files.specs.Words.{Gives};
ghost use Rattle.lif_top.specs.Launch.{Launches};

use crate::running::run;
use lif_outside::{Links, SeedLinks, Sink, Store};
use std::alloc::AllocError;
use std::io;
use std::io::{Print, Printer};
use std::os::fd::AsRawFd;
use std::process::ExitCode;
use std::rt::Files;
use std::thread::Threads;
use system_files::{FileStore, GivesWords, StandIns, Words, WriterSay};

// Names each word to the store.
fn name_each<X: Files + AllocGlobal>(
    store: &mut FileStore<'_, X>,
    words: &[String],
) -> Result<(), AllocError>
    ensures reads { read_faults_of store.new ≡ read_faults_of store.old }
    ensures writes { write_faults_of store.new ≡ write_faults_of store.old }
{
    for word in words {
        store.name(word)?;
    }
    Ok(())
}

// Names the words to the store, so that no file that one of them leads to is made under another path. Where there is no
// memory for that, there is none for the words.
fn named<X: Files + AllocGlobal>(store: &mut FileStore<'_, X>, words: Words) -> Words
    ensures words { (result ≡ words) ⊎ (result ≡ Words.NoMemory) }
    ensures reads { read_faults_of store.new ≡ read_faults_of store.old }
    ensures writes { write_faults_of store.new ≡ write_faults_of store.old }
{
    if let Words::Given(given) = &words {
        if name_each(store, given).is_err() {
            return Words::NoMemory;
        }
    }
    words
}

/// Does what a system's words say, over its files, its standard output and links in memory, and ends with the number of
/// the status. Threads are those of `rt`, which may be the same system. Standard input, output and error are taken first
/// where they are closed, so that no file takes their place.
pub fn launch<X: GivesWords + Files + Print + AllocGlobal + 'static, R: Threads + Sync>(
    system: &X,
    rt: &R,
) -> ExitCode
where
    X::File: AsRawFd,
    // All words that the system tells are handed on, unchanged and in order, to a run over objects that are new, and the
    // number is that of its status.
    ensures { (words : Words) × IfSome (X.told system.now) (λ told. Gives told words)
        × (o : Objects ⟦<FileStore<'static, X> as Store>⟧ ⟦<WriterSay<Printer<'static, X>> as Sink>⟧ ⟦<SeedLinks as Links>⟧)
        × Launches o words (exit_status result) }
{
    let _stand_ins = StandIns::take(system);
    let mut store = FileStore::new(system);
    let words = named(&mut store, system.given_words());
    let mut say = WriterSay::new(io::writer(system));
    let mut links = SeedLinks::new(system.alloc());
    run(rt, system.alloc(), words, &mut store, &mut say, &mut links)
}
