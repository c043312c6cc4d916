//! A store that makes its calls on another store, and keeps a log of them.
ghost use Rattle.std.specs.Prelude.{◌≡◌, ◌≤◌, ◌∷◌, [], map, length, drop, true, IfOk, IsOk};
ghost use Rattle.lif_outside.specs.Events.{read_event, create_event, append_event};
ghost use Rattle.lif_outside.specs.Limits.{last_place};

use crate::Event;
use lif_outside::{Failed, Store};
use std::alloc::{AllocError, Global};

/// A store over another one, for tests only. Each call is made on that one, and kept with its answer as long as there is memory.
#[derive(Drop)]
pub struct Logged<S> {
    inner: S,
    log: Vec<Event>,
    // Whether an event was lost for want of memory.
    lost: bool,
    alloc: Global,
}

impl<S> Logged<S> {
    ghost use Rattle.logged_store.specs.Events.{event_of};
    ghost use Rattle.logged_store.specs.Logs.{inner_of, events_of, is_whole, KeepsEvent};

    /// A store over this one, with an empty log. It takes no memory.
    pub fn new(alloc: Global, inner: S) -> Logged<S>
        ensures inner { inner_of result ≡ inner }
        ensures log { events_of result ≡ [] }
        ensures whole { is_whole result ≡ true }
    {
        Logged {
            inner,
            log: Vec::new(alloc),
            lost: false,
            alloc,
        }
    }

    /// The calls in order, with their answers.
    pub fn log(&self) -> &[Event]
        ensures { map event_of result.now ≡ events_of self.now }
    {
        self.log.as_slice()
    }

    /// Whether the log has every call: no event was lost for want of memory.
    pub fn is_whole(&self) -> bool
        ensures { result ≡ is_whole self.now }
    {
        !self.lost
    }

    /// The store on which the calls were made.
    pub fn inner(&self) -> &S
        ensures { result.now ≡ inner_of self.now }
    {
        &self.inner
    }

    // Adds an event to the log, or notes that it was lost.
    fn keep(&mut self, event: Result<Event, AllocError>)
        ensures inner { inner_of self.new ≡ inner_of self.old }
        ensures lost { is_whole self.new ≡ true → IsOk event }
        ensures log { IfOk event (λ event. KeepsEvent (event_of event) self.old self.new) }
    {
        match event {
            Ok(event) => {
                if self.log.push(event).is_err() {
                    self.lost = true;
                }
            }
            Err(_) => self.lost = true,
        }
    }
}

impl<S: Store> Store for Logged<S> {
    ghost use Rattle.logged_store.specs.Logs.{inner_of, LogsCalls};
    ghost use Rattle.logged_store.specs.LogLaws.{logs_none, logs_then, logs_account};

    ghost files = { λ store. S.files (inner_of store) };

    ghost read_faults = { λ store. S.read_faults (inner_of store) };

    ghost write_faults = { λ store. S.write_faults (inner_of store) };

    ghost made = { λ store. S.made (inner_of store) };

    ghost calls = { LogsCalls S.calls };

    ghost no_calls = { λ at. logs_none S.calls at (S.no_calls (inner_of at)) };

    ghost more_calls = { logs_then S.calls S.more_calls };

    ghost accounts = { logs_account
        S.files S.read_faults S.write_faults S.made S.calls S.accounts };

    fn read(&mut self, path: &str, at: u64, into: &mut [u8]) -> Result<usize, Failed>
        requires { at ≤ last_place }
        ensures count { IfOk result (λ n. n ≤ length into.old) }
        ensures rest { IfOk result (λ n. drop n into.new ≡ drop n into.old) }
        ensures call { LogsCalls S.calls
            (read_event path.now at (length into.old) result into.new ∷ []) self.old self.new }
    {
        let outcome = self.inner.read(path, at, into);
        self.keep(Event::of_read(self.alloc, path, at, outcome, into));
        outcome
    }

    fn create(&mut self, path: &str) -> Result<(), Failed>
        ensures call { LogsCalls S.calls (create_event path.now result ∷ []) self.old self.new }
    {
        let outcome = self.inner.create(path);
        self.keep(Event::of_create(self.alloc, path, outcome));
        outcome
    }

    fn append(&mut self, path: &str, bytes: &[u8]) -> Result<(), Failed>
        requires { S.made (inner_of self.old) path.now }
        ensures call { LogsCalls S.calls
            (append_event path.now bytes.now result ∷ []) self.old self.new }
    {
        let outcome = self.inner.append(path, bytes);
        self.keep(Event::of_append(self.alloc, path, bytes, outcome));
        outcome
    }
}
