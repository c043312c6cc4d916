//! A call on a store with its answer, as a value.
ghost use Rattle.std.specs.Prelude.{◌≡◌, ◌≤◌, length, IfOk};
ghost use Rattle.lif_outside.specs.Events.{read_event, create_event, append_event};

use lif_outside::Failed;
use std::alloc::{AllocError, Global};

/// A call on a store, with its answer.
#[derive(Debug, Drop, PartialEq, Eq)]
pub enum Event {
    /// From a place on, as many bytes as there is room for were asked for, and these came.
    Read {
        path: String,
        at: u64,
        room: usize,
        bytes: Vec<u8>,
    },
    ReadFailed {
        path: String,
        at: u64,
        room: usize,
    },
    Created {
        path: String,
    },
    CreateFailed {
        path: String,
    },
    Appended {
        path: String,
        bytes: Vec<u8>,
    },
    AppendFailed {
        path: String,
        bytes: Vec<u8>,
    },
}

impl Event {
    ghost use Rattle.logged_store.specs.Events.{event_of};

    /// The read that was answered so. The bytes that it gave stand at the front of its buffer.
    pub(crate) fn of_read(
        alloc: Global,
        path: &str,
        at: u64,
        outcome: Result<usize, Failed>,
        buffer: &[u8],
    ) -> Result<Event, AllocError>
        requires { IfOk outcome (λ count. count ≤ length buffer.now) }
        ensures { IfOk result (λ event. event_of event
            ≡ read_event path.now at (length buffer.now) outcome buffer.now) }
    {
        let path = String::from_str(alloc, path)?;
        let room = buffer.len();
        match outcome {
            Ok(count) => Ok(Event::Read {
                path,
                at,
                room,
                bytes: Vec::from_slice(alloc, &buffer[..count])?,
            }),
            Err(Failed) => Ok(Event::ReadFailed { path, at, room }),
        }
    }

    /// The create that was answered so.
    pub(crate) fn of_create(
        alloc: Global,
        path: &str,
        outcome: Result<(), Failed>,
    ) -> Result<Event, AllocError>
        ensures { IfOk result (λ event. event_of event ≡ create_event path.now outcome) }
    {
        let path = String::from_str(alloc, path)?;
        match outcome {
            Ok(()) => Ok(Event::Created { path }),
            Err(Failed) => Ok(Event::CreateFailed { path }),
        }
    }

    /// The append that was answered so.
    pub(crate) fn of_append(
        alloc: Global,
        path: &str,
        bytes: &[u8],
        outcome: Result<(), Failed>,
    ) -> Result<Event, AllocError>
        ensures { IfOk result (λ event. event_of event ≡ append_event path.now bytes.now outcome) }
    {
        let path = String::from_str(alloc, path)?;
        let bytes = Vec::from_slice(alloc, bytes)?;
        match outcome {
            Ok(()) => Ok(Event::Appended { path, bytes }),
            Err(Failed) => Ok(Event::AppendFailed { path, bytes }),
        }
    }
}
