//! The command `check`.
ghost use Rattle.top_base.specs.Performs.{RunsOnStore};
ghost use Rattle.top_tools.specs.Check.{check_command};

use lif_outside::{Gate, Store};
use std::alloc::Global;
use std::thread::Threads;
use top_base::{Line, Outcome, Status, read_accepted};

/// Reads and checks the code at a path.
pub fn check<'a, S: Store, G: Gate + Sync, R: Threads + Sync>(
    rt: &R,
    alloc: Global,
    path: &str,
    store: &mut S,
    gate: &G,
) -> Outcome<'a>
    ensures { RunsOnStore S.Store (check_command path.now) store.old store.new result }
{
    match read_accepted(rt, alloc, store, path, gate) {
        Ok(checked) => Outcome {
            status: Status::Done,
            line: Line::accepted(checked.code()),
        },
        Err(refused) => refused,
    }
}
