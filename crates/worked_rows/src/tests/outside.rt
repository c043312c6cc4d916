//! Stores, sinks, links, and files of a system: what no clause says, as that calls succeed while there is memory.
ghost use Rattle.std.specs.Prelude.{OnOk};

mod file_stores;
mod links;
mod logs;
mod names;
mod pieces;
mod sinks;
mod stores;
mod streams;
mod systems;
mod writers;

use lif_outside::{Call, Fail, Failed, Store};

fn failing(call: Call, nth: u64, keep: usize) -> Fail {
    Fail { call, nth, keep }
}

// Makes a file with these bytes.
fn make<S: Store>(store: &mut S, path: &str, bytes: &[u8]) -> Result<(), Failed>
    ensures { OnOk result (S.made store.new path.now) }
{
    store.create(path)?;
    store.append(path, bytes)
}
