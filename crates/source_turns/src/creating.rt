//! Files that are created in order.
ghost use Rattle.std.specs.Prelude.{ℕ, List, Contains, OnErr, OnOk, map, string_bytes};
ghost use Rattle.lif_outside.specs.Calls.{MakesCalls};
ghost use Rattle.lif_outside.specs.FileCalls.{StopsWithin, creates_of};
ghost use Rattle.lif_outside.specs.Sequences.{Are};

use lif_outside::{Failed, Store};

/// Creates the file of each path, in order.
pub fn create_each<S: Store>(store: &mut S, paths: &[String]) -> Result<(), Failed>
    ensures created { OnOk result (MakesCalls S.Store store.old store.new
        (Are (creates_of (map string_bytes paths.now)))) }
    ensures made { OnOk result ((path : List ℕ) → Contains (map string_bytes paths.now) path
        → S.made store.new path) }
    ensures failed { OnErr result (MakesCalls S.Store store.old store.new
        (StopsWithin (creates_of (map string_bytes paths.now)))) }
{
    for path in paths {
        store.create(path.as_str())?;
    }
    Ok(())
}
