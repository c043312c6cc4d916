//! A store of files, as the program sees it.
ghost use Rattle.std.specs.Prelude.{◌≡◌, ◌≤◌, ◌++◌, ◌∷◌, [], ℕ, List, Option, length, drop, IfOk};
ghost use Rattle.lif_outside.specs.Accounts.{StoreAccounts};
ghost use Rattle.lif_outside.specs.Events.{Event, read_event, create_event, append_event};
ghost use Rattle.lif_outside.specs.Files.{Files};
ghost use Rattle.lif_outside.specs.Limits.{last_place};

use crate::Failed;

/// Files by their paths. A call that answers `Failed` has raised a count of faults of the path that it
/// was given. An implementation may give all paths one count.
pub trait Store {
    /// What each path holds, where the store tells it.
    ghost files: { Self → Option Files };

    /// How often a read of a path has failed.
    ghost read_faults: { Self → List ℕ → ℕ };

    /// How often a create or an append of a path has failed.
    ghost write_faults: { Self → List ℕ → ℕ };

    /// Holds of a path once a `create` of it has answered `Ok`.
    ghost made: { Self → List ℕ → Type 0 };

    /// These calls with their answers, in this order, lead from one state to the other. A store that doesn't
    /// tell its files may let any calls lead from any state to any other whose counts they account for.
    ghost calls: { List Event → Self → Self → Type 0 };

    /// Reads bytes of a file, from a place on, to the front of a buffer, and answers how many. It reads
    /// at least one where there is room and the file isn't at its end. A missing file is a fault.
    fn read(&mut self, path: &str, at: u64, into: &mut [u8]) -> Result<usize, Failed>
        requires { at ≤ last_place }
        ensures count { IfOk result (λ n. n ≤ length into.old) }
        ensures rest { IfOk result (λ n. drop n into.new ≡ drop n into.old) }
        ensures call { calls
            (read_event path.now at (length into.old) result into.new ∷ []) self.old self.new };

    /// Makes an empty file, in place of one that is there. Where it fails, the path is as before or empty.
    fn create(&mut self, path: &str) -> Result<(), Failed>
        ensures { calls (create_event path.now result ∷ []) self.old self.new };

    /// Adds bytes at the end of a file. Where it fails, the file is as before, or a prefix of them was added.
    fn append(&mut self, path: &str, bytes: &[u8]) -> Result<(), Failed>
        requires { made self.old path.now }
        ensures { calls (append_event path.now bytes.now result ∷ []) self.old self.new };

    /// No call leads from a state to itself.
    ghost no_calls: { (at : Self) → calls [] at at };

    /// Calls and then more calls are the calls of both lists.
    ghost more_calls: { (first later : List Event) (a b c : Self) → calls first a b
        → calls later b c → calls (first ++ later) a c };

    /// Where files are told, they end as the calls say, and every read gave what the file held. No count falls, a
    /// call that failed has raised its path's count, and a path whose create was done is made.
    ghost accounts: { (events : List Event) (old new : Self) → calls events old new
        → StoreAccounts files read_faults write_faults made events old new };
}
