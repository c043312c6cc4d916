//! Sinks of which only the sum of their bytes is kept.
ghost use Rattle.std.specs.Prelude.{◌≡◌, ◌+◌, ◌%◌, ◌<◌, ◌≤◌, ◌^◌, ◌∷◌, [], length, drop, sum, IfOk, IsOk};
ghost use Rattle.lif_outside.specs.Limits.{last_place};

use lif_outside::{Failed, Store};

/// A store that keeps of what is appended, to whatever path, the sum of the bytes in 64 bits. Its files are empty, and no call
/// fails.
#[derive(Drop)]
pub struct Tally {
    /// The sum.
    pub sum: u64,
    ghost small: { sum < 2 ^ 64 },
}

// A sum and some bytes more.
fn add_up(before: u64, bytes: &[u8]) -> u64
    ensures { result ≡ (before + sum bytes.now) % 2 ^ 64 }
{
    let mut total = before;
    for byte in bytes {
        total = total.wrapping_add(u64::from(*byte));
    }
    total
}

impl Store for Tally {
    ghost use Rattle.lif_outside.specs.Events.{read_event, create_event, append_event};
    ghost use Rattle.top_runs.specs.Demo.Tally.{Tallies, any_path, no_faults, no_files};
    ghost use Rattle.top_runs.specs.Demo.TallyLaws.{tallies_none, tallies_then};

    ghost files = { no_files };

    ghost read_faults = { no_faults };

    ghost write_faults = { no_faults };

    ghost made = { any_path };

    ghost calls = { Tallies };

    ghost no_calls = { tallies_none };

    ghost more_calls = { tallies_then };

    ghost accounts = { λ _ _ _ is. is.accounts };

    fn read(&mut self, path: &str, at: u64, into: &mut [u8]) -> Result<usize, Failed>
        requires { at ≤ last_place }
        ensures count { IfOk result (λ n. n ≤ length into.old) }
        ensures rest { IfOk result (λ n. drop n into.new ≡ drop n into.old) }
        ensures call { Tallies
            (read_event path.now at (length into.old) result into.new ∷ []) self.old self.new }
    {
        Ok(0)
    }

    fn create(&mut self, path: &str) -> Result<(), Failed>
        ensures { Tallies (create_event path.now result ∷ []) self.old self.new }
    {
        Ok(())
    }

    fn append(&mut self, path: &str, bytes: &[u8]) -> Result<(), Failed>
        requires { any_path self.old path.now }
        ensures { Tallies (append_event path.now bytes.now result ∷ []) self.old self.new }
    {
        self.sum = add_up(self.sum, bytes);
        Ok(())
    }
}
