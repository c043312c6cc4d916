//! Calls of the system that fail, and how they are counted.
ghost use Rattle.std.specs.Prelude.{◌≡◌, ◌≤◌, ◌↔◌, OnOk, OnErr, IfOk, IsErr};
ghost use Rattle.lif_outside.specs.Counts.{one_more};

use lif_outside::Failed;
use std::io;

/// What a call of the system gave, or that it failed. A failure is counted.
pub fn counted<T>(outcome: io::Result<T>, faults: &mut u64) -> Result<T, Failed>
    ensures value { IfOk result (λ value. outcome ≡ Ok value) }
    ensures failed { IsErr result ↔ IsErr outcome }
    ensures ok { OnOk result (faults.new ≡ faults.old) }
    ensures err { OnErr result (faults.new ≡ one_more faults.old) }
    ensures later { faults.old ≤ faults.new }
{
    match outcome {
        Ok(value) => Ok(value),
        Err(_) => {
            *faults = faults.saturating_add(1);
            Err(Failed)
        }
    }
}
