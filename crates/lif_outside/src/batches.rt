//! Work that is cut into batches, which jobs do side by side.
ghost use Rattle.std.specs.Prelude.{◌≡◌, ◌<◌, ◌≤◌, ◌*◌, min};

/// How many jobs are done side by side, at most.
pub const WORKERS: u32 = 4;

/// How many batches so many items are cut into: one for each worker, or for each item where those are fewer.
pub fn batch_count(items: u64, workers: u32) -> u32
    ensures { result ≡ min items workers }
{
    items.min(workers as u64) as u32
}

/// How many items each batch but the last one has, where so many are cut into at most so many batches.
pub fn batch_size(items: usize, batches: usize) -> usize
    requires { 0 < batches }
    ensures some { 0 < result }
    ensures few_batches { items ≤ batches * result }
{
    items.div_ceil(batches).max(1)
}
