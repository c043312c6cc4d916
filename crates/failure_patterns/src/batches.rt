//! Demands cut into batches, which may be done side by side.
ghost use Rattle.std.specs.Prelude.{◌≡◌, ◌<◌, ◌≤◌};
ghost use Rattle.failure_patterns.specs.Batches.{batch_start};
ghost use Rattle.failure_patterns.specs.UsedField.{pair_demands};

/// The number of the first demand of a batch, where so many demands are cut into so many batches. A batch ends where
/// the next one starts.
pub fn batch_start(batch: u32, batches: u32, count: u64) -> u64
    requires some_batches { 0 < batches }
    requires few_demands { count ≤ pair_demands }
    ensures { result ≡ batch_start batch batches count }
{
    batch as u64 * count / batches as u64
}
