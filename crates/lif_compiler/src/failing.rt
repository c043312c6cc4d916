//! Which links fail, as tables.
ghost use Rattle.std.specs.Prelude.{IfOk};
ghost use Rattle.lif_compiler.specs.Failing.{AreFailedTables};

use net_model::Net;
use std::alloc::{AllocError, Global};

/// For each pattern, for each link whether it fails.
pub(crate) fn failed_tables(alloc: Global, net: &Net) -> Result<Vec<Vec<bool>>, AllocError>
    ensures { IfOk result (λ tables. AreFailedTables net.now tables.items) }
{
    let patterns = net.patterns.len();
    let mut tables = Vec::with_capacity(alloc, patterns)?;
    for pattern in 0..patterns {
        tables.push(net.failed_table(alloc, pattern as u32)?)?;
    }
    Ok(tables)
}
