//! The demands of a code, cut into batches.
ghost use Rattle.std.specs.Prelude.{◌≡◌, ◌<◌, ◌+◌, vec_len, IfOk};
ghost use Rattle.failure_patterns.specs.Batches.{batch_start};
ghost use Rattle.net_model.specs.Demands.{demand_count};
ghost use Rattle.code_checker.specs.First.{AreBatches, IsFirstIn};

use crate::patterns::first_between;
use crate::products::Failure;
use failure_patterns::{batch_start, demands};
use field_rows::RowTables;
use lif_outside::{Gate, WORKERS, batch_count};
use node_program::Code;
use std::alloc::{AllocError, Global};
use std::thread::{Threads, map_indices};

/// The first demand that fails, and where. Its batches are done side by side.
pub(crate) fn first_failure<G: Gate + Sync, R: Threads + Sync>(
    rt: &R,
    alloc: Global,
    code: &Code,
    gate: &G,
) -> Result<Option<Failure>, AllocError>
    ensures { IfOk result (IsFirstIn code.now 0 (demand_count code.now.net)) }
{
    let tables = RowTables::new();
    let batches = batch_count(demands(&code.net), WORKERS);
    let made = map_indices(
        rt,
        alloc,
        batches as usize,
        &|batch: usize| { enter_batch(alloc, &tables, code, batches, batch as u32, gate) },
    )?;
    first_of_batches(code, batches, made)
}

/// The first demand that fails, and where. All are one batch, done by the thread that calls.
pub(crate) fn first_of_all(alloc: Global, code: &Code) -> Result<Option<Failure>, AllocError>
    ensures { IfOk result (IsFirstIn code.now 0 (demand_count code.now.net)) }
{
    let count = demands(&code.net) as u32;
    first_between(alloc, &RowTables::new(), code, 0, count)
}

// The first failure of a batch, which enters the gate before.
fn enter_batch<G: Gate>(
    alloc: Global,
    tables: &RowTables,
    code: &Code,
    batches: u32,
    batch: u32,
    gate: &G,
) -> Result<Option<Failure>, AllocError>
    requires { batch < batches }
    ensures { IfOk result
        (IsFirstIn code.now (batch_start batch batches (demand_count code.now.net))
        (batch_start (batch + 1) batches (demand_count code.now.net))) }
{
    gate.enter(batch);
    let count = demands(&code.net);
    let from = batch_start(batch, batches, count) as u32;
    let to = batch_start(batch + 1, batches, count) as u32;
    first_between(alloc, tables, code, from, to)
}

// The first failure of all batches: that of the first batch that has one.
fn first_of_batches(
    code: &Code,
    batches: u32,
    made: Vec<Result<Option<Failure>, AllocError>>,
) -> Result<Option<Failure>, AllocError>
    requires some_batches { 0 < batches }
    requires count { vec_len made ≡ batches }
    requires each { AreBatches code.now batches made.items }
    ensures { IfOk result (IsFirstIn code.now 0 (demand_count code.now.net)) }
{
    for first in made {
        if let Some(failure) = first? {
            return Ok(Some(failure));
        }
    }
    Ok(None)
}
