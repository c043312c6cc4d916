//! The demands of one batch, gone through pattern by pattern.
ghost use Rattle.std.specs.Prelude.{◌≡◌, ◌<◌, ◌≤◌, ◌+◌, length, IfOk};
ghost use Rattle.net_model.specs.Demands.{demand_count};
ghost use Rattle.code_checker.specs.Checking.{AreVectorsIn};
ghost use Rattle.code_checker.specs.First.{IsFirstBefore, IsFirstIn, IsFirstOf, limit_of};

use crate::products::{Failure, difference};
use failure_patterns::{number_of, sinks_below};
use field_rows::RowTables;
use link_rows::{LinkRows, vector_rows};
use net_model::Demand;
use node_program::Code;
use std::alloc::{AllocError, Global};

/// The first failure of the demands from one number on and below another.
pub(crate) fn first_between(
    alloc: Global,
    tables: &RowTables,
    code: &Code,
    from: u32,
    to: u32,
) -> Result<Option<Failure>, AllocError>
    requires ordered { from ≤ to }
    requires within { to ≤ demand_count code.now.net }
    ensures { IfOk result (IsFirstIn code.now from to) }
{
    let mut first = None;
    for pattern in 0..code.net.patterns.len() as u32 {
        first = first_up_to(alloc, tables, code, pattern, from, to, first)?;
    }
    Ok(first)
}

// The first failure with this pattern among them, where `first` is that of the patterns before it. Only the demands
// below that one are gone through.
fn first_up_to(
    alloc: Global,
    tables: &RowTables,
    code: &Code,
    pattern: u32,
    from: u32,
    to: u32,
    first: Option<Failure>,
) -> Result<Option<Failure>, AllocError>
    requires pattern { pattern < length code.now.net.patterns }
    requires ordered { from ≤ to }
    requires within { to ≤ demand_count code.now.net }
    requires before { IsFirstBefore code.now from to pattern first }
    ensures { IfOk result (IsFirstBefore code.now from to (pattern + 1)) }
{
    let begin = sinks_below(&code.net, pattern, from);
    let end = sinks_below(&code.net, pattern, limit_of(to, &first));
    if end <= begin {
        return Ok(first);
    }
    match first_of_sinks(alloc, tables, code, pattern, begin, end)? {
        Some(failure) => Ok(Some(failure)),
        None => Ok(first),
    }
}

// Below which number a demand may yet fail first.
fn limit_of(to: u32, first: &Option<Failure>) -> u32
    ensures { result ≡ limit_of to first.now }
{
    match first {
        Some(failure) => failure.demand,
        None => to,
    }
}

// The first failure with a pattern, of the sinks from one on and before another.
fn first_of_sinks(
    alloc: Global,
    tables: &RowTables,
    code: &Code,
    pattern: u32,
    begin: u32,
    end: u32,
) -> Result<Option<Failure>, AllocError>
    requires pattern { pattern < length code.now.net.patterns }
    requires sinks { end ≤ length code.now.net.sinks }
    ensures { IfOk result (IsFirstOf code.now pattern begin end) }
{
    let vectors = vectors_of(alloc, tables, code, pattern)?;
    for sink in begin..end {
        let demand = number_of(&code.net, Demand { sink, pattern }) as u32;
        if let Some(failure) = difference(tables, code, demand, &vectors) {
            return Ok(Some(failure));
        }
    }
    Ok(None)
}

// The vectors of the links under a pattern.
fn vectors_of(
    alloc: Global,
    tables: &RowTables,
    code: &Code,
    pattern: u32,
) -> Result<LinkRows<64>, AllocError>
    requires { pattern < length code.now.net.patterns }
    ensures { IfOk result (AreVectorsIn code.now pattern) }
{
    let failed = code.net.failed_table(alloc, pattern)?;
    vector_rows(alloc, tables, code.coding(), &failed)
}
