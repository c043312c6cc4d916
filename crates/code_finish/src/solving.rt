//! The decoders of a draft's demands, pattern by pattern, or the first demand that doesn't decode.
ghost use Rattle.std.specs.Prelude.{◌≡◌, ◌<◌, ◌≤◌, ◌+◌, ◌*◌, ◌≢◌, ℕ, None, IfOk, IfErr, OnOk, length, reverse, slice_get, vec_len};
ghost use Rattle.code_finish.specs.Solved.{AreSolved, AreSolvedAt, AreVectorsUnder, IsFirstBefore, IsFirstOf, IsFirstShown, IsSolved, ins_to, vectors_under};
ghost use Rattle.code_finish.specs.Taken.{AreTaken, taken_bytes};
ghost use Rattle.failure_patterns.specs.Demands.{number_of};
ghost use Rattle.failure_patterns.specs.First.{limit_of};
ghost use Rattle.net_model.specs.Demands.{demand_count, pattern_of_demand};

use crate::taking::Taken;
use code_file::Draft;
use failure_patterns::{demands, number_of, sinks_below};
use field_rows::RowTables;
use gf_tables::Width;
use link_rows::{LinkRows, vector_rows};
use net_model::{Demand, LinkList};
use node_program::{Decoder, Entries};
use std::alloc::{AllocError, Global};

/// A demand that doesn't decode, with a block that it doesn't tell from zeros.
#[derive(Drop)]
pub(crate) struct Confusion {
    pub(crate) demand: u32,
    pub(crate) block: Entries,
}

/// What comes of a demand: its decoder, or such a block.
#[derive(Drop)]
pub(crate) enum Solved {
    Found(Decoder),
    Hidden(Entries),
}

// The vectors of the links under a pattern.
fn vectors_of(
    alloc: Global,
    tables: &RowTables,
    draft: &Draft,
    pattern: u32,
) -> Result<LinkRows<64>, AllocError>
    requires { pattern < length draft.now.net.patterns }
    ensures { IfOk result (AreVectorsUnder draft.now pattern) }
{
    let failed = draft.net.failed_table(alloc, pattern)?;
    vector_rows(alloc, tables, draft.coding(), &failed)
}

// Takes in the links into a node, by their vectors.
fn take_links<const W: usize>(
    tables: &RowTables,
    draft: &Draft,
    vectors: &LinkRows<64>,
    node: u32,
    taken: &mut Taken<W>,
) -> Result<(), AllocError>
    requires field { taken.old.field ≡ draft.now.field }
    requires rate { taken.old.rate ≡ draft.now.rate }
    requires count { length vectors.now ≡ length draft.now.net.links }
    ensures field { taken.new.field ≡ taken.old.field }
    ensures rate { taken.new.rate ≡ taken.old.rate }
    ensures taken { OnOk result ((pattern : ℕ) → AreVectorsUnder draft.now pattern vectors.now
        → AreTaken draft.now.field draft.now.rate (vectors_under draft.now pattern)
        (reverse (ins_to draft.now.net node)) taken.new.links.items taken.new.span.rows) }
{
    taken.clear();
    for link in 0..draft.net.links.len() as u32 {
        if draft.net.head(link) == node {
            taken.take_in(tables, link, vectors.row(link))?;
        }
    }
    Ok(())
}

// What comes of a demand.
fn solve<const W: usize>(
    alloc: Global,
    tables: &RowTables,
    draft: &Draft,
    vectors: &LinkRows<64>,
    demand: Demand,
    taken: &mut Taken<W>,
) -> Result<Solved, AllocError>
    requires sink { demand.sink < length draft.now.net.sinks }
    requires pattern { demand.pattern < length draft.now.net.patterns }
    requires vectors { AreVectorsUnder draft.now demand.pattern vectors.now }
    requires field { taken.old.field ≡ draft.now.field }
    requires rate { taken.old.rate ≡ draft.now.rate }
    ensures field { taken.new.field ≡ taken.old.field }
    ensures rate { taken.new.rate ≡ taken.old.rate }
    ensures solved { IfOk result (IsSolved draft.now (number_of draft.now.net demand)) }
{
    let node = *draft.net.sinks.at(demand.sink as usize);
    take_links(tables, draft, vectors, node, taken)?;
    if taken.span.rank() < draft.rate {
        return Ok(Solved::Hidden(Entries::of(taken.hidden(alloc)?)));
    }
    Ok(Solved::Found(Decoder {
        links: LinkList::of(taken.links.as_slice().to_vec(alloc)?),
        entries: Entries::of(taken.entries(alloc)?),
    }))
}

// The decoders of the demands with a pattern, of the sinks from one on and before another, or the first of them that doesn't decode.
fn solve_sinks<const W: usize>(
    alloc: Global,
    tables: &RowTables,
    draft: &Draft,
    pattern: u32,
    begin: u32,
    end: u32,
    taken: &mut Taken<W>,
    decoders: &mut Vec<Decoder>,
) -> Result<Option<Confusion>, AllocError>
    requires pattern { pattern < length draft.now.net.patterns }
    requires sinks { end ≤ length draft.now.net.sinks }
    requires field { taken.old.field ≡ draft.now.field }
    requires rate { taken.old.rate ≡ draft.now.rate }
    requires count { vec_len decoders.old ≡ demand_count draft.now.net }
    ensures field { taken.new.field ≡ taken.old.field }
    ensures rate { taken.new.rate ≡ taken.old.rate }
    ensures count { vec_len decoders.new ≡ demand_count draft.now.net }
    ensures others { (demand : ℕ) → pattern_of_demand draft.now.net demand ≢ pattern
        → slice_get decoders.new.items demand ≡ slice_get decoders.old.items demand }
    ensures first { IfOk result (IsFirstOf draft.now pattern begin end) }
    ensures solved { IfOk result (λ first. first ≡ None
        → AreSolvedAt draft.now pattern begin end decoders.new.items) }
{
    let vectors = vectors_of(alloc, tables, draft, pattern)?;
    for sink in begin..end {
        let demand = Demand { sink, pattern };
        let number = number_of(&draft.net, demand) as u32;
        match solve(alloc, tables, draft, &vectors, demand, taken)? {
            Solved::Found(decoder) => decoders[number as usize] = decoder,
            Solved::Hidden(block) => {
                return Ok(Some(Confusion {
                    demand: number,
                    block,
                }));
            }
        }
    }
    Ok(None)
}

// Below which number a demand may yet be the first that doesn't decode.
fn limit_of(demands: u32, first: &Option<Confusion>) -> u32
    ensures { result ≡ limit_of (λ one. one.demand) demands first.now }
{
    match first {
        Some(confusion) => confusion.demand,
        None => demands,
    }
}

// The same of one pattern more, where `first` is the first of the patterns before it. Only demands below that are gone through.
fn solve_pattern<const W: usize>(
    alloc: Global,
    tables: &RowTables,
    draft: &Draft,
    pattern: u32,
    first: Option<Confusion>,
    taken: &mut Taken<W>,
    decoders: &mut Vec<Decoder>,
) -> Result<Option<Confusion>, AllocError>
    requires pattern { pattern < length draft.now.net.patterns }
    requires before { IsFirstBefore draft.now pattern first }
    requires field { taken.old.field ≡ draft.now.field }
    requires rate { taken.old.rate ≡ draft.now.rate }
    requires count { vec_len decoders.old ≡ demand_count draft.now.net }
    requires solved { first ≡ None → AreSolved draft.now pattern decoders.old.items }
    ensures field { taken.new.field ≡ taken.old.field }
    ensures rate { taken.new.rate ≡ taken.old.rate }
    ensures count { vec_len decoders.new ≡ demand_count draft.now.net }
    ensures first { IfOk result (IsFirstBefore draft.now (pattern + 1)) }
    ensures solved { IfOk result (λ found. found ≡ None
        → AreSolved draft.now (pattern + 1) decoders.new.items) }
{
    let end = sinks_below(
        &draft.net,
        pattern,
        limit_of(demands(&draft.net) as u32, &first),
    );
    match solve_sinks(alloc, tables, draft, pattern, 0, end, taken, decoders)? {
        Some(confusion) => Ok(Some(confusion)),
        None => Ok(first),
    }
}

// As many decoders as demands, without links.
fn no_decoders(alloc: Global, count: usize) -> Result<Vec<Decoder>, AllocError>
    ensures { IfOk result (λ decoders. vec_len decoders ≡ count) }
{
    let mut decoders = Vec::with_capacity(alloc, count)?;
    for _ in 0..count {
        decoders.push(Decoder {
            links: LinkList::of(Vec::new(alloc)),
            entries: Entries::of(Vec::new(alloc)),
        })?;
    }
    Ok(decoders)
}

// The decoders of all demands of a draft, or the first demand that doesn't decode, by rows of `W` bytes.
fn solve_by_rows<const W: usize>(
    alloc: Global,
    draft: &Draft,
) -> Result<Result<Vec<Decoder>, Confusion>, AllocError>
    requires { W ≡ taken_bytes draft.now.field }
    ensures count { IfOk result (λ solved. IfOk solved
        (λ decoders. vec_len decoders ≡ demand_count draft.now.net)) }
    ensures solved { IfOk result (λ solved. IfOk solved
        (λ decoders. AreSolved draft.now (length draft.now.net.patterns) decoders.items)) }
    ensures first { IfOk result (λ solved. IfErr solved (IsFirstShown draft.now)) }
{
    let tables = RowTables::new();
    let mut taken = Taken::<W>::open(alloc, draft.field, draft.rate)?;
    let mut decoders = no_decoders(alloc, demands(&draft.net) as usize)?;
    let mut first = None;
    for pattern in 0..draft.net.patterns.len() as u32 {
        first = solve_pattern(
            alloc,
            &tables,
            draft,
            pattern,
            first,
            &mut taken,
            &mut decoders,
        )?;
    }
    match first {
        Some(confusion) => Ok(Err(confusion)),
        None => Ok(Ok(decoders)),
    }
}

/// The decoders of all demands of a draft, or the first demand that doesn't decode.
pub(crate) fn solve_all(
    alloc: Global,
    draft: &Draft,
) -> Result<Result<Vec<Decoder>, Confusion>, AllocError>
    ensures count { IfOk result (λ solved. IfOk solved
        (λ decoders. vec_len decoders ≡ demand_count draft.now.net)) }
    ensures solved { IfOk result (λ solved. IfOk solved
        (λ decoders. AreSolved draft.now (length draft.now.net.patterns) decoders.items)) }
    ensures first { IfOk result (λ solved. IfErr solved (IsFirstShown draft.now)) }
{
    match draft.field.width() {
        Width::One => solve_by_rows::<64>(alloc, draft),
        Width::Two => solve_by_rows::<128>(alloc, draft),
    }
}
