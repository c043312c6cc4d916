//! The decoders of demands.
ghost use Rattle.std.specs.Prelude.{◌≡◌, ◌++◌, replicate, IfOk, OnOk};
ghost use Rattle.code_items.specs.Reading.{decoder_link_at, decoder_links_at, entries_at, decoder_at, demand_sinks, decoders_at, decoder_table_at};
ghost use Rattle.code_items.specs.Gives.{Reads, ReadsAll};
ghost use Rattle.code_items.specs.Parts.{front_seen};

use crate::CodeRefusal;
use crate::items::{element, number};
use crate::operands::leads_into;
use crate::parts::Front;
use crate::rest::Rest;
use crate::rising::is_above_last;
use crate::shared_decoders::shared_decoders;
use gf_tables::FieldKind;
use net_model::LinkList;
use node_program::{Decoder, Entries};
use std::alloc::{AllocError, AllocFailed, Global};

// One link of a decoder, which leads into the sink.
#[tactic(auto, using(crate::proofs::Checks::number_checked))]
fn read_link<'a>(
    front: &Front,
    sink: u32,
    earlier: &[u32],
    rest: Rest<'a>,
) -> Result<(u32, Rest<'a>), CodeRefusal>
    ensures { Reads result (decoder_link_at front.now.links sink earlier.now) rest.entry }
{
    let (link, after) = number(rest)?;
    let link = u32::from(link);
    if !is_above_last(earlier, link) {
        return Err(CodeRefusal::NotRising { at: rest.at });
    }
    if !leads_into(front.links.as_slice(), sink, link) {
        return Err(CodeRefusal::BadOperand { at: rest.at });
    }
    Ok((link, after))
}

// As many links as the rate.
fn read_links<'a>(
    alloc: Global,
    front: &Front,
    sink: u32,
    start: Rest<'a>,
) -> Result<(Vec<u32>, Rest<'a>), CodeRefusal>
    ensures { ReadsAll result (decoder_links_at (front_seen front.now) sink) start.entry }
{
    let count = front.rate;
    let mut all = Vec::with_capacity(alloc, count as usize)?;
    let mut rest = start;
    for _ in 0..count {
        let (one, after) = read_link(front, sink, &all, rest)?;
        all.push(one)?;
        rest = after;
    }
    Ok((all, rest))
}

// So many entries of a matrix.
fn entries<'a>(
    alloc: Global,
    field: FieldKind,
    count: u32,
    start: Rest<'a>,
) -> Result<(Vec<u32>, Rest<'a>), CodeRefusal>
    ensures { ReadsAll result (entries_at field count) start.entry }
{
    let mut entries = Vec::with_capacity(alloc, count as usize)?;
    let mut rest = start;
    for _ in 0..count {
        let (one, after) = element(field, rest)?;
        entries.push(one)?;
        rest = after;
    }
    Ok((entries, rest))
}

/// The decoder of a demand.
#[tactic(auto, unfolding(crate::specs::Reading::decoder_at))]
pub(crate) fn decoder<'a>(
    alloc: Global,
    front: &Front,
    sink: u32,
    rest: Rest<'a>,
) -> Result<(Decoder, Rest<'a>), CodeRefusal>
    ensures { Reads result (decoder_at (front_seen front.now) sink) rest.entry }
{
    let (links, rest) = read_links(alloc, front, sink, rest)?;
    let (entries, rest) = entries(alloc, front.field, front.rate * front.rate, rest)?;
    let decoder = Decoder {
        links: LinkList::of(links),
        entries: Entries::of(entries),
    };
    Ok((decoder, rest))
}

// Adds a number so many times.
fn add_times(numbers: &mut Vec<u32>, number: u32, times: usize) -> Result<(), AllocFailed<u32>>
    ensures { OnOk result (numbers.new.items ≡ numbers.old.items ++ replicate times number) }
{
    for _ in 0..times {
        numbers.push(number)?;
    }
    Ok(())
}

// The sink of each demand.
fn sinks_of_demands(alloc: Global, front: &Front) -> Result<Vec<u32>, AllocError>
    ensures { IfOk result (λ sinks. sinks.items ≡ demand_sinks (front_seen front.now)) }
{
    let sinks = front.sinks.as_slice();
    let patterns = front.patterns.len();
    let mut all = Vec::with_capacity(alloc, sinks.len() * patterns)?;
    for sink in sinks {
        add_times(&mut all, *sink, patterns)?;
    }
    Ok(all)
}

// A decoder for each of the sinks.
fn counted_decoders<'a>(
    alloc: Global,
    front: &Front,
    sinks: &[u32],
    start: Rest<'a>,
) -> Result<(Vec<Decoder>, Rest<'a>), CodeRefusal>
    ensures { ReadsAll result (decoders_at (front_seen front.now) sinks.now) start.entry }
{
    let mut decoders = Vec::with_capacity(alloc, sinks.len())?;
    let mut rest = start;
    for sink in sinks {
        let (one, after) = decoder(alloc, front, *sink, rest)?;
        decoders.push(one)?;
        rest = after;
    }
    Ok((decoders, rest))
}

/// The decoder of each demand of a front, in the order of the demands, as a file of the version says it, and what is left. A
/// refusal is that of the first item that isn't good.
pub fn read_decoders<'a>(
    alloc: Global,
    version: u8,
    front: &Front,
    rest: Rest<'a>,
) -> Result<(Vec<Decoder>, Rest<'a>), CodeRefusal>
    ensures { ReadsAll result (decoder_table_at version (front_seen front.now)) rest.entry }
{
    let sinks = sinks_of_demands(alloc, front)?;
    if version == 1 {
        counted_decoders(alloc, front, &sinks, rest)
    } else {
        shared_decoders(alloc, front, &sinks, rest)
    }
}
