//! The stream of a link, as the source writes it of a block, and as a sink decodes it in another order and twice.
ghost use Rattle.std.specs.Prelude.{◌≡◌, ◌<◌, length};
ghost use Rattle.gf_tables.specs.Kind.{IsOfKind};

use super::hands::Wrong;
use code_checker::Checked;
use generation_frame::{FRAME, ROW, cut};
use gf_tables::{Field, FieldKind, Gf8};
use item_list::ItemList;
use link_streams::{Frames, Gather, Relay, Stream, wanted_links};
use net_model::Demand;
use std::alloc::Global;
use std::test;
use std::thread::Threads;
use test_support::codes::checked_of;
use test_support::files::ONE_LINK;

// The frames of the first link out of the source, for a block of generation 0.
fn sent<F: Field>(alloc: Global, code: &Checked, block: &[u8]) -> Result<Vec<u8>, Wrong>
    requires pattern { 0 < length code.now.net.patterns }
    requires field { IsOfKind code.now.field F.SIZE F.BYTES F.MARK F.product }
{
    if block.len() != code.code().rate as usize * ROW {
        return Err(Wrong::Call);
    }
    let source = code.code().net.source;
    let mut relay = Relay::<F>::open(alloc, code, 0, source)?;
    let mut frames = Frames::open(alloc, code, 0, source)?;
    relay.originate(0, block, &mut frames);
    if frames.len() == 0 {
        return Err(Wrong::Call);
    }
    Ok(frames.at(0).to_vec(alloc)?)
}

// What a sink that wants one link decodes of generation 0 of its stream.
fn decoded<F: Field>(
    alloc: Global,
    code: &Checked,
    demand: Demand,
    bytes: &[u8],
) -> Result<Vec<u8>, Wrong>
    requires sink { demand.sink < length code.now.net.sinks }
    requires pattern { demand.pattern < length code.now.net.patterns }
    requires field { IsOfKind code.now.field F.SIZE F.BYTES F.MARK F.product }
{
    let links = wanted_links(alloc, code, demand)?;
    let [link] = links.as_slice() else {
        return Err(Wrong::Call);
    };
    let Ok(stream) = Stream::read(alloc, *link, bytes) else {
        return Err(Wrong::Call);
    };
    if stream.generations() != 1 || stream.first_missing(1).is_some() {
        return Err(Wrong::NotWhole);
    }
    let mut gather = Gather::<F>::open(alloc, code, demand)?;
    let mut block = vec![in alloc; 1; code.code().rate as usize * ROW]?;
    gather.take(0, &ItemList::of(vec![in alloc; stream]?), &mut block);
    Ok(block)
}

// The frames of a stream, the last one first.
fn reversed(alloc: Global, stream: &[u8]) -> Result<Vec<u8>, Wrong> {
    let mut frames = Vec::with_capacity(alloc, stream.len())?;
    for frame in stream.rchunks(FRAME) {
        frames.extend_from_slice(frame)?;
    }
    Ok(frames)
}

// Whether one byte goes through a code of one link: its frames begin as these bytes, and come in reverse and twice.
fn comes<F: Field>(alloc: Global, code: &Checked) -> Result<bool, Wrong>
    requires pattern { 0 < length code.now.net.patterns }
    requires sink { 0 < length code.now.net.sinks }
    requires field { IsOfKind code.now.field F.SIZE F.BYTES F.MARK F.product }
{
    let mut block = vec![in alloc; 1; code.code().rate as usize * ROW]?;
    cut(b"A", &mut block);
    let stream = sent::<F>(alloc, code, &block)?;
    let begins = b"LF\x01\x00\x00\x00\x00\x00\x00\x00\x00\x00\x00\x00\x00\x01A";
    let mut twice = reversed(alloc, &stream)?;
    twice.extend_from_slice(&reversed(alloc, &stream)?)?;
    let demand = Demand {
        sink: 0,
        pattern: 0,
    };
    let found = decoded::<F>(alloc, code, demand, &twice)?;
    let is_whole = stream.len() == 8 * FRAME && stream.starts_with(begins);
    Ok(is_whole && found.as_slice() == block.as_slice())
}

// The same over the field of 256 elements.
#[tactic(auto, unfolding(gf_tables::specs::Product::product))]
fn comes_over(alloc: Global, code: &Checked) -> Result<bool, Wrong> {
    let net = &code.code().net;
    if net.sinks.is_empty() || net.patterns.is_empty() {
        return Err(Wrong::Call);
    }
    match code.code().field {
        FieldKind::Eight => comes::<Gf8>(alloc, code),
        FieldKind::Nine | FieldKind::Sixteen => Err(Wrong::Call),
    }
}

// The same of the code of a file.
fn one_byte_comes<R: Threads + Sync>(rt: &R, alloc: Global) -> Result<bool, Wrong> {
    let code = checked_of(rt, alloc, ONE_LINK)?;
    comes_over(alloc, &code)
}

#[test]
fn a_stream_that_is_written_is_decoded_in_reverse_and_twice(rt: HostRuntime) {
    assert!(&rt; one_byte_comes(&rt, Global::new(rt.memory())) == Ok(true));
}
