//! What the sinks of a code decode of a window.
ghost use Rattle.std.specs.Prelude.{◌≡◌, ◌<◌, ◌≤◌, ◌+◌, ◌*◌, ◌^◌, [], ℕ, List, IfOk, length, slice_index_or};
ghost use Rattle.generation_frame.specs.Blocks.{most_blocks, row_bytes};
ghost use Rattle.node_stations.specs.Table.{sinks_of};
ghost use Rattle.sink_decoder.specs.Receiving.{decoded};
ghost use Rattle.relay_runner.specs.Decoding.{AreDecoded, AreRooms, CanDecode, HasAll, block_in};

use generation_frame::{MOST_BLOCKS, ROW};
use gf_tables::Field;
use lif_outside::{Gate, WORKERS, batch_size};
use node_program::Code;
use node_stations::Station;
use sink_decoder::Decoder;
use std::alloc::{AllocError, Global};
use std::marker::Model;
use std::thread::{Threads, for_each_chunk_mut};

/// How many sinks there are for each batch, at least: to start a thread takes longer than to decode at a few sinks. Where
/// there are twice as many, each window is decoded by threads.
pub const LEAST_SINKS: usize = 3;

/// How many products of a row with an element there are for each batch, at least, where there are more than two batches: to
/// start a thread takes about as long as a thousand of them.
const LEAST_PRODUCTS: usize = 2048;

/// What a sink decoded of a window: room for the blocks of 4 generations, one after another.
#[derive(Drop)]
pub(crate) struct DecodedBlocks {
    bytes: Vec<u8>,
}

impl Model for DecodedBlocks {
    ghost Value = { List ℕ };

    ghost view = { λ blocks. blocks.bytes.items };
}

impl DecodedBlocks {
    // Room for the blocks of a rate.
    fn open(alloc: Global, rate: u32) -> Result<DecodedBlocks, AllocError>
        ensures { IfOk result (λ blocks. length blocks ≡ most_blocks * (rate * row_bytes)) }
    {
        let size = rate as usize * ROW;
        Ok(DecodedBlocks {
            bytes: vec![in alloc; 0u8; MOST_BLOCKS * size]?,
        })
    }

    /// The block of a size at a place.
    pub(crate) fn block(&self, place: usize, size: usize) -> &[u8]
        requires { place * size + size ≤ length self.now }
        ensures is { result.now ≡ block_in size self.now place }
        ensures size { length result.now ≡ size }
    {
        &self.bytes[place * size..place * size + size]
    }

    // Decodes so many generations from one on.
    fn decode<F: Field>(&mut self, sink: &Decoder<F>, rate: u32, first: u32, count: u32)
        requires all { HasAll rate first count sink.now }
        requires few_blocks { count ≤ most_blocks }
        requires last { first + count ≤ 2 ^ 32 }
        requires room { length self.old ≡ most_blocks * (rate * row_bytes) }
        ensures room { length self.new ≡ most_blocks * (rate * row_bytes) }
        ensures blocks { (place : ℕ) → place < count
            → block_in (rate * row_bytes) self.new place ≡ decoded sink.now (first + place) }
    {
        decode_blocks(sink, rate as usize * ROW, first, count, &mut self.bytes);
    }
}

// Writes the blocks of a size that a sink decodes of so many generations from one on, one after another.
fn decode_blocks<F: Field>(sink: &Decoder<F>, size: usize, first: u32, count: u32, into: &mut [u8])
    requires all { (rate : ℕ) × (size ≡ rate * row_bytes) × HasAll rate first count sink.now }
    requires last { first + count ≤ 2 ^ 32 }
    requires room { count * size ≤ length into.old }
    ensures room { length into.new ≡ length into.old }
    ensures blocks { (place : ℕ) → place < count
        → block_in size into.new place ≡ decoded sink.now (first + place) }
{
    for place in 0..count {
        let start = place as usize * size;
        sink.block(first + place, &mut into[start..start + size]);
    }
}

/// Room for what each sink of a code decodes.
pub(crate) fn open_blocks(alloc: Global, code: &Code) -> Result<Vec<DecodedBlocks>, AllocError>
    ensures each_sink { IfOk result
        (λ blocks. length blocks.items ≡ length code.now.net.sinks) }
    ensures rooms { IfOk result (λ blocks. AreRooms code.now blocks.items) }
{
    let sinks = code.net.sinks.len();
    let mut blocks = Vec::with_capacity(alloc, sinks)?;
    for _ in 0..sinks {
        blocks.push(DecodedBlocks::open(alloc, code.rate)?)?;
    }
    Ok(blocks)
}

// Decodes at one sink of a code, which is given by its place.
fn decode_sink<F: Field>(
    code: &Code,
    stations: &[Station<F>],
    first: u32,
    count: u32,
    sink: usize,
    blocks: &mut DecodedBlocks,
)
    requires can { CanDecode code.now (sinks_of stations.now) first count }
    requires sink { sink < length code.now.net.sinks }
    requires room { length blocks.old ≡ most_blocks * (code.now.rate * row_bytes) }
    ensures room { length blocks.new ≡ most_blocks * (code.now.rate * row_bytes) }
    ensures blocks { AreDecoded code.now (sinks_of stations.now) first count sink blocks.new }
{
    let node = *code.net.sinks.at(sink);
    match &stations[node as usize].sink {
        Some(decoder) => blocks.decode(decoder, code.rate, first, count),
        None => unreachable!(),
    }
}

// Decodes at a batch of sinks, from one on. The batches but the last are of a size, and the batch enters the gate before by its
// number.
fn decode_batch<F: Field, G: Gate>(
    code: &Code,
    stations: &[Station<F>],
    first: u32,
    count: u32,
    size: usize,
    start: usize,
    blocks: &mut [DecodedBlocks],
    gate: &G,
)
    requires can { CanDecode code.now (sinks_of stations.now) first count }
    requires size { 0 < size }
    requires within { start + length blocks.old ≤ length code.now.net.sinks }
    requires rooms { AreRooms code.now blocks.old }
    ensures rooms { AreRooms code.now blocks.new }
    ensures blocks { (place : ℕ) → place < length blocks.old
        → AreDecoded code.now (sinks_of stations.now) first count (start + place)
        (slice_index_or blocks.new place []) }
{
    gate.enter((start / size) as u32);
    for place in 0..blocks.len() {
        decode_sink(
            code,
            stations,
            first,
            count,
            start + place,
            &mut blocks[place],
        );
    }
}

// How many batches of sinks there are, where so many generations are decoded at so many sinks.
fn batches_for(sinks: usize, count: u32, rate: u32) -> usize
    ensures some { 0 < result }
    ensures few { result ≤ 4 }
{
    let rows = (count as usize).saturating_mul(rate as usize);
    let products = sinks.saturating_mul(rows).saturating_mul(rate as usize);
    let wanted = (products / LEAST_PRODUCTS).max(2).min(WORKERS as usize);
    wanted.min(sinks / LEAST_SINKS).max(1)
}

/// Decodes so many generations from one on at all sinks of a code, in at most four batches of sinks side by side.
pub(crate) fn decode_sinks<F: Field + Send + Sync, G: Gate + Sync, R: Threads + Sync>(
    rt: &R,
    code: &Code,
    stations: &[Station<F>],
    first: u32,
    count: u32,
    blocks: &mut [DecodedBlocks],
    gate: &G,
)
    requires can { CanDecode code.now (sinks_of stations.now) first count }
    requires each_sink { length blocks.old ≡ length code.now.net.sinks }
    requires rooms { AreRooms code.now blocks.old }
    ensures rooms { AreRooms code.now blocks.new }
    ensures blocks { (sink : ℕ) → sink < length code.now.net.sinks
        → AreDecoded code.now (sinks_of stations.now) first count sink
        (slice_index_or blocks.new sink []) }
{
    let size = batch_size(blocks.len(), batches_for(blocks.len(), count, code.rate));
    for_each_chunk_mut(
        rt,
        blocks,
        size,
        &|start: usize, batch: &mut [DecodedBlocks]| {
            decode_batch(code, stations, first, count, size, start, batch, gate)
        },
    );
}
