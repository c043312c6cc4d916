//! Two sources that are read in turn as they are carried over links, each with rows of its own.
ghost use Rattle.std.specs.Prelude.{◌≡◌, ◌≤◌, ◌<◌, ◌+◌, ◌*◌, ◌/◌, ◌^◌, ◌∷◌, [], List, ℕ, Contains, IfErr, IfOk, OnErr, OnOk, false, true, length, max, take, vec_len};
ghost use Rattle.std.specs.List.{concat};
ghost use Rattle.coded_traffic.specs.Traffic.{room_for};
ghost use Rattle.generation_frame.specs.Blocks.{capacity, most_blocks, most_rows, row_bytes};
ghost use Rattle.gf_tables.specs.Kind.{IsOfKind};
ghost use Rattle.lif_outside.specs.Calls.{MakesBoth};
ghost use Rattle.lif_outside.specs.Limits.{last_place};
ghost use Rattle.lif_outside.specs.Moves.{opened};
ghost use Rattle.relay_runner.specs.Runner.{IsRefused};
ghost use Rattle.source_delivery.specs.Carried.{blocks_in};
ghost use Rattle.source_delivery.specs.Delivering.{CanCarry, HasGoneOn};
ghost use Rattle.source_delivery.specs.Delivery.{outputs_in, paths_of};
ghost use Rattle.source_delivery.specs.Reading.{HaveEnded, IsSameReader, IsUnread, source_of};
ghost use Rattle.source_delivery.specs.Twin.{AreSources, AreTwinCounts, EndsTwin, GoesOnTwin, StopsTwin, StreamsBoth, twin_block};

use crate::delivering::cut_block;
use crate::delivery::{SourceDelivery, window_for};
use crate::parts::Parts;
use crate::reader::SourceReader;
use crate::streaming::StreamFault;
use code_checker::Checked;
use generation_frame::{ROW, cap};
use gf_tables::Field;
use lif_outside::{Gate, Links, Store};
use std::alloc::{AllocError, Global};
use std::thread::Threads;

/// How much was sent of two sources.
#[derive(Drop)]
pub struct TwinCounts {
    /// The length of the first source.
    pub first: u64,
    /// The length of the second source.
    pub second: u64,
    /// The number of blocks: that of the source which has more.
    pub generations: u64,
    /// The number of sinks.
    pub sinks: u64,
}

// Whether two sources have both ended.
fn have_ended(first: &SourceReader<'_>, second: &SourceReader<'_>) -> bool
    ensures ended { result ≡ true → HaveEnded first.now second.now }
    ensures running { result ≡ false → ¬ HaveEnded first.now second.now }
{
    first.ended && second.ended
}

// Cuts the block of a generation of two sources: that of the first, and then that of the second.
fn cut_twin_block(
    first: &[u8],
    first_rate: u32,
    second: &[u8],
    second_rate: u32,
    place: usize,
    block: &mut [u8],
)
    requires some_first { 1 ≤ first_rate }
    requires some_second { 1 ≤ second_rate }
    requires low_rates { first_rate + second_rate ≤ most_rows }
    requires few_blocks { place ≤ most_blocks }
    requires long { length block.old ≡ (first_rate + second_rate) * row_bytes }
    ensures { block.new ≡ twin_block first_rate second_rate first.now second.now place }
{
    let (front, rest) = block.split_at_mut(first_rate as usize * ROW);
    cut_block(first, first_rate, place, front);
    cut_block(second, second_rate, place, rest);
}

// Cuts two sources into so many blocks, which stand one after another from the beginning of the room on.
fn cut_twin_blocks(
    first: &[u8],
    first_rate: u32,
    second: &[u8],
    second_rate: u32,
    count: usize,
    blocks: &mut [u8],
)
    requires some_first { 1 ≤ first_rate }
    requires some_second { 1 ≤ second_rate }
    requires low_rates { first_rate + second_rate ≤ most_rows }
    requires few_blocks { count ≤ most_blocks }
    requires room { count * ((first_rate + second_rate) * row_bytes) ≤ length blocks.old }
    ensures { take (count * ((first_rate + second_rate) * row_bytes)) blocks.new
        ≡ concat (blocks_in (twin_block first_rate second_rate first.now second.now) 0 count) }
{
    let size = (first_rate + second_rate) as usize * ROW;
    for place in 0..count {
        let block = &mut blocks[place * size..place * size + size];
        cut_twin_block(first, first_rate, second, second_rate, place, block);
    }
}

/// A delivery of two sources, and their readers.
#[derive(Drop)]
pub struct TwinDelivery<'c, 'p, F> {
    /// The code at work, and the files of its sinks: two of each.
    pub delivery: SourceDelivery<'c, F>,
    /// The first source.
    pub first: SourceReader<'p>,
    /// The second source.
    pub second: SourceReader<'p>,
}

impl<'c, F: Field> SourceDelivery<'c, F> {
    /// A code at work under a pattern on two sources, of which the first has so many rows of each block, and on the files of these
    /// paths: two for each sink, one after the other. The links are opened last, with the number given. `F` is the code's field.
    pub fn open_two<'p, K: Links>(
        alloc: Global,
        code: &'c Checked,
        pattern: u32,
        seed: u64,
        first_rate: u32,
        first: &'p str,
        second: &'p str,
        outputs: Vec<String>,
        links: &mut K,
    ) -> Result<TwinDelivery<'c, 'p, F>, AllocError>
        requires pattern { pattern < length code.now.net.patterns }
        requires field { IsOfKind code.now.field F.SIZE F.BYTES F.MARK F.product }
        requires nothing_flies { K.flying links.old ≡ [] }
        requires some_first { 1 ≤ first_rate }
        requires some_second { first_rate < code.now.rate }
        requires outputs { vec_len outputs ≡ 2 * length code.now.net.sinks }
        ensures at_work { IfOk result (λ twin. twin.delivery.runner.code ≡ code.now) }
        ensures pattern { IfOk result (λ twin. twin.delivery.runner.pattern ≡ pattern) }
        ensures from_start { IfOk result (λ twin. twin.delivery.runner.next ≡ 0) }
        ensures works { IfOk result (λ twin. twin.delivery.runner.has_failed ≡ false) }
        ensures outputs { IfOk result (λ twin. twin.delivery.outputs ≡ outputs) }
        ensures first_path { IfOk result (λ twin. twin.first.path.now ≡ first.now) }
        ensures second_path { IfOk result (λ twin. twin.second.path.now ≡ second.now) }
        ensures first_rate { IfOk result (λ twin. twin.first.rate ≡ first_rate) }
        ensures first_unread { IfOk result (λ twin. IsUnread twin.first) }
        ensures second_unread { IfOk result (λ twin. IsUnread twin.second) }
        ensures sources { IfOk result (λ twin. AreSources twin.delivery twin.first twin.second) }
        ensures opened { OnOk result
            (K.moves (opened seed (room_for code.now) ∷ []) links.old links.new) }
        ensures refused { OnErr result
            (IsRefused K.moves seed (room_for code.now) links.old links.new) }
    {
        let window = window_for(code.code());
        let second_rate = code.code().rate - first_rate;
        let first = SourceReader::new(alloc, first, first_rate, window)?;
        let second = SourceReader::new(alloc, second, second_rate, window)?;
        let parts = Parts::Two(first_rate);
        let delivery = SourceDelivery::open_within(
            alloc, code, pattern, seed, parts, outputs, window, links,
        )?;
        Ok(TwinDelivery {
            delivery,
            first,
            second,
        })
    }

    // How many blocks of two sources are carried next: a window of them, or the last ones, once both sources have ended.
    fn twin_blocks(&self, first: &SourceReader<'_>, second: &SourceReader<'_>) -> usize
        requires { AreSources self.now first.now second.now }
        ensures window { ¬ HaveEnded first.now second.now → result ≡ self.now.window }
        ensures last { HaveEnded first.now second.now
            → result ≡ max (first.now.held / capacity first.now.rate)
            (second.now.held / capacity second.now.rate) + 1 }
    {
        if !have_ended(first, second) {
            return self.window;
        }
        let front = first.held / cap(first.rate) as usize;
        let rest = second.held / cap(second.rate) as usize;
        front.max(rest) + 1
    }

    // How much was sent of two sources of so many bytes.
    fn twin_counts(&self, first: &SourceReader<'_>, second: &SourceReader<'_>) -> TwinCounts
        requires { AreSources self.now first.now second.now }
        ensures { (one two : List ℕ) → length one ≡ first.now.at → length two ≡ second.now.at
            → AreTwinCounts self.now.runner.code first.now.rate second.now.rate one two result }
    {
        let first_bytes = first.at;
        let second_bytes = second.at;
        let front = first_bytes / u64::from(cap(first.rate));
        let rest = second_bytes / u64::from(cap(second.rate));
        TwinCounts {
            first: first_bytes,
            second: second_bytes,
            generations: front.max(rest) + 1,
            sinks: self.sinks() as u64,
        }
    }
}

impl<'c, F: Field + Send + Sync> SourceDelivery<'c, F> {
    // Reads the next window of both sources, the first one first, and carries its blocks.
    fn carry_next<S: Store, K: Links, G: Gate + Sync, R: Threads + Sync>(
        &mut self,
        rt: &R,
        store: &mut S,
        links: &mut K,
        first: &mut SourceReader<'_>,
        second: &mut SourceReader<'_>,
        limit: u64,
        gate: &G,
    ) -> Result<(), StreamFault>
        requires limit { limit < last_place }
        requires sources { AreSources self.old first.old second.old }
        requires unended { ¬ HaveEnded first.old second.old }
        requires first_empty { first.old.held ≡ 0 }
        requires second_empty { second.old.held ≡ 0 }
        requires numbered { self.old.runner.next + most_blocks ≤ 2 ^ 32 }
        requires can { CanCarry self.old.runner (K.flying links.old) (K.room links.old) }
        requires made { (path : List ℕ) → Contains (paths_of self.old) path
            → S.made store.old path }
        ensures outputs { self.new.outputs ≡ self.old.outputs }
        ensures parts { self.new.parts ≡ self.old.parts }
        ensures window { self.new.window ≡ self.old.window }
        ensures first { IsSameReader first.old first.new }
        ensures second { IsSameReader second.old second.new }
        ensures first_empty { OnOk result (first.new.held ≡ 0) }
        ensures second_empty { OnOk result (second.new.held ≡ 0) }
        ensures gone_on { OnOk result (HasGoneOn self.old.runner self.new.runner) }
        ensures more { OnOk result (self.old.runner.next < self.new.runner.next) }
        ensures can { OnOk result
            (CanCarry self.new.runner (K.flying links.new) (K.room links.new)) }
        ensures carried { OnOk result
            (MakesBoth S.Store K.Links store.old store.new links.old links.new
            (GoesOnTwin (K.faithful links.old) self.old.runner.code self.old.runner.pattern
            (outputs_in self.old) (source_of first.old) (source_of second.old) limit self.old.runner.next self.new.runner.next
            first.old second.old first.new second.new)) }
        ensures stopped { IfErr result (λ why.
            MakesBoth S.Store K.Links store.old store.new links.old links.new
            (EndsTwin (K.faithful links.old) self.old.runner.code self.old.runner.pattern
            (outputs_in self.old) (source_of first.old) (source_of second.old) limit self.old.runner.next first.old second.old why)) }
    {
        first.fill(store, limit)?;
        second.fill(store, limit)?;
        let count = self.twin_blocks(first, second);
        cut_twin_blocks(
            &first.bytes[..first.held],
            first.rate,
            &second.bytes[..second.held],
            second.rate,
            count,
            &mut self.blocks,
        );
        first.held = 0;
        second.held = 0;
        self.carry_blocks(rt, store, links, count, gate)?;
        Ok(())
    }

    /// Reads two sources from their starts, in turn and the first one first, and carries their blocks window by window as they
    /// come: each block has the rows of the first source and then those of the second. What comes of them is added to the
    /// sinks' files, generation by generation, in each of them sink by sink, the file of the first source and then that of
    /// the second. A source that has ended isn't read again. It takes no memory.
    pub fn stream_two<S: Store, K: Links, G: Gate + Sync, R: Threads + Sync>(
        &mut self,
        rt: &R,
        store: &mut S,
        links: &mut K,
        first: &mut SourceReader<'_>,
        second: &mut SourceReader<'_>,
        limit: u64,
        gate: &G,
    ) -> Result<TwinCounts, StreamFault>
        requires limit { limit < last_place }
        requires sources { AreSources self.old first.old second.old }
        requires from_start { self.old.runner.next ≡ 0 }
        requires first_unread { IsUnread first.old }
        requires second_unread { IsUnread second.old }
        requires can { CanCarry self.old.runner (K.flying links.old) (K.room links.old) }
        requires made { (path : List ℕ) → Contains (paths_of self.old) path
            → S.made store.old path }
        ensures all { IfOk result (λ counts.
            MakesBoth S.Store K.Links store.old store.new links.old links.new
            (StreamsBoth (K.faithful links.old) self.old.runner.code self.old.runner.pattern
            (outputs_in self.old) (source_of first.old) (source_of second.old) limit
            counts)) }
        ensures stopped { IfErr result (λ why.
            MakesBoth S.Store K.Links store.old store.new links.old links.new
            (StopsTwin (K.faithful links.old) self.old.runner.code self.old.runner.pattern
            (outputs_in self.old) (source_of first.old) (source_of second.old) limit
            why)) }
    {
        while !have_ended(first, second) {
            self.carry_next(rt, store, links, first, second, limit, gate)?;
        }
        Ok(self.twin_counts(first, second))
    }
}
