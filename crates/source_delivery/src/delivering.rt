//! A source that is carried over links to the sinks' files, window by window.
ghost use Rattle.std.specs.Prelude.{◌≡◌, ◌≤◌, ◌<◌, ◌+◌, ◌-◌, ◌*◌, ◌/◌, ◌^◌, ◌∷◌, ◌++◌, [], List, ℕ, Contains, length, map, slice_range, string_bytes, take, IfErr, IfOk, OnOk, OnErr, vec_len};
ghost use Rattle.std.specs.List.{concat};
ghost use Rattle.generation_frame.specs.Blocks.{block_count, capacity, most_blocks, most_rows, row_bytes};
ghost use Rattle.lif_outside.specs.Calls.{KeepsStore, MakesBoth, MakesCalls};
ghost use Rattle.lif_outside.specs.Limits.{last_place};
ghost use Rattle.lif_outside.specs.Moves.{Move};
ghost use Rattle.lif_outside.specs.FileCalls.{StopsWithin, appends_of, creates_of};
ghost use Rattle.lif_outside.specs.Sequences.{Are};
ghost use Rattle.source_delivery.specs.Carried.{blocks_from, file_block};
ghost use Rattle.source_delivery.specs.Delivering.{CanCarry, DeliversBlocks, DeliversSome, HasGoneOn, HasMoved, Interrupts, InterruptsBlocks, InterruptsBytes, IsBehind, StandIn};
ghost use Rattle.source_delivery.specs.Delivery.{AreCounts, outputs_in, paths_of};
ghost use Rattle.source_delivery.specs.Turns.{parts_from, turn_at, turns_from};
ghost use Rattle.relay_runner.specs.Carried.{HasCarriedBy, packets_given};
ghost use Rattle.relay_runner.specs.Decoding.{HasDecoded};

use crate::delivery::{DeliveryFault, SentCounts, SourceDelivery};
use crate::parts::Parts;
use generation_frame::{ROW, cap, counted, cut};
use gf_tables::Field;
use lif_outside::{Failed, Gate, Links, Store};
use std::thread::Threads;

// Cuts the block of a generation from bytes.
pub(crate) fn cut_block(bytes: &[u8], rate: u32, place: usize, block: &mut [u8])
    requires some_rate { 1 ≤ rate }
    requires low_rate { rate ≤ most_rows }
    requires few_blocks { place ≤ most_blocks }
    requires long { length block.old ≡ rate * row_bytes }
    ensures { block.new ≡ file_block bytes.now rate place }
{
    let capacity = cap(rate) as usize;
    let start = bytes.len().min(place * capacity);
    let end = bytes.len().min(start + capacity);
    cut(&bytes[start..end], block);
}

// Cuts bytes into so many blocks of a rate, which stand one after another from the beginning of the room on.
fn cut_blocks(bytes: &[u8], rate: u32, count: usize, blocks: &mut [u8])
    requires some_rate { 1 ≤ rate }
    requires low_rate { rate ≤ most_rows }
    requires few_blocks { count ≤ most_blocks }
    requires room { count * (rate * row_bytes) ≤ length blocks.old }
    ensures { take (count * (rate * row_bytes)) blocks.new
        ≡ concat (blocks_from bytes.now rate 0 count) }
{
    let size = rate as usize * ROW;
    for place in 0..count {
        let block = &mut blocks[place * size..place * size + size];
        cut_block(bytes, rate, place, block);
    }
}

impl<'c, F: Field> SourceDelivery<'c, F> {
    /// Creates each sink's file, in order.
    pub fn create_outputs<S: Store>(&self, store: &mut S) -> Result<(), Failed>
        ensures created { OnOk result (MakesCalls S.Store store.old store.new
            (Are (creates_of (paths_of self.now)))) }
        ensures failed { OnErr result (MakesCalls S.Store store.old store.new
            (StopsWithin (creates_of (paths_of self.now)))) }
    {
        for output in &self.outputs {
            store.create(output.as_str())?;
        }
        Ok(())
    }

    // Adds to a file the bytes that the rows of its source count in a block which its sink decodes, where there are any. The
    // block is given by its place in the window.
    fn append_decoded<S: Store>(
        &self,
        store: &mut S,
        file: usize,
        place: usize,
    ) -> Result<(), Failed>
        requires file { file < vec_len self.now.outputs }
        requires place { place < self.now.runner.count }
        requires few_blocks { self.now.runner.count ≤ most_blocks }
        requires decoded { HasDecoded self.now.runner }
        requires made { (path : List ℕ) → Contains (paths_of self.now) path
            → S.made store.old path }
        ensures kept { KeepsStore S.Store store.old store.new }
        ensures appended { OnOk result ((moves : List Move) → HasCarriedBy self.now.runner moves
            → MakesCalls S.Store store.old store.new (Are (appends_of (parts_from
            (outputs_in self.now) self.now.runner.code self.now.runner.pattern
            (packets_given moves) (self.now.runner.first + place) file 1 ∷ [])))) }
        ensures failed { OnErr result ((moves : List Move) → HasCarriedBy self.now.runner moves
            → MakesCalls S.Store store.old store.new (StopsWithin (appends_of (parts_from
            (outputs_in self.now) self.now.runner.code self.now.runner.pattern
            (packets_given moves) (self.now.runner.first + place) file 1 ∷ [])))) }
    {
        let sink = self.parts.sink(file);
        let block = self.runner.decoded_block(sink as u32, place as u32);
        let received = counted(self.parts.rows(file, block));
        if received.is_empty() {
            return Ok(());
        }
        store.append(self.outputs[file].as_str(), received)
    }

    // Adds to each sink's file what it decodes of a block that was carried.
    fn append_block<S: Store>(&self, store: &mut S, place: usize) -> Result<(), Failed>
        requires place { place < self.now.runner.count }
        requires few_blocks { self.now.runner.count ≤ most_blocks }
        requires decoded { HasDecoded self.now.runner }
        requires made { (path : List ℕ) → Contains (paths_of self.now) path
            → S.made store.old path }
        ensures still_made { (path : List ℕ) → Contains (paths_of self.now) path
            → S.made store.new path }
        ensures appended { OnOk result ((moves : List Move) → HasCarriedBy self.now.runner moves
            → MakesCalls S.Store store.old store.new (Are (appends_of (turn_at
            (outputs_in self.now) self.now.runner.code self.now.runner.pattern
            (packets_given moves) (self.now.runner.first + place) ∷ [])))) }
        ensures failed { OnErr result ((moves : List Move) → HasCarriedBy self.now.runner moves
            → MakesCalls S.Store store.old store.new (StopsWithin (appends_of (turn_at
            (outputs_in self.now) self.now.runner.code self.now.runner.pattern
            (packets_given moves) (self.now.runner.first + place) ∷ [])))) }
    {
        for file in 0..self.outputs.len() {
            self.append_decoded(store, file, place)?;
        }
        Ok(())
    }

    // Adds to each sink's file what it decodes of the blocks that were carried, block by block.
    fn append_window<S: Store>(&self, store: &mut S, count: usize) -> Result<(), Failed>
        requires all { count ≡ self.now.runner.count }
        requires few_blocks { count ≤ most_blocks }
        requires decoded { HasDecoded self.now.runner }
        requires made { (path : List ℕ) → Contains (paths_of self.now) path
            → S.made store.old path }
        ensures appended { OnOk result ((moves : List Move) → HasCarriedBy self.now.runner moves
            → MakesCalls S.Store store.old store.new (Are (appends_of (turns_from
            (outputs_in self.now) self.now.runner.code self.now.runner.pattern
            (packets_given moves) self.now.runner.first count)))) }
        ensures failed { OnErr result ((moves : List Move) → HasCarriedBy self.now.runner moves
            → MakesCalls S.Store store.old store.new (StopsWithin (appends_of (turns_from
            (outputs_in self.now) self.now.runner.code self.now.runner.pattern
            (packets_given moves) self.now.runner.first count)))) }
    {
        for place in 0..count {
            self.append_block(store, place)?;
        }
        Ok(())
    }

    // How many bytes of the source the blocks of a window have room for.
    fn window_bytes(&self) -> usize
        ensures { result ≡ self.now.window * capacity self.now.runner.code.rate }
    {
        self.window * cap(self.rate) as usize
    }

    // Gathers as many bytes as a window still has room for, from a place on, and answers the place behind them.
    fn fill(&mut self, bytes: &[u8], from: usize) -> usize
        requires from { from < length bytes.now }
        requires room { vec_len self.old.gathered
            < self.old.window * capacity self.old.runner.code.rate }
        ensures runner { self.new.runner ≡ self.old.runner }
        ensures outputs { self.new.outputs ≡ self.old.outputs }
        ensures parts { self.new.parts ≡ self.old.parts }
        ensures window { self.new.window ≡ self.old.window }
        ensures more { from < result }
        ensures within { result ≤ length bytes.now }
        ensures gathered { self.new.gathered.items
            ≡ self.old.gathered.items ++ slice_range bytes.now from result }
    {
        let room = self.window_bytes() - self.gathered.len();
        let end = bytes.len().min(from + room);
        let Ok(()) = self.gathered.extend_from_slice(&bytes[from..end]) else {
            unreachable!()
        };
        end
    }

    // How many sinks there are.
    pub(crate) fn sinks(&self) -> usize
        ensures { result ≡ length self.now.runner.code.net.sinks }
    {
        match self.parts {
            Parts::One => self.outputs.len(),
            Parts::Two(_) => self.outputs.len() / 2,
        }
    }

    /// How much was sent of a source of so many bytes.
    pub(crate) fn counts(&self, bytes: u64) -> SentCounts
        requires { bytes ≤ last_place }
        ensures { (source : List ℕ) → length source ≡ bytes
            → AreCounts self.now.runner.code source result }
    {
        SentCounts {
            bytes,
            generations: bytes / u64::from(cap(self.rate)) + 1,
            sinks: self.sinks() as u64,
        }
    }
}

impl<'c, F: Field + Send + Sync> SourceDelivery<'c, F> {
    // Carries so many blocks over the links, which stand in the room for those of a window, and adds what comes of them to each
    // sink's file.
    pub(crate) fn carry_blocks<S: Store, K: Links, G: Gate + Sync, R: Threads + Sync>(
        &mut self,
        rt: &R,
        store: &mut S,
        links: &mut K,
        count: usize,
        gate: &G,
    ) -> Result<(), DeliveryFault>
        requires some_blocks { 1 ≤ count }
        requires few_blocks { count ≤ self.old.window }
        requires can { CanCarry self.old.runner (K.flying links.old) (K.room links.old) }
        requires numbered { self.old.runner.next + count ≤ 2 ^ 32 }
        requires made { (path : List ℕ) → Contains (paths_of self.old) path
            → S.made store.old path }
        ensures outputs { self.new.outputs ≡ self.old.outputs }
        ensures parts { self.new.parts ≡ self.old.parts }
        ensures window { self.new.window ≡ self.old.window }
        ensures gathered { self.new.gathered ≡ self.old.gathered }
        ensures moved { OnOk result (HasMoved count self.old.runner self.new.runner) }
        ensures can { OnOk result
            (CanCarry self.new.runner (K.flying links.new) (K.room links.new)) }
        ensures delivered { OnOk result ((blocks : List (List ℕ))
            → StandIn self.old.runner.code count blocks self.old.blocks.items
            → MakesBoth S.Store K.Links store.old store.new links.old links.new
            (DeliversBlocks (K.faithful links.old) self.old.runner.code self.old.runner.pattern
            (outputs_in self.old) self.old.runner.next blocks Are)) }
        ensures interrupted { IfErr result (λ fault. (blocks : List (List ℕ))
            → StandIn self.old.runner.code count blocks self.old.blocks.items
            → MakesBoth S.Store K.Links store.old store.new links.old links.new
            (InterruptsBlocks (K.faithful links.old) self.old.runner.code self.old.runner.pattern
            (outputs_in self.old) self.old.runner.next blocks fault)) }
    {
        let window = &self.blocks[..count * (self.rate as usize * ROW)];
        let Ok(()) = self.runner.carry(window, links) else {
            return Err(DeliveryFault::Links);
        };
        self.runner.decode_all(rt, gate);
        match self.append_window(store, count) {
            Ok(()) => Ok(()),
            Err(_) => Err(DeliveryFault::Write),
        }
    }

    // Carries what was gathered over the links, as so many blocks, and adds what comes of them to each sink's file.
    fn carry_gathered<S: Store, K: Links, G: Gate + Sync, R: Threads + Sync>(
        &mut self,
        rt: &R,
        store: &mut S,
        links: &mut K,
        count: usize,
        gate: &G,
    ) -> Result<(), DeliveryFault>
        requires some_blocks { 1 ≤ count }
        requires few_blocks { count ≤ self.old.window }
        requires can { CanCarry self.old.runner (K.flying links.old) (K.room links.old) }
        requires numbered { self.old.runner.next + count ≤ 2 ^ 32 }
        requires made { (path : List ℕ) → Contains (paths_of self.old) path
            → S.made store.old path }
        ensures outputs { self.new.outputs ≡ self.old.outputs }
        ensures parts { self.new.parts ≡ self.old.parts }
        ensures window { self.new.window ≡ self.old.window }
        ensures moved { OnOk result (HasMoved count self.old.runner self.new.runner) }
        ensures can { OnOk result
            (CanCarry self.new.runner (K.flying links.new) (K.room links.new)) }
        ensures nothing { OnOk result (self.new.gathered.items ≡ []) }
        ensures delivered { OnOk result
            (MakesBoth S.Store K.Links store.old store.new links.old links.new
            (DeliversBlocks (K.faithful links.old) self.old.runner.code self.old.runner.pattern
            (outputs_in self.old) self.old.runner.next
            (blocks_from self.old.gathered.items self.old.runner.code.rate 0 count) Are)) }
        ensures interrupted { IfErr result (λ fault.
            MakesBoth S.Store K.Links store.old store.new links.old links.new
            (InterruptsBlocks (K.faithful links.old) self.old.runner.code self.old.runner.pattern
            (outputs_in self.old) self.old.runner.next
            (blocks_from self.old.gathered.items self.old.runner.code.rate 0 count) fault)) }
    {
        cut_blocks(&self.gathered, self.rate, count, &mut self.blocks);
        self.gathered.clear();
        self.carry_blocks(rt, store, links, count, gate)
    }

    // Carries what was gathered, where that fills a window.
    fn carry_full<S: Store, K: Links, G: Gate + Sync, R: Threads + Sync>(
        &mut self,
        rt: &R,
        store: &mut S,
        links: &mut K,
        gate: &G,
    ) -> Result<(), DeliveryFault>
        requires can { CanCarry self.old.runner (K.flying links.old) (K.room links.old) }
        requires numbered { self.old.runner.next + 4 ≤ 2 ^ 32 }
        requires made { (path : List ℕ) → Contains (paths_of self.old) path
            → S.made store.old path }
        ensures outputs { self.new.outputs ≡ self.old.outputs }
        ensures parts { self.new.parts ≡ self.old.parts }
        ensures window { self.new.window ≡ self.old.window }
        ensures gone_on { OnOk result (HasGoneOn self.old.runner self.new.runner) }
        ensures can { OnOk result
            (CanCarry self.new.runner (K.flying links.new) (K.room links.new)) }
        ensures room { OnOk result
            (vec_len self.new.gathered < self.old.window * capacity self.old.runner.code.rate) }
        ensures gathered { OnOk result (IsBehind self.old.runner.code.rate
            (self.new.runner.next - self.old.runner.next)
            self.old.gathered.items self.new.gathered.items) }
        ensures delivered { OnOk result
            (MakesBoth S.Store K.Links store.old store.new links.old links.new
            (DeliversBlocks (K.faithful links.old) self.old.runner.code self.old.runner.pattern
            (outputs_in self.old) self.old.runner.next
            (blocks_from self.old.gathered.items self.old.runner.code.rate 0
            (self.new.runner.next - self.old.runner.next)) Are)) }
        ensures full { OnErr result
            (self.old.window * capacity self.old.runner.code.rate
            ≤ length self.old.gathered.items) }
        ensures interrupted { IfErr result (λ fault.
            MakesBoth S.Store K.Links store.old store.new links.old links.new
            (InterruptsBlocks (K.faithful links.old) self.old.runner.code self.old.runner.pattern
            (outputs_in self.old) self.old.runner.next
            (blocks_from self.old.gathered.items self.old.runner.code.rate 0 self.old.window)
            fault)) }
    {
        if self.gathered.len() < self.window_bytes() {
            return Ok(());
        }
        self.carry_gathered(rt, store, links, self.window, gate)
    }

    /// Gathers bytes of the source behind those that were gathered, and carries each window of whole blocks that they
    /// fill.
    pub(crate) fn gather<S: Store, K: Links, G: Gate + Sync, R: Threads + Sync>(
        &mut self,
        rt: &R,
        store: &mut S,
        links: &mut K,
        bytes: &[u8],
        gate: &G,
    ) -> Result<(), DeliveryFault>
        requires room { vec_len self.old.gathered
            < self.old.window * capacity self.old.runner.code.rate }
        requires short { self.old.runner.next * capacity self.old.runner.code.rate
            + vec_len self.old.gathered + length bytes.now ≤ last_place }
        requires can { CanCarry self.old.runner (K.flying links.old) (K.room links.old) }
        requires made { (path : List ℕ) → Contains (paths_of self.old) path
            → S.made store.old path }
        ensures outputs { self.new.outputs ≡ self.old.outputs }
        ensures parts { self.new.parts ≡ self.old.parts }
        ensures window { self.new.window ≡ self.old.window }
        ensures gone_on { OnOk result (HasGoneOn self.old.runner self.new.runner) }
        ensures can { OnOk result
            (CanCarry self.new.runner (K.flying links.new) (K.room links.new)) }
        ensures room { OnOk result
            (vec_len self.new.gathered < self.old.window * capacity self.old.runner.code.rate) }
        ensures gathered { OnOk result (IsBehind self.old.runner.code.rate
            (self.new.runner.next - self.old.runner.next)
            (self.old.gathered.items ++ bytes.now) self.new.gathered.items) }
        ensures delivered { OnOk result
            (MakesBoth S.Store K.Links store.old store.new links.old links.new
            (DeliversBlocks (K.faithful links.old) self.old.runner.code self.old.runner.pattern
            (outputs_in self.old) self.old.runner.next
            (blocks_from (self.old.gathered.items ++ bytes.now) self.old.runner.code.rate 0
            (self.new.runner.next - self.old.runner.next)) Are)) }
        ensures interrupted { IfErr result (λ fault.
            MakesBoth S.Store K.Links store.old store.new links.old links.new
            (InterruptsBytes (K.faithful links.old) self.old.runner.code self.old.runner.pattern
            (outputs_in self.old) self.old.runner.next (self.old.gathered.items ++ bytes.now)
            (length (self.old.gathered.items ++ bytes.now) / capacity self.old.runner.code.rate)
            fault)) }
    {
        let mut place = 0;
        while place < bytes.len() {
            place = self.fill(bytes, place);
            self.carry_full(rt, store, links, gate)?;
        }
        Ok(())
    }

    /// Carries what was gathered, which is the end of the source, with a block that isn't full.
    pub(crate) fn carry_last<S: Store, K: Links, G: Gate + Sync, R: Threads + Sync>(
        &mut self,
        rt: &R,
        store: &mut S,
        links: &mut K,
        gate: &G,
    ) -> Result<(), DeliveryFault>
        requires room { vec_len self.old.gathered
            < self.old.window * capacity self.old.runner.code.rate }
        requires short { self.old.runner.next * capacity self.old.runner.code.rate
            + vec_len self.old.gathered ≤ last_place }
        requires can { CanCarry self.old.runner (K.flying links.old) (K.room links.old) }
        requires made { (path : List ℕ) → Contains (paths_of self.old) path
            → S.made store.old path }
        ensures outputs { self.new.outputs ≡ self.old.outputs }
        ensures parts { self.new.parts ≡ self.old.parts }
        ensures window { self.new.window ≡ self.old.window }
        ensures code { OnOk result (self.new.runner.code ≡ self.old.runner.code) }
        ensures delivered { OnOk result
            (MakesBoth S.Store K.Links store.old store.new links.old links.new
            (DeliversBlocks (K.faithful links.old) self.old.runner.code self.old.runner.pattern
            (outputs_in self.old) self.old.runner.next
            (blocks_from self.old.gathered.items self.old.runner.code.rate 0
            (block_count self.old.gathered.items self.old.runner.code.rate)) Are)) }
        ensures interrupted { IfErr result (λ fault.
            MakesBoth S.Store K.Links store.old store.new links.old links.new
            (InterruptsBlocks (K.faithful links.old) self.old.runner.code self.old.runner.pattern
            (outputs_in self.old) self.old.runner.next
            (blocks_from self.old.gathered.items self.old.runner.code.rate 0
            (block_count self.old.gathered.items self.old.runner.code.rate)) fault)) }
    {
        let count = self.gathered.len() / cap(self.rate) as usize + 1;
        self.carry_gathered(rt, store, links, count, gate)
    }

    /// Carries a source over the links, window by window, to the sinks' files, in each generation sink by sink.
    pub fn carry_source<S: Store, K: Links, G: Gate + Sync, R: Threads + Sync>(
        &mut self,
        rt: &R,
        store: &mut S,
        links: &mut K,
        source: &[u8],
        gate: &G,
    ) -> Result<SentCounts, DeliveryFault>
        requires short { length source.now ≤ last_place }
        requires from_start { self.old.runner.next ≡ 0 }
        requires nothing { self.old.gathered.items ≡ [] }
        requires can { CanCarry self.old.runner (K.flying links.old) (K.room links.old) }
        requires made { (path : List ℕ) → Contains (paths_of self.old) path
            → S.made store.old path }
        ensures counts { IfOk result (AreCounts self.old.runner.code source.now) }
        ensures delivered { OnOk result
            (MakesBoth S.Store K.Links store.old store.new links.old links.new
            (DeliversSome (K.faithful links.old) self.old.runner.code self.old.runner.pattern
            (outputs_in self.old) source.now (block_count source.now self.old.runner.code.rate))) }
        ensures interrupted { IfErr result (λ fault.
            MakesBoth S.Store K.Links store.old store.new links.old links.new
            (Interrupts (K.faithful links.old) self.old.runner.code self.old.runner.pattern
            (outputs_in self.old) source.now fault)) }
    {
        self.gather(rt, store, links, source, gate)?;
        self.carry_last(rt, store, links, gate)?;
        Ok(self.counts(source.len() as u64))
    }
}
