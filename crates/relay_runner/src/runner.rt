//! A code at work over links.
ghost use Rattle.std.specs.Prelude.{◌≡◌, ◌<◌, ◌≤◌, ◌+◌, ◌*◌, ◌∷◌, ℕ, [], List, IfErr, IfOk, OnErr, OnOk, Ok, Some, length, slice_get, slice_index_or, true, false, is_err};
ghost use Rattle.coded_traffic.specs.Traffic.{Window, room_for};
ghost use Rattle.generation_frame.specs.Blocks.{row_bytes};
ghost use Rattle.gf_tables.specs.Kind.{IsOfKind};
ghost use Rattle.lif_outside.specs.Calls.{MakesMoves};
ghost use Rattle.lif_outside.specs.Moves.{Move, open_refused, opened, took_none};
ghost use Rattle.node_stations.specs.Decoded.{decoded_of};
ghost use Rattle.node_stations.specs.Opening.{demand_of};
ghost use Rattle.relay_core.specs.Core.{Delivery, IsFaithful, RelayState};

use crate::decoding::{DecodedBlocks, decode_sinks, open_blocks};
use crate::running::step;
use crate::starting::start_window;
use crate::{LinkFault, Turn};
use code_checker::Checked;
use generation_frame::{MOST_BLOCKS, PIECES, ROW};
use gf_tables::Field;
use lif_outside::{Gate, Links};
use node_stations::{Station, open_stations, put_due};
use std::alloc::{AllocError, Global};
use std::marker::Model;
use std::thread::Threads;

/// How many frames may fly for each link: those of all pieces of a window.
const FRAMES: u32 = (MOST_BLOCKS * PIECES) as u32;

/// A code at work under one pattern, over links: one station for each node. Contracts see the code, the pattern, what the
/// nodes and sinks show, the window carried last, the number of the next generation, what the sinks decoded, and whether a
/// call has failed.
#[derive(Drop)]
pub struct Runner<'c, F> {
    code: &'c Checked,
    pattern: u32,
    stations: Vec<Station<F>>,
    first: u32,
    count: u32,
    next: u64,
    decoded: Vec<DecodedBlocks>,
    failed: bool,
}

impl<'c, F> Model for Runner<'c, F> {
    ghost use Rattle.relay_runner.specs.Running.{Running};

    ghost Value = { Running };

    ghost use Rattle.relay_runner.specs.Runner.{IsRunner};
    ghost use Rattle.node_stations.specs.Table.{relays_of, sinks_of};

    ghost view = { λ r. record {
      code = r.code.now;
      pattern = r.pattern;
      relays = relays_of r.stations.items;
      sinks = sinks_of r.stations.items;
      first = r.first;
      count = r.count;
      next = r.next;
      decoded = r.decoded.items;
      has_failed = r.failed;
    } };

    ghost invariant = { λ r. IsRunner r.code.now r.pattern
        (relays_of r.stations.items) (sinks_of r.stations.items) r.decoded.items r.failed };
}

impl<'c, F: Field> Runner<'c, F> {
    ghost use Rattle.relay_runner.specs.Carried.{CarriesWindow, HasCarriedBy, IsStopped, packets_given};
    ghost use Rattle.relay_runner.specs.Carrying.{Carries};
    ghost use Rattle.relay_runner.specs.Decoding.{HasDecoded};
    ghost use Rattle.relay_runner.specs.Runner.{IsRefused, IsSameWork};
    ghost use Rattle.relay_runner.specs.Running.{AreBlocks, CanStart, HasCarried, IsRunning, StandAt, Starts, count_in, window_from};
    ghost use Rattle.relay_runner.specs.Stepping.{Steps, StopsStepping};

    /// A runner of a code under a pattern, to which nothing came. It takes all memory that the work needs, and opens the
    /// links with the number given and room for the frames of a window of 4 generations. `F` is the code's field.
    pub fn open<K: Links>(
        alloc: Global,
        code: &'c Checked,
        pattern: u32,
        seed: u64,
        links: &mut K,
    ) -> Result<Runner<'c, F>, AllocError>
        requires pattern { pattern < length code.now.net.patterns }
        requires field { IsOfKind code.now.field F.SIZE F.BYTES F.MARK F.product }
        requires nothing_flies { K.flying links.old ≡ [] }
        ensures code { IfOk result (λ runner. runner.code ≡ code.now) }
        ensures pattern { IfOk result (λ runner. runner.pattern ≡ pattern) }
        ensures next { IfOk result (λ runner. runner.next ≡ 0) }
        ensures works { IfOk result (λ runner. runner.has_failed ≡ false) }
        ensures stand { IfOk result
            (λ runner. StandAt code.now pattern runner.relays runner.sinks []) }
        ensures opened { OnOk result (K.moves (opened seed (room_for code.now) ∷ [])
            links.old links.new) }
        ensures refused { OnErr result (IsRefused K.moves seed
            (room_for code.now) links.old links.new) }
    {
        let stations = open_stations(alloc, code, pattern)?;
        let decoded = open_blocks(alloc, code.code())?;
        links.open(alloc, seed, FRAMES * code.code().net.links.len() as u32)?;
        Ok(Runner {
            code,
            pattern,
            stations,
            first: 0,
            count: 0,
            next: 0,
            decoded,
            failed: false,
        })
    }

    /// Whether a call has answered `LinkFault`.
    pub fn has_failed(&self) -> bool
        ensures { result ≡ self.now.has_failed }
    {
        self.failed
    }

    /// One step of the run: a frame that flies is given to the node at its link's head, and to the sink there, where it wants
    /// it, and what the node gives then is put. `Quiet` is answered where nothing flies. It takes no memory.
    pub fn turn<K: Links>(&mut self, links: &mut K) -> Result<Turn, LinkFault>
        requires works { self.old.has_failed ≡ false }
        requires stand { StandAt self.old.code self.old.pattern self.old.relays self.old.sinks
            (K.flying links.old) }
        requires room { room_for self.old.code ≤ K.room links.old }
        ensures work { IsSameWork self.old self.new }
        ensures failed { self.new.has_failed ≡ is_err result }
        ensures moved { result ≡ Ok Turn.Moved
            → (window : Window) (run : List Delivery) (state : RelayState)
            → IsRunning self.old.code self.old.pattern window run self.old.relays self.old.sinks
            (K.flying links.old) state
            → Steps K.Links self.old.code self.old.pattern window run state links.old links.new
            self.new.relays self.new.sinks }
        ensures quiet { result ≡ Ok Turn.Quiet → K.flying links.old ≡ [] }
        ensures none { result ≡ Ok Turn.Quiet → K.moves (took_none ∷ []) links.old links.new }
        ensures same { result ≡ Ok Turn.Quiet → self.new ≡ self.old }
        ensures stopped { OnErr result
            ((window : Window) (run : List Delivery) (state : RelayState)
            → IsRunning self.old.code self.old.pattern window run self.old.relays self.old.sinks
            (K.flying links.old) state
            → StopsStepping K.Links self.old.code self.old.pattern window run state
            links.old links.new) }
    {
        match step(self.code.code(), &mut self.stations, links) {
            Ok(turn) => Ok(turn),
            Err(_) => {
                self.failed = true;
                Err(LinkFault)
            }
        }
    }

    // Carries the window that the stations have begun: what the source gives is put, and then turn follows turn until nothing
    // flies.
    fn run<K: Links>(&mut self, links: &mut K) -> Result<(), LinkFault>
        requires works { self.old.has_failed ≡ false }
        requires start { CanStart self.old }
        requires nothing_flies { K.flying links.old ≡ [] }
        requires room { room_for self.old.code ≤ K.room links.old }
        ensures work { IsSameWork self.old self.new }
        ensures failed { self.new.has_failed ≡ is_err result }
        ensures carried { OnOk result ((window : Window)
            → Starts self.old.code self.old.pattern window self.old.relays self.old.sinks
            → Carries K.Links self.old.code self.old.pattern window links.old links.new
            self.new.relays self.new.sinks) }
        ensures stopped { OnErr result ((window : Window)
            → Starts self.old.code self.old.pattern window self.old.relays self.old.sinks
            → MakesMoves K.Links links.old links.new
            (IsStopped (K.faithful links.old) self.old.code self.old.pattern window)) }
    {
        let source = self.code.code().net.source as usize;
        let Ok(()) = put_due(&mut self.stations[source].node, links) else {
            self.failed = true;
            return Err(LinkFault);
        };
        'turns: while let Turn::Moved = self.turn(links)? {}
        Ok(())
    }

    /// Carries 1 to 4 blocks, which stand one after another, under the next numbers: a run from the opening state to one where
    /// nothing flies. `LinkFault` comes only where the links' count rose, and then the run is over. It takes no memory.
    pub fn carry<K: Links>(&mut self, blocks: &[u8], links: &mut K) -> Result<(), LinkFault>
        requires works { self.old.has_failed ≡ false }
        requires blocks { AreBlocks self.old.code self.old.next blocks.now }
        requires nothing_flies { K.flying links.old ≡ [] }
        requires room { room_for self.old.code ≤ K.room links.old }
        ensures code { self.new.code ≡ self.old.code }
        ensures pattern { self.new.pattern ≡ self.old.pattern }
        ensures first { self.new.first ≡ self.old.next }
        ensures count { self.new.count ≡ count_in self.old.code blocks.now }
        ensures next { self.new.next ≡ self.old.next + count_in self.old.code blocks.now }
        ensures failed { self.new.has_failed ≡ is_err result }
        ensures carried { OnOk result (Carries K.Links self.old.code self.old.pattern
            (window_from self.old.code self.old.next blocks.now) links.old links.new
            self.new.relays self.new.sinks) }
        ensures sent { OnOk result (CarriesWindow K.Links
            (window_from self.old.code self.old.next blocks.now) links.old links.new self.new) }
        ensures whole { OnOk result (HasCarried self.new) }
        ensures quiet { OnOk result (K.flying links.new ≡ []) }
        ensures room { OnOk result (K.room links.new ≡ K.room links.old) }
        ensures seed { OnOk result (K.opened_with links.new ≡ K.opened_with links.old) }
        ensures stopped { OnErr result (MakesMoves K.Links links.old links.new
            (IsStopped (K.faithful links.old) self.old.code self.old.pattern
            (window_from self.old.code self.old.next blocks.now))) }
    {
        let first = self.next as u32;
        let count = start_window(self.code.code(), &mut self.stations, first, blocks);
        self.first = first;
        self.count = count;
        self.next += count as u64;
        self.run(links)
    }

    /// The block that a sink decoded, of those carried last, by its place. The sink is given by its place among the network's
    /// sinks.
    pub fn decoded_block(&self, sink: u32, place: u32) -> &[u8]
        requires decoded { HasDecoded self.now }
        requires sink { sink < length self.now.code.net.sinks }
        requires place { place < self.now.count }
        ensures size { length result.now ≡ self.now.code.rate * row_bytes }
        ensures value { (moves : List Move) → HasCarriedBy self.now moves
            → result.now ≡ decoded_of self.now.code (demand_of self.now.code self.now.pattern sink)
            (packets_given moves) (self.now.first + place) }
        ensures carried { (window : Window) (run : List Delivery) (state : RelayState)
            → IsRunning self.now.code self.now.pattern window run self.now.relays self.now.sinks
            [] state → IsFaithful run → result.now ≡ slice_index_or window.blocks place [] }
    {
        let size = self.code.code().rate as usize * ROW;
        self.decoded[sink as usize].block(place as usize, size)
    }

    /// Writes that block. It takes no memory.
    pub fn block(&self, sink: u32, place: u32, into: &mut [u8])
        requires decoded { HasDecoded self.now }
        requires sink { sink < length self.now.code.net.sinks }
        requires place { place < self.now.count }
        requires room { length into.old ≡ self.now.code.rate * row_bytes }
        ensures value { (moves : List Move) → HasCarriedBy self.now moves
            → into.new ≡ decoded_of self.now.code (demand_of self.now.code self.now.pattern sink)
            (packets_given moves) (self.now.first + place) }
        ensures carried { (window : Window) (run : List Delivery) (state : RelayState)
            → IsRunning self.now.code self.now.pattern window run self.now.relays self.now.sinks
            [] state → IsFaithful run → into.new ≡ slice_index_or window.blocks place [] }
    {
        into.copy_from_slice(self.decoded_block(sink, place));
    }
}

impl<'c, F: Field + Send + Sync> Runner<'c, F> {
    ghost use Rattle.relay_runner.specs.Decoding.{HasDecoded, with_decoded};
    ghost use Rattle.relay_runner.specs.Running.{HasCarried};

    /// Decodes the blocks carried last, at all sinks. The sinks are cut into at most four batches, each of which enters the gate
    /// before; the batches are done side by side. It takes no memory.
    pub fn decode_all<G: Gate + Sync, R: Threads + Sync>(&mut self, rt: &R, gate: &G)
        requires carried { HasCarried self.old }
        ensures decoded { HasDecoded self.new }
        ensures rest { self.new ≡ with_decoded self.old self.new.decoded }
    {
        decode_sinks(
            rt,
            self.code.code(),
            &self.stations,
            self.first,
            self.count,
            &mut self.decoded,
            gate,
        );
    }
}
