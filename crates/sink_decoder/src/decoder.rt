//! A sink at work.
ghost use Rattle.std.specs.Prelude.{◌≡◌, ◌<◌, ◌≤◌, ◌+◌, ◌*◌, ◌^◌, ◌==◌, ℕ, true, length, position, slice_get, IfOk};
ghost use Rattle.failure_patterns.specs.Demands.{number_of};
ghost use Rattle.generation_frame.specs.Blocks.{most_blocks, pieces, row_bytes};
ghost use Rattle.generation_frame.specs.Frames.{accepted};
ghost use Rattle.gf_tables.specs.Kind.{IsOfKind};
ghost use Rattle.net_model.specs.Demands.{demand_count};
ghost use Rattle.node_program.specs.CodeValue.{is_live_in};
ghost use Rattle.node_program.specs.Decoding.{IsAccepted};

use crate::decoding::{are_whole, decode_rows};
use crate::opening::{forget_all, live_among, none_held};
use code_checker::Checked;
use failure_patterns::number_of;
use field_rows::RowTables;
use generation_frame::{Accepted, Packet};
use gf_tables::{Field, FieldKind};
use held_rows::HeldRows;
use net_model::Demand;
use node_program::{LiveLinks, live_links};
use std::alloc::{AllocError, Global};
use std::marker::{Model, PhantomData};
use std::sync::Arc;

/// A sink at work, over the code's field: it takes in the packets of its decoder's links. Contracts see its plan, which
/// is all that it has of the code, the generations begun, and what came of each.
#[derive(Drop)]
pub struct Decoder<F> {
    field: FieldKind,
    rate: u32,
    links: Vec<u32>,
    live: Vec<bool>,
    entries: Vec<u32>,
    tables: Arc<RowTables>,
    first: u32,
    count: u32,
    came: Vec<HeldRows>,
    of_field: PhantomData<F>,
}

impl<F> Model for Decoder<F> {
    ghost use Rattle.sink_decoder.specs.Receiving.{Receiver};

    ghost Value = { Receiver };

    ghost use Rattle.sink_decoder.specs.Receiving.{IsReceiver, receiver_of};

    ghost view = { λ sink.
        receiver_of sink.field sink.rate sink.links.items sink.live.items sink.entries.items
        sink.first sink.count sink.came.items };

    ghost invariant = { λ sink.
        IsReceiver (receiver_of sink.field sink.rate sink.links.items sink.live.items
        sink.entries.items sink.first sink.count sink.came.items) };
}

// The place of a link among some links.
fn place_among(links: &[u32], link: u32) -> Option<usize>
    ensures { result ≡ position (λ one. one == link) links.now }
{
    links.iter().position(|one| *one == link)
}

impl<F: Field> Decoder<F> {
    ghost use Rattle.coded_traffic.specs.Traffic.{Window, block_at};
    ghost use Rattle.node_program.specs.declared.code.Code.{Code};
    ghost use Rattle.sink_decoder.specs.Receiving.{Gains, HasNothing, IsBegun, TakesTraffic, decoded, has_piece, is_begun, is_whole, sink_plan_of, wants};

    /// The sink of a demand, before any generation. `F` is the code's field. It takes all memory that the work needs.
    pub fn open(alloc: Global, code: &Checked, demand: Demand) -> Result<Decoder<F>, AllocError>
        requires sink { demand.sink < length code.now.net.sinks }
        requires pattern { demand.pattern < length code.now.net.patterns }
        requires field { IsOfKind code.now.field F.SIZE F.BYTES F.MARK F.product }
        ensures plan { IfOk result
            (λ sink. sink.plan ≡ sink_plan_of code.now (number_of code.now.net demand)) }
        ensures first { IfOk result (λ sink. sink.first ≡ 0) }
        ensures count { IfOk result (λ sink. sink.count ≡ 0) }
    {
        let live = live_links(alloc, code.code(), demand.pattern)?;
        let tables = Arc::new(alloc, RowTables::new())?;
        Decoder::open_with(alloc, code, demand, &live, &tables)
    }

    /// The same, where the table of live links under the demand's pattern and the tables of products are at hand, so that
    /// the sinks of a code share them.
    pub fn open_with(
        alloc: Global,
        code: &Checked,
        demand: Demand,
        live: &LiveLinks,
        tables: &Arc<RowTables>,
    ) -> Result<Decoder<F>, AllocError>
        requires sink { demand.sink < length code.now.net.sinks }
        requires pattern { demand.pattern < length code.now.net.patterns }
        requires field { IsOfKind code.now.field F.SIZE F.BYTES F.MARK F.product }
        requires live_count { length live.now ≡ length code.now.net.links }
        requires live { (e : ℕ) → e < length code.now.net.links
            → slice_get live.now e ≡ Some (is_live_in code.now demand.pattern e) }
        ensures plan { IfOk result
            (λ sink. sink.plan ≡ sink_plan_of code.now (number_of code.now.net demand)) }
        ensures first { IfOk result (λ sink. sink.first ≡ 0) }
        ensures count { IfOk result (λ sink. sink.count ≡ 0) }
    {
        let code = code.code();
        let decoder = code.decoders.at(number_of(&code.net, demand) as usize);
        let links = decoder.links.as_slice();
        Ok(Decoder {
            field: code.field,
            rate: code.rate,
            links: links.to_vec(alloc)?,
            live: live_among(alloc, links, live)?,
            entries: decoder.entries.as_slice().to_vec(alloc)?,
            tables: tables.clone()?,
            first: 0,
            count: 0,
            came: none_held(alloc, code.rate)?,
            of_field: PhantomData,
        })
    }

    /// The rate of the code, which is the number of the rows of a block.
    pub fn rate(&self) -> u32
        ensures { result ≡ self.now.plan.rate }
    {
        self.rate
    }

    /// Whether a generation was begun.
    pub fn is_begun(&self, generation: u32) -> bool
        ensures { result ≡ is_begun self.now generation }
    {
        self.first <= generation && generation - self.first < self.count
    }

    /// Forgets what came, and begins these generations.
    pub fn begin(&mut self, first: u32, count: u32)
        requires some_generations { 1 ≤ count }
        requires few_generations { count ≤ most_blocks }
        requires last { first + count ≤ 2 ^ 32 }
        ensures plan { self.new.plan ≡ self.old.plan }
        ensures first { self.new.first ≡ first }
        ensures count { self.new.count ≡ count }
        ensures nothing { HasNothing self.new }
    {
        forget_all(&mut self.came);
        self.first = first;
        self.count = count;
    }

    /// Whether the sink takes in what a link gives it: the link is live, and one of its decoder's.
    pub fn wants(&self, link: u32) -> bool
        ensures { result ≡ wants self.now.plan link }
    {
        match place_among(&self.links, link) {
            Some(place) => self.live[place],
            None => false,
        }
    }

    /// Takes a packet in, if its piece hasn't come before.
    pub fn accept(&mut self, packet: &Packet) -> Accepted
        requires wanted { wants self.old.plan packet.now.link ≡ true }
        requires begun { IsBegun self.old packet.now.generation }
        requires piece { packet.now.piece < pieces }
        ensures value { result ≡ accepted
            (has_piece self.old packet.now.generation packet.now.link packet.now.piece) }
        ensures known { result ≡ Accepted.Known → self.new ≡ self.old }
        ensures new { result ≡ Accepted.New
            → Gains packet.now.generation packet.now.link packet.now.piece packet.now.payload
            self.old self.new }
    {
        let place = place_among(&self.links, packet.link).unwrap_or(self.links.len());
        let at = (packet.generation - self.first) as usize;
        self.came[at].hold(place as u32, packet.piece, &packet.payload)
    }

    /// Whether all pieces of all wanted links have come.
    pub fn is_whole(&self, generation: u32) -> bool
        requires { IsBegun self.now generation }
        ensures { result ≡ is_whole self.now generation }
    {
        are_whole(&self.live, &self.came[(generation - self.first) as usize])
    }

    /// Writes the block that the decoder makes of what came, a link that isn't live counting as zeros. Where what came is
    /// the traffic of blocks through an accepted code, it is the block of that generation.
    pub fn block(&self, generation: u32, into: &mut [u8])
        requires begun { IsBegun self.now generation }
        requires whole { is_whole self.now generation ≡ true }
        requires room { length into.old ≡ self.now.plan.rate * row_bytes }
        ensures value { into.new ≡ decoded self.now generation }
        ensures traffic { (code : Code) (demand : ℕ) (window : Window) → IsAccepted code
            → demand < demand_count code.net
            → TakesTraffic code demand window self.now → into.new ≡ block_at window generation }
    {
        let held = &self.came[(generation - self.first) as usize];
        decode_rows(
            &self.tables,
            self.field,
            &self.entries,
            &self.live,
            held,
            into,
        );
    }
}
