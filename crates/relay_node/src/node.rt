//! A node at work.
ghost use Rattle.std.specs.Prelude.{◌≡◌, ◌<◌, ◌≤◌, ◌+◌, ◌*◌, ◌^◌, ℕ, Contains, true, false, length, IfOk, IfSome, IsNone};
ghost use Rattle.generation_frame.specs.Blocks.{most_blocks, pieces, row_bytes};
ghost use Rattle.generation_frame.specs.Frames.{accepted};
ghost use Rattle.gf_tables.specs.Kind.{IsOfKind};
ghost use Rattle.net_model.specs.Limits.{most_links};
ghost use Rattle.node_plans.specs.Plans.{IsPlan, input_count, plan_of, sums_of};
ghost use Rattle.node_plans.specs.Wired.{HasPlaces, IsWiringOf};
ghost use Rattle.due_sums.specs.Waiting as waiting;
ghost use Rattle.due_sums.specs.Waiting.{AreSums};
ghost use Rattle.relay_node.specs.Relay.{IsNode};
ghost use Rattle.relay_node.specs.Summands.{summands_of};
ghost use Rattle.std.specs.Arc.{arc_value};

use crate::feeding::{have_come, take_rows};
use crate::summands::Summands;
use crate::summing::payload_of;
use code_checker::Checked;
use due_sums::DueSums;
use field_rows::RowTables;
use generation_frame::{Accepted, MOST_BLOCKS, Packet};
use gf_tables::Field;
use node_plans::{LiveWiring, PlaceTable, Plan, sum_table};
use node_program::Code;
use std::alloc::{AllocError, Global};
use std::marker::{Model, PhantomData};
use std::sync::Arc;

/// A node at work, over the code's field: it takes in the packets of the live links into it, and gives those of the live
/// links out of it. Contracts see its plan, which is all that it has of the code, the generations begun, what came, and
/// what was given.
#[derive(Drop)]
pub struct Node<F> {
    plan: Plan,
    places: Arc<PlaceTable>,
    tables: Arc<RowTables>,
    first: u32,
    count: u32,
    sums: DueSums,
    summands: Summands,
    of_field: PhantomData<F>,
}

impl<F> Model for Node<F> {
    ghost use Rattle.relay_node.specs.Relay.{Relay};

    ghost Value = { Relay };

    ghost use Rattle.std.specs.Arc.{arc_value};
    ghost use Rattle.std.specs.Prelude.{◌≡◌};
    ghost use Rattle.relay_node.specs.Relay.{IsNode};
    ghost use Rattle.relay_node.specs.Summands.{summands_of};

    ghost view = { λ n. record { plan = n.plan; first = n.first; count = n.count; sums = n.sums } };

    ghost invariant = { λ n. IsNode n.plan (arc_value n.places) n.first n.count n.sums
        × (n.summands ≡ summands_of n.plan) };
}

// What waits for the sums of a plan, before any generation, and the summands of each.
fn work_of(alloc: Global, plan: &Plan, places: &[u32]) -> Result<(DueSums, Summands), AllocError>
    requires plan { IsPlan plan.now }
    requires places { HasPlaces plan.now places.now }
    requires sums { AreSums (input_count plan.now) (sums_of plan.now) }
    requires few_links { length plan.now.ins ≤ most_links }
    ensures node { IfOk result (λ work. IsNode plan.now places.now 0 0 work.0) }
    ensures nothing { IfOk result (λ work. waiting.HasNothing work.0) }
    ensures summands { IfOk result (λ work. work.1 ≡ summands_of plan.now) }
{
    let sums = sum_table(alloc, plan, places)?;
    let sums = DueSums::new(alloc, plan.input_count(), sums, MOST_BLOCKS)?;
    let summands = Summands::of(alloc, plan, sums.sums())?;
    Ok((sums, summands))
}

// The plan of a node, with what waits for its sums and the summands of each.
fn planned(
    alloc: Global,
    code: &Code,
    pattern: u32,
    node: u32,
    wiring: &LiveWiring,
) -> Result<(Plan, DueSums, Summands), AllocError>
    requires pattern { pattern < length code.now.net.patterns }
    requires node { node < length code.now.net.nodes }
    requires wiring { IsWiringOf code.now pattern wiring.now }
    ensures plan { IfOk result (λ all. all.0 ≡ plan_of code.now pattern node) }
    ensures node { IfOk result (λ all. IsNode all.0 wiring.now.places 0 0 all.1) }
    ensures nothing { IfOk result (λ all. waiting.HasNothing all.1) }
    ensures summands { IfOk result (λ all. all.2 ≡ summands_of all.0) }
{
    let plan = wiring.plan(alloc, code, pattern, node)?;
    let (sums, summands) = work_of(alloc, &plan, wiring.places().as_slice())?;
    Ok((plan, sums, summands))
}

// The tables that all nodes of a code share, once more.
fn shared(
    places: &Arc<PlaceTable>,
    tables: &Arc<RowTables>,
) -> Result<(Arc<PlaceTable>, Arc<RowTables>), AllocError>
    ensures places { IfOk result (λ both. arc_value both.0 ≡ arc_value places.now) }
    ensures tables { IfOk result (λ both. arc_value both.1 ≡ arc_value tables.now) }
{
    let places = places.clone()?;
    let tables = tables.clone()?;
    Ok((places, tables))
}

impl<F: Field> Node<F> {
    ghost use Rattle.coded_traffic.specs.Traffic.{Key, Window, key_of, packet_of};
    ghost use Rattle.net_model.specs.Lists.{is_among};
    ghost use Rattle.node_plans.specs.Plans.{plan_of};
    ghost use Rattle.node_plans.specs.Wired.{IsWiringOf};
    ghost use Rattle.node_program.specs.declared.code.Code.{Code};
    ghost use Rattle.relay_node.specs.Relay.{Gains, Gives, HasNothing, IsBegun, IsDue, IsFed, TakesTraffic, has_input, has_rows, is_begun};

    /// The node of a number, before any generation, to which nothing came and which gave nothing. `F` is the code's field.
    /// It takes all memory that the work needs.
    pub fn open(
        alloc: Global,
        code: &Checked,
        pattern: u32,
        node: u32,
    ) -> Result<Node<F>, AllocError>
        requires pattern { pattern < length code.now.net.patterns }
        requires node { node < length code.now.net.nodes }
        requires field { IsOfKind code.now.field F.SIZE F.BYTES F.MARK F.product }
        ensures plan { IfOk result (λ opened. opened.plan ≡ plan_of code.now pattern node) }
        ensures first { IfOk result (λ opened. opened.first ≡ 0) }
        ensures count { IfOk result (λ opened. opened.count ≡ 0) }
        ensures nothing { IfOk result HasNothing }
    {
        let wiring = LiveWiring::of(alloc, code.code(), pattern)?;
        let tables = Arc::new(alloc, RowTables::new())?;
        Node::open_with(alloc, code, pattern, node, &wiring, &tables)
    }

    /// The same, where the wiring of the code under the pattern and the tables of products are at hand, so that the nodes
    /// of a code share them. It costs what the links at the node and their operands do.
    pub fn open_with(
        alloc: Global,
        code: &Checked,
        pattern: u32,
        node: u32,
        wiring: &LiveWiring,
        tables: &Arc<RowTables>,
    ) -> Result<Node<F>, AllocError>
        requires pattern { pattern < length code.now.net.patterns }
        requires node { node < length code.now.net.nodes }
        requires field { IsOfKind code.now.field F.SIZE F.BYTES F.MARK F.product }
        requires wiring { IsWiringOf code.now pattern wiring.now }
        ensures plan { IfOk result (λ opened. opened.plan ≡ plan_of code.now pattern node) }
        ensures first { IfOk result (λ opened. opened.first ≡ 0) }
        ensures count { IfOk result (λ opened. opened.count ≡ 0) }
        ensures nothing { IfOk result HasNothing }
    {
        let (places, tables) = shared(wiring.places(), tables)?;
        let (plan, sums, summands) = planned(alloc, code.code(), pattern, node, wiring)?;
        Ok(Node {
            plan,
            places,
            tables,
            first: 0,
            count: 0,
            sums,
            summands,
            of_field: PhantomData,
        })
    }

    /// What the node does of the code.
    pub fn plan(&self) -> &Plan
        ensures { result.now ≡ self.now.plan }
    {
        &self.plan
    }

    /// Whether a generation was begun.
    pub fn is_begun(&self, generation: u32) -> bool
        ensures { result ≡ is_begun self.now generation }
    {
        self.first <= generation && generation - self.first < self.count
    }

    /// Whether a link is one of the live links into the node.
    pub fn takes(&self, link: u32) -> bool
        ensures { result ≡ is_among self.now.plan.ins link }
    {
        self.plan.ins.as_slice().contains(&link)
    }

    /// Whether a piece of a row of the block of a generation has come, at the source.
    pub fn has_rows(&self, generation: u32) -> bool
        requires source { self.now.plan.is_source ≡ true }
        requires begun { IsBegun self.now generation }
        ensures { result ≡ has_rows self.now generation }
    {
        let generation = (generation - self.first) as usize;
        have_come(&self.sums, generation, self.plan.rate)
    }

    /// Forgets what came and what was given, and begins these generations.
    pub fn begin(&mut self, first: u32, count: u32)
        requires some_generations { 1 ≤ count }
        requires few_generations { count ≤ most_blocks }
        requires last { first + count ≤ 2 ^ 32 }
        ensures plan { self.new.plan ≡ self.old.plan }
        ensures first { self.new.first ≡ first }
        ensures count { self.new.count ≡ count }
        ensures nothing { HasNothing self.new }
    {
        self.sums.clear();
        self.first = first;
        self.count = count;
    }

    /// Takes in the block of a generation, at the source.
    pub fn feed(&mut self, generation: u32, block: &[u8])
        requires source { self.old.plan.is_source ≡ true }
        requires begun { IsBegun self.old generation }
        requires unfed { (row piece : ℕ) → row < self.old.plan.rate → piece < pieces
            → has_input self.old generation row piece ≡ false }
        requires block { length block.now ≡ self.old.plan.rate * row_bytes }
        ensures { IsFed generation block.now self.old self.new }
    {
        let generation = (generation - self.first) as usize;
        take_rows(&mut self.sums, generation, self.plan.rate, block);
    }

    /// Takes a packet in, if its piece hasn't come before.
    pub fn accept(&mut self, packet: &Packet) -> Accepted
        requires link { Contains self.old.plan.ins packet.now.link }
        requires begun { IsBegun self.old packet.now.generation }
        requires piece { packet.now.piece < pieces }
        ensures value { result
            ≡ accepted (has_input self.old packet.now.generation packet.now.link packet.now.piece) }
        ensures known { result ≡ Accepted.Known → self.new ≡ self.old }
        ensures new { result ≡ Accepted.New → Gains packet.now self.old self.new }
    {
        let input = self.plan.input_place(self.places.as_slice(), packet.link);
        let generation = (packet.generation - self.first) as usize;
        self.sums
            .accept(generation, input, packet.piece, &packet.payload)
    }

    /// Gives the least packet that is due, by generation, link and piece, if there is any. Where what came is the rows
    /// and the traffic of blocks through a code, it is a packet of that traffic.
    pub fn next_out(&mut self) -> Option<Packet>
        ensures given { IfSome result (λ packet. Gives packet self.old self.new) }
        ensures none { IsNone result → (key : Key) → ¬ IsDue self.old key }
        ensures same { IsNone result → self.new ≡ self.old }
        ensures traffic { IfSome result
            (λ packet. (code : Code) (pattern node : ℕ) (window : Window)
            → TakesTraffic code pattern node window self.old
            → packet ≡ packet_of code pattern window (key_of packet)) }
    {
        let due = self.sums.take_due(self.count)?;
        let summands = self.summands.at(due.sum);
        let payload = payload_of(&self.tables, self.plan.field, summands, &self.sums, due);
        Some(Packet {
            link: *self.plan.outs.at(due.sum as usize),
            generation: self.first + due.generation,
            piece: due.piece,
            payload,
        })
    }
}
