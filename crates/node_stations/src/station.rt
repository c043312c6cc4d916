//! A node with the sink at it.
ghost use Rattle.std.specs.Prelude.{◌≡◌, ◌<◌, ◌≤◌, ◌+◌, ◌^◌, Contains, IfOk, IfSome, OnErr, OnOk, length};
ghost use Rattle.generation_frame.specs.Blocks.{most_blocks, pieces};
ghost use Rattle.gf_tables.specs.Kind.{IsOfKind};
ghost use Rattle.node_plans.specs.Wired.{IsWiringOf};
ghost use Rattle.relay_node.specs.Relay.{IsBegun};
ghost use Rattle.sink_decoder.specs.Receiving as sinks;
ghost use Rattle.node_stations.specs.Delivering.{AtSink, NodeTakes, SinkTakes};
ghost use Rattle.node_stations.specs.Opening.{IsSinkOf};
ghost use Rattle.node_stations.specs.Passing.{FailsPassing, HasRoomAfter, Passes};

use crate::put_due;
use code_checker::Checked;
use field_rows::RowTables;
use generation_frame::Packet;
use gf_tables::Field;
use lif_outside::{Failed, Links};
use net_model::Demand;
use node_plans::LiveWiring;
use relay_node::Node;
use sink_decoder::Decoder;
use std::alloc::{AllocError, Global};
use std::sync::Arc;

/// A node at work, and the sink at it, where there is one.
#[derive(Drop)]
pub struct Station<F> {
    /// The node.
    pub node: Node<F>,
    /// The sink at it.
    pub sink: Option<Decoder<F>>,
}

impl<F: Field> Station<F> {
    ghost use Rattle.node_stations.specs.Opening.{IsBegunAt};
    ghost use Rattle.node_stations.specs.Table.{IsOpenedNode};
    ghost use Rattle.relay_node.specs.Relay.{HasNothing};

    /// The station of a node, before any generation: its sink is that of the node's demand, where the node is a sink.
    /// `F` is the code's field. It takes all memory that the work needs.
    pub fn open_with(
        alloc: Global,
        code: &Checked,
        pattern: u32,
        node: u32,
        wiring: &LiveWiring,
        tables: &Arc<RowTables>,
    ) -> Result<Station<F>, AllocError>
        requires pattern { pattern < length code.now.net.patterns }
        requires node { node < length code.now.net.nodes }
        requires field { IsOfKind code.now.field F.SIZE F.BYTES F.MARK F.product }
        requires wiring { IsWiringOf code.now pattern wiring.now }
        ensures node { IfOk result (λ station. IsOpenedNode code.now pattern node station.node) }
        ensures sink { IfOk result (λ station. IsSinkOf code.now pattern node station.sink) }
    {
        let sink = open_sink(alloc, code, pattern, node, wiring, tables)?;
        let node = Node::open_with(alloc, code, pattern, node, wiring, tables)?;
        Ok(Station { node, sink })
    }

    /// Forgets what came and what was given, and begins these generations.
    pub fn begin(&mut self, first: u32, count: u32)
        requires some_generations { 1 ≤ count }
        requires few_generations { count ≤ most_blocks }
        requires last { first + count ≤ 2 ^ 32 }
        ensures plan { self.new.node.plan ≡ self.old.node.plan }
        ensures first { self.new.node.first ≡ first }
        ensures count { self.new.node.count ≡ count }
        ensures nothing { HasNothing self.new.node }
        ensures sink { AtSink (IsBegunAt first count) self.old.sink self.new.sink }
    {
        self.node.begin(first, count);
        if let Some(sink) = &mut self.sink {
            sink.begin(first, count);
        }
    }

    /// Takes in a packet that came on a link into the node: the node does, and so does the sink, where it wants the link.
    pub fn deliver(&mut self, packet: &Packet)
        requires link { Contains self.old.node.plan.ins packet.now.link }
        requires begun { IsBegun self.old.node packet.now.generation }
        requires sink_begun { IfSome self.old.sink
            (λ sink. sinks.IsBegun sink packet.now.generation) }
        requires piece { packet.now.piece < pieces }
        ensures node { NodeTakes packet.now self.old.node self.new.node }
        ensures sink { AtSink (SinkTakes packet.now) self.old.sink self.new.sink }
    {
        self.node.accept(packet);
        if let Some(sink) = &mut self.sink {
            give_wanted(sink, packet);
        }
    }

    /// Takes in a packet that came on a link into the node, and puts what the node gives then. Where a put fails the
    /// packets before it were put.
    pub fn pass_on<K: Links>(&mut self, packet: &Packet, links: &mut K) -> Result<(), Failed>
        requires link { Contains self.old.node.plan.ins packet.now.link }
        requires begun { IsBegun self.old.node packet.now.generation }
        requires sink_begun { IfSome self.old.sink
            (λ sink. sinks.IsBegun sink packet.now.generation) }
        requires piece { packet.now.piece < pieces }
        requires room { HasRoomAfter K.Links links.old packet.now self.old.node }
        ensures sink { AtSink (SinkTakes packet.now) self.old.sink self.new.sink }
        ensures passed { OnOk result
            (Passes K.Links packet.now links.old links.new self.old.node self.new.node) }
        ensures failed { OnErr result
            (FailsPassing K.Links packet.now links.old links.new self.old.node self.new.node) }
    {
        self.deliver(packet);
        put_due(&mut self.node, links)
    }
}

// The sink at a node, where it is one.
fn open_sink<F: Field>(
    alloc: Global,
    code: &Checked,
    pattern: u32,
    node: u32,
    wiring: &LiveWiring,
    tables: &Arc<RowTables>,
) -> Result<Option<Decoder<F>>, AllocError>
    requires pattern { pattern < length code.now.net.patterns }
    requires node { node < length code.now.net.nodes }
    requires field { IsOfKind code.now.field F.SIZE F.BYTES F.MARK F.product }
    requires wiring { IsWiringOf code.now pattern wiring.now }
    ensures { IfOk result (λ sink. IsSinkOf code.now pattern node sink) }
{
    match wiring.sink_at(node) {
        Some(sink) => {
            let demand = Demand { sink, pattern };
            let sink = Decoder::open_with(alloc, code, demand, wiring.live(), tables)?;
            Ok(Some(sink))
        }
        None => Ok(None),
    }
}

// Gives a packet to a sink, where it wants the link.
fn give_wanted<F: Field>(sink: &mut Decoder<F>, packet: &Packet)
    requires begun { sinks.IsBegun sink.old packet.now.generation }
    requires piece { packet.now.piece < pieces }
    ensures { SinkTakes packet.now sink.old sink.new }
{
    if sink.wants(packet.link) {
        sink.accept(packet);
    }
}
