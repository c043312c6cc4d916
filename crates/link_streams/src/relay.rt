//! A node that passes on what its streams hold, generation by generation.
ghost use Rattle.std.specs.Prelude.{◌≡◌, ◌≢◌, ◌*◌, ◌<◌, ℕ, All, Contains, IfOk, false, length, map, true};
ghost use Rattle.coded_traffic.specs.CodeBlocks.{IsBlockOf};
ghost use Rattle.coded_traffic.specs.Traffic.{Key, sum_of};
ghost use Rattle.generation_frame.specs.Blocks.{pieces, row_bytes};
ghost use Rattle.gf_tables.specs.Kind.{IsOfKind};
ghost use Rattle.link_streams.specs.Filled.{filled};
ghost use Rattle.link_streams.specs.Streams.{HasGeneration, IsStream};
ghost use Rattle.node_plans.specs.Plans.{IsPlan, operands_of};
ghost use Rattle.relay_core.specs.Core.{payload_of};
ghost use Rattle.relay_node.specs.Relay.{IsBegun, IsOut, IsSameInput, IsSameWork, has_input, input_at, is_complete, is_given};

use crate::{Frames, Stream, StreamList};
use code_checker::Checked;
use generation_frame::PIECES;
use gf_tables::Field;
use relay_node::Node;
use std::alloc::{AllocError, Global};
use std::marker::Model;

/// A node at work on one generation at a time, over the code's field. Contracts see its plan.
#[derive(Drop)]
pub struct Relay<F> {
    node: Node<F>,
}

impl<F> Model for Relay<F> {
    ghost use Rattle.node_plans.specs.declared.plan.Plan.{Plan};

    ghost Value = { Plan };

    ghost use Rattle.node_plans.specs.Plans.{IsPlan};

    ghost view = { λ relay. relay.node.plan };

    ghost invariant = { λ relay. IsPlan relay.node.plan };
}

impl<F: Field> Relay<F> {
    ghost use Rattle.link_streams.specs.Relaying.{originated, relayed};
    ghost use Rattle.link_streams.specs.Streams.{all_packets};
    ghost use Rattle.node_plans.specs.Plans.{plan_of};
    ghost use Rattle.node_program.specs.declared.code.Code.{Code};

    /// The relay of a node. `F` is the code's field. It takes all memory that the work needs.
    pub fn open(
        alloc: Global,
        code: &Checked,
        pattern: u32,
        node: u32,
    ) -> Result<Relay<F>, AllocError>
        requires pattern { pattern < length code.now.net.patterns }
        requires node { node < length code.now.net.nodes }
        requires field { IsOfKind code.now.field F.SIZE F.BYTES F.MARK F.product }
        ensures { IfOk result (λ plan. plan ≡ plan_of code.now pattern node) }
    {
        let node = Node::open(alloc, code, pattern, node)?;
        Ok(Relay { node })
    }

    /// Makes the frames of a generation out of the streams of the live links into a node that isn't the source: each payload
    /// is the sum, over the link's live operands, of the coefficient times that piece of the operand's stream.
    pub fn pass(&mut self, generation: u32, inputs: &StreamList, out: &mut Frames)
        requires relays { self.old.is_source ≡ false }
        requires links { map (λ stream. stream.link) inputs.now ≡ self.old.ins }
        requires whole { All (HasGeneration generation) inputs.now }
        requires opened { out.old.links ≡ self.old.outs }
        ensures plan { self.new ≡ self.old }
        ensures frames { (code : Code) (pattern node : ℕ) → self.old ≡ plan_of code pattern node
            → out.new ≡ relayed code pattern node (all_packets inputs.now) generation }
    {
        self.node.begin(generation, 1);
        for stream in inputs.as_slice() {
            accept_all(&mut self.node, stream, generation);
        }
        give_all(&mut self.node, out);
    }

    /// Makes the frames of a generation out of its block, at the source.
    pub fn originate(&mut self, generation: u32, block: &[u8], out: &mut Frames)
        requires source { self.old.is_source ≡ true }
        requires block { length block.now ≡ self.old.rate * row_bytes }
        requires opened { out.old.links ≡ self.old.outs }
        ensures plan { self.new ≡ self.old }
        ensures frames { (code : Code) (pattern node : ℕ) → self.old ≡ plan_of code pattern node
            → IsBlockOf code block.now
            → out.new ≡ originated code pattern node block.now generation }
    {
        self.node.begin(generation, 1);
        self.node.feed(generation, block);
        give_all(&mut self.node, out);
    }
}

// Takes the pieces of a generation in that a stream holds.
fn accept_all<F: Field>(node: &mut Node<F>, stream: &Stream, generation: u32)
    requires into { Contains node.old.plan.ins stream.now.link }
    requires begun { IsBegun node.old generation }
    requires whole { HasGeneration generation stream.now }
    requires none { (p : ℕ) → p < pieces
        → has_input node.old generation stream.now.link p ≡ false }
    ensures work { IsSameWork node.old node.new }
    ensures given { (key : Key) → IsOut node.old key
        → is_given node.new key ≡ is_given node.old key }
    ensures stream { IsStream stream.now }
    ensures came { (p : ℕ) → p < pieces
        → has_input node.new generation stream.now.link p ≡ true }
    ensures bytes { (p : ℕ) → p < pieces
        → input_at node.new generation stream.now.link p
        ≡ payload_of stream.now.packets
        (record { link = stream.now.link; generation = generation; piece = p }) }
    ensures others { (link p : ℕ) → Contains node.old.plan.ins link → p < pieces
        → link ≢ stream.now.link → IsSameInput node.old node.new generation link p }
{
    let first = generation as u64 * PIECES as u64;
    for place in first..first + PIECES as u64 {
        if let Some(packet) = stream.at(place) {
            node.accept(packet);
        }
    }
}

// Gives all that is due of the one generation that was begun, of which all operands came: link after link, and piece
// after piece.
fn give_all<F: Field>(node: &mut Node<F>, out: &mut Frames)
    requires plan { IsPlan node.old.plan }
    requires one { node.old.count ≡ 1 }
    requires complete { (link p : ℕ) → Contains node.old.plan.outs link → p < pieces
        → is_complete node.old (record { link = link; generation = node.old.first; piece = p })
        ≡ true }
    requires none { (key : Key) → IsOut node.old key → is_given node.old key ≡ false }
    requires opened { out.old.links ≡ node.old.plan.outs }
    ensures plan { node.new.plan ≡ node.old.plan }
    ensures frames { out.new ≡ filled node.old.plan.outs node.old.first
        (λ link p. sum_of node.old.plan.field (operands_of node.old.plan link)
        (λ operand. input_at node.old node.old.first operand.from p)) }
{
    for number in 0..out.frame_count() {
        if let Some(packet) = node.next_out() {
            out.write((number / PIECES) as u32, &packet);
        }
    }
}
