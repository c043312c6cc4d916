//! Nodes at work, whichever the field.
ghost use Rattle.std.specs.Prelude.{◌≡◌, slice_get};
ghost use Rattle.net_model.specs.Lists.{is_among};
ghost use Rattle.open_nodes.specs.Errors.{error_in, feed_error, packet_error};
ghost use Rattle.open_nodes.specs.NodeCalls.{AcceptsFrame, BeginsNode, FeedsNode, OpensNode, WritesNext, link_or_error};
ghost use Rattle.relay_node.specs.Relay.{is_begun};

use crate::CallError;
use crate::arguments::{is_window, packet_in, see_node};
use code_checker::Checked;
use generation_frame::{Accepted, FRAME, Packet, ROW, frame_of};
use gf_tables::{Field, FieldKind, Gf8, Gf9, Gf16};
use node_plans::Plan;
use relay_node::Node;
use std::alloc::Global;
use std::marker::Model;

/// A node over one of the fields.
#[derive(Drop)]
pub(crate) enum FieldNode {
    /// The field of 256 elements.
    Eight(Node<Gf8>),
    /// The other one of 256.
    Nine(Node<Gf9>),
    /// That of 65,536.
    Sixteen(Node<Gf16>),
}

/// A node of a code at work, over the field that the code has. Contracts see it as a node over any field.
#[derive(Drop)]
pub struct OpenNode {
    node: FieldNode,
}

impl Model for OpenNode {
    ghost use Rattle.relay_node.specs.Relay.{Relay};

    ghost Value = { Relay };

    ghost use Rattle.open_nodes.specs.Fields.{relay_of};

    ghost view = { λ n. relay_of n.node };
}

impl OpenNode {
    /// The node of a number under a pattern, before any generation. It takes all memory that the work needs.
    pub fn open(
        alloc: Global,
        code: &Checked,
        pattern: u32,
        node: u32,
    ) -> Result<OpenNode, CallError>
        ensures { OpensNode code.now pattern node result }
    {
        see_node(code, pattern, node)?;
        let node = match code.code().field {
            FieldKind::Eight => FieldNode::Eight(Node::open(alloc, code, pattern, node)?),
            FieldKind::Nine => FieldNode::Nine(Node::open(alloc, code, pattern, node)?),
            FieldKind::Sixteen => FieldNode::Sixteen(Node::open(alloc, code, pattern, node)?),
        };
        Ok(OpenNode { node })
    }

    // What the node does of the code.
    fn plan(&self) -> &Plan
        ensures { result.now ≡ self.now.plan }
    {
        match &self.node {
            FieldNode::Eight(node) => node.plan(),
            FieldNode::Nine(node) => node.plan(),
            FieldNode::Sixteen(node) => node.plan(),
        }
    }

    /// The live link into the node at a place, of those that rise.
    pub fn link_in(&self, place: u32) -> Result<u32, CallError>
        ensures { result ≡ link_or_error (slice_get self.now.plan.ins place) }
    {
        link_at(self.plan().ins.as_slice(), place)
    }

    /// The live link out of the node at a place, of those that rise.
    pub fn link_out(&self, place: u32) -> Result<u32, CallError>
        ensures { result ≡ link_or_error (slice_get self.now.plan.outs place) }
    {
        link_at(self.plan().outs.as_slice(), place)
    }

    /// Forgets what came and what was given, and begins these generations.
    pub fn begin(&mut self, first: u32, count: u32) -> Result<(), CallError>
        ensures { BeginsNode first count self.old self.new (error_in result) }
    {
        match &mut self.node {
            FieldNode::Eight(node) => begin(node, first, count),
            FieldNode::Nine(node) => begin(node, first, count),
            FieldNode::Sixteen(node) => begin(node, first, count),
        }
    }

    /// Takes in the block of a generation, at the source.
    pub fn feed(&mut self, generation: u32, block: &[u8]) -> Result<(), CallError>
        ensures { FeedsNode generation block.now self.old self.new (error_in result) }
    {
        match &mut self.node {
            FieldNode::Eight(node) => feed(node, generation, block),
            FieldNode::Nine(node) => feed(node, generation, block),
            FieldNode::Sixteen(node) => feed(node, generation, block),
        }
    }

    /// Takes a frame in that came on a link into the node, if its piece hasn't come before.
    pub fn accept(&mut self, frame: &[u8]) -> Result<Accepted, CallError>
        ensures { AcceptsFrame frame.now self.old self.new result }
    {
        match &mut self.node {
            FieldNode::Eight(node) => accept(node, frame),
            FieldNode::Nine(node) => accept(node, frame),
            FieldNode::Sixteen(node) => accept(node, frame),
        }
    }

    /// Writes the frame of the least packet that is due, by generation, link and piece, if there is any.
    pub fn next_out(&mut self, frame: &mut [u8]) -> Result<(), CallError>
        ensures { WritesNext frame.old frame.new self.old self.new (error_in result) }
    {
        match &mut self.node {
            FieldNode::Eight(node) => next_out(node, frame),
            FieldNode::Nine(node) => next_out(node, frame),
            FieldNode::Sixteen(node) => next_out(node, frame),
        }
    }
}

// The link at a place.
fn link_at(links: &[u32], place: u32) -> Result<u32, CallError>
    ensures { result ≡ link_or_error (slice_get links.now place) }
{
    match links.get(place as usize) {
        Some(link) => Ok(*link),
        None => Err(CallError::NoLink),
    }
}

// Begins generations.
fn begin<F: Field>(node: &mut Node<F>, first: u32, count: u32) -> Result<(), CallError>
    ensures { BeginsNode first count node.old node.new (error_in result) }
{
    if !is_window(first, count) {
        return Err(CallError::BadWindow);
    }
    node.begin(first, count);
    Ok(())
}

// Feeds a block.
fn feed<F: Field>(node: &mut Node<F>, generation: u32, block: &[u8]) -> Result<(), CallError>
    ensures { FeedsNode generation block.now node.old node.new (error_in result) }
{
    see_feed(node, generation, block)?;
    node.feed(generation, block);
    Ok(())
}

// Looks at a block that is to be fed.
fn see_feed<F: Field>(node: &Node<F>, generation: u32, block: &[u8]) -> Result<(), CallError>
    ensures { error_in result ≡ feed_error node.now generation block.now }
{
    if !node.plan().is_source {
        return Err(CallError::NotSource);
    }
    if !node.is_begun(generation) {
        return Err(CallError::NotBegun);
    }
    if block.len() != node.plan().rate as usize * ROW {
        return Err(CallError::BadLength);
    }
    if node.has_rows(generation) {
        return Err(CallError::Fed);
    }
    Ok(())
}

// Takes a frame in.
fn accept<F: Field>(node: &mut Node<F>, frame: &[u8]) -> Result<Accepted, CallError>
    ensures { AcceptsFrame frame.now node.old node.new result }
{
    let packet = packet_in(frame)?;
    see_packet(node, &packet)?;
    Ok(node.accept(&packet))
}

// Looks at a packet that came.
fn see_packet<F: Field>(node: &Node<F>, packet: &Packet) -> Result<(), CallError>
    ensures { error_in result ≡ packet_error (is_among node.now.plan.ins) (is_begun node.now) packet.now }
{
    if !node.takes(packet.link) {
        return Err(CallError::OtherLink);
    }
    if !node.is_begun(packet.generation) {
        return Err(CallError::NotBegun);
    }
    Ok(())
}

// Writes the next frame.
fn next_out<F: Field>(node: &mut Node<F>, frame: &mut [u8]) -> Result<(), CallError>
    ensures { WritesNext frame.old frame.new node.old node.new (error_in result) }
{
    if frame.len() != FRAME {
        return Err(CallError::BadLength);
    }
    match node.next_out() {
        Some(packet) => {
            frame.copy_from_slice(&frame_of(&packet));
            Ok(())
        }
        None => Err(CallError::NothingDue),
    }
}
