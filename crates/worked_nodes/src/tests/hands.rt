//! A node and a sink, of which a call is made only where it may be: that is looked at when it is made.
ghost use Rattle.std.specs.Prelude.{◌≡◌, ◌<◌, ◌≤◌, ◌+◌, ◌^◌, IfOk, true, length};
ghost use Rattle.generation_frame.specs.Blocks.{most_blocks};
ghost use Rattle.gf_tables.specs.Kind.{IsOfKind};
ghost use Rattle.node_plans.specs.Plans.{plan_of};
ghost use Rattle.relay_node.specs.Relay.{HasNothing};

use code_checker::{CheckRefusal, Checked};
use generation_frame::{Accepted, PIECES, Packet, ROW};
use gf_tables::Field;
use net_model::{Demand, LinkList};
use node_plans::{LiveWiring, Plan};
use node_program::Code;
use relay_node::Node;
use sink_decoder::Decoder;
use std::alloc::{AllocError, AllocFailed, Global};

/// What went wrong.
#[derive(Clone, Copy, Debug, PartialEq, Eq)]
pub(super) enum Wrong {
    /// There was too little memory.
    Memory,
    /// The code wasn't read or wasn't accepted.
    Code,
    /// A call may not be made.
    Call,
    /// A frame was there before.
    Known,
    /// A sink didn't get all of a block.
    NotWhole,
    /// Frames came to no end.
    Endless,
}

impl From<AllocError> for Wrong {
    fn from(_error: AllocError) -> Wrong {
        Wrong::Memory
    }
}

impl From<CheckRefusal> for Wrong {
    fn from(_refusal: CheckRefusal) -> Wrong {
        Wrong::Code
    }
}

impl<T: Drop> From<AllocFailed<T>> for Wrong {
    fn from(_error: AllocFailed<T>) -> Wrong {
        Wrong::Memory
    }
}

/// The numbers of generations that may be begun together.
#[derive(Clone, Copy)]
pub(super) struct Span {
    pub(super) first: u32,
    pub(super) count: u32,
    ghost some_generations: { 1 ≤ count },
    ghost few_generations: { count ≤ most_blocks },
    ghost last: { first + count ≤ 2 ^ 32 },
}

impl Span {
    /// So many generations from this one on.
    pub(super) fn of(first: u32, count: u32) -> Result<Span, Wrong> {
        if count == 0 || count > 4 || first as u64 + count as u64 > 1 << 32 {
            return Err(Wrong::Call);
        }
        Ok(Span { first, count })
    }

    // Whether a generation is one of them.
    fn has(self, generation: u32) -> bool
        ensures from_first { result ≡ true → self.first ≤ generation }
        ensures to_last { result ≡ true → generation < self.first + self.count }
    {
        generation >= self.first && generation - self.first < self.count
    }
}

// Feeds a source that has begun generations their blocks, which stand one after another.
fn feed_each<F: Field>(
    source: &mut Node<F>,
    span: Span,
    rate: u32,
    blocks: &[u8],
) -> Result<(), Wrong>
    requires source { source.old.plan.is_source ≡ true }
    requires rate { source.old.plan.rate ≡ rate }
    requires first { source.old.first ≡ span.first }
    requires count { source.old.count ≡ span.count }
    requires nothing { HasNothing source.old }
    ensures plan { source.new.plan ≡ source.old.plan }
    ensures first { source.new.first ≡ source.old.first }
    ensures count { source.new.count ≡ source.old.count }
{
    let mut rest = blocks;
    'each: for place in 0..span.count {
        match rest.split_at_checked(rate as usize * ROW) {
            Some((block, behind)) => {
                source.feed(span.first + place, block);
                rest = behind;
            }
            None => return Err(Wrong::Call),
        }
    }
    Ok(())
}

// What a node does of a code under a pattern.
fn planned(alloc: Global, code: &Code, pattern: u32, node: u32) -> Result<Plan, AllocError>
    requires pattern { pattern < length code.now.net.patterns }
    requires node { node < length code.now.net.nodes }
    ensures { IfOk result (λ plan. plan ≡ plan_of code.now pattern node) }
{
    let wiring = LiveWiring::of(alloc, code, pattern)?;
    wiring.plan(alloc, code, pattern, node)
}

/// A node that has begun generations.
#[derive(Drop)]
pub(super) struct Worker<F> {
    is_source: bool,
    rate: u32,
    ins: LinkList,
    span: Span,
    node: Node<F>,
    ghost of_source: { node.plan.is_source ≡ is_source },
    ghost of_rate: { node.plan.rate ≡ rate },
    ghost of_ins: { node.plan.ins ≡ ins },
    ghost from_first: { node.first ≡ span.first },
    ghost has_count: { node.count ≡ span.count },
}

impl<F: Field> Worker<F> {
    /// The node of a number, that has begun generations.
    pub(super) fn open(
        alloc: Global,
        code: &Checked,
        pattern: u32,
        node: u32,
        span: Span,
    ) -> Result<Worker<F>, Wrong>
        requires pattern { pattern < length code.now.net.patterns }
        requires node { node < length code.now.net.nodes }
        requires field { IsOfKind code.now.field F.SIZE F.BYTES F.MARK F.product }
    {
        let plan = planned(alloc, code.code(), pattern, node)?;
        let mut node = Node::open(alloc, code, pattern, node)?;
        node.begin(span.first, span.count);
        Ok(Worker {
            is_source: plan.is_source,
            rate: plan.rate,
            ins: plan.ins,
            span,
            node,
        })
    }

    /// Begins generations anew.
    pub(super) fn begin(&mut self, span: Span) {
        self.node.begin(span.first, span.count);
        self.span = span;
    }

    /// Begins generations anew, and takes in their blocks, which stand one after another.
    pub(super) fn feed(&mut self, span: Span, blocks: &[u8]) -> Result<(), Wrong> {
        if !self.is_source {
            return Err(Wrong::Call);
        }
        self.node.begin(span.first, span.count);
        self.span = span;
        feed_each(&mut self.node, span, self.rate, blocks)
    }

    /// Takes a packet in.
    pub(super) fn accept(&mut self, packet: &Packet) -> Result<Accepted, Wrong> {
        let comes_in = self.ins.as_slice().contains(&packet.link);
        if !comes_in || !self.span.has(packet.generation) || packet.piece as usize >= PIECES {
            return Err(Wrong::Call);
        }
        Ok(self.node.accept(packet))
    }

    /// Gives the least packet that is due.
    pub(super) fn next_out(&mut self) -> Option<Packet> {
        self.node.next_out()
    }
}

/// A sink that has begun generations, and the node at which it is.
#[derive(Drop)]
pub(super) struct Taker<F> {
    pub(super) at: u32,
    rate: u32,
    span: Span,
    sink: Decoder<F>,
    ghost of_rate: { sink.plan.rate ≡ rate },
    ghost from_first: { sink.first ≡ span.first },
    ghost has_count: { sink.count ≡ span.count },
}

impl<F: Field> Taker<F> {
    /// The sink of a demand, that has begun generations.
    pub(super) fn open(
        alloc: Global,
        code: &Checked,
        demand: Demand,
        span: Span,
    ) -> Result<Taker<F>, Wrong>
        requires sink { demand.sink < length code.now.net.sinks }
        requires pattern { demand.pattern < length code.now.net.patterns }
        requires field { IsOfKind code.now.field F.SIZE F.BYTES F.MARK F.product }
    {
        let at = *code.code().net.sinks.at(demand.sink as usize);
        let rate = code.code().rate;
        let mut sink = Decoder::open(alloc, code, demand)?;
        sink.begin(span.first, span.count);
        Ok(Taker {
            at,
            rate,
            span,
            sink,
        })
    }

    /// Begins generations anew.
    pub(super) fn begin(&mut self, span: Span) {
        self.sink.begin(span.first, span.count);
        self.span = span;
    }

    /// Whether the sink takes in what a link gives it.
    pub(super) fn wants(&self, link: u32) -> bool {
        self.sink.wants(link)
    }

    /// Takes a packet in.
    pub(super) fn accept(&mut self, packet: &Packet) -> Result<Accepted, Wrong> {
        if !self.sink.wants(packet.link)
            || !self.span.has(packet.generation)
            || packet.piece as usize >= PIECES
        {
            return Err(Wrong::Call);
        }
        Ok(self.sink.accept(packet))
    }

    /// The block of a generation, where all of it has come.
    pub(super) fn block(&self, alloc: Global, generation: u32) -> Result<Option<Vec<u8>>, Wrong> {
        if !self.span.has(generation) {
            return Err(Wrong::Call);
        }
        if !self.sink.is_whole(generation) {
            return Ok(None);
        }
        let mut block = vec![in alloc; 1; self.rate as usize * ROW]?;
        self.sink.block(generation, &mut block);
        Ok(Some(block))
    }

    // Whether the block of a generation, of which all has come, is this one.
    fn has(&self, alloc: Global, generation: u32, block: &[u8]) -> Result<bool, Wrong> {
        match self.block(alloc, generation)? {
            Some(found) => Ok(found.as_slice() == block),
            None => Err(Wrong::NotWhole),
        }
    }

    /// Whether the blocks of its generations, of which all has come, are these, which stand one after another.
    pub(super) fn decodes(&self, alloc: Global, blocks: &[u8]) -> Result<bool, Wrong> {
        let mut rest = blocks;
        for place in 0..self.span.count {
            match rest.split_at_checked(self.rate as usize * ROW) {
                Some((block, behind)) => {
                    if !self.has(alloc, self.span.first + place, block)? {
                        return Ok(false);
                    }
                    rest = behind;
                }
                None => return Ok(false),
            }
        }
        Ok(rest.is_empty())
    }
}
