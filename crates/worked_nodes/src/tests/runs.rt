//! The nodes and sinks of a code, of which each frame that a node gives is handed to the node that its link leads into.
ghost use Rattle.std.specs.Prelude.{◌<◌, length};
ghost use Rattle.gf_tables.specs.Kind.{IsOfKind};

use super::hands::{Span, Taker, Worker, Wrong};
use super::told::{Frame, Told, are_told};
use code_checker::Checked;
use generation_frame::{Accepted, PIECES, Packet, frame_of, read_frame};
use gf_tables::{Field, FieldKind, Gf8, Gf9, Gf16};
use net_model::{Demand, Link};
use std::alloc::Global;
use std::thread::Threads;
use test_support::codes::checked_of;

// More frames than the links of a code carry of 4 generations.
const MANY_FRAMES: usize = 8192 * 8 * 4 + 1;

/// Which of the frames that fly is handed over next.
#[derive(Clone, Copy, Debug, PartialEq, Eq)]
pub(super) enum Order {
    /// The one that was given last.
    Newest,
    /// The one that was given first.
    Oldest,
    /// One of those between, by the number of the turn.
    Mixed,
}

// All orders.
const ORDERS: &[Order] = &[Order::Newest, Order::Oldest, Order::Mixed];

/// A code at work: its nodes and its sinks, the frames given, in order, and those that fly.
#[derive(Drop)]
pub(super) struct Hands<F> {
    pub(super) workers: Vec<Worker<F>>,
    pub(super) takers: Vec<Taker<F>>,
    given: Vec<Frame>,
    flying: Vec<Frame>,
}

// Takes what a node gives, until nothing is due.
fn take_given<F: Field>(
    worker: &mut Worker<F>,
    given: &mut Vec<Frame>,
    flying: &mut Vec<Frame>,
) -> Result<(), Wrong> {
    for _ in 0..MANY_FRAMES {
        match worker.next_out() {
            Some(packet) => {
                if packet.piece as usize >= PIECES {
                    return Err(Wrong::Call);
                }
                let frame = frame_of(&packet);
                given.push(frame)?;
                flying.push(frame)?;
            }
            None => return Ok(()),
        }
    }
    Err(Wrong::Endless)
}

impl<F: Field> Hands<F> {
    /// No node and no sink.
    pub(super) fn new(alloc: Global) -> Hands<F> {
        Hands {
            workers: Vec::new(alloc),
            takers: Vec::new(alloc),
            given: Vec::new(alloc),
            flying: Vec::new(alloc),
        }
    }

    // Opens the nodes and sinks of a code, which begin generations.
    fn open(&mut self, alloc: Global, code: &Checked, pattern: u32, span: Span) -> Result<(), Wrong>
        requires pattern { pattern < length code.now.net.patterns }
        requires field { IsOfKind code.now.field F.SIZE F.BYTES F.MARK F.product }
    {
        for node in 0..code.code().net.nodes.len() as u32 {
            self.workers
                .push(Worker::open(alloc, code, pattern, node, span)?)?;
        }
        for sink in 0..code.code().net.sinks.len() as u32 {
            self.takers
                .push(Taker::open(alloc, code, Demand { sink, pattern }, span)?)?;
        }
        Ok(())
    }

    // Feeds the source its blocks, and takes what it gives.
    fn feed(&mut self, source: u32, span: Span, blocks: &[u8]) -> Result<(), Wrong> {
        match self.workers.get_mut(source as usize) {
            Some(worker) => {
                worker.feed(span, blocks)?;
                take_given(worker, &mut self.given, &mut self.flying)
            }
            None => Err(Wrong::Call),
        }
    }

    // Gives a packet to the sinks at a node, where they want it.
    fn give_to_sinks(&mut self, at: u32, packet: &Packet) -> Result<(), Wrong> {
        for taker in self.takers.iter_mut() {
            if taker.at == at
                && taker.wants(packet.link)
                && taker.accept(packet)? == Accepted::Known
            {
                return Err(Wrong::Known);
            }
        }
        Ok(())
    }

    // Gives a packet to a node, and takes what it gives.
    fn give_to_node(&mut self, at: u32, packet: &Packet) -> Result<(), Wrong> {
        match self.workers.get_mut(at as usize) {
            Some(worker) => {
                if worker.accept(packet)? == Accepted::Known {
                    return Err(Wrong::Known);
                }
                take_given(worker, &mut self.given, &mut self.flying)
            }
            None => Err(Wrong::Call),
        }
    }

    // Hands a frame to the node that its link leads into, and to the sink there, where it wants it.
    fn hand_over(&mut self, links: &[Link], frame: &Frame) -> Result<(), Wrong> {
        let Ok(packet) = read_frame(frame) else {
            return Err(Wrong::Call);
        };
        match links.get(packet.link as usize) {
            Some(link) => {
                self.give_to_sinks(link.head, &packet)?;
                self.give_to_node(link.head, &packet)
            }
            None => Err(Wrong::Call),
        }
    }

    // Hands frames over until none flies.
    fn hand_all(&mut self, links: &[Link], order: Order) -> Result<(), Wrong> {
        for turn in 0..MANY_FRAMES {
            let count = self.flying.len();
            if count == 0 {
                return Ok(());
            }
            let place = match order {
                Order::Newest => count - 1,
                Order::Oldest => 0,
                Order::Mixed => turn % count,
            };
            let frame = self.flying.remove(place);
            self.hand_over(links, &frame)?;
        }
        Err(Wrong::Endless)
    }

    // Whether each sink decodes these blocks.
    fn decodes(&self, alloc: Global, blocks: &[u8]) -> Result<bool, Wrong> {
        for taker in self.takers.iter() {
            if !taker.decodes(alloc, blocks)? {
                return Ok(false);
            }
        }
        Ok(true)
    }

    // Sends blocks through a code in an order, and says whether all is as told then.
    fn send(
        &mut self,
        alloc: Global,
        code: &Checked,
        told: &Told,
        span: Span,
        blocks: &[u8],
        order: Order,
    ) -> Result<bool, Wrong>
        requires pattern { told.now.pattern < length code.now.net.patterns }
        requires field { IsOfKind code.now.field F.SIZE F.BYTES F.MARK F.product }
    {
        let net = &code.code().net;
        self.open(alloc, code, told.pattern, span)?;
        self.feed(net.source, span, blocks)?;
        self.hand_all(net.links.as_slice(), order)?;
        Ok(
            self.takers.len() == told.sinks
                && self.decodes(alloc, blocks)?
                && are_told(&self.given, told, span),
        )
    }
}

// Whether all is as told where blocks are sent through a code in an order. `F` is the code's field.
fn comes_over<F: Field>(
    alloc: Global,
    code: &Checked,
    told: &Told,
    span: Span,
    blocks: &[u8],
    order: Order,
) -> Result<bool, Wrong>
    requires pattern { told.now.pattern < length code.now.net.patterns }
    requires field { IsOfKind code.now.field F.SIZE F.BYTES F.MARK F.product }
{
    let mut hands = Hands::<F>::new(alloc);
    hands.send(alloc, code, told, span, blocks, order)
}

// The same over whichever field is the code's.
#[tactic(auto, unfolding(gf_tables::specs::Product::product))]
fn comes(
    alloc: Global,
    code: &Checked,
    told: &Told,
    span: Span,
    blocks: &[u8],
    order: Order,
) -> Result<bool, Wrong> {
    if told.pattern as usize >= code.code().net.patterns.len() {
        return Err(Wrong::Call);
    }
    match code.code().field {
        FieldKind::Eight => comes_over::<Gf8>(alloc, code, told, span, blocks, order),
        FieldKind::Nine => comes_over::<Gf9>(alloc, code, told, span, blocks, order),
        FieldKind::Sixteen => comes_over::<Gf16>(alloc, code, told, span, blocks, order),
    }
}

// The first order in which something else comes of a code.
fn wrong_order_of(
    alloc: Global,
    code: &Checked,
    told: &Told,
    span: Span,
    blocks: &[u8],
) -> Result<Option<Order>, Wrong> {
    for &order in ORDERS {
        if !comes(alloc, code, told, span, blocks, order)? {
            return Ok(Some(order));
        }
    }
    Ok(None)
}

// The same of the code of a file.
fn wrong_order<R: Threads + Sync>(
    rt: &R,
    alloc: Global,
    told: &Told,
    span: Span,
    blocks: &[u8],
) -> Result<Option<Order>, Wrong> {
    match checked_of(rt, alloc, told.file) {
        Ok(code) => wrong_order_of(alloc, &code, told, span, blocks),
        Err(_) => Err(Wrong::Code),
    }
}

/// The first of these and the order in which something else comes of so many blocks from a number on, which stand one after
/// another.
pub(super) fn wrong_row<R: Threads + Sync>(
    rt: &R,
    alloc: Global,
    rows: &[Told],
    first: u32,
    count: u32,
    blocks: &[u8],
) -> Result<Option<(usize, Order)>, Wrong> {
    let span = Span::of(first, count)?;
    for (row, told) in rows.iter().enumerate() {
        if let Some(order) = wrong_order(rt, alloc, told, span, blocks)? {
            return Ok(Some((row, order)));
        }
    }
    Ok(None)
}

// Opens the nodes and sinks of a code over the field of 256 elements, under its first pattern.
#[tactic(auto, unfolding(gf_tables::specs::Product::product))]
fn open_code(
    alloc: Global,
    code: &Checked,
    span: Span,
    hands: &mut Hands<Gf8>,
) -> Result<(), Wrong> {
    if code.code().net.patterns.is_empty() {
        return Err(Wrong::Call);
    }
    match code.code().field {
        FieldKind::Eight => hands.open(alloc, code, 0, span),
        FieldKind::Nine | FieldKind::Sixteen => Err(Wrong::Call),
    }
}

/// The same of the code of a file.
pub(super) fn open_file<R: Threads + Sync>(
    rt: &R,
    alloc: Global,
    file: &[u8],
    span: Span,
    hands: &mut Hands<Gf8>,
) -> Result<(), Wrong> {
    match checked_of(rt, alloc, file) {
        Ok(code) => open_code(alloc, &code, span, hands),
        Err(_) => Err(Wrong::Code),
    }
}
