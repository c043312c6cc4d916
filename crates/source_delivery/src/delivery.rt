//! A code at work over links, and the files of its sinks.
ghost use Rattle.std.specs.Prelude.{◌≡◌, ◌*◌, ◌<◌, ◌≤◌, ◌∷◌, [], IfOk, OnErr, OnOk, false, length, true, vec_capacity, vec_len};
ghost use Rattle.coded_traffic.specs.Traffic.{room_for};
ghost use Rattle.generation_frame.specs.Blocks.{capacity, most_blocks, row_bytes};
ghost use Rattle.gf_tables.specs.Kind.{IsOfKind};
ghost use Rattle.lif_outside.specs.Moves.{opened};
ghost use Rattle.relay_runner.specs.Runner.{IsRefused};
ghost use Rattle.source_delivery.specs.Parts.{files_of, is_split};
ghost use Rattle.source_delivery.specs.declared.parts.Parts.TheVariants.{One};

use crate::parts::Parts;
use code_checker::Checked;
use generation_frame::{MOST_BLOCKS, ROW, cap};
use gf_tables::Field;
use lif_outside::Links;
use node_program::Code;
use relay_runner::{LEAST_SINKS, Runner};
use std::alloc::{AllocError, Global};

/// Through how many links a window may go of which the frames that fly and the rows that are held stay in the nearest
/// caches: through more links fewer blocks are carried at a time.
const WINDOW_LINKS: usize = 256;

/// How many products of a row with an element, in all blocks of a window, take longer than the threads that decode it side
/// by side take to start.
const WINDOW_PRODUCTS: usize = 4096;

/// How much was sent.
#[derive(Drop)]
pub struct SentCounts {
    /// The length of the source.
    pub bytes: u64,
    /// The number of its blocks.
    pub generations: u64,
    /// The number of sinks.
    pub sinks: u64,
}

/// Why a delivery ended before all was delivered.
#[derive(Clone, Copy, Debug, PartialEq, Eq)]
pub enum DeliveryFault {
    /// A call on the links failed.
    Links,
    /// A sink's file couldn't be written.
    Write,
}

/// A code at work over links, and the files of its sinks.
#[derive(Drop)]
pub struct SourceDelivery<'c, F> {
    /// The rate of the code.
    pub rate: u32,
    /// The code at work under the pattern.
    pub runner: Runner<'c, F>,
    /// How the code's rows are shared among the sources.
    pub parts: Parts,
    /// The paths of the sinks' files, sink by sink.
    pub outputs: Vec<String>,
    /// How many blocks are carried at a time.
    pub window: usize,
    /// What was gathered of the source and isn't carried yet: as much as the blocks of a window have room for, at most.
    pub gathered: Vec<u8>,
    /// Room for the blocks of a window.
    pub blocks: Vec<u8>,
    ghost rate_of: { rate ≡ runner.code.rate },
    ghost split: { is_split parts runner.code.rate ≡ true },
    ghost files: { vec_len outputs ≡ files_of parts (length runner.code.net.sinks) },
    ghost some_blocks: { 1 ≤ window },
    ghost few_blocks: { window ≤ most_blocks },
    ghost few_bytes: { vec_len gathered ≤ window * capacity runner.code.rate },
    ghost room: { window * capacity runner.code.rate ≤ vec_capacity gathered },
    ghost blocks_length: { vec_len blocks ≡ window * (runner.code.rate * row_bytes) },
}

// How many blocks are worth the threads that decode them, where there are any: so many sinks decode rows of so many products.
fn worth_threads(sinks: usize, rate: usize) -> usize {
    if sinks < 2 * LEAST_SINKS {
        return 0;
    }
    WINDOW_PRODUCTS / sinks.saturating_mul(rate).saturating_mul(rate).max(1)
}

// How many blocks are carried at a time through so many links to so many sinks at a rate.
fn window_of(links: usize, sinks: usize, rate: usize) -> usize
    ensures some_blocks { 1 ≤ result }
    ensures few_blocks { result ≤ most_blocks }
{
    (WINDOW_LINKS / links.max(1))
        .max(worth_threads(sinks, rate))
        .clamp(1, MOST_BLOCKS)
}

// How many blocks of a code are carried at a time.
pub(crate) fn window_for(code: &Code) -> usize
    ensures some_blocks { 1 ≤ result }
    ensures few_blocks { result ≤ most_blocks }
{
    let net = &code.net;
    window_of(net.links.len(), net.sinks.len(), code.rate as usize)
}

impl<'c, F: Field> SourceDelivery<'c, F> {
    /// A code at work under a pattern on one source, and on the files of these paths, one for each sink. The links are opened
    /// last, with the number given. `F` is the code's field.
    pub fn open<K: Links>(
        alloc: Global,
        code: &'c Checked,
        pattern: u32,
        seed: u64,
        outputs: Vec<String>,
        links: &mut K,
    ) -> Result<SourceDelivery<'c, F>, AllocError>
        requires pattern { pattern < length code.now.net.patterns }
        requires field { IsOfKind code.now.field F.SIZE F.BYTES F.MARK F.product }
        requires nothing_flies { K.flying links.old ≡ [] }
        requires outputs { vec_len outputs ≡ length code.now.net.sinks }
        ensures at_work { IfOk result (λ delivery. delivery.runner.code ≡ code.now) }
        ensures pattern { IfOk result (λ delivery. delivery.runner.pattern ≡ pattern) }
        ensures from_start { IfOk result (λ delivery. delivery.runner.next ≡ 0) }
        ensures works { IfOk result (λ delivery. delivery.runner.has_failed ≡ false) }
        ensures parts { IfOk result (λ delivery. delivery.parts ≡ One) }
        ensures outputs { IfOk result (λ delivery. delivery.outputs ≡ outputs) }
        ensures nothing { IfOk result (λ delivery. delivery.gathered.items ≡ []) }
        ensures opened { OnOk result
            (K.moves (opened seed (room_for code.now) ∷ []) links.old links.new) }
        ensures refused { OnErr result
            (IsRefused K.moves seed (room_for code.now) links.old links.new) }
    {
        let window = window_for(code.code());
        let parts = Parts::One;
        SourceDelivery::open_within(alloc, code, pattern, seed, parts, outputs, window, links)
    }

    // So it is on as many sources, with a window of so many blocks.
    pub(crate) fn open_within<K: Links>(
        alloc: Global,
        code: &'c Checked,
        pattern: u32,
        seed: u64,
        parts: Parts,
        outputs: Vec<String>,
        window: usize,
        links: &mut K,
    ) -> Result<SourceDelivery<'c, F>, AllocError>
        requires pattern { pattern < length code.now.net.patterns }
        requires field { IsOfKind code.now.field F.SIZE F.BYTES F.MARK F.product }
        requires nothing_flies { K.flying links.old ≡ [] }
        requires split { is_split parts code.now.rate ≡ true }
        requires outputs { vec_len outputs ≡ files_of parts (length code.now.net.sinks) }
        requires some_blocks { 1 ≤ window }
        requires few_blocks { window ≤ most_blocks }
        ensures at_work { IfOk result (λ delivery. delivery.runner.code ≡ code.now) }
        ensures pattern { IfOk result (λ delivery. delivery.runner.pattern ≡ pattern) }
        ensures from_start { IfOk result (λ delivery. delivery.runner.next ≡ 0) }
        ensures works { IfOk result (λ delivery. delivery.runner.has_failed ≡ false) }
        ensures parts { IfOk result (λ delivery. delivery.parts ≡ parts) }
        ensures outputs { IfOk result (λ delivery. delivery.outputs ≡ outputs) }
        ensures window { IfOk result (λ delivery. delivery.window ≡ window) }
        ensures nothing { IfOk result (λ delivery. delivery.gathered.items ≡ []) }
        ensures opened { OnOk result
            (K.moves (opened seed (room_for code.now) ∷ []) links.old links.new) }
        ensures refused { OnErr result
            (IsRefused K.moves seed (room_for code.now) links.old links.new) }
    {
        let rate = code.code().rate;
        let gathered = Vec::with_capacity(alloc, window * cap(rate) as usize)?;
        let blocks = vec![in alloc; 0u8; window * (rate as usize * ROW)]?;
        let runner = Runner::open(alloc, code, pattern, seed, links)?;
        Ok(SourceDelivery {
            rate,
            runner,
            parts,
            outputs,
            window,
            gathered,
            blocks,
        })
    }
}
