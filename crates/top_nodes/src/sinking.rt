//! The command `sink`.
ghost use Rattle.std.specs.Prelude.{◌≡◌, ◌⊎◌, ◌∷◌, ◌*◌, ◌<◌, ◌≤◌, ◌^◌, [], All, IfErr, IfOk, None, OnErr, OnOk, Some, length, map, vec_len};
ghost use Rattle.command_steps.specs.Filling.{Fills, StopsFilling};
ghost use Rattle.command_steps.specs.Steps.{RunsOrForgets};
ghost use Rattle.failure_patterns.specs.Demands.{number_of};
ghost use Rattle.generation_frame.specs.Blocks.{capacity, count_of, row_bytes};
ghost use Rattle.gf_tables.specs.Kind.{IsOfKind};
ghost use Rattle.lif_outside.specs.Calls.{MakesCalls};
ghost use Rattle.lif_outside.specs.FileCalls.{StopsWithin, appends_of};
ghost use Rattle.lif_outside.specs.Sequences.{Are};
ghost use Rattle.link_streams.specs.Gathering.{wanted_links};
ghost use Rattle.link_streams.specs.Streams.{IsStream};
ghost use Rattle.sink_decoder.specs.Receiving.{sink_plan_of};
ghost use Rattle.top_base.specs.Given.{node_given_in};
ghost use Rattle.top_base.specs.Inputs.{IsNoMemory};
ghost use Rattle.top_base.specs.Named.{pattern_named, sink_named};
ghost use Rattle.top_base.specs.Performs.{RunsOnStore};
ghost use Rattle.top_nodes.specs.Declined.{declined};
ghost use Rattle.top_nodes.specs.Files.{first_lacking, generations_of, stream_paths};
ghost use Rattle.top_nodes.specs.Sink.{bad_block, block_in, bytes_in, demand_in, first_bad, is_bad, links_in, sink_command, sink_gathers, sink_through, sink_turn, sink_turns};

use crate::naming::{one_path, see_apart, stream_paths, unknown_node, unknown_pattern};
use crate::reading::{generations_of, read_streams, see_whole};
use byteorder::{BigEndian, ByteOrder};
use code_checker::Checked;
use failure_patterns::number_of;
use generation_frame::{ROW, cap, counted};
use gf_tables::{Field, FieldKind, Gf8, Gf9, Gf16};
use lif_outside::{Failed, Gate, Store};
use link_streams::{Gather, StreamList, wanted_links};
use net_model::Demand;
use std::alloc::{AllocError, Global};
use std::thread::Threads;
use top_base::{Line, NodeWords, Outcome, Status, pattern_named, read_accepted, sink_named};

// The outcome of a block whose count is wrong.
fn bad_block<'a>(generation: u32, count: u32) -> Outcome<'a>
    ensures { result ≡ bad_block (λ one. count) generation }
{
    let count = u64::from(count);
    Outcome {
        status: Status::BadBlocks { generation, count },
        line: Line::bad_blocks(generation, count),
    }
}

/// A sink with the streams that it wants, whole below a generation. Its demand is given by its number.
#[derive(Drop)]
struct Sinking<'c, F> {
    code: &'c Checked,
    demand: u64,
    gather: Gather<F>,
    streams: StreamList,
    generations: u64,
    block: Vec<u8>,
    ghost plan: { gather ≡ sink_plan_of code.now demand },
    ghost links: { map (λ stream. stream.link) streams ≡ wanted_links gather },
    ghost all: { generations ≡ generations_of streams },
    ghost few: { generations ≤ 2 ^ 32 },
    ghost whole: { first_lacking code.now.net generations streams ≡ None },
    ghost room: { vec_len block ≡ gather.rate * row_bytes },
}

impl<'c, F: Field> Sinking<'c, F> {
    // Decodes the block of a generation.
    fn decode(&mut self, generation: u32)
        requires { generation < self.old.generations }
        ensures code { self.new.code ≡ self.old.code }
        ensures demand { self.new.demand ≡ self.old.demand }
        ensures streams { self.new.streams ≡ self.old.streams }
        ensures generations { self.new.generations ≡ self.old.generations }
        ensures block { self.new.block.items
            ≡ block_in self.old.code.now self.old.demand self.old.streams generation }
    {
        self.gather.take(generation, &self.streams, &mut self.block);
    }

    // How many bytes the block of a generation counts.
    fn count(&mut self, generation: u32) -> u32
        requires { generation < self.old.generations }
        ensures code { self.new.code ≡ self.old.code }
        ensures demand { self.new.demand ≡ self.old.demand }
        ensures streams { self.new.streams ≡ self.old.streams }
        ensures generations { self.new.generations ≡ self.old.generations }
        ensures count { result
            ≡ count_of (block_in self.old.code.now self.old.demand self.old.streams generation) }
    {
        self.decode(generation);
        BigEndian::read_u32(&self.block)
    }

    // Whether the count of a generation's block is wrong: that of the last is below what a block has room for, and that of
    // each other is just that.
    fn is_bad(&self, generation: u64, count: u32) -> bool
        requires { generation < self.now.generations }
        ensures { result
            ≡ is_bad (capacity self.now.code.now.rate) self.now.generations generation count }
    {
        let room = cap(self.code.code().rate);
        if generation + 1 == self.generations {
            count >= room
        } else {
            count != room
        }
    }

    // Sees that no block's count is wrong, and tells how many bytes all count.
    fn see_counts<'a>(&mut self) -> Result<u64, Outcome<'a>>
        ensures code { self.new.code ≡ self.old.code }
        ensures demand { self.new.demand ≡ self.old.demand }
        ensures streams { self.new.streams ≡ self.old.streams }
        ensures generations { self.new.generations ≡ self.old.generations }
        ensures bytes { IfOk result (λ bytes. bytes ≡ bytes_in self.old.code.now self.old.demand
            self.old.streams self.old.generations) }
        ensures good { OnOk result (first_bad self.old.code.now self.old.demand
            self.old.streams self.old.generations ≡ None) }
        ensures refused { IfErr result (λ outcome. first_bad self.old.code.now self.old.demand
            self.old.streams self.old.generations ≡ Some outcome) }
    {
        let mut bytes = 0;
        for generation in 0..self.generations {
            let count = self.count(generation as u32);
            if self.is_bad(generation, count) {
                return Err(bad_block(generation as u32, count));
            }
            bytes += u64::from(count);
        }
        Ok(bytes)
    }

    // Adds the bytes that the block of a generation counts to the output, where there are any.
    fn append<S: Store>(
        &mut self,
        store: &mut S,
        words: &NodeWords<'_>,
        generation: u32,
    ) -> Result<(), Failed>
        requires generation { generation < self.old.generations }
        requires demand { self.old.demand
            ≡ demand_in (node_given_in words.now) self.old.code.now }
        requires made { S.made store.old words.now.output.now }
        ensures code { self.new.code ≡ self.old.code }
        ensures demand { self.new.demand ≡ self.old.demand }
        ensures streams { self.new.streams ≡ self.old.streams }
        ensures generations { self.new.generations ≡ self.old.generations }
        ensures still_made { S.made store.new words.now.output.now }
        ensures appended { OnOk result (MakesCalls S.Store store.old store.new
            (Are (appends_of (sink_turn (node_given_in words.now) self.old.code.now
            self.old.streams generation ∷ [])))) }
        ensures failed { OnErr result (MakesCalls S.Store store.old store.new
            (StopsWithin (appends_of (sink_turn (node_given_in words.now) self.old.code.now
            self.old.streams generation ∷ [])))) }
    {
        self.decode(generation);
        let received = counted(&self.block);
        if received.is_empty() {
            return Ok(());
        }
        store.append(words.output, received)
    }

    // Creates the output, and adds to it what each block counts.
    fn write<S: Store>(&mut self, store: &mut S, words: &NodeWords<'_>) -> Result<(), Failed>
        requires { self.old.demand ≡ demand_in (node_given_in words.now) self.old.code.now }
        ensures generations { self.new.generations ≡ self.old.generations }
        ensures written { OnOk result (MakesCalls S.Store store.old store.new
            (Fills (words.now.output.now ∷ []) (Are (appends_of (sink_turns
            (node_given_in words.now) self.old.code.now
            self.old.streams self.old.generations))))) }
        ensures failed { OnErr result (MakesCalls S.Store store.old store.new
            (StopsFilling (words.now.output.now ∷ []) (StopsWithin (appends_of (sink_turns
            (node_given_in words.now) self.old.code.now
            self.old.streams self.old.generations))))) }
    {
        store.create(words.output)?;
        for generation in 0..self.generations {
            self.append(store, words, generation as u32)?;
        }
        Ok(())
    }
}

// Writes what a sink decodes of its streams, where no count is wrong.
fn write_received<'a, F: Field, S: Store>(
    words: &NodeWords<'a>,
    sinking: &mut Sinking<'_, F>,
    store: &mut S,
) -> Outcome<'a>
    requires { sinking.old.demand ≡ demand_in (node_given_in words.now) sinking.old.code.now }
    ensures { MakesCalls S.Store store.old store.new (RunsOrForgets (sink_gathers
        (node_given_in words.now) sinking.old.code.now sinking.old.streams) result) }
{
    let bytes = match sinking.see_counts() {
        Ok(bytes) => bytes,
        Err(refused) => return refused,
    };
    match sinking.write(store, words) {
        Ok(()) => Outcome {
            status: Status::Done,
            line: Line::received(bytes, sinking.generations),
        },
        Err(_) => Outcome::write_fault(),
    }
}

// The sink of a demand with streams that were read. It takes all memory that the work needs.
fn gathering<'a, 'c, F: Field>(
    alloc: Global,
    code: &'c Checked,
    demand: Demand,
    links: &[u32],
    streams: StreamList,
) -> Result<Sinking<'c, F>, Outcome<'a>>
    requires sink { demand.sink < length code.now.net.sinks }
    requires pattern { demand.pattern < length code.now.net.patterns }
    requires field { IsOfKind code.now.field F.SIZE F.BYTES F.MARK F.product }
    requires links { links.now
        ≡ wanted_links (sink_plan_of code.now (number_of code.now.net demand)) }
    requires streams { map (λ stream. stream.link) streams ≡ links.now }
    requires are { All IsStream streams }
    ensures code { IfOk result (λ sinking. sinking.code.now ≡ code.now) }
    ensures demand { IfOk result (λ sinking. sinking.demand ≡ number_of code.now.net demand) }
    ensures streams { IfOk result (λ sinking. sinking.streams ≡ streams) }
    ensures refused { IfErr result (λ outcome. IsNoMemory outcome
        ⊎ (first_lacking code.now.net (generations_of streams) streams ≡ Some outcome)) }
{
    let net = &code.code().net;
    let generations = generations_of(&streams);
    see_whole(net, links, &streams, generations)?;
    let gather = Gather::open(alloc, code, demand)?;
    let block = vec![in alloc; 0; code.code().rate as usize * ROW]?;
    Ok(Sinking {
        code,
        demand: number_of(net, demand),
        gather,
        streams,
        generations,
        block,
    })
}

// Finds the pattern and the sink, and sees that the path that is written is none that is read.
fn demanded<'a>(
    alloc: Global,
    words: &NodeWords<'a>,
    code: &Checked,
) -> Result<(Demand, Vec<u32>), Outcome<'a>>
    ensures sink { IfOk result (λ found. found.0.sink < length code.now.net.sinks) }
    ensures pattern { IfOk result (λ found. found.0.pattern < length code.now.net.patterns) }
    ensures demand { IfOk result (λ found. number_of code.now.net found.0
        ≡ demand_in (node_given_in words.now) code.now) }
    ensures links { IfOk result (λ found. found.1.items
        ≡ links_in (node_given_in words.now) code.now) }
    ensures clear { OnOk result (declined (node_given_in words.now)
        (pattern_named code.now.net words.now.pattern.now)
        (sink_named code.now.net words.now.node.now)
        (stream_paths words.now.input.now code.now.net
        (links_in (node_given_in words.now) code.now))
        (words.now.output.now ∷ []) ≡ None) }
    ensures refused { IfErr result (λ outcome. IsNoMemory outcome
        ⊎ (declined (node_given_in words.now)
        (pattern_named code.now.net words.now.pattern.now)
        (sink_named code.now.net words.now.node.now)
        (stream_paths words.now.input.now code.now.net
        (links_in (node_given_in words.now) code.now))
        (words.now.output.now ∷ []) ≡ Some outcome)) }
{
    let net = &code.code().net;
    let Some(pattern) = pattern_named(net, words.pattern.as_bytes()) else {
        return Err(unknown_pattern(words));
    };
    let Some(sink) = sink_named(net, words.node.as_bytes()) else {
        return Err(unknown_node(words));
    };
    let demand = Demand { sink, pattern };
    let links = wanted_links(alloc, code, demand)?;
    let inputs = stream_paths(alloc, words.input, net, &links)?;
    let outputs = one_path(alloc, words.output)?;
    see_apart(alloc, words.code, &inputs, &outputs)?;
    Ok((demand, links))
}

// Reads the streams that the sink wants and writes what it decodes of them. `F` is the code's field.
fn sink_over<'a, F: Field, S: Store>(
    alloc: Global,
    words: &NodeWords<'a>,
    code: &Checked,
    store: &mut S,
) -> Outcome<'a>
    requires { IsOfKind code.now.field F.SIZE F.BYTES F.MARK F.product }
    ensures { MakesCalls S.Store store.old store.new
        (RunsOrForgets (sink_through (node_given_in words.now) code.now) result) }
{
    let (demand, links) = match demanded(alloc, words, code) {
        Ok(found) => found,
        Err(refused) => return refused,
    };
    let streams = match read_streams(alloc, store, words.input, &code.code().net, &links) {
        Ok(streams) => streams,
        Err(refused) => return refused,
    };
    match gathering::<F>(alloc, code, demand, &links, streams) {
        Ok(mut sinking) => write_received(words, &mut sinking, store),
        Err(refused) => refused,
    }
}

// Does the same by the code's field.
fn sink_through<'a, S: Store>(
    alloc: Global,
    words: &NodeWords<'a>,
    code: &Checked,
    store: &mut S,
) -> Outcome<'a>
    ensures { MakesCalls S.Store store.old store.new
        (RunsOrForgets (sink_through (node_given_in words.now) code.now) result) }
{
    match code.code().field {
        FieldKind::Eight => sink_over::<Gf8, S>(alloc, words, code, store),
        FieldKind::Nine => sink_over::<Gf9, S>(alloc, words, code, store),
        FieldKind::Sixteen => sink_over::<Gf16, S>(alloc, words, code, store),
    }
}

/// Reads and checks the code, reads the streams of the links that the sink's decoder wants, and writes what it decodes of
/// them.
pub fn sink<'a, S: Store, G: Gate + Sync, R: Threads + Sync>(
    rt: &R,
    alloc: Global,
    words: &NodeWords<'a>,
    store: &mut S,
    gate: &G,
) -> Outcome<'a>
    ensures { RunsOnStore S.Store (sink_command (node_given_in words.now)) store.old store.new result }
{
    match read_accepted(rt, alloc, store, words.code, gate) {
        Ok(code) => sink_through(alloc, words, &code, store),
        Err(refused) => refused,
    }
}
