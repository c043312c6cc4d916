//! The command `relay`.
ghost use Rattle.std.specs.Prelude.{◌≡◌, ◌<◌, ◌≤◌, ◌*◌, ◌^◌, ◌==◌, ◌⊎◌, ◌∷◌, [], ℕ, false, true, if◌then◌else◌, List, All, Contains, IfErr, IfOk, None, OnErr, OnOk, Some, length, map, string_bytes, vec_len};
ghost use Rattle.std.specs.List.{range_with_len};
ghost use Rattle.coded_traffic.specs.CodeBlocks.{IsBlockOf};
ghost use Rattle.command_steps.specs.Filling.{Fills, StopsFilling};
ghost use Rattle.command_steps.specs.Steps.{RunsOrForgets};
ghost use Rattle.generation_frame.specs.Blocks.{pieces, row_bytes};
ghost use Rattle.gf_tables.specs.Kind.{IsOfKind};
ghost use Rattle.lif_outside.specs.Calls.{MakesCalls};
ghost use Rattle.lif_outside.specs.FileCalls.{StopsWithin, appends_of, creates_of};
ghost use Rattle.lif_outside.specs.Sequences.{Are};
ghost use Rattle.link_streams.specs.Relaying.{originated, relayed};
ghost use Rattle.link_streams.specs.Streams.{HasGeneration, all_packets};
ghost use Rattle.node_plans.specs.Plans.{ins_of, outs_of};
ghost use Rattle.top_base.specs.Given.{node_given_in};
ghost use Rattle.top_base.specs.Inputs.{IsNoMemory};
ghost use Rattle.top_base.specs.Lines.{relayed_line};
ghost use Rattle.top_base.specs.Named.{node_named, pattern_named};
ghost use Rattle.top_base.specs.Performs.{RunsOnStore};
ghost use Rattle.top_nodes.specs.Declined.{declined};
ghost use Rattle.top_nodes.specs.Files.{first_lacking, stream_paths};
ghost use Rattle.top_nodes.specs.Relay.{generations_in, inputs_in, ins_in, is_source_in, node_in, outputs_in, relay_command, relay_node, relay_source, relay_through};
ghost use Rattle.top_nodes.specs.Sink.{pattern_in};
ghost use Rattle.top_nodes.specs.Sourcing.{job_of, source_job};
ghost use Rattle.top_nodes.specs.Working.{parts_of, paths_of, turn_of};

use crate::naming::{one_path, see_apart, stream_paths, unknown_node, unknown_pattern};
use crate::reading::{generations_of, read_streams, see_whole};
use crate::sourcing::Sourcing;
use crate::working::Relaying;
use code_checker::Checked;
use generation_frame::PIECES;
use gf_tables::{Field, FieldKind, Gf8, Gf9, Gf16};
use lif_outside::{Failed, Gate, Store};
use link_streams::{Frames, Relay, StreamList};
use net_model::Net;
use node_plans::LiveWiring;
use source_turns::{Feeding, create_each};
use std::alloc::{AllocError, Global};
use std::thread::Threads;
use top_base::{Line, NodeWords, Outcome, Status, node_named, pattern_named, read_accepted};

/// The greatest length of a source that is relayed, in bytes.
const RELAY_LIMIT: u64 = 67_108_864;

impl<'c, F: Field> Relaying<'c, F> {
    /// Creates each link's file, in order.
    pub fn create_outputs<S: Store>(&self, store: &mut S) -> Result<(), Failed>
        ensures created { OnOk result (MakesCalls S.Store store.old store.new
            (Are (creates_of (paths_of self.now)))) }
        ensures made { OnOk result ((path : List ℕ) → Contains (paths_of self.now) path
            → S.made store.new path) }
        ensures failed { OnErr result (MakesCalls S.Store store.old store.new
            (StopsWithin (creates_of (paths_of self.now)))) }
    {
        create_each(store, &self.outputs)
    }

    /// Adds the frames of a generation to each link's file, in order.
    pub fn append_frames<S: Store>(&self, store: &mut S) -> Result<(), Failed>
        requires made { (path : List ℕ) → Contains (paths_of self.now) path
            → S.made store.old path }
        ensures made { (path : List ℕ) → Contains (paths_of self.now) path
            → S.made store.new path }
        ensures appended { OnOk result (MakesCalls S.Store store.old store.new
            (Are (appends_of (turn_of self.now ∷ [])))) }
        ensures failed { OnErr result (MakesCalls S.Store store.old store.new
            (StopsWithin (appends_of (turn_of self.now ∷ [])))) }
    {
        for place in 0..self.outputs.len() {
            store.append(self.outputs[place].as_str(), self.frames.at(place as u32))?;
        }
        Ok(())
    }

    /// Makes the frames of a generation out of its block, at the source.
    pub fn originate(&mut self, generation: u32, block: &[u8])
        requires source { self.old.relay.is_source ≡ true }
        requires block { length block.now ≡ self.old.code.now.rate * row_bytes }
        ensures code { self.new.code ≡ self.old.code }
        ensures pattern { self.new.pattern ≡ self.old.pattern }
        ensures node { self.new.node ≡ self.old.node }
        ensures outputs { self.new.outputs ≡ self.old.outputs }
        ensures frames { self.new.frames
            ≡ originated self.old.code.now self.old.pattern self.old.node block.now generation }
    {
        self.relay.originate(generation, block, &mut self.frames);
    }

    // Passes a generation of streams on.
    fn pass<S: Store>(
        &mut self,
        store: &mut S,
        streams: &StreamList,
        generation: u32,
    ) -> Result<(), Failed>
        requires relays { self.old.relay.is_source ≡ false }
        requires links { map (λ stream. stream.link) streams.now
            ≡ ins_of self.old.code.now self.old.pattern self.old.node }
        requires whole { All (HasGeneration generation) streams.now }
        requires made { (path : List ℕ) → Contains (paths_of self.old) path
            → S.made store.old path }
        ensures code { self.new.code ≡ self.old.code }
        ensures pattern { self.new.pattern ≡ self.old.pattern }
        ensures node { self.new.node ≡ self.old.node }
        ensures outputs { self.new.outputs ≡ self.old.outputs }
        ensures still_made { (path : List ℕ) → Contains (paths_of self.old) path
            → S.made store.new path }
        ensures appended { OnOk result (MakesCalls S.Store store.old store.new
            (Are (appends_of (parts_of (paths_of self.old) (relayed self.old.code.now
            self.old.pattern self.old.node (all_packets streams.now) generation).bytes ∷ [])))) }
        ensures failed { OnErr result (MakesCalls S.Store store.old store.new
            (StopsWithin (appends_of (parts_of (paths_of self.old) (relayed self.old.code.now
            self.old.pattern self.old.node (all_packets streams.now) generation).bytes ∷ [])))) }
    {
        self.relay.pass(generation, streams, &mut self.frames);
        self.append_frames(store)
    }

    // Creates the files, and passes so many generations of streams on.
    fn pass_all<S: Store>(
        &mut self,
        store: &mut S,
        streams: &StreamList,
        generations: u64,
    ) -> Result<(), Failed>
        requires relays { self.old.relay.is_source ≡ false }
        requires links { map (λ stream. stream.link) streams.now
            ≡ ins_of self.old.code.now self.old.pattern self.old.node }
        requires whole { first_lacking self.old.code.now.net generations streams.now ≡ None }
        requires few { generations ≤ 2 ^ 32 }
        ensures outputs { self.new.outputs ≡ self.old.outputs }
        ensures filled { OnOk result (MakesCalls S.Store store.old store.new
            (Fills (paths_of self.old) (Are (appends_of (map (λ generation. parts_of
            (paths_of self.old) (relayed self.old.code.now self.old.pattern self.old.node
            (all_packets streams.now) generation).bytes)
            (range_with_len 0 generations)))))) }
        ensures failed { OnErr result (MakesCalls S.Store store.old store.new
            (StopsFilling (paths_of self.old) (StopsWithin (appends_of (map (λ generation. parts_of
            (paths_of self.old) (relayed self.old.code.now self.old.pattern self.old.node
            (all_packets streams.now) generation).bytes)
            (range_with_len 0 generations)))))) }
    {
        self.create_outputs(store)?;
        for generation in 0..generations {
            self.pass(store, streams, generation as u32)?;
        }
        Ok(())
    }

    /// The line of so many generations.
    pub fn line<'a>(&self, generations: u64) -> Line<'a>
        requires { generations ≤ 2 ^ 32 }
        ensures { result ≡ relayed_line (generations * pieces * vec_len self.now.outputs)
            (vec_len self.now.outputs) generations }
    {
        let links = self.outputs.len() as u64;
        Line::relayed(generations * PIECES as u64 * links, links, generations)
    }
}

/// What is found of a node: its place and its live links.
#[derive(Drop)]
struct NodeLinks {
    pattern: u32,
    node: u32,
    is_source: bool,
    ins: Vec<u32>,
    outputs: Vec<String>,
}

// Finds the pattern and the node with its live links, and sees that no path that is written is one that is read.
fn find_node<'a>(
    alloc: Global,
    words: &NodeWords<'a>,
    code: &Checked,
) -> Result<NodeLinks, Outcome<'a>>
    ensures known_pattern { IfOk result
        (λ found. found.pattern < length code.now.net.patterns) }
    ensures known_node { IfOk result (λ found. found.node < length code.now.net.nodes) }
    ensures pattern { IfOk result
        (λ found. found.pattern ≡ pattern_in (node_given_in words.now) code.now) }
    ensures node { IfOk result
        (λ found. found.node ≡ node_in (node_given_in words.now) code.now) }
    ensures source { IfOk result
        (λ found. found.is_source ≡ is_source_in (node_given_in words.now) code.now) }
    ensures ins { IfOk result
        (λ found. found.ins.items ≡ ins_in (node_given_in words.now) code.now) }
    ensures outputs { IfOk result (λ found. map string_bytes found.outputs.items
        ≡ outputs_in (node_given_in words.now) code.now) }
    ensures clear { OnOk result (declined (node_given_in words.now)
        (pattern_named code.now.net words.now.pattern.now)
        (node_named code.now.net words.now.node.now)
        (inputs_in (node_given_in words.now) code.now)
        (outputs_in (node_given_in words.now) code.now) ≡ None) }
    ensures refused { IfErr result (λ outcome. IsNoMemory outcome
        ⊎ (declined (node_given_in words.now)
        (pattern_named code.now.net words.now.pattern.now)
        (node_named code.now.net words.now.node.now)
        (inputs_in (node_given_in words.now) code.now)
        (outputs_in (node_given_in words.now) code.now) ≡ Some outcome)) }
{
    let code = code.code();
    let Some(pattern) = pattern_named(&code.net, words.pattern.as_bytes()) else {
        return Err(unknown_pattern(words));
    };
    let Some(node) = node_named(&code.net, words.node.as_bytes()) else {
        return Err(unknown_node(words));
    };
    let wiring = LiveWiring::of(alloc, code, pattern)?;
    let plan = wiring.plan(alloc, code, pattern, node)?;
    let ins = plan.ins.as_slice().to_vec(alloc)?;
    let inputs = input_paths(alloc, words, &code.net, plan.is_source, &ins)?;
    let outputs = stream_paths(alloc, words.output, &code.net, plan.outs.as_slice())?;
    see_apart(alloc, words.code, &inputs, &outputs)?;
    Ok(NodeLinks {
        pattern,
        node,
        is_source: plan.is_source,
        ins,
        outputs,
    })
}

// The paths that a node reads: at the source that of a file, and else those of the streams of links.
fn input_paths(
    alloc: Global,
    words: &NodeWords<'_>,
    net: &Net,
    is_source: bool,
    ins: &[u32],
) -> Result<Vec<String>, AllocError>
    requires { All (λ link. link < length net.now.links) ins.now }
    ensures { IfOk result (λ paths. map string_bytes paths.items ≡ (if is_source
        then words.now.input.now ∷ [] else stream_paths words.now.input.now net.now ins.now)) }
{
    if is_source {
        one_path(alloc, words.input)
    } else {
        stream_paths(alloc, words.input, net, ins)
    }
}

// Takes all memory that a node's work needs.
fn open_relaying<F: Field>(
    alloc: Global,
    code: &Checked,
    pattern: u32,
    node: u32,
    outputs: Vec<String>,
) -> Result<Relaying<'_, F>, AllocError>
    requires pattern { pattern < length code.now.net.patterns }
    requires node { node < length code.now.net.nodes }
    requires field { IsOfKind code.now.field F.SIZE F.BYTES F.MARK F.product }
    requires each { vec_len outputs ≡ length (outs_of code.now pattern node) }
    ensures code { IfOk result (λ relaying. relaying.code.now ≡ code.now) }
    ensures pattern { IfOk result (λ relaying. relaying.pattern ≡ pattern) }
    ensures node { IfOk result (λ relaying. relaying.node ≡ node) }
    ensures outputs { IfOk result (λ relaying. relaying.outputs ≡ outputs) }
{
    let relay = Relay::open(alloc, code, pattern, node)?;
    let frames = Frames::open(alloc, code, pattern, node)?;
    Ok(Relaying {
        code,
        pattern,
        node,
        relay,
        frames,
        outputs,
    })
}

// How many generations a node relays: none where it reads no stream.
fn generations_in(streams: &StreamList) -> u64
    ensures { result ≡ generations_in streams.now }
{
    if streams.is_empty() {
        0
    } else {
        generations_of(streams)
    }
}

// Reads the streams of a node that isn't the source, and passes them on.
fn relay_node<'a, F: Field, S: Store>(
    alloc: Global,
    words: &NodeWords<'a>,
    code: &Checked,
    found: NodeLinks,
    store: &mut S,
) -> Outcome<'a>
    requires field { IsOfKind code.now.field F.SIZE F.BYTES F.MARK F.product }
    requires known_pattern { found.pattern < length code.now.net.patterns }
    requires known_node { found.node < length code.now.net.nodes }
    requires pattern { found.pattern ≡ pattern_in (node_given_in words.now) code.now }
    requires node { found.node ≡ node_in (node_given_in words.now) code.now }
    requires relays { is_source_in (node_given_in words.now) code.now ≡ false }
    requires ins { found.ins.items ≡ ins_in (node_given_in words.now) code.now }
    requires outputs { map string_bytes found.outputs.items
        ≡ outputs_in (node_given_in words.now) code.now }
    ensures { MakesCalls S.Store store.old store.new
        (RunsOrForgets (relay_node (node_given_in words.now) code.now) result) }
{
    let net = &code.code().net;
    let streams = match read_streams(alloc, store, words.input, net, &found.ins) {
        Ok(streams) => streams,
        Err(refused) => return refused,
    };
    let generations = generations_in(&streams);
    if let Err(refused) = see_whole(net, &found.ins, &streams, generations) {
        return refused;
    }
    let Ok(mut relaying) = open_relaying::<F>(alloc, code, found.pattern, found.node, found.outputs)
    else {
        return Outcome::out_of_memory();
    };
    match relaying.pass_all(store, &streams, generations) {
        Ok(()) => Outcome {
            status: Status::Done,
            line: relaying.line(generations),
        },
        Err(_) => Outcome::write_fault(),
    }
}

// Reads the source's file, and sends its blocks out.
fn relay_source<'a, F: Field, S: Store>(
    alloc: Global,
    words: &NodeWords<'a>,
    code: &Checked,
    found: NodeLinks,
    store: &mut S,
) -> Outcome<'a>
    requires field { IsOfKind code.now.field F.SIZE F.BYTES F.MARK F.product }
    requires known_pattern { found.pattern < length code.now.net.patterns }
    requires known_node { found.node < length code.now.net.nodes }
    requires pattern { found.pattern ≡ pattern_in (node_given_in words.now) code.now }
    requires node { found.node ≡ node_in (node_given_in words.now) code.now }
    requires source { is_source_in (node_given_in words.now) code.now ≡ true }
    requires outputs { map string_bytes found.outputs.items
        ≡ outputs_in (node_given_in words.now) code.now }
    ensures { MakesCalls S.Store store.old store.new
        (RunsOrForgets (relay_source (node_given_in words.now) code.now) result) }
{
    let Ok(mut feeding) = open_feeding::<F>(alloc, code, found) else {
        return Outcome::out_of_memory();
    };
    match feeding.feed(store, words.input, RELAY_LIMIT) {
        Ok(fed) => Outcome {
            status: Status::Done,
            line: feeding.turns.relaying.line(fed.generations),
        },
        Err(fault) => fault.into(),
    }
}

// Takes all memory that the source's work needs.
fn open_feeding<F: Field>(
    alloc: Global,
    code: &Checked,
    found: NodeLinks,
) -> Result<Feeding<Sourcing<'_, F>>, AllocError>
    requires field { IsOfKind code.now.field F.SIZE F.BYTES F.MARK F.product }
    requires pattern { found.pattern < length code.now.net.patterns }
    requires node { found.node < length code.now.net.nodes }
    requires source { (found.node == code.now.net.source) ≡ true }
    requires each { vec_len found.outputs
        ≡ length (outs_of code.now found.pattern found.node) }
    ensures { IfOk result (λ feeding. job_of feeding.turns.relaying ≡ source_job
        code.now found.pattern found.node (map string_bytes found.outputs.items)) }
{
    let relaying = open_relaying(alloc, code, found.pattern, found.node, found.outputs)?;
    Feeding::new(alloc, Sourcing { relaying })
}

// Relays at a node, or at the source. `F` is the code's field.
fn relay_over<'a, F: Field, S: Store>(
    alloc: Global,
    words: &NodeWords<'a>,
    code: &Checked,
    store: &mut S,
) -> Outcome<'a>
    requires { IsOfKind code.now.field F.SIZE F.BYTES F.MARK F.product }
    ensures { MakesCalls S.Store store.old store.new
        (RunsOrForgets (relay_through (node_given_in words.now) code.now) result) }
{
    match find_node(alloc, words, code) {
        Ok(found) if found.is_source => relay_source::<F, S>(alloc, words, code, found, store),
        Ok(found) => relay_node::<F, S>(alloc, words, code, found, store),
        Err(refused) => refused,
    }
}

// Does the same by the code's field.
fn relay_through<'a, S: Store>(
    alloc: Global,
    words: &NodeWords<'a>,
    code: &Checked,
    store: &mut S,
) -> Outcome<'a>
    ensures { MakesCalls S.Store store.old store.new
        (RunsOrForgets (relay_through (node_given_in words.now) code.now) result) }
{
    match code.code().field {
        FieldKind::Eight => relay_over::<Gf8, S>(alloc, words, code, store),
        FieldKind::Nine => relay_over::<Gf9, S>(alloc, words, code, store),
        FieldKind::Sixteen => relay_over::<Gf16, S>(alloc, words, code, store),
    }
}

/// Reads and checks the code, reads the streams of the live links into the node, or at the source the source's file, and
/// writes the streams of the live links out of it.
pub fn relay<'a, S: Store, G: Gate + Sync, R: Threads + Sync>(
    rt: &R,
    alloc: Global,
    words: &NodeWords<'a>,
    store: &mut S,
    gate: &G,
) -> Outcome<'a>
    ensures { RunsOnStore S.Store (relay_command (node_given_in words.now)) store.old store.new result }
{
    match read_accepted(rt, alloc, store, words.code, gate) {
        Ok(code) => relay_through(alloc, words, &code, store),
        Err(refused) => refused,
    }
}
