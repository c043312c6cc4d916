//! The command `demo`.
ghost use Rattle.std.specs.Prelude.{◌≡◌, ◌*◌, ◌<◌, ◌≤◌, ◌^◌, ◌∷◌, [], List, ℕ, IfOk, OnErr, OnOk, count_by, length, map, replicate, string_bytes, vec_len};
ghost use Rattle.std.specs.List.{range_with_len};
ghost use Rattle.coded_traffic.specs.Traffic.{room_for};
ghost use Rattle.generation_frame.specs.Blocks.{pieces};
ghost use Rattle.gf_tables.specs.Kind.{IsOfKind};
ghost use Rattle.lif_outside.specs.Calls.{MakesMoves};
ghost use Rattle.lif_outside.specs.Moves.{opened};
ghost use Rattle.net_maker.specs.Source.{source_byte};
ghost use Rattle.source_delivery.specs.Runner.{IsRefused};
ghost use Rattle.top_base.specs.Given.{demo_given_in};
ghost use Rattle.top_runs.specs.Demo.Given.{IsDemoCode, demo_seed};
ghost use Rattle.top_runs.specs.Demo.Ready.{IsBegun};
ghost use Rattle.top_runs.specs.Demo.Runs.{RunsDemo};
ghost use Rattle.source_delivery.specs.Delivering.{CanCarry};
ghost use Rattle.top_runs.specs.Sending.{link_calls};

use crate::tally::Tally;
use code_checker::Checked;
use generation_frame::PIECES;
use gf_tables::{Field, FieldKind, Gf8, Gf9, Gf16};
use lif_outside::{Gate, Links};
use net_maker::source_byte;
use node_program::live_links;
use source_delivery::{DeliveryFault, SourceDelivery};
use std::alloc::{AllocError, Global};
use std::thread::Threads;
use top_base::{DemoWords, Line, Outcome, Status};
use top_tools::combination_code;

/// The number that the links are opened with.
const SEED: u64 = 1;

/// What a run takes.
#[derive(Drop)]
pub struct Begun<'c, F> {
    /// The code at work over links, and the sinks, whose files have no names.
    pub delivery: SourceDelivery<'c, F>,
    /// The source.
    pub source: Vec<u8>,
    /// How many frames a block of it takes.
    pub frames: u64,
}

// A source of so many bytes.
fn source_of(alloc: Global, bytes: u64) -> Result<Vec<u8>, AllocError>
    ensures { IfOk result
        (λ source. source.items ≡ map source_byte (range_with_len 0 bytes)) }
{
    let mut source = Vec::with_capacity(alloc, bytes as usize)?;
    for place in 0..bytes {
        source.push(source_byte(place))?;
    }
    Ok(source)
}

// So many empty paths.
fn no_paths(alloc: Global, count: usize) -> Result<Vec<String>, AllocError>
    ensures empty { IfOk result (λ paths. map string_bytes paths.items ≡ replicate count []) }
    ensures count { IfOk result (λ paths. vec_len paths ≡ count) }
{
    let mut paths = Vec::with_capacity(alloc, count)?;
    for _ in 0..count {
        paths.push(String::new(alloc))?;
    }
    Ok(paths)
}

// How many frames a block takes: one for each piece of each live link.
fn frames_of(live: &[bool]) -> u64
    requires { length live.now < 2 ^ 32 }
    ensures { result ≡ count_by (λ is. is) live.now * pieces }
{
    live.iter().filter(|is| **is).count() as u64 * PIECES as u64
}

// A code at work under the pattern `none`, the links opened, and a source.
fn begin<'c, F: Field, K: Links>(
    alloc: Global,
    words: &DemoWords,
    code: &'c Checked,
    links: &mut K,
) -> Result<Begun<'c, F>, AllocError>
    requires field { IsOfKind code.now.field F.SIZE F.BYTES F.MARK F.product }
    requires made { IsDemoCode (demo_given_in words.now) code.now }
    requires nothing_flies { K.flying links.old ≡ [] }
    ensures begun { IfOk result (IsBegun (demo_given_in words.now) code.now) }
    ensures opened { OnOk result
        (K.moves (opened demo_seed (room_for code.now) ∷ []) links.old links.new) }
    ensures refused { OnErr result
        (IsRefused K.moves demo_seed (room_for code.now) links.old links.new) }
{
    let source = source_of(alloc, words.bytes)?;
    let live = live_links(alloc, code.code(), 0)?;
    let frames = frames_of(live.as_slice());
    let outputs = no_paths(alloc, code.code().net.sinks.len())?;
    let delivery = SourceDelivery::open(alloc, code, 0, SEED, outputs, links)?;
    Ok(Begun {
        delivery,
        source,
        frames,
    })
}

// Carries the source over links that were opened, and says what came.
fn run<'a, F: Field + Send + Sync, K: Links, G: Gate + Sync, R: Threads + Sync>(
    rt: &R,
    words: &DemoWords,
    code: &Checked,
    begun: Begun<'_, F>,
    links: &mut K,
    gate: &G,
) -> Outcome<'a>
    requires made { IsDemoCode (demo_given_in words.now) code.now }
    requires begun { IsBegun (demo_given_in words.now) code.now begun }
    requires can { CanCarry begun.delivery.runner (K.flying links.old) (K.room links.old) }
    ensures { MakesMoves K.Links links.old links.new (λ moves. RunsDemo (K.faithful links.old)
        (demo_given_in words.now) result.status result.line
        (link_calls (opened demo_seed (room_for code.now) ∷ moves))) }
{
    let Begun {
        mut delivery,
        source,
        frames,
    } = begun;
    let mut tally = Tally { sum: 0 };
    match delivery.carry_source(rt, &mut tally, links, &source, gate) {
        Ok(counts) => Outcome {
            status: Status::Done,
            line: Line::demo(
                words,
                code.code(),
                counts.generations,
                counts.generations * frames,
                tally.sum,
            ),
        },
        Err(DeliveryFault::Links) => Outcome::link_fault(),
        Err(DeliveryFault::Write) => unreachable!(),
    }
}

// Shows a code, of which `F` is the field.
fn show<'a, F: Field + Send + Sync, K: Links, G: Gate + Sync, R: Threads + Sync>(
    rt: &R,
    alloc: Global,
    words: &DemoWords,
    code: &Checked,
    links: &mut K,
    gate: &G,
) -> Outcome<'a>
    requires field { IsOfKind code.now.field F.SIZE F.BYTES F.MARK F.product }
    requires made { IsDemoCode (demo_given_in words.now) code.now }
    requires nothing_flies { K.flying links.old ≡ [] }
    ensures { MakesMoves K.Links links.old links.new (λ moves. RunsDemo (K.faithful links.old)
        (demo_given_in words.now) result.status result.line (link_calls moves)) }
{
    match begin::<F, K>(alloc, words, code, links) {
        Ok(begun) => run(rt, words, code, begun, links, gate),
        Err(_) => Outcome::out_of_memory(),
    }
}

/// Compiles a combination network, checks its code, and carries a source over the links to its sinks, where no link fails.
pub fn demo<'a, K: Links, G: Gate + Sync, R: Threads + Sync>(
    rt: &R,
    alloc: Global,
    words: &DemoWords,
    links: &mut K,
    gate: &G,
) -> Outcome<'a>
    requires { K.flying links.old ≡ [] }
    ensures { MakesMoves K.Links links.old links.new (λ moves. RunsDemo (K.faithful links.old)
        (demo_given_in words.now) result.status result.line (link_calls moves)) }
{
    let Ok(code) = combination_code(rt, alloc, words.n, words.k, gate) else {
        return Outcome::out_of_memory();
    };
    match code.code().field {
        FieldKind::Eight => show::<Gf8, K, G, R>(rt, alloc, words, &code, links, gate),
        FieldKind::Nine => show::<Gf9, K, G, R>(rt, alloc, words, &code, links, gate),
        FieldKind::Sixteen => show::<Gf16, K, G, R>(rt, alloc, words, &code, links, gate),
    }
}
