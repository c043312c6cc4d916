//! The command `blind`.
ghost use Rattle.std.specs.Prelude.{◌≡◌, ◌<◌, ◌≤◌, ◌+◌, All, IfOk, None, length, map, string_bytes, vec_capacity, vec_len};
ghost use Rattle.command_steps.specs.Steps.{RunsOrForgets};
ghost use Rattle.gf_tables.specs.Kind.{IsOfKind};
ghost use Rattle.lif_outside.specs.Calls.{MakesCalls};
ghost use Rattle.top_base.specs.Given.{blind_given_in};
ghost use Rattle.top_base.specs.Performs.{RunsOnStore};
ghost use Rattle.top_blind.specs.Blind.{blind_command, blind_feeds, blind_through, delivery, failed_in, outputs_in, paths_among, ranks_text};

use crate::delivering::Delivering;
use crate::naming::find_failed;
use crate::receivers::{Receivers, find_receivers};
use gf_tables::{Field, FieldKind, Gf8, Gf9, Gf16};
use lif_outside::Store;
use net_model::LinkList;
use node_program::Code;
use source_turns::Feeding;
use std::alloc::{AllocError, Global};
use top_base::{BlindWords, LINE_ROOM, Line, Outcome, SOURCE_LIMIT, Status, read_file_of_code};
use vector_headers::{Blind, Fabric};

// Takes all memory that the work needs: what carries and decodes blocks, and the lines of all sinks' ranks, with room for
// one more. `F` is the code's field.
fn open<'c, F: Field>(
    alloc: Global,
    prefix: &str,
    code: &'c Code,
    failed: &LinkList,
) -> Result<(Feeding<Delivering<'c, F>>, Vec<u8>), AllocError>
    requires field { IsOfKind code.now.field F.SIZE F.BYTES F.MARK F.product }
    requires failed { All (λ link. link < length code.now.net.links) failed.now }
    ensures code { IfOk result (λ made. made.0.turns.fabric.code ≡ code.now) }
    ensures paths { IfOk result (λ made. map string_bytes made.0.turns.paths.items
        ≡ paths_among prefix.now code.now failed.now code.now.net.sinks) }
    ensures lines { IfOk result
        (λ made. made.1.items ≡ ranks_text code.now failed.now code.now.net.sinks) }
    ensures room { IfOk result (λ made. vec_len made.1 + LINE_ROOM ≤ vec_capacity made.1) }
{
    let fabric = Fabric::open(alloc, code, failed)?;
    let mut blind = Blind::open(alloc, code.rate)?;
    let Receivers { lines, paths, ins } = find_receivers(alloc, prefix, &fabric, &mut blind)?;
    let delivering = Delivering::open(alloc, fabric, blind, paths, ins)?;
    Ok((Feeding::new(alloc, delivering)?, lines))
}

// Reads the source, and sends its blocks to the sinks that have the rank.
fn feed<'a, F: Field, S: Store>(
    words: &BlindWords<'a>,
    code: &Code,
    opened: (Feeding<Delivering<'_, F>>, Vec<u8>),
    store: &mut S,
) -> Outcome<'a>
    requires code { opened.0.turns.fabric.code ≡ code.now }
    requires paths { map string_bytes opened.0.turns.paths.items
        ≡ outputs_in (blind_given_in words.now) code.now }
    requires lines { opened.1.items ≡ ranks_text code.now
        (failed_in (blind_given_in words.now) code.now) code.now.net.sinks }
    requires room { vec_len opened.1 + LINE_ROOM ≤ vec_capacity opened.1 }
    ensures { MakesCalls S.Store store.old store.new
        (RunsOrForgets (blind_feeds (blind_given_in words.now) code.now) result) }
{
    let (mut feeding, lines) = opened;
    match feeding.feed(store, words.source, SOURCE_LIMIT) {
        Ok(fed) => {
            let sinks = feeding.turns.paths.len() as u64;
            Outcome {
                status: Status::Done,
                line: Line::sent_behind(lines, fed.bytes, fed.generations, sinks),
            }
        }
        Err(fault) => fault.into(),
    }
}

// Finds what fails, takes all memory, and sends the source. `F` is the code's field.
fn blind_over<'a, F: Field, S: Store>(
    alloc: Global,
    words: &BlindWords<'a>,
    code: &Code,
    store: &mut S,
) -> Outcome<'a>
    requires { IsOfKind code.now.field F.SIZE F.BYTES F.MARK F.product }
    ensures { MakesCalls S.Store store.old store.new
        (RunsOrForgets (blind_through (blind_given_in words.now) code.now) result) }
{
    let failed = match find_failed(alloc, words, code) {
        Ok(failed) => failed,
        Err(refused) => return refused,
    };
    match open::<F>(alloc, words.prefix, code, &failed) {
        Ok(opened) => feed(words, code, opened, store),
        Err(_) => Outcome::out_of_memory(),
    }
}

// Does the same by the code's field.
fn blind_through<'a, S: Store>(
    alloc: Global,
    words: &BlindWords<'a>,
    code: &Code,
    store: &mut S,
) -> Outcome<'a>
    ensures { MakesCalls S.Store store.old store.new
        (RunsOrForgets (blind_through (blind_given_in words.now) code.now) result) }
{
    match code.field {
        FieldKind::Eight => blind_over::<Gf8, S>(alloc, words, code, store),
        FieldKind::Nine => blind_over::<Gf9, S>(alloc, words, code, store),
        FieldKind::Sixteen => blind_over::<Gf16, S>(alloc, words, code, store),
    }
}

/// Reads the code, accepted or not, finds which links fail and which sinks have the rank of the code, and sends the source to
/// these. All memory is taken before a file is made.
pub fn blind<'a, S: Store>(alloc: Global, words: &BlindWords<'a>, store: &mut S) -> Outcome<'a>
    ensures { RunsOnStore S.Store (blind_command (blind_given_in words.now)) store.old store.new result }
{
    match read_file_of_code(alloc, store, words.code) {
        Ok(code) => blind_through(alloc, words, &code, store),
        Err(refused) => refused,
    }
}
