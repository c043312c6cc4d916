//! The command `twin`.
ghost use Rattle.std.specs.Prelude.{◌≡◌, ◌≢◌, ◌≤◌, IfErr, IfOk};
ghost use Rattle.code_file.specs.Limits.{fitting_members};
ghost use Rattle.gf_tables.specs.Kind.{IsOfKind};
ghost use Rattle.gf_tables.specs.declared.kind.FieldKind.TheVariants.{Nine};
ghost use Rattle.lif_compiler.specs.Compiled.{IsCompiled, marked_kind};
ghost use Rattle.lif_outside.specs.Calls.{MakesCalls};
ghost use Rattle.net_model.specs.Failed.{member_count};
ghost use Rattle.net_model.specs.Walks.{IsAcyclic};
ghost use Rattle.net_model.specs.declared.net.Net.{Net};
ghost use Rattle.net_reader.specs.Text.{net_limit};
ghost use Rattle.top_base.specs.Given.{twin_given_in};
ghost use Rattle.top_base.specs.Lines.{twin_refused_line};
ghost use Rattle.top_base.specs.Making.{RunsMaking};
ghost use Rattle.top_base.specs.Networks.{IsNetOf, RefusesNet};
ghost use Rattle.top_base.specs.Performs.{RunsOnStore};
ghost use Rattle.top_tools.specs.Compile.Made.{IsServedBy};
ghost use Rattle.top_tools.specs.Compile.Ready.{RefusesOrLosesIt};
ghost use Rattle.top_tools.specs.Twin.{CanTwin, IsTwinned, Joins, RefusesTwin, twin_command};
ghost use Rattle.top_tools.specs.TwinReady.{IsTwinReady, RefusesOrLosesTwin};

use crate::coding::{code_in, ordered};
use crate::combining::checked;
use crate::cutting::crowded;
use crate::files::{shared_path, write_made};
use crate::making::{Made, unmade};
use crate::reporting::report_of;
use code_file::write_code;
use cut_witness::{Cert, rate};
use failure_patterns::used_field;
use gf_tables::{Field, Gf8, Gf16};
use lif_outside::{Gate, Store, WORKERS};
use net_model::{FieldChoice, Net};
use node_program::Code;
use std::alloc::{AllocError, Global};
use std::marker::Brand;
use std::sync::ledger::Blank;
use std::thread::Threads;
use top_base::{Line, Outcome, Status, TwinWhy, TwinWords, node_named, read_ordered};
use two_sources::{JoinRefusal, join_sources, separate};

// Two sources aren't joined.
fn unjoined<'a>(why: TwinWhy) -> Outcome<'a>
    ensures status { result.status ≡ Status.TwinRefused why }
    ensures line { result.line ≡ twin_refused_line why }
{
    Outcome {
        status: Status::TwinRefused(why),
        line: Line::twin_refused(why),
    }
}

// The network with one node for both sources.
fn joined<'a>(alloc: Global, words: &TwinWords<'a>, net: &Net) -> Result<Net, Outcome<'a>>
    ensures joined { IfOk result (Joins (twin_given_in words.now) net.now) }
    ensures refused { IfErr result (RefusesOrLosesTwin (twin_given_in words.now) net.now) }
{
    let Some(second) = node_named(net, words.second.as_bytes()) else {
        return Err(unjoined(TwinWhy::UnknownSecond));
    };
    match join_sources(alloc, net, second, words.r1, words.r2) {
        Ok(joined) => Ok(joined),
        Err(JoinRefusal::NameTaken) => Err(unjoined(TwinWhy::NameTaken)),
        Err(JoinRefusal::TooMany) => Err(unjoined(TwinWhy::TooMany)),
        Err(JoinRefusal::OutOfMemory) => Err(Outcome::out_of_memory()),
    }
}

// What is written and said of a code of the joined network, and of certificates of that network's rate. `F` is the code's field.
fn of_code<'a, F: Field, G: Gate + Sync, R: Threads + Sync>(
    rt: &R,
    alloc: Global,
    words: &TwinWords<'a>,
    net: &Net,
    code: Code,
    certs: &[Cert],
    gate: &G,
) -> Result<Made<'a>, AllocError>
    requires field { IsOfKind (marked_kind F.MARK) F.SIZE F.BYTES F.MARK F.product }
    requires compiled { IsCompiled net.now (marked_kind F.MARK) code certs.now }
    requires joined { (old : Net) × Joins (twin_given_in words.now) old net.now }
    requires served { IsServedBy net.now (marked_kind F.MARK) }
    requires members { member_count net.now.patterns ≤ fitting_members }
    ensures { IfOk result (IsTwinReady (twin_given_in words.now) net.now) }
{
    let code = separate::<F>(alloc, &checked(rt, alloc, code, gate)?)?;
    Ok(Made {
        code: write_code(alloc, &code)?,
        report: report_of(rt, alloc, net, rate(certs), certs, WORKERS)?,
        line: Line::twinned(words.r1, words.r2, &code),
    })
}

// What is written and said of a joined network whose demands the field `F` serves.
fn make_over<'a, F: Field, G: Gate + Sync, R: Threads + Sync>(
    rt: &R,
    alloc: Global,
    words: &TwinWords<'a>,
    net: &Net,
    gate: &G,
) -> Result<Made<'a>, Outcome<'a>>
    requires field { IsOfKind (marked_kind F.MARK) F.SIZE F.BYTES F.MARK F.product }
    requires named { marked_kind F.MARK ≢ Nine }
    requires joined { (old : Net) × Joins (twin_given_in words.now) old net.now }
    requires served { IsServedBy net.now (marked_kind F.MARK) }
    requires acyclic { IsAcyclic net.now.links }
    requires members { member_count net.now.patterns ≤ fitting_members }
    ensures ready { IfOk result (IsTwinReady (twin_given_in words.now) net.now) }
    ensures refused { IfErr result (RefusesOrLosesIt net.now) }
{
    let (wiring, order) = ordered(alloc, net)?;
    match code_in::<F, G, Brand, R>(rt, alloc, net, &wiring, &order, gate, Blank::new(1)) {
        Ok((code, certs)) => Ok(of_code::<F, G, R>(rt, alloc, words, net, code, &certs, gate)?),
        Err(why) => Err(unmade(alloc, net, why)),
    }
}

// Compiles a joined network over the field that serves its demands, and takes all memory that its code and report need.
#[tactic(auto, unfolding(gf_tables::specs::Product::product))]
fn make<'a, G: Gate + Sync, R: Threads + Sync>(
    rt: &R,
    alloc: Global,
    words: &TwinWords<'a>,
    net: &Net,
    gate: &G,
) -> Result<Made<'a>, Outcome<'a>>
    requires joined { (old : Net) × Joins (twin_given_in words.now) old net.now }
    requires acyclic { IsAcyclic net.now.links }
    requires members { member_count net.now.patterns ≤ fitting_members }
    ensures ready { IfOk result (IsTwinReady (twin_given_in words.now) net.now) }
    ensures refused { IfErr result (RefusesOrLosesIt net.now) }
{
    match used_field(net) {
        Some(FieldChoice::Eight) => make_over::<Gf8, G, R>(rt, alloc, words, net, gate),
        Some(FieldChoice::Sixteen) => make_over::<Gf16, G, R>(rt, alloc, words, net, gate),
        Some(FieldChoice::Any) => unreachable!(),
        None => Err(crowded(net)),
    }
}

// Joins the sources of a network without a cycle, and writes a code and a report of the network that comes of it.
fn twin_net<'a, S: Store, G: Gate + Sync, R: Threads + Sync>(
    rt: &R,
    alloc: Global,
    words: &TwinWords<'a>,
    net: &Net,
    store: &mut S,
    gate: &G,
) -> Outcome<'a>
    requires acyclic { IsAcyclic net.now.links }
    requires members { member_count net.now.patterns ≤ fitting_members }
    ensures { MakesCalls S.Store store.old store.new (RunsMaking net_limit IsNetOf RefusesNet
        (IsTwinned (twin_given_in words.now)) (CanTwin (twin_given_in words.now))
        (RefusesTwin (twin_given_in words.now)) net.now result.status result.line) }
{
    let joined = match joined(alloc, words, net) {
        Ok(joined) => joined,
        Err(refused) => return refused,
    };
    match make(rt, alloc, words, &joined, gate) {
        Ok(made) => write_made(store, words.code, words.report, made),
        Err(refused) => refused,
    }
}

/// Reads a network, joins its source and the named node by a node `super` before both, compiles that network for the rate of
/// both sources, and separates the code, so that each link out of `super` carries a row of one source. It writes the code and the
/// report of the joined network. All memory is taken before a file is made.
pub fn twin<'a, S: Store, G: Gate + Sync, R: Threads + Sync>(
    rt: &R,
    alloc: Global,
    words: &TwinWords<'a>,
    store: &mut S,
    gate: &G,
) -> Outcome<'a>
    ensures { RunsOnStore S.Store
        (twin_command (twin_given_in words.now)) store.old store.new result }
{
    if let Some(path) = shared_path(words.net, words.code, words.report) {
        return Outcome {
            status: Status::SamePath,
            line: Line::same_path(path),
        };
    }
    match read_ordered(alloc, store, words.net) {
        Ok(ordered) => twin_net(rt, alloc, words, &ordered.net, store, gate),
        Err(refused) => refused,
    }
}
