//! The command `compile`.
ghost use Rattle.std.specs.Prelude.{◌≡◌, ◌≤◌, length};
ghost use Rattle.code_file.specs.Limits.{fitting_members};
ghost use Rattle.lif_outside.specs.Calls.{MakesCalls};
ghost use Rattle.link_chains.specs.Wiring.{IsWiring};
ghost use Rattle.net_model.specs.Failed.{member_count};
ghost use Rattle.net_model.specs.Walks.{IsAcyclic};
ghost use Rattle.topo_order.specs.Order.{order_of};
ghost use Rattle.top_base.specs.Given.{compile_given_in};
ghost use Rattle.top_base.specs.Performs.{RunsOnStore};
ghost use Rattle.top_tools.specs.Compile.Command.{Compiles, compile_command};

use crate::files::{shared_path, write_made};
use crate::making::make;
use lif_outside::{Gate, Store};
use link_chains::Wiring;
use net_model::Net;
use std::alloc::Global;
use std::thread::Threads;
use top_base::{CompileWords, Line, Outcome, Status, read_ordered};

// Compiles a network without a cycle, whose order and chains are at hand, and writes its code and report.
fn compile_net<'a, S: Store, G: Gate + Sync, R: Threads + Sync>(
    rt: &R,
    alloc: Global,
    words: &CompileWords<'a>,
    net: &Net,
    wiring: &Wiring,
    order: &[u32],
    store: &mut S,
    gate: &G,
) -> Outcome<'a>
    requires wiring { IsWiring net.now.links (length net.now.nodes) wiring.now }
    requires order { order.now ≡ order_of net.now.links }
    requires acyclic { IsAcyclic net.now.links }
    requires members { member_count net.now.patterns ≤ fitting_members }
    ensures { MakesCalls S.Store store.old store.new
        (Compiles (compile_given_in words.now) net.now result.status result.line) }
{
    match make(rt, alloc, net, wiring, order, gate) {
        Ok(made) => write_made(store, words.code, words.report, made),
        Err(refused) => refused,
    }
}

/// Reads a network, compiles it, and writes the code and the report of its certificates. All memory is taken before
/// a file is made.
pub fn compile<'a, S: Store, G: Gate + Sync, R: Threads + Sync>(
    rt: &R,
    alloc: Global,
    words: &CompileWords<'a>,
    store: &mut S,
    gate: &G,
) -> Outcome<'a>
    ensures { RunsOnStore S.Store
        (compile_command (compile_given_in words.now)) store.old store.new result }
{
    if let Some(path) = shared_path(words.net, words.code, words.report) {
        return Outcome {
            status: Status::SamePath,
            line: Line::same_path(path),
        };
    }
    match read_ordered(alloc, store, words.net) {
        Ok(ordered) => {
            let (wiring, order) = (&ordered.wiring, ordered.order.as_slice());
            compile_net(rt, alloc, words, &ordered.net, wiring, order, store, gate)
        }
        Err(refused) => refused,
    }
}
