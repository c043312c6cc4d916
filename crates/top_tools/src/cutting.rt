//! The command `cuts`.
ghost use Rattle.std.specs.Prelude.{◌⊎◌, ◌≤◌, IfOk, IsNone, length};
ghost use Rattle.failure_patterns.specs.UsedField.{pair_demands};
ghost use Rattle.link_chains.specs.Wiring.{IsWiring};
ghost use Rattle.net_model.specs.Demands.{demand_count};
ghost use Rattle.top_base.specs.Inputs.{IsNoMemory};
ghost use Rattle.top_base.specs.Performs.{RunsOnStore};
ghost use Rattle.top_tools.specs.Cuts.{IsCrowded, IsReport, IsWitnessed, cuts_command, field_of};

use crate::reporting::report_of;
use cut_witness::{certify_all_along, rate};
use failure_patterns::{demands, used_field};
use lif_outside::{Gate, Store, WORKERS};
use link_chains::Wiring;
use net_model::Net;
use std::alloc::{AllocError, Global};
use std::thread::Threads;
use top_base::{Line, Outcome, Status, read_ordered};

/// What a network makes of a command that has more demands than a field serves.
pub fn crowded<'a>(net: &Net) -> Outcome<'a>
    requires { IsNone (field_of net.now) }
    ensures { IsCrowded net.now result }
{
    let count = demands(net);
    Outcome {
        status: Status::TooManyDemands { count },
        line: Line::too_many_demands(count),
    }
}

// The report of a network's certificates.
fn report<G: Gate + Sync, R: Threads + Sync>(
    rt: &R,
    alloc: Global,
    net: &Net,
    wiring: &Wiring,
    gate: &G,
) -> Result<Vec<u8>, AllocError>
    requires wiring { IsWiring net.now.links (length net.now.nodes) wiring.now }
    requires few_demands { demand_count net.now ≤ pair_demands }
    ensures { IfOk result (λ text. IsReport net.now text.items) }
{
    let certs = certify_all_along(rt, alloc, net, wiring, WORKERS, gate)?;
    report_of(rt, alloc, net, rate(&certs), &certs, WORKERS)
}

// Says the report of a network's certificates, where a field serves its demands.
fn witness<'a, G: Gate + Sync, R: Threads + Sync>(
    rt: &R,
    alloc: Global,
    net: &Net,
    wiring: &Wiring,
    gate: &G,
) -> Outcome<'a>
    requires { IsWiring net.now.links (length net.now.nodes) wiring.now }
    ensures { IsWitnessed net.now result ⊎ IsNoMemory result }
{
    if used_field(net).is_none() {
        return crowded(net);
    }
    match report(rt, alloc, net, wiring, gate) {
        Ok(text) => Outcome {
            status: Status::Done,
            line: Line::long(text),
        },
        Err(_) => Outcome::out_of_memory(),
    }
}

/// Reads the network at a path, and says the report of the certificates of its demands.
pub fn cuts<'a, S: Store, G: Gate + Sync, R: Threads + Sync>(
    rt: &R,
    alloc: Global,
    path: &str,
    store: &mut S,
    gate: &G,
) -> Outcome<'a>
    ensures { RunsOnStore S.Store (cuts_command path.now) store.old store.new result }
{
    match read_ordered(alloc, store, path) {
        Ok(ordered) => witness(rt, alloc, &ordered.net, &ordered.wiring, gate),
        Err(refused) => refused,
    }
}
