//! Certificates of a network's demands.
ghost use Rattle.std.specs.Prelude.{◌≡◌, ◌≤◌, ◌<◌, IfOk, length};
ghost use Rattle.failure_patterns.specs.UsedField.{pair_demands};
ghost use Rattle.cut_witness.specs.Certificate.{AreCertificates, IsCertificate, IsDemand, IsLeastValue};
ghost use Rattle.link_chains.specs.Wiring.{IsWiring};
ghost use Rattle.net_model.specs.Demands.{demand_count};
ghost use Rattle.unit_flow.specs.Visits.{AreFewVisits};

use crate::Cert;
use crate::batches::{certify_along, certify_batches};
use counted_steps::Steps;
use failure_patterns::demands;
use lif_outside::{Gate, batch_count};
use link_chains::{Wiring, wiring_of};
use net_model::{Demand, Net};
use std::alloc::{AllocError, Global};
use std::sync::ledger::Ledger;
use std::thread::Threads;

/// The certificate of a demand: a greatest flow, its least side, and the links that leave it, as many as the flow
/// has paths.
pub fn certify<L: Ledger>(
    alloc: Global,
    net: &Net,
    demand: Demand,
    steps: &mut Steps<L>,
) -> Result<Cert, AllocError>
    requires { IsDemand net.now demand }
    ensures certificate { IfOk result (IsCertificate net.now) }
    ensures demand { IfOk result (λ cert. cert.demand ≡ demand) }
    ensures ticks { AreFewVisits net.now demand steps.old steps.new }
{
    let wiring = wiring_of(alloc, net)?;
    certify_along(alloc, net, &wiring, demand, steps)
}

/// The certificates of all demands of a network, in their order. The demands are cut into as many batches as there are
/// workers, or demands where those are fewer, and the batches are done side by side. Each enters the gate with its number
/// before it begins.
pub fn certify_all<G: Gate + Sync, R: Threads + Sync>(
    rt: &R,
    alloc: Global,
    net: &Net,
    workers: u32,
    gate: &G,
) -> Result<Vec<Cert>, AllocError>
    requires workers { 1 ≤ workers }
    requires few_demands { demand_count net.now ≤ pair_demands }
    ensures { IfOk result (λ certs. AreCertificates net.now certs.items) }
{
    let wiring = wiring_of(alloc, net)?;
    certify_all_along(rt, alloc, net, &wiring, workers, gate)
}

/// The same as [`certify_all`], where the chains of the network's links are given.
pub fn certify_all_along<G: Gate + Sync, R: Threads + Sync>(
    rt: &R,
    alloc: Global,
    net: &Net,
    wiring: &Wiring,
    workers: u32,
    gate: &G,
) -> Result<Vec<Cert>, AllocError>
    requires wiring { IsWiring net.now.links (length net.now.nodes) wiring.now }
    requires workers { 1 ≤ workers }
    requires few_demands { demand_count net.now ≤ pair_demands }
    ensures { IfOk result (λ certs. AreCertificates net.now certs.items) }
{
    let batches = batch_count(demands(net), workers);
    certify_batches(rt, alloc, net, wiring, batches, gate)
}

/// The least value of certificates: where they are those of all demands, the rate of their network.
pub fn rate(certs: &[Cert]) -> u32
    requires { 0 < length certs.now }
    ensures { IsLeastValue certs.now result }
{
    let mut least = certs[0].value;
    for cert in certs {
        least = least.min(cert.value);
    }
    least
}
