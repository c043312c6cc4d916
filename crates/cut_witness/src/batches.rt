//! The demands of a network, cut into batches.
ghost use Rattle.std.specs.Prelude.{◌≡◌, ◌<◌, ◌≤◌, ◌+◌, IfOk, length, vec_len};
ghost use Rattle.failure_patterns.specs.Demands.{demand_of, number_of};
ghost use Rattle.failure_patterns.specs.UsedField.{pair_demands};
ghost use Rattle.cut_witness.specs.Certificate.{AreBatches, AreCertificates, AreCertificatesFrom, IsBatch, IsCertificate, IsDemand};
ghost use Rattle.link_chains.specs.Wiring.{IsWiring};
ghost use Rattle.net_model.specs.Demands.{demand_count};
ghost use Rattle.unit_flow.specs.Begun.{IsFlowToSink};
ghost use Rattle.unit_flow.specs.Visits.{AreFewVisits};

use crate::Cert;
use crate::crossing::cut_of;
use counted_steps::Steps;
use failure_patterns::{batch_start, demand_at, demands, number_of};
use item_list::ItemList;
use lif_outside::Gate;
use link_chains::Wiring;
use net_model::{Demand, Net, Paths};
use std::alloc::{AllocError, Global};
use std::marker::Brand;
use std::sync::ledger::{Blank, Ledger};
use std::thread::{Threads, map_indices};
use unit_flow::{Flow, max_flow_along, max_flow_from};

/// The certificate of a demand, where the chains of the network's links are given.
pub fn certify_along<L: Ledger>(
    alloc: Global,
    net: &Net,
    wiring: &Wiring,
    demand: Demand,
    steps: &mut Steps<L>,
) -> Result<Cert, AllocError>
    requires wiring { IsWiring net.now.links (length net.now.nodes) wiring.now }
    requires demand { IsDemand net.now demand }
    ensures certificate { IfOk result (IsCertificate net.now) }
    ensures demand { IfOk result (λ cert. cert.demand ≡ demand) }
    ensures ticks { AreFewVisits net.now demand steps.old steps.new }
{
    let none = ItemList::of(Vec::new(alloc));
    certify_from(alloc, net, wiring, demand, &none, steps)
}

// The same, where the flow is begun from one to the demand's sink under whatever pattern.
fn certify_from<L: Ledger>(
    alloc: Global,
    net: &Net,
    wiring: &Wiring,
    demand: Demand,
    begun: &Paths,
    steps: &mut Steps<L>,
) -> Result<Cert, AllocError>
    requires wiring { IsWiring net.now.links (length net.now.nodes) wiring.now }
    requires demand { IsDemand net.now demand }
    requires begun { IsFlowToSink net.now demand begun.now }
    ensures certificate { IfOk result (IsCertificate net.now) }
    ensures demand { IfOk result (λ cert. cert.demand ≡ demand) }
    ensures ticks { AreFewVisits net.now demand steps.old steps.new }
{
    let Flow { paths, side } = max_flow_from(alloc, net, wiring, demand, begun, steps)?;
    let cut = cut_of(alloc, net, demand, &side)?;
    let value = cut.len() as u32;
    Ok(Cert {
        demand,
        value,
        paths,
        side,
        cut,
    })
}

/// The certificates of all demands, in so many batches side by side.
pub fn certify_batches<G: Gate + Sync, R: Threads + Sync>(
    rt: &R,
    alloc: Global,
    net: &Net,
    wiring: &Wiring,
    batches: u32,
    gate: &G,
) -> Result<Vec<Cert>, AllocError>
    requires wiring { IsWiring net.now.links (length net.now.nodes) wiring.now }
    requires some_batches { 0 < batches }
    requires few_demands { demand_count net.now ≤ pair_demands }
    ensures { IfOk result (λ certs. AreCertificates net.now certs.items) }
{
    let made = map_indices(
        rt,
        alloc,
        batches as usize,
        &|batch: usize| { enter_batch(alloc, net, wiring, batches, batch as u32, gate) },
    )?;
    join_batches(alloc, net, batches, made)
}

// The certificates of a batch, which enters the gate before.
fn enter_batch<G: Gate>(
    alloc: Global,
    net: &Net,
    wiring: &Wiring,
    batches: u32,
    batch: u32,
    gate: &G,
) -> Result<Vec<Cert>, AllocError>
    requires wiring { IsWiring net.now.links (length net.now.nodes) wiring.now }
    requires batch { batch < batches }
    requires few_demands { demand_count net.now ≤ pair_demands }
    ensures { IfOk result (λ certs. IsBatch net.now batches batch certs.items) }
{
    gate.enter(batch);
    let count = demands(net);
    let from = batch_start(batch, batches, count);
    let to = batch_start(batch + 1, batches, count);
    certify_batch::<Brand>(alloc, net, wiring, from, to, Blank::new(1))
}

// The certificates of all batches, put together in the order of the batches.
fn join_batches(
    alloc: Global,
    net: &Net,
    batches: u32,
    made: Vec<Result<Vec<Cert>, AllocError>>,
) -> Result<Vec<Cert>, AllocError>
    requires some_batches { 0 < batches }
    requires count { vec_len made ≡ batches }
    requires each { AreBatches net.now batches made.items }
    ensures { IfOk result (λ certs. AreCertificates net.now certs.items) }
{
    let mut certs = Vec::with_capacity(alloc, demands(net) as usize)?;
    for batch in made {
        certs.append(&mut batch?)?;
    }
    Ok(certs)
}

// The certificates of the demands of one batch: from one number on and below another.
fn certify_batch<L: Ledger>(
    alloc: Global,
    net: &Net,
    wiring: &Wiring,
    from: u64,
    to: u64,
    blank: Blank,
) -> Result<Vec<Cert>, AllocError>
    requires wiring { IsWiring net.now.links (length net.now.nodes) wiring.now }
    requires ordered { from ≤ to }
    requires within { to ≤ demand_count net.now }
    requires name { blank.name ≡ L.name }
    requires parts { blank.parts ≡ L.parts }
    requires some_part { 0 < blank.parts }
    ensures count { IfOk result (λ certs. from + length certs.items ≡ to) }
    ensures certificates { IfOk result (λ certs. AreCertificatesFrom net.now from certs.items) }
{
    let mut certs = Vec::with_capacity(alloc, (to - from) as usize)?;
    if from == to {
        return Ok(certs);
    }
    let mut steps = Steps::<L>::start(blank);
    let held = hold_paths(alloc, net, wiring, from, &mut steps)?;
    for number in from..to {
        let demand = demand_at(net, number);
        let cert = certify_next(alloc, net, wiring, from, &certs, &held, demand, &mut steps)?;
        certs.push(cert)?;
    }
    Ok(certs)
}

// The certificate of the demand behind those of a batch so far. Where links fail, its flow is begun from that of the
// same sink where none fails.
fn certify_next<L: Ledger>(
    alloc: Global,
    net: &Net,
    wiring: &Wiring,
    from: u64,
    certs: &[Cert],
    held: &Paths,
    demand: Demand,
    steps: &mut Steps<L>,
) -> Result<Cert, AllocError>
    requires wiring { IsWiring net.now.links (length net.now.nodes) wiring.now }
    requires demand { IsDemand net.now demand }
    requires next { number_of net.now demand ≡ from + length certs.now }
    requires certificates { AreCertificatesFrom net.now from certs.now }
    requires held { IsFlowToSink net.now (demand_of net.now from) held.now }
    ensures certificate { IfOk result (IsCertificate net.now) }
    ensures demand { IfOk result (λ cert. cert.demand ≡ demand) }
{
    if demand.pattern == 0 {
        return certify_along(alloc, net, wiring, demand, steps);
    }
    let begun = paths_before(net, from, certs, held, demand);
    certify_from(alloc, net, wiring, demand, begun, steps)
}

// The paths of the flow of a demand's sink where no link fails: its certificate's, or those that are held where it
// isn't of the batch.
fn paths_before<'a>(
    net: &Net,
    from: u64,
    certs: &'a [Cert],
    held: &'a Paths,
    demand: Demand,
) -> &'a Paths
    requires demand { IsDemand net.now demand }
    requires fails { 0 < demand.pattern }
    requires next { number_of net.now demand ≡ from + length certs.now }
    requires certificates { AreCertificatesFrom net.now from certs.now }
    requires held { IsFlowToSink net.now (demand_of net.now from) held.now }
    ensures { IsFlowToSink net.now demand result.now }
{
    let none = number_of(net, without_failures(demand));
    if none < from {
        held
    } else {
        &certs[(none - from) as usize].paths
    }
}

// The paths from which the first demands of a batch are begun: those of a flow of their sink where no link fails, but
// none where the batch begins with that demand.
fn hold_paths<L: Ledger>(
    alloc: Global,
    net: &Net,
    wiring: &Wiring,
    from: u64,
    steps: &mut Steps<L>,
) -> Result<Paths, AllocError>
    requires wiring { IsWiring net.now.links (length net.now.nodes) wiring.now }
    requires within { from < demand_count net.now }
    ensures { IfOk result (IsFlowToSink net.now (demand_of net.now from)) }
{
    let demand = demand_at(net, from);
    if demand.pattern == 0 {
        return Ok(ItemList::of(Vec::new(alloc)));
    }
    let Flow { paths, .. } = max_flow_along(alloc, net, wiring, without_failures(demand), steps)?;
    Ok(paths)
}

// The demand of the same sink where no link fails.
fn without_failures(demand: Demand) -> Demand
    ensures { result ≡ record { sink = demand.sink; pattern = 0 } }
{
    Demand {
        sink: demand.sink,
        pattern: 0,
    }
}
