//! Flows and certificates of demands, each with a counter of its own.
ghost use Rattle.std.specs.Prelude.{◌≡◌, ◌<◌, ◌≤◌, ◌+◌, ◌*◌, IfOk, IfSome, length};
ghost use Rattle.cut_witness.specs.Certificate.{IsCertificate, IsDemand};

use counted_steps::Steps;
use cut_witness::{Cert, certify};
use failure_patterns::{demand_at, demands};
use net_model::{Demand, Net};
use std::alloc::{AllocError, Global};
use std::marker::Brand;
use std::sync::ledger::{Blank, Ledger};
use unit_flow::{Flow, max_flow};

// The flow of a demand: each link is looked at twice at most, for each path and once more. This is proved, and takes
// nothing at run time.
fn counted_flow<L: Ledger>(
    alloc: Global,
    net: &Net,
    demand: Demand,
    steps: &mut Steps<L>,
) -> Result<Flow, AllocError>
    requires sink { demand.sink < length net.now.sinks }
    requires pattern { demand.pattern < length net.now.patterns }
    requires none { steps.old ≡ 0 }
    ensures visits { IfOk result
        (λ flow. steps.new ≤ 2 * length net.now.links * (length flow.paths + 1)) }
{
    max_flow(alloc, net, demand, steps)
}

// The flow of a demand, for a caller that goes on without the counter.
fn flow_from<L: Ledger>(
    alloc: Global,
    net: &Net,
    demand: Demand,
    blank: Blank,
) -> Result<Flow, AllocError>
    requires sink { demand.sink < length net.now.sinks }
    requires pattern { demand.pattern < length net.now.patterns }
    requires name { blank.name ≡ L.name }
    requires parts { blank.parts ≡ L.parts }
    requires some_part { 0 < blank.parts }
{
    counted_flow(alloc, net, demand, &mut Steps::<L>::start(blank))
}

// The flow of the demand of a number.
pub(super) fn flow_at(alloc: Global, net: &Net, number: u64) -> Option<Flow> {
    if number < demands(net) {
        flow_from::<Brand>(alloc, net, demand_at(net, number), Blank::new(1)).ok()
    } else {
        None
    }
}

// The certificate of a demand, for a caller that goes on without the counter.
fn certificate_from<L: Ledger>(
    alloc: Global,
    net: &Net,
    demand: Demand,
    blank: Blank,
) -> Result<Cert, AllocError>
    requires demand { IsDemand net.now demand }
    requires name { blank.name ≡ L.name }
    requires parts { blank.parts ≡ L.parts }
    requires some_part { 0 < blank.parts }
    ensures { IfOk result (IsCertificate net.now) }
{
    certify(alloc, net, demand, &mut Steps::<L>::start(blank))
}

// The certificate of the demand of a number.
pub(super) fn certificate_at(alloc: Global, net: &Net, number: u64) -> Option<Cert>
    ensures { IfSome result (IsCertificate net.now) }
{
    if number < demands(net) {
        certificate_from::<Brand>(alloc, net, demand_at(net, number), Blank::new(1)).ok()
    } else {
        None
    }
}
