//! The demands of a network in order, each a sink with a pattern, and the field that serves them.
//!
//! `demands` counts them, `demand_at` gives the one of a number and `number_of` its number, `sinks_below` how many with
//! a pattern are below a number, `used_field` the field. Read `specs/Demands.antt`, `specs/UsedField.antt`,
//! `specs/Rate.antt`, what the rate of a network is, and the first demand with a cut of a kind, and `specs/First.antt`,
//! the first demand that fails.
#![tactic(auto)]

ghost use Rattle.std.specs.Prelude.{◌≡◌, ◌↔◌, ◌/◌, ◌%◌, ◌<◌, ◌≤◌, ◌^◌, IsNone, length, slice_index};
ghost use Rattle.net_model.specs.Demands.{demand_count, pattern_of_demand, sink_of_demand};
ghost use Rattle.failure_patterns.specs.Demands.{demand_of, number_of};
ghost use Rattle.failure_patterns.specs.First.{sinks_below};
ghost use Rattle.failure_patterns.specs.UsedField.{most_demands, pair_demands, used_field};

mod batches;

pub use batches::batch_start;
use net_model::{Demand, FieldChoice, Net};

/// The most demands that the field of 256 elements serves.
pub const OCTET_DEMANDS: u64 = 256;

/// The most demands that the field of 65,536 elements serves.
pub const PAIR_DEMANDS: u64 = 65536;

/// How many demands there are: each sink with each pattern.
#[tactic(auto, using(crate::proofs::DemandLaws::demands_fit))]
pub fn demands(net: &Net) -> u64
    ensures { result ≡ demand_count net.now }
{
    net.sinks.len() as u64 * net.patterns.len() as u64
}

/// The demand of a number: all patterns of the first sink come first, then all of the second.
#[tactic(auto, using(crate::proofs::DemandLaws::sink_place_fits))]
pub fn demand_at(net: &Net, i: u64) -> Demand
    requires { i < demand_count net.now }
    ensures value { result ≡ demand_of net.now i }
    ensures node { slice_index net.now.sinks result.sink ≡ sink_of_demand net.now i }
    ensures pattern { result.pattern ≡ pattern_of_demand net.now i }
    ensures sink_in_range { result.sink < length net.now.sinks }
    ensures pattern_in_range { result.pattern < length net.now.patterns }
{
    demand_among(net.patterns.len() as u64, i)
}

/// The number of a demand, of which it is the demand.
#[tactic(auto, using(crate::proofs::DemandLaws::number_within, crate::proofs::DemandLaws::demand_of_number))]
pub fn number_of(net: &Net, demand: Demand) -> u64
    requires sink { demand.sink < length net.now.sinks }
    requires pattern { demand.pattern < length net.now.patterns }
    ensures value { result ≡ number_of net.now demand }
    ensures within { result < demand_count net.now }
    ensures back { demand_of net.now result ≡ demand }
{
    demand.sink as u64 * net.patterns.len() as u64 + demand.pattern as u64
}

// The demand of a number among so many patterns.
fn demand_among(patterns: u64, i: u64) -> Demand
    requires some_patterns { 0 < patterns }
    requires few_patterns { patterns < 2 ^ 32 }
    requires near { i / patterns < 2 ^ 32 }
    ensures sink { result.sink ≡ i / patterns }
    ensures pattern { result.pattern ≡ i % patterns }
{
    Demand {
        sink: (i / patterns) as u32,
        pattern: (i % patterns) as u32,
    }
}

/// How many sinks' demands with a pattern are below a number. As many of the first sinks are those.
pub fn sinks_below(net: &Net, pattern: u32, number: u32) -> u32
    requires pattern { pattern < length net.now.patterns }
    requires number { number ≤ pair_demands }
    ensures { result ≡ sinks_below (length net.now.patterns) pattern number }
{
    let patterns = net.patterns.len() as u32;
    (number + patterns - 1 - pattern) / patterns
}

/// The field for the network's demands: the one that is written, and else the smallest that serves them. `None`
/// where there are more demands than it serves.
pub fn used_field(net: &Net) -> Option<FieldChoice>
    ensures value { result ≡ used_field net.now.field (demand_count net.now) }
    ensures none { IsNone result ↔ (most_demands net.now.field < demand_count net.now) }
{
    used_field_for(net.field, demands(net))
}

// The field for so many demands.
fn used_field_for(choice: FieldChoice, demands: u64) -> Option<FieldChoice>
    ensures value { result ≡ used_field choice demands }
    ensures none { IsNone result ↔ (most_demands choice < demands) }
{
    match choice {
        FieldChoice::Any if demands <= OCTET_DEMANDS => Some(FieldChoice::Eight),
        FieldChoice::Any | FieldChoice::Sixteen if demands <= PAIR_DEMANDS => {
            Some(FieldChoice::Sixteen)
        }
        FieldChoice::Eight if demands <= OCTET_DEMANDS => Some(FieldChoice::Eight),
        _ => None,
    }
}
