//! The greatest flows of 200 small networks, compared with counts over all sets of links and of nodes.
use super::counting::{are_paths, is_least_side, least_cut, set_of, side_of};
use super::rule::network;
use super::steps::flow_at;
use failure_patterns::{demand_at, demands};
use net_model::Net;
use std::alloc::Global;
use unit_flow::Flow;

// Whether a flow to a sink has as many paths as the least cut has links, and its side is the least.
fn is_greatest(net: &Net, sink: u32, failed: u32, flow: &Flow) -> bool {
    let paths = flow.paths.as_slice();
    let side = flow.side.as_slice();
    paths.len() == least_cut(net, sink, failed)
        && are_paths(net, sink, failed, paths)
        && side.len() == net.nodes.len()
        && is_least_side(net, sink, failed, paths.len(), side_of(side))
}

// How many paths the flow of a demand has, where there is such a demand and the flow is a greatest one.
fn greatest_paths(net: &Net, number: u64, flow: &Flow) -> Option<usize> {
    if number >= demands(net) {
        return None;
    }
    let demand = demand_at(net, number);
    let sink = *net.sinks.at(demand.sink as usize);
    let failed = set_of(net.patterns.at(demand.pattern as usize).links.as_slice());
    is_greatest(net, sink, failed, flow).then_some(flow.paths.len())
}

// The same of the flow that is found.
fn paths_of(alloc: Global, net: &Net, number: u64) -> Option<usize> {
    match flow_at(alloc, net, number) {
        Some(flow) => greatest_paths(net, number, &flow),
        None => None,
    }
}

// Counts the flows of a network by their paths, and says whether all are greatest ones.
fn count_flows(alloc: Global, net: &Net, found: &mut [u32; 13]) -> bool {
    for number in 0..demands(net) {
        match paths_of(alloc, net, number) {
            Some(paths) => found[paths.min(12)] = found[paths.min(12)].saturating_add(1),
            None => return false,
        }
    }
    true
}

fn count_flows_of(alloc: Global, number: u32, found: &mut [u32; 13]) -> bool {
    match network(alloc, number) {
        Ok(Some(net)) => count_flows(alloc, &net, found),
        _ => false,
    }
}

// Whether there are 20 flows of each number of paths up to 4.
fn are_enough(found: &[u32; 13]) -> bool {
    for paths in 0..5usize {
        if found[paths] < 20 {
            return false;
        }
    }
    true
}

// Whether all flows of two hundred networks are greatest ones, and there are enough of each.
fn are_greatest(alloc: Global) -> bool {
    let mut found = [0; 13];
    for number in 0..200u32 {
        if !count_flows_of(alloc, number, &mut found) {
            return false;
        }
    }
    are_enough(&found)
}

#[test]
fn greatest_flows_of_two_hundred_networks(rt: HostRuntime) {
    assert!(rt; are_greatest(rt.alloc()));
}
