//! The demands of a small network, and the field that serves them.
use failure_patterns::{demand_at, demands, used_field};
use net_model::{Demand, FieldChoice, Net};
use net_reader::read_net;
use std::alloc::Global;

// A link from the source to the first of three sinks, and three patterns in which it fails.
const SMALL: &[u8] = b"source n0\n\
    sink n1\n\
    sink n2\n\
    sink n3\n\
    link l n0 n1\n\
    pattern a l\n\
    pattern b l\n\
    pattern c l\n";

// The demands of three sinks and four patterns, in order.
const IN_ORDER: [(u32, u32); 12] = [
    (0, 0),
    (0, 1),
    (0, 2),
    (0, 3),
    (1, 0),
    (1, 1),
    (1, 2),
    (1, 3),
    (2, 0),
    (2, 1),
    (2, 2),
    (2, 3),
];

// Whether a network has these demands, in this order.
fn has_demands(net: &Net, wanted: &[(u32, u32)]) -> bool {
    if demands(net) != wanted.len() as u64 {
        return false;
    }
    for (number, &(sink, pattern)) in wanted.iter().enumerate() {
        if demand_at(net, number as u64) != (Demand { sink, pattern }) {
            return false;
        }
    }
    true
}

fn is_served(net: &Net) -> bool {
    has_demands(net, &IN_ORDER) && used_field(net) == Some(FieldChoice::Eight)
}

fn is_small(alloc: Global) -> bool {
    match read_net(alloc, SMALL) {
        Ok(net) => is_served(&net),
        Err(_) => false,
    }
}

#[test]
fn a_small_network(rt: HostRuntime) {
    assert!(rt; is_small(rt.alloc()));
}
