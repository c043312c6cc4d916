//! Certificates of the demands of networks, and their rates.
use super::steps::certificate_at;
use super::{are_paths, numbered};
use cut_witness::{Cert, certify_all, rate};
use failure_patterns::{PAIR_DEMANDS, demands};
use lif_outside::{Gate, NoGate};
use net_model::{Demand, Net};
use std::alloc::Global;
use std::thread::Threads;
use test_support::gates::{Entries, Meeting};

// A network from node 0, with the certificates of its demands and its rate.
struct Example {
    ends: &'static [(u32, u32)],
    sinks: &'static [u32],
    patterns: &'static [&'static [u32]],
    certs: &'static [Expected],
    rate: u32,
}

// What a certificate has.
struct Expected {
    demand: Demand,
    paths: &'static [&'static [u32]],
    side: &'static [bool],
    cut: &'static [u32],
}

// The links s-a, s-b, a-t1, b-t2, a-c, b-c, c-d, d-t1 and d-t2 of the nodes s, t1, t2, a, b, c and d.
const BUTTERFLY: Example = Example {
    ends: &[
        (0, 3),
        (0, 4),
        (3, 1),
        (4, 2),
        (3, 5),
        (4, 5),
        (5, 6),
        (6, 1),
        (6, 2),
    ],
    sinks: &[1, 2],
    patterns: &[],
    certs: &[
        Expected {
            demand: Demand {
                sink: 0,
                pattern: 0,
            },
            paths: &[&[0, 2], &[1, 5, 6, 7]],
            side: &[true, false, false, false, false, false, false],
            cut: &[0, 1],
        },
        Expected {
            demand: Demand {
                sink: 1,
                pattern: 0,
            },
            paths: &[&[0, 4, 6, 8], &[1, 3]],
            side: &[true, false, false, false, false, false, false],
            cut: &[0, 1],
        },
    ],
    rate: 2,
};

// Two parallel links, of which either fails, or none.
const TWO_LINKS: Example = Example {
    ends: &[(0, 1), (0, 1)],
    sinks: &[1],
    patterns: &[&[0], &[1]],
    certs: &[
        Expected {
            demand: Demand {
                sink: 0,
                pattern: 0,
            },
            paths: &[&[0], &[1]],
            side: &[true, false],
            cut: &[0, 1],
        },
        Expected {
            demand: Demand {
                sink: 0,
                pattern: 1,
            },
            paths: &[&[1]],
            side: &[true, false],
            cut: &[1],
        },
        Expected {
            demand: Demand {
                sink: 0,
                pattern: 2,
            },
            paths: &[&[0]],
            side: &[true, false],
            cut: &[0],
        },
    ],
    rate: 1,
};

// One link, which fails or not.
const ONE_LINK: Example = Example {
    ends: &[(0, 1)],
    sinks: &[1],
    patterns: &[&[0]],
    certs: &[
        Expected {
            demand: Demand {
                sink: 0,
                pattern: 0,
            },
            paths: &[&[0]],
            side: &[true, false],
            cut: &[0],
        },
        Expected {
            demand: Demand {
                sink: 0,
                pattern: 1,
            },
            paths: &[],
            side: &[true, false],
            cut: &[],
        },
    ],
    rate: 0,
};

const EXAMPLES: &[Example] = &[BUTTERFLY, TWO_LINKS, ONE_LINK];

fn net_of_example(alloc: Global, example: &Example) -> Option<Net> {
    numbered(alloc, example.ends, example.sinks, example.patterns)
}

fn is_expected(cert: &Cert, expected: &Expected) -> bool {
    cert.demand == expected.demand
        && cert.value as usize == expected.cut.len()
        && are_paths(cert.paths.as_slice(), expected.paths)
        && cert.side.as_slice() == expected.side
        && cert.cut.as_slice() == expected.cut
}

fn is_certificate(alloc: Global, net: &Net, number: u64, expected: &Expected) -> bool {
    match certificate_at(alloc, net, number) {
        Some(cert) => is_expected(&cert, expected),
        None => false,
    }
}

fn are_one_by_one(alloc: Global, net: &Net, certs: &[Expected]) -> bool {
    for (number, expected) in certs.iter().enumerate() {
        if !is_certificate(alloc, net, number as u64, expected) {
            return false;
        }
    }
    true
}

// Whether each demand has its certificate, where they are asked for one by one.
fn has_certificates(alloc: Global, example: &Example) -> bool {
    match net_of_example(alloc, example) {
        Some(net) => are_one_by_one(alloc, &net, example.certs),
        None => false,
    }
}

// The first example in which a demand has another one.
fn wrong_certificates(alloc: Global) -> Option<usize> {
    for (row, example) in EXAMPLES.iter().enumerate() {
        if !has_certificates(alloc, example) {
            return Some(row);
        }
    }
    None
}

#[test]
fn each_demand_has_its_certificate(rt: HostRuntime) {
    assert!(rt; wrong_certificates(rt.alloc()).is_none());
}

fn are_expected(certs: &[Cert], expected: &[Expected]) -> bool {
    if certs.len() != expected.len() {
        return false;
    }
    for place in 0..expected.len() {
        if !is_expected(&certs[place], &expected[place]) {
            return false;
        }
    }
    true
}

fn are_certificates(certs: &[Cert], example: &Example) -> bool {
    are_expected(certs, example.certs) && !certs.is_empty() && rate(certs) == example.rate
}

// Whether so many workers make the certificates.
fn are_made<G: Gate + Sync, R: Threads + Sync>(
    rt: &R,
    alloc: Global,
    example: &Example,
    net: &Net,
    workers: u32,
    gate: &G,
) -> bool {
    if workers == 0 || demands(net) > PAIR_DEMANDS {
        return false;
    }
    match certify_all(rt, alloc, net, workers, gate) {
        Ok(certs) => are_certificates(&certs, example),
        Err(_) => false,
    }
}

fn is_certified<G: Gate + Sync, R: Threads + Sync>(
    rt: &R,
    alloc: Global,
    example: &Example,
    workers: u32,
    gate: &G,
) -> bool {
    match net_of_example(alloc, example) {
        Some(net) => are_made(rt, alloc, example, &net, workers, gate),
        None => false,
    }
}

// The first example in which so many workers make others.
fn wrong_example<R: Threads + Sync>(rt: &R, alloc: Global, workers: u32) -> Option<usize> {
    for (row, example) in EXAMPLES.iter().enumerate() {
        if !is_certified(rt, alloc, example, workers, &NoGate) {
            return Some(row);
        }
    }
    None
}

#[test]
fn all_demands_are_certified(rt: HostRuntime) {
    let are_right = wrong_example(&rt, rt.alloc(), 1).is_none()
        && wrong_example(&rt, rt.alloc(), 2).is_none()
        && wrong_example(&rt, rt.alloc(), 3).is_none()
        && wrong_example(&rt, rt.alloc(), 4).is_none();
    assert!(rt; are_right);
}

// Whether so many workers certify two links, and enter these jobs.
fn are_entered<R: Threads + Sync>(rt: &R, alloc: Global, workers: u32, jobs: u64) -> bool {
    let gate = Entries::new();
    is_certified(rt, alloc, &TWO_LINKS, workers, &gate) && gate.counted() == jobs
}

#[test]
fn any_number_of_workers(rt: HostRuntime) {
    let are_right = are_entered(&rt, rt.alloc(), 1, 1)
        && are_entered(&rt, rt.alloc(), 2, 11)
        && are_entered(&rt, rt.alloc(), 4, 111)
        && are_entered(&rt, rt.alloc(), 7, 111);
    assert!(rt; are_right);
}

// A network of 256 demands: sixteen sinks, each with a link from the source, and fifteen patterns, in each of which a
// link fails that leads to another node.
const WIDE_ENDS: &[(u32, u32)] = &[
    (0, 1),
    (0, 2),
    (0, 3),
    (0, 4),
    (0, 5),
    (0, 6),
    (0, 7),
    (0, 8),
    (0, 9),
    (0, 10),
    (0, 11),
    (0, 12),
    (0, 13),
    (0, 14),
    (0, 15),
    (0, 16),
    (0, 17),
];

const WIDE_SINKS: &[u32] = &[1, 2, 3, 4, 5, 6, 7, 8, 9, 10, 11, 12, 13, 14, 15, 16];

fn wide_network(alloc: Global) -> Option<Net> {
    numbered(alloc, WIDE_ENDS, WIDE_SINKS, &[[16].as_slice(); 15])
}

// How many certificates so many workers make.
fn count_made<G: Gate + Sync, R: Threads + Sync>(
    rt: &R,
    alloc: Global,
    net: &Net,
    workers: u32,
    gate: &G,
) -> Option<usize> {
    if workers == 0 || demands(net) > PAIR_DEMANDS {
        return None;
    }
    match certify_all(rt, alloc, net, workers, gate) {
        Ok(certs) => Some(certs.len()),
        Err(_) => None,
    }
}

// How many of the wide network.
fn count_wide<R: Threads + Sync>(
    rt: &R,
    alloc: Global,
    workers: u32,
    gate: &Meeting,
) -> Option<usize> {
    match wide_network(alloc) {
        Some(net) => count_made(rt, alloc, &net, workers, gate),
        None => None,
    }
}

// Whether so many workers certify the 256 demands, and each job meets another one.
fn do_meet<R: Threads + Sync>(rt: &R, alloc: Global, workers: u32, jobs: u64) -> bool {
    let gate = Meeting::new();
    count_wide(rt, alloc, workers, &gate) == Some(256) && gate.is_met(jobs)
}

#[test]
fn jobs_run_side_by_side(rt: HostRuntime) {
    let all_meet = do_meet(&rt, rt.alloc(), 2, 11)
        && do_meet(&rt, rt.alloc(), 3, 111)
        && do_meet(&rt, rt.alloc(), 4, 1111);
    assert!(rt; all_meet);
}
