//! Small networks by a rule, each by its number.
ghost use Rattle.std.specs.Prelude.{◌≡◌, ◌<◌, ◌≤◌};

use super::network_of;
use net_model::Net;
use std::alloc::{AllocError, Global};
use test_support::draws::Draws;

// The most links of a network.
const MOST_LINKS: u32 = 12;

// What the links of a network are like.
#[derive(Clone, Copy)]
enum Shape {
    // From the source to a middle layer, and from there to the sinks.
    Layered,
    // From a node of lower number to one of higher number.
    Rising,
    // From any node to any other, the source and the sinks too.
    Any,
    // Many between two or three nodes.
    Parallel,
}

fn shape_of(number: u32) -> Shape {
    match number % 4 {
        0 => Shape::Layered,
        1 => Shape::Rising,
        2 => Shape::Any,
        _ => Shape::Parallel,
    }
}

fn node_count(draws: &mut Draws, shape: Shape) -> u32
    ensures some_nodes { 2 ≤ result }
    ensures few_nodes { result ≤ 7 }
{
    match shape {
        Shape::Layered => 7,
        Shape::Parallel => 2 + draws.below(2),
        Shape::Rising | Shape::Any => 2 + draws.below(6),
    }
}

// Two different nodes.
fn two_nodes(draws: &mut Draws, nodes: u32) -> (u32, u32)
    requires some_nodes { 2 ≤ nodes }
    requires few_nodes { nodes ≤ 7 }
{
    let tail = draws.below(nodes);
    let head = (tail + 1 + draws.below(nodes - 1)) % nodes;
    (tail, head)
}

// The ends of a link.
fn ends_of(draws: &mut Draws, shape: Shape, nodes: u32) -> (u32, u32)
    requires some_nodes { 2 ≤ nodes }
    requires few_nodes { nodes ≤ 7 }
{
    match shape {
        Shape::Layered => {
            let middle = 1 + draws.below(3);
            if draws.below(2) == 0 {
                (0, middle)
            } else {
                (middle, 4 + draws.below(3))
            }
        }
        Shape::Rising => {
            let (one, other) = two_nodes(draws, nodes);
            (one.min(other), one.max(other))
        }
        Shape::Any | Shape::Parallel => two_nodes(draws, nodes),
    }
}

fn links(
    alloc: Global,
    draws: &mut Draws,
    shape: Shape,
    nodes: u32,
    count: u32,
) -> Result<Vec<(u32, u32)>, AllocError>
    requires some_nodes { 2 ≤ nodes }
    requires few_nodes { nodes ≤ 7 }
{
    let mut links = Vec::new(alloc);
    for _ in 0..count {
        links.push(ends_of(draws, shape, nodes))?;
    }
    Ok(links)
}

// About one in so many of the numbers from `first` to `end`, and one of them at least.
fn some_of(
    alloc: Global,
    draws: &mut Draws,
    first: u32,
    end: u32,
    one_in: u32,
) -> Result<Vec<u32>, AllocError>
    requires order { first < end }
    requires one_in { 0 < one_in }
{
    let mut drawn = Vec::new(alloc);
    for number in first..end {
        if draws.below(one_in) == 0 {
            drawn.push(number)?;
        }
    }
    if drawn.is_empty() {
        drawn.push(first + draws.below(end - first))?;
    }
    Ok(drawn)
}

// The links that leave the source, or the first one where none does.
fn source_links(alloc: Global, links: &[(u32, u32)]) -> Result<Vec<u32>, AllocError> {
    let mut leaving = Vec::new(alloc);
    for link in 0..MOST_LINKS {
        if let Some((0, _)) = links.get(link as usize) {
            leaving.push(link)?;
        }
    }
    if leaving.is_empty() {
        leaving.push(0)?;
    }
    Ok(leaving)
}

// The network of these links, sinks and patterns, and of one in which all links fail that leave the source.
fn with_all(
    alloc: Global,
    links: &[(u32, u32)],
    sinks: &[u32],
    few: &[u32],
    many: &[u32],
) -> Result<Option<Net>, AllocError> {
    let all = source_links(alloc, links)?;
    Ok(network_of(alloc, links, sinks, &[few, many, &all]))
}

// The same of these links and sinks, with patterns in which a few links fail, and many do.
fn with_few(
    alloc: Global,
    draws: &mut Draws,
    links: &[(u32, u32)],
    sinks: &[u32],
    few: &[u32],
    count: u32,
) -> Result<Option<Net>, AllocError>
    requires { 1 ≤ count }
{
    let many = some_of(alloc, draws, 0, count, 2)?;
    with_all(alloc, links, sinks, few, &many)
}

fn with_sinks(
    alloc: Global,
    draws: &mut Draws,
    links: &[(u32, u32)],
    sinks: &[u32],
    count: u32,
) -> Result<Option<Net>, AllocError>
    requires { 1 ≤ count }
{
    let few = some_of(alloc, draws, 0, count, 6)?;
    with_few(alloc, draws, links, sinks, &few, count)
}

// The same of these links, with some of the nodes as sinks.
fn with_links(
    alloc: Global,
    draws: &mut Draws,
    links: &[(u32, u32)],
    nodes: u32,
    count: u32,
) -> Result<Option<Net>, AllocError>
    requires some_nodes { 2 ≤ nodes }
    requires some_links { 1 ≤ count }
{
    let sinks = some_of(alloc, draws, 1, nodes, 2)?;
    with_sinks(alloc, draws, links, &sinks, count)
}

// The network of a number, with the nodes that a link or a sink names. In its patterns no link fails, a few do, many
// do, and all do that leave the source.
pub(super) fn network(alloc: Global, number: u32) -> Result<Option<Net>, AllocError> {
    let mut draws = Draws::of(number);
    let shape = shape_of(number);
    let nodes = node_count(&mut draws, shape);
    let count = 1 + draws.below(MOST_LINKS);
    let links = links(alloc, &mut draws, shape, nodes, count)?;
    with_links(alloc, &mut draws, &links, nodes, count)
}
