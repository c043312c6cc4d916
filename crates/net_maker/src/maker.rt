//! Combination networks.
ghost use Rattle.std.specs.Prelude.{◌≡◌, ◌+◌, ◌^◌, ◌++◌, ◌≤◌, ◌<◌, IfOk, OnOk, length, map};
ghost use Rattle.std.specs.List.{range_with_len};
ghost use Rattle.net_model.specs.Limits.{most_nodes};
ghost use Rattle.net_maker.specs.Combination.{IsCombination, entry_link, links, node_names, patterns, sink_link, sink_links, sinks};
ghost use Rattle.net_maker.specs.Fits.{Fits, most_middle};
ghost use Rattle.net_maker.specs.Subsets.{binomial, subsets_of};

use crate::fits::binomial;
use crate::names::{name, numbered, pair_name, push_numbered};
use crate::subsets::advance;
use net_model::{
    FieldChoice, Link, LinkList, LinkTable, NameList, Net, NodeList, Pattern, PatternList,
};
use std::alloc::{AllocError, Global};

/// The network with a source `s`, middle nodes `m1` to `mn`, and a sink behind each `k` of these: `t1`, `t2`
/// and so on, the sets of middle nodes in lexicographic order. Link `aI` leads from `s` to `mI`, and link `bJ-I`
/// from `mI` to `tJ`.
pub fn combination(alloc: Global, n: u32, k: u32) -> Result<Net, AllocError>
    requires { Fits n k }
    ensures { IfOk result (IsCombination n k) }
{
    let count = binomial(n, k) as u32;
    let nodes = nodes(alloc, n, count)?;
    let links = links(alloc, n, k, count)?;
    let sinks = sinks(alloc, n, count)?;
    let patterns = patterns(alloc)?;
    Ok(Net::of(nodes, links, 0, sinks, patterns, FieldChoice::Any))
}

// The names of the nodes.
fn nodes(alloc: Global, n: u32, count: u32) -> Result<NameList, AllocError>
    requires middle { n ≤ most_nodes }
    requires count { count ≤ most_nodes }
    ensures { IfOk result (λ nodes. nodes ≡ node_names n count) }
{
    let mut nodes = Vec::new(alloc);
    nodes.push(name(alloc, b"s")?)?;
    push_numbered(alloc, &mut nodes, b'm', n)?;
    push_numbered(alloc, &mut nodes, b't', count)?;
    Ok(NameList::of(nodes))
}

// So many numbers from a first one on.
fn numbers(alloc: Global, first: u32, count: u32) -> Result<Vec<u32>, AllocError>
    requires { first + count < 2 ^ 32 }
    ensures { IfOk result (λ numbers. numbers.items ≡ range_with_len first count) }
{
    let mut numbers = Vec::new(alloc);
    for before in 0..count {
        numbers.push(first + before)?;
    }
    Ok(numbers)
}

// The links.
fn links(alloc: Global, n: u32, k: u32, count: u32) -> Result<LinkTable, AllocError>
    requires fits { Fits n k }
    requires count { count ≡ binomial n k }
    ensures { IfOk result (λ made. made ≡ links n k) }
{
    let mut links = Vec::new(alloc);
    push_entry_links(alloc, &mut links, n)?;
    push_all_sink_links(alloc, &mut links, n, k, count)?;
    Ok(LinkTable::of(links))
}

// Adds the links from the source.
fn push_entry_links(alloc: Global, links: &mut Vec<Link>, n: u32) -> Result<(), AllocError>
    requires { n ≤ most_middle }
    ensures { OnOk result (links.new.items
        ≡ links.old.items ++ map entry_link (range_with_len 1 n)) }
{
    for before in 0..n {
        let head = before + 1;
        let name = numbered(alloc, b'a', head)?;
        links.push(Link {
            name,
            tail: 0,
            head,
        })?;
    }
    Ok(())
}

// Adds the links into all sinks.
fn push_all_sink_links(
    alloc: Global,
    links: &mut Vec<Link>,
    n: u32,
    k: u32,
    count: u32,
) -> Result<(), AllocError>
    requires fits { Fits n k }
    requires count { count ≡ binomial n k }
    ensures { OnOk result (links.new.items ≡ links.old.items ++ sink_links n 1 (subsets_of 1 n k)) }
{
    let mut subset = numbers(alloc, 1, k)?;
    for before in 0..count {
        push_sink_links(alloc, links, n, before + 1, &subset)?;
        advance(&mut subset, n);
    }
    Ok(())
}

// Adds the links into a sink.
fn push_sink_links(
    alloc: Global,
    links: &mut Vec<Link>,
    n: u32,
    sink: u32,
    middles: &[u32],
) -> Result<(), AllocError>
    requires { n + sink < 2 ^ 32 }
    ensures { OnOk result (links.new.items
        ≡ links.old.items ++ map (sink_link n sink) middles.now) }
{
    for middle in middles {
        let name = pair_name(alloc, sink, *middle)?;
        links.push(Link {
            name,
            tail: *middle,
            head: n + sink,
        })?;
    }
    Ok(())
}

// The sinks.
fn sinks(alloc: Global, n: u32, count: u32) -> Result<NodeList, AllocError>
    requires middle { n ≤ most_nodes }
    requires count { count ≤ most_nodes }
    ensures { IfOk result (λ nodes. nodes ≡ sinks n count) }
{
    Ok(NodeList::of(numbers(alloc, n + 1, count)?))
}

// The pattern `none` alone.
fn patterns(alloc: Global) -> Result<PatternList, AllocError>
    ensures { IfOk result (λ made. made ≡ patterns) }
{
    let none = Pattern {
        name: name(alloc, b"none")?,
        links: LinkList::of(Vec::new(alloc)),
    };
    let mut patterns = Vec::new(alloc);
    patterns.push(none)?;
    Ok(PatternList::of(patterns))
}
