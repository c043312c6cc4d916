//! Worked examples, by subject: what the definitions give, and what calls give that are run.
mod accepting;
mod beginnings;
mod blocks;
mod certificates;
mod checks;
mod code_files;
mod codes;
mod combinations;
mod counting;
mod demands;
mod drafts;
mod fields;
mod finishing;
mod flows;
mod gates;
mod joined_sources;
mod limits;
mod links;
mod live_links;
mod many_lines;
mod names;
mod network_texts;
mod networks;
mod orders;
mod outside;
mod products;
mod renumbered;
mod reports;
mod rule;
mod spelled;
mod steps;
mod texts;
mod two_hundred;
mod vectors;

use net_model::{LinkList, Net};
use network_texts::net_of;
use std::alloc::{AllocError, Global};

fn add_sinks(text: &mut String, sinks: &[u32]) -> Result<(), AllocError> {
    for sink in sinks {
        writeln!(text, "sink n{sink}")?;
    }
    Ok(())
}

fn add_links(text: &mut String, ends: &[(u32, u32)]) -> Result<(), AllocError> {
    for (number, &(tail, head)) in ends.iter().enumerate() {
        writeln!(text, "link l{number} n{tail} n{head}")?;
    }
    Ok(())
}

fn add_pattern(text: &mut String, number: usize, links: &[u32]) -> Result<(), AllocError> {
    write!(text, "pattern p{number}")?;
    for link in links {
        write!(text, " l{link}")?;
    }
    writeln!(text)
}

fn add_all(
    text: &mut String,
    ends: &[(u32, u32)],
    sinks: &[u32],
    patterns: &[&[u32]],
) -> Result<(), AllocError> {
    text.push_str("source n0\n")?;
    add_sinks(text, sinks)?;
    add_links(text, ends)?;
    for (number, &links) in patterns.iter().enumerate() {
        add_pattern(text, number, links)?;
    }
    Ok(())
}

// The text of a network with these links, from node 0 to these sinks, and with these patterns: node 3 is named
// `n3`, and link 5 `l5`.
fn text_of(
    alloc: Global,
    ends: &[(u32, u32)],
    sinks: &[u32],
    patterns: &[&[u32]],
) -> Result<String, AllocError> {
    let mut text = String::new(alloc);
    add_all(&mut text, ends, sinks, patterns)?;
    Ok(text)
}

// The network of such a text, in which nodes are numbered as their names first appear there.
fn network_of(
    alloc: Global,
    ends: &[(u32, u32)],
    sinks: &[u32],
    patterns: &[&[u32]],
) -> Option<Net> {
    match text_of(alloc, ends, sinks, patterns) {
        Ok(text) => net_of(alloc, text.as_bytes()).ok(),
        Err(_) => None,
    }
}

// Whether node 3 of a network is named `n3`, and so on.
fn are_numbered(alloc: Global, net: &Net) -> Result<bool, AllocError> {
    for (number, node) in net.nodes.as_slice().iter().enumerate() {
        if node.bytes() != format!(in alloc; "n{number}")?.as_bytes() {
            return Ok(false);
        }
    }
    Ok(true)
}

// The network of such a text, where it keeps the numbers of the nodes.
fn numbered(alloc: Global, ends: &[(u32, u32)], sinks: &[u32], patterns: &[&[u32]]) -> Option<Net> {
    match network_of(alloc, ends, sinks, patterns) {
        Some(net) if matches!(are_numbered(alloc, &net), Ok(true)) => Some(net),
        _ => None,
    }
}

// Whether paths have these links.
fn are_paths(paths: &[LinkList], wanted: &[&[u32]]) -> bool {
    if paths.len() != wanted.len() {
        return false;
    }
    for place in 0..wanted.len() {
        if paths[place].as_slice() != wanted[place] {
            return false;
        }
    }
    true
}
