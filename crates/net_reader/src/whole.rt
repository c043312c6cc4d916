//! All of a network text.
ghost use Rattle.std.specs.Prelude.{◌≡◌, ◌≤◌, List, Ok, length, position, IfOk, IfErr, IsOkUnless};
ghost use Rattle.net_model.specs.Network.{IsNetwork, IsWanted};
ghost use Rattle.net_reader.specs.Gives.{Fails, Gives, Makes};
ghost use Rattle.net_reader.specs.Parts.{parts_seen};
ghost use Rattle.net_reader.specs.State.{AreTables, IsState};
ghost use Rattle.net_reader.specs.Statements.{Statement, link_names};
ghost use Rattle.net_reader.specs.Text.{alone_fault, names_pattern, net_limit, network_of, parts_in, parts_of, whole_said};
ghost use Rattle.net_reader.specs.declared.refusal.ReadRefusal.TheVariants.{OutOfMemory};

use crate::ReadRefusal;
use crate::parts::{Parts, choice_of, name_list, number, pattern_list, sink_list};
use crate::reading::read_text;
use crate::state::{NONE, State};
use net_model::{LinkTable, MOST_LISTED, Net};
use std::alloc::Global;

// The parts that the tables stand for.
fn parts_in(alloc: Global, state: State, source: &[u8]) -> Result<Parts, ReadRefusal>
    requires { IsState state }
    ensures gives { (statements : List Statement) → AreTables statements state.entry
        → Makes parts_seen result (parts_in statements source.now) }
    ensures refused { IsOkUnless result OutOfMemory }
{
    let nodes = name_list(alloc, state.nodes.as_slice())?;
    let source = number(&state.nodes, source);
    let sinks = sink_list(alloc, &state.nodes, state.sinks.as_slice())?;
    let State {
        link_names,
        links,
        patterns,
        field,
        rate,
        fails_each,
        ..
    } = state;
    let patterns = pattern_list(alloc, patterns, link_names.as_slice(), fails_each)?;
    Ok(Parts {
        nodes,
        links: LinkTable::of(links),
        source,
        sinks,
        patterns,
        field: choice_of(field),
        wanted: rate,
    })
}

// The number of the first link that is named as a pattern.
fn first_named(state: &State) -> Option<usize>
    ensures { (statements : List Statement) → AreTables statements state.now
        → result ≡ position (names_pattern statements) (link_names statements) }
{
    state.link_names.as_slice().iter().position(|name| name.as_slice() == NONE
        || state.pattern_names.has(name.as_slice()))
}

// What is wrong where each link is to fail alone.
fn alone_fault(state: &State) -> Option<ReadRefusal>
    requires { IsState state.now }
    ensures { (statements : List Statement) → AreTables statements state.now
        → result ≡ alone_fault statements }
{
    if let Some(link) = first_named(state) {
        return Some(ReadRefusal::PatternNamed { link: link as u32 });
    }
    let count = state.patterns.len() + state.links.len();
    if count > MOST_LISTED {
        return Some(ReadRefusal::TooManyPatterns {
            count: count as u64,
        });
    }
    None
}

// What the tables stand for, or what is wrong with them as a whole.
fn whole_of(alloc: Global, state: State) -> Result<Parts, ReadRefusal>
    requires { IsState state }
    ensures { (statements : List Statement) → AreTables statements state.entry
        → Gives parts_seen result (whole_said statements) }
{
    let Some(source) = state.source else {
        return Err(ReadRefusal::NoSource);
    };
    if state.sinks.is_empty() {
        return Err(ReadRefusal::NoSink);
    }
    if state.sinks.has(source) {
        return Err(ReadRefusal::SinkIsSource {
            sink: number(&state.nodes, source),
        });
    }
    if state.fails_each {
        if let Some(refusal) = alone_fault(&state) {
            return Err(refusal);
        }
    }
    parts_in(alloc, state, source)
}

// The parts that a text stands for.
fn read_parts(alloc: Global, text: &[u8]) -> Result<Parts, ReadRefusal>
    ensures { Gives parts_seen result (network_of text.now) }
{
    let mut state = State::new(alloc);
    read_text(alloc, &mut state, text)?;
    whole_of(alloc, state)
}

// The network of its parts.
fn net_of(parts: Parts) -> Net
    requires network { IsNetwork parts.nodes parts.links parts.source parts.sinks parts.patterns }
    requires wanted { IsWanted parts.wanted }
    ensures { parts_of result ≡ parts_seen parts }
{
    let Parts {
        nodes,
        links,
        source,
        sinks,
        patterns,
        field,
        wanted,
    } = parts;
    let net = Net::of(nodes, links, source, sinks, patterns, field);
    match wanted {
        None => net,
        Some(rate) => net.wanting(rate),
    }
}

/// The greatest length of a network text, in bytes.
pub const NET_LIMIT: usize = 4_194_304;

/// The network that a text stands for. A refusal is that of the first line that isn't good, or of
/// the text as a whole.
pub fn read_net(alloc: Global, text: &[u8]) -> Result<Net, ReadRefusal>
    requires { length text.now ≤ net_limit }
    ensures ok { IfOk result (λ net. network_of text.now ≡ Ok (parts_of net)) }
    ensures refused { IfErr result (λ why. Fails why (network_of text.now)) }
{
    let parts = read_parts(alloc, text)?;
    Ok(net_of(parts))
}
