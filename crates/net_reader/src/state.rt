//! The tables of the statements so far.
ghost use Rattle.std.specs.Prelude.{◌≡◌, ◌++◌, ◌∷◌, [], IsOkUnless, IsTrue, OnOk, map};
ghost use Rattle.std.specs.List.{list_all, list_any};
ghost use Rattle.net_model.specs.Name.{is_name};
ghost use Rattle.net_reader.specs.State.{AreTables, Hears, IsState, is_held, with_statement};
ghost use Rattle.net_reader.specs.Fresh.{are_fresh};
ghost use Rattle.net_reader.specs.Statements.{IsCounted, fail_each_is, field_is, link_is, pattern_is, rate_is, sink_is, source_is};
ghost use Rattle.net_reader.specs.Words.{texts_of};
ghost use Rattle.net_reader.specs.declared.refusal.ReadRefusal.TheVariants.{OutOfMemory};

use crate::bundles::{Bundles, in_rising_order, links_named, makes_names, numbers_of_words};
use crate::names::are_names;
use crate::parts::{name_of, number};
use crate::{ReadRefusal, What};
use name_index::{Names, OwnedNames};
use net_model::{Link, LinkList, MOST_LINKS, MOST_LISTED, MOST_NODES, Pattern, is_name};
use std::alloc::Global;

/// The name of the pattern without links.
pub(crate) const NONE: &[u8] = b"none";

/// The most links in all listed patterns together.
const MOST_MEMBERS: usize = 2_097_152;

/// What the statements so far name and make.
#[derive(Drop)]
pub(crate) struct State<'a> {
    pub nodes: Names<'a>,
    pub link_names: OwnedNames,
    pub links: Vec<Link>,
    pub bundles: Bundles<'a>,
    pub pattern_names: Names<'a>,
    pub patterns: Vec<Pattern>,
    /// How many links the patterns have together.
    pub members: usize,
    pub sinks: Names<'a>,
    pub source: Option<&'a [u8]>,
    pub field: Option<u32>,
    pub rate: Option<u32>,
    pub fails_each: bool,
}

impl<'a> State<'a> {
    /// No statements.
    pub fn new(alloc: Global) -> State<'a>
        ensures { AreTables [] result }
    {
        State {
            nodes: Names::new(alloc),
            link_names: OwnedNames::new(alloc),
            links: Vec::new(alloc),
            bundles: Bundles::new(alloc),
            pattern_names: Names::new(alloc),
            patterns: Vec::new(alloc),
            members: 0,
            sinks: Names::new(alloc),
            source: None,
            field: None,
            rate: None,
            fails_each: false,
        }
    }
}

/// A field, which is the only one.
pub(crate) fn note_field<'a>(state: &mut State<'a>, line: u64, bits: u32) -> Result<(), ReadRefusal>
    ensures { Hears result state.old state.new (with_statement line (field_is bits)) }
{
    if state.field.is_some() {
        return Err(ReadRefusal::SecondField { line });
    }
    state.field = Some(bits);
    Ok(())
}

/// A wanted rate, which is the only one.
pub(crate) fn note_rate<'a>(state: &mut State<'a>, line: u64, rate: u32) -> Result<(), ReadRefusal>
    ensures { Hears result state.old state.new (with_statement line (rate_is rate)) }
{
    if state.rate.is_some() {
        return Err(ReadRefusal::SecondRate { line });
    }
    state.rate = Some(rate);
    Ok(())
}

/// Each link is to fail alone, which wasn't said yet.
pub(crate) fn note_fail_each<'a>(state: &mut State<'a>, line: u64) -> Result<(), ReadRefusal>
    ensures { Hears result state.old state.new (with_statement line fail_each_is) }
{
    if state.fails_each {
        return Err(ReadRefusal::SecondFailEach { line });
    }
    state.fails_each = true;
    Ok(())
}

/// A source, which is the only one.
pub(crate) fn note_source<'a>(
    state: &mut State<'a>,
    line: u64,
    node: &'a [u8],
) -> Result<(), ReadRefusal>
    ensures { Hears result state.old state.new (with_statement line (source_is node.now)) }
{
    if !is_name(node) {
        return Err(ReadRefusal::BadName { line });
    }
    if state.source.is_some() {
        return Err(ReadRefusal::SecondSource { line });
    }
    state.nodes.add(node)?;
    if state.nodes.len() > MOST_NODES {
        return Err(ReadRefusal::TooMany {
            line,
            what: What::Nodes,
        });
    }
    state.source = Some(node);
    Ok(())
}

/// A sink, which is none yet.
pub(crate) fn note_sink<'a>(
    state: &mut State<'a>,
    line: u64,
    node: &'a [u8],
) -> Result<(), ReadRefusal>
    ensures { Hears result state.old state.new (with_statement line (sink_is node.now)) }
{
    if !is_name(node) {
        return Err(ReadRefusal::BadName { line });
    }
    let is_fresh = state.sinks.add(node)?;
    if !is_fresh {
        return Err(ReadRefusal::DuplicateSink { line });
    }
    state.nodes.add(node)?;
    if state.nodes.len() > MOST_NODES {
        return Err(ReadRefusal::TooMany {
            line,
            what: What::Nodes,
        });
    }
    Ok(())
}

// Whether the names of a link line and of its ends are names.
fn are_link_names(name: &[u8], tail: &[u8], head: &[u8]) -> bool
    ensures { result ≡ list_all is_name (name.now ∷ tail.now ∷ head.now ∷ []) }
{
    is_name(name) && is_name(tail) && is_name(head)
}

// Whether a link or a bundle has the name.
fn is_held(state: &State, name: &[u8]) -> bool
    ensures { result ≡ is_held state.now name.now }
{
    state.link_names.has(name) || state.bundles.names.has(name)
}

// Whether one of the names is that of a link or a bundle.
fn is_any_held(state: &State, names: &[Vec<u8>]) -> bool
    ensures { result ≡ list_any (is_held state.now) (map (λ name. name.items) names.now) }
{
    names.iter().any(|name| is_held(state, name.as_slice()))
}

// Adds links between two nodes, of names that are new.
fn add_links(
    alloc: Global,
    link_names: &mut OwnedNames,
    links: &mut Vec<Link>,
    names: Vec<Vec<u8>>,
    tail: u32,
    head: u32,
) -> Result<(), ReadRefusal>
    requires { IsTrue (are_fresh link_names.old (map (λ name. name.items) names.items)) }
    ensures names { OnOk result (link_names.new ≡ link_names.old ++ map (λ name. name.items) names.items) }
    ensures links { OnOk result (links.new.items
        ≡ links.old.items ++ map (λ name. record { name = name.items; tail = tail; head = head }) names.items) }
    ensures refused { IsOkUnless result OutOfMemory }
{
    for name in names {
        let bytes = name.as_slice();
        links.push(Link {
            name: name_of(alloc, bytes)?,
            tail,
            head,
        })?;
        link_names.add(name)?;
    }
    Ok(())
}

/// A link, or a bundle of so many, of new names, between two nodes.
pub(crate) fn note_link<'a>(
    alloc: Global,
    state: &mut State<'a>,
    line: u64,
    name: &'a [u8],
    tail: &'a [u8],
    head: &'a [u8],
    bundle: Option<u32>,
) -> Result<(), ReadRefusal>
    requires { IsCounted (link_is name.now tail.now head.now bundle) }
    ensures { Hears result state.old state.new
        (with_statement line (link_is name.now tail.now head.now bundle)) }
{
    if !are_link_names(name, tail, head) || !makes_names(name, bundle) {
        return Err(ReadRefusal::BadName { line });
    }
    let names = links_named(alloc, name, bundle)?;
    if is_held(state, name) || is_any_held(state, &names) {
        return Err(ReadRefusal::DuplicateLink { line });
    }
    if tail == head {
        return Err(ReadRefusal::SelfLoop { line });
    }
    state.nodes.add(tail)?;
    state.nodes.add(head)?;
    if state.nodes.len() > MOST_NODES {
        return Err(ReadRefusal::TooMany {
            line,
            what: What::Nodes,
        });
    }
    let first = state.links.len();
    if first + names.len() > MOST_LINKS {
        return Err(ReadRefusal::TooMany {
            line,
            what: What::Links,
        });
    }
    if let Some(count) = bundle {
        state.bundles.add(name, first as u32, count)?;
    }
    let tail = number(&state.nodes, tail);
    let head = number(&state.nodes, head);
    add_links(
        alloc,
        &mut state.link_names,
        &mut state.links,
        names,
        tail,
        head,
    )?;
    Ok(())
}

/// A pattern, of a new name, of links that were named before, none of them twice.
pub(crate) fn note_pattern<'a>(
    alloc: Global,
    state: &mut State<'a>,
    line: u64,
    name: &'a [u8],
    words: &[&'a [u8]],
) -> Result<(), ReadRefusal>
    requires { IsState state.old }
    ensures { Hears result state.old state.new
        (with_statement line (pattern_is name.now (texts_of words.now))) }
{
    if !is_name(name) || !are_names(words) {
        return Err(ReadRefusal::BadName { line });
    }
    if name == NONE || !state.pattern_names.add(name)? {
        return Err(ReadRefusal::DuplicatePattern { line });
    }
    let Some(numbers) = numbers_of_words(alloc, &state.link_names, &state.bundles, words)? else {
        return Err(ReadRefusal::UnknownLink { line });
    };
    let Some(links) = in_rising_order(numbers) else {
        return Err(ReadRefusal::RepeatedLink { line });
    };
    if state.pattern_names.len() > MOST_LISTED {
        return Err(ReadRefusal::TooMany {
            line,
            what: What::Patterns,
        });
    }
    state.members += links.len();
    if state.members > MOST_MEMBERS {
        return Err(ReadRefusal::TooMany {
            line,
            what: What::Members,
        });
    }
    let name = name_of(alloc, name)?;
    let links = LinkList::of(links);
    state.patterns.push(Pattern { name, links })?;
    Ok(())
}
