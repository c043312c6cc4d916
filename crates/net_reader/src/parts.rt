//! The parts of a network, from tables.
ghost use Rattle.std.specs.Prelude.{◌≡◌, ◌≤◌, ◌++◌, ◌∷◌, [], codes, if◌then◌else◌, length, map, option_to_list, OnOk, IfOk, IsOkUnless};
ghost use Rattle.net_model.specs.Limits.{most_links, most_nodes};
ghost use Rattle.net_reader.specs.Text.{choice_in, each_alone, number_in};
ghost use Rattle.net_reader.specs.declared.refusal.ReadRefusal.TheVariants.{OutOfMemory};
ghost use Rattle.net_reader.specs.Words.{texts_of};

use crate::ReadRefusal;
use crate::state::NONE;
use name_index::Names;
use net_model::{FieldChoice, LinkList, LinkTable, Name, NameList, NodeList, Pattern, PatternList};
use std::alloc::Global;

/// What a network consists of.
#[derive(Drop)]
pub(crate) struct Parts {
    pub nodes: NameList,
    pub links: LinkTable,
    pub source: u32,
    pub sinks: NodeList,
    pub patterns: PatternList,
    pub field: FieldChoice,
    pub wanted: Option<u32>,
}

/// The name of these bytes.
pub(crate) fn name_of(alloc: Global, bytes: &[u8]) -> Result<Name, ReadRefusal>
    ensures gives { IfOk result (λ name. name ≡ bytes.now) }
    ensures refused { IsOkUnless result OutOfMemory }
{
    match Name::of(alloc, bytes) {
        Ok(name) => Ok(name),
        Err(_) => Err(ReadRefusal::OutOfMemory),
    }
}

/// The names of words.
pub(crate) fn name_list(alloc: Global, words: &[&[u8]]) -> Result<NameList, ReadRefusal>
    ensures gives { IfOk result (λ names. names ≡ texts_of words.now) }
    ensures refused { IsOkUnless result OutOfMemory }
{
    let mut names = Vec::new(alloc);
    for word in words {
        let name = name_of(alloc, word)?;
        names.push(name)?;
    }
    Ok(NameList::of(names))
}

/// The number of a node.
pub(crate) fn number(nodes: &Names, name: &[u8]) -> u32
    requires { length nodes.now ≤ most_nodes }
    ensures { result ≡ number_in nodes.now name.now }
{
    match nodes.number_of(name) {
        Some(number) => number as u32,
        None => 0,
    }
}

/// The numbers of sinks.
pub(crate) fn sink_list(
    alloc: Global,
    nodes: &Names,
    sinks: &[&[u8]],
) -> Result<NodeList, ReadRefusal>
    requires { length nodes.now ≤ most_nodes }
    ensures gives { IfOk result (λ list. list ≡ map (number_in nodes.now) (texts_of sinks.now)) }
    ensures refused { IsOkUnless result OutOfMemory }
{
    let mut list = Vec::new(alloc);
    for sink in sinks {
        list.push(number(nodes, sink))?;
    }
    Ok(NodeList::of(list))
}

// The pattern without links.
fn pattern_of_none(alloc: Global) -> Result<Pattern, ReadRefusal>
    ensures gives { IfOk result (λ pattern. pattern ≡ record { name = codes "none"; links = [] }) }
    ensures refused { IsOkUnless result OutOfMemory }
{
    let name = name_of(alloc, NONE)?;
    let links = LinkList::of(Vec::new(alloc));
    Ok(Pattern { name, links })
}

// Adds for each link a pattern in which it fails alone, with its name.
fn add_each_alone(
    alloc: Global,
    patterns: &mut Vec<Pattern>,
    link_names: &[Vec<u8>],
) -> Result<(), ReadRefusal>
    requires { length link_names.now ≤ most_links }
    ensures gives { OnOk result (patterns.new.items
        ≡ patterns.old.items ++ each_alone (map (λ name. name.items) link_names.now) 0) }
    ensures refused { IsOkUnless result OutOfMemory }
{
    for (link, name) in link_names.iter().enumerate() {
        let name = name_of(alloc, name)?;
        let links = LinkList::of(vec![in alloc; link as u32]?);
        patterns.push(Pattern { name, links })?;
    }
    Ok(())
}

/// The pattern without links, the listed ones, and those in which each link fails alone, where that is said.
pub(crate) fn pattern_list(
    alloc: Global,
    listed: Vec<Pattern>,
    link_names: &[Vec<u8>],
    fails_each: bool,
) -> Result<PatternList, ReadRefusal>
    requires { length link_names.now ≤ most_links }
    ensures gives { IfOk result (λ all. all ≡ record { name = codes "none"; links = [] } ∷ listed.items
        ++ (if fails_each then each_alone (map (λ name. name.items) link_names.now) 0 else [])) }
    ensures refused { IsOkUnless result OutOfMemory }
{
    let mut patterns = Vec::new(alloc);
    patterns.push(pattern_of_none(alloc)?)?;
    for pattern in listed {
        patterns.push(pattern)?;
    }
    if fails_each {
        add_each_alone(alloc, &mut patterns, link_names)?;
    }
    Ok(PatternList::of(patterns))
}

/// The field that was said, if one was.
pub(crate) fn choice_of(field: Option<u32>) -> FieldChoice
    ensures { result ≡ choice_in (option_to_list field) }
{
    match field {
        None => FieldChoice::Any,
        Some(bits) => {
            if bits == 8 {
                FieldChoice::Eight
            } else {
                FieldChoice::Sixteen
            }
        }
    }
}
