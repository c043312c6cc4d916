//! Nodes and sinks.
ghost use Rattle.std.specs.Prelude.{◌≡◌, ◌≤◌, ◌++◌, ◌∷◌, [], length, IfOk};
ghost use Rattle.net_model.specs.Limits.{most_nodes};
ghost use Rattle.code_items.specs.Reading.{other_name_at, repeated_at, nodes_at, sink_at, sinks_at};
ghost use Rattle.code_items.specs.Gives.{Reads, ReadsAll};
ghost use Rattle.code_items.specs.Marks.{AreMarks};

use crate::CodeRefusal;
use crate::items::{count, number, positive_count};
use crate::marks::{is_marked, mark, no_marks};
use crate::names::name;
use crate::rest::Rest;
use name_index::Names;
use net_model::{MOST_NODES, Name, NameList, NodeList};
use std::alloc::Global;

// So many names of nodes, which are added to the names.
fn named_nodes<'a>(
    alloc: Global,
    count: u16,
    names: &mut Names<'a>,
    start: Rest<'a>,
) -> Result<(Vec<Name>, Rest<'a>), CodeRefusal>
    requires { names.old ≡ [] }
    ensures { ReadsAll result (repeated_at other_name_at count []) start.entry }
{
    let mut nodes = Vec::with_capacity(alloc, usize::from(count))?;
    let mut rest = start;
    for _ in 0..count {
        let (node, after) = name(alloc, rest, names)?;
        nodes.push(node)?;
        rest = after;
    }
    Ok((nodes, rest))
}

// So many names of nodes.
fn counted_nodes<'a>(
    alloc: Global,
    count: u16,
    start: Rest<'a>,
) -> Result<(Vec<Name>, Rest<'a>), CodeRefusal>
    ensures { ReadsAll result (repeated_at other_name_at count []) start.entry }
{
    let mut names = Names::new(alloc);
    named_nodes(alloc, count, &mut names, start)
}

/// The nodes, behind their number.
#[tactic(auto, unfolding(crate::specs::Reading::nodes_at))]
pub(crate) fn nodes<'a>(alloc: Global, rest: Rest<'a>) -> Result<(NameList, Rest<'a>), CodeRefusal>
    ensures { Reads result nodes_at rest.entry }
{
    let (count, rest) = count(rest, MOST_NODES)?;
    let (nodes, rest) = counted_nodes(alloc, count, rest)?;
    Ok((NameList::of(nodes), rest))
}

// One sink, which is neither the source nor an earlier one.
#[tactic(auto, using(crate::proofs::Checks::number_checked))]
fn sink<'a>(
    nodes: usize,
    source: u32,
    earlier: &[u32],
    marks: &mut [bool],
    rest: Rest<'a>,
) -> Result<(u32, Rest<'a>), CodeRefusal>
    requires { AreMarks nodes earlier.now marks.old }
    ensures gives { Reads result (sink_at nodes source earlier.now) rest.entry }
    ensures marked { IfOk result (λ x. AreMarks nodes (earlier.now ++ x.0 ∷ []) marks.new) }
{
    let (sink, after) = number(rest)?;
    let sink = u32::from(sink);
    let place = sink as usize;
    if place >= nodes || sink == source || is_marked(marks, place) {
        return Err(CodeRefusal::BadIndex { at: rest.at });
    }
    mark(marks, place);
    Ok((sink, after))
}

// So many sinks.
fn counted_sinks<'a>(
    alloc: Global,
    nodes: usize,
    source: u32,
    count: u16,
    start: Rest<'a>,
) -> Result<(Vec<u32>, Rest<'a>), CodeRefusal>
    ensures gives { ReadsAll result (repeated_at (sink_at nodes source) count []) start.entry }
    ensures len { IfOk result (λ x. length x.0.items ≡ count) }
{
    let mut sinks = Vec::with_capacity(alloc, usize::from(count))?;
    let mut marks = no_marks(alloc, nodes)?;
    let mut rest = start;
    for _ in 0..count {
        let (one, after) = sink(nodes, source, &sinks, &mut marks, rest)?;
        sinks.push(one)?;
        rest = after;
    }
    Ok((sinks, rest))
}

/// The sinks, behind their number.
#[tactic(auto, unfolding(crate::specs::Reading::sinks_at))]
pub(crate) fn sinks<'a>(
    alloc: Global,
    nodes: usize,
    source: u32,
    rest: Rest<'a>,
) -> Result<(NodeList, Rest<'a>), CodeRefusal>
    ensures gives { Reads result (sinks_at nodes source) rest.entry }
    ensures few_sinks { IfOk result (λ x. length x.0 ≤ most_nodes) }
{
    let (count, rest) = positive_count(rest, MOST_NODES)?;
    let (sinks, rest) = counted_sinks(alloc, nodes, source, count, rest)?;
    Ok((NodeList::of(sinks), rest))
}
