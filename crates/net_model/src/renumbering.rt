//! Networks whose links have new numbers.
ghost use Rattle.std.specs.Prelude.{◌≡◌, ◌≤◌, IsTrue, IfOk, OnOk, false, filter, length, map, nat_lt, slice_index, slice_index_or};
ghost use Rattle.std.specs.List.{list_all, range_with_len};
ghost use Rattle.net_model.specs.Limits.{most_links};
ghost use Rattle.net_model.specs.Network.{are_patterns};
ghost use Rattle.net_model.specs.Renumbering.{AreMarked, AreUnmarked, HasEachOnce, IsRenumbered, renumbered_links, renumbered_pattern};

use crate::{
    FieldChoice, Link, LinkList, LinkTable, Name, NameList, Net, NodeList, Pattern, PatternList,
};
use std::alloc::{AllocError, Global};

/// The network whose link `i` is the link `order[i]` of this one. The patterns have the new numbers of
/// their links, in rising order, no rate is wanted, and all else but the field choice stays.
pub(crate) fn renumbered(
    alloc: Global,
    net: &Net,
    order: &[u32],
    field: FieldChoice,
) -> Result<Net, AllocError>
    requires { HasEachOnce (length net.now.links) order.now }
    ensures { IfOk result (IsRenumbered order.now field net.now) }
{
    let nodes = copied_names(alloc, net.nodes.as_slice())?;
    let links = ordered_links(alloc, net.links.as_slice(), order)?;
    let sinks = NodeList::of(Vec::from_slice(alloc, net.sinks.as_slice())?);
    let patterns = renumbered_patterns(alloc, net.patterns.as_slice(), order)?;
    Ok(Net::of(nodes, links, net.source, sinks, patterns, field))
}

// The names.
fn copied_names(alloc: Global, names: &[Name]) -> Result<NameList, AllocError>
    ensures { IfOk result (λ copies. copies ≡ names.now) }
{
    let mut copies = Vec::with_capacity(alloc, names.len())?;
    for name in names {
        copies.push(name.copy(alloc)?)?;
    }
    Ok(NameList::of(copies))
}

// The link.
fn copied_link(alloc: Global, link: &Link) -> Result<Link, AllocError>
    ensures { IfOk result (λ copy. copy ≡ link.now) }
{
    let name = link.name.copy(alloc)?;
    Ok(Link {
        name,
        tail: link.tail,
        head: link.head,
    })
}

// The links in a new order.
fn ordered_links(alloc: Global, links: &[Link], order: &[u32]) -> Result<LinkTable, AllocError>
    requires { IsTrue (list_all (λ number. nat_lt number (length links.now)) order.now) }
    ensures { IfOk result (λ ordered. ordered ≡ renumbered_links links.now order.now) }
{
    let mut ordered = Vec::with_capacity(alloc, order.len())?;
    for old in order {
        ordered.push(copied_link(alloc, &links[*old as usize])?)?;
    }
    Ok(LinkTable::of(ordered))
}

/// Marks links, or takes their marks away.
pub(crate) fn mark(marks: &mut [bool], links: &[u32], is_marked: bool)
    requires { IsTrue (list_all (λ link. nat_lt link (length marks.old)) links.now) }
    ensures { AreMarked links.now is_marked marks.old marks.new }
{
    for link in links {
        marks[*link as usize] = is_marked;
    }
}

// The new numbers of the marked links, in rising order.
fn marked_places(
    alloc: Global,
    marks: &[bool],
    order: &[u32],
    count: usize,
) -> Result<LinkList, AllocError>
    requires order { HasEachOnce (length marks.now) order.now }
    requires few_links { length marks.now ≤ most_links }
    ensures { IfOk result (λ places. places
        ≡ filter (λ new. slice_index_or marks.now (slice_index order.now new) false)
        (range_with_len 0 (length order.now))) }
{
    let mut places = Vec::with_capacity(alloc, count)?;
    for (place, old) in order.iter().enumerate() {
        if marks[*old as usize] {
            places.push(place as u32)?;
        }
    }
    Ok(LinkList::of(places))
}

// The pattern with the new numbers of its links. No link is marked before or after.
fn renumbered_pattern(
    alloc: Global,
    pattern: &Pattern,
    order: &[u32],
    marks: &mut [bool],
) -> Result<Pattern, AllocError>
    requires order { HasEachOnce (length marks.old) order.now }
    requires few_links { length marks.old ≤ most_links }
    requires links { IsTrue (list_all (λ link. nat_lt link (length marks.old)) pattern.now.links) }
    requires unmarked { AreUnmarked marks.old }
    ensures pattern { IfOk result (λ new. new ≡ renumbered_pattern order.now pattern.now) }
    ensures unmarked { OnOk result (AreUnmarked marks.new) }
{
    let name = pattern.name.copy(alloc)?;
    let links = pattern.links.as_slice();
    mark(marks, links, true);
    let places = marked_places(alloc, marks, order, links.len())?;
    mark(marks, links, false);
    Ok(Pattern {
        name,
        links: places,
    })
}

// The patterns with the new numbers of their links.
fn renumbered_patterns(
    alloc: Global,
    patterns: &[Pattern],
    order: &[u32],
) -> Result<PatternList, AllocError>
    requires order { HasEachOnce (length order.now) order.now }
    requires few_links { length order.now ≤ most_links }
    requires patterns { IsTrue (are_patterns (length order.now) patterns.now) }
    ensures { IfOk result (λ new. new ≡ map (renumbered_pattern order.now) patterns.now) }
{
    let mut marks = vec![in alloc; false; order.len()]?;
    let mut renumbered = Vec::with_capacity(alloc, patterns.len())?;
    for pattern in patterns {
        renumbered.push(renumbered_pattern(alloc, pattern, order, &mut marks)?)?;
    }
    Ok(PatternList::of(renumbered))
}
