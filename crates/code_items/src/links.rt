//! Links.
ghost use Rattle.std.specs.Prelude.{◌≡◌, ◌≤◌, ◌++◌, ◌∷◌, [], length, IfOk};
ghost use Rattle.net_model.specs.Limits.{most_links};
ghost use Rattle.code_items.specs.Reading.{repeated_at, names_of, head_at, link_at, links_at};
ghost use Rattle.code_items.specs.Gives.{Reads, ReadsAll};
ghost use Rattle.code_items.specs.Marks.{AreTailMarks};

use crate::CodeRefusal;
use crate::items::{count, index, number};
use crate::marks::{is_marked, mark, no_marks};
use crate::names::name;
use crate::rest::Rest;
use name_index::Names;
use net_model::{Link, LinkTable, MOST_LINKS};
use std::alloc::Global;

// The head of a link, which is neither its tail nor that of an earlier link.
#[tactic(auto, using(crate::proofs::Checks::number_checked))]
fn head<'a>(
    nodes: usize,
    tail: u32,
    earlier: &[Link],
    tails: &[bool],
    rest: Rest<'a>,
) -> Result<(u32, Rest<'a>), CodeRefusal>
    requires few_links { length earlier.now ≤ most_links }
    requires tails { AreTailMarks nodes earlier.now tails.now }
    ensures { Reads result (head_at nodes tail earlier.now) rest.entry }
{
    let (head, after) = number(rest)?;
    let place = usize::from(head);
    if place >= nodes {
        return Err(CodeRefusal::BadIndex { at: rest.at });
    }
    if u32::from(head) == tail || is_marked(tails, place) {
        return Err(CodeRefusal::OutOfOrder {
            link: earlier.len() as u32,
        });
    }
    Ok((u32::from(head), after))
}

// One link.
#[tactic(auto, unfolding(crate::specs::Reading::link_at))]
fn link<'a>(
    alloc: Global,
    nodes: usize,
    earlier: &[Link],
    names: &mut Names<'a>,
    tails: &mut [bool],
    rest: Rest<'a>,
) -> Result<(Link, Rest<'a>), CodeRefusal>
    requires few_links { length earlier.now ≤ most_links }
    requires names { names.old ≡ names_of earlier.now }
    requires tails { AreTailMarks nodes earlier.now tails.old }
    ensures gives { Reads result (link_at nodes earlier.now) rest.entry }
    ensures named { IfOk result (λ x. names.new ≡ names_of (earlier.now ++ x.0 ∷ [])) }
    ensures marked { IfOk result (λ x. AreTailMarks nodes (earlier.now ++ x.0 ∷ []) tails.new) }
{
    let (name, rest) = name(alloc, rest, names)?;
    let (tail, rest) = index(rest, nodes)?;
    let (head, rest) = head(nodes, tail, earlier, tails, rest)?;
    mark(tails, tail as usize);
    Ok((Link { name, tail, head }, rest))
}

// So many links, with tables of their names and their tails.
fn noted_links<'a>(
    alloc: Global,
    nodes: usize,
    count: u16,
    names: &mut Names<'a>,
    tails: &mut [bool],
    start: Rest<'a>,
) -> Result<(Vec<Link>, Rest<'a>), CodeRefusal>
    requires few_links { count ≤ most_links }
    requires names { names.old ≡ [] }
    requires tails { AreTailMarks nodes [] tails.old }
    ensures { ReadsAll result (repeated_at (link_at nodes) count []) start.entry }
{
    let mut links = Vec::with_capacity(alloc, usize::from(count))?;
    let mut rest = start;
    for _ in 0..count {
        let (one, after) = link(alloc, nodes, &links, names, tails, rest)?;
        links.push(one)?;
        rest = after;
    }
    Ok((links, rest))
}

// So many links.
fn counted_links<'a>(
    alloc: Global,
    nodes: usize,
    count: u16,
    start: Rest<'a>,
) -> Result<(Vec<Link>, Rest<'a>), CodeRefusal>
    requires { count ≤ most_links }
    ensures { ReadsAll result (repeated_at (link_at nodes) count []) start.entry }
{
    let mut tails = no_marks(alloc, nodes)?;
    let mut names = Names::new(alloc);
    noted_links(alloc, nodes, count, &mut names, &mut tails, start)
}

/// The links, behind their number.
#[tactic(auto, unfolding(crate::specs::Reading::links_at))]
pub(crate) fn links<'a>(
    alloc: Global,
    nodes: usize,
    rest: Rest<'a>,
) -> Result<(LinkTable, Rest<'a>), CodeRefusal>
    ensures { Reads result (links_at nodes) rest.entry }
{
    let (count, rest) = count(rest, MOST_LINKS)?;
    let (links, rest) = counted_links(alloc, nodes, count, rest)?;
    Ok((LinkTable::of(links), rest))
}
