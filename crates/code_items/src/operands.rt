//! The operands of links.
ghost use Rattle.std.specs.Prelude.{◌≡◌};
ghost use Rattle.node_program.specs.Code.{leads_into};
ghost use Rattle.code_items.specs.Reading.{may_read, from_at, coefficient_at, operand_at, operands_at, operands_at_link, operand_table_at};
ghost use Rattle.code_items.specs.Gives.{Reads, ReadsAll};
ghost use Rattle.code_items.specs.Parts.{front_seen};

use crate::CodeRefusal;
use crate::items::{count, element, number};
use crate::parts::Front;
use crate::rest::Rest;
use crate::rising::is_above_last_operand;
use gf_tables::FieldKind;
use net_model::{Link, MOST_LINKS};
use node_program::{Operand, OperandList};
use std::alloc::Global;

/// Whether the link of a number leads into a node.
pub(crate) fn leads_into(links: &[Link], node: u32, from: u32) -> bool
    ensures { result ≡ leads_into links.now node from }
{
    match links.get(from as usize) {
        Some(link) => link.head == node,
        None => false,
    }
}

// Whether an operand of a link may name this.
fn may_read(front: &Front, link: &Link, from: u32) -> bool
    ensures { result ≡ may_read (front_seen front.now) link.now from }
{
    if link.tail == front.source {
        from < front.rate
    } else {
        leads_into(front.links.as_slice(), link.tail, from)
    }
}

// What an operand reads, above what the last one read.
#[tactic(auto, using(crate::proofs::Checks::number_checked))]
fn from_at<'a>(
    front: &Front,
    link: &Link,
    earlier: &[Operand],
    rest: Rest<'a>,
) -> Result<(u32, Rest<'a>), CodeRefusal>
    ensures { Reads result (from_at (front_seen front.now) link.now earlier.now) rest.entry }
{
    let (from, after) = number(rest)?;
    let from = u32::from(from);
    if !is_above_last_operand(earlier, from) {
        return Err(CodeRefusal::NotRising { at: rest.at });
    }
    if !may_read(front, link, from) {
        return Err(CodeRefusal::BadOperand { at: rest.at });
    }
    Ok((from, after))
}

// A coefficient.
#[tactic(auto, using(crate::proofs::Checks::element_checked))]
fn coefficient<'a>(field: FieldKind, rest: Rest<'a>) -> Result<(u32, Rest<'a>), CodeRefusal>
    ensures { Reads result (coefficient_at field) rest.entry }
{
    let (times, after) = element(field, rest)?;
    if times == 0 {
        return Err(CodeRefusal::ZeroCoefficient { at: rest.at });
    }
    Ok((times, after))
}

// One operand of a link.
#[tactic(auto, unfolding(crate::specs::Reading::operand_at))]
fn operand<'a>(
    front: &Front,
    link: &Link,
    earlier: &[Operand],
    rest: Rest<'a>,
) -> Result<(Operand, Rest<'a>), CodeRefusal>
    ensures { Reads result (operand_at (front_seen front.now) link.now earlier.now) rest.entry }
{
    let (from, rest) = from_at(front, link, earlier, rest)?;
    let (times, rest) = coefficient(front.field, rest)?;
    Ok((Operand { from, times }, rest))
}

// So many operands of a link.
fn counted_operands<'a>(
    alloc: Global,
    front: &Front,
    link: &Link,
    count: u16,
    start: Rest<'a>,
) -> Result<(Vec<Operand>, Rest<'a>), CodeRefusal>
    ensures { ReadsAll result (operands_at (front_seen front.now) link.now count) start.entry }
{
    let mut operands = Vec::with_capacity(alloc, usize::from(count))?;
    let mut rest = start;
    for _ in 0..count {
        let (one, after) = operand(front, link, &operands, rest)?;
        operands.push(one)?;
        rest = after;
    }
    Ok((operands, rest))
}

// The operands of a link, behind their number.
#[tactic(auto, unfolding(crate::specs::Reading::operands_at_link))]
fn operand_list<'a>(
    alloc: Global,
    front: &Front,
    link: &Link,
    rest: Rest<'a>,
) -> Result<(OperandList, Rest<'a>), CodeRefusal>
    ensures { Reads result (operands_at_link (front_seen front.now) link.now) rest.entry }
{
    let (count, rest) = count(rest, MOST_LINKS)?;
    let (operands, rest) = counted_operands(alloc, front, link, count, rest)?;
    Ok((OperandList::of(operands), rest))
}

/// The operands of each link of a front, in the order of the links, and what is left. A refusal is that of the first item that
/// isn't good.
pub(crate) fn read_operand_table<'a>(
    alloc: Global,
    front: &Front,
    start: Rest<'a>,
) -> Result<(Vec<OperandList>, Rest<'a>), CodeRefusal>
    ensures { ReadsAll result (operand_table_at (front_seen front.now)) start.entry }
{
    let links = front.links.as_slice();
    let mut table = Vec::with_capacity(alloc, links.len())?;
    let mut rest = start;
    for link in links {
        let (one, after) = operand_list(alloc, front, link, rest)?;
        table.push(one)?;
        rest = after;
    }
    Ok((table, rest))
}
