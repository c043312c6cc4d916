//! The live operands of links.
ghost use Rattle.std.specs.Prelude.{◌≡◌, ◌<◌, All, IfOk, length, map};
ghost use Rattle.node_plans.specs.Listed.{operands_by};

use item_list::ItemList;
use node_program::{Code, OperandList, OperandTable};
use std::alloc::{AllocError, Global};

// For each of some links its operands that are source rows or live links, by a table of the live links.
pub(crate) fn operands_of_links(
    alloc: Global,
    code: &Code,
    live: &[bool],
    links: &[u32],
) -> Result<OperandTable, AllocError>
    requires live { length live.now ≡ length code.now.net.links }
    requires links { All (λ link. link < length code.now.net.links) links.now }
    ensures { IfOk result (λ table. table ≡ map (operands_by code.now live.now) links.now) }
{
    let mut table = Vec::with_capacity(alloc, links.len())?;
    for link in links {
        let operands = live_operands(alloc, code, live, *link)?;
        table.push(operands)?;
    }
    Ok(ItemList::of(table))
}

// Those of a link.
fn live_operands(
    alloc: Global,
    code: &Code,
    live: &[bool],
    link: u32,
) -> Result<OperandList, AllocError>
    requires live { length live.now ≡ length code.now.net.links }
    requires link { link < length code.now.net.links }
    ensures { IfOk result (λ operands. operands ≡ operands_by code.now live.now link) }
{
    let leaves = code.net.leaves_source(link);
    let mut kept = Vec::new(alloc);
    for operand in code.operands.at(link as usize).as_slice() {
        if leaves || live[operand.from as usize] {
            kept.push(*operand)?;
        }
    }
    Ok(ItemList::of(kept))
}
