//! Groups of sums that follow one another and have the same inputs.
ghost use Rattle.std.specs.Prelude.{◌≡◌, ◌≤◌, IfOk, length};
ghost use Rattle.net_model.specs.Limits.{most_links};
ghost use Rattle.due_sums.specs.Groups.{AreGroups};

use crate::SumTable;
use item_list::ItemList;
use net_model::LinkList;
use std::alloc::{AllocError, Global};

/// Sums that follow one another and have the same inputs, group by group.
#[derive(Drop)]
pub struct Groups {
    /// The inputs of each group's sums.
    pub inputs: SumTable,
    /// The first sum of each group, and behind them the number of all sums.
    pub starts: Vec<u32>,
}

// The groups of sums.
pub fn groups_of(alloc: Global, sums: &SumTable) -> Result<Groups, AllocError>
    requires { length sums.now ≤ most_links }
    ensures { IfOk result (λ groups. AreGroups sums.now groups.inputs groups.starts.items) }
{
    let mut inputs = Vec::new(alloc);
    let mut starts = Vec::new(alloc);
    for (sum, list) in sums.as_slice().iter().enumerate() {
        if sum == 0 || list.as_slice() != sums.at(sum - 1).as_slice() {
            inputs.push(copy_of(alloc, list)?)?;
            starts.push(sum as u32)?;
        }
    }
    starts.push(sums.len() as u32)?;
    Ok(Groups {
        inputs: ItemList::of(inputs),
        starts,
    })
}

// A list of the same numbers.
fn copy_of(alloc: Global, list: &LinkList) -> Result<LinkList, AllocError>
    ensures { IfOk result (λ copy. copy ≡ list.now) }
{
    let mut copy = Vec::new(alloc);
    copy.extend_from_slice(list.as_slice())?;
    Ok(ItemList::of(copy))
}
