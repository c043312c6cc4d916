//! For each input the groups of sums that read it.
ghost use Rattle.std.specs.Prelude.{◌≡◌, ◌<◌, ◌≤◌, ℕ, [], All, IfOk, OnOk, length};
ghost use Rattle.net_model.specs.Limits.{most_links};
ghost use Rattle.due_sums.specs.Counts.{AreReaders, GainReader, list_at, lists_of};

use crate::SumTable;
use std::alloc::{AllocError, Global};

// For each of so many inputs the groups that read it, by the inputs of each group.
pub fn readers_of(
    alloc: Global,
    inputs: u32,
    groups: &SumTable,
) -> Result<Vec<Vec<u32>>, AllocError>
    requires few_groups { length groups.now ≤ most_links }
    requires below { All (All (λ input. input < inputs)) groups.now }
    ensures { IfOk result (λ readers. AreReaders inputs groups.now (lists_of readers.items)) }
{
    let mut readers = empty_lists(alloc, inputs)?;
    for (group, inputs) in groups.as_slice().iter().enumerate() {
        add_reader(&mut readers, group as u32, inputs.as_slice())?;
    }
    Ok(readers)
}

// So many empty lists.
fn empty_lists(alloc: Global, count: u32) -> Result<Vec<Vec<u32>>, AllocError>
    ensures count { IfOk result (λ lists. length (lists_of lists.items) ≡ count) }
    ensures empty { IfOk result (λ lists. (at : ℕ) → list_at (lists_of lists.items) at ≡ []) }
{
    let mut lists = Vec::with_capacity(alloc, count as usize)?;
    for _ in 0..count {
        lists.push(Vec::new(alloc))?;
    }
    Ok(lists)
}

// Adds a group to the readers of each of its inputs.
fn add_reader(readers: &mut [Vec<u32>], group: u32, inputs: &[u32]) -> Result<(), AllocError>
    requires { All (λ input. input < length readers.old) inputs.now }
    ensures { OnOk result
        (GainReader group inputs.now (lists_of readers.old) (lists_of readers.new)) }
{
    for input in inputs {
        readers[*input as usize].push(group)?;
    }
    Ok(())
}
