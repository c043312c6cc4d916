//! The summands of all links out of a node, in one list.
ghost use Rattle.std.specs.Prelude.{◌≡◌, ◌<◌, ◌++◌, [], IfOk, OnOk, length, slice_index_or};
ghost use Rattle.node_plans.specs.Plans.{sums_of};
ghost use Rattle.relay_node.specs.Summands.{summands_at, summands_of};

use due_sums::SumTable;
use node_plans::Plan;
use std::alloc::{AllocError, Global};
use std::marker::Model;

/// An input of a sum, by its place, and the coefficient that it is multiplied with.
#[derive(Clone, Copy)]
pub(crate) struct Summand {
    pub(crate) input: u32,
    pub(crate) times: u32,
}

/// The summands of each sum, those of one sum behind those of the sum before, so that they lie close together. Contracts
/// see the list of each sum.
#[derive(Drop)]
pub(crate) struct Summands {
    all: Vec<Summand>,
    // The first summand of each sum, and behind them how many there are.
    starts: Vec<usize>,
}

impl Model for Summands {
    ghost use Rattle.std.specs.Prelude.{List};
    ghost use Rattle.relay_node.specs.declared.summands.Summand.{Summand};

    ghost Value = { List (List Summand) };

    ghost use Rattle.relay_node.specs.Summands.{AreStarts, parts_of};

    ghost view = { λ summands. parts_of summands.all.items summands.starts.items };

    ghost invariant = { λ summands. AreStarts summands.all.items summands.starts.items };
}

impl Summands {
    /// The summands of each link out of a node, by its plan and the table of the inputs of each.
    pub(crate) fn of(alloc: Global, plan: &Plan, sums: &SumTable) -> Result<Summands, AllocError>
        requires { sums.now ≡ sums_of plan.now }
        ensures { IfOk result (λ summands. summands ≡ summands_of plan.now) }
    {
        let mut all = Vec::new(alloc);
        let mut starts = Vec::new(alloc);
        starts.push(0)?;
        for sum in 0..sums.len() {
            add_sum(&mut all, plan, sums, sum)?;
            starts.push(all.len())?;
        }
        Ok(Summands { all, starts })
    }

    /// The summands of a sum.
    pub(crate) fn at(&self, sum: u32) -> &[Summand]
        requires { sum < length self.now }
        ensures { result.now ≡ slice_index_or self.now sum [] }
    {
        let sum = sum as usize;
        &self.all[self.starts[sum]..self.starts[sum + 1]]
    }
}

// Adds the summands of a sum to those of the sums before.
fn add_sum(
    all: &mut Vec<Summand>,
    plan: &Plan,
    sums: &SumTable,
    sum: usize,
) -> Result<(), AllocError>
    requires sums { sums.now ≡ sums_of plan.now }
    requires sum { sum < length plan.now.operands }
    ensures { OnOk result (all.new.items ≡ all.old.items ++ summands_at plan.now sum) }
{
    let operands = plan.operands.at(sum).as_slice();
    let inputs = sums.at(sum).as_slice();
    for place in 0..operands.len() {
        all.push(Summand {
            input: inputs[place],
            times: operands[place].times,
        })?;
    }
    Ok(())
}
