//! Plans of nodes.
ghost use Rattle.std.specs.Prelude.{◌≡◌, ◌<◌, ◌^◌, All, Contains, IfOk, false, length, map};
ghost use Rattle.node_plans.specs.Plans.{IsPlan, input_place, sums_of};
ghost use Rattle.node_plans.specs.Wired.{HasPlaces};

use due_sums::SumTable;
use gf_tables::FieldKind;
use item_list::ItemList;
use net_model::LinkList;
use node_program::{Operand, OperandTable};
use std::alloc::{AllocError, Global};

/// What a node does of a code under a pattern.
#[derive(Drop)]
pub struct Plan {
    /// The kind of the code's field.
    pub field: FieldKind,
    /// The rate of the code, which is the number of the source's rows.
    pub rate: u32,
    /// Whether the node is the source.
    pub is_source: bool,
    /// The live links into the node, rising: none at the source.
    pub ins: LinkList,
    /// The live links out of it, rising.
    pub outs: LinkList,
    /// For each link out of it its live operands, which at the source are all that it has.
    pub operands: OperandTable,
}

impl Plan {
    ghost use Rattle.node_plans.specs.Plans.{input_count, input_place};

    /// How many inputs the node has: the rows of a block at the source, and else the live links into it.
    pub fn input_count(&self) -> u32
        requires { length self.now.ins < 2 ^ 32 }
        ensures { result ≡ input_count self.now }
    {
        if self.is_source {
            self.rate
        } else {
            self.ins.len() as u32
        }
    }

    /// The place among the node's inputs of what an operand names, by the table of the places of links.
    pub fn input_place(&self, places: &[u32], from: u32) -> u32
        requires places { HasPlaces self.now places.now }
        requires link { self.now.is_source ≡ false → Contains self.now.ins from }
        ensures { result ≡ input_place self.now from }
    {
        if self.is_source {
            from
        } else {
            places[from as usize]
        }
    }
}

/// For each link out of a node the places of its inputs.
pub fn sum_table(alloc: Global, plan: &Plan, places: &[u32]) -> Result<SumTable, AllocError>
    requires plan { IsPlan plan.now }
    requires places { HasPlaces plan.now places.now }
    ensures { IfOk result (λ sums. sums ≡ sums_of plan.now) }
{
    let mut sums = Vec::with_capacity(alloc, plan.operands.len())?;
    for operands in plan.operands.as_slice() {
        let inputs = inputs_of(alloc, plan, places, operands.as_slice())?;
        sums.push(inputs)?;
    }
    Ok(ItemList::of(sums))
}

// The places of the inputs that operands name.
fn inputs_of(
    alloc: Global,
    plan: &Plan,
    places: &[u32],
    operands: &[Operand],
) -> Result<LinkList, AllocError>
    requires places { HasPlaces plan.now places.now }
    requires operands { All (λ operand. plan.now.is_source ≡ false
        → Contains plan.now.ins operand.from) operands.now }
    ensures { IfOk result
        (λ inputs. inputs ≡ map (λ operand. input_place plan.now operand.from) operands.now) }
{
    let mut inputs = Vec::with_capacity(alloc, operands.len())?;
    for operand in operands {
        inputs.push(plan.input_place(places, operand.from))?;
    }
    Ok(ItemList::of(inputs))
}
