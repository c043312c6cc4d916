//! Codes whose links out of the source carry a row of the block each.
ghost use Rattle.std.specs.Prelude.{◌≡◌, ◌≤◌, IfOk, None, length};
ghost use Rattle.gf_tables.specs.Kind.{IsOfKind};
ghost use Rattle.node_program.specs.Decoding.{IsAccepted};
ghost use Rattle.two_sources.specs.Separated.{HasFirstLinks, IsSeparated, row_operands, separated_operands};

use crate::decoders::separated_decoders;
use code_checker::Checked;
use gf_tables::Field;
use net_model::Net;
use node_program::{Code, Operand, OperandList, OperandTable};
use std::alloc::{AllocError, Global};

// The same network.
fn copied(alloc: Global, net: &Net) -> Result<Net, AllocError>
    requires { net.now.wanted ≡ None }
    ensures { IfOk result (λ copy. copy ≡ net.now) }
{
    let mut order = Vec::with_capacity(alloc, net.links.len())?;
    for link in 0..net.links.len() {
        order.push(link as u32)?;
    }
    net.renumbered(alloc, &order, net.field)
}

// The one operand of a link that carries a row.
fn row_operand(alloc: Global, row: u32) -> Result<OperandList, AllocError>
    ensures { IfOk result (λ operands. operands ≡ row_operands row) }
{
    let operand = Operand {
        from: row,
        times: 1,
    };
    Ok(OperandList::of(vec![in alloc; operand]?))
}

// The operands of all links, of which the first carry a row each.
fn separated_operands(alloc: Global, code: &Code) -> Result<OperandTable, AllocError>
    requires { code.now.rate ≤ length code.now.net.links }
    ensures { IfOk result (λ table. table ≡ separated_operands code.now) }
{
    let mut table = Vec::with_capacity(alloc, code.net.links.len())?;
    for row in 0..code.rate {
        table.push(row_operand(alloc, row)?)?;
    }
    for operands in &code.operands.as_slice()[code.rate as usize..] {
        table.push(OperandList::of(operands.as_slice().to_vec(alloc)?))?;
    }
    Ok(OperandTable::of(table))
}

/// The code of the same network, of the same rate and over the same field, whose first links, as many
/// as the rate, carry a row of the block each: link `i` has the one operand row `i`, times 1. All
/// other operands and the decoders' links stay, and each decoder's matrix is multiplied from the left
/// by that of the vectors which the first links had. `F` is the code's field.
pub fn separate<F: Field>(alloc: Global, code: &Checked) -> Result<Code, AllocError>
    requires field { IsOfKind code.now.field F.SIZE F.BYTES F.MARK F.product }
    requires first { HasFirstLinks code.now.net code.now.rate }
    ensures separated { IfOk result (IsSeparated code.now) }
    ensures accepted { IfOk result IsAccepted }
{
    let code = code.code();
    let net = copied(alloc, &code.net)?;
    let operands = separated_operands(alloc, code)?;
    let decoders = separated_decoders(alloc, code)?;
    Ok(Code::of(net, code.rate, code.field, operands, decoders))
}
