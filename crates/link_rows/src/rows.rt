//! Rows of bytes for the links of a network.
ghost use Rattle.std.specs.Prelude.{◌≡◌, ◌<◌, ◌%◌, ℕ, List, [], length, slice_index_or, IfOk};
ghost use Rattle.linear_algebra.specs.Elements.{elements_of};
ghost use Rattle.node_program.specs.Operands.{IsOperand};
ghost use Rattle.link_rows.specs.LinkRows.{AreLinkRows, IsFailTable, row_read, row_sum};
ghost use Rattle.field_rows.specs.Widths.{rows_in, width_in};

use field_rows::RowTables;
use node_program::{Coding, Operand};
use std::alloc::{AllocError, Global};
use std::marker::Model;

/// A row of `W` bytes for each link.
#[derive(Drop)]
pub struct LinkRows<const W: usize> {
    rows: Vec<[u8; W]>,
}

impl<const W: usize> Model for LinkRows<W> {
    ghost use Rattle.std.specs.Prelude.{ℕ, List};

    ghost Value = { List (List ℕ) };

    ghost view = { λ all. all.rows.items };
}

impl<const W: usize> LinkRows<W> {
    /// What the links carry of a block where links fail. It goes over the links once, and makes each row of rows that
    /// stand already.
    pub fn of(
        alloc: Global,
        tables: &RowTables,
        coding: Coding<'_>,
        fails: &[bool],
        block: &[[u8; W]],
    ) -> Result<LinkRows<W>, AllocError>
        requires even { W % 2 ≡ 0 }
        requires fails { length fails.now ≡ length coding.net.now.links }
        requires block { length block.now ≡ coding.rate }
        ensures { IfOk result (λ rows. (failed : List ℕ)
            → IsFailTable failed (length coding.entry.net.now.links) fails.now
            → AreLinkRows coding.entry.net.now coding.entry.field coding.entry.operands.now failed
            (rows_in coding.entry.field block.now) (length coding.entry.net.now.links) rows) }
    {
        let rows = vec![in alloc; [0; W]; coding.net.links.len()]?;
        let mut made = LinkRows { rows };
        made.fill(tables, coding, fails, block);
        Ok(made)
    }

    /// The same anew, in place of the rows that stand here. It takes no memory.
    pub fn fill(
        &mut self,
        tables: &RowTables,
        coding: Coding<'_>,
        fails: &[bool],
        block: &[[u8; W]],
    )
        requires even { W % 2 ≡ 0 }
        requires rows { length self.old ≡ length coding.net.now.links }
        requires fails { length fails.now ≡ length coding.net.now.links }
        requires block { length block.now ≡ coding.rate }
        ensures count { length self.new ≡ length coding.entry.net.now.links }
        ensures rows { (failed : List ℕ)
            → IsFailTable failed (length coding.entry.net.now.links) fails.now
            → AreLinkRows coding.entry.net.now coding.entry.field coding.entry.operands.now failed
            (rows_in coding.entry.field block.now) (length coding.entry.net.now.links) self.new }
    {
        // So that it is known how long the block's rows are.
        let _first: &[u8] = &block[0];
        for link in 0..coding.net.links.len() {
            let before = &self.rows[..link];
            let row = row_of(tables, coding, link as u32, fails[link], block, before);
            self.rows[link] = row;
        }
    }

    /// The row of a link.
    pub fn row(&self, link: u32) -> &[u8; W]
        requires { link < length self.now }
        ensures { result.now ≡ slice_index_or self.now link [] }
    {
        &self.rows[link as usize]
    }
}

// The row of a link, by whether it fails and by the rows of the links before it.
fn row_of<const W: usize>(
    tables: &RowTables,
    coding: Coding<'_>,
    link: u32,
    fails: bool,
    block: &[[u8; W]],
    before: &[[u8; W]],
) -> [u8; W]
    requires even { W % 2 ≡ 0 }
    requires link { link < length coding.net.now.links }
    requires block { length block.now ≡ coding.rate }
    requires before { length before.now ≡ link }
    ensures { elements_of coding.entry.field result
        ≡ row_sum coding.entry.net.now coding.entry.field coding.entry.operands.now
        (width_in coding.entry.field W) fails block.now before.now link }
{
    let mut row = [0; W];
    if fails {
        return row;
    }
    for operand in coding.operands_of(link) {
        let from = operand_row(coding, link, *operand, block, before);
        tables.add_scaled(coding.field, &mut row, operand.times, from);
    }
    row
}

// The row that an operand of a link reads: of the block where the link leaves the source, else of an earlier link.
fn operand_row<'a, const W: usize>(
    coding: Coding<'_>,
    link: u32,
    operand: Operand,
    block: &'a [[u8; W]],
    before: &'a [[u8; W]],
) -> &'a [u8; W]
    requires link { link < length coding.net.now.links }
    requires operand { IsOperand coding.net.now coding.rate coding.field link operand }
    requires block { length block.now ≡ coding.rate }
    requires before { length before.now ≡ link }
    ensures { result.now ≡ row_read coding.entry.net.now block.now before.now link operand }
{
    let from = operand.from as usize;
    if coding.net.leaves_source(link) {
        &block[from]
    } else {
        &before[from]
    }
}
