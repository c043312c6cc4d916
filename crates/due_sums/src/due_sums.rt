//! Sums that wait for their inputs, generation by generation.
ghost use Rattle.std.specs.Prelude.{◌≡◌, ◌<◌, ◌≤◌, ◌*◌, ◌^◌, ℕ, true, false, length, IfOk, IfSome, IsNone};

use crate::counting::{count_all, count_down};
use crate::groups::{Groups, groups_of};
use crate::readers::readers_of;
use generation_frame::{Accepted, PIECES};
use held_rows::HeldRows;
use item_list::ItemList;
use least_set::LeastSet;
use net_model::LinkList;
use std::alloc::{AllocError, Global};
use std::marker::Model;

/// For each sum its inputs, rising.
pub type SumTable = ItemList<LinkList>;

/// A piece of a sum, of a generation.
#[derive(Clone, Copy, Debug, PartialEq, Eq)]
pub struct Due {
    /// The number of the generation.
    pub generation: u32,
    /// The number of the sum.
    pub sum: u32,
    /// The number of the piece, 0 to 7.
    pub piece: u8,
}

// One generation: the pieces of inputs that have come, and for each piece of each group of sums how many inputs are
// missing.
#[derive(Drop)]
struct Table {
    held: HeldRows,
    missing: Vec<u32>,
}

impl Table {
    ghost use Rattle.due_sums.specs.Waiting.{AreSums};
    ghost use Rattle.due_sums.specs.Counts.{IsFresh, IsOfSize};

    // A generation of which nothing has come.
    fn new(alloc: Global, inputs: u32, groups: &SumTable) -> Result<Table, AllocError>
        requires { AreSums inputs groups.now }
        ensures { IfOk result (IsFresh inputs groups.now) }
    {
        let mut missing = vec![in alloc; 0u32; groups.len() * PIECES]?;
        count_all(&mut missing, groups);
        Ok(Table {
            held: HeldRows::new(alloc, inputs)?,
            missing,
        })
    }

    // Forgets all that came.
    fn clear(&mut self, inputs: u32, groups: &SumTable)
        requires groups { AreSums inputs groups.now }
        requires table { IsOfSize inputs groups.now self.old }
        ensures { IsFresh inputs groups.now self.new }
    {
        self.held.clear();
        count_all(&mut self.missing, groups);
    }
}

/// Sums that wait for their inputs.
#[derive(Drop)]
pub struct DueSums {
    inputs: u32,
    sums: SumTable,
    groups: Groups,
    // For each input the groups that read it.
    readers: Vec<Vec<u32>>,
    tables: Vec<Table>,
    // Each generation has room for two to the power of this sums.
    shift: u32,
    // The pieces of sums that are due, generation by generation.
    due: LeastSet,
}

impl Model for DueSums {
    ghost use Rattle.due_sums.specs.Waiting.{Waiting};

    ghost Value = { Waiting };

    ghost use Rattle.std.specs.Prelude.{◌^◌, map};
    ghost use Rattle.due_sums.specs.Counts.{IsWaiting, held_of, lists_of};

    ghost view = { λ waiting.
        record {
          inputs = waiting.inputs;
          sums = waiting.sums;
          held = map held_of waiting.tables.items;
          room = 2 ^ waiting.shift;
          due = waiting.due;
        } };

    ghost invariant = { λ waiting.
        IsWaiting waiting.inputs waiting.sums waiting.groups.inputs waiting.groups.starts.items
        (lists_of waiting.readers.items) waiting.tables.items (2 ^ waiting.shift) waiting.due };
}

impl DueSums {
    ghost use Rattle.generation_frame.specs.Frames.{accepted};
    ghost use Rattle.generation_frame.specs.Blocks.{most_blocks, pieces};
    ghost use Rattle.due_sums.specs.Waiting.{AreSums, Gains, HasNothing, IsSameWork, Takes, has_input, input_at, is_due};

    /// Sums of these inputs, in so many generations, before any input has come. It takes all memory that the work
    /// needs.
    pub fn new(
        alloc: Global,
        inputs: u32,
        sums: SumTable,
        generations: usize,
    ) -> Result<DueSums, AllocError>
        requires sums { AreSums inputs sums }
        requires few_generations { generations ≤ most_blocks }
        ensures inputs { IfOk result (λ waiting. waiting.inputs ≡ inputs) }
        ensures sums { IfOk result (λ waiting. waiting.sums ≡ sums) }
        ensures generations { IfOk result (λ waiting. length waiting.held ≡ generations) }
        ensures nothing { IfOk result HasNothing }
    {
        let groups = groups_of(alloc, &sums)?;
        let readers = readers_of(alloc, inputs, &groups.inputs)?;
        let tables = fresh_tables(alloc, inputs, &groups.inputs, generations)?;
        let shift = shift_for(sums.len());
        let numbers = (generations << shift) * PIECES;
        Ok(DueSums {
            inputs,
            sums,
            groups,
            readers,
            tables,
            shift,
            due: LeastSet::new(alloc, numbers as u32)?,
        })
    }

    /// The sums' inputs.
    pub fn sums(&self) -> &SumTable
        ensures { result.now ≡ self.now.sums }
    {
        &self.sums
    }

    /// Forgets all that came, and what was taken.
    pub fn clear(&mut self)
        ensures work { IsSameWork self.old self.new }
        ensures nothing { HasNothing self.new }
    {
        clear_tables(&mut self.tables, self.inputs, &self.groups.inputs);
        self.due.clear();
    }

    /// Takes a piece of an input in, if it hasn't come before. The sums that it completes are due.
    pub fn accept(
        &mut self,
        generation: usize,
        input: u32,
        piece: u8,
        payload: &[u8; 128],
    ) -> Accepted
        requires generation { generation < length self.old.held }
        requires input { input < self.old.inputs }
        requires piece { piece < pieces }
        ensures work { IsSameWork self.old self.new }
        ensures value { result ≡ accepted (has_input self.old generation input piece) }
        ensures known { result ≡ Accepted.Known → self.new ≡ self.old }
        ensures new { result ≡ Accepted.New
            → Gains generation input piece payload.now self.old self.new }
    {
        let table = &mut self.tables[generation];
        if let Accepted::Known = table.held.hold(input, piece, payload) {
            return Accepted::Known;
        }
        count_down(
            &mut table.missing,
            &mut self.due,
            (generation << self.shift) as u32,
            &self.groups.starts,
            &self.readers[input as usize],
            piece,
        );
        Accepted::New
    }

    /// Whether a piece of an input has come.
    pub fn has_input(&self, generation: usize, input: u32, piece: u8) -> bool
        requires generation { generation < length self.now.held }
        requires input { input < self.now.inputs }
        requires piece { piece < pieces }
        ensures { result ≡ has_input self.now generation input piece }
    {
        self.tables[generation].held.is_held(input, piece)
    }

    /// The bytes of a piece of an input that has come.
    pub fn input(&self, generation: usize, input: u32, piece: u8) -> &[u8; 128]
        requires generation { generation < length self.now.held }
        requires input { input < self.now.inputs }
        requires piece { piece < pieces }
        ensures { result.now ≡ input_at self.now generation input piece }
    {
        self.tables[generation].held.payload(input, piece)
    }

    /// Takes the least piece of a sum that is due in so many generations, if there is any, by generations, sums and
    /// pieces.
    pub fn take_due(&mut self, generations: u32) -> Option<Due>
        requires { generations ≤ length self.old.held }
        ensures work { IsSameWork self.old self.new }
        ensures least { IfSome result
            (λ due. Takes generations due.generation due.sum due.piece self.old self.new) }
        ensures none { IsNone result
            → (g s p : ℕ) → g < generations → p < pieces → is_due self.old g s p ≡ false }
        ensures same { IsNone result → self.new ≡ self.old }
    {
        let limit = (generations << self.shift) * PIECES as u32;
        let number = self.due.take_below(limit)?;
        let place = number / PIECES as u32;
        let generation = place >> self.shift;
        Some(Due {
            generation,
            sum: place - (generation << self.shift),
            piece: (number % PIECES as u32) as u8,
        })
    }
}

// How often one is doubled to have room for so many sums.
fn shift_for(sums: usize) -> u32
    requires { sums ≤ most_links }
    ensures room { sums ≤ 2 ^ result }
    ensures low_shift { result ≤ 13 }
{
    for shift in 0..13 {
        if sums <= 1 << shift {
            return shift;
        }
    }
    13
}

ghost use Rattle.std.specs.Prelude.{All};
ghost use Rattle.net_model.specs.Limits.{most_links};
ghost use Rattle.due_sums.specs.Waiting.{AreSums};
ghost use Rattle.due_sums.specs.Counts.{IsFresh, IsOfSize};

// So many generations of which nothing has come.
fn fresh_tables(
    alloc: Global,
    inputs: u32,
    groups: &SumTable,
    count: usize,
) -> Result<Vec<Table>, AllocError>
    requires { AreSums inputs groups.now }
    ensures count { IfOk result (λ tables. length tables.items ≡ count) }
    ensures fresh { IfOk result (λ tables. All (IsFresh inputs groups.now) tables.items) }
{
    let mut tables = Vec::with_capacity(alloc, count)?;
    for _ in 0..count {
        tables.push(Table::new(alloc, inputs, groups)?)?;
    }
    Ok(tables)
}

// Forgets all that came of each generation.
fn clear_tables(tables: &mut [Table], inputs: u32, groups: &SumTable)
    requires groups { AreSums inputs groups.now }
    requires tables { All (IsOfSize inputs groups.now) tables.old }
    ensures { All (IsFresh inputs groups.now) tables.new }
{
    for table in tables.iter_mut() {
        table.clear(inputs, groups);
    }
}
