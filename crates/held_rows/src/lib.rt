//! Rows of 1024 bytes that come in pieces of 128, each piece once.
//!
//! Begin with `HeldRows::new`; `hold` takes a piece in, `is_whole` says whether all of a row came, and `row` and
//! `payload` give it. Read `specs/Held.antt`. What matters is that the first payload of a piece stays, until
//! `clear`.
#![tactic(auto)]

ghost use Rattle.std.specs.Prelude.{◌≡◌, ◌<◌, ◌≤◌, ◌*◌, ◌+◌, length, IfOk, true, false, not};

use generation_frame::{Accepted, PIECES};
use std::alloc::{AllocError, Global};
use std::marker::Model;

/// Rows, as far as their pieces have come.
#[derive(Drop)]
pub struct HeldRows {
    payloads: Vec<[u8; 128]>,
    marks: Vec<bool>,
}

impl Model for HeldRows {
    ghost use Rattle.held_rows.specs.Held.{Held, AreRows};

    ghost Value = { Held };

    ghost view = { λ rows. record { payloads = rows.payloads.items; marks = rows.marks.items } };

    ghost invariant = { λ rows. AreRows rows.payloads.items rows.marks.items };
}

impl HeldRows {
    ghost use Rattle.generation_frame.specs.Blocks.{pieces, row_bytes};
    ghost use Rattle.generation_frame.specs.Frames.{accepted};
    ghost use Rattle.held_rows.specs.Held.{row_count, is_held, is_whole, payload_of, row_of, HoldsNone, Holds};

    /// So many rows, of which no piece has come.
    pub fn new(alloc: Global, rows: u32) -> Result<HeldRows, AllocError>
        ensures none { IfOk result HoldsNone }
        ensures count { IfOk result (λ held. row_count held ≡ rows) }
    {
        let pieces = rows as usize * PIECES;
        Ok(HeldRows {
            payloads: vec![in alloc; [0; 128]; pieces]?,
            marks: vec![in alloc; false; pieces]?,
        })
    }

    /// Forgets all pieces.
    pub fn clear(&mut self)
        ensures none { HoldsNone self.new }
        ensures count { row_count self.new ≡ row_count self.old }
    {
        self.marks.fill(false);
    }

    /// Whether a piece of a row has come.
    pub fn is_held(&self, row: u32, piece: u8) -> bool
        requires row { row < row_count self.now }
        requires piece { piece < pieces }
        ensures { result ≡ is_held self.now row piece }
    {
        self.marks[row as usize * PIECES + piece as usize]
    }

    /// Keeps a piece of a row, if it hasn't come before.
    pub fn hold(&mut self, row: u32, piece: u8, payload: &[u8; 128]) -> Accepted
        requires row { row < row_count self.old }
        requires piece { piece < pieces }
        ensures value { result ≡ accepted (is_held self.old row piece) }
        ensures new { result ≡ Accepted.New → Holds row piece payload.now self.old self.new }
        ensures known { result ≡ Accepted.Known → self.new ≡ self.old }
        ensures count { row_count self.new ≡ row_count self.old }
    {
        let place = row as usize * PIECES + piece as usize;
        if self.marks[place] {
            return Accepted::Known;
        }
        self.marks[place] = true;
        self.payloads[place] = *payload;
        Accepted::New
    }

    /// The bytes of a piece of a row that has come.
    pub fn payload(&self, row: u32, piece: u8) -> &[u8; 128]
        requires row { row < row_count self.now }
        requires piece { piece < pieces }
        ensures { result.now ≡ payload_of self.now row piece }
    {
        &self.payloads[row as usize * PIECES + piece as usize]
    }

    /// Whether all pieces of a row have come.
    pub fn is_whole(&self, row: u32) -> bool
        requires { row < row_count self.now }
        ensures { result ≡ is_whole self.now row }
    {
        let first = row as usize * PIECES;
        self.marks[first..first + PIECES].iter().all(|mark| *mark)
    }

    /// The bytes of a row, piece after piece.
    pub fn row(&self, row: u32) -> &[u8]
        requires { row < row_count self.now }
        ensures value { result.now ≡ row_of self.now row }
        ensures length { length result.now ≡ row_bytes }
    {
        let first = row as usize * PIECES;
        self.payloads[first..first + PIECES].as_flattened()
    }
}
