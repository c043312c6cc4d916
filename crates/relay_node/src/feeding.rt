//! Rows of a block that are taken in, piece by piece.
ghost use Rattle.std.specs.Prelude.{◌≡◌, ◌<◌, ◌+◌, ◌*◌, ◌≤◌, ℕ, false, length};
ghost use Rattle.std.specs.List.{list_any, range_with_len};
ghost use Rattle.coded_traffic.specs.CodeBlocks.{row_of};
ghost use Rattle.due_sums.specs.Waiting.{has_input};
ghost use Rattle.generation_frame.specs.Blocks.{most_rows, piece_of_row, pieces, row_bytes};
ghost use Rattle.relay_node.specs.Feeding.{ArePiecesTaken, AreRowsTaken};

use due_sums::DueSums;
use generation_frame::{PIECE, PIECES, ROW};

// A piece of a row.
fn piece_of(row: &[u8], piece: usize) -> [u8; 128]
    requires row { length row.now ≡ row_bytes }
    requires piece { piece < pieces }
    ensures { result ≡ piece_of_row row.now piece }
{
    let mut payload = [0; PIECE];
    let start = piece * PIECE;
    payload.copy_from_slice(&row[start..start + PIECE]);
    payload
}

// Takes all pieces of an input in, of which none has come in the generation.
fn take_row(sums: &mut DueSums, generation: usize, input: u32, row: &[u8])
    requires generation { generation < length sums.old.held }
    requires input { input < sums.old.inputs }
    requires row { length row.now ≡ row_bytes }
    requires none { (p : ℕ) → p < pieces → has_input sums.old generation input p ≡ false }
    ensures { ArePiecesTaken generation input pieces row.now sums.old sums.new }
{
    for piece in 0..PIECES {
        let payload = piece_of(row, piece);
        let _ = sums.accept(generation, input, piece as u8, &payload);
    }
}

/// Takes the rows of a block in as the inputs of a generation, of which none has come.
pub fn take_rows(sums: &mut DueSums, generation: usize, rows: u32, block: &[u8])
    requires generation { generation < length sums.old.held }
    requires inputs { sums.old.inputs ≡ rows }
    requires few_rows { rows ≤ most_rows }
    requires block { length block.now ≡ rows * row_bytes }
    requires none { (row p : ℕ) → row < rows → p < pieces
        → has_input sums.old generation row p ≡ false }
    ensures { AreRowsTaken generation rows block.now sums.old sums.new }
{
    for row in 0..rows {
        let start = row as usize * ROW;
        take_row(sums, generation, row, &block[start..start + ROW]);
    }
}

// Whether a piece of a row has come.
fn row_has_come(sums: &DueSums, generation: usize, row: u32) -> bool
    requires generation { generation < length sums.now.held }
    requires input { row < sums.now.inputs }
    ensures { result ≡ list_any (λ piece. has_input sums.now generation row piece)
        (range_with_len 0 pieces) }
{
    for piece in 0..PIECES {
        if sums.has_input(generation, row, piece as u8) {
            return true;
        }
    }
    false
}

/// Whether a piece of a row of a block has come.
pub fn have_come(sums: &DueSums, generation: usize, rows: u32) -> bool
    requires generation { generation < length sums.now.held }
    requires inputs { sums.now.inputs ≡ rows }
    ensures { result ≡ list_any (λ row. list_any (λ piece. has_input sums.now generation row piece)
        (range_with_len 0 pieces)) (range_with_len 0 rows) }
{
    for row in 0..rows {
        if row_has_come(sums, generation, row) {
            return true;
        }
    }
    false
}
