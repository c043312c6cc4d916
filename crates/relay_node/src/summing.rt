//! What a link out of a node carries, by what came on the links into it.
ghost use Rattle.std.specs.Prelude.{◌≡◌, length};
ghost use Rattle.generation_frame.specs.Blocks.{piece_bytes};
ghost use Rattle.linear_algebra.specs.Rows.{zero_row};
ghost use Rattle.relay_node.specs.Summed.{CanSum, IsSummed, came_of, total_of};

use crate::summands::Summand;
use due_sums::{Due, DueSums};
use field_rows::RowTables;
use generation_frame::PIECE;
use gf_tables::FieldKind;

// A piece of a sum: over its summands, the coefficient times what came of the input.
pub(crate) fn payload_of(
    tables: &RowTables,
    field: FieldKind,
    summands: &[Summand],
    sums: &DueSums,
    due: Due,
) -> [u8; 128]
    requires { CanSum field summands.now sums.now due.generation due.piece }
    ensures { result ≡ total_of field summands.now (came_of sums.now due.generation due.piece) }
{
    let mut payload = [0; PIECE];
    sum_up(tables, field, summands, sums, due, &mut payload);
    payload
}

// Makes a payload of zeros the sum.
fn sum_up(
    tables: &RowTables,
    field: FieldKind,
    summands: &[Summand],
    sums: &DueSums,
    due: Due,
    payload: &mut [u8],
)
    requires sum { CanSum field summands.now sums.now due.generation due.piece }
    requires zeros { payload.old ≡ zero_row piece_bytes }
    ensures { payload.new
        ≡ total_of field summands.now (came_of sums.now due.generation due.piece) }
{
    add_summands(tables, field, summands, sums, due, payload);
}

// Adds summand after summand to a payload of zeros.
fn add_summands(
    tables: &RowTables,
    field: FieldKind,
    summands: &[Summand],
    sums: &DueSums,
    due: Due,
    payload: &mut [u8],
)
    requires sum { CanSum field summands.now sums.now due.generation due.piece }
    requires zeros { payload.old ≡ zero_row piece_bytes }
    ensures { IsSummed field summands.now (came_of sums.now due.generation due.piece)
        (length summands.now) payload.new }
{
    for summand in summands {
        let came = sums.input(due.generation as usize, summand.input, due.piece);
        tables.add_scaled(field, payload, summand.times, came);
    }
}
