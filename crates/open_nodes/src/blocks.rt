//! A source that is cut into blocks, and what a block counts of it.
ghost use Rattle.std.specs.Prelude.{◌≡◌, ◌/◌, Err, Ok, OnErr, OnOk, if◌then◌else◌, length, nat_le};
ghost use Rattle.generation_frame.specs.Blocks.{block_of, counted_bytes, row_bytes};
ghost use Rattle.open_nodes.specs.Errors.{cut_error, error_in, has_room};
ghost use Rattle.open_nodes.specs.declared.call_error.CallError.TheVariants.{BadLength};

use crate::CallError;
use generation_frame::{ROW, counted, cut};

/// The most bytes of a block.
const MOST_BYTES: usize = 32 * ROW;

/// Writes the block of a piece of a source: the count of its bytes, the bytes, and zeros. The block has 1 to 32 rows of
/// 1024 bytes, and room for the piece.
pub fn cut_into(piece: &[u8], block: &mut [u8]) -> Result<(), CallError>
    ensures error { error_in result ≡ cut_error (length piece.now) (length block.old) }
    ensures cut { OnOk result (block.new ≡ block_of (length block.old / row_bytes) piece.now) }
    ensures same { OnErr result (block.new ≡ block.old) }
{
    if !has_room(piece.len(), block.len()) {
        return Err(CallError::BadLength);
    }
    cut(piece, block);
    Ok(())
}

// Whether a block of so many bytes can be made of so many of a source.
fn has_room(bytes: usize, room: usize) -> bool
    ensures { result ≡ has_room bytes room }
{
    room % ROW == 0 && ROW <= room && room <= MOST_BYTES && bytes <= room - 4
}

/// How many bytes of a source a block counts, as far as it has them: they stand from byte 4 on.
pub fn count_in(block: &[u8]) -> Result<usize, CallError>
    ensures { result ≡ (if nat_le 4 (length block.now) then Ok (length (counted_bytes block.now)) else Err BadLength) }
{
    if block.len() < 4 {
        return Err(CallError::BadLength);
    }
    Ok(counted(block).len())
}
