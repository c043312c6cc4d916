//! Calls that cut a source into blocks.
ghost use Rattle.std.specs.Prelude.{◌≡◌, ◌≢◌, ◌/◌, length};
ghost use Rattle.generation_frame.specs.Blocks.{block_of, row_bytes};
ghost use Rattle.lif_c.specs.Statuses.{ok, status_of};
ghost use Rattle.lif_c.specs.Writing.{Writes, count_of};
ghost use Rattle.open_nodes.specs.Errors.{cut_error};

use crate::status::status_of;
use crate::writing::write;
use open_nodes::{count_in, cut_into};

/// Writes the block of a piece of a source: the count of its bytes, the bytes, and zeros.
#[unsafe(no_mangle)]
pub extern "C" fn lif_cut(piece: &[u8], block: &mut [u8]) -> u32
    ensures answer { result ≡ status_of (cut_error (length piece.now) (length block.old)) }
    ensures cut { result ≡ ok → block.new ≡ block_of (length block.old / row_bytes) piece.now }
    ensures same { result ≢ ok → block.new ≡ block.old }
{
    status_of(cut_into(piece, block))
}

/// Writes how many bytes of a source a block counts: they stand from byte 4 on.
#[unsafe(no_mangle)]
pub extern "C" fn lif_count(block: &[u8], count: &mut usize) -> u32
    ensures { Writes (count_of block.now) count.old count.new result }
{
    write(count_in(block), count)
}
