//! Blocks and frames: how a file is cut into generations, and a row into pieces that travel.
//!
//! `cap` says how many bytes of a file a block takes, `cut` makes the block of a piece, and `counted` gives the
//! piece back; `Joiner` puts the pieces of a file together. `frame_of` makes the frame of a packet, and
//! `read_frame` gives it back. Read `specs/Blocks.antt` and `specs/Frames.antt`. The laws that matter are
//! `counted-block` in proofs/BlockLaws and `concat-pieces_of` in proofs/PieceLaws: the pieces of a file are the
//! file.
#![tactic(auto)]

ghost use Rattle.std.specs.Prelude.{◌≡◌, ◌<◌, ◌≤◌, ◌*◌, ◌+◌, ◌/◌, ◌%◌, length};
ghost use Rattle.generation_frame.specs.Blocks.{block_of, capacity, counted_bytes, most_rows, row_bytes};

mod frame;
mod joiner;
mod stream_why;

use byteorder::{BigEndian, ByteOrder};
use frame::number_in;
pub use frame::{Accepted, FRAME, FrameRefusal, PIECE, PIECES, Packet, frame_of, read_frame};
pub use joiner::{Joined, Joiner};
pub use stream_why::StreamWhy;

/// The bytes of a row.
pub const ROW: usize = 1024;

/// The most blocks of a window, those that go through a code at a time.
pub const MOST_BLOCKS: usize = 4;

/// The bytes of the count at the front of a block.
const COUNT: usize = 4;

/// How many bytes of a file a block of `rate` rows has room for.
pub fn cap(rate: u32) -> u32
    requires some_rate { 1 ≤ rate }
    requires low_rate { rate ≤ most_rows }
    ensures { result ≡ capacity rate }
{
    rate * ROW as u32 - COUNT as u32
}

/// Writes the block of a piece of a file: the count of its bytes, the bytes, and zeros. The block has 1 to 32
/// rows of 1024 bytes, and room for the piece.
pub fn cut(piece: &[u8], block: &mut [u8])
    requires whole_rows { length block.old % row_bytes ≡ 0 }
    requires some_row { row_bytes ≤ length block.old }
    requires few_rows { length block.old ≤ most_rows * row_bytes }
    requires room { length piece.now + 4 ≤ length block.old }
    ensures { block.new ≡ block_of (length block.old / row_bytes) piece.now }
{
    let (count, rest) = block.split_at_mut(COUNT);
    BigEndian::write_u32(count, piece.len() as u32);
    let (front, zeros) = rest.split_at_mut(piece.len());
    front.copy_from_slice(piece);
    zeros.fill(0);
}

/// The bytes that a block counts, as far as it has them.
pub fn counted(block: &[u8]) -> &[u8]
    requires { 4 ≤ length block.now }
    ensures { result.now ≡ counted_bytes block.now }
{
    let count = number_in(block) as usize;
    let rest = &block[COUNT..];
    &rest[..count.min(rest.len())]
}
