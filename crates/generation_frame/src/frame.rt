//! Frames: a piece of a row on its way over a link.
ghost use Rattle.std.specs.Prelude.{◌≡◌, ◌<◌, ◌≤◌, length, take, drop, Ok, IfOk};
ghost use Rattle.std.specs.Int.{from_be_bytes, w32};
ghost use Rattle.generation_frame.specs.Blocks.{pieces};
ghost use Rattle.generation_frame.specs.Frames.{frame_of, frame_read, is_marked, packet_in};

use byteorder::{BigEndian, ByteOrder};
use thiserror::Error;

/// The pieces of a row.
pub const PIECES: usize = 8;

/// The bytes of a piece.
pub const PIECE: usize = 128;

/// The bytes of a frame: a mark of 3, the piece's number, 4 of the link, 4 of the generation, and the piece.
pub const FRAME: usize = 140;

// What a frame begins with: two letters and the version.
const MARK: [u8; 3] = [0x4c, 0x46, 0x01];

/// A piece of the row that a link carries of a generation.
#[derive(Clone, Copy, Debug, PartialEq, Eq)]
pub struct Packet {
    /// The number of the link.
    pub link: u32,
    /// The number of the generation.
    pub generation: u32,
    /// Which piece of the row, 0 to 7.
    pub piece: u8,
    /// The piece's bytes.
    pub payload: [u8; 128],
}

/// Why bytes aren't a frame.
#[derive(Clone, Copy, Debug, PartialEq, Eq, Error)]
pub enum FrameRefusal {
    /// The first three bytes aren't the mark.
    #[error("the mark isn't that of a frame")]
    BadMark,
    /// The number of the piece is above 7.
    #[error("the number of the piece is above 7")]
    BadPiece,
}

/// What becomes of a packet that a node or a sink takes in.
#[derive(Clone, Copy, Debug, PartialEq, Eq)]
pub enum Accepted {
    /// The piece is held already, and nothing changes.
    Known,
    /// The piece is held from now on.
    New,
}

/// The frame of a packet.
pub fn frame_of(packet: &Packet) -> [u8; 140]
    requires { packet.now.piece < pieces }
    ensures value { result ≡ frame_of packet.now }
    ensures back { frame_read result ≡ Ok packet.now }
{
    let mut frame = [0; FRAME];
    let (head, payload) = frame.split_at_mut(12);
    let (first, numbers) = head.split_at_mut(4);
    let (link, generation) = numbers.split_at_mut(4);
    first.copy_from_slice(&[MARK[0], MARK[1], MARK[2], packet.piece]);
    BigEndian::write_u32(link, packet.link);
    BigEndian::write_u32(generation, packet.generation);
    payload.copy_from_slice(&packet.payload);
    frame
}

/// The packet of a frame.
pub fn read_frame(frame: &[u8; 140]) -> Result<Packet, FrameRefusal>
    ensures value { result ≡ frame_read frame.now }
    ensures piece { IfOk result (λ packet. packet.piece < pieces) }
    ensures back { IfOk result (λ packet. frame_of packet ≡ frame.now) }
{
    if !is_marked(frame) {
        return Err(FrameRefusal::BadMark);
    }
    if frame[3] > 7 {
        return Err(FrameRefusal::BadPiece);
    }
    Ok(packet_in(frame))
}

// The packet whose fields stand in a frame.
fn packet_in(frame: &[u8; 140]) -> Packet
    ensures { result ≡ packet_in frame.now }
{
    Packet {
        link: number_in(&frame[4..]),
        generation: number_in(&frame[8..]),
        piece: frame[3],
        payload: payload_of(frame),
    }
}

// Whether a frame begins with the mark.
fn is_marked(frame: &[u8; 140]) -> bool
    ensures { result ≡ is_marked frame.now }
{
    frame[0] == MARK[0] && frame[1] == MARK[1] && frame[2] == MARK[2]
}

// The number of four bytes.
pub(crate) fn number_in(bytes: &[u8]) -> u32
    requires { 4 ≤ length bytes.now }
    ensures { result ≡ from_be_bytes w32 (take 4 bytes.now) }
{
    u32::from_be_bytes([bytes[0], bytes[1], bytes[2], bytes[3]])
}

// The bytes behind the numbers.
fn payload_of(frame: &[u8; 140]) -> [u8; 128]
    ensures { result ≡ drop 12 frame.now }
{
    let mut payload = [0; PIECE];
    payload.copy_from_slice(&frame[12..]);
    payload
}
