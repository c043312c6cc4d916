//! Headed frames: a piece of a row on its way over a link, with the link's vector.
ghost use Rattle.std.specs.Prelude.{◌≡◌, ◌<◌, ◌≤◌, ◌+◌, ◌*◌, ◌==◌, ◌^◌, ◌∷◌, ◌++◌, [], length, drop, Ok, IfOk, MatchResult};
ghost use Rattle.std.specs.Int.{to_be_bytes, w32};
ghost use Rattle.generation_frame.specs.Blocks.{pieces};
ghost use Rattle.linear_algebra.specs.Elements.{numbers};
ghost use Rattle.vector_headers.specs.Heads.{head_length, head_read, headed, is_marked, mark, packet_in, vector_in};

use crate::elements::{read_elements, write_elements};
use byteorder::{BigEndian, ByteOrder};
use generation_frame::{PIECE, Packet};
use gf_tables::Field;
use thiserror::Error;

/// The bytes of a headed frame whose vector has no elements: a mark of 3, the piece's number, 4 of the link, 4 of the
/// generation, and the piece.
pub const HEAD: usize = 140;

// What a headed frame begins with: two letters and the version.
const MARK: [u8; 3] = [0x4c, 0x46, 0x02];

// The bytes before the vector.
const FRONT: usize = 12;

/// Why bytes aren't a headed frame.
#[derive(Clone, Copy, Debug, PartialEq, Eq, Error)]
pub enum HeadRefusal {
    /// The length isn't that of a headed frame with such a vector.
    #[error("the length isn't that of a headed frame")]
    BadLength,
    /// The first three bytes aren't the mark.
    #[error("the mark isn't that of a headed frame")]
    BadMark,
    /// The number of the piece is above 7.
    #[error("the number of the piece is above 7")]
    BadPiece,
}

/// Writes the headed frame of a packet with the vector of its link. It has 140 bytes and those of the elements.
pub fn write_head<F: Field>(vector: &[F], packet: &Packet, into: &mut [u8])
    requires room { length into.old ≡ 140 + length vector.now * F.BYTES }
    requires piece { packet.now.piece < pieces }
    ensures value { into.new ≡ headed F.BYTES (numbers F.number vector.now) packet.now }
    ensures back { head_read F.BYTES (length vector.now) into.new ≡ Ok packet.now }
    ensures vector_back { vector_in F.BYTES (length vector.now) into.new
        ≡ numbers F.number vector.now }
{
    let (front, rest) = into.split_at_mut(FRONT);
    let (elements, payload) = rest.split_at_mut(rest.len() - PIECE);
    write_front(packet, front);
    write_elements(vector, elements);
    payload.copy_from_slice(&packet.payload);
}

/// Reads a headed frame. The elements of its vector, as many as `vector` has, are put there.
///
/// It is refused exactly where its length isn't that for such a vector (`BadLength`), else where it doesn't begin with
/// the mark (`BadMark`), else where the number of the piece is above 7 (`BadPiece`). Then `vector` stays as it was.
pub fn read_head<F: Field>(bytes: &[u8], vector: &mut [F]) -> Result<Packet, HeadRefusal>
    ensures value { result ≡ head_read F.BYTES (length vector.old) bytes.now }
    ensures piece { IfOk result (λ packet. packet.piece < pieces) }
    ensures vector { MatchResult result
        (λ _. numbers F.number vector.new ≡ vector_in F.BYTES (length vector.old) bytes.now)
        (λ _. vector.new ≡ vector.old) }
    ensures back { IfOk result (λ packet.
        headed F.BYTES (numbers F.number vector.new) packet ≡ bytes.now) }
{
    if !has_length::<F>(bytes, vector.len()) {
        return Err(HeadRefusal::BadLength);
    }
    if !is_marked(bytes) {
        return Err(HeadRefusal::BadMark);
    }
    if bytes[3] > 7 {
        return Err(HeadRefusal::BadPiece);
    }
    let end = bytes.len() - PIECE;
    read_elements(&bytes[FRONT..end], vector);
    Ok(packet_in(bytes, end))
}

// Writes what stands before the vector.
fn write_front(packet: &Packet, front: &mut [u8])
    requires { length front.old ≡ 12 }
    ensures link { packet.now.link < 2 ^ 32 }
    ensures generation { packet.now.generation < 2 ^ 32 }
    ensures value { front.new ≡ (mark ++ packet.now.piece ∷ [])
        ++ (to_be_bytes w32 packet.now.link ++ to_be_bytes w32 packet.now.generation) }
{
    let (first, numbers) = front.split_at_mut(4);
    let (link, generation) = numbers.split_at_mut(4);
    first.copy_from_slice(&[MARK[0], MARK[1], MARK[2], packet.piece]);
    BigEndian::write_u32(link, packet.link);
    BigEndian::write_u32(generation, packet.generation);
}

// Whether there are as many bytes as a headed frame with so many elements has.
fn has_length<F: Field>(bytes: &[u8], count: usize) -> bool
    ensures { result ≡ (length bytes.now == head_length F.BYTES count) }
{
    match count.checked_mul(F::BYTES) {
        Some(elements) => bytes.len() >= HEAD && bytes.len() - HEAD == elements,
        None => false,
    }
}

// Whether bytes begin with the mark.
fn is_marked(bytes: &[u8]) -> bool
    requires { 3 ≤ length bytes.now }
    ensures { result ≡ is_marked bytes.now }
{
    bytes[0] == MARK[0] && bytes[1] == MARK[1] && bytes[2] == MARK[2]
}

// The packet whose fields stand in a headed frame, with the payload from `place` on.
fn packet_in(bytes: &[u8], place: usize) -> Packet
    requires front { 12 ≤ place }
    requires payload { length bytes.now ≡ place + 128 }
    ensures { result ≡ packet_in place bytes.now }
{
    Packet {
        link: BigEndian::read_u32(&bytes[4..]),
        generation: BigEndian::read_u32(&bytes[8..]),
        piece: bytes[3],
        payload: payload_at(bytes, place),
    }
}

// The payload from `place` on.
fn payload_at(bytes: &[u8], place: usize) -> [u8; 128]
    requires { length bytes.now ≡ place + 128 }
    ensures { result ≡ drop place bytes.now }
{
    let mut payload = [0; PIECE];
    payload.copy_from_slice(&bytes[place..]);
    payload
}
