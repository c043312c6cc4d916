//! Headed frames whose bytes are written out.
ghost use Rattle.std.specs.Prelude.{◌≡◌, ◌+◌, ◌*◌, ◌<◌, length};

use generation_frame::Packet;
use gf_tables::{Field, Gf8, Gf16};
use vector_headers::{HeadRefusal, read_head, write_head};

// A packet whose numbers have four different bytes each.
fn packet() -> Packet
    ensures { result.piece ≡ 5 }
{
    let mut payload = [7; 128];
    payload[0] = 1;
    payload[127] = 9;
    Packet {
        link: 0x0102_0304,
        generation: 0xa0b0_c0d0,
        piece: 5,
        payload,
    }
}

// The bytes of its headed frame before the vector.
const FRONT: [u8; 12] = [0x4c, 0x46, 2, 5, 1, 2, 3, 4, 0xa0, 0xb0, 0xc0, 0xd0];

// Its headed frame with three elements of one byte.
fn with_octets() -> [u8; 143] {
    let mut frame = [7; 143];
    frame[..12].copy_from_slice(&FRONT);
    frame[12..16].copy_from_slice(&[0x11, 0, 0xff, 1]);
    frame[142] = 9;
    frame
}

// The same with two elements of two bytes.
fn with_pairs() -> [u8; 144] {
    let mut frame = [7; 144];
    frame[..12].copy_from_slice(&FRONT);
    frame[12..17].copy_from_slice(&[0x12, 0x34, 0, 0xff, 1]);
    frame[143] = 9;
    frame
}

// Whether a vector's headed frame is as written, and gives back the packet and the vector.
fn is_as_written<F: Field>(vector: &[F], frame: &[u8], made: &mut [u8], read: &mut [F]) -> bool
    requires { length made.old ≡ 140 + length vector.now * F.BYTES }
{
    write_head(vector, &packet(), made);
    &*made == frame && read_head(frame, read) == Ok(packet()) && &*read == vector
}

fn octets() -> [Gf8; 3] {
    [
        Gf8::of_number(0x11),
        Gf8::of_number(0),
        Gf8::of_number(0xff),
    ]
}

fn pairs() -> [Gf16; 2] {
    [Gf16::of_number(0x1234), Gf16::of_number(0xff)]
}

fn are_as_written() -> [bool; 3] {
    let none: [Gf8; 0] = [];
    let mut bare = [7; 140];
    bare[..12].copy_from_slice(&FRONT);
    bare[12] = 1;
    bare[139] = 9;
    [
        is_as_written(
            &octets(),
            &with_octets(),
            &mut [0; 143],
            &mut [Gf8::one(); 3],
        ),
        is_as_written(
            &pairs(),
            &with_pairs(),
            &mut [0; 144],
            &mut [Gf16::one(); 2],
        ),
        is_as_written(&none, &bare, &mut [0; 140], &mut []),
    ]
}

#[test]
fn headed_frames_are_as_written(rt: HostRuntime) {
    assert!(rt; are_as_written() == [true; 3]);
}

// So many of the bytes of a headed frame with two elements of two bytes, of which one is another, and why it isn't
// read then.
const OTHERS: &[(usize, usize, u8, HeadRefusal)] = &[
    (143, 2, 1, HeadRefusal::BadLength),
    (145, 143, 9, HeadRefusal::BadLength),
    (140, 3, 9, HeadRefusal::BadLength),
    (0, 3, 9, HeadRefusal::BadLength),
    (144, 0, 0x4d, HeadRefusal::BadMark),
    (144, 1, 0x66, HeadRefusal::BadMark),
    (144, 2, 1, HeadRefusal::BadMark),
    (144, 3, 8, HeadRefusal::BadPiece),
    (144, 3, 255, HeadRefusal::BadPiece),
];

// Whether it is refused so, and the elements stay as they were.
fn is_refused(length: usize, place: usize, byte: u8, why: HeadRefusal) -> bool {
    let mut frame = [7; 145];
    frame[..144].copy_from_slice(&with_pairs());
    let mut vector = [Gf16::one(); 2];
    if place < 145 && length <= 145 {
        frame[place] = byte;
        read_head(&frame[..length], &mut vector) == Err(why) && vector == [Gf16::one(); 2]
    } else {
        false
    }
}

// The first row of those that isn't so.
fn first_read() -> Option<usize> {
    for (row, &(length, place, byte, why)) in OTHERS.iter().enumerate() {
        if !is_refused(length, place, byte, why) {
            return Some(row);
        }
    }
    None
}

// Why a headed frame isn't read of which the mark and the piece are others.
fn first_refusal() -> Result<Packet, HeadRefusal> {
    let mut frame = with_pairs();
    frame[2] = 1;
    frame[3] = 9;
    read_head(&frame, &mut [Gf16::zero(); 2])
}

#[test]
fn a_headed_frame_is_refused_for_its_length_and_its_mark_first(rt: HostRuntime) {
    assert!(rt; first_read().is_none() && first_refusal() == Err(HeadRefusal::BadMark));
}
