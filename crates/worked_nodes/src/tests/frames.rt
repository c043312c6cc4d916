//! Frames whose bytes are written out, and files joined from their blocks.
ghost use Rattle.std.specs.Prelude.{◌≡◌};

use generation_frame::{FrameRefusal, Joined, Joiner, Packet, cut, frame_of, read_frame};

// A packet whose numbers have four different bytes each.
fn packet() -> Packet
    ensures { result.piece ≡ 5 }
{
    let mut payload = [7; 128];
    payload[0] = 1;
    payload[127] = 9;
    Packet {
        link: 0x0102_0304,
        generation: 0xa0b0_c0d0,
        piece: 5,
        payload,
    }
}

// Its frame.
fn frame() -> [u8; 140] {
    let mut frame = [7; 140];
    frame[..13].copy_from_slice(&[0x4c, 0x46, 0x01, 5, 1, 2, 3, 4, 0xa0, 0xb0, 0xc0, 0xd0, 1]);
    frame[139] = 9;
    frame
}

#[test]
fn a_frame_is_as_written(rt: HostRuntime) {
    assert!(rt; frame_of(&packet()) == frame() && read_frame(&frame()) == Ok(packet()));
}

// Places and bytes that are others in the frame, and why it isn't read then.
const OTHERS: &[(usize, u8, FrameRefusal)] = &[
    (0, 0x4d, FrameRefusal::BadMark),
    (1, 0x66, FrameRefusal::BadMark),
    (2, 0x02, FrameRefusal::BadMark),
    (3, 8, FrameRefusal::BadPiece),
    (3, 255, FrameRefusal::BadPiece),
];

fn is_refused(place: usize, byte: u8, why: FrameRefusal) -> bool {
    let mut frame = frame();
    if place < 140 {
        frame[place] = byte;
    }
    read_frame(&frame) == Err(why)
}

// The first row of those that isn't so.
fn first_read() -> Option<usize> {
    for (row, &(place, byte, why)) in OTHERS.iter().enumerate() {
        if !is_refused(place, byte, why) {
            return Some(row);
        }
    }
    None
}

// Why a frame isn't read of which the mark and the piece are others.
fn first_refusal() -> Result<Packet, FrameRefusal> {
    let mut frame = frame();
    frame[2] = 0;
    frame[3] = 9;
    read_frame(&frame)
}

#[test]
fn a_frame_is_refused_for_its_mark_first(rt: HostRuntime) {
    assert!(rt; first_read().is_none() && first_refusal() == Err(FrameRefusal::BadMark));
}

// What blocks have of a file: one that is full, two that count too many, the last one, and one behind it.
fn joined() -> [Joined; 5] {
    let mut joiner = Joiner::new(2);
    let mut block = [0; 2048];
    cut(&[3; 2044], &mut block);
    let more = joiner.join(&block);
    block[..4].copy_from_slice(&[0, 0, 7, 0xfd]);
    let one_more = joiner.join(&block);
    let most = joiner.join(&[255; 2048]);
    cut(&[4; 2043], &mut block);
    let last = joiner.join(&block);
    [more, one_more, most, last, joiner.join(&block)]
}

#[test]
fn blocks_are_joined(rt: HostRuntime) {
    let right = [
        Joined::More(2044),
        Joined::BadCount(2045),
        Joined::BadCount(u32::MAX),
        Joined::Last(2043),
        Joined::Ended,
    ];
    assert!(rt; joined() == right && Joiner::new(1).join(&[0; 1024]) == Joined::Last(0));
}
