//! Frames, and what is told of them.
use super::hands::Span;

/// A frame.
pub(super) type Frame = [u8; 140];

/// Runs of bytes, each so many times one byte.
pub(super) type Runs = &'static [(u8, u8)];

/// What comes of blocks that are sent through the code of a file under a pattern: the links that carry them, the first of
/// which carries the first frame, some pieces of the first block, each by its link and its number, and how many sinks decode
/// the blocks.
#[derive(Clone, Copy)]
pub(super) struct Told {
    pub(super) file: &'static [u8],
    pub(super) pattern: u32,
    pub(super) live: &'static [u32],
    pub(super) pieces: &'static [(u32, u8, Runs)],
    pub(super) sinks: usize,
}

/// Whether bytes are these runs, each so many times one byte.
pub(super) fn is_of_runs(bytes: &[u8], runs: &[(u8, u8)]) -> bool {
    let mut rest = bytes;
    for &(count, byte) in runs {
        match rest.split_at_checked(count as usize) {
            Some((front, behind)) => {
                if !front.iter().all(|one| *one == byte) {
                    return false;
                }
                rest = behind;
            }
            None => return false,
        }
    }
    rest.is_empty()
}

// The front of a frame: the mark, and the numbers of the piece, the link and the generation.
fn front_of(link: u32, generation: u32, piece: u8) -> [u8; 12] {
    let [a, b, c, d] = link.to_be_bytes();
    let [e, f, g, h] = generation.to_be_bytes();
    [0x4c, 0x46, 1, piece, a, b, c, d, e, f, g, h]
}

// How many frames begin with these bytes.
fn count_of(given: &[Frame], front: &[u8]) -> usize {
    given.iter().filter(|one| one.starts_with(front)).count()
}

// Whether each piece of each generation was given on each of these links once, and nothing else was.
fn are_on(given: &[Frame], links: &[u32], span: Span) -> bool {
    for &link in links {
        for place in 0..span.count {
            for piece in 0..8 {
                if count_of(given, &front_of(link, span.first + place, piece)) != 1 {
                    return false;
                }
            }
        }
    }
    given.len() == links.len().saturating_mul(8 * span.count as usize)
}

// Whether the first frame has the first piece of a generation, on the first of these links.
fn begins_on(given: &[Frame], links: &[u32], generation: u32) -> bool {
    match (given.first(), links.first()) {
        (Some(frame), Some(link)) => frame.starts_with(&front_of(*link, generation, 0)),
        _ => false,
    }
}

// Whether a piece that a link carries of a generation has these bytes.
fn carries(given: &[Frame], link: u32, generation: u32, piece: u8, runs: Runs) -> bool {
    let front = front_of(link, generation, piece);
    match given.iter().find(|one| one.starts_with(&front)) {
        Some(frame) => is_of_runs(&frame[12..], runs),
        None => false,
    }
}

/// Whether frames are as told of these generations.
pub(super) fn are_told(given: &[Frame], told: &Told, span: Span) -> bool {
    for &(link, piece, runs) in told.pieces {
        if !carries(given, link, span.first, piece, runs) {
            return false;
        }
    }
    begins_on(given, told.live, span.first) && are_on(given, told.live, span)
}
