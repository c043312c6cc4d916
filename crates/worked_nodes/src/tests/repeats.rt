//! Pieces that come again, with the same bytes or with others, and generations that are begun again.
use super::hands::{Span, Taker, Worker, Wrong};
use super::runs::{Hands, open_file};
use super::told::is_of_runs;
use generation_frame::Accepted::{Known, New};
use generation_frame::{Accepted, Packet};
use gf_tables::Gf8;
use std::alloc::Global;
use std::test;
use std::thread::Threads;
use test_support::files::{BUTTERFLY, ONE_LINK};

/// A packet of so many times one byte.
pub(super) fn packet_of(link: u32, generation: u32, piece: u8, byte: u8) -> Packet {
    Packet {
        link,
        generation,
        piece,
        payload: [byte; 128],
    }
}

// A node is given a packet by its link, generation, piece and byte, says whether it was new, and gives then the piece of
// such a byte on another link, or none.
type Step = (u32, u32, u8, u8, Accepted, Option<u8>);

// What is done with a node each time that it has begun so many generations from one on. The node from which the link 6 of
// the butterfly leaves adds what comes on the links 4 and 5.
const TURNS: &[(u32, u32, &[Step])] = &[
    (
        3,
        2,
        &[
            (4, 3, 5, 0x01, New, None),
            (4, 3, 5, 0x01, Known, None),
            // Another payload isn't taken.
            (4, 3, 5, 0x10, Known, None),
            (5, 3, 5, 0x02, New, Some(0x03)),
            // What was given isn't given again.
            (5, 3, 5, 0x02, Known, None),
            (4, 3, 5, 0x30, Known, None),
            // Another piece, and another generation.
            (4, 3, 6, 0x11, New, None),
            (5, 4, 6, 0x22, New, None),
            (5, 3, 6, 0x44, New, Some(0x55)),
            (4, 4, 6, 0x88, New, Some(0xaa)),
            (4, 4, 0, 0x01, New, None),
        ],
    ),
    // Begun again, nothing has come and nothing was given.
    (
        3,
        2,
        &[
            (5, 4, 0, 0x04, New, None),
            (5, 3, 5, 0x40, New, None),
            (4, 3, 5, 0x05, New, Some(0x45)),
            (4, 4, 0, 0x09, New, Some(0x0d)),
        ],
    ),
    // The next generations have the room of those.
    (
        4,
        1,
        &[(4, 4, 5, 0x0a, New, None), (5, 4, 5, 0x0c, New, Some(0x06))],
    ),
];

// Whether a node gives a piece of a byte on the link 6 alone, or nothing.
fn gives(worker: &mut Worker<Gf8>, generation: u32, piece: u8, byte: Option<u8>) -> bool {
    let is_given = match byte {
        Some(sum) => worker.next_out() == Some(packet_of(6, generation, piece, sum)),
        None => true,
    };
    is_given && worker.next_out().is_none()
}

// Does a step, and says whether all is as it tells.
fn is_done(worker: &mut Worker<Gf8>, step: &Step) -> Result<bool, Wrong> {
    let &(link, generation, piece, byte, accepted, sum) = step;
    let said = worker.accept(&packet_of(link, generation, piece, byte))?;
    Ok(said == accepted && gives(worker, generation, piece, sum))
}

// The first of the steps that isn't as told.
fn first_wrong_step(worker: &mut Worker<Gf8>, steps: &[Step]) -> Result<Option<usize>, Wrong> {
    for (number, step) in steps.iter().enumerate() {
        if !is_done(worker, step)? {
            return Ok(Some(number));
        }
    }
    Ok(None)
}

// The first of the turns that isn't as told, and the step of it.
fn first_wrong_turn(worker: &mut Worker<Gf8>) -> Result<Option<(usize, usize)>, Wrong> {
    for (number, &(first, count, steps)) in TURNS.iter().enumerate() {
        worker.begin(Span::of(first, count)?);
        if worker.next_out().is_some() {
            return Ok(Some((number, 0)));
        }
        if let Some(step) = first_wrong_step(worker, steps)? {
            return Ok(Some((number, step)));
        }
    }
    Ok(None)
}

// The same at a node of the butterfly.
fn wrong_turn_at<R: Threads + Sync>(
    rt: &R,
    alloc: Global,
    hands: &mut Hands<Gf8>,
) -> Result<Option<(usize, usize)>, Wrong> {
    open_file(rt, alloc, BUTTERFLY, Span::of(3, 2)?, hands)?;
    match hands.workers.get_mut(5) {
        Some(worker) => first_wrong_turn(worker),
        None => Err(Wrong::Call),
    }
}

// The same, where none is open before.
fn wrong_turn<R: Threads + Sync>(rt: &R, alloc: Global) -> Result<Option<(usize, usize)>, Wrong> {
    let mut hands = Hands::new(alloc);
    wrong_turn_at(rt, alloc, &mut hands)
}

#[test]
fn a_node_takes_the_first_payload(rt: HostRuntime) {
    assert_eq!(rt; wrong_turn(&rt, rt.alloc()), Ok(None));
}

// The sink of one link is given these pieces of a generation, each so many times a byte, and says of each whether it was
// new. Then it has the generation's block, of the bytes of its first seven pieces and of the last, or it isn't whole.
type Row = (u32, [u8; 2], u8, Accepted, Option<(u8, u8)>);

const ROWS: &[Row] = &[
    (3, [7, 8], 0x20, New, None),
    (3, [7, 8], 0x20, Known, None),
    (3, [0, 6], 0x10, New, None),
    (3, [6, 7], 0x10, New, Some((0x10, 0x20))),
    // Another payload isn't taken.
    (3, [0, 8], 0x30, Known, Some((0x10, 0x20))),
    (4, [1, 8], 0x30, New, None),
];

// Begun again, nothing has come.
const ROWS_AGAIN: &[Row] = &[
    (4, [0, 1], 0x40, New, None),
    (4, [1, 8], 0x40, New, Some((0x40, 0x40))),
    (3, [0, 7], 0x50, New, None),
    (3, [7, 8], 0x60, New, Some((0x50, 0x60))),
];

// Whether a sink says of pieces what is wanted.
fn are_taken(taker: &mut Taker<Gf8>, row: &Row) -> Result<bool, Wrong> {
    let &(generation, [from, to], byte, accepted, _) = row;
    for piece in from..to {
        if taker.accept(&packet_of(0, generation, piece, byte))? != accepted {
            return Ok(false);
        }
    }
    Ok(true)
}

// Whether it has the block that is wanted then.
fn has_block(alloc: Global, taker: &Taker<Gf8>, row: &Row) -> Result<bool, Wrong> {
    let &(generation, _, _, _, want) = row;
    match taker.block(alloc, generation)? {
        Some(block) => match want {
            Some((front, back)) => {
                let quarter = (224, front);
                let runs = [quarter, quarter, quarter, quarter, (128, back)];
                Ok(is_of_runs(&block, &runs))
            }
            None => Ok(false),
        },
        None => Ok(want.is_none()),
    }
}

// The first of the rows that isn't as told, where the sink is begun before.
fn first_wrong_row(
    alloc: Global,
    taker: &mut Taker<Gf8>,
    rows: &[Row],
) -> Result<Option<usize>, Wrong> {
    taker.begin(Span::of(3, 2)?);
    for (number, row) in rows.iter().enumerate() {
        if !are_taken(taker, row)? || !has_block(alloc, taker, row)? {
            return Ok(Some(number));
        }
    }
    Ok(None)
}

// The same of all rows.
fn first_wrong_rows(alloc: Global, taker: &mut Taker<Gf8>) -> Result<[Option<usize>; 2], Wrong> {
    let first = first_wrong_row(alloc, taker, ROWS)?;
    let again = first_wrong_row(alloc, taker, ROWS_AGAIN)?;
    Ok([first, again])
}

// The same at the sink of one link.
fn wrong_rows_at<R: Threads + Sync>(
    rt: &R,
    alloc: Global,
    hands: &mut Hands<Gf8>,
) -> Result<[Option<usize>; 2], Wrong> {
    open_file(rt, alloc, ONE_LINK, Span::of(3, 2)?, hands)?;
    match hands.takers.first_mut() {
        Some(taker) => first_wrong_rows(alloc, taker),
        None => Err(Wrong::Call),
    }
}

// The same, where none is open before.
fn wrong_rows<R: Threads + Sync>(rt: &R, alloc: Global) -> Result<[Option<usize>; 2], Wrong> {
    let mut hands = Hands::new(alloc);
    wrong_rows_at(rt, alloc, &mut hands)
}

#[test]
fn a_sink_takes_the_first_payload(rt: HostRuntime) {
    assert_eq!(rt; wrong_rows(&rt, rt.alloc()), Ok([None, None]));
}
