//! Links that fail under a pattern: frames are given on live links alone, and what a dead link would give is left out.
use super::codes::{CUT_SLOW_BUTTERFLY, SIDE_BY_SIDE};
use super::runs::wrong_row;
use super::told::{Runs, Told};
use std::test;
use test_support::files::TWO_WAYS;

// Piece 5 of a block of bytes 0x80, as it comes, twice, and thrice.
const ALL: Runs = &[(128, 0x80)];

const TWICE: Runs = &[(128, 0x1d)];

const THRICE: Runs = &[(128, 0x9d)];

const ROWS: &[Told] = &[
    Told {
        file: SIDE_BY_SIDE,
        pattern: 0,
        live: &[0, 1],
        pieces: &[(0, 5, ALL), (1, 5, ALL)],
        sinks: 1,
    },
    Told {
        file: SIDE_BY_SIDE,
        pattern: 1,
        live: &[1],
        pieces: &[(1, 5, ALL)],
        sinks: 1,
    },
    Told {
        file: SIDE_BY_SIDE,
        pattern: 2,
        live: &[0],
        pieces: &[(0, 5, ALL)],
        sinks: 1,
    },
    // The last link adds once and twice the block, or once alone.
    Told {
        file: TWO_WAYS,
        pattern: 0,
        live: &[0, 1, 2, 3],
        pieces: &[(0, 5, ALL), (1, 5, ALL), (2, 5, ALL), (3, 5, THRICE)],
        sinks: 1,
    },
    Told {
        file: TWO_WAYS,
        pattern: 1,
        live: &[1, 3],
        pieces: &[(1, 5, ALL), (3, 5, ALL)],
        sinks: 1,
    },
    // The link from `c` to `d` does too, or twice alone, and the sinks undo it.
    Told {
        file: CUT_SLOW_BUTTERFLY,
        pattern: 0,
        live: &[0, 1, 2, 3, 4, 5, 6, 7, 8],
        pieces: &[(4, 5, ALL), (5, 5, ALL), (6, 5, THRICE), (7, 5, THRICE)],
        sinks: 2,
    },
    Told {
        file: CUT_SLOW_BUTTERFLY,
        pattern: 1,
        live: &[1, 3, 5, 6, 7, 8],
        pieces: &[(5, 5, ALL), (6, 5, TWICE), (7, 5, TWICE)],
        sinks: 2,
    },
];

#[test]
fn frames_are_given_on_live_links(rt: HostRuntime) {
    let wrong = wrong_row(&rt, rt.alloc(), ROWS, 9, 1, &[0x80; 1024]);
    assert_eq!(rt; wrong, Ok(None));
}
