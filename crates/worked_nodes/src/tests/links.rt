//! Blocks that are sent over one link and over the butterfly, and what the frames carry then, byte by byte.
use super::codes::WIDE_LINK;
use super::runs::wrong_row;
use super::told::Told;
use generation_frame::cut;
use std::test;
use test_support::files::{BUTTERFLY, DOUBLED_ONE_LINK, ONE_LINK};

// Codes of one link, and what it carries of the block of a file that is the byte 0x41.
const ONE_BYTE: &[Told] = &[
    Told {
        file: ONE_LINK,
        pattern: 0,
        live: &[0],
        pieces: &[
            (0, 0, &[(3, 0), (1, 1), (1, 0x41), (123, 0)]),
            (0, 7, &[(128, 0)]),
        ],
        sinks: 1,
    },
    // With the coefficient 2 each byte is doubled.
    Told {
        file: DOUBLED_ONE_LINK,
        pattern: 0,
        live: &[0],
        pieces: &[
            (0, 0, &[(3, 0), (1, 2), (1, 0x82), (123, 0)]),
            (0, 7, &[(128, 0)]),
        ],
        sinks: 1,
    },
    // Over the field of 65,536 elements two bytes are one: 1 and 0x4100, each times y, are y and 0x41 y y. Since y y is
    // y and 0x20, that is 0x41 y and 0x20 times 0x41, which is 0xc8.
    Told {
        file: WIDE_LINK,
        pattern: 0,
        live: &[0],
        pieces: &[
            (
                0,
                0,
                &[(2, 0), (1, 1), (1, 0), (1, 0x41), (1, 0xc8), (122, 0)],
            ),
            (0, 7, &[(128, 0)]),
        ],
        sinks: 1,
    },
];

#[test]
fn one_link_carries_a_byte(rt: HostRuntime) {
    let mut block = [0; 1024];
    cut(b"A", &mut block);
    let wrong = wrong_row(&rt, rt.alloc(), ONE_BYTE, 0, 1, &block);
    assert_eq!(rt; wrong, Ok(None));
}

// The code of the butterfly, and what its links carry of the block of a file of 2000 bytes 7: its first row has the count
// in front, and its second ends with 44 zeros.
const SEVENS: &[Told] = &[Told {
    file: BUTTERFLY,
    pattern: 0,
    live: &[0, 1, 2, 3, 4, 5, 6, 7, 8],
    pieces: &[
        (0, 0, &[(2, 0), (1, 7), (1, 0xd0), (124, 7)]),
        (1, 0, &[(128, 7)]),
        (1, 7, &[(84, 7), (44, 0)]),
        // The link from `c` to `d` adds both rows.
        (6, 0, &[(2, 7), (1, 0), (1, 0xd7), (124, 0)]),
        (6, 3, &[(128, 0)]),
        (6, 7, &[(84, 0), (44, 7)]),
        // What it carries goes on to both sinks.
        (7, 0, &[(2, 7), (1, 0), (1, 0xd7), (124, 0)]),
        (8, 7, &[(84, 0), (44, 7)]),
    ],
    sinks: 2,
}];

#[test]
fn the_butterfly_carries_2000_bytes(rt: HostRuntime) {
    let mut block = [0; 2048];
    cut(&[7; 2000], &mut block);
    let wrong = wrong_row(&rt, rt.alloc(), SEVENS, 0, 1, &block);
    assert_eq!(rt; wrong, Ok(None));
}
