//! Which links of a code are live, by the table of all and each alone.
use node_program::{Code, live, live_links};
use std::alloc::Global;
use test_support::codes::code_of;
use test_support::files::{CUT_BUTTERFLY, TWO_WAYS};

// Whether there are such a pattern and such a link, and the link is live or not, as is wanted.
fn is_live(code: &Code, pattern: u32, link: usize, want: bool) -> bool {
    (pattern as usize) < code.net.patterns.len()
        && link < code.net.links.len()
        && live(code, pattern, link as u32) == want
}

// Whether each link, asked for alone, is live or not, as is wanted.
fn each_is_live(code: &Code, pattern: u32, want: &[bool]) -> bool {
    for (link, &is) in want.iter().enumerate() {
        if !is_live(code, pattern, link, is) {
            return false;
        }
    }
    true
}

// Whether there is such a pattern, and the table of the live links is the one that is wanted.
fn is_table(alloc: Global, code: &Code, pattern: u32, want: &[bool]) -> bool {
    if pattern as usize >= code.net.patterns.len() {
        return false;
    }
    match live_links(alloc, code, pattern) {
        Ok(table) => table.as_slice() == want,
        Err(_) => false,
    }
}

// Whether just these links of the code of a file are live under a pattern.
fn are_live(alloc: Global, file: &[u8], pattern: u32, want: &[bool]) -> bool {
    match code_of(alloc, file) {
        Ok(code) => each_is_live(&code, pattern, want) && is_table(alloc, &code, pattern, want),
        Err(_) => false,
    }
}

// A code's file, a pattern, and for each link whether it is live.
type Row = (&'static [u8], u32, &'static [bool]);

const ROWS: &[Row] = &[
    (CUT_BUTTERFLY, 0, &[true; 9]),
    // A link with one dead operand is live.
    (
        CUT_BUTTERFLY,
        1,
        &[false, true, false, true, false, true, true, true, true],
    ),
    (TWO_WAYS, 0, &[true; 4]),
    // A failed link leaves those behind it dead.
    (TWO_WAYS, 1, &[false, true, false, true]),
];

// The first row of which other links are live.
fn wrong_row(alloc: Global) -> Option<usize> {
    for (row, &(file, pattern, want)) in ROWS.iter().enumerate() {
        if !are_live(alloc, file, pattern, want) {
            return Some(row);
        }
    }
    None
}

#[test]
fn a_link_is_live_where_one_of_its_operands_is(rt: HostRuntime) {
    assert_eq!(rt; wrong_row(rt.alloc()), None);
}
