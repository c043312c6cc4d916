//! Drafts get decoders, or the first demand that doesn't decode is named.
use super::codes::{WIDE_ROWS, changed, is_file_of, is_file_one_of};
use super::drafts::{Begun, CUT, FLY, ONE, draft_file, draft_of_code, is_written};
use code_file::{Draft, write_code};
use code_finish::{FinishRefused, FinishWhy, finish};
use gf_tables::{FieldKind, Gf8, Gf9, Gf16};
use node_program::Code;
use std::alloc::Global;
use std::thread::Threads;
use test_support::codes::{checked_of, code_of, draft_of};
use test_support::files::{
    BUTTERFLY, DOUBLED_ONE_LINK, ONE_LINK, ONE_LINK_TWO, TWO_WAYS, WIDE_ONE_LINK,
};

// What comes of a draft, over its field.
#[tactic(auto, unfolding(gf_tables::specs::Product::product))]
fn finished(alloc: Global, draft: Draft) -> Result<Code, FinishRefused> {
    match draft.field {
        FieldKind::Eight => finish::<Gf8>(alloc, draft),
        FieldKind::Nine => finish::<Gf9>(alloc, draft),
        FieldKind::Sixteen => finish::<Gf16>(alloc, draft),
    }
}

// Whether the draft of a file gets the decoders of a code with this file.
fn becomes(alloc: Global, draft: &[u8], file: &[u8]) -> Option<bool> {
    let code = finished(alloc, draft_of(alloc, draft).ok()?).ok()?;
    Some(is_file_of(alloc, file, &code))
}

// The same of the draft that a code file begins with.
fn begun_becomes(alloc: Global, begun: Begun, file: &[u8]) -> Option<bool> {
    becomes(alloc, &draft_file(alloc, begun)?, file)
}

#[test]
fn one_link_is_finished(rt: HostRuntime) {
    assert_eq!(rt; begun_becomes(rt.alloc(), ONE, ONE_LINK_TWO), Some(true));
}

// A code's file, of either version.
type File = &'static [u8];

// Codes whose sinks decode the first links that do.
const CODES: &[File] = &[
    ONE_LINK,
    DOUBLED_ONE_LINK,
    WIDE_ONE_LINK,
    BUTTERFLY,
    TWO_WAYS,
    WIDE_ROWS,
];

// Whether the decoders of a code are found anew, where it has none.
fn comes_again(alloc: Global, file: &[u8]) -> Option<bool> {
    let draft = draft_of_code(code_of(alloc, file).ok()?);
    Some(is_file_one_of(alloc, file, &finished(alloc, draft).ok()?))
}

// The first row whose code doesn't come again.
fn first_other(alloc: Global) -> Option<usize> {
    for (row, &file) in CODES.iter().enumerate() {
        if comes_again(alloc, file) != Some(true) {
            return Some(row);
        }
    }
    None
}

#[test]
fn decoders_are_found_anew(rt: HostRuntime) {
    assert_eq!(rt; first_other(rt.alloc()), None);
}

// Eight links of two rows, in the field of 256 elements: two into a middle node with the same, one behind it with the sum of both,
// which is zero, one that carries nothing, two with multiples of the first row, one with the sum of both rows, and one with the
// second row. The fifth and the seventh are the first into the sink that give both.
const MANY: File = b"LIFK\x02\x08\x02\
    \x00\x03\x01s\x01a\x01t\
    \x00\x08\
    \x01x\x00\x00\x00\x01\
    \x01y\x00\x00\x00\x01\
    \x01z\x00\x01\x00\x02\
    \x01e\x00\x00\x00\x02\
    \x01k\x00\x00\x00\x02\
    \x01l\x00\x00\x00\x02\
    \x01n\x00\x00\x00\x02\
    \x01o\x00\x00\x00\x02\
    \x00\x00\
    \x00\x01\x00\x02\
    \x00\x00\
    \x00\x01\x00\x00\x01\
    \x00\x01\x00\x00\x01\
    \x00\x02\x00\x00\x01\x00\x01\x01\
    \x00\x00\
    \x00\x01\x00\x00\x02\
    \x00\x01\x00\x00\x03\
    \x00\x02\x00\x00\x01\x00\x01\x01\
    \x00\x01\x00\x01\x01";

// The inverse of 2 in that field, and in the field 9.
const HALF: u8 = 0x8E;

const HALF_IN_NINE: u8 = 0x8D;

// The draft over a field of 256 elements, and whether it gets the decoder of these links with this inverse of 2.
fn takes_those_links(alloc: Global, field: u8, half: u8) -> Option<bool> {
    let draft = changed(alloc, MANY, &[(5, field)]).ok()?;
    let mut code = changed(alloc, &draft, &[(3, b'C')]).ok()?;
    code.extend_from_slice(&[0, 0, 0, 0, 0, 4, 0, 6, half, 0, half, 1])
        .ok()?;
    becomes(alloc, &draft, &code)
}

#[test]
fn links_that_add_nothing_are_left_out(rt: HostRuntime) {
    assert_eq!(rt; takes_those_links(rt.alloc(), 8, HALF), Some(true));
    assert_eq!(rt; takes_those_links(rt.alloc(), 9, HALF_IN_NINE), Some(true));
}

// The butterfly without decoders, whose shared link has one operand.
const ONE_OPERAND: File = b"LIFK\x02\x08\x02\
    \x00\x07\x01s\x02t1\x02t2\x01a\x01b\x01c\x01d\
    \x00\x09\
    \x03s-a\x00\x00\x00\x03\
    \x03s-b\x00\x00\x00\x04\
    \x04a-t1\x00\x03\x00\x01\
    \x04b-t2\x00\x04\x00\x02\
    \x03a-c\x00\x03\x00\x05\
    \x03b-c\x00\x04\x00\x05\
    \x03c-d\x00\x05\x00\x06\
    \x04d-t1\x00\x06\x00\x01\
    \x04d-t2\x00\x06\x00\x02\
    \x00\x00\
    \x00\x02\x00\x01\x00\x02\
    \x00\x00\
    \x00\x01\x00\x00\x01\
    \x00\x01\x00\x01\x01\
    \x00\x01\x00\x00\x01\
    \x00\x01\x00\x01\x01\
    \x00\x01\x00\x00\x01\
    \x00\x01\x00\x01\x01\
    \x00\x01\x00\x04\x01\
    \x00\x01\x00\x06\x01\
    \x00\x01\x00\x06\x01";

// Two links with the first row over the field of 65,536 elements, the second one with a multiple of the first.
const TWO_EQUAL: File = b"LIFK\x02\x10\x02\
    \x00\x02\x01s\x01t\
    \x00\x02\
    \x01k\x00\x00\x00\x01\
    \x01l\x00\x00\x00\x01\
    \x00\x00\
    \x00\x01\x00\x01\
    \x00\x00\
    \x00\x01\x00\x00\x12\x34\
    \x00\x01\x00\x00\xAB\xCD";

// Two sinks with a link each: that of the second one fails under the first listed pattern, and that of the first one under the
// second.
const EACH_FAILS: File = b"LIFK\x02\x08\x01\
    \x00\x03\x01s\x01t\x01u\
    \x00\x02\
    \x01k\x00\x00\x00\x01\
    \x01l\x00\x00\x00\x02\
    \x00\x00\
    \x00\x02\x00\x01\x00\x02\
    \x00\x02\x01p\x00\x01\x00\x01\x01q\x00\x01\x00\x00\
    \x00\x01\x00\x00\x01\
    \x00\x01\x00\x00\x01";

// A draft's file, the number of the first demand that doesn't decode, and at which places its block isn't zero.
type Row = (File, u32, &'static [bool]);

const CONFUSED: &[Row] = &[
    (ONE_OPERAND, 0, &[false, true]),
    (TWO_EQUAL, 0, &[false, true]),
    (EACH_FAILS, 2, &[true]),
];

// Whether elements aren't zero at these places alone.
fn is_nonzero_at(elements: &[u32], places: &[bool]) -> bool {
    if elements.len() != places.len() {
        return false;
    }
    for (place, &is_other) in places.iter().enumerate() {
        if (elements[place] != 0) != is_other {
            return false;
        }
    }
    true
}

// Whether a draft isn't finished for this demand, with such a block.
fn names(why: &FinishWhy, wanted: u32, places: &[bool]) -> bool {
    match why {
        FinishWhy::Confused { demand, block } => {
            *demand == wanted && is_nonzero_at(block.as_slice(), places)
        }
        FinishWhy::OutOfMemory => false,
    }
}

// Whether the draft of a file isn't finished for this demand, and is handed back.
fn is_handed_back(alloc: Global, file: &[u8], demand: u32, places: &[bool]) -> Option<bool> {
    let refused = finished(alloc, draft_of(alloc, file).ok()?).err()?;
    Some(is_written(alloc, file, &refused.draft) && names(&refused.why, demand, places))
}

// The first row of which something else comes.
fn first_unlike(alloc: Global) -> Option<usize> {
    for (row, &(file, demand, places)) in CONFUSED.iter().enumerate() {
        if is_handed_back(alloc, file, demand, places) != Some(true) {
            return Some(row);
        }
    }
    None
}

#[test]
fn the_first_demand_that_does_not_decode_is_named(rt: HostRuntime) {
    assert_eq!(rt; first_unlike(rt.alloc()), None);
}

// Whether a code without its decoders isn't finished for this demand.
fn is_unfinished(alloc: Global, begun: Begun, demand: u32, places: &[bool]) -> Option<bool> {
    is_handed_back(alloc, &draft_file(alloc, begun)?, demand, places)
}

#[test]
fn a_pattern_under_which_no_sink_decodes(rt: HostRuntime) {
    assert_eq!(rt;
        is_unfinished(rt.alloc(), CUT, 1, &[true, false]),
        Some(true)
    );
}

// Whether the check accepts the code of a draft's file.
fn is_accepted<R: Threads + Sync>(rt: &R, alloc: Global, file: &[u8]) -> Option<bool> {
    let code = finished(alloc, draft_of(alloc, file).ok()?).ok()?;
    let written = write_code(alloc, &code).ok()?;
    Some(checked_of(rt, alloc, &written).is_ok())
}

// The same of the draft that a code file begins with.
fn is_accepted_begun<R: Threads + Sync>(rt: &R, alloc: Global, begun: Begun) -> Option<bool> {
    is_accepted(rt, alloc, &draft_file(alloc, begun)?)
}

#[test]
fn what_is_finished_is_accepted(rt: HostRuntime) {
    let alloc = rt.alloc();
    assert_eq!(rt; is_accepted(&rt, alloc, MANY), Some(true));
    assert_eq!(rt; is_accepted_begun(&rt, alloc, FLY), Some(true));
}
