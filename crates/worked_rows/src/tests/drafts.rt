//! Drafts are read and written back, or refused for their first fault.
use super::codes::changed;
use code_file::CodeRefusal::{
    BadField, BadIndex, BadMagic, BadName, BadOperand, BadRate, BadVersion, NotRising, OutOfOrder,
    TooMany, TrailingBytes, Truncated, ZeroCoefficient,
};
use code_file::{CodeRefusal, Draft, write_draft};
use node_program::Code;
use std::alloc::Global;
use test_support::codes::{code_of, draft_of};
use test_support::files::{
    BUTTERFLY, CUT_BUTTERFLY, CUT_BUTTERFLY_TWO, ONE_LINK, ONE_LINK_TWO, WIDE_ONE_LINK,
};

/// A code file of version 1, and how many bytes stand before its decoders.
pub(crate) type Begun = (&'static [u8], usize);

pub(crate) const ONE: Begun = (ONE_LINK, 34);

const WIDE: Begun = (WIDE_ONE_LINK, 35);

pub(crate) const FLY: Begun = (BUTTERFLY, 161);

pub(crate) const CUT: Begun = (CUT_BUTTERFLY, 169);

// The mark and the version of a draft.
const DRAFT: &[(usize, u8)] = &[(3, b'K'), (4, 2)];

/// The file of the draft that a code file begins with.
pub(crate) fn draft_file(alloc: Global, begun: Begun) -> Option<Vec<u8>> {
    let (file, len) = begun;
    if len > file.len() {
        return None;
    }
    changed(alloc, &file[..len], DRAFT).ok()
}

// The same with other bytes.
fn changed_draft(alloc: Global, begun: Begun, others: &[(usize, u8)]) -> Option<Vec<u8>> {
    let file = draft_file(alloc, begun)?;
    changed(alloc, &file, others).ok()
}

/// Whether a file is that of a draft.
pub(crate) fn is_written(alloc: Global, file: &[u8], draft: &Draft) -> bool {
    match write_draft(alloc, draft) {
        Ok(written) => written.as_slice() == file,
        Err(_) => false,
    }
}

// Whether the file of a draft is read and written back.
fn is_kept(alloc: Global, begun: Begun) -> bool {
    let Some(file) = draft_file(alloc, begun) else {
        return false;
    };
    match draft_of(alloc, &file) {
        Ok(draft) => is_written(alloc, &file, &draft),
        Err(_) => false,
    }
}

// The first row whose file isn't.
fn first_not_kept(alloc: Global) -> Option<usize> {
    for (row, &begun) in [ONE, WIDE, FLY, CUT].iter().enumerate() {
        if !is_kept(alloc, begun) {
            return Some(row);
        }
    }
    None
}

#[test]
fn drafts_are_read_and_written_back(rt: HostRuntime) {
    assert_eq!(rt; first_not_kept(rt.alloc()), None);
}

/// The draft of a code.
pub(crate) fn draft_of_code(code: Code) -> Draft {
    let Code {
        net,
        rate,
        field,
        operands,
        decoders: _,
    } = code;
    Draft::of(net, rate, field, operands)
}

// Whether the draft of a code has the file that the code's begins with, and lends what the code has.
fn is_draft_of_code(alloc: Global, begun: Begun) -> Option<bool> {
    let file = draft_file(alloc, begun)?;
    let draft = draft_of_code(code_of(alloc, begun.0).ok()?);
    let coding = draft.coding();
    let lends = coding.rate == draft.rate && coding.operands.len() == coding.net.links.len();
    Some(lends && is_written(alloc, &file, &draft))
}

#[test]
fn a_code_without_decoders_is_a_draft(rt: HostRuntime) {
    assert_eq!(rt; is_draft_of_code(rt.alloc(), FLY), Some(true));
    assert_eq!(rt; is_draft_of_code(rt.alloc(), WIDE), Some(true));
}

// Whether a draft over the field 9 is read and written back.
fn is_of_field_nine(alloc: Global) -> Option<bool> {
    let file = changed_draft(alloc, ONE, &[(5, 9)])?;
    let draft = draft_of(alloc, &file).ok()?;
    Some(is_written(alloc, &file, &draft))
}

#[test]
fn drafts_are_over_the_field_nine_too(rt: HostRuntime) {
    assert_eq!(rt; is_of_field_nine(rt.alloc()), Some(true));
}

// How many bytes the items of the butterfly's draft have, in order: up to the number of nodes; the nodes; the links behind their
// number; the source, the sinks, and that no pattern is listed; and the operands of each link.
const SIZES: &[&[usize]] = &[
    &[4, 1, 1, 1, 2],
    &[2, 3, 3, 2, 2, 2, 2],
    &[2],
    &[
        4, 2, 2, 4, 2, 2, 5, 2, 2, 5, 2, 2, 4, 2, 2, 4, 2, 2, 4, 2, 2, 5, 2, 2, 5, 2, 2,
    ],
    &[2, 2, 2, 2, 2],
    &[2, 2, 1, 2, 2, 1, 2, 2, 1, 2, 2, 1, 2, 2, 1, 2, 2, 1],
    &[2, 2, 1, 2, 1],
    &[2, 2, 1, 2, 2, 1],
];

// What bytes are refused for.
fn refusal(alloc: Global, bytes: &[u8]) -> Option<CodeRefusal> {
    draft_of(alloc, bytes).err()
}

// Whether each beginning of a file that ends within an item, which begins at a place, is refused for that item.
fn are_cut_at(alloc: Global, file: &[u8], at: usize, size: usize) -> bool {
    for more in 0..size {
        let len = at.saturating_add(more);
        let why = Some(Truncated { at: at as u64 });
        if len >= file.len() || refusal(alloc, &file[..len]) != why {
            return false;
        }
    }
    true
}

// The place behind the items of such sizes, which begin at a place; none where a beginning that ends within one isn't refused
// for it.
fn place_behind(alloc: Global, file: &[u8], sizes: &[usize], start: usize) -> Option<usize> {
    let mut at = start;
    for &size in sizes {
        if !are_cut_at(alloc, file, at, size) {
            return None;
        }
        at = at.saturating_add(size);
    }
    Some(at)
}

// The place behind all items of the butterfly's draft.
fn end_of_items(alloc: Global) -> Option<usize> {
    let file = draft_file(alloc, FLY)?;
    let mut at = 0;
    for sizes in SIZES {
        at = place_behind(alloc, &file, sizes, at)?;
    }
    Some(at)
}

#[test]
fn every_beginning_is_truncated_at_its_item(rt: HostRuntime) {
    assert_eq!(rt; end_of_items(rt.alloc()), Some(161));
}

// The draft that a code file begins with, bytes of it that are others, and the refusal.
type Faulty = (Begun, &'static [(usize, u8)], CodeRefusal);

// Each of these but the versions and the bytes at the end is what the code file is refused for too.
const FAULTY: &[Faulty] = &[
    (ONE, &[(33, 0)], ZeroCoefficient { at: 33 }),
    (ONE, &[(32, 1)], BadOperand { at: 31 }),
    (ONE, &[(20, 0)], OutOfOrder { link: 0 }),
    (ONE, &[(6, 0x33)], BadRate),
    (FLY, &[(146, 5), (149, 4)], NotRising { at: 148 }),
    (ONE, &[(5, 7)], BadField),
    (ONE, &[(7, 0x11)], TooMany { at: 7 }),
    (ONE, &[(12, b's')], BadName { at: 11 }),
    (ONE, &[(18, 2)], BadIndex { at: 17 }),
    (ONE, &[(24, 0)], BadIndex { at: 23 }),
    (ONE, &[(3, b'C')], BadMagic),
    (ONE, &[(4, 0)], BadVersion),
    (FLY, &[(4, 1)], BadVersion),
    (FLY, &[(4, 3)], BadVersion),
    (ONE, &[(34, 0)], TrailingBytes { at: 34 }),
    (FLY, &[(161, 0)], TrailingBytes { at: 161 }),
    (WIDE, &[(35, 0xFF)], TrailingBytes { at: 35 }),
];

// Whether bytes with others are refused for this.
fn is_refused(alloc: Global, faulty: Faulty) -> bool {
    let (begun, others, why) = faulty;
    match changed_draft(alloc, begun, others) {
        Some(bytes) => refusal(alloc, &bytes) == Some(why),
        None => false,
    }
}

// The first row that is refused otherwise.
fn wrong_refusal(alloc: Global) -> Option<usize> {
    for (row, &faulty) in FAULTY.iter().enumerate() {
        if !is_refused(alloc, faulty) {
            return Some(row);
        }
    }
    None
}

#[test]
fn the_first_fault_is_named(rt: HostRuntime) {
    assert_eq!(rt; wrong_refusal(rt.alloc()), None);
}

// The first code file, of either version, that isn't refused as a draft for its mark.
fn code_read_as_draft(alloc: Global) -> Option<usize> {
    for (row, &file) in [ONE_LINK, ONE_LINK_TWO, BUTTERFLY, CUT_BUTTERFLY_TWO]
        .iter()
        .enumerate()
    {
        if refusal(alloc, file) != Some(BadMagic) {
            return Some(row);
        }
    }
    None
}

// What the file of a draft is refused for as a code file.
fn refusal_as_code(alloc: Global, begun: Begun) -> Option<CodeRefusal> {
    let file = draft_file(alloc, begun)?;
    code_of(alloc, &file).err()
}

#[test]
fn a_code_is_no_draft_and_a_draft_no_code(rt: HostRuntime) {
    assert_eq!(rt; code_read_as_draft(rt.alloc()), None);
    assert_eq!(rt; refusal_as_code(rt.alloc(), FLY), Some(BadMagic));
}
