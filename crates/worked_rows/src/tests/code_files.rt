//! Code files are read and written back, or refused for their first fault.
use super::codes::{WIDE_ROWS, changed, file_one_of, is_file_of, is_file_one_of};
use code_file::CodeRefusal::{
    BadField, BadIndex, BadOperand, BadRate, BadVersion, NotFirst, NotRising, OutOfOrder,
    TrailingBytes, Truncated, Written, ZeroCoefficient,
};
use code_file::{CodeRefusal, write_code};
use std::alloc::Global;
use test_support::codes::code_of;
use test_support::files::{
    BUTTERFLY, CUT_BUTTERFLY, CUT_BUTTERFLY_TWO, DOUBLED_ONE_LINK, ONE_LINK, ONE_LINK_TWO, SHARED,
    SHARED_TWO, TWO_WAYS, WIDE_ONE_LINK, WIDE_SHARED, WIDE_SHARED_TWO,
};

const FILES: &[&[u8]] = &[
    ONE_LINK,
    DOUBLED_ONE_LINK,
    WIDE_ONE_LINK,
    BUTTERFLY,
    CUT_BUTTERFLY,
    TWO_WAYS,
    WIDE_ROWS,
    SHARED,
    WIDE_SHARED,
];

// Whether the file of a code in version 2 is read, and written back in both versions.
fn is_kept_anew(alloc: Global, file: &[u8], anew: &[u8]) -> bool {
    match code_of(alloc, anew) {
        Ok(code) => is_file_of(alloc, anew, &code) && is_file_one_of(alloc, file, &code),
        Err(_) => false,
    }
}

// Whether a file of version 1 is read and written back, in both versions.
fn is_kept(alloc: Global, file: &[u8]) -> bool {
    let Ok(code) = code_of(alloc, file) else {
        return false;
    };
    match write_code(alloc, &code) {
        Ok(anew) => is_file_one_of(alloc, file, &code) && is_kept_anew(alloc, file, &anew),
        Err(_) => false,
    }
}

// The first row whose file isn't.
fn first_not_kept(alloc: Global) -> Option<usize> {
    for (row, &file) in FILES.iter().enumerate() {
        if !is_kept(alloc, file) {
            return Some(row);
        }
    }
    None
}

#[test]
fn files_are_read_and_written_back(rt: HostRuntime) {
    assert_eq!(rt; first_not_kept(rt.alloc()), None);
}

// Files of version 1, and of version 2.
const BOTH: &[(&[u8], &[u8])] = &[
    (ONE_LINK, ONE_LINK_TWO),
    (CUT_BUTTERFLY, CUT_BUTTERFLY_TWO),
    (SHARED, SHARED_TWO),
    (WIDE_SHARED, WIDE_SHARED_TWO),
];

// Whether two files are those of one code.
fn are_of_one(alloc: Global, one: &[u8], two: &[u8]) -> bool {
    match code_of(alloc, one) {
        Ok(code) => is_file_of(alloc, two, &code) && is_kept_anew(alloc, one, two),
        Err(_) => false,
    }
}

// The first row whose files aren't.
fn first_apart(alloc: Global) -> Option<usize> {
    for (row, &(one, two)) in BOTH.iter().enumerate() {
        if !are_of_one(alloc, one, two) {
            return Some(row);
        }
    }
    None
}

#[test]
fn demands_share_decoders_in_version_two(rt: HostRuntime) {
    assert_eq!(rt; first_apart(rt.alloc()), None);
}

// Whether a code over the field 9 is read, and written in version 2 alone.
fn is_of_field_nine(alloc: Global) -> Option<bool> {
    let file = changed(alloc, ONE_LINK_TWO, &[(5, 9)]).ok()?;
    let code = code_of(alloc, &file).ok()?;
    Some(is_file_of(alloc, &file, &code) && file_one_of(alloc, &code).is_none())
}

#[test]
fn the_field_nine_has_files_of_version_two(rt: HostRuntime) {
    assert_eq!(rt; is_of_field_nine(rt.alloc()), Some(true));
}

// What bytes are refused for.
fn refusal(alloc: Global, bytes: &[u8]) -> Option<CodeRefusal> {
    code_of(alloc, bytes).err()
}

// Whether bytes end within an item, which begins at a place that there is.
fn are_truncated(alloc: Global, bytes: &[u8]) -> bool {
    match refusal(alloc, bytes) {
        Some(Truncated { at }) => at <= bytes.len() as u64,
        _ => false,
    }
}

// The first length of a beginning that isn't truncated.
fn first_not_truncated(alloc: Global, file: &[u8]) -> Option<usize> {
    for len in 0..file.len() {
        if !are_truncated(alloc, &file[..len]) {
            return Some(len);
        }
    }
    None
}

#[test]
fn every_beginning_is_truncated(rt: HostRuntime) {
    let first = first_not_truncated(rt.alloc(), BUTTERFLY);
    assert!(rt; first.is_none() && first_not_truncated(rt.alloc(), WIDE_SHARED_TWO).is_none());
}

// A file, and the place of its item within which so many first bytes end.
type Cut = (&'static [u8], usize, u64);

const CUTS: &[Cut] = &[
    (ONE_LINK, 0, 0),
    (ONE_LINK, 3, 0),
    (ONE_LINK, 35, 34),
    (ONE_LINK, 36, 36),
    (ONE_LINK_TWO, 33, 33),
    (ONE_LINK_TWO, 34, 34),
    (ONE_LINK_TWO, 35, 34),
    (ONE_LINK_TWO, 36, 34),
    (ONE_LINK_TWO, 37, 34),
    (ONE_LINK_TWO, 38, 38),
    (ONE_LINK_TWO, 39, 38),
    (ONE_LINK_TWO, 40, 40),
];

// Whether the first bytes of a file, so many, end within the item at a place.
fn ends_within(alloc: Global, file: &[u8], len: usize, at: u64) -> bool {
    len <= file.len() && refusal(alloc, &file[..len]) == Some(Truncated { at })
}

// The first row in which another item is truncated.
fn wrong_cut(alloc: Global) -> Option<usize> {
    for (row, &(file, len, at)) in CUTS.iter().enumerate() {
        if !ends_within(alloc, file, len, at) {
            return Some(row);
        }
    }
    None
}

#[test]
fn the_item_that_is_truncated_is_named(rt: HostRuntime) {
    assert_eq!(rt; wrong_cut(rt.alloc()), None);
}

// A file, bytes of it that are others, and the refusal.
type Faulty = (&'static [u8], &'static [(usize, u8)], CodeRefusal);

const FAULTY: &[Faulty] = &[
    (ONE_LINK, &[(33, 0)], ZeroCoefficient { at: 33 }),
    (ONE_LINK, &[(32, 1)], BadOperand { at: 31 }),
    (ONE_LINK, &[(20, 0)], OutOfOrder { link: 0 }),
    (ONE_LINK, &[(6, 0x33)], BadRate),
    (ONE_LINK, &[(37, 0)], TrailingBytes { at: 37 }),
    (BUTTERFLY, &[(146, 5), (149, 4)], NotRising { at: 148 }),
    (ONE_LINK, &[(4, 3)], BadVersion),
    (ONE_LINK, &[(5, 9)], BadField),
    (ONE_LINK_TWO, &[(37, 1)], BadIndex { at: 34 }),
    (ONE_LINK_TWO, &[(41, 0)], TrailingBytes { at: 41 }),
];

// The same of a file in which demands share decoders: the number that names a demand is above the own one, is far above it, names
// a demand of another sink, names one that shares the decoder of an earlier one; a decoder is that of an earlier demand, also
// where the last one is written once more.
const FAULTY_SHARED: &[Faulty] = &[
    (SHARED_TWO, &[(75, 1)], BadIndex { at: 72 }),
    (SHARED_TWO, &[(82, 2)], BadIndex { at: 79 }),
    (
        SHARED_TWO,
        &[(79, 0xFF), (80, 0xFF), (81, 0xFF), (82, 0xFF)],
        BadIndex { at: 79 },
    ),
    (SHARED_TWO, &[(86, 3)], BadIndex { at: 83 }),
    (SHARED_TWO, &[(86, 2)], NotFirst { at: 83 }),
    (SHARED_TWO, &[(88, 0)], Written { at: 89 }),
    (SHARED_TWO, &[(100, 3)], BadOperand { at: 97 }),
    (SHARED_TWO, &[(100, 2)], BadOperand { at: 97 }),
    (SHARED_TWO, &[(104, 5)], NotFirst { at: 101 }),
    (
        SHARED_TWO,
        &[(104, 0), (105, 0), (106, 2), (107, 1)],
        Written { at: 107 },
    ),
    (WIDE_SHARED_TWO, &[(92, 0)], Written { at: 93 }),
    (
        WIDE_SHARED_TWO,
        &[(110, 0), (111, 0), (112, 2), (113, 0), (114, 1)],
        Written { at: 113 },
    ),
];

// What a file with other bytes is refused for.
fn changed_refusal(alloc: Global, file: &[u8], others: &[(usize, u8)]) -> Option<CodeRefusal> {
    match changed(alloc, file, others) {
        Ok(file) => refusal(alloc, &file),
        Err(_) => None,
    }
}

// The first row whose file is refused for something else.
fn wrong_refusal(alloc: Global, faulty: &[Faulty]) -> Option<usize> {
    for (row, &(file, others, why)) in faulty.iter().enumerate() {
        if changed_refusal(alloc, file, others) != Some(why) {
            return Some(row);
        }
    }
    None
}

#[test]
fn the_first_fault_is_named(rt: HostRuntime) {
    assert_eq!(rt; wrong_refusal(rt.alloc(), FAULTY), None);
}

#[test]
fn the_first_fault_of_shared_decoders_is_named(rt: HostRuntime) {
    assert_eq!(rt; wrong_refusal(rt.alloc(), FAULTY_SHARED), None);
}
