//! Code files that only the tests read, and the files of codes.
use code_file::{write_code, write_code_one};
use gf_tables::FieldKind;
use node_program::Code;
use std::alloc::{AllocError, Global};

/// Two rows over the field of 65,536 elements, with coefficients above 255.
pub(crate) const WIDE_ROWS: &[u8] = b"LIFC\x01\x10\x02\
    \x00\x03\x01s\x01a\x01t\
    \x00\x04\
    \x01u\x00\x00\x00\x01\
    \x01w\x00\x00\x00\x01\
    \x01v\x00\x01\x00\x02\
    \x01z\x00\x01\x00\x02\
    \x00\x00\
    \x00\x01\x00\x02\
    \x00\x00\
    \x00\x02\x00\x00\x12\x34\x00\x01\x00\x01\
    \x00\x01\x00\x01\xab\xcd\
    \x00\x02\x00\x00\xab\xcd\x00\x01\x01\x02\
    \x00\x01\x00\x01\x56\x78\
    \x00\x02\x00\x03\xf0\xaa\x11\xcc\x00\x00\xfe\x44";

/// The file of a code in version 1, or none where it has none or there was no memory.
pub(crate) fn file_one_of(alloc: Global, code: &Code) -> Option<Vec<u8>> {
    match code.field {
        FieldKind::Eight | FieldKind::Sixteen => write_code_one(alloc, code).ok(),
        FieldKind::Nine => None,
    }
}

/// Whether a file is that of a code in version 1.
pub(crate) fn is_file_one_of(alloc: Global, file: &[u8], code: &Code) -> bool {
    match file_one_of(alloc, code) {
        Some(written) => written.as_slice() == file,
        None => false,
    }
}

/// Whether a file is that of a code in version 2.
pub(crate) fn is_file_of(alloc: Global, file: &[u8], code: &Code) -> bool {
    match write_code(alloc, code) {
        Ok(written) => written.as_slice() == file,
        Err(_) => false,
    }
}

/// The bytes with others at some places. A byte for the place behind the last is added.
pub(crate) fn changed(
    alloc: Global,
    bytes: &[u8],
    others: &[(usize, u8)],
) -> Result<Vec<u8>, AllocError> {
    let mut changed = Vec::from_slice(alloc, bytes)?;
    for &(place, byte) in others {
        if place < changed.len() {
            changed[place] = byte;
        } else {
            changed.push(byte)?;
        }
    }
    Ok(changed)
}
