//! Why bytes weren't opened as a code.
ghost use Rattle.std.specs.Prelude.{◌≡◌};
ghost use Rattle.lif_c.specs.Refusals.{item_of, open_status, refusal_of};

use crate::status::{BAD_CODE, NO_MEMORY, NOT_DECODING, TOO_LONG};
use code_file::CodeRefusal;
use open_nodes::OpenRefusal;

/// Why a code wasn't opened.
#[repr(C)]
#[derive(Clone, Copy)]
pub struct Refusal {
    /// The number of the word for an item that isn't good, from 1 on; 0 where there is none.
    pub item: u32,
    /// The demand that doesn't decode.
    pub demand: u32,
    /// The row of the entry that isn't the identity's.
    pub row: u32,
    /// Its column.
    pub column: u32,
    /// The element that stands there.
    pub found: u32,
    /// The byte at which the item stands, or the link.
    pub at: u64,
}

/// What is told of a refusal.
pub(crate) fn refusal_of(why: OpenRefusal) -> Refusal
    ensures { result ≡ refusal_of why }
{
    match why {
        OpenRefusal::BadCode(item) => Refusal {
            item: item_of(item),
            demand: 0,
            row: 0,
            column: 0,
            found: 0,
            at: item.number().unwrap_or(0),
        },
        OpenRefusal::NotDecoding {
            demand,
            row,
            column,
            found,
        } => Refusal {
            item: 0,
            demand,
            row,
            column,
            found,
            at: 0,
        },
        OpenRefusal::TooLong | OpenRefusal::OutOfMemory => Refusal {
            item: 0,
            demand: 0,
            row: 0,
            column: 0,
            found: 0,
            at: 0,
        },
    }
}

/// The status of a refusal.
pub(crate) fn open_status(why: OpenRefusal) -> u32
    ensures { result ≡ open_status why }
{
    match why {
        OpenRefusal::TooLong => TOO_LONG,
        OpenRefusal::BadCode(_) => BAD_CODE,
        OpenRefusal::NotDecoding { .. } => NOT_DECODING,
        OpenRefusal::OutOfMemory => NO_MEMORY,
    }
}

// The number of the word for an item.
fn item_of(item: CodeRefusal) -> u32
    ensures { result ≡ item_of item }
{
    match item {
        CodeRefusal::OutOfMemory => 0,
        CodeRefusal::BadMagic => 1,
        CodeRefusal::BadVersion => 2,
        CodeRefusal::Truncated { .. } => 3,
        CodeRefusal::BadField => 4,
        CodeRefusal::BadRate => 5,
        CodeRefusal::BadName { .. } => 6,
        CodeRefusal::BadIndex { .. } => 7,
        CodeRefusal::OutOfOrder { .. } => 8,
        CodeRefusal::NotRising { .. } => 9,
        CodeRefusal::ZeroCoefficient { .. } => 10,
        CodeRefusal::BadOperand { .. } => 11,
        CodeRefusal::TooMany { .. } => 12,
        CodeRefusal::TrailingBytes { .. } => 13,
        CodeRefusal::NotFirst { .. } => 14,
        CodeRefusal::Written { .. } => 15,
    }
}
