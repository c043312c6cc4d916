//! Why bytes aren't a code file, or that of a draft.
use std::alloc::{AllocError, AllocFailed};
use thiserror::Error;

/// Why bytes aren't read as a code, or as a draft. The refusal is that of the first item that isn't good, and of
/// its refusals the first in the order below. A place is counted from 0; it is that of the item's
/// first byte, of a name that of the byte of its length.
#[derive(Clone, Copy, Debug, PartialEq, Eq, Error)]
pub enum CodeRefusal {
    /// The mark isn't that of the file: `LIFC` of a code, `LIFK` of a draft.
    #[error("the mark isn't that of such a file")]
    BadMagic,
    /// The version isn't one that the mark allows.
    #[error("the version isn't known")]
    BadVersion,
    /// The bytes of an item aren't all there.
    #[error("the file ends within the item at byte {at}")]
    Truncated { at: u64 },
    /// The field is none that a file of the version can have.
    #[error("the field isn't known")]
    BadField,
    /// The rate isn't 1 to 32.
    #[error("the rate isn't 1 to 32")]
    BadRate,
    /// A name isn't one, or stands twice in its kind.
    #[error("the name at byte {at} isn't one, or stands twice")]
    BadName { at: u64 },
    /// A number names nothing that it may name, or none is there where one must be.
    #[error("the number at byte {at} names nothing")]
    BadIndex { at: u64 },
    /// The head of a link is the tail of that link or of an earlier one.
    #[error("link {link} leads back")]
    OutOfOrder { link: u32 },
    /// A number isn't above the one before.
    #[error("the number at byte {at} isn't above the one before")]
    NotRising { at: u64 },
    /// A coefficient is zero.
    #[error("the coefficient at byte {at} is zero")]
    ZeroCoefficient { at: u64 },
    /// A number names neither a source row nor a link that may be read there.
    #[error("the number at byte {at} names nothing that may be read there")]
    BadOperand { at: u64 },
    /// A count is above its limit.
    #[error("the count at byte {at} is above its limit")]
    TooMany { at: u64 },
    /// Bytes remain after the last item.
    #[error("bytes remain from byte {at} on")]
    TrailingBytes { at: u64 },
    /// There was no memory.
    #[error("there is no memory")]
    OutOfMemory,
    /// A demand is said to have the decoder of one that has itself that of an earlier one.
    #[error("the number at byte {at} doesn't name the first demand with its decoder")]
    NotFirst { at: u64 },
    /// A decoder is written that an earlier demand has.
    #[error("the decoder that ends with the entry at byte {at} is that of an earlier demand")]
    Written { at: u64 },
}

impl CodeRefusal {
    ghost use Rattle.std.specs.Prelude.{◌≡◌, ◌≤◌, length};
    ghost use Rattle.code_items.specs.RefusalNames.{refusal_name, refusal_number};

    /// Its name.
    pub fn name(self) -> &'static str
        ensures name { result.now ≡ refusal_name self }
        ensures short { length result.now ≤ 16 }
    {
        match self {
            CodeRefusal::BadMagic => "BadMagic",
            CodeRefusal::BadVersion => "BadVersion",
            CodeRefusal::Truncated { .. } => "Truncated",
            CodeRefusal::BadField => "BadField",
            CodeRefusal::BadRate => "BadRate",
            CodeRefusal::BadName { .. } => "BadName",
            CodeRefusal::BadIndex { .. } => "BadIndex",
            CodeRefusal::OutOfOrder { .. } => "OutOfOrder",
            CodeRefusal::NotRising { .. } => "NotRising",
            CodeRefusal::ZeroCoefficient { .. } => "ZeroCoefficient",
            CodeRefusal::BadOperand { .. } => "BadOperand",
            CodeRefusal::TooMany { .. } => "TooMany",
            CodeRefusal::TrailingBytes { .. } => "TrailingBytes",
            CodeRefusal::OutOfMemory => "OutOfMemory",
            CodeRefusal::NotFirst { .. } => "NotFirst",
            CodeRefusal::Written { .. } => "Written",
        }
    }

    /// The place that it names, or the number of the link, if it has one.
    pub fn number(self) -> Option<u64>
        ensures { result ≡ refusal_number self }
    {
        match self {
            CodeRefusal::BadMagic => None,
            CodeRefusal::BadVersion => None,
            CodeRefusal::Truncated { at } => Some(at),
            CodeRefusal::BadField => None,
            CodeRefusal::BadRate => None,
            CodeRefusal::BadName { at } => Some(at),
            CodeRefusal::BadIndex { at } => Some(at),
            CodeRefusal::OutOfOrder { link } => Some(u64::from(link)),
            CodeRefusal::NotRising { at } => Some(at),
            CodeRefusal::ZeroCoefficient { at } => Some(at),
            CodeRefusal::BadOperand { at } => Some(at),
            CodeRefusal::TooMany { at } => Some(at),
            CodeRefusal::TrailingBytes { at } => Some(at),
            CodeRefusal::OutOfMemory => None,
            CodeRefusal::NotFirst { at } => Some(at),
            CodeRefusal::Written { at } => Some(at),
        }
    }
}

impl From<AllocError> for CodeRefusal {
    ghost use Rattle.std.specs.Prelude.{◌≡◌};
    ghost use Rattle.code_items.specs.declared.refusal.CodeRefusal.TheVariants.{OutOfMemory};

    ghost from_gives = { λ _ refusal. refusal ≡ OutOfMemory };

    fn from(_: AllocError) -> CodeRefusal {
        CodeRefusal::OutOfMemory
    }
}

impl<T: Drop> From<AllocFailed<T>> for CodeRefusal {
    ghost use Rattle.std.specs.Prelude.{◌≡◌};
    ghost use Rattle.code_items.specs.declared.refusal.CodeRefusal.TheVariants.{OutOfMemory};

    ghost from_gives = { λ _ refusal. refusal ≡ OutOfMemory };

    fn from(_: AllocFailed<T>) -> CodeRefusal {
        CodeRefusal::OutOfMemory
    }
}
