//! What calls answer.
ghost use Rattle.std.specs.Prelude.{◌≡◌};
ghost use Rattle.lif_c.specs.Statuses.{error_number, status_of};
ghost use Rattle.open_nodes.specs.Errors.{error_in};

use open_nodes::CallError;

/// It was done.
pub(crate) const OK: u32 = 0;
/// There was too little memory.
pub(crate) const NO_MEMORY: u32 = 1;
/// Bytes are more or fewer than they have to be.
pub(crate) const BAD_LENGTH: u32 = 10;
/// The handle holds nothing.
pub(crate) const CLOSED: u32 = 15;
/// The handle holds something already.
pub(crate) const OPEN: u32 = 16;
/// The handle holds something of another kind.
pub(crate) const OTHER_KIND: u32 = 17;
/// The bytes are more than a code file may have.
pub(crate) const TOO_LONG: u32 = 18;
/// The bytes aren't a code file.
pub(crate) const BAD_CODE: u32 = 19;
/// The code doesn't decode.
pub(crate) const NOT_DECODING: u32 = 20;

/// The status of a call that answers nothing else.
pub(crate) fn status_of(answer: Result<(), CallError>) -> u32
    ensures { result ≡ status_of (error_in answer) }
{
    match answer {
        Ok(()) => OK,
        Err(why) => error_number(why),
    }
}

/// The status of an error.
pub(crate) fn error_number(why: CallError) -> u32
    ensures { result ≡ error_number why }
{
    match why {
        CallError::NoMemory => NO_MEMORY,
        CallError::NoPattern => 2,
        CallError::NoNode => 3,
        CallError::NoLink => 4,
        CallError::NoSink => 5,
        CallError::BadWindow => 6,
        CallError::NotBegun => 7,
        CallError::NotSource => 8,
        CallError::Fed => 9,
        CallError::BadLength => BAD_LENGTH,
        CallError::BadFrame => 11,
        CallError::OtherLink => 12,
        CallError::NotWhole => 13,
        CallError::NothingDue => 14,
    }
}
