//! What is wrong with a call.
use std::alloc::AllocError;
use thiserror::Error;

/// What is wrong with a call, which then changed nothing.
#[derive(Clone, Copy, Debug, PartialEq, Eq, Error)]
pub enum CallError {
    /// There was too little memory.
    #[error("there is no memory")]
    NoMemory,
    /// The code has no pattern of the number.
    #[error("there is no such pattern")]
    NoPattern,
    /// The code has no node of the number.
    #[error("there is no such node")]
    NoNode,
    /// There is no link of the number, or at the place.
    #[error("there is no such link")]
    NoLink,
    /// The code has no sink of the number.
    #[error("there is no such sink")]
    NoSink,
    /// It isn't 1 to 4 generations, with numbers below 2^32.
    #[error("there is no such window")]
    BadWindow,
    /// The generation wasn't begun.
    #[error("the generation wasn't begun")]
    NotBegun,
    /// The node isn't the source.
    #[error("the node isn't the source")]
    NotSource,
    /// The block of the generation was fed before.
    #[error("the generation was fed before")]
    Fed,
    /// Bytes are more or fewer than they have to be.
    #[error("the length isn't the one that is needed")]
    BadLength,
    /// The bytes aren't a frame.
    #[error("the bytes aren't a frame")]
    BadFrame,
    /// The frame is of a link that isn't taken in.
    #[error("the frame is of another link")]
    OtherLink,
    /// Not all of the generation has come.
    #[error("not all of the generation has come")]
    NotWhole,
    /// No frame is due.
    #[error("nothing is due")]
    NothingDue,
}

impl From<AllocError> for CallError {
    ghost use Rattle.std.specs.Prelude.{◌≡◌};
    ghost use Rattle.open_nodes.specs.declared.call_error.CallError.TheVariants.{NoMemory};

    ghost from_gives = { λ _ error. error ≡ NoMemory };

    fn from(_: AllocError) -> CallError {
        CallError::NoMemory
    }
}
