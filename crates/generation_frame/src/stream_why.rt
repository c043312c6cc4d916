//! Why a file isn't a stream of a link.
use std::alloc::AllocError;
use thiserror::Error;

/// Why a file isn't a stream of a link, or not a whole one.
#[derive(Clone, Copy, Debug, PartialEq, Eq, Error)]
pub enum StreamWhy {
    /// The length isn't a multiple of that of a frame.
    #[error("its {bytes} bytes aren't whole frames")]
    BadLength {
        /// How many bytes there are.
        bytes: u64,
    },
    /// The bytes from a place on aren't a frame.
    #[error("there is no frame at byte {at}")]
    BadFrame {
        /// The place of the first of them.
        at: u64,
    },
    /// A frame is of another link.
    #[error("the frame at byte {at} is of another link")]
    OtherLink {
        /// The place of its first byte.
        at: u64,
    },
    /// An earlier frame has the frame's generation and piece, with another payload.
    #[error("the frame at byte {at} contradicts an earlier one")]
    Conflict {
        /// The place of its first byte.
        at: u64,
    },
    /// No frame has a piece of a generation.
    #[error("piece {piece} of generation {generation} is missing")]
    Missing {
        /// The number of the generation.
        generation: u32,
        /// Which piece, 0 to 7.
        piece: u8,
    },
    /// There was no memory.
    #[error("there was no memory")]
    OutOfMemory,
}

impl From<AllocError> for StreamWhy {
    ghost use Rattle.std.specs.Prelude.{◌≡◌};
    ghost use Rattle.generation_frame.specs.declared.stream_why.StreamWhy.TheVariants.{OutOfMemory};

    ghost from_gives = { λ _ why. why ≡ OutOfMemory };

    fn from(_: AllocError) -> StreamWhy {
        StreamWhy::OutOfMemory
    }
}
