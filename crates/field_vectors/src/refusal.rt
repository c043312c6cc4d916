//! Why a matrix was not inverted.
ghost use Rattle.std.specs.Prelude.{◌≡◌};
ghost use Rattle.field_vectors.specs.declared.refusal.InvertRefusal.TheVariants.{OutOfMemory};

use crate::rows::Row;
use std::alloc::AllocError;

/// Why a matrix was not inverted.
#[derive(Drop)]
pub enum InvertRefusal<F> {
    /// There was too little memory.
    OutOfMemory,
    /// The matrix sends a block to zero that is not all zeros.
    Singular {
        /// Such a block.
        block: Row<F>,
    },
}

impl<F> From<AllocError> for InvertRefusal<F> {
    ghost from_gives = { λ _ e. e ≡ OutOfMemory };

    fn from(_error: AllocError) -> InvertRefusal<F> {
        InvertRefusal::OutOfMemory
    }
}
