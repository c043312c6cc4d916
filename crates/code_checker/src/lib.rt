//! Whether a code is accepted: each demand's decoder gives back every block.
//!
//! There is one call, `check`, which takes a code and gives a `Checked` one, seen as its code, or the code back
//! with the first demand that fails; `check_alone` is the same where no thread may be started. Read
//! `specs/Checking.antt` and `specs/First.antt`. A decoder gives back every block exactly where its matrix times the
//! global coding vectors of its links is the identity, so that one product for each demand decides
//! (`decoding-identity` in node_program/proofs/DecodingLaws).
#![tactic(auto)]

mod batches;
mod checked;
mod checking;
mod patterns;
mod products;
mod sharing;

pub use checked::{CheckRefusal, Checked, Refused};
pub use checking::{check, check_alone};
