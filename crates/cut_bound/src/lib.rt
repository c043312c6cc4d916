//! No code carries more than a cut: definitions and laws, and no code of its own.
//!
//! Read `specs/Hidden.antt`, a row that each of fewer rows than its elements sends to zero, and `specs/Cuts.antt`.
//! The law that matters is `accepted-within_cuts` in proofs/RateLaws: the rate of an accepted code is at most the
//! size of each cut of each demand.
#![tactic(auto)]
