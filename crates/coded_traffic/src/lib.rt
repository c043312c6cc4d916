//! What the live links of a code carry of numbered blocks, piece after piece: definitions and laws, and no code.
//!
//! Read `specs/Traffic.antt`, the packets of blocks, and `specs/CodeBlocks.antt`, blocks as rows of elements. The
//! law that matters is `payload-sum` in proofs/SumLaws: a link's payload is the sum over its live operands.
#![tactic(auto)]
