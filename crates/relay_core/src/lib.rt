//! How the traffic of a code goes through its network, step by step, in any order of delivery: definitions and
//! laws, and no code.
//!
//! Read `specs/Core.antt`, the states and steps, and `specs/Runs.antt`. The law that matters is `run-reaches` in
//! proofs/RunLaws: whatever is delivered when, nothing is sent twice, and where nothing flies all of the traffic
//! was sent.
#![tactic(auto)]
