//! The order of a network's links, each after all links into its tail, or a cycle (Kahn).
//!
//! There is one call, `order`, and `order_along` where the chains of the links are at hand. Read
//! `specs/Order.antt`, which gives the order as a function of the network, and `specs/Refusal.antt`, which cycle is
//! shown. The law that matters is `IsAcyclic-from_whole` in proofs/OrderLaws: where all links are placed there is
//! no cycle.
#![tactic(auto)]

mod going_back;
mod ordering;
mod placing;
mod queue;
mod refusal;
mod sharing;

pub use ordering::{order, order_along};
pub use refusal::OrderRefusal;
