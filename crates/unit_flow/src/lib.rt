//! The greatest flow of a demand over links that carry one unit each, and its least side (Ford and Fulkerson).
//!
//! Begin with `max_flow`; `max_flow_from` begins from a flow that is known to the same sink. `Residual` is the residual network between two augmentations. Read `net_model/specs/Flows.antt`
//! and `specs/Greatest.antt`, what a greatest flow and a least side are, `specs/Residual.antt`, which links may be passed,
//! and `specs/Visits.antt`, how often links are looked at; how often one search looks at them is `looks` in
//! `specs/Searching.antt`. The laws that matter are `IsGreatestFlow-reached` and `IsLeastSide-reached` in
//! proofs/SideLaws: where the sink isn't reached, the flow is a greatest one, and the nodes that were reached are the
//! least side.
#![tactic(auto)]

mod augmenting;
mod beginning;
mod decomposing;
mod flow;
mod residual;
mod search;
mod sharing;

pub use flow::{Flow, max_flow, max_flow_along, max_flow_from};
pub use residual::{LinkState, Residual};
