//! What each node of a code does under a pattern: the live links into it and out of it, the operands of
//! those, and which sink it is.
//!
//! Begin with `LiveWiring::of`, which goes over the links and the sinks of a code once for all its nodes;
//! `LiveWiring::plan` gives the plan of a node, `LiveWiring::sink_at` its place among the sinks, and `sum_table`
//! the inputs that each link out of it adds up, by their places. Read `specs/Plans.antt`.
#![tactic(auto)]

mod listing;
mod live_operands;
mod plan;
mod sharing;
mod sink_places;
mod wiring;

pub use plan::{Plan, sum_table};
pub use wiring::{LiveWiring, PlaceTable};
