//! Networks: named nodes and links, a source, sinks, and patterns of links that fail together.
//!
//! Begin with `Net::of`: every value of `Net` is a network. Read `specs/Network.antt`, what a network is, then
//! `specs/Flows.antt`, what paths, flows, cuts and the least side are, and `specs/Limits.antt`. The laws that
//! matter are `flow-le-cut` and `IsLeastSide-unique` in proofs/FlowLaws: no flow has more paths than a cut has
//! links, and there is one least side.
#![tactic(auto)]

mod limits;
mod lists;
mod name;
mod net;
mod renumbering;
mod sharing;

pub use limits::{HIGHEST_RATE, LONGEST_NAME, MOST_LINKS, MOST_LISTED, MOST_NODES, MOST_PATTERNS};
pub use lists::{LinkList, LinkTable, NameList, NodeList, Paths, PatternList, Side};
pub use name::{Name, NameFault, is_name};
pub use net::{FieldChoice, Net};

/// A directed link between two nodes, by their numbers. It carries one symbol per use.
#[derive(Drop)]
pub struct Link {
    pub name: Name,
    pub tail: u32,
    pub head: u32,
}

/// Links that fail together, in rising order.
#[derive(Drop)]
pub struct Pattern {
    pub name: Name,
    pub links: LinkList,
}

/// A sink and a pattern, as places in the lists of sinks and patterns.
#[derive(Clone, Copy, Debug, PartialEq, Eq)]
pub struct Demand {
    pub sink: u32,
    pub pattern: u32,
}
