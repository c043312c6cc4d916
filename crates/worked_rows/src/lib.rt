//! Worked examples of what stands below frames and nodes.
//!
//! `outside`: stores, sinks and links in memory, with calls that are to fail, frames that are kept and bytes that are
//! changed, a store that keeps a log, and the store over a system's files. `fields`: elements, rows and matrices, choices
//! of coefficients and bases. The others: what the definitions give on codes, links, blocks and elements that are written
//! out; texts, code files and codes that are read, checked or refused; drafts that get decoders, or don't; networks, their
//! demands, orders, greatest flows, certificates and reports.
//!
//! Products are compared with those of the definition, which the tests find by shifts, and `both_ways_agree` replaces
//! vectors of a basis by both ways and compares them after each round. `counting` finds cuts, paths and sides by their
//! definitions, over all sets of links and of nodes; `two_hundred` holds the greatest flows of 200 small networks
//! against it, and `rule` makes these.
#![tactic(auto)]

#[cfg(test)]
mod tests;
