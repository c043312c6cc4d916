//! Worked examples of whole runs that no case can tell: which jobs enter the gate, every coefficient with every entry, links
//! that go by chance beside a plain model of what is put and written, files of a system of which each call fails, and words
//! that can't be had.
//!
//! All else that the top call does is told by the cases of `worked_cases`. Begin with `status_over` in src/tests/calls.rt.
#![tactic(auto)]

#[cfg(test)]
mod tests;
