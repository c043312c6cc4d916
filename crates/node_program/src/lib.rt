//! Linear network codes as values, and what their links carry.
//!
//! Begin with `Code::of`: every value of `Code` is a code. `vectors` makes the global coding vectors under a
//! pattern, `live_links` the table of live links, and `live_where` that table by one of the links that fail. Read
//! `specs/Code.antt`, `specs/Value.antt`, what a link carries, `specs/Vectors.antt`, `specs/LiveTable.antt` and
//! `specs/Decoding.antt`, what an accepted code is. The law that matters is `accepted-decodes` in
//! proofs/DecodingLaws: every sink of an accepted code gets every block back.
#![tactic(auto)]

mod carrying;
mod choice;
mod code;
mod coding;
mod link_vectors;
mod lists;
mod live_table;
mod liveness;
mod sharing;

pub use carrying::carry;
pub use choice::choice_of;
pub use code::Code;
pub use coding::Coding;
pub use gf_tables::FieldKind;
pub use link_vectors::vectors;
pub use lists::{DecoderTable, Entries, LiveLinks, OperandList, OperandTable};
pub use live_table::{live_links, live_where};
pub use liveness::{live, operands_of};
use net_model::LinkList;

/// A summand of what a link carries: `times` times a row of the source or what another link carries.
#[derive(Clone, Copy, Debug, PartialEq, Eq)]
pub struct Operand {
    /// The number of the row, on a link that leaves the source, else that of the other link.
    pub from: u32,
    /// The number of the coefficient.
    pub times: u32,
}

/// How a sink gets the source rows from what the links into it carry.
#[derive(Drop)]
pub struct Decoder {
    /// As many links as the rate, rising.
    pub links: LinkList,
    /// A square matrix, row by row.
    pub entries: Entries,
}
