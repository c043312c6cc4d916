//! Sums of rows of field elements, over the bytes that the elements are.
//!
//! Begin with `RowTables`, which is made once; its `add_scaled` adds a multiple of one row of bytes to another, 64
//! bytes at a time. `element_at`, `push_elements`, `put_element` and `unit_row` go by single
//! elements. Read `specs/Bytes.antt`, the elements that bytes are, and `specs/Added.antt`. What a call did
//! is said of elements alone, in the words of `linear_algebra`: how tables and lanes are used is in no contract.
#![tactic(auto)]

mod elements;
mod lanes;
mod nibbles;
mod pairs;
mod plain;
mod row_tables;
mod sharing;

pub use elements::{element_at, push_elements, put_element, unit_row};
pub use row_tables::RowTables;
