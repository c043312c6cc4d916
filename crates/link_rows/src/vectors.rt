//! The global coding vectors of links, as rows of bytes.
ghost use Rattle.std.specs.Prelude.{◌≡◌, ◌<◌, ℕ, List, [], length, slice_index_or, IfOk};
ghost use Rattle.linear_algebra.specs.Elements.{elements_of};
ghost use Rattle.linear_algebra.specs.Rows.{unit_row};
ghost use Rattle.link_rows.specs.LinkRows.{IsFailTable};
ghost use Rattle.link_rows.specs.Vectors.{AreVectorRows, wide_width};

use crate::LinkRows;
use field_rows::{RowTables, unit_row};
use gf_tables::FieldKind;
use node_program::Coding;
use std::alloc::{AllocError, Global};

/// The vectors of the links where links fail, each with zeros behind it up to 64 bytes: what the links carry of the
/// unit rows.
pub fn vector_rows(
    alloc: Global,
    tables: &RowTables,
    coding: Coding<'_>,
    fails: &[bool],
) -> Result<LinkRows<64>, AllocError>
    requires { length fails.now ≡ length coding.net.now.links }
    ensures { IfOk result (λ rows. (failed : List ℕ)
        → IsFailTable failed (length coding.entry.net.now.links) fails.now
        → AreVectorRows coding.entry.net.now coding.entry.field coding.entry.operands.now failed
        coding.entry.rate (length coding.entry.net.now.links) rows) }
{
    let block = unit_rows(coding.field);
    LinkRows::of(alloc, tables, coding, fails, &block[..coding.rate as usize])
}

// The first unit rows.
fn unit_rows(field: FieldKind) -> [[u8; 64]; 32]
    ensures { (place : ℕ) → place < 32
        → elements_of field (slice_index_or result place []) ≡ unit_row (wide_width field) place }
{
    let mut rows = [[0; 64]; 32];
    for place in 0..32 {
        rows[place] = unit_row(field, place as u32);
    }
    rows
}
