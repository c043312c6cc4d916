//! The parts that a fabric is made of.
ghost use Rattle.std.specs.Prelude.{◌≡◌, ◌<◌, ◌≤◌, ◌+◌, ◌*◌, ◌++◌, ℕ, List, All, IfOk, length, take};
ghost use Rattle.gf_tables.specs.Kind.{IsOfKind};
ghost use Rattle.gf_tables.specs.declared.kind.FieldKind.{FieldKind as Kind};
ghost use Rattle.linear_algebra.specs.Elements.{bytes_of_row, elements_of, numbers};
ghost use Rattle.linear_algebra.specs.Matrices.{rows_of};
ghost use Rattle.coded_traffic.specs.CodeBlocks.{row_of};
ghost use Rattle.generation_frame.specs.Blocks.{piece_of_row, pieces, row_bytes};
ghost use Rattle.link_rows.specs.Vectors.{AreVectorRows};
ghost use Rattle.node_program.specs.LiveTable.{IsFailTable};
ghost use Rattle.vector_headers.specs.Fabric.{AreVectorElements};

use field_rows::{RowTables, element_at};
use generation_frame::{PIECE, ROW};
use gf_tables::{Field, FieldKind};
use link_rows::{LinkRows, vector_rows};
use node_program::Coding;
use std::alloc::{AllocError, Global};

/// For each of so many links, whether it is among those that fail.
pub(crate) fn fail_table(
    alloc: Global,
    links: usize,
    failed: &[u32],
) -> Result<Vec<bool>, AllocError>
    requires { All (λ link. link < links) failed.now }
    ensures count { IfOk result (λ fails. length fails.items ≡ links) }
    ensures table { IfOk result (λ fails. IsFailTable failed.now links fails.items) }
{
    let mut fails = vec![in alloc; false; links]?;
    for link in failed {
        fails[*link as usize] = true;
    }
    Ok(fails)
}

/// The elements of the links' vectors, one vector after another, by which links fail.
pub(crate) fn vector_elements<F: Field>(
    alloc: Global,
    tables: &RowTables,
    coding: Coding<'_>,
    fails: &[bool],
) -> Result<Vec<F>, AllocError>
    requires count { length fails.now ≡ length coding.net.now.links }
    requires table { (failed : List ℕ)
        × IsFailTable failed (length coding.net.now.links) fails.now }
    requires field { IsOfKind coding.field F.SIZE F.BYTES F.MARK F.product }
    ensures { IfOk result (λ vectors. (failed : List ℕ)
        → IsFailTable failed (length coding.entry.net.now.links) fails.now
        → AreVectorElements F.number coding.entry.net.now coding.entry.field
        coding.entry.operands.now failed coding.entry.rate
        (length coding.entry.net.now.links) vectors.items) }
{
    let wide = vector_rows(alloc, tables, coding, fails)?;
    narrowed(alloc, coding, &wide)
}

// The elements of vectors, of rows that have zeros behind them.
fn narrowed<F: Field>(
    alloc: Global,
    coding: Coding<'_>,
    wide: &LinkRows<64>,
) -> Result<Vec<F>, AllocError>
    requires field { IsOfKind coding.field F.SIZE F.BYTES F.MARK F.product }
    requires count { length wide.now ≡ length coding.net.now.links }
    ensures { IfOk result (λ vectors. (failed : List ℕ)
        → AreVectorRows coding.entry.net.now coding.entry.field coding.entry.operands.now
        failed coding.entry.rate (length coding.entry.net.now.links) wide.now
        → AreVectorElements F.number coding.entry.net.now coding.entry.field
        coding.entry.operands.now failed coding.entry.rate
        (length coding.entry.net.now.links) vectors.items) }
{
    let links = coding.net.links.len();
    let mut vectors = Vec::with_capacity(alloc, links * coding.rate as usize)?;
    for link in 0..links {
        push_elements(
            &mut vectors,
            coding.field,
            coding.rate,
            wide.row(link as u32),
        )?;
    }
    Ok(vectors)
}

// Adds the first elements of a row to others.
fn push_elements<F: Field>(
    elements: &mut Vec<F>,
    field: FieldKind,
    count: u32,
    row: &[u8; 64],
) -> Result<(), AllocError>
    requires field { IsOfKind field F.SIZE F.BYTES F.MARK F.product }
    requires few { count ≤ 32 }
    ensures room { count ≤ length (elements_of field row.now) }
    ensures sum { IfOk result (λ _. numbers F.number elements.new.items
        ≡ numbers F.number elements.old.items ++ take count (elements_of field row.now)) }
{
    for place in 0..count {
        elements.push(F::of_number(element_at(field, row, place)))?;
    }
    Ok(())
}

/// Makes rows those of a block.
pub(crate) fn copy_rows(block: &[u8], rows: &mut [[u8; 1024]])
    requires { length block.now ≡ length rows.old * row_bytes }
    ensures { rows.new ≡ rows_of (length rows.old) row_bytes block.now }
{
    for place in 0..rows.len() {
        rows[place] = row_at(block, place);
    }
}

// The row of a block at a place.
fn row_at(block: &[u8], place: usize) -> [u8; 1024]
    requires { place * row_bytes + row_bytes ≤ length block.now }
    ensures { result ≡ row_of block.now place }
{
    let start = place * ROW;
    let mut row = [0; ROW];
    row.copy_from_slice(&block[start..start + ROW]);
    row
}

/// A piece of a row.
pub(crate) fn piece_at(row: &[u8], piece: u8) -> [u8; 128]
    requires row { length row.now ≡ row_bytes }
    requires piece { piece < pieces }
    ensures { (kind : Kind)
        → result ≡ piece_of_row (bytes_of_row kind (elements_of kind row.now)) piece }
{
    let start = piece as usize * PIECE;
    let mut payload = [0; PIECE];
    payload.copy_from_slice(&row[start..start + PIECE]);
    payload
}
