//! A walk over all calls, in each field.
use crate::RowSpan;
use field_rows::RowTables;
use gf_tables::{FieldKind, Width};
use std::alloc::{AllocError, Global};
use std::test::Fail;

// Zeros behind a vector of two elements.
fn vector_of(field: FieldKind, first: u8, second: u8) -> [u8; 64] {
    let mut vector = [0; 64];
    match field.width() {
        Width::One => {
            vector[0] = first;
            vector[1] = second;
        }
        Width::Two => {
            vector[1] = first;
            vector[3] = second;
        }
    }
    vector
}

// The same with one more element behind.
fn row_of(field: FieldKind, first: u8, second: u8, last: u8) -> [u8; 66] {
    let mut row = [0; 66];
    row[..64].copy_from_slice(&vector_of(field, first, second));
    row[65] = last;
    row
}

// Whether the rows (2, 6 | 4), (0, 1 | 9) and (1, 1 | 0) are taken in as they should be: 2 * 3 is 6, 2 * 2 is 4, and 2 + 3 * 9 is 25.
fn are_taken_in(alloc: Global, field: FieldKind) -> Result<bool, AllocError> {
    let tables = RowTables::new();
    let mut span = RowSpan::<66>::open(alloc, field, 2)?;
    let first = span.take_in(&tables, &row_of(field, 2, 6, 4));
    if span.rank() != 1 {
        return Ok(false);
    }
    let is_hidden = span.hidden() == vector_of(field, 3, 1);
    let second = span.take_in(&tables, &row_of(field, 0, 1, 9));
    let third = span.take_in(&tables, &row_of(field, 1, 1, 0));
    if span.rank() != 2 {
        return Ok(false);
    }
    let rows = *span.row(0) == row_of(field, 1, 0, 25) && *span.row(1) == row_of(field, 0, 1, 9);
    span.clear();
    Ok(first && is_hidden && second && !third && rows && span.rank() == 0)
}

#[test]
fn rows_are_taken_in(rt: HostRuntime) -> Result<(), Fail> {
    let kinds = [FieldKind::Eight, FieldKind::Nine, FieldKind::Sixteen];
    for kind in kinds {
        assert!(rt; are_taken_in(rt.alloc(), kind)?, "{kind:?}");
    }
    Ok(())
}
