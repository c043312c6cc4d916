//! Elements of rows of bytes.
ghost use Rattle.std.specs.Prelude.{◌≡◌, ◌<◌, ◌≤◌, ◌%◌, ◌++◌, OnOk, length, set, slice_index, take};
ghost use Rattle.gf_tables.specs.Product.{bytes_of_element, size_of};
ghost use Rattle.linear_algebra.specs.Elements.{elements_of};
ghost use Rattle.linear_algebra.specs.Rows.{AreElements, unit_row};
ghost use Rattle.field_rows.specs.Widths.{width_in};

use gf_tables::{FieldKind, Width};
use std::alloc::AllocError;

/// The number of the element at a place.
pub fn element_at(field: FieldKind, row: &[u8], place: u32) -> u32
    requires whole { length row.now % bytes_of_element field ≡ 0 }
    requires inside { place < width_in field (length row.now) }
    ensures below { result < size_of field }
    ensures value { result ≡ slice_index (elements_of field row.now) place }
{
    let at = place as usize;
    match field.width() {
        Width::One => row[at] as u32,
        Width::Two => 256 * row[2 * at] as u32 + row[2 * at + 1] as u32,
    }
}

/// Adds so many of a row's first elements.
pub fn push_elements(
    elements: &mut Vec<u32>,
    field: FieldKind,
    row: &[u8],
    count: u32,
) -> Result<(), AllocError>
    requires whole { length row.now % bytes_of_element field ≡ 0 }
    requires inside { count ≤ width_in field (length row.now) }
    ensures pushed { OnOk result (elements.new.items
        ≡ elements.old.items ++ take count (elements_of field row.now)) }
    ensures elements { AreElements field (take count (elements_of field row.now)) }
{
    for place in 0..count {
        elements.push(element_at(field, row, place))?;
    }
    Ok(())
}

/// Puts an element at a place.
pub fn put_element(field: FieldKind, row: &mut [u8], place: u32, number: u32)
    requires whole { length row.old % bytes_of_element field ≡ 0 }
    requires inside { place < width_in field (length row.old) }
    requires element { number < size_of field }
    ensures { elements_of field row.new ≡ set (elements_of field row.old) place number }
{
    let at = place as usize;
    match field.width() {
        Width::One => row[at] = number as u8,
        Width::Two => {
            row[2 * at] = (number >> 8) as u8;
            row[2 * at + 1] = (number & 255) as u8;
        }
    }
}

/// The row with one at a place and zeros elsewhere.
pub fn unit_row<const W: usize>(field: FieldKind, place: u32) -> [u8; W]
    requires even { W % 2 ≡ 0 }
    requires inside { place < width_in field W }
    ensures { elements_of field result ≡ unit_row (width_in field W) place }
{
    let mut row = [0; W];
    put_element(field, &mut row, place, 1);
    row
}
