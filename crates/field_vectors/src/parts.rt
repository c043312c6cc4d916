//! Rows that stand in one vector, row by row.
ghost use Rattle.std.specs.Prelude.{◌≡◌, ◌+◌, ◌*◌, ◌<◌, ◌≤◌, ◌⊎◌, length, replicate, slice_range, All, IfOk};
ghost use Rattle.counted_steps.specs.Steps.{RoseBy};
ghost use Rattle.field_vectors.specs.Cut.{with_part};
ghost use Rattle.field_vectors.specs.Elements.{plus_multiple, multiple_of};

use crate::rows::{add_scaled, scale};
use counted_steps::Steps;
use gf_tables::Field;
use std::alloc::{AllocError, Global};
use std::sync::ledger::Ledger;

/// The place of an entry, or of the end of its row, where rows of `columns` entries stand one after
/// another.
pub fn place_of(i: u32, j: u32, columns: u32) -> usize
    requires { j ≤ columns }
    ensures { result ≡ i * columns + j }
{
    i as usize * columns as usize + j as usize
}

/// The elements from `start` up to `end`.
pub fn part<F: Field>(entries: &[F], start: usize, end: usize) -> &[F]
    requires fits { start ≤ end }
    requires inside { end ≤ length entries.now }
    ensures { result.now ≡ slice_range entries.now start end }
{
    &entries[start..end]
}

/// So many zeros.
pub fn zeros<F: Field>(alloc: Global, count: usize) -> Result<Vec<F>, AllocError>
    ensures { IfOk result (λ v. v.items ≡ replicate count F.zero) }
{
    let mut items = Vec::with_capacity(alloc, count)?;
    for _place in 0..count {
        items.push(F::zero())?;
    }
    Ok(items)
}

/// Copies elements.
pub fn copy_elements<F: Field>(into: &mut [F], from: &[F])
    requires { length into.old ≡ length from.now }
    ensures elements { All F.is_element from.now }
    ensures value { into.new ≡ from.now }
{
    for place in 0..from.len() {
        let element = from[place];
        let _number = element.number();
        into[place] = element;
    }
}

/// Copies elements to a part, from `start` up to `end`.
pub fn copy_to_part<F: Field>(entries: &mut [F], start: usize, end: usize, from: &[F])
    requires fits { start + length from.now ≡ end }
    requires inside { end ≤ length entries.old }
    ensures elements { All F.is_element from.now }
    ensures value { entries.new ≡ with_part entries.old start from.now }
{
    copy_elements(&mut entries[start..end], from);
}

/// Multiplies the elements of a part.
pub fn scale_part<F: Field, L: Ledger>(
    entries: &mut [F],
    start: usize,
    end: usize,
    by: F,
    steps: &mut Steps<L>,
)
    requires fits { start ≤ end }
    requires inside { end ≤ length entries.old }
    ensures value { entries.new ≡ with_part entries.old start
        (multiple_of F.mul by (slice_range entries.old start end)) }
    ensures ticks { (count : _) → start + count ≡ end → RoseBy count steps.old steps.new }
{
    scale(&mut entries[start..end], by, steps);
}

/// Adds a multiple of a part to another of the same length, before it or behind it.
pub fn add_part<F: Field, L: Ledger>(
    entries: &mut [F],
    into: usize,
    into_end: usize,
    by: F,
    from: usize,
    from_end: usize,
    steps: &mut Steps<L>,
)
    requires into_fits { into ≤ into_end }
    requires into_inside { into_end ≤ length entries.old }
    requires from_inside { from_end ≤ length entries.old }
    requires same_length { into + from_end ≡ from + into_end }
    requires apart { (into_end ≤ from) ⊎ (from_end ≤ into) }
    ensures value { entries.new ≡ with_part entries.old into
        (plus_multiple F.add F.mul (slice_range entries.old into into_end) by
        (slice_range entries.old from from_end)) }
    ensures ticks { (count : _) → into + count ≡ into_end → RoseBy count steps.old steps.new }
{
    if into < from {
        let (low, high) = entries.split_at_mut(from);
        add_scaled(
            &mut low[into..into_end],
            by,
            &high[..from_end - from],
            steps,
        );
    } else {
        let (low, high) = entries.split_at_mut(into);
        add_scaled(
            &mut high[..into_end - into],
            by,
            &low[from..from_end],
            steps,
        );
    }
}
