//! Whether numbers rise, by the last one.
ghost use Rattle.std.specs.Prelude.{◌≡◌};
ghost use Rattle.code_items.specs.Reading.{is_above_last, reads_of};

use node_program::Operand;

/// Whether a number is above the last of a list.
pub(crate) fn is_above_last(earlier: &[u32], number: u32) -> bool
    ensures { result ≡ is_above_last earlier.now number }
{
    match earlier.last() {
        Some(last) => *last < number,
        None => true,
    }
}

/// Whether a number is above what the last operand reads.
pub(crate) fn is_above_last_operand(earlier: &[Operand], number: u32) -> bool
    ensures { result ≡ is_above_last (reads_of earlier.now) number }
{
    match earlier.last() {
        Some(last) => last.from < number,
        None => true,
    }
}
