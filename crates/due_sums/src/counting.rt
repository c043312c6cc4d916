//! Counts of the inputs that are missing, for each piece of each group of sums.
ghost use Rattle.std.specs.Prelude.{◌≡◌, ◌<◌, ◌≤◌, ◌+◌, ◌-◌, ◌*◌, ◌/◌, ◌^◌, ℕ, All, length, slice_index};
ghost use Rattle.generation_frame.specs.Blocks.{pieces};
ghost use Rattle.least_set.specs.Members.{GainsEighths};
ghost use Rattle.due_sums.specs.Counts.{CountsDown, list_at, reads_of};
ghost use Rattle.due_sums.specs.Groups.{HasSums};
ghost use Rattle.due_sums.specs.Waiting.{due_number};

use crate::SumTable;
use generation_frame::PIECES;
use least_set::LeastSet;

// Counts all inputs of each group as missing, for each piece.
pub fn count_all(missing: &mut [u32], groups: &SumTable)
    requires whole { length missing.old ≡ length groups.now * pieces }
    requires few_inputs { All (λ inputs. length inputs < 2 ^ 32) groups.now }
    ensures { (number : ℕ) → number < length missing.new
        → slice_index missing.new number ≡ length (list_at groups.now (number / pieces)) }
{
    for (number, count) in missing.iter_mut().enumerate() {
        *count = groups.at(number / PIECES).len() as u32;
    }
}

// Counts a piece of an input down at the groups that read it. The sums of those that have no input missing are due; in
// what is due the sums of the generation begin at a base.
pub fn count_down(
    missing: &mut [u32],
    due: &mut LeastSet,
    base: u32,
    starts: &[u32],
    readers: &[u32],
    piece: u8,
)
    requires piece { piece < pieces }
    requires enough { (number : ℕ)
        → reads_of readers.now piece number ≤ slice_index missing.old number }
    requires groups { (group : ℕ) → due_number group piece < length missing.old
        → HasSums base starts.now group due.old }
    ensures { CountsDown base (reads_of readers.now piece) starts.now piece missing.old missing.new
        due.old due.new }
{
    for group in readers {
        let number = *group as usize * PIECES + piece as usize;
        missing[number] -= 1;
        if missing[number] == 0 {
            make_due(due, base, starts, *group as usize, piece);
        }
    }
}

// Makes a piece of all sums of a group due.
fn make_due(due: &mut LeastSet, base: u32, starts: &[u32], group: usize, piece: u8)
    requires piece { piece < pieces }
    requires sums { HasSums base starts.now group due.old }
    ensures { GainsEighths (due_number (base + slice_index starts.now group) piece)
        (due_number (base + (slice_index starts.now (group + 1) - 1)) piece) due.old due.new }
{
    let first = (base + starts[group]) * PIECES as u32 + piece as u32;
    let last = (base + (starts[group + 1] - 1)) * PIECES as u32 + piece as u32;
    due.insert_eighths(first, last);
}
