//! Sums that wait for their inputs.
ghost use Rattle.std.specs.Prelude.{◌≡◌, ◌<◌, IfOk, length};
ghost use Rattle.due_sums.specs.Waiting.{AreSums};

use due_sums::{Due, DueSums, SumTable};
use generation_frame::Accepted;
use net_model::LinkList;
use std::alloc::{AllocError, Global};

// Of three inputs, the sums of the first two, again of them, of the last two, and of the last.
fn four_sums(alloc: Global) -> Result<SumTable, AllocError>
    ensures { IfOk result (AreSums 3) }
{
    let first = LinkList::of(vec![in alloc; 0, 1]?);
    let second = LinkList::of(vec![in alloc; 0, 1]?);
    let third = LinkList::of(vec![in alloc; 1, 2]?);
    let last = LinkList::of(vec![in alloc; 2]?);
    Ok(SumTable::of(vec![in alloc; first, second, third, last]?))
}

// Gives a piece of an input in the second of two generations, and again with other bytes, and says whether the first are
// taken and stay.
fn is_taken_once(waiting: &mut DueSums, input: u32, piece: u8) -> bool
    requires inputs { input < waiting.old.inputs }
    requires generations { length waiting.old.held ≡ 2 }
    requires piece { piece < 8 }
    ensures inputs { waiting.new.inputs ≡ waiting.old.inputs }
    ensures generations { length waiting.new.held ≡ 2 }
{
    waiting.accept(1, input, piece, &[7; 128]) == Accepted::New
        && waiting.accept(1, input, piece, &[8; 128]) == Accepted::Known
        && *waiting.input(1, input, piece) == [7; 128]
}

// The same of all pieces of three inputs.
fn all_are_taken_once(waiting: &mut DueSums) -> bool
    requires inputs { waiting.old.inputs ≡ 3 }
    requires generations { length waiting.old.held ≡ 2 }
    ensures inputs { waiting.new.inputs ≡ 3 }
    ensures generations { length waiting.new.held ≡ 2 }
{
    for number in 0..24u8 {
        if !is_taken_once(waiting, (number / 8) as u32, number % 8) {
            return false;
        }
    }
    true
}

// Whether all pieces of the four sums of the second of two generations are due, by number and piece.
fn all_are_due(waiting: &mut DueSums) -> bool
    requires { length waiting.old.held ≡ 2 }
    ensures inputs { waiting.new.inputs ≡ waiting.old.inputs }
    ensures generations { length waiting.new.held ≡ 2 }
{
    for number in 0..32u8 {
        let due = Due {
            generation: 1,
            sum: (number / 8) as u32,
            piece: number % 8,
        };
        if waiting.take_due(2) != Some(due) {
            return false;
        }
    }
    true
}

// Whether the last sum is due anew, once its input has come anew.
fn is_due_anew(waiting: &mut DueSums) -> bool
    requires inputs { waiting.old.inputs ≡ 3 }
    requires generations { length waiting.old.held ≡ 2 }
{
    waiting.clear();
    waiting.accept(1, 2, 0, &[9; 128]) == Accepted::New && waiting.take_due(2).is_some()
}

fn are_due(waiting: &mut DueSums) -> bool
    requires inputs { waiting.old.inputs ≡ 3 }
    requires generations { length waiting.old.held ≡ 2 }
{
    all_are_taken_once(waiting)
        && waiting.take_due(1).is_none()
        && all_are_due(waiting)
        && waiting.take_due(2).is_none()
        && is_due_anew(waiting)
}

fn four_are_due(alloc: Global) -> Result<bool, AllocError> {
    let sums = four_sums(alloc)?;
    let mut waiting = DueSums::new(alloc, 3, sums, 2)?;
    Ok(are_due(&mut waiting))
}

#[test]
fn sums_are_due_by_number_and_piece(rt: HostRuntime) {
    assert!(rt; four_are_due(rt.alloc()) == Ok(true));
}
