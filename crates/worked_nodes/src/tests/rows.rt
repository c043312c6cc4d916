//! Rows that come in pieces, and sets that give their least number.
ghost use Rattle.std.specs.Prelude.{◌≡◌, ◌≤◌};
ghost use Rattle.held_rows.specs.Held.{row_count};
ghost use Rattle.least_set.specs.Members.{bound, most};

use generation_frame::Accepted;
use held_rows::HeldRows;
use least_set::{LeastSet, MOST};
use std::alloc::{AllocError, Global};

// Holds the pieces of the second row, each so many times a byte, and says whether each is taken so.
fn are_held(rows: &mut HeldRows, byte: u8, accepted: Accepted) -> bool
    requires { row_count rows.old ≡ 2 }
    ensures { row_count rows.new ≡ 2 }
{
    for piece in 0..8 {
        if rows.hold(1, piece, &[byte; 128]) != accepted {
            return false;
        }
    }
    true
}

// Whether the second row has come, of bytes 3, and the first has not.
fn is_second_alone(rows: &HeldRows) -> bool
    requires { row_count rows.now ≡ 2 }
{
    rows.is_whole(1)
        && !rows.is_held(0, 7)
        && !rows.is_whole(0)
        && *rows.payload(1, 7) == [3; 128]
        && rows.row(1) == [3; 1024].as_slice()
}

fn is_cleared(rows: &mut HeldRows) -> bool
    requires { row_count rows.old ≡ 2 }
{
    rows.clear();
    !rows.is_held(1, 7)
}

fn the_first_stay(rows: &mut HeldRows) -> bool
    requires { row_count rows.old ≡ 2 }
{
    are_held(rows, 3, Accepted::New)
        && is_second_alone(rows)
        && are_held(rows, 4, Accepted::Known)
        && is_second_alone(rows)
        && is_cleared(rows)
}

fn the_first_of_two_rows_stay(alloc: Global) -> Result<bool, AllocError> {
    let mut rows = HeldRows::new(alloc, 2)?;
    Ok(the_first_stay(&mut rows))
}

#[test]
fn the_first_payload_of_a_piece_stays(rt: HostRuntime) {
    assert!(rt; the_first_of_two_rows_stay(rt.alloc()) == Ok(true));
}

// Numbers, some of them twice, in place of one that was there.
fn fill(set: &mut LeastSet)
    requires { most ≤ bound set.old }
{
    set.insert(7);
    set.clear();
    set.insert(70);
    set.insert(262_143);
    set.insert(0);
    set.insert(4096);
    set.insert(64);
    set.insert(70);
    set.insert_eighths(61, 77);
}

// Whether these are the numbers of a set, in order, and no number is below 0.
fn are_numbers(set: &mut LeastSet, numbers: &[u32]) -> bool {
    if set.take_below(0).is_some() {
        return false;
    }
    for &number in numbers {
        if set.take_below(MOST) != Some(number) {
            return false;
        }
    }
    set.take_below(MOST).is_none()
}

fn come_by_size(alloc: Global) -> Result<bool, AllocError> {
    let mut set = LeastSet::new(alloc, MOST)?;
    fill(&mut set);
    Ok(are_numbers(&mut set, &[0, 61, 64, 69, 70, 77, 4096, 262_143]))
}

#[test]
fn numbers_come_by_size(rt: HostRuntime) {
    assert!(rt; come_by_size(rt.alloc()) == Ok(true));
}
