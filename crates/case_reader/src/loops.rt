//! The lines `for` of a case: for what it goes.
use crate::cursor::{Cursor, NO_MEMORY};
use crate::filling::fill_line;
use crate::named::{Named, add_copy};
use std::alloc::Global;

/// Whether a line is a row of a table.
pub fn is_row(line: &[u8]) -> bool {
    line.starts_with(b"  ")
}

/// Whether a line is one of `for`.
pub fn is_loop(line: &[u8]) -> bool {
    line.starts_with(b"for ")
}

/// Whether a line begins a table: its rows follow.
pub fn is_table(line: &[u8]) -> bool {
    let mut cursor = Cursor::of(line);
    cursor.eat(b"for ") && !cursor.name().is_empty() && !cursor.eat(b" in ")
}

/// What comes of a line `for` at one of its goings.
#[derive(Clone, Copy)]
pub enum Bound {
    /// Its names are bound.
    Done,
    /// It has no such going.
    Past,
    /// It isn't understood.
    Wrong(&'static str),
}

// What came of it, where names were bound if there was memory.
fn bound_if(is_kept: bool) -> Bound {
    if is_kept {
        Bound::Done
    } else {
        Bound::Wrong(NO_MEMORY)
    }
}

// The first and the last number of a range, where this is one.
fn range_of(items: &[u8]) -> Option<(u64, u64)> {
    let mut cursor = Cursor::of(items);
    let first = cursor.number();
    let is_range = cursor.eat(b"..");
    let last = cursor.last_number();
    (is_range && cursor.wrong().is_none()).then_some((first, last))
}

// Binds a name to a number.
fn bind_number(alloc: Global, name: &[u8], number: u64, values: &mut Vec<Named>) -> Bound {
    match number.to_string(alloc) {
        Ok(text) => bound_if(add_copy(alloc, values, name, text.as_bytes())),
        Err(_) => bound_if(false),
    }
}

// Binds a name to the number at a place of a range.
fn bind_in_range(
    alloc: Global,
    name: &[u8],
    range: (u64, u64),
    turn: u64,
    values: &mut Vec<Named>,
) -> Bound {
    let (first, last) = range;
    match first.checked_add(turn) {
        Some(number) if number <= last => bind_number(alloc, name, number, values),
        _ => Bound::Past,
    }
}

// The word at a place.
fn word_at(items: &[u8], turn: u64) -> Option<&[u8]> {
    let mut cursor = Cursor::of(items);
    let mut place = 0u64;
    for _word in 0..=items.len() {
        let word = cursor.cell();
        if place == turn {
            return Some(word);
        }
        if !cursor.eat(b" ") {
            break;
        }
        place = place.wrapping_add(1);
    }
    None
}

// Binds a name to the word at a place.
fn bind_word(
    alloc: Global,
    name: &[u8],
    items: &[u8],
    turn: u64,
    values: &mut Vec<Named>,
) -> Bound {
    match word_at(items, turn) {
        Some(word) => bound_if(add_copy(alloc, values, name, word)),
        None => Bound::Past,
    }
}

// Binds each name to a word of a row, and the last one to its rest.
fn bind_cells(alloc: Global, names: &[u8], row: &[u8], values: &mut Vec<Named>) -> Bound {
    let mut names = Cursor::of(names);
    let mut row = Cursor::of(row);
    let (mut is_kept, mut is_long) = (true, true);
    for _name in 0..=names.rest().len() {
        let name = names.until(b" ");
        if !names.eat(b" ") {
            is_kept &= add_copy(alloc, values, name, row.rest());
            break;
        }
        is_kept &= add_copy(alloc, values, name, row.cell());
        is_long &= row.eat(b" ");
    }
    if is_long {
        bound_if(is_kept)
    } else {
        Bound::Wrong("a row with too few words")
    }
}

// Binds the names of a table to the row at a place among the lines behind it.
fn bind_row(
    alloc: Global,
    names: &[u8],
    rows: &[&[u8]],
    turn: u64,
    values: &mut Vec<Named>,
) -> Bound {
    let place = turn.min(u64::from(u32::MAX)) as usize;
    let row = rows.get(place).copied().unwrap_or_default();
    match row.strip_prefix(b"  ") {
        Some(cells) => bind_cells(alloc, names, cells, values),
        None => Bound::Past,
    }
}

// Binds what a line `for` names, as `bind` does. Behind its first word stand the names of a table, or a name and
// what it goes through.
fn bind_by(
    alloc: Global,
    header: &[u8],
    rows: &[&[u8]],
    turn: u64,
    values: &mut Vec<Named>,
) -> Bound {
    let mut cursor = Cursor::of(header);
    let name = cursor.name();
    if !cursor.eat(b" in ") {
        return bind_row(alloc, header, rows, turn, values);
    }
    match range_of(cursor.rest()) {
        Some(range) => bind_in_range(alloc, name, range, turn, values),
        None => bind_word(alloc, name, cursor.rest(), turn, values),
    }
}

// Binds the names of a line `for` for its going of a number. What is bound before is put into the line.
fn bind(alloc: Global, header: &[u8], rows: &[&[u8]], turn: u64, values: &mut Vec<Named>) -> Bound {
    let mut filled = Vec::new(alloc);
    match fill_line(alloc, header, values, &mut filled) {
        Some(why) => Bound::Wrong(why),
        None => {
            let names = filled.strip_prefix(b"for ").unwrap_or_default();
            bind_by(alloc, names, rows, turn, values)
        }
    }
}

/// Binds the names of all lines `for` for these turns, up to one that has no such going or isn't understood. It answers how
/// many came before that, and what came of the last one.
pub fn bind_all(
    alloc: Global,
    lines: &[&[u8]],
    turns: &[u64],
    values: &mut Vec<Named>,
) -> (usize, Bound) {
    let mut level = 0usize;
    for (place, line) in lines.iter().enumerate() {
        if is_loop(line) {
            let turn = turns.get(level).copied().unwrap_or(0);
            let rows = lines.get(place.saturating_add(1)..).unwrap_or_default();
            match bind(alloc, line, rows, turn, values) {
                Bound::Done => level = level.saturating_add(1),
                other => return (level, other),
            }
        }
    }
    (level, Bound::Done)
}

/// The first going of each line `for`, or nothing where there was no memory.
pub fn first_turns(alloc: Global, lines: &[&[u8]]) -> Option<Vec<u64>> {
    let mut turns = Vec::new(alloc);
    let mut is_kept = true;
    for line in lines {
        if is_loop(line) {
            is_kept &= turns.push(0).is_ok();
        }
    }
    is_kept.then_some(turns)
}

/// Goes on at the level before this one, from the first going of those behind it, and answers whether there is one.
pub fn go_on_before(turns: &mut [u64], level: usize) -> bool {
    for turn in turns.iter_mut().skip(level) {
        *turn = 0;
    }
    match turns.get_mut(level.wrapping_sub(1)) {
        Some(turn) => {
            *turn = turn.saturating_add(1);
            true
        }
        None => false,
    }
}
