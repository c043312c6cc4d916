//! What a line says where values stand for the names of a case's `for`.
use crate::cursor::Cursor;
use crate::named::{Named, found};
use std::alloc::Global;

const NO_SUM: &str = "no number in ${..}";

// The number that a word is.
fn number_in(word: &[u8]) -> Option<u64> {
    let mut cursor = Cursor::of(word);
    let number = cursor.last_number();
    cursor.wrong().is_none().then_some(number)
}

// A number, or that which stands for a name.
fn term(cursor: &mut Cursor<'_>, values: &[Named]) -> u64 {
    let word = cursor.name();
    let number = number_in(found(values, word).unwrap_or(word));
    cursor.want(number.is_some(), NO_SUM);
    number.unwrap_or(0)
}

// What an operation gives.
fn applied(operation: u8, left: u64, right: u64) -> Option<u64> {
    match operation {
        b'+' => left.checked_add(right),
        b'-' => left.checked_sub(right),
        b'*' => left.checked_mul(right),
        b'/' => left.checked_div(right),
        b'%' => left.checked_rem(right),
        _ => None,
    }
}

// What the operation that comes next gives of a number and the term behind it.
fn operate(cursor: &mut Cursor<'_>, number: u64, values: &[Named]) -> u64 {
    cursor.eat(b" ");
    let operation = cursor.byte();
    cursor.eat(b" ");
    let result = applied(operation, number, term(cursor, values));
    cursor.want(result.is_some(), NO_SUM);
    result.unwrap_or(0)
}

// The number that terms give up to the brace that ends them, from left to right.
fn sum(cursor: &mut Cursor<'_>, values: &[Named]) -> u64 {
    let mut number = term(cursor, values);
    for _operation in 0..cursor.rest().len() {
        if cursor.eat(b"}") {
            return number;
        }
        number = operate(cursor, number, values);
    }
    cursor.note(NO_SUM);
    number
}

// Adds a number.
fn add_number(alloc: Global, number: u64, line: &mut Vec<u8>) -> bool {
    match number.to_string(alloc) {
        Ok(text) => line.extend_from_slice(text.as_bytes()).is_ok(),
        Err(_) => false,
    }
}

// Adds what stands for the name that comes next.
fn add_value(cursor: &mut Cursor<'_>, values: &[Named], line: &mut Vec<u8>) {
    let value = found(values, cursor.name());
    cursor.want(value.is_some(), "no such name behind $");
    cursor.keep(line.extend_from_slice(value.unwrap_or_default()).is_ok());
}

// Adds what stands for what comes behind a dollar.
fn fill(alloc: Global, cursor: &mut Cursor<'_>, values: &[Named], line: &mut Vec<u8>) {
    if cursor.eat(b"{") {
        let number = sum(cursor, values);
        cursor.keep(add_number(alloc, number, line));
    } else {
        add_value(cursor, values, line);
    }
}

/// Adds the line with the values put in, and answers what is wrong with it.
pub fn fill_line(
    alloc: Global,
    line: &[u8],
    values: &[Named],
    whole: &mut Vec<u8>,
) -> Option<&'static str> {
    let mut cursor = Cursor::of(line);
    for _part in 0..=line.len() {
        let part = cursor.until(b"$");
        cursor.keep(whole.extend_from_slice(part).is_ok());
        if !cursor.eat(b"$") {
            break;
        }
        fill(alloc, &mut cursor, values, whole);
    }
    cursor.wrong()
}
