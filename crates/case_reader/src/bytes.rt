//! Bytes as cases give them: parts, one behind the other.
use crate::cursor::Cursor;
use crate::named::{Named, found};
use std::alloc::Global;

// How many bytes a case may make at most.
const MOST: u64 = 1 << 28;

const TOO_MANY: &str = "more bytes than a case may make";

/// Where names are looked for: those of `let` first, then the files of the store, then those that the program was given.
#[derive(Clone, Copy)]
pub struct Names<'a> {
    pub lets: &'a [Named],
    pub files: &'a [Named],
    pub given: &'a [Named],
}

// A number of bytes.
fn count(cursor: &mut Cursor<'_>) -> usize {
    cursor.number_up_to(MOST, TOO_MANY) as usize
}

// Adds bytes in hex, up to the mark that ends them.
fn add_hex(cursor: &mut Cursor<'_>, bytes: &mut Vec<u8>) {
    for _byte in 0..=cursor.rest().len() {
        cursor.eat(b" ");
        if cursor.eat(b">") {
            return;
        }
        let byte = cursor.hex();
        cursor.keep(bytes.push(byte).is_ok());
    }
}

// Adds the first bytes of the source of `demo`, and answers whether there was memory for them.
fn add_source(bytes: &mut Vec<u8>, count: usize) -> bool {
    let mut is_kept = bytes.reserve(count).is_ok();
    for place in 0..count as u64 {
        let sum = place.wrapping_mul(167).wrapping_add(place / 256 * 13);
        is_kept &= bytes.push((sum.wrapping_add(5) % 256) as u8).is_ok();
    }
    is_kept
}

// Adds a text with a number in place of each `#`, and answers whether there was memory for it.
fn add_numbered(bytes: &mut Vec<u8>, text: &[u8], number: &str) -> bool {
    let mut is_kept = true;
    for byte in text {
        is_kept &= if *byte == b'#' {
            bytes.extend_from_slice(number.as_bytes()).is_ok()
        } else {
            bytes.push(*byte).is_ok()
        };
    }
    is_kept
}

// The same for each number of a range.
fn add_each(alloc: Global, bytes: &mut Vec<u8>, first: u64, last: u64, text: &[u8]) -> bool {
    let mut is_kept = true;
    for number in first..=last {
        is_kept &= match number.to_string(alloc) {
            Ok(number) => add_numbered(bytes, text, number.as_str()),
            Err(_) => false,
        };
    }
    is_kept
}

// The first and the last number of `each`, and goes past the quote that begins its text.
fn each_range(cursor: &mut Cursor<'_>) -> (u64, u64) {
    let first = cursor.number();
    let is_range = cursor.eat(b"..");
    let last = cursor.number_up_to(MOST, TOO_MANY);
    let is_text = cursor.eat(b" \"");
    cursor.want(is_range && is_text, "no range with a text behind `each`");
    (first, last)
}

// Adds a text for each number of a range, which comes next with it.
fn read_each(alloc: Global, cursor: &mut Cursor<'_>, bytes: &mut Vec<u8>) {
    let (first, last) = each_range(cursor);
    let mut text = Vec::new(alloc);
    cursor.quoted(&mut text);
    if cursor.wrong().is_none() {
        cursor.keep(add_each(alloc, bytes, first, last, &text));
    }
}

// The bytes of a name.
fn bytes_of<'a>(names: Names<'a>, name: &[u8]) -> Option<&'a [u8]> {
    found(names.lets, name)
        .or(found(names.files, name))
        .or(found(names.given, name))
}

// Adds the bytes of the name that comes next.
fn add_named(names: Names<'_>, cursor: &mut Cursor<'_>, bytes: &mut Vec<u8>) {
    let known = bytes_of(names, cursor.until(b" ["));
    cursor.want(known.is_some(), "no bytes of this name");
    cursor.keep(bytes.extend_from_slice(known.unwrap_or_default()).is_ok());
}

// Adds a text or bytes in hex, and answers whether there were such.
fn add_literal(cursor: &mut Cursor<'_>, bytes: &mut Vec<u8>) -> bool {
    if cursor.eat(b"\"") {
        cursor.quoted(bytes);
        true
    } else if cursor.eat(b"<") {
        add_hex(cursor, bytes);
        true
    } else {
        false
    }
}

// Adds some bytes of the source of `demo` or a text for each number, and answers whether there were such.
fn add_made(alloc: Global, cursor: &mut Cursor<'_>, bytes: &mut Vec<u8>) -> bool {
    if cursor.eat(b"demo ") {
        let count = count(cursor);
        cursor.keep(add_source(bytes, count));
        true
    } else if cursor.eat(b"each ") {
        read_each(alloc, cursor, bytes);
        true
    } else {
        false
    }
}

// Puts bytes in the place of those from a place on, and answers whether there was memory for them.
fn put_bytes(part: &mut Vec<u8>, place: usize, put: &[u8]) -> bool {
    let mut is_kept = true;
    for (offset, byte) in put.iter().enumerate() {
        match part.get_mut(place.saturating_add(offset)) {
            Some(old) => *old = *byte,
            None => is_kept &= part.push(*byte).is_ok(),
        }
    }
    is_kept
}

// Puts the bytes that come next in the place of those from a place on.
fn change(alloc: Global, cursor: &mut Cursor<'_>, part: &mut Vec<u8>, place: usize) {
    let mut put = Vec::new(alloc);
    let is_literal = add_literal(cursor, &mut put);
    let is_ended = cursor.eat(b"]");
    cursor.want(is_literal && is_ended, "no bytes in place of others");
    cursor.want(place <= part.len(), "bytes put behind the end of others");
    cursor.keep(put_bytes(part, place.min(part.len()), &put));
}

// Keeps the bytes from a place on up to another, as far as there are such.
fn cut(cursor: &mut Cursor<'_>, part: &mut Vec<u8>, from: usize) {
    if !cursor.eat(b"]") {
        part.truncate(count(cursor));
        let is_ended = cursor.eat(b"]");
        cursor.want(is_ended, "a part of bytes without its end");
    }
    part.drain(..from.min(part.len()));
}

// Goes by what stands in brackets behind a part.
fn bracket(alloc: Global, cursor: &mut Cursor<'_>, part: &mut Vec<u8>) {
    let place = if cursor.rest().starts_with(b"..") {
        0
    } else {
        count(cursor)
    };
    if cursor.eat(b" := ") {
        change(alloc, cursor, part, place);
    } else if cursor.eat(b"..") {
        cut(cursor, part, place);
    } else {
        cursor.note("neither a part of bytes nor a change of them");
    }
}

// Adds a part so many times, and answers whether there was memory for it.
fn add_times(bytes: &mut Vec<u8>, part: &[u8], times: usize) -> bool {
    let mut is_kept = true;
    for _time in 0..times {
        is_kept &= bytes.extend_from_slice(part).is_ok();
    }
    is_kept
}

// Repeats a part.
fn repeat(alloc: Global, cursor: &mut Cursor<'_>, part: &mut Vec<u8>) {
    let times = count(cursor);
    let is_small = (times as u64).saturating_mul(part.len() as u64) <= MOST;
    cursor.want(is_small, TOO_MANY);
    if is_small && let Ok(one) = Vec::from_slice(alloc, part) {
        part.clear();
        cursor.keep(add_times(part, &one, times));
    }
}

// Goes by all that stands behind a part.
fn change_part(alloc: Global, cursor: &mut Cursor<'_>, part: &mut Vec<u8>) {
    for _change in 0..=cursor.rest().len() {
        if cursor.eat(b"[") {
            bracket(alloc, cursor, part);
        } else if cursor.eat(b" * ") {
            repeat(alloc, cursor, part);
        } else {
            break;
        }
    }
}

// Reads what a part has before all that stands behind it.
fn read_part(alloc: Global, names: Names<'_>, cursor: &mut Cursor<'_>, part: &mut Vec<u8>) {
    if !add_literal(cursor, part) && !add_made(alloc, cursor, part) {
        add_named(names, cursor, part);
    }
}

// Adds a part.
fn add_part(alloc: Global, names: Names<'_>, cursor: &mut Cursor<'_>, bytes: &mut Vec<u8>) {
    let mut part = Vec::new(alloc);
    read_part(alloc, names, cursor, &mut part);
    change_part(alloc, cursor, &mut part);
    cursor.keep(bytes.extend_from_slice(&part).is_ok());
}

/// The bytes that are all that is left of a line.
pub fn read_bytes(alloc: Global, names: Names<'_>, cursor: &mut Cursor<'_>) -> Vec<u8> {
    let mut bytes = Vec::new(alloc);
    for _part in 0..=cursor.rest().len() {
        add_part(alloc, names, cursor, &mut bytes);
        if !cursor.eat(b" + ") {
            break;
        }
    }
    cursor.end();
    bytes
}

/// The bytes behind an equals sign, which end the line.
pub fn bytes_behind(alloc: Global, names: Names<'_>, cursor: &mut Cursor<'_>) -> Vec<u8> {
    let is_there = cursor.eat(b" = ");
    cursor.want(is_there, "no ` = `");
    read_bytes(alloc, names, cursor)
}
