//! A line that is read from its front.
ghost use Rattle.std.specs.Prelude.{◌≤◌};

use std::alloc::Global;

/// What is said of want of memory.
pub const NO_MEMORY: &str = "out of memory";

/// What is left of a line, and the first thing that was wrong with what was read of it.
#[derive(Clone, Copy)]
pub struct Cursor<'a> {
    rest: &'a [u8],
    wrong: Option<&'static str>,
}

// The value of a digit in hex.
fn hex_digit(byte: u8) -> Option<u8> {
    match byte {
        b'0'..=b'9' => Some(byte - b'0'),
        b'a'..=b'f' => Some(byte - b'a' + 10),
        _ => None,
    }
}

// The number of these digits, if it has 64 bits.
fn number_of(digits: &[u8]) -> Option<u64> {
    let mut number = Some(0u64);
    for digit in digits {
        let value = u64::from(digit.wrapping_sub(b'0'));
        number = match number {
            Some(front) if front <= u64::MAX / 10 => (front * 10).checked_add(value),
            _ => None,
        };
    }
    number
}

// Whether a byte may stand in a name of a `for`.
fn is_of_name(byte: u8) -> bool {
    byte.is_ascii_alphanumeric() || byte == b'_'
}

impl<'a> Cursor<'a> {
    /// A whole line.
    pub fn of(line: &'a [u8]) -> Cursor<'a> {
        Cursor {
            rest: line,
            wrong: None,
        }
    }

    /// What is left.
    pub fn rest(&self) -> &'a [u8] {
        self.rest
    }

    /// Whether nothing is left.
    pub fn is_done(&self) -> bool {
        self.rest.is_empty()
    }

    /// The first thing that was wrong.
    pub fn wrong(&self) -> Option<&'static str> {
        self.wrong
    }

    /// Something is wrong.
    pub fn note(&mut self, why: &'static str) {
        if self.wrong.is_none() {
            self.wrong = Some(why);
        }
    }

    /// Something that was read was kept, or there was no memory for it.
    pub fn keep(&mut self, is_kept: bool) {
        if !is_kept {
            self.note(NO_MEMORY);
        }
    }

    /// What was read is to be so, or else this is wrong.
    pub fn want(&mut self, is_so: bool, why: &'static str) {
        if !is_so {
            self.note(why);
        }
    }

    /// Goes past these bytes, and answers whether they come next.
    pub fn eat(&mut self, bytes: &[u8]) -> bool {
        match self.rest.strip_prefix(bytes) {
            Some(rest) => {
                self.rest = rest;
                true
            }
            None => false,
        }
    }

    /// The line is to be read to its end.
    pub fn end(&mut self) {
        self.want(self.rest.is_empty(), "more than belongs to the line");
    }

    // Goes past so many bytes, and answers them.
    fn pass(&mut self, count: usize) -> &'a [u8] {
        let (front, rest) = self.rest.split_at(count.min(self.rest.len()));
        self.rest = rest;
        front
    }

    // How many bytes stand before the first of these, or all.
    fn length_to(&self, ends: &[u8]) -> usize {
        let mut count = 0usize;
        for byte in self.rest {
            if ends.contains(byte) {
                break;
            }
            count = count.saturating_add(1);
        }
        count
    }

    /// The bytes up to the first of these, or all.
    pub fn until(&mut self, ends: &[u8]) -> &'a [u8] {
        self.pass(self.length_to(ends))
    }

    /// The word that comes next, with the space behind it, as a text.
    pub fn keyword(&mut self) -> &'a str {
        let length = self.length_to(b" ").saturating_add(1);
        str::from_utf8(self.pass(length)).unwrap_or_default()
    }

    /// The bytes of a name of a `for`, as many as there are.
    pub fn name(&mut self) -> &'a [u8] {
        let mut count = 0usize;
        for byte in self.rest {
            if !is_of_name(*byte) {
                break;
            }
            count = count.saturating_add(1);
        }
        self.pass(count)
    }

    /// The next byte, and 0 where there is none.
    pub fn byte(&mut self) -> u8 {
        let first = self.rest.first().copied().unwrap_or(0);
        self.pass(1);
        first
    }

    // The decimal digits that come next.
    fn digits(&mut self) -> &'a [u8] {
        let mut count = 0usize;
        for byte in self.rest {
            if !byte.is_ascii_digit() {
                break;
            }
            count = count.saturating_add(1);
        }
        self.pass(count)
    }

    /// A number in decimal digits. It is 0 where none comes next, which is wrong.
    pub fn number(&mut self) -> u64 {
        let digits = self.digits();
        let number = number_of(digits);
        self.want(
            number.is_some() && !digits.is_empty(),
            "a number is missing",
        );
        number.unwrap_or(0)
    }

    /// A number that is at most this. Where a greater one comes next, this is wrong.
    pub fn number_up_to(&mut self, most: u64, why: &'static str) -> u64
        ensures { result ≤ most }
    {
        let number = self.number();
        if number > most {
            self.note(why);
            return most;
        }
        number
    }

    /// A number with a space before it.
    pub fn next_number(&mut self) -> u64 {
        self.eat(b" ");
        self.number()
    }

    /// A number that ends the line.
    pub fn last_number(&mut self) -> u64 {
        let number = self.number();
        self.end();
        number
    }

    /// A byte in two digits of hex.
    pub fn hex(&mut self) -> u8 {
        let high = hex_digit(self.byte());
        let low = hex_digit(self.byte());
        self.want(high.is_some() && low.is_some(), "no byte in hex");
        high.unwrap_or(0) << 4 | low.unwrap_or(0)
    }

    // What an escape stands for, behind its backslash.
    fn escape(&mut self) -> u8 {
        match self.byte() {
            b'n' => b'\n',
            b'r' => b'\r',
            b't' => b'\t',
            b'"' => b'"',
            b'\\' => b'\\',
            b'x' => self.hex(),
            _ => {
                self.note("no such escape in a text");
                0
            }
        }
    }

    // Adds what an escape stands for, behind its backslash.
    fn add_escape(&mut self, text: &mut Vec<u8>) {
        let byte = self.escape();
        self.keep(text.push(byte).is_ok());
    }

    /// Adds the text up to the quote that ends it.
    pub fn quoted(&mut self, text: &mut Vec<u8>) {
        for _part in 0..=self.rest.len() {
            let part = self.until(b"\"\\");
            self.keep(text.extend_from_slice(part).is_ok());
            match self.byte() {
                b'"' => return,
                b'\\' => self.add_escape(text),
                _ => break,
            }
        }
        self.note("a text without its end");
    }

    /// A word: a text in quotes, or the bytes up to a space.
    pub fn word(&mut self, alloc: Global) -> Vec<u8> {
        let mut word = Vec::new(alloc);
        if self.eat(b"\"") {
            self.quoted(&mut word);
        } else {
            let bytes = self.until(b" ");
            self.keep(word.extend_from_slice(bytes).is_ok());
        }
        word
    }

    // How many bytes the word of a table has that comes next.
    fn length_of_cell(&self) -> usize {
        let (mut is_quoted, mut is_hex, mut is_escaped) = (false, false, false);
        let mut count = 0usize;
        for byte in self.rest {
            if *byte == b' ' && !is_quoted && !is_hex {
                break;
            }
            is_quoted ^= *byte == b'"' && !is_escaped && !is_hex;
            is_hex = !is_quoted && (*byte == b'<' || is_hex && *byte != b'>');
            is_escaped = *byte == b'\\' && !is_escaped;
            count = count.saturating_add(1);
        }
        count
    }

    /// A word of a table as it stands, with its quotes; bytes in hex are one.
    pub fn cell(&mut self) -> &'a [u8] {
        self.pass(self.length_of_cell())
    }
}
