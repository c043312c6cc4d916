//! What differs is told, a line for each difference.
use crate::named::Named;
use std::alloc::Global;

// So many bytes are shown of what was wanted and of what came.
const SHOWN: usize = 32;

/// Where a case stands, and for what it goes.
#[derive(Clone, Copy)]
pub struct Place<'a> {
    pub file: &'a str,
    pub case: &'a [u8],
    pub values: &'a [Named],
}

/// What differs in a going of a case: the lines that tell it, as far as there was memory for them, and how many they are.
#[derive(Drop)]
pub struct Differences<'a> {
    place: Place<'a>,
    text: String,
    is_whole: bool,
    count: u64,
}

// The first place where bytes differ.
fn first_place(wanted: &[u8], came: &[u8]) -> usize {
    let length = wanted.len().min(came.len());
    for place in 0..length {
        if wanted.get(place) != came.get(place) {
            return place;
        }
    }
    length
}

impl<'a> Differences<'a> {
    /// None yet.
    pub fn none(alloc: Global, place: Place<'a>) -> Differences<'a> {
        Differences {
            place,
            text: String::new(alloc),
            is_whole: true,
            count: 0,
        }
    }

    /// How many there are.
    pub fn count(&self) -> u64 {
        self.count
    }

    /// The lines, or that there was no memory for them.
    pub fn text(&self) -> &str {
        if self.is_whole {
            self.text.as_str()
        } else {
            "out of memory\n"
        }
    }

    fn push(&mut self, part: &str) {
        self.is_whole &= self.text.push_str(part).is_ok();
    }

    // Adds a text and a number behind it.
    fn push_number(&mut self, before: &str, number: u64) {
        self.is_whole &= write!(self.text, "{before}{number}").is_ok();
    }

    fn push_char(&mut self, byte: u8) {
        self.is_whole &= self.text.push(char::from(byte)).is_ok();
    }

    fn push_hex(&mut self, byte: u8) {
        self.is_whole &= write!(self.text, "\\x{byte:02x}").is_ok();
    }

    fn push_byte(&mut self, byte: u8) {
        match byte {
            b'\n' => self.push("\\n"),
            b'\r' => self.push("\\r"),
            b' '..=b'~' => self.push_char(byte),
            other => self.push_hex(other),
        }
    }

    // Adds bytes as a text would have them.
    fn push_bytes(&mut self, bytes: &[u8]) {
        for byte in bytes {
            self.push_byte(*byte);
        }
    }

    // Adds a text and the bytes from a place on behind it, as far as they are shown, with dots where there are more.
    fn push_shown(&mut self, before: &str, bytes: &[u8], first: usize) {
        let rest = bytes.get(first..).unwrap_or_default();
        let front = rest.get(..SHOWN).unwrap_or(rest);
        self.push(before);
        self.push_bytes(front);
        self.push(if front.len() < rest.len() {
            "..\""
        } else {
            "\""
        });
    }

    // Adds what stands for the names of a case's `for`.
    fn push_values(&mut self) {
        for named in self.place.values {
            self.push(" [");
            self.push_bytes(&named.name);
            self.push(" ");
            self.push_bytes(&named.bytes);
            self.push("]");
        }
    }

    // Begins a line: where something differs, and what.
    fn begin(&mut self, line: usize, what: &str) {
        self.push(self.place.file);
        self.push_number(":", line as u64);
        self.push(": ");
        self.push_bytes(self.place.case);
        self.push_values();
        self.push(": ");
        self.push(what);
    }

    // Ends it.
    fn end(&mut self) {
        self.push("\n");
        self.count = self.count.saturating_add(1);
    }

    /// Something differs, of which this is all that is to be said.
    pub fn tell(&mut self, line: usize, what: &str) {
        self.begin(line, what);
        self.end();
    }

    // Two numbers differ.
    fn tell_numbers(&mut self, line: usize, what: &str, wanted: u64, came: u64) {
        self.begin(line, what);
        self.push_number(": wanted ", wanted);
        self.push_number(", came ", came);
        self.end();
    }

    /// Bytes differ. They are shown from the first place on where they do.
    pub fn tell_bytes(&mut self, line: usize, what: &str, wanted: &[u8], came: &[u8]) {
        let first = first_place(wanted, came);
        self.begin(line, what);
        self.push_number(": ", wanted.len() as u64);
        self.push_number(" and ", came.len() as u64);
        self.push_number(" bytes, from ", first as u64);
        self.push_shown(" on: wanted \"", wanted, first);
        self.push_shown(", came \"", came, first);
        self.end();
    }

    /// What is wrong with a line is told. It answers whether nothing is.
    pub fn pass(&mut self, line: usize, wrong: Option<&str>) -> bool {
        match wrong {
            Some(why) => {
                self.tell(line, why);
                false
            }
            None => true,
        }
    }

    /// Something is to be so.
    pub fn want(&mut self, is_so: bool, line: usize, otherwise: &str) {
        if !is_so {
            self.tell(line, otherwise);
        }
    }

    /// A number is to be the one that is wanted.
    pub fn want_number(&mut self, line: usize, what: &str, wanted: u64, came: u64) {
        if wanted != came {
            self.tell_numbers(line, what, wanted, came);
        }
    }

    /// Bytes are to be those that are wanted.
    pub fn want_bytes(&mut self, line: usize, what: &str, wanted: &[u8], came: &[u8]) {
        if wanted != came {
            self.tell_bytes(line, what, wanted, came);
        }
    }
}
