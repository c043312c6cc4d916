//! What a case has before a run: the files of the store, names, and what fails in the next run.
use crate::bytes::Names;
use crate::cursor::Cursor;
use crate::named::Named;
use crate::wanted::Wanted;
use lif_outside::{Call, Fail, Spoil};
use std::alloc::Global;

// For so many takes `newest` gives the newest pair.
const NEWEST: usize = 100_000;

// So many numbers may stand in a line.
const MOST: u64 = 1_000_000;

const NO_SPOIL: &str = "no byte of a payload, or no mask";

/// What fails in the next run, and how the links go then.
#[derive(Drop)]
pub struct Trouble {
    pub most: usize,
    pub fails: Vec<Fail>,
    pub say_fails: Vec<u64>,
    pub put_fails: Vec<u64>,
    pub take_fails: Vec<u64>,
    pub picks: Vec<u32>,
    pub keeps: Vec<u64>,
    pub spoils: Vec<Spoil>,
    /// Whether the links go by a list, and not by the seed.
    pub is_listed: bool,
}

impl Trouble {
    /// None: no call fails, and the links go by the seed.
    pub fn none(alloc: Global) -> Trouble {
        Trouble {
            most: 65536,
            fails: Vec::new(alloc),
            say_fails: Vec::new(alloc),
            put_fails: Vec::new(alloc),
            take_fails: Vec::new(alloc),
            picks: Vec::new(alloc),
            keeps: Vec::new(alloc),
            spoils: Vec::new(alloc),
            is_listed: false,
        }
    }
}

/// What a case has before a run, with the files that the program was given; the words of the run, and what is to
/// come of it.
#[derive(Drop)]
pub struct Scene<'a> {
    pub given: &'a [Named],
    pub lets: Vec<Named>,
    pub files: Vec<Named>,
    pub trouble: Trouble,
    pub words: Vec<String>,
    pub wanted: Wanted,
}

impl<'a> Scene<'a> {
    /// Nothing.
    pub fn empty(alloc: Global, given: &'a [Named]) -> Scene<'a> {
        Scene {
            given,
            lets: Vec::new(alloc),
            files: Vec::new(alloc),
            trouble: Trouble::none(alloc),
            words: Vec::new(alloc),
            wanted: Wanted::nothing(alloc, 0),
        }
    }

    /// Where names of bytes are looked for.
    pub fn names(&self) -> Names<'_> {
        Names {
            lets: self.lets.as_slice(),
            files: self.files.as_slice(),
            given: self.given,
        }
    }

    /// Takes away all that was made for a case: all but the first names, so many.
    pub fn clear(&mut self, alloc: Global, shared: usize) {
        self.lets.truncate(shared);
        self.files.clear();
        self.trouble = Trouble::none(alloc);
    }
}

// The call of a store that is to fail.
fn store_fail(call: Call, cursor: &mut Cursor<'_>) -> Fail {
    let nth = cursor.number();
    let keep = if call == Call::Append && cursor.eat(b" keep ") {
        cursor.number()
    } else {
        0
    };
    cursor.end();
    let keep = keep as usize;
    Fail { call, nth, keep }
}

// Adds a call of the store.
fn add_store_fail(call: Call, cursor: &mut Cursor<'_>, trouble: &mut Trouble) {
    let fail = store_fail(call, cursor);
    cursor.keep(trouble.fails.push(fail).is_ok());
}

// Adds a number that ends the line.
fn add_number(cursor: &mut Cursor<'_>, numbers: &mut Vec<u64>) {
    let number = cursor.last_number();
    cursor.keep(numbers.push(number).is_ok());
}

// Adds a number that ends the line, of a call on links.
fn add_link_fail(cursor: &mut Cursor<'_>, numbers: &mut Vec<u64>, is_listed: &mut bool) {
    *is_listed = true;
    add_number(cursor, numbers);
}

// Takes in a line `fail`, behind that word.
fn add_fail(cursor: &mut Cursor<'_>, trouble: &mut Trouble) {
    match cursor.keyword() {
        "read " => add_store_fail(Call::Read, cursor, trouble),
        "create " => add_store_fail(Call::Create, cursor, trouble),
        "append " => add_store_fail(Call::Append, cursor, trouble),
        "say " => add_number(cursor, &mut trouble.say_fails),
        "put " => add_link_fail(cursor, &mut trouble.put_fails, &mut trouble.is_listed),
        "take " => add_link_fail(cursor, &mut trouble.take_fails, &mut trouble.is_listed),
        _ => cursor.note("no such call fails"),
    }
}

// Takes in a line `reads`, behind that word.
fn set_most(cursor: &mut Cursor<'_>, trouble: &mut Trouble) {
    let most = cursor.last_number();
    cursor.want(most > 0, "a read that gives nothing");
    trouble.most = most as usize;
}

// Adds places so many times, and answers whether there was memory for them.
fn add_times(picks: &mut Vec<u32>, once: &[u32], times: u64) -> bool {
    let mut is_kept = true;
    for _time in 0..times {
        is_kept &= picks.extend_from_slice(once).is_ok();
    }
    is_kept
}

// Repeats a list of places.
fn repeat(alloc: Global, cursor: &mut Cursor<'_>, picks: &mut Vec<u32>) {
    let times = cursor.number();
    let is_small = times.saturating_mul(picks.len() as u64) <= MOST;
    cursor.want(is_small, "too many places");
    if is_small && let Ok(once) = Vec::from_slice(alloc, picks) {
        picks.clear();
        cursor.keep(add_times(picks, &once, times));
    }
}

// Takes in a line `order`, behind that word.
fn set_order(alloc: Global, cursor: &mut Cursor<'_>, picks: &mut Vec<u32>) {
    for _pick in 0..=cursor.rest().len() {
        let pick = cursor.number_up_to(MOST, "too great a place") as u32;
        cursor.keep(picks.push(pick).is_ok());
        if cursor.eat(b" * ") {
            repeat(alloc, cursor, picks);
            break;
        }
        if !cursor.eat(b" ") {
            break;
        }
    }
    cursor.end();
}

// Takes in a line `newest`.
fn set_newest(cursor: &mut Cursor<'_>, picks: &mut Vec<u32>) {
    cursor.keep(picks.resize(NEWEST, u32::MAX).is_ok());
}

// Adds the numbers of a range, and answers whether there was memory for them.
fn add_range(keeps: &mut Vec<u64>, first: u64, last: u64) -> bool {
    let mut is_kept = true;
    for number in first..=last.min(MOST) {
        is_kept &= keeps.push(number).is_ok();
    }
    is_kept
}

// Takes in a line `keep`, behind that word.
fn add_keeps(cursor: &mut Cursor<'_>, keeps: &mut Vec<u64>) {
    for _number in 0..=cursor.rest().len() {
        let first = cursor.number();
        let last = if cursor.eat(b"..") {
            cursor.number()
        } else {
            first
        };
        cursor.want(last <= MOST, "too many takes");
        cursor.keep(add_range(keeps, first, last));
        if !cursor.eat(b" ") {
            break;
        }
    }
    cursor.end();
}

// Takes in a line `spoil`, behind that word.
fn add_spoil(cursor: &mut Cursor<'_>, spoils: &mut Vec<Spoil>) {
    let nth = cursor.number();
    cursor.eat(b" ");
    let byte = cursor.number_up_to(127, NO_SPOIL) as u32;
    cursor.eat(b" ");
    let mask = cursor.number_up_to(255, NO_SPOIL) as u8;
    cursor.end();
    cursor.keep(spoils.push(Spoil { nth, byte, mask }).is_ok());
}

// Takes in a line on how the links go, behind its first word.
fn read_order(alloc: Global, word: &str, cursor: &mut Cursor<'_>, trouble: &mut Trouble) {
    trouble.is_listed = true;
    match word {
        "order " => set_order(alloc, cursor, &mut trouble.picks),
        "keep " => add_keeps(cursor, &mut trouble.keeps),
        "spoil " => add_spoil(cursor, &mut trouble.spoils),
        "oldest" => {}
        "newest" => set_newest(cursor, &mut trouble.picks),
        _ => cursor.note("no such line"),
    }
}

/// Takes in a line on what fails in the next run and how the links go, behind its first word.
pub fn read_trouble(alloc: Global, word: &str, cursor: &mut Cursor<'_>, trouble: &mut Trouble) {
    match word {
        "reads " => set_most(cursor, trouble),
        "fail " => add_fail(cursor, trouble),
        _ => read_order(alloc, word, cursor, trouble),
    }
}
