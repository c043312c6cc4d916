//! The lines of a case: in which order they may stand, and what they say up to the next run and behind it.
use crate::bytes::{Names, bytes_behind};
use crate::cursor::Cursor;
use crate::differences::Differences;
use crate::filling::fill_line;
use crate::loops::{is_loop, is_row, is_table};
use crate::named::{Named, add, remove};
use crate::scene::{Scene, Trouble, read_trouble};
use crate::wanted::{Wanted, add_wanted, is_wanted};
use std::alloc::Global;

/// Lines of a file, of which the first has this number.
#[derive(Clone, Copy)]
pub struct Lines<'a> {
    pub first: usize,
    pub lines: &'a [&'a [u8]],
}

impl<'a> Lines<'a> {
    /// Those behind the one at a place.
    pub fn behind(self, place: usize) -> Lines<'a> {
        let count = place.saturating_add(1);
        Lines {
            first: self.first.saturating_add(count),
            lines: self.lines.get(count..).unwrap_or_default(),
        }
    }
}

/// Whether a line says nothing.
pub fn is_empty(line: &[u8]) -> bool {
    line.is_empty() || line.starts_with(b"#")
}

// Takes in a line `let`, behind that word.
fn read_let(alloc: Global, cursor: &mut Cursor<'_>, scene: &mut Scene<'_>) {
    let name = cursor.word(alloc);
    let bytes = bytes_behind(alloc, scene.names(), cursor);
    cursor.keep(add(alloc, &mut scene.lets, &name, bytes));
}

// Takes in a line `given`, behind that word.
fn read_given(alloc: Global, cursor: &mut Cursor<'_>, scene: &mut Scene<'_>) {
    let path = cursor.word(alloc);
    let bytes = bytes_behind(alloc, scene.names(), cursor);
    remove(&mut scene.files, &path);
    cursor.keep(add(alloc, &mut scene.files, &path, bytes));
}

// Takes in a line `gone`, behind that word.
fn take_away(alloc: Global, cursor: &mut Cursor<'_>, scene: &mut Scene<'_>) {
    let path = cursor.word(alloc);
    cursor.end();
    remove(&mut scene.files, &path);
}

/// Takes in a line that stands before a run, and answers what is wrong with it.
pub fn read_setting(alloc: Global, line: &[u8], scene: &mut Scene<'_>) -> Option<&'static str> {
    let mut cursor = Cursor::of(line);
    match cursor.keyword() {
        "let " => read_let(alloc, &mut cursor, scene),
        "given " => read_given(alloc, &mut cursor, scene),
        "gone " => take_away(alloc, &mut cursor, scene),
        word => read_trouble(alloc, word, &mut cursor, &mut scene.trouble),
    }
    cursor.wrong()
}

// Adds a word that is text.
fn add_word(cursor: &mut Cursor<'_>, word: Vec<u8>, words: &mut Vec<String>) {
    match String::from_utf8(word) {
        Ok(word) => cursor.keep(words.push(word).is_ok()),
        Err(_) => cursor.note("a word that isn't text"),
    }
}

// Takes in a line `run`, and answers what is wrong with it.
fn read_words(alloc: Global, line: &[u8], words: &mut Vec<String>) -> Option<&'static str> {
    let mut cursor = Cursor::of(line);
    cursor.eat(b"run");
    for _word in 0..line.len() {
        if !cursor.eat(b" ") {
            break;
        }
        let word = cursor.word(alloc);
        add_word(&mut cursor, word, words);
    }
    cursor.end();
    cursor.wrong()
}

// Takes in a line that tells what is to come of a run, and answers what is wrong with it.
fn read_told(
    alloc: Global,
    line: &[u8],
    number: usize,
    values: &[Named],
    scene: &mut Scene<'_>,
) -> Option<&'static str> {
    let mut filled = Vec::new(alloc);
    match fill_line(alloc, line, values, &mut filled) {
        Some(why) => Some(why),
        None => {
            let names = Names {
                lets: &scene.lets,
                files: &scene.files,
                given: scene.given,
            };
            add_wanted(alloc, names, number, &filled, &mut scene.wanted)
        }
    }
}

// Takes in all that is to come of a run from the lines behind it, and answers whether it is understood.
fn read_wanted(
    alloc: Global,
    behind: Lines<'_>,
    values: &[Named],
    scene: &mut Scene<'_>,
    differences: &mut Differences<'_>,
) -> bool {
    for (offset, line) in behind.lines.iter().enumerate() {
        if is_wanted(line) {
            let number = behind.first.saturating_add(offset);
            let wrong = read_told(alloc, line, number, values, scene);
            if !differences.pass(number, wrong) {
                return false;
            }
        } else if !is_empty(line) {
            break;
        }
    }
    true
}

// Whether a line begins a run.
fn is_run(line: &[u8]) -> bool {
    line.starts_with(b"run ") || line.starts_with(b"run") && line.len() == 3
}

// What comes of a line.
#[derive(Clone, Copy)]
enum Read {
    /// It is taken in.
    Done,
    /// It is a run, and what is to come of it is taken in.
    Run,
    /// It isn't understood.
    Wrong,
}

// Takes in a run with what is told behind it, and answers whether it is understood.
fn read_run(
    alloc: Global,
    line: &[u8],
    behind: Lines<'_>,
    values: &[Named],
    scene: &mut Scene<'_>,
    differences: &mut Differences<'_>,
) -> bool {
    let number = behind.first.saturating_sub(1);
    scene.wanted = Wanted::nothing(alloc, number);
    scene.words.clear();
    let wrong = read_words(alloc, line, &mut scene.words);
    read_wanted(alloc, behind, values, scene, differences) && differences.pass(number, wrong)
}

// Takes in a line that is filled.
fn read_filled(
    alloc: Global,
    line: &[u8],
    behind: Lines<'_>,
    values: &[Named],
    scene: &mut Scene<'_>,
    differences: &mut Differences<'_>,
) -> Read {
    if is_run(line) {
        if read_run(alloc, line, behind, values, scene, differences) {
            Read::Run
        } else {
            Read::Wrong
        }
    } else {
        let wrong = read_setting(alloc, line, scene);
        if differences.pass(behind.first.saturating_sub(1), wrong) {
            Read::Done
        } else {
            Read::Wrong
        }
    }
}

// Takes in a line that isn't empty, isn't of a `for` and tells nothing of a run.
fn read_line(
    alloc: Global,
    line: &[u8],
    behind: Lines<'_>,
    values: &[Named],
    scene: &mut Scene<'_>,
    differences: &mut Differences<'_>,
) -> Read {
    let mut filled = Vec::new(alloc);
    let wrong = fill_line(alloc, line, values, &mut filled);
    if differences.pass(behind.first.saturating_sub(1), wrong) {
        read_filled(alloc, &filled, behind, values, scene, differences)
    } else {
        Read::Wrong
    }
}

// What a line of a case is for.
#[derive(Clone, Copy)]
enum Kind {
    Nothing,
    Row,
    Loop,
    Wanted,
    Run,
    Setting,
}

fn kind_of(line: &[u8]) -> Kind {
    if is_row(line) {
        Kind::Row
    } else if is_empty(line) {
        Kind::Nothing
    } else if is_loop(line) {
        Kind::Loop
    } else if is_wanted(line) {
        Kind::Wanted
    } else if is_run(line) {
        Kind::Run
    } else {
        Kind::Setting
    }
}

// Why a line stands where none of its kind may.
fn misplaced(kind: Kind, is_in_table: bool, is_behind_run: bool) -> Option<&'static str> {
    match kind {
        Kind::Row if !is_in_table => Some("a row of no table"),
        Kind::Wanted if !is_behind_run => Some("no run stands before it"),
        _ => None,
    }
}

/// Whether each line of a case stands where it may, and one is a run.
pub fn is_in_order(case: Lines<'_>, differences: &mut Differences<'_>) -> bool {
    let (mut is_behind_run, mut has_run, mut is_in_table) = (false, false, false);
    for (offset, line) in case.lines.iter().enumerate() {
        let kind = kind_of(line);
        let wrong = misplaced(kind, is_in_table, is_behind_run);
        if !differences.pass(case.first.saturating_add(offset), wrong) {
            return false;
        }
        let is_run = matches!(kind, Kind::Run);
        has_run |= is_run;
        is_behind_run = is_run || is_behind_run && !matches!(kind, Kind::Setting);
        is_in_table = matches!(kind, Kind::Row) || is_table(line);
    }
    differences.want(has_run, case.first, "a case without a run");
    has_run
}

/// Takes in lines up to the next run and what is told behind it, and goes past it. It answers whether there is one and all
/// is understood.
pub fn read_on(
    alloc: Global,
    lines: &mut Lines<'_>,
    values: &[Named],
    scene: &mut Scene<'_>,
    differences: &mut Differences<'_>,
) -> bool {
    let left = *lines;
    for (place, line) in left.lines.iter().enumerate() {
        if matches!(kind_of(line), Kind::Run | Kind::Setting) {
            *lines = left.behind(place);
            match read_line(alloc, line, *lines, values, scene, differences) {
                Read::Done => {}
                Read::Run => return true,
                Read::Wrong => return false,
            }
        }
    }
    false
}

/// Keeps the files that stand there behind a run. No call fails then, and links go by the seed.
pub fn settle(alloc: Global, files: Vec<Named>, scene: &mut Scene<'_>) {
    scene.files = files;
    scene.trouble = Trouble::none(alloc);
}
