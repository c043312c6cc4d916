//! Files of cases: each case goes for all that its lines `for` say.
use crate::steps::go;
use case_reader::cursor::{Cursor, NO_MEMORY};
use case_reader::differences::{Differences, Place};
use case_reader::loops::{Bound, bind_all, first_turns, go_on_before};
use case_reader::named::Named;
use case_reader::reading::{Lines, is_empty, read_setting};
use case_reader::scene::Scene;
use case_reader::tally::Tally;
use std::alloc::Global;
use std::thread::Threads;

/// A case: its file, its name and its lines.
#[derive(Clone, Copy)]
struct Case<'a> {
    file: &'a str,
    name: &'a [u8],
    lines: Lines<'a>,
}

// How often lines `for` may go, and end one behind the other.
const MOST_TURNS: u64 = 100_000_000;

// A case goes for these values. What was made for it is taken away then.
fn go_once<R: Threads + Sync>(
    rt: &R,
    alloc: Global,
    case: Case<'_>,
    values: &[Named],
    scene: &mut Scene<'_>,
    tally: &mut Tally,
) {
    let place = Place {
        file: case.file,
        case: case.name,
        values,
    };
    let mut differences = Differences::none(alloc, place);
    let shared = scene.lets.len();
    go(rt, alloc, case.lines, values, scene, &mut differences);
    scene.clear(alloc, shared);
    tally.add(&differences);
}

// Goes by all values of a case, from these turns on, and answers why it can't.
fn go_by_values<R: Threads + Sync>(
    rt: &R,
    alloc: Global,
    case: Case<'_>,
    scene: &mut Scene<'_>,
    tally: &mut Tally,
    turns: &mut [u64],
    values: &mut Vec<Named>,
) -> Option<&'static str> {
    for _turn in 0..MOST_TURNS {
        values.clear();
        let (level, bound) = bind_all(alloc, case.lines.lines, turns, values);
        match bound {
            Bound::Done => go_once(rt, alloc, case, values, scene, tally),
            Bound::Past => {}
            Bound::Wrong(why) => return Some(why),
        }
        if !go_on_before(turns, level) {
            return None;
        }
    }
    None
}

// The same from the first on.
fn go_from_first<R: Threads + Sync>(
    rt: &R,
    alloc: Global,
    case: Case<'_>,
    scene: &mut Scene<'_>,
    tally: &mut Tally,
) -> Option<&'static str> {
    let mut values = Vec::new(alloc);
    match first_turns(alloc, case.lines.lines) {
        Some(mut turns) => go_by_values(rt, alloc, case, scene, tally, &mut turns, &mut values),
        None => Some(NO_MEMORY),
    }
}

// Says that something of a file isn't understood, and counts it as a case that differs.
fn tell(alloc: Global, file: &str, name: &[u8], line: usize, why: &str, tally: &mut Tally) {
    let place = Place {
        file,
        case: name,
        values: &[],
    };
    let mut differences = Differences::none(alloc, place);
    differences.tell(line, why);
    tally.add(&differences);
}

// Goes by a case. One that goes for nothing isn't understood.
fn go_by_case<R: Threads + Sync>(
    rt: &R,
    alloc: Global,
    case: Case<'_>,
    scene: &mut Scene<'_>,
    tally: &mut Tally,
) {
    let before = tally.cases;
    let wrong = go_from_first(rt, alloc, case, scene, tally);
    let nothing = (tally.cases == before).then_some("a case that goes for nothing");
    if let Some(why) = wrong.or(nothing) {
        tell(alloc, case.file, case.name, case.lines.first, why, tally);
    }
}

// The name of the case that a line begins.
fn name_of<'a>(line: &'a [u8]) -> Option<&'a [u8]> {
    line.strip_prefix(b"case ")
}

// The lines before the next that begins a case.
fn up_to_case(lines: Lines<'_>) -> Lines<'_> {
    let mut count = 0usize;
    for line in lines.lines {
        if name_of(line).is_some() {
            break;
        }
        count = count.saturating_add(1);
    }
    Lines {
        first: lines.first,
        lines: lines.lines.get(..count).unwrap_or_default(),
    }
}

// Takes in a line before the first case, and answers what is wrong with it.
fn read_shared(alloc: Global, line: &[u8], scene: &mut Scene<'_>) -> Option<&'static str> {
    if is_empty(line) {
        None
    } else if line.starts_with(b"let ") {
        read_setting(alloc, line, scene)
    } else {
        Some("no case begins before it")
    }
}

// Takes in the lines before the first case: names that hold in all of them. It answers what is wrong, and in which line.
fn read_front(
    alloc: Global,
    front: Lines<'_>,
    scene: &mut Scene<'_>,
) -> Option<(usize, &'static str)> {
    for (offset, line) in front.lines.iter().enumerate() {
        if let Some(why) = read_shared(alloc, line, scene) {
            return Some((front.first.saturating_add(offset), why));
        }
    }
    None
}

// Goes by the cases of lines, behind the front.
fn go_by_cases<R: Threads + Sync>(
    rt: &R,
    alloc: Global,
    file: &str,
    all: Lines<'_>,
    scene: &mut Scene<'_>,
    tally: &mut Tally,
) {
    for (place, line) in all.lines.iter().enumerate() {
        if let Some(name) = name_of(line) {
            let lines = up_to_case(all.behind(place));
            go_by_case(rt, alloc, Case { file, name, lines }, scene, tally);
        }
    }
}

// Goes by all lines of a file, over a scene with nothing.
fn go_by_lines<R: Threads + Sync>(
    rt: &R,
    alloc: Global,
    file: &str,
    all: Lines<'_>,
    scene: &mut Scene<'_>,
    tally: &mut Tally,
) {
    match read_front(alloc, up_to_case(all), scene) {
        Some((line, why)) => tell(alloc, file, b"", line, why, tally),
        None => go_by_cases(rt, alloc, file, all, scene, tally),
    }
    if tally.cases == 0 {
        tell(alloc, file, b"", 1, "a file without a case", tally);
    }
}

// The lines of a text, or nothing where there was no memory.
fn lines_of(alloc: Global, text: &[u8]) -> Option<Vec<&[u8]>> {
    let mut lines = Vec::new(alloc);
    let mut cursor = Cursor::of(text);
    let mut are_kept = true;
    for _line in 0..=text.len() {
        are_kept &= lines.push(cursor.until(b"\n")).is_ok();
        if !cursor.eat(b"\n") {
            break;
        }
    }
    are_kept.then_some(lines)
}

/// Goes by all cases of the text of a file, over the files that the program was given, and counts them.
pub fn go_by_text<R: Threads + Sync>(
    rt: &R,
    alloc: Global,
    file: &str,
    text: &[u8],
    given: &[Named],
    tally: &mut Tally,
) {
    match lines_of(alloc, text) {
        Some(lines) => {
            let all = Lines {
                first: 1,
                lines: &lines,
            };
            let mut scene = Scene::empty(alloc, given);
            go_by_lines(rt, alloc, file, all, &mut scene, tally);
        }
        None => tell(alloc, file, b"", 0, NO_MEMORY, tally),
    }
}
