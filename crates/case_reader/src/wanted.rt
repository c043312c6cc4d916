//! What is to come of a run.
use crate::bytes::{Names, bytes_behind};
use crate::cursor::Cursor;
use lif_outside::Call;
use std::alloc::Global;

/// What is to stand at a path.
#[derive(Clone, Copy)]
pub enum Content {
    These,
    Any,
    NoFile,
}

/// A file that is told of, and in which line. It has bytes where these are to stand there.
#[derive(Drop)]
pub struct WantedFile {
    pub line: usize,
    pub path: Vec<u8>,
    pub content: Content,
    pub bytes: Vec<u8>,
}

/// Of what a number is told: calls on the store and on links, and what links were opened with.
#[derive(Clone, Copy)]
pub enum Number {
    OnStore(Call),
    /// 1 where any call was made on the links, and else 0.
    OnLinks,
    Opens,
    Seed,
    Room,
    Frames,
    FramesOn(u64),
    /// By the last bytes of the front of a frame.
    FramesOf([u8; 4]),
    Takes,
}

/// A number that is told, in which line, and what it is called.
#[derive(Clone, Copy)]
pub struct WantedNumber {
    pub line: usize,
    pub what: &'static str,
    pub of: Number,
    pub number: u64,
}

/// A frame that is told of, by its first bytes, and in which line.
#[derive(Drop)]
pub struct WantedFrame {
    pub line: usize,
    pub link: u32,
    pub front: [u8; 12],
    pub payload: Vec<u8>,
}

/// All that is to come of a run. Each part has its line.
#[derive(Drop)]
pub struct Wanted {
    pub run: usize,
    pub status: Option<(usize, u64)>,
    pub said: Vec<u8>,
    pub files: Vec<WantedFile>,
    pub numbers: Vec<WantedNumber>,
    pub frames: Vec<WantedFrame>,
}

impl Wanted {
    /// Nothing is said, no file is changed, and no status is told yet.
    pub fn nothing(alloc: Global, run: usize) -> Wanted {
        Wanted {
            run,
            status: None,
            said: Vec::new(alloc),
            files: Vec::new(alloc),
            numbers: Vec::new(alloc),
            frames: Vec::new(alloc),
        }
    }
}

// The words that begin a line which tells what is to come of a run.
const WORDS: &[&[u8]] = &[
    b"status",
    b"says",
    b"said",
    b"file",
    b"made",
    b"none",
    b"opened",
    b"frames",
    b"frame",
    b"takes",
    b"unopened",
    b"calls",
];

/// Whether a line tells what is to come of a run.
pub fn is_wanted(line: &[u8]) -> bool {
    let word = Cursor::of(line).until(b" ");
    for other in WORDS {
        if *other == word {
            return true;
        }
    }
    false
}

// Adds a status, of which a run has one.
fn add_status(line: usize, cursor: &mut Cursor<'_>, wanted: &mut Wanted) {
    let status = cursor.last_number();
    cursor.want(wanted.status.is_none(), "a second status");
    wanted.status = Some((line, status));
}

// Adds a line that is said.
fn add_line(cursor: &mut Cursor<'_>, said: &mut Vec<u8>) {
    cursor.keep(said.extend_from_slice(cursor.rest()).is_ok());
    cursor.keep(said.push(b'\n').is_ok());
}

// Adds a file, of which no bytes are told.
fn add_path(
    alloc: Global,
    line: usize,
    cursor: &mut Cursor<'_>,
    content: Content,
    files: &mut Vec<WantedFile>,
) {
    let file = WantedFile {
        line,
        path: cursor.word(alloc),
        content,
        bytes: Vec::new(alloc),
    };
    cursor.end();
    cursor.keep(files.push(file).is_ok());
}

// Adds a file with its bytes.
fn add_file(
    alloc: Global,
    names: Names<'_>,
    line: usize,
    cursor: &mut Cursor<'_>,
    files: &mut Vec<WantedFile>,
) {
    let file = WantedFile {
        line,
        path: cursor.word(alloc),
        content: Content::These,
        bytes: bytes_behind(alloc, names, cursor),
    };
    cursor.keep(files.push(file).is_ok());
}

// Adds a number.
fn add_number(
    line: usize,
    cursor: &mut Cursor<'_>,
    what: &'static str,
    of: Number,
    number: u64,
    numbers: &mut Vec<WantedNumber>,
) {
    let told = WantedNumber {
        line,
        what,
        of,
        number,
    };
    cursor.keep(numbers.push(told).is_ok());
}

// Adds the number and the room of a line `opened`.
fn add_opened(line: usize, cursor: &mut Cursor<'_>, numbers: &mut Vec<WantedNumber>) {
    let seed = cursor.number();
    let room = cursor.next_number();
    cursor.end();
    add_number(line, cursor, "opened", Number::Opens, 1, numbers);
    add_number(line, cursor, "seed", Number::Seed, seed, numbers);
    add_number(line, cursor, "room", Number::Room, room, numbers);
}

// Adds the count of a line `frames`.
fn add_frames(line: usize, cursor: &mut Cursor<'_>, numbers: &mut Vec<WantedNumber>) {
    let count = cursor.number();
    let (what, of) = if cursor.eat(b" on ") {
        ("frames on it", Number::FramesOn(cursor.number()))
    } else if cursor.eat(b" of ") {
        let most = u64::from(u32::MAX);
        let generation = cursor.number_up_to(most, "no generation has such a number") as u32;
        ("frames of it", Number::FramesOf(generation.to_be_bytes()))
    } else {
        ("frames", Number::Frames)
    };
    cursor.end();
    add_number(line, cursor, what, of, count, numbers);
}

// The call of a line `calls`.
fn store_call(cursor: &mut Cursor<'_>) -> Call {
    match cursor.keyword() {
        "read " => Call::Read,
        "create " => Call::Create,
        "append " => Call::Append,
        _ => {
            cursor.note("no such call");
            Call::Append
        }
    }
}

// Adds the count of a line `calls`.
fn add_calls(line: usize, cursor: &mut Cursor<'_>, numbers: &mut Vec<WantedNumber>) {
    let of = Number::OnStore(store_call(cursor));
    let count = cursor.last_number();
    add_number(line, cursor, "calls", of, count, numbers);
}

// Adds the count of a line `takes`.
fn add_takes(line: usize, cursor: &mut Cursor<'_>, numbers: &mut Vec<WantedNumber>) {
    let count = cursor.last_number();
    add_number(line, cursor, "takes", Number::Takes, count, numbers);
}

// Adds that no call was made on the links.
fn add_unopened(line: usize, cursor: &mut Cursor<'_>, numbers: &mut Vec<WantedNumber>) {
    let what = "a call was made on the links";
    add_number(line, cursor, what, Number::OnLinks, 0, numbers);
}

const NO_FRAME: &str = "no frame has such numbers";

// The first bytes of a frame.
fn front(link: u32, piece: u8, generation: u32) -> [u8; 12] {
    let mut front = [0x4c, 0x46, 1, piece, 0, 0, 0, 0, 0, 0, 0, 0];
    front[4..8].copy_from_slice(&link.to_be_bytes());
    front[8..].copy_from_slice(&generation.to_be_bytes());
    front
}

// The frame that a line `frame` tells of, with no payload yet.
fn frame_in(alloc: Global, line: usize, cursor: &mut Cursor<'_>) -> WantedFrame {
    let most = u64::from(u32::MAX);
    let link = cursor.number_up_to(most, NO_FRAME) as u32;
    cursor.eat(b" ");
    let piece = cursor.number_up_to(255, NO_FRAME) as u8;
    cursor.eat(b" ");
    let generation = cursor.number_up_to(most, NO_FRAME) as u32;
    WantedFrame {
        line,
        link,
        front: front(link, piece, generation),
        payload: Vec::new(alloc),
    }
}

// Adds the frame of a line, with zeros up to its whole payload.
fn add_frame(
    alloc: Global,
    names: Names<'_>,
    line: usize,
    cursor: &mut Cursor<'_>,
    frames: &mut Vec<WantedFrame>,
) {
    let mut frame = frame_in(alloc, line, cursor);
    frame.payload = bytes_behind(alloc, names, cursor);
    cursor.want(
        frame.payload.len() <= 128,
        "a payload of more than 128 bytes",
    );
    cursor.keep(frame.payload.resize(128, 0).is_ok());
    cursor.keep(frames.push(frame).is_ok());
}

// Takes in a line on calls, behind its first word, and answers whether it is one.
fn add_told(
    line: usize,
    word: &str,
    cursor: &mut Cursor<'_>,
    numbers: &mut Vec<WantedNumber>,
) -> bool {
    match word {
        "opened " => add_opened(line, cursor, numbers),
        "frames " => add_frames(line, cursor, numbers),
        "takes " => add_takes(line, cursor, numbers),
        "calls " => add_calls(line, cursor, numbers),
        "unopened" => add_unopened(line, cursor, numbers),
        _ => return false,
    }
    true
}

// Takes in a line on a file or a frame, behind its first word.
fn add_content(
    alloc: Global,
    names: Names<'_>,
    line: usize,
    word: &str,
    cursor: &mut Cursor<'_>,
    wanted: &mut Wanted,
) {
    match word {
        "file " => add_file(alloc, names, line, cursor, &mut wanted.files),
        "made " => add_path(alloc, line, cursor, Content::Any, &mut wanted.files),
        "none " => add_path(alloc, line, cursor, Content::NoFile, &mut wanted.files),
        "frame " => add_frame(alloc, names, line, cursor, &mut wanted.frames),
        _ => cursor.note("no such line"),
    }
}

// Takes in a line that tells what is to come, behind its first word.
fn add_by_word(
    alloc: Global,
    names: Names<'_>,
    line: usize,
    word: &str,
    cursor: &mut Cursor<'_>,
    wanted: &mut Wanted,
) {
    match word {
        "status " => add_status(line, cursor, wanted),
        "says " => add_line(cursor, &mut wanted.said),
        _ => {
            if !add_told(line, word, cursor, &mut wanted.numbers) {
                add_content(alloc, names, line, word, cursor, wanted);
            }
        }
    }
}

/// Takes in a line that tells what is to come, and answers what is wrong with it.
pub fn add_wanted(
    alloc: Global,
    names: Names<'_>,
    line: usize,
    text: &[u8],
    wanted: &mut Wanted,
) -> Option<&'static str> {
    let mut cursor = Cursor::of(text);
    if cursor.eat(b"said") {
        wanted.said = bytes_behind(alloc, names, &mut cursor);
    } else {
        let word = cursor.keyword();
        add_by_word(alloc, names, line, word, &mut cursor, wanted);
    }
    cursor.wrong()
}
