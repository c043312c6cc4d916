//! What no clause says: that all moves while there is room, and that all that was written is flushed.
ghost use Rattle.std.specs.Prelude.{◌≡◌, ◌≤◌, length, take, drop, IfOk};
ghost use Rattle.lif_outside.specs.Limits.{last_place};

use std::io;
use std::io::{Cursor, ErrorKind, Read, Write};
use system_files::handle::Handle;
use system_files::pieces::{read_full, write_full};

// Four bytes that move one by one. Before each of them calls are interrupted, and past the end a write fails.
#[derive(Drop)]
struct Slow {
    bytes: [u8; 4],
    at: usize,
    // How many calls are interrupted before each byte, and how many more before the next one.
    interrupts: u32,
    left: u32,
    flushes: u32,
    flush_fails: bool,
}

impl Slow {
    fn new(bytes: [u8; 4], interrupts: u32) -> Slow {
        Slow {
            bytes,
            at: 0,
            interrupts,
            left: interrupts,
            flushes: 0,
            flush_fails: false,
        }
    }

    fn turn(&mut self) -> io::Result<()> {
        if self.left > 0 {
            self.left -= 1;
            return Err(io::Error::from(ErrorKind::Interrupted));
        }
        self.left = self.interrupts;
        Ok(())
    }
}

impl Read for Slow {
    fn read(&mut self, buf: &mut [u8]) -> io::Result<usize> {
        self.turn()?;
        let (Some(byte), Some(first)) = (self.bytes.get(self.at), buf.first_mut()) else {
            return Ok(0);
        };
        *first = *byte;
        self.at += 1;
        Ok(1)
    }
}

impl Write for Slow {
    fn write(&mut self, buf: &[u8]) -> io::Result<usize> {
        self.turn()?;
        let (Some(place), Some(byte)) = (self.bytes.get_mut(self.at), buf.first()) else {
            return Err(io::Error::from(ErrorKind::StorageFull));
        };
        *place = *byte;
        self.at += 1;
        Ok(1)
    }

    fn flush(&mut self) -> io::Result<()> {
        self.flushes = self.flushes.saturating_add(1);
        if self.flush_fails {
            return Err(io::Error::from(ErrorKind::QuotaExceeded));
        }
        Ok(())
    }
}

// Why a write failed.
fn failure(outcome: io::Result<()>) -> Option<ErrorKind> {
    match outcome {
        Ok(()) => None,
        Err(error) => Some(error.kind()),
    }
}

// Whether a read fills its buffer, and one that comes to the end gives what is left.
fn reads_all(interrupts: u32) -> bool {
    let mut from = Slow::new(*b"abcd", interrupts);
    let mut into = *b".......";
    matches!(read_full(&mut from, &mut into[..3]), Ok(3))
        && matches!(read_full(&mut from, &mut into[3..]), Ok(1))
        && into == *b"abcd..."
}

// Whether each write that has room is whole and flushed, and one that comes to the end fails.
fn writes_all(interrupts: u32) -> bool {
    let mut to = Slow::new(*b"....", interrupts);
    write_full(&mut to, b"abc").is_ok()
        && (to.bytes, to.flushes) == (*b"abc.", 1)
        && write_full(&mut to, b"").is_ok()
        && to.flushes == 2
        && failure(write_full(&mut to, b"de")) == Some(ErrorKind::StorageFull)
        && to.bytes == *b"abcd"
}

// The first number of interrupted calls by which not all moves.
fn wrong_interrupts() -> Option<u32> {
    for interrupts in [0, 1, 5, 999] {
        if !reads_all(interrupts) || !writes_all(interrupts) {
            return Some(interrupts);
        }
    }
    None
}

#[test]
fn moves_all_by_pieces(rt: HostRuntime) {
    assert!(rt; wrong_interrupts().is_none());
}

// Whether a call that is interrupted a thousand times isn't tried again.
fn gives_up() -> bool {
    let mut slow = Slow::new(*b"abcd", 1000);
    let mut into = *b"....";
    failure(write_full(&mut slow, b"a")) == Some(ErrorKind::TimedOut)
        && slow.left == 0
        && matches!(read_full(&mut Slow::new(*b"abcd", 1000), &mut into), Err(error) if error.kind() == ErrorKind::TimedOut)
}

#[test]
fn interrupted_calls_are_tried_a_thousand_times(rt: HostRuntime) {
    assert!(rt; gives_up());
}

// Whether a flush that fails is told, once all is written.
fn is_told() -> bool {
    let mut to = Slow::new(*b"....", 0);
    to.flush_fails = true;
    failure(write_full(&mut to, b"ab")) == Some(ErrorKind::QuotaExceeded)
        && (to.bytes, to.flushes) == (*b"ab..", 1)
}

#[test]
fn a_flush_that_fails_is_told(rt: HostRuntime) {
    assert!(rt; is_told());
}

// Reads from memory, which tells its place and its bytes: those from the place on come.
fn read_in_memory(held: &[u8], at: u64, into: &mut [u8]) -> io::Result<usize>
    requires { at ≤ last_place }
    ensures { IfOk result (λ n. take n into.new ≡ take (length into.old) (drop at held.now)) }
{
    let mut file = Handle::opened(Cursor::new(held), false);
    let count = file.read_from(at, into)?;
    Ok(count)
}

fn are_read() -> bool {
    let mut into = *b"....";
    matches!(read_in_memory(b"abcdef", 3, &mut into), Ok(3)) && into == *b"def."
}

#[test]
fn bytes_in_memory_are_read(rt: HostRuntime) {
    assert!(rt; are_read());
}
