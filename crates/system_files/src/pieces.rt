//! Reads and writes, piece by piece, until all is done.
ghost use Rattle.std.specs.Prelude.{◌≡◌, ℕ, ◌<◌, ◌≤◌, length, take, drop, OnOk, OnErr, IfOk};
ghost use Rattle.std.specs.Io.KnownBytes.{Appends, Consumes, IsAtEnd, Keeps, ReadConsumes, WriteAppends};
ghost use Rattle.std.specs.Io.Seek.{MovesTo};

use std::io;
use std::io::{ErrorKind, Read, Seek, SeekFrom, Write};

/// How many bytes are read at a time.
const PIECE: usize = 65536;

/// Where no more are asked for, they come through a shorter piece, as a piece is cleared first.
const SHORT: usize = 16384;

/// How often a call that a signal interrupts is tried.
const TRIES: u32 = 1000;

/// Moves to a place, counted from the start.
pub fn move_to<F: Seek>(file: &mut F, at: u64) -> io::Result<()>
    ensures moves { MovesTo (F.stream_position file.old) (F.stream_position file.new) at result }
    ensures bytes { Keeps (F.stream_bytes file.old) (F.stream_bytes file.new) }
{
    file.seek(SeekFrom::Start(at))?;
    Ok(())
}

// Reads once, and again where a signal interrupts it.
fn read_once<F: Read>(file: &mut F, into: &mut [u8]) -> io::Result<usize>
    ensures count { IfOk result (λ n. n ≤ length into.old) }
    ensures bytes { ReadConsumes (F.remaining file.old) (F.remaining file.new) result into.new }
{
    for _ in 0..TRIES {
        match file.read(into) {
            Err(error) if error.kind() == ErrorKind::Interrupted => {}
            outcome => return outcome,
        }
    }
    Err(io::Error::from(ErrorKind::TimedOut))
}

// Reads through a piece to the front of a buffer. What stands behind it stays.
fn read_through<F: Read>(file: &mut F, piece: &mut [u8], into: &mut [u8]) -> io::Result<usize>
    requires { 0 < length piece.old }
    ensures count { IfOk result (λ n. n ≤ length into.old) }
    ensures rest { IfOk result (λ n. drop n into.new ≡ drop n into.old) }
    ensures bytes { IfOk result
        (λ n. Consumes (F.remaining file.old) (F.remaining file.new) (take n into.new)) }
    ensures end { IfOk result (λ n. n ≡ 0 → 0 < length into.old → IsAtEnd (F.remaining file.new)) }
{
    let room = into.len().min(piece.len());
    let count = read_once(file, &mut piece[..room])?;
    into[..count].copy_from_slice(&piece[..count]);
    Ok(count)
}

// Reads a piece to the front of a buffer. What stands behind it stays.
fn read_piece<F: Read>(file: &mut F, into: &mut [u8]) -> io::Result<usize>
    ensures count { IfOk result (λ n. n ≤ length into.old) }
    ensures rest { IfOk result (λ n. drop n into.new ≡ drop n into.old) }
    ensures bytes { IfOk result
        (λ n. Consumes (F.remaining file.old) (F.remaining file.new) (take n into.new)) }
    ensures end { IfOk result (λ n. n ≡ 0 → 0 < length into.old → IsAtEnd (F.remaining file.new)) }
{
    if into.len() <= SHORT {
        read_through(file, &mut [0; SHORT], into)
    } else {
        read_through(file, &mut [0; PIECE], into)
    }
}

/// Reads until the buffer is full or the reader is at its end, and answers how many bytes came.
pub fn read_full<F: Read>(file: &mut F, into: &mut [u8]) -> io::Result<usize>
    ensures count { IfOk result (λ n. n ≤ length into.old) }
    ensures rest { IfOk result (λ n. drop n into.new ≡ drop n into.old) }
    ensures bytes { IfOk result
        (λ n. Consumes (F.remaining file.old) (F.remaining file.new) (take n into.new)) }
    ensures end { IfOk result (λ n. n < length into.old → IsAtEnd (F.remaining file.new)) }
{
    let mut filled = 0;
    while filled < into.len() {
        let count = read_piece(file, &mut into[filled..])?;
        if count == 0 {
            break;
        }
        filled += count;
    }
    Ok(filled)
}

// Writes once, and again where a signal interrupts it.
fn write_once<F: Write>(file: &mut F, bytes: &[u8]) -> io::Result<usize>
    ensures count { IfOk result (λ n. n ≤ length bytes.now) }
    ensures bytes { WriteAppends (F.contents file.old) (F.contents file.new) result bytes.now }
{
    for _ in 0..TRIES {
        match file.write(bytes) {
            Err(error) if error.kind() == ErrorKind::Interrupted => {}
            outcome => return outcome,
        }
    }
    Err(io::Error::from(ErrorKind::TimedOut))
}

/// Writes all bytes, and flushes. Where it fails, a prefix of them was written.
pub fn write_full<F: Write>(file: &mut F, bytes: &[u8]) -> io::Result<()>
    ensures ok { OnOk result (Appends (F.contents file.old) (F.contents file.new) bytes.now) }
    ensures err { OnErr result
        ((n : ℕ) × Appends (F.contents file.old) (F.contents file.new) (take n bytes.now)) }
{
    let mut written = 0;
    while written < bytes.len() {
        let count = write_once(file, &bytes[written..])?;
        if count == 0 {
            return Err(io::Error::from(ErrorKind::WriteZero));
        }
        written += count;
    }
    file.flush()
}
