//! What a system holds in memory: its files, and the numbers of those that are open.
ghost use Rattle.std.specs.Prelude.{◌≤◌, length, IfOk, IsErr};

use std::alloc::{AllocError, Global};
use std::cell::{Cell, RefCell};
use std::fs::{Metadata, OpenOptions};
use std::io;
use std::io::ErrorKind;

// A read or a write moves at most so many bytes.
const AT_ONCE: usize = 1500;

// What the system answers where it has no handle left.
const NO_HANDLE: i32 = 24;

/// The path of the folder that all files lie in.
pub const ROOT: &str = "/";

// The number of standard output.
const OUTPUT: usize = 1;

// A file by its path.
#[derive(Drop)]
struct Held {
    path: String,
    bytes: Vec<u8>,
    kind: Kind,
}

#[derive(Clone, Copy, PartialEq, Eq)]
enum Kind {
    Regular,
    // It can't be moved in, and be opened once.
    Pipe,
    OpenedPipe,
}

// What has the number of an open file.
#[derive(Clone, Copy)]
enum Holder {
    // Standard input, output or error.
    Stream,
    // What is open for reads.
    Reader,
    // A file that is open for appends, by its place.
    Writer(usize),
}

/// What the handles of a system share. The calls are numbered from 1 on, in order.
#[derive(Drop)]
pub struct Memory {
    alloc: Global,
    held: RefCell<Vec<Held>>,
    calls: Cell<u64>,
    failing: u64,
    // Whether a call has failed, and whether more than files being closed came behind it.
    failed: Cell<bool>,
    went_on: Cell<bool>,
    numbers: RefCell<Vec<Option<Holder>>>,
    said: RefCell<Vec<u8>>,
}

fn busy<T>() -> io::Result<T>
    ensures { IsErr result }
{
    Err(io::Error::from(ErrorKind::ResourceBusy))
}

fn missing<T>() -> io::Result<T>
    ensures { IsErr result }
{
    Err(io::Error::from(ErrorKind::NotFound))
}

fn unsupported<T>() -> io::Result<T>
    ensures { IsErr result }
{
    Err(io::Error::from(ErrorKind::Unsupported))
}

// The numbers of standard input, output and error, and so many that are free.
fn numbers(alloc: Global, free: usize) -> Result<Vec<Option<Holder>>, AllocError> {
    let mut numbers = Vec::new(alloc);
    for _ in 0..3 {
        numbers.push(Some(Holder::Stream))?;
    }
    for _ in 0..free {
        numbers.push(None)?;
    }
    Ok(numbers)
}

impl Memory {
    /// No files. The call of this number fails, where it is made, and at most so many files are open at once.
    pub fn new(alloc: Global, failing: u64, most_open: usize) -> Result<Memory, AllocError> {
        Ok(Memory {
            alloc,
            held: RefCell::new(Vec::new(alloc)),
            calls: Cell::new(0),
            failing,
            failed: Cell::new(false),
            went_on: Cell::new(false),
            numbers: RefCell::new(numbers(alloc, most_open)?),
            said: RefCell::new(Vec::new(alloc)),
        })
    }

    /// What memory is asked of.
    pub fn allocator(&self) -> Global {
        self.alloc
    }

    /// How many calls were made.
    pub fn calls(&self) -> u64 {
        self.calls.get()
    }

    /// Whether a call was made behind one that failed, other than that a file was closed.
    pub fn went_on(&self) -> bool {
        self.went_on.get()
    }

    // Counts a call, and answers whether it is the one that fails.
    fn count(&self) -> bool {
        let turn = self.calls.get().saturating_add(1);
        self.calls.set(turn);
        turn == self.failing
    }

    /// Counts a call, which may be the one that fails.
    pub fn turn(&self) -> io::Result<()> {
        if self.failed.get() {
            self.went_on.set(true);
        }
        if self.count() {
            self.failed.set(true);
            return Err(io::Error::from(ErrorKind::Other));
        }
        Ok(())
    }

    // The number of the file of a path.
    fn place_of(&self, path: &str) -> io::Result<usize> {
        let Ok(held) = self.held.try_borrow() else {
            return busy();
        };
        match held.iter().position(|file| file.path.as_str() == path) {
            Some(place) => Ok(place),
            None => missing(),
        }
    }

    // Adds a file of a path.
    fn add_file(&self, path: &str, bytes: &[u8], kind: Kind) -> io::Result<()> {
        let file = Held {
            path: String::from_str(self.alloc, path)?,
            bytes: bytes.to_vec(self.alloc)?,
            kind,
        };
        let Ok(mut held) = self.held.try_borrow_mut() else {
            return busy();
        };
        held.push(file)?;
        Ok(())
    }

    /// Puts a file of these bytes there, where none is.
    pub fn put(&self, path: &str, bytes: &[u8]) -> io::Result<()> {
        self.add_file(path, bytes, Kind::Regular)
    }

    /// Puts a pipe there that gives these bytes, where none is.
    pub fn put_pipe(&self, path: &str, bytes: &[u8]) -> io::Result<()> {
        self.add_file(path, bytes, Kind::Pipe)
    }

    /// Whether a file is there and holds the front of these bytes, or all.
    pub fn holds(&self, path: &str, bytes: &[u8], whole: bool) -> bool {
        let Ok(held) = self.held.try_borrow() else {
            return false;
        };
        let Some(file) = held.iter().find(|file| file.path.as_str() == path) else {
            return !whole;
        };
        let found = file.bytes.as_slice();
        if whole {
            found == bytes
        } else {
            bytes.starts_with(found)
        }
    }

    /// Makes a file of so many bytes: only none.
    pub fn empty(&self, place: usize, length: u64) -> io::Result<()> {
        let Ok(mut held) = self.held.try_borrow_mut() else {
            return busy();
        };
        match held.get_mut(place) {
            Some(file) if length == 0 && file.kind == Kind::Regular => {
                file.bytes.clear();
                Ok(())
            }
            _ => unsupported(),
        }
    }

    /// Adds the front of some bytes to a file, and answers how many.
    pub fn add(&self, place: usize, bytes: &[u8]) -> io::Result<usize>
        ensures { IfOk result (λ n. n ≤ length bytes.now) }
    {
        let count = bytes.len().min(AT_ONCE);
        let Ok(mut held) = self.held.try_borrow_mut() else {
            return busy();
        };
        let Some(file) = held.get_mut(place) else {
            return missing();
        };
        file.bytes.extend_from_slice(&bytes[..count])?;
        Ok(count)
    }

    /// Copies bytes of a file from a place on, and answers how many.
    pub fn copy(&self, place: usize, at: usize, into: &mut [u8]) -> io::Result<usize>
        ensures { IfOk result (λ n. n ≤ length into.old) }
    {
        let Ok(held) = self.held.try_borrow() else {
            return busy();
        };
        let Some(rest) = held.get(place).and_then(|file| file.bytes.get(at..)) else {
            return Ok(0);
        };
        let count = rest.len().min(into.len()).min(AT_ONCE);
        into[..count].copy_from_slice(&rest[..count]);
        Ok(count)
    }

    // What kind of file it is, and how long.
    fn kind_of(&self, place: usize) -> io::Result<(Kind, usize)> {
        let Ok(held) = self.held.try_borrow() else {
            return busy();
        };
        match held.get(place) {
            Some(file) => Ok((file.kind, file.bytes.len())),
            None => missing(),
        }
    }

    /// What is told of a file: of a pipe that it is no regular one.
    pub fn metadata(&self, place: usize) -> io::Result<Metadata> {
        match self.kind_of(place)? {
            (Kind::Regular, length) => Ok(Metadata::of_file(length as u64)),
            _ => Ok(Metadata::of_symlink(0)),
        }
    }

    /// Whether a file can be moved in.
    pub fn is_regular(&self, place: usize) -> bool {
        matches!(self.kind_of(place), Ok((Kind::Regular, _)))
    }

    // Notes that a file is opened. A pipe is once.
    fn note_opened(&self, place: usize) -> io::Result<()> {
        let Ok(mut held) = self.held.try_borrow_mut() else {
            return busy();
        };
        let Some(file) = held.get_mut(place) else {
            return missing();
        };
        match file.kind {
            Kind::Regular => Ok(()),
            Kind::Pipe => {
                file.kind = Kind::OpenedPipe;
                Ok(())
            }
            Kind::OpenedPipe => Err(io::Error::from(ErrorKind::BrokenPipe)),
        }
    }

    // The place of the file of a path, which is made where it is asked for and none is.
    fn place_by(&self, how: &OpenOptions, path: &str) -> io::Result<usize> {
        if how.asks_create() && self.place_of(path).is_err() {
            self.put(path, &[])?;
        }
        let place = self.place_of(path)?;
        if how.asks_truncate() {
            self.empty(place, 0)?;
        }
        self.note_opened(place)?;
        Ok(place)
    }

    // The least number that is free.
    fn free_number(&self) -> io::Result<usize> {
        let Ok(numbers) = self.numbers.try_borrow() else {
            return busy();
        };
        match numbers.iter().position(|holder| holder.is_none()) {
            Some(number) => Ok(number),
            None => Err(io::Error::from_raw_os_error(NO_HANDLE)),
        }
    }

    // Says what has a number.
    fn set_number(&self, number: usize, holder: Option<Holder>) -> io::Result<()> {
        let Ok(mut numbers) = self.numbers.try_borrow_mut() else {
            return busy();
        };
        match numbers.get_mut(number) {
            Some(entry) => {
                *entry = holder;
                Ok(())
            }
            None => missing(),
        }
    }

    /// Opens the file of a path, and answers its number and its place; the folder has none.
    pub fn open(&self, how: &OpenOptions, path: &str) -> io::Result<(usize, Option<usize>)> {
        let number = self.free_number()?;
        if path == ROOT {
            self.set_number(number, Some(Holder::Reader))?;
            return Ok((number, None));
        }
        let place = self.place_by(how, path)?;
        let holder = if how.asks_append() {
            Holder::Writer(place)
        } else {
            Holder::Reader
        };
        self.set_number(number, Some(holder))?;
        Ok((number, Some(place)))
    }

    /// Counts a file that is closed, or one of the standard streams. Nobody is told where that fails.
    pub fn close(&self, number: usize) {
        let _fails = self.count();
        let _closed = self.set_number(number, None);
    }

    // What has the number of standard output.
    fn output(&self) -> io::Result<Option<Holder>> {
        let Ok(numbers) = self.numbers.try_borrow() else {
            return busy();
        };
        match numbers.get(OUTPUT) {
            Some(holder) => Ok(*holder),
            None => Ok(None),
        }
    }

    // Adds bytes to what was said.
    fn add_said(&self, bytes: &[u8]) -> io::Result<usize>
        ensures { IfOk result (λ n. n ≤ length bytes.now) }
    {
        let count = bytes.len().min(AT_ONCE);
        let Ok(mut said) = self.said.try_borrow_mut() else {
            return busy();
        };
        said.extend_from_slice(&bytes[..count])?;
        Ok(count)
    }

    /// Puts the front of some bytes on standard output, or on what has its number, and answers how many.
    pub fn say(&self, bytes: &[u8]) -> io::Result<usize>
        ensures { IfOk result (λ n. n ≤ length bytes.now) }
    {
        match self.output()? {
            Some(Holder::Stream) => self.add_said(bytes),
            Some(Holder::Writer(place)) => self.add(place, bytes),
            _ => unsupported(),
        }
    }

    /// Whether these bytes were said.
    pub fn has_said(&self, bytes: &[u8]) -> bool {
        match self.said.try_borrow() {
            Ok(said) => said.as_slice() == bytes,
            Err(_) => false,
        }
    }
}
