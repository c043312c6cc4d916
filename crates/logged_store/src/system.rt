//! A system whose files lie in memory, of which one call fails, and which has handles for so many files.
use crate::memory::Memory;
use std::alloc::{AllocError, Allocator, Global};
use std::fmt::Display;
use std::fs::{Metadata, OpenFile, OpenOptions};
use std::io;
use std::io::{Empty, ErrorKind, Print, Read, Seek, SeekFrom, Write};
use std::os::fd::{AsRawFd, RawFd};
use std::rc::Rc;
use std::rt::Files;
use system_files::{GivesWords, Words};

/// The system. It tells the words that it gives.
#[derive(Drop)]
pub struct MemFiles {
    memory: Rc<Memory>,
    words: Vec<String>,
}

impl MemFiles {
    /// No files. The call of this number fails, where it is made, and at most so many files are open at once, beside
    /// standard input, output and error.
    pub fn new(alloc: Global, failing: u64, most_open: usize) -> Result<MemFiles, AllocError> {
        let memory = Memory::new(alloc, failing, most_open)?;
        Ok(MemFiles {
            memory: Rc::new(alloc, memory)?,
            words: Vec::new(alloc),
        })
    }

    /// Adds a word to those that it gives. That is no call.
    pub fn add_word(&mut self, word: &str) -> Result<(), AllocError> {
        let word = String::from_str(self.memory.allocator(), word)?;
        self.words.push(word)?;
        Ok(())
    }

    /// Puts a file of these bytes there, where none is. That is no call.
    pub fn put(&self, path: &str, bytes: &[u8]) -> io::Result<()> {
        self.memory.put(path, bytes)
    }

    /// Puts a pipe there that gives these bytes, where none is: it can't be moved in, and be opened once. That is no
    /// call.
    pub fn put_pipe(&self, path: &str, bytes: &[u8]) -> io::Result<()> {
        self.memory.put_pipe(path, bytes)
    }

    /// Closes standard input, output or error, by its number.
    pub fn close_standard(&self, number: usize) {
        self.memory.close(number);
    }

    /// Whether a file is there and holds the front of these bytes, or all.
    pub fn holds(&self, path: &str, bytes: &[u8], whole: bool) -> bool {
        self.memory.holds(path, bytes, whole)
    }

    /// Whether these bytes came to standard output.
    pub fn has_said(&self, bytes: &[u8]) -> bool {
        self.memory.has_said(bytes)
    }

    /// Whether a file was opened, looked at, emptied, moved in, read, written or flushed behind a call that failed.
    pub fn went_on(&self) -> bool {
        self.memory.went_on()
    }

    /// How many calls were made.
    pub fn calls(&self) -> u64 {
        self.memory.calls()
    }
}

/// An open file. Bytes that are written go to its end.
pub struct MemFile {
    memory: Rc<Memory>,
    number: usize,
    // The folder has none.
    place: Option<usize>,
    // Whether it is open for appends, and not for reads.
    appends: bool,
    at: usize,
}

impl Drop for MemFile {
    fn drop(self) {
        let MemFile {
            memory,
            number,
            place: _,
            appends: _,
            at: _,
        } = self;
        memory.close(number);
    }
}

fn unsupported<T>() -> io::Result<T> {
    Err(io::Error::from(ErrorKind::Unsupported))
}

impl MemFile {
    // The place of the file, once the call is counted.
    fn place(&self) -> io::Result<usize> {
        self.memory.turn()?;
        match self.place {
            Some(place) => Ok(place),
            None => Err(io::Error::from(ErrorKind::IsADirectory)),
        }
    }

    // The same, where the file is open for appends, or for reads.
    fn place_for(&self, appends: bool) -> io::Result<usize> {
        let place = self.place()?;
        if self.appends == appends {
            Ok(place)
        } else {
            Err(io::Error::from(ErrorKind::PermissionDenied))
        }
    }
}

impl Read for MemFile {
    fn read(&mut self, buf: &mut [u8]) -> io::Result<usize> {
        let place = self.place_for(false)?;
        let count = self.memory.copy(place, self.at, buf)?;
        self.at = self.at.saturating_add(count);
        Ok(count)
    }
}

impl Write for MemFile {
    fn write(&mut self, buf: &[u8]) -> io::Result<usize> {
        let place = self.place_for(true)?;
        self.memory.add(place, buf)
    }

    fn flush(&mut self) -> io::Result<()> {
        self.memory.turn()
    }
}

impl Seek for MemFile {
    fn seek(&mut self, to: SeekFrom) -> io::Result<u64> {
        let place = self.place()?;
        match to {
            SeekFrom::Start(at) if self.memory.is_regular(place) => {
                self.at = at as usize;
                Ok(at)
            }
            _ => unsupported(),
        }
    }
}

impl OpenFile for MemFile {
    fn metadata(&self) -> io::Result<Metadata> {
        let place = self.place()?;
        self.memory.metadata(place)
    }

    fn set_len(&self, size: u64) -> io::Result<()> {
        let place = self.place_for(true)?;
        self.memory.empty(place, size)
    }

    fn sync_all(&self) -> io::Result<()> {
        unsupported()
    }

    fn sync_data(&self) -> io::Result<()> {
        unsupported()
    }
}

impl AsRawFd for MemFile {
    fn as_raw_fd(&self) -> RawFd {
        self.number.min(1_000_000) as i32
    }
}

impl Files for MemFiles {
    type File = MemFile;

    type Dir = Empty;

    fn open_file(&self, how: &OpenOptions, path: &str) -> io::Result<MemFile> {
        self.memory.turn()?;
        let memory = self.memory.clone()?;
        let (number, place) = memory.open(how, path)?;
        Ok(MemFile {
            memory,
            number,
            place,
            appends: how.asks_append(),
            at: 0,
        })
    }

    fn open_dir(&self, _path: &str) -> io::Result<Empty> {
        unsupported()
    }

    fn metadata(&self, _path: &str) -> io::Result<Metadata> {
        unsupported()
    }

    fn symlink_metadata(&self, _path: &str) -> io::Result<Metadata> {
        unsupported()
    }

    fn copy(&self, _from: &str, _to: &str) -> io::Result<u64> {
        unsupported()
    }

    fn rename(&self, _from: &str, _to: &str) -> io::Result<()> {
        unsupported()
    }

    fn remove_file(&self, _path: &str) -> io::Result<()> {
        unsupported()
    }

    fn create_dir(&self, _path: &str) -> io::Result<()> {
        unsupported()
    }

    fn remove_dir(&self, _path: &str) -> io::Result<()> {
        unsupported()
    }

    fn remove_dir_all<B: Allocator>(&self, _alloc: B, _path: &str) -> io::Result<()> {
        unsupported()
    }
}

/// What is printed comes to standard output, some bytes at a time.
impl Print for MemFiles {
    fn print<D: Display + Drop>(&self, _value: D) -> io::Result<()> {
        unsupported()
    }

    fn println<D: Display + Drop>(&self, _value: D) -> io::Result<()> {
        unsupported()
    }

    fn write_all(&self, _bytes: &[u8]) -> io::Result<()> {
        unsupported()
    }

    fn write_some(&self, bytes: &[u8]) -> io::Result<usize> {
        self.memory.turn()?;
        self.memory.say(bytes)
    }
}

impl GivesWords for MemFiles {
    ghost use Rattle.std.specs.Prelude.{Some, map, string_bytes};

    ghost told = { λ system. Some (map string_bytes system.words.items) };

    fn given_words(&self) -> Words {
        match self.words.clone() {
            Ok(words) => Words::Given(words),
            Err(_) => Words::NoMemory,
        }
    }
}

impl Alloc for MemFiles {
    type A = Global;

    fn alloc(&self) -> Global {
        self.memory.allocator()
    }
}
