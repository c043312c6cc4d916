//! A source that is read for one window of blocks at a time.
ghost use Rattle.std.specs.Prelude.{◌≡◌, ◌⊎◌, ◌*◌, ◌<◌, ◌≤◌, false, true, IfErr, IfOk, OnErr, OnOk, length, vec_len};
ghost use Rattle.generation_frame.specs.Blocks.{capacity, most_blocks, most_rows};
ghost use Rattle.lif_outside.specs.Calls.{MakesCalls};
ghost use Rattle.lif_outside.specs.Limits.{last_place};

use crate::streaming::StreamFault;
use generation_frame::cap;
use lif_outside::Store;
use std::alloc::{AllocError, Global};
use top_base::read_next;

/// The greatest number of bytes that are asked for at a time.
pub(crate) const CHUNK: usize = 65536;

/// A source that is read for one window of blocks at a time.
#[derive(Drop)]
pub struct SourceReader<'p> {
    /// The path of its file.
    pub path: &'p str,
    /// The rate of its blocks.
    pub rate: u32,
    /// Room for the bytes of a window.
    pub bytes: Vec<u8>,
    /// How many bytes stand there that aren't carried yet, from the beginning on.
    pub held: usize,
    /// How many bytes were read in all.
    pub at: u64,
    /// Whether the file was read to its end.
    pub ended: bool,
    ghost held_there: { held ≤ vec_len bytes },
}

impl<'p> SourceReader<'p> {
    ghost use Rattle.source_delivery.specs.Reading.{IsSameReader, IsUnread, ReadsOn, StopsReadingOn};

    /// A reader of the file of a path, with room for so many blocks of a rate.
    pub(crate) fn new(
        alloc: Global,
        path: &'p str,
        rate: u32,
        window: usize,
    ) -> Result<SourceReader<'p>, AllocError>
        requires some_rate { 1 ≤ rate }
        requires low_rate { rate ≤ most_rows }
        requires few_blocks { window ≤ most_blocks }
        ensures path { IfOk result (λ reader. reader.path.now ≡ path.now) }
        ensures rate { IfOk result (λ reader. reader.rate ≡ rate) }
        ensures room { IfOk result
            (λ reader. length reader.bytes.items ≡ window * capacity rate) }
        ensures unread { IfOk result IsUnread }
    {
        let bytes = vec![in alloc; 0u8; window * cap(rate) as usize]?;
        Ok(SourceReader {
            path,
            rate,
            bytes,
            held: 0,
            at: 0,
            ended: false,
        })
    }

    // Reads once more, into the room that is left.
    fn read_more<S: Store>(&mut self, store: &mut S, limit: u64) -> Result<(), StreamFault>
        requires limit { limit < last_place }
        requires unended { self.old.ended ≡ false }
        requires room { self.old.held < length self.old.bytes.items }
        ensures same { IsSameReader self.old self.new }
        ensures read { OnOk result (MakesCalls S.Store store.old store.new
            (ReadsOn limit self.old self.new)) }
        ensures more { OnOk result ((self.new.ended ≡ true) ⊎ (self.old.held < self.new.held)) }
        ensures room { OnOk result
            (self.new.ended ≡ true → self.new.held < length self.new.bytes.items) }
        ensures stopped { IfErr result (λ why. MakesCalls S.Store store.old store.new
            (StopsReadingOn limit self.old why)) }
    {
        if self.at > limit {
            return Err(StreamFault::TooLong);
        }
        let end = self.bytes.len().min(self.held + CHUNK);
        match read_next(
            store,
            self.path,
            limit,
            self.at,
            &mut self.bytes[self.held..end],
        ) {
            Ok(0) => {
                self.ended = true;
                Ok(())
            }
            Ok(count) => {
                self.at += count as u64;
                self.held += count;
                Ok(())
            }
            Err(_) => Err(StreamFault::Read),
        }
    }

    /// Reads until a window is held, or the file has ended.
    pub(crate) fn fill<S: Store>(&mut self, store: &mut S, limit: u64) -> Result<(), StreamFault>
        requires limit { limit < last_place }
        requires room { self.old.ended ≡ true → self.old.held < length self.old.bytes.items }
        ensures same { IsSameReader self.old self.new }
        ensures read { OnOk result (MakesCalls S.Store store.old store.new
            (ReadsOn limit self.old self.new)) }
        ensures room { OnOk result
            (self.new.ended ≡ true → self.new.held < length self.new.bytes.items) }
        ensures full { OnOk result (self.new.ended ≡ false
            → self.new.held ≡ length self.new.bytes.items) }
        ensures stopped { IfErr result (λ why. MakesCalls S.Store store.old store.new
            (StopsReadingOn limit self.old why)) }
    {
        while !self.ended && self.held < self.bytes.len() {
            self.read_more(store, limit)?;
        }
        Ok(())
    }
}
