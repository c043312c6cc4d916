//! A source whose file is read while its blocks become turns.
ghost use Rattle.std.specs.Prelude.{◌≡◌, ◌≤◌, ◌<◌, ◌+◌, ◌*◌, ◌/◌, ◌^◌, ◌∷◌, [], ℕ, List, Contains, IfOk, OnErr, OnOk, slice_range, take, vec_len};
ghost use Rattle.generation_frame.specs.Blocks.{capacity, most_rows, row_bytes};
ghost use Rattle.lif_outside.specs.Calls.{MakesCalls};
ghost use Rattle.lif_outside.specs.FileCalls.{StopsWithin, appends_of};
ghost use Rattle.lif_outside.specs.Limits.{last_place};
ghost use Rattle.lif_outside.specs.Sequences.{Are};
ghost use Rattle.source_turns.specs.Feeding.{Feeds, IsLeft};
ghost use Rattle.source_turns.specs.Turns.{size_of, turns_from};

use crate::turns::BlockTurns;
use generation_frame::{ROW, cap, cut};
use lif_outside::{Failed, Store};
use std::alloc::{AllocError, Global};
use top_base::{FileRefusal, Outcome, read_next};

/// How many bytes are asked for at a time, but for whole blocks.
const CHUNK: usize = 65536;

/// How much a source was that was fed to its end.
#[derive(Clone, Copy, Debug, PartialEq, Eq)]
pub struct Fed {
    /// Its bytes.
    pub bytes: u64,
    /// The generations that they are.
    pub generations: u64,
}

/// Why a source wasn't fed to its end.
#[derive(Clone, Copy, Debug, PartialEq, Eq)]
pub enum FeedFault {
    /// A read failed.
    Read,
    /// The source has more bytes than the limit.
    TooLong,
    /// A create or an append failed.
    Write,
}

impl From<Failed> for FeedFault {
    ghost use Rattle.std.specs.Prelude.{◌≡◌};
    ghost use Rattle.source_turns.specs.declared.feeding.FeedFault.TheVariants.{Write};

    ghost from_gives = { λ _ fault. fault ≡ Write };

    fn from(_: Failed) -> FeedFault {
        FeedFault::Write
    }
}

impl<'a> From<FeedFault> for Outcome<'a> {
    ghost use Rattle.std.specs.Prelude.{◌≡◌};
    ghost use Rattle.source_turns.specs.Feeding.{outcome_by};

    ghost from_gives = { λ fault outcome. outcome ≡ outcome_by fault };

    fn from(fault: FeedFault) -> Outcome<'a> {
        match fault {
            FeedFault::Read => FileRefusal::Fault.into(),
            FeedFault::TooLong => Outcome::too_long(),
            FeedFault::Write => Outcome::write_fault(),
        }
    }
}

/// A source at work: what its blocks become, the bytes that were read behind the blocks that were sent, in room for some whole
/// blocks, and the block that is sent.
#[derive(Drop)]
pub struct Feeding<T: BlockTurns> {
    /// What the blocks become.
    pub turns: T,
    rate: u32,
    bytes: Vec<u8>,
    filled: usize,
    block: Vec<u8>,
    next: u32,
    ghost same_rate: { (T.job turns).rate ≡ rate },
    ghost some_rate: { 1 ≤ rate },
    ghost low_rate: { rate ≤ most_rows },
    ghost some: { 0 < vec_len bytes },
    ghost few: { vec_len bytes ≤ 65536 },
    ghost whole: { vec_len bytes / capacity rate * capacity rate ≡ vec_len bytes },
    ghost within: { filled ≤ vec_len bytes },
    ghost size: { vec_len block ≡ rate * row_bytes },
}

impl<T: BlockTurns + Drop> Feeding<T> {
    /// A source before any byte was read. It takes all memory that the work needs.
    pub fn new(alloc: Global, turns: T) -> Result<Feeding<T>, AllocError>
        ensures { IfOk result (λ feeding. feeding.turns ≡ turns) }
    {
        let rate = turns.rate();
        let room = cap(rate) as usize;
        let blocks = CHUNK / room;
        Ok(Feeding {
            turns,
            rate,
            bytes: vec![in alloc; 0; blocks * room]?,
            filled: 0,
            block: vec![in alloc; 0; rate as usize * ROW]?,
            next: 0,
        })
    }

    // Sends the block of bytes that were read, from one place to another.
    fn send_block<S: Store>(
        &mut self,
        store: &mut S,
        start: usize,
        end: usize,
    ) -> Result<(), Failed>
        requires order { start ≤ end }
        requires within { end ≤ vec_len self.old.bytes }
        requires room { end ≤ start + size_of (T.job self.old.turns) }
        requires more { self.old.next + 1 < 2 ^ 32 }
        requires made { (path : List ℕ) → Contains (T.job self.old.turns).paths path
            → S.made store.old path }
        ensures still { T.job self.new.turns ≡ T.job self.old.turns }
        ensures bytes { self.new.bytes ≡ self.old.bytes }
        ensures filled { self.new.filled ≡ self.old.filled }
        ensures next { self.new.next ≡ self.old.next + 1 }
        ensures made { (path : List ℕ) → Contains (T.job self.old.turns).paths path
            → S.made store.new path }
        ensures sent { OnOk result (MakesCalls S.Store store.old store.new
            (Are (appends_of ((T.job self.old.turns).turn self.old.next
            (slice_range self.old.bytes.items start end) ∷ [])))) }
        ensures failed { OnErr result (MakesCalls S.Store store.old store.new
            (StopsWithin (appends_of ((T.job self.old.turns).turn self.old.next
            (slice_range self.old.bytes.items start end) ∷ [])))) }
    {
        cut(&self.bytes[start..end], &mut self.block);
        let generation = self.next;
        self.next += 1;
        self.turns.send(store, generation, &self.block)
    }

    // Sends so many blocks of the bytes that were read, the last of which may have fewer than there is room for.
    fn send_blocks<S: Store>(&mut self, store: &mut S, count: usize) -> Result<(), Failed>
        requires reach { count * size_of (T.job self.old.turns)
            ≤ self.old.filled + size_of (T.job self.old.turns) }
        requires more { self.old.next + count < 2 ^ 32 }
        requires made { (path : List ℕ) → Contains (T.job self.old.turns).paths path
            → S.made store.old path }
        ensures still { T.job self.new.turns ≡ T.job self.old.turns }
        ensures room { vec_len self.new.bytes ≡ vec_len self.old.bytes }
        ensures made { (path : List ℕ) → Contains (T.job self.old.turns).paths path
            → S.made store.new path }
        ensures next { OnOk result (self.new.next ≡ self.old.next + count) }
        ensures filled { OnOk result (self.new.filled ≡ 0) }
        ensures sent { OnOk result (MakesCalls S.Store store.old store.new
            (Are (appends_of (turns_from (T.job self.old.turns) self.old.next
            count (take self.old.filled self.old.bytes.items))))) }
        ensures failed { OnErr result (MakesCalls S.Store store.old store.new
            (StopsWithin (appends_of (turns_from (T.job self.old.turns) self.old.next
            count (take self.old.filled self.old.bytes.items))))) }
    {
        let room = cap(self.rate) as usize;
        for place in 0..count {
            let end = self.filled.min(place * room + room);
            self.send_block(store, place * room, end)?;
        }
        self.filled = 0;
        Ok(())
    }

    // Sends all blocks, where the room for bytes is filled.
    fn send_full<S: Store>(&mut self, store: &mut S) -> Result<(), Failed>
        requires more { self.old.next + self.old.filled / size_of (T.job self.old.turns) < 2 ^ 32 }
        requires made { (path : List ℕ) → Contains (T.job self.old.turns).paths path
            → S.made store.old path }
        ensures still { T.job self.new.turns ≡ T.job self.old.turns }
        ensures room { vec_len self.new.bytes ≡ vec_len self.old.bytes }
        ensures made { (path : List ℕ) → Contains (T.job self.old.turns).paths path
            → S.made store.new path }
        ensures sent { OnOk result ((count : ℕ) × (self.new.next ≡ self.old.next + count)
            × IsLeft (size_of (T.job self.old.turns)) count (take self.old.filled self.old.bytes.items)
            (take self.new.filled self.new.bytes.items)
            × MakesCalls S.Store store.old store.new (Are (appends_of (turns_from
            (T.job self.old.turns) self.old.next count (take self.old.filled self.old.bytes.items))))) }
        ensures room_left { OnOk result (self.new.filled < vec_len self.new.bytes) }
        ensures failed { OnErr result (MakesCalls S.Store store.old store.new
            (StopsWithin (appends_of (turns_from (T.job self.old.turns) self.old.next
            (self.old.filled / size_of (T.job self.old.turns))
            (take self.old.filled self.old.bytes.items))))) }
    {
        if self.filled < self.bytes.len() {
            return Ok(());
        }
        let count = self.filled / cap(self.rate) as usize;
        self.send_blocks(store, count)
    }

    // Sends what is left at the end of the source, with a block that isn't full.
    fn send_last<S: Store>(&mut self, store: &mut S) -> Result<(), Failed>
        requires more { self.old.next
            + (self.old.filled / size_of (T.job self.old.turns) + 1) < 2 ^ 32 }
        requires made { (path : List ℕ) → Contains (T.job self.old.turns).paths path
            → S.made store.old path }
        ensures still { T.job self.new.turns ≡ T.job self.old.turns }
        ensures room { vec_len self.new.bytes ≡ vec_len self.old.bytes }
        ensures made { (path : List ℕ) → Contains (T.job self.old.turns).paths path
            → S.made store.new path }
        ensures next { OnOk result (self.new.next ≡ self.old.next
            + (self.old.filled / size_of (T.job self.old.turns) + 1)) }
        ensures sent { OnOk result (MakesCalls S.Store store.old store.new
            (Are (appends_of (turns_from (T.job self.old.turns) self.old.next
            (self.old.filled / size_of (T.job self.old.turns) + 1)
            (take self.old.filled self.old.bytes.items))))) }
        ensures failed { OnErr result (MakesCalls S.Store store.old store.new
            (StopsWithin (appends_of (turns_from (T.job self.old.turns) self.old.next
            (self.old.filled / size_of (T.job self.old.turns) + 1)
            (take self.old.filled self.old.bytes.items))))) }
    {
        let count = self.filled / cap(self.rate) as usize + 1;
        self.send_blocks(store, count)
    }

    /// Creates the files, and fills them while it reads the source of a path from its start, of at most `limit` bytes; tells how
    /// much there was. It takes no memory.
    pub fn feed<S: Store>(
        &mut self,
        store: &mut S,
        path: &str,
        limit: u64,
    ) -> Result<Fed, FeedFault>
        requires limit { limit < last_place }
        ensures still { T.job self.new.turns ≡ T.job self.old.turns }
        ensures few { IfOk result (λ fed. fed.generations ≤ 2 ^ 32) }
        ensures calls { MakesCalls S.Store store.old store.new
            (Feeds (T.job self.old.turns) path.now limit result) }
    {
        self.filled = 0;
        self.next = 0;
        self.turns.create(store)?;
        let mut at = 0;
        while at <= limit {
            let chunk = &mut self.bytes[self.filled..];
            let Ok(count) = read_next(store, path, limit, at, chunk) else {
                return Err(FeedFault::Read);
            };
            if count == 0 {
                self.send_last(store)?;
                return Ok(Fed {
                    bytes: at,
                    generations: u64::from(self.next),
                });
            }
            at += count as u64;
            self.filled += count;
            self.send_full(store)?;
        }
        Err(FeedFault::TooLong)
    }
}
