//! Links that tell the calls made on them.
ghost use Rattle.std.specs.Prelude.{◌≡◌, ◌<◌, ◌∷◌, [], length};

use lif_outside::{Failed, Flight, Links};
use std::alloc::{AllocError, Global};

/// The calls made on links.
#[derive(Drop)]
pub struct Calls {
    /// How often they were opened, and with which number and for how many pairs last.
    pub opens: u32,
    pub opened: Option<(u64, u32)>,
    /// The pairs of all puts, also of those that failed.
    pub puts: Vec<Flight>,
    /// How often a pair was asked for, and those that were given.
    pub takes: u32,
    pub given: Vec<Flight>,
    /// How many puts and takes have failed, and how many calls were made after the first that did.
    pub faults: u32,
    pub late: u32,
}

impl Calls {
    // None.
    fn new(alloc: Global) -> Calls {
        Calls {
            opens: 0,
            opened: None,
            puts: Vec::new(alloc),
            takes: 0,
            given: Vec::new(alloc),
            faults: 0,
            late: 0,
        }
    }

    // A call is made.
    fn come(&mut self) {
        if self.faults > 0 {
            self.late = self.late.saturating_add(1);
        }
    }

    fn open(&mut self, seed: u64, most: u32) {
        self.come();
        self.opens = self.opens.saturating_add(1);
        self.opened = Some((seed, most));
    }

    // Where there is no memory for it, the pair isn't told.
    fn put(&mut self, link: u32, frame: &[u8; 140]) {
        self.come();
        let _ = self.puts.push(Flight {
            link,
            frame: *frame,
        });
    }

    fn take(&mut self) {
        self.come();
        self.takes = self.takes.saturating_add(1);
    }

    // A pair was given. Where there is no memory for it, it isn't told.
    fn give(&mut self, flight: Flight) {
        let _ = self.given.push(flight);
    }

    // A call was answered.
    fn go(&mut self, failed: bool) {
        if failed {
            self.faults = self.faults.saturating_add(1);
        }
    }

    /// Whether no call was made.
    pub fn are_none(&self) -> bool {
        self.opens == 0 && self.puts.is_empty() && self.takes == 0
    }
}

/// Links that make each call on other links, and tell them.
#[derive(Drop)]
pub struct Watched<K> {
    pub links: K,
    pub calls: Calls,
}

/// Links with no calls made yet.
pub fn watch<K>(alloc: Global, links: K) -> Watched<K>
    ensures { result.links ≡ links }
{
    Watched {
        links,
        calls: Calls::new(alloc),
    }
}

impl<K: Links> Links for Watched<K> {
    ghost use Rattle.lif_outside.specs.LinksAccounts.{holding};
    ghost use Rattle.lif_outside.specs.Moves.{open_move, put_move, take_move};
    ghost use Rattle.test_support.specs.WatchLaws.{accounts_inside};

    ghost flying = { λ watched. K.flying watched.links };

    ghost room = { λ watched. K.room watched.links };

    ghost opened_with = { λ watched. K.opened_with watched.links };

    ghost repeats = { λ watched. K.repeats watched.links };

    ghost faithful = { λ watched. K.faithful watched.links };

    ghost sent = { λ watched. K.sent watched.links };

    ghost given = { λ watched. K.given watched.links };

    ghost faults = { λ watched. K.faults watched.links };

    ghost moves = { λ made old new. K.moves made old.links new.links };

    ghost no_moves = { λ at. K.no_moves at.links };

    ghost more_moves = { λ first later a b c one other.
        K.more_moves first later a.links b.links c.links one other };

    ghost accounts = { λ made old new calls. accounts_inside (λ watched. watched.links)
        (holding K.flying K.room K.opened_with K.repeats) K.faithful K.faults K.sent K.given
        made old new (K.accounts made old.links new.links calls) };

    fn open(&mut self, alloc: Global, seed: u64, most: u32) -> Result<(), AllocError>
        requires { K.flying self.old.links ≡ [] }
        ensures { K.moves (open_move seed most result ∷ []) self.old.links self.new.links }
    {
        self.calls.open(seed, most);
        self.links.open(alloc, seed, most)
    }

    fn put(&mut self, link: u32, frame: &[u8; 140]) -> Result<(), Failed>
        requires { length (K.flying self.old.links) < K.room self.old.links }
        ensures { K.moves (put_move link frame.now result ∷ []) self.old.links self.new.links }
    {
        self.calls.put(link, frame);
        let answer = self.links.put(link, frame);
        self.calls.go(answer.is_err());
        answer
    }

    fn take(&mut self) -> Result<Option<Flight>, Failed>
        ensures { K.moves (take_move result ∷ []) self.old.links self.new.links }
    {
        self.calls.take();
        let answer = self.links.take();
        self.calls.go(answer.is_err());
        if let Ok(Some(flight)) = answer {
            self.calls.give(flight);
        }
        answer
    }
}
