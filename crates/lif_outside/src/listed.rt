//! Links in memory that give what flies as a list says, and fail where they are told to.
ghost use Rattle.std.specs.Prelude.{◌≡◌, ◌≤◌, ◌<◌, ◌++◌, ◌∷◌, ◌⊎◌, [], if◌then◌else◌, length, remove, All, Contains, IsErr, OnOk, OnErr};
ghost use Rattle.std.specs.Vec.{vec_capacity};
ghost use Rattle.lif_outside.specs.Counts.{one_more};
ghost use Rattle.lif_outside.specs.Spoils.{is_in_payload};

mod spoils;

use crate::memory::parts::{count_one, failed, place_of};
use crate::{Failed, Flight, Links};
pub use spoils::Spoil;
use spoils::spoiled;
use std::alloc::{AllocError, Global};

/// Links in memory that tell all that was put and given.
///
/// The take of number k, counted from 0, gives the flying pair at the place that the list `picks` has at k,
/// or the last where fewer fly, and the pair at place 0 where the list has no place k. The others keep their
/// order. The pair stays where the take is listed in `keeps`, and what is given of it is changed where the
/// take is listed in `spoils`. A put fails where it is listed and where the list of the pairs put can't grow,
/// a take where it is listed and where the list of the pairs given can't.
#[derive(Drop)]
pub struct ListLinks {
    flying: Vec<Flight>,
    sent: Vec<Flight>,
    given: Vec<Flight>,
    picks: Vec<u32>,
    keeps: Vec<u64>,
    spoils: Vec<Spoil>,
    put_fails: Vec<u64>,
    take_fails: Vec<u64>,
    puts: u64,
    takes: u64,
    faults: u64,
    room: u32,
    seed: u64,
    ghost enough: { room ≤ vec_capacity flying },
    ghost in_payload: { All is_in_payload spoils.items },
}

// The pair at a place leaves where it isn't kept.
fn let_go(flying: &mut Vec<Flight>, place: usize, is_kept: bool)
    requires { place < length flying.old.items }
    ensures items { flying.new.items
        ≡ (if is_kept then flying.old.items else remove flying.old.items place) }
    ensures capacity { vec_capacity flying.new ≡ vec_capacity flying.old }
{
    if !is_kept {
        flying.remove(place);
    }
}

impl ListLinks {
    ghost use Rattle.std.specs.Prelude.{Some};
    ghost use Rattle.std.specs.List.Sorted.{IsStrictlyIncreasing};
    ghost use Rattle.lif_outside.specs.Listed.{held_in, sent_in, given_in, faults_in, picks_in, keeps_in, spoils_in, put_fails_in, take_fails_in, puts_in, takes_in, keeps_next};

    /// Links with no room, which keep no pair and give each frame as it was put. The puts and the takes that
    /// are listed fail, counted from 1. It takes no memory.
    pub fn new(
        alloc: Global,
        picks: Vec<u32>,
        put_fails: Vec<u64>,
        take_fails: Vec<u64>,
    ) -> ListLinks
        ensures empty { (held_in result).flying ≡ [] }
        ensures sent { sent_in result ≡ Some [] }
        ensures given { given_in result ≡ Some [] }
        ensures picks { picks_in result ≡ picks.items }
        ensures keeps { keeps_in result ≡ [] }
        ensures spoils { spoils_in result ≡ [] }
        ensures put_fails { put_fails_in result ≡ put_fails.items }
        ensures take_fails { take_fails_in result ≡ take_fails.items }
        ensures puts { puts_in result ≡ 0 }
        ensures takes { takes_in result ≡ 0 }
        ensures faults { faults_in result ≡ 0 }
    {
        let keeps = Vec::new(alloc);
        let spoils = Vec::new(alloc);
        ListLinks::hostile(alloc, picks, keeps, spoils, put_fails, take_fails)
    }

    /// Links with no room. The takes that `keeps` lists keep the pair that they give, and those that `spoils`
    /// lists change what they give. The puts and the takes that are listed fail, counted from 1. It takes no
    /// memory.
    pub fn hostile(
        alloc: Global,
        picks: Vec<u32>,
        keeps: Vec<u64>,
        spoils: Vec<Spoil>,
        put_fails: Vec<u64>,
        take_fails: Vec<u64>,
    ) -> ListLinks
        requires rising { IsStrictlyIncreasing keeps.items }
        requires in_payload { All is_in_payload spoils.items }
        ensures empty { (held_in result).flying ≡ [] }
        ensures sent { sent_in result ≡ Some [] }
        ensures given { given_in result ≡ Some [] }
        ensures picks { picks_in result ≡ picks.items }
        ensures keeps { keeps_in result ≡ keeps.items }
        ensures spoils { spoils_in result ≡ spoils.items }
        ensures put_fails { put_fails_in result ≡ put_fails.items }
        ensures take_fails { take_fails_in result ≡ take_fails.items }
        ensures puts { puts_in result ≡ 0 }
        ensures takes { takes_in result ≡ 0 }
        ensures faults { faults_in result ≡ 0 }
    {
        ListLinks {
            flying: Vec::new(alloc),
            sent: Vec::new(alloc),
            given: Vec::new(alloc),
            picks,
            keeps,
            spoils,
            put_fails,
            take_fails,
            puts: 0,
            takes: 0,
            faults: 0,
            room: 0,
            seed: 0,
        }
    }

    // Whether the take that comes keeps the pair that it gives.
    fn keeps_next(&self) -> bool
        ensures { result ≡ keeps_next self.now }
    {
        self.takes < u64::MAX && self.keeps.contains(&(self.takes + 1))
    }
}

impl Links for ListLinks {
    ghost use Rattle.std.specs.Prelude.{Some, None, Ok};
    ghost use Rattle.lif_outside.specs.Listed.{held_in, sent_in, given_in, faults_in, put_fails_in, take_fails_in, puts_in, takes_in, faithful_ones, moves_in, IsListed, CountsPut, CountsTake, CountsNothing, has_room_to_tell_put, has_room_to_tell_take};
    ghost use Rattle.lif_outside.specs.MoveLaws.{links_none, links_then};
    ghost use Rattle.lif_outside.specs.Moves.{open_move, put_move, take_move};

    ghost flying = { λ links. (held_in links).flying };

    ghost room = { λ links. (held_in links).room };

    ghost opened_with = { λ links. (held_in links).seed };

    ghost repeats = { λ links. (held_in links).repeats };

    ghost faithful = { faithful_ones };

    ghost sent = { sent_in };

    ghost given = { given_in };

    ghost faults = { faults_in };

    ghost moves = { moves_in };

    ghost no_moves = { links_none held_in faithful_ones faults_in sent_in given_in };

    ghost more_moves = { links_then held_in faithful_ones faults_in sent_in given_in };

    ghost accounts = { λ _ _ _ h. h };

    fn open(&mut self, alloc: Global, seed: u64, most: u32) -> Result<(), AllocError>
        requires { (held_in self.old).flying ≡ [] }
        ensures call { moves_in (open_move seed most result ∷ []) self.old self.new }
        ensures room { OnOk result ((held_in self.new).room ≡ most) }
        ensures counted { CountsNothing self.old self.new }
        ensures faults { faults_in self.new ≡ faults_in self.old }
    {
        self.flying.reserve(most as usize)?;
        self.room = most;
        self.seed = seed;
        Ok(())
    }

    fn put(&mut self, link: u32, frame: &[u8; 140]) -> Result<(), Failed>
        requires { length (held_in self.old).flying < (held_in self.old).room }
        ensures call { moves_in (put_move link frame.now result ∷ []) self.old self.new }

        // When it fails, and where the pair is put.
        ensures listed { Contains (put_fails_in self.old) (one_more (puts_in self.old))
            → IsErr result }
        ensures memory { IsErr result → has_room_to_tell_put self.old
            → Contains (put_fails_in self.old) (one_more (puts_in self.old)) }
        ensures last { OnOk result ((held_in self.new).flying
            ≡ (held_in self.old).flying ++ record { link = link; frame = frame.now } ∷ []) }
        ensures counted { CountsPut self.old self.new }
        ensures faults_ok { OnOk result (faults_in self.new ≡ faults_in self.old) }
        ensures faults_err { OnErr result (faults_in self.new ≡ one_more (faults_in self.old)) }
    {
        let nth = count_one(&mut self.puts);
        let pair = Flight {
            link,
            frame: *frame,
        };
        if self.put_fails.contains(&nth) {
            return Err(failed(&mut self.faults));
        }
        if self.sent.push(pair).is_err() {
            return Err(failed(&mut self.faults));
        }
        if self.flying.push(pair).is_err() {
            unreachable!();
        }
        Ok(())
    }

    fn take(&mut self) -> Result<Option<Flight>, Failed>
        ensures call { moves_in (take_move result ∷ []) self.old self.new }

        // When it fails, and which pair it gives.
        ensures listed { Contains (take_fails_in self.old) (one_more (takes_in self.old))
            → IsErr result }
        ensures memory { IsErr result → has_room_to_tell_take self.old
            → Contains (take_fails_in self.old) (one_more (takes_in self.old)) }
        ensures picked { (flight : Flight) → result ≡ Ok (Some flight)
            → IsListed flight self.old self.new }
        ensures counted { CountsTake self.old self.new }
        ensures faults_ok { OnOk result (faults_in self.new ≡ faults_in self.old) }
        ensures faults_err { OnErr result (faults_in self.new ≡ one_more (faults_in self.old)) }
    {
        let number = self.takes;
        let is_kept = self.keeps_next();
        let nth = count_one(&mut self.takes);
        if self.take_fails.contains(&nth) {
            return Err(failed(&mut self.faults));
        }
        if self.flying.is_empty() {
            return Ok(None);
        }
        let place = place_of(self.picks.as_slice(), number, self.flying.len());
        let pair = self.flying[place];
        let flight = Flight {
            link: pair.link,
            frame: spoiled(self.spoils.as_slice(), nth, &pair.frame),
        };
        if self.given.push(flight).is_err() {
            return Err(failed(&mut self.faults));
        }
        let_go(&mut self.flying, place, is_kept);
        Ok(Some(flight))
    }
}
