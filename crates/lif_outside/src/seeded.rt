//! Links in memory that give what flies in an order that a number decides.
ghost use Rattle.std.specs.Prelude.{◌≡◌, ◌≤◌, ◌<◌, ◌++◌, ◌∷◌, [], length, IsOk, OnOk, OnErr};
ghost use Rattle.std.specs.Vec.{vec_capacity};

use crate::{Failed, Flight, Links};
use rand_core::utils::NextWord;
use rand_pcg::Pcg32;
use std::alloc::{AllocError, Global};

/// Links in memory that never fail. The words of a generator say which pair is taken, and once the links are
/// open no call takes memory.
#[derive(Drop)]
pub struct SeedLinks {
    flying: Vec<Flight>,
    room: u32,
    seed: u64,
    generator: Pcg32,
    ghost enough: { room ≤ vec_capacity flying },
}

impl SeedLinks {
    ghost use Rattle.lif_outside.specs.Seeded.{held_by, generator_for};

    /// Links with no room. It takes no memory.
    pub fn new(alloc: Global) -> SeedLinks
        ensures empty { (held_by result).flying ≡ [] }
        ensures room { (held_by result).room ≡ 0 }
    {
        SeedLinks {
            flying: Vec::new(alloc),
            room: 0,
            seed: 0,
            generator: SeedLinks::started(0),
        }
    }

    // The generator of the order that a number decides.
    fn started(seed: u64) -> Pcg32
        ensures { result ≡ generator_for seed }
    {
        Pcg32::new(seed, 54)
    }
}

impl Links for SeedLinks {
    ghost use Rattle.std.specs.Prelude.{Some, None, Ok, Contains};
    ghost use Rattle.rand_pcg.specs.Pcg.{pcg32};
    ghost use Rattle.lif_outside.specs.MoveLaws.{links_none, links_then};
    ghost use Rattle.lif_outside.specs.Moves.{open_move, put_move, take_move};
    ghost use Rattle.lif_outside.specs.Seeded.{held_by, generator_in, generator_for, moves_by, no_faults, always, untold, IsPicked};

    ghost flying = { λ links. (held_by links).flying };

    ghost room = { λ links. (held_by links).room };

    ghost opened_with = { λ links. (held_by links).seed };

    ghost repeats = { λ links. (held_by links).repeats };

    ghost faithful = { always };

    ghost sent = { untold };

    ghost given = { untold };

    ghost faults = { no_faults };

    ghost moves = { moves_by };

    ghost no_moves = { links_none held_by always no_faults untold untold };

    ghost more_moves = { links_then held_by always no_faults untold untold };

    ghost accounts = { λ _ _ _ h. h };

    fn open(&mut self, alloc: Global, seed: u64, most: u32) -> Result<(), AllocError>
        requires { (held_by self.old).flying ≡ [] }
        ensures call { moves_by (open_move seed most result ∷ []) self.old self.new }
        ensures room { OnOk result ((held_by self.new).room ≡ most) }
        ensures generator { OnOk result (generator_in self.new ≡ generator_for seed) }
        ensures same_generator { OnErr result (generator_in self.new ≡ generator_in self.old) }
    {
        self.flying.reserve(most as usize)?;
        self.room = most;
        self.seed = seed;
        self.generator = SeedLinks::started(seed);
        Ok(())
    }

    fn put(&mut self, link: u32, frame: &[u8; 140]) -> Result<(), Failed>
        requires { length (held_by self.old).flying < (held_by self.old).room }
        ensures call { moves_by (put_move link frame.now result ∷ []) self.old self.new }
        ensures done { IsOk result }
        ensures last { (held_by self.new).flying
            ≡ (held_by self.old).flying ++ record { link = link; frame = frame.now } ∷ [] }
        ensures generator { generator_in self.new ≡ generator_in self.old }
    {
        let pair = Flight {
            link,
            frame: *frame,
        };
        if self.flying.push(pair).is_err() {
            unreachable!();
        }
        Ok(())
    }

    fn take(&mut self) -> Result<Option<Flight>, Failed>
        ensures call { moves_by (take_move result ∷ []) self.old self.new }
        ensures done { IsOk result }
        ensures picked { (flight : Flight) → result ≡ Ok (Some flight)
            → IsPicked flight self.old self.new }
        ensures none { result ≡ Ok None → generator_in self.new ≡ generator_in self.old }
    {
        if self.flying.is_empty() {
            return Ok(None);
        }
        let word = self.generator.next_word() as usize;
        let place = word % self.flying.len();
        Ok(Some(self.flying.swap_remove(place)))
    }
}
