//! A source whose blocks go through a code where links fail, to the sinks that have its rank.
ghost use Rattle.std.specs.Prelude.{◌≡◌, map, string_bytes};

use crate::delivering::Delivering;
use gf_tables::Field;
use lif_outside::{Failed, Store};
use source_turns::{BlockTurns, create_each};

impl<'c, F: Field> BlockTurns for Delivering<'c, F> {
    ghost use Rattle.top_blind.specs.Blind.{delivery};

    ghost job = { λ delivering. delivery delivering.fabric.code
        (map string_bytes delivering.paths.items) };

    fn rate(&self) -> u32 {
        self.fabric.code().rate
    }

    fn create<S: Store>(&self, store: &mut S) -> Result<(), Failed> {
        create_each(store, &self.paths)
    }

    fn send<S: Store>(
        &mut self,
        store: &mut S,
        generation: u32,
        block: &[u8],
    ) -> Result<(), Failed> {
        self.fabric.carry(generation, block);
        for place in 0..self.paths.len() {
            self.deliver(store, place)?;
        }
        Ok(())
    }
}
