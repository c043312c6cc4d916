//! The source of a code, whose blocks become the frames of its links.
ghost use Rattle.std.specs.Prelude.{◌≡◌, ◌==◌, true};

use crate::working::Relaying;
use gf_tables::Field;
use lif_outside::{Failed, Store};
use source_turns::BlockTurns;

/// The source at work.
#[derive(Drop)]
pub struct Sourcing<'c, F> {
    pub relaying: Relaying<'c, F>,
    ghost source: { (relaying.node == relaying.code.now.net.source) ≡ true },
}

impl<'c, F: Field> BlockTurns for Sourcing<'c, F> {
    ghost use Rattle.top_nodes.specs.Sourcing.{job_of};

    ghost job = { λ sourcing. job_of sourcing.relaying };

    fn rate(&self) -> u32 {
        self.relaying.code.code().rate
    }

    fn create<S: Store>(&self, store: &mut S) -> Result<(), Failed> {
        self.relaying.create_outputs(store)
    }

    fn send<S: Store>(
        &mut self,
        store: &mut S,
        generation: u32,
        block: &[u8],
    ) -> Result<(), Failed> {
        self.relaying.originate(generation, block);
        self.relaying.append_frames(store)
    }
}
