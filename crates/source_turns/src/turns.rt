//! What the blocks of a source become, as a source that is fed sees it.
ghost use Rattle.std.specs.Prelude.{◌≡◌, ◌*◌, ◌∷◌, [], ℕ, List, Contains, OnErr, OnOk, length};
ghost use Rattle.generation_frame.specs.Blocks.{block_of, row_bytes};
ghost use Rattle.lif_outside.specs.Calls.{MakesCalls};
ghost use Rattle.lif_outside.specs.FileCalls.{StopsWithin, appends_of, creates_of};
ghost use Rattle.lif_outside.specs.Sequences.{Are};
ghost use Rattle.source_turns.specs.Turns.{Job};

use lif_outside::{Failed, Store};

/// Files that are filled as the blocks of a source come, each block by a turn of appends.
pub trait BlockTurns {
    /// The files, the rows of a block, and its turn. No call changes them.
    ghost job: { Self → Job };

    /// How many rows a block has, 1 to 32.
    fn rate(&self) -> u32
        ensures { result ≡ (job self.now).rate };

    /// Creates each file, in order.
    fn create<S: Store>(&self, store: &mut S) -> Result<(), Failed>
        ensures created { OnOk result (MakesCalls S.Store store.old store.new
            (Are (creates_of (job self.now).paths))) }
        ensures made { OnOk result ((path : List ℕ) → Contains (job self.now).paths path
            → S.made store.new path) }
        ensures failed { OnErr result (MakesCalls S.Store store.old store.new
            (StopsWithin (creates_of (job self.now).paths))) };

    /// Makes the appends of a generation's turn, out of its block.
    fn send<S: Store>(&mut self, store: &mut S, generation: u32, block: &[u8]) -> Result<(), Failed>
        requires block { length block.now ≡ (job self.old).rate * row_bytes }
        requires made { (path : List ℕ) → Contains (job self.old).paths path
            → S.made store.old path }
        ensures still { job self.new ≡ job self.old }
        ensures made { (path : List ℕ) → Contains (job self.old).paths path
            → S.made store.new path }
        ensures sent { (piece : List ℕ) → block.now ≡ block_of (job self.old).rate piece
            → OnOk result (MakesCalls S.Store store.old store.new
            (Are (appends_of ((job self.old).turn generation piece ∷ [])))) }
        ensures failed { (piece : List ℕ) → block.now ≡ block_of (job self.old).rate piece
            → OnErr result (MakesCalls S.Store store.old store.new
            (StopsWithin (appends_of ((job self.old).turn generation piece ∷ [])))) };
}
