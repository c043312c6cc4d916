//! A place where bytes are said, as the program sees it.
ghost use Rattle.std.specs.Prelude.{◌++◌, ◌∷◌, [], ℕ, List, Option};
ghost use Rattle.lif_outside.specs.Accounts.{SinkAccounts};
ghost use Rattle.lif_outside.specs.Puts.{Put, put_event};

use crate::Failed;

/// Bytes in order, which nobody takes back.
pub trait Sink {
    /// The bytes written, where they are told.
    ghost written: { Self → Option (List ℕ) };

    /// How often a `put` has failed.
    ghost faults: { Self → ℕ };

    /// These puts with their answers, in this order, lead from one state to the other.
    ghost puts: { List Put → Self → Self → Type 0 };

    /// Adds bytes. Where it fails, a prefix of them was added.
    fn put(&mut self, bytes: &[u8]) -> Result<(), Failed>
        ensures { puts (put_event bytes.now result ∷ []) self.old self.new };

    /// No put leads from a state to itself.
    ghost no_puts: { (at : Self) → puts [] at at };

    /// Puts and then more puts are the puts of both lists.
    ghost more_puts: { (first later : List Put) (a b c : Self) → puts first a b
        → puts later b c → puts (first ++ later) a c };

    /// Where bytes are told, they grow by the puts. The count doesn't fall, and a put that failed has raised it.
    ghost accounts: { (made : List Put) (old new : Self) → puts made old new
        → SinkAccounts written faults made old new };
}
