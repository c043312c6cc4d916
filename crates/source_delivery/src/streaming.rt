//! A source that is read as it is carried over links.
ghost use Rattle.std.specs.Prelude.{◌≡◌, ◌<◌, [], List, ℕ, Contains, IfErr, IfOk};
ghost use Rattle.lif_outside.specs.Calls.{MakesBoth};
ghost use Rattle.lif_outside.specs.Limits.{last_place};
ghost use Rattle.source_delivery.specs.Delivering.{CanCarry};
ghost use Rattle.source_delivery.specs.Delivery.{outputs_in, paths_of};
ghost use Rattle.source_delivery.specs.declared.streaming.StreamFault.TheVariants.{Sinks};

use crate::delivery::{DeliveryFault, SentCounts, SourceDelivery};
use gf_tables::Field;
use lif_outside::{Gate, Links, Store};
use std::thread::Threads;
use top_base::read_next;

/// How many bytes are asked for at a time.
const CHUNK: usize = 65536;

/// Why a source wasn't sent to its end.
#[derive(Clone, Copy, Debug, PartialEq, Eq)]
pub enum StreamFault {
    /// A read failed.
    Read,
    /// The source has more bytes than the limit.
    TooLong,
    /// What was read wasn't delivered.
    Sinks(DeliveryFault),
}

impl From<DeliveryFault> for StreamFault {
    ghost from_gives = { λ fault error. error ≡ Sinks fault };

    fn from(fault: DeliveryFault) -> StreamFault {
        StreamFault::Sinks(fault)
    }
}

impl<'c, F: Field + Send + Sync> SourceDelivery<'c, F> {
    ghost use Rattle.source_delivery.specs.Streaming.{StopsStreaming, StreamsAll};

    /// Reads the file of a path from its start, and carries its blocks window by window as they come; what comes of them is
    /// added to the sinks' files, generation by generation, in each of them sink by sink. Of the source are held what is
    /// read at a time, what is gathered for a window, and the blocks of the window carried last. It takes no memory.
    pub fn stream<S: Store, K: Links, G: Gate + Sync, R: Threads + Sync>(
        &mut self,
        rt: &R,
        store: &mut S,
        links: &mut K,
        path: &str,
        limit: u64,
        gate: &G,
    ) -> Result<SentCounts, StreamFault>
        requires limit { limit < last_place }
        requires from_start { self.old.runner.next ≡ 0 }
        requires nothing { self.old.gathered.items ≡ [] }
        requires can { CanCarry self.old.runner (K.flying links.old) (K.room links.old) }
        requires made { (path : List ℕ) → Contains (paths_of self.old) path
            → S.made store.old path }
        ensures all { IfOk result (λ counts.
            MakesBoth S.Store K.Links store.old store.new links.old links.new
            (StreamsAll (K.faithful links.old) self.old.runner.code self.old.runner.pattern
            (outputs_in self.old) path.now limit counts)) }
        ensures stopped { IfErr result (λ why.
            MakesBoth S.Store K.Links store.old store.new links.old links.new
            (StopsStreaming (K.faithful links.old) self.old.runner.code self.old.runner.pattern
            (outputs_in self.old) path.now limit why)) }
    {
        let mut at = 0;
        let mut chunk = [0; CHUNK];
        while at <= limit {
            let Ok(count) = read_next(store, path, limit, at, &mut chunk) else {
                return Err(StreamFault::Read);
            };
            if count == 0 {
                self.carry_last(rt, store, links, gate)?;
                return Ok(self.counts(at));
            }
            at += count as u64;
            self.gather(rt, store, links, &chunk[..count], gate)?;
        }
        Err(StreamFault::TooLong)
    }
}
