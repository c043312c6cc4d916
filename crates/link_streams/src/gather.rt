//! A sink that decodes what its streams hold, generation by generation.
ghost use Rattle.std.specs.Prelude.{◌≡◌, ◌≢◌, ◌*◌, ◌<◌, ℕ, All, IfOk, false, length, map, true};
ghost use Rattle.failure_patterns.specs.Demands.{number_of};
ghost use Rattle.generation_frame.specs.Blocks.{pieces, row_bytes};
ghost use Rattle.gf_tables.specs.Kind.{IsOfKind};
ghost use Rattle.link_streams.specs.Streams.{HasGeneration, IsStream};
ghost use Rattle.relay_core.specs.Core.{payload_of};
ghost use Rattle.sink_decoder.specs.Receiving.{IsBegun, has_piece, payload_at, wants};

use crate::{Stream, StreamList};
use code_checker::Checked;
use generation_frame::PIECES;
use gf_tables::Field;
use net_model::Demand;
use sink_decoder::Decoder;
use std::alloc::{AllocError, Global};
use std::marker::Model;

/// A sink at work on one generation at a time, over the code's field. Contracts see its plan.
#[derive(Drop)]
pub struct Gather<F> {
    decoder: Decoder<F>,
}

impl<F> Model for Gather<F> {
    ghost use Rattle.sink_decoder.specs.Receiving.{SinkPlan};

    ghost Value = { SinkPlan };

    ghost use Rattle.std.specs.Prelude.{◌≡◌, true};
    ghost use Rattle.net_model.specs.Lists.{is_rising};

    ghost view = { λ gather. gather.decoder.plan };

    ghost invariant = { λ gather. is_rising gather.decoder.plan.links ≡ true };
}

impl<F: Field> Gather<F> {
    ghost use Rattle.link_streams.specs.Gathering.{wanted_links};
    ghost use Rattle.link_streams.specs.Streams.{all_packets};
    ghost use Rattle.node_program.specs.declared.code.Code.{Code};
    ghost use Rattle.node_stations.specs.Decoded.{decoded_of};
    ghost use Rattle.sink_decoder.specs.Receiving.{sink_plan_of};

    /// The sink of a demand. `F` is the code's field. It takes all memory that the work needs.
    pub fn open(alloc: Global, code: &Checked, demand: Demand) -> Result<Gather<F>, AllocError>
        requires sink { demand.sink < length code.now.net.sinks }
        requires pattern { demand.pattern < length code.now.net.patterns }
        requires field { IsOfKind code.now.field F.SIZE F.BYTES F.MARK F.product }
        ensures { IfOk result (λ plan. plan ≡ sink_plan_of code.now (number_of code.now.net demand)) }
    {
        let decoder = Decoder::open(alloc, code, demand)?;
        Ok(Gather { decoder })
    }

    /// Writes the block that the decoder makes of the streams of the links that the sink wants, a link that isn't live
    /// counting as zeros.
    pub fn take(&mut self, generation: u32, inputs: &StreamList, into: &mut [u8])
        requires links { map (λ stream. stream.link) inputs.now ≡ wanted_links self.old }
        requires whole { All (HasGeneration generation) inputs.now }
        requires room { length into.old ≡ self.old.rate * row_bytes }
        ensures plan { self.new ≡ self.old }
        ensures block { (code : Code) (demand : ℕ) → self.old ≡ sink_plan_of code demand
            → into.new ≡ decoded_of code demand (all_packets inputs.now) generation }
    {
        self.decoder.begin(generation, 1);
        for stream in inputs.as_slice() {
            accept_all(&mut self.decoder, stream, generation);
        }
        self.decoder.block(generation, into);
    }
}

// Takes the pieces of a generation in that a stream holds.
fn accept_all<F: Field>(sink: &mut Decoder<F>, stream: &Stream, generation: u32)
    requires wanted { wants sink.old.plan stream.now.link ≡ true }
    requires begun { IsBegun sink.old generation }
    requires whole { HasGeneration generation stream.now }
    requires none { (p : ℕ) → p < pieces
        → has_piece sink.old generation stream.now.link p ≡ false }
    ensures plan { sink.new.plan ≡ sink.old.plan }
    ensures first { sink.new.first ≡ sink.old.first }
    ensures count { sink.new.count ≡ sink.old.count }
    ensures stream { IsStream stream.now }
    ensures came { (p : ℕ) → p < pieces
        → has_piece sink.new generation stream.now.link p ≡ true }
    ensures bytes { (p : ℕ) → p < pieces
        → payload_at sink.new generation stream.now.link p
        ≡ payload_of stream.now.packets
        (record { link = stream.now.link; generation = generation; piece = p }) }
    ensures others { (link p : ℕ) → wants sink.old.plan link ≡ true → p < pieces
        → link ≢ stream.now.link
        → (has_piece sink.new generation link p ≡ has_piece sink.old generation link p)
        × (payload_at sink.new generation link p ≡ payload_at sink.old generation link p) }
{
    let first = generation as u64 * PIECES as u64;
    for place in first..first + PIECES as u64 {
        if let Some(packet) = stream.at(place) {
            sink.accept(packet);
        }
    }
}
