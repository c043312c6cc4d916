//! Sinks at work, whichever the field.
ghost use Rattle.std.specs.Prelude.{◌≡◌, length};
ghost use Rattle.open_nodes.specs.Errors.{block_error, error_in, packet_error};
ghost use Rattle.open_nodes.specs.SinkCalls.{BeginsSink, OpensSink, TakesFrame, WritesBlock, whole_or_error};
ghost use Rattle.sink_decoder.specs.Receiving.{is_begun, wants};

use crate::CallError;
use crate::arguments::{is_window, packet_in, see_sink};
use code_checker::Checked;
use generation_frame::{Accepted, Packet, ROW};
use gf_tables::{Field, FieldKind, Gf8, Gf9, Gf16};
use net_model::Demand;
use sink_decoder::Decoder;
use std::alloc::Global;
use std::marker::Model;

/// A sink over one of the fields.
#[derive(Drop)]
pub(crate) enum FieldSink {
    /// The field of 256 elements.
    Eight(Decoder<Gf8>),
    /// The other one of 256.
    Nine(Decoder<Gf9>),
    /// That of 65,536.
    Sixteen(Decoder<Gf16>),
}

/// A sink of a code at work, over the field that the code has. Contracts see it as a sink over any field.
#[derive(Drop)]
pub struct OpenSink {
    sink: FieldSink,
}

impl Model for OpenSink {
    ghost use Rattle.sink_decoder.specs.Receiving.{Receiver};

    ghost Value = { Receiver };

    ghost use Rattle.open_nodes.specs.Fields.{receiver_of};

    ghost view = { λ s. receiver_of s.sink };
}

impl OpenSink {
    ghost use Rattle.sink_decoder.specs.Receiving.{wants};

    /// The sink of a number under a pattern, before any generation. It takes all memory that the work needs.
    pub fn open(
        alloc: Global,
        code: &Checked,
        pattern: u32,
        sink: u32,
    ) -> Result<OpenSink, CallError>
        ensures { OpensSink code.now pattern sink result }
    {
        see_sink(code, pattern, sink)?;
        let demand = Demand { sink, pattern };
        let sink = match code.code().field {
            FieldKind::Eight => FieldSink::Eight(Decoder::open(alloc, code, demand)?),
            FieldKind::Nine => FieldSink::Nine(Decoder::open(alloc, code, demand)?),
            FieldKind::Sixteen => FieldSink::Sixteen(Decoder::open(alloc, code, demand)?),
        };
        Ok(OpenSink { sink })
    }

    /// Forgets what came, and begins these generations.
    pub fn begin(&mut self, first: u32, count: u32) -> Result<(), CallError>
        ensures { BeginsSink first count self.old self.new (error_in result) }
    {
        match &mut self.sink {
            FieldSink::Eight(sink) => begin(sink, first, count),
            FieldSink::Nine(sink) => begin(sink, first, count),
            FieldSink::Sixteen(sink) => begin(sink, first, count),
        }
    }

    /// Whether the sink takes in what a link gives it: the link is live, and one of its decoder's.
    pub fn wants(&self, link: u32) -> bool
        ensures { result ≡ wants self.now.plan link }
    {
        match &self.sink {
            FieldSink::Eight(sink) => sink.wants(link),
            FieldSink::Nine(sink) => sink.wants(link),
            FieldSink::Sixteen(sink) => sink.wants(link),
        }
    }

    /// Takes a frame in that came on a link that the sink wants, if its piece hasn't come before.
    pub fn accept(&mut self, frame: &[u8]) -> Result<Accepted, CallError>
        ensures { TakesFrame frame.now self.old self.new result }
    {
        match &mut self.sink {
            FieldSink::Eight(sink) => accept(sink, frame),
            FieldSink::Nine(sink) => accept(sink, frame),
            FieldSink::Sixteen(sink) => accept(sink, frame),
        }
    }

    /// Whether all pieces of all wanted links have come.
    pub fn is_whole(&self, generation: u32) -> Result<bool, CallError>
        ensures { result ≡ whole_or_error self.now generation }
    {
        match &self.sink {
            FieldSink::Eight(sink) => is_whole(sink, generation),
            FieldSink::Nine(sink) => is_whole(sink, generation),
            FieldSink::Sixteen(sink) => is_whole(sink, generation),
        }
    }

    /// Writes the block of a generation that is whole.
    pub fn block(&self, generation: u32, into: &mut [u8]) -> Result<(), CallError>
        ensures { WritesBlock generation self.now into.old into.new (error_in result) }
    {
        match &self.sink {
            FieldSink::Eight(sink) => block(sink, generation, into),
            FieldSink::Nine(sink) => block(sink, generation, into),
            FieldSink::Sixteen(sink) => block(sink, generation, into),
        }
    }
}

// Begins generations.
fn begin<F: Field>(sink: &mut Decoder<F>, first: u32, count: u32) -> Result<(), CallError>
    ensures { BeginsSink first count sink.old sink.new (error_in result) }
{
    if !is_window(first, count) {
        return Err(CallError::BadWindow);
    }
    sink.begin(first, count);
    Ok(())
}

// Takes a frame in.
fn accept<F: Field>(sink: &mut Decoder<F>, frame: &[u8]) -> Result<Accepted, CallError>
    ensures { TakesFrame frame.now sink.old sink.new result }
{
    let packet = packet_in(frame)?;
    see_packet(sink, &packet)?;
    Ok(sink.accept(&packet))
}

// Looks at a packet that came.
fn see_packet<F: Field>(sink: &Decoder<F>, packet: &Packet) -> Result<(), CallError>
    ensures { error_in result ≡ packet_error (wants sink.now.plan) (is_begun sink.now) packet.now }
{
    if !sink.wants(packet.link) {
        return Err(CallError::OtherLink);
    }
    if !sink.is_begun(packet.generation) {
        return Err(CallError::NotBegun);
    }
    Ok(())
}

// Whether all of a generation has come.
fn is_whole<F: Field>(sink: &Decoder<F>, generation: u32) -> Result<bool, CallError>
    ensures { result ≡ whole_or_error sink.now generation }
{
    if !sink.is_begun(generation) {
        return Err(CallError::NotBegun);
    }
    Ok(sink.is_whole(generation))
}

// Writes the block of a generation.
fn block<F: Field>(sink: &Decoder<F>, generation: u32, into: &mut [u8]) -> Result<(), CallError>
    ensures { WritesBlock generation sink.now into.old into.new (error_in result) }
{
    see_block(sink, generation, into.len())?;
    sink.block(generation, into);
    Ok(())
}

// Looks at a block that is asked for.
fn see_block<F: Field>(sink: &Decoder<F>, generation: u32, room: usize) -> Result<(), CallError>
    ensures { error_in result ≡ block_error sink.now generation room }
{
    if !sink.is_begun(generation) {
        return Err(CallError::NotBegun);
    }
    if room != sink.rate() as usize * ROW {
        return Err(CallError::BadLength);
    }
    if !sink.is_whole(generation) {
        return Err(CallError::NotWhole);
    }
    Ok(())
}
