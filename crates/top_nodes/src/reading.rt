//! The streams of links, read from files.
ghost use Rattle.std.specs.Prelude.{◌≡◌, ◌<◌, ◌≤◌, ◌⊎◌, ◌^◌, ℕ, List, [], All, Err, IfErr, IfOk, None, OnOk, Some, length, map};
ghost use Rattle.command_steps.specs.Listed.{IsTaken, LosesOne, ReadsAll, RefusesBytes};
ghost use Rattle.lif_outside.specs.Calls.{MakesCalls};
ghost use Rattle.lif_outside.specs.FileCalls.{ReadsWhole};
ghost use Rattle.link_streams.specs.Reading.{packets_read};
ghost use Rattle.link_streams.specs.Streams.{IsStream};
ghost use Rattle.top_base.specs.Inputs.{IsNoMemory, Reads};
ghost use Rattle.top_nodes.specs.Files.{first_lacking, generations_of, stream_limit, stream_path, stream_refused, stream_wanted, streams_of, streams_wanted};

use crate::naming::stream_path;
use generation_frame::StreamWhy;
use item_list::ItemList;
use lif_outside::Store;
use link_streams::{Place, Stream, StreamList};
use net_model::Net;
use std::alloc::Global;
use top_base::{Line, Outcome, Status, read_whole};

/// How many bytes the streams of a call have together, at most.
const STREAM_LIMIT: usize = 268_435_456;

/// The file of a link isn't a stream of it, or not a whole one.
fn stream_refused<'a>(net: &Net, link: u32, why: StreamWhy) -> Outcome<'a>
    requires { link < length net.now.links }
    ensures { result ≡ stream_refused net.now link why }
{
    Outcome {
        status: Status::StreamRefused { link, why },
        line: Line::stream_refused(net, link, why),
    }
}

// The stream of a link, of these bytes.
fn stream_in<'a>(alloc: Global, net: &Net, link: u32, bytes: &[u8]) -> Result<Stream, Outcome<'a>>
    requires { link < length net.now.links }
    ensures link { IfOk result (λ stream. stream.link ≡ link) }
    ensures packets { IfOk result (λ stream. packets_read link bytes.now ≡ Ok stream.packets) }
    ensures stream { IfOk result IsStream }
    ensures refused { IfErr result (λ outcome. IsNoMemory outcome ⊎ ((why : StreamWhy)
        × (packets_read link bytes.now ≡ Err why) × (outcome ≡ stream_refused net.now link why))) }
{
    match Stream::read(alloc, link, bytes) {
        Ok(stream) => Ok(stream),
        Err(StreamWhy::OutOfMemory) => Err(Outcome::out_of_memory()),
        Err(why) => Err(stream_refused(net, link, why)),
    }
}

// Reads the stream of a link from its file, of at most so many bytes, and tells how many there were.
fn read_stream<'a, S: Store>(
    alloc: Global,
    store: &mut S,
    prefix: &str,
    net: &Net,
    link: u32,
    limit: usize,
) -> Result<(Stream, usize), Outcome<'a>>
    requires link { link < length net.now.links }
    requires limit { limit ≤ stream_limit }
    ensures had { IfOk result (λ both. MakesCalls S.Store store.old store.new (λ events. (bytes : List ℕ)
        × ReadsWhole (stream_path prefix.now net.now link) limit bytes events
        × (packets_read link bytes ≡ Ok both.0.packets) × (length bytes ≡ both.1))) }
    ensures link { IfOk result (λ both. both.0.link ≡ link) }
    ensures stream { IfOk result (λ both. IsStream both.0) }
    ensures size { IfOk result (λ both. both.1 ≤ limit) }
    ensures lost { IfErr result (λ outcome. MakesCalls S.Store store.old store.new (λ events.
        Reads limit (IsTaken (stream_wanted prefix.now net.now link)) (RefusesBytes (stream_wanted prefix.now net.now link))
        (stream_path prefix.now net.now link) (Err outcome) events
        ⊎ (IsNoMemory outcome × (events ≡ [])))) }
{
    let path = stream_path(alloc, prefix, net, link)?;
    let bytes = read_whole(store, path.as_str(), limit, Vec::new(alloc))?;
    let stream = stream_in(alloc, net, link, &bytes)?;
    Ok((stream, bytes.len()))
}

/// Reads the streams of links, each within what is left of the limit, and tries each as it came.
pub fn read_streams<'a, S: Store>(
    alloc: Global,
    store: &mut S,
    prefix: &str,
    net: &Net,
    links: &[u32],
) -> Result<StreamList, Outcome<'a>>
    requires links { All (λ link. link < length net.now.links) links.now }
    ensures had { IfOk result (λ streams. MakesCalls S.Store store.old store.new (λ events. (files : List (List ℕ))
        × ReadsAll stream_limit (streams_wanted prefix.now net.now links.now) files events
        × (streams ≡ streams_of links.now files))) }
    ensures streams { IfOk result (All IsStream) }
    ensures lost { IfErr result (λ outcome. MakesCalls S.Store store.old store.new (λ events.
        LosesOne stream_limit (streams_wanted prefix.now net.now links.now) outcome events
        ⊎ (IsNoMemory outcome × (events ≡ [])))) }
{
    let mut streams = Vec::with_capacity(alloc, links.len())?;
    let mut left = STREAM_LIMIT;
    for link in links {
        let (stream, size) = read_stream(alloc, store, prefix, net, *link, left)?;
        left -= size;
        let Ok(()) = streams.push(stream) else {
            return Err(Outcome::out_of_memory());
        };
    }
    Ok(ItemList::of(streams))
}

/// How many generations streams have, at least one.
pub fn generations_of(streams: &StreamList) -> u64
    ensures value { result ≡ generations_of streams.now }
    ensures some { 1 ≤ result }
{
    let mut generations = 1;
    for stream in streams.as_slice() {
        generations = stream.generations().max(generations);
    }
    generations
}

/// Sees that the streams of links have all places below a generation.
pub fn see_whole<'a>(
    net: &Net,
    links: &[u32],
    streams: &StreamList,
    count: u64,
) -> Result<(), Outcome<'a>>
    requires links { All (λ link. link < length net.now.links) links.now }
    requires streams { map (λ stream. stream.link) streams.now ≡ links.now }
    requires count { count ≤ 2 ^ 32 }
    ensures whole { OnOk result (first_lacking net.now count streams.now ≡ None) }
    ensures lacking { IfErr result (λ outcome. first_lacking net.now count streams.now ≡ Some outcome) }
{
    for place in 0..links.len() {
        if let Some(Place { generation, piece }) = streams.at(place).first_missing(count) {
            let why = StreamWhy::Missing { generation, piece };
            return Err(stream_refused(net, links[place], why));
        }
    }
    Ok(())
}
