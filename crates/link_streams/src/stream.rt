//! Streams of links.
ghost use Rattle.std.specs.Prelude.{◌≡◌, ◌<◌, ◌≤◌, ◌+◌, ◌*◌, ◌^◌, ◌==◌, ℕ, Some, if◌then◌else◌, length, OnErr, OnOk};
ghost use Rattle.generation_frame.specs.Blocks.{pieces};
ghost use Rattle.generation_frame.specs.Frames.{Fits};
ghost use Rattle.link_streams.specs.Held.{number_at};
ghost use Rattle.link_streams.specs.Streams.{place_of};

use generation_frame::{FRAME, PIECES, Packet, StreamWhy, read_frame};
use item_list::ItemList;
use std::alloc::{AllocError, Global};
use std::collections::BTreeMap;
use std::marker::Model;

/// Streams, in order.
pub type StreamList = ItemList<Stream>;

/// A piece of a generation.
#[derive(Clone, Copy, Debug, PartialEq, Eq)]
pub struct Place {
    /// The number of the generation.
    pub generation: u32,
    /// Which piece, 0 to 7.
    pub piece: u8,
}

/// The packets that a link has brought, each place once, which contracts see with their link by rising place. They stand in
/// the order in which they came, numbered from 0, and the number of each is noted at its place: in a table for the first
/// places, as many as the file has frames, and in a map for the others. So a frame costs the same in every order, and one of
/// a far place one entry.
#[derive(Drop)]
pub struct Stream {
    link: u32,
    packets: Vec<Packet>,
    early: Vec<Option<u32>>,
    late: BTreeMap<u64, u32>,
    generations: u64,
}

impl Model for Stream {
    ghost use Rattle.link_streams.specs.Streams.{Stream};

    ghost Value = { Stream };

    ghost use Rattle.link_streams.specs.Held.{AreHeld, packets_held};

    ghost view = { λ stream. record { link = stream.link; packets = packets_held stream.packets.items } };

    ghost invariant = { λ stream.
        AreHeld stream.link stream.packets.items stream.early.items stream.late.entries stream.generations };
}

// The number of a packet's place.
fn place_of(packet: &Packet) -> u64
    requires { Fits packet.now }
    ensures { result ≡ place_of packet.now }
{
    packet.generation as u64 * PIECES as u64 + packet.piece as u64
}

// The place of a number.
fn place_at(number: u64) -> Place
    requires { number < 2 ^ 32 * pieces }
    ensures number { number ≡ result.generation * pieces + result.piece }
    ensures piece { result.piece < pieces }
{
    Place {
        generation: (number / PIECES as u64) as u32,
        piece: (number % PIECES as u64) as u8,
    }
}

// The number of the packet of a place, if it is there.
fn number_of(early: &[Option<u32>], late: &BTreeMap<u64, u32>, place: u64) -> Option<u32>
    ensures { result ≡ number_at early.now late.now.entries place }
{
    if place < early.len() as u64 {
        return early[place as usize];
    }
    late.get(&place).copied()
}

// Notes the number of the packet of a place. Where memory runs out nothing is noted.
fn note_number(
    early: &mut [Option<u32>],
    late: &mut BTreeMap<u64, u32>,
    place: u64,
    number: u32,
) -> Result<(), AllocError>
    ensures noted { OnOk result ((other : ℕ) → number_at early.new late.new.entries other
        ≡ (if other == place then Some number else number_at early.old late.old.entries other)) }
    ensures early { OnErr result (early.new ≡ early.old) }
    ensures late { OnErr result (late.new.entries ≡ late.old.entries) }
{
    if place < early.len() as u64 {
        early[place as usize] = Some(number);
        return Ok(());
    }
    late.insert(place, number)?;
    Ok(())
}

impl Stream {
    ghost use Rattle.std.specs.Prelude.{◌⊎◌, false, Contains, IfErr, IfOk, IfSome, IsNone, Ok, Err, []};
    ghost use Rattle.generation_frame.specs.Frames.{frame_read};
    ghost use Rattle.link_streams.specs.Reading.{frame_bytes, packets_read, taken};
    ghost use Rattle.link_streams.specs.Streams.{IsFirstMissing, IsStream, IsWhole, generation_count, has_place, put_in};

    /// Reads a file as the stream of a link: frames of that link, in any order and with repeats. The length is tried first,
    /// and then frame after frame. More packets than a `u32` counts are refused as want of memory.
    pub fn read(alloc: Global, link: u32, bytes: &[u8]) -> Result<Stream, StreamWhy>
        ensures link { IfOk result (λ stream. stream.link ≡ link) }
        ensures packets { IfOk result (λ stream. packets_read link bytes.now ≡ Ok stream.packets) }
        ensures stream { IfOk result IsStream }
        ensures refused { IfErr result
            (λ why. (why ≡ StreamWhy.OutOfMemory) ⊎ (packets_read link bytes.now ≡ Err why)) }
    {
        if bytes.len() % FRAME != 0 {
            return Err(StreamWhy::BadLength {
                bytes: bytes.len() as u64,
            });
        }
        let mut stream = Stream::empty(alloc, link, bytes.len() / FRAME)?;
        'reading: for number in 0..bytes.len() / FRAME {
            let at = number * FRAME;
            stream.take_frame(at as u64, &bytes[at..at + FRAME])?;
        }
        Ok(stream)
    }

    // A stream without packets, with room for some.
    fn empty(alloc: Global, link: u32, room: usize) -> Result<Stream, AllocError>
        ensures link { IfOk result (λ stream. stream.link ≡ link) }
        ensures packets { IfOk result (λ stream. stream.packets ≡ []) }
    {
        Ok(Stream {
            link,
            packets: Vec::with_capacity(alloc, room)?,
            early: vec![in alloc; None; room]?,
            late: BTreeMap::new(alloc),
            generations: 0,
        })
    }

    // Takes the frame in that begins at a place of the file.
    fn take_frame(&mut self, at: u64, frame: &[u8]) -> Result<(), StreamWhy>
        requires { length frame.now ≡ frame_bytes }
        ensures link { self.new.link ≡ self.old.link }
        ensures taken { OnOk result
            (taken self.old.link at self.old.packets (frame_read frame.now) ≡ Ok self.new.packets) }
        ensures refused { IfErr result (λ why. (why ≡ StreamWhy.OutOfMemory)
            ⊎ (taken self.old.link at self.old.packets (frame_read frame.now) ≡ Err why)) }
    {
        let mut bytes = [0; FRAME];
        bytes.copy_from_slice(frame);
        let Ok(packet) = read_frame(&bytes) else {
            return Err(StreamWhy::BadFrame { at });
        };
        if packet.link != self.link {
            return Err(StreamWhy::OtherLink { at });
        }
        match self.at(place_of(&packet)) {
            Some(one) if one.payload != packet.payload => Err(StreamWhy::Conflict { at }),
            Some(_) => Ok(()),
            None => Ok(self.put(packet)?),
        }
    }

    // Puts a packet in whose place isn't there. Where memory runs out nothing changes.
    fn put(&mut self, packet: Packet) -> Result<(), AllocError>
        requires link { packet.link ≡ self.old.link }
        requires fits { Fits packet }
        requires new { has_place self.old.packets (place_of packet) ≡ false }
        ensures link { self.new.link ≡ self.old.link }
        ensures packets { OnOk result (self.new.packets ≡ put_in packet self.old.packets) }
        ensures same { OnErr result (self.new.packets ≡ self.old.packets) }
    {
        let place = place_of(&packet);
        let generations = self.generations.max(packet.generation as u64 + 1);
        let Ok(number) = u32::try_from(self.packets.len()) else {
            return Err(AllocError);
        };
        self.packets.push(packet)?;
        let Ok(()) = note_number(&mut self.early, &mut self.late, place, number) else {
            self.packets.pop();
            return Err(AllocError);
        };
        self.generations = generations;
        Ok(())
    }

    /// The packet of a place, if it is there.
    pub(crate) fn at(&self, place: u64) -> Option<&Packet>
        ensures stream { IsStream self.now }
        ensures found { IfSome result (λ packet. Contains self.now.packets packet.now) }
        ensures place { IfSome result (λ packet. place_of packet.now ≡ place) }
        ensures none { IsNone result → has_place self.now.packets place ≡ false }
    {
        match number_of(&self.early, &self.late, place) {
            Some(number) => Some(&self.packets[number as usize]),
            None => None,
        }
    }

    /// How many generations there are up to the greatest: 0 without packets, else one more than its number.
    pub fn generations(&self) -> u64
        ensures { result ≡ generation_count self.now.packets }
    {
        self.generations
    }

    /// The least place below generation `count` that isn't there, if one isn't.
    pub fn first_missing(&self, count: u64) -> Option<Place>
        requires { count ≤ 2 ^ 32 }
        ensures missing { IfSome result (IsFirstMissing count self.now.packets) }
        ensures whole { IsNone result → IsWhole count self.now.packets }
    {
        for place in 0..count * PIECES as u64 {
            if self.at(place).is_none() {
                return Some(place_at(place));
            }
        }
        None
    }
}
