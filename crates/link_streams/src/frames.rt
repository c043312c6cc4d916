//! The frames that a node writes of a generation.
ghost use Rattle.std.specs.Prelude.{◌≡◌, ◌<◌, ◌≤◌, ◌*◌, All, IfOk, Some, length, replicate, slice_get};
ghost use Rattle.generation_frame.specs.Blocks.{piece_bytes, pieces};
ghost use Rattle.generation_frame.specs.Frames.{frame_of};
ghost use Rattle.link_streams.specs.Filled.{frames_of, with_frame};
ghost use Rattle.link_streams.specs.Reading.{frame_bytes};
ghost use Rattle.net_model.specs.Limits.{most_links};

use code_checker::Checked;
use generation_frame::{FRAME, PIECE, PIECES, Packet, frame_of};
use node_plans::LiveWiring;
use std::alloc::{AllocError, Global};
use std::marker::Model;

/// The bytes of the frames of a link's pieces.
const LINK_FRAMES: usize = PIECES * FRAME;

/// Room for the frames of one generation, for each live link out of a node: contracts see the links and the bytes of the
/// frames of each.
#[derive(Drop)]
pub struct Frames {
    links: Vec<u32>,
    bytes: Vec<[u8; 1120]>,
}

impl Model for Frames {
    ghost use Rattle.link_streams.specs.Filled.{FrameRows};

    ghost Value = { FrameRows };

    ghost use Rattle.std.specs.Prelude.{◌≡◌, ◌≤◌, ◌*◌, All, length};
    ghost use Rattle.generation_frame.specs.Blocks.{pieces};
    ghost use Rattle.link_streams.specs.Reading.{frame_bytes};
    ghost use Rattle.net_model.specs.Limits.{most_links};

    ghost view = { λ frames. record { links = frames.links.items; bytes = frames.bytes.items } };

    ghost invariant = { λ frames. (length frames.bytes.items ≡ length frames.links.items)
        × (length frames.links.items ≤ most_links)
        × All (λ one. length one ≡ pieces * frame_bytes) frames.bytes.items };
}

// Writes the frame of a packet among those of a link.
fn put_frame(frames: &mut [u8; 1120], packet: &Packet)
    requires { packet.now.piece < pieces }
    ensures value { frames.new ≡ with_frame packet.now frames.old }
    ensures room { length frames.new ≡ pieces * frame_bytes }
    ensures bytes { length (frame_of packet.now) ≡ frame_bytes }
{
    let start = packet.piece as usize * FRAME;
    frames[start..start + FRAME].copy_from_slice(&frame_of(packet));
}

// The frames of a link before any generation: those of generation 0, of zeros.
fn blank_frames(link: u32) -> [u8; 1120]
    ensures { result ≡ frames_of link 0 (λ piece. replicate piece_bytes 0) }
{
    let mut frames = [0; LINK_FRAMES];
    for piece in 0..PIECES {
        let packet = Packet {
            link,
            generation: 0,
            piece: piece as u8,
            payload: [0; PIECE],
        };
        put_frame(&mut frames, &packet);
    }
    frames
}

impl Frames {
    ghost use Rattle.link_streams.specs.Filled.{blank, with_packet};
    ghost use Rattle.node_plans.specs.Plans.{outs_of};

    /// Makes room for the live links out of a node, in rising order.
    pub fn open(
        alloc: Global,
        code: &Checked,
        pattern: u32,
        node: u32,
    ) -> Result<Frames, AllocError>
        requires pattern { pattern < length code.now.net.patterns }
        requires node { node < length code.now.net.nodes }
        ensures { IfOk result (λ frames. frames ≡ blank (outs_of code.now pattern node)) }
    {
        let wiring = LiveWiring::of(alloc, code.code(), pattern)?;
        let plan = wiring.plan(alloc, code.code(), pattern, node)?;
        let links = plan.outs.as_slice();
        let mut bytes = Vec::with_capacity(alloc, links.len())?;
        for link in links {
            bytes.push(blank_frames(*link))?;
        }
        Ok(Frames {
            links: links.to_vec(alloc)?,
            bytes,
        })
    }

    /// How many links there are.
    pub fn len(&self) -> u32
        ensures { result ≡ length self.now.links }
    {
        self.links.len() as u32
    }

    /// The link at a place.
    pub fn link(&self, place: u32) -> u32
        requires { place < length self.now.links }
        ensures { slice_get self.now.links place ≡ Some result }
    {
        self.links[place as usize]
    }

    /// The frames of the link at a place, those of the generation that was passed last.
    pub fn at(&self, place: u32) -> &[u8]
        requires { place < length self.now.links }
        ensures { slice_get self.now.bytes place ≡ Some result.now }
    {
        &self.bytes[place as usize]
    }

    // How many frames there is room for: eight of each link.
    pub(crate) fn frame_count(&self) -> usize
        ensures count { result ≡ length self.now.links * pieces }
        ensures few { length self.now.links ≤ most_links }
        ensures links { length self.now.bytes ≡ length self.now.links }
        ensures room { All (λ frames. length frames ≡ pieces * frame_bytes) self.now.bytes }
    {
        self.bytes.len() * PIECES
    }

    // Writes the frame of a packet among those of the link at a place.
    pub(crate) fn write(&mut self, place: u32, packet: &Packet)
        requires place { place < length self.old.links }
        requires piece { packet.now.piece < pieces }
        ensures value { self.new ≡ with_packet place packet.now self.old }
        ensures bytes { length (frame_of packet.now) ≡ frame_bytes }
    {
        put_frame(&mut self.bytes[place as usize], packet);
    }
}
