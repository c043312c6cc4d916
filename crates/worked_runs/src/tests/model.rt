//! A plain model of what `send` puts and writes where links gave these flights.
use lif_outside::Flight;
use std::alloc::{AllocError, Global};

/// A sum: the numbers of what is added up, each with its coefficient.
pub(super) type Sum = &'static [(usize, u8)];

/// What a link carries: a sum of rows of the source, or of what other links carry.
#[derive(Clone, Copy)]
pub(super) enum Carried {
    Rows(Sum),
    Links(Sum),
}

/// A sink: its file, and for each row the sum of what links carry.
#[derive(Clone, Copy)]
pub(super) struct Taker {
    pub path: &'static str,
    pub rows: &'static [Sum],
}

/// A code, written out.
#[derive(Clone, Copy)]
pub(super) struct Plan {
    pub file: &'static [u8],
    pub rate: usize,
    pub links: &'static [Carried],
    pub takers: &'static [Taker],
}

/// The bytes of a frame behind its first twelve.
type Payload = [u8; 128];

// How many bytes a row has.
const ROW: usize = 1024;

// The product of two elements of the field of 256 elements.
fn product(one: u8, other: u8) -> u8 {
    let mut sum = 0;
    let mut power = one;
    for bit in 0..8u32 {
        if other >> bit & 1 == 1 {
            sum ^= power;
        }
        let doubled = power % 128 * 2;
        power = if power < 128 { doubled } else { doubled ^ 0x1d };
    }
    sum
}

// Adds a multiple of some bytes.
fn add(into: &mut [u8], bytes: &[u8], times: u8) {
    for (sum, byte) in into.iter_mut().zip(bytes) {
        *sum ^= if times == 1 {
            *byte
        } else {
            product(*byte, times)
        };
    }
}

/// A run to be looked at: its code, the blocks one behind the other, and the first payload that was given of each link,
/// generation and piece.
#[derive(Drop)]
pub(super) struct Model {
    plan: Plan,
    generations: usize,
    blocks: Vec<u8>,
    firsts: Vec<Option<Payload>>,
}

// Adds a block of a source: the count of its bytes, they, and zeros up to its size.
fn push_block(blocks: &mut Vec<u8>, bytes: &[u8], end: usize) -> Result<(), AllocError> {
    let count = u32::try_from(bytes.len()).unwrap_or(u32::MAX);
    blocks.extend_from_slice(&count.to_be_bytes())?;
    blocks.extend_from_slice(bytes)?;
    blocks.resize(end, 0)
}

// Adds the blocks of a source.
fn push_blocks(
    blocks: &mut Vec<u8>,
    source: &[u8],
    size: usize,
    generations: usize,
) -> Result<(), AllocError> {
    let room = size.saturating_sub(4).max(1);
    let mut rest = source;
    for generation in 1..=generations {
        let (bytes, behind) = rest.split_at(room.min(rest.len()));
        push_block(blocks, bytes, generation.saturating_mul(size))?;
        rest = behind;
    }
    Ok(())
}

// The payload of a frame.
fn payload_of(flight: &Flight) -> Payload {
    let mut payload = [0; 128];
    payload.copy_from_slice(&flight.frame[12..]);
    payload
}

// The counted bytes of a block, as far as it has them.
fn counted(block: &[u8]) -> &[u8] {
    if block.len() < 4 {
        return &[];
    }
    let count = u32::from_be_bytes([block[0], block[1], block[2], block[3]]) as usize;
    let bytes = &block[4..];
    bytes.get(..count).unwrap_or(bytes)
}

// The place of a piece of a link in a generation among all of them.
fn place_of(links: usize, generation: usize, link: usize, piece: usize) -> usize {
    generation
        .saturating_mul(links)
        .saturating_add(link)
        .saturating_mul(8)
        .saturating_add(piece)
}

// The place of a flight's piece. No generation here is above 255.
fn place_in(links: usize, flight: &Flight) -> usize {
    let generation = flight.frame[11] as usize;
    let piece = flight.frame[3] as usize;
    place_of(links, generation, flight.link as usize, piece)
}

// Sets the first payload of each link, generation and piece among flights.
fn set_firsts(firsts: &mut [Option<Payload>], links: usize, flights: &[Flight]) {
    for flight in flights {
        if let Some(first) = firsts.get_mut(place_in(links, flight)) {
            *first = first.or(Some(payload_of(flight)));
        }
    }
}

// Those.
fn firsts_among(
    alloc: Global,
    links: usize,
    generations: usize,
    flights: &[Flight],
) -> Result<Vec<Option<Payload>>, AllocError> {
    let mut firsts = vec![in alloc; None; place_of(links, generations, 0, 0)]?;
    set_firsts(&mut firsts, links, flights);
    Ok(firsts)
}

impl Model {
    /// The model of a source that goes through a code, where links gave these flights.
    pub(super) fn of(
        alloc: Global,
        plan: &Plan,
        source: &[u8],
        given: &[Flight],
    ) -> Result<Model, AllocError> {
        let size = plan.rate.saturating_mul(ROW);
        let generations = source.len() / size.saturating_sub(4).max(1) + 1;
        let mut blocks = Vec::new(alloc);
        push_blocks(&mut blocks, source, size, generations)?;
        Ok(Model {
            plan: *plan,
            generations,
            blocks,
            firsts: firsts_among(alloc, plan.links.len(), generations, given)?,
        })
    }

    /// How many pairs are put in all.
    pub(super) fn pairs(&self) -> usize {
        place_of(self.plan.links.len(), self.generations, 0, 0)
    }

    /// How many blocks there are.
    pub(super) fn generations(&self) -> usize {
        self.generations
    }

    // A piece of a row of a block.
    fn piece_of_row(&self, generation: usize, row: usize, piece: usize) -> Option<&[u8]> {
        let rows = generation
            .saturating_mul(self.plan.rate)
            .saturating_add(row);
        let start = rows
            .saturating_mul(8)
            .saturating_add(piece)
            .saturating_mul(128);
        self.blocks.get(start..start.saturating_add(128))
    }

    // A piece of a sum of rows.
    fn sum_of_rows(&self, sum: Sum, generation: usize, piece: usize) -> Option<Payload> {
        let mut payload = [0; 128];
        for &(row, times) in sum {
            let bytes = self.piece_of_row(generation, row, piece)?;
            add(&mut payload, bytes, times);
        }
        Some(payload)
    }

    // A piece of a sum of what links gave first.
    fn sum_of_links(&self, sum: Sum, generation: usize, piece: usize) -> Option<Payload> {
        let mut payload = [0; 128];
        for &(link, times) in sum {
            let place = place_of(self.plan.links.len(), generation, link, piece);
            let first = (*self.firsts.get(place)?)?;
            add(&mut payload, &first, times);
        }
        Some(payload)
    }

    // A piece of what a link carries.
    fn carried(&self, generation: usize, link: usize, piece: usize) -> Option<Payload> {
        match *self.plan.links.get(link)? {
            Carried::Rows(sum) => self.sum_of_rows(sum, generation, piece),
            Carried::Links(sum) => self.sum_of_links(sum, generation, piece),
        }
    }

    // Whether a pair that is put is due: a frame of its link, with what the link carries.
    fn is_due(&self, flight: &Flight) -> bool {
        let Ok(link) = u8::try_from(flight.link) else {
            return false;
        };
        let (piece, generation) = (flight.frame[3], flight.frame[11]);
        let address = [0x4c, 0x46, 1, piece, 0, 0, 0, link, 0, 0, 0, generation];
        let carried = self.carried(generation as usize, link as usize, piece as usize);
        piece < 8 && flight.frame.starts_with(&address) && carried == Some(payload_of(flight))
    }

    // How many places the pairs have that are put.
    fn count_places(&self, alloc: Global, puts: &[Flight]) -> Result<usize, AllocError> {
        let places = firsts_among(alloc, self.plan.links.len(), self.generations, puts)?;
        Ok(places.iter().filter(|place| place.is_some()).count())
    }

    /// Whether all pairs that are put are due, and none is put twice.
    pub(super) fn are_due(&self, alloc: Global, puts: &[Flight]) -> bool {
        self.count_places(alloc, puts) == Ok(puts.len())
            && puts.iter().all(|flight| self.is_due(flight))
    }

    // Adds the block of a generation that these rows are.
    fn push_rows(&self, block: &mut Vec<u8>, rows: &[Sum], generation: usize) -> Option<()> {
        for sum in rows {
            for piece in 0..8 {
                let payload = self.sum_of_links(sum, generation, piece)?;
                block.extend_from_slice(&payload).ok()?;
            }
        }
        Some(())
    }

    // Adds the counted bytes of that block.
    fn push_counted(
        &self,
        alloc: Global,
        file: &mut Vec<u8>,
        rows: &[Sum],
        generation: usize,
    ) -> Option<()> {
        let mut block = Vec::new(alloc);
        self.push_rows(&mut block, rows, generation)?;
        file.extend_from_slice(counted(&block)).ok()
    }

    /// Adds the bytes of a sink's file.
    pub(super) fn push_file(&self, alloc: Global, file: &mut Vec<u8>, taker: &Taker) -> Option<()> {
        for generation in 0..self.generations {
            self.push_counted(alloc, file, taker.rows, generation)?;
        }
        Some(())
    }
}
