//! Sinks that know no code, fed by hand.
ghost use Rattle.std.specs.Prelude.{◌≡◌, ◌<◌, length};

use super::told::is_of_runs;
use generation_frame::Packet;
use gf_tables::{Field, Gf8, Gf9, Gf16};
use std::alloc::{AllocError, Global};
use std::test::Fail;
use vector_headers::{Blind, Gain};

// Vectors of a row, of twice the row, and of the sum of it and another.
#[derive(Drop)]
struct Vectors<'a, F> {
    one: &'a [F],
    two: &'a [F],
    both: &'a [F],
    ghost one_width: { length one.now ≡ 2 },
    ghost two_width: { length two.now ≡ 2 },
    ghost both_width: { length both.now ≡ 2 },
}

// A packet of a piece, with one byte throughout.
fn packet(piece: u8, byte: u8) -> Packet
    ensures { result.piece ≡ piece }
{
    Packet {
        link: 0,
        generation: 0,
        piece,
        payload: [byte; 128],
    }
}

// Whether three rows of a piece bring what they should: twice the first row of a block, the first row with a payload that
// isn't its own, and the sum of both rows. All bytes of the first row are one more than the piece's number, and those of
// the second 0x50 more.
fn gains<F: Field>(blind: &mut Blind<F>, vectors: &Vectors<'_, F>, piece: u8) -> bool
    requires rate { blind.old.rate ≡ 2 }
    requires piece { piece < 8 }
    ensures { blind.new.rate ≡ 2 }
{
    let first = piece + 1;
    let twice = blind.accept(vectors.two, &packet(piece, 2 * first));
    let again = blind.accept(vectors.one, &packet(piece, 99));
    let both = blind.accept(vectors.both, &packet(piece, first ^ (0x50 + piece)));
    twice == Gain::Raised && again == Gain::Same && both == Gain::Raised
}

// The same of all pieces.
fn all_gain<F: Field>(blind: &mut Blind<F>, vectors: &Vectors<'_, F>) -> bool
    requires { blind.old.rate ≡ 2 }
    ensures { blind.new.rate ≡ 2 }
{
    let low = gains(blind, vectors, 0) & gains(blind, vectors, 1) & gains(blind, vectors, 2);
    let middle = gains(blind, vectors, 3) & gains(blind, vectors, 4) & gains(blind, vectors, 5);
    low & middle & gains(blind, vectors, 6) & gains(blind, vectors, 7)
}

// Whether a block has the bytes of both rows.
fn is_block(block: &[u8; 2048]) -> bool {
    for place in 0..8 {
        let piece = place as u8;
        let first = &block[128 * place..128 * place + 128];
        let second = &block[1024 + 128 * place..1024 + 128 * place + 128];
        if !is_of_runs(first, &[(128, piece + 1)]) || !is_of_runs(second, &[(128, 0x50 + piece)]) {
            return false;
        }
    }
    true
}

// Whether a sink of rate 2 gives the block, and nothing once it is cleared.
fn gives_block<F: Field>(alloc: Global, vectors: &Vectors<'_, F>) -> Result<bool, AllocError> {
    let mut blind = Blind::<F>::open(alloc, 2)?;
    let none = !blind.is_whole();
    let gained = all_gain(&mut blind, vectors);
    let mut block = [0; 2048];
    if blind.is_whole() {
        blind.block(&mut block);
    }
    blind.clear();
    Ok(none & gained & is_block(&block) & (blind.rank(7) == 0))
}

// Whether a sink that has a vector of rate 2 of piece 4 alone shows the first of two elements as it should, up to a multiple: the
// second is so many times the first, which isn't zero.
fn hides<F: Field>(
    alloc: Global,
    vector: &[F],
    times: F,
    found: &mut [F],
) -> Result<bool, AllocError>
    requires vector { length vector.now ≡ 2 }
    requires found { length found.old ≡ 2 }
{
    let mut blind = Blind::<F>::open(alloc, 2)?;
    let gain = blind.accept(vector, &packet(4, 0));
    if blind.rank(4) != 1 {
        return Ok(false);
    }
    blind.hidden(4, found);
    let first = found[0];
    let second = found[1];
    Ok(gain == Gain::Raised && first != F::zero() && first.mul(times) == second)
}

fn over_gf8(alloc: Global) -> Result<bool, AllocError> {
    let zero = Gf8::zero();
    let one = Gf8::one();
    let two = Gf8::of_number(2);
    let three = Gf8::of_number(3);
    let vectors = Vectors {
        one: &[one, zero],
        two: &[two, zero],
        both: &[one, one],
    };
    let block = gives_block(alloc, &vectors)?;
    let hidden = hides(alloc, &[three, one], three, &mut [zero, zero])?;
    Ok(block && hidden)
}

fn over_gf9(alloc: Global) -> Result<bool, AllocError> {
    let zero = Gf9::zero();
    let one = Gf9::one();
    let two = Gf9::of_number(2);
    let three = Gf9::of_number(3);
    let vectors = Vectors {
        one: &[one, zero],
        two: &[two, zero],
        both: &[one, one],
    };
    let block = gives_block(alloc, &vectors)?;
    let hidden = hides(alloc, &[three, one], three, &mut [zero, zero])?;
    Ok(block && hidden)
}

fn over_gf16(alloc: Global) -> Result<bool, AllocError> {
    let zero = Gf16::zero();
    let one = Gf16::one();
    let two = Gf16::of_number(2);
    let three = Gf16::of_number(3);
    let vectors = Vectors {
        one: &[one, zero],
        two: &[two, zero],
        both: &[one, one],
    };
    let block = gives_block(alloc, &vectors)?;
    let hidden = hides(alloc, &[three, one], three, &mut [zero, zero])?;
    Ok(block && hidden)
}

#[test]
fn sinks_that_know_no_code_give_blocks(rt: HostRuntime) -> Result<(), Fail> {
    assert!(rt; over_gf8(rt.alloc())?);
    assert!(rt; over_gf9(rt.alloc())?);
    assert!(rt; over_gf16(rt.alloc())?);
    Ok(())
}
