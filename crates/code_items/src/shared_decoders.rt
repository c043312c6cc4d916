//! The decoders of demands that share them, as a file of version 2 says them.
ghost use Rattle.std.specs.Prelude.{◌≡◌, ℕ, ◌-◌, ◌<◌, ◌≤◌, IfOk, List, ◌++◌, ◌∷◌, [], length, slice_index, take};
ghost use Rattle.node_program.specs.declared.Decoder.{Decoder as SpecDecoder};
ghost use Rattle.code_items.specs.Gives.{Reads, ReadsAll};
ghost use Rattle.code_items.specs.Parts.{front_seen};
ghost use Rattle.code_items.specs.Reading.{same_conditions, long_at, new_decoder_at, named_decoder_at, shared_decoder_at, shared_decoders_at};
ghost use Rattle.code_items.specs.Shared.{AreFirsts, AreTexts};

use crate::CodeRefusal;
use crate::decoders::decoder;
use crate::items::long;
use crate::parts::Front;
use crate::rest::Rest;
use crate::room::element_room;
use name_index::Names;
use net_model::LinkList;
use node_program::{Decoder, Entries};
use std::alloc::{AllocError, Global};

// One more than the number of an earlier demand of the sink, which is the first with its decoder, or 0. Of each earlier demand the
// marks say whether it is the first.
fn read_same<'a>(
    sinks: &[u32],
    firsts: &[bool],
    sink: u32,
    rest: Rest<'a>,
) -> Result<(u32, Rest<'a>), CodeRefusal>
    requires { length firsts.now ≤ length sinks.now }
    ensures reads { (earlier : List SpecDecoder) → AreFirsts firsts.now earlier
        → Reads result (λ rest. long_at rest (same_conditions sinks.now earlier sink rest.at)) rest.entry }
    ensures earlier { IfOk result (λ x. x.0 ≤ length firsts.now) }
{
    let (same, after) = long(rest)?;
    if let Some(demand) = same.checked_sub(1) {
        let demand = demand as usize;
        match firsts.get(demand) {
            None => return Err(CodeRefusal::BadIndex { at: rest.at }),
            Some(_) if sinks[demand] != sink => {
                return Err(CodeRefusal::BadOperand { at: rest.at });
            }
            Some(false) => return Err(CodeRefusal::NotFirst { at: rest.at }),
            Some(true) => {}
        }
    }
    Ok((same, after))
}

// The bytes before so many that are left.
fn before(bytes: &[u8], left: usize) -> &[u8]
    ensures value { result.now ≡ take (length bytes.now - left) bytes.now }
    ensures bytes { (i : ℕ) → slice_index bytes.now i < 256 }
{
    &bytes[..bytes.len().saturating_sub(left)]
}

// The decoder that follows, which no earlier demand has. Its bytes are added to those of the earlier ones.
fn new_decoder<'a>(
    alloc: Global,
    front: &Front,
    texts: &mut Names<'a>,
    sink: u32,
    start: Rest<'a>,
) -> Result<(Decoder, Rest<'a>), CodeRefusal>
    ensures reads { (earlier : List SpecDecoder)
        → AreTexts front.now.field front.now.rate texts.old earlier
        → Reads result (new_decoder_at (front_seen front.now) earlier sink) start.entry }
    ensures texts { (earlier : List SpecDecoder)
        → AreTexts front.now.field front.now.rate texts.old earlier
        → IfOk result (λ x. AreTexts front.now.field front.now.rate texts.new (earlier ++ x.0 ∷ [])) }
{
    let (decoder, rest) = decoder(alloc, front, sink, start)?;
    let text = before(start.bytes, rest.bytes.len());
    if !texts.add(text)? {
        let last = rest.at.saturating_sub(element_room(front.field) as u64);
        return Err(CodeRefusal::Written { at: last });
    }
    Ok((decoder, rest))
}

// The same decoder once more.
fn copy_of(alloc: Global, decoder: &Decoder) -> Result<Decoder, AllocError>
    ensures { IfOk result (λ copy. copy ≡ decoder.now) }
{
    Ok(Decoder {
        links: LinkList::of(decoder.links.as_slice().to_vec(alloc)?),
        entries: Entries::of(decoder.entries.as_slice().to_vec(alloc)?),
    })
}

// The decoder of the earlier demand that a number names, or the one that follows where it is 0.
fn named_decoder<'a>(
    alloc: Global,
    front: &Front,
    earlier: &[Decoder],
    texts: &mut Names<'a>,
    sink: u32,
    same: u32,
    rest: Rest<'a>,
) -> Result<(Decoder, Rest<'a>), CodeRefusal>
    requires within { same ≤ length earlier.now }
    requires texts { AreTexts front.now.field front.now.rate texts.old earlier.now }
    ensures gives { Reads result (named_decoder_at (front_seen front.now) earlier.now sink same) rest.entry }
    ensures texts { IfOk result (λ x. AreTexts front.now.field front.now.rate texts.new (earlier.now ++ x.0 ∷ [])) }
{
    match same.checked_sub(1) {
        None => new_decoder(alloc, front, texts, sink, rest),
        Some(demand) => Ok((copy_of(alloc, &earlier[demand as usize])?, rest)),
    }
}

// The decoder of one demand, which is noted.
fn shared_decoder<'a>(
    alloc: Global,
    front: &Front,
    sinks: &[u32],
    earlier: &[Decoder],
    firsts: &mut Vec<bool>,
    texts: &mut Names<'a>,
    sink: u32,
    rest: Rest<'a>,
) -> Result<(Decoder, Rest<'a>), CodeRefusal>
    requires few { length earlier.now ≤ length sinks.now }
    requires firsts { AreFirsts firsts.old.items earlier.now }
    requires texts { AreTexts front.now.field front.now.rate texts.old earlier.now }
    ensures gives { Reads result (shared_decoder_at (front_seen front.now) sinks.now earlier.now sink) rest.entry }
    ensures firsts { IfOk result (λ x. AreFirsts firsts.new.items (earlier.now ++ x.0 ∷ [])) }
    ensures texts { IfOk result (λ x. AreTexts front.now.field front.now.rate texts.new (earlier.now ++ x.0 ∷ [])) }
{
    let (same, rest) = read_same(sinks, firsts, sink, rest)?;
    let (decoder, rest) = named_decoder(alloc, front, earlier, texts, sink, same, rest)?;
    firsts.push(same == 0)?;
    Ok((decoder, rest))
}

/// A decoder for each of the sinks.
pub(crate) fn shared_decoders<'a>(
    alloc: Global,
    front: &Front,
    sinks: &[u32],
    start: Rest<'a>,
) -> Result<(Vec<Decoder>, Rest<'a>), CodeRefusal>
    ensures { ReadsAll result (shared_decoders_at (front_seen front.now) sinks.now) start.entry }
{
    let mut decoders = Vec::with_capacity(alloc, sinks.len())?;
    let mut firsts = Vec::with_capacity(alloc, sinks.len())?;
    let mut texts = Names::new(alloc);
    let mut rest = start;
    for sink in sinks {
        let (one, after) = shared_decoder(
            alloc,
            front,
            sinks,
            &decoders,
            &mut firsts,
            &mut texts,
            *sink,
            rest,
        )?;
        decoders.push(one)?;
        rest = after;
    }
    Ok((decoders, rest))
}
