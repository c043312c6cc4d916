//! Which demands of a code share a decoder.
ghost use Rattle.std.specs.Prelude.{◌≡◌, ◌+◌, ◌*◌, ◌<◌, ◌≤◌, ◌++◌, ◌∷◌, ℕ, [], IfOk, IsTrue, List, length};
ghost use Rattle.std.specs.List.{list_all};
ghost use Rattle.failure_patterns.specs.UsedField.{pair_demands};
ghost use Rattle.gf_tables.specs.Product.{bytes_of_element};
ghost use Rattle.gf_tables.specs.declared.kind.FieldKind.{FieldKind as SpecFieldKind};
ghost use Rattle.node_program.specs.declared.Decoder.{Decoder as SpecDecoder};
ghost use Rattle.code_items.specs.Room.{saturate};
ghost use Rattle.code_items.specs.Shared.{AreSames, decoder_text};
ghost use Rattle.code_items.specs.Sharing.{same_of, sames_after};
ghost use Rattle.code_items.specs.Written.{has_elements, has_size};

use crate::room::{decoders_room, element_room};
use crate::writing::put_decoders;
use gf_tables::FieldKind;
use name_index::Names;
use node_program::Decoder;
use std::alloc::{AllocError, Global};

// How many bytes a decoder of a rate takes, or the greatest number of the machine where that is less.
fn text_room(field: FieldKind, rate: u32) -> usize
    ensures { result ≡ saturate (2 * rate + bytes_of_element field * (rate * rate)) }
{
    let rate = rate as usize;
    let entries = rate
        .saturating_mul(rate)
        .saturating_mul(element_room(field));
    entries.saturating_add(2 * rate)
}

// The same of a demand whose decoder has this text, by the texts so far, each with its number. A new text joins them.
fn same_of_text<'a>(
    texts: &mut Names<'a>,
    numbers: &mut Vec<u32>,
    text: &'a [u8],
    demand: u32,
) -> Result<u32, AllocError>
    requires size { length numbers.old.items ≡ length texts.old }
    requires few { demand < pair_demands }
    ensures { (field : SpecFieldKind) (rate : ℕ) (earlier : List SpecDecoder) (decoder : SpecDecoder)
        → IsTrue (has_size rate decoder) → IsTrue (has_elements field decoder)
        → text.now ≡ decoder_text field decoder → demand ≡ length earlier
        → AreSames field rate texts.old numbers.old.items earlier
        → IfOk result (λ same. (same ≡ same_of earlier decoder)
        × AreSames field rate texts.new numbers.new.items (earlier ++ decoder ∷ [])) }
{
    if let Some(number) = texts.number_of(text) {
        return Ok(numbers[number]);
    }
    texts.add(text)?;
    numbers.push(demand + 1)?;
    Ok(0)
}

/// For each demand one more than the number of the first demand that has its decoder, or 0 where it is that one itself. The
/// decoders have so many links each, and so many times so many entries.
pub fn sames_of(
    alloc: Global,
    field: FieldKind,
    rate: u32,
    decoders: &[Decoder],
) -> Result<Vec<u32>, AllocError>
    requires sizes { IsTrue (list_all (has_size rate) decoders.now) }
    requires elements { IsTrue (list_all (has_elements field) decoders.now) }
    requires few { length decoders.now ≤ pair_demands }
    ensures { IfOk result (λ sames. sames.items ≡ sames_after [] decoders.now) }
{
    let mut texts = Vec::with_capacity(alloc, decoders_room(field, decoders))?;
    put_decoders(&mut texts, field, decoders)?;
    let mut seen = Names::new(alloc);
    let mut numbers = Vec::new(alloc);
    let mut sames = Vec::with_capacity(alloc, decoders.len())?;
    let size = text_room(field, rate);
    let mut rest = texts.as_slice();
    for demand in 0..decoders.len() as u32 {
        let (text, after) = rest.split_at(size);
        sames.push(same_of_text(&mut seen, &mut numbers, text, demand)?)?;
        rest = after;
    }
    Ok(sames)
}
