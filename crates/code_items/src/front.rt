//! A code file up to the operands.
ghost use Rattle.std.specs.Prelude.{◌≡◌, ◌≤◌, IfOk};
ghost use Rattle.net_model.specs.Limits.{highest_rate};
ghost use Rattle.code_items.specs.Reading.{mark_at, has_field, field_at, rate_at, front_at};
ghost use Rattle.code_items.specs.Gives.{ReadsAs, Reads};
ghost use Rattle.code_items.specs.Parts.{front_seen};

use crate::CodeRefusal;
use crate::items::{byte, index, item};
use crate::links::links;
use crate::nodes::{nodes, sinks};
use crate::parts::Front;
use crate::patterns::patterns;
use crate::rest::Rest;
use gf_tables::FieldKind;
use net_model::HIGHEST_RATE;
use std::alloc::Global;

/// The version behind a mark of four bytes, which is one of those that the mark allows, and what is left.
#[tactic(auto, using(crate::proofs::Checks::item_checked, crate::proofs::Checks::byte_checked), unfolding(crate::specs::Reading::mark_at))]
pub(crate) fn read_version<'a>(
    mark: &[u8],
    versions: &[u8],
    start: Rest<'a>,
) -> Result<(u8, Rest<'a>), CodeRefusal>
    ensures { Reads result (mark_at mark.now versions.now) start.entry }
{
    let (bytes, rest) = item(start, 4)?;
    if bytes != mark {
        return Err(CodeRefusal::BadMagic);
    }
    let (version, rest) = byte(rest)?;
    if !versions.contains(&version) {
        return Err(CodeRefusal::BadVersion);
    }
    Ok((version, rest))
}

// Whether a code over the field can stand in a file of the version.
fn has_field(version: u8, field: FieldKind) -> bool
    ensures { result ≡ has_field version field }
{
    match field {
        FieldKind::Eight | FieldKind::Sixteen => true,
        FieldKind::Nine => version != 1,
    }
}

// The field.
#[tactic(auto, using(crate::proofs::Checks::byte_checked), unfolding(crate::specs::Reading::field_at))]
fn field<'a>(version: u8, rest: Rest<'a>) -> Result<(FieldKind, Rest<'a>), CodeRefusal>
    ensures { Reads result (field_at version) rest.entry }
{
    let (number, after) = byte(rest)?;
    match FieldKind::of_mark(number) {
        Some(field) if has_field(version, field) => Ok((field, after)),
        _ => Err(CodeRefusal::BadField),
    }
}

// The rate.
#[tactic(auto, using(crate::proofs::Checks::byte_checked))]
fn rate<'a>(rest: Rest<'a>) -> Result<(u32, Rest<'a>), CodeRefusal>
    ensures gives { Reads result rate_at rest.entry }
    ensures low_rate { IfOk result (λ x. x.0 ≤ highest_rate) }
{
    let (number, after) = byte(rest)?;
    let rate = u32::from(number);
    if rate == 0 || rate > HIGHEST_RATE {
        return Err(CodeRefusal::BadRate);
    }
    Ok((rate, after))
}

/// All behind the version and up to the operands: what stands there, and what is left. A refusal is that of the first item that
/// isn't good.
#[tactic(auto, unfolding(crate::specs::Reading::front_at))]
pub(crate) fn read_front<'a>(
    alloc: Global,
    version: u8,
    start: Rest<'a>,
) -> Result<(Front, Rest<'a>), CodeRefusal>
    ensures { ReadsAs front_seen result (front_at version) start.entry }
{
    let (field, rest) = field(version, start)?;
    let (rate, rest) = rate(rest)?;
    let (nodes, rest) = nodes(alloc, rest)?;
    let (links, rest) = links(alloc, nodes.len(), rest)?;
    let (source, rest) = index(rest, nodes.len())?;
    let (sinks, rest) = sinks(alloc, nodes.len(), source, rest)?;
    let (patterns, rest) = patterns(alloc, links.len(), sinks.len(), rest)?;
    let front = Front {
        field,
        rate,
        nodes,
        links,
        source,
        sinks,
        patterns,
    };
    Ok((front, rest))
}
