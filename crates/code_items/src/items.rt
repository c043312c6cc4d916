//! The next items of a file: numbers and elements.
ghost use Rattle.std.specs.Prelude.{◌≡◌, ◌<◌, ◌≤◌, length, IfOk};
ghost use Rattle.gf_tables.specs.Product.{size_of};
ghost use Rattle.code_items.specs.Reading.{any, item, byte_at, number_at, long_at, element_at, count_at, positive_count_at, index_at};
ghost use Rattle.code_items.specs.Gives.{ReadsAs, Reads};

use crate::CodeRefusal;
use crate::rest::Rest;
use gf_tables::{FieldKind, Width};

/// The next item, of so many bytes.
#[tactic(auto, unfolding(crate::specs::Reading::item))]
pub(crate) fn item<'a>(rest: Rest<'a>, size: usize) -> Result<(&'a [u8], Rest<'a>), CodeRefusal>
    ensures gives { ReadsAs (λ bytes. bytes.now) result (any (item size)) rest.entry }
    ensures size { IfOk result (λ x. length x.0.now ≡ size) }
{
    if rest.bytes.len() < size {
        return Err(CodeRefusal::Truncated { at: rest.at });
    }
    let (item, after) = rest.bytes.split_at(size);
    Ok((
        item,
        Rest {
            at: rest.at + size as u64,
            bytes: after,
        },
    ))
}

/// A number of one byte.
#[tactic(auto, unfolding(crate::specs::Reading::byte_at))]
pub(crate) fn byte<'a>(rest: Rest<'a>) -> Result<(u8, Rest<'a>), CodeRefusal>
    ensures { Reads result (any byte_at) rest.entry }
{
    let (item, after) = item(rest, 1)?;
    Ok((item[0], after))
}

/// A number of two bytes.
#[tactic(auto, unfolding(crate::specs::Reading::number_at))]
pub(crate) fn number<'a>(rest: Rest<'a>) -> Result<(u16, Rest<'a>), CodeRefusal>
    ensures { Reads result (any number_at) rest.entry }
{
    let (item, after) = item(rest, 2)?;
    Ok((u16::from_be_bytes([item[0], item[1]]), after))
}

/// A number of four bytes.
#[tactic(auto, unfolding(crate::specs::Reading::long_at))]
pub(crate) fn long<'a>(rest: Rest<'a>) -> Result<(u32, Rest<'a>), CodeRefusal>
    ensures { Reads result (any long_at) rest.entry }
{
    let (item, after) = item(rest, 4)?;
    Ok((
        u32::from_be_bytes([item[0], item[1], item[2], item[3]]),
        after,
    ))
}

/// The number of an element.
pub(crate) fn element<'a>(field: FieldKind, rest: Rest<'a>) -> Result<(u32, Rest<'a>), CodeRefusal>
    ensures gives { Reads result (any (element_at field)) rest.entry }
    ensures below { IfOk result (λ x. x.0 < size_of field) }
{
    match field.width() {
        Width::One => {
            let (number, after) = byte(rest)?;
            Ok((u32::from(number), after))
        }
        Width::Two => {
            let (number, after) = number(rest)?;
            Ok((u32::from(number), after))
        }
    }
}

/// A count that has a limit.
#[tactic(auto, using(crate::proofs::Checks::number_checked))]
pub(crate) fn count<'a>(rest: Rest<'a>, limit: usize) -> Result<(u16, Rest<'a>), CodeRefusal>
    ensures gives { Reads result (count_at limit) rest.entry }
    ensures within { IfOk result (λ x. x.0 ≤ limit) }
{
    let (count, after) = number(rest)?;
    if usize::from(count) > limit {
        return Err(CodeRefusal::TooMany { at: rest.at });
    }
    Ok((count, after))
}

/// A count that has a limit, of a list that isn't empty.
#[tactic(auto, using(crate::proofs::Checks::number_checked))]
pub(crate) fn positive_count<'a>(
    rest: Rest<'a>,
    limit: usize,
) -> Result<(u16, Rest<'a>), CodeRefusal>
    ensures gives { Reads result (positive_count_at limit) rest.entry }
    ensures within { IfOk result (λ x. x.0 ≤ limit) }
{
    let (count, after) = number(rest)?;
    if count == 0 {
        return Err(CodeRefusal::BadIndex { at: rest.at });
    }
    if usize::from(count) > limit {
        return Err(CodeRefusal::TooMany { at: rest.at });
    }
    Ok((count, after))
}

/// A number below a limit.
#[tactic(auto, using(crate::proofs::Checks::number_checked))]
pub(crate) fn index<'a>(rest: Rest<'a>, limit: usize) -> Result<(u32, Rest<'a>), CodeRefusal>
    ensures gives { Reads result (index_at limit) rest.entry }
    ensures below { IfOk result (λ x. x.0 < limit) }
{
    let (index, after) = number(rest)?;
    if usize::from(index) >= limit {
        return Err(CodeRefusal::BadIndex { at: rest.at });
    }
    Ok((u32::from(index), after))
}
