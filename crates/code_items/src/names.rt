//! Names in code files.
ghost use Rattle.std.specs.Prelude.{◌≡◌, ◌++◌, ◌∷◌, [], IfOk};
ghost use Rattle.net_model.specs.Name.{IsName};
ghost use Rattle.code_items.specs.Reading.{any_name_at, other_name_at};
ghost use Rattle.code_items.specs.Gives.{ReadsAs, Reads};

use crate::CodeRefusal;
use crate::items::item;
use crate::rest::Rest;
use name_index::Names;
use net_model::{Name, is_name};
use std::alloc::Global;

// The bytes of the next name, which may be an earlier one.
#[tactic(auto, using(crate::proofs::Checks::name_plain))]
fn name_bytes<'a>(rest: Rest<'a>) -> Result<(&'a [u8], Rest<'a>), CodeRefusal>
    ensures gives { ReadsAs (λ name. name.now) result any_name_at rest.entry }
    ensures valid { IfOk result (λ x. IsName x.0.now) }
{
    let len = match rest.bytes.first() {
        Some(len) => usize::from(*len),
        None => 0,
    };
    let (bytes, after) = item(rest, 1 + len)?;
    let (_, name) = bytes.split_at(1);
    if !is_name(name) {
        return Err(CodeRefusal::BadName { at: rest.at });
    }
    Ok((name, after))
}

/// The next name, which is none of the earlier ones.
#[tactic(auto, using(crate::proofs::Checks::name_checked))]
pub(crate) fn name<'a>(
    alloc: Global,
    rest: Rest<'a>,
    earlier: &mut Names<'a>,
) -> Result<(Name, Rest<'a>), CodeRefusal>
    ensures gives { Reads result (other_name_at earlier.old) rest.entry }
    ensures kept { IfOk result (λ x. earlier.new ≡ earlier.old ++ x.0 ∷ []) }
{
    let (bytes, after) = name_bytes(rest)?;
    if !earlier.add(bytes)? {
        return Err(CodeRefusal::BadName { at: rest.at });
    }
    match Name::of(alloc, bytes) {
        Ok(name) => Ok((name, after)),
        Err(_) => Err(CodeRefusal::OutOfMemory),
    }
}
