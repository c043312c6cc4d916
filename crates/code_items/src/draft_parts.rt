//! A code file before the decoders, which is all of the file of a draft.
ghost use Rattle.std.specs.Prelude.{◌≡◌};
ghost use Rattle.code_items.specs.DraftParts.{IsDraftRoom, draft_items, draft_parts_at};
ghost use Rattle.code_items.specs.Gives.{ReadsAs};
ghost use Rattle.code_items.specs.Parts.{draft_seen};
ghost use Rattle.code_items.specs.Written.{Adds};

use crate::CodeRefusal;
use crate::front::{read_front, read_version};
use crate::operands::read_operand_table;
use crate::parts::DraftParts;
use crate::rest::Rest;
use crate::room::{front_room, operands_room};
use crate::writing::{put_front, put_operand_table};
use node_program::{Coding, OperandTable};
use std::alloc::{AllocError, Global};

/// What stands before the decoders, behind a mark of four bytes and one of the versions that it allows, and what is left. A
/// refusal is that of the first item that isn't good.
#[tactic(auto, unfolding(crate::specs::DraftParts::draft_parts_at))]
pub fn read_draft_parts<'a>(
    alloc: Global,
    mark: &[u8],
    versions: &[u8],
    start: Rest<'a>,
) -> Result<(DraftParts, Rest<'a>), CodeRefusal>
    ensures { ReadsAs draft_seen result (draft_parts_at mark.now versions.now) start.entry }
{
    let (version, rest) = read_version(mark, versions, start)?;
    let (front, rest) = read_front(alloc, version, rest)?;
    let (operands, rest) = read_operand_table(alloc, &front, rest)?;
    let parts = DraftParts {
        version,
        front,
        operands: OperandTable::of(operands),
    };
    Ok((parts, rest))
}

/// Adds all before the decoders. Where memory runs out, some may have been added.
#[tactic(auto, unfolding(crate::specs::DraftParts::draft_items))]
pub fn put_draft_parts(
    out: &mut Vec<u8>,
    mark: &[u8],
    version: u8,
    coding: Coding<'_>,
) -> Result<(), AllocError>
    ensures { Adds result out.old out.new
        (draft_items mark.now version coding.entry.net.now coding.entry.rate coding.entry.field coding.entry.operands.now) }
{
    put_front(out, mark, version, coding.net, coding.rate, coding.field)?;
    put_operand_table(out, coding.field, coding.operands.as_slice())
}

/// How much room all before the decoders takes, in bytes, behind a mark of four bytes, or the greatest number of the machine
/// where that is less.
pub fn draft_room(coding: Coding<'_>) -> usize
    ensures { IsDraftRoom coding.entry.net.now coding.entry.rate coding.entry.field coding.entry.operands.now result }
{
    let front = front_room(coding.net);
    front.saturating_add(operands_room(coding.field, coding.operands.as_slice()))
}
