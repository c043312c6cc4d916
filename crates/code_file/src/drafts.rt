//! The file of a draft, read and written.
ghost use Rattle.std.specs.Prelude.{◌≡◌, ◌≤◌, length, IfOk, IfErr, IsOkUnless};
ghost use Rattle.code_items.specs.DraftParts.{draft_parts_in};
ghost use Rattle.code_items.specs.Gives.{Fails, Gives};
ghost use Rattle.code_items.specs.Limits.{code_limit};
ghost use Rattle.code_items.specs.Parts.{draft_seen};
ghost use Rattle.code_items.specs.declared.refusal.CodeRefusal.TheVariants.{OutOfMemory};
ghost use Rattle.code_file.specs.Drafts.{IsDraftFileOf, draft_bytes, draft_parts_of};
ghost use Rattle.code_file.specs.Spelling.{AreDraftParts};
ghost use Rattle.code_file.specs.declared.draft.Draft.{Draft as SpecDraft};

use crate::draft::Draft;
use crate::nets::net_of;
use code_items::{
    CodeRefusal, DraftParts, Rest, draft_room, put_draft_parts, read_draft_parts, read_end,
};
use std::alloc::{AllocError, Global};

// What stands at the front of a draft's file.
const MARK: &[u8] = b"LIFK";

// The version that stands behind it, alone.
const VERSION: u8 = 2;

const VERSIONS: &[u8] = &[VERSION];

// All that the bytes say.
#[tactic(auto, unfolding(crate::specs::Drafts::draft_parts_of))]
fn read_parts(alloc: Global, bytes: &[u8]) -> Result<DraftParts, CodeRefusal>
    requires { length bytes.now ≤ code_limit }
    ensures { Gives draft_seen result (draft_parts_of bytes.now) }
{
    let (parts, rest) = read_draft_parts(alloc, MARK, VERSIONS, Rest { at: 0, bytes })?;
    read_end(rest)?;
    Ok(parts)
}

// The draft of its parts.
fn draft_of(parts: DraftParts) -> Draft
    requires { AreDraftParts (draft_seen parts) }
    ensures { draft_parts_in parts.version result.net result.rate result.field result.operands
        ≡ draft_seen parts }
{
    let DraftParts {
        version: _,
        front,
        operands,
    } = parts;
    let (rate, field) = (front.rate, front.field);
    Draft::of(net_of(front), rate, field, operands)
}

/// The draft of which the bytes are the file. A refusal is that of the first item that isn't good, and comes only where the
/// bytes are no draft's file.
pub fn read_draft(alloc: Global, bytes: &[u8]) -> Result<Draft, CodeRefusal>
    requires { length bytes.now ≤ code_limit }
    ensures ok { IfOk result (IsDraftFileOf bytes.now) }
    ensures refused { IfErr result (λ why. Fails why (draft_parts_of bytes.now)) }
    ensures none { (draft : SpecDraft) → IsDraftFileOf bytes.now draft → IsOkUnless result OutOfMemory }
{
    let parts = read_parts(alloc, bytes)?;
    Ok(draft_of(parts))
}

/// The file of a draft. Its room is taken once.
#[tactic(auto, unfolding(crate::specs::Drafts::draft_bytes))]
pub fn write_draft(alloc: Global, draft: &Draft) -> Result<Vec<u8>, AllocError>
    ensures { IfOk result (λ bytes. bytes.items ≡ draft_bytes draft.now) }
{
    let mut out = Vec::with_capacity(alloc, draft_room(draft.coding()))?;
    put_draft_parts(&mut out, MARK, VERSION, draft.coding())?;
    Ok(out)
}
