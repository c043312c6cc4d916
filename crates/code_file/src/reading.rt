//! All of a code file.
ghost use Rattle.std.specs.Prelude.{◌≡◌, ◌≤◌, length, IfOk, IfErr, IsOkUnless};
ghost use Rattle.node_program.specs.declared.code.Code.{Code as SpecCode};
ghost use Rattle.code_file.specs.Items.{IsFileOf};
ghost use Rattle.code_items.specs.Limits.{code_limit};
ghost use Rattle.code_file.specs.Reading.{contents_of};
ghost use Rattle.code_items.specs.Gives.{Fails, Gives};
ghost use Rattle.code_file.specs.Parts.{contents_seen};
ghost use Rattle.code_file.specs.Spelling.{contents_in, AreContents};
ghost use Rattle.code_items.specs.declared.refusal.CodeRefusal.TheVariants.{OutOfMemory};

use crate::nets::net_of;
use crate::parts::Parts;
use code_items::{CodeRefusal, DraftParts, Rest, read_decoders, read_draft_parts, read_end};
use node_program::{Code, DecoderTable};
use std::alloc::Global;

/// The greatest length of a code file, in bytes.
pub const CODE_LIMIT: usize = 268_435_456;

/// What stands at the front of a code file.
pub(crate) const MARK: &[u8] = b"LIFC";

// The versions that can stand behind it.
const VERSIONS: &[u8] = &[1, 2];

// All that the bytes say.
#[tactic(auto, unfolding(crate::specs::Reading::contents_of, crate::specs::Reading::contents_at))]
fn read_parts(alloc: Global, bytes: &[u8]) -> Result<Parts, CodeRefusal>
    requires { length bytes.now ≤ code_limit }
    ensures { Gives contents_seen result (contents_of bytes.now) }
{
    let (draft, rest) = read_draft_parts(alloc, MARK, VERSIONS, Rest { at: 0, bytes })?;
    let (decoders, rest) = read_decoders(alloc, draft.version, &draft.front, rest)?;
    read_end(rest)?;
    Ok(Parts {
        draft,
        decoders: DecoderTable::of(decoders),
    })
}

// The code of its parts.
fn code_of(parts: Parts) -> Code
    requires { AreContents (contents_seen parts) }
    ensures { contents_in parts.draft.version result ≡ contents_seen parts }
{
    let Parts { draft, decoders } = parts;
    let DraftParts {
        version: _,
        front,
        operands,
    } = draft;
    let (rate, field) = (front.rate, front.field);
    Code::of(net_of(front), rate, field, operands, decoders)
}

/// The code of which the bytes are a file, in either version. A refusal is that of the first item that isn't good, and
/// comes only where the bytes are no code's file.
pub fn read_code(alloc: Global, bytes: &[u8]) -> Result<Code, CodeRefusal>
    requires { length bytes.now ≤ code_limit }
    ensures ok { IfOk result (IsFileOf bytes.now) }
    ensures refused { IfErr result (λ why. Fails why (contents_of bytes.now)) }
    ensures none { (code : SpecCode) → IsFileOf bytes.now code → IsOkUnless result OutOfMemory }
{
    let parts = read_parts(alloc, bytes)?;
    Ok(code_of(parts))
}
