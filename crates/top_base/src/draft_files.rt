//! A draft's file that is read.
ghost use Rattle.std.specs.Prelude.{◌≤◌, Ok, Err, IfOk, IfErr, length};
ghost use Rattle.lif_outside.specs.Calls.{MakesCalls};
ghost use Rattle.code_file.specs.Drafts.{IsDraftFileOf};
ghost use Rattle.code_file.specs.Limits.{code_limit};
ghost use Rattle.top_base.specs.DraftFiles.{ReadsDraft, RefusesDraftOrLosesIt};

use crate::outcome::Outcome;
use crate::reading::read_whole;
use code_file::{CODE_LIMIT, Draft, read_draft};
use lif_outside::Store;
use std::alloc::Global;

// The draft of which the bytes are the file.
fn parse<'a>(alloc: Global, bytes: &[u8]) -> Result<Draft, Outcome<'a>>
    requires { length bytes.now ≤ code_limit }
    ensures draft { IfOk result (IsDraftFileOf bytes.now) }
    ensures refused { IfErr result (RefusesDraftOrLosesIt bytes.now) }
{
    Ok(read_draft(alloc, bytes)?)
}

/// Reads the draft at a path.
pub fn read_file_of_draft<'a, S: Store>(
    alloc: Global,
    store: &mut S,
    path: &str,
) -> Result<Draft, Outcome<'a>>
    ensures had { IfOk result
        (λ draft. MakesCalls S.Store store.old store.new (ReadsDraft path.now (Ok draft))) }
    ensures lost { IfErr result
        (λ outcome. MakesCalls S.Store store.old store.new (ReadsDraft path.now (Err outcome))) }
{
    let bytes = read_whole(store, path, CODE_LIMIT, Vec::new(alloc))?;
    parse(alloc, &bytes)
}
