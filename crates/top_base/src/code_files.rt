//! A code's file that is read, whether the code is accepted or not.
ghost use Rattle.std.specs.Prelude.{◌≤◌, Ok, Err, IfOk, IfErr, length};
ghost use Rattle.lif_outside.specs.Calls.{MakesCalls};
ghost use Rattle.code_file.specs.Items.{IsFileOf};
ghost use Rattle.code_file.specs.Limits.{code_limit};
ghost use Rattle.top_base.specs.CodeFiles.{ReadsFile, RefusesFileOrLosesIt};

use crate::lines::Line;
use crate::outcome::Outcome;
use crate::reading::read_whole;
use crate::status::Status;
use code_file::{CODE_LIMIT, CodeRefusal, read_code};
use lif_outside::Store;
use node_program::Code;
use std::alloc::Global;

// A refused file of a code, or of a draft.
impl<'a> From<CodeRefusal> for Outcome<'a> {
    ghost use Rattle.std.specs.Prelude.{◌≡◌};
    ghost use Rattle.top_base.specs.CodeFiles.{outcome_of_refusal};

    ghost from_gives = { λ why outcome. outcome ≡ outcome_of_refusal why };

    fn from(why: CodeRefusal) -> Outcome<'a> {
        match why {
            CodeRefusal::OutOfMemory => Outcome::out_of_memory(),
            why => Outcome {
                status: Status::CodeRefused(why),
                line: Line::code_refused(why),
            },
        }
    }
}

/// The code of which the bytes are a file.
pub(crate) fn parse<'a>(alloc: Global, bytes: &[u8]) -> Result<Code, Outcome<'a>>
    requires { length bytes.now ≤ code_limit }
    ensures code { IfOk result (IsFileOf bytes.now) }
    ensures refused { IfErr result (RefusesFileOrLosesIt bytes.now) }
{
    Ok(read_code(alloc, bytes)?)
}

/// Reads the code at a path.
pub fn read_file_of_code<'a, S: Store>(
    alloc: Global,
    store: &mut S,
    path: &str,
) -> Result<Code, Outcome<'a>>
    ensures had { IfOk result
        (λ code. MakesCalls S.Store store.old store.new (ReadsFile path.now (Ok code))) }
    ensures lost { IfErr result
        (λ outcome. MakesCalls S.Store store.old store.new (ReadsFile path.now (Err outcome))) }
{
    let bytes = read_whole(store, path, CODE_LIMIT, Vec::new(alloc))?;
    parse(alloc, &bytes)
}
