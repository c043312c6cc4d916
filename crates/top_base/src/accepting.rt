//! A code that is read and checked.
ghost use Rattle.std.specs.Prelude.{◌≤◌, ℕ, List, Ok, Err, IfOk, IfErr, length};
ghost use Rattle.lif_outside.specs.Calls.{MakesCalls};
ghost use Rattle.code_checker.specs.Checking.{IsRefusal};
ghost use Rattle.code_file.specs.Items.{IsFileOf};
ghost use Rattle.code_file.specs.Limits.{code_limit};
ghost use Rattle.top_base.specs.Accepting.{IsCodeOf, RefusesCodeOrLosesIt, ReadsCode};

use crate::code_files::parse;
use crate::lines::Line;
use crate::outcome::Outcome;
use crate::reading::read_whole;
use crate::status::Status;
use code_checker::{CheckRefusal, Checked, Refused, check};
use code_file::CODE_LIMIT;
use lif_outside::{Gate, Store};
use std::alloc::Global;
use std::thread::Threads;

// What a code that isn't accepted, or couldn't be checked, makes of the command.
fn unaccepted<'a>(refused: &Refused) -> Outcome<'a>
    requires { IsRefusal refused.now.code refused.now.why }
    ensures { (bytes : List ℕ) → IsFileOf bytes refused.now.code → RefusesCodeOrLosesIt bytes result }
{
    match refused.why {
        CheckRefusal::NotIdentity {
            demand,
            row,
            column,
            found,
        } => Outcome {
            status: Status::CheckFailed {
                demand,
                row,
                column,
                found,
            },
            line: Line::check_failed(&refused.code.net, demand, row, column, found),
        },
        CheckRefusal::OutOfMemory => Outcome::out_of_memory(),
    }
}

// The code of which the bytes are a file, checked.
fn accept<'a, G: Gate + Sync, R: Threads + Sync>(
    rt: &R,
    alloc: Global,
    bytes: &[u8],
    gate: &G,
) -> Result<Checked, Outcome<'a>>
    requires { length bytes.now ≤ code_limit }
    ensures code { IfOk result (λ checked. IsCodeOf bytes.now checked) }
    ensures refused { IfErr result (λ outcome. RefusesCodeOrLosesIt bytes.now outcome) }
{
    let code = parse(alloc, bytes)?;
    match check(rt, alloc, code, gate) {
        Ok(checked) => Ok(checked),
        Err(refused) => Err(unaccepted(&refused)),
    }
}

/// Reads the code at a path, and checks it.
pub fn read_accepted<'a, S: Store, G: Gate + Sync, R: Threads + Sync>(
    rt: &R,
    alloc: Global,
    store: &mut S,
    path: &str,
    gate: &G,
) -> Result<Checked, Outcome<'a>>
    ensures had { IfOk result
        (λ checked. MakesCalls S.Store store.old store.new (ReadsCode path.now (Ok checked))) }
    ensures lost { IfErr result
        (λ outcome. MakesCalls S.Store store.old store.new (ReadsCode path.now (Err outcome))) }
{
    let bytes = read_whole(store, path, CODE_LIMIT, Vec::new(alloc))?;
    accept(rt, alloc, &bytes, gate)
}
