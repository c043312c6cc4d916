//! Files that are made whole.
ghost use Rattle.std.specs.Prelude.{◌≡◌, ◌∷◌, [], OnErr, OnOk};
ghost use Rattle.std.specs.Option.{option_map};
ghost use Rattle.lif_outside.specs.Calls.{MakesCalls};
ghost use Rattle.lif_outside.specs.FileCalls.{StopsWithin};
ghost use Rattle.lif_outside.specs.Sequences.{Are};
ghost use Rattle.lif_outside.specs.Writes.{writes_of};
ghost use Rattle.top_base.specs.Paths.{shared_path};
ghost use Rattle.top_tools.specs.CodeWriting.{WritesAll, WritesCode};

use crate::making::Made;
use code_file::{CODE_LIMIT, write_code};
use lif_outside::{Failed, Store};
use node_program::Code;
use std::alloc::Global;
use top_base::{Line, Outcome, Status};

/// Makes a file of these bytes.
pub(crate) fn write_file<S: Store>(store: &mut S, path: &str, bytes: &[u8]) -> Result<(), Failed>
    ensures written { OnOk result
        (MakesCalls S.Store store.old store.new (Are (writes_of ((path.now, bytes.now) ∷ [])))) }
    ensures stopped { OnErr result (MakesCalls S.Store store.old store.new
        (StopsWithin (writes_of ((path.now, bytes.now) ∷ [])))) }
{
    store.create(path)?;
    store.append(path, bytes)
}

/// Writes a code's file, in version 2, and ends with the line that is said of it.
pub(crate) fn write_code_file<'a, S: Store>(
    alloc: Global,
    path: &str,
    code: &Code,
    line: Line<'a>,
    store: &mut S,
) -> Outcome<'a>
    ensures { MakesCalls S.Store store.old store.new
        (WritesCode path.now line.entry code.now result.status result.line) }
{
    match write_code(alloc, code) {
        Ok(bytes) if bytes.len() > CODE_LIMIT => Outcome::too_long(),
        Ok(bytes) => match write_file(store, path, &bytes) {
            Ok(()) => Outcome {
                status: Status::Done,
                line,
            },
            Err(_) => Outcome::write_fault(),
        },
        Err(_) => Outcome::out_of_memory(),
    }
}

/// The first path to be written that is that of the network or the other one.
pub(crate) fn shared_path<'a>(net: &str, code: &'a str, report: &'a str) -> Option<&'a str>
    ensures { option_map (λ path. path.now) result
        ≡ shared_path (net.now ∷ []) (code.now ∷ report.now ∷ []) }
{
    if code == net || code == report {
        return Some(code);
    }
    if report == net {
        return Some(report);
    }
    None
}

// Makes two files, one after the other.
fn write_both<S: Store>(
    store: &mut S,
    code: (&str, &[u8]),
    report: (&str, &[u8]),
) -> Result<(), Failed>
    ensures written { OnOk result (MakesCalls S.Store store.old store.new (Are (writes_of
        ((code.entry.0.now, code.entry.1.now) ∷ (report.entry.0.now, report.entry.1.now) ∷ [])))) }
    ensures stopped { OnErr result (MakesCalls S.Store store.old store.new (StopsWithin (writes_of
        ((code.entry.0.now, code.entry.1.now) ∷ (report.entry.0.now, report.entry.1.now) ∷ [])))) }
{
    write_file(store, code.0, code.1)?;
    write_file(store, report.0, report.1)
}

/// Makes the file of a code that was made, and then that of its report, and ends with the line that is said of them.
pub(crate) fn write_made<'a, S: Store>(
    store: &mut S,
    code: &str,
    report: &str,
    made: Made<'a>,
) -> Outcome<'a>
    ensures { MakesCalls S.Store store.old store.new (WritesAll
        ((code.now, made.entry.code.items) ∷ (report.now, made.entry.report.items) ∷ [])
        made.entry.line result.status result.line) }
{
    match write_both(store, (code, &made.code), (report, &made.report)) {
        Ok(()) => Outcome {
            status: Status::Done,
            line: made.line,
        },
        Err(_) => Outcome::write_fault(),
    }
}
