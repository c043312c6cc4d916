//! The command `finish`.
ghost use Rattle.lif_outside.specs.Calls.{MakesCalls};
ghost use Rattle.code_file.specs.Drafts.{IsDraftFileOf};
ghost use Rattle.code_file.specs.Limits.{code_limit};
ghost use Rattle.gf_tables.specs.Kind.{IsOfKind};
ghost use Rattle.top_base.specs.DraftFiles.{RefusesDraft};
ghost use Rattle.top_base.specs.Given.{finish_given_in};
ghost use Rattle.top_base.specs.Making.{RunsMaking};
ghost use Rattle.top_base.specs.Performs.{RunsOnStore};
ghost use Rattle.top_tools.specs.Finish.{CanFinish, DeclinesDraft, IsMadeOf, finish_command};

use crate::files::write_code_file;
use code_file::Draft;
use code_finish::{FinishRefused, FinishWhy, finish as finish_draft};
use gf_tables::{Field, FieldKind, Gf8, Gf9, Gf16};
use lif_outside::Store;
use std::alloc::Global;
use top_base::{FinishWords, Line, Outcome, Status, read_file_of_draft};

// Finds the decoders of a draft, and writes the code. `F` is the draft's field.
fn finish_over<'a, F: Field, S: Store>(
    alloc: Global,
    words: &FinishWords<'a>,
    draft: Draft,
    store: &mut S,
) -> Outcome<'a>
    requires { IsOfKind draft.field F.SIZE F.BYTES F.MARK F.product }
    ensures { MakesCalls S.Store store.old store.new (RunsMaking code_limit IsDraftFileOf RefusesDraft
        (IsMadeOf (finish_given_in words.now)) CanFinish DeclinesDraft draft
        result.status result.line) }
{
    match finish_draft::<F>(alloc, draft) {
        Ok(code) => write_code_file(alloc, words.code, &code, Line::finished(&code), store),
        Err(FinishRefused { draft, why }) => match why {
            FinishWhy::Confused { demand, block } => {
                let line = Line::not_decoding(&draft.net, demand, block.as_slice());
                Outcome {
                    status: Status::NotDecoding { demand, block },
                    line,
                }
            }
            FinishWhy::OutOfMemory => Outcome::out_of_memory(),
        },
    }
}

// Does the same by the draft's field.
fn finish_by_field<'a, S: Store>(
    alloc: Global,
    words: &FinishWords<'a>,
    draft: Draft,
    store: &mut S,
) -> Outcome<'a>
    ensures { MakesCalls S.Store store.old store.new (RunsMaking code_limit IsDraftFileOf RefusesDraft
        (IsMadeOf (finish_given_in words.now)) CanFinish DeclinesDraft draft
        result.status result.line) }
{
    match draft.field {
        FieldKind::Eight => finish_over::<Gf8, S>(alloc, words, draft, store),
        FieldKind::Nine => finish_over::<Gf9, S>(alloc, words, draft, store),
        FieldKind::Sixteen => finish_over::<Gf16, S>(alloc, words, draft, store),
    }
}

/// Reads a draft's file, finds a decoder for each demand, and writes the code, which is accepted. All memory is taken before a
/// file is made.
pub fn finish<'a, S: Store>(alloc: Global, words: &FinishWords<'a>, store: &mut S) -> Outcome<'a>
    ensures { RunsOnStore S.Store
        (finish_command (finish_given_in words.now)) store.old store.new result }
{
    if words.code == words.draft {
        return Outcome {
            status: Status::SamePath,
            line: Line::same_path(words.code),
        };
    }
    match read_file_of_draft(alloc, store, words.draft) {
        Ok(draft) => finish_by_field(alloc, words, draft, store),
        Err(refused) => refused,
    }
}
