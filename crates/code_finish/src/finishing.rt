//! A draft that becomes a code.
ghost use Rattle.std.specs.Prelude.{◌≡◌, IfErr, IfOk, length, vec_len};
ghost use Rattle.code_finish.specs.Finished.{IsFinished, IsUnfinished};
ghost use Rattle.code_finish.specs.Solved.{AreSolved};
ghost use Rattle.gf_tables.specs.Kind.{IsOfKind};
ghost use Rattle.net_model.specs.Demands.{demand_count};

use crate::solving::{Confusion, solve_all};
use code_file::Draft;
use gf_tables::Field;
use node_program::{Code, Decoder, DecoderTable, Entries};
use std::alloc::Global;

/// Why a draft isn't finished.
#[derive(Drop)]
pub enum FinishWhy {
    /// A demand doesn't decode, the first one that doesn't.
    Confused {
        /// The number of the demand.
        demand: u32,
        /// Elements, as many as the rate and not all zero, by their numbers. As a block of rows of one element each they give zero on
        /// all links into the sink, as zeros do.
        block: Entries,
    },
    /// There was no memory.
    OutOfMemory,
}

/// A draft that isn't finished, handed back, and why.
#[derive(Drop)]
pub struct FinishRefused {
    pub draft: Draft,
    pub why: FinishWhy,
}

// The code of a draft and its decoders.
fn code_of(draft: Draft, decoders: Vec<Decoder>) -> Code
    requires count { vec_len decoders ≡ demand_count draft.net }
    requires solved { AreSolved draft (length draft.net.patterns) decoders.items }
    ensures { IsFinished draft result }
{
    let Draft {
        net,
        rate,
        field,
        operands,
    } = draft;
    Code::of(net, rate, field, operands, DecoderTable::of(decoders))
}

/// The code of a draft, with decoders found by elimination, where every demand decodes. Else the first demand that doesn't, with
/// a block that shows it. `F` is the draft's field.
pub fn finish<F: Field>(alloc: Global, draft: Draft) -> Result<Code, FinishRefused>
    requires { IsOfKind draft.field F.SIZE F.BYTES F.MARK F.product }
    ensures finished { IfOk result (IsFinished draft) }
    ensures back { IfErr result (λ refused. refused.draft ≡ draft) }
    ensures unfinished { IfErr result (λ refused. IsUnfinished draft refused.why) }
{
    match solve_all(alloc, &draft) {
        Ok(Ok(decoders)) => Ok(code_of(draft, decoders)),
        Ok(Err(Confusion { demand, block })) => Err(FinishRefused {
            draft,
            why: FinishWhy::Confused { demand, block },
        }),
        Err(_) => Err(FinishRefused {
            draft,
            why: FinishWhy::OutOfMemory,
        }),
    }
}
