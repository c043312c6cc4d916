//! The check of a code.
ghost use Rattle.std.specs.Prelude.{◌≡◌, ◌≢◌, IfOk, IfErr, OnOk};
ghost use Rattle.cut_bound.specs.Cuts.{IsWithinCuts};
ghost use Rattle.net_model.specs.Demands.{demand_count};
ghost use Rattle.node_program.specs.Decoding.{IsAccepted};
ghost use Rattle.code_checker.specs.Checking.{IsRefusal};
ghost use Rattle.code_checker.specs.First.{IsFirstIn};

use crate::batches::{first_failure, first_of_all};
use crate::checked::{CheckRefusal, Checked, Refused};
use crate::products::Failure;
use lif_outside::Gate;
use node_program::Code;
use std::alloc::{AllocError, Global};
use std::thread::Threads;

/// Checks a code. It is accepted exactly where each demand's decoder times the vectors of its links is the
/// identity, and then its rate is at most the number of links of each cut of each demand; else it is handed
/// back with the first demand of which that doesn't hold, and the first entry that differs, or because there
/// was too little memory. The demands are cut into four batches, or into one for each demand where those are
/// fewer, and the batches are done side by side: each enters the gate with its number before it begins. A
/// batch makes the vectors of a pattern once for all its demands, and holds those of one pattern at a time.
pub fn check<G: Gate + Sync, R: Threads + Sync>(
    rt: &R,
    alloc: Global,
    code: Code,
    gate: &G,
) -> Result<Checked, Refused>
    ensures checked { IfOk result (λ checked. checked ≡ code) }
    ensures accepted { OnOk result (IsAccepted code) }
    ensures cuts { OnOk result (IsWithinCuts code.net code.rate) }
    ensures returned { IfErr result (λ refused. refused.code ≡ code) }
    ensures refused { IfErr result (λ refused. IsRefusal code refused.why) }
    ensures rejected { IfErr result
        (λ refused. refused.why ≢ CheckRefusal.OutOfMemory → ¬ IsAccepted code) }
{
    match first_failure(rt, alloc, &code, gate) {
        Ok(first) => verdict(code, first),
        Err(AllocError) => Err(unchecked(code)),
    }
}

/// The same on one thread, that of the call: all demands are one batch, and no gate is entered.
pub fn check_alone(alloc: Global, code: Code) -> Result<Checked, Refused>
    ensures checked { IfOk result (λ checked. checked ≡ code) }
    ensures accepted { OnOk result (IsAccepted code) }
    ensures cuts { OnOk result (IsWithinCuts code.net code.rate) }
    ensures returned { IfErr result (λ refused. refused.code ≡ code) }
    ensures refused { IfErr result (λ refused. IsRefusal code refused.why) }
    ensures rejected { IfErr result
        (λ refused. refused.why ≢ CheckRefusal.OutOfMemory → ¬ IsAccepted code) }
{
    match first_of_all(alloc, &code) {
        Ok(first) => verdict(code, first),
        Err(AllocError) => Err(unchecked(code)),
    }
}

// A code that there was too little memory to check.
fn unchecked(code: Code) -> Refused
    ensures code { result.code ≡ code }
    ensures why { result.why ≡ CheckRefusal.OutOfMemory }
{
    Refused {
        code,
        why: CheckRefusal::OutOfMemory,
    }
}

// What becomes of a code by its first failure.
fn verdict(code: Code, first: Option<Failure>) -> Result<Checked, Refused>
    requires { IsFirstIn code 0 (demand_count code.net) first }
    ensures checked { IfOk result (λ checked. checked ≡ code) }
    ensures accepted { OnOk result (IsAccepted code) }
    ensures cuts { OnOk result (IsWithinCuts code.net code.rate) }
    ensures returned { IfErr result (λ refused. refused.code ≡ code) }
    ensures refused { IfErr result (λ refused. IsRefusal code refused.why) }
    ensures rejected { IfErr result
        (λ refused. refused.why ≢ CheckRefusal.OutOfMemory → ¬ IsAccepted code) }
{
    match first {
        None => Ok(Checked::of(code)),
        Some(failure) => Err(Refused {
            code,
            why: CheckRefusal::NotIdentity {
                demand: failure.demand,
                row: failure.row,
                column: failure.column,
                found: failure.found,
            },
        }),
    }
}
