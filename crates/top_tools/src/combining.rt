//! The codes of combination networks.
ghost use Rattle.std.specs.Prelude.{◌≡◌, ◌≢◌, ◌≤◌, ℕ, List, IfOk};
ghost use Rattle.cut_witness.specs.declared.cert.Cert.{Cert};
ghost use Rattle.gf_tables.specs.Kind.{IsOfKind};
ghost use Rattle.gf_tables.specs.declared.kind.FieldKind.TheVariants.{Nine};
ghost use Rattle.lif_compiler.specs.Compiled.{IsCompiled, marked_kind};
ghost use Rattle.net_maker.specs.Fits.{Fits};
ghost use Rattle.net_model.specs.Demands.{demand_count};
ghost use Rattle.node_program.specs.Decoding.{IsAccepted};
ghost use Rattle.top_tools.specs.Combining.{HasRate, IsCombinationCode};

use crate::coding::{code_in, ordered};
use code_checker::{CheckRefusal, Checked, check};
use failure_patterns::used_field;
use gf_tables::{Field, Gf8, Gf16};
use lif_compiler::CompileRefusal;
use lif_outside::Gate;
use net_maker::combination;
use net_model::{FieldChoice, Net};
use node_program::Code;
use std::alloc::{AllocError, Global};
use std::marker::Brand;
use std::sync::ledger::Blank;
use std::thread::Threads;

/// An accepted code, checked.
pub(crate) fn checked<G: Gate + Sync, R: Threads + Sync>(
    rt: &R,
    alloc: Global,
    code: Code,
    gate: &G,
) -> Result<Checked, AllocError>
    requires { IsAccepted code }
    ensures { IfOk result (λ checked. checked ≡ code) }
{
    match check(rt, alloc, code, gate) {
        Ok(checked) => Ok(checked),
        Err(refused) => match refused.why {
            CheckRefusal::OutOfMemory => Err(AllocError),
            CheckRefusal::NotIdentity { .. } => unreachable!(),
        },
    }
}

// Want of memory, which is all that keeps a network with a rate from being compiled.
fn lost(why: CompileRefusal) -> AllocError
    requires { why ≡ CompileRefusal.OutOfMemory }
{
    match why {
        CompileRefusal::OutOfMemory => AllocError,
        CompileRefusal::Cyclic { .. }
        | CompileRefusal::TooManyDemands { .. }
        | CompileRefusal::ZeroRate { .. }
        | CompileRefusal::RateUnmet { .. }
        | CompileRefusal::RateOver { .. } => unreachable!(),
    }
}

// The code over the field `F` of a network that has one, checked.
fn code_over<F: Field, G: Gate + Sync, R: Threads + Sync>(
    rt: &R,
    alloc: Global,
    net: &Net,
    gate: &G,
) -> Result<Checked, AllocError>
    requires field { IsOfKind (marked_kind F.MARK) F.SIZE F.BYTES F.MARK F.product }
    requires named { marked_kind F.MARK ≢ Nine }
    requires served { demand_count net.now ≤ F.SIZE }
    requires rate { (rate : ℕ) × HasRate net.now rate }
    ensures { IfOk result (λ code. (certs : List Cert)
        × IsCompiled net.now (marked_kind F.MARK) code certs) }
{
    let (wiring, order) = ordered(alloc, net)?;
    match code_in::<F, G, Brand, R>(rt, alloc, net, &wiring, &order, gate, Blank::new(1)) {
        Ok((code, _)) => checked(rt, alloc, code, gate),
        Err(why) => Err(lost(why)),
    }
}

/// The code of the network with a sink behind each `k` of `n` nodes, compiled over the field that serves its demands, and
/// checked.
#[tactic(auto, unfolding(gf_tables::specs::Product::product))]
pub fn combination_code<G: Gate + Sync, R: Threads + Sync>(
    rt: &R,
    alloc: Global,
    n: u32,
    k: u32,
    gate: &G,
) -> Result<Checked, AllocError>
    requires { Fits n k }
    ensures { IfOk result (IsCombinationCode n k) }
{
    let net = combination(alloc, n, k)?;
    match used_field(&net) {
        Some(FieldChoice::Eight) => code_over::<Gf8, G, R>(rt, alloc, &net, gate),
        Some(FieldChoice::Sixteen) => code_over::<Gf16, G, R>(rt, alloc, &net, gate),
        Some(FieldChoice::Any) | None => unreachable!(),
    }
}
