//! The compiler: a network to a code of the wanted rate, or else of its own, the least cut of a demand.
ghost use Rattle.std.specs.Prelude.{◌≡◌, ◌≢◌, ◌≤◌, ℕ, [], IfErr, IfOk, IsTrue, OnErr, length};
ghost use Rattle.counted_steps.specs.Steps.{RoseByAtMost};
ghost use Rattle.cut_witness.specs.Certificate.{AreCertificates};
ghost use Rattle.failure_patterns.specs.Rate.{IsRate};
ghost use Rattle.gf_tables.specs.Kind.{IsOfKind};
ghost use Rattle.gf_tables.specs.declared.kind.FieldKind.TheVariants.{Nine};
ghost use Rattle.link_chains.specs.Wiring.{IsWiring};
ghost use Rattle.net_model.specs.Demands.{demand_count};
ghost use Rattle.net_model.specs.Limits.{highest_rate};
ghost use Rattle.net_model.specs.Renumbering.{HasEachOnce, IsRenumbered};
ghost use Rattle.net_model.specs.Walks.{IsAcyclic};
ghost use Rattle.node_program.specs.Code.{are_in_order, choice_of};
ghost use Rattle.topo_order.specs.Order.{order_of};
ghost use Rattle.lif_compiler.specs.Compiled.{IsCompiled, marked_kind};
ghost use Rattle.lif_compiler.specs.Hops.{Routes};
ghost use Rattle.lif_compiler.specs.Rating.{IsRateUsed};
ghost use Rattle.lif_compiler.specs.Refused.{IsRefusal};
ghost use Rattle.lif_compiler.specs.Visits.{AreVisitable, IsFilledBy};
ghost use Rattle.lif_compiler.specs.Work.{choice_bound};

use crate::decoding::decoders_of;
use crate::kinds::kind_of;
use crate::partial_code::PartialCode;
use crate::planning::hops_of;
use crate::rating::bounded_rate;
use crate::{CompileRefusal, HopList};
use counted_steps::Steps;
use cut_witness::{Cert, certify_all_along};
use failure_patterns::demands;
use gf_tables::Field;
use lif_outside::{Gate, WORKERS};
use link_chains::{Wiring, wiring_of};
use net_model::Net;
use node_program::{Code, DecoderTable, OperandTable, choice_of};
use std::alloc::{AllocError, Global};
use std::sync::ledger::Ledger;
use std::thread::Threads;
use topo_order::order_along;

// The operands of all links and the decoders of all demands of a code, by the hops over each link. The links are in
// order, and no rate is wanted.
fn fill<F: Field, L: Ledger>(
    alloc: Global,
    net: &Net,
    rate: u32,
    hops: &[HopList],
    steps: &mut Steps<L>,
) -> Result<(OperandTable, DecoderTable), AllocError>
    requires field { IsOfKind (marked_kind F.MARK) F.SIZE F.BYTES F.MARK F.product }
    requires some_rate { 1 ≤ rate }
    requires low_rate { rate ≤ highest_rate }
    requires few_demands { demand_count net.now ≤ F.SIZE }
    requires order { IsTrue (are_in_order [] net.now.links) }
    requires named { net.now.field ≡ choice_of (marked_kind F.MARK) }
    requires unwanted { net.now.wanted ≡ None }
    requires ready { (routes : Routes) × AreVisitable net.now rate routes hops.now }
    ensures filled { IfOk result (λ parts.
        IsFilledBy net.now (marked_kind F.MARK) rate hops.now parts.0 parts.1) }
    ensures ticks { RoseByAtMost
        (choice_bound (length net.now.links) (demand_count net.now) rate) steps.old steps.new }
{
    let mut code = PartialCode::<F>::start(alloc, net, rate)?;
    code.visit_all(alloc, net, hops, steps)?;
    let decoders = decoders_of(alloc, code.bases.as_slice())?;
    Ok((OperandTable::of(code.operands), decoders))
}

// A network with its links in a new order, and with the field named.
fn in_order<F: Field>(alloc: Global, net: &Net, order: &[u32]) -> Result<Net, AllocError>
    requires { HasEachOnce (length net.now.links) order.now }
    ensures { IfOk result (λ new.
        IsRenumbered order.now (choice_of (marked_kind F.MARK)) net.now new) }
{
    Ok(net.renumbered(alloc, order, choice_of(kind_of::<F>()))?)
}

// A code of a network without a cycle, of the rate of its codes, from the certificates of its demands.
fn build<F: Field, L: Ledger>(
    alloc: Global,
    net: &Net,
    order: &[u32],
    certs: &[Cert],
    rate: u32,
    steps: &mut Steps<L>,
) -> Result<Code, AllocError>
    requires field { IsOfKind (marked_kind F.MARK) F.SIZE F.BYTES F.MARK F.product }
    requires order { order.now ≡ order_of net.now.links }
    requires acyclic { IsAcyclic net.now.links }
    requires few_demands { demand_count net.now ≤ F.SIZE }
    requires certified { AreCertificates net.now certs.now }
    requires used { IsRateUsed net.now certs.now rate }
    requires some_rate { 1 ≤ rate }
    requires low_rate { rate ≤ highest_rate }
    ensures compiled { IfOk result (λ code.
        IsCompiled net.now (marked_kind F.MARK) code certs.now) }
    ensures ticks { RoseByAtMost
        (choice_bound (length net.now.links) (demand_count net.now) rate) steps.old steps.new }
{
    let hops = hops_of(alloc, certs, order, rate)?;
    let net = in_order::<F>(alloc, net, order)?;
    let (operands, decoders) = fill::<F, L>(alloc, &net, rate, &hops, steps)?;
    Ok(Code::of(net, rate, kind_of::<F>(), operands, decoders))
}

/// An accepted code over the field `F`, one of the two that a network can name, with the certificates of the network's
/// demands. The code's network is the given one with its links in order, and no wanted rate. The code's rate is the
/// wanted one, where there is one, and else the rate of the network: the least value of the certificates, which is the
/// least cut of a demand. No accepted code of the network has a higher rate than that, over any field.
/// There is such a code for every network without a cycle that has at most as many demands as the field has elements,
/// whose rate is at least 1, and whose codes' rate is at most that and at most 32; else the refusal says which of this
/// doesn't hold (Jaggi et al. 2005, for demands with failed links). Each product and each inverse counts a step where
/// coefficients are chosen; there are at most 4 m N (N h + N + h h), for m links, N demands and the rate h of the code,
/// or of the network where there is none.
pub fn compile<F: Field, G: Gate + Sync, L: Ledger, R: Threads + Sync>(
    rt: &R,
    alloc: Global,
    net: &Net,
    gate: &G,
    steps: &mut Steps<L>,
) -> Result<(Code, Vec<Cert>), CompileRefusal>
    requires field { IsOfKind (marked_kind F.MARK) F.SIZE F.BYTES F.MARK F.product }
    requires named { marked_kind F.MARK ≢ Nine }
    ensures compiled { IfOk result (λ made.
        IsCompiled net.now (marked_kind F.MARK) made.0 made.1.items) }
    ensures refused { IfErr result (IsRefusal net.now F.SIZE) }
    ensures ticks { IfOk result (λ made. RoseByAtMost
        (choice_bound (length net.now.links) (demand_count net.now) made.0.rate)
        steps.old steps.new) }
    ensures refused_ticks { OnErr result ((rate : ℕ) → IsRate net.now rate → RoseByAtMost
        (choice_bound (length net.now.links) (demand_count net.now) rate) steps.old steps.new) }
{
    let wiring = wiring_of(alloc, net)?;
    let order = order_along(alloc, net, &wiring)?;
    compile_along::<F, G, L, R>(rt, alloc, net, &wiring, &order, gate, steps)
}

/// The same as [`compile`] for a network without a cycle, where the chains of its links and their order are given.
pub fn compile_along<F: Field, G: Gate + Sync, L: Ledger, R: Threads + Sync>(
    rt: &R,
    alloc: Global,
    net: &Net,
    wiring: &Wiring,
    order: &[u32],
    gate: &G,
    steps: &mut Steps<L>,
) -> Result<(Code, Vec<Cert>), CompileRefusal>
    requires field { IsOfKind (marked_kind F.MARK) F.SIZE F.BYTES F.MARK F.product }
    requires named { marked_kind F.MARK ≢ Nine }
    requires wiring { IsWiring net.now.links (length net.now.nodes) wiring.now }
    requires order { order.now ≡ order_of net.now.links }
    requires acyclic { IsAcyclic net.now.links }
    ensures compiled { IfOk result (λ made.
        IsCompiled net.now (marked_kind F.MARK) made.0 made.1.items) }
    ensures refused { IfErr result (IsRefusal net.now F.SIZE) }
    ensures ticks { IfOk result (λ made. RoseByAtMost
        (choice_bound (length net.now.links) (demand_count net.now) made.0.rate)
        steps.old steps.new) }
    ensures refused_ticks { OnErr result ((rate : ℕ) → IsRate net.now rate → RoseByAtMost
        (choice_bound (length net.now.links) (demand_count net.now) rate) steps.old steps.new) }
{
    let count = demands(net);
    if count > u64::from(F::SIZE) {
        return Err(CompileRefusal::TooManyDemands { count });
    }
    let certs = certify_all_along(rt, alloc, net, wiring, WORKERS, gate)?;
    let rate = bounded_rate(alloc, net, &certs)?;
    let code = build::<F, L>(alloc, net, order, &certs, rate, steps)?;
    Ok((code, certs))
}
