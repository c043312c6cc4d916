//! Codes of networks without a cycle, and what a compilation goes by: their chains and their order.
ghost use Rattle.std.specs.Prelude.{◌≡◌, ◌≢◌, ◌<◌, IfErr, IfOk, length};
ghost use Rattle.gf_tables.specs.Kind.{IsOfKind};
ghost use Rattle.gf_tables.specs.declared.kind.FieldKind.TheVariants.{Nine};
ghost use Rattle.lif_compiler.specs.Compiled.{IsCompiled, marked_kind};
ghost use Rattle.lif_compiler.specs.Refused.{IsRefusal};
ghost use Rattle.link_chains.specs.Wiring.{IsWiring};
ghost use Rattle.net_model.specs.Walks.{IsAcyclic};
ghost use Rattle.topo_order.specs.Order.{order_of};

use counted_steps::Steps;
use cut_witness::Cert;
use gf_tables::Field;
use lif_compiler::{CompileRefusal, compile_along};
use lif_outside::Gate;
use link_chains::{Wiring, wiring_of};
use net_model::Net;
use node_program::Code;
use std::alloc::{AllocError, Global};
use std::sync::ledger::{Blank, Ledger};
use std::thread::Threads;
use topo_order::{OrderRefusal, order_along};

/// The chains of the links of a network without a cycle, and their order.
pub(crate) fn ordered(alloc: Global, net: &Net) -> Result<(Wiring, Vec<u32>), AllocError>
    requires { IsAcyclic net.now.links }
    ensures wiring { IfOk result (λ made.
        IsWiring net.now.links (length net.now.nodes) made.0) }
    ensures order { IfOk result (λ made. made.1.items ≡ order_of net.now.links) }
{
    let wiring = wiring_of(alloc, net)?;
    match order_along(alloc, net, &wiring) {
        Ok(order) => Ok((wiring, order)),
        Err(OrderRefusal::OutOfMemory) => Err(AllocError),
        Err(OrderRefusal::Cyclic { .. }) => unreachable!(),
    }
}

/// The code over the field `F` of a network whose order and chains are at hand, with a counter of its own.
pub(crate) fn code_in<F: Field, G: Gate + Sync, L: Ledger, R: Threads + Sync>(
    rt: &R,
    alloc: Global,
    net: &Net,
    wiring: &Wiring,
    order: &[u32],
    gate: &G,
    blank: Blank,
) -> Result<(Code, Vec<Cert>), CompileRefusal>
    requires field { IsOfKind (marked_kind F.MARK) F.SIZE F.BYTES F.MARK F.product }
    requires named { marked_kind F.MARK ≢ Nine }
    requires wiring { IsWiring net.now.links (length net.now.nodes) wiring.now }
    requires order { order.now ≡ order_of net.now.links }
    requires acyclic { IsAcyclic net.now.links }
    requires name { blank.name ≡ L.name }
    requires parts { blank.parts ≡ L.parts }
    requires some_part { 0 < blank.parts }
    ensures compiled { IfOk result
        (λ made. IsCompiled net.now (marked_kind F.MARK) made.0 made.1.items) }
    ensures refused { IfErr result (IsRefusal net.now F.SIZE) }
{
    let steps = &mut Steps::<L>::start(blank);
    compile_along::<F, G, L, R>(rt, alloc, net, wiring, order, gate, steps)
}
