//! A code of a network and its report, as they are written.
ghost use Rattle.std.specs.Prelude.{◌≡◌, ◌≢◌, ◌≤◌, IfErr, IfOk, length};
ghost use Rattle.code_file.specs.Limits.{fitting_members};
ghost use Rattle.gf_tables.specs.Kind.{IsOfKind};
ghost use Rattle.gf_tables.specs.declared.kind.FieldKind.TheVariants.{Nine};
ghost use Rattle.lif_compiler.specs.Compiled.{IsCompiled, marked_kind};
ghost use Rattle.link_chains.specs.Wiring.{IsWiring};
ghost use Rattle.net_model.specs.Failed.{member_count};
ghost use Rattle.net_model.specs.Walks.{IsAcyclic};
ghost use Rattle.topo_order.specs.Order.{order_of};
ghost use Rattle.top_tools.specs.Compile.Made.{IsServedBy};
ghost use Rattle.top_tools.specs.Compile.Ready.{IsReady, IsUnmade, RefusesOrLosesIt};

use crate::coding::code_in;
use crate::cutting::crowded;
use crate::reporting::report_of;
use code_file::write_code;
use cut_witness::{Cert, rate};
use failure_patterns::used_field;
use gf_tables::{Field, Gf8, Gf16};
use lif_compiler::CompileRefusal;
use lif_outside::{Gate, WORKERS};
use link_chains::Wiring;
use net_model::{FieldChoice, Net};
use node_program::Code;
use std::alloc::{AllocError, Global};
use std::marker::Brand;
use std::sync::ledger::Blank;
use std::thread::Threads;
use top_base::{Line, Outcome, Status, rate_unmet_line, zero_rate_line};

/// A code's file and a report, and the line that is said of them.
#[derive(Drop)]
pub struct Made<'a> {
    /// The bytes of the code's file.
    pub code: Vec<u8>,
    /// The text of the report.
    pub report: Vec<u8>,
    /// The line.
    pub line: Line<'a>,
}

// What is written and said of a code of a network, and of certificates of the network's rate.
fn of_code<'a, R: Threads + Sync>(
    rt: &R,
    alloc: Global,
    net: &Net,
    code: &Code,
    certs: &[Cert],
) -> Result<Made<'a>, AllocError>
    requires compiled { IsCompiled net.now code.now.field code.now certs.now }
    requires served { IsServedBy net.now code.now.field }
    requires members { member_count net.now.patterns ≤ fitting_members }
    ensures { IfOk result (IsReady net.now) }
{
    Ok(Made {
        code: write_code(alloc, code)?,
        report: report_of(rt, alloc, net, rate(certs), certs, WORKERS)?,
        line: Line::compiled(code),
    })
}

/// What a network makes of the command that no code is made of.
pub(crate) fn unmade<'a>(alloc: Global, net: &Net, why: CompileRefusal) -> Outcome<'a>
    requires { IsUnmade net.now why }
    ensures { RefusesOrLosesIt net.now result }
{
    match why {
        CompileRefusal::ZeroRate { demand, side } => {
            match zero_rate_line(alloc, net, demand, side.as_slice()) {
                Ok(line) => Outcome {
                    status: Status::ZeroRate { demand, side },
                    line,
                },
                Err(_) => Outcome::out_of_memory(),
            }
        }
        CompileRefusal::RateUnmet {
            demand,
            side,
            least,
        } => match rate_unmet_line(alloc, net, demand, side.as_slice(), least) {
            Ok(line) => Outcome {
                status: Status::RateUnmet {
                    demand,
                    side,
                    least,
                },
                line,
            },
            Err(_) => Outcome::out_of_memory(),
        },
        CompileRefusal::RateOver { demand, least } => Outcome {
            status: Status::RateOver { demand, least },
            line: Line::rate_over(net, demand, least),
        },
        CompileRefusal::OutOfMemory => Outcome::out_of_memory(),
        CompileRefusal::Cyclic { .. } | CompileRefusal::TooManyDemands { .. } => unreachable!(),
    }
}

// What is written and said of a network whose demands the field `F` serves.
fn make_over<'a, F: Field, G: Gate + Sync, R: Threads + Sync>(
    rt: &R,
    alloc: Global,
    net: &Net,
    wiring: &Wiring,
    order: &[u32],
    gate: &G,
) -> Result<Made<'a>, Outcome<'a>>
    requires field { IsOfKind (marked_kind F.MARK) F.SIZE F.BYTES F.MARK F.product }
    requires named { marked_kind F.MARK ≢ Nine }
    requires served { IsServedBy net.now (marked_kind F.MARK) }
    requires wiring { IsWiring net.now.links (length net.now.nodes) wiring.now }
    requires order { order.now ≡ order_of net.now.links }
    requires acyclic { IsAcyclic net.now.links }
    requires members { member_count net.now.patterns ≤ fitting_members }
    ensures ready { IfOk result (IsReady net.now) }
    ensures refused { IfErr result (RefusesOrLosesIt net.now) }
{
    match code_in::<F, G, Brand, R>(rt, alloc, net, wiring, order, gate, Blank::new(1)) {
        Ok((code, certs)) => Ok(of_code(rt, alloc, net, &code, &certs)?),
        Err(why) => Err(unmade(alloc, net, why)),
    }
}

/// Compiles a network without a cycle, whose order and chains are at hand, over the field that serves its demands, and
/// takes all memory that its code and report need.
#[tactic(auto, unfolding(gf_tables::specs::Product::product))]
pub fn make<'a, G: Gate + Sync, R: Threads + Sync>(
    rt: &R,
    alloc: Global,
    net: &Net,
    wiring: &Wiring,
    order: &[u32],
    gate: &G,
) -> Result<Made<'a>, Outcome<'a>>
    requires wiring { IsWiring net.now.links (length net.now.nodes) wiring.now }
    requires order { order.now ≡ order_of net.now.links }
    requires acyclic { IsAcyclic net.now.links }
    requires members { member_count net.now.patterns ≤ fitting_members }
    ensures ready { IfOk result (IsReady net.now) }
    ensures refused { IfErr result (RefusesOrLosesIt net.now) }
{
    match used_field(net) {
        Some(FieldChoice::Eight) => make_over::<Gf8, G, R>(rt, alloc, net, wiring, order, gate),
        Some(FieldChoice::Sixteen) => make_over::<Gf16, G, R>(rt, alloc, net, wiring, order, gate),
        Some(FieldChoice::Any) => unreachable!(),
        None => Err(crowded(net)),
    }
}
