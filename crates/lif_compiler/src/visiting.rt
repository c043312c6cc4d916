//! The visit of a link.
ghost use Rattle.std.specs.Prelude.{◌≡◌, ◌<◌, ◌≤◌, ◌+◌, [], All, OnOk, length};
ghost use Rattle.counted_steps.specs.Steps.{RoseByAtMost};
ghost use Rattle.gf_tables.specs.Kind.{IsOfKind};
ghost use Rattle.net_model.specs.Demands.{demand_count};
ghost use Rattle.lif_compiler.specs.Bases.{HasMatrices};
ghost use Rattle.lif_compiler.specs.Compiled.{marked_kind};
ghost use Rattle.lif_compiler.specs.Failing.{AreFailedTables};
ghost use Rattle.lif_compiler.specs.Hops.{Routes};
ghost use Rattle.lif_compiler.specs.Visits.{AreVisitable, CanVisit, IsVisited, VisitsAll, VisitsNext};
ghost use Rattle.lif_compiler.specs.Work.{choice_bound};

use crate::advancing::advance_all;
use crate::carrying::carry_all;
use crate::failing::failed_tables;
use crate::partial_code::PartialCode;
use crate::{Hop, HopList};
use counted_steps::Steps;
use gf_tables::Field;
use net_model::Net;
use std::alloc::{AllocError, Global};
use std::sync::ledger::Ledger;

impl<F: Field> PartialCode<F> {
    /// Visits the next link, over which these are the hops: chooses its operands, and puts it on the frontier of each
    /// path that has it. It counts at most what the choice of a code's coefficients takes for one link.
    pub fn visit<L: Ledger>(
        &mut self,
        alloc: Global,
        net: &Net,
        failed: &[Vec<bool>],
        hops: &[Hop],
        steps: &mut Steps<L>,
    ) -> Result<(), AllocError>
        requires field { IsOfKind (marked_kind F.MARK) F.SIZE F.BYTES F.MARK F.product }
        requires failed { AreFailedTables net.now failed.now }
        requires next { length self.old.operands.items < length net.now.links }
        requires few_demands { demand_count net.now ≤ F.SIZE }
        requires matrices { All HasMatrices self.old.bases.items }
        requires ready { (routes : Routes) × CanVisit net.now routes hops.now self.old }
        ensures rate { self.new.rate ≡ self.old.rate }
        ensures count { OnOk result
            (length self.new.operands.items ≡ length self.old.operands.items + 1) }
        ensures matrices { OnOk result (All HasMatrices self.new.bases.items) }
        ensures visited { OnOk result (VisitsNext net.now hops.now self.old self.new) }
        ensures ticks { RoseByAtMost
            (choice_bound 1 (demand_count net.now) self.old.rate) steps.old steps.new }
    {
        let link = self.operands.len() as u32;
        let operands = self.choose_operands(alloc, net, link, hops, steps)?;
        carry_all(
            self.vectors.as_mut_slice(),
            self.rate,
            net,
            failed,
            link,
            operands.as_slice(),
            steps,
        );
        advance_all(
            self.bases.as_mut_slice(),
            self.vectors.as_slice(),
            self.rate,
            net.links.len() as u32,
            link,
            hops,
            steps,
        );
        self.operands.push(operands)?;
        Ok(())
    }

    /// Visits all links in order, over which these are the hops. It counts at most what the choice of a code's
    /// coefficients takes.
    pub fn visit_all<L: Ledger>(
        &mut self,
        alloc: Global,
        net: &Net,
        hops: &[HopList],
        steps: &mut Steps<L>,
    ) -> Result<(), AllocError>
        requires field { IsOfKind (marked_kind F.MARK) F.SIZE F.BYTES F.MARK F.product }
        requires few_demands { demand_count net.now ≤ F.SIZE }
        requires none { self.old.operands.items ≡ [] }
        requires matrices { All HasMatrices self.old.bases.items }
        requires ready { (routes : Routes)
            × AreVisitable net.now self.old.rate routes hops.now
            × IsVisited net.now routes self.old }
        ensures rate { self.new.rate ≡ self.old.rate }
        ensures whole { OnOk result (length self.new.operands.items ≡ length net.now.links) }
        ensures matrices { OnOk result (All HasMatrices self.new.bases.items) }
        ensures visited { OnOk result (VisitsAll net.now hops.now self.old self.new) }
        ensures ticks { RoseByAtMost
            (choice_bound (length net.now.links) (demand_count net.now) self.old.rate)
            steps.old steps.new }
    {
        let failed = failed_tables(alloc, net)?;
        for list in hops {
            self.visit(alloc, net, &failed, list.as_slice(), steps)?;
        }
        Ok(())
    }
}
