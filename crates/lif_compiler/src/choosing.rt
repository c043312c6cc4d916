//! The choice of a link's operands.
ghost use Rattle.std.specs.Prelude.{◌≡◌, ◌+◌, ◌*◌, ◌<◌, ◌≤◌, All, IfOk, OnOk, length};
ghost use Rattle.coeff_choice.specs.Choice.{choice_steps};
ghost use Rattle.counted_steps.specs.Steps.{RoseByAtMost};
ghost use Rattle.gf_tables.specs.Kind.{IsOfKind};
ghost use Rattle.net_model.specs.Limits.{highest_rate};
ghost use Rattle.node_program.specs.Value.{leaves_source};
ghost use Rattle.lif_compiler.specs.Bases.{HasWidth};
ghost use Rattle.lif_compiler.specs.Compiled.{marked_kind};
ghost use Rattle.lif_compiler.specs.Operands.{AreSources, befores};
ghost use Rattle.lif_compiler.specs.PartialCodes.{AreChosenBy, HaveProducts};
ghost use Rattle.lif_compiler.specs.Tables.{AreAmong, AreOfShape, CanFeed, product_steps};

use crate::Hop;
use crate::operands::{operands_with, places_of, sources_of};
use crate::partial_code::PartialCode;
use coeff_choice::choose;
use counted_steps::Steps;
use gf_tables::Field;
use net_model::Net;
use node_program::OperandList;
use std::alloc::{AllocError, Global};
use std::sync::ledger::Ledger;

impl<F: Field> PartialCode<F> {
    /// Operands of a link, by which its vector has a product with the inverse vector of the path of each hop over it
    /// that isn't zero. What comes before the link on that path has such a vector. It counts the products of the table,
    /// where there is memory for it, and what the choice counts, with at most as many columns as rows.
    pub fn choose_operands<L: Ledger>(
        &self,
        alloc: Global,
        net: &Net,
        link: u32,
        hops: &[Hop],
        steps: &mut Steps<L>,
    ) -> Result<OperandList, AllocError>
        requires field { IsOfKind (marked_kind F.MARK) F.SIZE F.BYTES F.MARK F.product }
        requires link { link < length net.now.links }
        requires some_pattern { 0 < length self.now.vectors.items }
        requires vectors { AreOfShape (length net.now.links) self.now.rate self.now.vectors.items }
        requires bases { All (HasWidth self.now.rate) self.now.bases.items }
        requires low_rate { self.now.rate ≤ highest_rate }
        requires hops { AreAmong (length self.now.bases.items) self.now.rate hops.now }
        requires few_hops { length hops.now ≤ F.SIZE }
        requires named { CanFeed net.now self.now.rate link (befores hops.now) }
        requires own { HaveProducts net.now link hops.now self.now }
        ensures chosen { IfOk result (AreChosenBy net.now link hops.now self.now) }
        ensures table_ticks { (sources : _) → AreSources (befores hops.now) sources →
            let once = product_steps (leaves_source net.now link) self.now.rate
            in OnOk result (steps.old + length hops.now * (length sources * once) ≤ steps.new) }
        ensures ticks { let count = length hops.now in RoseByAtMost
            (count * (count * self.now.rate) + choice_steps count count) steps.old steps.new }
    {
        let sources = sources_of(alloc, hops)?;
        let places = places_of(alloc, hops, &sources)?;
        let table = self.table_of(alloc, net, link, &sources, hops, steps)?;
        let coefficients = choose(alloc, &table, &places, steps)?;
        operands_with(alloc, &sources, &coefficients)
    }
}
