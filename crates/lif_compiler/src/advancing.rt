//! The bases of the demands whose paths a visited link is on.
ghost use Rattle.std.specs.Prelude.{◌≡◌, ◌≢◌, ◌*◌, ◌<◌, ℕ, All, IsTrue, Some, length, map, slice_get, slice_set};
ghost use Rattle.counted_steps.specs.Steps.{RoseBy, RoseByAtMost};
ghost use Rattle.field_vectors.specs.Elements.{dot_of};
ghost use Rattle.field_vectors.specs.Grid.{row_of, with_row};
ghost use Rattle.net_model.specs.Lists.{is_rising};
ghost use Rattle.sink_basis.specs.Renewal.{renewal_steps};
ghost use Rattle.lif_compiler.specs.Bases.{HasMatrices, HasWidth, inverses_in};
ghost use Rattle.lif_compiler.specs.Steps.{AreAdvanced, advances_steps};
ghost use Rattle.lif_compiler.specs.Tables.{AreAmong, AreOfShape, vectors_for};
ghost use Rattle.lif_compiler.specs.declared.hops.Hop.{Hop};

use crate::Hop;
use counted_steps::Steps;
use field_vectors::Matrix;
use gf_tables::Field;
use sink_basis::Basis;
use std::sync::ledger::Ledger;

// Puts a link on the frontier of a path, with its vector. It counts a step for each product of elements and one for the
// inverse of an element, and none where the vector is the path's already.
fn advance<F: Field, L: Ledger>(
    basis: &mut Basis<F>,
    path: u32,
    link: u32,
    vector: &[F],
    steps: &mut Steps<L>,
)
    requires path { path < length basis.old.frontier }
    requires width { length vector.now ≡ length basis.old.frontier }
    requires nonzero { dot_of F.zero F.add F.mul vector.now (row_of basis.old.inverses path)
        ≢ F.zero }
    ensures frontier { basis.new.frontier ≡ slice_set basis.old.frontier path (Some link) }
    ensures vectors { basis.new.vectors ≡ with_row basis.old.vectors path vector.now }
    ensures matrices { HasMatrices basis.new }
    ensures same_vector { row_of basis.old.vectors path ≡ vector.now
        → RoseBy 0 steps.old steps.new }
    ensures new_vector { row_of basis.old.vectors path ≢ vector.now → RoseBy
        (renewal_steps F.number F.zero F.add F.mul path vector.now basis.old.inverses)
        steps.old steps.new }
    ensures few_ticks { let h = length basis.old.frontier
        in RoseByAtMost (3 * h * h) steps.old steps.new }
{
    basis.advance(path, link, vector, steps);
}

/// Puts a link on the frontier of the path of each hop over it, with its vector under the pattern of the hop's demand.
/// It counts a step for each product of elements and one for each inverse of an element: at most three for each entry of
/// a matrix of each hop's basis.
pub fn advance_all<F: Field, L: Ledger>(
    bases: &mut [Basis<F>],
    vectors: &[Matrix<F>],
    rate: u32,
    links: u32,
    link: u32,
    hops: &[Hop],
    steps: &mut Steps<L>,
)
    requires link { link < links }
    requires some_pattern { 0 < length vectors.now }
    requires shape { AreOfShape links rate vectors.now }
    requires frontiers { All (HasWidth rate) bases.old }
    requires matrices { All HasMatrices bases.old }
    requires hops { AreAmong (length bases.old) rate hops.now }
    requires once { IsTrue (is_rising (map (λ hop. hop.demand) hops.now)) }
    requires nonzero { (k : ℕ) (hop : Hop) → slice_get hops.now k ≡ Some hop →
        dot_of F.zero F.add F.mul (row_of (vectors_for vectors.now hop.demand) link)
        (row_of (inverses_in bases.old hop.demand) hop.path) ≢ F.zero }
    ensures advanced { AreAdvanced link vectors.now hops.now bases.old bases.new }
    ensures matrices { All HasMatrices bases.new }
    ensures ticks { RoseBy (advances_steps link vectors.now bases.old hops.now)
        steps.old steps.new }
    ensures few_ticks { RoseByAtMost (length hops.now * (3 * rate * rate)) steps.old steps.new }
{
    for hop in hops {
        let demand = hop.demand as usize;
        let vectors = &vectors[demand % vectors.len()];
        advance(&mut bases[demand], hop.path, link, vectors.row(link), steps);
    }
}
