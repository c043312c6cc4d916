//! The vectors of a link that is visited, under all patterns.
ghost use Rattle.std.specs.Prelude.{◌≡◌, ◌*◌, ◌<◌, All, false, length, replicate, true};
ghost use Rattle.counted_steps.specs.Steps.{RoseBy, RoseByAtMost};
ghost use Rattle.field_vectors.specs.Grid.{IsMatrix, row_of};
ghost use Rattle.gf_tables.specs.Kind.{IsOfKind};
ghost use Rattle.gf_tables.specs.declared.kind.FieldKind.{FieldKind};
ghost use Rattle.node_program.specs.Carried.{carry_steps};
ghost use Rattle.node_program.specs.Value.{leaves_source};
ghost use Rattle.lif_compiler.specs.Failing.{AreFailedTables};
ghost use Rattle.lif_compiler.specs.Steps.{AreCarried, AreFromBelow, IsCarriedUnless, carry_steps_unless, carrying_patterns};
ghost use Rattle.lif_compiler.specs.Tables.{AreOfShape};

use counted_steps::Steps;
use field_vectors::Matrix;
use gf_tables::Field;
use net_model::Net;
use node_program::{Operand, carry};
use std::sync::ledger::Ledger;

// Makes the row of a link, which is zero, what the link carries by its operands, unless it fails. It counts a step for
// each place of each operand's vector, and none where the link fails or leaves the source.
fn carry_unless<F: Field, L: Ledger>(
    is_failed: bool,
    vectors: &mut Matrix<F>,
    link: u32,
    leaves: bool,
    operands: &[Operand],
    steps: &mut Steps<L>,
)
    requires link { link < length vectors.old.rows }
    requires zeros { row_of vectors.old link ≡ replicate vectors.old.columns F.zero }
    requires times { All (λ operand. operand.times < F.SIZE) operands.now }
    requires rows { leaves ≡ true → AreFromBelow vectors.old.columns operands.now }
    requires links { leaves ≡ false → AreFromBelow link operands.now }
    ensures carried { (kind : FieldKind) → IsOfKind kind F.SIZE F.BYTES F.MARK F.product
        → IsCarriedUnless is_failed kind F.number leaves operands.now link vectors.old vectors.new }
    ensures kept { IsMatrix F.is_element vectors.new }
    ensures ticks { RoseBy
        (carry_steps_unless is_failed leaves (length operands.now) vectors.old.columns)
        steps.old steps.new }
{
    if !is_failed {
        carry(vectors, link, leaves, operands, steps);
    }
    let _rows = vectors.rows();
}

/// Makes under each pattern the row of a link, which is zero, what the link carries by its
/// operands. The tables say which links fail. It counts a step for each place of each operand's
/// vector under each pattern in which the link doesn't fail, and none where it leaves the source.
pub fn carry_all<F: Field, L: Ledger>(
    vectors: &mut [Matrix<F>],
    rate: u32,
    net: &Net,
    failed: &[Vec<bool>],
    link: u32,
    operands: &[Operand],
    steps: &mut Steps<L>,
)
    requires failed { AreFailedTables net.now failed.now }
    requires link { link < length net.now.links }
    requires each_pattern { length vectors.old ≡ length net.now.patterns }
    requires shape { AreOfShape (length net.now.links) rate vectors.old }
    requires zeros { All (λ m. row_of m link ≡ replicate rate F.zero) vectors.old }
    requires times { All (λ operand. operand.times < F.SIZE) operands.now }
    requires rows { leaves_source net.now link ≡ true → AreFromBelow rate operands.now }
    requires links { leaves_source net.now link ≡ false → AreFromBelow link operands.now }
    ensures carried { (kind : FieldKind) → IsOfKind kind F.SIZE F.BYTES F.MARK F.product
        → AreCarried kind F.number net.now link operands.now vectors.old vectors.new }
    ensures kept { All (IsMatrix F.is_element) vectors.new }
    ensures ticks { let once = carry_steps (leaves_source net.now link) (length operands.now) rate
        in RoseBy (carrying_patterns net.now link * once) steps.old steps.new }
    ensures few_ticks { RoseByAtMost
        (length vectors.old * (length operands.now * rate)) steps.old steps.new }
{
    let leaves = net.leaves_source(link);
    for pattern in 0..vectors.len() {
        let is_failed = failed[pattern][link as usize];
        carry_unless(
            is_failed,
            &mut vectors[pattern],
            link,
            leaves,
            operands,
            steps,
        );
    }
}
