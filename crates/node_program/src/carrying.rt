//! What a link carries, by what its operands carry.
ghost use Rattle.std.specs.Prelude.{◌≡◌, ◌≢◌, ◌<◌, true, false, length, replicate, All};
ghost use Rattle.counted_steps.specs.Steps.{RoseBy};
ghost use Rattle.field_vectors.specs.Grid.{row_of};
ghost use Rattle.gf_tables.specs.Kind.{IsOfKind};
ghost use Rattle.gf_tables.specs.declared.kind.FieldKind.{FieldKind};
ghost use Rattle.node_program.specs.Carried.{IsCarried, carry_steps};

use crate::Operand;
use counted_steps::Steps;
use field_vectors::Matrix;
use gf_tables::Field;
use std::sync::ledger::Ledger;

/// Makes the row of a link, which is zero, what the link carries: the sum of its operands' vectors, each
/// times its coefficient. An operand's vector is the unit vector of a source row where the link leaves the
/// source, and else the row of another link. All other rows stay. It counts a step for each column of each
/// operand's row, and none where the link leaves the source.
pub fn carry<F: Field, L: Ledger>(
    vectors: &mut Matrix<F>,
    link: u32,
    leaves: bool,
    operands: &[Operand],
    steps: &mut Steps<L>,
)
    requires link { link < length vectors.old.rows }
    requires zeros { row_of vectors.old link ≡ replicate vectors.old.columns F.zero }
    requires times { All (λ operand. operand.times < F.SIZE) operands.now }
    requires rows { leaves ≡ true
        → All (λ operand. operand.from < vectors.old.columns) operands.now }
    requires links { leaves ≡ false
        → All (λ operand. (operand.from < length vectors.old.rows)
        × (operand.from ≢ link)) operands.now }
    ensures carried { (kind : FieldKind) → IsOfKind kind F.SIZE F.BYTES F.MARK F.product
        → IsCarried kind F.number leaves operands.now link vectors.old vectors.new }
    ensures ticks { RoseBy
        (carry_steps leaves (length operands.now) vectors.old.columns) steps.old steps.new }
{
    for operand in operands {
        let times = F::of_number(operand.times);
        if leaves {
            let sum = vectors.at(link, operand.from).add(times);
            vectors.set(link, operand.from, sum);
        } else {
            vectors.add_row(link, times, operand.from, steps);
        }
    }
}
