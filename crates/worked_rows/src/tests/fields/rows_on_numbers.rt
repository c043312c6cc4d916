//! Products of rows on numbers.
ghost use Rattle.std.specs.Prelude.{◌≡◌, ◌<◌, length, All};
ghost use Rattle.gf_tables.specs.Kind.{IsOfKind};
ghost use Rattle.linear_algebra.specs.Elements.{numbers};
ghost use Rattle.linear_algebra.specs.Rows.{dot as number_dot};

use counted_steps::Steps;
use field_vectors::dot;
use gf_tables::{Field, FieldKind};
use std::sync::ledger::Ledger;

// The number of the product of two rows, in the field of a kind.
fn dot_number<F: Field, L: Ledger>(kind: FieldKind, a: &[F], b: &[F], steps: &mut Steps<L>) -> u32
    requires of_kind { IsOfKind kind F.SIZE F.BYTES F.MARK F.product }
    requires left { All F.is_element a.now }
    requires right { All F.is_element b.now }
    requires same_length { length a.now ≡ length b.now }
    ensures { result ≡ number_dot kind (numbers F.number a.now) (numbers F.number b.now) }
{
    dot(a, b, steps).number()
}
