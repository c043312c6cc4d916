//! Inverses of elements, by their numbers.
ghost use Rattle.std.specs.Prelude.{◌≡◌, ◌≢◌, ◌<◌};
ghost use Rattle.gf_tables.specs.Kind.{IsOfKind};
ghost use Rattle.gf_tables.specs.Product.{product, size_of};

use gf_tables::{Field, FieldKind, Gf8, Gf9, Gf16};

/// The number of the inverse of an element that isn't zero.
#[tactic(auto, unfolding(gf_tables::specs::Product::product))]
pub(crate) fn inverse(field: FieldKind, element: u32) -> u32
    requires below { element < size_of field }
    requires nonzero { element ≢ 0 }
    ensures below { result < size_of field }
    ensures inverse { product field element result ≡ 1 }
{
    match field {
        FieldKind::Eight => inverse_in::<Gf8>(FieldKind::Eight, element),
        FieldKind::Nine => inverse_in::<Gf9>(FieldKind::Nine, element),
        FieldKind::Sixteen => inverse_in::<Gf16>(FieldKind::Sixteen, element),
    }
}

// The same, where `F` is the field of the kind.
fn inverse_in<F: Field>(kind: FieldKind, element: u32) -> u32
    requires of_kind { IsOfKind kind F.SIZE F.BYTES F.MARK F.product }
    requires below { element < F.SIZE }
    requires nonzero { element ≢ 0 }
    ensures below { result < F.SIZE }
    ensures inverse { product kind element result ≡ 1 }
{
    F::of_number(element).inv().number()
}
