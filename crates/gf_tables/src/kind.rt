//! The kinds of fields.
ghost use Rattle.std.specs.Prelude.{◌≡◌, ◌<◌};
ghost use Rattle.gf_tables.specs.Kind.{IsOfKind};
ghost use Rattle.gf_tables.specs.Product.{kind_of_mark, mark_of, product, size_of, width_of};

use crate::{Field, Gf8, Gf9, Gf16};

/// The kinds of fields that a code can be over.
#[derive(Clone, Copy, Debug, PartialEq, Eq)]
pub enum FieldKind {
    /// The field of 256 elements modulo x^8 + x^4 + x^3 + x^2 + 1.
    Eight,
    /// The field of 256 elements modulo x^8 + x^4 + x^3 + x + 1, that of FIPS 197. The compiler makes no codes over it.
    Nine,
    /// The field of 65,536 elements.
    Sixteen,
}

/// How many bytes an element takes.
#[derive(Clone, Copy, Debug, PartialEq, Eq)]
pub enum Width {
    /// One byte, its number.
    One,
    /// Two bytes, the more significant one first.
    Two,
}

impl FieldKind {
    /// How many bytes an element takes.
    pub fn width(self) -> Width
        ensures { result ≡ width_of self }
    {
        match self {
            FieldKind::Eight | FieldKind::Nine => Width::One,
            FieldKind::Sixteen => Width::Two,
        }
    }

    /// The number of the field in code files.
    pub fn mark(self) -> u8
        ensures { result ≡ mark_of self }
    {
        match self {
            FieldKind::Eight => 8,
            FieldKind::Nine => 9,
            FieldKind::Sixteen => 16,
        }
    }

    /// The field that has this number in code files, if one has.
    pub fn of_mark(mark: u8) -> Option<FieldKind>
        ensures { result ≡ kind_of_mark mark }
    {
        match mark {
            8 => Some(FieldKind::Eight),
            9 => Some(FieldKind::Nine),
            16 => Some(FieldKind::Sixteen),
            _ => None,
        }
    }
}

/// The number of the product of the elements with the numbers `a` and `b`, in the field of a kind.
#[tactic(auto, unfolding(crate::specs::Product::product))]
pub fn product(kind: FieldKind, a: u32, b: u32) -> u32
    requires left { a < size_of kind }
    requires right { b < size_of kind }
    ensures below { result < size_of kind }
    ensures value { result ≡ product kind a b }
{
    match kind {
        FieldKind::Eight => product_in::<Gf8>(FieldKind::Eight, a, b),
        FieldKind::Nine => product_in::<Gf9>(FieldKind::Nine, a, b),
        FieldKind::Sixteen => product_in::<Gf16>(FieldKind::Sixteen, a, b),
    }
}

// The same, where `F` is the field of the kind.
fn product_in<F: Field>(kind: FieldKind, a: u32, b: u32) -> u32
    requires of_kind { IsOfKind kind F.SIZE F.BYTES F.MARK F.product }
    requires left { a < F.SIZE }
    requires right { b < F.SIZE }
    ensures below { result < F.SIZE }
    ensures value { result ≡ product kind a b }
{
    F::of_number(a).mul(F::of_number(b)).number()
}
