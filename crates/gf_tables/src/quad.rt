//! A field of pairs over a smaller one.
ghost use Rattle.std.specs.Prelude.{◌≡◌, ◌≢◌, ◌≤◌, ◌<◌, ◌*◌, ℕ};
ghost use Rattle.gf_tables.specs.PairLaws.{equal_pairs, pair_field};
ghost use Rattle.gf_tables.specs.PairNumbers.{is_256, pair_sizes, pairs_numbering};
ghost use Rattle.gf_tables.specs.Pairs.{AreElements, pair, pair_add, pair_mul, pair_inv, norm, pair_number, pair_of_number};
ghost use Rattle.gf_tables.specs.Product.{pair_product};

use crate::{Field, Gf8};

/// A field over which t*t + t + C has no root.
pub trait NoRoot: Field {
    /// The number of the constant C, below `SIZE`.
    const C: u32;

    /// How many pairs of elements there are: the square of `SIZE`.
    const PAIR_SIZE: u32;

    /// How many bytes a pair takes: twice `BYTES`.
    const PAIR_BYTES: usize;

    /// The number of the field of pairs in code files: twice `MARK`.
    const PAIR_MARK: u8;

    ghost C: { ℕ };

    ghost PAIR_SIZE: { ℕ };

    ghost PAIR_BYTES: { ℕ };

    ghost PAIR_MARK: { ℕ };

    ghost constant: { C < Self.SIZE };

    ghost small: { Self.SIZE ≤ 256 };

    ghost pair_size: { PAIR_SIZE ≡ Self.SIZE * Self.SIZE };

    ghost pair_bytes: { PAIR_BYTES ≡ 2 * Self.BYTES };

    ghost pair_mark: { PAIR_MARK ≡ 2 * Self.MARK };

    /// t*t + t + C is never zero.
    ghost no_root: { (t : Self) → Self.is_element t
        → Self.add (Self.add (Self.mul t t) t) (Self.of_number C) ≢ Self.zero };
}

/// The element `low + high*y`, where `y*y = y + C`.
#[derive(Clone, Copy, Debug, PartialEq, Eq)]
pub struct Quad<F: NoRoot> {
    /// The constant part.
    pub low: F,
    /// The factor of y.
    pub high: F,
}

impl<F: NoRoot> Field for Quad<F> {
    const SIZE: u32 = F::PAIR_SIZE;

    const BYTES: usize = F::PAIR_BYTES;

    const MARK: u8 = F::PAIR_MARK;

    ghost SIZE = { F.PAIR_SIZE };

    ghost BYTES = { F.PAIR_BYTES };

    ghost MARK = { F.PAIR_MARK };

    ghost is_element = { AreElements F.is_element };

    ghost number = { pair_number F.number F.SIZE };

    ghost of_number = { pair_of_number F.of_number F.SIZE };

    ghost zero = { pair F.zero F.zero };

    ghost one = { pair F.one F.zero };

    ghost add = { pair_add F.add };

    ghost mul = { pair_mul F.add F.mul (F.of_number F.C) };

    ghost inv = { pair_inv F.add F.mul (F.of_number F.C) F.inv };

    ghost product = { pair_product F.product F.SIZE F.C };

    fn of_number(n: u32) -> Self {
        Quad {
            low: F::of_number(n % F::SIZE),
            high: F::of_number(n / F::SIZE),
        }
    }

    fn number(self) -> u32 {
        self.low.number() + F::SIZE * self.high.number()
    }

    fn zero() -> Self {
        Quad {
            low: F::zero(),
            high: F::zero(),
        }
    }

    fn one() -> Self {
        Quad {
            low: F::one(),
            high: F::zero(),
        }
    }

    fn add(self, other: Self) -> Self {
        Quad {
            low: self.low.add(other.low),
            high: self.high.add(other.high),
        }
    }

    fn mul(self, other: Self) -> Self {
        // `number` tells that the parts are elements, over which products go apart.
        let _ = (self.number(), other.number());
        if self == Quad::zero() || other == Quad::zero() {
            return Quad::zero();
        }
        let low = self.low.mul(other.low);
        let sums = self.low.add(self.high).mul(other.low.add(other.high));
        let top = F::of_number(F::C).mul(self.high).mul(other.high);
        Quad {
            low: low.add(top),
            high: sums.add(low),
        }
    }

    fn inv(self) -> Self {
        // `number` tells that both parts are elements, so that the norm is not zero.
        let _ = self.number();
        let divisor = self.norm().inv();
        Quad {
            low: self.low.add(self.high).mul(divisor),
            high: self.high.mul(divisor),
        }
    }

    ghost sizes = { pair_sizes F.sizes F.small F.pair_bytes F.pair_size };

    ghost equal = { equal_pairs F.eq F.equal };

    ghost numbering = { pairs_numbering F.field F.numbering
        (is_256 F.sizes F.small) F.pair_size F.constant };

    ghost field = { pair_field F.field F.eq F.equal
        (F.element_of_number F.C F.constant) F.no_root };
}

impl<F: NoRoot> Quad<F> {
    // The product of this element and its conjugate.
    fn norm(self) -> F
        ensures { result ≡ norm F.add F.mul (F.of_number F.C) self.low self.high }
    {
        let top = F::of_number(F::C).mul(self.high.mul(self.high));
        self.low.mul(self.low).add(self.low.mul(self.high)).add(top)
    }
}

impl NoRoot for Gf8 {
    ghost use Rattle.std.proofs.Common.{refl, lit<, lit≤};
    ghost use Rattle.gf_tables.specs.Poly11D.{poly11D-no_root};

    const C: u32 = 0x20;

    const PAIR_SIZE: u32 = 65536;

    const PAIR_BYTES: usize = 2;

    const PAIR_MARK: u8 = 16;

    ghost C = { 0x20 };

    ghost PAIR_SIZE = { 65536 };

    ghost PAIR_BYTES = { 2 };

    ghost PAIR_MARK = { 16 };

    ghost constant = { lit< tt };

    ghost small = { lit≤ tt };

    ghost pair_size = { refl };

    ghost pair_bytes = { refl };

    ghost pair_mark = { refl };

    ghost no_root = { poly11D-no_root };
}

/// The field of 65,536 elements.
pub type Gf16 = Quad<Gf8>;
