//! Fields of 256 elements, by tables of powers and logarithms.
ghost use Rattle.std.specs.Prelude.{◌≡◌, ◌≢◌, ◌<◌, ℕ, List, refl, bit_xor, slice_index};
ghost use Rattle.std.proofs.Common.{inl};
ghost use Rattle.gf_tables.specs.NumberField.{own_numbering};
ghost use Rattle.gf_tables.specs.OctetField.{equal_octets, octets_field};
ghost use Rattle.gf_tables.specs.Powers.{power, long_powers, long_logarithms, octet_inverse, AreTables};
ghost use Rattle.gf_tables.specs.Product.{octet_product};

use crate::Field;
use std::marker::{Model, PhantomData};

/// A polynomial of degree 8 over the field of two elements, modulo which the powers of a generator
/// are all nonzero bytes.
pub trait Generates: Copy + Eq {
    /// The polynomial: bit `k` is the coefficient of x^k.
    const POLY: u16;

    /// The generator.
    const GEN: u8;

    /// The field's number in code files.
    const MARK: u8;

    /// The powers of the generator, from power 0.
    const EXP: [u8; 255];

    /// For each nonzero byte its place among the powers. What stands at zero is left open.
    const LOG: [u8; 256];

    ghost POLY: { ℕ };

    ghost GEN: { ℕ };

    ghost MARK: { ℕ };

    ghost EXP: { List ℕ };

    ghost LOG: { List ℕ };

    /// `EXP` twice over and zeros behind it, in place: naming a constant copies the table.
    fn long_powers() -> &'static [u8; 1024]
        ensures { result.now ≡ long_powers EXP };

    /// `LOG` in place, with 511 at zero: a sum with it leads past all powers.
    fn long_logarithms() -> &'static [u16; 256]
        ensures { result.now ≡ long_logarithms LOG };

    /// The polynomial has degree 8, and the tables are those of the generator.
    ghost tables: { AreTables POLY GEN EXP LOG };
}

/// An element of the field of 256 elements modulo the polynomial of `T`: its byte.
#[derive(Clone, Copy, Debug, PartialEq, Eq)]
pub struct Octet<T: Generates> {
    byte: u8,
    of: PhantomData<T>,
}

impl<T: Generates> Model for Octet<T> {
    ghost use Rattle.std.specs.Prelude.{ℕ};

    ghost Value = { ℕ };

    ghost view = { λ a. a.byte };

    ghost inverse = { λ n. record { byte = n; of = record {} } };
}

impl<T: Generates> Octet<T> {
    fn of_byte(byte: u8) -> Self
        ensures { result ≡ byte }
    {
        Octet {
            byte,
            of: PhantomData,
        }
    }

    // The generator to the power `exponent`.
    fn power(exponent: usize) -> Self
        requires { exponent < 510 }
        ensures { result ≡ power T.POLY T.GEN exponent }
    {
        Octet::of_byte(T::long_powers()[exponent])
    }

    // The place in the long table of powers whose sum with that of another element is the place of their product.
    fn place(self) -> usize
        ensures place { result ≡ slice_index (long_logarithms T.LOG) self }
        ensures below { result < 512 }
    {
        T::long_logarithms()[self.byte as usize] as usize
    }
}

impl<T: Generates> Field for Octet<T> {
    const SIZE: u32 = 256;

    const BYTES: usize = 1;

    const MARK: u8 = T::MARK;

    ghost SIZE = { 256 };

    ghost BYTES = { 1 };

    ghost MARK = { T.MARK };

    ghost is_element = { λ x. x < 256 };

    ghost number = { λ x. x };

    ghost of_number = { λ n. n };

    ghost zero = { 0 };

    ghost one = { 1 };

    ghost add = { bit_xor };

    ghost mul = { octet_product T.POLY };

    ghost inv = { octet_inverse T.POLY T.GEN T.LOG };

    ghost product = { octet_product T.POLY };

    fn of_number(n: u32) -> Self {
        Octet::of_byte(n as u8)
    }

    fn number(self) -> u32 {
        self.byte as u32
    }

    fn zero() -> Self {
        Octet::of_byte(0)
    }

    fn one() -> Self {
        Octet::of_byte(1)
    }

    fn add(self, other: Self) -> Self {
        Octet::of_byte(self.byte ^ other.byte)
    }

    fn mul(self, other: Self) -> Self {
        Octet::of_byte(T::long_powers()[self.place() + other.place()])
    }

    fn inv(self) -> Self {
        Octet::power(255 - self.place())
    }

    ghost sizes = { inl (refl, refl) };

    ghost equal = { equal_octets };

    ghost numbering = { own_numbering 256 (octet_product T.POLY) };

    ghost field = { octets_field T.tables };
}
