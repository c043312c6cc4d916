//! Elements of the fields: their products beside those of the definition, and each call through the bound.
ghost use Rattle.std.specs.Prelude.{◌<◌};

use super::numbered::element;
use gf_tables::{Field, FieldKind, Gf8, Gf9, Gf16, product};
use std::thread::{Threads, join};

// The polynomial of the field 8, and that of the field 9 (FIPS 197).
const POLYNOMIALS: [u32; 2] = [0x11D, 0x11B];

// The product of bytes by its definition: a is doubled for each bit of b, and reduced where it has nine bits.
fn product_by_shifts(polynomial: u32, a: u32, b: u32) -> u32 {
    let mut product = 0;
    let mut shifted = a;
    for place in 0..8u32 {
        if b >> place & 1 == 1 {
            product ^= shifted;
        }
        shifted <<= 1;
        if shifted & 0x100 != 0 {
            shifted ^= polynomial;
        }
    }
    product
}

// The product of a + b*y and c + d*y, where y*y = y + 0x20 and the higher byte of a number is that of y.
fn product_by_parts(n: u32, m: u32) -> u32 {
    let (a, b) = (n & 0xFF, n >> 8);
    let (c, d) = (m & 0xFF, m >> 8);
    let times = |a: u32, b: u32| -> u32 { product_by_shifts(POLYNOMIALS[0], a, b) };
    let top = times(b, d);
    let low = times(a, c) ^ times(0x20, top);
    let high = times(a, d) ^ times(b, c) ^ top;
    high << 8 | low
}

// Each call of a field, at two elements by their numbers.
fn each_call<F: Field>(n: u32, m: u32) -> [u32; 7] {
    let x = element::<F>(n);
    let y = element::<F>(m);
    let inverse = if y == F::zero() { y } else { y.inv() };
    [
        x.add(y).number(),
        x.mul(y).number(),
        inverse.number(),
        F::one().number(),
        F::SIZE,
        F::BYTES as u32,
        F::MARK as u32,
    ]
}

#[test]
fn each_call_answers_through_the_bound(rt: HostRuntime) {
    let are_right = each_call::<Gf8>(2, 0x80) == [0x82, 0x1D, 0x1B, 1, 256, 1, 8]
        && each_call::<Gf8>(3, 2) == [1, 6, 0x8E, 1, 256, 1, 8]
        && each_call::<Gf8>(2, 3) == [1, 6, 0xF4, 1, 256, 1, 8]
        && each_call::<Gf9>(0x80, 2) == [0x82, 0x1B, 0x8D, 1, 256, 1, 9]
        && each_call::<Gf9>(2, 3) == [1, 6, 0xF6, 1, 256, 1, 9]
        && each_call::<Gf16>(3, 0x0100) == [0x0103, 0x0300, 0x6C6C, 1, 65536, 2, 16];
    assert!(rt; are_right);
}

// The first element whose product with this one isn't that of the definition.
fn wrong_factor<F: Field>(polynomial: u32, a: u32) -> Option<u32>
    requires { a < F.SIZE }
{
    for b in 0..F::SIZE {
        if element::<F>(a).mul(element::<F>(b)).number() != product_by_shifts(polynomial, a, b) {
            return Some(b);
        }
    }
    None
}

// The first two elements whose product isn't that of the definition.
fn wrong_octets<F: Field>(polynomial: u32) -> Option<(u32, u32)> {
    for a in 0..F::SIZE {
        if let Some(b) = wrong_factor::<F>(polynomial, a) {
            return Some((a, b));
        }
    }
    None
}

#[test]
fn all_products_of_octets_are_those_of_the_definition(rt: HostRuntime) {
    let [eight, nine] = POLYNOMIALS;
    assert!(rt; wrong_octets::<Gf8>(eight).is_none() && wrong_octets::<Gf9>(nine).is_none());
}

// The first number of an element whose inverse isn't one.
fn wrong_inverse<F: Field>() -> Option<u32> {
    for number in 1..F::SIZE {
        let x = element::<F>(number);
        if x != F::zero() && x.mul(x.inv()) != F::one() {
            return Some(number);
        }
    }
    None
}

#[test]
fn all_inverses_of_octets_are_those_of_the_definition(rt: HostRuntime) {
    assert!(rt; wrong_inverse::<Gf8>().is_none() && wrong_inverse::<Gf9>().is_none());
}

// The first two of many pairs of bytes whose product isn't that of the definition.
fn wrong_pairs() -> Option<(u32, u32)> {
    let mut random = 1u32;
    for _ in 0..100_000u32 {
        random = random.wrapping_mul(1_664_525).wrapping_add(1_013_904_223);
        let (n, m) = (random >> 16, random & 0xFFFF);
        if Gf16::of_number(n).mul(Gf16::of_number(m)).number() != product_by_parts(n, m) {
            return Some((n, m));
        }
    }
    None
}

#[test]
fn many_products_of_pairs_are_those_of_the_definition(rt: HostRuntime) {
    assert_eq!(rt; wrong_pairs(), None);
}

#[test]
fn a_kind_has_the_products_of_its_field(rt: HostRuntime) {
    let octets = product(FieldKind::Eight, 2, 0x80);
    let others = product(FieldKind::Nine, 2, 0x80);
    let pairs = product(FieldKind::Sixteen, 0x0100, 0x0100);
    assert!(rt; octets == 0x1D && others == 0x1B && pairs == 0x0120);
}

// The numbers of the first powers of an element.
fn powers_of<F: Field>(element: F) -> [u32; 100] {
    let mut numbers = [0; 100];
    let mut power = F::one();
    for place in 0..100 {
        power = power.mul(element);
        numbers[place] = power.number();
    }
    numbers
}

// The numbers of products in both fields.
fn products_of(octet: &Gf8, pair: &Gf16) -> [[u32; 100]; 2] {
    [powers_of(*octet), powers_of(*pair)]
}

// Whether two threads find the products that one alone finds.
fn find_the_same<R: Threads>(rt: &R, octet: &Gf8, pair: &Gf16) -> bool {
    let (first, second) = join(rt, || products_of(octet, pair), || products_of(octet, pair));
    let alone = products_of(octet, pair);
    first == alone && second == alone
}

#[test]
fn threads_share_fields(rt: HostRuntime) {
    assert!(rt; find_the_same(&rt, &Gf8::of_number(3), &Gf16::of_number(0x0203)));
}
