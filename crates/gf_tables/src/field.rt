//! What every field gives: its operations, and the laws that they keep.
ghost use Rattle.std.specs.Prelude.{◌≡◌, ◌≢◌, ◌<◌, ◌↔◌, ℕ, IsTrue, bit_xor};
ghost use Rattle.gf_tables.specs.Field.{AreSizes, IsField, IsNumbering};
ghost use Rattle.gf_tables.specs.NumberField.{number_field};

/// A finite field of characteristic 2. An element has a number below `SIZE`: the sum of two elements
/// has the exclusive or of their numbers, and 0 and 1 are the numbers of zero and one.
///
/// The field of 256 elements modulo x^8 + x^4 + x^3 + x^2 + 1 is that of QR codes (ISO/IEC 18004)
/// and of RAID 6 in the Linux kernel.
///
/// The laws speak of elements. Each call that gives an element promises that it is one, and `number`
/// tells it of a value in hand.
pub trait Field: Copy + Eq {
    /// How many elements there are.
    const SIZE: u32;

    /// How many bytes an element takes.
    const BYTES: usize;

    /// The field's number in code files.
    const MARK: u8;

    ghost SIZE: { ℕ };

    ghost BYTES: { ℕ };

    ghost MARK: { ℕ };

    /// Holds of the elements.
    ghost is_element: { Self → Type 0 };

    ghost number: { Self → ℕ };

    ghost of_number: { ℕ → Self };

    ghost zero: { Self };

    ghost one: { Self };

    ghost add: { Self → Self → Self };

    ghost mul: { Self → Self → Self };

    ghost inv: { Self → Self };

    /// The product, on numbers.
    ghost product: { ℕ → ℕ → ℕ };

    /// The element with a number.
    fn of_number(n: u32) -> Self
        requires { n < SIZE }
        ensures element { is_element result }
        ensures value { result ≡ of_number n };

    /// The number of an element, below `SIZE`.
    fn number(self) -> u32
        ensures element { is_element self }
        ensures value { result ≡ number self };

    /// The element with the number 0.
    fn zero() -> Self
        ensures element { is_element result }
        ensures value { result ≡ zero };

    /// The element with the number 1.
    fn one() -> Self
        ensures element { is_element result }
        ensures value { result ≡ one };

    /// The sum. It is the difference too.
    fn add(self, other: Self) -> Self
        ensures element { is_element result }
        ensures value { result ≡ add self other };

    /// The product.
    fn mul(self, other: Self) -> Self
        ensures element { is_element result }
        ensures value { result ≡ mul self other };

    /// The element whose product with this one is one.
    fn inv(self) -> Self
        requires { self ≢ zero }
        ensures element { is_element result }
        ensures value { result ≡ inv self };

    /// The two sizes that fields have.
    ghost sizes: { AreSizes BYTES SIZE };

    /// `==` tells elements apart.
    ghost equal: { (x y : Self) → IsTrue (Self.eq x y) ↔ (x ≡ y) };

    /// The elements have the numbers below `SIZE`. Each law below, up to `number_mul`, is a part of
    /// this one.
    ghost numbering: { IsNumbering is_element zero one add mul number of_number SIZE product };

    ghost number_below: { (x : Self) → is_element x
        → number x < SIZE } = { numbering.number_below };

    ghost element_of_number: { (n : ℕ) → n < SIZE
        → is_element (of_number n) } = { numbering.element_of_number };

    ghost number_of_number: { (n : ℕ) → n < SIZE
        → number (of_number n) ≡ n } = { numbering.number_of_number };

    ghost of_number_number: { (x : Self) → is_element x
        → of_number (number x) ≡ x } = { numbering.of_number_number };

    ghost number_zero: { number zero ≡ 0 } = { numbering.number_zero };

    ghost number_one: { number one ≡ 1 } = { numbering.number_one };

    /// The number of a sum is the exclusive or of the numbers.
    ghost number_add: { (x y : Self) → is_element x → is_element y
        → number (add x y) ≡ bit_xor (number x) (number y) } = { numbering.number_add };

    /// The number of a product is the product of the numbers.
    ghost number_mul: { (x y : Self) → is_element x → is_element y
        → number (mul x y) ≡ product (number x) (number y) } = { numbering.number_mul };

    /// The elements are a field. Each law below, up to `mul_inv`, is a part of this one.
    ghost field: { IsField is_element zero one add mul inv };

    ghost zero_element: { is_element zero } = { field.zero_element };

    ghost one_element: { is_element one } = { field.one_element };

    ghost add_element: { (x y : Self) → is_element x → is_element y
        → is_element (add x y) } = { field.add_element };

    ghost mul_element: { (x y : Self) → is_element x → is_element y
        → is_element (mul x y) } = { field.mul_element };

    ghost inv_element: { (x : Self) → is_element x → x ≢ zero
        → is_element (inv x) } = { field.inv_element };

    ghost add_comm: { (x y : Self) → is_element x → is_element y
        → add x y ≡ add y x } = { field.add_comm };

    ghost add_assoc: { (x y z : Self) → is_element x → is_element y → is_element z
        → add (add x y) z ≡ add x (add y z) } = { field.add_assoc };

    ghost zero_add: { (x : Self) → is_element x → add zero x ≡ x } = { field.zero_add };

    /// Each element is its own opposite.
    ghost add_self: { (x : Self) → is_element x → add x x ≡ zero } = { field.add_self };

    ghost mul_comm: { (x y : Self) → is_element x → is_element y
        → mul x y ≡ mul y x } = { field.mul_comm };

    ghost mul_assoc: { (x y z : Self) → is_element x → is_element y → is_element z
        → mul (mul x y) z ≡ mul x (mul y z) } = { field.mul_assoc };

    ghost one_mul: { (x : Self) → is_element x → mul one x ≡ x } = { field.one_mul };

    ghost mul_add: { (x y z : Self) → is_element x → is_element y → is_element z
        → mul x (add y z) ≡ add (mul x y) (mul x z) } = { field.mul_add };

    ghost mul_nonzero: { (x y : Self) → is_element x → is_element y → x ≢ zero → y ≢ zero
        → mul x y ≢ zero } = { field.mul_nonzero };

    ghost mul_inv: { (x : Self) → is_element x → x ≢ zero
        → mul x (inv x) ≡ one } = { field.mul_inv };

    /// The numbers of elements are a field too.
    ghost numbers: { IsField (λ n. n < SIZE) 0 1 bit_xor product
        (λ n. number (inv (of_number n))) } = { number_field field numbering };
}
