//! Products of elements.
ghost use Rattle.std.specs.Prelude.{◌≡◌};
ghost use Rattle.gf_tables.specs.declared.kind.FieldKind.TheVariants.{Eight, Nine, Sixteen};
ghost use Rattle.gf_tables.specs.Product.{product};

// In the field of 256 elements, twice the top power is reduced, and 2 has an inverse.
fn products_of_octets()
    ensures reduced { product Eight 0x80 2 ≡ 0x1D }
    ensures inverse { product Eight 2 0x8E ≡ 1 }
{}

// So it is in the field of FIPS 197, by its own polynomial.
fn products_of_other_octets()
    ensures reduced { product Nine 0x80 2 ≡ 0x1B }
    ensures inverse { product Nine 2 0x8D ≡ 1 }
{}

// In the field of 65,536 elements, y times y is y and the constant, and y has an inverse.
fn products_of_pairs()
    ensures square { product Sixteen 0x0100 0x0100 ≡ 0x0120 }
    ensures inverse { product Sixteen 0x0100 0x6C6C ≡ 1 }
{}

// The example of that standard.
fn product_of_cipher()
    ensures { product Nine 0x57 0x83 ≡ 0xC1 }
{}
