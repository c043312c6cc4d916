//! Elements as bytes: one each or two, the more significant one first.
ghost use Rattle.std.specs.Prelude.{◌≡◌, ◌*◌, length};
ghost use Rattle.linear_algebra.specs.Elements.{bytes_of_numbers, bytes_of_pairs, numbers, numbers_of_bytes, pairs_of_bytes};
ghost use Rattle.vector_headers.specs.Heads.{width_of_bytes};

use gf_tables::Field;

// Writes elements of one byte.
fn write_octets<F: Field>(vector: &[F], into: &mut [u8])
    requires octets { F.BYTES ≡ 1 }
    requires room { length into.old ≡ length vector.now }
    ensures { into.new ≡ numbers F.number vector.now }
{
    for i in 0..into.len() {
        into[i] = vector[i].number() as u8;
    }
}

// Writes elements of two bytes.
fn write_pairs<F: Field>(vector: &[F], into: &mut [u8])
    requires pairs { F.BYTES ≡ 2 }
    requires room { length into.old ≡ 2 * length vector.now }
    ensures { into.new ≡ bytes_of_pairs (numbers F.number vector.now) }
{
    for i in 0..into.len() / 2 {
        let number = vector[i].number();
        into[2 * i] = (number / 256) as u8;
        into[2 * i + 1] = (number % 256) as u8;
    }
}

/// Writes elements.
pub(crate) fn write_elements<F: Field>(vector: &[F], into: &mut [u8])
    requires { length into.old ≡ length vector.now * F.BYTES }
    ensures { into.new ≡ bytes_of_numbers (width_of_bytes F.BYTES) (numbers F.number vector.now) }
{
    if F::BYTES == 1 {
        write_octets(vector, into);
    } else {
        write_pairs(vector, into);
    }
}

// Reads elements of one byte.
fn read_octets<F: Field>(bytes: &[u8], vector: &mut [F])
    requires octets { F.BYTES ≡ 1 }
    requires room { length bytes.now ≡ length vector.old }
    ensures { numbers F.number vector.new ≡ bytes.now }
{
    for i in 0..bytes.len() {
        vector[i] = F::of_number(bytes[i] as u32);
    }
}

// Reads elements of two bytes.
fn read_pairs<F: Field>(bytes: &[u8], vector: &mut [F])
    requires pairs { F.BYTES ≡ 2 }
    requires room { length bytes.now ≡ 2 * length vector.old }
    ensures { numbers F.number vector.new ≡ pairs_of_bytes bytes.now }
{
    for i in 0..bytes.len() / 2 {
        let high = bytes[2 * i] as u32;
        let low = bytes[2 * i + 1] as u32;
        vector[i] = F::of_number(256 * high + low);
    }
}

/// Reads elements.
pub(crate) fn read_elements<F: Field>(bytes: &[u8], vector: &mut [F])
    requires { length bytes.now ≡ length vector.old * F.BYTES }
    ensures { numbers F.number vector.new ≡ numbers_of_bytes (width_of_bytes F.BYTES) bytes.now }
{
    if F::BYTES == 1 {
        read_octets(bytes, vector);
    } else {
        read_pairs(bytes, vector);
    }
}
