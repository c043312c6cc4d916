//! A source whose bytes follow from their places.
ghost use Rattle.std.specs.Prelude.{◌≡◌};
ghost use Rattle.net_maker.specs.Source.{source_byte};

/// The byte at a place of the source.
pub fn source_byte(i: u64) -> u8
    ensures { result ≡ source_byte i }
{
    let place = u128::from(i);
    ((167 * place + 13 * (place / 256) + 5) % 256) as u8
}
