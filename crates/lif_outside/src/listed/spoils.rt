//! Bytes of payloads that links change.
ghost use Rattle.std.specs.Prelude.{◌≡◌, All};
ghost use Rattle.lif_outside.specs.Spoils.{is_in_payload, spoiled};

/// A byte of the payload that a take gives, which is changed by a mask.
#[derive(Clone, Copy, Debug, PartialEq, Eq)]
pub struct Spoil {
    /// The number of the take, from 1.
    pub nth: u64,
    /// The place of the byte in the payload, from 0.
    pub byte: u32,
    /// The bits of the byte that are flipped.
    pub mask: u8,
}

// What the take of a number gives of a frame.
pub fn spoiled(spoils: &[Spoil], nth: u64, frame: &[u8; 140]) -> [u8; 140]
    requires { All is_in_payload spoils.now }
    ensures { result ≡ spoiled spoils.now nth frame.now }
{
    let mut given = *frame;
    for spoil in spoils {
        if spoil.nth == nth {
            given[12 + spoil.byte as usize] ^= spoil.mask;
        }
    }
    given
}
