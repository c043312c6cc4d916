//! Numbers that look random.
ghost use Rattle.std.specs.Prelude.{◌<◌};

/// Numbers, each made of the one before (a linear congruential generator).
#[derive(Drop)]
pub struct Draws {
    state: u32,
}

impl Draws {
    /// The numbers that begin with a seed.
    pub fn of(seed: u32) -> Draws {
        Draws {
            state: seed.wrapping_mul(2654435769),
        }
    }

    /// A number below a bound.
    pub fn below(&mut self, bound: u32) -> u32
        requires { 0 < bound }
        ensures { result < bound }
    {
        self.state = self.state.wrapping_mul(1664525).wrapping_add(1013904223);
        self.state / 256 % bound
    }
}
