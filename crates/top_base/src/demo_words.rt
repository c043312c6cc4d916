//! What a command `demo` is given.
ghost use Rattle.std.specs.Prelude.{◌≤◌};
ghost use Rattle.net_maker.specs.Fits.{Fits};
ghost use Rattle.top_base.specs.Words.{demo_limit};

/// The greatest length of a source that is made, in bytes.
pub const DEMO_LIMIT: u64 = 67_108_864;

/// What a command `demo` is given: a network that is made, and a source within the limit.
#[derive(Clone, Copy)]
pub struct DemoWords {
    /// How many nodes stand in the middle.
    pub n: u32,
    /// How many links lead into a sink.
    pub k: u32,
    /// The length of the source.
    pub bytes: u64,
    ghost fits: { Fits n k },
    ghost short: { bytes ≤ demo_limit },
}
