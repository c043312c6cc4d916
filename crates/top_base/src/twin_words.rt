//! What a command `twin` is given.
ghost use Rattle.std.specs.Prelude.{◌≤◌, ◌+◌};
ghost use Rattle.net_model.specs.Limits.{highest_rate};

/// What a command `twin` is given: a network, a second node, the rates of the two sources, and what is written.
#[derive(Clone, Copy)]
pub struct TwinWords<'a> {
    /// The path of the network.
    pub net: &'a str,
    /// The name of the node at which the second source starts.
    pub second: &'a str,
    /// The rate of the first source.
    pub r1: u32,
    /// The rate of the second one.
    pub r2: u32,
    /// The path of the code, which is written.
    pub code: &'a str,
    /// The path of the report, which is written.
    pub report: &'a str,
    ghost first_rate: { 1 ≤ r1 },
    ghost second_rate: { 1 ≤ r2 },
    ghost rate: { r1 + r2 ≤ highest_rate },
}
