//! What a command `sendtwo` is given.

/// What a command `sendtwo` is given.
#[derive(Clone, Copy)]
pub struct SendTwoWords<'a> {
    /// The path of the code.
    pub code: &'a str,
    /// The name of the pattern that holds.
    pub pattern: &'a str,
    /// The seed of the order of delivery.
    pub seed: u64,
    /// The rate of the first source, which may be any number here.
    pub first_rate: u64,
    /// The path of the first source.
    pub first: &'a str,
    /// The path of the second one.
    pub second: &'a str,
    /// What the paths of the sinks' files begin with.
    pub prefix: &'a str,
}
