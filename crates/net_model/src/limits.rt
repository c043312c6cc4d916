//! How large a network may be, and the rates that are served.

/// The most nodes of a network.
pub const MOST_NODES: usize = 4096;

/// The most links of a network.
pub const MOST_LINKS: usize = 8192;

/// The most patterns of a network, `none` among them.
pub const MOST_PATTERNS: usize = 4096;

/// The most listed patterns, those other than `none`.
pub const MOST_LISTED: usize = MOST_PATTERNS - 1;

/// The most bytes of a name.
pub const LONGEST_NAME: usize = 32;

/// The highest rate.
pub const HIGHEST_RATE: u32 = 32;
