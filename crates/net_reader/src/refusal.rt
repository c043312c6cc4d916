//! Why a text is no network.
use std::alloc::{AllocError, AllocFailed};

/// Of what there are too many.
#[derive(Clone, Copy, Debug, PartialEq, Eq)]
pub enum What {
    /// More than 4096 nodes.
    Nodes,
    /// More than 8192 links.
    Links,
    /// More than 4095 listed patterns.
    Patterns,
    /// More than 2,097,152 links in all listed patterns together.
    Members,
}

/// Why a text is no network. The refusal is that of the first line that isn't good, and of its refusals the first in
/// the order below; those that have no line are of the text as a whole. A line is counted from 1, skipped ones too.
#[derive(Clone, Copy, Debug, PartialEq, Eq)]
pub enum ReadRefusal {
    /// A byte is neither a tab nor from the space to the tilde.
    BadByte {
        line: u64,
    },
    /// The line has none of the forms.
    BadLine {
        line: u64,
    },
    /// A name isn't one.
    BadName {
        line: u64,
    },
    /// An earlier link or bundle has the name, or one that the bundle makes.
    DuplicateLink {
        line: u64,
    },
    /// The name is `none`, or an earlier pattern has it.
    DuplicatePattern {
        line: u64,
    },
    /// The node is a sink already.
    DuplicateSink {
        line: u64,
    },
    /// There is a source already.
    SecondSource {
        line: u64,
    },
    /// The link leads from a node to itself.
    SelfLoop {
        line: u64,
    },
    /// No earlier link or bundle has the name.
    UnknownLink {
        line: u64,
    },
    /// A link is named twice, by itself or by its bundle.
    RepeatedLink {
        line: u64,
    },
    /// There is a field already.
    SecondField {
        line: u64,
    },
    /// With this line there is one too many.
    TooMany {
        line: u64,
        what: What,
    },
    /// There is no source.
    NoSource,
    /// There is no sink.
    NoSink,
    /// A sink is the source.
    SinkIsSource {
        /// The number of the node.
        sink: u32,
    },
    /// There was no memory.
    OutOfMemory,
    /// There is a wanted rate already.
    SecondRate {
        line: u64,
    },
    /// That each link fails alone was said already.
    SecondFailEach {
        line: u64,
    },
    /// Each link is to fail alone, and a link is named `none` or as a listed pattern.
    PatternNamed {
        /// The number of the first such link.
        link: u32,
    },
    /// Each link is to fail alone, and there are more than 4095 listed patterns and links.
    TooManyPatterns {
        /// How many there are.
        count: u64,
    },
}

impl What {
    ghost use Rattle.std.specs.Prelude.{◌≡◌, ◌≤◌, length};
    ghost use Rattle.net_reader.specs.RefusalNames.{what_name};

    /// Its name.
    pub fn name(self) -> &'static str
        ensures name { result.now ≡ what_name self }
        ensures short { length result.now ≤ 16 }
    {
        match self {
            What::Nodes => "Nodes",
            What::Links => "Links",
            What::Patterns => "Patterns",
            What::Members => "Members",
        }
    }
}

impl ReadRefusal {
    ghost use Rattle.std.specs.Prelude.{◌≡◌, ◌≤◌, length};
    ghost use Rattle.net_reader.specs.RefusalNames.{refusal_name, refusal_line};

    /// Its name.
    pub fn name(self) -> &'static str
        ensures name { result.now ≡ refusal_name self }
        ensures short { length result.now ≤ 16 }
    {
        match self {
            ReadRefusal::BadByte { .. } => "BadByte",
            ReadRefusal::BadLine { .. } => "BadLine",
            ReadRefusal::BadName { .. } => "BadName",
            ReadRefusal::DuplicateLink { .. } => "DuplicateLink",
            ReadRefusal::DuplicatePattern { .. } => "DuplicatePattern",
            ReadRefusal::DuplicateSink { .. } => "DuplicateSink",
            ReadRefusal::SecondSource { .. } => "SecondSource",
            ReadRefusal::SelfLoop { .. } => "SelfLoop",
            ReadRefusal::UnknownLink { .. } => "UnknownLink",
            ReadRefusal::RepeatedLink { .. } => "RepeatedLink",
            ReadRefusal::SecondField { .. } => "SecondField",
            ReadRefusal::TooMany { .. } => "TooMany",
            ReadRefusal::NoSource => "NoSource",
            ReadRefusal::NoSink => "NoSink",
            ReadRefusal::SinkIsSource { .. } => "SinkIsSource",
            ReadRefusal::OutOfMemory => "OutOfMemory",
            ReadRefusal::SecondRate { .. } => "SecondRate",
            ReadRefusal::SecondFailEach { .. } => "SecondFailEach",
            ReadRefusal::PatternNamed { .. } => "PatternNamed",
            ReadRefusal::TooManyPatterns { .. } => "TooManyPatterns",
        }
    }

    /// The line that it is of, if it is of one.
    pub fn line(self) -> Option<u64>
        ensures { result ≡ refusal_line self }
    {
        match self {
            ReadRefusal::BadByte { line } => Some(line),
            ReadRefusal::BadLine { line } => Some(line),
            ReadRefusal::BadName { line } => Some(line),
            ReadRefusal::DuplicateLink { line } => Some(line),
            ReadRefusal::DuplicatePattern { line } => Some(line),
            ReadRefusal::DuplicateSink { line } => Some(line),
            ReadRefusal::SecondSource { line } => Some(line),
            ReadRefusal::SelfLoop { line } => Some(line),
            ReadRefusal::UnknownLink { line } => Some(line),
            ReadRefusal::RepeatedLink { line } => Some(line),
            ReadRefusal::SecondField { line } => Some(line),
            ReadRefusal::TooMany { line, .. } => Some(line),
            ReadRefusal::NoSource => None,
            ReadRefusal::NoSink => None,
            ReadRefusal::SinkIsSource { .. } => None,
            ReadRefusal::OutOfMemory => None,
            ReadRefusal::SecondRate { line } => Some(line),
            ReadRefusal::SecondFailEach { line } => Some(line),
            ReadRefusal::PatternNamed { .. } => None,
            ReadRefusal::TooManyPatterns { .. } => None,
        }
    }
}

impl From<AllocError> for ReadRefusal {
    ghost use Rattle.std.specs.Prelude.{◌≡◌};
    ghost use Rattle.net_reader.specs.declared.refusal.ReadRefusal.TheVariants.{OutOfMemory};

    ghost from_gives = { λ _ refusal. refusal ≡ OutOfMemory };

    fn from(_: AllocError) -> ReadRefusal {
        ReadRefusal::OutOfMemory
    }
}

impl<T: Drop> From<AllocFailed<T>> for ReadRefusal {
    ghost use Rattle.std.specs.Prelude.{◌≡◌};
    ghost use Rattle.net_reader.specs.declared.refusal.ReadRefusal.TheVariants.{OutOfMemory};

    ghost from_gives = { λ _ refusal. refusal ≡ OutOfMemory };

    fn from(_: AllocFailed<T>) -> ReadRefusal {
        ReadRefusal::OutOfMemory
    }
}
