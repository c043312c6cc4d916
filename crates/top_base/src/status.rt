//! How the program ends.
use code_file::CodeRefusal;
use generation_frame::StreamWhy;
use net_model::{LinkList, Side};
use net_reader::ReadRefusal;
use node_program::Entries;

/// Why a network is refused.
#[derive(Drop, Debug, PartialEq, Eq)]
pub enum NetWhy {
    /// Its text is that of no network.
    Text(ReadRefusal),
    /// It has a cycle, which passes no node twice and begins with its least link.
    Cycle(LinkList),
}

/// Why two sources aren't joined.
#[derive(Clone, Copy, Debug, PartialEq, Eq)]
pub enum TwinWhy {
    /// No node of the network has the name.
    UnknownSecond,
    /// A node of the network is named `super`, or a link of it has the name of one that is made.
    NameTaken,
    /// The network has 4,096 nodes, or there would be more than 8,192 links.
    TooMany,
}

impl TwinWhy {
    ghost use Rattle.std.specs.Prelude.{◌≡◌, string_bytes};
    ghost use Rattle.top_base.specs.Lines.{twin_why_name};

    /// Its name.
    pub fn name(self) -> &'static str
        ensures { result.now ≡ twin_why_name self }
    {
        match self {
            TwinWhy::UnknownSecond => "UnknownSecond",
            TwinWhy::NameTaken => "NameTaken",
            TwinWhy::TooMany => "TooMany",
        }
    }
}

/// How the program ended. Each refusal says its line.
#[derive(Drop, Debug, PartialEq, Eq)]
pub enum Status {
    /// All was done.
    Done,
    /// The words are none of the forms.
    Usage,
    /// The file at the path of the network isn't the text of one without a cycle.
    NetRefused(NetWhy),
    /// A demand of the network has no path.
    ZeroRate {
        /// The first such demand.
        demand: u32,
        /// Its least side, which only failed links leave.
        side: Side,
    },
    /// The field serves fewer demands than the network has.
    TooManyDemands {
        /// How many it has.
        count: u64,
    },
    /// The rate of the network is above 32, and none is wanted.
    RateOver {
        /// The first demand whose least cut is the rate.
        demand: u32,
        /// The size of that cut.
        least: u32,
    },
    /// The file at the path of the code isn't that of a code.
    CodeRefused(CodeRefusal),
    /// The code isn't accepted: a demand's decoder times the vectors of its links isn't the identity.
    CheckFailed {
        /// The first such demand.
        demand: u32,
        /// The row of the first entry that differs, by rows.
        row: u32,
        /// Its column.
        column: u32,
        /// The number of the element that stands there.
        found: u32,
    },
    /// No pattern of the code has the name.
    UnknownPattern,
    /// An input couldn't be read.
    ReadFault,
    /// An output couldn't be written, or a line couldn't be said.
    WriteFault,
    /// An input is longer than its limit, or what would be written of a code.
    TooLong,
    /// There was no memory.
    OutOfMemory,
    /// The path of an output is that of an input or of another output.
    SamePath,
    /// The links failed.
    LinkFault,
    /// The wanted rate is above the rate of the network, which isn't 0.
    RateUnmet {
        /// The first demand whose least cut is below the wanted rate.
        demand: u32,
        /// Its least side.
        side: Side,
        /// The size of that cut.
        least: u32,
    },
    /// The file of a link isn't a stream of it, or not a whole one.
    StreamRefused {
        /// The first such link.
        link: u32,
        /// Why its file is refused.
        why: StreamWhy,
    },
    /// No node of the code has the name, or no sink.
    UnknownNode,
    /// A block that a sink decodes counts more bytes than it has room for, or isn't full before the last, or is full and the last.
    BadBlocks {
        /// The first such block's generation.
        generation: u32,
        /// How many bytes it counts.
        count: u64,
    },
    /// No link of the code has the name.
    UnknownLink,
    /// A demand of the draft doesn't decode.
    NotDecoding {
        /// The first such demand.
        demand: u32,
        /// Elements, as many as the rate and not all zero, by their numbers. As a block of rows of one element each they give zero on
        /// all links into the sink, as zeros do.
        block: Entries,
    },
    /// Two sources aren't joined.
    TwinRefused(TwinWhy),
    /// The rate of the first of two sources isn't below that of the code, or is 0.
    BadSplit {
        /// The rate of the code.
        rate: u32,
    },
}

impl Status {
    ghost use Rattle.std.specs.Prelude.{◌≡◌};
    ghost use Rattle.top_base.specs.Codes.{code_of};

    /// The number of the status, which the program ends with.
    pub fn code(&self) -> u8
        ensures { result ≡ code_of self.now }
    {
        match self {
            Status::Done => 0,
            Status::Usage => 2,
            Status::NetRefused(_) => 3,
            Status::ZeroRate { .. } => 4,
            Status::TooManyDemands { .. } => 5,
            Status::RateOver { .. } => 6,
            Status::CodeRefused(_) => 7,
            Status::CheckFailed { .. } => 8,
            Status::UnknownPattern => 9,
            Status::ReadFault => 10,
            Status::WriteFault => 11,
            Status::TooLong => 12,
            Status::OutOfMemory => 13,
            Status::SamePath => 14,
            Status::LinkFault => 15,
            Status::RateUnmet { .. } => 16,
            Status::StreamRefused { .. } => 17,
            Status::UnknownNode => 18,
            Status::BadBlocks { .. } => 19,
            Status::UnknownLink => 20,
            Status::NotDecoding { .. } => 21,
            Status::TwinRefused(_) => 22,
            Status::BadSplit { .. } => 23,
        }
    }
}
