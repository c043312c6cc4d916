//! The words that the program is called with.
ghost use Rattle.std.specs.Prelude.{◌≡◌, Some, map, string_bytes};
ghost use Rattle.std.specs.Option.{option_map};
ghost use Rattle.top_base.specs.Words.{are_rates, blind_of, check_of, command_of, compile_of, cuts_of, demo_of, demo_with, finish_of, migrate_of, order_of, relay_of, send_of, send_two_of, sink_of, twin_of};
ghost use Rattle.top_base.specs.Given.{command_in};

use crate::demo_words::{DEMO_LIMIT, DemoWords};
use crate::send_two_words::SendTwoWords;
use crate::twin_words::TwinWords;
use net_maker::demo_fits;
use net_model::HIGHEST_RATE;
use net_reader::number_of;

/// What a command `compile` is given.
#[derive(Clone, Copy)]
pub struct CompileWords<'a> {
    /// The path of the network.
    pub net: &'a str,
    /// The path of the code, which is written.
    pub code: &'a str,
    /// The path of the report, which is written.
    pub report: &'a str,
}

/// The greatest length of a source that is sent, in bytes: 1 TiB.
pub const SOURCE_LIMIT: u64 = 1_099_511_627_776;

/// What a command `migrate` is given.
#[derive(Clone, Copy)]
pub struct MigrateWords<'a> {
    /// The path of a code.
    pub old: &'a str,
    /// The path where it is written anew.
    pub new: &'a str,
}

/// What a command `relay` or `sink` is given.
#[derive(Clone, Copy)]
pub struct NodeWords<'a> {
    /// The path of the code.
    pub code: &'a str,
    /// The name of the pattern that holds.
    pub pattern: &'a str,
    /// The name of the node, or of the sink.
    pub node: &'a str,
    /// What the paths of the streams that are read begin with; at the source the path of the source's file.
    pub input: &'a str,
    /// What the paths of the streams that are written begin with; of a sink the path of its file.
    pub output: &'a str,
}

/// What a command `finish` is given.
#[derive(Clone, Copy)]
pub struct FinishWords<'a> {
    /// The path of the draft.
    pub draft: &'a str,
    /// The path of the code.
    pub code: &'a str,
}

/// What a command `blind` is given.
#[derive(Clone, Copy)]
pub struct BlindWords<'a> {
    /// The path of the code.
    pub code: &'a str,
    /// The path of the source.
    pub source: &'a str,
    /// What the paths of the sinks' files begin with.
    pub prefix: &'a str,
    /// The names of the links that fail.
    pub links: &'a [String],
}

/// What a command `send` is given.
#[derive(Clone, Copy)]
pub struct SendWords<'a> {
    /// The path of the code.
    pub code: &'a str,
    /// The name of the pattern that holds.
    pub pattern: &'a str,
    /// The seed of the order of delivery.
    pub seed: u64,
    /// The path of the source.
    pub source: &'a str,
    /// What the paths of the sinks' files begin with.
    pub prefix: &'a str,
}

/// A command with what it is given.
#[derive(Clone, Copy)]
pub enum Command<'a> {
    /// `order NET`.
    Order(&'a str),
    /// `cuts NET`.
    Cuts(&'a str),
    /// `compile NET CODE REPORT`.
    Compile(CompileWords<'a>),
    /// `check CODE`.
    Check(&'a str),
    /// `send CODE PATTERN SEED SRC PREFIX`.
    Send(SendWords<'a>),
    /// `demo N K BYTES`.
    Demo(DemoWords),
    /// `migrate OLD NEW`.
    Migrate(MigrateWords<'a>),
    /// `relay CODE PATTERN NODE IN OUT`.
    Relay(NodeWords<'a>),
    /// `sink CODE PATTERN SINK IN DST`.
    Sink(NodeWords<'a>),
    /// `blind CODE SRC PREFIX LINK`, with any number of links.
    Blind(BlindWords<'a>),
    /// `finish DRAFT CODE`.
    Finish(FinishWords<'a>),
    /// `twin NET SECOND R1 R2 CODE REPORT`.
    Twin(TwinWords<'a>),
    /// `sendtwo CODE PATTERN SEED R1 SRC1 SRC2 PREFIX`.
    SendTwo(SendTwoWords<'a>),
}

/// The command that the words are, if they are one.
pub fn command_of(words: &[String]) -> Option<Command<'_>>
    ensures { option_map command_in result ≡ command_of (map string_bytes words.now) }
{
    let [name, given @ ..] = words else {
        return None;
    };
    match name.as_str() {
        "order" => order_of(given),
        "cuts" => cuts_of(given),
        "compile" => compile_of(given),
        "check" => check_of(given),
        "send" => send_of(given),
        "demo" => demo_of(given),
        "migrate" => migrate_of(given),
        "relay" => relay_of(given),
        "sink" => sink_of(given),
        "blind" => blind_of(given),
        "finish" => finish_of(given),
        "twin" => twin_of(given),
        "sendtwo" => send_two_of(given),
        _ => None,
    }
}

// `order NET`.
fn order_of(given: &[String]) -> Option<Command<'_>>
    ensures { option_map command_in result ≡ order_of (map string_bytes given.now) }
{
    let [net] = given else {
        return None;
    };
    Some(Command::Order(net.as_str()))
}

// `cuts NET`.
fn cuts_of(given: &[String]) -> Option<Command<'_>>
    ensures { option_map command_in result ≡ cuts_of (map string_bytes given.now) }
{
    let [net] = given else {
        return None;
    };
    Some(Command::Cuts(net.as_str()))
}

// `compile NET CODE REPORT`.
fn compile_of(given: &[String]) -> Option<Command<'_>>
    ensures { option_map command_in result ≡ compile_of (map string_bytes given.now) }
{
    let [net, code, report] = given else {
        return None;
    };
    Some(Command::Compile(CompileWords {
        net: net.as_str(),
        code: code.as_str(),
        report: report.as_str(),
    }))
}

// `check CODE`.
fn check_of(given: &[String]) -> Option<Command<'_>>
    ensures { option_map command_in result ≡ check_of (map string_bytes given.now) }
{
    let [code] = given else {
        return None;
    };
    Some(Command::Check(code.as_str()))
}

// `send CODE PATTERN SEED SRC PREFIX`.
fn send_of(given: &[String]) -> Option<Command<'_>>
    ensures { option_map command_in result ≡ send_of (map string_bytes given.now) }
{
    let [code, pattern, seed, source, prefix] = given else {
        return None;
    };
    let Some(seed) = number_of(seed.as_bytes()) else {
        return None;
    };
    Some(Command::Send(SendWords {
        code: code.as_str(),
        pattern: pattern.as_str(),
        seed,
        source: source.as_str(),
        prefix: prefix.as_str(),
    }))
}

// `demo N K BYTES`.
fn demo_of(given: &[String]) -> Option<Command<'_>>
    ensures { option_map command_in result ≡ demo_of (map string_bytes given.now) }
{
    let [n, k, bytes] = given else {
        return None;
    };
    let n = number_of(n.as_bytes())?;
    let k = number_of(k.as_bytes())?;
    let bytes = number_of(bytes.as_bytes())?;
    demo_with(n, k, bytes)
}

// The command of these numbers, where the network is one that is made, and the source within its limit.
fn demo_with<'a>(n: u64, k: u64, bytes: u64) -> Option<Command<'a>>
    ensures { option_map command_in result ≡ demo_with (Some n) (Some k) (Some bytes) }
{
    let n = u32::try_from(n).ok()?;
    let k = u32::try_from(k).ok()?;
    if !demo_fits(n, k) || bytes > DEMO_LIMIT {
        return None;
    }
    Some(Command::Demo(DemoWords { n, k, bytes }))
}

// `migrate OLD NEW`.
fn migrate_of(given: &[String]) -> Option<Command<'_>>
    ensures { option_map command_in result ≡ migrate_of (map string_bytes given.now) }
{
    let [old, new] = given else {
        return None;
    };
    Some(Command::Migrate(MigrateWords {
        old: old.as_str(),
        new: new.as_str(),
    }))
}

// `relay CODE PATTERN NODE IN OUT`.
fn relay_of(given: &[String]) -> Option<Command<'_>>
    ensures { option_map command_in result ≡ relay_of (map string_bytes given.now) }
{
    let [code, pattern, node, input, output] = given else {
        return None;
    };
    Some(Command::Relay(NodeWords {
        code: code.as_str(),
        pattern: pattern.as_str(),
        node: node.as_str(),
        input: input.as_str(),
        output: output.as_str(),
    }))
}

// `sink CODE PATTERN SINK IN DST`.
fn sink_of(given: &[String]) -> Option<Command<'_>>
    ensures { option_map command_in result ≡ sink_of (map string_bytes given.now) }
{
    let [code, pattern, node, input, output] = given else {
        return None;
    };
    Some(Command::Sink(NodeWords {
        code: code.as_str(),
        pattern: pattern.as_str(),
        node: node.as_str(),
        input: input.as_str(),
        output: output.as_str(),
    }))
}

// `blind CODE SRC PREFIX LINK`, with any number of links.
fn blind_of(given: &[String]) -> Option<Command<'_>>
    ensures { option_map command_in result ≡ blind_of (map string_bytes given.now) }
{
    let [code, source, prefix, links @ ..] = given else {
        return None;
    };
    Some(Command::Blind(BlindWords {
        code: code.as_str(),
        source: source.as_str(),
        prefix: prefix.as_str(),
        links,
    }))
}

// `finish DRAFT CODE`.
fn finish_of(given: &[String]) -> Option<Command<'_>>
    ensures { option_map command_in result ≡ finish_of (map string_bytes given.now) }
{
    let [draft, code] = given else {
        return None;
    };
    Some(Command::Finish(FinishWords {
        draft: draft.as_str(),
        code: code.as_str(),
    }))
}

// Whether these are the rates of two sources.
fn are_rates(r1: u64, r2: u64) -> bool
    ensures { result ≡ are_rates r1 r2 }
{
    let most = u64::from(HIGHEST_RATE);
    r1 >= 1 && r2 >= 1 && r1 <= most && r2 <= most - r1
}

// `twin NET SECOND R1 R2 CODE REPORT`.
fn twin_of(given: &[String]) -> Option<Command<'_>>
    ensures { option_map command_in result ≡ twin_of (map string_bytes given.now) }
{
    let [net, second, r1, r2, code, report] = given else {
        return None;
    };
    let r1 = number_of(r1.as_bytes())?;
    let r2 = number_of(r2.as_bytes())?;
    if !are_rates(r1, r2) {
        return None;
    }
    Some(Command::Twin(TwinWords {
        net: net.as_str(),
        second: second.as_str(),
        r1: r1 as u32,
        r2: r2 as u32,
        code: code.as_str(),
        report: report.as_str(),
    }))
}

// `sendtwo CODE PATTERN SEED R1 SRC1 SRC2 PREFIX`.
fn send_two_of(given: &[String]) -> Option<Command<'_>>
    ensures { option_map command_in result ≡ send_two_of (map string_bytes given.now) }
{
    let [code, pattern, seed, first_rate, first, second, prefix] = given else {
        return None;
    };
    let seed = number_of(seed.as_bytes())?;
    let first_rate = number_of(first_rate.as_bytes())?;
    Some(Command::SendTwo(SendTwoWords {
        code: code.as_str(),
        pattern: pattern.as_str(),
        seed,
        first_rate,
        first: first.as_str(),
        second: second.as_str(),
        prefix: prefix.as_str(),
    }))
}
