//! The top call: words to a command, and what it does.
ghost use Rattle.std.specs.Prelude.{◌≡◌, ◌≤◌, [], map, string_bytes};
ghost use Rattle.lif_outside.specs.Calls.{KeepsStore, objects};
ghost use Rattle.top_base.specs.Performs.{RunsOn};
ghost use Rattle.top_base.specs.Words.{command_of};
ghost use Rattle.lif_top.specs.Promises.{Promises, does_form};

use lif_outside::{Gate, Links, Sink, Store};
use std::alloc::Global;
use std::thread::Threads;
use top_base::{Command, Outcome, Status, command_of, conclude};
use top_blind::blind;
use top_nodes::{relay, sink};
use top_runs::{demo, send, send_two};
use top_tools::{check, compile, cuts, finish, migrate, order, twin};

// What the words come to: the command that they are, or the usage.
fn carry_out<'a, S: Store, L: Links, G: Gate + Sync, R: Threads + Sync>(
    rt: &R,
    alloc: Global,
    words: &'a [String],
    store: &mut S,
    links: &mut L,
    gate: &G,
) -> Outcome<'a>
    requires { L.flying links.old ≡ [] }
    ensures { RunsOn S.Store L.Links
        (does_form (L.faithful links.old) (command_of (map string_bytes words.now)))
        store.old store.new links.old links.new result }
{
    let Some(command) = command_of(words) else {
        return Outcome::usage();
    };
    match command {
        Command::Order(path) => order(alloc, path, store),
        Command::Cuts(path) => cuts(rt, alloc, path, store, gate),
        Command::Compile(given) => compile(rt, alloc, &given, store, gate),
        Command::Check(path) => check(rt, alloc, path, store, gate),
        Command::Send(given) => send(rt, alloc, &given, store, links, gate),
        Command::Demo(given) => demo(rt, alloc, &given, links, gate),
        Command::Migrate(given) => migrate(alloc, &given, store),
        Command::Relay(given) => relay(rt, alloc, &given, store, gate),
        Command::Sink(given) => sink(rt, alloc, &given, store, gate),
        Command::Blind(given) => blind(alloc, &given, store),
        Command::Finish(given) => finish(alloc, &given, store),
        Command::Twin(given) => twin(rt, alloc, &given, store, gate),
        Command::SendTwo(given) => send_two(rt, alloc, &given, store, links, gate),
    }
}

/// Does what the words say, over a store of files, a sink for what is said and links on which nothing flies, and tells how it
/// ended. The words are those after the program's name:
///
/// - `order NET` reads a network text and says the links in order.
/// - `cuts NET` reads a network text and says for each sink and pattern the least cut, with paths and a side that show
///   it.
/// - `compile NET CODE REPORT` reads a network text, and writes a code of its rate, which is the least cut of a demand,
///   and the report of the least cuts.
/// - `check CODE` reads a code file and says whether its code is accepted.
/// - `send CODE PATTERN SEED SRC PREFIX` makes `PREFIX.<sink>` for each sink of an accepted code, carries the file at SRC
///   over the links, opened with SEED, as frames of the code where the links of the pattern fail, and writes to each what
///   the sink decodes.
/// - `demo N K BYTES` compiles the network with a sink behind each K of N nodes, carries BYTES bytes over the links, opened
///   with 1, to its sinks, and says how many frames that took and the sum of the bytes that came.
/// - `migrate OLD NEW` reads a code file, in either version, and writes its code anew, in version 2, whether it is accepted
///   or not.
/// - `relay CODE PATTERN NODE IN OUT` reads `IN.<link>` for each link into a node of an accepted code that is live where the
///   links of the pattern fail, frames of that link in any order, and writes `OUT.<link>` for each live link out of it: the
///   frames that the node makes of them. At the source IN is the path of the file that is sent.
/// - `sink CODE PATTERN SINK IN DST` reads `IN.<link>` for each link that the sink's decoder wants, and writes to DST what it
///   decodes of them.
/// - `blind CODE SRC PREFIX LINK`, with any number of links, reads a code file, accepted or not, and where these links fail makes
///   `PREFIX.<sink>` for each sink whose vectors have the rank of the code. It carries the file at SRC as headed frames of the
///   code and writes to each what the sink decodes by their vectors, and says the rank of each sink.
/// - `finish DRAFT CODE` reads a draft's file, finds a decoder for each demand, and writes the code; or it says the first demand
///   that doesn't decode, with a block that shows it.
/// - `twin NET SECOND R1 R2 CODE REPORT` reads a network text, puts a node `super` before its source, by R1 links, and before the
///   node SECOND, by R2, and writes a code of that network of the rate R1 + R2, whose links out of `super` carry a row each, and
///   the report of its least cuts. Two files that start at the two nodes then go through one code.
/// - `sendtwo CODE PATTERN SEED R1 SRC1 SRC2 PREFIX` makes `PREFIX.<sink>.1` and `PREFIX.<sink>.2` for each sink of an accepted
///   code, carries the files at SRC1 and SRC2 over the links, of each block R1 rows of the one and the others of the other, and
///   writes to each sink's two files what the sink decodes.
///
/// The jobs of certificates, of a compilation, of a check and of the sinks that decode enter the gate.
pub fn lif<S: Store, C: Sink, L: Links, G: Gate + Sync, R: Threads + Sync>(
    rt: &R,
    alloc: Global,
    words: &[String],
    store: &mut S,
    say: &mut C,
    links: &mut L,
    gate: &G,
) -> Status
    requires { L.flying links.old ≡ [] }
    ensures promises { Promises (map string_bytes words.now)
        (objects S.Store C.Sink L.Links store.old store.new say.old say.new links.old links.new)
        result }

    // No count falls.
    ensures counts { KeepsStore S.Store store.old store.new }
    ensures say_count { C.faults say.old ≤ C.faults say.new }
    ensures link_count { L.faults links.old ≤ L.faults links.new }
{
    let Outcome { status, line } = carry_out(rt, alloc, words, store, links, gate);
    conclude(status, &line, say)
}
