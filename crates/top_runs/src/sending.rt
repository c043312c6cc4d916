//! The command `send`.
ghost use Rattle.std.specs.Prelude.{◌≡◌, []};
ghost use Rattle.gf_tables.specs.Kind.{IsOfKind};
ghost use Rattle.lif_outside.specs.Calls.{MakesBoth};
ghost use Rattle.top_base.specs.Given.{given_in};
ghost use Rattle.top_base.specs.Performs.{RunsOn};
ghost use Rattle.top_runs.specs.Send.Command.{send_command};
ghost use Rattle.source_delivery.specs.Delivering.{CanCarry};
ghost use Rattle.top_runs.specs.Send.Ready.{IsReady};
ghost use Rattle.top_runs.specs.Send.Runs.{RunsCode, Sends};
ghost use Rattle.top_runs.specs.Sending.{behind_open, outcome_of};

use crate::preparing::prepare;
use code_checker::Checked;
use gf_tables::{Field, FieldKind, Gf8, Gf9, Gf16};
use lif_outside::{Gate, Links, Store};
use source_delivery::{DeliveryFault, SourceDelivery, StreamFault};
use std::alloc::Global;
use std::thread::Threads;
use top_base::{FileRefusal, Line, Outcome, SOURCE_LIMIT, SendWords, Status, read_accepted};

/// What a source that wasn't sent to its end makes of the command.
pub(crate) fn interrupted<'a>(fault: StreamFault) -> Outcome<'a>
    ensures { result ≡ outcome_of fault }
{
    match fault {
        StreamFault::Read => FileRefusal::Fault.into(),
        StreamFault::TooLong => FileRefusal::TooLong.into(),
        StreamFault::Sinks(DeliveryFault::Links) => Outcome::link_fault(),
        StreamFault::Sinks(DeliveryFault::Write) => Outcome::write_fault(),
    }
}

// Creates the sinks' files, over links that were opened, and streams the source to them.
fn deliver<'a, F: Field + Send + Sync, S: Store, K: Links, G: Gate + Sync, R: Threads + Sync>(
    rt: &R,
    words: &SendWords<'a>,
    code: &Checked,
    mut delivery: SourceDelivery<'_, F>,
    store: &mut S,
    links: &mut K,
    gate: &G,
) -> Outcome<'a>
    requires ready { IsReady (given_in words.now) code.now delivery }
    requires can { CanCarry delivery.runner (K.flying links.old) (K.room links.old) }
    ensures { MakesBoth S.Store K.Links store.old store.new links.old links.new
        (λ calls. RunsCode (K.faithful links.old) (given_in words.now) code.now
        result.status result.line (behind_open words.now.seed code.now calls)) }
{
    let Ok(()) = delivery.create_outputs(store) else {
        return Outcome::write_fault();
    };
    match delivery.stream(rt, store, links, words.source, SOURCE_LIMIT, gate) {
        Ok(counts) => Outcome {
            status: Status::Done,
            line: Line::sent(counts.bytes, counts.generations, counts.sinks),
        },
        Err(fault) => interrupted(fault),
    }
}

// Sends the source through an accepted code, of which `F` is the field.
fn send_over<'a, F: Field + Send + Sync, S: Store, K: Links, G: Gate + Sync, R: Threads + Sync>(
    rt: &R,
    alloc: Global,
    words: &SendWords<'a>,
    code: &Checked,
    store: &mut S,
    links: &mut K,
    gate: &G,
) -> Outcome<'a>
    requires field { IsOfKind code.now.field F.SIZE F.BYTES F.MARK F.product }
    requires nothing_flies { K.flying links.old ≡ [] }
    ensures { MakesBoth S.Store K.Links store.old store.new links.old links.new
        (Sends (K.faithful links.old) (given_in words.now) code.now result) }
{
    match prepare::<F, K>(alloc, words, code, links) {
        Ok(delivery) => deliver(rt, words, code, delivery, store, links, gate),
        Err(refused) => refused,
    }
}

// Sends the source through an accepted code.
fn send_through<'a, S: Store, K: Links, G: Gate + Sync, R: Threads + Sync>(
    rt: &R,
    alloc: Global,
    words: &SendWords<'a>,
    code: &Checked,
    store: &mut S,
    links: &mut K,
    gate: &G,
) -> Outcome<'a>
    requires { K.flying links.old ≡ [] }
    ensures { MakesBoth S.Store K.Links store.old store.new links.old links.new
        (Sends (K.faithful links.old) (given_in words.now) code.now result) }
{
    match code.code().field {
        FieldKind::Eight => {
            send_over::<Gf8, S, K, G, R>(rt, alloc, words, code, store, links, gate)
        }
        FieldKind::Nine => {
            send_over::<Gf9, S, K, G, R>(rt, alloc, words, code, store, links, gate)
        }
        FieldKind::Sixteen => {
            send_over::<Gf16, S, K, G, R>(rt, alloc, words, code, store, links, gate)
        }
    }
}

/// Reads and checks the code, and carries the source over the links to the file of each sink.
pub fn send<'a, S: Store, K: Links, G: Gate + Sync, R: Threads + Sync>(
    rt: &R,
    alloc: Global,
    words: &SendWords<'a>,
    store: &mut S,
    links: &mut K,
    gate: &G,
) -> Outcome<'a>
    requires { K.flying links.old ≡ [] }
    ensures { RunsOn S.Store K.Links (send_command (K.faithful links.old) (given_in words.now))
        store.old store.new links.old links.new result }
{
    match read_accepted(rt, alloc, store, words.code, gate) {
        Ok(checked) => send_through(rt, alloc, words, &checked, store, links, gate),
        Err(refused) => refused,
    }
}
