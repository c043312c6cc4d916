//! The command `sendtwo`.
ghost use Rattle.std.specs.Prelude.{◌≡◌, []};
ghost use Rattle.gf_tables.specs.Kind.{IsOfKind};
ghost use Rattle.lif_outside.specs.Calls.{MakesBoth};
ghost use Rattle.top_base.specs.Given.{send_two_given_in};
ghost use Rattle.top_base.specs.Performs.{RunsOn};
ghost use Rattle.top_runs.specs.SendTwo.Command.{send_two_command};
ghost use Rattle.source_delivery.specs.Delivering.{CanCarry};
ghost use Rattle.top_runs.specs.SendTwo.Ready.{IsReady};
ghost use Rattle.top_runs.specs.SendTwo.Runs.{RunsCode, SendsTwo};
ghost use Rattle.top_runs.specs.Sending.{behind_open};

use crate::preparing_two::prepare_two;
use crate::sending::interrupted;
use code_checker::Checked;
use gf_tables::{Field, FieldKind, Gf8, Gf9, Gf16};
use lif_outside::{Gate, Links, Store};
use source_delivery::TwinDelivery;
use std::alloc::Global;
use std::thread::Threads;
use top_base::{Line, Outcome, SOURCE_LIMIT, SendTwoWords, Status, read_accepted};

// Creates the sinks' files, over links that were opened, and streams the sources to them.
fn deliver_two<'a, F: Field + Send + Sync, S: Store, K: Links, G: Gate + Sync, R: Threads + Sync>(
    rt: &R,
    words: &SendTwoWords<'a>,
    code: &Checked,
    twin: TwinDelivery<'_, '_, F>,
    store: &mut S,
    links: &mut K,
    gate: &G,
) -> Outcome<'a>
    requires ready { IsReady (send_two_given_in words.now) code.now twin }
    requires can { CanCarry twin.delivery.runner (K.flying links.old) (K.room links.old) }
    ensures { MakesBoth S.Store K.Links store.old store.new links.old links.new
        (λ calls. RunsCode (K.faithful links.old) (send_two_given_in words.now) code.now
        result.status result.line (behind_open words.now.seed code.now calls)) }
{
    let TwinDelivery {
        mut delivery,
        mut first,
        mut second,
    } = twin;
    let Ok(()) = delivery.create_outputs(store) else {
        return Outcome::write_fault();
    };
    match delivery.stream_two(
        rt,
        store,
        links,
        &mut first,
        &mut second,
        SOURCE_LIMIT,
        gate,
    ) {
        Ok(counts) => Outcome {
            status: Status::Done,
            line: Line::sent_both(
                counts.first,
                counts.second,
                counts.generations,
                counts.sinks,
            ),
        },
        Err(fault) => interrupted(fault),
    }
}

// Sends the sources through an accepted code, of which `F` is the field.
fn send_two_over<'a, F: Field + Send + Sync, S: Store, K: Links, G: Gate + Sync, R: Threads + Sync>(
    rt: &R,
    alloc: Global,
    words: &SendTwoWords<'a>,
    code: &Checked,
    store: &mut S,
    links: &mut K,
    gate: &G,
) -> Outcome<'a>
    requires field { IsOfKind code.now.field F.SIZE F.BYTES F.MARK F.product }
    requires nothing_flies { K.flying links.old ≡ [] }
    ensures { MakesBoth S.Store K.Links store.old store.new links.old links.new
        (SendsTwo (K.faithful links.old) (send_two_given_in words.now) code.now result) }
{
    match prepare_two::<F, K>(alloc, words, code, links) {
        Ok(twin) => deliver_two(rt, words, code, twin, store, links, gate),
        Err(refused) => refused,
    }
}

// Sends the sources through an accepted code.
fn send_two_through<'a, S: Store, K: Links, G: Gate + Sync, R: Threads + Sync>(
    rt: &R,
    alloc: Global,
    words: &SendTwoWords<'a>,
    code: &Checked,
    store: &mut S,
    links: &mut K,
    gate: &G,
) -> Outcome<'a>
    requires { K.flying links.old ≡ [] }
    ensures { MakesBoth S.Store K.Links store.old store.new links.old links.new
        (SendsTwo (K.faithful links.old) (send_two_given_in words.now) code.now result) }
{
    match code.code().field {
        FieldKind::Eight => {
            send_two_over::<Gf8, S, K, G, R>(rt, alloc, words, code, store, links, gate)
        }
        FieldKind::Nine => {
            send_two_over::<Gf9, S, K, G, R>(rt, alloc, words, code, store, links, gate)
        }
        FieldKind::Sixteen => {
            send_two_over::<Gf16, S, K, G, R>(rt, alloc, words, code, store, links, gate)
        }
    }
}

/// Reads and checks the code, and carries two sources over the links to the files of each sink: of each block the first source
/// has so many rows, and the second has the others.
pub fn send_two<'a, S: Store, K: Links, G: Gate + Sync, R: Threads + Sync>(
    rt: &R,
    alloc: Global,
    words: &SendTwoWords<'a>,
    store: &mut S,
    links: &mut K,
    gate: &G,
) -> Outcome<'a>
    requires { K.flying links.old ≡ [] }
    ensures { RunsOn S.Store K.Links (send_two_command (K.faithful links.old) (send_two_given_in words.now))
        store.old store.new links.old links.new result }
{
    match read_accepted(rt, alloc, store, words.code, gate) {
        Ok(checked) => send_two_through(rt, alloc, words, &checked, store, links, gate),
        Err(refused) => refused,
    }
}
