//! What `send` has before it makes anything.
ghost use Rattle.std.specs.Prelude.{◌≡◌, ◌∷◌, [], IfOk, IfErr, OnOk};
ghost use Rattle.gf_tables.specs.Kind.{IsOfKind};
ghost use Rattle.lif_outside.specs.Calls.{MakesMoves};
ghost use Rattle.lif_outside.specs.Moves.{opened};
ghost use Rattle.coded_traffic.specs.Traffic.{room_for};
ghost use Rattle.top_base.specs.Given.{given_in};
ghost use Rattle.top_runs.specs.Send.Ready.{IsReady};
ghost use Rattle.top_runs.specs.Send.Runs.{RunsCode};
ghost use Rattle.top_runs.specs.Sending.{link_calls};

use code_checker::Checked;
use gf_tables::Field;
use lif_outside::Links;
use source_delivery::SourceDelivery;
use std::alloc::Global;
use top_base::{Line, Outcome, SendWords, Status, output_paths, pattern_named, shared_path};

/// Finds the pattern, sees that no path is shared, takes all memory and opens the links. `F` is the code's field.
pub fn prepare<'a, 'c, F: Field, K: Links>(
    alloc: Global,
    words: &SendWords<'a>,
    code: &'c Checked,
    links: &mut K,
) -> Result<SourceDelivery<'c, F>, Outcome<'a>>
    requires field { IsOfKind code.now.field F.SIZE F.BYTES F.MARK F.product }
    requires nothing_flies { K.flying links.old ≡ [] }
    ensures ready { IfOk result (IsReady (given_in words.now) code.now) }
    ensures opened { OnOk result
        (K.moves (opened words.now.seed (room_for code.now) ∷ []) links.old links.new) }
    ensures refused { IfErr result (λ outcome. MakesMoves K.Links links.old links.new
        (λ moves. RunsCode (K.faithful links.old) (given_in words.now) code.now
        outcome.status outcome.line (link_calls moves))) }
{
    let net = &code.code().net;
    let Some(pattern) = pattern_named(net, words.pattern.as_bytes()) else {
        return Err(Outcome {
            status: Status::UnknownPattern,
            line: Line::unknown_pattern(words.pattern),
        });
    };
    let outputs = output_paths(alloc, words.prefix, net)?;
    if let Some(path) = shared_path(&[words.code, words.source], &outputs) {
        return Err(Outcome {
            status: Status::SamePath,
            line: Line::same_path(path),
        });
    }
    Ok(SourceDelivery::open(alloc, code, pattern, words.seed, outputs, links)?)
}
