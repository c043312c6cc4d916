//! What `sendtwo` has before it makes anything.
ghost use Rattle.std.specs.Prelude.{◌≡◌, ◌⊎◌, ◌≤◌, ◌<◌, ◌∷◌, [], None, IfOk, IfErr, IfSome, OnOk};
ghost use Rattle.gf_tables.specs.Kind.{IsOfKind};
ghost use Rattle.lif_outside.specs.Calls.{MakesMoves};
ghost use Rattle.lif_outside.specs.Moves.{opened};
ghost use Rattle.coded_traffic.specs.Traffic.{room_for};
ghost use Rattle.top_base.specs.Given.{send_two_given_in};
ghost use Rattle.top_runs.specs.SendTwo.Ready.{IsReady};
ghost use Rattle.top_runs.specs.SendTwo.Runs.{RunsCode};
ghost use Rattle.top_runs.specs.Sending.{link_calls};

use code_checker::Checked;
use gf_tables::Field;
use lif_outside::Links;
use source_delivery::{SourceDelivery, TwinDelivery};
use std::alloc::Global;
use top_base::{
    Line, Outcome, SendTwoWords, Status, both_output_paths, pattern_named, shared_path,
};

// A rate of the first source that leaves each source some rows of a code's blocks.
fn fit_rate(first_rate: u64, rate: u32) -> Option<u32>
    ensures fit { IfSome result (λ fit. fit ≡ first_rate) }
    ensures some { IfSome result (λ fit. 1 ≤ fit) }
    ensures less { IfSome result (λ fit. fit < rate) }
    ensures unfit { result ≡ None → (first_rate ≡ 0) ⊎ (rate ≤ first_rate) }
{
    if first_rate == 0 || first_rate >= u64::from(rate) {
        return None;
    }
    Some(first_rate as u32)
}

/// Finds the pattern, sees that R1 leaves each source some rows and that no path is shared, takes all memory and opens the
/// links. `F` is the code's field.
pub fn prepare_two<'a, 'c, F: Field, K: Links>(
    alloc: Global,
    words: &SendTwoWords<'a>,
    code: &'c Checked,
    links: &mut K,
) -> Result<TwinDelivery<'c, 'a, F>, Outcome<'a>>
    requires field { IsOfKind code.now.field F.SIZE F.BYTES F.MARK F.product }
    requires nothing_flies { K.flying links.old ≡ [] }
    ensures ready { IfOk result (IsReady (send_two_given_in words.now) code.now) }
    ensures opened { OnOk result
        (K.moves (opened words.now.seed (room_for code.now) ∷ []) links.old links.new) }
    ensures refused { IfErr result (λ outcome. MakesMoves K.Links links.old links.new
        (λ moves. RunsCode (K.faithful links.old) (send_two_given_in words.now) code.now
        outcome.status outcome.line (link_calls moves))) }
{
    let net = &code.code().net;
    let Some(pattern) = pattern_named(net, words.pattern.as_bytes()) else {
        return Err(Outcome {
            status: Status::UnknownPattern,
            line: Line::unknown_pattern(words.pattern),
        });
    };
    let rate = code.code().rate;
    let Some(first_rate) = fit_rate(words.first_rate, rate) else {
        return Err(Outcome {
            status: Status::BadSplit { rate },
            line: Line::bad_split(rate),
        });
    };
    let outputs = both_output_paths(alloc, words.prefix, net)?;
    if let Some(path) = shared_path(&[words.code, words.first, words.second], &outputs) {
        return Err(Outcome {
            status: Status::SamePath,
            line: Line::same_path(path),
        });
    }
    Ok(SourceDelivery::open_two(
        alloc,
        code,
        pattern,
        words.seed,
        first_rate,
        words.first,
        words.second,
        outputs,
        links,
    )?)
}
